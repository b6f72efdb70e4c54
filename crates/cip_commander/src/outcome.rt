//! What a reply says about the pending command.
ghost use Rattle.std.specs.Prelude.{◌≡◌};
ghost use Rattle.cip_commander.specs.Outcome.{outcome_in, outcome_of_data, outcome_of_text};

use cip_message::{DO_ONCE, ReplyView, reply_service};

/// What a reply says about the pending command.
#[derive(Clone, Copy, Debug, PartialEq, Eq)]
pub enum CommandOutcome<'a> {
    /// The command was executed, with this reply to its embedded request. Nothing is pending any more.
    Done(&'a [u8]),
    /// The device has taken the command and has not executed it yet. The command is still pending.
    StillPending,
    /// The device does not know whether the command was executed, and will not execute it. Its owner has to settle the
    /// command. It is still pending.
    InDoubt,
    /// The command was withdrawn: it was not executed, and never will be. Nothing is pending any more.
    Withdrawn,
    /// The device refused the command with this general status. The command is still pending.
    Refused(u8),
    /// Not a reply to Do_Once. Nothing has changed.
    Malformed,
    /// No command is pending. Nothing has changed.
    NotPending,
}

/// The state byte of a command that is done.
pub(crate) const DONE: u8 = 0;

/// The state byte of a command that the device has taken and not executed yet.
pub(crate) const TAKEN: u8 = 1;

/// The state byte of a command of which the device does not know whether it was executed.
pub(crate) const IN_DOUBT: u8 = 2;

/// The state byte of a command that was withdrawn.
pub(crate) const WITHDRAWN: u8 = 3;

/// What a text says about a pending command.
#[tactic(auto, unfolding(crate::specs::Outcome::outcome_of_text))]
pub(crate) fn read_outcome(text: &[u8]) -> CommandOutcome<'_>
    ensures { outcome_in result ≡ outcome_of_text text.now }
{
    let Ok(reply) = ReplyView::read(text) else {
        return CommandOutcome::Malformed;
    };
    if reply.service != reply_service(DO_ONCE) {
        return CommandOutcome::Malformed;
    }
    // any status but success leaves the command pending (ledger, ours)
    if reply.status != 0 {
        return CommandOutcome::Refused(reply.status);
    }
    outcome_by_state(reply.data)
}

/// What the data of a success reply say: a state byte, and the reply to the embedded request.
fn outcome_by_state(data: &[u8]) -> CommandOutcome<'_>
    ensures { outcome_in result ≡ outcome_of_data «data».now }
{
    match data {
        [DONE, reply @ ..] => CommandOutcome::Done(reply),
        [TAKEN, ..] => CommandOutcome::StillPending,
        [IN_DOUBT, ..] => CommandOutcome::InDoubt,
        [WITHDRAWN, ..] => CommandOutcome::Withdrawn,
        _ => CommandOutcome::Malformed,
    }
}
