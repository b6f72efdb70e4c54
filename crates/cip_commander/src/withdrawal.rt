//! Withdrawing the pending command: the request, and what a reply says.
//! Text: docs/PROTOCOL.md, "The command ledger".
ghost use Rattle.std.specs.Prelude.{◌≡◌};
ghost use Rattle.cip_commander.specs.Withdrawing.{withdraw, withdrawing_in, withdrawing_of_data, withdrawing_of_text};

use crate::outcome::{DONE, IN_DOUBT, TAKEN, WITHDRAWN};
use arrayvec::ArrayVec;
use cip_bytes::{append, append_u32};
use cip_message::{ReplyView, WITHDRAW, reply_service};

/// The bytes of Withdraw: a service, a path of two words, a life, an originator and a number.
pub const WITHDRAW_REQUEST_SIZE: usize = 26;

/// Withdraw of a command.
pub type WithdrawRequest = ArrayVec<u8, WITHDRAW_REQUEST_SIZE>;

/// The service and the path of Withdraw: two words, class 0x65, instance 1.
const WITHDRAW_HEAD: [u8; 6] = [WITHDRAW, 2, 0x20, 0x65, 0x24, 1];

/// The general status of a command whose originator has given a later one (ours).
const SMALLER: u8 = 0x0c;

/// The general status of a command for another life of the device (ours).
const OTHER_LIFE: u8 = 0x10;

/// What a reply to Withdraw says about the pending command.
#[derive(Clone, Copy, Debug, PartialEq, Eq)]
pub enum WithdrawalOutcome<'a> {
    /// The command was withdrawn: it was not executed, and never will be. Nothing is pending any more.
    Withdrawn,
    /// The device's owner has the command, and may be executing it. The command is still pending.
    HandedOver,
    /// The command was executed, with this reply to its embedded request. Nothing is pending any more.
    Done(&'a [u8]),
    /// The device does not know whether the command was executed, and will not execute it. Its owner has to settle the
    /// command. It is still pending.
    InDoubt,
    /// The device has a later command of the originator: it will not execute this one, and may have executed it before.
    /// The command is still pending.
    Smaller,
    /// The device is in another life: it will not execute the command, and may have executed it before. The command is
    /// still pending.
    OtherLife,
    /// The device refused the request with this general status. The command is still pending.
    Refused(u8),
    /// Not a reply to Withdraw. Nothing has changed.
    Malformed,
    /// No command is pending. Nothing has changed.
    NotPending,
}

/// Withdraw of the command with this number.
pub fn withdraw_request(life: u64, originator: u64, number: u32) -> WithdrawRequest
    ensures { result.items ≡ withdraw life originator number }
{
    let mut request = ArrayVec::new();
    append(&mut request, &WITHDRAW_HEAD);
    append(&mut request, &life.to_le_bytes());
    append(&mut request, &originator.to_le_bytes());
    append_u32(&mut request, number);
    request
}

/// What a reply to Withdraw says about its command.
#[tactic(auto, unfolding(crate::specs::Withdrawing::withdrawing_of_text))]
pub fn read_withdrawal(text: &[u8]) -> WithdrawalOutcome<'_>
    ensures { withdrawing_in result ≡ withdrawing_of_text text.now }
{
    let Ok(reply) = ReplyView::read(text) else {
        return WithdrawalOutcome::Malformed;
    };
    if reply.service != reply_service(WITHDRAW) {
        return WithdrawalOutcome::Malformed;
    }
    match reply.status {
        0 => withdrawal_by_state(reply.data),
        SMALLER => WithdrawalOutcome::Smaller,
        OTHER_LIFE => WithdrawalOutcome::OtherLife,
        status => WithdrawalOutcome::Refused(status),
    }
}

/// What the data of a success reply say: a state byte, and of a command that is done the reply.
fn withdrawal_by_state(data: &[u8]) -> WithdrawalOutcome<'_>
    ensures { withdrawing_in result ≡ withdrawing_of_data «data».now }
{
    match data {
        [DONE, reply @ ..] => WithdrawalOutcome::Done(reply),
        // a command that is pending after Withdraw was handed over before it (ledger, ours)
        [TAKEN, ..] => WithdrawalOutcome::HandedOver,
        [IN_DOUBT, ..] => WithdrawalOutcome::InDoubt,
        [WITHDRAWN, ..] => WithdrawalOutcome::Withdrawn,
        _ => WithdrawalOutcome::Malformed,
    }
}
