//! The originator's side: one pending command, until a reply says that it is done.
//! Text: docs/PROTOCOL.md, "The command ledger".
ghost use Rattle.std.specs.Prelude.{◌≡◌, ◌≤◌, Some, None, IfOk, IfErr, IfSome, OnOk, length, is_some, option_map};
ghost use Rattle.std.specs.Option.{option_copied};
ghost use Rattle.std.specs.Borrow.{sem};
ghost use Rattle.std.specs.Io.BufRead.{Rests};
ghost use Rattle.cip_bytes.specs.declared.protocol.TheConstants.{UNCONNECTED_LIMIT};
ghost use Rattle.cip_commander.specs.Outcome.{outcome_in};
ghost use Rattle.cip_commander.specs.Withdrawing.{withdrawing_in};
ghost use Rattle.cip_commander.specs.CommanderRule.{embedded_refusal, do_once};

use crate::outcome::{CommandOutcome, read_outcome};
use crate::refusal::{CommandRefused, FRONT_SIZE, LONGEST_EMBEDDED};
use crate::withdrawal::{WithdrawRequest, WithdrawalOutcome, read_withdrawal, withdraw_request};
use arrayvec::ArrayVec;
use cip_bytes::protocol::{SMALLEST_REQUEST, UNCONNECTED_LIMIT};
use cip_bytes::{append, append_u32};
use cip_message::DO_ONCE;
use std::marker::Model;

/// The service and the path of Do_Once: two words, class 0x65, instance 1.
const DO_ONCE_HEAD: [u8; 6] = [DO_ONCE, 2, 0x20, 0x65, 0x24, 1];

/// The originator's side of commands that are executed once: at most one is pending.
#[derive(Drop)]
pub struct Commander {
    life: u64,
    originator: u64,
    /// The number that the last command took.
    last_number: u32,
    is_pending: bool,
    /// Do_Once with the pending command, if one is pending.
    message: ArrayVec<u8, UNCONNECTED_LIMIT>,
}

impl Model for Commander {
    ghost use Rattle.cip_commander.specs.CommanderRule.{CommanderState};

    ghost Value = { CommanderState };

    ghost use Rattle.cip_commander.specs.Commander.{commander_state, IsCommander};

    ghost view = { commander_state };

    ghost invariant = { IsCommander };
}

impl Commander {
    ghost use Rattle.cip_commander.specs.CommanderRule.{commander_at, command_refusal, with_command, pending_message};
    ghost use Rattle.cip_commander.specs.CommanderRule.{message_of, outcome_of, after_reply, abandoned, resume_refusal};
    ghost use Rattle.cip_commander.specs.CommanderRule.{IsInRange, pending_withdrawal, withdrawing_of, after_withdrawal};
    ghost use Rattle.cip_commander.specs.contracts.commander.Commander.{the_row};

    /// A commander without a pending command, whose last command had this number.
    pub fn new(life: u64, originator: u64, last_number: u32) -> Commander
        ensures state { result ≡ commander_at life originator last_number None }
        ensures range { IsInRange result }
    {
        Commander {
            life,
            originator,
            last_number,
            is_pending: false,
            message: ArrayVec::new(),
        }
    }

    /// The commander that had these values, as a file keeps them: with a pending command, `last_number` is its number.
    ///
    /// # Errors
    ///
    /// `NotARequest` or `TooLong` if no command can embed the pending request.
    pub fn resume(
        life: u64,
        originator: u64,
        last_number: u32,
        pending: Option<&[u8]>,
    ) -> Result<Commander, CommandRefused>
        ensures refused { IfErr result (λ why. resume_refusal (option_copied pending.entry) ≡ Some why) }
        ensures allowed { OnOk result (resume_refusal (option_copied pending.entry) ≡ None) }
        ensures resumed { IfOk result (λ commander.
            commander ≡ commander_at life originator last_number (option_copied pending.entry)) }
        ensures range { IfOk result (λ commander. IsInRange commander) }
    {
        let mut commander = Commander::new(life, originator, last_number);
        if let Some(request) = pending {
            if let Some(why) = embedded_refusal(request) {
                return Err(why);
            }
            write_message(
                &mut commander.message,
                life,
                originator,
                last_number,
                request,
            );
            commander.is_pending = true;
        }
        Ok(commander)
    }

    /// Takes a command with the next number, and lends the request to send.
    ///
    /// # Errors
    ///
    /// The first of these: `Pending`, `NotARequest`, `TooLong`, `NumbersExhausted`. Nothing has changed, and no number
    /// was taken.
    pub fn command(&mut self, request: &[u8]) -> Result<&[u8], CommandRefused>
        ensures refused { IfErr result (λ why. command_refusal self.old request.now ≡ Some why) }
        ensures allowed { OnOk result (command_refusal self.old request.now ≡ None) }
        ensures lent { IfOk result (λ lent. lent.now ≡ message_of (with_command self.old request.now) request.now) }
        ensures fits { IfOk result (λ lent. length lent.now ≤ UNCONNECTED_LIMIT) }
        ensures* after { sem 𝓛 (Rests the_row self.entry (λ new.
            IfErr result (λ _. new ≡ self.old) × IfOk result (λ _. new ≡ with_command self.old request.now))) }
    {
        if let Some(why) = self.refusal(request) {
            return Err(why);
        }
        let number = self.last_number + 1;
        write_message(
            &mut self.message,
            self.life,
            self.originator,
            number,
            request,
        );
        self.last_number = number;
        self.is_pending = true;
        Ok(self.message.as_slice())
    }

    /// The request of the pending command, for a new connection: the same bytes each time.
    pub fn pending(&self) -> Option<&[u8]>
        ensures lent { option_copied result ≡ pending_message self.now }
        ensures fits { IfSome result (λ lent. length lent.now ≤ UNCONNECTED_LIMIT) }
    {
        if !self.is_pending {
            return None;
        }
        Some(self.message.as_slice())
    }

    /// Takes a reply to the pending request.
    ///
    /// Only `Done` and `Withdrawn` end the command. After every other outcome the command is pending as before, and can be
    /// sent again. A command in doubt is answered as such until the device's owner settles it, and as done from then on.
    pub fn receive<'a>(&mut self, reply: &'a [u8]) -> CommandOutcome<'a>
        ensures outcome { outcome_in result ≡ outcome_of self.old reply.now }
        ensures state { self.new ≡ after_reply self.old reply.now }
    {
        if !self.is_pending {
            return CommandOutcome::NotPending;
        }
        let outcome = read_outcome(reply);
        if let CommandOutcome::Done(_) | CommandOutcome::Withdrawn = outcome {
            self.is_pending = false;
        }
        outcome
    }

    /// Withdraw of the pending command: the request to send, and the same bytes each time. `None` if none is pending.
    pub fn withdrawal(&self) -> Option<WithdrawRequest>
        ensures { option_map (λ request. request.items) result ≡ pending_withdrawal self.now }
    {
        if !self.is_pending {
            return None;
        }
        Some(withdraw_request(self.life, self.originator, self.last_number))
    }

    /// Takes a reply to Withdraw of the pending command.
    ///
    /// Only `Withdrawn` and `Done` end the command. After every other outcome it is pending as before, and can be sent
    /// or withdrawn again.
    pub fn receive_withdrawal<'a>(&mut self, reply: &'a [u8]) -> WithdrawalOutcome<'a>
        ensures outcome { withdrawing_in result ≡ withdrawing_of self.old reply.now }
        ensures state { self.new ≡ after_withdrawal self.old reply.now }
    {
        if !self.is_pending {
            return WithdrawalOutcome::NotPending;
        }
        let outcome = read_withdrawal(reply);
        if let WithdrawalOutcome::Withdrawn | WithdrawalOutcome::Done(_) = outcome {
            self.is_pending = false;
        }
        outcome
    }

    /// Gives the pending command up: no reply to it is accepted. False if none is pending.
    ///
    /// It is executed once or not at all, now or later. Once a later command is done, it will not be executed any more.
    pub fn abandon(&mut self) -> bool
        ensures was_pending { result ≡ is_some self.old.pending }
        ensures state { self.new ≡ abandoned self.old }
    {
        let was_pending = self.is_pending;
        self.is_pending = false;
        was_pending
    }

    /// The life of the device that the commands are for.
    pub fn life(&self) -> u64
        ensures { result ≡ self.now.life }
    {
        self.life
    }

    /// Who gives the commands.
    pub fn originator(&self) -> u64
        ensures { result ≡ self.now.originator }
    {
        self.originator
    }

    /// The number that the last command took.
    pub fn last_number(&self) -> u32
        ensures { result ≡ self.now.last_number }
    {
        self.last_number
    }

    /// The embedded request of the pending command.
    pub fn pending_request(&self) -> Option<&[u8]>
        ensures { option_copied result ≡ self.now.pending }
    {
        if !self.is_pending {
            return None;
        }
        Some(&self.message.as_slice()[FRONT_SIZE..])
    }

    /// Why a command is not taken now, in the order of the checks.
    fn refusal(&self, request: &[u8]) -> Option<CommandRefused>
        ensures { result ≡ command_refusal self.now request.now }
    {
        if self.is_pending {
            return Some(CommandRefused::Pending);
        }
        if let Some(why) = embedded_refusal(request) {
            return Some(why);
        }
        if self.last_number == u32::MAX {
            return Some(CommandRefused::NumbersExhausted);
        }
        None
    }
}

/// Why no command can embed a request.
fn embedded_refusal(request: &[u8]) -> Option<CommandRefused>
    ensures { result ≡ embedded_refusal request.now }
{
    // a service and a path size at least, and bit 7 marks a reply (router messages)
    if request.len() < SMALLEST_REQUEST || request[0] >= 0x80 {
        return Some(CommandRefused::NotARequest);
    }
    // an unconnected request holds it (ledger, ours)
    if request.len() > LONGEST_EMBEDDED {
        return Some(CommandRefused::TooLong);
    }
    None
}

/// Writes Do_Once with a command in place of what a buffer has.
fn write_message(
    message: &mut ArrayVec<u8, UNCONNECTED_LIMIT>,
    life: u64,
    originator: u64,
    number: u32,
    request: &[u8],
)
    requires { length request.now ≤ LONGEST_EMBEDDED }
    ensures { message.new.items
        ≡ do_once (record { life = life; originator = originator; number = number; request = request.now }) }
{
    message.clear();
    append(message, &DO_ONCE_HEAD);
    append(message, &life.to_le_bytes());
    append(message, &originator.to_le_bytes());
    append_u32(message, number);
    append(message, request);
}
