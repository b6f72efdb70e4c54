//! Why a command of `--once` is not sent, or has no reply.

use crate::once::OnceRun;
use cip_commander::{
    COUNTS_REQUEST, CommandRefused, Commander, SlotsFault, last_request, read_counts, read_last,
};
use cip_message::ReplyBuf;
use enip_client::ClientFault;
use enip_commands::{LedgerRefusal, OnceRefusal, RequestFailure};
use enip_common::{CommandError, Fault, NamedReason, Note, OwnedDigits, Reason};
use remote_device::{error_of_failure, fault_of_once};

/// The general status of Get_Last if the originator has no slot (ours).
const UNKNOWN_ORIGINATOR: u8 = 0x16;

impl<'a> OnceRun<'a, '_> {
    /// The request of the pending command, for a message. Empty if none is pending.
    pub(crate) fn digits_of_pending(
        &self,
        commander: &Commander,
    ) -> Result<OwnedDigits, CommandError<'a>> {
        let request = commander.pending_request().unwrap_or(&[]);
        Ok(OwnedDigits::new(self.rt.alloc(), request)?)
    }

    /// The error of a command without a reply. `is_queued` is whether the device has put it into its queue before.
    pub(crate) fn error_of_exchange(
        &self,
        error: CommandError<'a>,
        is_queued: bool,
    ) -> CommandError<'a> {
        if !is_queued {
            return error.with_note(self.unanswered());
        }
        match self.device.timeout.deadline_over(self.rt) {
            Some(deadline) => self.not_executed_yet(deadline),
            None => error.with_note(self.queued()),
        }
    }

    /// The error of a command that is still in the queue of the device at the deadline.
    pub(crate) fn not_executed_yet(&self, deadline: &'a str) -> CommandError<'a> {
        let reason = Reason::NotExecutedYet(self.device.address, deadline);
        CommandError::of_reason(reason).with_note(self.queued())
    }

    /// The error of a device whose reply has another form.
    pub(crate) fn malformed(&self) -> CommandError<'a> {
        error_of_failure(
            RequestFailure::Client(ClientFault::Malformed),
            self.device.address,
            None,
        )
    }

    /// What it means that the ledger refused a command of this originator with a general status.
    pub(crate) fn refusal_of(&self, originator: u64, status: u8) -> LedgerRefusal {
        match LedgerRefusal::of(status) {
            LedgerRefusal::NoSlot => self.which_is_full(originator),
            refusal => refusal,
        }
    }

    /// Whether the slots are taken or the queue is full: the ledger refuses a command of this originator with the same
    /// status. The device is asked for the originator's slot, and without one for the free slots. `NoSlot` if it does
    /// not answer.
    fn which_is_full(&self, originator: u64) -> LedgerRefusal {
        let mut reply = ReplyBuf::new();
        let last = last_request(originator);
        if self
            .exchange_once(last.as_slice(), false, &mut reply)
            .is_err()
        {
            return LedgerRefusal::NoSlot;
        }
        match read_last(reply.as_slice()) {
            Ok(_) => return LedgerRefusal::QueueFull,
            Err(SlotsFault::Refused(UNKNOWN_ORIGINATOR, _)) => {}
            Err(_) => return LedgerRefusal::NoSlot,
        }
        if self
            .exchange_once(&COUNTS_REQUEST, false, &mut reply)
            .is_err()
        {
            return LedgerRefusal::NoSlot;
        }
        match read_counts(reply.as_slice()) {
            Ok((slots, taken)) if taken < slots => LedgerRefusal::QueueFull,
            Ok(_) => LedgerRefusal::SlotsTaken,
            Err(_) => LedgerRefusal::NoSlot,
        }
    }

    /// The error of a command that the ledger refused with a general status.
    pub(crate) fn error_of_ledger(&self, status: u8, refusal: LedgerRefusal) -> CommandError<'a> {
        let note = if refusal.may_be_executed() {
            Note::StillPending
        } else {
            Note::NotExecuted
        };
        let reason = Reason::Ledger(self.device.address, refusal);
        CommandError::new(Fault::Refusal, reason).with_note(note)
    }

    /// The error of a command that is not sent because of the command file.
    pub(crate) fn error_of_refusal(
        &self,
        commander: &Commander,
        request: &[u8],
        refusal: OnceRefusal,
    ) -> CommandError<'a> {
        match self.reason_of_refusal(commander, request, refusal) {
            Ok(reason) => CommandError::new(fault_of_once(refusal), reason),
            Err(error) => error,
        }
    }

    fn reason_of_refusal(
        &self,
        commander: &Commander,
        request: &[u8],
        refusal: OnceRefusal,
    ) -> Result<Reason<'a>, CommandError<'a>> {
        let file = self.options.file;
        match refusal {
            OnceRefusal::Differs => {
                let pending = self.digits_of_pending(commander)?;
                let given = OwnedDigits::new(self.rt.alloc(), request)?;
                Ok(Reason::OtherPending(file, pending, given))
            }
            OnceRefusal::OtherLife => {
                Ok(Reason::OtherLife(file, self.digits_of_pending(commander)?))
            }
            OnceRefusal::Withdrawn => Ok(Reason::Withdrawn(file, commander.last_number())),
            OnceRefusal::NonePending => Ok(Reason::Named(file, NamedReason::NonePending)),
            OnceRefusal::OtherRequest => {
                Ok(Reason::OtherRequest(file, self.options.id.unwrap_or("")))
            }
            OnceRefusal::Command(CommandRefused::TooLong | CommandRefused::NotARequest) => {
                Ok(Reason::Request)
            }
            OnceRefusal::Command(_) => Ok(Reason::State),
        }
    }
}
