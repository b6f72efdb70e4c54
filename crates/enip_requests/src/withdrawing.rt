//! `--once` with `--abandon`: withdraws the pending command.
//!
//! The device is asked to withdraw the command. If it was withdrawn or is done, it is settled in FILE. After any other
//! answer, or none, nothing is given up. With `--force` the device is not asked, and the command is given up.

use crate::command_record::record_in;
use crate::once::{OnceRun, Settled, with_note};
use cip_commander::{Commander, WithdrawalOutcome};
use cip_message::ReplyBuf;
use enip_commands::{CommandRecord, OnceRefusal, PendingChoice, WithdrawalRefusal, check_once};
use enip_common::{
    CommandError, Fault, LockedFile, NamedReason, Note, OwnedDigits, Reason, print_reason,
};

/// The general status with which a ledger answers that it has a later command of the originator (ours).
const SMALLER: u8 = 0x0c;

impl<'a> OnceRun<'a, '_> {
    /// Withdraws the pending command, if there is one, and sends no other. Returns the exit status: that of the reply if
    /// the command was executed.
    pub(crate) fn withdraw_alone(&self) -> Result<u8, CommandError<'a>> {
        self.require_file()?;
        let file = self.lock()?;
        let text = self.read(&file)?;
        let Some(text) = text else {
            return Err(self.no_file());
        };
        let record = match record_in(self.rt.alloc(), self.options.file, text.as_slice()) {
            Ok(record) => record,
            Err(error) => return Err(error),
        };
        if self.options.is_forced {
            return self.give_up(&file, record);
        }
        let settled = Settled::Resumed(record.commander.last_number());
        self.withdraw(&file, record, settled)
    }

    /// Withdraws the pending command, if there is one, before a new one with this request is sent. Prints on standard
    /// error what became of it.
    pub(crate) fn withdraw_first(
        &self,
        file: &LockedFile,
        request: &[u8],
    ) -> Result<(), CommandError<'a>> {
        if self.options.is_forced {
            return Ok(());
        }
        let text = self.read(file)?;
        let Some(text) = text else {
            return Ok(());
        };
        let record = match record_in(self.rt.alloc(), self.options.file, text.as_slice()) {
            Ok(record) => record,
            Err(error) => return Err(error),
        };
        check_once(&record.commander, request, PendingChoice::Abandon).map_err(
            |why| self.error_of_refusal(&record.commander, request, why),
        )?;
        let settled = Settled::Another(record.commander.last_number());
        self.withdraw(file, record, settled)?;
        Ok(())
    }

    /// Asks the device to withdraw the pending command. Settles it if it was withdrawn or is done.
    fn withdraw(
        &self,
        file: &LockedFile,
        record: CommandRecord<'_>,
        settled: Settled,
    ) -> Result<u8, CommandError<'a>> {
        let mut record = record;
        let Some(message) = record.commander.withdrawal() else {
            return Ok(0);
        };
        let pending = record.commander.pending_request().unwrap_or(&[]);
        let request = hex::encode(self.rt.alloc(), pending)?;
        let mut reply = ReplyBuf::new();
        with_note(
            self.exchange(message.as_slice(), false, &mut reply),
            Note::NotGivenUp,
        )?;
        match record.commander.receive_withdrawal(reply.as_slice()) {
            WithdrawalOutcome::Withdrawn => {
                self.keep_withdrawn(file, &mut record)?;
                let number = record.commander.last_number();
                print_reason(self.rt, &Reason::Withdrawn(self.options.file, number));
                Ok(0)
            }
            WithdrawalOutcome::Done(answer) => {
                self.settle(file, &record, request.as_str(), answer, settled)
            }
            outcome => Err(self.error_of_withdrawal(&record.commander, outcome)),
        }
    }

    /// Gives up the pending command, if there is one, and sends nothing. Returns 0.
    fn give_up(
        &self,
        file: &LockedFile,
        record: CommandRecord<'_>,
    ) -> Result<u8, CommandError<'a>> {
        let mut record = record;
        let given_up = self.digits_of_pending(&record.commander)?;
        if record.commander.abandon() {
            record.pending_id = None;
            self.write(file, &record)?;
            print_reason(self.rt, &Reason::GivenUp(self.options.file, given_up));
        }
        Ok(0)
    }

    /// The request of a pending command that is given up for a new one, without asking the device.
    pub(crate) fn forced_request(
        &self,
        commander: &Commander,
    ) -> Result<Option<OwnedDigits>, CommandError<'a>> {
        match self.options.choice {
            PendingChoice::Abandon if commander.pending_request().is_some() => {
                Ok(Some(self.digits_of_pending(commander)?))
            }
            _ => Ok(None),
        }
    }

    /// Writes the file without its command, which was withdrawn.
    pub(crate) fn keep_withdrawn(
        &self,
        file: &LockedFile,
        record: &mut CommandRecord<'_>,
    ) -> Result<(), CommandError<'a>> {
        record.pending_id = None;
        with_note(self.write(file, record), Note::Withdrawn)
    }

    /// Reports that the command with this number, which was sent again, was withdrawn before. Returns 0 if it is not the
    /// command of the arguments.
    pub(crate) fn report_withdrawn(
        &self,
        number: u32,
        settled: Settled,
    ) -> Result<u8, CommandError<'a>> {
        let reason = Reason::Withdrawn(self.options.file, number);
        match settled {
            Settled::Another(_) => {
                print_reason(self.rt, &reason);
                Ok(0)
            }
            Settled::New | Settled::Resumed(_) => {
                Err(CommandError::new(Fault::Withdrawn, reason))
            }
        }
    }

    /// The error of a command that was neither withdrawn nor executed, as far as the device knows.
    fn error_of_withdrawal(
        &self,
        commander: &Commander,
        outcome: WithdrawalOutcome<'_>,
    ) -> CommandError<'a> {
        let address = self.device.address;
        match outcome {
            WithdrawalOutcome::HandedOver => {
                let reason = Reason::Named(address, NamedReason::HandedOver);
                CommandError::of_reason(reason).with_note(Note::HandedOver)
            }
            WithdrawalOutcome::InDoubt => {
                let reason = Reason::Named(address, NamedReason::InDoubt);
                CommandError::of_reason(reason).with_note(Note::NotGivenUp)
            }
            WithdrawalOutcome::OtherLife => {
                self.error_of_refusal(commander, &[], OnceRefusal::OtherLife)
            }
            WithdrawalOutcome::Smaller => self.error_of_status(SMALLER),
            WithdrawalOutcome::Refused(status) => self.error_of_status(status),
            _ => self.malformed().with_note(Note::NotGivenUp),
        }
    }

    /// The error of a command that the device refused to withdraw with a general status.
    fn error_of_status(&self, status: u8) -> CommandError<'a> {
        let refusal = WithdrawalRefusal::of(status);
        let note = if refusal.may_be_executed() {
            Note::NotGivenUp
        } else {
            Note::KeptUnexecuted
        };
        let reason = Reason::NotWithdrawn(self.device.address, refusal);
        CommandError::new(Fault::Refusal, reason).with_note(note)
    }
}
