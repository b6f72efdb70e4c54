//! `--once` with `--id`: a command whose id says that it is the same one, however often and by whichever shell it is sent.
//!
//! FILE has the ids of the last commands, with their requests and their replies. A command whose id is among them is not
//! sent again: its reply is printed. A pending command with another id, or without one, is settled first.

use crate::once::{OnceRun, Settled};
use cip_bytes::StatusText;
use cip_message::ReplyView;
use enip_commands::{
    CommandRecord, IdPlan, PendingChoice, begin_once, check_once, plan_id, reply_of_digits,
};
use enip_common::{
    CommandError, Fault, LockedFile, NamedReason, Note, OwnedDigits, OwnedReply, Reason,
    print_reason,
};

/// How often the file is looked at: before another command is settled, and after that.
const LOOKS: usize = 2;

impl<'a> OnceRun<'a, '_> {
    /// Sends a command with an id, unless it was executed before, and prints its reply. Returns the exit status.
    pub(crate) fn send_identified(&self, id: &str, request: &[u8]) -> Result<u8, CommandError<'a>> {
        let digits = hex::encode(self.rt.alloc(), request)?;
        let life = self.life_without_file()?;
        let file = self.lock()?;
        for _ in 0..LOOKS {
            let text = self.read(&file)?;
            let record = match self.record_of(&text) {
                Ok(record) => record,
                Err(error) => return Err(error),
            };
            match plan_id(&record, id.as_bytes(), request, digits.as_bytes()) {
                Ok(IdPlan::Executed(reply)) => return self.print_again(reply),
                Ok(IdPlan::Send) => return self.send_in(&file, record, request, life),
                Ok(IdPlan::SettleFirst) => self.settle_first(&file, record, request)?,
                Err(why) => return Err(self.error_of_refusal(&record.commander, request, why)),
            }
        }
        Err(CommandError::of_reason(Reason::Named(self.options.file, NamedReason::Failed)))
    }

    /// Prints the reply of a command that was executed before, which is given in digits. Returns the exit status.
    fn print_again(&self, digits: &[u8]) -> Result<u8, CommandError<'a>> {
        match reply_of_digits(digits) {
            Some(reply) => self.print(reply.as_slice(), None),
            None => Err(self.malformed()),
        }
    }

    /// Settles the pending command, before one with this request is sent.
    fn settle_first(
        &self,
        file: &LockedFile,
        record: CommandRecord<'_>,
        request: &[u8],
    ) -> Result<(), CommandError<'a>> {
        check_once(&record.commander, request, PendingChoice::Abandon).map_err(
            |why| self.error_of_refusal(&record.commander, request, why),
        )?;
        match self.settle_pending(file, record) {
            Ok(()) => Ok(()),
            Err(error) => Err(error.of_pending(Fault::Blocked).with_note(Note::Blocked)),
        }
    }

    /// Sends the pending command until the device has executed it, and prints its end on standard error.
    fn settle_pending(
        &self,
        file: &LockedFile,
        record: CommandRecord<'_>,
    ) -> Result<(), CommandError<'a>> {
        let mut record = record;
        let life = self.life(Note::Blocked)?;
        begin_once(&mut record.commander, &[], life, PendingChoice::Send).map_err(
            |why| self.error_of_refusal(&record.commander, &[], why),
        )?;
        self.check_size(&record.commander)?;
        self.write(file, &record)?;
        let number = record.commander.last_number();
        self.finish(file, record, Settled::Another(number))?;
        Ok(())
    }

    /// Prints on standard error how a command ended that is not that of the arguments. Returns 0.
    pub(crate) fn print_end(&self, reply: &[u8], number: u32) -> Result<u8, CommandError<'a>> {
        let alloc = self.rt.alloc();
        let Ok(reply) = ReplyView::read(reply) else {
            return Err(self.malformed());
        };
        let end = if reply.status == 0 {
            OwnedReply::Done(OwnedDigits::new(alloc, reply.data)?)
        } else {
            OwnedReply::Refused(StatusText {
                status: reply.status,
                extended: reply.additional_word(0).unwrap_or(0),
            })
        };
        print_reason(self.rt, &Reason::Settled(self.options.file, number, end));
        Ok(0)
    }
}
