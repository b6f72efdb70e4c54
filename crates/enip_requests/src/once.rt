//! `--once`: a command that the device executes once, even if connections are lost.
//!
//! FILE has the commander: the originator, the device's life, the last number, and the command while it is pending. A
//! command is written to FILE before it is sent, and settled there once its reply is printed. If the device has put the
//! command into its queue, it is sent again until it is executed. Commands with an id are in `identified`, and `--abandon`
//! is in `withdrawing`.

use crate::command_record::record_in;
use crate::once_options::OnceOptions;
use crate::pauses::next_pause;
use crate::request::print_refusal;
use cip_bytes::StatusText;
use cip_commander::{CommandOutcome, Commander};
use cip_message::ReplyBuf;
use enip_client::ClientFault;
use enip_commands::{
    CommandRecord, DoneCommand, LIFE_REQUEST, LifeFault, PendingChoice, ReplyOutcome,
    RequestFailure, begin_once, check_once, read_life, show_reply, show_resumed, text_after,
};
use enip_common::{
    CLOCK, CommandError, ErrorKeeping, Fault, HostPort, LockedFile, NamedReason, Note, OUTPUT,
    OsArg, Reason, exists, option_file_name, print_reason,
};
use remote_device::{Device, Request, error_of_failure, exchange, fault_of_request};
use std::thread;
use std::time::{Duration, Instant};

/// How long to wait before a device is tried again, in milliseconds (ours).
const RETRY_DELAY: u64 = 100;

/// The bytes of a sequence count, which precedes a request on a connection. (Volume 1, transport class 3.)
const COUNT_SIZE: usize = 2;

/// Whose reply a run prints.
#[derive(Clone, Copy)]
pub(crate) enum Settled {
    /// That of a command that this run has sent first.
    New,
    /// That of a command that an earlier run has sent, with this number.
    Resumed(u32),
    /// None: the command is another one, with this number, and its end is printed on standard error.
    Another(u32),
}

/// A device, and the file of the commands that it is sent.
#[derive(Drop)]
pub(crate) struct OnceRun<'a, 'r> {
    pub(crate) rt: &'r HostRuntime,
    pub(crate) device: Device<'a>,
    pub(crate) options: OnceOptions<'a>,
    /// The name of the command file.
    pub(crate) name: &'r [u8],
}

/// Sends a command until the device replies that it is executed, and prints the reply. Without a request, sends or
/// withdraws the pending command. Returns the exit status.
pub(crate) fn run_once<'a>(
    rt: &HostRuntime,
    args: &[OsArg],
    device: Device<'a>,
    request: Option<Request<'a, '_>>,
    options: OnceOptions<'a>,
) -> Result<u8, CommandError<'a>> {
    HostPort::parse(device.address)?;
    let run = OnceRun {
        rt,
        device,
        options,
        name: option_file_name(args, "--once", options.file),
    };
    match (request, options.choice, options.id) {
        (Some(request), _, Some(id)) => {
            run.send_identified(id, request.bytes(rt.alloc())?.as_slice())
        }
        (Some(request), _, None) => run.send(request.bytes(rt.alloc())?.as_slice()),
        (None, PendingChoice::Abandon, _) => run.withdraw_alone(),
        (None, _, _) => run.send(&[]),
    }
}

/// The originator and the last number of a command file, for `enip ledger --forget`. Its last command must not be
/// pending.
pub(crate) fn slot_of_file<'a>(
    rt: &HostRuntime,
    args: &[OsArg],
    device: Device<'a>,
    file: &'a str,
) -> Result<(u64, u32), CommandError<'a>> {
    HostPort::parse(device.address)?;
    let run = OnceRun {
        rt,
        device,
        options: OnceOptions::of_file(file),
        name: option_file_name(args, "--forget", file),
    };
    run.require_file()?;
    let locked = run.lock()?;
    let text = run.read(&locked)?;
    let Some(text) = text else {
        return Err(run.no_file());
    };
    let record = match record_in(rt.alloc(), file, text.as_slice()) {
        Ok(record) => record,
        Err(error) => return Err(error),
    };
    if record.commander.pending_request().is_some() {
        let reason = Reason::Named(file, NamedReason::CommandPending);
        return Err(CommandError::new(Fault::Pending, reason));
    }
    Ok((
        record.commander.originator(),
        record.commander.last_number(),
    ))
}

impl<'a> OnceRun<'a, '_> {
    /// Sends a command as the options say.
    fn send(&self, request: &[u8]) -> Result<u8, CommandError<'a>> {
        if let PendingChoice::Send = self.options.choice {
            self.require_file()?;
        }
        let life = self.life_without_file()?;
        let file = self.lock()?;
        if let PendingChoice::Abandon = self.options.choice {
            self.withdraw_first(&file, request)?;
        }
        let text = self.read(&file)?;
        match self.record_of(&text) {
            Ok(record) => self.send_in(&file, record, request, life),
            Err(error) => Err(error),
        }
    }

    /// The life of the device if there is no file yet: without a ledger no file is created.
    pub(crate) fn life_without_file(&self) -> Result<Option<u64>, CommandError<'a>> {
        if exists(self.name) {
            Ok(None)
        } else {
            Ok(Some(self.life(Note::NotSent)?))
        }
    }

    /// Sends a command of a file as the options say. `life` is that of the device, if it is known.
    pub(crate) fn send_in(
        &self,
        file: &LockedFile,
        record: CommandRecord<'_>,
        request: &[u8],
        life: Option<u64>,
    ) -> Result<u8, CommandError<'a>> {
        let settled = self.settled_by(&record.commander);
        let is_pending = matches!(settled, Settled::Resumed(_));
        match self.begin(file, record, request, life) {
            Ok(record) => self.in_file(self.finish(file, record, settled), true),
            Err(error) => self.in_file(Err(error), is_pending),
        }
    }

    /// Makes the command to send the pending one, and writes it to the file.
    fn begin<'t>(
        &self,
        file: &LockedFile,
        record: CommandRecord<'t>,
        request: &[u8],
        life: Option<u64>,
    ) -> Result<CommandRecord<'t>, CommandError<'a>>
    where
        'a: 't,
    {
        let mut record = record;
        let choice = self.options.choice;
        check_once(&record.commander, request, choice).map_err(|why| self.error_of_refusal(
            &record.commander,
            request,
            why,
        ))?;
        let note = self.note_before(&record.commander);
        let given_up = self.forced_request(&record.commander)?;
        let life = match life {
            Some(life) => life,
            None => self.life(note)?,
        };
        if let Settled::New = self.settled_by(&record.commander) {
            record.pending_id = self.options.id.map(|id| id.as_bytes());
        }
        begin_once(&mut record.commander, request, life, choice).map_err(
            |why| self.error_of_refusal(&record.commander, request, why),
        )?;
        self.check_size(&record.commander)?;
        with_note(self.write(file, &record), note)?;
        if let Some(request) = given_up {
            print_reason(self.rt, &Reason::GivenUp(self.options.file, request));
        }
        Ok(record)
    }

    /// Whose reply is printed, before the command is begun.
    fn settled_by(&self, commander: &Commander) -> Settled {
        match (commander.pending_request(), self.options.choice) {
            (None, _) | (_, PendingChoice::Abandon) => Settled::New,
            (Some(_), _) => Settled::Resumed(commander.last_number()),
        }
    }

    /// The same outcome. If the command has an id and is pending in the file, the exit status of an error says so.
    fn in_file(
        &self,
        outcome: Result<u8, CommandError<'a>>,
        is_pending: bool,
    ) -> Result<u8, CommandError<'a>> {
        match outcome {
            Err(error) if is_pending && self.options.id.is_some() => {
                Err(error.of_pending(Fault::Unsettled))
            }
            outcome => outcome,
        }
    }

    /// Sends the pending command until the device has executed it, prints the reply and settles the command.
    pub(crate) fn finish(
        &self,
        file: &LockedFile,
        record: CommandRecord<'_>,
        settled: Settled,
    ) -> Result<u8, CommandError<'a>> {
        let mut record = record;
        let alloc = self.rt.alloc();
        let request = hex::encode(alloc, record.commander.pending_request().unwrap_or(&[]))?;
        let originator = record.commander.originator();
        let mut pause = None;
        for _ in 0..u64::MAX {
            let mut reply = ReplyBuf::new();
            let message = record.commander.pending().unwrap_or(&[]);
            if let Err(error) = self.exchange(message, self.device.connected, &mut reply) {
                return Err(self.error_of_exchange(error, pause.is_some()));
            }
            match record.commander.receive(reply.as_slice()) {
                CommandOutcome::StillPending => {}
                CommandOutcome::Done(answer) => {
                    return self.settle(file, &record, request.as_str(), answer, settled);
                }
                CommandOutcome::Withdrawn => {
                    self.keep_withdrawn(file, &mut record)?;
                    return self.report_withdrawn(record.commander.last_number(), settled);
                }
                outcome => return Err(self.error_of_outcome(originator, outcome)),
            }
            let next = next_pause(pause);
            self.wait(next)?;
            pause = Some(next);
        }
        Err(CommandError::of_reason(Reason::Named(self.device.address, NamedReason::Failed)))
    }

    /// Prints the reply to the command that was pending, and settles it in the file. Returns the exit status.
    pub(crate) fn settle(
        &self,
        file: &LockedFile,
        record: &CommandRecord<'_>,
        request: &str,
        reply: &[u8],
        settled: Settled,
    ) -> Result<u8, CommandError<'a>> {
        // printed first: if that fails, the command stays pending, and its reply can be asked for again
        let status = self.print_settled(reply, settled)?;
        with_note(self.keep(file, record, request, reply), Note::Executed)?;
        Ok(status)
    }

    /// Writes the file once its command was executed: with its id and its reply, if it has an id.
    fn keep(
        &self,
        file: &LockedFile,
        record: &CommandRecord<'_>,
        request: &str,
        reply: &[u8],
    ) -> Result<(), CommandError<'a>> {
        let Some(id) = record.pending_id else {
            return self.write(file, record);
        };
        let alloc = self.rt.alloc();
        let reply = hex::encode(alloc, reply)?;
        let command = DoneCommand {
            id,
            request: request.as_bytes(),
            reply: reply.as_bytes(),
        };
        let most = usize::try_from(self.options.most_ids).unwrap_or(1).max(1);
        let text = text_after(alloc, record, command, most)?;
        self.write_text(file, text.as_slice())
    }

    /// Prints the reply to a command that was executed. Returns the exit status.
    fn print_settled(&self, reply: &[u8], settled: Settled) -> Result<u8, CommandError<'a>> {
        match settled {
            Settled::New => self.print(reply, None),
            Settled::Resumed(number) => self.print(reply, Some(number)),
            Settled::Another(number) => self.print_end(reply, number),
        }
    }

    /// Waits for so many milliseconds before the result of a queued command is asked for again. Fails at the deadline.
    fn wait(&self, milliseconds: u64) -> Result<(), CommandError<'a>> {
        let pause = Duration::from_millis(milliseconds);
        let pause = match self.device.timeout.left(self.rt) {
            Some(left) => pause.min(left),
            None => pause,
        };
        thread::sleep(self.rt, pause);
        match self.device.timeout.deadline_over(self.rt) {
            Some(deadline) => Err(self.not_executed_yet(deadline)),
            None => Ok(()),
        }
    }

    /// The error of a command of this originator that the device has not executed in the end.
    fn error_of_outcome(&self, originator: u64, outcome: CommandOutcome<'_>) -> CommandError<'a> {
        match outcome {
            CommandOutcome::InDoubt => {
                let reason = Reason::Named(self.device.address, NamedReason::InDoubt);
                CommandError::of_reason(reason).with_note(self.unanswered())
            }
            CommandOutcome::Refused(status) => {
                self.error_of_ledger(status, self.refusal_of(originator, status))
            }
            _ => self.malformed().with_note(self.unanswered()),
        }
    }

    /// Prints the reply to a command. If an earlier run has sent it, with this number, says so. Returns the exit status.
    pub(crate) fn print(&self, reply: &[u8], resumed: Option<u32>) -> Result<u8, CommandError<'a>> {
        let outcome = match self.device.quiet_outcome(reply) {
            Some(outcome) => outcome,
            None => self.show(reply, resumed)?,
        };
        if let Some(number) = resumed {
            print_reason(self.rt, &Reason::Resumed(self.options.file, number));
        }
        print_refusal(self.rt, self.device, outcome);
        Ok(outcome.exit_status())
    }

    /// Prints the reply to a command on standard output.
    fn show(&self, reply: &[u8], resumed: Option<u32>) -> Result<ReplyOutcome, CommandError<'a>> {
        let (alloc, style) = (self.rt.alloc(), self.device.style);
        let mut output = ErrorKeeping::new(self.rt.stdout());
        let shown = match resumed {
            Some(number) => show_resumed(alloc, &mut output, style, number, reply),
            None => show_reply(alloc, &mut output, style, reply),
        };
        match shown {
            Ok(outcome) => Ok(outcome),
            Err(failure) => {
                let reason = output.reason(OUTPUT);
                Err(error_of_failure(failure, self.device.address, reason).with_note(
                    Note::Executed,
                ))
            }
        }
    }

    /// What is known of the command before it is sent in this run.
    fn note_before(&self, commander: &Commander) -> Note {
        match (commander.pending_request(), self.options.choice) {
            (None, _) | (_, PendingChoice::Abandon) => Note::NotSent,
            (Some(_), _) => Note::MaybeExecuted,
        }
    }

    /// What is known of the command once it was sent in this run.
    pub(crate) fn unanswered(&self) -> Note {
        match self.options.choice {
            PendingChoice::Abandon => Note::MaybeExecutedNew,
            PendingChoice::Same | PendingChoice::Send => Note::MaybeExecuted,
        }
    }

    /// What is known of the command once the device has put it into its queue.
    pub(crate) fn queued(&self) -> Note {
        match self.options.choice {
            PendingChoice::Abandon => Note::QueuedNew,
            PendingChoice::Same | PendingChoice::Send => Note::Queued,
        }
    }

    /// Reads the life of the device's ledger. An error has a note.
    pub(crate) fn life(&self, note: Note) -> Result<u64, CommandError<'a>> {
        let mut reply = ReplyBuf::new();
        with_note(self.exchange(&LIFE_REQUEST, false, &mut reply), note)?;
        let error = match read_life(reply.as_slice()) {
            Ok(life) => return Ok(life),
            Err(LifeFault::NoLedger(status, extended)) => CommandError::new(
                Fault::Refusal,
                Reason::NoLedger(self.device.address, StatusText { status, extended }),
            ),
            Err(LifeFault::Malformed) => self.malformed(),
        };
        Err(error.with_note(note))
    }

    /// Sends a request, and again on a new connection if there is no reply, up to the number of tries.
    pub(crate) fn exchange(
        &self,
        request: &[u8],
        connected: bool,
        reply: &mut ReplyBuf,
    ) -> Result<(), CommandError<'a>> {
        for number in 1..u64::MAX {
            match self.exchange_once(request, connected, reply) {
                Err(error) if number != self.options.tries && self.may_try_again(&error) => {
                    print_reason(self.rt, &error.into_reason());
                    thread::sleep(self.rt, Duration::from_millis(RETRY_DELAY));
                }
                ended => return ended,
            }
        }
        Err(CommandError::of_reason(Reason::Named(self.device.address, NamedReason::Failed)))
    }

    /// Whether an error may pass before the deadline.
    fn may_try_again(&self, error: &CommandError<'a>) -> bool {
        error.may_pass() && self.device.timeout.deadline_over(self.rt).is_none()
    }

    /// Sends a request once in a session of its own.
    pub(crate) fn exchange_once(
        &self,
        request: &[u8],
        connected: bool,
        reply: &mut ReplyBuf,
    ) -> Result<(), CommandError<'a>> {
        let device = Device {
            connected,
            tries: 1,
            ..self.device
        };
        Ok(exchange(self.rt, device, request, reply)?)
    }

    /// Checks that a connection of the size that is opened holds the pending command.
    pub(crate) fn check_size(&self, commander: &Commander) -> Result<(), CommandError<'a>> {
        let message = commander.pending().unwrap_or(&[]);
        let most = usize::from(self.device.connection.size()).saturating_sub(COUNT_SIZE);
        if self.device.connected && message.len() > most {
            return Err(too_long());
        }
        Ok(())
    }

    pub(crate) fn now(&self) -> Result<Instant, CommandError<'a>> {
        Instant::now(self.rt).map_err(|error| CommandError::of_system(CLOCK, error))
    }
}

/// The same outcome, with what became of the command in its error.
pub(crate) fn with_note<'a, T>(
    outcome: Result<T, CommandError<'a>>,
    note: Note,
) -> Result<T, CommandError<'a>> {
    match outcome {
        Ok(value) => Ok(value),
        Err(error) => Err(error.with_note(note)),
    }
}

/// The error of a request that no message holds.
fn too_long<'a>() -> CommandError<'a> {
    CommandError::new(
        fault_of_request(RequestFailure::Client(ClientFault::Request)),
        Reason::Request,
    )
}
