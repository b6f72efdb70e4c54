//! Why a command fails, as text for people. It comes before the line that goes with the exit status.

ghost use Rattle.std.specs.Prelude.{◌≡◌};
ghost use Rattle.enip_common.specs.Statuses.{exit_status, pending_fault};

use crate::fault::Fault;
use crate::owner_need::OwnerNeed;
use cip_bytes::StatusText;
use cip_route::RouteFailure;
use cip_values::{ValueFault, ValueType};
use enip_faults::{Digits, LedgerRefusal, LineFault, ProgramFault, RecordFault, WithdrawalRefusal};
use std::alloc::{AllocError, Global};
use std::fmt;
use std::io::{self, ErrorKind};
use thiserror::Error;

/// Why a command fails, or why a device refused a request. The first field names the file, stream or address, if any.
#[derive(Debug, Drop, Error)]
pub enum Reason<'a> {
    /// What is wrong with the file, the stream, the device or the address of this name.
    #[error("{0}: {1}")]
    Named(&'a str, NamedReason),
    /// The system reports an error of a file, a stream or an address.
    #[error("{0}: {1}")]
    System(&'a str, SystemError),
    /// A file that is kept under this name, or its folder, cannot be used.
    #[error("{}: {}", StateFileName(*.0, *.1), .2)]
    Storage(&'a str, StateFile, StorageReason),
    /// What has changed could not be kept there.
    #[error("{}: could not be written ({}), so the last requests were not answered", StateFileName(*.0, *.1), .2)]
    NotKept(&'a str, StateFile, StorageReason),
    /// The device at the address did not answer within so many seconds.
    #[error("{0}: no answer within {1} s")]
    TimedOut(&'a str, &'a str),
    /// The device at the address did not answer before the deadline of so many seconds.
    #[error("{0}: not done within {1} s (--deadline)")]
    DeadlineOver(&'a str, &'a str),
    /// The device at the address has taken a command, and did not execute it before the deadline of so many seconds.
    #[error("{0}: not executed within {1} s (--deadline)")]
    NotExecutedYet(&'a str, &'a str),
    /// The command refuses a configuration.
    #[error("{0}: {1}")]
    Configuration(&'a str, ConfigurationReason),
    /// A line of an input is refused.
    #[error("{0}, line {1}: {2}")]
    Line(&'a str, u64, LineFault),
    /// The argument is not hexadecimal.
    #[error("{0}: not hexadecimal (two digits per byte)")]
    Hex(&'a str),
    /// The argument is not a value of the requested type, or of the field of a layout with this number, from 1.
    #[error("{}", NumberedFault(*.0, *.1))]
    Value(usize, ValueFault<'a>),
    /// A layout takes the first number of values, and there are this many arguments.
    #[error("the layout takes {0} values, not {1}")]
    Values(usize, usize),
    /// The data of the reply are not values of the requested type. Without one they are not those of the requested layout,
    /// at the field with this number, from 1, or after the last one.
    #[error("{}", ShapeText(*.0, *.1, *.2))]
    Shape(Option<ValueType>, usize, ValueFault<'static>),
    /// The device refused the session with this encapsulation status.
    #[error("the device refused the session (encapsulation status {0:#06x})")]
    Session(u32),
    /// The device refused the request with this encapsulation status.
    #[error("the device refused the request (encapsulation status {0:#06x})")]
    Encapsulation(u32),
    /// The header of a frame from the device has too great a length.
    #[error("the device sent a frame that is too long")]
    TooLong,
    /// The reply is not the reply to the request.
    #[error("the device sent a malformed reply")]
    Malformed,
    /// The request is too long.
    #[error("the request is too long")]
    Request,
    /// The client could not send the request.
    #[error("the request is not possible")]
    State,
    /// The device refused the request with this general status.
    #[error("{0}")]
    Refused(StatusText),
    /// A router on the route did not pass the request on.
    #[error("{0}")]
    Route(RouteFailure),
    /// The device refused the connection, since it has one with these serial numbers.
    #[error("{0} (see --connection-serial)")]
    SerialInUse(StatusText),
    /// A line of a command file is refused.
    #[error("{0}, line {1}: {2}")]
    CommandFile(&'a str, u64, RecordFault),
    /// The command file has this pending command, and the arguments have that one.
    #[error("{0}: another command is pending: {1}, not {2} (see --pending and --abandon)")]
    OtherPending(&'a str, OwnedDigits, OwnedDigits),
    /// The pending command of the command file was for another life of the device.
    #[error("{0}: the device has restarted, and may have executed the pending command {1} before (see --abandon and --force)")]
    OtherLife(&'a str, OwnedDigits),
    /// The command of the command file with this id has another request than the arguments.
    #[error("{0}: the id {1} is that of a command with another request")]
    OtherRequest(&'a str, &'a str),
    /// The reply that is printed is that to the pending command with this number.
    #[error("{0}: resumed the pending command {1}")]
    Resumed(&'a str, u32),
    /// Another command, with this number, was pending in the command file, and was executed with this reply.
    #[error("{0}: the command {1} was pending, and was executed: {2}")]
    Settled(&'a str, u32, OwnedReply),
    /// The pending command of the command file was given up.
    #[error("{0}: gave up the command {1}, which is executed at most once")]
    GivenUp(&'a str, OwnedDigits),
    /// The command with this number, which was pending in the command file, was withdrawn.
    #[error("{0}: the command {1} was withdrawn, and is never executed")]
    Withdrawn(&'a str, u32),
    /// The device has no command ledger: it refused with this general status.
    #[error("{0}: the device has no command ledger ({1})")]
    NoLedger(&'a str, StatusText),
    /// The ledger of the device refused the command.
    #[error("{0}: {1}")]
    Ledger(&'a str, LedgerRefusal),
    /// The device refused to withdraw the command.
    #[error("{0}: {1}")]
    NotWithdrawn(&'a str, WithdrawalRefusal),
    /// The state lacks so many of the rounds that `FILE.round` counts.
    #[error("{0}: older than {0}.round says, by {1} rounds (see --accept-older)")]
    Older(&'a str, u64),
    /// `FILE.round` is missing or damaged.
    #[error("{0}: {0}.round is missing or damaged, so the state may be older than it was (see --accept-older)")]
    NoLastRound(&'a str),
    /// A device does not start from the state in the file, for this reason.
    #[error("{0}: {1}")]
    NoStart(&'a str, String),
    /// Memory was refused.
    #[error("out of memory")]
    Memory,
}

/// What is wrong with a file, a stream, a device or an address, in words that need nothing more.
#[derive(Clone, Copy, Debug, Error)]
pub enum NamedReason {
    /// A file, a stream or an address failed, and the system did not say why.
    #[error("failed")]
    Failed,
    /// The argument is not an address.
    #[error("not an address (expected HOST or HOST:PORT)")]
    NotAnAddress,
    /// The name has no address.
    #[error("no such host")]
    NoHost,
    /// Other machines than this one reach the address.
    #[error("not a loopback address (see --owner-from)")]
    NotLoopback,
    /// The first line of the file cannot be a token.
    #[error("its first line is not a token (1 to 65536 bytes)")]
    NoToken,
    /// The device at the address closed the connection.
    #[error("the device closed the connection before it replied")]
    Disconnected,
    /// Another process uses the command file.
    #[error("another process uses it")]
    InUse,
    /// The command file has no pending command.
    #[error("no command is pending")]
    NonePending,
    /// The command file has a pending command.
    #[error("a command is pending (see --pending and --abandon)")]
    CommandPending,
    /// The slot of the ledger is that of another command, or its command is pending.
    #[error("the last command of the slot has another number, or is still pending (see enip ledger)")]
    OtherNumber,
    /// The device does not know whether it executed the command.
    #[error("the device does not know whether it executed the command, and its owner has to settle that")]
    InDoubt,
    /// The device cannot withdraw the command, because its owner has it.
    #[error("the owner of the device has the command, and may be executing it")]
    HandedOver,
    /// The name of the file is no text.
    #[error("the name is not UTF-8")]
    NotText,
    /// The file is no state, or is damaged.
    #[error("not the state of a device, or damaged")]
    NotAState,
    /// The state is that of another device.
    #[error("the state of another device (vendor, product code or serial number)")]
    OtherDevice,
    /// A part of the command ledger is not used.
    #[error("the command ledger starts empty, in a new life")]
    NewLife,
}

/// A file that is kept under the name FILE, or the folder that it is in.
#[derive(Clone, Copy, Debug, PartialEq, Eq)]
pub enum StateFile {
    /// FILE itself.
    File,
    /// `FILE-wal`, its newest changes.
    Log,
    /// `FILE.round`, the number of its last round.
    Round,
    /// `FILE.lock`, which is locked while FILE is used.
    Lock,
    Folder,
}

/// A name, and which of its files is meant.
#[derive(Clone, Copy)]
struct StateFileName<'a>(&'a str, StateFile);

impl fmt::Display for StateFileName<'_> {
    fn fmt<W: fmt::Write>(&self, f: &mut fmt::Formatter<W>) -> fmt::Result {
        let name = self.0;
        match self.1 {
            StateFile::File => f.write_str(name),
            StateFile::Log => write!(f, "{name}-wal"),
            StateFile::Round => write!(f, "{name}.round"),
            StateFile::Lock => write!(f, "{name}.lock"),
            StateFile::Folder => write!(f, "the folder of {name}"),
        }
    }
}

/// Why a file that is kept cannot be used.
#[derive(Clone, Copy, Debug, Error)]
pub enum StorageReason {
    /// There is no space left.
    #[error("no space left")]
    Full,
    /// A read, a write or a sync failed, and nobody says why.
    #[error("a read or a write failed")]
    Failed,
    /// It cannot be opened or created, and nobody says why.
    #[error("cannot be opened")]
    CannotOpen,
    /// The name leads to another file than before, or to none.
    #[error("removed or replaced")]
    Removed,
    /// What is read is damaged.
    #[error("damaged")]
    Damaged,
    /// The name is that of a symbolic link.
    #[error("a symbolic link to no file")]
    Dangling,
    /// The system says why.
    #[error("{0}")]
    System(SystemError),
}

/// Why a command refuses a configuration.
#[derive(Debug, Drop, Error)]
pub enum ConfigurationReason {
    /// A check of the configuration fails: what is wrong, and in which line.
    #[error("{0}")]
    Check(String),
    /// It is longer than any device needs.
    #[error("over 1 MiB")]
    TooLong,
    /// It has too few slots, handles or connection IDs for a replay.
    #[error("no capacity for two sessions and a connection")]
    NoCapacity,
    /// Its device needs an owner, and has none.
    #[error("{0}")]
    NoOwner(OwnerNeed),
}

/// What became of a command that is executed once, if the program fails. It ends the line of the reason.
#[derive(Clone, Copy, Debug, Error)]
pub enum Note {
    /// Nothing was sent.
    #[error("the command was not sent")]
    NotSent,
    /// The command was sent, now or earlier, and the device has not replied.
    #[error("the command may have been executed, and the same line sends it again")]
    MaybeExecuted,
    /// The same, for a line that would give up the command if it were run again.
    #[error("the command may have been executed, and the same line without --abandon sends it again")]
    MaybeExecutedNew,
    /// The device has put the command into its queue, and has not executed it yet.
    #[error("the command was queued, and the same line asks for its reply")]
    Queued,
    /// The same, for a line that would give up the command if it were run again.
    #[error("the command was queued, and the same line without --abandon asks for its reply")]
    QueuedNew,
    /// The ledger refused the command.
    #[error("the command was not executed, and is still pending")]
    NotExecuted,
    /// The ledger refused the command, and it may have executed it before.
    #[error("the command may have been executed, and is still pending")]
    StillPending,
    /// The device was asked to withdraw the command, and its owner has it.
    #[error("the command was not given up, and `--pending` waits for its reply")]
    HandedOver,
    /// The device was asked to withdraw the command, and did not say that it is withdrawn or done.
    #[error("the command may have been executed, and was not given up (see --force)")]
    NotGivenUp,
    /// The same of a command that the device has not executed.
    #[error("the command was not executed, and was not given up (see --force)")]
    KeptUnexecuted,
    /// The device has withdrawn the command, and that could not be kept.
    #[error("the command was withdrawn, and the same line settles it")]
    Withdrawn,
    /// The request was sent once or more, and no reply came.
    #[error("the request may have been executed (see --once)")]
    NoReply,
    /// Another command is pending in the file, and this one is sent once that one is done.
    #[error("the command was not sent, because another one is pending")]
    Blocked,
    /// The device has replied, and its reply could not be printed, or the command could not be settled.
    #[error("the command was executed, and `--pending` prints its reply again")]
    Executed,
}

/// Bytes in hexadecimal, for a message.
#[derive(Debug, Drop)]
pub struct OwnedDigits(Vec<u8>);

impl OwnedDigits {
    pub fn new(alloc: Global, bytes: &[u8]) -> Result<OwnedDigits, AllocError> {
        let mut owned = Vec::new(alloc);
        owned.extend_from_slice(bytes)?;
        Ok(OwnedDigits(owned))
    }
}

impl fmt::Display for OwnedDigits {
    fn fmt<W: fmt::Write>(&self, f: &mut fmt::Formatter<W>) -> fmt::Result {
        fmt::Display::fmt(&Digits(self.0.as_slice()), f)
    }
}

/// The reply to a command, for a message: its data in hexadecimal or `ok`, or the refusal.
#[derive(Debug, Drop)]
pub enum OwnedReply {
    Done(OwnedDigits),
    Refused(StatusText),
}

impl fmt::Display for OwnedReply {
    fn fmt<W: fmt::Write>(&self, f: &mut fmt::Formatter<W>) -> fmt::Result {
        match self {
            OwnedReply::Done(digits) if digits.0.is_empty() => f.write_str("ok"),
            OwnedReply::Done(digits) => write!(f, "{digits}"),
            OwnedReply::Refused(text) => write!(f, "refused {:#04x} ({text})", text.status),
        }
    }
}

/// An error of the system, as text.
#[derive(Clone, Copy, Debug)]
pub struct SystemError(pub io::Error);

impl fmt::Display for SystemError {
    fn fmt<W: fmt::Write>(&self, f: &mut fmt::Formatter<W>) -> fmt::Result {
        let kind = self.0.kind();
        match kind {
            ErrorKind::NotFound => f.write_str("no such file"),
            ErrorKind::IsADirectory => f.write_str("is a directory"),
            ErrorKind::NotADirectory => {
                f.write_str("no such file: a part of the path is not a directory")
            }
            ErrorKind::StorageFull => f.write_str("no space left"),
            ErrorKind::BrokenPipe => f.write_str("the other end is closed"),
            ErrorKind::AddrInUse => f.write_str("the address is in use by another program"),
            ErrorKind::AddrNotAvailable => f.write_str("not an address of this machine"),
            ErrorKind::HostUnreachable => f.write_str("no route to this host"),
            ErrorKind::NetworkUnreachable => f.write_str("no route to this network"),
            ErrorKind::TimedOut => f.write_str("no answer"),
            _ if self.0.raw_os_error() == Some(libc::EBADF) => f.write_str("is not open"),
            _ => write!(f, "{kind}"),
        }
    }
}

/// A fault of a value, with the number of its field. 0 is no field.
#[derive(Clone, Copy)]
struct NumberedFault<'a>(usize, ValueFault<'a>);

impl fmt::Display for NumberedFault<'_> {
    fn fmt<W: fmt::Write>(&self, f: &mut fmt::Formatter<W>) -> fmt::Result {
        let (number, fault) = (self.0, self.1);
        match number {
            0 => write!(f, "{fault}"),
            _ => write!(f, "field {number}: {fault}"),
        }
    }
}

/// What the data of a reply are not values of, and why.
#[derive(Clone, Copy)]
struct ShapeText(Option<ValueType>, usize, ValueFault<'static>);

impl fmt::Display for ShapeText {
    fn fmt<W: fmt::Write>(&self, f: &mut fmt::Formatter<W>) -> fmt::Result {
        let fault = NumberedFault(self.1, self.2);
        match self.0 {
            Some(value_type) => write!(f, "the data are not of type {value_type}: {fault}"),
            None => write!(f, "the data are not of the layout: {fault}"),
        }
    }
}

impl Reason<'_> {
    /// The reason of a refusal: what these statuses mean. A router reports by them why it did not pass a request on.
    pub fn of_refusal(status: u8, extended: u16) -> Self {
        match RouteFailure::of(status, extended) {
            // a device refuses a connection by the same status, and the text is of its path
            Some(RouteFailure::Segment) | None => Reason::Refused(StatusText { status, extended }),
            Some(failure) => Reason::Route(failure),
        }
    }
}

/// The name of the clock in a reason.
pub const CLOCK: &str = "the clock";

/// The error of a command: the fault, with its exit status and its line for scripts, and the reason for people.
pub struct CommandError<'a> {
    fault: Fault,
    reason: Reason<'a>,
    note: Option<Note>,
}

// Written out, so that each exit of a function that owns one calls it, and has no drop of every part.
impl Drop for CommandError<'_> {
    fn drop(self) {
        let CommandError {
            fault: _,
            reason: _,
            note: _,
        } = self;
    }
}

impl<'a> CommandError<'a> {
    /// An error with this fault and this reason.
    pub fn new(fault: Fault, reason: Reason<'a>) -> CommandError<'a>
        ensures { result.fault ≡ fault }
    {
        CommandError {
            fault,
            reason,
            note: None,
        }
    }

    /// The same error, with what became of the command.
    pub fn with_note(self, note: Note) -> CommandError<'a> {
        let CommandError {
            fault,
            reason,
            note: _,
        } = self;
        CommandError {
            fault,
            reason,
            note: Some(note),
        }
    }

    /// The same error with another fault, if it is that a file, a stream or a device failed.
    pub fn of_pending(self, fault: Fault) -> CommandError<'a>
        ensures { result.fault ≡ pending_fault self.entry.fault fault }
    {
        let CommandError {
            fault: failed,
            reason,
            note,
        } = self;
        let fault = if failed.is_of_device() { fault } else { failed };
        CommandError {
            fault,
            reason,
            note,
        }
    }

    /// Whether the same exchange with the device may succeed later: there was no reply, or no session or connection.
    pub fn may_pass(&self) -> bool {
        matches!(
            self.fault,
            Fault::Run(ProgramFault::Device) | Fault::Session | Fault::Refusal
        )
    }

    /// The system reports an error of a file, a stream or an address of this name.
    pub fn of_system(name: &'a str, error: io::Error) -> CommandError<'a> {
        let reason = match error.kind() {
            ErrorKind::OutOfMemory => Reason::Memory,
            _ => Reason::System(name, SystemError(error)),
        };
        CommandError::new(Fault::from(error), reason)
    }

    /// A file, a stream or a device failed for this reason.
    pub fn of_reason(reason: Reason<'a>) -> CommandError<'a> {
        CommandError::new(Fault::Run(enip_faults::ProgramFault::Device), reason)
    }

    /// Memory was refused.
    pub fn of_memory() -> CommandError<'a> {
        CommandError::new(
            Fault::Run(enip_faults::ProgramFault::Memory),
            Reason::Memory,
        )
    }

    /// Why the command ended early.
    pub fn into_reason(self) -> Reason<'a>
        ensures { result ≡ self.entry.reason }
    {
        let CommandError {
            fault: _,
            reason,
            note: _,
        } = self;
        reason
    }

    /// Prints both lines on standard error. Returns the exit status.
    pub fn print<E: Eprint>(self, rt: &E) -> u8
        ensures { result ≡ exit_status self.entry.fault }
    {
        match self.note {
            Some(note) => {
                let _ = eprintln!(rt; "enip: {}; {note}", self.reason);
            }
            None => print_reason(rt, &self.reason),
        }
        let _ = eprintln!(rt; "{}", self.fault);
        self.fault.exit_status()
    }
}

impl From<std::alloc::AllocError> for CommandError<'_> {
    fn from(_error: std::alloc::AllocError) -> Self {
        CommandError::of_memory()
    }
}

/// Prints a reason on standard error.
pub fn print_reason<E: Eprint, R: fmt::Display>(rt: &E, reason: &R) {
    let _ = eprintln!(rt; "enip: {reason}");
}
