//! Why a file of `--once` is refused.

ghost use Rattle.std.specs.Prelude.{◌≡◌};
ghost use Rattle.enip_faults.specs.Refusals.{fault_line, record_line};

use thiserror::Error;

/// Why a text is not that of a commander: the first line that is not as expected. The text is what was expected.
#[derive(Clone, Copy, Debug, PartialEq, Eq, Error)]
pub enum CommandFileFault {
    /// The text does not begin with the line `enip commands 1`.
    #[error("expected `enip commands 1`")]
    Head,
    /// The second line is not an originator.
    #[error("expected `originator` and 16 lower-case hexadecimal digits")]
    Originator,
    /// The third line is not a life.
    #[error("expected `life` and 0 to 18446744073709551615")]
    Life,
    /// The fourth line is not the last number.
    #[error("expected `number` and 0 to 4294967295")]
    Number,
    /// The fifth line is neither `pending none` nor a request that a command can embed.
    #[error("expected `pending none`, or `pending` and a request in lower-case hexadecimal digits")]
    Pending,
    /// The text goes on after the fifth line.
    #[error("expected the end of the file")]
    End,
}

impl CommandFileFault {
    /// The line, from 1.
    pub fn line(self) -> u64
        ensures { result ≡ fault_line self }
    {
        match self {
            CommandFileFault::Head => 1,
            CommandFileFault::Originator => 2,
            CommandFileFault::Life => 3,
            CommandFileFault::Number => 4,
            CommandFileFault::Pending => 5,
            CommandFileFault::End => 6,
        }
    }
}

/// Why a text is not that of a command file, with or without ids. The text is what was expected.
#[derive(Clone, Copy, Debug, PartialEq, Eq, Error)]
pub enum RecordFault {
    /// The lines of the commander are not as expected. The first field is how many lines precede those of a file without
    /// ids.
    #[error("{1}")]
    Commander(u64, CommandFileFault),
    /// The line is not the number of ids.
    #[error("expected `ids` and 0 to 1024")]
    Count,
    /// The line does not begin a command that was executed, or its id is that of another one.
    #[error("expected `id`, `request` and `reply` of a command, with an id that no other command has")]
    Done(u64),
    /// The line has no id of a pending command.
    #[error("expected `pending-id no id`, or `pending-id` and an id that no other command has")]
    PendingId(u64),
}

impl RecordFault {
    /// The line, from 1.
    pub fn line(self) -> u64
        ensures { result ≡ record_line self }
    {
        match self {
            RecordFault::Commander(before, fault) => before.saturating_add(fault.line()),
            RecordFault::Count => 2,
            RecordFault::Done(line) | RecordFault::PendingId(line) => line,
        }
    }
}
