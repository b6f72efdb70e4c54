//! What a command file has, or why it is refused.

use enip_commands::{CommandRecord, RecordFailure, read_record};
use enip_common::{CommandError, Fault, Reason};
use std::alloc::Global;

/// What the command file of this name has, by its text.
pub(crate) fn record_in<'a, 't>(
    alloc: Global,
    file: &'a str,
    text: &'t [u8],
) -> Result<CommandRecord<'t>, CommandError<'a>> {
    match read_record(alloc, text) {
        Ok(record) => Ok(record),
        Err(RecordFailure::Refused(fault)) => {
            let line = fault.line();
            let reason = Reason::CommandFile(file, line, fault);
            Err(CommandError::new(Fault::CommandFile(line), reason))
        }
        Err(RecordFailure::Memory) => Err(CommandError::of_memory()),
    }
}
