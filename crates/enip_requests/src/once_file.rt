//! `enip once`: what a file of `--once` has.

use crate::command_record::record_in;
use clap::ArgMatches;
use enip_commands::{record_line, record_listing};
use enip_common::{CommandError, ErrorKeeping, NamedReason, OUTPUT, OsArg, Reason, read_file};
use std::io::{self, Write};

/// How many bytes of the file are read: more than a command file has (ours).
const LONGEST: u64 = 16_777_216;

/// Prints what the file in the arguments has. Returns the exit status.
pub fn run_once_file<'a>(
    rt: &HostRuntime,
    args: &[OsArg],
    matches: &ArgMatches<'a>,
) -> Result<u8, CommandError<'a>> {
    let alloc = rt.alloc();
    let name = matches.get_str("FILE").unwrap_or("");
    let text = read_file(alloc, args, name, LONGEST).map_err(|error| CommandError::of_system(
        name, error,
    ))?;
    let record = match record_in(alloc, name, text.as_slice()) {
        Ok(record) => record,
        Err(error) => return Err(error),
    };
    if matches.get_flag("json") {
        let line = record_line(alloc, &record)?;
        print_text(rt, line.as_bytes(), b"\n")?;
    } else {
        print_text(rt, record_listing(alloc, &record)?.as_slice(), b"")?;
    }
    Ok(0)
}

/// Prints a text and its end on standard output.
fn print_text<'a>(rt: &HostRuntime, text: &[u8], end: &[u8]) -> Result<(), CommandError<'a>> {
    let mut output = ErrorKeeping::new(rt.stdout());
    match write_text(&mut output, text, end) {
        Ok(()) => Ok(()),
        Err(_) => {
            let reason = output
                .reason(OUTPUT)
                .unwrap_or(Reason::Named(OUTPUT, NamedReason::Failed));
            Err(CommandError::of_reason(reason))
        }
    }
}

fn write_text<W: Write>(output: &mut W, text: &[u8], end: &[u8]) -> io::Result<()> {
    output.write_all(text)?;
    output.write_all(end)?;
    output.flush()
}
