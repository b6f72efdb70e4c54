//! Parses the arguments of the program.

use clap::ArgMatches;
use clap::error::{Error, ErrorKind};
use enip_cli::program;
use enip_common::{ARGUMENTS_REFUSED, CommandError, OUTPUT, OsArg};

/// Parses the arguments of the program. If they are refused, or ask for the help or the version, prints that.
///
/// # Errors
///
/// The exit status, if no command is to be run.
pub fn parse<'a>(rt: &HostRuntime, args: &'a [OsArg]) -> Result<ArgMatches<'a>, u8> {
    let Ok(program) = program(rt.alloc()) else {
        return Err(CommandError::of_memory().print(rt));
    };
    match program.try_get_matches_from(args) {
        Ok(matches) => Ok(matches),
        Err(error) => Err(print_refusal(rt, &error)),
    }
}

/// Prints what there is instead of a command: the help, the version, or why the arguments are refused. Returns the exit
/// status.
fn print_refusal(rt: &HostRuntime, error: &Error) -> u8 {
    if error.kind() == ErrorKind::OutOfMemory {
        return CommandError::of_memory().print(rt);
    }
    let printed = error.print(rt);
    if error.use_stderr() {
        return ARGUMENTS_REFUSED;
    }
    match printed {
        Ok(()) => 0,
        Err(error) => CommandError::of_system(OUTPUT, error).print(rt),
    }
}
