//! The commands over lines, from their arguments, on the files and streams that these name.

use crate::answer::answer;
use crate::replay::{draw, replay};
use crate::report::Reported;
use crate::show::show;
use clap::ArgMatches;
use config_file::{ConfigFile, error_of_run};
use enip_common::{
    ArgumentError, CommandError, ErrorKeeping, Fault, INPUT, NamedFile, NamedReason, OUTPUT, OsArg,
    Reason, arguments_after, is_input, print_argument_error,
};

/// `enip answer`.
pub fn run_answer<'a>(
    rt: &HostRuntime,
    args: &[OsArg],
    matches: &ArgMatches<'a>,
) -> Result<u8, CommandError<'a>> {
    if is_input(matches, "CONFIG") {
        return Ok(print_argument_error(rt, ArgumentError::InputOfLines));
    }
    let config = ConfigFile::read(rt, args, matches)?;
    let text = config.text(rt.alloc())?;
    let mut input = ErrorKeeping::new(rt.stdin());
    let mut output = ErrorKeeping::new(rt.stdout());
    let mut reported = Reported::new();
    let status = answer(rt.alloc(), text, &mut input, &mut output, &mut reported);
    match reported.fault() {
        None => Ok(status),
        Some(fault) => {
            let reason = output.reason(OUTPUT).or(input.reason(INPUT));
            Err(error_of_run(rt.alloc(), fault, &config, INPUT, reason))
        }
    }
}

/// `enip replay`.
pub fn run_replay<'a>(
    rt: &HostRuntime,
    args: &[OsArg],
    matches: &ArgMatches<'a>,
) -> Result<u8, CommandError<'a>> {
    if is_input(matches, "CONFIG") && is_input(matches, "SCRIPT") {
        return Ok(print_argument_error(rt, ArgumentError::InputTwice));
    }
    let config = ConfigFile::read(rt, args, matches)?;
    let rest = arguments_after(args, matches.get_str("CONFIG").unwrap_or(""));
    let script = NamedFile::read(rt, rest, matches, "SCRIPT")?;
    replay_files(rt, &config, &script, matches.get_flag("ladder"))
}

/// Runs or draws the script in a file.
fn replay_files<'a>(
    rt: &HostRuntime,
    config: &ConfigFile<'a>,
    script: &NamedFile<'a>,
    ladder: bool,
) -> Result<u8, CommandError<'a>> {
    let config_text = config.text(rt.alloc())?;
    let script_text = script.script_text(rt.alloc())?;
    let mut output = ErrorKeeping::new(rt.stdout());
    let mut reported = Reported::new();
    let (alloc, lines) = (rt.alloc(), script_text.as_str());
    let status = if ladder {
        draw(alloc, config_text, lines, &mut output, &mut reported)
    } else {
        replay(alloc, config_text, lines, &mut output, &mut reported)
    };
    match reported.fault() {
        None => Ok(status),
        Some(fault) => Err(error_of_run(
            alloc,
            fault,
            config,
            script.name(),
            output.reason(OUTPUT),
        )),
    }
}

/// `enip show`.
pub fn run_show<'a>(rt: &HostRuntime) -> Result<u8, CommandError<'a>> {
    let mut input = ErrorKeeping::new(rt.stdin());
    let mut output = ErrorKeeping::new(rt.stdout());
    let mut reported = Reported::new();
    let status = show(rt.alloc(), &mut input, &mut output, &mut reported);
    match reported.fault() {
        None => Ok(status),
        Some(Fault::Run(enip_commands::ProgramFault::Memory)) => Err(CommandError::of_memory()),
        Some(_) => {
            let reason = output.reason(OUTPUT).or(input.reason(INPUT));
            Err(CommandError::of_reason(reason.unwrap_or(Reason::Named(
                INPUT,
                NamedReason::Failed,
            ))))
        }
    }
}
