//! `enip`: an EtherNet/IP adapter and explicit messaging client on the command line.
#![tactic(auto)]

use clap::ArgMatches;
use command_line::{Page, parse, run_page};
use described_device::{run_check, run_eds};
use enip_cli::PROGRAM;
use enip_client::ListCommand;
use enip_common::{ARGUMENTS_REFUSED, CommandError, OsArg, os_args, reserve_streams};
use enip_device::run_serve;
use enip_requests::{
    Query, is_help_of_objects, run_call, run_get, run_help_of_objects, run_once_file, run_query,
    run_set, run_slots,
};
use enip_sessions::{run_batch, run_inspect, run_watch};
pub use line_commands::{answer, replay, report, show};
use line_commands::{run_answer, run_replay, run_show};
use std::process::ExitCode;

/// Runs the command in the arguments. Returns the exit status.
fn run_command<'a>(
    rt: &HostRuntime,
    args: &[OsArg],
    matches: &ArgMatches<'a>,
) -> Result<u8, CommandError<'a>> {
    let Some((command, matches)) = matches.subcommand() else {
        return Ok(ARGUMENTS_REFUSED);
    };
    match command {
        "answer" => return run_answer(rt, args, matches),
        "replay" => return run_replay(rt, args, matches),
        "check" => return run_check(rt, args, matches),
        "eds" => return run_eds(rt, args, matches),
        "serve" => return run_serve(rt, args, matches),
        "show" => return run_show(rt),
        "identity" => return run_query(rt, Query::List(ListCommand::Identity), matches),
        "services" => return run_query(rt, Query::List(ListCommand::Services), matches),
        "discover" => return run_query(rt, Query::Discovery, matches),
        "get" => return run_get(rt, args, matches),
        "set" => return run_set(rt, args, matches),
        "call" => return run_call(rt, args, matches),
        "ledger" => return run_slots(rt, args, matches),
        "once" => return run_once_file(rt, args, matches),
        "batch" => return run_batch(rt, matches),
        "watch" => return run_watch(rt, matches),
        "inspect" => return run_inspect(rt, matches),
        "completions" => {
            let shell = matches.get_str("SHELL").unwrap_or("");
            return run_page(rt, Page::Completions(shell));
        }
        "man" => return run_page(rt, Page::Man),
        _ => {}
    }
    Ok(ARGUMENTS_REFUSED)
}

/// Runs the command of these arguments. Returns the exit status.
fn run_arguments(rt: &HostRuntime, args: &[OsArg]) -> u8 {
    if is_help_of_objects(args) {
        return status_of(rt, run_help_of_objects(rt));
    }
    match parse(rt, args) {
        Ok(matches) => status_of(rt, run_command(rt, args, &matches)),
        Err(status) => status,
    }
}

/// The exit status of a command. Prints why it failed, if it has.
fn status_of(rt: &HostRuntime, ended: Result<u8, CommandError<'_>>) -> u8 {
    match ended {
        Ok(status) => status,
        Err(error) => error.print(rt),
    }
}

/// Reads the arguments, and runs their command. Returns the exit status.
fn run_program(rt: &HostRuntime) -> u8 {
    match os_args(rt, rt.alloc(), PROGRAM) {
        Ok(args) => run_arguments(rt, args.as_slice()),
        Err(_) => CommandError::of_memory().print(rt),
    }
}

fn main(rt: HostRuntime) -> ExitCode {
    // without a free descriptor the command fails by itself
    let _ = reserve_streams();
    ExitCode::from(run_program(&rt))
}
