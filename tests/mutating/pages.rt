//! The part of the program that prints its help, its completions and its man page.
#![tactic(auto)]

use clap::ArgMatches;
use enip_cli::{PROGRAM, program, program_table};
use enip_common::{OsArg, os_args};
use enip_shell::{write_bash, write_fish, write_man, write_zsh};
use std::io::{self, BufWriter, Write};
use std::process::ExitCode;

/// Prints the page that the arguments ask for.
fn print_page<W: Write>(rt: &HostRuntime, output: &mut W, args: &ArgMatches<'_>) -> io::Result<()> {
    let Ok(table) = program_table(rt.alloc()) else {
        return Ok(());
    };
    match args.subcommand() {
        Some(("man", _)) => write_man(output, &table)?,
        Some(("completions", given)) => match given.get_str("SHELL") {
            Some("zsh") => write_zsh(output, &table)?,
            Some("fish") => write_fish(output, &table)?,
            _ => write_bash(output, &table)?,
        },
        _ => {}
    }
    output.flush()
}

/// Prints a page on standard output. Returns whether it was printed.
fn is_printed(rt: &HostRuntime, args: &ArgMatches<'_>) -> bool {
    let mut output = rt.stdout();
    match BufWriter::new(rt.alloc(), &mut output) {
        Ok(mut buffered) => print_page(rt, &mut buffered, args).is_ok(),
        Err(_) => false,
    }
}

/// Prints what the arguments ask for. Returns the exit status.
fn run_arguments(rt: &HostRuntime, args: &[OsArg]) -> u8 {
    let Ok(program) = program(rt.alloc()) else {
        return 1;
    };
    match program.try_get_matches_from(args) {
        Ok(matches) => {
            if is_printed(rt, &matches) {
                0
            } else {
                1
            }
        }
        Err(error) => {
            let _ = error.print(rt);
            if error.use_stderr() { 2 } else { 0 }
        }
    }
}

fn main(rt: HostRuntime) -> ExitCode {
    match os_args(&rt, rt.alloc(), PROGRAM) {
        Ok(args) => ExitCode::from(run_arguments(&rt, args.as_slice())),
        Err(_) => ExitCode::from(1),
    }
}
