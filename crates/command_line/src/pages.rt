//! `enip completions` and `enip man`: completion scripts and the man page.

use enip_cli::program_table;
use enip_common::{CommandError, ErrorKeeping, OUTPUT};
use enip_shell::{Program, write_bash, write_fish, write_man, write_zsh};
use std::io::{self, BufWriter, Write};

/// What is printed about the command line.
#[derive(Clone, Copy)]
pub enum Page<'a> {
    /// The completion script of a shell.
    Completions(&'a str),
    /// The man page.
    Man,
}

/// Prints a page on standard output. Returns the exit status.
pub fn run_page<'a>(rt: &HostRuntime, page: Page<'_>) -> Result<u8, CommandError<'a>> {
    let program = program_table(rt.alloc())?;
    let mut output = ErrorKeeping::new(rt.stdout());
    let printed = match BufWriter::new(rt.alloc(), &mut output) {
        Ok(mut buffered) => print_page(&mut buffered, page, &program),
        Err(error) => Err(error),
    };
    match printed {
        Ok(()) => Ok(0),
        Err(error) => match output.reason(OUTPUT) {
            Some(reason) => Err(CommandError::of_reason(reason)),
            None => Err(CommandError::of_system(OUTPUT, error)),
        },
    }
}

/// Writes a page.
fn print_page<W: Write>(output: &mut W, page: Page<'_>, program: &Program) -> io::Result<()> {
    match page {
        Page::Man => write_man(output, program)?,
        Page::Completions("zsh") => write_zsh(output, program)?,
        Page::Completions("fish") => write_fish(output, program)?,
        Page::Completions(_) => write_bash(output, program)?,
    }
    output.flush()
}
