//! The table of the program from which completion scripts and the man page are made.

use crate::argument_row::ArgumentRow;
use crate::command_row::CommandRow;
use crate::commands::{ABOUT, COMMANDS, DATE, VERSION};
use crate::texts::EXIT_STATUSES;
use clap::Arg;
use enip_shell::{Command, Program};
use std::alloc::{AllocError, Global};

/// The commands of the program, with the texts of their help.
///
/// # Errors
///
/// `AllocError` if memory is refused.
pub fn program_table(alloc: Global) -> Result<Program, AllocError> {
    let mut commands = Vec::new(alloc);
    for name in &COMMANDS {
        commands.push(command_table(alloc, name.row())?)?;
    }
    Ok(Program {
        version: VERSION,
        date: DATE,
        about: ABOUT,
        exit_statuses: text_after(EXIT_STATUSES, "Exit status, and "),
        commands,
    })
}

/// A command with its arguments.
fn command_table(alloc: Global, row: &CommandRow) -> Result<Command, AllocError> {
    let mut arguments = Vec::new(alloc);
    for argument in row.arguments {
        arguments.push(argument_table(alloc, argument.row())?)?;
    }
    Ok(Command {
        name: row.name,
        about: row.about,
        usage: usage(alloc, row)?,
        details: text_before(row.details, "\nExamples:\n"),
        examples: row.examples,
        arguments,
    })
}

/// How a command is used, one form a line.
fn usage(alloc: Global, row: &CommandRow) -> Result<String, AllocError> {
    if let Some(usage) = row.usage {
        return String::from_str(alloc, usage);
    }
    let text = row.command(alloc)?.render_usage()?;
    let arguments = text_after(text.as_str(), "Usage: ");
    format!(in alloc; "enip {arguments}")
}

/// An argument with its texts.
fn argument_table(alloc: Global, row: &ArgumentRow) -> Result<enip_shell::Argument, AllocError> {
    Ok(enip_shell::Argument {
        option: row.option,
        usage: shown(alloc, &row.arg(alloc)?)?,
        help: row.help,
        details: row.details.unwrap_or(row.help),
        default: row.default,
        takes: row.takes,
        is_optional: row.bare_value.is_some(),
    })
}

/// An argument as the help shows it.
fn shown(alloc: Global, arg: &Arg<'static>) -> Result<String, AllocError> {
    format!(in alloc; "{arg}")
}

/// What comes after the first occurrence of a part, or the whole text.
fn text_after<'a>(text: &'a str, part: &str) -> &'a str {
    match text.split_once(part) {
        Some((_, rest)) => rest,
        None => text,
    }
}

/// What comes before the first occurrence of a part, or the whole text.
fn text_before<'a>(text: &'a str, part: &str) -> &'a str {
    match text.split_once(part) {
        Some((rest, _)) => rest,
        None => text,
    }
}
