//! The commands of the program. What each one is, is in its row, in `command_rows`.

use crate::command_row::CommandRow;
use crate::command_rows;
use crate::texts::EXIT_STATUSES;
use clap::Command;
use std::alloc::{AllocError, Global};

/// The name of the program.
pub const PROGRAM: &str = "enip";

pub(crate) const VERSION: &str = "0.2.0";

/// The date of the version.
pub(crate) const DATE: &str = "2026-11-29";

/// What the program is.
pub(crate) const ABOUT: &str = "An EtherNet/IP adapter and explicit messaging client";

/// A command of the program.
#[derive(Clone, Copy)]
pub(crate) enum CommandName {
    Serve,
    Check,
    Eds,
    Get,
    Set,
    Call,
    Once,
    Batch,
    Watch,
    Inspect,
    Ledger,
    Identity,
    Discover,
    Services,
    Answer,
    Show,
    Replay,
    Completions,
    Man,
}

/// The commands in the order in which the help lists them.
pub(crate) static COMMANDS: [CommandName; 19] = [
    CommandName::Serve,
    CommandName::Check,
    CommandName::Eds,
    CommandName::Get,
    CommandName::Set,
    CommandName::Call,
    CommandName::Once,
    CommandName::Batch,
    CommandName::Watch,
    CommandName::Inspect,
    CommandName::Ledger,
    CommandName::Identity,
    CommandName::Discover,
    CommandName::Services,
    CommandName::Answer,
    CommandName::Show,
    CommandName::Replay,
    CommandName::Completions,
    CommandName::Man,
];

impl CommandName {
    /// What it is.
    pub(crate) fn row(self) -> &'static CommandRow {
        match self {
            CommandName::Serve => &command_rows::SERVE,
            CommandName::Check => &command_rows::CHECK,
            CommandName::Eds => &command_rows::EDS,
            CommandName::Get => &command_rows::GET,
            CommandName::Set => &command_rows::SET,
            CommandName::Call => &command_rows::CALL,
            CommandName::Once => &command_rows::ONCE,
            CommandName::Batch => &command_rows::BATCH,
            CommandName::Watch => &command_rows::WATCH,
            CommandName::Inspect => &command_rows::INSPECT,
            CommandName::Ledger => &command_rows::LEDGER,
            CommandName::Identity => &command_rows::IDENTITY,
            CommandName::Discover => &command_rows::DISCOVER,
            CommandName::Services => &command_rows::SERVICES,
            CommandName::Answer => &command_rows::ANSWER,
            CommandName::Show => &command_rows::SHOW,
            CommandName::Replay => &command_rows::REPLAY,
            CommandName::Completions => &command_rows::COMPLETIONS,
            CommandName::Man => &command_rows::MAN,
        }
    }
}

/// The whole program as `clap` parses it.
pub fn program<'a>(alloc: Global) -> Result<Command<'a>, AllocError> {
    let program = Command::new(alloc, PROGRAM)
        .version(VERSION)
        .about(ABOUT)
        .after_long_help(EXIT_STATUSES)
        .subcommand_required(true)
        .arg_required_else_help(true);
    with_commands(alloc, program, &COMMANDS)
}

/// A program with these commands.
fn with_commands<'a>(
    alloc: Global,
    program: Command<'a>,
    names: &[CommandName],
) -> Result<Command<'a>, AllocError> {
    let mut program = program;
    for name in names {
        program = with_command(alloc, program, name.row())?;
    }
    Ok(program)
}

/// A program with one command more.
fn with_command<'a>(
    alloc: Global,
    program: Command<'a>,
    row: &CommandRow,
) -> Result<Command<'a>, AllocError> {
    program.subcommand(row.command(alloc)?)
}
