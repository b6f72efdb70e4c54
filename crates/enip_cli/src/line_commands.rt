//! The commands in a line of `enip batch`.

use crate::arguments::Argument;
use crate::command_row::CommandRow;
use clap::Command;
use std::alloc::{AllocError, Global};

/// The commands in a line of `enip batch`.
static LINES: [CommandRow; 3] = [
    CommandRow {
        name: "get",
        about: "",
        usage: None,
        examples: "",
        details: "",
        arguments: &[
            Argument::Class,
            Argument::Instance,
            Argument::OptionalAttribute,
            Argument::Member,
            Argument::PrintedType,
        ],
    },
    CommandRow {
        name: "set",
        about: "",
        usage: None,
        examples: "",
        details: "",
        arguments: &[
            Argument::CommandClass,
            Argument::CommandInstance,
            Argument::CommandAttribute,
            Argument::CommandData,
            Argument::Member,
            Argument::WrittenType,
        ],
    },
    CommandRow {
        name: "call",
        about: "",
        usage: None,
        examples: "",
        details: "",
        arguments: &[
            Argument::CommandService,
            Argument::CommandClass,
            Argument::CommandInstance,
            Argument::OptionalData,
            Argument::Member,
            Argument::CalledType,
            Argument::ReplyType,
        ],
    },
];

/// A command in a line of `enip batch` as `clap` parses it: a request without an address and without options of the
/// connection. `None` if there is no such command.
pub fn line_command<'a>(alloc: Global, name: &str) -> Result<Option<Command<'a>>, AllocError> {
    match LINES.iter().find(|row| row.name == name) {
        Some(row) => Ok(Some(row.command(alloc)?)),
        None => Ok(None),
    }
}
