//! What the program knows of a command, and how `clap` takes it.

use crate::arguments::Argument;
use clap::{Arg, Command};
use std::alloc::{AllocError, Global};

/// A command of the program.
pub(crate) struct CommandRow {
    pub(crate) name: &'static str,
    /// What it does, in a line.
    pub(crate) about: &'static str,
    /// The usage, if it is not that of the arguments.
    pub(crate) usage: Option<&'static str>,
    /// The end of its help under `-h`.
    pub(crate) examples: &'static str,
    /// The end of its help under `--help`.
    pub(crate) details: &'static str,
    pub(crate) arguments: &'static [Argument],
}

impl CommandRow {
    /// The command as `clap` takes it, with its arguments.
    pub(crate) fn command<'a>(&self, alloc: Global) -> Result<Command<'a>, AllocError> {
        let args = args_of(alloc, self.arguments)?;
        let mut command = Command::new(alloc, self.name)
            .about(self.about)
            .after_help(self.examples)
            .after_long_help(self.details);
        if let Some(usage) = self.usage {
            command = command.override_usage(usage);
        }
        command.args(args)
    }
}

/// Arguments as `clap` takes them.
fn args_of<'a>(alloc: Global, arguments: &[Argument]) -> Result<Vec<Arg<'a>>, AllocError> {
    let mut args = Vec::new(alloc);
    for argument in arguments {
        args.push(argument.row().arg(alloc)?)?;
    }
    Ok(args)
}
