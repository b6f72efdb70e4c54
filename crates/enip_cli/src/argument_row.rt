//! What the program knows of an argument or an option, and how `clap` takes it.

use clap::{Arg, ArgAction};
use enip_shell::Takes;
use std::alloc::{AllocError, Global};

/// An argument or an option of a command, with its help. No line of the help is longer than 80 columns.
pub(crate) struct ArgumentRow {
    /// Its name among the matches. The help shows an argument by it.
    pub(crate) id: &'static str,
    /// The name of an option, without its hyphens. `None` for an argument.
    pub(crate) option: Option<&'static str>,
    /// What the help calls the value of an option.
    pub(crate) value_name: Option<&'static str>,
    /// What it takes. An option that takes nothing is a flag.
    pub(crate) takes: Takes,
    /// The one line that `-h` prints.
    pub(crate) help: &'static str,
    /// What `--help` prints in place of the line.
    pub(crate) details: Option<&'static str>,
    /// The value of one that is left out.
    pub(crate) default: Option<&'static str>,
    /// The value of an option that is given without one. If there is one, a value is taken only after `=`.
    pub(crate) bare_value: Option<&'static str>,
    pub(crate) is_required: bool,
    /// If there are any of these, it is required unless one of them is given.
    pub(crate) required_unless: &'static [&'static str],
    /// What it can't be given without.
    pub(crate) needs: &'static [&'static str],
    /// What it can't be given with.
    pub(crate) conflicts: &'static [&'static str],
    /// Whether `-h` leaves it out.
    pub(crate) is_rare: bool,
    /// Whether it takes one value or more.
    pub(crate) is_list: bool,
    /// Whether a negative number is a value of it, and not an option.
    pub(crate) has_negatives: bool,
}

/// An argument that takes text and can be left out.
pub(crate) const PLAIN: ArgumentRow = ArgumentRow {
    id: "",
    option: None,
    value_name: None,
    takes: Takes::Text,
    help: "",
    details: None,
    default: None,
    bare_value: None,
    is_required: false,
    required_unless: &[],
    needs: &[],
    conflicts: &[],
    is_rare: false,
    is_list: false,
    has_negatives: false,
};

/// A flag.
pub(crate) const FLAG: ArgumentRow = ArgumentRow {
    takes: Takes::Nothing,
    ..PLAIN
};

impl ArgumentRow {
    /// The argument as `clap` takes it.
    pub(crate) fn arg<'a>(&self, alloc: Global) -> Result<Arg<'a>, AllocError> {
        let arg = Arg::new(alloc, self.id)
            .help(self.help)
            .required(self.is_required)
            .hide_short_help(self.is_rare)
            .allow_negative_numbers(self.has_negatives);
        self.with_values(self.with_texts(arg))
            .required_unless_present_any(self.required_unless)?
            .requires_all(self.needs)?
            .conflicts_with_all(self.conflicts)
    }

    /// An argument with the texts that it may have.
    fn with_texts<'a>(&self, arg: Arg<'a>) -> Arg<'a> {
        let mut arg = arg;
        if let Some(option) = self.option {
            arg = arg.long(option);
        }
        if let Some(value_name) = self.value_name {
            arg = arg.value_name(value_name);
        }
        if let Some(details) = self.details {
            arg = arg.long_help(details);
        }
        if let Some(default) = self.default {
            arg = arg.default_value(default);
        }
        arg
    }

    /// An argument with the values that it takes.
    fn with_values<'a>(&self, arg: Arg<'a>) -> Arg<'a> {
        let mut arg = arg;
        if self.is_list {
            arg = arg.num_args(1..);
        }
        if let Some(value) = self.bare_value {
            arg = arg
                .num_args(0..=1)
                .require_equals(true)
                .default_missing_value(value)
                .hide_possible_values(true);
        }
        match self.takes {
            Takes::Nothing => arg.action(ArgAction::SetTrue),
            Takes::Names(names) => arg.value_parser(names),
            _ => arg,
        }
    }
}
