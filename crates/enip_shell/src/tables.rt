//! The table of a program: its commands, their arguments and their texts.

/// The names of the elementary types, for options such as `--as`. (Volume 1, elementary data types.)
pub static TYPE_NAMES: [&str; 24] = [
    "BOOL",
    "SINT",
    "INT",
    "DINT",
    "LINT",
    "USINT",
    "UINT",
    "UDINT",
    "ULINT",
    "BYTE",
    "WORD",
    "DWORD",
    "LWORD",
    "REAL",
    "SHORT_STRING",
    "LREAL",
    "STRING",
    "STRING2",
    "EPATH",
    "DATE",
    "TIME_OF_DAY",
    "DATE_AND_TIME",
    "TIME",
    "LTIME",
];

/// What an argument or an option takes, as far as it can be completed.
#[derive(Clone, Copy, Debug, PartialEq, Eq)]
pub enum Takes {
    /// Nothing: the option is a flag.
    Nothing,
    /// Text that can't be completed.
    Text,
    /// The name of a file.
    File,
    /// One of these names.
    Names(&'static [&'static str]),
    /// One of these names, or text that can't be completed.
    NamesOrText(&'static [&'static str]),
    /// The name of an elementary type, or of a list of them (`UINT[]`).
    Type,
    /// A class, by name.
    Class,
    /// An attribute of the class and instance in the arguments before it, by name.
    Attribute,
    /// A service, by name.
    Service,
}

/// An argument or an option of a command.
#[derive(Debug, Drop)]
pub struct Argument {
    /// The name of the option, without its hyphens. `None` for an argument.
    pub option: Option<&'static str>,
    /// How the help shows it, such as `--count <N>` or `<ADDRESS>`.
    pub usage: String,
    /// What it is, in one line.
    pub help: &'static str,
    /// What it is, in full.
    pub details: &'static str,
    /// The value that it has if it is left out.
    pub default: Option<&'static str>,
    /// What it takes.
    pub takes: Takes,
    /// Whether the value of the option may be left out, so that one is given only after `=`.
    pub is_optional: bool,
}

impl Argument {
    /// The name of the value, such as `N`: what stands between angle brackets.
    ///
    /// ```
    /// argument.value_name() // "SECONDS" of `--timeout <SECONDS>`
    /// ```
    pub fn value_name(&self) -> &str {
        let text = match self.usage.as_str().split_once('<') {
            Some((_, rest)) => rest,
            None => self.usage.as_str().trim_start_matches('['),
        };
        match text.split_once(is_bracket) {
            Some((name, _)) => name,
            None => text,
        }
    }
}

fn is_bracket(c: char) -> bool {
    c == '>' || c == ']'
}

/// A command of a program.
#[derive(Debug, Drop)]
pub struct Command {
    /// Its name.
    pub name: &'static str,
    /// What it does, in one line.
    pub about: &'static str,
    /// How it is used, such as `enip show`, one form a line.
    pub usage: String,
    /// What it does, in full.
    pub details: &'static str,
    /// Command lines, one a line.
    pub examples: &'static str,
    /// Its arguments and options.
    pub arguments: Vec<Argument>,
}

/// A program.
#[derive(Debug, Drop)]
pub struct Program {
    /// Its version.
    pub version: &'static str,
    /// The date of the version, such as 2026-11-27.
    pub date: &'static str,
    /// What it is, in one line.
    pub about: &'static str,
    /// Its exit statuses, and what it prints with each.
    pub exit_statuses: &'static str,
    /// Its commands, without `help`.
    pub commands: Vec<Command>,
}
