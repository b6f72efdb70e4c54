//! The completion script of fish.

use crate::names::{
    HELP, Layout, write_class_attributes, write_help_topics, write_list, write_names,
    write_services, write_texts, write_types,
};
use crate::tables::{Argument, Command, Program, Takes};
use cip_names::{CLASS_ATTRIBUTES, CLASSES};
use std::fmt;
use std::io::{self, Write};

/// A text in single quotes.
#[derive(Clone, Copy)]
struct Quoted<'a>(&'a str);

impl fmt::Display for Quoted<'_> {
    fn fmt<W: fmt::Write>(&self, f: &mut fmt::Formatter<W>) -> fmt::Result {
        for c in self.0.chars() {
            match escape(c) {
                Some(text) => f.write_str(text)?,
                None => f.write_char(c)?,
            }
        }
        Ok(())
    }
}

/// What is written for a character in single quotes, if not the character.
fn escape(c: char) -> Option<&'static str> {
    match c {
        '\'' => Some("\\'"),
        '\\' => Some("\\\\"),
        '\n' => Some(" "),
        _ => None,
    }
}

/// Writes a text in single quotes, and the end of the line.
fn write_quoted<W: Write>(output: &mut W, text: &str) -> io::Result<()> {
    writeln!(output, "'{}'", Quoted(text))
}

/// Writes the completion script of fish, version 3.0 or later.
///
/// # Errors
///
/// Those of the writer.
pub fn write_fish<W: Write>(output: &mut W, program: &Program) -> io::Result<()> {
    let start = "# fish completion of enip ";
    let end = "\n# Written by: enip completions fish\n";
    write_texts(output, &[start, program.version, end])?;
    write_walk(output, program)?;
    output.write_all(CONDITIONS.as_bytes())?;
    write_lists(output)?;
    write_attributes(output)?;
    output.write_all(PROGRAM.as_bytes())?;
    for command in &program.commands {
        write_command(output, command)?;
    }
    write_help(output, program)
}

/// Writes how `help` and what it takes are completed.
fn write_help<W: Write>(output: &mut W, program: &Program) -> io::Result<()> {
    let topics = "' -a '";
    write_texts(output, &[HELP_START, HELP, HELP_ABOUT, HELP, topics])?;
    write_help_topics(output, program)?;
    output.write_all(b"'\n")
}

/// Writes the function that gives the arguments before the cursor.
fn write_walk<W: Write>(output: &mut W, program: &Program) -> io::Result<()> {
    output.write_all(WALK.as_bytes())?;
    for command in &program.commands {
        write_valued(output, command)?;
    }
    output.write_all(WALK_END.as_bytes())
}

/// Writes the options of a command that have a value, with `|` before each.
fn write_valued<W: Write>(output: &mut W, command: &Command) -> io::Result<()> {
    for argument in &command.arguments {
        if let (Some(option), false) = (argument.option, is_flag(argument)) {
            write_texts(output, &["|", option])?;
        }
    }
    Ok(())
}

/// Whether the argument after an option is not its value.
fn is_flag(argument: &Argument) -> bool {
    argument.is_optional || argument.takes == Takes::Nothing
}

/// Writes the functions that offer the names of classes, services and types.
fn write_lists<W: Write>(output: &mut W) -> io::Result<()> {
    output.write_all(b"\nfunction __enip_classes\n    printf '%s\\n'")?;
    write_names(output, &CLASSES)?;
    output.write_all(b"\nend\n\nfunction __enip_services\n    printf '%s\\n'")?;
    write_services(output)?;
    output.write_all(b"\nend\n\nfunction __enip_types\n    printf '%s\\n'")?;
    write_types(output, "'")?;
    output.write_all(b"\nend\n")
}

/// Writes the function that offers the attributes of a class.
fn write_attributes<W: Write>(output: &mut W) -> io::Result<()> {
    output.write_all(ATTRIBUTES.as_bytes())?;
    write_names(output, &CLASS_ATTRIBUTES)?;
    output.write_all(
        b"\n            return\n    end\n    switch (string lower -- \"$arguments[3]\")\n",
    )?;
    write_class_attributes(output, &CLASS_LAYOUT)?;
    output.write_all(b"    end\nend\n")
}

/// The texts around a class and its attributes.
const CLASS_LAYOUT: Layout = Layout {
    start: "        case ",
    between: " ",
    middle: "\n            printf '%s\\n'",
    end: "\n",
};

/// Writes a command with its options and arguments.
fn write_command<W: Write>(output: &mut W, command: &Command) -> io::Result<()> {
    let name = command.name;
    let start = "\ncomplete -c enip -n '__enip_at 0' -a ";
    write_texts(output, &[start, name, " -d "])?;
    write_quoted(output, command.about)?;
    let mut position: u32 = 1;
    for argument in &command.arguments {
        match argument.option {
            Some(option) => write_option(output, name, option, argument)?,
            None => {
                write_argument(output, name, position, argument)?;
                position = position.saturating_add(1);
            }
        }
    }
    Ok(())
}

/// Writes an option of a command.
fn write_option<W: Write>(
    output: &mut W,
    command: &str,
    option: &str,
    argument: &Argument,
) -> io::Result<()> {
    let start = "complete -c enip -n '__enip_in ";
    write_texts(output, &[start, command, "' -l ", option])?;
    write_action(output, argument)?;
    output.write_all(b" -d ")?;
    write_quoted(output, argument.help)
}

/// Writes an argument of a command, if it can be completed.
fn write_argument<W: Write>(
    output: &mut W,
    command: &str,
    position: u32,
    argument: &Argument,
) -> io::Result<()> {
    if let Takes::Nothing | Takes::Text = argument.takes {
        return Ok(());
    }
    write!(
        output,
        "complete -c enip -n '__enip_at {position} {command}'"
    )?;
    write_values(output, argument.takes)?;
    output.write_all(b"\n")
}

/// Writes whether an option has a value, and what is offered for it.
fn write_action<W: Write>(output: &mut W, argument: &Argument) -> io::Result<()> {
    if !is_flag(argument) {
        output.write_all(b" -r")?;
    }
    match argument.takes {
        Takes::Nothing => Ok(()),
        Takes::Text => output.write_all(b" -f"),
        takes => write_values(output, takes),
    }
}

/// Writes what is offered for an argument.
fn write_values<W: Write>(output: &mut W, takes: Takes) -> io::Result<()> {
    let values = match takes {
        Takes::Nothing | Takes::Text => "",
        Takes::File => " -F",
        Takes::Type => " -f -a '(__enip_types)'",
        Takes::Class => " -f -a '(__enip_classes)'",
        Takes::Attribute => " -f -a '(__enip_attributes)'",
        Takes::Service => " -f -a '(__enip_services)'",
        Takes::Names(_) | Takes::NamesOrText(_) => {
            output.write_all(b" -f -a '")?;
            write_list(output, takes)?;
            "'"
        }
    };
    output.write_all(values.as_bytes())
}

/// The beginning of the function that gives the arguments before the cursor, up to the options with a value.
const WALK: &str = r#"
# The arguments before the cursor, without options and their values. The first one is the command.
function __enip_arguments
    set -l is_value no
    for token in (commandline -opc)[2..-1]
        if test $is_value = yes
            set is_value no
        else if string match -qr -- '^--(-"#;

/// Its end.
const WALK_END: &str = r#")$' $token
            set is_value yes
        else if not string match -q -- '-*' $token
            printf '%s\n' $token
        end
    end
end
"#;

/// The beginning of the function that offers attributes.
const ATTRIBUTES: &str = r#"
# The attributes of the class and the instance in the arguments.
function __enip_attributes
    set -l arguments (__enip_arguments)
    switch "$arguments[4]"
        case 0 0x0
            printf '%s\n'"#;

/// The conditions of the completions.
const CONDITIONS: &str = r#"
# Whether so many arguments are before the cursor. The first one, if any, is this command.
function __enip_at -a count command
    set -l arguments (__enip_arguments)
    test (count $arguments) -eq $count -a "$arguments[1]" = "$command"
end

# Whether the command is this one.
function __enip_in -a command
    set -l arguments (__enip_arguments)
    test "$arguments[1]" = $command
end
"#;

/// How `help` is completed, up to its name.
const HELP_START: &str = "\ncomplete -c enip -n '__enip_at 0' -a ";

/// What follows the name of `help`, up to the name in the completion of what it takes.
const HELP_ABOUT: &str = " -d 'Print the help of a command'\ncomplete -c enip -n '__enip_at 1 ";

/// The options of the program, and those of each command.
const PROGRAM: &str = r#"
complete -c enip -f
complete -c enip -s h -l help -d 'Print help'
complete -c enip -n '__enip_at 0' -s V -l version -d 'Print version'
"#;
