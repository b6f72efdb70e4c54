//! The completion script of zsh.

use crate::names::{
    HELP, Layout, write_class_attributes, write_help_topics, write_list, write_names,
    write_services, write_texts, write_types,
};
use crate::tables::{Argument, Command, Program, Takes};
use cip_names::{CLASS_ATTRIBUTES, CLASSES};
use std::fmt;
use std::io::{self, Write};

/// A text in a specification of `_arguments`, in single quotes.
#[derive(Clone, Copy)]
struct Described<'a>(&'a str);

impl fmt::Display for Described<'_> {
    fn fmt<W: fmt::Write>(&self, f: &mut fmt::Formatter<W>) -> fmt::Result {
        for c in self.0.chars() {
            match escape(c) {
                Some(text) => f.write_str(text)?,
                None => f.write_char(c)?,
            }
        }
        Ok(())
    }
}

/// What is written for a character in a specification, if not the character.
fn escape(c: char) -> Option<&'static str> {
    match c {
        '\'' => Some("'\\''"),
        '[' => Some("\\["),
        ']' => Some("\\]"),
        ':' => Some("\\:"),
        '\\' => Some("\\\\"),
        '\n' => Some(" "),
        _ => None,
    }
}

/// Writes a text in a specification, and what follows it.
fn write_described<W: Write>(output: &mut W, text: &str, end: &str) -> io::Result<()> {
    write!(output, "{}{end}", Described(text))
}

/// Writes the completion script of zsh. It is a file `_enip` in a folder of `fpath`.
///
/// # Errors
///
/// Those of the writer.
pub fn write_zsh<W: Write>(output: &mut W, program: &Program) -> io::Result<()> {
    let start = "#compdef enip\n# zsh completion of enip ";
    let end = "\n# Written by: enip completions zsh\n";
    write_texts(output, &[start, program.version, end])?;
    write_lists(output)?;
    write_attributes(output)?;
    output.write_all(BEGINNING.as_bytes())?;
    write_commands(output, program)?;
    output.write_all(STATES.as_bytes())?;
    for command in &program.commands {
        write_command(output, command)?;
    }
    write_help(output, program)?;
    output.write_all(END.as_bytes())
}

/// Writes how the argument of `help` is completed.
fn write_help<W: Write>(output: &mut W, program: &Program) -> io::Result<()> {
    let topics = ")\n            _arguments '1:COMMAND:(";
    write_texts(output, &["        ", HELP, topics])?;
    write_help_topics(output, program)
}

/// Writes the functions that offer the names of classes, services and types.
fn write_lists<W: Write>(output: &mut W) -> io::Result<()> {
    output.write_all(b"\n_enip_classes() {\n    compadd --")?;
    write_names(output, &CLASSES)?;
    output.write_all(b"\n}\n\n_enip_services() {\n    compadd --")?;
    write_services(output)?;
    output.write_all(b"\n}\n\n_enip_types() {\n    compadd --")?;
    write_types(output, "'")?;
    output.write_all(b"\n}\n")
}

/// Writes the function that offers the attributes of a class.
fn write_attributes<W: Write>(output: &mut W) -> io::Result<()> {
    output.write_all(ATTRIBUTES.as_bytes())?;
    write_names(output, &CLASS_ATTRIBUTES)?;
    output.write_all(b"\n        return\n        ;;\n    esac\n    case ${line[2]:l} in\n")?;
    write_class_attributes(output, &CLASS_LAYOUT)?;
    output.write_all(b"    esac\n}\n")
}

/// The texts around a class and its attributes.
const CLASS_LAYOUT: Layout = Layout {
    start: "    (",
    between: "|",
    middle: ") compadd --",
    end: " ;;\n",
};

/// Writes the commands with what they do.
fn write_commands<W: Write>(output: &mut W, program: &Program) -> io::Result<()> {
    for command in &program.commands {
        write_texts(output, &["        '", command.name, ":"])?;
        write_described(output, command.about, "'\n")?;
    }
    write_texts(
        output,
        &["        '", HELP, ":Print the help of a command'\n"],
    )
}

/// Writes the options and arguments of a command.
fn write_command<W: Write>(output: &mut W, command: &Command) -> io::Result<()> {
    let arguments = ")\n            _arguments \\\n";
    write_texts(output, &["        ", command.name, arguments])?;
    let mut position: u32 = 1;
    for argument in &command.arguments {
        match argument.option {
            Some(option) => write_option(output, option, argument)?,
            None => {
                write!(output, "                '{position}:")?;
                write_value(output, argument)?;
                position = position.saturating_add(1);
            }
        }
    }
    output.write_all(b"                '(- *)'{-h,--help}'[Print help]'\n            ;;\n")
}

/// Writes an option of a command.
fn write_option<W: Write>(output: &mut W, option: &str, argument: &Argument) -> io::Result<()> {
    let (equals, colon) = match (argument.takes, argument.is_optional) {
        (Takes::Nothing, _) => ("", ""),
        (_, true) => ("=-", "::"),
        (_, false) => ("=", ":"),
    };
    write_texts(output, &["                '--", option, equals, "["])?;
    write_described(output, argument.help, "]")?;
    output.write_all(colon.as_bytes())?;
    if let Takes::Nothing = argument.takes {
        return output.write_all(b"' \\\n");
    }
    write_value(output, argument)
}

/// Writes the name of the value of an argument, and what is offered for it.
fn write_value<W: Write>(output: &mut W, argument: &Argument) -> io::Result<()> {
    write_texts(output, &[argument.value_name(), ":"])?;
    write_action(output, argument.takes)?;
    output.write_all(b"' \\\n")
}

/// Writes the action of `_arguments` that offers what an argument takes.
fn write_action<W: Write>(output: &mut W, takes: Takes) -> io::Result<()> {
    let action = match takes {
        Takes::Nothing | Takes::Text => " ",
        Takes::File => "_files",
        Takes::Type => "_enip_types",
        Takes::Class => "_enip_classes",
        Takes::Attribute => "_enip_attributes",
        Takes::Service => "_enip_services",
        Takes::Names(_) | Takes::NamesOrText(_) => {
            output.write_all(b"(")?;
            write_list(output, takes)?;
            ")"
        }
    };
    output.write_all(action.as_bytes())
}

/// The beginning of the function that offers attributes.
const ATTRIBUTES: &str = r#"
# The attributes of the class and the instance in the arguments.
_enip_attributes() {
    case $line[3] in
    (0|0x0)
        compadd --"#;

/// The beginning of the function that zsh calls.
const BEGINNING: &str = r#"
_enip() {
    local context state state_descr line
    local -A opt_args
    local -a commands
    commands=(
"#;

/// Its middle, after the commands.
const STATES: &str = r#"    )
    _arguments -C \
        '(- *)'{-h,--help}'[Print help]' \
        '(- *)'{-V,--version}'[Print version]' \
        '1: :->command' \
        '*:: :->arguments'
    case $state in
    (command)
        _describe -t commands 'command of enip' commands
        ;;
    (arguments)
        case $words[1] in
"#;

/// Its end, after the topics of `help`.
const END: &str = r#")'
            ;;
        esac
        ;;
    esac
}

if [ "$funcstack[1]" = _enip ]; then
    _enip "$@"
else
    compdef _enip enip
fi
"#;
