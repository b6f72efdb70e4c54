//! The man page, in roff with the macros of man(7).

use crate::names::write_texts;
use crate::tables::{Argument, Command, Program, Takes};
use std::fmt;
use std::io::{self, Write};

/// A text in which roff reads nothing but characters. A line may begin with it if `is_line` holds.
#[derive(Clone, Copy)]
struct Roff<'a> {
    text: &'a str,
    is_line: bool,
}

impl fmt::Display for Roff<'_> {
    fn fmt<W: fmt::Write>(&self, f: &mut fmt::Formatter<W>) -> fmt::Result {
        if self.is_line && self.text.starts_with(is_control) {
            f.write_str("\\&")?;
        }
        for c in self.text.chars() {
            match escape(c) {
                Some(text) => f.write_str(text)?,
                None => f.write_char(c)?,
            }
        }
        Ok(())
    }
}

/// What is written for a character, if roff would read more than the character in it.
fn escape(c: char) -> Option<&'static str> {
    match c {
        '\\' => Some("\\e"),
        '-' => Some("\\-"),
        '`' => Some("\\(ga"),
        '\'' => Some("\\(aq"),
        '^' => Some("\\(ha"),
        '~' => Some("\\(ti"),
        _ => None,
    }
}

/// Whether a line that begins with this character would be a request.
fn is_control(c: char) -> bool {
    c == '.' || c == '\''
}

/// Writes a text within a line, and what comes before and after it.
fn write_inline<W: Write>(output: &mut W, start: &str, text: &str, end: &str) -> io::Result<()> {
    let is_line = false;
    write!(output, "{start}{}{end}", Roff { text, is_line })
}

/// Writes the man page.
///
/// # Errors
///
/// Those of the writer.
pub fn write_man<W: Write>(output: &mut W, program: &Program) -> io::Result<()> {
    write_title(output, program)?;
    write_inline(output, ".SH NAME\nenip \\- ", program.about, "\n")?;
    output.write_all(SYNOPSIS.as_bytes())?;
    write_abouts(output, program)?;
    output.write_all(COMMANDS.as_bytes())?;
    for command in &program.commands {
        write_command(output, command)?;
    }
    output.write_all(b".SH EXIT STATUS\nThe exit status, and\n")?;
    write_text(output, program.exit_statuses)?;
    output.write_all(b".SH EXAMPLES\n.nf\n")?;
    for command in &program.commands {
        write_examples(output, command)?;
    }
    output.write_all(SEE_ALSO.as_bytes())
}

/// Writes the line of the title.
fn write_title<W: Write>(output: &mut W, program: &Program) -> io::Result<()> {
    let start = ".\\\" Written by: enip man\n.TH ENIP 1 ";
    let end = "\" \"User Commands\"\n";
    write_texts(
        output,
        &[start, program.date, " \"enip ", program.version, end],
    )
}

/// Writes the commands with what they do.
fn write_abouts<W: Write>(output: &mut W, program: &Program) -> io::Result<()> {
    for command in &program.commands {
        write_inline(output, ".TP\n.B ", command.name, "\n")?;
        write_inline(output, "", command.about, "\n")?;
    }
    Ok(())
}

/// Writes a command with its arguments and options.
fn write_command<W: Write>(output: &mut W, command: &Command) -> io::Result<()> {
    write_inline(output, ".SS ", command.name, "\n")?;
    write_usage(output, command.usage.as_str())?;
    write_inline(output, ".PP\n", command.about, ".\n")?;
    for argument in &command.arguments {
        write_argument(output, argument)?;
    }
    output.write_all(b".TP\n.BR \\-h \", \" \\-\\-help\nPrint help\n")?;
    if !command.details.is_empty() {
        output.write_all(b".PP\n")?;
        write_text(output, command.details)?;
    }
    Ok(())
}

/// Writes how a command is used, one form a line.
fn write_usage<W: Write>(output: &mut W, usage: &str) -> io::Result<()> {
    for (index, line) in usage.split('\n').enumerate() {
        let start = if index == 0 { ".B " } else { ".br\n.B " };
        write_inline(output, start, line.trim_start(), "\n")?;
    }
    Ok(())
}

/// Writes an argument or an option.
fn write_argument<W: Write>(output: &mut W, argument: &Argument) -> io::Result<()> {
    write_inline(output, ".TP\n.B ", argument.usage.as_str(), "\n")?;
    write_text(output, argument.details)?;
    if let Takes::Names(names) = argument.takes {
        write_values(output, names)?;
    }
    if let Some(default) = argument.default {
        write_inline(output, "[default: ", default, "]\n")?;
    }
    Ok(())
}

/// Writes the values that an option takes.
fn write_values<W: Write>(output: &mut W, names: &[&str]) -> io::Result<()> {
    output.write_all(b"[possible values:")?;
    let mut start = " ";
    for name in names {
        write_inline(output, start, name, "")?;
        start = ", ";
    }
    output.write_all(b"]\n")
}

/// Writes a text. A line that begins with a space is not filled, and an empty line is vertical space.
fn write_text<W: Write>(output: &mut W, text: &str) -> io::Result<()> {
    let mut is_filled = true;
    for line in text.trim_end().split('\n') {
        if line.is_empty() {
            output.write_all(b".sp\n")?;
            continue;
        }
        let fills = !line.starts_with(' ');
        if fills != is_filled {
            output.write_all(if fills { b".fi\n" } else { b".nf\n" })?;
            is_filled = fills;
        }
        let line = Roff {
            text: line,
            is_line: true,
        };
        writeln!(output, "{line}")?;
    }
    if !is_filled {
        output.write_all(b".fi\n")?;
    }
    Ok(())
}

/// Writes the command lines of the examples of a command.
fn write_examples<W: Write>(output: &mut W, command: &Command) -> io::Result<()> {
    for line in command.examples.split('\n') {
        if let Some(example) = line.strip_prefix("  ") {
            write_inline(output, "", example, "\n")?;
        }
    }
    Ok(())
}

/// The synopsis, and the beginning of the description.
const SYNOPSIS: &str = r#".SH SYNOPSIS
.B enip
.I COMMAND
.RI [ ARGUMENT ...]
.br
.B enip
.RB { \-h | \-\-help | \-V | \-\-version }
.br
.B enip help
.RI [ COMMAND | objects ]
.SH DESCRIPTION
.B enip
runs an EtherNet/IP device, queries devices, and examines frames and message exchanges.
Its commands are:
"#;

/// The beginning of the section on commands.
const COMMANDS: &str = r#".SH COMMANDS
.B enip help objects
prints the names of classes, attributes and services, which requests can have in place of numbers.
"#;

/// The end of the examples, and the last section.
const SEE_ALSO: &str = r#".fi
.SH SEE ALSO
.BI "enip help " COMMAND
and
.B enip help objects
print the same texts.
The manual is
.I docs/PROGRAM.md
in the sources.
"#;
