//! The names that scripts offer: classes, attributes, services and types.

use crate::tables::{Program, TYPE_NAMES, Takes};
use cip_names::{CLASSES, COMMON_SERVICES, Name, attribute_names, service_names};
use std::io::{self, Write};

/// The command that prints help on the others. `clap` adds it.
pub(crate) const HELP: &str = "help";

/// What `help` takes in addition to a command.
pub(crate) const HELP_TOPIC: &str = "objects";

/// Writes texts, one after the other.
pub(crate) fn write_texts<W: Write>(output: &mut W, texts: &[&str]) -> io::Result<()> {
    for text in texts {
        output.write_all(text.as_bytes())?;
    }
    Ok(())
}

/// Writes names with a space before each.
pub(crate) fn write_names<W: Write>(output: &mut W, names: &[Name]) -> io::Result<()> {
    for (name, _) in names {
        write_texts(output, &[" ", name])?;
    }
    Ok(())
}

/// The texts around a class and its attributes.
pub(crate) struct Layout {
    pub(crate) start: &'static str,
    /// What is between the name and the forms of the number of the class.
    pub(crate) between: &'static str,
    /// What is before the attributes.
    pub(crate) middle: &'static str,
    pub(crate) end: &'static str,
}

/// Writes what each class can be given as, and its attributes.
pub(crate) fn write_class_attributes<W: Write>(output: &mut W, layout: &Layout) -> io::Result<()> {
    for (name, class) in CLASSES {
        write_class(output, layout, name, class)?;
        write_names(output, attribute_names(class, 1))?;
        write_texts(output, &[layout.end])?;
    }
    Ok(())
}

/// Writes the name and the forms of the number of a class.
fn write_class<W: Write>(
    output: &mut W,
    layout: &Layout,
    name: &'static str,
    class: u16,
) -> io::Result<()> {
    let between = layout.between;
    write_texts(output, &[layout.start, name, between])?;
    write!(output, "{class}{between}{class:#x}{between}{class:#04x}")?;
    write_texts(output, &[layout.middle])
}

/// Writes the names of the services of all classes with a space before each.
pub(crate) fn write_services<W: Write>(output: &mut W) -> io::Result<()> {
    write_names(output, &COMMON_SERVICES)?;
    for (_, class) in CLASSES {
        write_names(output, service_names(class))?;
    }
    Ok(())
}

/// Writes the names of the types, and of lists of them, with a space before each.
pub(crate) fn write_types<W: Write>(output: &mut W, quote: &str) -> io::Result<()> {
    for name in TYPE_NAMES {
        write_texts(output, &[" ", name, " ", quote, name, "[]", quote])?;
    }
    Ok(())
}

/// Writes what `help` takes with a space before each.
pub(crate) fn write_help_topics<W: Write>(output: &mut W, program: &Program) -> io::Result<()> {
    for command in &program.commands {
        write_texts(output, &[" ", command.name])?;
    }
    write_texts(output, &[" ", HELP_TOPIC])
}

/// Writes a list of names with a space before each. Nothing for what takes no list.
pub(crate) fn write_list<W: Write>(output: &mut W, takes: Takes) -> io::Result<()> {
    if let Takes::Names(names) | Takes::NamesOrText(names) = takes {
        for name in names {
            write_texts(output, &[" ", name])?;
        }
    }
    Ok(())
}
