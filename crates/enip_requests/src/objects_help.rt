//! `enip help objects`: the names of classes, attributes and services.

use cip_names::{CLASS_ATTRIBUTES, CLASSES, COMMON_SERVICES, Name, attribute_names, service_names};
use enip_common::{CommandError, ErrorKeeping, NamedReason, OUTPUT, OsArg, Reason};
use std::convert::AsStr;
use std::io::{self, BufWriter, Write};

/// Whether the arguments are `help objects`.
pub fn is_help_of_objects(args: &[OsArg]) -> bool {
    match args {
        [_, help, objects] => help.as_str() == "help" && objects.as_str() == "objects",
        _ => false,
    }
}

/// Prints the names on standard output. Returns the exit status.
pub fn run_help_of_objects<'a>(rt: &HostRuntime) -> Result<u8, CommandError<'a>> {
    let mut output = ErrorKeeping::new(rt.stdout());
    let printed = match BufWriter::new(rt.alloc(), &mut output) {
        Ok(mut buffered) => print_objects(&mut buffered),
        Err(error) => Err(error),
    };
    match printed {
        Ok(()) => Ok(0),
        Err(_) => {
            let reason = output
                .reason(OUTPUT)
                .unwrap_or(Reason::Named(OUTPUT, NamedReason::Failed));
            Err(CommandError::of_reason(reason))
        }
    }
}

/// Prints each class with the names of its attributes and services, and then the names that all classes have.
fn print_objects<W: Write>(output: &mut W) -> io::Result<()> {
    for (name, class) in CLASSES {
        writeln!(output, "class {class:#04x} {name}")?;
        print_attributes(output, attribute_names(class, 1))?;
        print_services(output, service_names(class))?;
    }
    writeln!(output, "instance 0 of each class")?;
    print_attributes(output, &CLASS_ATTRIBUTES)?;
    writeln!(output, "each class")?;
    print_services(output, &COMMON_SERVICES)?;
    output.flush()
}

/// Prints a line for each attribute.
fn print_attributes<W: Write>(output: &mut W, names: &[Name]) -> io::Result<()> {
    for (name, number) in names {
        writeln!(output, "  attribute {number} {name}")?;
    }
    Ok(())
}

/// Prints a line for each service.
fn print_services<W: Write>(output: &mut W, names: &[Name]) -> io::Result<()> {
    for (name, number) in names {
        writeln!(output, "  service {number:#04x} {name}")?;
    }
    Ok(())
}
