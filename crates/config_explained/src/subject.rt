//! The object, attribute or service that the text of a problem is about.

use crate::place::Place;
use std::fmt;
use toml::{Table, Value};

/// The number of a table `attribute` or `service`, if it has one.
#[derive(Clone, Copy)]
enum Part {
    Attribute(Option<u16>),
    Service(Option<u8>),
}

/// An own object, and an attribute or a service of it. It prints before a problem, as
/// `object class 0x64 instance 1, attribute 3: `. Numbers that the configuration does not have are left out.
#[derive(Clone, Copy)]
pub(crate) struct Subject {
    class: Option<u16>,
    instance: Option<u16>,
    part: Option<Part>,
}

impl Subject {
    /// What a table of a document is about.
    pub(crate) fn of(text: &Table, place: Place) -> Subject {
        match place {
            Place::Table("object", _) => Subject::of_object(text, place, None),
            Place::Part(object, name, _) => {
                let table = place.table_in(text);
                let part = match name {
                    "service" => Part::Service(service_number(table)),
                    _ => Part::Attribute(number_of(table, "number")),
                };
                Subject::of_object(text, Place::Table("object", object), Some(part))
            }
            Place::Text | Place::Table(..) => Subject::nothing(),
        }
    }

    /// Nothing.
    pub(crate) fn nothing() -> Subject {
        Subject {
            class: None,
            instance: None,
            part: None,
        }
    }

    fn of_object(text: &Table, place: Place, part: Option<Part>) -> Subject {
        let table = place.table_in(text);
        Subject {
            class: number_of(table, "class"),
            instance: number_of(table, "instance"),
            part,
        }
    }
}

/// The number of a key, if it is one of 16 bits.
fn number_of(table: Option<&Table>, key: &str) -> Option<u16> {
    match table?.get(key) {
        Some(Value::Integer(number)) => u16::try_from(*number).ok(),
        _ => None,
    }
}

/// The number of a service, if it is one of 8 bits.
fn service_number(table: Option<&Table>) -> Option<u8> {
    u8::try_from(number_of(table, "number")?).ok()
}

impl fmt::Display for Part {
    fn fmt<W: fmt::Write>(&self, f: &mut fmt::Formatter<W>) -> fmt::Result {
        match *self {
            Part::Attribute(Some(number)) => write!(f, "attribute {number}"),
            Part::Attribute(None) => f.write_str("an attribute"),
            Part::Service(Some(number)) => write!(f, "service {number:#04x}"),
            Part::Service(None) => f.write_str("a service"),
        }
    }
}

impl fmt::Display for Subject {
    fn fmt<W: fmt::Write>(&self, f: &mut fmt::Formatter<W>) -> fmt::Result {
        match (self.class, self.instance) {
            (Some(class), Some(instance)) => {
                write!(f, "object class {class:#04x} instance {instance}")?;
            }
            (Some(class), None) => write!(f, "object class {class:#04x}")?,
            (None, Some(instance)) => write!(f, "object instance {instance}")?,
            (None, None) => return match self.part {
                Some(part) => write!(f, "{part}: "),
                None => Ok(()),
            },
        }
        match self.part {
            Some(part) => write!(f, ", {part}: "),
            None => f.write_str(": "),
        }
    }
}
