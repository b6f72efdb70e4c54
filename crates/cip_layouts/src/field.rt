//! One field of a layout, and its text.

ghost use Rattle.std.specs.Prelude.{◌≡◌, ◌<◌, ◌^◌, IfSome, length, option_map};
ghost use Rattle.std.specs.List.{list_all, list_any};
ghost use Rattle.cip_layouts.specs.Layouts.{cut_in, cut_seen, element_in, count_in, number_in, is_digit, is_name, is_name_byte, is_same, name_of};

use crate::fault::FieldFault;
use crate::name::{FieldName, LONGEST_NAME};
use cip_values::{ElementaryType, ValueType};
use std::fmt;

/// One field of a layout: values of an elementary type, and maybe a name.
#[derive(Clone, Copy, Debug)]
pub struct Field {
    /// The name, or `None` in a layout without names.
    pub name: Option<FieldName>,
    /// The type of each value.
    pub element: ElementaryType,
    /// The number of values, or `None` if the field is one value and not an array.
    pub count: Option<u16>,
}

impl Field {
    ghost use Rattle.cip_layouts.specs.Fields.{count_of, list_type};
    ghost use Rattle.cip_layouts.specs.Layouts.{field_seen, field_of, typed_in};

    /// A field that is in no layout.
    pub(crate) const UNUSED: Field = Field {
        name: None,
        element: ElementaryType::Usint,
        count: None,
    };

    /// How many values the field has.
    pub fn values(&self) -> usize
        ensures count { result ≡ count_of self.now }
        ensures most { result < 2 ^ 16 }
    {
        match self.count {
            Some(count) => usize::from(count),
            None => 1,
        }
    }

    /// The type of the field's values in a list: its strings and paths are in quotes.
    pub(crate) fn list_type(&self) -> ValueType
        ensures { result ≡ list_type self.now }
    {
        ValueType {
            element: self.element,
            is_list: true,
        }
    }

    /// Parses a field: a name and a colon, or neither, then the name of a type, and for an array the number of its
    /// values in brackets.
    pub(crate) fn parse(text: &str) -> Result<Field, FieldFault>
        ensures { field_seen result ≡ field_of text.now }
    {
        if text.is_empty() {
            return Err(FieldFault::Empty);
        }
        match cut(text, ':') {
            None => Field::parse_typed(None, text),
            Some((name, rest)) => match FieldName::parse(name.as_bytes()) {
                Some(name) => Field::parse_typed(Some(name), rest),
                None => Err(FieldFault::Name),
            },
        }
    }

    /// Parses the type of a field, and the number of its values.
    fn parse_typed(name: Option<FieldName>, text: &str) -> Result<Field, FieldFault>
        ensures { field_seen result ≡ typed_in (option_map name_of name) text.now }
    {
        match cut(text, '[') {
            None => Ok(Field {
                name,
                element: element(text)?,
                count: None,
            }),
            Some((type_name, rest)) => {
                let element = element(type_name)?;
                let count = count(rest)?;
                Ok(Field {
                    name,
                    element,
                    count: Some(count),
                })
            }
        }
    }
}

impl fmt::Display for Field {
    ghost use Rattle.std.specs.Prelude.{Some};
    ghost use Rattle.cip_layouts.specs.Layouts.{field_text};

    ghost output = { λ field. Some (field_text field) };

    fn fmt<W: fmt::Write>(&self, f: &mut fmt::Formatter<W>) -> fmt::Result {
        write!(f, "{}", NameText(self.name))?;
        write!(f, "{}", self.element)?;
        write!(f, "{}", CountText(self.count))
    }
}

/// A name and a colon, or nothing.
#[derive(Clone, Copy)]
struct NameText(Option<FieldName>);

impl fmt::Display for NameText {
    ghost use Rattle.std.specs.Prelude.{Some};
    ghost use Rattle.cip_layouts.specs.Layouts.{name_text};

    ghost output = { λ text. Some (name_text text.0) };

    fn fmt<W: fmt::Write>(&self, f: &mut fmt::Formatter<W>) -> fmt::Result {
        match self.0 {
            Some(name) => write!(f, "{name}:"),
            None => Ok(()),
        }
    }
}

/// A count in brackets, or nothing.
#[derive(Clone, Copy)]
struct CountText(Option<u16>);

impl fmt::Display for CountText {
    ghost use Rattle.std.specs.Prelude.{Some};
    ghost use Rattle.cip_layouts.specs.Layouts.{count_text};

    ghost output = { λ text. Some (count_text text.0) };

    fn fmt<W: fmt::Write>(&self, f: &mut fmt::Formatter<W>) -> fmt::Result {
        match self.0 {
            Some(count) => write!(f, "[{count}]"),
            None => Ok(()),
        }
    }
}

/// What precedes and what follows the first such character, if there is one.
#[tactic(auto, unfolding(crate::specs::Layouts::cut_in))]
pub(crate) fn cut(text: &str, at: char) -> Option<(&str, &str)>
    requires { at < 128 }
    ensures cut { option_map cut_seen result ≡ cut_in at text.now }
    ensures shorter { IfSome result (λ cut. length cut.1.now < length text.now) }
{
    text.split_once(at)
}

/// Whether one of the fields has this name.
pub(crate) fn any_named(fields: &[Field], name: FieldName) -> bool
    ensures { result ≡ list_any (λ field. is_same (option_map name_of field.name) (name_of name)) fields.now }
{
    fields.iter().any(|field| is_same(field.name, name))
}

/// Whether there is a name, and it is this one.
fn is_same(name: Option<FieldName>, other: FieldName) -> bool
    ensures { result ≡ is_same (option_map name_of name) (name_of other) }
{
    match name {
        Some(name) => name.as_slice() == other.as_slice(),
        None => false,
    }
}

/// The type with this name.
fn element(name: &str) -> Result<ElementaryType, FieldFault>
    ensures { result ≡ element_in name.now }
{
    match ElementaryType::from_name(name) {
        Some(element) => Ok(element),
        None => Err(FieldFault::Type),
    }
}

/// The number that a text begins with, up to the `]` at its end.
fn count(text: &str) -> Result<u16, FieldFault>
    ensures { result ≡ count_in text.now }
{
    match cut(text, ']') {
        Some((digits, rest)) if rest.is_empty() => number(digits.as_bytes()).ok_or(
            FieldFault::Count,
        ),
        _ => Err(FieldFault::Count),
    }
}

/// The decimal number from 1 to 65,535 that a text is, without leading zeros.
fn number(text: &[u8]) -> Option<u16>
    ensures { result ≡ number_in text.now }
{
    if text.is_empty() || text[0] == b'0' {
        return None;
    }
    let mut number: u32 = 0;
    for byte in text {
        if !is_digit(*byte) {
            return None;
        }
        number = 10 * number + u32::from(*byte - b'0');
        if number > 65_535 {
            return None;
        }
    }
    Some(number as u16)
}

/// Whether a byte is a decimal digit.
fn is_digit(byte: u8) -> bool
    ensures { result ≡ is_digit byte }
{
    b'0' <= byte && byte <= b'9'
}

/// Whether a text is a name: 1 to 32 letters, digits, `_`, `-` and `.`.
pub(crate) fn is_name(text: &[u8]) -> bool
    ensures { result ≡ is_name text.now }
{
    !text.is_empty() && text.len() <= LONGEST_NAME && are_name_bytes(text)
}

/// Whether every byte may be in a name.
fn are_name_bytes(text: &[u8]) -> bool
    ensures { result ≡ list_all is_name_byte text.now }
{
    text.iter().all(|byte| is_name_byte(*byte))
}

/// Whether a byte may be in a name.
fn is_name_byte(byte: u8) -> bool
    ensures { result ≡ is_name_byte byte }
{
    is_digit(byte)
        || b'A' <= byte && byte <= b'Z'
        || b'a' <= byte && byte <= b'z'
        || byte == b'_'
        || byte == b'-'
        || byte == b'.'
}
