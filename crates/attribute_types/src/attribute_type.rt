//! The types of the attributes of own objects, and their names.
//! Text: docs/PROGRAM.md, "The configuration".

ghost use Rattle.std.specs.Prelude.{◌≡◌, ◌≤◌};
ghost use Rattle.attribute_types.specs.Types.{element_named, known_element, own_element, with_digit, count_from, counted_element, counted_type};
ghost use Rattle.attribute_types.specs.Types.{single_type, type_named, width_of, fixed_size, kind_of};

use cip_application::{AttributeKind, NumberRange};
use cip_values::ElementaryType;
use std::fmt;

/// The longest text of a SHORT_STRING, in bytes. (Volume 1, data types.)
const LONGEST_TEXT: u8 = 0xff;

/// The type of an attribute of an own object.
#[derive(Clone, Copy, Debug, PartialEq, Eq)]
pub enum AttributeType {
    /// One value of an elementary type other than SHORT_STRING.
    One(ElementaryType),
    /// An array of this many values of such a type.
    Array(ElementaryType, u16),
    /// A SHORT_STRING of up to this many bytes, without the byte of its length.
    ShortString(u8),
    /// This many bytes of any meaning.
    Bytes(u16),
}

impl AttributeType {
    /// The type with this name: `UINT`, `UINT[4]`, `SHORT_STRING[32]` or `BYTES[12]`.
    pub fn from_name(name: &str) -> Option<AttributeType>
        ensures { result ≡ type_named name.now }
    {
        match name.split_once('[') {
            Some((base, rest)) => counted_type(base, count_in(rest.as_bytes())?),
            None => Some(single_type(element_named(name)?)),
        }
    }

    /// The size of each value in bytes, at most 65,535. For a SHORT_STRING this is the size of the empty text.
    pub fn fixed_size(self) -> u16
        ensures { result ≡ fixed_size self }
    {
        match self {
            AttributeType::One(element) => width_of(element),
            AttributeType::Array(element, count) => width_of(element).saturating_mul(count),
            AttributeType::Bytes(count) => count,
            AttributeType::ShortString(_) => 1,
        }
    }

    /// The kind of an attribute of this type, with this range of its numbers.
    pub fn kind(self, range: Option<NumberRange>) -> AttributeKind
        ensures { result ≡ kind_of self range }
    {
        match self {
            AttributeType::ShortString(room) => AttributeKind::ShortString { room },
            _ => AttributeKind::Fixed {
                size: self.fixed_size(),
                range,
            },
        }
    }
}

impl fmt::Display for AttributeType {
    fn fmt<W: fmt::Write>(&self, f: &mut fmt::Formatter<W>) -> fmt::Result {
        match *self {
            AttributeType::One(element) => f.write_str(element.name()),
            AttributeType::Array(element, count) => write!(f, "{}[{count}]", element.name()),
            AttributeType::ShortString(room) => write!(f, "SHORT_STRING[{room}]"),
            AttributeType::Bytes(count) => write!(f, "BYTES[{count}]"),
        }
    }
}

/// The elementary type with this name.
fn element_named(name: &str) -> Option<ElementaryType>
    ensures { result ≡ element_named name.now }
{
    own_element(known_element(name)?)
}

/// The elementary type with this name, whether an attribute can have it or not.
fn known_element(name: &str) -> Option<ElementaryType>
    ensures { result ≡ known_element name.now }
{
    ElementaryType::from_name(name)
}

/// The type if an attribute can have it.
fn own_element(element: ElementaryType) -> Option<ElementaryType>
    ensures { result ≡ own_element element }
{
    match element {
        ElementaryType::String | ElementaryType::String2 | ElementaryType::Epath => None,
        ElementaryType::Date | ElementaryType::TimeOfDay | ElementaryType::DateAndTime => None,
        element => Some(element),
    }
}

/// The type whose name has this part before the bracket, and this count in brackets.
fn counted_type(base: &str, count: u16) -> Option<AttributeType>
    ensures { result ≡ counted_type base.now count }
{
    if base == "BYTES" {
        return Some(AttributeType::Bytes(count));
    }
    counted_element(count, element_named(base)?)
}

/// An array of this many elements, or a SHORT_STRING of up to this many bytes.
fn counted_element(count: u16, element: ElementaryType) -> Option<AttributeType>
    ensures { result ≡ counted_element count element }
{
    match element {
        ElementaryType::ShortString if count <= u16::from(LONGEST_TEXT) => {
            Some(AttributeType::ShortString(count as u8))
        }
        ElementaryType::ShortString => None,
        element => Some(AttributeType::Array(element, count)),
    }
}

/// The type of one value.
fn single_type(element: ElementaryType) -> AttributeType
    ensures { result ≡ single_type element }
{
    match element {
        ElementaryType::ShortString => AttributeType::ShortString(LONGEST_TEXT),
        element => AttributeType::One(element),
    }
}

/// The count that decimal digits spell, up to the closing bracket at the end.
fn count_in(text: &[u8]) -> Option<u16>
    ensures { result ≡ count_from 0 text.now }
{
    let mut count: u16 = 0;
    for (index, byte) in text.iter().enumerate() {
        if *byte == b']' {
            return if index + 1 == text.len() {
                Some(count)
            } else {
                None
            };
        }
        count = with_digit(count, *byte)?;
    }
    None
}

/// The count with one more decimal digit. `None` if it has over 16 bits then.
fn with_digit(count: u16, byte: u8) -> Option<u16>
    ensures { result ≡ with_digit count byte }
{
    if byte < b'0' || byte > b'9' {
        return None;
    }
    let more = 10 * u32::from(count) + u32::from(byte - b'0');
    if more > 0xffff {
        return None;
    }
    Some(more as u16)
}

/// The size of a value in bytes. Of a string or a path it is the size of its count alone.
pub fn width_of(element: ElementaryType) -> u16
    ensures value { result ≡ width_of element }
    ensures most { result ≤ 8 }
{
    match element {
        ElementaryType::Bool | ElementaryType::ShortString | ElementaryType::Epath => 1,
        ElementaryType::Sint | ElementaryType::Usint | ElementaryType::Byte => 1,
        ElementaryType::Int | ElementaryType::Uint | ElementaryType::Word => 2,
        ElementaryType::String | ElementaryType::String2 | ElementaryType::Date => 2,
        ElementaryType::Dint | ElementaryType::Udint | ElementaryType::Dword => 4,
        ElementaryType::Real | ElementaryType::Time | ElementaryType::TimeOfDay => 4,
        ElementaryType::DateAndTime => 6,
        ElementaryType::Lint | ElementaryType::Ulint | ElementaryType::Lword => 8,
        ElementaryType::Lreal | ElementaryType::Ltime => 8,
    }
}
