//! The bytes of the values in a line of an owner.

ghost use Rattle.std.specs.Prelude.{◌≡◌, ◌<◌, IfOk, IfErr, IfSome, OnOk, map, option_map, length};
ghost use Rattle.enip_owner.specs.Requests.{given_in};
ghost use Rattle.enip_owner.specs.Values.{kind_of, word_in, latin_bytes, is_pair, AreGivenBytes, IsGivenFault, AppendsGiven, IsValueFault};
ghost use Rattle.enip_owner.specs.Values.{AppendsWord, IsWordFault, AppendsShortText, IsShortTextFault, IsFirstLatin};

use crate::request::GivenValue;
use cip_values::{ElementaryType, ValueFault, ValueType, write_values};
use std::alloc::{AllocError, AllocFailed, Global};
use thiserror::Error;

/// Why values are not values of a type. The text is that of an `error` line.
#[derive(Clone, Copy, Debug, PartialEq, Eq, Error)]
pub enum ValuesFault {
    /// The type has one value, and there is none or more than one.
    #[error("values: expected one value")]
    Count,
    /// A value is a number, a string, `true` or `false`, and the type wants something else. Or a character of a
    /// SHORT_STRING is beyond U+00FF.
    #[error("values: a value of another kind than the attribute's type")]
    Kind,
    /// A value is not one of the type: a number is out of its range, or a string is too long or has another form.
    #[error("values: not a value of the attribute's type")]
    Range,
    /// Memory was refused.
    #[error("out of memory")]
    Memory,
}

impl From<AllocError> for ValuesFault {
    ghost use Rattle.enip_owner.specs.declared.written_values.ValuesFault.TheVariants.{Memory};

    ghost from_gives = { λ _ fault. fault ≡ Memory };

    fn from(_error: AllocError) -> ValuesFault {
        ValuesFault::Memory
    }
}

impl<T: Drop> From<AllocFailed<T>> for ValuesFault {
    ghost use Rattle.enip_owner.specs.declared.written_values.ValuesFault.TheVariants.{Memory};

    ghost from_gives = { λ _ fault. fault ≡ Memory };

    fn from(_error: AllocFailed<T>) -> ValuesFault {
        ValuesFault::Memory
    }
}

/// What a value of a type is in JSON.
#[derive(Clone, Copy)]
pub(crate) enum Kind {
    /// `true` or `false`.
    Truth,
    /// A number.
    Number,
    /// A number, or a string such as `inf`.
    Real,
    /// A SHORT_STRING: a string, one byte for each character.
    ShortText,
    /// A string, in the form in which `enip set` reads it.
    Text,
}

/// The bytes of values of a type, one after another: any number of values for a list, otherwise one. A BOOL is `true` or
/// `false`, an integer, a bit string or a duration is a number, and a SHORT_STRING is a string, as `values` of a `changed`
/// line are.
///
/// ```
/// let int = ValueType { element: ElementaryType::Int, is_list: false };
/// values_as_bytes(alloc, int, &[GivenValue::Number("1500")])?; // dc 05
/// ```
///
/// # Errors
///
/// The first [`ValuesFault`] that holds. `Memory` if memory is refused.
pub fn values_as_bytes(
    alloc: Global,
    value_type: ValueType,
    values: &[GivenValue<'_>],
) -> Result<Vec<u8>, ValuesFault>
    ensures read { IfOk result (λ bytes. AreGivenBytes value_type (map given_in values.now) bytes.items) }
    ensures refused { IfErr result (IsGivenFault value_type (map given_in values.now)) }
{
    if !value_type.is_list && values.len() != 1 {
        return Err(ValuesFault::Count);
    }
    let mut bytes = Vec::new(alloc);
    for value in values {
        match append_value(alloc, value_type.element, *value, &mut bytes) {
            Ok(()) => {}
            Err(fault) => return Err(fault),
        }
    }
    Ok(bytes)
}

/// Appends the bytes of a value.
fn append_value(
    alloc: Global,
    element: ElementaryType,
    value: GivenValue<'_>,
    out: &mut Vec<u8>,
) -> Result<(), ValuesFault>
    ensures appended { OnOk result (AppendsGiven element (given_in value.entry) out.old.items out.new.items) }
    ensures refused { IfErr result (IsValueFault element (given_in value.entry)) }
{
    match (kind_of(element), value) {
        (Kind::ShortText, GivenValue::Text(text)) => append_short_text(alloc, text, out),
        (kind, value) => append_word(alloc, element, kind, value, out),
    }
}

/// What a value of a type is in JSON.
fn kind_of(element: ElementaryType) -> Kind
    ensures { result ≡ kind_of element }
{
    match element {
        ElementaryType::Bool => Kind::Truth,
        ElementaryType::Real | ElementaryType::Lreal => Kind::Real,
        ElementaryType::ShortString => Kind::ShortText,
        ElementaryType::String | ElementaryType::String2 | ElementaryType::Epath => Kind::Text,
        ElementaryType::Date | ElementaryType::TimeOfDay | ElementaryType::DateAndTime => {
            Kind::Text
        }
        _ => Kind::Number,
    }
}

/// Appends the bytes of a value that is not a string of a SHORT_STRING.
fn append_word(
    alloc: Global,
    element: ElementaryType,
    kind: Kind,
    value: GivenValue<'_>,
    out: &mut Vec<u8>,
) -> Result<(), ValuesFault>
    ensures appended { OnOk result (AppendsWord kind element (given_in value.entry) out.old.items out.new.items) }
    ensures refused { IfErr result (IsWordFault kind element (given_in value.entry)) }
{
    let Some(word) = word_in(kind, value) else {
        return Err(ValuesFault::Kind);
    };
    let value_type = ValueType {
        element,
        is_list: false,
    };
    match write_values(alloc, value_type, &[word]) {
        Ok(bytes) => Ok(out.extend_from_slice(bytes.as_slice())?),
        Err(ValueFault::Memory) => Err(ValuesFault::Memory),
        Err(_) => Err(ValuesFault::Range),
    }
}

/// A value as the word that `cip_values` parses. `None` if it is of another kind.
fn word_in<'a>(kind: Kind, value: GivenValue<'a>) -> Option<&'a str>
    ensures { option_map (λ word. word.now) result ≡ word_in kind (given_in value.entry) }
{
    match (kind, value) {
        (Kind::Truth, GivenValue::Truth(true)) => Some("true"),
        (Kind::Truth, GivenValue::Truth(false)) => Some("false"),
        (Kind::Number | Kind::Real, GivenValue::Number(text)) => Some(text),
        (Kind::Real | Kind::Text, GivenValue::Text(text)) => Some(text),
        _ => None,
    }
}

/// Appends a SHORT_STRING: the number of its bytes, and the bytes.
fn append_short_text(alloc: Global, text: &str, out: &mut Vec<u8>) -> Result<(), ValuesFault>
    ensures appended { OnOk result (AppendsShortText text.now out.old.items out.new.items) }
    ensures refused { IfErr result (IsShortTextFault text.now) }
{
    let Some(bytes) = latin_bytes(alloc, text.as_bytes())? else {
        return Err(ValuesFault::Kind);
    };
    let Ok(count) = u8::try_from(bytes.len()) else {
        return Err(ValuesFault::Range);
    };
    out.push(count)?;
    out.extend_from_slice(bytes.as_slice())?;
    Ok(())
}

/// The characters of a text in UTF-8, one byte for each. `None` if one is beyond U+00FF.
fn latin_bytes(alloc: Global, text: &[u8]) -> Result<Option<Vec<u8>>, AllocError>
    ensures { IfOk result (λ read. option_map (λ bytes. bytes.items) read ≡ latin_bytes text.now) }
{
    let mut bytes = Vec::new(alloc);
    let mut rest = text;
    while !rest.is_empty() {
        let Some((byte, behind)) = first_latin(rest) else {
            return Ok(None);
        };
        bytes.push(byte)?;
        rest = behind;
    }
    Ok(Some(bytes))
}

/// The first character of a text in UTF-8, and the rest. `None` if there is none, or it is beyond U+00FF.
fn first_latin(text: &[u8]) -> Option<(u8, &[u8])>
    ensures first { IsFirstLatin text.now (option_map (λ read. (read.0, read.1.now)) result) }
    ensures shorter { IfSome result (λ read. length read.1.now < length text.now) }
{
    if text.is_empty() {
        return None;
    }
    let byte = text[0];
    if byte < 0x80 {
        return Some((byte, &text[1..]));
    }
    if text.len() < 2 || !is_pair(byte, text[1]) {
        return None;
    }
    Some((64 * (byte - 0xc0) + (text[1] - 0x80), &text[2..]))
}

/// Whether two bytes are a character from U+0080 to U+00FF in UTF-8.
fn is_pair(lead: u8, next: u8) -> bool
    ensures { result ≡ is_pair lead next }
{
    0xc2 <= lead && lead <= 0xc3 && (0x80 <= next && next <= 0xbf)
}
