//! Values of a type: reads them from bytes, and writes words as bytes.

ghost use Rattle.std.specs.Prelude.{◌≡◌, ◌≢◌, ◌≤◌, ◌<◌, ◌*◌, ◌/◌, ◌%◌, ◌^◌, [], ◌++◌, List, map, length, IfOk, IfErr, OnOk, ⊤};
ghost use Rattle.cip_values.specs.Types.{IsSized, form_of, size_of, unit_size};
ghost use Rattle.cip_values.specs.Values.{value_in, BeginsWithAll, AreBytesOf, IsSingleFault, IsListFault, IsReadFault, IsFrontFault};
ghost use Rattle.cip_values.specs.Parsing.{Appends, IsAppended, AreWritten, IsWriteFault, IsRefusedWord, IsTextFault};
ghost use Rattle.cip_values.specs.Parsing.{IsText, oversized};

use crate::element::{ElementaryType, Form, ValueType};
use crate::fault::ValueFault;
use crate::parsing::parse_value;
use crate::text::{unescaped, unquoted};
use crate::value::Value;
use std::alloc::{AllocError, Global};

/// Reads all of the bytes as values of a type: any number of values for a list, otherwise one.
///
/// # Errors
///
/// `Short` if the bytes end within a value, `Trailing` if bytes follow the one value, `NotBool` if a BOOL is
/// neither 0 nor 1, `Memory` if memory is refused.
pub fn read_values<'a>(
    alloc: Global,
    value_type: ValueType,
    bytes: &'a [u8],
) -> Result<Vec<Value<'a>>, ValueFault<'static>>
    ensures read { IfOk result (λ values. AreBytesOf value_type bytes.now (map value_in values.items)) }
    ensures refused { IfErr result (IsReadFault value_type bytes.now) }
{
    let form = value_type.element.form();
    if value_type.is_list {
        read_list(alloc, form, bytes)
    } else {
        read_one(alloc, form, bytes)
    }
}

/// Reads all of the bytes as one value.
fn read_one<'a>(
    alloc: Global,
    form: Form,
    bytes: &'a [u8],
) -> Result<Vec<Value<'a>>, ValueFault<'static>>
    requires { IsSized form }
    ensures read { IfOk result (λ values. BeginsWithAll form bytes.now (map value_in values.items) []) }
    ensures one { IfOk result (λ values. length (map value_in values.items) ≡ 1) }
    ensures refused { IfErr result (IsSingleFault form bytes.now) }
{
    let (value, rest) = Value::read(form, bytes)?;
    if !rest.is_empty() {
        return Err(ValueFault::Trailing(rest.len()));
    }
    let mut values = Vec::new(alloc);
    values.push(value)?;
    Ok(values)
}

/// Reads all of the bytes as any number of values.
fn read_list<'a>(
    alloc: Global,
    form: Form,
    bytes: &'a [u8],
) -> Result<Vec<Value<'a>>, ValueFault<'static>>
    requires { IsSized form }
    ensures read { IfOk result (λ values. BeginsWithAll form bytes.now (map value_in values.items) []) }
    ensures refused { IfErr result (IsListFault form bytes.now) }
{
    let mut values = Vec::new(alloc);
    let mut rest = bytes;
    while !rest.is_empty() {
        let (value, behind) = Value::read(form, rest)?;
        values.push(value)?;
        rest = behind;
    }
    Ok(values)
}

/// Reads this many values of a type at the front of the bytes, and returns them with the rest.
///
/// # Errors
///
/// `Short` if the bytes end within a value, `NotBool` if a BOOL is neither 0 nor 1, `Memory` if memory is refused.
pub fn read_front<'a>(
    alloc: Global,
    element: ElementaryType,
    count: usize,
    bytes: &'a [u8],
) -> Result<(Vec<Value<'a>>, &'a [u8]), ValueFault<'static>>
    ensures read { IfOk result (λ read. BeginsWithAll (form_of element) bytes.now (map value_in read.0.items) read.1.now) }
    ensures counted { IfOk result (λ read. length (map value_in read.0.items) ≡ count) }
    ensures refused { IfErr result (IsFrontFault (form_of element) count bytes.now) }
{
    let form = element.form();
    let mut values = Vec::new(alloc);
    let mut rest = bytes;
    for _index in 0..count {
        match Value::read(form, rest) {
            Ok((value, behind)) => {
                values.push(value)?;
                rest = behind;
            }
            Err(fault) => return Err(fault),
        }
    }
    Ok((values, rest))
}

/// Parses words as values of a type and returns their bytes: any number of words for a list, otherwise one.
///
/// # Errors
///
/// `Count` if a type of one value is not given exactly one word, `Form` if a word is not a value of the type,
/// `Range` if its number is out of the type's range, `TooLong` if it has more than the 255 bytes of a SHORT_STRING,
/// `Oversized` if it has more characters or words than another string or path can have, `Memory` if memory is refused.
pub fn write_values<'a>(
    alloc: Global,
    value_type: ValueType,
    words: &[&'a str],
) -> Result<Vec<u8>, ValueFault<'a>>
    ensures written { IfOk result (λ bytes. AreWritten value_type (map (λ word. word.now) words.now) bytes.items) }
    ensures refused { IfErr result (IsWriteFault value_type (map (λ word. word.now) words.now)) }
{
    if !value_type.is_list && words.len() != 1 {
        return Err(ValueFault::Count(value_type.element, words.len()));
    }
    let mut bytes = Vec::new(alloc);
    for word in words {
        match append_word(alloc, value_type, *word, &mut bytes) {
            Ok(()) => {}
            Err(fault) => return Err(fault),
        }
    }
    Ok(bytes)
}

/// Parses a word as a value, and appends the value's bytes.
fn append_word<'a>(
    alloc: Global,
    value_type: ValueType,
    word: &'a str,
    out: &mut Vec<u8>,
) -> Result<(), ValueFault<'a>>
    ensures written { OnOk result (Appends value_type word.now out.old.items out.new.items) }
    ensures refused { IfErr result (IsRefusedWord value_type word.now) }
{
    let element = value_type.element;
    match element.form() {
        Form::Text(_) | Form::Wide | Form::Path => append_text(alloc, value_type, word, out),
        form => {
            parse_value(element, word)?.append(form, out)?;
            Ok(())
        }
    }
}

/// Unescapes a word as a string or a path, and appends its bytes.
fn append_text<'a>(
    alloc: Global,
    value_type: ValueType,
    word: &'a str,
    out: &mut Vec<u8>,
) -> Result<(), ValueFault<'a>>
    requires { IsText (form_of value_type.element) }
    ensures written { OnOk result (Appends value_type word.now out.old.items out.new.items) }
    ensures refused { IfErr result (IsTextFault value_type word.now) }
{
    let form = value_type.element.form();
    let escaped = if value_type.is_list {
        unquoted(word.as_bytes())
    } else {
        word.as_bytes()
    };
    let Some(text) = unescaped(alloc, form, escaped)? else {
        return Err(ValueFault::Form(word, value_type.element));
    };
    if text.len() % form.unit() != 0 {
        return Err(ValueFault::Form(word, value_type.element));
    }
    let count = text.len() / form.unit();
    if count >= count_limit(form) {
        return Err(oversized(value_type.element, count));
    }
    append_counted(form, text.as_slice(), out)?;
    Ok(())
}

/// The first number that the count of a string or a path cannot be.
fn count_limit(form: Form) -> usize
    requires text { IsText form }
    requires sized { IsSized form }
    ensures { result ≡ 2 ^ (8 * size_of form) }
{
    1 << (8 * form.size())
}

/// The fault of a string or a path with this many characters or words, which are too many.
fn oversized(element: ElementaryType, count: usize) -> ValueFault<'static>
    ensures { result ≡ oversized element count }
{
    match element {
        ElementaryType::ShortString => ValueFault::TooLong(count),
        element => ValueFault::Oversized(element, count),
    }
}

/// Appends the bytes of a string or a path of this kind.
fn append_counted(form: Form, text: &[u8], out: &mut Vec<u8>) -> Result<(), AllocError>
    requires text { IsText form }
    requires sized { IsSized form }
    requires whole { length text.now % unit_size form ≡ 0 }
    requires few { length text.now / unit_size form < 2 ^ (8 * size_of form) }
    ensures { OnOk result (IsAppended form text.now out.old.items out.new.items) }
{
    Value::counted(form, text).append(form, out)
}
