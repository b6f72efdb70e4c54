//! Values of elementary types as JSON.

ghost use Rattle.std.specs.Prelude.{◌≡◌, ◌++◌, IfOk, codes, map, string_bytes};
ghost use Rattle.cip_values.specs.Texts.{date_text, clock_text};
ghost use Rattle.cip_values.specs.Values.{value_in};
ghost use Rattle.enip_lines.specs.JsonValues.{IsJsonOf, AreJsonOf, wide};
ghost use Rattle.serde_json.specs.Data.{depth};
ghost use Rattle.serde_json.specs.View.{view};

use crate::latin::latin_text;
use cip_values::{
    ClockText, Date, ElementaryType, PathText, Value, ValueType, ValuesText, wide_characters,
};
use serde_json::Value as Json;
use std::alloc::{AllocError, Global};

/// The array of the values, in their order.
///
/// # Errors
///
/// `AllocError` if memory is refused.
pub fn list_of(alloc: Global, values: &[Value<'_>]) -> Result<Json, AllocError>
    ensures { IfOk result (λ list. AreJsonOf (map value_in values.now) (view list)) }
{
    let mut list = Vec::new(alloc);
    for value in values {
        list.push(json_of(alloc, *value)?)?;
    }
    Ok(Json::Array(list))
}

/// A value: a BOOL is `true` or `false`, an integer, a bit string or a duration is a number, and a string, a path, a date
/// or a time of day is a string.
///
/// # Errors
///
/// `AllocError` if memory is refused.
pub fn json_of(alloc: Global, value: Value<'_>) -> Result<Json, AllocError>
    ensures { IfOk result (λ json. IsJsonOf (value_in value.entry) (view json)) }
{
    match value {
        Value::Bool(truth) => Ok(Json::Bool(truth)),
        Value::Signed(number) => Ok(Json::from(number)),
        Value::Unsigned(number) | Value::Bits(number) => Ok(Json::from(number)),
        Value::Real(_) => real_of(alloc, ElementaryType::Real, value),
        Value::Lreal(_) => real_of(alloc, ElementaryType::Lreal, value),
        Value::Text(bytes) => Ok(Json::String(latin_text(alloc, bytes)?)),
        Value::Wide(bytes) => Ok(Json::String(wide_string(alloc, bytes)?)),
        Value::Path(bytes) => Ok(Json::String(format!(in alloc; "{}", PathText(bytes))?)),
        Value::Date(date) => Ok(Json::String(format!(in alloc; "{date}")?)),
        Value::TimeOfDay(clock) => Ok(Json::String(format!(in alloc; "{}", ClockText(clock))?)),
        Value::DateAndTime(date, clock) => Ok(Json::String(instant_string(alloc, date, clock)?)),
    }
}

/// A DATE_AND_TIME, with `T` between the date and the time of day.
fn instant_string(alloc: Global, date: Date, clock: u32) -> Result<String, AllocError>
    ensures { IfOk result (λ text. string_bytes text ≡ date_text date ++ codes "T" ++ clock_text clock) }
{
    let mut text = format!(in alloc; "{date}")?;
    let clock = format!(in alloc; "{}", ClockText(clock))?;
    text.push_str("T")?;
    text.push_str(clock.as_str())?;
    Ok(text)
}

/// A STRING2. A surrogate without its other half becomes U+FFFD.
fn wide_string(alloc: Global, bytes: &[u8]) -> Result<String, AllocError>
    ensures { IfOk result (λ text. string_bytes text ≡ wide bytes.now) }
{
    let characters = wide_characters(alloc, bytes)?;
    String::from_utf16_lossy(alloc, characters.as_slice())
}

/// A REAL or an LREAL: the number that its text spells. `inf` and `NaN` are not JSON numbers, so these are strings.
fn real_of(alloc: Global, element: ElementaryType, value: Value<'_>) -> Result<Json, AllocError>
    ensures { IfOk result (λ json. depth (view json) ≡ 0) }
{
    let value_type = ValueType {
        element,
        is_list: false,
    };
    let values = [value];
    let text = format!(in alloc;
        "{}",
        ValuesText {
            value_type,
            values: &values
        }
    )?;
    match text.parse::<f64>() {
        Ok(number) if number.is_finite() => Ok(Json::from(number)),
        _ => Ok(Json::String(text)),
    }
}
