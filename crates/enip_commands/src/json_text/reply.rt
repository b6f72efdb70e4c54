//! The objects of replies and refusals.

ghost use Rattle.std.specs.Prelude.{◌≡◌, ◌++◌, IfOk, codes, decimal, map, string_bytes};
ghost use Rattle.cip_values.specs.Values.{value_in};
ghost use Rattle.enip_commands.specs.Json.{data_told, AreValuesJson, IsValuesLine, refusal_json, resumed_text};
ghost use Rattle.serde_json.specs.View.{view};
ghost use Rattle.serde_json.specs.Written.{compact_text};

use cip_values::{Value, ValueType};
use enip_lines::list_of;
use serde_json::{Value as Json, json};
use std::alloc::{AllocError, Global};

/// The line of a successful reply: its data in hexadecimal.
///
/// # Errors
///
/// `AllocError` if memory is refused.
pub fn data_line(alloc: Global, bytes: &[u8]) -> Result<String, AllocError>
    ensures { IfOk result (λ line. string_bytes line ≡ compact_text (data_told bytes.now)) }
{
    data_object(alloc, bytes)?.to_string(alloc)
}

fn data_object(alloc: Global, bytes: &[u8]) -> Result<Json, AllocError>
    ensures { IfOk result (λ object. view object ≡ data_told bytes.now) }
{
    let digits = hex::encode(alloc, bytes)?;
    json!(in alloc; {"data": &digits, "status": 0u8})
}

/// The line of a successful reply: its data in hexadecimal, and as values of a type.
///
/// # Errors
///
/// `AllocError` if memory is refused.
pub fn values_line(
    alloc: Global,
    bytes: &[u8],
    value_type: ValueType,
    values: &[Value<'_>],
) -> Result<String, AllocError>
    ensures { IfOk result (λ line. IsValuesLine bytes.now value_type (map value_in values.now) (string_bytes line)) }
{
    values_object(alloc, bytes, value_type, values)?.to_string(alloc)
}

fn values_object(
    alloc: Global,
    bytes: &[u8],
    value_type: ValueType,
    values: &[Value<'_>],
) -> Result<Json, AllocError>
    ensures { IfOk result (λ object. AreValuesJson bytes.now value_type (map value_in values.now) (view object)) }
{
    let list = list_of(alloc, values)?;
    let digits = hex::encode(alloc, bytes)?;
    let name = format!(in alloc; "{value_type}")?;
    json!(in alloc; {"data": &digits, "status": 0u8, "type": &name, "values": list})
}

/// The line of a refusal: the general status, and the first additional word or 0.
///
/// # Errors
///
/// `AllocError` if memory is refused.
pub fn refusal_line(alloc: Global, status: u8, extended: u16) -> Result<String, AllocError>
    ensures { IfOk result (λ line. string_bytes line ≡ compact_text (refusal_json status extended)) }
{
    refusal_object(alloc, status, extended)?.to_string(alloc)
}

fn refusal_object(alloc: Global, status: u8, extended: u16) -> Result<Json, AllocError>
    ensures { IfOk result (λ object. view object ≡ refusal_json status extended) }
{
    json!(in alloc; {"extended": extended, "status": status})
}

/// The line of a reply with the time at which it came, in microseconds. `line` is the object of the reply.
///
/// # Errors
///
/// `AllocError` if memory is refused.
pub fn timed_line(alloc: Global, moment: u64, line: &str) -> Result<String, AllocError>
    ensures { IfOk result (λ timed. string_bytes timed
        ≡ codes "{\"microseconds\":" ++ decimal moment ++ codes ",\"reply\":" ++ line.now ++ codes "}") }
{
    format!(in alloc; "{{\"microseconds\":{moment},\"reply\":{line}}}")
}

/// The line of a reply to a command with this number, which an earlier run has sent. `line` is the object of the reply,
/// and what is added follows its first member.
///
/// # Errors
///
/// `AllocError` if memory is refused.
pub fn resumed_line(alloc: Global, number: u32, line: &str) -> Result<String, AllocError>
    ensures { IfOk result (λ resumed. string_bytes resumed ≡ resumed_text number line.now) }
{
    match line.split_once(',') {
        Some((first, rest)) => {
            format!(in alloc; "{first},\"number\":{number},\"resumed\":true,{rest}")
        }
        None => String::from_str(alloc, line),
    }
}
