//! Writes the values of an attribute to a line, as `enip get --json` prints them.

ghost use Rattle.std.specs.Prelude.{map};
ghost use Rattle.serde_json.specs.View.{view, number_view};
ghost use Rattle.cip_values.specs.Values.{value_in};
ghost use Rattle.enip_owner.specs.Events.{IsShownAs, IsScalarJson, IsNumberJson};
ghost use Rattle.enip_owner.specs.Shown.{AddsOne, AddsValues, AddsShown};

use cip_values::{Value, ValueFault, ValueType, read_values};
use enip_lines::json_of;
use json::Writer;
use serde_json::{Number, Value as Scalar};
use std::alloc::{AllocError, Global};

/// Writes the values of bytes as `values`, if their type is known and they are values of it. Otherwise it writes nothing.
pub(crate) fn write_shown(
    alloc: Global,
    writer: &mut Writer,
    value_type: Option<ValueType>,
    bytes: &[u8],
) -> Result<(), AllocError>
    ensures { AddsShown result writer.old writer.new value_type bytes.now }
{
    let Some(value_type) = value_type else {
        return Ok(());
    };
    match read_values(alloc, value_type, bytes) {
        Ok(values) => write_list(alloc, writer, values.as_slice()),
        Err(ValueFault::Memory) => Err(AllocError),
        Err(_) => Ok(()),
    }
}

/// Writes values as the list `values`.
fn write_list(alloc: Global, writer: &mut Writer, values: &[Value<'_>]) -> Result<(), AllocError>
    ensures { AddsValues result writer.old writer.new (map value_in values.now) }
{
    writer.key("values")?;
    writer.begin_array()?;
    for value in values {
        write_one(alloc, writer, *value)?;
    }
    writer.end_array()
}

/// Writes a value of a list.
fn write_one(alloc: Global, writer: &mut Writer, value: Value<'_>) -> Result<(), AllocError>
    ensures { AddsOne result writer.old writer.new (IsShownAs (value_in value.entry)) }
{
    let scalar = json_of(alloc, value)?;
    write_scalar(writer, &scalar)
}

/// Writes a value that does not nest.
fn write_scalar(writer: &mut Writer, scalar: &Scalar) -> Result<(), AllocError>
    ensures { AddsOne result writer.old writer.new (IsScalarJson (view scalar.now)) }
{
    match scalar {
        Scalar::Bool(truth) => writer.boolean(*truth),
        Scalar::Number(number) => write_number(writer, *number),
        Scalar::String(text) => writer.string(text.as_str()),
        Scalar::Null | Scalar::Array(_) | Scalar::Object(_) => writer.null(),
    }
}

/// Writes a number: an integer in decimal, and a float by a short decimal number that reads as it.
fn write_number(writer: &mut Writer, number: Number) -> Result<(), AllocError>
    ensures { AddsOne result writer.old writer.new (IsNumberJson (number_view number)) }
{
    if let Some(number) = number.as_u64() {
        return writer.u64(number);
    }
    if let Some(number) = number.as_i64() {
        return writer.i64(number);
    }
    match number.as_f64() {
        Some(number) if number.is_finite() => writer.float(number),
        _ => writer.null(),
    }
}
