//! How the data of a reply are printed: in hexadecimal, as values of a type, or as JSON.

ghost use Rattle.std.specs.Prelude.{IfOk, IfErr, map};
ghost use Rattle.cip_layouts.specs.Fields.{AreBytesOfFields};
ghost use Rattle.cip_values.specs.Values.{value_in, AreBytesOf};
ghost use Rattle.enip_commands.specs.Styles.{IsUnprinted, IsOfValues, IsOfFields};
ghost use Rattle.enip_faults.specs.Statuses.{IsOfDevices};

use crate::digits::print_digits;
use crate::json_text::{data_line, fields_line, values_line};
use crate::request_failure::RequestFailure;
use cip_layouts::{Field, FieldsFault, FieldsText, ValueShape, read_fields};
use cip_values::{Value, ValueFault, ValueType, ValuesText, read_values};
use enip_faults::ProgramFault;
use std::alloc::Global;
use std::io::Write;

/// How the data of a reply are printed.
#[derive(Clone, Copy, Debug)]
pub struct Style {
    /// The type or the layout of the values, or `None` for hexadecimal.
    pub shape: Option<ValueShape>,
    /// Whether a JSON object is printed.
    pub is_json: bool,
}

/// Hexadecimal digits, without JSON.
pub const DIGITS: Style = Style {
    shape: None,
    is_json: false,
};

/// Prints the data of a reply as text, and ends the line.
///
/// # Errors
///
/// `Shape` or `Fields` if the data are not values of the type or of the layout. `Program` if the output failed or memory was refused.
#[tactic(auto, using(crate::proofs::StyleLemmas::of_layout))]
pub(crate) fn print_data<O: Write>(
    alloc: Global,
    output: &mut O,
    style: Style,
    bytes: &[u8],
) -> Result<(), RequestFailure>
    ensures { IfErr result (IsUnprinted style bytes.now) }
{
    match style.shape {
        Some(ValueShape::Type(value_type)) => {
            let values = values_of(alloc, value_type, bytes)?;
            print_values(output, value_type, values.as_slice())?;
        }
        Some(ValueShape::Layout(layout)) => {
            let values = fields_of(alloc, layout.fields(), bytes)?;
            print_fields(output, layout.fields(), values.as_slice())?;
        }
        None => print_plain(output, bytes)?,
    }
    Ok(())
}

/// The JSON object of the data of a reply.
///
/// # Errors
///
/// `Shape` or `Fields` if the data are not values of the type or of the layout. `Program` if memory was refused.
#[tactic(auto, using(crate::proofs::StyleLemmas::of_layout))]
pub(crate) fn data_object(
    alloc: Global,
    style: Style,
    bytes: &[u8],
) -> Result<String, RequestFailure>
    ensures { IfErr result (IsUnprinted style bytes.now) }
{
    match style.shape {
        Some(ValueShape::Type(value_type)) => {
            let values = values_of(alloc, value_type, bytes)?;
            Ok(values_line(alloc, bytes, value_type, values.as_slice())?)
        }
        Some(ValueShape::Layout(layout)) => {
            let values = fields_of(alloc, layout.fields(), bytes)?;
            Ok(fields_line(alloc, bytes, &layout, values.as_slice())?)
        }
        None => Ok(data_line(alloc, bytes)?),
    }
}

/// Reads data as values of a type.
///
/// # Errors
///
/// `Shape` if they are not. `Program` if memory was refused.
fn values_of(
    alloc: Global,
    value_type: ValueType,
    bytes: &[u8],
) -> Result<Vec<Value<'_>>, RequestFailure>
    ensures read { IfOk result (λ values. AreBytesOf value_type bytes.now (map value_in values.items)) }
    ensures refused { IfErr result (IsOfValues value_type bytes.now) }
{
    match read_values(alloc, value_type, bytes) {
        Ok(values) => Ok(values),
        Err(ValueFault::Memory) => Err(RequestFailure::Program(ProgramFault::Memory)),
        Err(fault) => Err(RequestFailure::Shape(value_type, fault)),
    }
}

/// Reads data as the values of fields.
///
/// # Errors
///
/// `Fields` if they are not. `Program` if memory was refused.
fn fields_of<'a>(
    alloc: Global,
    fields: &[Field],
    bytes: &'a [u8],
) -> Result<Vec<Value<'a>>, RequestFailure>
    ensures read { IfOk result (λ values. AreBytesOfFields fields.now bytes.now (map value_in values.items)) }
    ensures refused { IfErr result (IsOfFields fields.now bytes.now) }
{
    match read_fields(alloc, fields, bytes) {
        Ok(values) => Ok(values),
        Err(FieldsFault::Memory) => Err(RequestFailure::Program(ProgramFault::Memory)),
        Err(fault) => Err(RequestFailure::Fields(fault)),
    }
}

/// Prints the values of fields on one line.
fn print_fields<O: Write>(
    output: &mut O,
    fields: &[Field],
    values: &[Value<'_>],
) -> Result<(), ProgramFault>
    ensures { IfErr result IsOfDevices }
{
    writeln!(output, "{}", FieldsText { fields, values })?;
    Ok(())
}

/// Prints values on one line.
fn print_values<O: Write>(
    output: &mut O,
    value_type: ValueType,
    values: &[Value<'_>],
) -> Result<(), ProgramFault>
    ensures { IfErr result IsOfDevices }
{
    writeln!(output, "{}", ValuesText { value_type, values })?;
    Ok(())
}

/// Prints bytes in hexadecimal on one line, or `ok` if there are none.
fn print_plain<O: Write>(output: &mut O, bytes: &[u8]) -> Result<(), ProgramFault>
    ensures { IfErr result IsOfDevices }
{
    if bytes.is_empty() {
        output.write_all(b"ok")?;
    } else {
        print_digits(output, bytes)?;
    }
    output.write_all(b"\n")?;
    Ok(())
}
