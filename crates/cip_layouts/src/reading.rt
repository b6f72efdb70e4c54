//! Reads bytes as the values of fields.

ghost use Rattle.std.specs.Prelude.{map, IfOk, IfErr};
ghost use Rattle.cip_values.specs.Values.{value_in};
ghost use Rattle.cip_layouts.specs.Fields.{AreBytesOfFields, IsReadFault, FieldFollows, IsFieldFault};

use crate::fault::FieldsFault;
use crate::field::Field;
use cip_values::{Value, ValueFault, read_front};
use std::alloc::Global;

/// Reads all of the bytes as the values of fields, one field after another.
///
/// # Errors
///
/// `Field` with the first field whose values the bytes do not have, `Trailing` if bytes follow the last field, `Memory`
/// if memory is refused.
pub fn read_fields<'a>(
    alloc: Global,
    fields: &[Field],
    bytes: &'a [u8],
) -> Result<Vec<Value<'a>>, FieldsFault<'static>>
    ensures read { IfOk result (λ values. AreBytesOfFields fields.now bytes.now (map value_in values.items)) }
    ensures refused { IfErr result (IsReadFault fields.now bytes.now) }
{
    let mut values = Vec::new(alloc);
    let mut rest = bytes;
    for (index, field) in fields.iter().enumerate() {
        match read_field(alloc, index + 1, field, rest, &mut values) {
            Ok(behind) => rest = behind,
            Err(fault) => return Err(fault),
        }
    }
    if !rest.is_empty() {
        return Err(FieldsFault::Trailing(rest.len()));
    }
    Ok(values)
}

/// Reads the values of the field with this number at the front of the bytes, and appends them. Returns the rest.
fn read_field<'a>(
    alloc: Global,
    number: usize,
    field: &Field,
    bytes: &'a [u8],
    values: &mut Vec<Value<'a>>,
) -> Result<&'a [u8], FieldsFault<'static>>
    ensures read { IfOk result (λ rest. FieldFollows field.now bytes.now rest.now
        (map value_in values.old.items) (map value_in values.new.items)) }
    ensures refused { IfErr result (IsFieldFault number field.now bytes.now) }
{
    match read_front(alloc, field.element, field.values(), bytes) {
        Ok((front, rest)) => {
            values.extend_from_slice(front.as_slice())?;
            Ok(rest)
        }
        Err(ValueFault::Memory) => Err(FieldsFault::Memory),
        Err(fault) => Err(FieldsFault::Field(number, fault)),
    }
}
