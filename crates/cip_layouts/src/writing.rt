//! Parses words as the values of fields, and returns their bytes.

ghost use Rattle.std.specs.Prelude.{◌≡◌, ◌≤◌, ◌+◌, map, length, drop, IfOk, IfErr, OnOk};
ghost use Rattle.cip_layouts.specs.Fields.{AreFieldsWritten, IsFieldsWriteFault, total, count_of, FieldIsWritten, IsFieldRefused, AreAppended, AreRefusedFrom};

use crate::fault::FieldsFault;
use crate::field::Field;
use crate::layout::MOST_FIELDS;
use cip_values::{ValueFault, write_values};
use std::alloc::Global;

/// Parses words as the values of fields, one word each, and returns the values' bytes.
///
/// # Errors
///
/// `Count` if there are more or fewer words than values, `Field` with the first field for which a word is refused,
/// `Memory` if memory is refused.
pub fn write_fields<'a>(
    alloc: Global,
    fields: &[Field],
    words: &[&'a str],
) -> Result<Vec<u8>, FieldsFault<'a>>
    requires { length fields.now ≤ MOST_FIELDS }
    ensures written { IfOk result (λ bytes. AreFieldsWritten fields.now (map (λ word. word.now) words.now) bytes.items) }
    ensures refused { IfErr result (IsFieldsWriteFault fields.now (map (λ word. word.now) words.now)) }
{
    let wanted = total(fields);
    if words.len() != wanted {
        return Err(FieldsFault::Count(wanted, words.len()));
    }
    let mut bytes = Vec::new(alloc);
    match write_from(alloc, fields, 0, words, &mut bytes) {
        Ok(()) => Ok(bytes),
        Err(fault) => Err(fault),
    }
}

/// Parses words as the values of the fields from this index on, and appends their bytes.
fn write_from<'a>(
    alloc: Global,
    fields: &[Field],
    index: usize,
    words: &[&'a str],
    out: &mut Vec<u8>,
) -> Result<(), FieldsFault<'a>>
    requires within { index ≤ length fields.now }
    requires enough { length (map (λ word. word.now) words.now) ≡ total (drop index fields.now) }
    ensures written { OnOk result (AreAppended (drop index fields.now) (map (λ word. word.now) words.now)
        out.old.items out.new.items) }
    ensures refused { IfErr result (AreRefusedFrom (index + 1) (drop index fields.now) (map (λ word. word.now) words.now)) }
{
    if index == fields.len() {
        return Ok(());
    }
    match write_field(alloc, index + 1, &fields[index], words, out) {
        Ok(rest) => write_from(alloc, fields, index + 1, rest, out),
        Err(fault) => Err(fault),
    }
}

/// How many values the fields have.
fn total(fields: &[Field]) -> usize
    requires { length fields.now ≤ MOST_FIELDS }
    ensures { result ≡ total fields.now }
{
    let mut total = 0;
    for field in fields {
        total += field.values();
    }
    total
}

/// Parses the first words as the values of the field with this number, and appends their bytes. Returns the other words.
fn write_field<'w, 'a>(
    alloc: Global,
    number: usize,
    field: &Field,
    words: &'w [&'a str],
    out: &mut Vec<u8>,
) -> Result<&'w [&'a str], FieldsFault<'a>>
    requires { count_of field.now ≤ length (map (λ word. word.now) words.now) }
    ensures written { IfOk result (λ rest. FieldIsWritten field.now (map (λ word. word.now) words.now)
        (map (λ word. word.now) rest.now) out.old.items out.new.items) }
    ensures refused { IfErr result (IsFieldRefused number field.now (map (λ word. word.now) words.now)) }
{
    let (mine, rest) = words.split_at(field.values());
    match write_values(alloc, field.list_type(), mine) {
        Ok(bytes) => {
            out.extend_from_slice(bytes.as_slice())?;
            Ok(rest)
        }
        Err(ValueFault::Memory) => Err(FieldsFault::Memory),
        Err(fault) => Err(FieldsFault::Field(number, fault)),
    }
}
