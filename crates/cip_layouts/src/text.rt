//! The values of fields as text.

ghost use Rattle.std.specs.Prelude.{◌≡◌, take, drop};

use crate::field::Field;
use cip_values::{Value, ValuesText};
use std::fmt;

/// The values of fields, which print as text, separated by spaces. Each prints as in a list: strings and paths are in
/// quotes.
///
/// ```
/// let values = read_fields(alloc, layout.fields(), bytes)?;
/// let values = values.as_slice();
/// let text = format!(in alloc; "{}", FieldsText { fields: layout.fields(), values })?;
/// ```
#[derive(Clone, Copy, Debug)]
pub struct FieldsText<'a, 'b> {
    /// The fields.
    pub fields: &'b [Field],
    /// The values of all fields, one field after another.
    pub values: &'b [Value<'a>],
}

impl fmt::Display for FieldsText<'_, '_> {
    fn fmt<W: fmt::Write>(&self, f: &mut fmt::Formatter<W>) -> fmt::Result {
        write_from(f, self.fields, 0, self.values)
    }
}

/// Prints the values of the fields from this index on, with a space before each field but the first.
fn write_from<W: fmt::Write>(
    f: &mut fmt::Formatter<W>,
    fields: &[Field],
    index: usize,
    values: &[Value<'_>],
) -> fmt::Result {
    let Some(field) = fields.get(index) else {
        return Ok(());
    };
    if index != 0 {
        f.write_str(" ")?;
    }
    let (mine, rest) = split_values(values, field.values());
    let list = ValuesText {
        value_type: field.list_type(),
        values: mine,
    };
    write!(f, "{list}")?;
    write_from(f, fields, index + 1, rest)
}

/// The first `count` values, or all if there are fewer, and the rest.
pub fn split_values<'a, 'b>(
    values: &'b [Value<'a>],
    count: usize,
) -> (&'b [Value<'a>], &'b [Value<'a>])
    ensures front { result.0.now ≡ take count values.now }
    ensures back { result.1.now ≡ drop count values.now }
{
    values.split_at(count.min(values.len()))
}
