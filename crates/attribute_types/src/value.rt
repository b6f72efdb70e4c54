//! A value of a configuration.

ghost use Rattle.std.specs.Prelude.{◌≡◌, ◌≤◌, IfOk, IfErr, Some, option_map};
ghost use Rattle.toml.specs.Data.{get_member};
ghost use Rattle.toml.specs.View.{view, table_view};
ghost use Rattle.attribute_types.specs.Values.{IsBad, number_in};

use config_refusal::{ConfigurationRefusal, LoadFault};
use toml::{Table, Value};

/// A required key is missing, or a value has another type or is out of range.
pub const BAD_VALUE: LoadFault = LoadFault::Refused(ConfigurationRefusal::BadValue);

/// The value of a key, if the table has it.
pub fn value_of<'a>(table: &'a Table, key: &str) -> Option<&'a Value>
    ensures { option_map (λ value. view value.now) result ≡ get_member key.now (table_view table.now) }
{
    table.get(key)
}

/// Reads a value as a number within a range, from `least` to `greatest`.
///
/// # Errors
///
/// [`BAD_VALUE`] if it is not an integer or out of range.
pub fn number_in(value: &Value, least: u64, greatest: u64) -> Result<u64, LoadFault>
    ensures read { IfOk result (λ n. number_in least greatest (view value.now) ≡ Some n) }
    ensures refused { IfErr result (IsBad (number_in least greatest (view value.now))) }
    ensures to { IfOk result (λ n. n ≤ greatest) }
{
    let Value::Integer(number) = value else {
        return Err(BAD_VALUE);
    };
    match u64::try_from(*number) {
        Ok(number) if least <= number && number <= greatest => Ok(number),
        _ => Err(BAD_VALUE),
    }
}
