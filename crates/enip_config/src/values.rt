//! The values of a configuration's keys.

ghost use Rattle.std.specs.Prelude.{◌≡◌, ◌≤◌, IfOk, IfErr, IfSome, Some, option_map, string_bytes};
ghost use Rattle.toml.specs.Data.{array, as_str, get_member};
ghost use Rattle.toml.specs.View.{view, items_view, table_view};
ghost use Rattle.enip_config.specs.Keys.{row, row_seen, number_by, number_of, table_with, counter_table, members_found};
ghost use Rattle.enip_config.specs.Keys.{flag_of, counter_enabled, identity_table, reset_of, name_of};
ghost use Rattle.attribute_types.specs.Values.{IsBad, number_in};
ghost use Rattle.enip_config.specs.Keys.{address_in, address_of};
ghost use Rattle.enip_config.specs.Documents.{IsUnread};

use crate::key::{NumberKey, Row};
use crate::width::Width;
use attribute_types::{BAD_VALUE, number_in, value_of};
use config_explained::{Expected, Finding};
use config_refusal::LoadFault;
use toml::{Table, Value};

/// The number of a key in a table, or its default.
pub(crate) fn number_by<N: Width>(
    table: &Table,
    key: Row,
    finding: &mut Finding,
) -> Result<N, LoadFault>
    requires fits { key.greatest ≤ N.most }
    requires default { IfSome key.default (λ n. n ≤ N.most) }
    ensures read { IfOk result (λ n. number_by (row_seen key) (table_view table.now) ≡ Some (N.number n)) }
    ensures refused { IfErr result (IsBad (number_by (row_seen key) (table_view table.now))) }
{
    finding.expect(key.name, Expected::Number(key.least, key.greatest));
    match value_of(table, key.name) {
        Some(value) => Ok(N::of(number_in(value, key.least, key.greatest)?)),
        None => default_of(key),
    }
}

/// The default of a key that is left out. A required key has none.
fn default_of<N: Width>(key: Row) -> Result<N, LoadFault>
    requires default { IfSome key.default (λ n. n ≤ N.most) }
    ensures read { IfOk result (λ n. key.default ≡ Some (N.number n)) }
    ensures refused { IfErr result (IsBad key.default) }
{
    match key.default {
        Some(number) => Ok(N::of(number)),
        None => Err(BAD_VALUE),
    }
}

/// The number of a key, from the table that it belongs to.
#[tactic(auto, using(crate::proofs::Refused::unread_table, crate::proofs::Refused::unread_in))]
pub(crate) fn number<N: Width>(
    text: &Table,
    key: NumberKey,
    finding: &mut Finding,
) -> Result<N, LoadFault>
    requires fits { (row key).greatest ≤ N.most }
    requires default { IfSome (row key).default (λ n. n ≤ N.most) }
    ensures read { IfOk result (λ n. number_of key (table_view text.now) ≡ Some (N.number n)) }
    ensures refused { IfErr result (IsUnread (table_view text.now)) }
{
    match table_with(text, key, finding)? {
        Some(table) => number_by(table, key.row(), finding),
        None => default_of(key.row()),
    }
}

/// The table that a key belongs to. `None` if that table is left out.
fn table_with<'a>(
    text: &'a Table,
    key: NumberKey,
    finding: &mut Finding,
) -> Result<Option<&'a Table>, LoadFault>
    ensures read { IfOk result (λ found. table_with key (table_view text.now) ≡ Some (members_found found)) }
    ensures refused { IfErr result (IsBad (table_with key (table_view text.now))) }
{
    match key {
        NumberKey::CounterValue | NumberKey::CounterLimit => counter_table(text, finding),
        _ => {
            finding.enter_text();
            Ok(Some(text))
        }
    }
}

/// The table `counter`. `None` if it is left out.
fn counter_table<'a>(text: &'a Table, finding: &mut Finding) -> Result<Option<&'a Table>, LoadFault>
    ensures read { IfOk result (λ found. counter_table (table_view text.now) ≡ Some (members_found found)) }
    ensures refused { IfErr result (IsBad (counter_table (table_view text.now))) }
{
    finding.enter_table("counter");
    match value_of(text, "counter") {
        None => Ok(None),
        Some(value) => Ok(Some(value.as_table().ok_or(BAD_VALUE)?)),
    }
}

/// Whether the key with this name is true in a table, or the default if it is left out.
pub(crate) fn flag_of(
    table: &Table,
    name: &'static str,
    default: bool,
    finding: &mut Finding,
) -> Result<bool, LoadFault>
    ensures read { IfOk result (λ flag. flag_of name.now default (table_view table.now) ≡ Some flag) }
    ensures refused { IfErr result (IsBad (flag_of name.now default (table_view table.now))) }
{
    finding.expect(name, Expected::Flag);
    match value_of(table, name) {
        None => Ok(default),
        Some(value) => value.as_bool().ok_or(BAD_VALUE),
    }
}

/// Whether the device has the counter. True if the table or the key is left out.
pub(crate) fn counter_enabled(text: &Table, finding: &mut Finding) -> Result<bool, LoadFault>
    ensures read { IfOk result (λ enabled. counter_enabled (table_view text.now) ≡ Some enabled) }
    ensures refused { IfErr result (IsUnread (table_view text.now)) }
{
    match counter_table(text, finding)? {
        None => Ok(true),
        Some(table) => flag_of(table, "enabled", true, finding),
    }
}

/// The table `identity`. `None` if it is left out.
fn identity_table<'a>(
    text: &'a Table,
    finding: &mut Finding,
) -> Result<Option<&'a Table>, LoadFault>
    ensures read { IfOk result (λ found. identity_table (table_view text.now) ≡ Some (members_found found)) }
    ensures refused { IfErr result (IsBad (identity_table (table_view text.now))) }
{
    finding.enter_table("identity");
    match value_of(text, "identity") {
        None => Ok(None),
        Some(value) => Ok(Some(value.as_table().ok_or(BAD_VALUE)?)),
    }
}

/// Whether clients can reset the device. False if the table or the key is left out.
pub(crate) fn reset_of(text: &Table, finding: &mut Finding) -> Result<bool, LoadFault>
    ensures read { IfOk result (λ reset. reset_of (table_view text.now) ≡ Some reset) }
    ensures refused { IfErr result (IsUnread (table_view text.now)) }
{
    match identity_table(text, finding)? {
        None => Ok(false),
        Some(table) => flag_of(table, "reset", false, finding),
    }
}

/// The product name.
pub(crate) fn name_of(text: &Table, finding: &mut Finding) -> Result<String, LoadFault>
    ensures read { IfOk result (λ name. name_of (table_view text.now) ≡ Some (string_bytes name)) }
    ensures refused { IfErr result (IsUnread (table_view text.now)) }
{
    finding.enter_text();
    finding.expect("name", Expected::String);
    match value_of(text, "name") {
        Some(Value::String(name)) => Ok(name.clone()?),
        _ => Err(BAD_VALUE),
    }
}

/// The address that ListIdentity reports. 0.0.0.0 if it is left out.
pub(crate) fn address_of(text: &Table, finding: &mut Finding) -> Result<[u8; 4], LoadFault>
    ensures read { IfOk result (λ address. address_of (table_view text.now) ≡ Some address) }
    ensures refused { IfErr result (IsUnread (table_view text.now)) }
{
    finding.enter_text();
    finding.expect("address", Expected::Address);
    match value_of(text, "address") {
        None => Ok([0; 4]),
        Some(Value::Array(values)) => four_bytes(values.as_slice()),
        Some(_) => Err(BAD_VALUE),
    }
}

/// Reads four values as bytes.
pub(crate) fn four_bytes(values: &[Value]) -> Result<[u8; 4], LoadFault>
    ensures read { IfOk result (λ address. address_in (array (items_view values.now)) ≡ Some address) }
    ensures refused { IfErr result (IsBad (address_in (array (items_view values.now)))) }
{
    let [first, second, third, last] = values else {
        return Err(BAD_VALUE);
    };
    Ok([byte(first)?, byte(second)?, byte(third)?, byte(last)?])
}

/// Reads a value as a byte.
pub(crate) fn byte(value: &Value) -> Result<u8, LoadFault>
    ensures read { IfOk result (λ n. number_in 0 0xff (view value.now) ≡ Some n) }
    ensures refused { IfErr result (IsBad (number_in 0 0xff (view value.now))) }
{
    Ok(u8::of(number_in(value, 0, 0xff)?))
}
