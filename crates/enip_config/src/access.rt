//! The table `access` of a configuration.
//! Text: docs/PROGRAM.md, "Who may read, who may write".

ghost use Rattle.std.specs.Prelude.{◌≡◌, ◌≤◌, ◌<◌, ◌^◌, IfOk, IfErr, Some, option_map};
ghost use Rattle.toml.specs.View.{view, items_view, table_view};
ghost use Rattle.enip_access.specs.Access.{list_seen};
ghost use Rattle.enip_config.specs.Keys.{each};
ghost use Rattle.enip_config.specs.Access.{share_by, shares_in, shares_of, shares_seen, lists_seen};
ghost use Rattle.enip_config.specs.Access.{rule_in, few, rules_in, list_by, lists_in, lists_of, IsBadList};
ghost use Rattle.attribute_types.specs.Values.{IsBad};
ghost use Rattle.enip_config.specs.Documents.{IsUnread};

use crate::width::Width;
use attribute_types::{BAD_VALUE, number_in, value_of};
use config_explained::{Expected, Finding};
use config_refusal::{ConfigurationRefusal, LoadFault};
use enip_access::{Access, Prefix, PrefixList};
use toml::{Table, Value};

/// How many peers a device serves at most.
const MOST_PEERS: u64 = 16;

/// How many connections a device has at most.
const MOST_CONNECTIONS: u64 = 64;

/// A list of the table `access` is not one.
const BAD_LIST: LoadFault = LoadFault::Refused(ConfigurationRefusal::Access);

/// Reads the shares of the table `access`. Its lists are read once the objects have accepted the configuration. `None` if
/// the table is left out.
pub(crate) fn shares_of(text: &Table, finding: &mut Finding) -> Result<Option<Access>, LoadFault>
    ensures read { IfOk result (λ access. shares_of (table_view text.now) ≡ Some (option_map shares_seen access)) }
    ensures refused { IfErr result (IsUnread (table_view text.now)) }
{
    finding.enter_table("access");
    match value_of(text, "access") {
        None => Ok(None),
        Some(value) => Ok(Some(shares_in(value, finding)?)),
    }
}

/// Reads the shares of a value as a table `access`.
fn shares_in(value: &Value, finding: &mut Finding) -> Result<Access, LoadFault>
    ensures read { IfOk result (λ access. shares_in (view value.now) ≡ Some (shares_seen access)) }
    ensures refused { IfErr result (IsBad (shares_in (view value.now))) }
{
    let Value::Table(table) = value else {
        return Err(BAD_VALUE);
    };
    let per_address = share_by(table, "per_address", MOST_PEERS, finding)?;
    let connections_per_address = share_by(
        table,
        "connections_per_address",
        MOST_CONNECTIONS,
        finding,
    )?;
    Ok(Access {
        read: None,
        write: None,
        per_address,
        connections_per_address,
    })
}

/// The share of a key, from 1 to a greatest one. `None` if the key is left out.
fn share_by(
    table: &Table,
    name: &'static str,
    greatest: u64,
    finding: &mut Finding,
) -> Result<Option<u16>, LoadFault>
    requires { greatest < 2 ^ 16 }
    ensures read { IfOk result (λ share. share_by name.now greatest (table_view table.now) ≡ Some share) }
    ensures refused { IfErr result (IsBad (share_by name.now greatest (table_view table.now))) }
{
    finding.expect(name, Expected::Number(1, greatest));
    match value_of(table, name) {
        None => Ok(None),
        Some(value) => Ok(Some(u16::of(number_in(value, 1, greatest)?))),
    }
}

/// The rules of a device, with the lists of the table `access`.
///
/// # Errors
///
/// `ConfigurationRefusal::Access` if a list is not one.
pub(crate) fn with_lists(
    text: &Table,
    shares: Option<Access>,
    finding: &mut Finding,
) -> Result<Option<Access>, LoadFault>
    requires { shares_of (table_view text.now) ≡ Some (option_map shares_seen shares) }
    ensures shares { IfOk result (λ access. option_map shares_seen access ≡ option_map shares_seen shares) }
    ensures lists { IfOk result (λ access. lists_of (table_view text.now) ≡ Some (option_map lists_seen access)) }
    ensures refused { IfErr result (IsBadList (lists_of (table_view text.now))) }
{
    match (value_of(text, "access"), shares) {
        (Some(value), Some(shares)) => Ok(Some(with_lists_in(value, shares, finding)?)),
        _ => Ok(None),
    }
}

/// The rules with the lists of a value as a table `access`.
fn with_lists_in(value: &Value, shares: Access, finding: &mut Finding) -> Result<Access, LoadFault>
    ensures shares { IfOk result (λ access. shares_seen access ≡ shares_seen shares) }
    ensures lists { IfOk result (λ access. lists_in (view value.now) ≡ Some (lists_seen access)) }
    ensures refused { IfErr result (IsBadList (lists_in (view value.now))) }
{
    let Value::Table(table) = value else {
        return Err(BAD_LIST);
    };
    finding.enter_table("access");
    let read = list_by(table, "read", finding)?;
    let write = list_by(table, "write", finding)?;
    Ok(Access {
        read,
        write,
        per_address: shares.per_address,
        connections_per_address: shares.connections_per_address,
    })
}

/// The list of a key. `None` if the key is left out.
fn list_by(
    table: &Table,
    name: &'static str,
    finding: &mut Finding,
) -> Result<Option<PrefixList>, LoadFault>
    ensures read { IfOk result (λ list. list_by name.now (table_view table.now) ≡ Some (list_seen list)) }
    ensures refused { IfErr result (IsBadList (list_by name.now (table_view table.now))) }
{
    finding.expect(name, Expected::List);
    match value_of(table, name) {
        None => Ok(None),
        Some(value) => Ok(Some(rules_in(value)?)),
    }
}

/// Reads a value as a list of rules.
fn rules_in(value: &Value) -> Result<PrefixList, LoadFault>
    ensures read { IfOk result (λ rules. rules_in (view value.now) ≡ Some rules.items) }
    ensures refused { IfErr result (IsBadList (rules_in (view value.now))) }
{
    match value {
        Value::Array(values) => each_rule(values.as_slice()),
        _ => Err(BAD_LIST),
    }
}

/// Reads each value as a rule.
fn each_rule(values: &[Value]) -> Result<PrefixList, LoadFault>
    ensures read { IfOk result (λ rules. few (each rule_in (items_view values.now)) ≡ Some rules.items) }
    ensures refused { IfErr result (IsBadList (few (each rule_in (items_view values.now)))) }
{
    let mut rules = PrefixList::new();
    for value in values {
        let rule = rule_in(value)?;
        if rules.is_full() {
            return Err(BAD_LIST);
        }
        rules.push(rule);
    }
    Ok(rules)
}

/// Reads a value as a rule.
fn rule_in(value: &Value) -> Result<Prefix, LoadFault>
    ensures read { IfOk result (λ rule. rule_in (view value.now) ≡ Some rule) }
    ensures refused { IfErr result (IsBadList (rule_in (view value.now))) }
{
    let Value::String(text) = value else {
        return Err(BAD_LIST);
    };
    match Prefix::parse(text.as_bytes()) {
        Ok(rule) => Ok(rule),
        Err(_) => Err(BAD_LIST),
    }
}
