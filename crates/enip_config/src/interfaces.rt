//! The key `interface` of the tables `tcp_ip` and `ethernet_link`.
//! Text: docs/PROGRAM.md, "The TCP/IP Interface and the Ethernet Link".

ghost use Rattle.std.specs.Prelude.{◌≡◌, IfOk, IfErr, Some, option_map, string_bytes};
ghost use Rattle.std.specs.List.{list_any};
ghost use Rattle.toml.specs.View.{view, table_view};
ghost use Rattle.attribute_types.specs.Values.{IsBadOrMemory};
ghost use Rattle.enip_config.specs.Documents.{IsUnread};
ghost use Rattle.enip_config.specs.Interfaces.{has, has_own_address, has_own_link, interface_name, interfaces_of};
ghost use Rattle.enip_config.specs.Interfaces.{interfaces_seen, is_interface_name, is_no_name_byte, link_interface};
ghost use Rattle.enip_config.specs.Interfaces.{named_by_link, named_by_tcp_ip, named_in, tcp_ip_interface};

use attribute_types::{BAD_VALUE, value_of};
use config_explained::{Expected, Finding};
use config_refusal::LoadFault;
use toml::{Table, Value};

/// The network interfaces of the system that a configuration names. Their values are read when the device is started: the
/// objects of the configuration have zeros, or defaults.
#[derive(Debug)]
pub struct NamedInterfaces {
    /// The interface with the address, the mask and the gateway of the TCP/IP Interface.
    pub tcp_ip: Option<String>,
    /// The interface with the speed, the flags, the MAC address and the state of the Ethernet Link.
    pub ethernet_link: Option<String>,
}

// Written out, so that each exit of a function that owns one calls it, and has no drop of every part.
impl Drop for NamedInterfaces {
    fn drop(self) {
        let NamedInterfaces {
            tcp_ip: _,
            ethernet_link: _,
        } = self;
    }
}

/// Reads the names of the interfaces.
#[tactic(auto, using(crate::proofs::InterfaceLemmas::unread_interfaces))]
pub(crate) fn interfaces_of(
    text: &Table,
    finding: &mut Finding,
) -> Result<NamedInterfaces, LoadFault>
    ensures read { IfOk result (λ named. interfaces_of (table_view text.now) ≡ Some (interfaces_seen named)) }
    ensures refused { IfErr result (IsUnread (table_view text.now)) }
{
    let tcp_ip = tcp_ip_interface(text, finding)?;
    let ethernet_link = link_interface(text, finding)?;
    Ok(NamedInterfaces {
        tcp_ip,
        ethernet_link,
    })
}

/// The interface that the table `tcp_ip` names.
fn tcp_ip_interface(text: &Table, finding: &mut Finding) -> Result<Option<String>, LoadFault>
    ensures read { IfOk result (λ name. tcp_ip_interface (table_view text.now) ≡ Some (option_map string_bytes name)) }
    ensures refused { IfErr result (IsBadOrMemory (tcp_ip_interface (table_view text.now))) }
{
    finding.enter_table("tcp_ip");
    match value_of(text, "tcp_ip") {
        None => Ok(None),
        Some(value) => named_by_tcp_ip(value, finding),
    }
}

/// Reads a value as a table `tcp_ip` that may name an interface.
fn named_by_tcp_ip(value: &Value, finding: &mut Finding) -> Result<Option<String>, LoadFault>
    ensures read { IfOk result (λ name. named_by_tcp_ip (view value.now) ≡ Some (option_map string_bytes name)) }
    ensures refused { IfErr result (IsBadOrMemory (named_by_tcp_ip (view value.now))) }
{
    let Value::Table(table) = value else {
        return Err(BAD_VALUE);
    };
    named_in(table, has_own_address(table), finding)
}

/// Whether a table `tcp_ip` has a value that an interface has, too.
fn has_own_address(table: &Table) -> bool
    ensures { result ≡ has_own_address (table_view table.now) }
{
    has(table, "address") || has(table, "mask")
}

/// The interface that the table `ethernet_link` names.
fn link_interface(text: &Table, finding: &mut Finding) -> Result<Option<String>, LoadFault>
    ensures read { IfOk result (λ name. link_interface (table_view text.now) ≡ Some (option_map string_bytes name)) }
    ensures refused { IfErr result (IsBadOrMemory (link_interface (table_view text.now))) }
{
    finding.enter_table("ethernet_link");
    match value_of(text, "ethernet_link") {
        None => Ok(None),
        Some(value) => named_by_link(value, finding),
    }
}

/// Reads a value as a table `ethernet_link` that may name an interface.
fn named_by_link(value: &Value, finding: &mut Finding) -> Result<Option<String>, LoadFault>
    ensures read { IfOk result (λ name. named_by_link (view value.now) ≡ Some (option_map string_bytes name)) }
    ensures refused { IfErr result (IsBadOrMemory (named_by_link (view value.now))) }
{
    let Value::Table(table) = value else {
        return Err(BAD_VALUE);
    };
    named_in(table, has_own_link(table), finding)
}

/// Whether a table `ethernet_link` has a value that an interface has, too.
fn has_own_link(table: &Table) -> bool
    ensures { result ≡ has_own_link (table_view table.now) }
{
    has(table, "speed")
        || has(table, "flags")
        || has(table, "physical_address")
        || has(table, "state")
}

/// The interface that a table names, which must not have a value that is read from there.
fn named_in(table: &Table, given: bool, finding: &mut Finding) -> Result<Option<String>, LoadFault>
    ensures read { IfOk result (λ name. named_in given (table_view table.now) ≡ Some (option_map string_bytes name)) }
    ensures refused { IfErr result (IsBadOrMemory (named_in given (table_view table.now))) }
{
    finding.expect("interface", Expected::Interface);
    match value_of(table, "interface") {
        None => Ok(None),
        Some(_) if given => Err(BAD_VALUE),
        Some(value) => Ok(Some(interface_name(value)?)),
    }
}

/// Reads a value as the name of an interface.
fn interface_name(value: &Value) -> Result<String, LoadFault>
    ensures read { IfOk result (λ name. interface_name (view value.now) ≡ Some (string_bytes name)) }
    ensures refused { IfErr result (IsBadOrMemory (interface_name (view value.now))) }
{
    match value {
        Value::String(name) if is_interface_name(name.as_str()) => Ok(name.clone()?),
        _ => Err(BAD_VALUE),
    }
}

/// Whether a text can be the name of an interface: 1 to 15 characters from 0x21 to 0x7e without `/` and `:`, and not the
/// name of a folder.
fn is_interface_name(name: &str) -> bool
    ensures { result ≡ is_interface_name name.now }
{
    1 <= name.len()
        && name.len() <= 15
        && name != "."
        && name != ".."
        && !has_no_name_byte(name.as_bytes())
}

/// Whether one of these bytes cannot be in a name.
fn has_no_name_byte(name: &[u8]) -> bool
    ensures { result ≡ list_any is_no_name_byte name.now }
{
    for byte in name {
        if is_no_name_byte(*byte) {
            return true;
        }
    }
    false
}

/// Whether a byte cannot be in a name.
fn is_no_name_byte(byte: u8) -> bool
    ensures { result ≡ is_no_name_byte byte }
{
    byte < 0x21 || byte > 0x7e || byte == b'/' || byte == b':'
}

/// Whether a table has a key.
pub(crate) fn has(table: &Table, name: &str) -> bool
    ensures { result ≡ has name.now (table_view table.now) }
{
    value_of(table, name).is_some()
}
