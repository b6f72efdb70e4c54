//! The tables `tcp_ip` and `ethernet_link` of a configuration, and the objects that they make.
//! Text: docs/PROGRAM.md, "The configuration".

ghost use Rattle.std.specs.Prelude.{◌≡◌, ◌≤◌, ◌++◌, [], ◌∷◌, IfOk, IfErr, IfSome, OnOk, Some, length, map, option_map};
ghost use Rattle.toml.specs.Data.{array};
ghost use Rattle.toml.specs.View.{view, items_view, table_view};
ghost use Rattle.cip_application.specs.Standard.{interface_seen, link_seen};
ghost use Rattle.attribute_types.specs.Values.{IsBad};
ghost use Rattle.enip_config.specs.Documents.{IsUnread};
ghost use Rattle.enip_config.specs.Keys.{address_in};
ghost use Rattle.enip_config.specs.Objects.{object_seen};
ghost use Rattle.enip_config.specs.StandardObjects.{all_objects_of, interface_of, interface_in, interface_objects};
ghost use Rattle.enip_config.specs.StandardObjects.{link_of, link_in, link_objects, name_servers, two_addresses};
ghost use Rattle.enip_config.specs.StandardObjects.{own_address, optional_address, physical_address};
ghost use Rattle.enip_config.specs.StandardObjects.{six_bytes, three_bytes};
ghost use Rattle.enip_config.specs.StandardObjects.{is_text, text_in, text_by, HasShortTexts, HasShortLabel};

use crate::interfaces::has;
use crate::key::{FLAGS, INACTIVITY_TIMEOUT, INTERFACE_STATE, INTERFACE_TYPE, SPEED};
use crate::objects::objects_of;
use crate::values::{byte, four_bytes, number_by};
use attribute_types::{BAD_VALUE, value_of};
use cip_application::{
    DOMAIN_LIMIT, EthernetLink, HOST_LIMIT, LABEL_LIMIT, ObjectConfig, TcpIpInterface,
};
use config_explained::{Expected, Finding};
use config_refusal::LoadFault;
use std::alloc::{AllocError, Global};
use toml::{Table, Value};

/// An address that is left out.
const NO_ADDRESS: [u8; 4] = [0; 4];

/// Reads the own objects, in the order of the file, and the objects of the tables `tcp_ip` and `ethernet_link` after
/// them.
#[tactic(auto, using(crate::proofs::StandardLemmas::unread_interface, crate::proofs::StandardLemmas::unread_link, crate::proofs::StandardLemmas::unread_objects))]
pub(crate) fn all_objects_of(
    alloc: Global,
    text: &Table,
    finding: &mut Finding,
) -> Result<Vec<ObjectConfig>, LoadFault>
    ensures read { IfOk result (λ objects. all_objects_of (table_view text.now) ≡ Some (map object_seen objects.items)) }
    ensures refused { IfErr result (IsUnread (table_view text.now)) }
{
    // What needs no memory comes first: nothing has to be dropped if one of it is refused.
    let interface = interface_of(text, finding)?;
    let link = link_of(text, finding)?;
    let mut objects = objects_of(alloc, text, finding)?;
    push_interface(alloc, interface, &mut objects)?;
    push_link(alloc, link, &mut objects)?;
    Ok(objects)
}

/// Adds the object of the table `tcp_ip`, if there is one.
fn push_interface(
    alloc: Global,
    interface: Option<TcpIpInterface<'_>>,
    objects: &mut Vec<ObjectConfig>,
) -> Result<(), AllocError>
    requires { IfSome interface HasShortTexts }
    ensures { OnOk result (map object_seen objects.new.items
        ≡ map object_seen objects.old.items ++ interface_objects (option_map interface_seen interface.entry)) }
{
    if let Some(interface) = interface {
        objects.push(interface.object(alloc)?)?;
    }
    Ok(())
}

/// Adds the object of the table `ethernet_link`, if there is one.
fn push_link(
    alloc: Global,
    link: Option<EthernetLink<'_>>,
    objects: &mut Vec<ObjectConfig>,
) -> Result<(), AllocError>
    requires { IfSome link HasShortLabel }
    ensures { OnOk result (map object_seen objects.new.items
        ≡ map object_seen objects.old.items ++ link_objects (option_map link_seen link.entry)) }
{
    if let Some(link) = link {
        objects.push(link.object(alloc)?)?;
    }
    Ok(())
}

/// Reads the table `tcp_ip`. `None` if it is left out.
fn interface_of<'a>(
    text: &'a Table,
    finding: &mut Finding,
) -> Result<Option<TcpIpInterface<'a>>, LoadFault>
    ensures read { IfOk result (λ interface. interface_of (table_view text.now)
        ≡ Some (option_map interface_seen interface)) }
    ensures short { IfOk result (λ interface. IfSome interface HasShortTexts) }
    ensures refused { IfErr result (IsBad (interface_of (table_view text.now))) }
{
    finding.enter_table("tcp_ip");
    match value_of(text, "tcp_ip") {
        None => Ok(None),
        Some(value) => Ok(Some(interface_in(value, finding)?)),
    }
}

/// Reads a value as a table `tcp_ip`.
fn interface_in<'a>(
    value: &'a Value,
    finding: &mut Finding,
) -> Result<TcpIpInterface<'a>, LoadFault>
    ensures read { IfOk result (λ interface. interface_in (view value.now) ≡ Some (interface_seen interface)) }
    ensures short { IfOk result HasShortTexts }
    ensures refused { IfErr result (IsBad (interface_in (view value.now))) }
{
    let Value::Table(table) = value else {
        return Err(BAD_VALUE);
    };
    let address = own_address(table, "address", finding)?;
    let mask = own_address(table, "mask", finding)?;
    let gateway = optional_address(table, "gateway", finding)?;
    let (name_server, second_name_server) = name_servers(table, finding)?;
    let domain = text_by(table, "domain", DOMAIN_LIMIT, finding)?;
    let host = text_by(table, "host", HOST_LIMIT, finding)?;
    let inactivity_timeout = number_by(table, INACTIVITY_TIMEOUT, finding)?;
    Ok(TcpIpInterface {
        address,
        mask,
        gateway,
        name_server,
        second_name_server,
        domain,
        host,
        inactivity_timeout,
    })
}

/// Reads the table `ethernet_link`. `None` if it is left out.
fn link_of<'a>(
    text: &'a Table,
    finding: &mut Finding,
) -> Result<Option<EthernetLink<'a>>, LoadFault>
    ensures read { IfOk result (λ link. link_of (table_view text.now) ≡ Some (option_map link_seen link)) }
    ensures short { IfOk result (λ link. IfSome link HasShortLabel) }
    ensures refused { IfErr result (IsBad (link_of (table_view text.now))) }
{
    finding.enter_table("ethernet_link");
    match value_of(text, "ethernet_link") {
        None => Ok(None),
        Some(value) => Ok(Some(link_in(value, finding)?)),
    }
}

/// Reads a value as a table `ethernet_link`.
fn link_in<'a>(value: &'a Value, finding: &mut Finding) -> Result<EthernetLink<'a>, LoadFault>
    ensures read { IfOk result (λ link. link_in (view value.now) ≡ Some (link_seen link)) }
    ensures short { IfOk result HasShortLabel }
    ensures refused { IfErr result (IsBad (link_in (view value.now))) }
{
    let Value::Table(table) = value else {
        return Err(BAD_VALUE);
    };
    Ok(EthernetLink {
        speed: number_by(table, SPEED, finding)?,
        flags: number_by(table, FLAGS, finding)?,
        physical_address: physical_address(table, finding)?,
        interface_type: number_by(table, INTERFACE_TYPE, finding)?,
        state: number_by(table, INTERFACE_STATE, finding)?,
        label: text_by(table, "label", LABEL_LIMIT, finding)?,
    })
}

/// The address of a key. It is required, unless the table names an interface of the system, which has it.
fn own_address(
    table: &Table,
    name: &'static str,
    finding: &mut Finding,
) -> Result<[u8; 4], LoadFault>
    ensures read { IfOk result (λ address. own_address name.now (table_view table.now) ≡ Some address) }
    ensures refused { IfErr result (IsBad (own_address name.now (table_view table.now))) }
{
    finding.expect(name, Expected::Address);
    match value_of(table, name) {
        None if has(table, "interface") => Ok(NO_ADDRESS),
        None => Err(BAD_VALUE),
        Some(value) => address_in(value),
    }
}

/// The address of a key. Zeros if it is left out.
fn optional_address(
    table: &Table,
    name: &'static str,
    finding: &mut Finding,
) -> Result<[u8; 4], LoadFault>
    ensures read { IfOk result (λ address. optional_address name.now (table_view table.now) ≡ Some address) }
    ensures refused { IfErr result (IsBad (optional_address name.now (table_view table.now))) }
{
    finding.expect(name, Expected::Address);
    match value_of(table, name) {
        None => Ok(NO_ADDRESS),
        Some(value) => address_in(value),
    }
}

/// Reads a value as an address.
fn address_in(value: &Value) -> Result<[u8; 4], LoadFault>
    ensures read { IfOk result (λ address. address_in (view value.now) ≡ Some address) }
    ensures refused { IfErr result (IsBad (address_in (view value.now))) }
{
    match value {
        Value::Array(values) => four_bytes(values.as_slice()),
        _ => Err(BAD_VALUE),
    }
}

/// The name servers: zeros for each that is left out.
fn name_servers(table: &Table, finding: &mut Finding) -> Result<([u8; 4], [u8; 4]), LoadFault>
    ensures read { IfOk result (λ servers. name_servers (table_view table.now) ≡ Some (servers.0, servers.1)) }
    ensures refused { IfErr result (IsBad (name_servers (table_view table.now))) }
{
    finding.expect("name_servers", Expected::NameServers);
    match value_of(table, "name_servers") {
        None => Ok((NO_ADDRESS, NO_ADDRESS)),
        Some(Value::Array(values)) => two_addresses(values.as_slice()),
        Some(_) => Err(BAD_VALUE),
    }
}

/// Reads up to two values as addresses.
fn two_addresses(values: &[Value]) -> Result<([u8; 4], [u8; 4]), LoadFault>
    ensures read { IfOk result (λ servers. two_addresses (array (items_view values.now)) ≡ Some (servers.0, servers.1)) }
    ensures refused { IfErr result (IsBad (two_addresses (array (items_view values.now)))) }
{
    match values {
        [] => Ok((NO_ADDRESS, NO_ADDRESS)),
        [first] => Ok((address_in(first)?, NO_ADDRESS)),
        [first, second] => Ok((address_in(first)?, address_in(second)?)),
        _ => Err(BAD_VALUE),
    }
}

/// The MAC address. Zeros if it is left out.
fn physical_address(table: &Table, finding: &mut Finding) -> Result<[u8; 6], LoadFault>
    ensures read { IfOk result (λ address. physical_address (table_view table.now) ≡ Some address) }
    ensures refused { IfErr result (IsBad (physical_address (table_view table.now))) }
{
    finding.expect("physical_address", Expected::MacAddress);
    match value_of(table, "physical_address") {
        None => Ok([0; 6]),
        Some(Value::Array(values)) => six_bytes(values.as_slice()),
        Some(_) => Err(BAD_VALUE),
    }
}

/// Reads six values as bytes.
fn six_bytes(values: &[Value]) -> Result<[u8; 6], LoadFault>
    ensures read { IfOk result (λ address. six_bytes (array (items_view values.now)) ≡ Some address) }
    ensures refused { IfErr result (IsBad (six_bytes (array (items_view values.now)))) }
{
    let [a, b, c, d, e, f] = values else {
        return Err(BAD_VALUE);
    };
    let front = three_bytes(a, b, c)?;
    let back = three_bytes(d, e, f)?;
    Ok([
        front.first,
        front.second,
        front.third,
        back.first,
        back.second,
        back.third,
    ])
}

/// Half a MAC address.
#[derive(Clone, Copy)]
struct Half {
    first: u8,
    second: u8,
    third: u8,
}

/// Reads three values as bytes.
fn three_bytes(a: &Value, b: &Value, c: &Value) -> Result<Half, LoadFault>
    ensures read { IfOk result (λ half. three_bytes (view a.now) (view b.now) (view c.now)
        ≡ Some (half.first ∷ half.second ∷ half.third ∷ [])) }
    ensures refused { IfErr result (IsBad (three_bytes (view a.now) (view b.now) (view c.now))) }
{
    Ok(Half {
        first: byte(a)?,
        second: byte(b)?,
        third: byte(c)?,
    })
}

/// The text of a key, of this many bytes at most. Nothing if it is left out.
fn text_by<'a>(
    table: &'a Table,
    name: &'static str,
    most: usize,
    finding: &mut Finding,
) -> Result<&'a str, LoadFault>
    ensures read { IfOk result (λ text. text_by name.now most (table_view table.now) ≡ Some text.now) }
    ensures short { IfOk result (λ text. length text.now ≤ most) }
    ensures refused { IfErr result (IsBad (text_by name.now most (table_view table.now))) }
{
    finding.expect(name, Expected::Text(most));
    match value_of(table, name) {
        None => Ok(""),
        Some(value) => text_in(value, most),
    }
}

/// Reads a value as a text of this many bytes at most.
fn text_in(value: &Value, most: usize) -> Result<&str, LoadFault>
    ensures read { IfOk result (λ text. text_in most (view value.now) ≡ Some text.now) }
    ensures short { IfOk result (λ text. length text.now ≤ most) }
    ensures refused { IfErr result (IsBad (text_in most (view value.now))) }
{
    let Value::String(text) = value else {
        return Err(BAD_VALUE);
    };
    if !is_text(text.as_bytes(), most) {
        return Err(BAD_VALUE);
    }
    Ok(text.as_str())
}

/// Whether a text has this many bytes at most, each of which can be printed.
fn is_text(text: &[u8], most: usize) -> bool
    ensures { result ≡ is_text most text.now }
{
    if text.len() > most {
        return false;
    }
    for byte in text {
        if *byte < 0x20 || *byte > 0x7e {
            return false;
        }
    }
    true
}
