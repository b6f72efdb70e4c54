//! The interface configuration of a device. (Volume 2, TCP/IP Interface object, attribute 5.)
//!
//! ```text
//!  [ IP address | network mask | gateway address | name server | name server 2 | domain name ]
//!        4             4                4               4              4            2 + n
//! ```

ghost use Rattle.std.specs.Prelude.{◌≡◌, ◌≤◌, ◌+◌, IfOk, Some, length, string_bytes};
ghost use Rattle.std.specs.Option.{option_map};
ghost use Rattle.enip_commands.specs.Interfaces.{interface_in, interface_of, interface_fields, host_at, name_size};
ghost use Rattle.enip_commands.specs.Interfaces.{interface_data, fields_data};
ghost use Rattle.serde_json.specs.View.{view};
ghost use Rattle.serde_json.specs.Written.{compact_text};

use crate::json_text::host_of;
use crate::listing::Name;
use enip_lines::latin_text;
use serde_json::{Map, Value, json, put};
use std::alloc::{AllocError, Global};
use std::fmt;

/// The number of bytes before the domain name's characters: five addresses, and its size.
const BEFORE_NAME: usize = 22;

/// The interface configuration of a device, lent from a reply. Its addresses have the most significant octet first.
///
/// ```
/// let Some(configuration) = InterfaceConfiguration::read(reply.data) else { return };
/// print!(rt; "interface-configuration:{configuration}\n")?;
/// ```
#[derive(Clone, Copy, Debug, PartialEq, Eq)]
pub struct InterfaceConfiguration<'a> {
    /// The IP address of the device.
    pub ip_address: [u8; 4],
    /// The network mask.
    pub network_mask: [u8; 4],
    /// The address of the default gateway; 0.0.0.0 if there is none.
    pub gateway_address: [u8; 4],
    /// The address of the primary name server; 0.0.0.0 if there is none.
    pub name_server: [u8; 4],
    /// The address of the secondary name server; 0.0.0.0 if there is none.
    pub name_server_2: [u8; 4],
    /// The characters of the default domain name. Empty if there is none.
    pub domain_name: &'a [u8],
}

impl<'a> InterfaceConfiguration<'a> {
    /// Reads a configuration from all of these bytes. A domain name of an odd size is followed by a byte of padding,
    /// which may be missing (ours). `None` if the bytes are not a configuration.
    #[tactic(auto, unfolding(crate::specs::Interfaces::interface_of))]
    pub fn read(bytes: &'a [u8]) -> Option<InterfaceConfiguration<'a>>
        ensures { option_map interface_in result ≡ interface_of bytes.now }
    {
        if bytes.len() < BEFORE_NAME {
            return None;
        }
        let size = name_size(bytes);
        let end = BEFORE_NAME + size;
        if bytes.len() != end && bytes.len() != end + size % 2 {
            return None;
        }
        Some(fields_of(bytes))
    }
}

/// The size of the domain name.
fn name_size(bytes: &[u8]) -> usize
    requires { 22 ≤ length bytes.now }
    ensures { result ≡ name_size bytes.now }
{
    usize::from(bytes[20]) + 256 * usize::from(bytes[21])
}

/// The fields, each read at its offset.
fn fields_of(bytes: &[u8]) -> InterfaceConfiguration<'_>
    requires { 22 + name_size bytes.now ≤ length bytes.now }
    ensures { interface_in result ≡ interface_fields bytes.now }
{
    InterfaceConfiguration {
        ip_address: host_at(bytes, 0),
        network_mask: host_at(bytes, 4),
        gateway_address: host_at(bytes, 8),
        name_server: host_at(bytes, 12),
        name_server_2: host_at(bytes, 16),
        domain_name: &bytes[BEFORE_NAME..][..name_size(bytes)],
    }
}

/// The address at an offset.
fn host_at(bytes: &[u8], offset: usize) -> [u8; 4]
    requires { offset + 4 ≤ length bytes.now }
    ensures { result ≡ host_at offset bytes.now }
{
    [
        bytes[offset + 3],
        bytes[offset + 2],
        bytes[offset + 1],
        bytes[offset],
    ]
}

/// An address in dotted decimal.
#[derive(Clone, Copy)]
struct Host([u8; 4]);

impl fmt::Display for Host {
    ghost use Rattle.enip_commands.specs.Json.{host_text};

    ghost output = { λ h. Some (host_text h.0) };

    fn fmt<W: fmt::Write>(&self, f: &mut fmt::Formatter<W>) -> fmt::Result {
        let [first, second, third, fourth] = self.0;
        write!(f, "{first}.{second}.{third}.{fourth}")
    }
}

/// A line for each field. Each begins with a line feed.
impl fmt::Display for InterfaceConfiguration<'_> {
    ghost use Rattle.enip_commands.specs.Interfaces.{interface_in, interface_text};

    ghost output = { λ c. Some (interface_text (interface_in c)) };

    fn fmt<W: fmt::Write>(&self, f: &mut fmt::Formatter<W>) -> fmt::Result {
        write!(f, "\n    ip-address: {}", Host(self.ip_address))?;
        write!(f, "\n    network-mask: {}", Host(self.network_mask))?;
        write!(f, "\n    gateway-address: {}", Host(self.gateway_address))?;
        write!(f, "\n    name-server: {}", Host(self.name_server))?;
        write!(f, "\n    name-server-2: {}", Host(self.name_server_2))?;
        write!(f, "\n    domain-name: {}", Name(self.domain_name))
    }
}

/// The JSON object of a reply with a configuration: the fields, and the data of the reply in hexadecimal.
///
/// # Errors
///
/// `AllocError` if memory is refused.
pub fn interface_object(
    alloc: Global,
    data: &[u8],
    configuration: &InterfaceConfiguration<'_>,
) -> Result<String, AllocError>
    ensures { IfOk result (λ line. string_bytes line
        ≡ compact_text (interface_data data.now (interface_in configuration.now))) }
{
    interface_value(alloc, data, configuration)?.to_string(alloc)
}

fn interface_value(
    alloc: Global,
    data: &[u8],
    configuration: &InterfaceConfiguration<'_>,
) -> Result<Value, AllocError>
    ensures { IfOk result (λ object. view object ≡ interface_data data.now (interface_in configuration.now)) }
{
    let fields = fields_value(alloc, configuration)?;
    let digits = hex::encode(alloc, data)?;
    json!(in alloc; {"configuration": fields, "data": &digits, "status": 0u8})
}

fn fields_value(
    alloc: Global,
    configuration: &InterfaceConfiguration<'_>,
) -> Result<Value, AllocError>
    ensures { IfOk result (λ object. view object ≡ fields_data (interface_in configuration.now)) }
{
    let ip_address = host_of(alloc, configuration.ip_address)?;
    let network_mask = host_of(alloc, configuration.network_mask)?;
    let gateway_address = host_of(alloc, configuration.gateway_address)?;
    let name_server = host_of(alloc, configuration.name_server)?;
    let name_server_2 = host_of(alloc, configuration.name_server_2)?;
    let domain_name = latin_text(alloc, configuration.domain_name)?;
    let mut members = Map::new(alloc);
    put(&mut members, alloc, "domain_name", Value::from(domain_name))?;
    put(
        &mut members,
        alloc,
        "gateway_address",
        Value::from(gateway_address),
    )?;
    put(&mut members, alloc, "ip_address", Value::from(ip_address))?;
    put(&mut members, alloc, "name_server", Value::from(name_server))?;
    put(
        &mut members,
        alloc,
        "name_server_2",
        Value::from(name_server_2),
    )?;
    put(
        &mut members,
        alloc,
        "network_mask",
        Value::from(network_mask),
    )?;
    Ok(Value::Object(members))
}
