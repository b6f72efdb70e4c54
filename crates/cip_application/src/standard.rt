//! The TCP/IP Interface and the Ethernet Link, as application objects.
//! Text: docs/PROTOCOL.md, "Objects".
ghost use Rattle.std.specs.Prelude.{◌≡◌, ◌≤◌, ◌++◌, [], ◌∷◌, IfOk, OnOk, length, map, None};
ghost use Rattle.cip_application.specs.Configuration.{attribute_of_config};
ghost use Rattle.cip_application.specs.Standard.{address_bytes, padding, string_value, attribute, fixed, timeout};
ghost use Rattle.cip_application.specs.Standard.{interface_seen, interface_value, interface_attributes};
ghost use Rattle.cip_application.specs.Standard.{link_seen, link_attributes, IsStandard};

use crate::config::{AttributeConfig, ETHERNET_LINK, ObjectConfig, TCP_IP_INTERFACE};
use crate::kind::AttributeKind;
use crate::number::{NumberRange, NumberType};
use std::alloc::{AllocError, Global};

/// The most bytes of a domain. (Volume 2, TCP/IP Interface object.)
pub const DOMAIN_LIMIT: usize = 48;

/// The most bytes of a host name. (Volume 2, TCP/IP Interface object.)
pub const HOST_LIMIT: usize = 64;

/// The most bytes of an interface's label. (Volume 2, Ethernet Link object.)
pub const LABEL_LIMIT: usize = 64;

/// The greatest encapsulation inactivity timeout, in seconds. (Volume 2, TCP/IP Interface object.)
pub const INACTIVITY_LIMIT: u16 = 3_600;

/// The status of the interface: its configuration is valid, and was not set by switches.
const CONFIGURED: u32 = 1;

/// The path of the physical link object: instance 1 of the Ethernet Link, after its size in words.
const LINK_PATH: [u8; 6] = [0x02, 0x00, 0x20, 0xf6, 0x24, 0x01];

/// The TCP/IP Interface of a device, class 0xf5. Each address is in the order in which it is written: 10.0.0.9 is
/// `[10, 0, 0, 9]`.
///
/// ```
/// let interface = TcpIpInterface {
///     address: [10, 0, 0, 9],
///     mask: [255, 255, 255, 0],
///     gateway: [0; 4],
///     name_server: [0; 4],
///     second_name_server: [0; 4],
///     domain: "plant.example",
///     host: "mixer",
///     inactivity_timeout: 120,
/// };
/// objects.push(interface.object(alloc)?)?;
/// ```
#[derive(Clone, Copy, Debug)]
pub struct TcpIpInterface<'a> {
    /// The IPv4 address.
    pub address: [u8; 4],
    /// The network mask.
    pub mask: [u8; 4],
    /// The default gateway, or zeros.
    pub gateway: [u8; 4],
    /// The first name server, or zeros.
    pub name_server: [u8; 4],
    /// The second name server, or zeros.
    pub second_name_server: [u8; 4],
    /// The domain, or nothing.
    pub domain: &'a str,
    /// The host name, or nothing.
    pub host: &'a str,
    /// The encapsulation inactivity timeout in seconds.
    pub inactivity_timeout: u16,
}

impl TcpIpInterface<'_> {
    /// The object. Its attribute 13 can be set, the others only read.
    ///
    /// # Errors
    ///
    /// `AllocError` if memory is refused.
    pub fn object(&self, alloc: Global) -> Result<ObjectConfig, AllocError>
        requires domain { length self.now.domain.now ≤ DOMAIN_LIMIT }
        requires host { length self.now.host.now ≤ HOST_LIMIT }
        ensures { IfOk result (IsStandard 0xf5 (interface_attributes (interface_seen self.now))) }
    {
        let mut attributes = Vec::new(alloc);
        self.push_attributes(alloc, &mut attributes)?;
        Ok(ObjectConfig {
            class: TCP_IP_INTERFACE,
            instance: 1,
            standard: true,
            name: None,
            attributes,
            services: Vec::new(alloc),
            lists: false,
        })
    }

    /// Adds the attributes.
    fn push_attributes(
        &self,
        alloc: Global,
        attributes: &mut Vec<AttributeConfig>,
    ) -> Result<(), AllocError>
        requires domain { length self.now.domain.now ≤ DOMAIN_LIMIT }
        requires host { length self.now.host.now ≤ HOST_LIMIT }
        requires none { attributes.old.items ≡ [] }
        ensures { OnOk result (map attribute_of_config attributes.new.items ≡ interface_attributes (interface_seen self.now)) }
    {
        push_fixed(
            attributes,
            1,
            Vec::from_slice(alloc, &CONFIGURED.to_le_bytes())?,
        )?;
        push_fixed(attributes, 2, Vec::from_slice(alloc, &0u32.to_le_bytes())?)?;
        push_fixed(attributes, 3, Vec::from_slice(alloc, &0u32.to_le_bytes())?)?;
        push_fixed(attributes, 4, Vec::from_slice(alloc, &LINK_PATH)?)?;
        push_fixed(attributes, 5, self.value(alloc)?)?;
        push_fixed(attributes, 6, string_value(alloc, self.host)?)?;
        push_timeout(alloc, attributes, self.inactivity_timeout)
    }

    /// The value of the attribute with the interface configuration.
    fn value(&self, alloc: Global) -> Result<Vec<u8>, AllocError>
        requires { length self.now.domain.now ≤ DOMAIN_LIMIT }
        ensures value { IfOk result (λ bytes. bytes.items ≡ interface_value (interface_seen self.now)) }
        ensures short { IfOk result (λ bytes. length bytes.items ≤ 500) }
    {
        let mut bytes = Vec::new(alloc);
        self.push_addresses(&mut bytes)?;
        push_string(&mut bytes, self.domain)?;
        Ok(bytes)
    }

    /// Appends the addresses.
    fn push_addresses(&self, bytes: &mut Vec<u8>) -> Result<(), AllocError>
        requires { bytes.old.items ≡ [] }
        ensures { OnOk result (bytes.new.items ≡ address_bytes self.now.address ++ (address_bytes self.now.mask
            ++ (address_bytes self.now.gateway ++ (address_bytes self.now.name_server
            ++ address_bytes self.now.second_name_server)))) }
    {
        bytes.extend_from_slice(&address_bytes(self.address))?;
        bytes.extend_from_slice(&address_bytes(self.mask))?;
        bytes.extend_from_slice(&address_bytes(self.gateway))?;
        bytes.extend_from_slice(&address_bytes(self.name_server))?;
        bytes.extend_from_slice(&address_bytes(self.second_name_server))
    }
}

/// The Ethernet Link of a device, class 0xf6.
///
/// ```
/// let link = EthernetLink {
///     speed: 100,
///     flags: 0x0f, // active, full duplex, negotiated
///     physical_address: [0x02, 0, 0, 0, 0, 0x09],
///     interface_type: 2,
///     state: 1,
///     label: "Port 1",
/// };
/// objects.push(link.object(alloc)?)?;
/// ```
#[derive(Clone, Copy, Debug)]
pub struct EthernetLink<'a> {
    /// The speed in Mbit/s.
    pub speed: u32,
    /// The flags: bit 0 is an active link, bit 1 full duplex, bits 2 to 4 how they were negotiated.
    pub flags: u32,
    /// The MAC address.
    pub physical_address: [u8; 6],
    /// The type: 0 unknown, 1 internal, 2 twisted pair, 3 optical fiber.
    pub interface_type: u8,
    /// The state: 0 unknown, 1 enabled, 2 disabled, 3 testing.
    pub state: u8,
    /// The label, or nothing.
    pub label: &'a str,
}

impl EthernetLink<'_> {
    /// The object. Its attributes can only be read.
    ///
    /// # Errors
    ///
    /// `AllocError` if memory is refused.
    pub fn object(&self, alloc: Global) -> Result<ObjectConfig, AllocError>
        requires { length self.now.label.now ≤ LABEL_LIMIT }
        ensures { IfOk result (IsStandard 0xf6 (link_attributes (link_seen self.now))) }
    {
        let mut attributes = Vec::new(alloc);
        self.push_attributes(alloc, &mut attributes)?;
        Ok(ObjectConfig {
            class: ETHERNET_LINK,
            instance: 1,
            standard: true,
            name: None,
            attributes,
            services: Vec::new(alloc),
            lists: false,
        })
    }

    /// Adds the attributes.
    fn push_attributes(
        &self,
        alloc: Global,
        attributes: &mut Vec<AttributeConfig>,
    ) -> Result<(), AllocError>
        requires label { length self.now.label.now ≤ LABEL_LIMIT }
        requires none { attributes.old.items ≡ [] }
        ensures { OnOk result (map attribute_of_config attributes.new.items ≡ link_attributes (link_seen self.now)) }
    {
        push_fixed(
            attributes,
            1,
            Vec::from_slice(alloc, &self.speed.to_le_bytes())?,
        )?;
        push_fixed(
            attributes,
            2,
            Vec::from_slice(alloc, &self.flags.to_le_bytes())?,
        )?;
        push_fixed(
            attributes,
            3,
            Vec::from_slice(alloc, &self.physical_address)?,
        )?;
        push_fixed(
            attributes,
            7,
            Vec::from_slice(alloc, &[self.interface_type])?,
        )?;
        push_fixed(attributes, 8, Vec::from_slice(alloc, &[self.state])?)?;
        push_label(alloc, attributes, self.label)
    }
}

/// Adds an attribute of this value, which peers only read.
pub(crate) fn push_fixed(
    attributes: &mut Vec<AttributeConfig>,
    number: u16,
    value: Vec<u8>,
) -> Result<(), AllocError>
    requires { length value.items ≤ 500 }
    ensures { OnOk result (map attribute_of_config attributes.new.items
        ≡ map attribute_of_config attributes.old.items ++ (fixed number value.items ∷ [])) }
{
    let kind = AttributeKind::Fixed {
        size: value.len() as u16,
        range: None,
    };
    push(attributes, number, kind, false, value)
}

/// Adds the encapsulation inactivity timeout, which peers can set.
fn push_timeout(
    alloc: Global,
    attributes: &mut Vec<AttributeConfig>,
    seconds: u16,
) -> Result<(), AllocError>
    ensures { OnOk result (map attribute_of_config attributes.new.items
        ≡ map attribute_of_config attributes.old.items ++ (timeout seconds ∷ [])) }
{
    let range = NumberRange {
        number: NumberType::Uint,
        least: 0,
        greatest: u64::from(INACTIVITY_LIMIT),
    };
    let kind = AttributeKind::Fixed {
        size: 2,
        range: Some(range),
    };
    let value = Vec::from_slice(alloc, &seconds.to_le_bytes())?;
    push(attributes, 13, kind, true, value)
}

/// Adds the label of an interface.
fn push_label(
    alloc: Global,
    attributes: &mut Vec<AttributeConfig>,
    label: &str,
) -> Result<(), AllocError>
    requires { length label.now ≤ LABEL_LIMIT }
    ensures { OnOk result (map attribute_of_config attributes.new.items
        ≡ map attribute_of_config attributes.old.items
        ++ (attribute 10 (AttributeKind.ShortString LABEL_LIMIT) (length label.now ∷ label.now) ∷ [])) }
{
    let label = label.as_bytes();
    let mut value = Vec::from_slice(alloc, &[label.len() as u8])?;
    value.extend_from_slice(label)?;
    let kind = AttributeKind::ShortString {
        room: LABEL_LIMIT as u8,
    };
    push(attributes, 10, kind, false, value)
}

/// Adds an attribute.
fn push(
    attributes: &mut Vec<AttributeConfig>,
    number: u16,
    kind: AttributeKind,
    settable: bool,
    value: Vec<u8>,
) -> Result<(), AllocError>
    ensures { OnOk result (map attribute_of_config attributes.new.items
        ≡ map attribute_of_config attributes.old.items
        ++ (record (attribute number kind value.items) { settable = settable } ∷ [])) }
{
    attributes.push(AttributeConfig {
        number,
        kind,
        settable,
        checked: false,
        value,
    })?;
    Ok(())
}

/// An address as a UDINT, whose most significant byte is the address's first.
fn address_bytes(address: [u8; 4]) -> [u8; 4]
    ensures { result ≡ address_bytes address }
{
    u32::from_be_bytes(address).to_le_bytes()
}

/// A text as a STRING of an even length.
fn string_value(alloc: Global, text: &str) -> Result<Vec<u8>, AllocError>
    requires { length text.now ≤ HOST_LIMIT }
    ensures value { IfOk result (λ bytes. bytes.items ≡ string_value text.now) }
    ensures short { IfOk result (λ bytes. length bytes.items ≤ 500) }
{
    let mut bytes = Vec::new(alloc);
    push_string(&mut bytes, text)?;
    Ok(bytes)
}

/// Appends a text as a STRING of an even length.
fn push_string(bytes: &mut Vec<u8>, text: &str) -> Result<(), AllocError>
    requires { length text.now ≤ HOST_LIMIT }
    ensures { OnOk result (bytes.new.items ≡ bytes.old.items ++ string_value text.now) }
{
    let text = text.as_bytes();
    let length = text.len() as u16;
    bytes.extend_from_slice(&length.to_le_bytes())?;
    bytes.extend_from_slice(text)?;
    if length % 2 != 0 {
        bytes.push(0)?;
    }
    Ok(())
}
