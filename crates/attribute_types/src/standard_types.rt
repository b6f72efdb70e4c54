//! The types of the attributes of the objects of the standard, for those who print their values.

ghost use Rattle.std.specs.Prelude.{◌≡◌};
ghost use Rattle.attribute_types.specs.StandardTypes.{type_of_standard, type_of_router, type_of_interface, type_of_link};

use crate::attribute_type::AttributeType;
use cip_application::{ETHERNET_LINK, LABEL_LIMIT, TCP_IP_INTERFACE};
use cip_bytes::protocol::MESSAGE_ROUTER;
use cip_values::ElementaryType;

impl AttributeType {
    /// The type of an attribute of the Message Router (class 2), the TCP/IP Interface (class 0xf5) or the Ethernet Link
    /// (class 0xf6), whose value has this many bytes. An attribute of several parts has those bytes, and so has a text
    /// that is padded. (Volume 1, Message Router object; Volume 2, TCP/IP Interface and Ethernet Link objects.)
    ///
    /// ```
    /// let of_type = AttributeType::of_standard(0xf5, 13, 2);
    /// print!(rt; "{of_type}\n")?; // UINT
    /// ```
    pub fn of_standard(class: u16, attribute: u16, size: u16) -> AttributeType
        ensures { result ≡ type_of_standard class attribute size }
    {
        match class {
            MESSAGE_ROUTER => type_of_router(attribute, size),
            TCP_IP_INTERFACE => type_of_interface(attribute, size),
            ETHERNET_LINK => type_of_link(attribute, size),
            _ => AttributeType::Bytes(size),
        }
    }
}

/// The type of an attribute of the Message Router.
fn type_of_router(attribute: u16, size: u16) -> AttributeType
    ensures { result ≡ type_of_router attribute size }
{
    match attribute {
        2 | 3 => AttributeType::One(ElementaryType::Uint),
        _ => AttributeType::Bytes(size),
    }
}

/// The type of an attribute of the TCP/IP Interface.
fn type_of_interface(attribute: u16, size: u16) -> AttributeType
    ensures { result ≡ type_of_interface attribute size }
{
    match attribute {
        1..=3 => AttributeType::One(ElementaryType::Dword),
        13 => AttributeType::One(ElementaryType::Uint),
        _ => AttributeType::Bytes(size),
    }
}

/// The type of an attribute of the Ethernet Link.
fn type_of_link(attribute: u16, size: u16) -> AttributeType
    ensures { result ≡ type_of_link attribute size }
{
    match attribute {
        1 => AttributeType::One(ElementaryType::Udint),
        2 => AttributeType::One(ElementaryType::Dword),
        3 => AttributeType::Array(ElementaryType::Usint, 6),
        7 | 8 => AttributeType::One(ElementaryType::Usint),
        10 => AttributeType::ShortString(LABEL_LIMIT as u8),
        _ => AttributeType::Bytes(size),
    }
}
