//! The values of an interface in the objects of a device.

use crate::link::Link;
use crate::network::Network;
use cip_application::{
    AttributeConfig, ETHERNET_LINK, EthernetLink, HOST_LIMIT, LABEL_LIMIT, ObjectConfig,
    TCP_IP_INTERFACE, TcpIpInterface,
};
use std::alloc::{AllocError, Global};

/// The attribute of a TCP/IP Interface with the address, the mask, the gateway, the name servers and the domain.
const CONFIGURATION: u16 = 5;

/// Where the gateway ends in that attribute, behind the address and the mask.
const ADDRESSES_END: usize = 12;

/// Where it begins.
const GATEWAY: usize = 8;

/// The attribute with the host name.
const HOST_NAME: u16 = 6;

/// The attributes of an Ethernet Link that an interface has: the speed, the flags, the MAC address and the state.
const OF_A_LINK: [u16; 4] = [1, 2, 3, 8];

/// The attribute with the label.
const LABEL: u16 = 10;

/// Puts an address and a mask into the TCP/IP Interface among the objects, if there is one. A gateway of zeros becomes that of
/// the network, and an empty host name becomes `host`, unless that is longer than 64 bytes.
///
/// # Errors
///
/// `AllocError` if memory is refused. The objects may have some of the values then.
pub fn fill_tcp_ip(
    alloc: Global,
    objects: &mut [ObjectConfig],
    network: Network,
    host: &str,
) -> Result<(), AllocError> {
    let host = if host.len() <= HOST_LIMIT { host } else { "" };
    let Network {
        address,
        mask,
        gateway,
    } = network;
    let no_server = [0; 4];
    let filled = TcpIpInterface {
        address,
        mask,
        gateway,
        name_server: no_server,
        second_name_server: no_server,
        domain: "",
        host,
        inactivity_timeout: 0,
    };
    let filled = filled.object(alloc)?;
    for object in objects.iter_mut() {
        if object.class == TCP_IP_INTERFACE {
            fill_interface(alloc, &mut object.attributes, &filled.attributes)?;
        }
    }
    Ok(())
}

/// Puts the values of a TCP/IP Interface into the attributes of another one, as far as they are left to the system.
fn fill_interface(
    alloc: Global,
    attributes: &mut [AttributeConfig],
    filled: &[AttributeConfig],
) -> Result<(), AllocError> {
    for attribute in attributes.iter_mut() {
        let Some(from) = attribute_of(filled, attribute.number) else {
            continue;
        };
        if attribute.number == CONFIGURATION {
            fill_addresses(&mut attribute.value, &from.value);
        }
        if attribute.number == HOST_NAME && attribute.value.iter().all(|byte| *byte == 0) {
            set_value(alloc, attribute, from)?;
        }
    }
    Ok(())
}

/// Puts the address and the mask of an attribute into another one, and its gateway if the other has none.
fn fill_addresses(value: &mut [u8], from: &[u8]) {
    let (Some(value), Some(from)) = (value.get_mut(..ADDRESSES_END), from.get(..ADDRESSES_END))
    else {
        return;
    };
    let has_gateway = value[GATEWAY..].iter().any(|byte| *byte != 0);
    let end = if has_gateway { GATEWAY } else { ADDRESSES_END };
    for (byte, from) in value[..end].iter_mut().zip(&from[..end]) {
        *byte = *from;
    }
}

/// Puts the state of an interface into the Ethernet Link among the objects, if there is one. An empty label becomes `label`,
/// unless that is longer than 64 bytes.
///
/// # Errors
///
/// `AllocError` if memory is refused. The objects may have some of the values then.
pub fn fill_ethernet_link(
    alloc: Global,
    objects: &mut [ObjectConfig],
    link: Link,
    label: &str,
) -> Result<(), AllocError> {
    let label = if label.len() <= LABEL_LIMIT {
        label
    } else {
        ""
    };
    let Link {
        speed,
        flags,
        physical_address,
        state,
    } = link;
    let filled = EthernetLink {
        speed,
        flags,
        physical_address,
        interface_type: 0,
        state,
        label,
    };
    let filled = filled.object(alloc)?;
    for object in objects.iter_mut() {
        if object.class == ETHERNET_LINK {
            fill_link(alloc, &mut object.attributes, &filled.attributes)?;
        }
    }
    Ok(())
}

/// Puts the values of an Ethernet Link into the attributes of another one, as far as they are left to the system.
fn fill_link(
    alloc: Global,
    attributes: &mut [AttributeConfig],
    filled: &[AttributeConfig],
) -> Result<(), AllocError> {
    for attribute in attributes.iter_mut() {
        let Some(from) = attribute_of(filled, attribute.number) else {
            continue;
        };
        let is_unlabelled = attribute.number == LABEL && attribute.value.len() == 1;
        if is_unlabelled || OF_A_LINK.contains(&attribute.number) {
            set_value(alloc, attribute, from)?;
        }
    }
    Ok(())
}

/// The attribute with this number.
fn attribute_of(attributes: &[AttributeConfig], number: u16) -> Option<&AttributeConfig> {
    attributes
        .iter()
        .find(|attribute| attribute.number == number)
}

/// Gives an attribute the kind and the value of another one.
fn set_value(
    alloc: Global,
    attribute: &mut AttributeConfig,
    from: &AttributeConfig,
) -> Result<(), AllocError> {
    attribute.value = Vec::from_slice(alloc, &from.value)?;
    attribute.kind = from.kind;
    Ok(())
}
