//! The classes that have names, with the names of their attributes and services.
//!
//! The numbers are those of the standard (Volume 1, object library and common services; Volume 2, TCP/IP Interface and
//! Ethernet Link), and for the counter and the ledger ours. docs/PROTOCOL.md, "Objects", has both.

use crate::names::{Name, name_of};

/// The classes.
pub static CLASSES: [Name; 8] = [
    ("identity", 0x01),
    ("message-router", 0x02),
    ("assembly", 0x04),
    ("connection-manager", 0x06),
    ("counter", 0x64),
    ("ledger", 0x65),
    ("tcp-ip", 0xf5),
    ("ethernet-link", 0xf6),
];

/// The attributes of instance 0, the class itself. (Volume 1, class attributes.)
pub static CLASS_ATTRIBUTES: [Name; 7] = [
    ("revision", 1),
    ("max-instance", 2),
    ("number-of-instances", 3),
    ("optional-attributes", 4),
    ("optional-services", 5),
    ("max-class-attribute", 6),
    ("max-instance-attribute", 7),
];

/// The attributes of Identity.
static IDENTITY: [Name; 8] = [
    ("vendor", 1),
    ("device-type", 2),
    ("product-code", 3),
    ("revision", 4),
    ("status", 5),
    ("serial", 6),
    ("name", 7),
    ("state", 8),
];

/// The attributes of the Message Router.
static MESSAGE_ROUTER: [Name; 4] = [
    ("object-list", 1),
    ("number-available", 2),
    ("number-active", 3),
    ("active-connections", 4),
];

/// The attributes of an Assembly.
static ASSEMBLY: [Name; 4] = [
    ("number-of-members", 1),
    ("member-list", 2),
    ("data", 3),
    ("size", 4),
];

/// The attributes of the Connection Manager.
static CONNECTION_MANAGER: [Name; 8] = [
    ("open-requests", 1),
    ("open-format-rejects", 2),
    ("open-resource-rejects", 3),
    ("open-other-rejects", 4),
    ("close-requests", 5),
    ("close-format-rejects", 6),
    ("close-other-rejects", 7),
    ("connection-timeouts", 8),
];

/// The attributes of the counter.
static COUNTER: [Name; 3] = [("value", 1), ("limit", 2), ("additions", 3)];

/// The attributes of the command ledger.
static LEDGER: [Name; 3] = [("slots", 1), ("taken-slots", 2), ("life", 3)];

/// The attributes of TCP/IP Interface.
static TCP_IP: [Name; 13] = [
    ("status", 1),
    ("configuration-capability", 2),
    ("configuration-control", 3),
    ("physical-link", 4),
    ("interface-configuration", 5),
    ("host-name", 6),
    ("safety-network-number", 7),
    ("ttl", 8),
    ("mcast-configuration", 9),
    ("select-acd", 10),
    ("last-conflict", 11),
    ("quick-connect", 12),
    ("inactivity-timeout", 13),
];

/// The attributes of Ethernet Link.
static ETHERNET_LINK: [Name; 11] = [
    ("interface-speed", 1),
    ("interface-flags", 2),
    ("physical-address", 3),
    ("interface-counters", 4),
    ("media-counters", 5),
    ("interface-control", 6),
    ("interface-type", 7),
    ("interface-state", 8),
    ("admin-state", 9),
    ("interface-label", 10),
    ("interface-capability", 11),
];

/// The services that a class can have. (Volume 1, common services.)
pub static COMMON_SERVICES: [Name; 21] = [
    ("get-all", 0x01),
    ("set-all", 0x02),
    ("get-list", 0x03),
    ("set-list", 0x04),
    ("reset", 0x05),
    ("start", 0x06),
    ("stop", 0x07),
    ("create", 0x08),
    ("delete", 0x09),
    ("multiple-service-packet", 0x0a),
    ("apply", 0x0d),
    ("get", 0x0e),
    ("set", 0x10),
    ("find-next-instance", 0x11),
    ("restore", 0x15),
    ("save", 0x16),
    ("no-operation", 0x17),
    ("get-member", 0x18),
    ("set-member", 0x19),
    ("insert-member", 0x1a),
    ("remove-member", 0x1b),
];

/// The services of the Connection Manager.
static MANAGER_SERVICES: [Name; 4] = [
    ("forward-close", 0x4e),
    ("unconnected-send", 0x52),
    ("forward-open", 0x54),
    ("large-forward-open", 0x5b),
];

/// The services of the counter.
static COUNTER_SERVICES: [Name; 2] = [("add", 0x32), ("clear", 0x33)];

/// The services of the command ledger.
static LEDGER_SERVICES: [Name; 4] = [
    ("do-once", 0x4b),
    ("get-last", 0x4c),
    ("forget", 0x4d),
    ("get-slots", 0x50),
];

/// The services of Ethernet Link.
static LINK_SERVICES: [Name; 1] = [("get-and-clear", 0x4c)];

/// The names of the attributes of an instance of a class. Instance 0 is the class itself. Empty if the class has no
/// names.
pub fn attribute_names(class: u16, instance: u32) -> &'static [Name] {
    if instance == 0 {
        return &CLASS_ATTRIBUTES;
    }
    match class {
        0x01 => &IDENTITY,
        0x02 => &MESSAGE_ROUTER,
        0x04 => &ASSEMBLY,
        0x06 => &CONNECTION_MANAGER,
        0x64 => &COUNTER,
        0x65 => &LEDGER,
        0xf5 => &TCP_IP,
        0xf6 => &ETHERNET_LINK,
        _ => &[],
    }
}

/// The names of the services that a class has in addition to the common ones.
pub fn service_names(class: u16) -> &'static [Name] {
    match class {
        0x06 => &MANAGER_SERVICES,
        0x64 => &COUNTER_SERVICES,
        0x65 => &LEDGER_SERVICES,
        0xf6 => &LINK_SERVICES,
        _ => &[],
    }
}

/// The name of a class, if it has one.
pub fn class_name(class: u16) -> Option<&'static str> {
    name_of(&CLASSES, class)
}

/// The name of a service of a class, if it has one: the name that this class gives it, or else the common one.
pub fn service_name(class: u16, service: u8) -> Option<&'static str> {
    let service = u16::from(service);
    match name_of(service_names(class), service) {
        Some(name) => Some(name),
        None => name_of(&COMMON_SERVICES, service),
    }
}
