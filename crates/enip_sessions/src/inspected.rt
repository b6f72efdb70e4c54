//! The objects that `enip inspect` reads, with the types of their attributes.
//!
//! (Volume 1: Identity, Message Router, Connection Manager; Volume 2: TCP/IP Interface and Ethernet Link. The counter and
//! the ledger are those of docs/PROTOCOL.md, "Objects".)

use cip_values::{ElementaryType, ValueType};

/// The form of an attribute's value.
#[derive(Clone, Copy)]
pub(crate) enum Form {
    /// One value of a type.
    One(ElementaryType),
    /// One value of a type, and what it means.
    Meant(ElementaryType, Meaning),
    /// Values of a type, one after the other.
    List(ElementaryType),
    /// The physical link of TCP/IP Interface.
    PhysicalLink,
    /// The interface configuration of TCP/IP Interface.
    InterfaceConfiguration,
    /// A STRING, which is padded to an even size.
    PaddedString,
    /// Bytes, which are printed in hexadecimal.
    Bytes,
}

/// What a number of Ethernet Link means.
#[derive(Clone, Copy)]
pub(crate) enum Meaning {
    Speed,
    Flags,
    Type,
    State,
}

impl Form {
    /// The type of the value. `None` if it has none.
    pub(crate) fn value_type(self) -> Option<ValueType> {
        let (element, is_list) = match self {
            Form::One(element) | Form::Meant(element, _) => (element, false),
            Form::List(element) => (element, true),
            Form::PaddedString => (ElementaryType::String, false),
            Form::PhysicalLink | Form::InterfaceConfiguration | Form::Bytes => return None,
        };
        Some(ValueType { element, is_list })
    }
}

/// An attribute: its number, its name, and the form of its value.
type InspectedAttribute = (u16, &'static str, Form);

/// An object, of which instance 1 is read.
pub(crate) struct InspectedObject {
    pub(crate) name: &'static str,
    pub(crate) class: u16,
    pub(crate) attributes: &'static [InspectedAttribute],
}

/// The objects, in the order in which they are read.
pub(crate) static INSPECTED: [InspectedObject; 7] = [
    InspectedObject {
        name: "identity",
        class: 0x01,
        attributes: &[
            (1, "vendor", Form::One(ElementaryType::Uint)),
            (2, "device-type", Form::One(ElementaryType::Uint)),
            (3, "product-code", Form::One(ElementaryType::Uint)),
            (4, "revision", Form::List(ElementaryType::Usint)),
            (5, "status", Form::One(ElementaryType::Word)),
            (6, "serial", Form::One(ElementaryType::Dword)),
            (7, "name", Form::One(ElementaryType::ShortString)),
            (8, "state", Form::One(ElementaryType::Usint)),
        ],
    },
    InspectedObject {
        // The object list is a count, then the classes.
        name: "message-router",
        class: 0x02,
        attributes: &[
            (1, "object-list", Form::List(ElementaryType::Word)),
            (2, "number-available", Form::One(ElementaryType::Uint)),
            (3, "number-active", Form::One(ElementaryType::Uint)),
        ],
    },
    InspectedObject {
        name: "connection-manager",
        class: 0x06,
        attributes: &[
            (1, "open-requests", Form::One(ElementaryType::Uint)),
            (2, "open-format-rejects", Form::One(ElementaryType::Uint)),
            (3, "open-resource-rejects", Form::One(ElementaryType::Uint)),
            (4, "open-other-rejects", Form::One(ElementaryType::Uint)),
            (5, "close-requests", Form::One(ElementaryType::Uint)),
            (6, "close-format-rejects", Form::One(ElementaryType::Uint)),
            (7, "close-other-rejects", Form::One(ElementaryType::Uint)),
            (8, "connection-timeouts", Form::One(ElementaryType::Uint)),
        ],
    },
    InspectedObject {
        name: "tcp-ip",
        class: 0xf5,
        attributes: &[
            (1, "status", Form::One(ElementaryType::Dword)),
            (
                2,
                "configuration-capability",
                Form::One(ElementaryType::Dword),
            ),
            (3, "configuration-control", Form::One(ElementaryType::Dword)),
            (4, "physical-link", Form::PhysicalLink),
            (5, "interface-configuration", Form::InterfaceConfiguration),
            (6, "host-name", Form::PaddedString),
            (13, "inactivity-timeout", Form::One(ElementaryType::Uint)),
        ],
    },
    InspectedObject {
        name: "ethernet-link",
        class: 0xf6,
        attributes: &[
            (
                1,
                "interface-speed",
                Form::Meant(ElementaryType::Udint, Meaning::Speed),
            ),
            (
                2,
                "interface-flags",
                Form::Meant(ElementaryType::Dword, Meaning::Flags),
            ),
            (3, "physical-address", Form::List(ElementaryType::Byte)),
            (
                7,
                "interface-type",
                Form::Meant(ElementaryType::Usint, Meaning::Type),
            ),
            (
                8,
                "interface-state",
                Form::Meant(ElementaryType::Usint, Meaning::State),
            ),
            (
                10,
                "interface-label",
                Form::One(ElementaryType::ShortString),
            ),
        ],
    },
    InspectedObject {
        name: "counter",
        class: 0x64,
        attributes: &[
            (1, "value", Form::One(ElementaryType::Udint)),
            (2, "limit", Form::One(ElementaryType::Udint)),
            (3, "additions", Form::One(ElementaryType::Udint)),
        ],
    },
    InspectedObject {
        name: "ledger",
        class: 0x65,
        attributes: &[
            (1, "slots", Form::One(ElementaryType::Uint)),
            (2, "taken-slots", Form::One(ElementaryType::Uint)),
            (3, "life", Form::One(ElementaryType::Ulint)),
        ],
    },
];
