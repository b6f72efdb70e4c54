//! The Identity object (Volume 1, class 0x01).
ghost use Rattle.std.specs.Prelude.{◌≡◌, ◌≤◌, ◌+◌, length, option_map, IfSome};
ghost use Rattle.cip_objects.specs.Entries.{attribute_in, identity_attributes};
ghost use Rattle.cip_objects.specs.AttributeValue.{value_bytes, IsShort};

use crate::value::AttributeValue;
use arrayvec::ArrayVec;
use std::marker::Model;

/// The most bytes of a product name (our choice).
pub(crate) const NAME_LIMIT: usize = 32;

/// The one instance of the Identity object.
#[derive(Debug, Drop)]
pub(crate) struct Identity {
    pub(crate) vendor: u16,
    pub(crate) device_type: u16,
    pub(crate) product_code: u16,
    pub(crate) major: u8,
    pub(crate) minor: u8,
    pub(crate) status: u16,
    pub(crate) serial: u32,
    pub(crate) name: ArrayVec<u8, NAME_LIMIT>,
    pub(crate) state: u8,
}

impl Model for Identity {
    ghost use Rattle.cip_objects.specs.Entries.{IdentityValues};

    ghost Value = { IdentityValues };

    ghost view = { λ d. record {
      vendor = d.vendor;
      device_type = d.device_type;
      product_code = d.product_code;
      major = d.major;
      minor = d.minor;
      status = d.status;
      serial = d.serial;
      name = d.name.items;
      state = d.state;
    } };
}

impl Identity {
    /// Sets the status.
    pub(crate) fn set_status(&mut self, status: u16)
        ensures { self.new ≡ record self.old { status = status } }
    {
        self.status = status;
    }

    /// Sets the state.
    pub(crate) fn set_state(&mut self, state: u8)
        ensures { self.new ≡ record self.old { state = state } }
    {
        self.state = state;
    }

    /// The value of an attribute of the instance.
    pub(crate) fn attribute(&self, attribute: u16) -> Option<AttributeValue<'_>>
        ensures value { option_map value_bytes result ≡ attribute_in attribute (identity_attributes self.now) }
        ensures short { IfSome result IsShort }
        ensures small { IfSome result (λ value. length (value_bytes value) ≤ NAME_LIMIT + 1) }
    {
        match attribute {
            1 => Some(AttributeValue::Uint(self.vendor)),
            2 => Some(AttributeValue::Uint(self.device_type)),
            3 => Some(AttributeValue::Uint(self.product_code)),
            // The major revision comes before the minor one.
            4 => Some(AttributeValue::Pair(self.major, self.minor)),
            5 => Some(AttributeValue::Uint(self.status)),
            6 => Some(AttributeValue::Udint(self.serial)),
            7 => Some(AttributeValue::Text(self.name.len() as u8, self.name.as_slice())),
            8 => Some(AttributeValue::Usint(self.state)),
            _ => None,
        }
    }
}
