//! The attributes of a class itself, at instance 0.
ghost use Rattle.std.specs.Prelude.{◌≡◌, option_map, IfSome};
ghost use Rattle.cip_objects.specs.Entries.{attribute_in, class_attributes};
ghost use Rattle.cip_objects.specs.AttributeValue.{value_bytes, IsShort};

use crate::value::AttributeValue;

/// A class that has attributes of its own, at instance 0.
#[derive(Clone, Copy)]
pub(crate) enum Class {
    /// The Identity object.
    Identity,
    /// The Assembly object.
    Assembly,
    /// The counter.
    Counter,
}

/// The value of a class attribute (Volume 1, class attributes): revision, greatest instance, number of instances.
pub(crate) fn class_attribute(
    revision: u16,
    greatest: u16,
    number: u16,
    attribute: u16,
) -> Option<AttributeValue<'static>>
    ensures value { option_map value_bytes result ≡ attribute_in attribute (class_attributes revision greatest number) }
    ensures short { IfSome result IsShort }
{
    match attribute {
        1 => Some(AttributeValue::Uint(revision)),
        2 => Some(AttributeValue::Uint(greatest)),
        3 => Some(AttributeValue::Uint(number)),
        _ => None,
    }
}
