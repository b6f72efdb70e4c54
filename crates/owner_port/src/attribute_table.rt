//! The types of attributes.

ghost use Rattle.std.specs.Prelude.{◌≡◌};
ghost use Rattle.owner_port.specs.Tables.{type_at, is_named};

use cip_values::ValueType;
use enip_owner::AttributeRef;

/// An attribute whose type is known.
#[derive(Clone, Copy, Debug)]
pub(crate) struct TypedAttribute {
    /// The attribute.
    pub(crate) attribute: AttributeRef,
    /// The type of its value.
    pub(crate) value_type: ValueType,
}

/// The type of an attribute, if it is known.
pub(crate) fn type_at(types: &[TypedAttribute], attribute: AttributeRef) -> Option<ValueType>
    ensures { result ≡ type_at attribute types.now }
{
    let Some((first, others)) = types.split_first() else {
        return None;
    };
    if is_named(first.attribute, attribute) {
        return Some(first.value_type);
    }
    type_at(others, attribute)
}

/// Whether two attributes are the same.
fn is_named(one: AttributeRef, other: AttributeRef) -> bool
    ensures { result ≡ is_named one other }
{
    one.class == other.class && one.instance == other.instance && one.attribute == other.attribute
}
