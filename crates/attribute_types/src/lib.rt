//! The types of the attributes of own objects in a configuration, and the values of these types.
//!
//! - An [`AttributeType`] has a name, as `UINT[4]`, and says which bytes a value has (`specs/Types.antt`). The attributes of
//!   the standard's objects have types, too (`specs/StandardTypes.antt`).
//! - [`typed_in`] reads the type, the value and the bounds of an attribute from its table.
//! - [`number_in`] reads any number of a configuration, within a range (`specs/Values.antt`).
#![tactic(auto)]

mod attribute_type;
mod elements;
mod standard_types;
mod typed;
mod value;

pub use attribute_type::{AttributeType, width_of};
pub use typed::{TypedFault, TypedValue, number_type, typed_in};
pub use value::{BAD_VALUE, number_in, value_of};
