//! Numbers and names of classes, attributes and services, in arguments and in what is printed.
//!
//! [`parse_number`] reads a decimal or hexadecimal number. [`number_or_name`] also takes a name of a table: [`CLASSES`],
//! and the tables that [`attribute_names`] and [`service_names`] give for a class. [`ClassText`], [`ServiceText`] and
//! [`AttributeText`] print a number with its name.
//!
//! ```
//! let class = number_or_name("identity", 0xffff, &CLASSES); // Some(1)
//! let attribute = number_or_name("0x07", 0xffff, attribute_names(1, 1)); // Some(7)
//! let text = format!(in alloc; "{}", ClassText(1))?; // class 0x01 identity
//! ```
#![tactic(auto)]

mod names;
mod numbers;
mod objects;
mod texts;

pub use names::{Name, name_of, number_or_name};
pub use numbers::parse_number;
pub use objects::{
    CLASS_ATTRIBUTES, CLASSES, COMMON_SERVICES, attribute_names, class_name, service_name,
    service_names,
};
pub use texts::{AttributeText, ClassText, ServiceText};
