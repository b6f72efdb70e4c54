//! Structures of elementary values: the layout of their fields as text, and the fields as bytes and as text.
//!
//! A [`Layout`] is a list of [`Field`]s, such as `speed:UINT,limit:REAL` or `UINT,USINT[4]`. [`read_fields`] reads
//! bytes as the values of its fields, and a [`FieldsText`] prints them. [`write_fields`] parses words as values and
//! returns their bytes. The values of all fields are in one list, in the order of the fields.
//!
//! ```
//! let layout = Layout::parse("speed:UINT,limit:REAL")?;
//! let bytes = write_fields(alloc, layout.fields(), &["10", "1.5"])?; // 0a 00 00 00 c0 3f
//! ```
#![tactic(auto)]

mod fault;
mod field;
pub mod laws;
mod layout;
mod name;
mod reading;
mod text;
mod writing;

pub use fault::{FieldFault, FieldsFault, LayoutFault};
pub use field::Field;
pub use layout::{Layout, MOST_FIELDS, ValueShape};
pub use name::{FieldName, LONGEST_NAME};
pub use reading::read_fields;
pub use text::{FieldsText, split_values};
pub use writing::write_fields;
