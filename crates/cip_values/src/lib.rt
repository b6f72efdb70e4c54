//! Values of the standard's elementary data types (Volume 1, data types), as bytes and as text.
//!
//! A [`ValueType`] is an [`ElementaryType`] such as `UINT`, or a list of its values such as `UINT[]`.
//! [`read_values`] reads bytes as values, and a [`ValuesText`] prints them. [`write_values`] parses words as values
//! and returns their bytes. Both directions use one definition of a value's bytes, `spelled` in
//! `specs/Values.antt`.
//!
//! ```
//! let udint = ValueType { element: ElementaryType::Udint, is_list: false };
//! let bytes = write_values(alloc, udint, &["100"])?; // 64 00 00 00
//! ```
#![tactic(auto)]

mod calendar;
mod element;
mod fault;
pub mod laws;
mod parsing;
mod text;
mod times;
mod value;
mod values;

pub use calendar::Date;
pub use element::{ElementaryType, ValueType};
pub use fault::ValueFault;
pub use text::{ClockText, PathText, ValuesText, wide_characters};
pub use value::Value;
pub use values::{read_front, read_values, write_values};
