//! What commands and owners read and print line by line.
//!
//! - [`read_lines`] splits an input into lines, and has a command run on each of them ([`TakeLines`]).
//! - [`decode`] reads bytes in hexadecimal, and [`decimal`] a number.
//! - [`json_of`] is a value of an elementary type as JSON, [`list_of`] an array of values, and [`latin_text`] the text of
//!   a device, which has one byte per character.
//!
//! `specs/InputLines.antt` defines the lines of an input and what they do, `specs/JsonValues.antt` values as JSON.
#![tactic(auto)]

mod digits;
mod input_lines;
mod json_value;
mod latin;
mod numerals;

pub use digits::decode;
pub use input_lines::{TakeLines, read_lines};
pub use json_value::{json_of, list_of};
pub use latin::latin_text;
pub use numerals::decimal;
