//! Why bytes or words are not values of a type.

ghost use Rattle.std.specs.Prelude.{◌≡◌};

use crate::element::ElementaryType;
use std::alloc::{AllocError, AllocFailed};
use thiserror::Error;

/// Why bytes or words are refused.
#[derive(Clone, Copy, Debug, PartialEq, Eq, Error)]
pub enum ValueFault<'a> {
    /// The bytes end within a value.
    #[error("the data end within a value")]
    Short,
    /// This many bytes follow the one value.
    #[error("{0} {are} left over", are = bytes_are(.0))]
    Trailing(usize),
    /// A BOOL is this byte, which is neither 0 nor 1.
    #[error("{0} is not a BOOL (0 or 1)")]
    NotBool(u8),
    /// There are this many words, but the type takes one value.
    #[error("{0} takes one value, not {1}")]
    Count(ElementaryType, usize),
    /// This word is not a value of the type, in any range.
    #[error("{0} is not of type {1}")]
    Form(&'a str, ElementaryType),
    /// The number in this word is out of the type's range.
    #[error("{0} is out of range for {1} ({range})", range = .1.range())]
    Range(&'a str, ElementaryType),
    /// The text has this many bytes, more than a SHORT_STRING can have.
    #[error("a SHORT_STRING has at most 255 bytes, not {0}")]
    TooLong(usize),
    /// The text has this many bytes, characters or words, more than a value of the type can have.
    #[error("{0} takes {range}, not {1}", range = .0.range())]
    Oversized(ElementaryType, usize),
    /// Memory was refused.
    #[error("memory")]
    Memory,
}

/// The words after a number of bytes.
fn bytes_are(count: &usize) -> &'static str {
    match *count {
        1 => "byte is",
        _ => "bytes are",
    }
}

impl From<AllocError> for ValueFault<'_> {
    ghost use Rattle.cip_values.specs.declared.fault.ValueFault.TheVariants.{Memory};

    ghost from_gives = { λ _ fault. fault ≡ Memory };

    fn from(_error: AllocError) -> Self {
        ValueFault::Memory
    }
}

impl<T: Drop> From<AllocFailed<T>> for ValueFault<'_> {
    ghost use Rattle.cip_values.specs.declared.fault.ValueFault.TheVariants.{Memory};

    ghost from_gives = { λ _ fault. fault ≡ Memory };

    fn from(_error: AllocFailed<T>) -> Self {
        ValueFault::Memory
    }
}
