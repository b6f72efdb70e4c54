//! Why a text is not a layout, and why bytes or words are not the values of one.

ghost use Rattle.std.specs.Prelude.{◌≡◌};

use cip_values::ValueFault;
use std::alloc::{AllocError, AllocFailed};
use thiserror::Error;

/// Why a text is not a field of a layout.
#[derive(Clone, Copy, Debug, PartialEq, Eq, Error)]
pub enum FieldFault {
    /// The text is empty.
    #[error("empty")]
    Empty,
    /// What precedes the colon is not a name.
    #[error("a name has 1 to 32 letters, digits, '_', '-' and '.'")]
    Name,
    /// No elementary type has this name.
    #[error("not a type")]
    Type,
    /// The brackets do not have a number of values.
    #[error("a count is [1] to [65535]")]
    Count,
    /// This field has a name and the fields before it have none, or the other way round.
    #[error("either all fields have names, or none")]
    Mixed,
    /// A field before it has the same name.
    #[error("the name of a field before it")]
    Doubled,
    /// There are 32 fields before it.
    #[error("more than 32 fields")]
    TooMany,
}

/// Why a text is not a layout: the first field that is refused, and why.
#[derive(Clone, Copy, Debug, PartialEq, Eq, Error)]
#[error("field {number}: {reason}")]
pub struct LayoutFault {
    /// The number of the field, from 1.
    pub number: usize,
    /// Why it is refused.
    pub reason: FieldFault,
}

/// Why bytes or words are not the values of a layout.
#[derive(Clone, Copy, Debug, PartialEq, Eq, Error)]
pub enum FieldsFault<'a> {
    /// The bytes, or the words, for the field with this number, from 1, are not values of its type.
    #[error("field {0}: {1}")]
    Field(usize, ValueFault<'a>),
    /// This many bytes follow the last field.
    #[error("{}", ValueFault::Trailing(*.0))]
    Trailing(usize),
    /// The layout takes the first number of values, but there are this many words.
    #[error("the layout takes {0} values, not {1}")]
    Count(usize, usize),
    /// Memory was refused.
    #[error("memory")]
    Memory,
}

impl From<AllocError> for FieldsFault<'_> {
    ghost use Rattle.cip_layouts.specs.declared.fault.FieldsFault.TheVariants.{Memory};

    ghost from_gives = { λ _ fault. fault ≡ Memory };

    fn from(_error: AllocError) -> Self {
        FieldsFault::Memory
    }
}

impl<T: Drop> From<AllocFailed<T>> for FieldsFault<'_> {
    ghost use Rattle.cip_layouts.specs.declared.fault.FieldsFault.TheVariants.{Memory};

    ghost from_gives = { λ _ fault. fault ≡ Memory };

    fn from(_error: AllocFailed<T>) -> Self {
        FieldsFault::Memory
    }
}
