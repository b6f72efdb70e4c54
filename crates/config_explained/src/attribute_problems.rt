//! What is wrong with an attribute of an own object whose keys each have a value of their type.

use attribute_types::{AttributeType, TypedFault, number_type, width_of};
use cip_application::{AttributeConfig, AttributeKind, SetFault};
use cip_values::ElementaryType;
use thiserror::Error;
use toml::Table;

/// What is wrong with an attribute, how many attributes an object has, or how many bytes all values have.
#[derive(Clone, Copy, Debug, Error)]
pub(crate) enum AttributeProblem {
    #[error("number is 0 (allowed: 1 to 65535)")]
    NoNumber,
    #[error("attribute {0} is defined twice")]
    Twice(u16),
    #[error("there are {0} attributes (allowed: up to 32)")]
    Count(usize),
    #[error("type is not one such as UINT, UINT[4], SHORT_STRING[32] or BYTES[12]")]
    NoType,
    #[error("{0} is not of type {1}")]
    Value(&'static str, AttributeType),
    #[error("{0} has no numbers for min and max")]
    NoNumbers(AttributeType),
    #[error("a value of type {0} has {1} bytes (allowed: 1 to 500)")]
    Size(AttributeType, u16),
    #[error("min is over max, or not a number")]
    Range,
    #[error("value has {0} bytes, but {1} has {2}")]
    ValueSize(usize, AttributeType, u16),
    #[error("value is longer than {0}")]
    TooLong(AttributeType),
    #[error("value is not from min to max")]
    OutOfRange,
    #[error("value is missing, and 0 is not from min to max")]
    NoValue,
    #[error("the values of all objects have over 16384 bytes")]
    Total,
}

/// An attribute as the document describes it.
#[derive(Clone, Copy)]
pub(crate) struct Described<'a> {
    pub(crate) table: Option<&'a Table>,
    pub(crate) of_type: Option<AttributeType>,
    /// Why it has no bytes of its type.
    pub(crate) fault: Option<TypedFault>,
}

impl Described<'_> {
    fn has(&self, key: &str) -> bool {
        self.table.is_some_and(|table| table.get(key).is_some())
    }
}

/// What is wrong with an attribute, and at which key.
pub(crate) fn attribute_problem(
    described: Described<'_>,
    attribute: &AttributeConfig,
) -> Option<(&'static str, AttributeProblem)> {
    if attribute.number == 0 {
        return Some(("number", AttributeProblem::NoNumber));
    }
    if let Some(TypedFault::NoType) = described.fault {
        return Some(("type", AttributeProblem::NoType));
    }
    let of_type = described.of_type?;
    let size = of_type.fixed_size();
    if size == 0 || size > 500 {
        return Some(("type", AttributeProblem::Size(of_type, size)));
    }
    match described.fault {
        Some(TypedFault::NoNumbers) => {
            let key = if described.has("min") { "min" } else { "max" };
            Some((key, AttributeProblem::NoNumbers(of_type)))
        }
        Some(TypedFault::Least) => Some(("min", AttributeProblem::Value("min", of_type))),
        Some(TypedFault::Greatest) => Some(("max", AttributeProblem::Value("max", of_type))),
        Some(TypedFault::Value) => Some(("value", AttributeProblem::Value("value", of_type))),
        Some(TypedFault::NoType) | None => bad_value(of_type, described, attribute),
    }
}

/// The elementary type of a type's values, if these are numbers.
fn element_of(of_type: AttributeType) -> Option<ElementaryType> {
    match of_type {
        AttributeType::One(element) | AttributeType::Array(element, _)
            if number_type(element).is_some() => { Some(element) }
        _ => None,
    }
}

/// What is wrong with the value of an attribute, and at which key.
fn bad_value(
    of_type: AttributeType,
    described: Described<'_>,
    attribute: &AttributeConfig,
) -> Option<(&'static str, AttributeProblem)> {
    if has_falling_range(of_type, attribute.kind) {
        let key = if described.has("min") { "min" } else { "max" };
        return Some((key, AttributeProblem::Range));
    }
    let value = attribute.value.as_slice();
    match attribute.kind.check(value) {
        Ok(()) => None,
        Err(SetFault::InvalidAttributeValue) => match of_type {
            AttributeType::ShortString(_) => Some(("value", AttributeProblem::TooLong(of_type))),
            _ if described.has("value") => Some(("value", AttributeProblem::OutOfRange)),
            _ => Some(("number", AttributeProblem::NoValue)),
        },
        Err(_) => {
            let size = of_type.fixed_size();
            Some((
                "value",
                AttributeProblem::ValueSize(value.len(), of_type, size),
            ))
        }
    }
}

/// Whether the bounds of a kind's range do not rise: the least number is not in the range.
fn has_falling_range(of_type: AttributeType, kind: AttributeKind) -> bool {
    let AttributeKind::Fixed {
        range: Some(range),
        ..
    } = kind
    else {
        return false;
    };
    let Some(element) = element_of(of_type) else {
        return false;
    };
    let size = width_of(element);
    let one = AttributeKind::Fixed {
        size,
        range: Some(range),
    };
    one.check(&range.least.to_le_bytes()[..usize::from(size)])
        .is_err()
}
