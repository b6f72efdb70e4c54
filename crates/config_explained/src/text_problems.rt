//! What is wrong with a text that is not TOML, or that has an unknown key.

use crate::nearest_key::nearest_key;
use crate::place::Place;
use crate::problem::{Located, Problem};
use std::alloc::{AllocError, Global};

/// Why a text is not TOML, and the line of the error.
pub(crate) fn no_toml(bytes: &[u8], error: toml::de::Error) -> (Option<usize>, Problem) {
    let Some(span) = error.span() else {
        return (None, Problem::NoToml(error));
    };
    let line = Some(line_at(bytes, span.start));
    if is_two_elements(bytes, span.start) {
        return (line, Problem::NoComma);
    }
    (line, Problem::NoToml(error))
}

/// Whether two numbers without a comma between them are at an index, as elements of an array. TOML takes them for one
/// value, a date with a time.
fn is_two_elements(bytes: &[u8], place: usize) -> bool {
    let (before, rest) = bytes.split_at(place.min(bytes.len()));
    let is_in_array = matches!(before.trim_ascii_end().last(), Some(b'[' | b','));
    let digits = rest.iter().take_while(|byte| byte.is_ascii_digit()).count();
    let after = &rest[digits..];
    let next = after.trim_ascii_start();
    let is_apart = digits > 0 && next.len() < after.len();
    is_in_array && is_apart && next.first().is_some_and(|byte| byte.is_ascii_digit())
}

/// The line, from 1, of the byte at an index.
fn line_at(bytes: &[u8], place: usize) -> usize {
    let before = &bytes[..place.min(bytes.len())];
    before
        .iter()
        .filter(|byte| **byte == b'\n')
        .count()
        .saturating_add(1)
}

/// What is wrong with a key that a table must not have: it is unknown, or its value has keys. Without a key it is a value
/// in place of the table that has keys.
///
/// # Errors
///
/// `AllocError` if memory is refused.
pub fn unknown_key<'a>(
    alloc: Global,
    place: Place,
    key: Option<&'a str>,
    is_known: bool,
) -> Result<Located<'a>, AllocError> {
    let Some(key) = key else {
        let name = format!(in alloc; "{}", place.name())?;
        return Ok(Located::at_table(place, Problem::Keys(name)));
    };
    let (first, second, third) = place.prefix();
    let name = format!(in alloc; "{first}{second}{third}{key}")?;
    let problem = if is_known {
        Problem::Keys(name)
    } else {
        match nearest_key(alloc, place, key)? {
            Some(near) => Problem::NearKey(name, near),
            None => Problem::NoKey(name),
        }
    };
    Ok(Located::at_key(place, key, problem))
}
