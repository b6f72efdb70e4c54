//! What is wrong with a list of the table `access` of a configuration.

use crate::finding::Finding;
use crate::problem::{Located, Problem};
use enip_access::{LONGEST_LIST, Prefix, PrefixFault};
use std::alloc::{AllocError, Global};
use std::fmt;
use thiserror::Error;
use toml::{Table, Value};

/// What is wrong with a list of rules. Each has the name of the list.
#[derive(Drop, Error)]
pub(crate) enum ListProblem {
    #[error("{0} is not an array of addresses and prefixes")]
    NoArray(&'static str),
    #[error("{0} has {1} rules (allowed: up to 64)")]
    Count(&'static str, usize),
    #[error("a rule in {0} is not a string, such as \"10.0.0.0/8\"")]
    NoText(&'static str),
    #[error("{1} in {0} is neither an address nor a prefix, such as 10.0.0.0/8")]
    NoAddress(&'static str, String),
    #[error("{1} in {0} has a prefix length that is not a number from 0 to 32 (IPv4) or from 0 to 128 (IPv6)")]
    Length(&'static str, String),
    #[error("{1} in {0} has bits after the prefix (did you mean {2}?)")]
    HostBits(&'static str, String, Prefix),
}

// As the text, since nothing prints it otherwise.
impl fmt::Debug for ListProblem {
    fn fmt<W: fmt::Write>(&self, f: &mut fmt::Formatter<W>) -> fmt::Result {
        write!(f, "{self}")
    }
}

/// What is wrong with the list of the table `access` that the reader of a document refused.
///
/// # Errors
///
/// `AllocError` if memory is refused.
pub fn list_problem(
    alloc: Global,
    text: &Table,
    finding: &Finding,
) -> Result<Option<Located<'static>>, AllocError> {
    let place = finding.place();
    let (key, _) = finding.key();
    let Some(value) = place.table_in(text).and_then(|table| table.get(key)) else {
        return Ok(None);
    };
    match problem_of(alloc, key, value)? {
        Some(problem) => Ok(Some(Located::at_key(place, key, Problem::List(problem)))),
        None => Ok(None),
    }
}

/// What is wrong with a list.
fn problem_of(
    alloc: Global,
    name: &'static str,
    value: &Value,
) -> Result<Option<ListProblem>, AllocError> {
    let Value::Array(values) = value else {
        return Ok(Some(ListProblem::NoArray(name)));
    };
    for value in values.as_slice() {
        let Value::String(text) = value else {
            return Ok(Some(ListProblem::NoText(name)));
        };
        if let Err(fault) = Prefix::parse(text.as_bytes()) {
            let text = text.clone()?;
            return Ok(Some(match fault {
                PrefixFault::Address => ListProblem::NoAddress(name, text),
                PrefixFault::Length => ListProblem::Length(name, text),
                PrefixFault::HostBits(meant) => ListProblem::HostBits(name, text, meant),
            }));
        }
    }
    if values.len() > LONGEST_LIST {
        return Ok(Some(ListProblem::Count(name, values.len())));
    }
    Ok(None)
}
