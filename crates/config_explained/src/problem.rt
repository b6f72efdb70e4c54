//! What can be wrong with a configuration, and where it is.

use crate::attribute_problems::AttributeProblem;
use crate::list_problems::ListProblem;
use crate::missing_keys::MissingKeys;
use crate::own_problems::{ObjectProblem, ServiceProblem};
use crate::place::Place;
use thiserror::Error;
use toml::Value;

/// What is wrong with a configuration.
#[derive(Debug, Drop, Error)]
pub(crate) enum Problem {
    #[error("{}", .0.message())]
    NoToml(toml::de::Error),
    #[error("missing comma between array elements, expected `,` or `]`")]
    NoComma,
    #[error("unknown key {0}")]
    NoKey(String),
    #[error("unknown key {0} (did you mean {1}?)")]
    NearKey(String, &'static str),
    #[error("{0} contains keys (none allowed)")]
    Keys(String),
    #[error("{0}")]
    MissingKeys(MissingKeys),
    #[error("{0} is {1} (allowed: {2} to {3})")]
    Range(&'static str, i64, u64, u64),
    #[error("{0} is {1}, which is not an integer")]
    Float(&'static str, Value),
    #[error("{0} is not {1}")]
    Type(&'static str, &'static str),
    #[error("{0} has {1} bytes (allowed: up to {2}, each from 0x20 to 0x7e)")]
    Text(&'static str, usize, usize),
    #[error("{0} is neither true nor false")]
    Flag(&'static str),
    #[error("{0} and {1} exclude each other")]
    Exclude(&'static str, &'static str),
    #[error("name has {0} bytes (allowed: up to 32, each from 0x20 to 0x7e)")]
    Name(usize),
    #[error("there are {0} assemblies (allowed: up to 16)")]
    Assemblies(usize),
    #[error("assembly {0} has {1} bytes (allowed: 1 to 3900)")]
    Size(u16, u64),
    #[error("assembly {0} has {1} members (allowed: up to 64)")]
    Members(u16, usize),
    #[error("assembly {0} has a member of 0 bytes")]
    EmptyMember(u16),
    #[error("an assembly has instance 0, which is the class itself")]
    NoInstance,
    #[error("assembly {0} is defined twice")]
    Twice(u16),
    #[error("counter.value is {0}, but counter.limit is {1}")]
    Limit(u32, u32),
    #[error("{0}")]
    Object(ObjectProblem),
    #[error("{0}")]
    Attribute(AttributeProblem),
    #[error("{0}")]
    Service(ServiceProblem),
    #[error("{0}")]
    List(ListProblem),
    #[error("there is a table commands, but no service is queued")]
    NoQueuedService,
    /// The number of a check for which no other text was found.
    #[error("check {0} of the configuration fails")]
    Check(u8),
}

/// A problem at a key of a table, or at the table itself.
pub struct Located<'a> {
    pub(crate) place: Place,
    pub(crate) key: Option<&'a str>,
    /// The table whose object, attribute or service the text is about. The text itself has its number if this is another
    /// table than that of the key.
    pub(crate) about: Place,
    pub(crate) problem: Problem,
}

// Written out, so that each exit of a function that owns one calls it, and has no drop of every part.
impl Drop for Located<'_> {
    fn drop(self) {
        let Located {
            place: _,
            key: _,
            about: _,
            problem: _,
        } = self;
    }
}

impl<'a> Located<'a> {
    /// A problem at this key of a table.
    pub(crate) fn at_key(place: Place, key: &'a str, problem: Problem) -> Located<'a> {
        Located {
            place,
            key: Some(key),
            about: place,
            problem,
        }
    }

    /// A problem of a table.
    pub(crate) fn at_table(place: Place, problem: Problem) -> Located<'a> {
        Located {
            place,
            key: None,
            about: place,
            problem,
        }
    }

    /// The problem.
    pub(crate) fn into_problem(self) -> Problem {
        let Located {
            place: _,
            key: _,
            about: _,
            problem,
        } = self;
        problem
    }

    /// The same problem, whose text is about this table.
    pub(crate) fn about(self, about: Place) -> Located<'a> {
        let Located {
            place,
            key,
            about: _,
            problem,
        } = self;
        Located {
            place,
            key,
            about,
            problem,
        }
    }
}

/// What is wrong with the table `commands` if no service is queued.
pub fn unused_queue() -> Located<'static> {
    Located::at_table(Place::Table("commands", 0), Problem::NoQueuedService)
}
