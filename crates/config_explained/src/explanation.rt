//! What is wrong with a refused configuration, as text, and the line with the fault.

ghost use Rattle.std.specs.Prelude.{◌≡◌};
ghost use Rattle.config_refusal.specs.declared.fault.ConfigurationRefusal.TheVariants.{NotToml};
ghost use Rattle.config_explained.specs.Explained.{fault_of, refusal_of};

use crate::lines::line_of;
use crate::problem::{Located, Problem};
use crate::subject::Subject;
use crate::text_problems::no_toml;
use config_refusal::{ConfigurationRefusal, LoadFault};
use std::alloc::Global;
use std::fmt;
use toml::Table;

/// A TOML document.
#[derive(Clone, Copy)]
pub struct Document<'a> {
    /// The text.
    pub bytes: &'a [u8],
    /// What the text says.
    pub table: &'a Table,
}

/// What is wrong with a refused configuration. It prints as one line of text: the line of the file, if known, the object,
/// the attribute or the service, if it is about one, and what is wrong there.
///
/// ```
/// fn load(alloc: Global, text: &[u8], reason: &mut String) -> Option<Configuration> {
///     match Configuration::explained(alloc, text) {
///         Ok(configuration) => Some(configuration),
///         Err(ExplainedFault::Refused(explanation)) => {
///             *reason = format!(in alloc; "{explanation}").ok()?;
///             None
///         }
///         Err(ExplainedFault::Memory) => None,
///     }
/// }
/// ```
pub struct Explanation {
    refusal: ConfigurationRefusal,
    line: Option<usize>,
    subject: Subject,
    problem: Problem,
}

// Written out, so that each exit of a function that owns one calls it, and has no drop of every part.
impl Drop for Explanation {
    fn drop(self) {
        let Explanation {
            refusal: _,
            line: _,
            subject: _,
            problem: _,
        } = self;
    }
}

impl Explanation {
    /// Why a text is not TOML, and in which line.
    pub fn of_text(bytes: &[u8], error: toml::de::Error) -> Explanation
        ensures { refusal_of result ≡ NotToml }
    {
        let (line, problem) = no_toml(bytes, error);
        Explanation {
            refusal: ConfigurationRefusal::NotToml,
            line,
            subject: Subject::nothing(),
            problem,
        }
    }

    /// Why a document is refused by this check. Without a problem the text is the number of the check.
    pub fn of_document(
        alloc: Global,
        document: Document<'_>,
        refusal: ConfigurationRefusal,
        located: Option<Located<'_>>,
    ) -> Explanation
        ensures { refusal_of result ≡ refusal }
    {
        let Some(located) = located else {
            return Explanation {
                refusal,
                line: None,
                subject: Subject::nothing(),
                problem: Problem::Check(refusal.number()),
            };
        };
        let (place, key) = (located.place, located.key);
        let line = if place.is_in(document.table, key) {
            line_of(alloc, document.bytes, place, key)
        } else {
            None
        };
        Explanation {
            refusal,
            line,
            subject: Subject::of(document.table, located.about),
            problem: located.into_problem(),
        }
    }

    /// The check that refuses the configuration.
    pub fn refusal(&self) -> ConfigurationRefusal
        ensures { result ≡ refusal_of self.now }
    {
        self.refusal
    }
}

impl fmt::Display for Explanation {
    fn fmt<W: fmt::Write>(&self, f: &mut fmt::Formatter<W>) -> fmt::Result {
        if let Some(line) = self.line {
            write!(f, "line {line}: ")?;
        }
        write!(f, "{}{}", self.subject, self.problem)
    }
}

/// Why a configuration could not be loaded.
#[derive(Drop)]
pub enum ExplainedFault {
    /// A check refuses it.
    Refused(Explanation),
    /// Out of memory.
    Memory,
}

impl ExplainedFault {
    /// The same without the explanation.
    pub fn fault(&self) -> LoadFault
        ensures { result ≡ fault_of self.now }
    {
        match self {
            ExplainedFault::Refused(explanation) => LoadFault::Refused(explanation.refusal()),
            ExplainedFault::Memory => LoadFault::Memory,
        }
    }
}
