//! What is wrong with a document that the reader refuses.

ghost use Rattle.enip_config.specs.Explained.{IsSameFault};

use crate::configuration::Configuration;
use crate::known::first_other_key;
use config_explained::{
    Document, ExplainedFault, Explanation, Finding, Located, bad_value, list_problem,
    object_problem, unknown_key, unused_queue,
};
use config_refusal::{ConfigurationRefusal, LoadFault};
use std::alloc::{AllocError, Global};
use toml::Table;

/// Why a document is refused: by this fault, and what is wrong where the reader was.
pub(crate) fn explained(
    alloc: Global,
    document: Document<'_>,
    fault: LoadFault,
    finding: &Finding,
) -> ExplainedFault
    ensures { IsSameFault fault result }
{
    let LoadFault::Refused(refusal) = fault else {
        return ExplainedFault::Memory;
    };
    match located(alloc, document.table, refusal, finding) {
        Ok(located) => ExplainedFault::Refused(Explanation::of_document(
            alloc, document, refusal, located,
        )),
        Err(AllocError) => ExplainedFault::Memory,
    }
}

/// What is wrong with a document, and where, by the check that refuses it.
fn located<'a>(
    alloc: Global,
    text: &'a Table,
    refusal: ConfigurationRefusal,
    finding: &Finding,
) -> Result<Option<Located<'a>>, AllocError> {
    match refusal {
        ConfigurationRefusal::NotToml => Ok(None),
        ConfigurationRefusal::UnknownKey => Ok(Some(other_key(alloc, text, finding)?)),
        ConfigurationRefusal::BadValue => Ok(bad_value(text, finding)),
        ConfigurationRefusal::Access => list_problem(alloc, text, finding),
        ConfigurationRefusal::Commands => Ok(Some(unused_queue())),
        _ => refused_objects(alloc, text),
    }
}

/// The key that the table where the reader was must not have.
fn other_key<'a>(
    alloc: Global,
    text: &'a Table,
    finding: &Finding,
) -> Result<Located<'a>, AllocError> {
    let place = finding.place();
    let Some(table) = place.table_in(text) else {
        return unknown_key(alloc, place, None, false);
    };
    match first_other_key(table, place) {
        Some((key, is_known)) => unknown_key(alloc, place, Some(key), is_known),
        None => unknown_key(alloc, place, None, false),
    }
}

/// What the objects refuse of the values, which are read again for it.
fn refused_objects(alloc: Global, text: &Table) -> Result<Option<Located<'static>>, AllocError> {
    let mut finding = Finding::new();
    let Ok(values) = Configuration::from_table(alloc, text, &mut finding) else {
        return Err(AllocError);
    };
    let (config, types) = values.into_objects_and_types();
    object_problem(text, config, &types, &finding)
}
