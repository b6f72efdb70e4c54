//! What is wrong with the objects of a configuration whose values are each valid.

use crate::finding::Finding;
use crate::own_problems::own_problem;
use crate::place::Place;
use crate::problem::{Located, Problem};
use attribute_types::AttributeType;
use cip_objects::{AssemblyConfig, Config, ConfigFault};
use std::alloc::AllocError;
use toml::Table;

/// What the objects of a document refuse: the first check that fails. `types` has the types of the attributes of each own
/// object, and `finding` the first attribute without bytes of its type.
///
/// # Errors
///
/// `AllocError` if memory is refused.
pub fn object_problem(
    text: &Table,
    config: Config,
    types: &[Vec<AttributeType>],
    finding: &Finding,
) -> Result<Option<Located<'static>>, AllocError> {
    match config.fault() {
        None => Ok(None),
        Some(ConfigFault::Name) => Ok(Some(Located::at_key(
            Place::Text,
            "name",
            Problem::Name(config.name.len()),
        ))),
        Some(ConfigFault::Limit) => {
            let problem = Problem::Limit(config.counter.value, config.counter.limit);
            Ok(Some(Located::at_key(Place::Table("counter", 0), "value", problem)))
        }
        Some(check) if is_own(check) => own_problem(text, config, types, finding.untyped(), check),
        Some(check) => assembly_problem(config, check),
    }
}

/// Whether a check is about the own objects.
fn is_own(check: ConfigFault) -> bool {
    matches!(
        check,
        ConfigFault::Object | ConfigFault::Attribute | ConfigFault::Service
    )
}

/// The first assembly at which a check fails: the check passes with only those before it.
fn assembly_problem(
    config: Config,
    check: ConfigFault,
) -> Result<Option<Located<'static>>, AllocError> {
    let mut config = config;
    let count = config.assemblies.len();
    for _ in 0..count {
        let Some(last) = config.assemblies.pop() else {
            break;
        };
        if config.fault() != Some(check) {
            let place = Place::Table("assembly", config.assemblies.len());
            config.assemblies.clear();
            config.assemblies.push(last)?;
            let is_alone = config.fault() == Some(check);
            let Some(last) = config.assemblies.pop() else {
                break;
            };
            let problem = problem_with(&last, check, count, is_alone);
            return Ok(Some(Located::at_key(place, key_of(check), problem)));
        }
    }
    Ok(None)
}

/// The key of an assembly that a check is about.
fn key_of(check: ConfigFault) -> &'static str {
    match check {
        ConfigFault::DoubleInstance => "instance",
        _ => "members",
    }
}

/// What is wrong with an assembly, if the check fails for it alone, or only together with those before it.
fn problem_with(
    assembly: &AssemblyConfig,
    check: ConfigFault,
    count: usize,
    is_alone: bool,
) -> Problem {
    let instance = assembly.instance;
    let sizes = assembly.members.as_slice();
    match check {
        ConfigFault::Size if is_alone => {
            let size = sizes
                .iter()
                .fold(0u64, |sum, size| sum.saturating_add(u64::from(*size)));
            Problem::Size(instance, size)
        }
        ConfigFault::Size => Problem::Assemblies(count),
        ConfigFault::Members if sizes.contains(&0) => Problem::EmptyMember(instance),
        ConfigFault::Members => Problem::Members(instance, sizes.len()),
        _ if is_alone => Problem::NoInstance,
        _ => Problem::Twice(instance),
    }
}
