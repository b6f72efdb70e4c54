//! What is wrong with the own objects of a configuration whose keys each have a value of their type.

use crate::attribute_problems::{AttributeProblem, Described, attribute_problem};
use crate::finding::Untyped;
use crate::place::Place;
use crate::problem::{Located, Problem};
use attribute_types::AttributeType;
use cip_application::{
    ETHERNET_LINK, GET_RESULT, ObjectConfig, QUEUED_REPLY_LIMIT, ServiceConfig, ServiceKind,
    TCP_IP_INTERFACE,
};
use cip_objects::{Config, ConfigFault};
use std::alloc::AllocError;
use thiserror::Error;
use toml::Table;

/// What is wrong with an object: its class, its instance, its name, or how many objects there are.
#[derive(Clone, Copy, Debug, Error)]
pub(crate) enum ObjectProblem {
    #[error("class is 0 (allowed: 1 to 65535)")]
    NoClass,
    #[error("class {0:#04x} is one of the adapter's own")]
    TakenClass(u16),
    #[error("an object has instance 0, which is the class itself")]
    NoInstance,
    #[error("name has {0} bytes (allowed: 1 to 32, each from 0x20 to 0x7e)")]
    Name(usize),
    #[error("instance {1} of class {0:#04x} is defined twice")]
    Twice(u16, u16),
    #[error("there are {0} objects (allowed: up to 32)")]
    Count(usize),
}

/// What is wrong with a service, or how many services an object has.
#[derive(Clone, Copy, Debug, Error)]
pub(crate) enum ServiceProblem {
    #[error("number is {0} (allowed: 50 to 99)")]
    Number(u8),
    #[error("service {0:#04x} is defined twice")]
    Twice(u8),
    #[error("sizes are from {0} to {1}")]
    Falling(u16, u16),
    #[error("{0} is {1} (allowed: 0 to 480)")]
    Size(&'static str, u16),
    #[error("service {0:#04x} is Get_Result, which each object with a queued service has")]
    Result(u8),
    #[error("reply is {0} (allowed: 0 to 476 for a queued service)")]
    QueuedReply(u16),
    #[error("there are {0} services (allowed: up to 16)")]
    Count(usize),
    #[error("there are {0} services (allowed: up to 15 and Get_Result)")]
    CountWithResult(usize),
}

/// What is wrong with the first object at which a check fails: it passes with only the objects before it.
pub(crate) fn own_problem(
    text: &Table,
    config: Config,
    types: &[Vec<AttributeType>],
    untyped: Option<Untyped>,
    check: ConfigFault,
) -> Result<Option<Located<'static>>, AllocError> {
    let mut config = config;
    let count = config.objects.len();
    for _ in 0..count {
        let Some(last) = config.objects.pop() else {
            break;
        };
        if config.fault() != Some(check) {
            let index = config.objects.len();
            if last.standard {
                return Ok(Some(standard_problem(last.class, check, count)));
            }
            return match check {
                ConfigFault::Object => object_problem(config, last, count),
                ConfigFault::Attribute => {
                    Ok(Some(attributes_problem(text, index, &last, types.get(index), untyped)))
                }
                _ => Ok(service_problem(index, &last)),
            };
        }
    }
    Ok(None)
}

/// What is wrong with the object of a table `tcp_ip` or `ethernet_link`, or of the key `message_router`: with it, there
/// are too many objects, or their values are too large.
fn standard_problem(class: u16, check: ConfigFault, count: usize) -> Located<'static> {
    let problem = match check {
        ConfigFault::Object => Problem::Object(ObjectProblem::Count(count)),
        _ => Problem::Attribute(AttributeProblem::Total),
    };
    match class {
        TCP_IP_INTERFACE => Located::at_table(Place::Table("tcp_ip", 0), problem),
        ETHERNET_LINK => Located::at_table(Place::Table("ethernet_link", 0), problem),
        _ => Located::at_key(Place::Text, "message_router", problem),
    }
}

/// What is wrong with an object that is not allowed after those before it.
fn object_problem(
    before: Config,
    object: ObjectConfig,
    count: usize,
) -> Result<Option<Located<'static>>, AllocError> {
    let mut before = before;
    let place = Place::Table("object", before.objects.len());
    let (class, instance) = (object.class, object.instance);
    let is_twice = before
        .objects
        .iter()
        .any(|other| other.class == class && other.instance == instance);
    let name = match &object.name {
        Some(name) if is_bad_name(name.as_bytes()) => Some(name.len()),
        _ => None,
    };
    before.objects.clear();
    before.objects.push(object)?;
    let is_bad_alone = before.fault() == Some(ConfigFault::Object);
    let (key, about, problem) = match (class, instance, name) {
        (0, _, _) => ("class", place, ObjectProblem::NoClass),
        (_, 0, _) => ("instance", place, ObjectProblem::NoInstance),
        (_, _, Some(size)) => ("name", place, ObjectProblem::Name(size)),
        _ if is_bad_alone => ("class", place, ObjectProblem::TakenClass(class)),
        _ if is_twice => (
            "instance",
            Place::Text,
            ObjectProblem::Twice(class, instance),
        ),
        _ => ("class", Place::Text, ObjectProblem::Count(count)),
    };
    Ok(Some(Located::at_key(place, key, Problem::Object(problem)).about(about)))
}

/// Whether a name is empty, too long, or not printable.
fn is_bad_name(name: &[u8]) -> bool {
    name.is_empty() || name.len() > 32 || name.iter().any(|byte| *byte < 0x20 || *byte > 0x7e)
}

/// What is wrong with the attributes of an object.
fn attributes_problem(
    text: &Table,
    object: usize,
    config: &ObjectConfig,
    types: Option<&Vec<AttributeType>>,
    untyped: Option<Untyped>,
) -> Located<'static> {
    let place = Place::Table("object", object);
    let attributes = config.attributes.as_slice();
    if attributes.len() > 32 {
        let problem = AttributeProblem::Count(attributes.len());
        return Located::at_key(place, "attribute", Problem::Attribute(problem));
    }
    for (index, attribute) in attributes.iter().enumerate() {
        let part = Place::Part(object, "attribute", index);
        let is_twice = attributes[..index]
            .iter()
            .any(|other| other.number == attribute.number);
        if is_twice {
            let problem = AttributeProblem::Twice(attribute.number);
            return Located::at_key(part, "number", Problem::Attribute(problem)).about(place);
        }
        let described = Described {
            table: part.table_in(text),
            of_type: types.and_then(|types| types.get(index)).copied(),
            fault: match untyped {
                Some(untyped) if untyped.object == object && untyped.attribute == index => {
                    Some(untyped.fault)
                }
                _ => None,
            },
        };
        if let Some((key, problem)) = attribute_problem(described, attribute) {
            return Located::at_key(part, key, Problem::Attribute(problem));
        }
    }
    let problem = Problem::Attribute(AttributeProblem::Total);
    Located::at_key(place, "attribute", problem).about(Place::Text)
}

/// What is wrong with the services of an object.
fn service_problem(object: usize, config: &ObjectConfig) -> Option<Located<'static>> {
    let place = Place::Table("object", object);
    let services = described_services(config);
    if let Some(problem) = count_problem(config) {
        return Some(Located::at_key(place, "service", Problem::Service(problem)));
    }
    for (index, service) in services.iter().enumerate() {
        let part = Place::Part(object, "service", index);
        let is_twice = services[..index]
            .iter()
            .any(|other| other.number == service.number);
        if is_twice {
            let problem = Problem::Service(ServiceProblem::Twice(service.number));
            return Some(Located::at_key(part, "number", problem).about(place));
        }
        if let Some((key, problem)) = one_service_problem(service, has_result(config)) {
            let about = match problem {
                ServiceProblem::Result(_) => place,
                _ => part,
            };
            return Some(Located::at_key(part, key, Problem::Service(problem)).about(about));
        }
    }
    None
}

/// Whether an object has Get_Result, because it has a queued service. It is the last of the object's services.
fn has_result(object: &ObjectConfig) -> bool {
    object.services.iter().any(is_queued)
}

/// Whether a service is queued.
fn is_queued(service: &ServiceConfig) -> bool {
    matches!(service.kind, ServiceKind::Queued)
}

/// The services of an object that are described.
fn described_services(object: &ObjectConfig) -> &[ServiceConfig] {
    match object.services.as_slice().split_last() {
        Some((_, described)) if has_result(object) => described,
        _ => object.services.as_slice(),
    }
}

/// Whether an object has too many services.
fn count_problem(object: &ObjectConfig) -> Option<ServiceProblem> {
    if object.services.len() <= 16 {
        return None;
    }
    let count = described_services(object).len();
    if has_result(object) {
        Some(ServiceProblem::CountWithResult(count))
    } else {
        Some(ServiceProblem::Count(count))
    }
}

/// What is wrong with a service alone, and at which key. Its object may have Get_Result too.
fn one_service_problem(
    service: &ServiceConfig,
    has_result: bool,
) -> Option<(&'static str, ServiceProblem)> {
    let (least, most) = (service.least, service.most);
    if service.number < 50 || service.number > 99 {
        return Some(("number", ServiceProblem::Number(service.number)));
    }
    if most < least {
        return Some(("sizes", ServiceProblem::Falling(least, most)));
    }
    if most > 480 {
        let key = if least == most { "size" } else { "sizes" };
        return Some((key, ServiceProblem::Size("size", most)));
    }
    if is_queued(service) && usize::from(service.reply) > QUEUED_REPLY_LIMIT {
        return Some(("reply", ServiceProblem::QueuedReply(service.reply)));
    }
    if service.reply > 480 {
        return Some(("reply", ServiceProblem::Size("reply", service.reply)));
    }
    if has_result && service.number == GET_RESULT {
        return Some(("number", ServiceProblem::Result(service.number)));
    }
    None
}
