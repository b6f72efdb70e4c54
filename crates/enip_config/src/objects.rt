//! The own objects of a configuration, with their attributes and services.
//! Text: docs/PROGRAM.md, "The configuration".

ghost use Rattle.std.specs.Prelude.{◌≡◌, IfOk, IfErr, Some, map, option_map, string_bytes};
ghost use Rattle.toml.specs.Data.{array};
ghost use Rattle.toml.specs.View.{view, items_view, table_view};
ghost use Rattle.attribute_types.specs.Values.{IsBad, IsBadOrMemory, number_in};
ghost use Rattle.enip_config.specs.Keys.{each};
ghost use Rattle.enip_config.specs.Objects.{objects_of, object_in, object_seen, object_name};
ghost use Rattle.enip_config.specs.Objects.{attributes_of, attribute_in, attribute_seen};
ghost use Rattle.enip_config.specs.Objects.{services_of, described_services, service_in, service_seen, kind_by};
ghost use Rattle.enip_config.specs.Objects.{sizes_from, two_sizes};

use crate::commands::has_queued_service;
use crate::key::{ATTRIBUTE_NUMBER, CLASS, INSTANCE, REPLY, SERVICE_NUMBER};
use crate::values::{flag_of, number_by};
use crate::width::Width;
use attribute_types::{BAD_VALUE, number_in, typed_in, value_of};
use cip_application::{
    AttributeConfig, GET_RESULT, ObjectConfig, QUEUED_REPLY_LIMIT, ServiceConfig, ServiceKind,
};
use config_explained::{Expected, Finding};
use config_refusal::LoadFault;
use std::alloc::Global;
use toml::{Table, Value};

/// The bytes of a ticket, which are the data of Get_Result.
const TICKET_SIZE: u16 = 4;

/// The state and the status before the data in a reply of Get_Result.
const RESULT_HEAD: u16 = 2;

/// Get_Result, which an object with a queued service has too.
const RESULT_SERVICE: ServiceConfig = ServiceConfig {
    number: GET_RESULT,
    least: TICKET_SIZE,
    most: TICKET_SIZE,
    reply: RESULT_HEAD + QUEUED_REPLY_LIMIT as u16,
    kind: ServiceKind::Result,
};

/// Reads the own objects, in the order of the file. Empty if the key is left out.
pub(crate) fn objects_of(
    alloc: Global,
    text: &Table,
    finding: &mut Finding,
) -> Result<Vec<ObjectConfig>, LoadFault>
    ensures read { IfOk result (λ objects. objects_of (table_view text.now) ≡ Some (map object_seen objects.items)) }
    ensures refused { IfErr result (IsBadOrMemory (objects_of (table_view text.now))) }
{
    finding.enter_text();
    finding.expect("object", Expected::Tables);
    match value_of(text, "object") {
        None => Ok(Vec::new(alloc)),
        Some(Value::Array(values)) => each_object(alloc, values.as_slice(), finding),
        Some(_) => Err(BAD_VALUE),
    }
}

/// Reads each value as an object.
fn each_object(
    alloc: Global,
    values: &[Value],
    finding: &mut Finding,
) -> Result<Vec<ObjectConfig>, LoadFault>
    ensures read { IfOk result (λ objects. each object_in (items_view values.now)
        ≡ Some (map object_seen objects.items)) }
    ensures refused { IfErr result (IsBadOrMemory (each object_in (items_view values.now))) }
{
    let mut objects = Vec::new(alloc);
    finding.enter_table("object");
    for value in values {
        objects.push(object_of(alloc, value, finding)?)?;
        finding.enter_object();
        finding.enter_next();
    }
    Ok(objects)
}

/// Reads one table `object`.
fn object_of(alloc: Global, value: &Value, finding: &mut Finding) -> Result<ObjectConfig, LoadFault>
    ensures read { IfOk result (λ object. object_in (view value.now) ≡ Some (object_seen object)) }
    ensures refused { IfErr result (IsBadOrMemory (object_in (view value.now))) }
{
    let Value::Table(table) = value else {
        return Err(BAD_VALUE);
    };
    Ok(ObjectConfig {
        class: number_by(table, CLASS, finding)?,
        instance: number_by(table, INSTANCE, finding)?,
        standard: false,
        name: name_of(table, finding)?,
        lists: flag_of(table, "lists", false, finding)?,
        attributes: attributes_of(alloc, table, finding)?,
        services: services_of(alloc, table, finding)?,
    })
}

/// The name of an object, if it has one.
fn name_of(table: &Table, finding: &mut Finding) -> Result<Option<String>, LoadFault>
    ensures read { IfOk result (λ name. object_name (table_view table.now) ≡ Some (option_map string_bytes name)) }
    ensures refused { IfErr result (IsBadOrMemory (object_name (table_view table.now))) }
{
    finding.expect("name", Expected::String);
    match value_of(table, "name") {
        None => Ok(None),
        Some(Value::String(name)) => Ok(Some(name.clone()?)),
        Some(_) => Err(BAD_VALUE),
    }
}

/// Reads the attributes of an object, in the order of the file. Empty if the key is left out.
fn attributes_of(
    alloc: Global,
    table: &Table,
    finding: &mut Finding,
) -> Result<Vec<AttributeConfig>, LoadFault>
    ensures read { IfOk result (λ attributes. attributes_of (table_view table.now)
        ≡ Some (map attribute_seen attributes.items)) }
    ensures refused { IfErr result (IsBadOrMemory (attributes_of (table_view table.now))) }
{
    finding.expect("attribute", Expected::Tables);
    match value_of(table, "attribute") {
        None => Ok(Vec::new(alloc)),
        Some(Value::Array(values)) => each_attribute(alloc, values.as_slice(), finding),
        Some(_) => Err(BAD_VALUE),
    }
}

/// Reads each value as an attribute.
fn each_attribute(
    alloc: Global,
    values: &[Value],
    finding: &mut Finding,
) -> Result<Vec<AttributeConfig>, LoadFault>
    ensures read { IfOk result (λ attributes. each attribute_in (items_view values.now)
        ≡ Some (map attribute_seen attributes.items)) }
    ensures refused { IfErr result (IsBadOrMemory (each attribute_in (items_view values.now))) }
{
    let mut attributes = Vec::new(alloc);
    finding.enter_part("attribute");
    for value in values {
        attributes.push(attribute_of(alloc, value, finding)?)?;
        finding.enter_next();
    }
    Ok(attributes)
}

/// Reads one table `object.attribute`.
fn attribute_of(
    alloc: Global,
    value: &Value,
    finding: &mut Finding,
) -> Result<AttributeConfig, LoadFault>
    ensures read { IfOk result (λ attribute. attribute_in (view value.now) ≡ Some (attribute_seen attribute)) }
    ensures refused { IfErr result (IsBadOrMemory (attribute_in (view value.now))) }
{
    let Value::Table(table) = value else {
        return Err(BAD_VALUE);
    };
    let number = number_by(table, ATTRIBUTE_NUMBER, finding)?;
    let settable = flag_of(table, "settable", false, finding)?;
    let checked = flag_of(table, "checked", false, finding)?;
    finding.expect("type", Expected::String);
    let mut fault = None;
    let typed = typed_in(alloc, table, &mut fault)?;
    finding.add_type(fault);
    Ok(AttributeConfig {
        number,
        kind: typed.kind,
        settable,
        checked,
        value: typed.value,
    })
}

/// Reads the own services of an object. If one of them is queued, Get_Result is added.
#[tactic(auto, using(crate::proofs::CommandLemmas::without_queued, crate::proofs::CommandLemmas::with_queued, crate::proofs::CommandLemmas::bad_services))]
fn services_of(
    alloc: Global,
    table: &Table,
    finding: &mut Finding,
) -> Result<Vec<ServiceConfig>, LoadFault>
    ensures read { IfOk result (λ services. services_of (table_view table.now)
        ≡ Some (map service_seen services.items)) }
    ensures refused { IfErr result (IsBadOrMemory (services_of (table_view table.now))) }
{
    let mut services = described_services(alloc, table, finding)?;
    if !has_queued_service(&services) {
        return Ok(services);
    }
    services.push(RESULT_SERVICE)?;
    Ok(services)
}

/// Reads the services that are described, in the order of the file. Empty if the key is left out.
fn described_services(
    alloc: Global,
    table: &Table,
    finding: &mut Finding,
) -> Result<Vec<ServiceConfig>, LoadFault>
    ensures read { IfOk result (λ services. described_services (table_view table.now)
        ≡ Some (map service_seen services.items)) }
    ensures refused { IfErr result (IsBadOrMemory (described_services (table_view table.now))) }
{
    finding.enter_object();
    finding.expect("service", Expected::Tables);
    match value_of(table, "service") {
        None => Ok(Vec::new(alloc)),
        Some(Value::Array(values)) => each_service(alloc, values.as_slice(), finding),
        Some(_) => Err(BAD_VALUE),
    }
}

/// Reads each value as a service.
fn each_service(
    alloc: Global,
    values: &[Value],
    finding: &mut Finding,
) -> Result<Vec<ServiceConfig>, LoadFault>
    ensures read { IfOk result (λ services. each service_in (items_view values.now)
        ≡ Some (map service_seen services.items)) }
    ensures refused { IfErr result (IsBadOrMemory (each service_in (items_view values.now))) }
{
    let mut services = Vec::new(alloc);
    finding.enter_part("service");
    for value in values {
        services.push(service_of(value, finding)?)?;
        finding.enter_next();
    }
    Ok(services)
}

/// Reads one table `object.service`.
fn service_of(value: &Value, finding: &mut Finding) -> Result<ServiceConfig, LoadFault>
    ensures read { IfOk result (λ service. service_in (view value.now) ≡ Some (service_seen service)) }
    ensures refused { IfErr result (IsBad (service_in (view value.now))) }
{
    let Value::Table(table) = value else {
        return Err(BAD_VALUE);
    };
    let number = number_by(table, SERVICE_NUMBER, finding)?;
    finding.expect("size", Expected::Sizes);
    let (least, most) = sizes_from(value_of(table, "size"), value_of(table, "sizes"))?;
    let reply = number_by(table, REPLY, finding)?;
    let kind = kind_by(table, finding)?;
    Ok(ServiceConfig {
        number,
        least,
        most,
        reply,
        kind,
    })
}

/// How a service is executed, by its key `queued`.
fn kind_by(table: &Table, finding: &mut Finding) -> Result<ServiceKind, LoadFault>
    ensures read { IfOk result (λ kind. kind_by (table_view table.now) ≡ Some kind) }
    ensures refused { IfErr result (IsBad (kind_by (table_view table.now))) }
{
    if flag_of(table, "queued", false, finding)? {
        Ok(ServiceKind::Queued)
    } else {
        Ok(ServiceKind::Asked)
    }
}

/// The least and the greatest size of a service's data, by its key `size` or `sizes`.
fn sizes_from(size: Option<&Value>, sizes: Option<&Value>) -> Result<(u16, u16), LoadFault>
    ensures read { IfOk result (λ found. sizes_from (option_map (λ v. view v.now) size.entry)
        (option_map (λ v. view v.now) sizes.entry) ≡ Some (found.0, found.1)) }
    ensures refused { IfErr result (IsBad (sizes_from (option_map (λ v. view v.now) size.entry)
        (option_map (λ v. view v.now) sizes.entry))) }
{
    match (size, sizes) {
        (Some(size), None) => {
            let size = size_of(size)?;
            Ok((size, size))
        }
        (None, Some(Value::Array(sizes))) => two_sizes(sizes.as_slice()),
        _ => Err(BAD_VALUE),
    }
}

/// Reads two values as sizes.
fn two_sizes(values: &[Value]) -> Result<(u16, u16), LoadFault>
    ensures read { IfOk result (λ sizes. two_sizes (array (items_view values.now)) ≡ Some (sizes.0, sizes.1)) }
    ensures refused { IfErr result (IsBad (two_sizes (array (items_view values.now)))) }
{
    let [least, most] = values else {
        return Err(BAD_VALUE);
    };
    Ok((size_of(least)?, size_of(most)?))
}

/// Reads a value as a size.
fn size_of(value: &Value) -> Result<u16, LoadFault>
    ensures read { IfOk result (λ n. number_in 0 0xffff (view value.now) ≡ Some n) }
    ensures refused { IfErr result (IsBad (number_in 0 0xffff (view value.now))) }
{
    Ok(u16::of(number_in(value, 0, 0xffff)?))
}
