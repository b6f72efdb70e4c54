//! The section Params: the members of assemblies, and the attributes of own objects.

ghost use Rattle.std.specs.Prelude.{◌≡◌, IfOk, OnOk, ◌++◌, option_map, string_bytes};
ghost use Rattle.enip_eds.specs.Params.{IsAttributeAdded, IsNextParam, about_in, Attribute, assembly_params, attribute_step};
ghost use Rattle.enip_eds.specs.Params.{comment};
ghost use Rattle.enip_eds.specs.Params.{described_attribute, described_in, greatest_in, least_in, member_step};
ghost use Rattle.enip_eds.specs.Params.{object_params, own_attributes, type_at, types_at, zeros};
ghost use Rattle.enip_eds.specs.Steps.{Steps, written};

use crate::param::{Param, Subject, add_param, after};
use crate::types::bit_string;
use cip_application::{AttributeConfig, AttributeKind, ObjectConfig};
use cip_objects::AssemblyConfig;
use cip_values::ElementaryType;
use enip_config::AttributeType;
use std::alloc::{AllocError, Global};

/// Adds a Param for each member of these assemblies that has one, from this number on. Returns the next number.
pub(crate) fn add_assembly_params(
    alloc: Global,
    text: &mut String,
    first: u64,
    assemblies: &[AssemblyConfig],
) -> Result<u64, AllocError>
    ensures { IfOk result (λ next.
        Steps assembly_params (written first (string_bytes text.old)) assemblies.now (written next (string_bytes text.new))) }
{
    let mut number = first;
    for index in 0..assemblies.len() {
        let next = add_members(alloc, text, number, &assemblies[index])?;
        number = next;
    }
    Ok(number)
}

/// Adds a Param for each member of an assembly that has one, from this number on. Returns the next number.
fn add_members(
    alloc: Global,
    text: &mut String,
    first: u64,
    assembly: &AssemblyConfig,
) -> Result<u64, AllocError>
    ensures { IfOk result (λ next.
        Steps (member_step assembly.now) (written first (string_bytes text.old)) assembly.now.members.items
        (written next (string_bytes text.new))) }
{
    let members = assembly.members.as_slice();
    let mut number = first;
    for index in 0..members.len() {
        let next = add_member(alloc, text, number, assembly, index, members[index])?;
        number = next;
    }
    Ok(number)
}

/// Adds the Param of a member with this index, if it has one. Returns the next number.
fn add_member(
    alloc: Global,
    text: &mut String,
    number: u64,
    assembly: &AssemblyConfig,
    index: usize,
    size: u16,
) -> Result<u64, AllocError>
    ensures { IfOk result (λ next.
        member_step assembly.now index size (written number (string_bytes text.old)) (written next (string_bytes text.new))) }
{
    let Some(element) = bit_string(size) else {
        return Ok(number);
    };
    let member = after(index as u64)?;
    let param = Param {
        subject: Subject::Member {
            assembly: assembly.instance,
            member,
        },
        element,
        size: u64::from(size),
        settable: assembly.settable,
        least: None,
        greatest: None,
        start: zeros(size),
    };
    add_next(alloc, text, number, &param)
}

/// Adds a Param. Returns the next number.
fn add_next(
    alloc: Global,
    text: &mut String,
    number: u64,
    param: &Param<'_>,
) -> Result<u64, AllocError>
    ensures { IfOk result (λ next.
        IsNextParam (described_in param.now) (written number (string_bytes text.old)) (written next (string_bytes text.new))) }
{
    add_param(alloc, text, number, param)?;
    after(number)
}

/// The bytes of a member of this size at the start.
fn zeros(size: u16) -> &'static [u8]
    ensures { result.now ≡ zeros size }
{
    match size {
        1 => &[0],
        2 => &[0, 0],
        4 => &[0, 0, 0, 0],
        8 => &[0, 0, 0, 0, 0, 0, 0, 0],
        _ => &[],
    }
}

/// Adds a Param for each attribute of these objects that has one, from this number on. Returns the next number.
/// `types` has the types of the attributes of each object.
pub(crate) fn add_object_params(
    alloc: Global,
    text: &mut String,
    first: u64,
    objects: &[ObjectConfig],
    types: &[Vec<AttributeType>],
) -> Result<u64, AllocError>
    ensures { IfOk result (λ next.
        Steps (object_params types.now) (written first (string_bytes text.old)) objects.now (written next (string_bytes text.new))) }
{
    let mut number = first;
    for index in 0..objects.len() {
        let own = types_at(types, index);
        let next = add_attributes(alloc, text, number, &objects[index], own)?;
        number = next;
    }
    Ok(number)
}

/// The types of the attributes of the object with this index.
fn types_at(types: &[Vec<AttributeType>], index: usize) -> &[AttributeType]
    ensures { result.now ≡ types_at types.now index }
{
    match types.get(index) {
        Some(own) => own.as_slice(),
        None => &[],
    }
}

/// Adds a Param for each attribute of an object that has one, from this number on. Returns the next number.
fn add_attributes(
    alloc: Global,
    text: &mut String,
    first: u64,
    object: &ObjectConfig,
    types: &[AttributeType],
) -> Result<u64, AllocError>
    ensures { IfOk result (λ next.
        Steps (attribute_step object.now types.now) (written first (string_bytes text.old)) (own_attributes object.now)
        (written next (string_bytes text.new))) }
{
    let attributes = own_attributes(object);
    let mut number = first;
    for index in 0..attributes.len() {
        let of_type = type_at(types, index);
        let next = add_attribute(alloc, text, number, object, &attributes[index], of_type)?;
        number = next;
    }
    Ok(number)
}

/// The attributes of an object that can have a Param. The TCP/IP Interface and the Ethernet Link have none: a tool knows
/// them from the standard.
fn own_attributes(object: &ObjectConfig) -> &[AttributeConfig]
    ensures { result.now ≡ own_attributes object.now }
{
    if object.standard {
        return &[];
    }
    object.attributes.as_slice()
}

/// The type of the attribute with this index.
fn type_at(types: &[AttributeType], index: usize) -> AttributeType
    ensures { result ≡ type_at types.now index }
{
    match types.get(index) {
        Some(of_type) => *of_type,
        None => AttributeType::Bytes(0),
    }
}

/// Adds the Param of an attribute, or a comment if it has none. Returns the next number.
fn add_attribute(
    alloc: Global,
    text: &mut String,
    number: u64,
    object: &ObjectConfig,
    attribute: &AttributeConfig,
    of_type: AttributeType,
) -> Result<u64, AllocError>
    ensures { IfOk result (λ next.
        IsAttributeAdded object.now attribute.now of_type (written number (string_bytes text.old))
        (written next (string_bytes text.new))) }
{
    match of_type {
        AttributeType::One(element) => {
            let size = attribute.value.len() as u64;
            add_value(alloc, text, number, object, attribute, element, size)
        }
        AttributeType::ShortString(room) => {
            let size = u64::from(room) + 1;
            let element = ElementaryType::ShortString;
            add_value(alloc, text, number, object, attribute, element, size)
        }
        AttributeType::Array(..) | AttributeType::Bytes(_) => {
            add_comment(text, object, attribute)?;
            Ok(number)
        }
    }
}

/// Adds the Param of an attribute that has one value. Returns the next number.
fn add_value(
    alloc: Global,
    text: &mut String,
    number: u64,
    object: &ObjectConfig,
    attribute: &AttributeConfig,
    element: ElementaryType,
    size: u64,
) -> Result<u64, AllocError>
    ensures { IfOk result (λ next.
        IsNextParam (described_attribute object.now attribute.now element size) (written number (string_bytes text.old))
        (written next (string_bytes text.new))) }
{
    let param = Param {
        subject: subject_of(object, attribute.number),
        element,
        size,
        settable: attribute.settable,
        least: least_in(&attribute.kind),
        greatest: greatest_in(&attribute.kind),
        start: attribute.value.as_slice(),
    };
    add_next(alloc, text, number, &param)
}

/// An attribute of an object.
fn subject_of(object: &ObjectConfig, attribute: u16) -> Subject<'_>
    ensures { about_in result ≡ Attribute object.now.class object.now.instance attribute (option_map string_bytes object.now.name) }
{
    let name = match &object.name {
        Some(name) => Some(name.as_str()),
        None => None,
    };
    Subject::Attribute {
        class: object.class,
        instance: object.instance,
        attribute,
        name,
    }
}

/// The bits of the least number that a client can set, if the configuration has one.
fn least_in(kind: &AttributeKind) -> Option<u64>
    ensures { result ≡ least_in kind.now }
{
    match kind {
        AttributeKind::Fixed {
            range: Some(range),
            ..
        } => Some(range.least),
        AttributeKind::Fixed { range: None, .. } | AttributeKind::ShortString { .. } => None,
    }
}

/// The bits of the greatest number that a client can set, if the configuration has one.
fn greatest_in(kind: &AttributeKind) -> Option<u64>
    ensures { result ≡ greatest_in kind.now }
{
    match kind {
        AttributeKind::Fixed {
            range: Some(range),
            ..
        } => Some(range.greatest),
        AttributeKind::Fixed { range: None, .. } | AttributeKind::ShortString { .. } => None,
    }
}

/// Adds a comment for an attribute that has no Param.
fn add_comment(
    text: &mut String,
    object: &ObjectConfig,
    attribute: &AttributeConfig,
) -> Result<(), AllocError>
    ensures { OnOk result (string_bytes text.new ≡ string_bytes text.old ++ comment object.now attribute.now) }
{
    let (class, instance, number) = (object.class, object.instance, attribute.number);
    write!(
        text,
        "$ No Param: class {class}, instance {instance}, attribute {number} is an array.\n"
    )
}
