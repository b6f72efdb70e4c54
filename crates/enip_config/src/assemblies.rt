//! The assemblies of a configuration.

ghost use Rattle.std.specs.Prelude.{◌≡◌, IfOk, IfErr, Some, map};
ghost use Rattle.toml.specs.View.{view, items_view, table_view};
ghost use Rattle.attribute_types.specs.Values.{IsBadOrMemory, number_in};
ghost use Rattle.enip_config.specs.Keys.{each, sizes_of, assembly_in};
ghost use Rattle.enip_config.specs.Keys.{assemblies_of};
ghost use Rattle.enip_config.specs.Documents.{IsUnread, assembly_seen};

use crate::key::INSTANCE;
use crate::values::{flag_of, number_by};
use crate::width::Width;
use attribute_types::{BAD_VALUE, number_in, value_of};
use cip_objects::AssemblyConfig;
use config_explained::{Expected, Finding};
use config_refusal::LoadFault;
use std::alloc::Global;
use toml::{Table, Value};

/// Reads the assemblies, in the order of the file. Empty if the key is left out.
pub(crate) fn assemblies_of(
    alloc: Global,
    text: &Table,
    finding: &mut Finding,
) -> Result<Vec<AssemblyConfig>, LoadFault>
    ensures read { IfOk result (λ assemblies. assemblies_of (table_view text.now)
        ≡ Some (map assembly_seen assemblies.items)) }
    ensures refused { IfErr result (IsUnread (table_view text.now)) }
{
    finding.enter_text();
    finding.expect("assembly", Expected::Tables);
    match value_of(text, "assembly") {
        None => Ok(Vec::new(alloc)),
        Some(Value::Array(values)) => each_assembly(alloc, values.as_slice(), finding),
        Some(_) => Err(BAD_VALUE),
    }
}

/// Reads each value as an assembly.
fn each_assembly(
    alloc: Global,
    values: &[Value],
    finding: &mut Finding,
) -> Result<Vec<AssemblyConfig>, LoadFault>
    ensures read { IfOk result (λ assemblies. each assembly_in (items_view values.now)
        ≡ Some (map assembly_seen assemblies.items)) }
    ensures refused { IfErr result (IsBadOrMemory (each assembly_in (items_view values.now))) }
{
    let mut assemblies = Vec::new(alloc);
    finding.enter_table("assembly");
    for value in values {
        assemblies.push(assembly_of(alloc, value, finding)?)?;
        finding.enter_next();
    }
    Ok(assemblies)
}

/// Reads one table `assembly`.
fn assembly_of(
    alloc: Global,
    value: &Value,
    finding: &mut Finding,
) -> Result<AssemblyConfig, LoadFault>
    ensures read { IfOk result (λ assembly. assembly_in (view value.now) ≡ Some (assembly_seen assembly)) }
    ensures refused { IfErr result (IsBadOrMemory (assembly_in (view value.now))) }
{
    let Value::Table(table) = value else {
        return Err(BAD_VALUE);
    };
    Ok(AssemblyConfig {
        instance: number_by(table, INSTANCE, finding)?,
        settable: flag_of(table, "settable", false, finding)?,
        members: sizes_of(alloc, table, finding)?,
        lists: flag_of(table, "lists", false, finding)?,
    })
}

/// The sizes of an assembly's members, in bytes.
fn sizes_of(alloc: Global, table: &Table, finding: &mut Finding) -> Result<Vec<u16>, LoadFault>
    ensures read { IfOk result (λ sizes. sizes_of (table_view table.now) ≡ Some sizes.items) }
    ensures refused { IfErr result (IsBadOrMemory (sizes_of (table_view table.now))) }
{
    finding.expect("members", Expected::MemberSizes);
    match value_of(table, "members") {
        Some(Value::Array(values)) => each_size(alloc, values.as_slice()),
        _ => Err(BAD_VALUE),
    }
}

/// Reads each value as a size.
fn each_size(alloc: Global, values: &[Value]) -> Result<Vec<u16>, LoadFault>
    ensures read { IfOk result (λ sizes. each (number_in 0 0xffff) (items_view values.now) ≡ Some sizes.items) }
    ensures refused { IfErr result (IsBadOrMemory (each (number_in 0 0xffff) (items_view values.now))) }
{
    let mut sizes = Vec::new(alloc);
    for value in values {
        sizes.push(u16::of(number_in(value, 0, 0xffff)?))?;
    }
    Ok(sizes)
}
