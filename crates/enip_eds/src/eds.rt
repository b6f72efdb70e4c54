//! The text of an EDS: its sections.

ghost use Rattle.std.specs.Prelude.{◌≡◌, ◌++◌, codes, sum, IfOk, OnOk, string_bytes};
ghost use Rattle.enip_eds.specs.Eds.{IsAssemblyAdded, IsEds, assembly_fields, assembly_heading, assembly_step, head, icon_entries};
ghost use Rattle.enip_eds.specs.Eds.{file_section, kind_entries, member_fields, number_after, product_entries};
ghost use Rattle.enip_eds.specs.Eds.{reference, reference_step, tail};
ghost use Rattle.enip_eds.specs.Steps.{Steps, written};
ghost use Rattle.enip_eds.specs.Types.{bit_string};

use crate::device_types::{DeviceTypeField, device_type_name};
use crate::icon::Icon;
use crate::param::after;
use crate::params::{add_assembly_params, add_object_params};
use crate::texts::{AttributePath, DateText, Quoted};
use crate::types::bit_string;
use base64::engine::general_purpose::STANDARD;
use cip_bytes::protocol::ASSEMBLY;
use cip_objects::{AssemblyConfig, Config};
use cip_values::{Date, ElementaryType};
use enip_config::Configuration;
use std::alloc::{AllocError, Global};
use std::fmt;

/// What an EDS is written from.
///
/// ```
/// let source = EdsSource { configuration: &configuration, date: Date { year: 2026, month: 11, day: 29 }, icon: None };
/// ```
#[derive(Clone, Copy, Debug)]
pub struct EdsSource<'a> {
    /// The device.
    pub configuration: &'a Configuration,
    /// The day on which the EDS is made.
    pub date: Date,
    /// The icon of the device, if it has one.
    pub icon: Option<Icon<'a>>,
}

/// The text of the EDS of a device. It has lines of printable ASCII.
///
/// ```
/// let text = eds_text(alloc, &source)?;
/// output.write_all(text.as_bytes())?;
/// ```
///
/// # Errors
///
/// `AllocError` if memory is refused.
pub fn eds_text(alloc: Global, source: &EdsSource<'_>) -> Result<String, AllocError>
    ensures { IfOk result (λ text. IsEds source.now (string_bytes text)) }
{
    let configuration = source.configuration;
    let objects = &configuration.objects;
    let mut text = head_text(alloc, source)?;
    let members_end = add_assembly_params(alloc, &mut text, 1, &objects.assemblies)?;
    add_object_params(
        alloc,
        &mut text,
        members_end,
        &objects.objects,
        &configuration.attribute_types,
    )?;
    add_assembly_heading(&mut text)?;
    add_assemblies(&mut text, 1, &objects.assemblies)?;
    add_tail(&mut text, configuration.connections)?;
    Ok(text)
}

/// Everything before the Params.
fn head_text(alloc: Global, source: &EdsSource<'_>) -> Result<String, AllocError>
    ensures { IfOk result (λ text. string_bytes text ≡ head source.now) }
{
    let objects = &source.configuration.objects;
    let mut text = String::new(alloc);
    add_file(&mut text, source)?;
    add_kind(&mut text, objects)?;
    add_product(&mut text, objects)?;
    add_icon(alloc, &mut text, source.icon)?;
    text.push_str("\n[Device Classification]\n        Class1 = EtherNetIP;\n")?;
    Ok(text)
}

/// Adds the first lines and the section File.
fn add_file(text: &mut String, source: &EdsSource<'_>) -> Result<(), AllocError>
    ensures { OnOk result (string_bytes text.new ≡ string_bytes text.old ++ file_section source.now) }
{
    let date = DateText(source.date);
    let name = Quoted(source.configuration.objects.name.as_bytes());
    write!(
        text,
        "$ Electronic data sheet, written by enip eds\n\n[File]\n        DescText = {name};\n        \
         CreateDate = {date};\n        CreateTime = 00:00:00;\n        ModDate = {date};\n        \
         ModTime = 00:00:00;\n        Revision = 1.0;\n"
    )
}

/// Adds the beginning of the section Device: who made the device, and what it is.
fn add_kind(text: &mut String, objects: &Config) -> Result<(), AllocError>
    ensures { OnOk result (string_bytes text.new ≡ string_bytes text.old ++ kind_entries objects.now) }
{
    let (vendor, device_type) = (objects.vendor, objects.device_type);
    let name = device_type_name(device_type);
    write!(
        text,
        "\n[Device]\n        VendCode = {vendor};\n        VendName = \"Vendor {vendor}\";\n        \
         ProdType = {device_type};\n        ProdTypeStr = {};\n",
        DeviceTypeField { name, device_type }
    )
}

/// Adds the rest of the section Device: which product it is.
fn add_product(text: &mut String, objects: &Config) -> Result<(), AllocError>
    ensures { OnOk result (string_bytes text.new ≡ string_bytes text.old ++ product_entries objects.now) }
{
    let (code, major, minor) = (objects.product_code, objects.major, objects.minor);
    let name = Quoted(objects.name.as_bytes());
    write!(
        text,
        "        ProdCode = {code};\n        MajRev = {major};\n        MinRev = {minor};\n        \
         ProdName = {name};\n"
    )
}

/// Adds the icon, if there is one.
fn add_icon(alloc: Global, text: &mut String, icon: Option<Icon<'_>>) -> Result<(), AllocError>
    ensures { OnOk result (string_bytes text.new ≡ string_bytes text.old ++ icon_entries icon.entry) }
{
    let Some(icon) = icon else {
        return Ok(());
    };
    let name = Quoted(icon.name);
    let contents = STANDARD.encode(alloc, icon.bytes)?;
    write!(
        text,
        "        Icon = {name};\n        IconContents = \"{contents}\";\n"
    )
}

/// Adds the beginning of the section Assembly.
fn add_assembly_heading(text: &mut String) -> Result<(), AllocError>
    ensures { OnOk result (string_bytes text.new ≡ string_bytes text.old ++ assembly_heading) }
{
    text.push_str(
        "\n[Assembly]\n        Object_Name = \"Assembly Object\";\n        Object_Class_Code = 0x04;\n",
    )
}

/// Adds the assemblies. Their members refer to the Params from this number on.
fn add_assemblies(
    text: &mut String,
    first: u64,
    assemblies: &[AssemblyConfig],
) -> Result<u64, AllocError>
    ensures { IfOk result (λ next.
        Steps assembly_step (written first (string_bytes text.old)) assemblies.now (written next (string_bytes text.new))) }
{
    let mut number = first;
    for index in 0..assemblies.len() {
        let next = add_assembly(text, number, &assemblies[index])?;
        number = next;
    }
    Ok(number)
}

/// Adds an assembly. Its members refer to the Params from this number on. Returns the number after them.
fn add_assembly(
    text: &mut String,
    number: u64,
    assembly: &AssemblyConfig,
) -> Result<u64, AllocError>
    ensures { IfOk result (λ next.
        IsAssemblyAdded assembly.now (written number (string_bytes text.old)) (written next (string_bytes text.new))) }
{
    add_fields(text, assembly)?;
    let next = add_references(text, number, &assembly.members)?;
    text.push_str(";\n")?;
    Ok(next)
}

/// Adds the fields of an assembly before its members.
fn add_fields(text: &mut String, assembly: &AssemblyConfig) -> Result<(), AllocError>
    ensures { OnOk result (string_bytes text.new ≡ string_bytes text.old ++ assembly_fields assembly.now) }
{
    let instance = assembly.instance;
    let size = size_of(&assembly.members)?;
    let path = AttributePath {
        class: ASSEMBLY,
        instance,
        attribute: 3,
    };
    write!(
        text,
        "        Assem{instance} =\n                \"Assembly {instance}\",\n                {path},\n                \
         {size},\n                0x0000,\n                ,"
    )
}

/// The bytes of members of these sizes. There is no memory for more than 64 bits can count.
fn size_of(members: &[u16]) -> Result<u64, AllocError>
    ensures { IfOk result (λ size. size ≡ sum members.now) }
{
    let mut size: u64 = 0;
    for member in members {
        let Some(more) = size.checked_add(u64::from(*member)) else {
            return Err(AllocError);
        };
        size = more;
    }
    Ok(size)
}

/// Adds the members of an assembly, which have these sizes. They refer to the Params from this number on. Returns the
/// number after them.
fn add_references(text: &mut String, first: u64, members: &[u16]) -> Result<u64, AllocError>
    ensures { IfOk result (λ next.
        Steps reference_step (written first (string_bytes text.old)) members.now (written next (string_bytes text.new))) }
{
    let mut number = first;
    for index in 0..members.len() {
        let next = add_reference(text, number, members[index])?;
        number = next;
    }
    Ok(number)
}

/// Adds a member of this size. It refers to the Param with this number, if it has a Param. Returns the next number.
fn add_reference(text: &mut String, number: u64, size: u16) -> Result<u64, AllocError>
    ensures next { IfOk result (λ next. next ≡ number_after (bit_string size) number) }
    ensures text { IfOk result (λ next. string_bytes text.new ≡ string_bytes text.old ++ member_fields size number) }
{
    let bits = 8 * u32::from(size);
    let element = bit_string(size);
    let reference = Reference { element, number };
    write!(text, ",\n                {bits},{reference}")?;
    next_after(element, number)
}

/// The number after that of a member: one more if the member has a Param.
fn next_after(element: Option<ElementaryType>, number: u64) -> Result<u64, AllocError>
    ensures { IfOk result (λ next. next ≡ number_after element number) }
{
    match element {
        Some(_) => after(number),
        None => Ok(number),
    }
}

/// The Param of a member, if it has one.
#[derive(Clone, Copy)]
struct Reference {
    element: Option<ElementaryType>,
    number: u64,
}

impl fmt::Display for Reference {
    ghost use Rattle.std.specs.Prelude.{Some};
    ghost use Rattle.enip_eds.specs.Eds.{reference};

    ghost output = { λ r. Some (reference r.element r.number) };

    fn fmt<W: fmt::Write>(&self, f: &mut fmt::Formatter<W>) -> fmt::Result {
        match self.element {
            Some(_) => write!(f, "Param{}", self.number),
            None => Ok(()),
        }
    }
}

/// Adds the sections after the assemblies: no connection of class 0 or 1, and this many of class 3.
fn add_tail(text: &mut String, connections: u16) -> Result<(), AllocError>
    ensures { OnOk result (string_bytes text.new ≡ string_bytes text.old ++ tail connections) }
{
    write!(
        text,
        "\n[Connection Manager]\n        Object_Name = \"Connection Manager Object\";\n        \
         Object_Class_Code = 0x06;\n\n[Capacity]\n        MaxIOConnections = 0;\n        \
         MaxMsgConnections = {connections};\n"
    )
}
