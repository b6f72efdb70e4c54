//! One Param: what an EDS says of a value.

ghost use Rattle.std.specs.Prelude.{◌≡◌, ◌+◌, ◌++◌, IfOk, OnOk, string_bytes};
ghost use Rattle.enip_eds.specs.Params.{IsParamAdded, descriptor, described_in, first_fields, heading, other_fields};

use crate::numbers::{greatest_text, least_text, start_text};
use crate::texts::{AttributePath, Escaped};
use crate::types::code_of;
use cip_values::ElementaryType;
use std::alloc::{AllocError, Global};
use std::fmt;

/// What a Param is about.
#[derive(Clone, Copy)]
pub(crate) enum Subject<'a> {
    /// A member of an assembly, by the instance number of the assembly and the number of the member, from 1.
    Member {
        assembly: u16,
        member: u64,
    },
    /// An attribute of an own object, and the name of the object.
    Attribute {
        class: u16,
        instance: u16,
        attribute: u16,
        name: Option<&'a str>,
    },
}

/// A Param.
#[derive(Clone, Copy)]
pub(crate) struct Param<'a> {
    pub(crate) subject: Subject<'a>,
    /// The type of its value. It is not a structure, and not an array.
    pub(crate) element: ElementaryType,
    /// The bytes of its value. Those of a text are the most that it can have.
    pub(crate) size: u64,
    pub(crate) settable: bool,
    /// The bits of the least value, if it is not that of the type.
    pub(crate) least: Option<u64>,
    /// The bits of the greatest value, if it is not that of the type.
    pub(crate) greatest: Option<u64>,
    /// The bytes of the value at the start.
    pub(crate) start: &'a [u8],
}

/// The size of the path and the path of what a Param is about.
#[derive(Clone, Copy)]
struct PathFields<'a>(Subject<'a>);

impl fmt::Display for PathFields<'_> {
    ghost use Rattle.std.specs.Prelude.{Some};
    ghost use Rattle.enip_eds.specs.Params.{about_in, path_fields};

    ghost output = { λ p. Some (path_fields (about_in p.0)) };

    fn fmt<W: fmt::Write>(&self, f: &mut fmt::Formatter<W>) -> fmt::Result {
        match self.0 {
            Subject::Member { .. } => f.write_str(","),
            Subject::Attribute {
                class,
                instance,
                attribute,
                ..
            } => {
                let path = AttributePath {
                    class,
                    instance,
                    attribute,
                };
                write!(f, "{},{path}", path.size())
            }
        }
    }
}

/// The name of a Param.
#[derive(Clone, Copy)]
struct NameField<'a>(Subject<'a>);

impl fmt::Display for NameField<'_> {
    ghost use Rattle.std.specs.Prelude.{Some};
    ghost use Rattle.enip_eds.specs.Params.{about_in, name_field};

    ghost output = { λ n. Some (name_field (about_in n.0)) };

    fn fmt<W: fmt::Write>(&self, f: &mut fmt::Formatter<W>) -> fmt::Result {
        match self.0 {
            Subject::Member { assembly, member } => {
                write!(f, "\"Assembly {assembly}, member {member}\"")
            }
            Subject::Attribute {
                attribute,
                name: Some(name),
                ..
            } => write!(f, "\"{}, attribute {attribute}\"", Escaped(name.as_bytes())),
            Subject::Attribute {
                class,
                instance,
                attribute,
                name: None,
            } => write!(
                f,
                "\"Class {class}, instance {instance}, attribute {attribute}\""
            ),
        }
    }
}

/// The help of a Param.
#[derive(Clone, Copy)]
struct HelpField<'a>(Subject<'a>);

impl fmt::Display for HelpField<'_> {
    ghost use Rattle.std.specs.Prelude.{Some};
    ghost use Rattle.enip_eds.specs.Params.{about_in, help_field};

    ghost output = { λ h. Some (help_field (about_in h.0)) };

    fn fmt<W: fmt::Write>(&self, f: &mut fmt::Formatter<W>) -> fmt::Result {
        match self.0 {
            Subject::Member { .. } => f.write_str("\"\""),
            Subject::Attribute {
                class,
                instance,
                attribute,
                ..
            } => write!(
                f,
                "\"Class {class}, instance {instance}, attribute {attribute}\""
            ),
        }
    }
}

/// The number after this one. There is no memory for more than 64 bits can count.
pub(crate) fn after(number: u64) -> Result<u64, AllocError>
    ensures { IfOk result (λ next. next ≡ number + 1) }
{
    match number.checked_add(1) {
        Some(next) => Ok(next),
        None => Err(AllocError),
    }
}

/// Adds a Param.
pub(crate) fn add_param(
    alloc: Global,
    text: &mut String,
    number: u64,
    param: &Param<'_>,
) -> Result<(), AllocError>
    ensures { OnOk result (IsParamAdded number (described_in param.now) (string_bytes text.old) (string_bytes text.new)) }
{
    let least = least_text(alloc, param.element, param.least)?;
    let greatest = greatest_text(alloc, param.element, param.greatest)?;
    let start = start_text(alloc, param.element, param.start)?;
    add_heading(text, number)?;
    add_first_fields(text, number, param)?;
    add_other_fields(text, param, &least, &greatest, &start)?;
    Ok(())
}

/// Adds the heading of the section before its first Param.
fn add_heading(text: &mut String, number: u64) -> Result<(), AllocError>
    ensures { OnOk result (string_bytes text.new ≡ string_bytes text.old ++ heading number) }
{
    if number == 1 {
        return text.push_str("\n[Params]\n");
    }
    Ok(())
}

/// Adds the fields of a Param up to its size.
fn add_first_fields(text: &mut String, number: u64, param: &Param<'_>) -> Result<(), AllocError>
    ensures { OnOk result (string_bytes text.new ≡ string_bytes text.old ++ first_fields number (described_in param.now)) }
{
    let descriptor = descriptor(param.settable);
    let code = code_of(param.element);
    let (type_code, size) = (TypeCode(code), param.size);
    write!(
        text,
        "        Param{number} =\n                0,\n                {},\n                \
         {descriptor},\n                {type_code},\n                {size},\n",
        PathFields(param.subject)
    )
}

/// The code of a type, in hexadecimal.
#[derive(Clone, Copy)]
struct TypeCode(u8);

impl fmt::Display for TypeCode {
    ghost use Rattle.std.specs.Prelude.{Some, ◌++◌, codes};
    ghost use Rattle.enip_eds.specs.Texts.{capitals};

    ghost output = { λ t. Some (codes "0x" ++ capitals 2 t.0) };

    fn fmt<W: fmt::Write>(&self, f: &mut fmt::Formatter<W>) -> fmt::Result {
        write!(f, "0x{:02X}", self.0)
    }
}

/// The descriptor of a Param. Bit 4 says that it is read-only. (Volume 1, Parameter object.)
fn descriptor(settable: bool) -> &'static str
    ensures { result.now ≡ descriptor settable }
{
    if settable { "0x0000" } else { "0x0010" }
}

/// Adds the other fields of a Param: its name, no unit, its help, its range, its value at the start, no scaling and no
/// decimal places.
fn add_other_fields(
    text: &mut String,
    param: &Param<'_>,
    least: &String,
    greatest: &String,
    start: &String,
) -> Result<(), AllocError>
    ensures { OnOk result (string_bytes text.new ≡ string_bytes text.old
        ++ other_fields (described_in param.now) (string_bytes least.now) (string_bytes greatest.now) (string_bytes start.now)) }
{
    write!(
        text,
        "                {},\n                \"\",\n                {},\n                \
         {least},{greatest},{start},\n                ,,,,\n                ,,,,\n                ;\n",
        NameField(param.subject),
        HelpField(param.subject)
    )
}
