//! The first line of the device.

ghost use Rattle.std.specs.List.{flat_map};
ghost use Rattle.json.specs.Tree.{json_tokens};
ghost use Rattle.enip_owner.specs.Events.{IsWritten};
ghost use Rattle.enip_owner.specs.Hello.{attribute_json, object_json, attribute_list, listed_tokens, hello_json, hello_detail, shorter_detail};
ghost use Rattle.enip_owner.specs.Hello.{hello_head, object_head, name_tokens};
ghost use Rattle.enip_owner.specs.Parts.{Adds};

use crate::event_fault::EventFault;
use crate::part::{Part, begin_line, line_from, write_part, write_parts};
use json::Writer;
use std::alloc::{AllocError, Global};

/// An attribute as the first line describes it.
#[derive(Clone, Copy, Debug)]
pub struct DescribedAttribute<'a> {
    /// Its number.
    pub attribute: u16,
    /// A name for people.
    pub name: Option<&'a str>,
    /// The name of its type, as `UINT[4]`.
    pub type_name: &'a str,
    /// The bytes of its value.
    pub data: &'a [u8],
}

/// An object as the first line describes it.
#[derive(Clone, Copy, Debug)]
pub struct DescribedObject<'a, 'b> {
    /// Its class.
    pub class: u16,
    /// Its instance number.
    pub instance: u32,
    /// A name for people.
    pub name: Option<&'a str>,
    /// Its attributes.
    pub attributes: &'b [DescribedAttribute<'a>],
}

/// The device, as the first line describes it.
#[derive(Clone, Copy, Debug)]
pub struct HelloEvent<'a, 'b, 'c> {
    /// The vendor ID.
    pub vendor: u16,
    /// The product code.
    pub product_code: u16,
    /// The serial number.
    pub serial: u32,
    /// The product name.
    pub name: &'a str,
    /// The life of its command ledger, which tells apart the tickets of two runs. `None` if it has no ledger.
    pub life: Option<u64>,
    /// How many queued commands it hands over before the first of them is done.
    pub ahead: u16,
    /// The objects.
    pub objects: &'c [DescribedObject<'a, 'b>],
}

/// How much of the attributes the first line has.
#[derive(Clone, Copy, PartialEq, Eq)]
pub(crate) enum Detail {
    /// Their types and their values.
    Values,
    /// Their types.
    Types,
    /// Nothing.
    Objects,
}

/// The first line, with its newline: the device and its objects with their attributes. If it would have more than 64 KiB,
/// the attributes are without `data`. If even that is too long, the objects are without `attributes`.
///
/// ```
/// let speed = DescribedAttribute { attribute: 3, name: Some("speed"), type_name: "UINT", data: &[0xdc, 5] };
/// let conveyor = DescribedObject { class: 768, instance: 1, name: Some("conveyor"), attributes: &[speed] };
/// write_hello(alloc, &HelloEvent {
///     vendor: 1,
///     product_code: 7,
///     serial: 42,
///     name: "Demo",
///     life: Some(9),
///     ahead: 1,
///     objects: &[conveyor],
/// })?;
/// // {"hello":{"vendor":1,"product_code":7,"serial":42,"name":"Demo","life":9,"ahead":1,"objects":[{"class":768,
/// // "instance":1,"name":"conveyor","attributes":[{"attribute":3,"name":"speed","type":"UINT","data":"dc05"}]}]}}
/// ```
///
/// # Errors
///
/// `TooLong` if it has more than 64 KiB without attributes, `Memory` if memory is refused.
pub fn write_hello(alloc: Global, hello: &HelloEvent<'_, '_, '_>) -> Result<Vec<u8>, EventFault>
    ensures { IsWritten (hello_json (hello_detail hello.now) hello.now) result }
{
    match write_with(alloc, Detail::Values, hello) {
        Err(EventFault::TooLong) => write_without_data(alloc, hello),
        Err(EventFault::Memory) => Err(EventFault::Memory),
        Ok(line) => Ok(line),
    }
}

/// The first line without `data`, or, if that is too long, without `attributes`.
fn write_without_data(alloc: Global, hello: &HelloEvent<'_, '_, '_>) -> Result<Vec<u8>, EventFault>
    ensures { IsWritten (hello_json (shorter_detail hello.now) hello.now) result }
{
    match write_with(alloc, Detail::Types, hello) {
        Err(EventFault::TooLong) => write_with(alloc, Detail::Objects, hello),
        Err(EventFault::Memory) => Err(EventFault::Memory),
        Ok(line) => Ok(line),
    }
}

/// The first line with this much of the attributes.
fn write_with(
    alloc: Global,
    detail: Detail,
    hello: &HelloEvent<'_, '_, '_>,
) -> Result<Vec<u8>, EventFault>
    ensures { IsWritten (hello_json detail hello.now) result }
{
    let mut writer = begin_line(alloc)?;
    write_device(alloc, &mut writer, hello)?;
    write_objects(alloc, &mut writer, detail, hello.objects)?;
    write_parts(
        alloc,
        &mut writer,
        &[Part::EndList, Part::Close, Part::Close],
    )?;
    line_from(writer)
}

/// Writes the device, up to its objects.
fn write_device(
    alloc: Global,
    writer: &mut Writer,
    hello: &HelloEvent<'_, '_, '_>,
) -> Result<(), AllocError>
    ensures { Adds result writer.old writer.new (hello_head hello.now) }
{
    write_parts(
        alloc,
        writer,
        &[
            Part::Open,
            Part::OpenAt("hello"),
            Part::Number("vendor", u64::from(hello.vendor)),
            Part::Number("product_code", u64::from(hello.product_code)),
            Part::Number("serial", u64::from(hello.serial)),
            Part::Text("name", hello.name),
            Part::MaybeNumber("life", hello.life),
            Part::Number("ahead", u64::from(hello.ahead)),
            Part::ListAt("objects"),
        ],
    )
}

/// Writes objects, one after another.
fn write_objects(
    alloc: Global,
    writer: &mut Writer,
    detail: Detail,
    objects: &[DescribedObject<'_, '_>],
) -> Result<(), AllocError>
    ensures { Adds result writer.old writer.new (flat_map (λ o. json_tokens (object_json detail o)) objects.now) }
{
    for object in objects {
        write_object(alloc, writer, detail, object)?;
    }
    Ok(())
}

/// Writes an object.
fn write_object(
    alloc: Global,
    writer: &mut Writer,
    detail: Detail,
    object: &DescribedObject<'_, '_>,
) -> Result<(), AllocError>
    ensures { Adds result writer.old writer.new (json_tokens (object_json detail object.now)) }
{
    write_numbers(alloc, writer, object)?;
    write_name(alloc, writer, object.name)?;
    write_attribute_list(alloc, writer, detail, object.attributes)?;
    write_part(alloc, writer, Part::Close)
}

/// Writes the class and the instance number of an object.
fn write_numbers(
    alloc: Global,
    writer: &mut Writer,
    object: &DescribedObject<'_, '_>,
) -> Result<(), AllocError>
    ensures { Adds result writer.old writer.new (object_head object.now) }
{
    write_parts(
        alloc,
        writer,
        &[
            Part::Open,
            Part::Number("class", u64::from(object.class)),
            Part::Number("instance", u64::from(object.instance)),
        ],
    )
}

/// Writes a name, or nothing.
fn write_name(alloc: Global, writer: &mut Writer, name: Option<&str>) -> Result<(), AllocError>
    ensures { Adds result writer.old writer.new (name_tokens name.entry) }
{
    match name {
        Some(name) => write_part(alloc, writer, Part::Text("name", name)),
        None => Ok(()),
    }
}

/// Writes the attributes of an object as a list, or nothing.
fn write_attribute_list(
    alloc: Global,
    writer: &mut Writer,
    detail: Detail,
    attributes: &[DescribedAttribute<'_>],
) -> Result<(), AllocError>
    ensures { Adds result writer.old writer.new (attribute_list detail attributes.now) }
{
    match detail {
        Detail::Values => write_listed(alloc, writer, Detail::Values, attributes),
        Detail::Types => write_listed(alloc, writer, Detail::Types, attributes),
        Detail::Objects => Ok(()),
    }
}

/// Writes the attributes of an object as a list.
fn write_listed(
    alloc: Global,
    writer: &mut Writer,
    detail: Detail,
    attributes: &[DescribedAttribute<'_>],
) -> Result<(), AllocError>
    ensures { Adds result writer.old writer.new (listed_tokens detail attributes.now) }
{
    write_part(alloc, writer, Part::ListAt("attributes"))?;
    write_attributes(alloc, writer, detail, attributes)?;
    write_part(alloc, writer, Part::EndList)
}

/// Writes attributes, one after another.
fn write_attributes(
    alloc: Global,
    writer: &mut Writer,
    detail: Detail,
    attributes: &[DescribedAttribute<'_>],
) -> Result<(), AllocError>
    ensures { Adds result writer.old writer.new (flat_map (λ a. json_tokens (attribute_json detail a)) attributes.now) }
{
    for attribute in attributes {
        write_attribute(alloc, writer, detail, attribute)?;
    }
    Ok(())
}

/// Writes an attribute.
fn write_attribute(
    alloc: Global,
    writer: &mut Writer,
    detail: Detail,
    attribute: &DescribedAttribute<'_>,
) -> Result<(), AllocError>
    ensures { Adds result writer.old writer.new (json_tokens (attribute_json detail attribute.now)) }
{
    let data = match detail {
        Detail::Values => Some(attribute.data),
        Detail::Types | Detail::Objects => None,
    };
    write_parts(
        alloc,
        writer,
        &[
            Part::Open,
            Part::Number("attribute", u64::from(attribute.attribute)),
            Part::MaybeText("name", attribute.name),
            Part::Text("type", attribute.type_name),
            Part::MaybeBytes("data", data),
            Part::Close,
        ],
    )
}
