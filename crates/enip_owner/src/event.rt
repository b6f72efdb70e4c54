//! The lines of the device about commands, sets and connections, and its answers to lines of the owner.

ghost use Rattle.enip_owner.specs.Parts.{Adds};
ghost use Rattle.enip_owner.specs.Shown.{asked_front, asked_head, attribute_head, number_of_attribute};
ghost use Rattle.enip_owner.specs.Events.{IsWritten, IsWrittenOne, command_json, ended_json, reset_json, ok_json, error_json, IsAsked, IsChanged, IsValue};

use crate::attribute_ref::AttributeRef;
use crate::event_fault::EventFault;
use crate::part::{Part, begin_line, line_from, write_line, write_part, write_parts};
use crate::shown_values::write_shown;
use cip_values::ValueType;
use json::Writer;
use std::alloc::{AllocError, Global};
use std::net::IpAddr;

/// A command that the owner is to execute.
#[derive(Clone, Copy, Debug)]
pub struct CommandEvent<'a> {
    /// Its ticket.
    pub ticket: u32,
    /// The class of the object.
    pub class: u16,
    /// The instance number of the object.
    pub instance: u32,
    /// The service code.
    pub service: u8,
    /// The data.
    pub data: &'a [u8],
    /// The address of the peer that sent it. Not known after a restart.
    pub by: Option<IpAddr>,
    /// Whether it was handed over before.
    pub again: bool,
}

/// A request that the owner is asked while its peer waits: an own service, or a set of a checked attribute.
#[derive(Clone, Copy, Debug)]
pub struct AskedEvent<'a> {
    /// The number of the question.
    pub question: u32,
    /// The class of the object.
    pub class: u16,
    /// The instance number of the object.
    pub instance: u32,
    /// The service code.
    pub service: u8,
    /// The number of the attribute, if the request names one. That of a set always does.
    pub attribute: Option<u16>,
    /// The type of its value, if that is known and the request sets it.
    pub value_type: Option<ValueType>,
    /// The data of the service, or the bytes of the value.
    pub data: &'a [u8],
    /// The address of the peer.
    pub by: IpAddr,
}

/// An attribute that a peer set.
#[derive(Clone, Copy, Debug)]
pub struct ChangedEvent<'a> {
    /// The attribute.
    pub attribute: AttributeRef,
    /// The type of its value, if that is known.
    pub value_type: Option<ValueType>,
    /// The bytes of its value.
    pub data: &'a [u8],
    /// The address of the peer.
    pub by: IpAddr,
}

/// The value of an attribute that the owner read.
#[derive(Clone, Copy, Debug)]
pub struct ValueEvent<'a> {
    /// The attribute.
    pub attribute: AttributeRef,
    /// The type of its value, if that is known.
    pub value_type: Option<ValueType>,
    /// The bytes of its value.
    pub data: &'a [u8],
}

/// A connection that ended.
#[derive(Clone, Copy, Debug)]
pub struct EndedEvent<'a> {
    /// The connection.
    pub connection: u32,
    /// Why it ended.
    pub reason: &'a str,
}

/// A Reset of the device by a peer.
#[derive(Clone, Copy, Debug)]
pub struct ResetEvent {
    /// The type: 0 or 1.
    pub reset_type: u8,
    /// The address of the peer.
    pub by: IpAddr,
}

/// The line of a command, with its newline.
///
/// ```
/// write_command(alloc, &CommandEvent {
///     ticket: 7,
///     class: 768,
///     instance: 1,
///     service: 50,
///     data: &[5, 0, 0, 0],
///     by: None,
///     again: true,
/// })?;
/// // {"command":{"ticket":7,"class":768,"instance":1,"service":50,"data":"05000000","again":true}}
/// ```
///
/// # Errors
///
/// `TooLong` if the line has more than 64 KiB, `Memory` if memory is refused.
pub fn write_command(alloc: Global, event: &CommandEvent<'_>) -> Result<Vec<u8>, EventFault>
    ensures { IsWritten (command_json event.now) result }
{
    write_line(
        alloc,
        &[
            Part::Open,
            Part::OpenAt("command"),
            Part::Number("ticket", u64::from(event.ticket)),
            Part::Number("class", u64::from(event.class)),
            Part::Number("instance", u64::from(event.instance)),
            Part::Number("service", u64::from(event.service)),
            Part::Bytes("data", event.data),
            Part::MaybeAddress("by", event.by),
            Part::Truth("again", event.again),
            Part::Close,
            Part::Close,
        ],
    )
}

/// The line of a request that the owner is asked, with its newline. If the type is known and the bytes are values of it,
/// it has the values.
///
/// ```
/// write_asked(alloc, &AskedEvent {
///     question: 3,
///     class: 768,
///     instance: 1,
///     service: 50,
///     attribute: None,
///     value_type: None,
///     data: &[5, 0],
///     by: address,
/// })?;
/// // {"asked":{"question":3,"class":768,"instance":1,"service":50,"data":"0500","by":"10.0.0.5"}}
/// ```
///
/// # Errors
///
/// `TooLong` if the line has more than 64 KiB, `Memory` if memory is refused.
pub fn write_asked(alloc: Global, event: &AskedEvent<'_>) -> Result<Vec<u8>, EventFault>
    ensures { IsWrittenOne (IsAsked event.now) result }
{
    let mut writer = begin_line(alloc)?;
    write_asked_head(alloc, &mut writer, event)?;
    write_shown(alloc, &mut writer, event.value_type, event.data)?;
    let by = Part::MaybeAddress("by", Some(event.by));
    write_parts(alloc, &mut writer, &[by, Part::Close, Part::Close])?;
    line_from(writer)
}

/// Writes the beginning of the line of a request, up to `data`.
fn write_asked_head(
    alloc: Global,
    writer: &mut Writer,
    event: &AskedEvent<'_>,
) -> Result<(), AllocError>
    ensures { Adds result writer.old writer.new (asked_head event.now) }
{
    write_asked_front(alloc, writer, event)?;
    write_number_of(alloc, writer, event.attribute)?;
    write_part(alloc, writer, Part::Bytes("data", event.data))
}

/// Writes the beginning of the line of a request, up to `service`.
fn write_asked_front(
    alloc: Global,
    writer: &mut Writer,
    event: &AskedEvent<'_>,
) -> Result<(), AllocError>
    ensures { Adds result writer.old writer.new (asked_front event.now) }
{
    let service = u64::from(event.service);
    write_parts(
        alloc,
        writer,
        &[
            Part::Open,
            Part::OpenAt("asked"),
            Part::Number("question", u64::from(event.question)),
            Part::Number("class", u64::from(event.class)),
            Part::Number("instance", u64::from(event.instance)),
            Part::Number("service", service),
        ],
    )
}

/// Writes the number of an attribute, if there is one.
fn write_number_of(
    alloc: Global,
    writer: &mut Writer,
    attribute: Option<u16>,
) -> Result<(), AllocError>
    ensures { Adds result writer.old writer.new (number_of_attribute attribute) }
{
    match attribute {
        Some(number) => write_part(alloc, writer, Part::Number("attribute", u64::from(number))),
        None => Ok(()),
    }
}

/// The line of a set, with its newline. If the type is known and the bytes are values of it, it has the values.
///
/// # Errors
///
/// `TooLong` if the line has more than 64 KiB, `Memory` if memory is refused.
pub fn write_changed(alloc: Global, event: &ChangedEvent<'_>) -> Result<Vec<u8>, EventFault>
    ensures { IsWrittenOne (IsChanged event.now) result }
{
    let mut writer = begin_line(alloc)?;
    write_head(alloc, &mut writer, "changed", event.attribute, event.data)?;
    write_shown(alloc, &mut writer, event.value_type, event.data)?;
    write_parts(
        alloc,
        &mut writer,
        &[
            Part::MaybeAddress("by", Some(event.by)),
            Part::Close,
            Part::Close,
        ],
    )?;
    line_from(writer)
}

/// The line of a value, with its newline: the answer to `read`. If the type is known and the bytes are values of it, it
/// has the values.
///
/// # Errors
///
/// `TooLong` if the line has more than 64 KiB, `Memory` if memory is refused.
pub fn write_value(alloc: Global, event: &ValueEvent<'_>) -> Result<Vec<u8>, EventFault>
    ensures { IsWrittenOne (IsValue event.now) result }
{
    let mut writer = begin_line(alloc)?;
    write_head(alloc, &mut writer, "value", event.attribute, event.data)?;
    write_shown(alloc, &mut writer, event.value_type, event.data)?;
    write_parts(alloc, &mut writer, &[Part::Close, Part::Close])?;
    line_from(writer)
}

/// The line of a connection that ended, with its newline.
///
/// # Errors
///
/// `TooLong` if the line has more than 64 KiB, `Memory` if memory is refused.
pub fn write_ended(alloc: Global, event: &EndedEvent<'_>) -> Result<Vec<u8>, EventFault>
    ensures { IsWritten (ended_json event.now) result }
{
    write_line(
        alloc,
        &[
            Part::Open,
            Part::OpenAt("ended"),
            Part::Number("connection", u64::from(event.connection)),
            Part::Text("reason", event.reason),
            Part::Close,
            Part::Close,
        ],
    )
}

/// The line of a Reset, with its newline.
///
/// ```
/// write_reset(alloc, &ResetEvent { reset_type: 1, by: address })?;
/// // {"reset":{"type":1,"by":"10.0.0.5"}}
/// ```
///
/// # Errors
///
/// `TooLong` if the line has more than 64 KiB, `Memory` if memory is refused.
pub fn write_reset(alloc: Global, event: &ResetEvent) -> Result<Vec<u8>, EventFault>
    ensures { IsWritten (reset_json event.now) result }
{
    let by = Part::MaybeAddress("by", Some(event.by));
    write_line(
        alloc,
        &[
            Part::Open,
            Part::OpenAt("reset"),
            Part::Number("type", u64::from(event.reset_type)),
            by,
            Part::Close,
            Part::Close,
        ],
    )
}

/// The answer to a line that was done, with its newline. `line` is the number of the owner's line.
///
/// # Errors
///
/// `Memory` if memory is refused.
pub fn write_ok(alloc: Global, line: u64) -> Result<Vec<u8>, EventFault>
    ensures { IsWritten (ok_json line) result }
{
    write_line(alloc, &[Part::Open, Part::Number("ok", line), Part::Close])
}

/// The answer to a line that was refused, with its newline. `line` is the number of the owner's line, and `text` the
/// reason.
///
/// # Errors
///
/// `TooLong` if the line has more than 64 KiB, `Memory` if memory is refused.
pub fn write_error(alloc: Global, line: u64, text: &str) -> Result<Vec<u8>, EventFault>
    ensures { IsWritten (error_json line text.now) result }
{
    write_line(
        alloc,
        &[
            Part::Open,
            Part::Number("error", line),
            Part::Text("text", text),
            Part::Close,
        ],
    )
}

/// Writes the beginning of a line about an attribute, up to `data`.
fn write_head<'a>(
    alloc: Global,
    writer: &mut Writer,
    name: &'a str,
    attribute: AttributeRef,
    data: &'a [u8],
) -> Result<(), AllocError>
    ensures { Adds result writer.old writer.new (attribute_head name.now attribute «data».now) }
{
    write_parts(
        alloc,
        writer,
        &[
            Part::Open,
            Part::OpenAt(name),
            Part::Number("class", u64::from(attribute.class)),
            Part::Number("instance", u64::from(attribute.instance)),
            Part::Number("attribute", u64::from(attribute.attribute)),
            Part::Bytes("data", data),
        ],
    )
}
