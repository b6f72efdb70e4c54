//! Reads a line of an owner.

ghost use Rattle.std.specs.Prelude.{◌≡◌, ◌≤◌, ◌+◌, IfOk, IfErr, length, map, option_map};
ghost use Rattle.json.specs.Find.{get};
ghost use Rattle.json.specs.Value.{value_view, items_view, members_view};
ghost use Rattle.enip_owner.specs.Requests.{Says, IsRefusal, Gives, request_in, given_in, key_name};
ghost use Rattle.enip_owner.specs.Requests.{number_in, number_at, bytes_in, bytes_found};
ghost use Rattle.enip_owner.specs.Requests.{value_given, items_given, values_given, is_known, are_known, checked, attribute_in};
ghost use Rattle.enip_owner.specs.Requests.{done_in, answer_in, content_in, write_in, read_in, status_in, state_in, member_in, only_member, request_of};
ghost use Rattle.enip_owner.specs.Reading.{IsParsed};

use crate::attribute_ref::AttributeRef;
use crate::owner_fault::{OwnerFault, RequestKey};
use crate::request::{GivenValue, OwnerRequest};
use cip_application::VALUE_LIMIT;
use cip_owner::{OWNER_REPLY_LIMIT, OwnerReply};
use enip_lines::decimal;
use hex::FromHexError;
use json::{Error, Scratch, Value};
use std::alloc::Global;
use std::str;

/// Reads a line of an owner. `scratch` is the memory for it, and is kept from line to line.
///
/// ```
/// let mut scratch = Scratch::new(alloc);
/// read_request(alloc, b"{\"state\":3}", &mut scratch)?; // State { state: 3 }
/// ```
///
/// # Errors
///
/// The first [`OwnerFault`] that holds. `Memory` if memory is refused.
pub fn read_request<'a>(
    alloc: Global,
    line: &'a [u8],
    scratch: &'a mut Scratch,
) -> Result<OwnerRequest<'a>, OwnerFault>
    ensures read { IfOk result (λ request. Says line.now (Ok (request_in request))) }
    ensures refused { IfErr result (IsRefusal line.now) }
{
    let value = parse(alloc, line, scratch)?;
    request_of(alloc, &value)
}

/// Reads a line as JSON.
fn parse<'a>(
    alloc: Global,
    line: &'a [u8],
    scratch: &'a mut Scratch,
) -> Result<Value<'a>, OwnerFault>
    ensures { IsParsed line.now result }
{
    let Ok(text) = str::from_utf8(line) else {
        return Err(OwnerFault::NotJson);
    };
    match Value::parse_strict(alloc, text, scratch) {
        Ok(value) => Ok(value),
        Err(Error::Invalid | Error::TooLong) => Err(OwnerFault::NotJson),
        Err(Error::DuplicateKey) => Err(OwnerFault::DoubledKey),
        Err(Error::OutOfMemory) => Err(OwnerFault::Memory),
    }
}

/// What a value says.
#[tactic(auto, unfolding(crate::specs::Requests::request_of))]
fn request_of<'a>(alloc: Global, value: &Value<'a>) -> Result<OwnerRequest<'a>, OwnerFault>
    ensures { Gives request_in result (request_of (value_view value.now)) }
{
    match value {
        Value::Object(members) => only_member(alloc, members.as_slice()),
        _ => Err(OwnerFault::NotRequest),
    }
}

/// What an object with these members says.
fn only_member<'a>(
    alloc: Global,
    members: &[(&str, Value<'a>)],
) -> Result<OwnerRequest<'a>, OwnerFault>
    ensures { Gives request_in result (only_member (members_view members.now)) }
{
    if members.len() != 1 {
        return Err(OwnerFault::NotRequest);
    }
    let member = &members[0];
    member_of(alloc, member.0, &member.1)
}

/// What an object with this one member says.
#[tactic(auto, unfolding(crate::specs::Requests::member_in))]
fn member_of<'a>(
    alloc: Global,
    name: &str,
    value: &Value<'a>,
) -> Result<OwnerRequest<'a>, OwnerFault>
    ensures { Gives request_in result (member_in name.now (value_view value.now)) }
{
    match name {
        "done" => done_of(alloc, value),
        "answer" => answer_of(alloc, value),
        "write" => write_of(alloc, value),
        "read" => read_of(value),
        "status" => status_of(value),
        "state" => state_of(value),
        _ => Err(OwnerFault::NotRequest),
    }
}

/// What the value of `done` says.
#[tactic(auto, unfolding(crate::specs::Requests::done_in))]
fn done_of<'a>(alloc: Global, value: &Value<'a>) -> Result<OwnerRequest<'a>, OwnerFault>
    ensures { Gives request_in result (done_in (value_view value.now)) }
{
    check(
        RequestKey::Done,
        &[RequestKey::Ticket, RequestKey::Status, RequestKey::Data],
        value,
    )?;
    let ticket = number_at(RequestKey::Ticket, u32::MAX, value)?;
    let status = number_at(RequestKey::Status, 255, value)? as u8;
    let bytes = reply_bytes(alloc, value)?;
    match OwnerReply::new(status, bytes.as_slice()) {
        Some(reply) => Ok(OwnerRequest::Done { ticket, reply }),
        None => Err(OwnerFault::TooManyBytes),
    }
}

/// What the value of `answer` says.
#[tactic(auto, unfolding(crate::specs::Requests::answer_in))]
fn answer_of<'a>(alloc: Global, value: &Value<'a>) -> Result<OwnerRequest<'a>, OwnerFault>
    ensures { Gives request_in result (answer_in (value_view value.now)) }
{
    check(
        RequestKey::Answer,
        &[RequestKey::Question, RequestKey::Status, RequestKey::Data],
        value,
    )?;
    let question = number_at(RequestKey::Question, u32::MAX, value)?;
    let status = number_at(RequestKey::Status, 255, value)? as u8;
    let bytes = reply_bytes(alloc, value)?;
    match OwnerReply::new(status, bytes.as_slice()) {
        Some(reply) => Ok(OwnerRequest::Answer { question, reply }),
        None => Err(OwnerFault::TooManyBytes),
    }
}

/// The data of a reply, at most 480 bytes.
fn reply_bytes(alloc: Global, value: &Value<'_>) -> Result<Vec<u8>, OwnerFault>
    ensures bytes { Gives (λ bytes. bytes.items) result
        (bytes_found OWNER_REPLY_LIMIT (get (key_name RequestKey.Data) (value_view value.now))) }
    ensures few { IfOk result (λ bytes. length bytes.items ≤ OWNER_REPLY_LIMIT) }
{
    match value.get(RequestKey::Data.name()) {
        Some(data) => bytes_of(alloc, OWNER_REPLY_LIMIT, data),
        None => Ok(Vec::new(alloc)),
    }
}

/// What the value of `write` says.
#[tactic(auto, unfolding(crate::specs::Requests::write_in))]
fn write_of<'a>(alloc: Global, value: &Value<'a>) -> Result<OwnerRequest<'a>, OwnerFault>
    ensures { Gives request_in result (write_in (value_view value.now)) }
{
    check(
        RequestKey::Write,
        &[
            RequestKey::Class,
            RequestKey::Instance,
            RequestKey::Attribute,
            RequestKey::Data,
            RequestKey::Values,
        ],
        value,
    )?;
    let attribute = attribute_of(value)?;
    let content = value.get(RequestKey::Data.name());
    let values = value.get(RequestKey::Values.name());
    content_of(alloc, attribute, content, values)
}

/// What is written to an attribute, as `data` or as `values`.
#[tactic(auto, unfolding(crate::specs::Requests::content_in))]
fn content_of<'a>(
    alloc: Global,
    attribute: AttributeRef,
    content: Option<&Value<'a>>,
    values: Option<&Value<'a>>,
) -> Result<OwnerRequest<'a>, OwnerFault>
    ensures { Gives request_in result (content_in attribute
        (option_map (λ v. value_view v.now) content.entry) (option_map (λ v. value_view v.now) values.entry)) }
{
    match (content, values) {
        (None, None) => Err(OwnerFault::Missing(RequestKey::Data)),
        (Some(content), None) => {
            let bytes = bytes_of(alloc, VALUE_LIMIT, content)?;
            Ok(OwnerRequest::WriteData { attribute, bytes })
        }
        (None, Some(values)) => {
            let values = values_of(alloc, values)?;
            Ok(OwnerRequest::WriteValues { attribute, values })
        }
        (Some(_), Some(_)) => Err(OwnerFault::TwoContents),
    }
}

/// What the value of `read` says.
#[tactic(auto, unfolding(crate::specs::Requests::read_in))]
fn read_of<'a>(value: &Value<'a>) -> Result<OwnerRequest<'a>, OwnerFault>
    ensures { Gives request_in result (read_in (value_view value.now)) }
{
    check(
        RequestKey::Read,
        &[
            RequestKey::Class,
            RequestKey::Instance,
            RequestKey::Attribute,
        ],
        value,
    )?;
    let attribute = attribute_of(value)?;
    Ok(OwnerRequest::Read { attribute })
}

/// What the value of `status` says.
#[tactic(auto, unfolding(crate::specs::Requests::status_in))]
fn status_of<'a>(value: &Value<'a>) -> Result<OwnerRequest<'a>, OwnerFault>
    ensures { Gives request_in result (status_in (value_view value.now)) }
{
    let status = number_of(RequestKey::Status, u32::from(u16::MAX), value)? as u16;
    Ok(OwnerRequest::Status { status })
}

/// What the value of `state` says.
#[tactic(auto, unfolding(crate::specs::Requests::state_in))]
fn state_of<'a>(value: &Value<'a>) -> Result<OwnerRequest<'a>, OwnerFault>
    ensures { Gives request_in result (state_in (value_view value.now)) }
{
    let state = number_of(RequestKey::State, 255, value)? as u8;
    Ok(OwnerRequest::State { state })
}

/// The attribute that an object names.
#[tactic(auto, unfolding(crate::specs::Requests::attribute_in))]
fn attribute_of(value: &Value<'_>) -> Result<AttributeRef, OwnerFault>
    ensures { Gives (λ attribute. attribute) result (attribute_in (value_view value.now)) }
{
    let class = number_at(RequestKey::Class, u32::from(u16::MAX), value)? as u16;
    let instance = number_at(RequestKey::Instance, u32::MAX, value)?;
    let attribute = number_at(RequestKey::Attribute, u32::from(u16::MAX), value)? as u16;
    Ok(AttributeRef {
        class,
        instance,
        attribute,
    })
}

/// Checks that a value is an object with no keys but these.
#[tactic(auto, unfolding(crate::specs::Requests::checked))]
fn check(request: RequestKey, known: &[RequestKey], value: &Value<'_>) -> Result<(), OwnerFault>
    ensures { Gives (λ done. done) result (checked request known.now (value_view value.now)) }
{
    let Value::Object(members) = value else {
        return Err(OwnerFault::NotObject(request));
    };
    if are_known(known, members.as_slice()) {
        Ok(())
    } else {
        Err(OwnerFault::UnknownKey(request))
    }
}

/// Whether all keys of an object are among these.
fn are_known(known: &[RequestKey], members: &[(&str, Value<'_>)]) -> bool
    ensures { result ≡ are_known known.now (members_view members.now) }
{
    for member in members {
        if !is_known(known, member.0) {
            return false;
        }
    }
    true
}

/// Whether a key is among these.
fn is_known(known: &[RequestKey], name: &str) -> bool
    ensures { result ≡ is_known known.now name.now }
{
    known.iter().any(|key| key.name() == name)
}

/// The number that an object has at a key.
#[tactic(auto, unfolding(crate::specs::Requests::number_at))]
fn number_at(key: RequestKey, most: u32, value: &Value<'_>) -> Result<u32, OwnerFault>
    ensures number { Gives (λ number. number) result (number_at (most + 1) key (value_view value.now)) }
    ensures within { IfOk result (λ number. number ≤ most) }
{
    match value.get(key.name()) {
        Some(value) => number_of(key, most, value),
        None => Err(OwnerFault::Missing(key)),
    }
}

/// The number that is the value of a key.
fn number_of(key: RequestKey, most: u32, value: &Value<'_>) -> Result<u32, OwnerFault>
    ensures number { Gives (λ number. number) result (number_in (most + 1) key (value_view value.now)) }
    ensures within { IfOk result (λ number. number ≤ most) }
{
    let Value::Number(text) = value else {
        return Err(OwnerFault::NotNumber(key));
    };
    match decimal(text.as_bytes()) {
        Some(number) if number <= u64::from(most) => Ok(number as u32),
        _ => Err(OwnerFault::OutOfRange(key)),
    }
}

/// At most so many bytes, in hexadecimal.
#[tactic(auto, unfolding(crate::specs::Requests::bytes_in))]
fn bytes_of(alloc: Global, most: usize, value: &Value<'_>) -> Result<Vec<u8>, OwnerFault>
    ensures bytes { Gives (λ bytes. bytes.items) result (bytes_in most (value_view value.now)) }
    ensures few { IfOk result (λ bytes. length bytes.items ≤ most) }
{
    let Value::String(text) = value else {
        return Err(OwnerFault::NotHexadecimal);
    };
    match hex::decode(alloc, *text) {
        Ok(bytes) if bytes.len() > most => Err(OwnerFault::TooManyBytes),
        Ok(bytes) => Ok(bytes),
        Err(FromHexError::OutOfMemory) => Err(OwnerFault::Memory),
        Err(_) => Err(OwnerFault::NotHexadecimal),
    }
}

/// The values of a list.
#[tactic(auto, unfolding(crate::specs::Requests::values_given))]
fn values_of<'a>(alloc: Global, value: &Value<'a>) -> Result<Vec<GivenValue<'a>>, OwnerFault>
    ensures { Gives (λ values. map given_in values.items) result (values_given (value_view value.now)) }
{
    let Value::Array(items) = value else {
        return Err(OwnerFault::NotValues);
    };
    items_of(alloc, items.as_slice())
}

/// The same, by the items of the list.
fn items_of<'a>(alloc: Global, items: &[Value<'a>]) -> Result<Vec<GivenValue<'a>>, OwnerFault>
    ensures { Gives (λ values. map given_in values.items) result (items_given (items_view items.now)) }
{
    let mut values = Vec::new(alloc);
    for item in items {
        values.push(value_of(item)?)?;
    }
    Ok(values)
}

/// A value of a list.
fn value_of<'a>(value: &Value<'a>) -> Result<GivenValue<'a>, OwnerFault>
    ensures { Gives given_in result (value_given (value_view value.now)) }
{
    match value {
        Value::Bool(truth) => Ok(GivenValue::Truth(*truth)),
        Value::Number(text) => Ok(GivenValue::Number(*text)),
        Value::String(text) => Ok(GivenValue::Text(*text)),
        _ => Err(OwnerFault::NotValues),
    }
}
