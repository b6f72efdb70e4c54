//! Executes a line of the owner.

ghost use Rattle.std.specs.Prelude.{◌≡◌, map, option_map};
ghost use Rattle.enip_owner.specs.Requests.{request_in, given_in};
ghost use Rattle.enip_server.specs.Rounds.{state_of};
ghost use Rattle.owner_port.specs.Execution.{IsAnswered, IsExecuted, IsFinishDone, IsWriteDone, AreValuesWritten, read_answer, settled_answer};
ghost use Rattle.owner_port.specs.Execution.{finish_fault, write_fault, type_fault, is_size_of, is_text, is_short_string};
ghost use Rattle.owner_port.specs.Ports.{contents_in};
ghost use Rattle.owner_port.specs.Questions.{answered_in, fault_in, with_list};
ghost use Rattle.owner_port.specs.Sets.{tallies_in};

use crate::attribute_table::{TypedAttribute, type_at};
use crate::fault::LineFault;
use crate::questions::Questions;
use cip_objects::{GeneralStatus, ReplyBuf};
use cip_owner::{OwnerReply, Queue};
use cip_values::{ElementaryType, ValueType};
use enip_adapter::Adapter;
use enip_owner::{AttributeRef, GivenValue, OwnerRequest, read_request, values_as_bytes};
use enip_server::{Peers, Wire};
use json::Scratch;
use std::alloc::Global;

/// What is answered to a line of the owner.
#[derive(Clone, Copy, Debug, PartialEq, Eq)]
pub(crate) enum Answer {
    /// It was done.
    Done,
    /// The command with this ticket is done.
    Finished(u32),
    /// The value of this attribute is wanted.
    Value(AttributeRef),
    /// It was refused, and nothing has changed.
    Refused(LineFault),
}

/// Executes a line of the owner. `scratch` is the memory for reading it.
pub(crate) fn answer_to<W: Wire + Drop>(
    alloc: Global,
    types: &[TypedAttribute],
    line: &[u8],
    scratch: &mut Scratch,
    questions: &mut Questions,
    peers: &mut Peers<W>,
) -> Answer
    ensures answered { IsAnswered types.now line.now questions.old.list.items (state_of peers.old) result
        questions.new.list.items (state_of peers.new) }
    ensures same { questions.new ≡ with_list questions.new.list questions.old }
{
    match read_request(alloc, line, scratch) {
        Ok(request) => execute(alloc, types, request, questions, peers),
        Err(fault) => Answer::Refused(LineFault::Line(fault)),
    }
}

/// Executes what a line says.
fn execute<W: Wire + Drop>(
    alloc: Global,
    types: &[TypedAttribute],
    request: OwnerRequest<'_>,
    questions: &mut Questions,
    peers: &mut Peers<W>,
) -> Answer
    ensures executed { IsExecuted types.now (request_in request.entry) questions.old.list.items (state_of peers.old) result
        questions.new.list.items (state_of peers.new) }
    ensures same { questions.new ≡ with_list questions.new.list questions.old }
{
    match request {
        OwnerRequest::Done { ticket, reply } => finish(ticket, &reply, peers),
        OwnerRequest::Answer { question, reply } => answer_question(question, reply, questions),
        OwnerRequest::WriteData { attribute, bytes } => {
            write(types, attribute, bytes.as_slice(), peers)
        }
        OwnerRequest::WriteValues { attribute, values } => {
            write_values(alloc, types, attribute, values.as_slice(), peers)
        }
        OwnerRequest::Read { attribute } => read(attribute, peers.adapter()),
        OwnerRequest::Status { status } => {
            peers.set_device_status(status);
            Answer::Done
        }
        OwnerRequest::State { state } => {
            peers.set_device_state(state);
            Answer::Done
        }
    }
}

/// Answers a question.
fn answer_question(question: u32, reply: OwnerReply, questions: &mut Questions) -> Answer
    ensures answer { result ≡ settled_answer (fault_in question reply questions.old.list.items) }
    ensures list { questions.new.list.items ≡ answered_in question reply questions.old.list.items }
    ensures same { questions.new ≡ with_list questions.new.list questions.old }
{
    match questions.answer(question, reply) {
        None => Answer::Done,
        Some(fault) => Answer::Refused(fault),
    }
}

/// Finishes a command.
fn finish<W: Wire + Drop>(ticket: u32, reply: &OwnerReply, peers: &mut Peers<W>) -> Answer
    ensures { IsFinishDone ticket reply.now (state_of peers.old) result (state_of peers.new) }
{
    if peers.finish(ticket, reply) {
        return Answer::Finished(ticket);
    }
    Answer::Refused(finish_fault(ticket, reply, peers.adapter().queue()))
}

/// Why a command cannot be finished with a reply.
fn finish_fault(ticket: u32, reply: &OwnerReply, queue: Option<&Queue>) -> LineFault
    ensures { result ≡ finish_fault ticket reply.now (option_map (λ q. q.now) queue.entry) }
{
    let waits = match queue {
        Some(queue) => queue.command(ticket).is_some(),
        None => false,
    };
    if !waits {
        return LineFault::NoCommand(ticket);
    }
    if reply.status() == GeneralStatus::ReplyDataTooLarge.number() {
        return LineFault::ReservedStatus;
    }
    LineFault::LongReply
}

/// Writes a value into an attribute.
fn write<W: Wire + Drop>(
    types: &[TypedAttribute],
    attribute: AttributeRef,
    bytes: &[u8],
    peers: &mut Peers<W>,
) -> Answer
    ensures { IsWriteDone types.now attribute bytes.now (state_of peers.old) result (state_of peers.new) }
{
    if !is_size_of(types, attribute, bytes, peers.adapter()) {
        return Answer::Refused(write_fault(attribute, peers.adapter()));
    }
    let (class, instance) = (attribute.class, attribute.instance);
    if peers.write_attribute(class, instance, attribute.attribute, 0, bytes) {
        return Answer::Done;
    }
    Answer::Refused(write_fault(attribute, peers.adapter()))
}

/// Whether the bytes have the size of an attribute's value. The device tests the size of a SHORT_STRING itself.
fn is_size_of(
    types: &[TypedAttribute],
    attribute: AttributeRef,
    bytes: &[u8],
    adapter: &Adapter,
) -> bool
    ensures { result ≡ is_size_of types.now (contents_in adapter.now) attribute bytes.now }
{
    if is_text(type_at(types, attribute)) {
        return true;
    }
    let mut value = ReplyBuf::new();
    adapter.objects().read_attribute(
        attribute.class,
        attribute.instance,
        attribute.attribute,
        &mut value,
    );
    value.len() == bytes.len()
}

/// Whether a type is SHORT_STRING.
fn is_text(value_type: Option<ValueType>) -> bool
    ensures { result ≡ is_text value_type }
{
    match value_type {
        Some(value_type) => is_short_string(value_type.element),
        None => false,
    }
}

/// Whether a type is SHORT_STRING.
fn is_short_string(element: ElementaryType) -> bool
    ensures { result ≡ is_short_string element }
{
    match element {
        ElementaryType::ShortString => true,
        _ => false,
    }
}

/// Why an attribute cannot get a value: the device does not have it, or its value has another size.
fn write_fault(attribute: AttributeRef, adapter: &Adapter) -> LineFault
    ensures { result ≡ write_fault (tallies_in adapter.now) attribute }
{
    let changes = adapter.attribute_changes(
        attribute.class,
        attribute.instance,
        attribute.attribute,
    );
    if changes.is_some() {
        LineFault::Size
    } else {
        LineFault::NoAttribute
    }
}

/// Writes values of the attribute's type.
fn write_values<W: Wire + Drop>(
    alloc: Global,
    types: &[TypedAttribute],
    attribute: AttributeRef,
    values: &[GivenValue<'_>],
    peers: &mut Peers<W>,
) -> Answer
    ensures { AreValuesWritten types.now attribute (map given_in values.now) (state_of peers.old) result
        (state_of peers.new) }
{
    let Some(value_type) = type_at(types, attribute) else {
        return Answer::Refused(type_fault(attribute, peers.adapter()));
    };
    match values_as_bytes(alloc, value_type, values) {
        Ok(bytes) => write(types, attribute, bytes.as_slice(), peers),
        Err(fault) => Answer::Refused(LineFault::Values(fault)),
    }
}

/// Why an attribute whose type is not known cannot get values.
fn type_fault(attribute: AttributeRef, adapter: &Adapter) -> LineFault
    ensures { result ≡ type_fault (tallies_in adapter.now) attribute }
{
    let changes = adapter.attribute_changes(
        attribute.class,
        attribute.instance,
        attribute.attribute,
    );
    if changes.is_some() {
        LineFault::UnknownType
    } else {
        LineFault::NoAttribute
    }
}

/// Reads an attribute.
fn read(attribute: AttributeRef, adapter: &Adapter) -> Answer
    ensures { result ≡ read_answer (contents_in adapter.now) attribute }
{
    let mut value = ReplyBuf::new();
    let is_found = adapter.objects().read_attribute(
        attribute.class,
        attribute.instance,
        attribute.attribute,
        &mut value,
    );
    if is_found {
        Answer::Value(attribute)
    } else {
        Answer::Refused(LineFault::NoAttribute)
    }
}
