//! Queues the lines of a session: answers to the owner's lines, sets by peers, and connections that ended.

ghost use Rattle.std.specs.Prelude.{◌≡◌};
ghost use Rattle.cip_objects.specs.Contents.{bytes_at};
ghost use Rattle.cip_objects.specs.OwnRequests.{asked_in};
ghost use Rattle.owner_port.specs.Sessions.{IsSent, AreSent, IsAnswerSent, IsOkLine, IsErrorLine, IsValueLine, IsSetReported, IsEndReported, AreEndsReported, IsAskedLine, reason_text, type_to_set};
ghost use Rattle.owner_port.specs.Ports.{AreReported, contents_in};
ghost use Rattle.enip_adapter.specs.Device.{resets_of};
ghost use Rattle.owner_port.specs.Sessions.{IsResetReported, IsResetSeen, last_type_in};
ghost use Rattle.owner_port.specs.Sets.{AreCounted, tallies_in};

use crate::attribute_table::{TypedAttribute, type_at};
use crate::execution::Answer;
use crate::fault::LineFault;
use crate::session::Session;
use crate::set_count::SetCount;
use cip_objects::ReplyBuf;
use cip_owner::OwnRequest;
use cip_values::ValueType;
use enip_adapter::{Adapter, EndReason, EndedConnection};
use enip_owner::{
    AskedEvent, AttributeRef, ChangedEvent, EndedEvent, EventFault, ResetEvent, ValueEvent,
    write_asked, write_changed, write_ended, write_error, write_ok, write_reset, write_value,
};
use std::alloc::Global;
use std::net::IpAddr;

/// The common service that sets an attribute (Volume 1, common services).
const SET_ATTRIBUTE_SINGLE: u8 = 0x10;

/// Queues the answer to the last line of the owner.
pub(crate) fn send_answer(
    alloc: Global,
    types: &[TypedAttribute],
    adapter: &Adapter,
    answer: Answer,
    session: &mut Session,
)
    ensures { IsAnswerSent types.now (contents_in adapter.now) answer session.old session.new }
{
    match answer {
        Answer::Done | Answer::Finished(_) => send_ok(alloc, session),
        Answer::Value(attribute) => {
            send_value(alloc, types, adapter, attribute, session);
            send_ok(alloc, session);
        }
        Answer::Refused(fault) => send_error(alloc, fault, session),
    }
}

/// Queues `ok` with the number of the last line.
fn send_ok(alloc: Global, session: &mut Session)
    ensures sent { IsSent (IsOkLine session.old.line) session.old session.new }
    ensures line { session.new.line ≡ session.old.line }
{
    let line = write_ok(alloc, session.line);
    session.send(line);
}

/// Queues `error` with the number of the last line.
pub(crate) fn send_error(alloc: Global, fault: LineFault, session: &mut Session)
    ensures { IsSent (IsErrorLine session.old.line) session.old session.new }
{
    let line = error_line(alloc, session.line, fault);
    session.send(line);
}

/// The line that refuses a line of the owner.
fn error_line(alloc: Global, number: u64, fault: LineFault) -> Result<Vec<u8>, EventFault>
    ensures { IsErrorLine number result }
{
    match format!(in alloc; "{fault}") {
        Ok(text) => write_error(alloc, number, text.as_str()),
        Err(_) => Err(EventFault::Memory),
    }
}

/// Queues the value of an attribute.
fn send_value(
    alloc: Global,
    types: &[TypedAttribute],
    adapter: &Adapter,
    attribute: AttributeRef,
    session: &mut Session,
)
    ensures sent { IsSent (IsValueLine types.now (contents_in adapter.now) attribute) session.old session.new }
    ensures line { session.new.line ≡ session.old.line }
{
    let bytes = value_of(adapter, attribute);
    let line = write_value(
        alloc,
        &ValueEvent {
            attribute,
            value_type: type_at(types, attribute),
            data: bytes.as_slice(),
        },
    );
    session.send(line);
}

/// The bytes of an attribute, none if there is no such attribute.
fn value_of(adapter: &Adapter, attribute: AttributeRef) -> ReplyBuf
    ensures { result.items ≡ bytes_at (contents_in adapter.now) attribute.class attribute.instance attribute.attribute }
{
    let mut bytes = ReplyBuf::new();
    adapter.objects().read_attribute(
        attribute.class,
        attribute.instance,
        attribute.attribute,
        &mut bytes,
    );
    bytes
}

/// Queues a set of an attribute by the peer at this address, if the session is open.
fn send_changed(
    alloc: Global,
    types: &[TypedAttribute],
    adapter: &Adapter,
    by: IpAddr,
    attribute: AttributeRef,
    session: &mut Session,
)
    ensures { IsSetReported types.now (contents_in adapter.now) by attribute session.old session.new }
{
    if !session.is_open() {
        return;
    }
    let bytes = value_of(adapter, attribute);
    let line = write_changed(
        alloc,
        &ChangedEvent {
            attribute,
            value_type: type_at(types, attribute),
            data: bytes.as_slice(),
            by,
        },
    );
    session.send(line);
}

/// Queues the last Reset, by the peer at this address, if it was not reported and the session is open. It counts as
/// reported from now on.
pub(crate) fn report_reset(
    alloc: Global,
    adapter: &Adapter,
    by: IpAddr,
    reported: &mut u32,
    session: &mut Session,
)
    ensures sent { IsResetSeen adapter.now by reported.old session.old session.new }
    ensures reported { reported.new ≡ resets_of adapter.now }
{
    let resets = adapter.resets();
    if resets == *reported {
        return;
    }
    *reported = resets;
    send_reset(alloc, adapter, by, session);
}

/// Queues the last Reset, by the peer at this address, if the session is open.
fn send_reset(alloc: Global, adapter: &Adapter, by: IpAddr, session: &mut Session)
    ensures { IsResetReported adapter.now by session.old session.new }
{
    if !session.is_open() {
        return;
    }
    let line = write_reset(
        alloc,
        &ResetEvent {
            reset_type: last_type(adapter),
            by,
        },
    );
    session.send(line);
}

/// The number of the last Reset's type. 0 if there was none.
fn last_type(adapter: &Adapter) -> u8
    ensures { result ≡ last_type_in adapter.now.state.shared.objects.router.reset }
{
    match adapter.resetting() {
        Some(resetting) => match resetting.last() {
            Some(last) => last.number(),
            None => 0,
        },
        None => 0,
    }
}

/// Queues so many sets of an attribute.
fn send_sets(
    alloc: Global,
    types: &[TypedAttribute],
    adapter: &Adapter,
    by: IpAddr,
    attribute: AttributeRef,
    sets: u32,
    session: &mut Session,
)
    ensures { AreSent sets (IsSetReported types.now (contents_in adapter.now) by attribute) session.old session.new }
{
    for _ in 0..sets {
        send_changed(alloc, types, adapter, by, attribute, session);
    }
}

/// Queues the question with this number: what a peer at this address asks.
pub(crate) fn send_asked(
    alloc: Global,
    types: &[TypedAttribute],
    by: IpAddr,
    number: u32,
    request: &OwnRequest<'_>,
    session: &mut Session,
)
    ensures { IsSent (IsAskedLine types.now by number (asked_in request.now)) session.old session.new }
{
    let line = write_asked(
        alloc,
        &AskedEvent {
            question: number,
            class: request.class,
            instance: request.instance,
            service: request.service,
            attribute: request.attribute,
            value_type: type_to_set(types, request),
            data: request.data,
            by,
        },
    );
    session.send(line);
}

/// The type of the value that a request sets, if it sets one and the type is known.
fn type_to_set(types: &[TypedAttribute], request: &OwnRequest<'_>) -> Option<ValueType>
    ensures { result ≡ type_to_set types.now (asked_in request.now) }
{
    if request.service != SET_ATTRIBUTE_SINGLE {
        return None;
    }
    let attribute = request.attribute?;
    type_at(
        types,
        AttributeRef {
            class: request.class,
            instance: request.instance,
            attribute,
        },
    )
}

/// Queues each set that was not reported. All of them are by the peer at this address.
pub(crate) fn report_sets(
    alloc: Global,
    types: &[TypedAttribute],
    adapter: &Adapter,
    by: IpAddr,
    counts: &mut [SetCount],
    session: &mut Session,
)
    ensures reported { AreReported types.now adapter.now by counts.old session.old counts.new session.new }
    ensures counted { AreCounted (tallies_in adapter.now) counts.new }
{
    let Some((count, others)) = counts.split_first_mut() else {
        return;
    };
    let sets = count.take(adapter);
    send_sets(alloc, types, adapter, by, count.attribute, sets, session);
    report_sets(alloc, types, adapter, by, others, session);
}

/// Queues the connections that ended, if the session is open.
pub(crate) fn send_ends(alloc: Global, connections: &[EndedConnection], session: &mut Session)
    ensures { AreEndsReported connections.now session.old session.new }
{
    let Some((connection, others)) = connections.split_first() else {
        return;
    };
    send_end(alloc, *connection, session);
    send_ends(alloc, others, session);
}

/// Queues a connection that ended, if the session is open.
fn send_end(alloc: Global, connection: EndedConnection, session: &mut Session)
    ensures { IsEndReported connection session.old session.new }
{
    if !session.is_open() {
        return;
    }
    let line = write_ended(
        alloc,
        &EndedEvent {
            connection: connection.id,
            reason: reason_of(connection.reason),
        },
    );
    session.send(line);
}

/// Why a connection ended.
fn reason_of(reason: EndReason) -> &'static str
    ensures { result.now ≡ reason_text reason }
{
    match reason {
        EndReason::TimedOut => "timed out",
        EndReason::PeerEnded => "peer ended",
        EndReason::SessionEnded => "session ended",
        EndReason::Closed => "closed",
    }
}
