//! SendRRData: unconnected requests.
//! Text: docs/PROTOCOL.md, "Packets: SendRRData and SendUnitData".

ghost use Rattle.std.specs.Prelude.{◌≡◌, ◌≤◌, length};
ghost use Rattle.cip_bytes.specs.declared.protocol.EncapsulationStatus.TheVariants.{Success};
ghost use Rattle.cip_message.specs.PathReading.{path_of};
ghost use Rattle.enip_wire.specs.Bodies.{rr_body_bytes};
ghost use Rattle.enip_wire.specs.Stream.{frame_of};
ghost use Rattle.enip_adapter.specs.Replies.{reply};
ghost use Rattle.enip_adapter.specs.Replies.Reply.{Sends};
ghost use Rattle.enip_adapter.specs.Rights.{after_for, answer_for};
ghost use Rattle.enip_adapter.specs.SendRRData.{send_rr_data, routed, route_of, opener_of, is_manager};
ghost use Rattle.enip_adapter.specs.Routes.{route_in, is_path_of_manager};

use crate::peer::Session;
use crate::reply::{AnswerFrame, refuse, write_reply};
use crate::rights::{is_refused, refuse_change};
use crate::shared::Shared;
use cip_bytes::protocol::{
    CONNECTION_MANAGER, EncapsulationStatus, ManagerService, UNCONNECTED_LIMIT,
};
use cip_manager::Opener;
use cip_message::{Path, RequestView, read_path};
use cip_objects::{ReplyBuf, Router};
use enip_wire::{FrameView, Header, rr_body, rr_body_head};

/// Who answers a request.
#[derive(Clone, Copy)]
pub(super) enum Route<'a> {
    /// The Connection Manager: a service of its own, and its data.
    Manager(ManagerService, &'a [u8]),
    /// The objects.
    Objects,
}

impl<'a> Route<'a> {
    /// The route of a request with these bytes.
    #[inline(always)]
    #[tactic(auto, using(crate::proofs::RouteLemmas::objects_by_service))]
    pub(super) fn of(request: &'a [u8]) -> Route<'a>
        requires { 2 ≤ length request.now }
        ensures { route_in result ≡ route_of request.now }
    {
        // Most requests have none of its services. Their path is not read for this.
        if ManagerService::of(request[0]).is_none() {
            return Route::Objects;
        }
        let Ok(request) = RequestView::read(request) else {
            return Route::Objects;
        };
        match ManagerService::of(request.service) {
            Some(service) if is_to_manager(request.path) => {
                Route::Manager(service, request.data)
            }
            _ => Route::Objects,
        }
    }
}

/// Whether these bytes are a path to instance 1 of the Connection Manager.
#[inline(never)]
fn is_to_manager(path: &[u8]) -> bool
    ensures { result ≡ is_path_of_manager (path_of path.now) }
{
    match read_path(path) {
        Ok(path) => is_manager(path),
        Err(_) => false,
    }
}

/// Whether a path leads to instance 1 of the Connection Manager.
fn is_manager(path: Path) -> bool
    ensures { result ≡ is_manager path }
{
    path.class == CONNECTION_MANAGER && path.instance == 1
}

/// SendRRData.
#[inline(always)]
pub(super) fn send_rr_data(
    shared: &mut Shared,
    session: Session,
    frame: FrameView<'_>,
    reply: &mut ReplyBuf,
    answer: &mut AnswerFrame,
)
    ensures shared { shared.new ≡ (send_rr_data shared.old session (frame_of frame.entry)).shared }
    ensures answer { Sends answer.new.items ≡ (send_rr_data shared.old session (frame_of frame.entry)).reaction.answer }
{
    // Not this peer's registered session: 0x0064.
    if !session.is_registered_as(frame.header.session) {
        return refuse(frame.header, EncapsulationStatus::InvalidSession, answer);
    }
    // Not a packet, or a request of fewer than 2 bytes: 0x0003.
    match rr_body(frame.body) {
        Ok(request) if request.len() >= 2 => {
            dispatch(shared, session, request, reply);
            write_rr_reply(&frame.header, reply.as_slice(), answer);
        }
        _ => refuse(frame.header, EncapsulationStatus::PoorlyFormedData, answer),
    }
}

/// Passes a request to the Connection Manager or to the objects, and leaves the reply in `reply`.
#[inline(always)]
fn dispatch(shared: &mut Shared, session: Session, request: &[u8], reply: &mut ReplyBuf)
    requires { 2 ≤ length request.now }
    ensures shared { shared.new ≡ (routed shared.old session request.now).shared }
    ensures reply { reply.new.items ≡ (routed shared.old session request.now).reply }
    ensures fits { length reply.new.items ≤ UNCONNECTED_LIMIT }
{
    match Route::of(request) {
        Route::Manager(ManagerService::ForwardOpen, data) => {
            shared
                .manager
                .open_for(shared.moment, opener_of(session), data, reply);
        }
        Route::Manager(ManagerService::LargeForwardOpen, data) => {
            shared
                .manager
                .open_large_for(shared.moment, opener_of(session), data, reply);
        }
        Route::Manager(ManagerService::ForwardClose, data) => {
            shared.manager.close(session.handle, data, reply);
        }
        Route::Objects => execute_for(shared, session, request, reply),
    }
}

/// Who opens a connection: the session, and the group that its peer counts for.
fn opener_of(session: Session) -> Opener
    ensures { result ≡ opener_of session }
{
    Opener {
        session: session.handle,
        group: session.group,
    }
}

/// Executes a request by the device, unless the session may not change anything and the request could.
#[inline(always)]
fn execute_for(shared: &mut Shared, session: Session, request: &[u8], reply: &mut ReplyBuf)
    requires { 2 ≤ length request.now }
    ensures shared { shared.new ≡ record shared.old {
      objects = after_for session.rights shared.old.objects UNCONNECTED_LIMIT request.now;
    } }
    ensures reply { reply.new.items ≡ answer_for session.rights shared.old.objects UNCONNECTED_LIMIT request.now }
    ensures fits { length reply.new.items ≤ UNCONNECTED_LIMIT }
{
    // A reader's request that could change something: 0x0f (ours).
    if is_refused(session.rights, request) {
        return refuse_change(request, reply);
    }
    shared.objects.execute(request, UNCONNECTED_LIMIT, reply)
}

/// Writes a whole reply to a SendRRData, with the router's reply as its data item.
#[inline(always)]
fn write_rr_reply(asked: &Header, router_reply: &[u8], answer: &mut AnswerFrame)
    requires { length router_reply.now ≤ UNCONNECTED_LIMIT }
    ensures { answer.new.items ≡ reply asked.now asked.now.session Success (rr_body_bytes router_reply.now) }
{
    let front = rr_body_head(router_reply.len() as u16);
    write_reply(
        asked,
        asked.session,
        EncapsulationStatus::Success,
        &front,
        router_reply,
        answer,
    );
}
