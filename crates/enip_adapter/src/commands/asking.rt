//! What the owner of the device would be asked by a frame.
//! Text: docs/PROTOCOL.md, "A peer".

ghost use Rattle.std.specs.Prelude.{◌≡◌, ◌≤◌, [], ◌∷◌, find, length, IfSome};
ghost use Rattle.std.specs.Option.{option_map};
ghost use Rattle.cip_ledger.specs.Reaching.{listed};
ghost use Rattle.cip_manager.specs.Connection.{is_named};
ghost use Rattle.cip_objects.specs.OwnRequests.{asked_in};
ghost use Rattle.enip_wire.specs.Bodies.{rr_body_of, unit_body_of};
ghost use Rattle.enip_wire.specs.Stream.{frame_of};
ghost use Rattle.enip_adapter.specs.Asks.{request_lent, asks_by_requests, asks_by_seen};
ghost use Rattle.enip_adapter.specs.DeviceRuns as runs;
ghost use Rattle.enip_adapter.specs.Executing.{executing_seen};
ghost use Rattle.enip_adapter.specs.SendRRData.{route_of};
ghost use Rattle.enip_adapter.specs.Withdrawing.{requests_by_seen, shared_found, is_withdrawing};

use super::requests::Route;
use crate::peer::{Rights, Session};
use crate::rights::is_refused;
use crate::shared::Shared;
use cip_bytes::protocol::{Command, SEQUENCE_COUNT_SIZE, UNCONNECTED_LIMIT};
use cip_ledger::DoubtfulCommand;
use cip_owner::OwnRequest;
use enip_wire::{FrameView, rr_body, unit_body};

/// What the owner would be asked if a peer's whole frame were served, by the peer's session and the frame. `None` if
/// there is no frame, or if it has no request to the owner, or none that would be executed now.
pub(crate) fn asked<'a>(
    shared: &Shared,
    seen: Option<(Session, FrameView<'a>)>,
) -> Option<OwnRequest<'a>>
    ensures asked { listed (option_map asked_in result) ≡ asks_by_seen shared.now seen.entry }
    ensures short { IfSome result (λ own. length own.data.now ≤ 500) }
{
    let (session, frame) = seen?;
    let (request, max_size) = request_in_frame(shared, session, frame)?;
    asked_by_request(shared, request, max_size)
}

/// The command of the ledger that would be executed if a peer's whole frame were served. `None` if there is no frame,
/// or if it has no command that would be executed now, or only one that would be queued.
pub(crate) fn executing(
    shared: &Shared,
    seen: Option<(Session, FrameView<'_>)>,
) -> Option<DoubtfulCommand>
    ensures { result ≡ executing_seen shared.now seen.entry }
{
    let (session, frame) = seen?;
    let (request, max_size) = request_in_frame(shared, session, frame)?;
    shared.objects.executing(request, max_size)
}

/// Withdraws what the request of a peer's whole frame withdraws, and returns whether that is anything. Without a frame
/// nothing is.
pub(crate) fn withdraw(shared: &mut Shared, seen: Option<(Session, FrameView<'_>)>) -> bool
    ensures state { shared.new ≡ shared_found shared.old (requests_by_seen shared.old seen.entry) }
    ensures result { result ≡ is_withdrawing shared.old.objects (requests_by_seen shared.old seen.entry) }
{
    let Some((session, frame)) = seen else {
        return false;
    };
    match request_in_frame(shared, session, frame) {
        Some((request, _)) => shared.objects.withdraw_asked(request),
        None => false,
    }
}

/// What the owner would be asked by a request to the device, whose reply may have `max_size` bytes.
fn asked_by_request<'a>(
    shared: &Shared,
    request: &'a [u8],
    max_size: usize,
) -> Option<OwnRequest<'a>>
    ensures asked { listed (option_map asked_in result)
        ≡ asks_by_requests shared.now.objects ((max_size, request.now) ∷ []) }
    ensures short { IfSome result (λ own. length own.data.now ≤ 500) }
{
    let (reaching, limit) = shared.objects.reaching(request, max_size)?;
    shared.objects.router.asks(reaching, limit)
}

/// The request that would reach the device if a whole frame were served, and the limit on its reply.
fn request_in_frame<'a>(
    shared: &Shared,
    session: Session,
    frame: FrameView<'a>,
) -> Option<(&'a [u8], usize)>
    ensures { listed (option_map request_lent result)
        ≡ runs.requests_in_frame shared.now session (frame_of frame.entry) }
{
    let header = frame.header;
    // A frame with options or with a status is discarded.
    if header.options != 0 {
        return None;
    }
    if header.status != 0 {
        return None;
    }
    match Command::of(header.command) {
        Some(Command::SendRRData) if session.is_registered_as(header.session) => {
            request_in_rr(session.rights, frame.body)
        }
        Some(Command::SendUnitData) if session.is_registered_as(header.session) => {
            request_in_unit(shared, session, frame.body)
        }
        _ => None,
    }
}

/// The request of a SendRRData, if it is not to the Connection Manager.
fn request_in_rr(rights: Rights, body: &[u8]) -> Option<(&[u8], usize)>
    ensures { listed (option_map request_lent result) ≡ runs.requests_in_rr rights (rr_body_of body.now) }
{
    match rr_body(body) {
        Ok(request) if request.len() >= 2 => request_by_route(rights, request),
        _ => None,
    }
}

/// An unconnected request, if it is not to the Connection Manager.
fn request_by_route(rights: Rights, request: &[u8]) -> Option<(&[u8], usize)>
    requires { 2 ≤ length request.now }
    ensures { listed (option_map request_lent result)
        ≡ runs.requests_by_route rights request.now (route_of request.now) }
{
    match Route::of(request) {
        Route::Manager(..) => None,
        Route::Objects => request_by_rights(rights, request, UNCONNECTED_LIMIT),
    }
}

/// A request whose reply may have `max_size` bytes, if a peer with these rights is not refused it.
fn request_by_rights(rights: Rights, request: &[u8], max_size: usize) -> Option<(&[u8], usize)>
    ensures { listed (option_map request_lent result) ≡ runs.requests_by_rights rights max_size request.now }
{
    if is_refused(rights, request) {
        return None;
    }
    Some((request, max_size))
}

/// The request of a SendUnitData, if its item would be executed.
fn request_in_unit<'a>(
    shared: &Shared,
    session: Session,
    body: &'a [u8],
) -> Option<(&'a [u8], usize)>
    ensures { listed (option_map request_lent result)
        ≡ runs.requests_in_unit shared.now session (unit_body_of body.now) }
{
    match unit_body(body) {
        Ok((id, item)) => request_of_item(shared, session, id, item),
        Err(_) => None,
    }
}

/// The request of an item, if the connection with this O->T ID would execute it. A repeat is not executed.
fn request_of_item<'a>(
    shared: &Shared,
    session: Session,
    id: u32,
    item: &'a [u8],
) -> Option<(&'a [u8], usize)>
    ensures { listed (option_map request_lent result) ≡ runs.requests_by_connection session.rights item.now
        (find (is_named session.handle id) shared.now.manager.connections) }
{
    let max_size = shared.manager.would_execute(session.handle, id, item)?;
    request_by_rights(session.rights, &item[SEQUENCE_COUNT_SIZE..], max_size)
}
