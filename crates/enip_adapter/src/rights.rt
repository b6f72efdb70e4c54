//! What a reader is refused.
//! Text: docs/PROTOCOL.md, "A peer".

ghost use Rattle.std.specs.Prelude.{◌≡◌};
ghost use Rattle.cip_message.specs.PathReading.{path_of};
ghost use Rattle.cip_message.specs.Request.{request_of};
ghost use Rattle.cip_objects.specs.OwnRequests.{is_own_service};
ghost use Rattle.enip_adapter.specs.Rights.{is_change_service, is_read_service, is_change, is_refused, is_path_to_ledger, is_to_ledger};
ghost use Rattle.enip_adapter.specs.Rights.{is_single_change, is_changing_packet, any_change, refusal};
ghost use Rattle.cip_objects.specs.Packets.{packet_of};

use crate::peer::Rights;
use cip_ledger::{GET_LAST, GET_SLOTS, LEDGER};
use cip_message::{RequestView, read_path, reply_service};
use cip_objects::{PacketRequests, ReplyBuf, Router, packet_data};

/// The general status privilege violation (Volume 1, general status codes).
pub(crate) const PRIVILEGE_VIOLATION: u8 = 0x0f;

/// Whether a request is refused to a peer with these rights. Nothing else of it is looked at before.
#[inline(always)]
pub(crate) fn is_refused(rights: Rights, request: &[u8]) -> bool
    ensures { result ≡ is_refused rights request.now }
{
    match rights {
        Rights::Write => false,
        Rights::Read => is_change(request),
    }
}

/// Whether a request could change something: the objects, the command ledger, or what the owner of the device moves.
#[inline(never)]
#[tactic(auto, unfolding(crate::specs::Rights::is_change))]
fn is_change(request: &[u8]) -> bool
    ensures { result ≡ is_change request.now }
{
    is_single_change(request) || is_changing_packet(request)
}

/// Whether a request is a packet of which one request could change something.
fn is_changing_packet(request: &[u8]) -> bool
    ensures { result ≡ is_changing_packet (packet_of request.now) }
{
    let Some(data) = packet_data(request) else {
        return false;
    };
    match PacketRequests::read(data) {
        Ok(requests) => any_change(requests),
        Err(_) => false,
    }
}

/// Whether one of the requests of a packet could change something.
fn any_change(requests: PacketRequests<'_>) -> bool
    ensures { result ≡ any_change requests.entry }
{
    for request in requests {
        if is_single_change(request) {
            return true;
        }
    }
    false
}

/// Whether a request could change something, apart from packets.
#[tactic(auto, unfolding(crate::specs::Rights::is_single_change))]
fn is_single_change(request: &[u8]) -> bool
    ensures { result ≡ is_single_change request.now }
{
    let Some(service) = request.first() else {
        return false;
    };
    if !is_change_service(*service) {
        return false;
    }
    // Get_Last and Get_Slots of the command ledger only read.
    !is_read_service(*service) || !is_to_ledger(request)
}

/// Whether a service of the command ledger only reads.
fn is_read_service(service: u8) -> bool
    ensures { result ≡ is_read_service service }
{
    service == GET_LAST || service == GET_SLOTS
}

/// Whether a service changes what it is sent to.
fn is_change_service(service: u8) -> bool
    ensures { result ≡ is_change_service service }
{
    match service {
        // Set_Attributes_All, Set_Attribute_List, Reset, Set_Attribute_Single, Set_Member.
        0x02 | 0x04 | 0x05 | 0x10 | 0x19 => true,
        // Vendor and class specific services.
        _ => 0x32 <= service && service <= 0x63,
    }
}

/// Whether a request goes to the class of the command ledger.
fn is_to_ledger(request: &[u8]) -> bool
    ensures { result ≡ is_to_ledger (request_of request.now) }
{
    match RequestView::read(request) {
        Ok(view) => is_path_to_ledger(view.path),
        Err(_) => false,
    }
}

/// Whether a path leads to the class of the command ledger.
fn is_path_to_ledger(path: &[u8]) -> bool
    ensures { result ≡ is_path_to_ledger (path_of path.now) }
{
    match read_path(path) {
        Ok(path) => path.class == LEDGER,
        Err(_) => false,
    }
}

/// Writes the reply to a request that a reader is refused.
pub(crate) fn refuse_change(request: &[u8], reply: &mut ReplyBuf)
    ensures { reply.new.items ≡ refusal request.now }
{
    let service = match request.first() {
        Some(service) => *service,
        None => 0,
    };
    reply.clear();
    reply.push(reply_service(service));
    reply.push(0);
    reply.push(PRIVILEGE_VIOLATION);
    reply.push(0);
}

/// A router that refuses each request. It is behind a connection in place of the device while a reader's item would
/// change something, so the connection keeps the refusal and repeats it as any reply.
#[derive(Clone, Copy, Drop)]
pub(crate) struct Refuser;

impl Router for Refuser {
    ghost use Rattle.std.specs.Prelude.{refl};
    ghost use Rattle.enip_adapter.specs.Rights.{refusal};

    ghost after = { λ refuser max_size request. refuser };

    ghost answer = { λ refuser max_size request. refusal request };

    /// Refuses a request.
    fn execute(&mut self, request: &[u8], max_size: usize, reply: &mut ReplyBuf) {
        refuse_change(request, reply);
    }

    ghost too_large = { λ refuser max_size request max_size_from status. refl };
}
