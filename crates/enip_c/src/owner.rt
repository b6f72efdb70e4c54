//! What the owner of the device is asked, and a feed with its reply.

ghost use Rattle.std.specs.Prelude.{◌≡◌, ◌≤◌, [], ◌∷◌, length, Some, IfSome, IfNone, true, false};
ghost use Rattle.std.specs.Option.{option_map};
ghost use Rattle.cip_objects.specs.OwnRequests.{asked_in};
ghost use Rattle.cip_owner.specs.Replies.{Reply};
ghost use Rattle.enip_adapter.specs.Asks.{asks_of_call};
ghost use Rattle.enip_adapter.specs.Calls.{Call, after_call};
ghost use Rattle.enip_c.specs.OwnerCalls.{asks_kept, returned_asked, is_unfit, prepared_status};
ghost use Rattle.enip_c.specs.OwnerCalls.{IsFedPrepared, IsFedPreparedKept};
ghost use Rattle.enip_c.specs.Kept.{IsLive};
ghost use Rattle.enip_c.specs.Buffer.{status_number};

use crate::adapter::{Fed, return_fed};
use crate::adapter_pointer::KeptAdapter;
use crate::buffer::copy_front;
use crate::status::Status;
use cip_bytes::protocol::GeneralStatus;
use cip_owner::{OWNER_REPLY_LIMIT, OwnRequest, OwnerReply};
use enip_adapter::{Adapter, LONGEST_ANSWER, Peer};
use std::alloc::Global;

/// What the owner is asked, apart from the data.
#[repr(C)]
#[derive(Clone, Copy, Debug)]
pub struct CAsked {
    /// The number of bytes of data in the buffer.
    pub length: usize,
    /// The instance of the object.
    pub instance: u32,
    /// Its class.
    pub class: u16,
    /// The attribute that the path names, 0 if it names none.
    pub attribute: u16,
    /// The most bytes of the reply's data.
    pub reply_limit: u16,
    /// The service.
    pub service: u8,
    /// 1 if the path names an attribute, otherwise 0.
    pub has_attribute: u8,
}

/// What the owner is asked by a piece of a peer's stream, at the time `now`. Sets the time; nothing else changes. The
/// data of the request are written to the buffer.
#[unsafe(no_mangle)]
pub extern "C" fn enip_core_adapter_asked(
    alloc: Global,
    kept: &mut KeptAdapter,
    now: u64,
    peer: u32,
    piece: &[u8],
    buffer: &mut [u8],
    asked: &mut CAsked,
) -> u32
    requires { IsLive kept.old.value }
    ensures state { kept.new.value ≡ option_map (λ a. after_call a (Call.Ticks now)) kept.old.value }
    ensures returned { record { status = result; asked = asked.new; buffer = buffer.new }
        ≡ returned_asked (asks_kept kept.old.value (Call.Feeds now peer piece.now)) asked.old buffer.old }
{
    let mut adapter = kept.take(alloc);
    let status = asked_by(&mut adapter, now, peer, piece, buffer, asked);
    *kept = KeptAdapter::of(adapter);
    status
}

fn asked_by(
    adapter: &mut Adapter,
    now: u64,
    peer: u32,
    piece: &[u8],
    buffer: &mut [u8],
    asked: &mut CAsked,
) -> u32
    ensures state { adapter.new ≡ after_call adapter.old (Call.Ticks now) }
    ensures returned { record { status = result; asked = asked.new; buffer = buffer.new }
        ≡ returned_asked (asks_of_call adapter.old (Call.Feeds now peer piece.now)) asked.old buffer.old }
{
    match adapter.asked(now, &Peer::of(peer), piece) {
        Some(request) => return_asked(request, buffer, asked),
        None => Status::Absent.number(),
    }
}

/// Copies a request to the owner to the buffer and to `asked`. If the data do not fit, nothing changes.
fn return_asked(request: OwnRequest<'_>, buffer: &mut [u8], asked: &mut CAsked) -> u32
    ensures { record { status = result; asked = asked.new; buffer = buffer.new }
        ≡ returned_asked (asked_in request.entry ∷ []) asked.old buffer.old }
{
    if request.data.len() > buffer.len() {
        return Status::Room.number();
    }
    *asked = CAsked {
        length: copy_front(request.data, buffer),
        instance: request.instance,
        class: request.class,
        attribute: request.attribute.unwrap_or(0),
        reply_limit: request.reply_limit,
        service: request.service,
        has_attribute: u8::from(request.attribute.is_some()),
    };
    Status::Done.number()
}

/// Feeds a piece of a peer's stream, at the time `now`, with the owner's reply to what it asks: a general status and
/// data, of which the request allows `limit` bytes. If the reply cannot be given, nothing changes.
#[unsafe(no_mangle)]
pub extern "C" fn enip_core_adapter_feed_prepared(
    alloc: Global,
    kept: &mut KeptAdapter,
    now: u64,
    peer: u32,
    piece: &[u8],
    general: u8,
    content: &[u8],
    limit: u16,
    buffer: &mut [u8],
    fed: &mut Fed,
) -> u32
    requires { IsLive kept.old.value }
    ensures status { result
        ≡ status_number (prepared_status (length buffer.old) limit (record { status = general; content = content.now })) }
    ensures kept { (result ≡ status_number Status.Done → ⊥) → kept.new.value ≡ kept.old.value }
    ensures buffer { (result ≡ status_number Status.Done → ⊥) → buffer.new ≡ buffer.old }
    ensures untold { (result ≡ status_number Status.Done → ⊥) → fed.new ≡ fed.old }
    ensures fed { result ≡ status_number Status.Done
        → IsFedPreparedKept kept.old.value kept.new.value now peer piece.now
        (record { status = general; content = content.now }) buffer.old buffer.new fed.new }
{
    if buffer.len() < LONGEST_ANSWER {
        return Status::Room.number();
    }
    if is_unfit(general, content, limit) {
        return Status::Misuse.number();
    }
    let mut adapter = kept.take(alloc);
    *fed = feed_prepared(&mut adapter, now, peer, piece, general, content, buffer);
    *kept = KeptAdapter::of(adapter);
    Status::Done.number()
}

/// Whether a reply of the owner cannot be given to a request that allows `limit` bytes.
fn is_unfit(general: u8, content: &[u8], limit: u16) -> bool
    ensures refused { result ≡ is_unfit limit (record { status = general; content = content.now }) }
    ensures short { result ≡ false → length content.now ≤ OWNER_REPLY_LIMIT }
{
    general == GeneralStatus::ReplyDataTooLarge.number()
        || content.len() > usize::from(limit)
        || content.len() > OWNER_REPLY_LIMIT
}

fn feed_prepared(
    adapter: &mut Adapter,
    now: u64,
    peer: u32,
    piece: &[u8],
    general: u8,
    content: &[u8],
    buffer: &mut [u8],
) -> Fed
    requires buffer { LONGEST_ANSWER ≤ length buffer.old }
    requires short { length content.now ≤ OWNER_REPLY_LIMIT }
    ensures { IsFedPrepared adapter.old adapter.new now peer piece.now
        (record { status = general; content = content.now }) buffer.old buffer.new result }
{
    // The reply is some 500 bytes, and is not moved more than it must be.
    let reply = OwnerReply::new(general, content);
    return_fed(
        adapter.feed_prepared(now, &Peer::of(peer), piece, reply),
        buffer,
    )
}
