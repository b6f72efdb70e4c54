//! The functions of an adapter.

ghost use Rattle.std.specs.Prelude.{◌≡◌, ◌≤◌, ◌<◌, length, None, IfOk, IfErr, IfSome, is_some, is_none};
ghost use Rattle.std.specs.Option.{option_map, IsSomeAnd};
ghost use Rattle.enip_adapter.specs.Adapter.{feed_output};
ghost use Rattle.enip_adapter.specs.declared.peer.Rights.TheVariants.{Write};
ghost use Rattle.enip_adapter.specs.Calls.{Call, after_call, call_answer};
ghost use Rattle.enip_adapter.specs.Discovery.{discovered};
ghost use Rattle.enip_adapter.specs.Withdrawing.{found_by_piece};
ghost use Rattle.configured_adapter.specs.Configured.{IsAdapterOf};
ghost use Rattle.enip_c.specs.AdapterCalls.{IsFed, IsFedKept, IsBegun, IsBegunKept, IsRefusedBy, no_reply_reason_number, fed_of, answer_bytes};
ghost use Rattle.enip_c.specs.AdapterCalls.{bool_number, full_status, AreFreeKept, deadline_kept, attribute_kept, discovered_kept};
ghost use Rattle.enip_c.specs.AdapterCalls.{IsAdapterStatus, IsMakeFault, check_number, has_no_queue, group_of, rights_of};
ghost use Rattle.enip_c.specs.Kept.{IsLive};
ghost use Rattle.cip_objects.specs.Contents.{value_at};
ghost use Rattle.enip_c.specs.Buffer.{status_number, in_buffer, returned_bytes, ReturnsNumber};

use crate::adapter_pointer::KeptAdapter;
use crate::buffer::{copy_front, return_bytes};
use crate::make_fault::MakeFault;
use crate::status::Status;
use configured_adapter::adapter_from;
use enip_adapter::{Adapter, DiscoveryBuffer, Full, LONGEST_ANSWER, NoReplyReason, Peer, Rights};
use enip_config::ConfigurationRefusal;
use std::alloc::Global;

/// The result of a feed: `enip_fed` of `enip.h`.
#[repr(C)]
#[derive(Clone, Copy, Debug)]
pub struct Fed {
    /// The number of bytes taken from the front of the piece.
    pub taken: usize,
    /// The number of bytes of the answer in the buffer, 0 if there is none.
    pub answer: usize,
    /// Why there is no answer, 0 if there is one.
    pub no_reply_reason: u32,
    /// 1 if the peer is closed or unknown, otherwise 0.
    pub close: u32,
}

/// The number of a queued service in C, `ENIP_CONFIG_QUEUED`.
pub(crate) const QUEUED_NUMBER: u32 = 16;

/// The number of a check in C. The lists of the table `access` have 14, since 13 is the number of `ENIP_CONFIG_ORDER`.
/// The table `commands` has 15.
pub(crate) fn check_number(refusal: ConfigurationRefusal) -> u32
    ensures { result ≡ check_number refusal }
{
    match refusal {
        ConfigurationRefusal::Access => 14,
        ConfigurationRefusal::Commands => 15,
        _ => u32::from(refusal.number()),
    }
}

/// Makes an adapter from the text of a configuration. Allocates all the memory that it will ever need.
#[unsafe(no_mangle)]
pub extern "C" fn enip_core_adapter_new(
    alloc: Global,
    kept: &mut KeptAdapter,
    text: &[u8],
    refusal: &mut u32,
) -> u32
    ensures status { IsAdapterStatus result }
    ensures made { result ≡ status_number Status.Done → IsSomeAnd kept.new.value (IsAdapterOf text.now) }
    ensures no_queue { result ≡ status_number Status.Done → IsSomeAnd kept.new.value has_no_queue }
    ensures refused { result ≡ status_number Status.Configuration → IsRefusedBy text.now refusal.new }
    ensures unchanged { (result ≡ status_number Status.Done → ⊥) → kept.new.value ≡ kept.old.value }
{
    match boxed_adapter(alloc, text) {
        Ok(adapter) => {
            *kept = KeptAdapter::of(adapter);
            Status::Done.number()
        }
        Err(MakeFault::Refused(why)) => {
            *refusal = check_number(why);
            Status::Configuration.number()
        }
        Err(MakeFault::Queued) => {
            *refusal = QUEUED_NUMBER;
            Status::Configuration.number()
        }
        Err(MakeFault::Memory) => Status::Memory.number(),
    }
}

/// The adapter of a configuration without a queued service, in a box.
fn boxed_adapter(alloc: Global, text: &[u8]) -> Result<Box<Adapter, Global>, MakeFault>
    ensures made { IfOk result (λ adapter. IsAdapterOf text.now adapter.value) }
    ensures no_queue { IfOk result (λ adapter. has_no_queue adapter.value) }
    ensures refused { IfErr result (IsMakeFault text.now) }
{
    let adapter = adapter_from(alloc, text)?;
    if adapter.queue().is_some() {
        return Err(MakeFault::Queued);
    }
    let boxed = Box::new(alloc, adapter)?;
    Ok(boxed)
}

/// Frees an adapter.
#[unsafe(no_mangle)]
pub extern "C" fn enip_core_adapter_free(alloc: Global, kept: &mut KeptAdapter)
    requires { IsLive kept.old.value }
    ensures { kept.new.value ≡ None }
{
    drop(kept.take(alloc));
}

/// Adds a peer.
#[unsafe(no_mangle)]
pub extern "C" fn enip_core_adapter_begin(
    alloc: Global,
    kept: &mut KeptAdapter,
    peer: &mut u32,
) -> u32
    requires { IsLive kept.old.value }
    ensures state { kept.new.value ≡ option_map (λ a. after_call a (Call.Begins_peer Write None)) kept.old.value }
    ensures begun { IsBegunKept Write None kept.old.value peer.old peer.new result }
{
    let mut adapter = kept.take(alloc);
    let status = begin(&mut adapter, Rights::Write, None, peer);
    *kept = KeptAdapter::of(adapter);
    status
}

/// Adds a peer with these rights, which counts for the share of a group if `has_group` is not 0.
#[unsafe(no_mangle)]
pub extern "C" fn enip_core_adapter_begin_as(
    alloc: Global,
    kept: &mut KeptAdapter,
    rights: u32,
    has_group: u32,
    high: u64,
    low: u64,
    peer: &mut u32,
) -> u32
    requires { IsLive kept.old.value }
    ensures state { kept.new.value
        ≡ option_map (λ a. after_call a (Call.Begins_peer (rights_of rights) (group_of has_group high low))) kept.old.value }
    ensures begun { IsBegunKept (rights_of rights) (group_of has_group high low) kept.old.value peer.old peer.new result }
{
    let mut adapter = kept.take(alloc);
    let rights = rights_of(rights);
    let group = group_of(has_group, high, low);
    let status = begin(&mut adapter, rights, group, peer);
    *kept = KeptAdapter::of(adapter);
    status
}

/// What a peer may do, by the number in `enip.h`.
fn rights_of(rights: u32) -> Rights
    ensures { result ≡ rights_of rights }
{
    if rights == 1 {
        Rights::Read
    } else {
        Rights::Write
    }
}

/// The group of 16 bytes: the number of the first eight, and that of the last eight.
fn group_of(has_group: u32, high: u64, low: u64) -> Option<u128>
    ensures { result ≡ group_of has_group high low }
{
    if has_group == 0 {
        None
    } else {
        Some(u128::from(high) * 0x1_0000_0000_0000_0000 + u128::from(low))
    }
}

fn begin(adapter: &mut Adapter, rights: Rights, group: Option<u128>, peer: &mut u32) -> u32
    ensures state { adapter.new ≡ after_call adapter.old (Call.Begins_peer rights group) }
    ensures begun { IsBegun (call_answer adapter.old (Call.Begins_peer rights group)).output peer.old peer.new result }
{
    match adapter.begin_as(rights, group) {
        Ok(begun) => {
            *peer = begun.handle();
            Status::Done.number()
        }
        Err(full) => status_of(full).number(),
    }
}

fn status_of(full: Full) -> Status
    ensures { result ≡ full_status full }
{
    match full {
        Full::Places => Status::Places,
        Full::Handles => Status::Handles,
        Full::Share => Status::Share,
    }
}

/// Feeds a piece of a peer's stream, at the time `now`.
#[unsafe(no_mangle)]
pub extern "C" fn enip_core_adapter_feed(
    alloc: Global,
    kept: &mut KeptAdapter,
    now: u64,
    peer: u32,
    piece: &[u8],
    buffer: &mut [u8],
    fed: &mut Fed,
) -> u32
    requires { IsLive kept.old.value }
    ensures small { length buffer.old < LONGEST_ANSWER → result ≡ status_number Status.Room }
    ensures kept { length buffer.old < LONGEST_ANSWER → kept.new.value ≡ kept.old.value }
    ensures buffer { length buffer.old < LONGEST_ANSWER → buffer.new ≡ buffer.old }
    ensures untold { length buffer.old < LONGEST_ANSWER → fed.new ≡ fed.old }
    ensures done { LONGEST_ANSWER ≤ length buffer.old → result ≡ status_number Status.Done }
    ensures fed { LONGEST_ANSWER ≤ length buffer.old
        → IsFedKept kept.old.value kept.new.value (Call.Feeds now peer piece.now) buffer.old buffer.new fed.new }
{
    if buffer.len() < LONGEST_ANSWER {
        return Status::Room.number();
    }
    let mut adapter = kept.take(alloc);
    *fed = feed(&mut adapter, now, peer, piece, buffer);
    *kept = KeptAdapter::of(adapter);
    Status::Done.number()
}

fn feed(adapter: &mut Adapter, now: u64, peer: u32, piece: &[u8], buffer: &mut [u8]) -> Fed
    requires { LONGEST_ANSWER ≤ length buffer.old }
    ensures { IsFed adapter.old adapter.new (Call.Feeds now peer piece.now) buffer.old buffer.new result }
{
    return_fed(adapter.feed(now, &Peer::of(peer), piece), buffer)
}

/// Copies the answer to the front of the buffer, if there is one.
#[inline(always)]
pub(crate) fn return_fed(fed: enip_adapter::Fed<'_>, buffer: &mut [u8]) -> Fed
    requires fits { IfSome fed.answer (λ frame. length frame.now ≤ length buffer.old) }
    requires reason { is_some fed.no_reply_reason ≡ is_none fed.answer }
    ensures answer { buffer.new
        ≡ in_buffer (answer_bytes (feed_output fed.entry.answer fed.entry.no_reply_reason)) buffer.old }
    ensures returned { result ≡ fed_of fed.entry.taken
        (record { output = feed_output fed.entry.answer fed.entry.no_reply_reason; close = fed.entry.close }) }
{
    let answer = match fed.answer {
        Some(bytes) => copy_front(bytes, buffer),
        None => 0,
    };
    let no_reply_reason = match fed.no_reply_reason {
        Some(why) => number_of(why),
        None => 0,
    };
    Fed {
        taken: fed.taken,
        answer,
        no_reply_reason,
        close: u32::from(fed.close),
    }
}

fn number_of(why: NoReplyReason) -> u32
    ensures { result ≡ no_reply_reason_number why }
{
    match why {
        NoReplyReason::NoFrame => 1,
        NoReplyReason::Options => 2,
        NoReplyReason::Status => 3,
        NoReplyReason::Nop => 4,
        NoReplyReason::AnotherSession => 5,
        NoReplyReason::NotAPacket(_) => 6,
        NoReplyReason::NotTaken => 7,
        NoReplyReason::Unregistered => 8,
        NoReplyReason::NotServed => 9,
    }
}

/// Sets the time.
#[unsafe(no_mangle)]
pub extern "C" fn enip_core_adapter_tick(alloc: Global, kept: &mut KeptAdapter, now: u64)
    requires { IsLive kept.old.value }
    ensures { kept.new.value ≡ option_map (λ a. after_call a (Call.Ticks now)) kept.old.value }
{
    let mut adapter = kept.take(alloc);
    adapter.tick(now);
    *kept = KeptAdapter::of(adapter);
}

/// Sets the time, and withdraws what a piece of a peer's stream withdraws: that of the frame which it completes. To be
/// called before the piece is fed.
#[unsafe(no_mangle)]
pub extern "C" fn enip_core_adapter_withdraw(
    alloc: Global,
    kept: &mut KeptAdapter,
    now: u64,
    peer: u32,
    piece: &[u8],
)
    requires { IsLive kept.old.value }
    ensures { kept.new.value
        ≡ option_map (λ a. found_by_piece (after_call a (Call.Ticks now)) peer piece.now) kept.old.value }
{
    let mut taken = kept.take(alloc);
    taken.tick(now);
    taken.withdraw_asked(&Peer::of(peer), piece);
    *kept = KeptAdapter::of(taken);
}

/// Removes a peer.
#[unsafe(no_mangle)]
pub extern "C" fn enip_core_adapter_end(alloc: Global, kept: &mut KeptAdapter, peer: u32)
    requires { IsLive kept.old.value }
    ensures { kept.new.value ≡ option_map (λ a. after_call a (Call.Ends_peer peer)) kept.old.value }
{
    let mut adapter = kept.take(alloc);
    adapter.end(Peer::of(peer));
    *kept = KeptAdapter::of(adapter);
}

/// The earliest deadline of the open connections.
#[unsafe(no_mangle)]
pub extern "C" fn enip_core_adapter_deadline(
    alloc: Global,
    kept: &mut KeptAdapter,
    deadline: &mut u64,
) -> u32
    requires { IsLive kept.old.value }
    ensures kept { kept.new.value ≡ kept.old.value }
    ensures returned { ReturnsNumber (deadline_kept kept.old.value) deadline.old deadline.new result }
{
    let adapter = kept.take(alloc);
    let status = match adapter.deadline() {
        Some(moment) => {
            *deadline = moment;
            Status::Done.number()
        }
        None => Status::Absent.number(),
    };
    *kept = KeptAdapter::of(adapter);
    status
}

/// The bytes of a readable attribute.
#[unsafe(no_mangle)]
pub extern "C" fn enip_core_adapter_read(
    alloc: Global,
    kept: &mut KeptAdapter,
    class: u16,
    instance: u32,
    attribute: u16,
    buffer: &mut [u8],
    count: &mut usize,
) -> u32
    requires { IsLive kept.old.value }
    ensures kept { kept.new.value ≡ kept.old.value }
    ensures returned { record { status = result; count = count.new; buffer = buffer.new }
        ≡ returned_bytes (attribute_kept kept.old.value class instance attribute) count.old buffer.old }
{
    let adapter = kept.take(alloc);
    let status = read(&adapter, class, instance, attribute, buffer, count);
    *kept = KeptAdapter::of(adapter);
    status
}

fn read(
    adapter: &Adapter,
    class: u16,
    instance: u32,
    attribute: u16,
    buffer: &mut [u8],
    count: &mut usize,
) -> u32
    ensures { record { status = result; count = count.new; buffer = buffer.new }
        ≡ returned_bytes (value_at adapter.now.state.shared.objects.router.objects class instance attribute) count.old buffer.old }
{
    match adapter.objects().attribute(class, instance, attribute) {
        Some(bytes) => return_bytes(bytes.as_slice(), buffer, count),
        None => Status::Absent.number(),
    }
}

/// The answer to a UDP datagram.
#[unsafe(no_mangle)]
pub extern "C" fn enip_core_adapter_discover(
    alloc: Global,
    kept: &mut KeptAdapter,
    datagram: &[u8],
    buffer: &mut [u8],
    count: &mut usize,
) -> u32
    requires { IsLive kept.old.value }
    ensures kept { kept.new.value ≡ kept.old.value }
    ensures returned { record { status = result; count = count.new; buffer = buffer.new }
        ≡ returned_bytes (discovered_kept kept.old.value datagram.now) count.old buffer.old }
    ensures fits { LONGEST_ANSWER ≤ length buffer.old → result ≡ status_number Status.Room → ⊥ }
{
    let adapter = kept.take(alloc);
    let status = discover(&adapter, datagram, buffer, count);
    *kept = KeptAdapter::of(adapter);
    status
}

fn discover(adapter: &Adapter, datagram: &[u8], buffer: &mut [u8], count: &mut usize) -> u32
    ensures returned { record { status = result; count = count.new; buffer = buffer.new }
        ≡ returned_bytes (discovered adapter.now.state.shared datagram.now) count.old buffer.old }
    ensures fits { LONGEST_ANSWER ≤ length buffer.old → result ≡ status_number Status.Room → ⊥ }
{
    let mut room = DiscoveryBuffer::new();
    match adapter.discover(datagram, &mut room) {
        Some(answer) => return_bytes(answer, buffer, count),
        None => Status::Absent.number(),
    }
}

/// The number of free slots for peers and for connections.
#[unsafe(no_mangle)]
pub extern "C" fn enip_core_adapter_places(
    alloc: Global,
    kept: &mut KeptAdapter,
    peers: &mut u16,
    connections: &mut u16,
)
    requires { IsLive kept.old.value }
    ensures kept { kept.new.value ≡ kept.old.value }
    ensures free { AreFreeKept kept.old.value peers.new connections.new }
{
    let adapter = kept.take(alloc);
    (*peers, *connections) = adapter.free();
    *kept = KeptAdapter::of(adapter);
}
