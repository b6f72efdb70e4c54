//! The slots of the peers: how each is served, released and closed.
//! Text: docs/PROGRAM.md, "`enip serve`".

ghost use Rattle.std.specs.Prelude.{◌≡◌, ◌≤◌, length};
ghost use Rattle.std.specs.List.{list_any};
ghost use Rattle.enip_server.specs.Held.{IsSlotReleased, AreSlotsReleased};
ghost use Rattle.enip_server.specs.Resets.{closed_slot, closed_slots};
ghost use Rattle.enip_server.specs.Rounds.{IsSlotServed, AreSlotsServed, has_ended, ended_in, is_ready};

use crate::held_wire::HeldWire;
use crate::peer_io::PeerIo;
use crate::watcher::Watcher;
use crate::wire::Wire;
use cip_owner::Owner;
use enip_adapter::Adapter;

/// Releases the wires in these slots. Returns whether one of the peers may have a turn now.
pub(crate) fn release_slots<W: Wire + Drop>(slots: &mut [Option<PeerIo<HeldWire<W>>>]) -> bool
    ensures released { AreSlotsReleased W.left W.written W.known W.counts slots.old slots.new }
    ensures ready { result ≡ list_any is_ready slots.new }
{
    let Some((slot, others)) = slots.split_first_mut() else {
        return false;
    };
    let ready = release_slot(slot);
    release_slots(others) || ready
}

/// Releases the wire in a slot. Returns whether its peer may have a turn now.
fn release_slot<W: Wire + Drop>(slot: &mut Option<PeerIo<HeldWire<W>>>) -> bool
    ensures released { IsSlotReleased W.left W.written W.known W.counts slot.old slot.new }
    ensures ready { result ≡ is_ready slot.new }
{
    match slot {
        Some(io) => {
            io.release();
            io.ready
        }
        None => false,
    }
}

/// Closes the peers in these slots at the time `now`.
pub(crate) fn close_slots<W: Wire + Drop>(slots: &mut [Option<PeerIo<W>>], now: u64)
    ensures { slots.new ≡ closed_slots now slots.old }
{
    let Some((slot, others)) = slots.split_first_mut() else {
        return;
    };
    close_slot(slot, now);
    close_slots(others, now);
}

/// Closes the peer in a slot at the time `now`, if there is one.
fn close_slot<W: Wire + Drop>(slot: &mut Option<PeerIo<W>>, now: u64)
    ensures { slot.new ≡ closed_slot now slot.old }
{
    if let Some(io) = slot {
        io.close(now);
    }
}

/// Whether a slot has a peer whose wire may be ready now.
pub(crate) fn is_slot_ready<W>(slot: &Option<PeerIo<W>>) -> bool
    ensures { result ≡ is_ready slot.now }
{
    match slot {
        Some(io) => io.ready,
        None => false,
    }
}

/// Serves the slots of a round, one after the other. Returns the number of peers that ended.
pub(crate) fn serve_slots<W: Wire + Drop, O: Owner, T: Watcher<W>>(
    places: &mut [Option<PeerIo<W>>],
    adapter: &mut Adapter,
    owner: &mut O,
    watcher: &mut T,
    now: u64,
    idle_timeout: u64,
) -> usize
    ensures served { AreSlotsServed W.left W.written W.known W.counts O.answer O.after now idle_timeout
        owner.old adapter.old places.old owner.new adapter.new places.new }
    ensures watched { T.has_seen watcher.old adapter.old.state.shared.objects →
        T.has_seen watcher.new adapter.new.state.shared.objects }
    ensures ended { result ≡ ended_in places.old places.new }
    ensures few { result ≤ length places.old }
{
    let Some((slot, others)) = places.split_first_mut() else {
        return 0;
    };
    let ended = serve_slot(slot, adapter, owner, watcher, now, idle_timeout);
    usize::from(ended) + serve_slots(others, adapter, owner, watcher, now, idle_timeout)
}

/// Serves one slot of a round. Returns whether its peer ended.
fn serve_slot<W: Wire + Drop, O: Owner, T: Watcher<W>>(
    slot: &mut Option<PeerIo<W>>,
    adapter: &mut Adapter,
    owner: &mut O,
    watcher: &mut T,
    now: u64,
    idle_timeout: u64,
) -> bool
    ensures served { IsSlotServed W.left W.written W.known W.counts O.answer O.after now idle_timeout
        owner.old adapter.old slot.old owner.new adapter.new slot.new }
    ensures watched { T.has_seen watcher.old adapter.old.state.shared.objects →
        T.has_seen watcher.new adapter.new.state.shared.objects }
    ensures ended { result ≡ has_ended slot.old slot.new }
{
    let Some(io) = slot else {
        return false;
    };
    if io.serve(adapter, owner, watcher, now, idle_timeout) {
        return false;
    }
    adapter.end(io.peer);
    *slot = None;
    true
}
