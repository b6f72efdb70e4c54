//! Admits the frames that wait.

ghost use Rattle.std.specs.Prelude.{◌≡◌, true, option_map};
ghost use Rattle.std.specs.List.{list_any};
ghost use Rattle.enip_server.specs.Admissions.{IsFrameShown, IsSlotShown, AreSlotsShown, frame_of_peer, if_admitted};
ghost use Rattle.enip_server.specs.Rounds.{is_ready};

use crate::gate::Gate;
use crate::gated_wire::GatedWire;
use crate::peer_io::PeerIo;
use enip_adapter::Adapter;

/// Admits the frames that wait in these slots, as far as the gate does. Returns whether one of the peers may have a turn
/// now.
pub(crate) fn admit_slots<W: GatedWire + Drop, G: Gate<W>>(
    slots: &mut [Option<PeerIo<W>>],
    adapter: &mut Adapter,
    now: u64,
    gate: &mut G,
) -> bool
    ensures shown { AreSlotsShown W.waiting W.admitted G.shows now gate.old adapter.old slots.old gate.new adapter.new slots.new }
    ensures ready { result ≡ list_any is_ready slots.new }
{
    let Some((slot, others)) = slots.split_first_mut() else {
        return false;
    };
    let ready = admit_slot(slot, adapter, now, gate);
    admit_slots(others, adapter, now, gate) || ready
}

/// Admits the frame that waits in a slot, if the gate does. Returns whether its peer may have a turn now.
fn admit_slot<W: GatedWire + Drop, G: Gate<W>>(
    slot: &mut Option<PeerIo<W>>,
    adapter: &mut Adapter,
    now: u64,
    gate: &mut G,
) -> bool
    ensures shown { IsSlotShown W.waiting W.admitted G.shows now gate.old adapter.old slot.old gate.new adapter.new slot.new }
    ensures ready { result ≡ is_ready slot.new }
{
    match slot {
        Some(io) => {
            if is_admitted(io, adapter, now, gate) {
                admit(io);
            }
            io.ready
        }
        None => false,
    }
}

/// Whether the frame of a peer that waits is admitted. `false` if none waits.
fn is_admitted<W: GatedWire + Drop, G: Gate<W>>(
    io: &PeerIo<W>,
    adapter: &mut Adapter,
    now: u64,
    gate: &mut G,
) -> bool
    ensures { IsFrameShown W.waiting W.admitted G.shows now gate.old adapter.old io.now result gate.new adapter.new }
{
    let Some(piece) = frame_of(io) else {
        return false;
    };
    let is_numbered = adapter.executing(&io.peer, piece).is_some();
    match adapter.asked(now, &io.peer, piece) {
        Some(request) => gate.admits(io.peer, &io.wire, &request, is_numbered),
        None => true,
    }
}

/// The bytes up to the end of the frame of a peer that waits, if one does and all bytes before it were fed and answered.
fn frame_of<W: GatedWire>(io: &PeerIo<W>) -> Option<&[u8]>
    ensures { option_map (λ bytes. bytes.now) result ≡ frame_of_peer W.waiting io.now }
{
    if io.has_bytes() {
        return None;
    }
    io.wire.frame_waiting()
}

/// Admits the frame of a peer that waits. The peer has a turn in the next round.
fn admit<W: GatedWire>(io: &mut PeerIo<W>)
    ensures { io.new ≡ if_admitted W.admitted true io.old }
{
    io.wire.admit();
    io.ready = true;
}
