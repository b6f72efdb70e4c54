//! A wire that holds back what is written to it.

ghost use Rattle.std.specs.Prelude.{◌≡◌, ◌≤◌, ◌<◌, [], IfSome, true, false, length, take};
ghost use Rattle.std.specs.Io.KnownBytes.{Appends};
ghost use Rattle.std.specs.Option.{option_map};

use crate::gated_wire::GatedWire;
use crate::io_buffer::IoBuffer;
use crate::peer_io::{PeerIo, Turn, write_front};
use crate::wire::{ReadOutcome, Wire};
use crate::wire_counts::WireCounts;

/// A wire around another one. What is written to it is held, up to `IO_BUFFER_SIZE` bytes, and goes to the wire inside
/// only at a release (`Peers::release`). So the answers of a round can wait until the changes of that round are stored.
///
/// While bytes are held, a read would block, and so would a write for which there is no capacity left. The writing side
/// of the wire inside is shut down at the release after which nothing is held. If the wire inside fails to take bytes,
/// all later reads and writes fail. Bytes that are held when the wire is dropped are never sent.
///
/// If the wire inside gives out a frame only once it is admitted (`FrameWire`), so does this one. While bytes are held, no
/// frame is reported as waiting: a frame that is admitted can be read in the next round.
///
/// ```
/// let mut peers = Peers::new(alloc, adapter, NO_IDLE_TIMEOUT)?;
/// let _ = peers.add(now, HeldWire::new(wire));
/// let end = peers.round(now);
/// // store what has changed; if that fails, drop `peers`
/// let ready = peers.release();
/// ```
#[derive(Drop)]
pub struct HeldWire<W> {
    pub(crate) wire: W,
    /// Bytes that were written to this wire, and not yet to the wire inside.
    held: IoBuffer,
    /// Whether a call would have blocked only because of what is held.
    was_deferred: bool,
    /// Whether the wire inside failed to take bytes.
    has_failed: bool,
    /// Whether the next release after which nothing is held shuts down the wire inside.
    shut_waits: bool,
    /// Whether the writing side of this wire was shut down.
    is_shut: bool,
    /// The size of the slice that the last read was given.
    asked: usize,
    /// How the calls of this wire went.
    counts: WireCounts,
}

impl<W> HeldWire<W> {
    /// A wire that holds nothing, around this one.
    pub fn new(wire: W) -> HeldWire<W>
        ensures { result ≡ record {
          wire = wire;
          held = [];
          was_deferred = false;
          has_failed = false;
          shut_waits = false;
          is_shut = false;
          asked = 0;
          counts = record { reads = 0; drained = 0; waits = 0; ends = 0 };
        } }
    {
        HeldWire {
            wire,
            held: IoBuffer::new(),
            was_deferred: false,
            has_failed: false,
            shut_waits: false,
            is_shut: false,
            asked: 0,
            counts: WireCounts::new(),
        }
    }

    /// The wire inside.
    pub fn inner(&self) -> &W
        ensures { result.now ≡ self.now.wire }
    {
        &self.wire
    }
}

impl<W: Wire> HeldWire<W> {
    ghost use Rattle.enip_server.specs.Held.{IsReadInside, IsReleased, after_hold, held_unless, is_held_back, shut_if, size_held};
    ghost use Rattle.enip_server.specs.Wires.{IsRead};

    /// Writes what is held to the wire inside, until that would block or fails. What it does not take stays held. Once
    /// nothing is held, makes a shutdown that waits. Returns whether the peer of this wire may have a turn now: a call
    /// of it was deferred and need not be any longer, or the wire inside has just failed.
    pub(crate) fn release(&mut self) -> bool
        ensures { IsReleased W.left W.written W.known W.counts self.old self.new result }
    {
        if self.has_failed {
            return false;
        }
        let (size, unsent) = write_front(&mut self.wire, self.held.as_slice());
        self.held.drop_front(size);
        if let Some(unsent) = unsent {
            self.has_failed = unsent == Turn::Finished;
            return self.has_failed;
        }
        self.on_empty()
    }

    /// Makes a shutdown that waits, once nothing is held. Returns whether a call was deferred.
    fn on_empty(&mut self) -> bool
        ensures known { W.known self.new.wire ≡ shut_if self.old.shut_waits (W.known self.old.wire) }
        ensures left { W.left self.new.wire ≡ W.left self.old.wire }
        ensures written { W.written self.new.wire ≡ W.written self.old.wire }
        ensures counts { W.counts self.new.wire ≡ W.counts self.old.wire }
        ensures same { self.new ≡ record self.old { wire = self.new.wire; shut_waits = false; was_deferred = false } }
        ensures ready { result ≡ self.old.was_deferred }
    {
        if self.shut_waits {
            self.wire.shut();
        }
        self.shut_waits = false;
        let was_deferred = self.was_deferred;
        self.was_deferred = false;
        was_deferred
    }

    /// Whether a read makes no read of the wire inside: that has failed, or bytes are held.
    fn is_held_back(&self) -> bool
        ensures { result ≡ is_held_back self.now }
    {
        self.has_failed || !self.held.is_empty()
    }

    /// Reads from the wire inside, unless that has failed or bytes are held.
    fn read_inside(&mut self, into: &mut [u8]) -> ReadOutcome
        requires { 0 < length into.old }
        ensures read { IsRead (W.left self.old.wire) (W.left self.new.wire) result into.new }
        ensures written { W.written self.new.wire ≡ W.written self.old.wire }
        ensures same { self.new ≡ record self.old { wire = self.new.wire; was_deferred = self.new.was_deferred } }
        ensures inside { IsReadInside W.known W.counts (length into.old) self.old self.new result }
    {
        if self.has_failed {
            return ReadOutcome::Failed;
        }
        if !self.held.is_empty() {
            self.was_deferred = true;
            return ReadOutcome::WouldBlock;
        }
        self.wire.read(into)
    }

    /// Holds a front of these bytes, unless the wire inside has failed.
    fn hold(&mut self, from: &[u8]) -> Option<usize>
        ensures taken { result ≡ held_unless self.old.has_failed (size_held self.old from.now) }
        ensures held { self.new ≡ after_hold result from.now self.old }
    {
        if self.has_failed {
            return None;
        }
        let size = self.held.append(from);
        self.was_deferred = self.was_deferred || size == 0;
        Some(size)
    }
}

impl<W: Wire> PeerIo<HeldWire<W>> {
    ghost use Rattle.enip_server.specs.Held.{IsPeerReleased};

    /// Releases the wire of the peer. The peer has a turn in the next round if it can go on now.
    pub(crate) fn release(&mut self)
        ensures { IsPeerReleased W.left W.written W.known W.counts self.old self.new }
    {
        let ready = self.wire.release();
        self.ready = ready || self.ready;
    }
}

impl<W: Wire> Wire for HeldWire<W> {
    ghost use Rattle.enip_server.specs.Held.{IsReadInside, after_hold, held_known, held_unless, held_written, size_held};
    ghost use Rattle.enip_server.specs.Wires.{IsRead, after_read, after_write, size_taken, with_asked, with_shut};

    ghost left = { λ w. W.left w.wire };

    ghost written = { held_written W.written };

    ghost known = { held_known W.written };

    ghost counts = { λ w. w.counts };

    fn read(&mut self, into: &mut [u8]) -> ReadOutcome
        requires { 0 < length into.old }
        ensures read { IsRead (W.left self.old.wire) (W.left self.new.wire) result into.new }
        ensures written { held_written W.written self.new ≡ held_written W.written self.old }
        ensures known { held_known W.written self.new
            ≡ option_map (with_asked (length into.old)) (held_known W.written self.old) }
        ensures counts { self.new.counts ≡ after_read result self.old.counts }
        ensures inside { IsReadInside W.known W.counts (length into.old) (record self.old { asked = length into.old })
            (record self.new { counts = self.old.counts }) result }
    {
        self.asked = into.len();
        let outcome = self.read_inside(into);
        self.counts.add_read(outcome);
        outcome
    }

    fn write(&mut self, from: &[u8]) -> Option<usize>
        ensures size { IfSome result (λ n. n ≤ length from.now) }
        ensures written { Appends (held_written W.written self.old) (held_written W.written self.new)
            (take (size_taken result) from.now) }
        ensures left { W.left self.new.wire ≡ W.left self.old.wire }
        ensures known { held_known W.written self.new ≡ held_known W.written self.old }
        ensures counts { self.new.counts ≡ after_write result self.old.counts }
        ensures taken { result ≡ held_unless self.old.has_failed (size_held self.old from.now) }
        ensures held { self.new ≡ record (after_hold result from.now self.old) {
          counts = after_write result self.old.counts;
        } }
    {
        let taken = self.hold(from);
        self.counts.add_write(taken);
        taken
    }

    fn shut(&mut self)
        ensures written { held_written W.written self.new ≡ held_written W.written self.old }
        ensures left { W.left self.new.wire ≡ W.left self.old.wire }
        ensures known { held_known W.written self.new ≡ option_map with_shut (held_known W.written self.old) }
        ensures counts { self.new.counts ≡ self.old.counts }
        ensures waits { self.new ≡ record self.old { is_shut = true; shut_waits = true } }
    {
        self.is_shut = true;
        self.shut_waits = true;
    }
}

impl<W: GatedWire> GatedWire for HeldWire<W> {
    ghost use Rattle.enip_server.specs.Held.{held_admitted, held_unwritten, held_waiting};

    ghost waiting = { held_waiting W.waiting };

    ghost admitted = { held_admitted W.admitted };

    fn frame_waiting(&self) -> Option<&[u8]> {
        if self.is_held_back() {
            return None;
        }
        self.wire.frame_waiting()
    }

    fn admit(&mut self) {
        self.wire.admit();
    }

    ghost unread = { λ w. W.unread w.wire };

    ghost unwritten = { held_unwritten W.written W.admitted W.unwritten };
}
