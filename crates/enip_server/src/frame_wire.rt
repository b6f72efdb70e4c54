//! A wire that gives out a frame only once it is admitted.

ghost use Rattle.std.specs.Prelude.{ℕ, List, Option, ◌≡◌, ◌≤◌, ◌<◌, [], IfSome, false, length, take, drop, option_map, refl};
ghost use Rattle.std.specs.Io.KnownBytes.{Appends, prepend_known};

use crate::frame_cursor::FrameCursor;
use crate::gated_wire::GatedWire;
use crate::io_buffer::IoBuffer;
use crate::wire::{ReadOutcome, Wire};
use crate::wire_counts::WireCounts;

/// A wire around another one. It reads the wire inside, and holds the bytes that end a frame until the frame is admitted
/// (`Peers::admit_frames`): a read would block until then. So one peer can wait while others are served. The bytes of a
/// frame that has not ended go through at once.
///
/// A wire that is not gated goes through, and so does one whose writing side was shut down.
///
/// ```
/// let mut peers = Peers::new(alloc, adapter, NO_IDLE_TIMEOUT)?;
/// let _ = peers.add(now, FrameWire::new(wire, true));
/// let end = peers.round(now);
/// let ready = peers.admit_frames(now, &mut gate);
/// ```
#[derive(Drop)]
pub struct FrameWire<W> {
    pub(crate) wire: W,
    /// Bytes that were read from the wire inside, and not given out.
    pub(crate) held: IoBuffer,
    /// How much of the next frame was given out.
    cursor: FrameCursor,
    /// Whether frames wait until they are admitted.
    is_gated: bool,
    /// Whether the frame that ends next is admitted.
    is_admitted: bool,
    /// The size of the slice that the last read was given.
    asked: usize,
    /// How the calls of this wire went.
    counts: WireCounts,
}

impl<W> FrameWire<W> {
    ghost use Rattle.enip_server.specs.FrameWires.{new_frame_wire};

    /// A wire that holds nothing, around this one. Its frames wait until they are admitted, if it is gated.
    pub fn new(wire: W, is_gated: bool) -> FrameWire<W>
        ensures { result ≡ new_frame_wire wire is_gated }
    {
        FrameWire {
            wire,
            held: IoBuffer::new(),
            cursor: FrameCursor::new(),
            is_gated,
            is_admitted: false,
            asked: 0,
            counts: WireCounts::new(),
        }
    }

    /// The wire inside.
    pub fn inner(&self) -> &W
        ensures { result.now ≡ self.now.wire }
    {
        &self.wire
    }
}

impl<W: Wire> FrameWire<W> {
    ghost use Rattle.enip_server.specs.FrameWires.{IsFilledAndGiven, IsGiven, IsReadGated, free_size, given_out, frame_known, frame_left};
    ghost use Rattle.enip_server.specs.Wires.{IsRead};

    /// Gives out held bytes, after a read of the wire inside if none are held.
    fn read_gated(&mut self, into: &mut [u8]) -> ReadOutcome
        requires { 0 < length into.old }
        ensures read { IsRead (frame_left W.left self.old) (frame_left W.left self.new) result into.new }
        ensures written { W.written self.new.wire ≡ W.written self.old.wire }
        ensures asked { self.new.asked ≡ self.old.asked }
        ensures counts { self.new.counts ≡ self.old.counts }
        ensures known { frame_known W.known self.new ≡ frame_known W.known self.old }
        ensures gated { IsReadGated W.left W.known W.counts (length into.old) self.old self.new result }
    {
        if !self.held.is_empty() {
            return self.give(into);
        }
        if !self.is_gated {
            return self.wire.read(into);
        }
        self.fill_and_give(into)
    }

    /// Reads the wire inside once, holds what it gives, and gives out a front of that.
    fn fill_and_give(&mut self, into: &mut [u8]) -> ReadOutcome
        requires into { 0 < length into.old }
        requires empty { self.old.held ≡ [] }
        ensures read { IsRead (frame_left W.left self.old) (frame_left W.left self.new) result into.new }
        ensures written { W.written self.new.wire ≡ W.written self.old.wire }
        ensures asked { self.new.asked ≡ self.old.asked }
        ensures counts { self.new.counts ≡ self.old.counts }
        ensures known { frame_known W.known self.new ≡ frame_known W.known self.old }
        ensures filled { IsFilledAndGiven W.left W.known W.counts (length into.old) self.old self.new result }
    {
        let received = self.held.fill(&mut self.wire);
        if received.has_given() {
            self.give(into)
        } else {
            received
        }
    }

    /// Gives out a front of the held bytes.
    fn give(&mut self, into: &mut [u8]) -> ReadOutcome
        requires into { 0 < length into.old }
        ensures read { (left : Option (List ℕ)) →
            IsRead (prepend_known self.old.held left) (prepend_known self.new.held left) result into.new }
        ensures given { IsGiven (length into.old) self.old self.new result into.new }
        ensures wire { self.new.wire ≡ self.old.wire }
        ensures asked { self.new.asked ≡ self.old.asked }
        ensures counts { self.new.counts ≡ self.old.counts }
    {
        let size = self.free_size().min(into.len());
        if size == 0 {
            return ReadOutcome::WouldBlock;
        }
        into[..size].copy_from_slice(&self.held.as_slice()[..size]);
        self.take_front(size);
        ReadOutcome::Bytes(size)
    }

    /// How many of the held bytes can be given out.
    fn free_size(&self) -> usize
        ensures size { result ≡ free_size self.now }
        ensures within { result ≤ length self.now.held }
    {
        let held = self.held.as_slice();
        if !self.is_gated {
            return held.len();
        }
        match self.cursor.end_in(held) {
            None => held.len(),
            Some(end) if self.is_admitted => end,
            Some(_) => 0,
        }
    }

    /// So many of the held bytes are given out.
    fn take_front(&mut self, size: usize)
        requires { size ≤ length self.old.held }
        ensures given { self.new ≡ given_out size self.old }
        ensures held { self.new.held ≡ drop size self.old.held }
        ensures wire { self.new.wire ≡ self.old.wire }
        ensures asked { self.new.asked ≡ self.old.asked }
        ensures counts { self.new.counts ≡ self.old.counts }
    {
        if self.cursor.end_in(self.held.as_slice()) == Some(size) {
            self.cursor = FrameCursor::new();
            self.is_admitted = false;
        } else {
            self.cursor.advance(&self.held.as_slice()[..size]);
        }
        self.held.drop_front(size);
    }
}

impl<W: Wire> Wire for FrameWire<W> {
    ghost use Rattle.enip_server.specs.FrameWires.{IsReadGated, frame_known, frame_left};
    ghost use Rattle.enip_server.specs.Wires.{IsRead, after_read, after_write, size_taken, with_asked, with_shut};

    ghost left = { frame_left W.left };

    ghost written = { λ w. W.written w.wire };

    ghost known = { frame_known W.known };

    ghost counts = { λ w. w.counts };

    fn read(&mut self, into: &mut [u8]) -> ReadOutcome
        requires { 0 < length into.old }
        ensures read { IsRead (frame_left W.left self.old) (frame_left W.left self.new) result into.new }
        ensures written { W.written self.new.wire ≡ W.written self.old.wire }
        ensures known { frame_known W.known self.new
            ≡ option_map (with_asked (length into.old)) (frame_known W.known self.old) }
        ensures counts { self.new.counts ≡ after_read result self.old.counts }
        ensures gated { IsReadGated W.left W.known W.counts (length into.old) (record self.old { asked = length into.old })
            (record self.new { counts = self.old.counts }) result }
    {
        self.asked = into.len();
        let outcome = self.read_gated(into);
        self.counts.add_read(outcome);
        outcome
    }

    fn write(&mut self, from: &[u8]) -> Option<usize>
        ensures size { IfSome result (λ n. n ≤ length from.now) }
        ensures written { Appends (W.written self.old.wire) (W.written self.new.wire) (take (size_taken result) from.now) }
        ensures left { frame_left W.left self.new ≡ frame_left W.left self.old }
        ensures known { frame_known W.known self.new ≡ frame_known W.known self.old }
        ensures counts { self.new.counts ≡ after_write result self.old.counts }
        ensures inside { W.counts self.new.wire ≡ after_write result (W.counts self.old.wire) }
        ensures same { self.new ≡ record self.old { wire = self.new.wire; counts = self.new.counts } }
    {
        let taken = self.wire.write(from);
        self.counts.add_write(taken);
        taken
    }

    fn shut(&mut self)
        ensures written { W.written self.new.wire ≡ W.written self.old.wire }
        ensures left { frame_left W.left self.new ≡ frame_left W.left self.old }
        ensures known { frame_known W.known self.new ≡ option_map with_shut (frame_known W.known self.old) }
        ensures counts { self.new.counts ≡ self.old.counts }
        ensures same { self.new ≡ record self.old { wire = self.new.wire; is_gated = false } }
    {
        self.is_gated = false;
        self.wire.shut();
    }
}

impl<W: Wire> GatedWire for FrameWire<W> {
    ghost use Rattle.enip_server.specs.FrameWires.{frame_waiting, with_admitted};

    ghost waiting = { frame_waiting };

    ghost admitted = { with_admitted };

    fn frame_waiting(&self) -> Option<&[u8]> {
        if !self.is_gated || self.is_admitted {
            return None;
        }
        let held = self.held.as_slice();
        match self.cursor.end_in(held) {
            Some(end) => Some(&held[..end]),
            None => None,
        }
    }

    fn admit(&mut self) {
        self.is_admitted = true;
    }

    ghost unread = { λ w. refl };

    ghost unwritten = { λ w. refl };
}
