//! A buffer for the input or the output of a peer.

ghost use Rattle.std.specs.Prelude.{◌≡◌, ◌≤◌, ◌-◌, ◌==◌, ◌++◌, [], length, take, drop, min};
ghost use Rattle.std.specs.Io.KnownBytes.{Consumes, IsAtEnd};
ghost use Rattle.enip_server.specs.declared.wire.ReadOutcome.TheVariants.{End};
ghost use Rattle.std.specs.Option.{option_map};
ghost use Rattle.enip_server.specs.Wires.{AreReadBy, after_read, with_asked};

use crate::wire::{ReadOutcome, Wire};
use std::marker::Model;

/// The capacity of a buffer, and the greatest size of a read, in bytes (ours).
pub const IO_BUFFER_SIZE: usize = 4_096;

/// A buffer of bytes, in the order of the stream. Its content is `block[start..end]`.
#[derive(Drop)]
pub(crate) struct IoBuffer {
    start: usize,
    end: usize,
    block: [u8; IO_BUFFER_SIZE],
}

impl Model for IoBuffer {
    ghost use Rattle.std.specs.Prelude.{ℕ, List, ◌≤◌, take, drop};

    ghost Value = { List ℕ };

    ghost view = { λ s. drop s.start (take s.end s.block) };

    ghost invariant = { λ s. (s.start ≤ s.end) × (s.end ≤ 4096) };
}

impl IoBuffer {
    /// An empty buffer.
    pub(crate) fn new() -> IoBuffer
        ensures { result ≡ [] }
    {
        IoBuffer {
            start: 0,
            end: 0,
            block: [0; IO_BUFFER_SIZE],
        }
    }

    /// Whether the buffer is empty.
    pub(crate) fn is_empty(&self) -> bool
        ensures { result ≡ (length self.now == 0) }
    {
        self.start == self.end
    }

    /// The bytes in the buffer.
    pub(crate) fn as_slice(&self) -> &[u8]
        ensures { result.now ≡ self.now }
    {
        &self.block[self.start..self.end]
    }

    /// Drops the first `size` bytes.
    pub(crate) fn drop_front(&mut self, size: usize)
        requires { size ≤ length self.old }
        ensures { self.new ≡ drop size self.old }
    {
        self.start += size;
    }

    /// Empties the buffer.
    pub(crate) fn clear(&mut self)
        ensures { self.new ≡ [] }
    {
        self.start = 0;
        self.end = 0;
    }

    /// Replaces the content with these bytes.
    pub(crate) fn put(&mut self, text: &[u8])
        requires { length text.now ≤ IO_BUFFER_SIZE }
        ensures { self.new ≡ text.now }
    {
        self.block[..text.len()].copy_from_slice(text);
        self.start = 0;
        self.end = text.len();
    }

    /// Appends a front of these bytes: as many as the buffer has capacity left for. Returns how many.
    pub(crate) fn append(&mut self, bytes: &[u8]) -> usize
        ensures size { result ≡ min (length bytes.now) (IO_BUFFER_SIZE - length self.old) }
        ensures appended { self.new ≡ self.old ++ take result bytes.now }
    {
        let held = self.end - self.start;
        move_to_front(&mut self.block, self.start, self.end);
        let size = bytes.len().min(IO_BUFFER_SIZE - held);
        self.block[held..held + size].copy_from_slice(&bytes[..size]);
        self.start = 0;
        self.end = held + size;
        size
    }

    /// Replaces the content with what one read of a wire gives. The read is given the whole buffer to fill.
    pub(crate) fn fill<W: Wire>(&mut self, wire: &mut W) -> ReadOutcome
        ensures read { Consumes (W.left wire.old) (W.left wire.new) self.new }
        ensures bytes { AreReadBy result self.new }
        ensures end { result ≡ End → IsAtEnd (W.left wire.new) }
        ensures few { length self.new ≤ IO_BUFFER_SIZE }
        ensures written { W.written wire.new ≡ W.written wire.old }
        ensures known { W.known wire.new ≡ option_map (with_asked IO_BUFFER_SIZE) (W.known wire.old) }
        ensures counts { W.counts wire.new ≡ after_read result (W.counts wire.old) }
    {
        let received = wire.read(&mut self.block);
        self.start = 0;
        self.end = match received {
            ReadOutcome::Bytes(size) | ReadOutcome::Drained(size) => size,
            ReadOutcome::WouldBlock | ReadOutcome::End | ReadOutcome::Failed => 0,
        };
        received
    }
}

/// Moves the bytes from `start` to `end` to the front of a block.
fn move_to_front(block: &mut [u8], start: usize, end: usize)
    requires order { start ≤ end }
    requires within { end ≤ length block.old }
    ensures { take (end - start) block.new ≡ drop start (take end block.old) }
{
    if start > 0 {
        block.copy_within(start..end, 0);
    }
}
