//! The wire of a peer: a TCP stream whose calls never block.

ghost use Rattle.std.specs.Option.{option_map};
ghost use Rattle.std.specs.Prelude.{ℕ, List, Option, ◌≡◌, ◌<◌, ◌≤◌, length, take, IfSome};
ghost use Rattle.std.specs.Io.KnownBytes.{Appends};
ghost use Rattle.enip_server.specs.declared.wire_counts.WireCounts.{WireCounts};
ghost use Rattle.enip_server.specs.Wires.{KnownCalls, IsRead, has_given, size_taken, after_read, after_write, with_asked, with_shut};

/// The outcome of a read.
#[derive(Clone, Copy, Debug, PartialEq, Eq)]
pub enum ReadOutcome {
    /// This many bytes, at least one. More may be available.
    Bytes(usize),
    /// This many bytes, at least one, and no more are available: the system reports when more arrive. It may have
    /// reported the end of the stream before; that is not covered by this.
    Drained(usize),
    /// No byte is available yet.
    WouldBlock,
    /// The end of the stream.
    End,
    /// The read failed.
    Failed,
}

impl ReadOutcome {
    /// Whether the read gave bytes.
    pub(crate) fn has_given(self) -> bool
        ensures { result ≡ has_given self }
    {
        match self {
            ReadOutcome::Bytes(_) | ReadOutcome::Drained(_) => true,
            ReadOutcome::WouldBlock | ReadOutcome::End | ReadOutcome::Failed => false,
        }
    }
}

/// A stream to and from a peer. No call blocks.
pub trait Wire {
    // The bytes that are left to read, if the wire knows them.
    ghost left: { Self → Option (List ℕ) };

    // The bytes that were written, if the wire knows them.
    ghost written: { Self → Option (List ℕ) };

    // What the wire knows of its calls, if it does: how much its last read was given to fill, whether its writing side
    // was shut down, and the bytes that it released, if it holds back what is written to it.
    ghost known: { Self → Option KnownCalls };

    // How the calls went.
    ghost counts: { Self → WireCounts };

    /// Reads into the front of a slice that is not empty.
    fn read(&mut self, into: &mut [u8]) -> ReadOutcome
        requires { 0 < length into.old }
        ensures read { IsRead (left self.old) (left self.new) result into.new }
        ensures written { written self.new ≡ written self.old }
        ensures known { known self.new ≡ option_map (with_asked (length into.old)) (known self.old) }
        ensures counts { counts self.new ≡ after_read result (counts self.old) };

    /// Writes a front of these bytes and returns its length: 0 if the write would block, `None` if it failed.
    fn write(&mut self, from: &[u8]) -> Option<usize>
        ensures size { IfSome result (λ n. n ≤ length from.now) }
        ensures written { Appends (written self.old) (written self.new) (take (size_taken result) from.now) }
        ensures left { left self.new ≡ left self.old }
        ensures known { known self.new ≡ known self.old }
        ensures counts { counts self.new ≡ after_write result (counts self.old) };

    /// Shuts the writing side down. The stream can still be read.
    fn shut(&mut self)
        ensures written { written self.new ≡ written self.old }
        ensures left { left self.new ≡ left self.old }
        ensures known { known self.new ≡ option_map with_shut (known self.old) }
        ensures counts { counts self.new ≡ counts self.old };
}
