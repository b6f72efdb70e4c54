//! How the calls of a wire went.

ghost use Rattle.std.specs.Prelude.{◌≡◌};
ghost use Rattle.enip_server.specs.Wires.{after_read, after_write};

use crate::wire::ReadOutcome;

/// The number of reads; of reads after which no more bytes were available; of calls that would have blocked; and of
/// calls that failed or met the end of the stream. With these counts a contract can state that a caller reports a wait
/// or an end only if a call of the wire did. The numbers wrap at 2^64.
#[derive(Clone, Copy, Debug, PartialEq, Eq)]
pub struct WireCounts {
    reads: u64,
    drained: u64,
    waits: u64,
    ends: u64,
}

impl WireCounts {
    /// No call was made.
    pub fn new() -> WireCounts
        ensures { result ≡ record { reads = 0; drained = 0; waits = 0; ends = 0 } }
    {
        WireCounts {
            reads: 0,
            drained: 0,
            waits: 0,
            ends: 0,
        }
    }

    /// Counts a read.
    pub fn add_read(&mut self, received: ReadOutcome)
        ensures { self.new ≡ after_read received self.old }
    {
        self.reads = self.reads.wrapping_add(1);
        match received {
            ReadOutcome::Bytes(_) => {}
            ReadOutcome::Drained(_) => self.drained = self.drained.wrapping_add(1),
            ReadOutcome::WouldBlock => {
                self.drained = self.drained.wrapping_add(1);
                self.waits = self.waits.wrapping_add(1);
            }
            ReadOutcome::End | ReadOutcome::Failed => self.ends = self.ends.wrapping_add(1),
        }
    }

    /// Counts a write that took this many bytes, or failed (`None`).
    pub fn add_write(&mut self, taken: Option<usize>)
        ensures { self.new ≡ after_write taken self.old }
    {
        match taken {
            None => self.ends = self.ends.wrapping_add(1),
            Some(0) => self.waits = self.waits.wrapping_add(1),
            Some(_) => {}
        }
    }
}
