//! Where a frame ends in a stream that is given out piece by piece.

ghost use Rattle.std.specs.Prelude.{◌≡◌, ◌≤◌, length, IfSome};
ghost use Rattle.enip_server.specs.FrameEnds.{frame_end, given_further, low_in, high_in, size_of, start_of_frame};

use enip_wire::Header;

/// How much of the next frame was given out: a part of it, or nothing yet.
#[derive(Clone, Copy, Debug, PartialEq, Eq)]
pub(crate) struct FrameCursor {
    /// How many of its bytes were given out.
    pub(crate) given: usize,
    /// The two bytes of its length, as far as they were.
    pub(crate) low: u8,
    pub(crate) high: u8,
}

impl FrameCursor {
    /// Nothing of the next frame was given out.
    pub(crate) fn new() -> FrameCursor
        ensures { result ≡ start_of_frame }
    {
        FrameCursor {
            given: 0,
            low: 0,
            high: 0,
        }
    }

    /// How many of these bytes, which come next in the stream, are up to the end of the frame. `None` if the frame does
    /// not end in them.
    pub(crate) fn end_in(&self, bytes: &[u8]) -> Option<usize>
        ensures end { result ≡ frame_end self.now bytes.now }
        ensures within { IfSome result (λ n. n ≤ length bytes.now) }
    {
        let size = size_of(self.low_in(bytes)?, self.high_in(bytes)?);
        let left = size.saturating_sub(self.given);
        if left <= bytes.len() {
            Some(left)
        } else {
            None
        }
    }

    /// These bytes, which do not go past the end of the frame, are given out.
    pub(crate) fn advance(&mut self, bytes: &[u8])
        ensures { self.new ≡ given_further self.old bytes.now }
    {
        let low = self.low_in(bytes).unwrap_or(0);
        let high = self.high_in(bytes).unwrap_or(0);
        self.given = self.given.saturating_add(bytes.len());
        self.low = low;
        self.high = high;
    }

    /// The low byte of the frame's length, if it was given out or is among these bytes.
    fn low_in(&self, bytes: &[u8]) -> Option<u8>
        ensures { result ≡ low_in self.now bytes.now }
    {
        if self.given > LOW {
            return Some(self.low);
        }
        bytes.get(LOW - self.given).copied()
    }

    /// The same of the high byte.
    fn high_in(&self, bytes: &[u8]) -> Option<u8>
        ensures { result ≡ high_in self.now bytes.now }
    {
        if self.given > HIGH {
            return Some(self.high);
        }
        bytes.get(HIGH - self.given).copied()
    }
}

/// Where in a frame its length is, the low byte first (Volume 2, encapsulation header).
const LOW: usize = 2;

const HIGH: usize = 3;

/// The size of a frame by the two bytes of its length.
fn size_of(low: u8, high: u8) -> usize
    ensures { result ≡ size_of low high }
{
    Header::SIZE + usize::from(low) + 256 * usize::from(high)
}
