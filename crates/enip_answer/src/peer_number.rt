//! The digit that names a peer.

ghost use Rattle.std.specs.Prelude.{◌<◌};

/// One of the nine peers of `enip answer`, named by a digit from 1 to 9.
#[derive(Clone, Copy, Debug, PartialEq, Eq)]
pub struct PeerNumber {
    index: usize,
    ghost in_range: { index < 9 },
}

impl PeerNumber {
    ghost use Rattle.std.specs.Prelude.{◌≡◌, ◌⊎◌, ◌≤◌, IfSome, None};
    ghost use Rattle.enip_answer.specs.Lines.{index_of, digit};

    /// The peer that an ASCII digit names, or `None` for another byte.
    pub(crate) fn of(code: u8) -> Option<PeerNumber>
        ensures number { IfSome result (λ number. digit number ≡ code) }
        ensures none { result ≡ None → (code < 49) ⊎ (57 < code) }
    {
        match code {
            b'1'..=b'9' => Some(PeerNumber {
                index: (code - b'1') as usize,
            }),
            _ => None,
        }
    }

    /// The index among the nine, from 0.
    pub fn index(self) -> usize
        ensures value { result ≡ index_of self }
        ensures to { result < 9 }
    {
        self.index
    }

    /// The ASCII digit.
    pub fn digit(self) -> u8
        ensures value { result ≡ digit self }
        ensures from { 49 ≤ result }
        ensures to { result ≤ 57 }
    {
        b'1' + self.index as u8
    }
}
