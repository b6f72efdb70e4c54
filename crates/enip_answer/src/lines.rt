//! The input lines of `enip answer`.

ghost use Rattle.std.specs.Prelude.{◌≡◌, None, IfSome};
ghost use Rattle.enip_answer.specs.Lines.{Says};
ghost use Rattle.enip_answer.specs.declared.lines.Line.{Line};

use crate::peer_number::PeerNumber;
use enip_faults::LineFault;
use enip_lines::decimal;

/// An input line.
#[derive(Clone, Copy, Debug, PartialEq, Eq)]
pub enum Line<'a> {
    /// An empty line or a comment.
    Nothing,
    /// `P HEX`: a piece of a peer's stream. The text is not yet checked to be hexadecimal; it may have spaces.
    Piece(PeerNumber, &'a [u8]),
    /// `end P`: the peer closes its connection.
    End(PeerNumber),
    /// `now N`: the time of the pieces that follow, in microseconds.
    Now(u64),
}

impl<'a> Line<'a> {
    /// Parses a line: empty, `# ..`, `P HEX`, `end P` or `now N`. `None` if it is none of these.
    pub(crate) fn read(text: &'a [u8]) -> Option<Line<'a>>
        ensures read { IfSome result (Says text.now) }
        ensures refused { result ≡ None → (line : Line) → Says text.now line → ⊥ }
    {
        match text {
            [] | [b'#', ..] => Some(Line::Nothing),
            [b'e', b'n', b'd', b' ', digit] => Some(Line::End(PeerNumber::of(*digit)?)),
            [b'n', b'o', b'w', b' ', digits @ ..] => Some(Line::Now(decimal(digits)?)),
            [digit, b' ', piece @ ..] => Some(Line::Piece(PeerNumber::of(*digit)?, piece)),
            _ => None,
        }
    }
}

/// The reason for refusing a line of `enip answer`.
pub(crate) fn line_fault(text: &[u8]) -> LineFault {
    match text {
        [b'1'..=b'9', b' ', ..] => LineFault::Piece,
        [b'e', b'n', b'd', b' ', ..] => LineFault::End,
        [b'n', b'o', b'w', b' ', ..] => LineFault::Now,
        _ => LineFault::Input,
    }
}
