//! The reasons for refusing a line.

use thiserror::Error;

/// Why a line is refused. The first word of the line selects the reason, and the text says what was expected.
#[derive(Clone, Copy, Debug, PartialEq, Eq, Error)]
pub enum LineFault {
    /// The line is not one of `enip answer`.
    #[error("expected `P HEX`, `end P` or `now N`")]
    Input,
    /// `P HEX`, but HEX is empty or not hexadecimal.
    #[error("piece: empty, or not two hex digits per byte")]
    Piece,
    /// `end P`, but P is not a digit from 1 to 9.
    #[error("end: expected a peer, 1 to 9")]
    End,
    /// `now N`, but N is not a decimal number of 64 bits.
    #[error("now: expected 0 to 18446744073709551615")]
    Now,
    /// The line is not one of a script.
    #[error("expected an event (see `enip replay --help`)")]
    Script,
    /// `submit HEX`, but HEX is not hexadecimal.
    #[error("submit: not hexadecimal (two digits per byte)")]
    Submit,
    /// `other HEX`, but HEX is not hexadecimal.
    #[error("other: not hexadecimal (two digits per byte)")]
    Other,
    /// `reach K`, but K is not a decimal number of 64 bits.
    #[error("reach: expected a position")]
    Reach,
    /// `back J`, but J is not a decimal number of 64 bits.
    #[error("back: expected a position")]
    Back,
    /// `owner STATUS HEX`, but STATUS is not a general status that an owner can give, or HEX is not hexadecimal or has
    /// over 480 bytes.
    #[error("owner: expected a status, 0 to 255 but not 17, and up to 480 bytes of hex")]
    Owner,
}
