//! Why a command is not taken.

use cip_bytes::protocol::UNCONNECTED_LIMIT;
use thiserror::Error;

/// How many bytes Do_Once has before its embedded request: a service, a path of two words, a life, an originator and a
/// number.
pub(crate) const FRONT_SIZE: usize = 26;

/// The longest embedded request, in bytes: an unconnected request holds it.
pub const LONGEST_EMBEDDED: usize = UNCONNECTED_LIMIT - FRONT_SIZE;

/// Why a command is not taken. Nothing has changed, and no number was taken.
#[derive(Clone, Copy, Debug, PartialEq, Eq, Error)]
pub enum CommandRefused {
    /// Another command is pending.
    #[error("another command is pending")]
    Pending,
    /// The request has under 2 bytes, or a service with bit 7, as a reply has.
    #[error("not a request: at least 2 bytes, and a service below 0x80")]
    NotARequest,
    /// The request is longer than a command can embed.
    #[error("the request is longer than 478 bytes")]
    TooLong,
    /// The last number was the greatest.
    #[error("no command number is left for this originator")]
    NumbersExhausted,
}
