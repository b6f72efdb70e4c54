//! Why a line of an owner is refused, and why a session is over.

use enip_owner::{OwnerFault, ValuesFault};
use thiserror::Error;

/// Why a line of an owner is refused. The text is that of an `error` line.
#[derive(Clone, Copy, Debug, PartialEq, Eq, Error)]
pub enum LineFault {
    /// The line has more than 64 KiB.
    #[error("line too long")]
    TooLong,
    /// The first line is not the token.
    #[error("token expected")]
    Token,
    /// The line does not say a request.
    #[error("{0}")]
    Line(OwnerFault),
    /// `values` are not values of the attribute's type.
    #[error("{0}")]
    Values(ValuesFault),
    /// No command with this ticket waits.
    #[error("no such command: ticket {0}")]
    NoCommand(u32),
    /// No question with this number is open.
    #[error("no such question: {0}")]
    NoQuestion(u32),
    /// The reply has more data than the service allows.
    #[error("reply too long")]
    LongReply,
    /// The general status 0x11 says that a reply is too large, which the device decides.
    #[error("status 17 is not allowed")]
    ReservedStatus,
    /// There is no such attribute.
    #[error("no such attribute")]
    NoAttribute,
    /// The attribute cannot have a value of this size.
    #[error("data: not a value of this size")]
    Size,
    /// The type of the attribute is not known.
    #[error("values: the type of this attribute is not known")]
    UnknownType,
}

/// Why a session is over.
#[derive(Clone, Copy, Debug, PartialEq, Eq, Error)]
pub enum SessionEnd {
    /// The owner's first line was not the token.
    #[error("wrong token")]
    Token,
    /// A line did not fit into the 256 KiB that wait to be written.
    #[error("reads too slowly")]
    Slow,
    /// Memory was refused.
    #[error("out of memory")]
    Memory,
}
