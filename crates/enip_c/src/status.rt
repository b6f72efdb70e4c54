//! The status that each function returns to C.

ghost use Rattle.std.specs.Prelude.{◌≡◌};
ghost use Rattle.enip_c.specs.Buffer.{status_number};

use thiserror::Error;

/// The outcome of a call. In `enip.h` each is a number, `ENIP_..`.
#[derive(Clone, Copy, Debug, PartialEq, Eq, Error)]
pub enum Status {
    /// Success.
    #[error("success")]
    Done = 0,
    /// An argument is not allowed, so nothing was done.
    #[error("an argument is not allowed")]
    Misuse = 1,
    /// The buffer is too small, so nothing was done.
    #[error("the buffer is too small")]
    Room = 2,
    /// Out of memory.
    #[error("out of memory")]
    Memory = 3,
    /// The configuration is refused.
    #[error("the configuration is refused")]
    Configuration = 4,
    /// All peer slots are taken.
    #[error("all peer slots are taken")]
    Places = 5,
    /// All session handles have been given out.
    #[error("all session handles have been given out")]
    Handles = 6,
    /// It does not exist.
    #[error("it does not exist")]
    Absent = 7,
    /// The call is not possible in this state.
    #[error("the call is not possible in this state")]
    State = 8,
    /// An awaited reply had a nonzero encapsulation status. The client has failed for good.
    #[error("an awaited reply has a nonzero encapsulation status")]
    Failed = 9,
    /// The device refused an open or a close.
    #[error("the device refused an open or a close")]
    Refused = 10,
    /// A header gave too great a length. The client has failed for good.
    #[error("a frame is too long")]
    TooLong = 11,
    /// An awaited reply was malformed. The client has failed for good.
    #[error("an awaited reply is malformed")]
    Malformed = 12,
    /// The bytes are not a request.
    #[error("the bytes are not a request")]
    Request = 13,
    /// Another request is waiting for its reply.
    #[error("another request is waiting for its reply")]
    Waiting = 14,
    /// The request is longer than the connection's size, or a command, allows.
    #[error("the request is longer than the connection's size, or a command, allows")]
    LongRequest = 15,
    /// A request was given up.
    #[error("a request was given up")]
    GivenUp = 16,
    /// Too many requests were submitted since the last accepted reply.
    #[error("too many requests were submitted since the last accepted reply")]
    Abandoned = 17,
    /// A connection size in `enip_wants` is out of range.
    #[error("a connection size in enip_wants is out of range")]
    Wants = 18,
    /// No command number is left for this originator.
    #[error("no command number is left for this originator")]
    Numbers = 19,
    /// The saved state is refused.
    #[error("the saved state is refused")]
    SavedState = 20,
    /// All peer slots of this group are taken.
    #[error("all peer slots of this group are taken")]
    Share = 21,
}

impl Status {
    /// The number in `enip.h`.
    pub(crate) fn number(self) -> u32
        ensures { result ≡ status_number self }
    {
        self as u32
    }
}
