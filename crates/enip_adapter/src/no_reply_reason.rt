//! Why nothing is sent to a peer.

use enip_wire::CpfFault;
use thiserror::Error;

/// Why `feed` has no frame to send.
#[derive(Clone, Copy, Debug, PartialEq, Eq, Error)]
pub enum NoReplyReason {
    /// No whole frame has arrived yet.
    #[error("no whole frame has arrived")]
    NoFrame,
    /// The options of the frame are not 0.
    #[error("the options are not 0")]
    Options,
    /// The status of the frame is not 0 (ours).
    #[error("the status is not 0")]
    Status,
    /// A NOP has no answer.
    #[error("a NOP has no answer")]
    Nop,
    /// A SendUnitData or an UnRegisterSession does not name the session that the peer registered (ours).
    #[error("the session is not the one that the peer registered")]
    AnotherSession,
    /// The data of a SendUnitData are not a packet (ours).
    #[error("not a packet: {0}")]
    NotAPacket(CpfFault),
    /// The session has no such connection, or the connection does not take such an item (ours).
    #[error("no such connection, or an item that it does not accept")]
    NotTaken,
    /// An UnRegisterSession closes the peer.
    #[error("the session is unregistered")]
    Unregistered,
    /// The peer is closed, or not held.
    #[error("the peer is closed or has no slot")]
    NotServed,
}
