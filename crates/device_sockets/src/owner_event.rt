//! What happens to the connections of owners, as the log prints it.

use owner_port::SessionEnd;
use std::fmt;

/// Why the connection of an owner ended.
#[derive(Clone, Copy)]
pub enum OwnerEnd {
    /// The owner closed it.
    Closed,
    /// A read or a write failed.
    Failed,
    /// Another connection came before its token.
    Replaced,
    /// The device ended the session.
    Session(SessionEnd),
}

impl fmt::Display for OwnerEnd {
    fn fmt<W: fmt::Write>(&self, f: &mut fmt::Formatter<W>) -> fmt::Result {
        match self {
            OwnerEnd::Closed => f.write_str("closed by the owner"),
            OwnerEnd::Failed => f.write_str("connection failed"),
            OwnerEnd::Replaced => f.write_str("another connection came before its token"),
            OwnerEnd::Session(end) => write!(f, "{end}"),
        }
    }
}

/// Why the connection of an owner is closed at once.
#[derive(Clone, Copy)]
pub enum OwnerRefusal {
    /// It does not come from the address of `--owner-from`.
    Address,
    /// There is an owner already.
    Busy,
}

impl fmt::Display for OwnerRefusal {
    fn fmt<W: fmt::Write>(&self, f: &mut fmt::Formatter<W>) -> fmt::Result {
        let text = match self {
            OwnerRefusal::Address => "not the address of --owner-from",
            OwnerRefusal::Busy => "there is an owner already",
        };
        write!(f, "{text}")
    }
}

/// What happens to the connection of an owner.
#[derive(Clone, Copy)]
pub enum OwnerEvent {
    /// It was accepted.
    Connected,
    /// It has ended.
    Disconnected(OwnerEnd),
    /// It was closed at once.
    Refused(OwnerRefusal),
}

impl fmt::Display for OwnerEvent {
    fn fmt<W: fmt::Write>(&self, f: &mut fmt::Formatter<W>) -> fmt::Result {
        match self {
            OwnerEvent::Connected => write!(f, "owner connected"),
            OwnerEvent::Disconnected(cause) => write!(f, "owner disconnected: {cause}"),
            OwnerEvent::Refused(cause) => write!(f, "owner refused: {cause}"),
        }
    }
}
