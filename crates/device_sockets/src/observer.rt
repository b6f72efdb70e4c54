//! What observes the connections of a served device: the log, or a report of the clients that are turned away.

use crate::owner_event::OwnerEvent;
use crate::turned_away::TurnedAway;
use enip_server::Wire;
use mio::net::TcpStream;
use owner_port::HasAddress;
use std::net::SocketAddr;

/// Makes the wires of connections, and is informed of what no wire sees. Times are in microseconds since the start.
pub trait Observer {
    /// The wire of a connection.
    type Wire: Wire + HasAddress + Drop;

    /// What is informed of owners.
    type OwnerLog: OwnerLog + Drop;

    /// What is informed of owners from now on.
    fn owner_log(&self) -> Self::OwnerLog;

    /// The wire of a connection that has a peer slot, to a client at this address. `None` if there is no memory for it.
    fn wire(&self, stream: TcpStream, address: SocketAddr) -> Option<Self::Wire>;

    /// A connection is closed at once.
    fn turned_away(&mut self, now: u64, address: SocketAddr, why: TurnedAway);

    /// The time at which a report is due.
    fn next_report(&self) -> Option<u64>;

    /// Reports what is due.
    fn report(&mut self, now: u64);

    /// A datagram was answered.
    fn answered(&self, sender: SocketAddr, datagram: &[u8], answer: &[u8]);
}

/// Is informed of what happens to the connections of owners.
pub trait OwnerLog {
    /// Something happened to the connection of an owner at this address.
    fn owner(&self, address: SocketAddr, event: OwnerEvent);
}

/// Nothing is logged of owners.
#[derive(Clone, Copy)]
pub struct NoOwnerLog;

impl OwnerLog for NoOwnerLog {
    fn owner(&self, _address: SocketAddr, _event: OwnerEvent) {}
}
