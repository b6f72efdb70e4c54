//! What the sockets of a served device share. The loop over them is in `device_rounds`, the log in `device_log`, and the
//! sockets of an owner in `owner_sockets`.
//!
//! - [`Readiness`] says when a socket is tried that gives one connection or datagram after another. An [`Acceptor`] is such
//!   a socket.
//! - A [`TcpWire`] is a connection of a peer.
//! - What takes part in the rounds, an owner or nobody, is an [`UnkeptGuest`] if nothing of the device is kept, and has
//!   [`GuestSockets`]. [`admit`] says what a client may do.
//! - An [`Observer`] makes the wires, and is informed of clients that are turned away. An [`OwnerLog`] is informed of
//!   owners.
#![tactic(auto)]

mod acceptor;
mod admission;
mod guest_sockets;
mod observer;
mod owner_event;
mod readiness;
mod serve_fault;
mod times;
mod turned_away;
mod unkept_guest;
mod wire;

pub use acceptor::Acceptor;
pub use admission::{Admission, admit};
pub use guest_sockets::GuestSockets;
pub use observer::{NoOwnerLog, Observer, OwnerLog};
pub use owner_event::{OwnerEnd, OwnerEvent, OwnerRefusal};
pub use readiness::Readiness;
pub use serve_fault::ServeFault;
pub use times::earlier;
pub use turned_away::TurnedAway;
pub use unkept_guest::UnkeptGuest;
pub use wire::TcpWire;
