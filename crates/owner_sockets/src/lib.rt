//! The sockets of a served device for its owner, a program that executes its commands. What the lines of an owner do is in
//! `owner_port`.
//!
//! - [`OwnerSockets`] are the listener and the connection of the owner that there is. `specs/Owners.antt` says who may be
//!   one.
//! - An [`OwnerLink`] is the owner as the rounds of a device use it: the port for its lines, and its sockets. It is the guest
//!   of the rounds.
#![tactic(auto)]

mod connection;
mod guest;
mod link;
mod sockets;

pub use link::OwnerLink;
pub use sockets::OwnerSockets;
