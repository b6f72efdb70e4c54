//! The Connection Manager (ODVA CIP Networks Library, Volume 1). It opens class 3 connections by Forward_Open, and
//! ends them by Forward_Close, on timeout, or with their session. It passes items to them and returns the answers.
//!
//! [`Manager`] allocates all connection slots in `new` or `with_share`, and no later call allocates. It has no clock
//! and no sessions of its own: each call gets the moment, in microseconds, and the handle of the session that it comes
//! from. `connected` ends no connection, so call `expire` with the same moment first. `deadline` is the next moment
//! at which `expire` ends a connection.
//!
//! A connection may count for a group, a number that the caller chooses, such as the address of a client
//! ([`Opener`]). No group ever has more open connections than the share that `with_share` gets. An opening beyond the
//! share is refused as one with all slots taken, and the connections of others stay as they are.
//!
//! Left out are connections of class 0 and 1, null and listen-only opens, multicast, and routes through ports.
#![tactic(auto)]

mod connection;
mod index;
pub mod laws;
mod manager;
mod opening;
mod reply;
mod search;
mod selection;
mod slots;
mod table;

pub use connection::{ConnectionInfo, Opener};
pub use index::Steps;
pub use manager::{KeptAnswer, LONGEST_REPLY, Manager};
