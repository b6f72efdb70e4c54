//! The rounds in which a device is served on sockets.
//!
//! [`serve_connections`] serves a [`ServedDevice`] until an error or the last connection: with a file that keeps its state or
//! without one, and with an owner or without one. What a round does to the peers is proved in `enip_server` and `kept_server`.
//! Here is when each socket is tried, and what a round gets. A [`RoundDevice`] is served in rounds: one whose state is kept, or
//! [`UnkeptPeers`], whose keeper is [`NoKeeper`].
#![tactic(auto)]

mod discovery;
mod no_keeper;
mod round_device;
mod serve;
mod served_device;
mod unkept_peers;

pub use no_keeper::NoKeeper;
pub use round_device::RoundDevice;
pub use serve::{ServeLimits, Sockets, serve_connections};
pub use served_device::ServedDevice;
pub use unkept_peers::UnkeptPeers;
