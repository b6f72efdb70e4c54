//! A server for several peers of a device whose state is kept over a restart.
//!
//! `KeptPeers` is the `Device` of an `enip_keep::Server`: in a round it serves the peers that may be ready, with their
//! answers held back (`enip_server::HeldWire`). Then it names the entries that differ from what is kept, and once they
//! are committed it releases the answers. What is kept of an adapter, and how one starts from it, is a `KeptDevice`.
//!
//! A start may take nothing from a value that was found, as from one of another size. That value stays kept until the
//! device's own value changes.
//!
//! A `RoundGuest` takes part in the rounds, as the port of an owner does: its writes come first in a round, it names the
//! owner of the round, who answers requests at once, and it watches the frames of peers. At the end of a round it may admit
//! frames that wait for the owner's answer (`enip_server::GatedWire`). Without a guest (`NoWatcher`) nobody is asked: a
//! request to an owner that has to answer at once is answered "device state conflict" (0x10).
#![tactic(auto)]

mod changes;
mod guest;
mod kept_device;
mod kept_peers;
mod lives;
mod round;
mod table;
mod waits;

pub use guest::RoundGuest;
pub use kept_device::KeptDevice;
pub use kept_peers::KeptPeers;
pub use lives::live_peers;
pub use round::{Accepted, MOST_READY, ReadyWire, RoundInput};
