//! A server for several peers of an adapter at once (ODVA CIP Networks Library, Volume 2), without sockets and without
//! a clock.
//!
//! `Peers` holds an adapter and a slot for each peer: its wire, an inbox of bytes that were read and not fed, and an
//! outbox of answer bytes that were not written. A `Wire` is a stream whose calls never block.
//!
//! - `add` begins a peer on a new wire.
//! - `add_as` begins a peer with rights, as one of a group. If all slots are taken, a peer that has registered no session
//!   and sent nothing for 10 seconds gives way to it.
//! - `make_room` ends that peer already, for a client that is added later.
//! - `mark_ready` reports that a wire may be ready.
//! - `round` gives each peer that may be ready one turn. A turn first writes what is left of an answer. Once all of it
//!   is written, it makes one read of at most 4,096 bytes and feeds them frame by frame. Each answer is written before
//!   the next frame is fed.
//! - `round_asking` does the same, and asks the owner of the device (`cip_owner::Owner`) about each request to it: its
//!   reply is the answer to that frame. In `round` such a request is answered "device state conflict" (0x10).
//! - `round_watched` does the same, and shows the device to a `Watcher` after each frame, before the next one is fed.
//! - `close_if_reset` closes all peers after a round in which a peer has reset the device.
//! - `release` lets the answers of a round leave, if each wire is a `HeldWire`, which holds back what is written to it.
//! - `admit_frames` admits the frames of a round that wait, if each wire is a `GatedWire`: a `FrameWire`, alone or inside a
//!   `HeldWire`. A `Gate` decides about each request to the owner. So one peer can wait for the owner's answer while others
//!   are served.
//! - `show_connections` writes the number of open connections to the Message Router, if the device has this object.
//! - Between rounds, `adapter` reads the objects, connections and queued commands, `write_data`, `write_attribute`,
//!   `set_device_status` and `set_device_state` write on behalf of the device itself, and `finish` finishes a queued
//!   command.
//!
//! No call after `Peers::new` allocates memory.
//!
//! One step of a server. Call it again at the time that it returns, or when the system reports that a wire is ready:
//!
//! ```
//! fn serve_ready<W: Wire + Drop>(
//!     peers: &mut Peers<W>,
//!     now: u64,
//!     accepted: Option<W>,
//!     ready: &[usize],
//! ) -> Option<u64> {
//!     if let Some(wire) = accepted {
//!         // if no slot is free, the wire is dropped, which closes it
//!         let _ = peers.add(now, wire);
//!     }
//!     for slot in ready {
//!         peers.mark_ready(*slot, false);
//!     }
//!     let end = peers.round(now);
//!     if end.ready { Some(now) } else { end.next }
//! }
//! ```
//!
//! Between two steps, the program that owns the device writes the inputs that its peers read. It returns whether they
//! have written outputs since `seen`, a count of changes:
//!
//! ```
//! fn exchange<W: Wire + Drop>(peers: &mut Peers<W>, inputs: &[u8], seen: &mut Option<u32>) -> bool {
//!     // peers read the inputs in assembly 100
//!     peers.write_data(100, 0, inputs);
//!     // and write the outputs in assembly 101
//!     let changes = peers.adapter().changes(101);
//!     let are_new = changes != *seen;
//!     *seen = changes;
//!     are_new
//! }
//! ```
//!
//! If the device has own services or checked attributes, each request for one is asked of the machine behind it, once,
//! in the turn in which its frame is served:
//!
//! ```
//! fn serve_machine<W: Wire + Drop, O: Owner>(
//!     peers: &mut Peers<W>,
//!     now: u64,
//!     machine: &mut O,
//!     speed: u16,
//! ) -> RoundEnd {
//!     // peers read the speed in attribute 1 of instance 1 of class 112
//!     peers.write_attribute(112, 1, 1, 0, &speed.to_le_bytes());
//!     // and the machine executes own services and checks sets
//!     peers.round_asking(now, machine)
//! }
//! ```
//!
//! A program that must learn of each change, and not only of the last one, passes a watcher:
//!
//! ```
//! fn serve_watched<W: Wire + Drop, T: Watcher<W>>(
//!     peers: &mut Peers<W>,
//!     now: u64,
//!     log: &mut T,
//! ) -> RoundEnd {
//!     // after each frame of a peer, `log` sees the device and the wire of that peer
//!     peers.round_watched(now, &mut NoOwner, log)
//! }
//! ```
//!
//! A server that stores what a round changed before its answers leave has a `HeldWire` around each wire:
//!
//! ```
//! fn serve_stored<W: Wire + Drop>(
//!     peers: &mut Peers<HeldWire<W>>,
//!     now: u64,
//!     store: &mut Store,
//! ) -> Result<RoundEnd, StoreError> {
//!     let end = peers.round(now);
//!     // if this fails, drop the peers: the answers of this round then never leave
//!     store.save(peers.adapter())?;
//!     let ready = peers.release();
//!     Ok(RoundEnd { ready, ..end })
//! }
//! ```
#![tactic(auto)]

mod admissions;
mod evictions;
mod frame_cursor;
mod frame_wire;
mod gate;
mod gated_wire;
mod held_wire;
mod io_buffer;
pub mod laws;
mod peer_io;
mod peers;
mod shown_connections;
mod slots;
mod watcher;
mod wire;
mod wire_counts;

pub use evictions::EVICTION_SILENCE;
pub use frame_wire::FrameWire;
pub use gate::Gate;
pub use gated_wire::GatedWire;
pub use held_wire::HeldWire;
pub use io_buffer::IO_BUFFER_SIZE;
pub use peer_io::LINGER;
pub use peers::{NO_IDLE_TIMEOUT, Peers, RoundEnd};
pub use watcher::{NoWatcher, Watcher};
pub use wire::{ReadOutcome, Wire};
pub use wire_counts::WireCounts;
