//! The sessions of a device's owner, a program that executes its commands, over JSON lines (`enip_owner`). This crate
//! knows no socket and no clock.
//!
//! An [`OwnerPort`] outlives the sessions. It is a watcher of the rounds in which peers are served
//! (`Peers::round_watched`), so that each set of an attribute by a peer is reported, with the address of the peer.
//!
//! - `begin` and `end` report that the connection of an owner begins or ends. There is one owner at a time.
//! - `feed` takes bytes of the owner up to the end of one line, executes the line and queues its answer.
//! - `admit_frames` asks the owner what the frames that wait ask (`enip_server::GatedWire`), and admits those whose answer
//!   has come or comes no more. `take_reply` is the owner of the device in the next round.
//! - `mark` marks the commands that the owner may have in hand as handed over. If the state of the device is kept, keep the
//!   mark before the next call. `has_unmarked` says whether a round is due for that.
//! - `hand_over` queues the commands that are marked, each once in a session and in their order, as long as the owner has
//!   fewer than `ahead` of them in hand, and the connections that ended.
//! - `pending` are the bytes to write to the owner, and `written` says how many of them were written.
//!
//! At most 256 KiB wait to be written. If a set does not fit, the session is over (`is_over`): an owner that does not
//! read loses its connection, and the device goes on. Answers and commands wait until they fit.
//!
//! One step of a server, with the bytes that have arrived from the owner:
//!
//! ```
//! fn step<W: Wire + HasAddress + Drop>(peers: &mut Peers<W>, port: &mut OwnerPort, now: u64, bytes: &[u8]) {
//!     let mut rest = bytes;
//!     while !rest.is_empty() && port.can_feed() {
//!         rest = port.feed(rest, peers);
//!     }
//!     peers.round_watched(now, &mut NoOwner, port);
//!     port.mark(peers);
//!     port.hand_over(peers.adapter());
//!     // and now write `port.pending()`
//! }
//! ```
//!
//! `specs/Sessions.antt` defines what is queued, `specs/Execution.antt` what a line of the owner does,
//! `specs/Sets.antt` which sets are reported, `specs/Handing.antt` which commands are queued, and `specs/Questions.antt` and
//! `specs/Asking.antt` what the owner is asked. [`laws`] has what
//! follows.
#![tactic(auto)]

mod asked_request;
mod attribute_table;
mod device_table;
mod execution;
mod fault;
mod handing;
pub mod laws;
mod output;
mod port;
mod prepared_reply;
mod questions;
mod senders;
mod sending;
mod session;
mod set_count;

pub use device_table::DeviceTable;
pub use fault::{LineFault, SessionEnd};
pub use output::OUTPUT_LIMIT;
pub use port::OwnerPort;
pub use prepared_reply::PreparedReply;
pub use senders::HasAddress;
