//! An EtherNet/IP adapter (ODVA CIP Networks Library, Volume 2): it serves CIP objects to peers over TCP streams.
//!
//! An `Adapter` has no socket and no clock. Its caller owns both:
//!
//! - `begin` and `end` report that a TCP connection begins or ends. `begin_as` gives its peer rights, and a group for
//!   whose share it counts.
//! - `feed` takes bytes of a peer's stream and the time at which they arrived, in microseconds. It lends the answer to
//!   send, or gives the reason why there is none.
//! - `tick` reports the time alone. `deadline` is the next time at which a connection ends.
//! - `serve` does one read and the feeds and writes that follow, over a reader and a writer.
//! - `discover` answers a datagram. It keeps nothing of it.
//! - `queue` lists the commands that wait for the program that owns the device. `finish` gives one its reply.
//!
//! The answers are a function of the peers' whole frames, of the times and of the device's own writes: `turn` of
//! `specs/Turn.antt`, which has one definition for each command. No call after `Adapter::new` allocates memory.
//!
//! One peer of a device, whose bytes arrive in pieces of any size, each with its time. `written` collects what is sent
//! back:
//!
//! ```
//! fn serve_pieces(
//!     adapter: &mut Adapter,
//!     pieces: &[(u64, &[u8])],
//!     written: &mut Vec<u8>,
//! ) -> Result<(), AllocError> {
//!     let Ok(peer) = adapter.begin() else {
//!         return Ok(());
//!     };
//!     for (moment, piece) in pieces {
//!         let mut rest = *piece;
//!         while !rest.is_empty() {
//!             let fed = adapter.feed(*moment, &peer, rest);
//!             if let Some(answer) = fed.answer {
//!                 written.extend_from_slice(answer)?;
//!             }
//!             if fed.close {
//!                 break;
//!             }
//!             rest = &rest[fed.taken..];
//!         }
//!     }
//!     adapter.end(peer);
//!     Ok(())
//! }
//! ```
#![tactic(auto)]

mod adapter;
mod asked_head;
mod commands;
mod endings;
pub mod laws;
mod no_reply_reason;
mod peer;
mod peer_slots;
mod reply;
mod rights;
mod serving;
mod shared;

pub use adapter::{Adapter, Fed, Full, Limits, Shares};
pub use commands::DiscoveryBuffer;
pub use endings::{EndReason, EndedConnection, Endings};
pub use no_reply_reason::NoReplyReason;
pub use peer::{Peer, Rights};
pub use reply::LONGEST_ANSWER;
pub use serving::{LONGEST_READ, ServeFault, Served, serve};
pub use shared::Listen;
