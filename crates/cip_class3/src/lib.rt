//! Both ends of a class 3 connection (ODVA CIP Networks Library, Volume 1, transport class 3).
//!
//! A [`Target`] executes each request once, however often it arrives. It keeps the sequence count and the reply of
//! the last request that it executed, and answers a repeat with them. An [`Originator`] has at most one outstanding
//! request, and accepts only the reply to that request. [`laws`] states what follows for whole lists of items and
//! calls.
//!
//! A target works with any router that keeps the laws of `cip_message::Router`. Only `Originator::new` allocates.
//! Bytes come in and go out as slices: this crate has no sockets and no clock.
//!
//! ```
//! let mut originator = Originator::new(alloc, 1, 500, 500)?;
//! let mut target = Target::new(500, 500);
//! let item = originator.submit(request)?; // send it, and again with `resend` until the reply arrives
//! if target.receive(objects, item) != Received::Dropped {
//!     let kept = target.kept(); // the sequence count and the reply to send back
//! }
//! ```
#![tactic(auto)]

mod item;
pub mod laws;
mod originator;
mod target;

pub use cip_bytes::protocol::LARGEST_CONNECTION_SIZE;
pub use originator::{Came, Originator, Refused, Stage};
pub use target::{KeptReply, Received, Target};
