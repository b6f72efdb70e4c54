//! Exactly once, over both ends of a class 3 connection (ODVA CIP Networks Library, Volume 1, transport class 3).
//!
//! A list of events says what is submitted, resent, delivered and lost between an originator and a target, and what the
//! device itself writes. Three worlds get the same events:
//!
//! - the *counting world*: the whole adapter and the whole client, and the bytes of the frames between them;
//! - the *item world*: both ends by their rules, with sequence counts of 16 bits and kept bytes;
//! - the *numbered world*: requests have numbers that never wrap, and each is executed once, in one order with the
//!   device's own writes.
//!
//! [`laws`] states that all three show the same. [`Bench`] runs the counting world.
#![tactic(auto)]

mod bench;
mod event;
mod frames;
pub mod laws;
mod opening;
mod world;

pub use bench::{Bench, BenchFault, Seen};
pub use event::{Event, OwnWrite, Step};
pub use frames::Frames;
pub use world::Accepted;
