//! Runs over the adapter that a configuration describes, for `enip answer` and `enip replay`: the adapter is made of the
//! text, the output is buffered, and what ends a run early is a [`Fault`](enip_common::Fault) of the program.
//!
//! `specs/Statuses.antt` says with which faults a run ends, by its configuration.
#![tactic(auto)]

mod answering;
mod replaying;

pub use answering::answer;
pub use replaying::{draw, replay};
