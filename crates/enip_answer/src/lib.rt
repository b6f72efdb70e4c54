//! The command `enip answer`: an adapter over lines with pieces of streams in hexadecimal.
//!
//! [`answer`] runs an adapter over the lines of any reader, and prints its answers to any writer. `specs/Lines.antt`
//! defines what a line means, and `specs/Answering.antt` what it does. The caller makes the adapter.
#![tactic(auto)]

mod answering;
mod lines;
mod peer_number;

pub use answering::answer;
