//! Reads and writes that are tried again if a signal interrupts them: [`read_some`] and [`write_some`].
#![tactic(auto)]

mod retry;

pub use retry::{read_some, write_some};
