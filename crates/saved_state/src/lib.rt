//! The state of a device as bytes: what it keeps over a restart, under keys, and how many changes came before.
//!
//! [`SavedState::read`] reads bytes, all of them, and lends the entries that they spell. [`write`] writes the entries
//! of an [`EntrySource`] into a buffer. Neither allocates.
//!
//! Bytes are read if and only if they are those that [`write`] writes for some entries, so a state that was cut, that
//! goes on, or that has a changed byte is refused. The crate knows no device: what the keys mean is decided above.
//!
//! Text: docs/STATE.md.
#![tactic(auto)]

mod entry;
mod fault;
mod fnv;
pub mod laws;
mod numbers;
mod state;
mod writing;

pub use entry::{Entries, EntryView};
pub use fault::{StateFault, WriteFault};
pub use fnv::{checksum, checksum_more};
pub use state::SavedState;
pub use writing::{EntryHead, EntryList, EntrySource, saved_size, write};
