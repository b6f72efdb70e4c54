//! Numbers as bytes, appending to a buffer of fixed capacity, and the numbers of the standard. Every other crate
//! builds on this one.
//!
//! Numbers on the wire are little-endian (Volume 1, elementary data types). `specs/Numbers.antt` defines the bytes
//! of a number and the number at an offset. `specs/Reading.antt` defines reading from the front of a buffer, where
//! the first fault ends the reading. `proofs/` has the lemmas on both.
//!
//! The `append` functions require that the bytes fit. A caller that cannot know this checks first and answers
//! [`Full`].
#![tactic(auto)]

pub mod protocol;
mod status_text;
mod writing;

pub use status_text::StatusText;
pub use writing::{Full, append, append_u8, append_u16, append_u32};
