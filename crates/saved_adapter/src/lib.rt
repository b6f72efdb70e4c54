//! The state of an adapter as bytes, for a device without files, and an adapter that starts from them.
//!
//! What is kept of an adapter is defined in `kept_adapter`, and how a state is spelled in bytes in `saved_state`.
//! [`save`] writes the one as the other, [`generation`] says whether anything has changed since a state was saved, and
//! [`start`] makes the adapter that starts from a state. [`save`] and [`generation`] allocate nothing.
//!
//! A command that is about to be executed is passed as `doubt`: the state then has it in doubt. A device that saves
//! such a state before it acts does not execute the command again after a restart.
//!
//! ```
//! let next = generation(&adapter, None, state)?;
//! let size = save(&adapter, None, next, buffer)?;
//! // after a restart
//! let adapter = start(alloc, &configured, &buffer[..size])?;
//! ```
//!
//! Text: docs/STATE.md, "An adapter".
#![tactic(auto)]

mod entries;
pub mod laws;
mod marked;
mod saving;
mod starting;

pub use entries::AdapterEntries;
pub use saving::{generation, save};
pub use starting::{RestoreFault, start};
