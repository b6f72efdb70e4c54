//! What is kept of an adapter over a restart, and the adapter that starts from it.
//!
//! An `AdapterStart` is the `KeptDevice` of a `kept_server`: the entries of `device_state`, for an adapter as a
//! configuration describes it. Their keys depend on the objects and on whether there is a ledger and a queue, and on
//! nothing else, as a keeper never deletes a key. So the ledger has an entry for each slot that a ledger can have, and
//! that of a free slot has no bytes. So it is of the places of the queue.
//!
//! A start puts back what it can. If not every entry of the ledger can be put back, the ledger starts empty, in another
//! life of the device: no command is executed twice. If not every entry of the queue can be put back, the queue starts
//! empty, and so does the ledger. [`laws`] states what holds over restarts.
#![tactic(auto)]

mod adapter_start;
mod comparing;
mod entry_name;
mod fault;
mod hindrances;
mod keys;
pub mod laws;
mod lives;
mod origins;
mod preparing;
mod progress;
mod queue_progress;
mod saving;
mod starting;
mod tickets;

pub use adapter_start::{AdapterStart, LedgerStart};
pub use entry_name::EntryName;
pub use fault::StartFault;
pub use hindrances::{Hindrance, is_taken, is_waiting, taken_slots, waiting_commands};
pub use keys::{is_origin_key, ledger_key, origin_key, queue_key};
pub use lives::live_adapter;
pub use origins::{ValueState, kept_at};
pub use preparing::Wishes;
pub use saving::write_ledger_bytes;
