//! The state of a device as entries, each a key and bytes, and a device that starts from them.
//!
//! What is saved is all that can change while a device runs and matters after a restart: the data of the assemblies, the
//! counter, the attributes of the application objects, the command ledger with the number of the device's life, and the
//! queue of commands with its results. Sessions and connections are not saved. [`saved_entry`] gives one entry after
//! another, and [`restore`] puts one back. `saved` in `specs/Saved.antt` defines the entries, and `restored` in
//! `specs/Restored.antt` the device after them. [`laws`] states that a device of the same configuration that starts from
//! what was saved goes on with the same values and the same ledger.
//!
//! A state has version 2 if commands of its queue may wait that no owner was handed, or if its ledger has a command that was
//! withdrawn. Its first entry says so, and an older program refuses it as that of another device. Any other state is one that
//! an older program reads as well.
//!
//! The queue has [`QUEUE_ENTRIES`] entries of its own, each with a number: [`write_queue_entry`] writes one, and
//! [`restore_queue_entry`] puts one back. `specs/QueueEntries.antt` defines both. With a queue, [`object_entry`] gives the
//! other entries, but those of the ledger: the first one has the version that [`needs_version_2`] says.
//!
//! A key has 48 bits: the class, the instance and the attribute. The entries come in the order of the configuration, so
//! a saved form that wants rising keys sorts them. They are the whole state, and replace those that were saved before:
//! a slot of the ledger that was freed has no entry.
//!
//! Nothing here allocates.
//!
//! ```
//! let mut bytes = ReplyBuf::new();
//! let mut index = 0;
//! while let Some(key) = saved_entry(adapter.objects(), adapter.ledger(), index, &mut bytes) {
//!     write(key, &bytes); // your own
//!     index += 1;
//! }
//! // after a restart, before the adapter is made of these objects and this ledger
//! for (key, bytes) in entries {
//!     restore(&mut objects, &mut ledger, key, bytes);
//! }
//! ```
#![tactic(auto)]

mod identity;
mod key;
pub mod laws;
mod ledger;
mod queue;
mod restoring;
mod saving;

pub use identity::{identity_key, is_same_device, needs_version_2};
pub use ledger::is_withdrawn;
pub use queue::{QUEUE_ENTRIES, restore_queue_entry, write_queue_entry};
pub use restoring::{Outcome, restore};
pub use saving::{object_entry, saved_entry};
