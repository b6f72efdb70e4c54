//! What a served device starts from: its configuration, and FILE of `--keep`.
//!
//! - [`configured_start`] is what a device starts from, by its configuration.
//! - [`fill_from_system`] puts in the values that the configuration leaves to network interfaces of this computer.
//! - A [`KeptFile`] is FILE: how it is opened, and why it is refused. [`start_kept`] starts a device from it if nothing of it
//!   would be lost, or if [`StartWishes`] say that this is wanted. [`print_kept_values`] prints what it has.
//! - A [`ReportedAddress`] is where discovery reports the device, compared with where it listens.
#![tactic(auto)]

mod file_identity;
mod hindrance_text;
mod judgement;
mod kept_commands;
mod kept_file;
mod kept_start;
mod kept_values;
mod prepared;
mod reported_address;
mod start;
mod start_watch;
mod system;
mod wishes;

pub use judgement::OpenFault;
pub use kept_file::{FileNote, FileUser, KeptFile, LockedFile, OpenFile};
pub use kept_start::{print_kept_values, start_kept};
pub use kept_values::KeptValues;
pub use reported_address::{Elsewhere, ReportedAddress, listen_of, warn_of_address};
pub use start::configured_start;
pub use system::fill_from_system;
pub use wishes::{StartWishes, are_attributes};
