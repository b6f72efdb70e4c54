//! The commands of `enip` that send one request to a device, once or again and again: `get`, `set`, `call`, `identity`,
//! `services` and `discover`; `ledger`, which asks a command ledger; and `help objects`, the names that requests may
//! have.
//!
//! Each function runs one command: it reads the arguments, opens the sockets, and prints. It returns the exit status, or
//! a [`CommandError`](enip_common::CommandError). The device is that of `remote_device`, and what is sent and printed is
//! made by `enip_client` and `enip_commands`.
#![tactic(auto)]

mod client;
mod command_record;
mod found_devices;
mod identified;
mod ledger;
mod ledger_jobs;
mod ledger_task;
mod listing;
mod objects_help;
mod once;
mod once_errors;
mod once_file;
mod once_locking;
mod once_options;
mod pauses;
mod polling;
mod request;
mod slot_texts;
mod withdrawing;

pub use client::{Query, run_call, run_get, run_query, run_set, run_slots};
pub use objects_help::{is_help_of_objects, run_help_of_objects};
pub use once_file::run_once_file;
