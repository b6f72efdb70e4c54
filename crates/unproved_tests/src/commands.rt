//! Tests of `enip_commands`, `enip_replay` and `enip_config` together: readers and writers that fail, a client next to
//! an adapter, and the texts of errors.

mod answering;
mod asking;
mod command_files;
mod configuration;
mod demo;
mod exchanges;
mod ladders;
mod ledger;
mod once;
mod replaying;
mod showing;
mod streams;
mod texts;
