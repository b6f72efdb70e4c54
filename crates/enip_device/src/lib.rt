//! `enip serve`: a device on sockets, from its arguments.
//!
//! [`run_serve`] reads the arguments (`serve_options`), starts the device (`device_start`), opens the sockets, and serves in
//! rounds (`device_rounds`) until an error or the last connection. There is one way from a configuration to a served device:
//! with FILE of `--keep` or without it, and with an owner or without one. What observes the device is in `device_log`, and the
//! owner is in `owner_sockets`.
#![tactic(auto)]

mod owner_start;
mod serve_command;
mod service;

pub use serve_command::run_serve;
