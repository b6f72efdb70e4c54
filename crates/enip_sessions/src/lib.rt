//! The commands of `enip` that send many requests in one session: `batch`, `watch` and `inspect`.
//!
//! Each function runs one command: it reads the arguments, opens the sockets, and prints. It returns the exit status, or
//! a [`CommandError`](enip_common::CommandError). The device is that of `remote_device`.
#![tactic(auto)]

mod batch;
mod inspect;
mod inspected;
mod line_request;
mod watch;
mod watch_table;

pub use batch::run_batch;
pub use inspect::run_inspect;
pub use watch::run_watch;
