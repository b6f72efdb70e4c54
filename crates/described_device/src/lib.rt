//! The commands that print the device that a configuration describes, and open no socket: [`run_check`] is `enip check`,
//! and [`run_eds`] is `enip eds`.
#![tactic(auto)]

mod checking;
mod data_sheet;
mod device_lines;

pub use checking::run_check;
pub use data_sheet::run_eds;
