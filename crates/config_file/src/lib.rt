//! The configuration of a device in a file that an argument of the program `enip` names.
//!
//! - A [`ConfigFile`] has the content of the file. It reads the configuration, or makes the error of a refused one, which
//!   says what is wrong with it.
//! - [`owner_need`] and [`need_at_once`] say which part of a configuration needs an owner of the device.
//! - [`error_of_run`] makes the error of a command that runs the device of a configuration over lines.
#![tactic(auto)]

mod config_file;
mod owner;

pub use config_file::{ConfigFile, error_of_run};
pub use owner::{need_at_once, owner_need};
