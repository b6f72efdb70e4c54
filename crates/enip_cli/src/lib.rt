//! The command line of the program `enip`: its commands and options, and their help.
#![tactic(auto)]

mod argument_row;
mod arguments;
mod command_row;
mod command_rows;
mod commands;
mod connection_rows;
mod device_texts;
mod line_commands;
mod line_rows;
mod line_texts;
mod option_texts;
mod request_rows;
mod request_texts;
mod serving_rows;
mod serving_texts;
mod shell_texts;
mod tabulating;
mod texts;

pub use commands::{PROGRAM, program};
pub use line_commands::line_command;
pub use tabulating::program_table;
