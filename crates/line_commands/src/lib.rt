//! The commands over lines: `enip answer`, `enip replay` and `enip show`, over any reader and writer and from their
//! arguments.
//!
//! [`answer::answer`], [`replay::replay`], [`replay::draw`] and [`show::show`] return the exit status of the program, and
//! pass the fault with which they end early to a [`report::Report`].
#![tactic(auto)]

pub mod answer;
mod commands;
pub mod replay;
pub mod report;
pub mod show;

pub use commands::{run_answer, run_replay, run_show};
