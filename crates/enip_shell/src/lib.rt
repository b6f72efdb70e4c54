//! Completion scripts of bash, zsh and fish, and the man page of a program with commands.
//!
//! A [`Program`] is a table of commands, their arguments and their texts. [`write_bash`], [`write_zsh`], [`write_fish`]
//! and [`write_man`] write it to any writer. The program makes its table from that of its help, so that neither has an
//! option that the other lacks.
//!
//! Values of an argument are completed by what it [takes](Takes). The names of classes, attributes and services are
//! those of `cip_names`.
#![tactic(auto)]

mod bash;
mod fish;
mod man;
mod names;
mod tables;
mod zsh;

pub use bash::write_bash;
pub use fish::write_fish;
pub use man::write_man;
pub use tables::{Argument, Command, Program, TYPE_NAMES, Takes};
pub use zsh::write_zsh;
