//! The command line of the program `enip`: [`parse`] reads it, or prints the help or why it is refused. [`run_page`] prints
//! the pages about it, `enip completions` and `enip man`.
#![tactic(auto)]

mod pages;
mod parsing;

pub use pages::{Page, run_page};
pub use parsing::parse;
