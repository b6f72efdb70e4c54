//! Tests of the libraries for what the program `enip` cannot show: readers and writers that fail, steps of a search,
//! very long runs, and the texts of errors. What the program can show is tested by `tests/rows`.
//!
//! They are run with checks and are not proved (`tests/tried`): a proof would only say that a test is safe and
//! returns, and no promise depends on that. Tests that need a proof are in `proved_tests`.
#![tactic(auto)]

#[cfg(test)]
mod adapter;
#[cfg(test)]
mod addresses;
#[cfg(test)]
mod bench;
#[cfg(test)]
mod cip;
#[cfg(test)]
mod client;
#[cfg(test)]
mod commands;
#[cfg(test)]
mod eds;
#[cfg(test)]
mod interfaces;
#[cfg(test)]
mod keep;
#[cfg(test)]
mod layouts;
#[cfg(test)]
mod owner_lines;
#[cfg(test)]
mod queue_fixtures;
#[cfg(test)]
mod server;
#[cfg(test)]
mod states;
#[cfg(test)]
mod texts;
#[cfg(test)]
mod values;
#[cfg(test)]
mod wire;
