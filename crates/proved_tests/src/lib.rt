//! Tests that are proved before they run. The other tests of the libraries are in `unproved_tests`.
//!
//! - Laws hold for the objects of a device.
//! - Sessions in which `tests/memory` refuses or counts each allocation. It needs the built program.
//! - Runs that are too long for a build with checks.
#![tactic(auto)]

#[cfg(test)]
mod adapter_large;
#[cfg(test)]
mod adapter_memory;
#[cfg(test)]
mod bench_growths;
#[cfg(test)]
mod both_ends;
#[cfg(test)]
mod changed;
#[cfg(test)]
mod client_memory;
#[cfg(test)]
mod laws;
#[cfg(test)]
mod runs;
#[cfg(test)]
mod same;
