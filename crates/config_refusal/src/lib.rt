//! Why the configuration of a device is refused: the checks, and their numbers. `enip_config` makes the checks.
//!
//! - A [`ConfigurationRefusal`] is a check. `specs/Refusals.antt` has its number, and which checks are those of
//!   `cip_objects`.
//! - A [`LoadFault`] is a check, or memory that was refused.
#![tactic(auto)]

mod fault;

pub use fault::{ConfigurationRefusal, LoadFault};
