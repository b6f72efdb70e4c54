//! The adapter that a configuration describes.
//!
//! - [`adapter_from`] makes the adapter of a configuration (`specs/Configured.antt`), and
//!   [`unshared_adapter_from`] that for peers without addresses.
//! - [`adapter_of`] makes the adapter of a configuration that was read, and may have changed since then.
//! - [`shares_from`] gives what one address may hold, by the table `access`.
//!
//! `enip_config` reads the configuration, and says what is wrong with a refused one.
//!
//! An adapter, or one line of text that says why there is none:
//!
//! ```
//! fn load(alloc: Global, text: &[u8], reason: &mut String) -> Result<Adapter, LoadFault> {
//!     if let Err(ExplainedFault::Refused(explanation)) = Configuration::explained(alloc, text) {
//!         *reason = format!(in alloc; "{explanation}")?;
//!     }
//!     adapter_from(alloc, text)
//! }
//! ```
#![tactic(auto)]

mod adapter;

pub use adapter::{adapter_from, adapter_of, shares_from, unshared_adapter_from};
