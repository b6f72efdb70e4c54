//! The configuration of an EtherNet/IP device, as a TOML document: its identity, counter and assemblies, its own
//! objects, the address and port that it reports, its limits, its command ledger, and its queue of commands.
//!
//! - [`Configuration::from_bytes`] reads a configuration, and refuses it by the first check that fails
//!   (`specs/Documents.antt`). Each check has a number. Each key has a name, a range and, unless it is required, a
//!   default (`specs/Keys.antt`). The objects accept every configuration that is read.
//! - An own object has attributes and services (`specs/Objects.antt`). The type of an attribute is an [`AttributeType`] of
//!   `attribute_types`. A service can be queued. Then its object has Get_Result too, and the device a queue of commands
//!   (`specs/Commands.antt`).
//! - The tables `tcp_ip` and `ethernet_link` make objects of the standard (`specs/StandardObjects.antt`), and the key
//!   `message_router` makes another one (`specs/RouterObject.antt`). Either table can name an interface of the system
//!   (`specs/Interfaces.antt`).
//! - The table `access` has the rules of `enip_access`: who may connect, and who may change something
//!   (`specs/Access.antt`).
//! - [`Configuration::explained`] says what is wrong with a refused configuration, and in which line. The readers keep a
//!   finding of `config_explained`: where they are, and what they look for there. It has no part in what they read.
//!
//! `configured_adapter` makes the adapter of a configuration.
#![tactic(auto)]

mod access;
mod assemblies;
mod commands;
mod configuration;
mod example;
mod explained;
mod interfaces;
mod key;
mod known;
mod ledger;
mod message_router;
mod object_types;
mod objects;
mod objects_fault;
mod standard;
mod values;
mod width;

pub use attribute_types::AttributeType;
pub use config_explained::{ExplainedFault, Explanation};
pub use config_refusal::{ConfigurationRefusal, LoadFault};
pub use configuration::Configuration;
pub use example::EXAMPLE;
pub use interfaces::NamedInterfaces;
pub use key::NumberKey;
pub use ledger::LedgerConfig;
pub use objects_fault::fault_of_objects;
