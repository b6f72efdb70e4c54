//! The objects of the adapter: Identity, Assembly and a counter.
//!
//! [`Objects`] is made from a [`Config`] and executes router requests, as the trait [`Router`] says. Contracts see
//! it as the object map, from class, instance and attribute to bytes, and the constant tables that the
//! configuration fixed. `exec` in `specs/Execution.antt` defines the object map after a request, and its reply, and
//! `exec_routed` in `specs/Packets.antt` those of a packet of several requests. In memory the objects are typed structs.
//!
//! The owner of the device executes own services of application objects, and sets of checked attributes. `execute`
//! refuses them. `Objects::own_request` says what such a request asks, and `Objects::store_checked` stores a set that
//! the owner approved. `own_request` in `specs/OwnRequests.antt` defines which requests these are.
//!
//! Only `Objects::new` allocates. Left out are dynamic assemblies and Set_Attributes_All, which are answered "service not
//! supported", and Identity Reset, which `cip_owner` executes. The services of the Connection Manager belong to
//! `cip_manager`.
//!
//! ```
//! let mut objects = Objects::new(alloc, config)?;
//! let mut reply = ReplyBuf::new();
//! objects.execute(&[0x0e, 0x03, 0x20, 0x01, 0x24, 0x01, 0x30, 0x01], 504, &mut reply);
//! // `reply` is 8e 00 00 00 and the two bytes of the vendor ID
//! ```
#![tactic(auto)]

mod assembly;
mod change_services;
mod check;
mod class;
mod config;
mod counter;
mod execute;
mod identity;
pub mod laws;
mod object_ref;
mod objects;
mod own_request;
mod packet;
mod packet_replies;
mod read_services;
mod reply;
mod service;
mod set_list;
mod status;
mod value;

pub use cip_application::{AttributeName, ServiceKind};
pub use cip_bytes::protocol::{GeneralStatus, REPLY_LIMIT};
pub use cip_message::{ReplyBuf, Router};
pub use config::{AssemblyConfig, Config, ConfigFault, CounterConfig};
pub use objects::Objects;
pub use own_request::OwnRequest;
pub use packet::{PacketRequests, packet_data};
pub use status::Refusal;
