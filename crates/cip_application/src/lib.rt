//! The application objects of a device: the objects that its configuration describes, their attributes and values.
//!
//! [`ApplicationObjects`] is made from a list of [`ObjectConfig`]. Peers read attributes and set them, and the device
//! itself reads and writes them. `objects_set` in `specs/Objects.antt` defines the objects after a set, and
//! `objects_write` after a write by the device. Services and replies belong to `cip_objects`.
//!
//! Only `ApplicationObjects::new` allocates.
//!
//! ```
//! let mut objects = ApplicationObjects::new(alloc, true, &configs)?;
//! objects.write(768, 1, 1, 0, &[0x10, 0x27]); // the device writes attribute 1 of instance 1 of class 768
//! let value = objects.read(768, 1, 1);
//! ```
#![tactic(auto)]

mod application;
mod attribute;
mod config;
mod kind;
pub mod laws;
mod message_router;
mod number;
mod object;
mod standard;

pub use application::{ApplicationObjects, ClassSummary};
pub use attribute::SetFault;
pub use config::{
    AttributeConfig, ETHERNET_LINK, GET_RESULT, OBJECT_LIMIT, ObjectConfig, ObjectFault,
    QUEUED_REPLY_LIMIT, SERVICE_DATA_LIMIT, ServiceConfig, ServiceKind, TCP_IP_INTERFACE, fault,
    is_standard_class,
};
pub use kind::{AttributeKind, VALUE_LIMIT};
pub use message_router::MessageRouter;
pub use number::{NumberRange, NumberType};
pub use object::AttributeName;
pub use standard::{
    DOMAIN_LIMIT, EthernetLink, HOST_LIMIT, INACTIVITY_LIMIT, LABEL_LIMIT, TcpIpInterface,
};
