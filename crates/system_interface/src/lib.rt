//! What Linux says of a network interface, and the objects of a device that show it.
//!
//! - [`Network::of`] is the IPv4 address of an interface, with its mask and its gateway, by the texts of `/proc/net`.
//! - [`Link::from_texts`] is the state of an interface, by the texts of `/sys/class/net`.
//! - [`fill_tcp_ip`] and [`fill_ethernet_link`] put both into the objects of a configuration that names an interface.
//!
//! No call reads a file: the texts are given.
#![tactic(auto)]

mod filling;
mod link;
mod network;

pub use filling::{fill_ethernet_link, fill_tcp_ip};
pub use link::{Link, LinkTexts};
pub use network::Network;
