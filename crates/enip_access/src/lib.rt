//! Who may connect to a device and who may change something, by address. This crate knows no socket and no device.
//!
//! - An address is read by [`parse_address`], and is a number of 128 bits: [`address_number`]. An IPv4 address is its
//!   IPv4-mapped IPv6 address.
//! - A [`Prefix`] is a rule: an address, or the addresses that share their first bits, such as `10.0.0.0/8`.
//! - [`Access`] has the rules of a device. [`Access::permission_of`] says what an address may do.
//!
//! ```
//! let mut write = PrefixList::new();
//! write.push(Prefix::parse(b"10.0.1.0/24")?);
//! let access = Access { read: None, write: Some(write), per_address: Some(4), connections_per_address: None };
//! let address = address_number(IpAddr::V4(Ipv4Addr::new(10, 0, 1, 7)));
//! access.permission_of(address) // Some(Permission::Write)
//! ```
#![tactic(auto)]

mod access;
mod address;
pub mod laws;
mod prefix;

pub use access::{Access, LONGEST_LIST, Permission, PrefixList};
pub use address::{address_number, parse_address};
pub use prefix::{Prefix, PrefixFault};
