//! An EtherNet/IP client for explicit messages (ODVA CIP Networks Library, Volume 2; class 3: Volume 1).
//!
//! A [`Client`] has no socket and no clock. `register`, `open`, `unconnected`, `submit`, `resend`, `close` and
//! `unregister` lend the frame to send. `feed` takes bytes that arrived and reports what was heard. [`ask`] does one
//! whole exchange over a reader and a writer.
//!
//! What it sends and hears is a function of its calls and of the whole frames that arrived: the turn of
//! `specs/Hears.antt`. What follows from that for every list of calls is in [`laws`]. No call after `Client::new`
//! allocates memory, and replies are lent from the bytes that arrived.
//!
//! A session and one request. `device` is the stream to and from a device:
//!
//! ```
//! fn ask_vendor(client: &mut Client, device: &mut Device) -> Result<Option<u16>, ClientFault> {
//!     let mut vendor = None;
//!     let mut room = [0; 600];
//!     device.send(client.register()?);
//!     let mut size = device.receive(&mut room);
//!     while size > 0 {
//!         let mut rest = &room[..size];
//!         while !rest.is_empty() && client.fault().is_none() {
//!             let Hearing { taken, heard } = client.feed(rest);
//!             match heard {
//!                 Heard::Registered => device.send(client.unconnected(
//!                     b"\x0e\x03\x20\x01\x24\x01\x30\x01",
//!                 )?),
//!                 Heard::Reply(&[0x8e, 0, 0, 0, low, high]) => {
//!                     vendor = Some(u16::from_le_bytes([low, high]));
//!                     device.send(client.unregister()?);
//!                 }
//!                 _ => {}
//!             }
//!             rest = &rest[taken..];
//!         }
//!         size = device.receive(&mut room);
//!     }
//!     match client.fault() {
//!         Some(fault) => Err(fault),
//!         None => Ok(vendor),
//!     }
//! }
//! ```
#![tactic(auto)]

mod asking;
mod client;
mod fault;
mod hearing;
mod identity;
pub mod laws;
mod lending;
mod listing;
mod lists;
mod sending;
mod service;
mod state;
mod step;
mod wants;

pub use asking::{ask, ask_over};
pub use client::Client;
pub use fault::{AskFault, ClientFault, SubmitFault};
pub use hearing::{Heard, Hearing};
pub use identity::IdentityView;
pub use listing::ask_list;
pub use lists::{ListCommand, ListEntries, ListEntry, read_list, write_list};
pub use sending::{LONGEST_SENT, Sent, write_register, write_request};
pub use service::ServiceView;
pub use wants::{USUAL_WANTS, Wants};
