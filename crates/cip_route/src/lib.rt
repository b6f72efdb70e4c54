//! Routes to a device behind a router, as bytes and as text (ODVA CIP Networks Library, Volume 1): port segments, and the
//! data of an Unconnected_Send request.
//!
//! A [`Route`] is a list of hops. `Route::parse` reads it from text such as `1/0,2/10.0.0.7`. Each hop is a port of a
//! router and the link address of the next node behind that port: [`HopView`]. A request without a connection goes to
//! the router in an [`UnconnectedSend`]. The path of a request that opens a connection begins with the route.
//!
//! Each reader returns exactly the value that the bytes spell, or the first fault, and lends what it can. Each writer
//! appends exactly one spelling to a buffer of fixed capacity, or changes nothing. Nothing here allocates.
//!
//! ```
//! let route = Route::parse(b"1/0")?; // 01 00
//! let mut data = ArrayVec::<u8, 64>::new();
//! UnconnectedSend {
//!     priority_and_tick_time: 0x0a,
//!     timeout_ticks: 4,
//!     message: b"\x0e\x03\x20\x01\x24\x01\x30\x01",
//!     route: route.as_slice(),
//! }
//! .write(&mut data)?;
//! ```
#![tactic(auto)]

mod failure;
mod hop;
pub mod laws;
mod route;
mod send;

pub use cip_bytes::Full;
pub use cip_message::LengthFault;
pub use failure::RouteFailure;
pub use hop::{HopFault, HopView, read_hop};
pub use route::{LONGEST_ROUTE, Route, RouteFault};
pub use send::{UNCONNECTED_SEND, UnconnectedSend};
