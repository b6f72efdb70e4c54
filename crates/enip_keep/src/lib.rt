//! A device whose state outlives power cuts: no answer leaves before what it reports is kept.
//!
//! A [`Server`] holds a [`Device`], which serves requests in rounds, and a [`Keeper`], which keeps entries over a
//! crash.
//! A round has three steps:
//!
//! 1. The device serves its requests, and holds the answers back. A guest may take part, such as the port of a program
//!    behind the device: it stays outside of the device, and what it gets has to wait as the answers do.
//! 2. The keeper commits the entries that differ from what is kept.
//! 3. The device releases the answers.
//!
//! If a commit fails, nothing leaves, and the server serves no more until the next start. A start loads the entries and
//! makes the device from them.
//!
//! `live` states what that is worth, for every list of rounds, crashes and starts: whatever a crash leaves is what is
//! kept after rounds in the order of their execution, with each round whose answers left among them.
//!
//! ```
//! let mut server = Server::start(alloc, keeper, &configuration)?;
//! loop {
//!     server.round(requests, &mut ())?; // the answers have left, and a crash finds what they report
//! }
//! ```
#![tactic(auto)]

mod device;
mod entries;
mod entry;
mod keeper;
pub mod laws;
mod lives;
mod loaded;
mod memory;
mod numbered;
mod rounds;
mod server;
mod tally;

pub use device::Device;
pub use entries::set_all;
pub use entry::{Entry, KeepError, StorageFault};
pub use keeper::{Keeper, Restart};
pub use lives::{Event, live};
pub use loaded::commit_loaded;
pub use memory::MemoryKeeper;
pub use numbered::{Numbered, RoundNote};
pub use server::Server;
pub use tally::Tally;
