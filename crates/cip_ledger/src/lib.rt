//! The command ledger (class 0x65, ours): a command is executed once, even if connections are lost and opened anew.
//!
//! An originator numbers its commands. A command is a service, Do_Once, that has the number of the device's life, the
//! originator, the command's number and an embedded request. The [`Ledger`] executes the embedded request if the number
//! is greater than the originator's last one, and keeps the reply. It answers a repeat with the kept reply. Nothing
//! depends on connections, sessions or the order of requests. [`laws`] states what follows for whole lists of requests
//! and for several lives of a device.
//!
//! A router that has a queue puts some commands into it ([`Standing`]). Such a command is pending: the ledger keeps its
//! ticket, answers that it is pending, and answers its reply once that is given to the ticket (`Ledger::complete`).
//!
//! A [`LedgerRouter`] is a ledger before any router that keeps the laws of `cip_objects::Router` and is a [`Target`],
//! and a router itself. Only `Ledger::new` allocates: 64 slots take some 32 KB.
//!
//! ```
//! let mut device = LedgerRouter {
//!     ledger: Some(Ledger::new(alloc, 16, life)?), // 16 originators
//!     router: objects,
//! };
//! device.execute(do_once, 504, &mut reply); // executes the embedded request
//! device.execute(do_once, 504, &mut reply); // the same reply again, and nothing is executed
//! ```
#![tactic(auto)]

mod attributes;
mod doubt;
mod finishing;
pub mod laws;
mod ledger;
mod reply;
mod request;
mod router;
mod service;
mod slot;
mod slots;
mod status;
mod target;
mod withdrawal;
mod withdrawing;

pub use cip_message::{DO_ONCE, FORGET, GET_LAST, GET_SLOTS, LEDGER, MOST_ORIGINATORS, WITHDRAW};
pub use doubt::DoubtfulCommand;
pub use ledger::{KeptCommand, Ledger};
pub use router::LedgerRouter;
pub use slot::KEPT_LIMIT;
pub use target::{Standing, Target};
pub use withdrawal::Withdrawal;
