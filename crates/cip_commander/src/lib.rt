//! The originator's side of commands that are executed once, even if connections are lost and opened anew.
//!
//! A [`Commander`] has at most one pending command. It lends the request to send, and the same bytes again after a new
//! connection, until a reply says that the command is done, or the command is withdrawn or abandoned.
//! `commander_laws` of `enip_reconnect` states what follows for both ends: a commander, and a device with a ledger.
//!
//! No call takes memory. Bytes come in and go out as slices: this crate has no sockets, no files and no clock.
//!
//! ```
//! let mut commander = Commander::new(life, originator, 0);
//! let request = commander.command(embedded)?; // send it, and again with `pending` on a new connection
//! if let CommandOutcome::Done(reply) = commander.receive(answer) {
//!     // the command was executed once, and `reply` is the reply to the embedded request
//! }
//! ```
#![tactic(auto)]

mod commander;
mod outcome;
mod refusal;
mod slots;
mod withdrawal;

pub use commander::Commander;
pub use outcome::CommandOutcome;
pub use refusal::{CommandRefused, LONGEST_EMBEDDED};
pub use slots::{
    COUNTS_REQUEST, CommandState, LedgerSlot, SLOT_REQUEST_SIZE, SlotList, SlotRequest, SlotsFault,
    forget_request, last_request, read_counts, read_forgotten, read_last, slots_request,
};
pub use withdrawal::{
    WITHDRAW_REQUEST_SIZE, WithdrawRequest, WithdrawalOutcome, read_withdrawal, withdraw_request,
};
