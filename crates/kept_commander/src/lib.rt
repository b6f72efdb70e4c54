//! A commander that survives crashes of its client: no message leaves before its command is kept.
//!
//! A [`KeptCommander`] holds a [`Commander`](cip_commander::Commander), and a [`CommandKeeper`], which keeps it over a
//! crash. It numbers a command, keeps it, and only then lends its message. It keeps that a command is done before it
//! returns the reply. If the storage fails, it hands out nothing until the next start. A start loads the commander; a
//! pending command is pending again, with the same message.
//!
//! `live` states what that is worth, for every list of commands, replies, crashes and starts: a client that crashes
//! gives the commands that one without crashes could give. No two requests have the same number, and a pending command
//! is not dropped.
//!
//! ```
//! let mut commander = KeptCommander::start(keeper)?;
//! commander.give(life, embedded)?; // the command is kept
//! let message = commander.message(); // send it, and again after a crash
//! if let CommandOutcome::Done(reply) = commander.accept(answer)? {
//!     // kept as done; `reply` is the reply to the embedded request
//! }
//! ```
#![tactic(auto)]

mod fault;
mod keeper;
mod kept;
mod lives;
mod memory;

pub use fault::{KeptCommandError, StorageFailed};
pub use keeper::{CommandKeeper, RestartableKeeper};
pub use kept::KeptCommander;
pub use lives::{CommandEvent, Sent, live};
pub use memory::{Crash, MemoryKeeper};
