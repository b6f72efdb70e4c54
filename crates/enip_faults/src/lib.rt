//! Why a command of the program `enip` ends early. The text of a fault is the code for scripts on standard error, and
//! `specs/Statuses.antt` defines its exit status.
//!
//! - A [`ProgramFault`] is about a line of the input, a file, a stream or memory. A [`LineFault`] says what is wrong with
//!   the line.
//! - A [`ReplayFailure`] is about a replay.
//! - A [`CommandFileFault`] or a [`RecordFault`] says what is wrong with the file of a command that is executed once, a
//!   [`LedgerRefusal`] what it means that a ledger refuses the command, and a [`WithdrawalRefusal`] what it means that a
//!   ledger refuses to withdraw it.
//! - [`Digits`] prints bytes in hexadecimal.
#![tactic(auto)]

mod command_file_fault;
mod digits;
mod fault;
mod ledger_refusal;
mod line_fault;
mod replay_failure;
mod withdrawal_refusal;

pub use command_file_fault::{CommandFileFault, RecordFault};
pub use digits::Digits;
pub use fault::ProgramFault;
pub use ledger_refusal::LedgerRefusal;
pub use line_fault::LineFault;
pub use replay_failure::ReplayFailure;
pub use withdrawal_refusal::WithdrawalRefusal;
