//! The log of a served device, on standard error. It observes the connections of `device_sockets`.
//!
//! - [`FrameLog`] writes a line for each connection that begins or ends, and for each frame. Its [`LoggedWire`]s pair the
//!   frames that were read with their answers.
//! - Without a log, [`TurnedAwayReport`] says how many clients were turned away.
#![tactic(auto)]

mod frame_log;
mod frame_summary;
mod log_event;
mod logged_wire;
mod numbered_status;
mod turned_away_report;

pub use frame_log::FrameLog;
pub use log_event::{LogClock, LogStyle};
pub use logged_wire::LoggedWire;
pub use turned_away_report::TurnedAwayReport;
