//! `enip replay`: runs a client and an adapter side by side, step by step, as a script says.
//!
//! [`replay`] prints the outcome of each event, and the objects and the state of the client at the end.
//! [`draw_replay`] draws the frames between client and adapter as a ladder. A [`ReplayFailure`] says why a replay
//! ended early. The caller makes the adapter.
//!
//! `specs/Script.antt` defines the lines of a script and what they mean, `specs/Outcome.antt` what is printed for an
//! event, and `specs/Replay.antt` what a whole script does and prints. `specs/Ladder.antt` defines the lines of the
//! picture, and `specs/Drawing.antt` what a drawing of a whole script ends with.
#![tactic(auto)]

mod ladder;
mod outcome;
mod replaying;
mod rungs;
mod script;

pub use enip_faults::ReplayFailure;
pub use ladder::draw_replay;
pub use replaying::replay;
