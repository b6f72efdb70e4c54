//! Tests of the crates from `cip_bytes` to `cip_manager`: results and lengths that no command prints, steps of a
//! search, very long runs, and the texts of errors.

mod application_objects;
mod bytes;
mod class3_changed;
mod class3_long;
mod class3_originator;
mod commander;
mod commander_crashes;
mod commander_slots;
mod counting;
mod device_state;
mod device_writes;
mod ledger;
mod manager_deadlines;
mod manager_find;
mod manager_openings;
mod manager_shares;
mod message;
mod objects;
mod own_requests;
mod queued;
mod route;
mod set_lists;
mod texts;
mod words;
