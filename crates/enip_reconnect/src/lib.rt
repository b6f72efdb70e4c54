//! Numbered commands over TCP connections that break: what a whole adapter and an originator with a whole client show.
//!
//! The originator is a commander (`cip_commander`) and a client (`enip_client`) on one TCP connection at a time. The
//! adapter (`enip_adapter`) has a command ledger. TCP connections break and are made anew at any point, with bytes in
//! flight lost or still arriving late, and other peers send what they like. Commands go as unconnected requests
//! (SendRRData).
//!
//! [`laws`] states what follows. [`commander_laws`] states it in whole messages, between a commander and any device with
//! a ledger, and [`crash_laws`] for a client that crashes (`kept_commander`). This crate has no other code.
#![tactic(auto)]

pub mod commander_laws;
pub mod crash_laws;
pub mod laws;
