//! The adapter, the client and the commander for C: each exported function is one call of `enip_adapter`,
//! `saved_adapter`, `enip_client` or `cip_commander`.
//!
//! `library/enip.c`, a thin layer in C, is in front of these functions. It refuses what only C can get wrong, such as a
//! NULL pointer or a handle that was freed. Everything else is here. The contract of a function states that it did what
//! the call of the crate below does, down to the bytes, and which status it returned. A function writes its answer to
//! the caller's buffer. If the buffer is too small, nothing changes.
#![tactic(auto)]

mod adapter;
mod adapter_pointer;
mod buffer;
mod client;
mod commander;
mod device;
mod explained;
mod kept_client;
mod kept_commander;
mod kept_endings;
mod loose;
mod make_fault;
mod owner;
mod queued_service;
mod starting;
mod state;
mod status;
mod texts;
