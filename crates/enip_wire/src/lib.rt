//! EtherNet/IP encapsulation (ODVA CIP Networks Library, Volume 2): the header, frames from a stream in any pieces,
//! and the items of a packet.
//!
//! [`FrameReader`] gathers one frame at a time from the pieces of a stream. [`parse_frame`] parses bytes as a
//! frame. [`Header`] is the 24 bytes before a frame's data.
//!
//! [`cpf_items`], [`rr_body`] and [`unit_body`] read a frame's data and lend what they find. [`write_items`],
//! [`write_rr_body`] and [`write_unit_body`] append them to a buffer. [`rr_body_head`] and [`unit_body_head`]
//! return what comes before the data of a body.
//!
//! [`Source`] and [`Sink`] are where bytes come from and go to. [`MemorySource`] and [`MemorySink`] are those in
//! memory.
//!
//! Each reader returns exactly the value that the bytes spell, or the first fault. Each writer appends exactly one
//! spelling to a buffer of fixed capacity, or changes nothing. Only `FrameReader::new` allocates.
//!
//! The contracts of the three readers of items say what they read and when each fault is returned. The body of each
//! reader is a private function `read_..`, whose one clause is the equation that the public clauses follow from.
#![tactic(auto)]

mod body;
mod device;
mod header;
mod item_list;
pub mod laws;
mod reader;
mod writing;

pub use body::{rr_body, unit_body};
pub use cip_bytes::Full;
pub use device::{Failed, MemorySink, MemorySource, Sink, Source, write_all};
pub use header::Header;
pub use item_list::{CpfFault, ItemView, Items, cpf_items};
pub use reader::{FrameReader, FrameView, Held, LONGEST_BODY, parse_frame};
pub use writing::{rr_body_head, unit_body_head, write_items, write_rr_body, write_unit_body};
