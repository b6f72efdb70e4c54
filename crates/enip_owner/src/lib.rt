//! The lines between a device and its owner, a program that executes the device's commands. Each line is JSON and has at
//! most 64 KiB. This crate knows no socket and no clock.
//!
//! - A [`LineBuffer`] takes the bytes of a stream, however they are cut, and gives its lines.
//! - [`read_request`] reads a line of the owner as an [`OwnerRequest`], or says why it is refused. [`values_as_bytes`]
//!   gives the bytes of values in such a line.
//! - [`write_hello`], [`write_changed`], [`write_command`], [`write_asked`], [`write_ended`], [`write_value`],
//!   [`write_ok`] and [`write_error`] write the lines of the device.
//! - [`is_token`] compares the first line of an owner with the token that it must have.
//! - A [`HandOver`] says which of the waiting commands the owner is handed next.
//!
//! ```
//! let mut lines = LineBuffer::new(alloc)?;
//! let mut scratch = Scratch::new(alloc);
//! let (outcome, _rest) = lines.feed(b"{\"done\":{\"ticket\":7,\"status\":0,\"data\":\"05\"}}\n");
//! if outcome == LineOutcome::Whole {
//!     match read_request(alloc, lines.line(), &mut scratch) {
//!         Ok(OwnerRequest::Done { ticket, reply }) => adapter.finish(ticket, &reply), // true
//!         _ => false,
//!     }
//! }
//! ```
//!
//! `specs/Streams.antt` defines the lines of a stream, `specs/Requests.antt` what a line of the owner says,
//! `specs/Events.antt` the lines of the device, and `specs/HandOvers.antt` which command is next. [`laws`] has what
//! follows from these definitions.
#![tactic(auto)]

mod attribute_ref;
mod event;
mod event_fault;
mod hand_over;
mod hello;
pub mod laws;
mod line_buffer;
mod owner_fault;
mod part;
mod reading;
mod request;
mod shown_values;
mod token;
mod written_values;

pub use attribute_ref::AttributeRef;
pub use event::{
    AskedEvent, ChangedEvent, CommandEvent, EndedEvent, ResetEvent, ValueEvent, write_asked,
    write_changed, write_command, write_ended, write_error, write_ok, write_reset, write_value,
};
pub use event_fault::EventFault;
pub use hand_over::{HandOver, HandedOver};
pub use hello::{DescribedAttribute, DescribedObject, HelloEvent, write_hello};
pub use line_buffer::{LINE_LIMIT, LineBuffer, LineOutcome};
pub use owner_fault::{OwnerFault, RequestKey};
pub use reading::read_request;
pub use request::{GivenValue, OwnerRequest};
pub use token::is_token;
pub use written_values::{ValuesFault, values_as_bytes};
