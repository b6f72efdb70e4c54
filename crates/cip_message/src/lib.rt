//! Messages of the CIP message router as bytes (ODVA CIP Networks Library, Volume 1): paths to an object, router
//! requests and replies, the electronic key, the data of the requests that open and close a class 3 connection, and the
//! class and the services of the command ledger.
//!
//! Each reader returns exactly the value that the bytes spell, or the first fault. It lends what it can from the
//! bytes. Each writer appends exactly one spelling to a buffer of fixed capacity, or changes nothing. Nothing here
//! allocates.
//!
//! Start with [`Path`], [`RequestView`] and [`ReplyView`]. To serve or open connections you also need
//! [`OpenRequest`], [`CloseRequest`], [`Key`] and [`Device`]. What executes requests is a [`Router`]: both ends of a
//! connection are written over it.
//!
//! The body of each public reader is a private function whose name ends in `_at`. Its clause states the reading as
//! a computation. The public clauses, which speak of the grammar, follow from it by a lemma.
//!
//! ```
//! let mut path = ArrayVec::<u8, 16>::new();
//! write_path(&mut path, Path { class: 1, instance: 1, attribute: Some(1), member: None })?;
//! let mut request = ArrayVec::<u8, 16>::new();
//! RequestView { service: 0x0e, path: path.as_slice(), data: &[] }.write(&mut request)?;
//! // 0e 03 20 01 24 01 30 01
//! ```
#![tactic(auto)]

mod close;
mod key;
pub mod laws;
mod ledger_services;
mod open;
mod open_path;
mod parameters;
mod path;
mod reply;
mod request;
mod router;

pub use cip_bytes::Full;
pub use close::CloseRequest;
pub use key::{Device, Key, read_key};
pub use ledger_services::{
    DO_ONCE, FORGET, GET_LAST, GET_SLOTS, LEDGER, MOST_ORIGINATORS, WITHDRAW,
};
pub use open::{LengthFault, OpenRequest, Transport};
pub use open_path::{OpenPath, read_open_path};
pub use parameters::{LargeParameters, Parameters};
pub use path::{Path, PathFault, Segment, read_path, write_path};
pub use reply::{ReplyFault, ReplyView, reply_service, write_reply};
pub use request::{RequestFault, RequestView};
pub use router::{ReplyBuf, Router};
