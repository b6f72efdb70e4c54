//! The objects of a device, and the owner of the device, who executes their own services and is asked before a checked
//! attribute is set.
//!
//! [`OwnedObjects`] is a router: the objects, at most one reply of the owner that is prepared, and a [`Queue`] if the
//! device has one. A request to the owner takes the prepared reply. Without one it is answered "device state conflict"
//! (0x10) and changes nothing. `exec_owned` in `specs/Owned.antt` defines the state after a request, and its reply.
//!
//! A request of a queued service is put into the queue, and answered at once by its ticket. The owner reads the waiting
//! commands in order and finishes each by its ticket. Get_Result of the same object answers the result.
//! `specs/Queue.antt` defines the queue, and `specs/QueueLaws.antt` says what holds over any number of steps.
//!
//! A device that holds a [`Resetting`] can be reset by its peers: Reset of the Identity object puts first values back, and
//! is counted. `specs/Reset.antt` defines what it puts back, and `specs/ResetLaws.antt` what it leaves.
//!
//! ```
//! let mut device = OwnedObjects::new(objects);
//! if let Some(asked) = device.asks(request, 504) {
//!     device.prepare(owner.answer(&asked));
//! }
//! device.execute(request, 504, &mut reply); // the owner's reply, if it was asked
//! ```
#![tactic(auto)]

pub mod laws;
mod owned;
mod owner;
mod queue;
mod reset;

pub use cip_objects::OwnRequest;
pub use owned::OwnedObjects;
pub use owner::{NoOwner, OWNER_REPLY_LIMIT, Owner, OwnerReply};
pub use queue::{
    COMMAND_DATA_LIMIT, CommandResult, Outcome, QUEUE_LIMIT, Queue, RESULT_LIMIT, WaitingCommand,
};
pub use reset::{ResetType, Resetting};
