//! What an owner wants from the device.

use crate::attribute_ref::AttributeRef;
use cip_owner::OwnerReply;

/// What a line of an owner says.
#[derive(Debug, Drop)]
pub enum OwnerRequest<'a> {
    /// A command was executed, with this reply: `{"done":{"ticket":7,"status":0,"data":"05"}}`.
    Done {
        /// The ticket of the command.
        ticket: u32,
        /// The general status, and the data.
        reply: OwnerReply,
    },
    /// The request that was asked has this reply: `{"answer":{"question":3,"status":0,"data":"05"}}`.
    Answer {
        /// The number of the question.
        question: u32,
        /// The general status, and the data.
        reply: OwnerReply,
    },
    /// An attribute gets a value: `{"write":{"class":4,"instance":100,"attribute":3,"data":"dc05"}}`.
    WriteData {
        /// The attribute.
        attribute: AttributeRef,
        /// The bytes of the value, at most 500.
        bytes: Vec<u8>,
    },
    /// The same, as values of the attribute's type: `"values":[1500]` in place of `"data"`.
    WriteValues {
        /// The attribute.
        attribute: AttributeRef,
        /// The values. [`values_as_bytes`](crate::values_as_bytes) gives their bytes.
        values: Vec<GivenValue<'a>>,
    },
    /// The value of an attribute is wanted: `{"read":{"class":4,"instance":101,"attribute":3}}`.
    Read {
        /// The attribute.
        attribute: AttributeRef,
    },
    /// The status word of the device is this: `{"status":0}`.
    Status {
        /// The word.
        status: u16,
    },
    /// The state of the device is this: `{"state":3}`.
    State {
        /// The number of the state.
        state: u8,
    },
}

/// A value in a line of an owner, before it is known of which type it has to be.
#[derive(Clone, Copy, Debug, PartialEq, Eq)]
pub enum GivenValue<'a> {
    /// `true` or `false`.
    Truth(bool),
    /// A number, as it is spelled.
    Number(&'a str),
    /// A string, without its escapes.
    Text(&'a str),
}
