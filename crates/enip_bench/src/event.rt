//! The events between the two ends, and their outcomes.

ghost use Rattle.std.specs.Prelude.{◌≡◌};
ghost use Rattle.enip_bench.specs.Stored.{event_result_in, event_result_with};

use cip_class3::Refused;
use cip_owner::OwnerReply;

/// A write of the device itself into its objects.
#[derive(Debug, Drop)]
pub enum OwnWrite {
    /// These bytes, from this offset on, into the data of this assembly.
    Data(u32, usize, Vec<u8>),
    /// The device's status: attribute 5 of the Identity object.
    Status(u16),
    /// The device's state: attribute 8 of the Identity object.
    State(u8),
    /// The owner of the device prepares this reply, which the next request to it takes.
    Prepare(OwnerReply),
}

/// An event at or between the two ends. A position is an index into the frames of that direction, from 0.
#[derive(Debug, Drop)]
pub enum Event {
    /// This request is submitted to the client.
    Submit(Vec<u8>),
    /// The client sends the pending request again.
    Resend,
    /// The client's frame at this position reaches the adapter.
    Reach(usize),
    /// The adapter's frame at this position reaches the client.
    Back(usize),
    /// The second session sends this request, of 2 to 504 bytes, as an unconnected message.
    Other(Vec<u8>),
    /// The device itself writes.
    Write(OwnWrite),
    /// Every connection times out.
    Shut,
    /// The client gives up the pending request.
    GiveUp,
}

/// The outcome of an event.
#[derive(Clone, Copy, Debug, PartialEq, Eq)]
pub enum Step<'a> {
    /// The request has this number, from 0, and its frame has this position.
    Sent(u64, usize),
    /// The client refuses the request.
    Refused(Refused),
    /// The frame sent again has this position. `None`: no request was pending, and nothing was sent.
    Resent(Option<usize>),
    /// The adapter's answer has this position. `None`: the adapter did not answer.
    Reached(Option<usize>),
    /// The client accepted this reply to the pending request.
    Accepted(&'a [u8]),
    /// The frame held nothing that the client waited for.
    Ignored,
    /// The event is impossible: no such frame, one out of order, a request of another size, or a write to no assembly
    /// or past the end of its data. Nothing changed.
    Impossible,
    /// The event was done.
    Done,
}

/// The outcome of an event, without the bytes of a reply.
#[derive(Clone, Copy)]
pub(crate) enum StepKind {
    Sent(u64, usize),
    Refused(Refused),
    Resent(Option<usize>),
    Reached(Option<usize>),
    Accepted,
    Ignored,
    Impossible,
    Done,
}

impl StepKind {
    /// The outcome, if an accepted reply has these bytes.
    pub(crate) fn step(self, reply: &[u8]) -> Step<'_>
        ensures { event_result_in result ≡ event_result_with reply.now self }
    {
        match self {
            StepKind::Sent(number, position) => Step::Sent(number, position),
            StepKind::Refused(why) => Step::Refused(why),
            StepKind::Resent(position) => Step::Resent(position),
            StepKind::Reached(position) => Step::Reached(position),
            StepKind::Accepted => Step::Accepted(reply),
            StepKind::Ignored => Step::Ignored,
            StepKind::Impossible => Step::Impossible,
            StepKind::Done => Step::Done,
        }
    }
}
