//! Both ends, the frames between them, and what each event does.
//! Text: docs/EXACTLY-ONCE.md, "The premises, and what goes wrong without each".
//! Text: docs/PROTOCOL.md, "The client".
//! Text: docs/PROTOCOL.md, "Connections: opened, closed, timed out".
//! Text: docs/EXACTLY-ONCE.md, "The bench".

ghost use Rattle.std.specs.Prelude.{ℕ, ◌≡◌, ◌≤◌, [], length};
ghost use Rattle.std.specs.Option.{option_map};
ghost use Rattle.enip_bench.specs.CountingWorld.{reply_heard};
ghost use Rattle.enip_bench.specs.EventResults.{is_possible_write};
ghost use Rattle.enip_bench.specs.Events.{Submit, Resend, Reach, Back, Other, Write, Shut, GiveUp};
ghost use Rattle.enip_bench.specs.Events.{delivery, is_unconnected_request};
ghost use Rattle.enip_bench.specs.Reached.{IsReached};
ghost use Rattle.enip_bench.specs.Stored.{world_in, event_in, write_in, IsStepped, IsStepDone};
ghost use Rattle.enip_bench.specs.Stored.{IsCapacityFor, reply_put};
ghost use Rattle.enip_adapter.specs.Calls.{after_call};
ghost use Rattle.enip_adapter.specs.Calls.Call.{Feeds, Writes};
ghost use Rattle.enip_client.specs.Client.{fed};

use crate::event::{Event, OwnWrite, StepKind};
use crate::frames::Frames;
use bytes::BytesMut;
use cip_bytes::protocol::{SMALLEST_REQUEST, UNCONNECTED_LIMIT};
use cip_owner::OwnerReply;
use enip_adapter::{Adapter, LONGEST_ANSWER, Peer};
use enip_client::{Client, Heard, LONGEST_SENT, Sent, SubmitFault, write_request};
use std::alloc::{AllocError, Global};

/// An accepted reply, and the number of its request.
#[derive(Drop)]
pub struct Accepted {
    /// The number of the request: submitted requests are numbered from 0.
    pub number: u64,
    /// The reply of the router, without the sequence count.
    pub reply: BytesMut,
}

/// Both ends, the adapter's two peers, of which the first is the client's, and what is between the ends.
#[derive(Drop)]
pub(crate) struct World {
    pub(crate) alloc: Global,
    pub(crate) adapter: Adapter,
    pub(crate) client: Client,
    pub(crate) peer: Peer,
    pub(crate) second: Peer,
    /// The frames from the client, by position.
    pub(crate) sent: Frames,
    /// The frames from the adapter, by position.
    pub(crate) back: Frames,
    /// The last position that was delivered, in each direction.
    pub(crate) last_reached: Option<usize>,
    pub(crate) last_back: Option<usize>,
    /// How many submitted requests the client took.
    pub(crate) submits: u64,
    pub(crate) accepted: Vec<Accepted>,
}

impl World {
    /// Does an event, or nothing if memory is refused.
    pub(crate) fn step(&mut self, event: &Event) -> Result<StepKind, AllocError>
        requires reached { IsReached (world_in self.old) }
        requires counted { self.old.submits ≤ length self.old.sent.frames }
        ensures stepped { IsStepped (world_in self.old) (event_in event.now) (world_in self.new) result }
        ensures counted { self.new.submits ≤ length self.new.sent.frames }
    {
        match event {
            Event::Submit(request) => self.submit(request),
            Event::Resend => self.resend(),
            Event::Reach(position) => self.reach(*position),
            Event::Back(position) => self.deliver_back(*position),
            Event::Other(request) => Ok(self.execute_other(request)),
            Event::Write(write) => Ok(self.write(write)),
            Event::Shut => Ok(self.shut()),
            Event::GiveUp => Ok(self.give_up()),
        }
    }

    /// Submits a request to the client. If the client takes it, its frame is sent.
    fn submit(&mut self, request: &[u8]) -> Result<StepKind, AllocError>
        requires reached { IsReached (world_in self.old) }
        requires counted { self.old.submits ≤ length self.old.sent.frames }
        ensures stepped { IsStepped (world_in self.old) (Submit request.now) (world_in self.new) result }
        ensures counted { self.new.submits ≤ length self.new.sent.frames }
    {
        self.sent.reserve_frame(LONGEST_SENT)?;
        let frame = match self.client.submit(request) {
            Ok(frame) => frame,
            Err(SubmitFault::Refused(why)) => return Ok(StepKind::Refused(why)),
            // a client whose connection is open has no fault
            Err(SubmitFault::Client(_)) => unreachable!(),
        };
        let step_kind = StepKind::Sent(self.submits, self.sent.len());
        self.sent.push(frame);
        self.submits += 1;
        Ok(step_kind)
    }

    /// Sends the pending request again, if one is pending.
    fn resend(&mut self) -> Result<StepKind, AllocError>
        ensures stepped { IsStepped (world_in self.old) Resend (world_in self.new) result }
        ensures counted { self.new.submits ≡ self.old.submits }
        ensures sent { length self.old.sent.frames ≤ length self.new.sent.frames }
    {
        self.sent.reserve_frame(LONGEST_SENT)?;
        let Some(frame) = self.client.resend() else {
            return Ok(StepKind::Resent(None));
        };
        let position = self.sent.len();
        self.sent.push(frame);
        Ok(StepKind::Resent(Some(position)))
    }

    /// Delivers a frame to the adapter, at moment 0. The answer is sent back.
    fn reach(&mut self, position: usize) -> Result<StepKind, AllocError>
        ensures stepped { IsStepped (world_in self.old) (Reach position) (world_in self.new) result }
        ensures submits { self.new.submits ≡ self.old.submits }
        ensures sent { self.new.sent ≡ self.old.sent }
    {
        let Some(frame) = delivered(self.last_reached, &self.sent, position) else {
            return Ok(StepKind::Impossible);
        };
        self.back.reserve_frame(LONGEST_ANSWER)?;
        self.last_reached = Some(position);
        let Some(answer) = self.adapter.feed(0, &self.peer, frame).answer else {
            return Ok(StepKind::Reached(None));
        };
        let position = self.back.len();
        self.back.push(answer);
        Ok(StepKind::Reached(Some(position)))
    }

    /// Delivers a frame to the client.
    fn deliver_back(&mut self, position: usize) -> Result<StepKind, AllocError>
        requires { IsReached (world_in self.old) }
        ensures stepped { IsStepped (world_in self.old) (Back position) (world_in self.new) result }
        ensures submits { self.new.submits ≡ self.old.submits }
        ensures sent { self.new.sent ≡ self.old.sent }
    {
        let Some(frame) = delivered(self.last_back, &self.back, position) else {
            return Ok(StepKind::Impossible);
        };
        self.accepted.reserve(1)?;
        let mut reply = BytesMut::with_capacity(self.alloc, frame.len())?;
        self.last_back = Some(position);
        if !feed_client(&mut self.client, frame, &mut reply) {
            return Ok(StepKind::Ignored);
        }
        // the reply is that to the last submit, and no reply is accepted before the first submit
        let number = self.submits.saturating_sub(1);
        self.accepted.push_reserved(Accepted { number, reply });
        Ok(StepKind::Accepted)
    }

    /// Executes an unconnected request of the second session, at moment 0. Its answer is dropped.
    fn execute_other(&mut self, request: &[u8]) -> StepKind
        ensures step_kind { IsStepDone (world_in self.old) (Other request.now) (world_in self.new) result }
        ensures submits { self.new.submits ≡ self.old.submits }
        ensures sent { self.new.sent ≡ self.old.sent }
    {
        if !is_unconnected(request) {
            return StepKind::Impossible;
        }
        let mut frame = Sent::new();
        write_request(self.second.handle(), 0, request, &mut frame);
        feed_unanswered(&mut self.adapter, &self.second, &frame);
        StepKind::Done
    }

    /// Writes into the objects, on behalf of the device itself.
    fn write(&mut self, write: &OwnWrite) -> StepKind
        ensures step_kind { IsStepDone (world_in self.old) (Write (write_in write.now)) (world_in self.new) result }
        ensures submits { self.new.submits ≡ self.old.submits }
        ensures sent { self.new.sent ≡ self.old.sent }
    {
        if !write_objects(&mut self.adapter, write) {
            return StepKind::Impossible;
        }
        StepKind::Done
    }

    /// Times out every connection.
    fn shut(&mut self) -> StepKind
        ensures step_kind { IsStepDone (world_in self.old) Shut (world_in self.new) result }
        ensures submits { self.new.submits ≡ self.old.submits }
        ensures sent { self.new.sent ≡ self.old.sent }
    {
        self.adapter.tick(u64::MAX);
        StepKind::Done
    }

    /// Gives up the pending request, if one is pending.
    fn give_up(&mut self) -> StepKind
        ensures step_kind { IsStepDone (world_in self.old) GiveUp (world_in self.new) result }
        ensures submits { self.new.submits ≡ self.old.submits }
        ensures sent { self.new.sent ≡ self.old.sent }
    {
        self.client.give_up();
        StepKind::Done
    }
}

/// Feeds a frame to the client. Returns whether the client accepted a reply, which is then in `reply`.
fn feed_client(client: &mut Client, frame: &[u8], reply: &mut BytesMut) -> bool
    requires empty { reply.old.items ≡ [] }
    requires room { IsCapacityFor reply.old.spare (fed client.old frame.now).heard_event }
    ensures client { client.new ≡ (fed client.old frame.now).client }
    ensures reply { reply_heard (fed client.old frame.now).heard_event ≡ reply_put result reply.new.items }
{
    let Heard::Accepted(bytes) = client.feed(frame).heard else {
        return false;
    };
    reply.extend_reserved(bytes);
    true
}

/// Feeds a peer's whole frame to the adapter at moment 0. The answer is dropped.
pub(crate) fn feed_unanswered(adapter: &mut Adapter, peer: &Peer, frame: &[u8])
    ensures { adapter.new ≡ after_call adapter.old (Feeds 0 peer.now frame.now) }
{
    adapter.feed(0, peer, frame);
}

/// Writes into the adapter's objects, on behalf of the device itself. Returns whether it fits them.
fn write_objects(adapter: &mut Adapter, write: &OwnWrite) -> bool
    ensures adapter { adapter.new ≡ after_call adapter.old (Writes (write_in write.now)) }
    ensures fits { result ≡ is_possible_write (write_in write.now) adapter.old.state.shared.objects.router.objects }
{
    match write {
        OwnWrite::Data(instance, offset, bytes) => adapter.write_data(*instance, *offset, bytes),
        OwnWrite::Status(status) => {
            adapter.set_device_status(*status);
            true
        }
        OwnWrite::State(state) => {
            adapter.set_device_state(*state);
            true
        }
        OwnWrite::Prepare(reply) => {
            adapter.prepare(OwnerReply::new(reply.status(), reply.data()));
            true
        }
    }
}

/// The frame that a delivery brings. `None` if no frame has this position, or a later one was delivered already.
fn delivered(last: Option<usize>, frames: &Frames, position: usize) -> Option<&[u8]>
    ensures { option_map (λ (frame : _). frame.now) result ≡ delivery last frames.now.frames position }
{
    if last.is_some_and(|last| position < last) {
        return None;
    }
    frames.get(position)
}

/// Whether the size is that of an unconnected request: 2 to 504 bytes.
fn is_unconnected(request: &[u8]) -> bool
    ensures { result ≡ is_unconnected_request request.now }
{
    (SMALLEST_REQUEST..=UNCONNECTED_LIMIT).contains(&request.len())
}
