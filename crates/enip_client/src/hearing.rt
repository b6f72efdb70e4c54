//! What a client does with a whole frame.
//! Text: docs/PROTOCOL.md, "The client".

ghost use Rattle.std.specs.Prelude.{◌≡◌, length, IfSome};
ghost use Rattle.std.specs.Option.{option_map};
ghost use Rattle.cip_message.specs.Reply.{view};
ghost use Rattle.enip_wire.specs.Stream.{frame_of};
ghost use Rattle.enip_client.specs.Client.{heard_event_in, heard_event_at, IsWithin, IsHeard, LiesAt, answer_of};
ghost use Rattle.cip_bytes.specs.Protocol.{manager_service_number};
ghost use Rattle.enip_client.specs.Frames.{open_service};
ghost use Rattle.enip_client.specs.Hears.{hears, is_for_connection, is_answer, command_awaited, answer_turn, session_turn};
ghost use Rattle.enip_client.specs.Hears.{opening_turn, reply_turn, closing_turn, other_turn, refuses, faulted};
ghost use Rattle.enip_client.specs.Hears.{answer_to, first_word, routed_turn, router_turn};

use crate::fault::ClientFault;
use crate::sending::open_service;
use crate::state::{Awaited, Awaiting, ConnectionState, Registration, State};
use byteorder::{ByteOrder, LittleEndian};
use cip_bytes::protocol::{Command, ManagerService};
use cip_class3::Came;
use cip_message::{ReplyView, reply_service};
use cip_route::UNCONNECTED_SEND;
use enip_wire::{FrameView, Header, rr_body, unit_body};

/// What `feed` did with a piece.
///
/// ```
/// let Hearing { taken, heard } = client.feed(rest);
/// if let Heard::Reply(reply) | Heard::Accepted(reply) = heard {
///     written.extend_from_slice(reply)?;
/// }
/// rest = &rest[taken..];
/// ```
#[derive(Clone, Copy, Debug)]
pub struct Hearing<'a> {
    /// The number of bytes of the piece that were taken.
    pub taken: usize,
    /// What was heard.
    pub heard: Heard<'a>,
}

/// What was heard.
#[derive(Clone, Copy, Debug, PartialEq, Eq)]
pub enum Heard<'a> {
    /// Nothing that was awaited.
    Nothing,
    /// The session is registered.
    Registered,
    /// The connection is open.
    Opened,
    /// The router's reply to the unconnected request.
    Reply(&'a [u8]),
    /// The router's reply to the request that waited on the connection.
    Accepted(&'a [u8]),
    /// An open or a close was refused, or a router did not pass a request on: the general status, and the first
    /// additional word or 0.
    Refused(u8, u16),
    /// The connection is closed.
    Closed,
}

/// What was found in a frame. A reply is given by the indices of its bytes in the frame.
#[derive(Clone, Copy)]
pub(crate) enum Found {
    Nothing,
    Registered,
    Opened,
    Reply { from: usize, to: usize },
    Accepted { from: usize, to: usize },
    Refused(u8, u16),
    Closed,
}

impl Found {
    /// What was heard. A reply is lent from the bytes of the frame.
    pub(crate) fn heard(self, frame: &[u8]) -> Heard<'_>
        requires { IsWithin (length frame.now) self }
        ensures { heard_event_in result ≡ heard_event_at frame.now self }
    {
        match self {
            Found::Nothing => Heard::Nothing,
            Found::Registered => Heard::Registered,
            Found::Opened => Heard::Opened,
            Found::Reply { from, to } => Heard::Reply(&frame[from..to]),
            Found::Accepted { from, to } => Heard::Accepted(&frame[from..to]),
            Found::Refused(status, extended) => Heard::Refused(status, extended),
            Found::Closed => Heard::Closed,
        }
    }
}

/// The index of the router's reply in a SendRRData: header 24, interface 4, timeout 2, item count 2, null address 4,
/// type and length of the data item 4.
const REPLY: usize = Header::SIZE + 16;

/// The index of the reply in a SendUnitData: the same with a connected address of 8, and the item's sequence count, 2.
const ITEM_REPLY: usize = Header::SIZE + 22;

/// The least size of the data of a successful open, in bytes.
const OPENED: usize = 26;

/// The size of the data of a RegisterSession reply: protocol version and flags.
const PROTOCOL: usize = 4;

/// A router's reply, and its bytes.
#[derive(Clone, Copy)]
struct Answer<'a> {
    bytes: &'a [u8],
    reply: ReplyView<'a>,
}

impl Awaited {
    /// The command of the reply.
    fn command(self) -> Command
        ensures { result ≡ command_awaited self }
    {
        match self {
            Awaited::Session => Command::RegisterSession,
            _ => Command::SendRRData,
        }
    }
}

impl Awaiting {
    /// Whether a frame with this header is the awaited reply.
    fn is_answer(self, header: &Header) -> bool
        ensures { result ≡ is_answer self header.now }
    {
        // A reply repeats the command and context of its request.
        header.command == self.awaited.command().number()
            && LittleEndian::read_u64(&header.context) == self.number
    }
}

impl State {
    /// Processes a whole frame.
    pub(crate) fn process(&mut self, frame: FrameView<'_>) -> Found
        ensures { IsHeard (frame_of frame.entry) self.new result (hears self.old (frame_of frame.entry)) }
    {
        match self.awaiting {
            Some(awaiting) if awaiting.is_answer(&frame.header) => {
                self.process_answer(awaiting.awaited, frame)
            }
            _ => self.process_item(frame),
        }
    }

    /// Processes an awaited reply.
    fn process_answer(&mut self, awaited: Awaited, frame: FrameView<'_>) -> Found
        ensures { IsHeard (frame_of frame.entry) self.new result (answer_turn self.old awaited (frame_of frame.entry)) }
    {
        // A status other than 0: a lasting fault.
        if frame.header.status != 0 {
            return self.fail(ClientFault::Status(frame.header.status));
        }
        match awaited {
            Awaited::Session => self.process_register_reply(frame),
            Awaited::Connection => self.process_open_reply(frame),
            Awaited::Reply(service) => self.process_unconnected_reply(service, frame),
            Awaited::Routed(service) => self.process_routed_reply(service, frame),
            Awaited::End => self.process_close_reply(frame),
        }
    }

    /// Processes the reply to a RegisterSession.
    fn process_register_reply(&mut self, frame: FrameView<'_>) -> Found
        ensures { IsHeard (frame_of frame.entry) self.new result (session_turn self.old (frame_of frame.entry)) }
    {
        // Its data are the protocol version and flags.
        if frame.body.len() != PROTOCOL {
            return self.fail(ClientFault::Malformed);
        }
        self.awaiting = None;
        self.registration = Registration::Registered(frame.header.session);
        Found::Registered
    }

    /// Processes the reply to a Forward_Open or Large_Forward_Open.
    fn process_open_reply(&mut self, frame: FrameView<'_>) -> Found
        ensures { IsHeard (frame_of frame.entry) self.new result
            (opening_turn self.old
            (answer_to (manager_service_number (open_service self.old.wants)) (frame_of frame.entry).body)) }
    {
        let Some(Answer { reply, .. }) = answer_to(open_service(&self.wants).number(), frame.body)
        else {
            return self.fail(ClientFault::Malformed);
        };
        if reply.status != 0 {
            return self.refuse(reply);
        }
        // A successful reply has 26 bytes of data at least: IDs, numbers and packet intervals.
        if reply.data.len() < OPENED {
            return self.fail(ClientFault::Malformed);
        }
        self.awaiting = None;
        // The O->T ID comes first.
        self.connection_state = ConnectionState::Open(LittleEndian::read_u32(reply.data));
        Found::Opened
    }

    /// Processes the reply to an unconnected request of this service.
    fn process_unconnected_reply(&mut self, service: u8, frame: FrameView<'_>) -> Found
        ensures { IsHeard (frame_of frame.entry) self.new result
            (reply_turn self.old (answer_to service (frame_of frame.entry).body)) }
    {
        let Some(Answer { bytes, .. }) = answer_to(service, frame.body) else {
            return self.fail(ClientFault::Malformed);
        };
        self.awaiting = None;
        Found::Reply {
            from: REPLY,
            to: REPLY + bytes.len(),
        }
    }

    /// Processes the reply to an unconnected request of this service over a route: the device's own reply, or a router's.
    fn process_routed_reply(&mut self, service: u8, frame: FrameView<'_>) -> Found
        ensures { IsHeard (frame_of frame.entry) self.new result
            (routed_turn self.old (answer_to service (frame_of frame.entry).body)
            (answer_to UNCONNECTED_SEND (frame_of frame.entry).body)) }
    {
        let Some(Answer { bytes, .. }) = answer_to(service, frame.body) else {
            return self.process_router_reply(frame);
        };
        self.awaiting = None;
        Found::Reply {
            from: REPLY,
            to: REPLY + bytes.len(),
        }
    }

    /// Processes the reply of a router that does not pass a request on.
    fn process_router_reply(&mut self, frame: FrameView<'_>) -> Found
        ensures { IsHeard (frame_of frame.entry) self.new result
            (router_turn self.old (answer_to UNCONNECTED_SEND (frame_of frame.entry).body)) }
    {
        let Some(Answer { reply, .. }) = answer_to(UNCONNECTED_SEND, frame.body) else {
            return self.fail(ClientFault::Malformed);
        };
        if reply.status == 0 {
            return self.fail(ClientFault::Malformed);
        }
        self.refuse(reply)
    }

    /// Processes the reply to a Forward_Close.
    fn process_close_reply(&mut self, frame: FrameView<'_>) -> Found
        ensures { IsHeard (frame_of frame.entry) self.new result
            (closing_turn self.old
            (answer_to (manager_service_number ManagerService.ForwardClose) (frame_of frame.entry).body)) }
    {
        let Some(Answer { reply, .. }) = answer_to(
            ManagerService::ForwardClose.number(),
            frame.body,
        ) else {
            return self.fail(ClientFault::Malformed);
        };
        if reply.status != 0 {
            return self.refuse(reply);
        }
        self.awaiting = None;
        Found::Closed
    }

    /// Processes a frame that is not the awaited reply: an item of the connection, or nothing.
    fn process_item(&mut self, frame: FrameView<'_>) -> Found
        ensures { IsHeard (frame_of frame.entry) self.new result (other_turn self.old (frame_of frame.entry)) }
    {
        if !self.is_for_connection(&frame.header) {
            return Found::Nothing;
        }
        let Ok((id, item)) = unit_body(frame.body) else {
            return Found::Nothing;
        };
        // Not the connection's T->O ID: ignored.
        if id != self.wants.t_to_o_id {
            return Found::Nothing;
        }
        match self.originator.receive(item) {
            Came::Accepted(reply) => Found::Accepted {
                from: ITEM_REPLY,
                to: ITEM_REPLY + reply.len(),
            },
            Came::Ignored => Found::Nothing,
        }
    }

    /// Whether a frame with this header may have an item of the connection.
    fn is_for_connection(&self, header: &Header) -> bool
        ensures { result ≡ is_for_connection self.now header.now }
    {
        let (ConnectionState::Open(_), Registration::Registered(session)) = (
            self.connection_state,
            self.registration,
        ) else {
            return false;
        };
        header.command == Command::SendUnitData.number()
            && header.status == 0
            && header.session == session
    }

    /// The Connection Manager refused.
    fn refuse(&mut self, reply: ReplyView<'_>) -> Found
        ensures state { self.new ≡ (refuses self.old (view reply.entry)).state }
        ensures found { result ≡ Found.Refused reply.entry.status (first_word (view reply.entry).additional) }
    {
        self.awaiting = None;
        Found::Refused(reply.status, reply.additional_word(0).unwrap_or(0))
    }

    /// Sets a lasting fault.
    pub(crate) fn fail(&mut self, fault: ClientFault) -> Found
        ensures state { self.new ≡ (faulted self.old fault).state }
        ensures found { result ≡ Found.Nothing }
    {
        self.fault = Some(fault);
        Found::Nothing
    }
}

/// The reply to a request of this service in the data of a SendRRData. `None` if there is none.
fn answer_to(service: u8, body: &[u8]) -> Option<Answer<'_>>
    ensures answer { option_map answer_of result ≡ answer_to service body.now }
    ensures stands { IfSome result (λ answer. LiesAt 16 answer.bytes.now body.now) }
{
    let Ok(bytes) = rr_body(body) else {
        return None;
    };
    let Ok(reply) = ReplyView::read(bytes) else {
        return None;
    };
    // A reply has the service of its request, with bit 7 set.
    if reply.service == reply_service(service) {
        Some(Answer { bytes, reply })
    } else {
        None
    }
}
