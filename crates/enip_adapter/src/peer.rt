//! A peer: its session, and the bytes held of its next frame.
//! Text: docs/PROTOCOL.md, "A peer".

ghost use Rattle.std.specs.Prelude.{◌≡◌, ◌<◌, ◌≤◌, length};
ghost use Rattle.std.specs.Borrow.{sem};
ghost use Rattle.std.specs.Io.BufRead.{Rests};
ghost use Rattle.enip_wire.specs.Frames.{IsComplete};
ghost use Rattle.enip_wire.specs.Stream.{bytes_taken, held_and_taken, parsed, cleared};
ghost use Rattle.enip_adapter.specs.Adapter.{IsWaiting};
ghost use Rattle.enip_adapter.specs.Asks.{asks_by_parsed, asks_by_seen};
ghost use Rattle.enip_adapter.specs.Executing.{executing_parsed, executing_seen};
ghost use Rattle.enip_adapter.specs.Withdrawing.{requests_by_seen, requests_by_parsed};
ghost use Rattle.enip_adapter.specs.Turn.{shared_after, session_after};
ghost use Rattle.enip_adapter.specs.Commands.{parsed_served};
ghost use Rattle.enip_adapter.specs.Replies.{written};

use crate::commands::{refuse_long, serve};
use crate::no_reply_reason::NoReplyReason;
use crate::reply::{AnswerFrame, Reaction};
use crate::shared::Shared;
use cip_objects::ReplyBuf;
use enip_wire::{FrameReader, FrameView, Held};
use std::marker::Model;

/// A peer that has begun, identified by its session handle.
#[derive(Clone, Copy, Debug)]
pub struct Peer {
    pub(crate) handle: u32,
}

impl Model for Peer {
    ghost use Rattle.std.specs.Prelude.{ℕ};

    ghost Value = { ℕ };

    ghost view = { λ p. p.handle };

    ghost inverse = { λ n. record { handle = n } };
}

impl Peer {
    /// The peer with this session handle, 32 bits. If the handle was never assigned, the peer is not held.
    pub fn of(handle: u32) -> Peer
        ensures { result ≡ handle }
    {
        Peer { handle }
    }

    /// The session handle that the peer was assigned when it began.
    pub fn handle(&self) -> u32
        ensures { result ≡ self.now }
    {
        self.handle
    }
}

/// What a peer may do.
///
/// ```
/// let Ok(panel) = adapter.begin_as(Rights::Read, None) else {
///     return Ok(());
/// };
/// ```
#[derive(Clone, Copy, Debug, PartialEq, Eq)]
pub enum Rights {
    /// Everything.
    Write,
    /// Whatever changes nothing: a request that could change the objects or the command ledger, or that only the owner
    /// of the device could execute, is refused with general status 0x0f, privilege violation.
    Read,
}

/// The encapsulation state of a peer.
#[derive(Clone, Copy)]
pub(crate) struct Session {
    /// The session handle that the peer was assigned when it began.
    pub(crate) handle: u32,
    /// Whether it has registered.
    pub(crate) registered: bool,
    /// Whether its TCP connection is closed.
    pub(crate) closed: bool,
    /// What it may do.
    pub(crate) rights: Rights,
    /// The group that it counts for, if any.
    pub(crate) group: Option<u128>,
}

/// A slot that a peer holds.
#[derive(Drop)]
pub(crate) struct PeerSlot {
    pub(crate) session: Session,
    pub(crate) reader: FrameReader,
}

impl PeerSlot {
    ghost use Rattle.enip_adapter.specs.contracts.peer.PeerSlot.{the_row};

    /// The session, and the frame that these bytes of a piece complete, if they complete one. Nothing changes. The
    /// frame is lent from the piece, or from the bytes that are held.
    pub(crate) fn peek<'a>(&'a mut self, piece: &'a [u8]) -> Option<(Session, FrameView<'a>)>
        ensures* state { sem 𝓛 (Rests the_row self.entry (λ last. last ≡ self.old)) }
        ensures seen { (shared : Shared) → asks_by_seen shared result
            ≡ asks_by_parsed shared self.old.session (parsed (held_and_taken self.old.reader piece.now)) }
        ensures executing { (shared : Shared) → executing_seen shared result
            ≡ executing_parsed shared self.old.session (parsed (held_and_taken self.old.reader piece.now)) }
        ensures requests { (shared : Shared) → requests_by_seen shared result
            ≡ requests_by_parsed shared self.old.session (parsed (held_and_taken self.old.reader piece.now)) }
    {
        let session = self.session;
        match self.reader.peek(piece) {
            Held::Frame(frame) => Some((session, frame)),
            Held::More | Held::TooLong(_) => None,
        }
    }

    /// Takes bytes of a piece up to the end of one frame, and serves the frame. `reply` is scratch space for a router's
    /// reply. Returns the number of bytes taken and the reaction to them.
    pub(crate) fn feed(
        &mut self,
        shared: &mut Shared,
        piece: &[u8],
        reply: &mut ReplyBuf,
        answer: &mut AnswerFrame,
    ) -> (usize, Reaction)
        requires { IsComplete self.old.reader → ⊥ }
        ensures session { self.new.session ≡ session_after self.old.session
            (parsed_served shared.old self.old.session (parsed (held_and_taken self.old.reader piece.now))) }
        ensures reader { self.new.reader
            ≡ cleared (parsed (held_and_taken self.old.reader piece.now)) (held_and_taken self.old.reader piece.now) }
        ensures shared { shared.new ≡ shared_after self.old.session
            (parsed_served shared.old self.old.session (parsed (held_and_taken self.old.reader piece.now))) }
        ensures taken { result.0 ≡ bytes_taken self.old.reader piece.now }
        ensures answer { written result.1.reply answer.new.items ≡ (parsed_served shared.old self.old.session
            (parsed (held_and_taken self.old.reader piece.now))).reaction.answer }
        ensures close { result.1.close ≡ (parsed_served shared.old self.old.session
            (parsed (held_and_taken self.old.reader piece.now))).reaction.close }
        ensures within { result.0 ≤ length piece.now }
        ensures progress { 0 < length piece.now → 0 < result.0 }
        ensures waiting { IsWaiting self.new }
    {
        let (taken, held) = self.reader.next(piece);
        let reaction = match held {
            Held::More => Reaction::no_reply(NoReplyReason::NoFrame),
            Held::Frame(frame) => {
                let reaction = serve(shared, &mut self.session, frame, reply, answer);
                self.reader.clear();
                reaction
            }
            Held::TooLong(header) => refuse_long(header, answer),
        };
        self.session.closed = reaction.close;
        if reaction.close {
            shared.end_session(self.session.handle);
        }
        (taken, reaction)
    }
}
