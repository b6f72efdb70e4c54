//! RegisterSession and UnRegisterSession.
//! Text: docs/PROTOCOL.md, "A peer".

ghost use Rattle.std.specs.Prelude.{◌≡◌, if◌then◌else◌, true};
ghost use Rattle.enip_wire.specs.Stream.{frame_of};
ghost use Rattle.enip_adapter.specs.RegisterSession.{register_session, version_one};
ghost use Rattle.enip_adapter.specs.Replies.{reply, is_registered_as};
ghost use Rattle.enip_adapter.specs.Replies.Reply.{Sends};

use crate::no_reply_reason::NoReplyReason;
use crate::peer::Session;
use crate::reply::{AnswerFrame, Reaction, Reply, refuse, write_reply};
use byteorder::{ByteOrder, LittleEndian};
use cip_bytes::protocol::EncapsulationStatus;
use enip_wire::{FrameView, Header};

/// The number of bytes of protocol version and option flags.
const REGISTER_DATA: usize = 4;

/// The supported protocol version.
const PROTOCOL_VERSION: u16 = 1;

/// RegisterSession. Its data are the protocol version, 2 bytes, and the option flags, 2 bytes.
#[inline(always)]
pub(super) fn register_session(
    session: &mut Session,
    frame: FrameView<'_>,
    answer: &mut AnswerFrame,
)
    ensures session { session.new ≡ record session.old {
      registered = (register_session session.old (frame_of frame.entry)).registered;
    } }
    ensures answer { Sends answer.new.items ≡ (register_session session.old (frame_of frame.entry)).answer }
{
    let asked = frame.header;
    // Not 4 bytes of data: 0x0065.
    if frame.body.len() != REGISTER_DATA {
        return refuse(asked, EncapsulationStatus::InvalidLength, answer);
    }
    // The peer has registered a session already: 0x0001, and that session stays registered (ours).
    if session.registered {
        return refuse(asked, EncapsulationStatus::UnsupportedCommand, answer);
    }
    // Not version 1: 0x0069, with the supported version.
    if LittleEndian::read_u16(&frame.body[0..2]) != PROTOCOL_VERSION {
        return answer_version(
            asked,
            asked.session,
            EncapsulationStatus::UnsupportedRevision,
            answer,
        );
    }
    // Flags other than 0: 0x0003 (ours).
    if LittleEndian::read_u16(&frame.body[2..4]) != 0 {
        return refuse(asked, EncapsulationStatus::PoorlyFormedData, answer);
    }
    session.registered = true;
    answer_version(asked, session.handle, EncapsulationStatus::Success, answer)
}

/// Answers with the supported version and flags.
fn answer_version(
    asked: Header,
    session: u32,
    status: EncapsulationStatus,
    answer: &mut AnswerFrame,
)
    ensures { answer.new.items ≡ reply asked session status version_one }
{
    let mut version = [0; REGISTER_DATA];
    LittleEndian::write_u16(&mut version[0..2], PROTOCOL_VERSION);
    write_reply(&asked, session, status, &[], &version, answer)
}

impl Session {
    ghost use Rattle.std.specs.Prelude.{◌≡◌};
    ghost use Rattle.enip_adapter.specs.Replies.{is_registered_as};

    /// Whether the session is registered and a frame with this session field belongs to it.
    pub(super) fn is_registered_as(self, handle: u32) -> bool
        ensures { result ≡ is_registered_as self handle }
    {
        self.registered && handle == self.handle
    }
}

/// UnRegisterSession. It has no answer.
pub(super) fn unregister_session(session: Session, header: Header) -> Reaction
    ensures { result ≡ record {
      reply = Reply.NoReply (if is_registered_as session header.session then NoReplyReason.Unregistered
          else NoReplyReason.AnotherSession);
      close = is_registered_as session header.session;
    } }
{
    // Not this peer's registered session: dropped (ours).
    if !session.is_registered_as(header.session) {
        return Reaction::no_reply(NoReplyReason::AnotherSession);
    }
    Reaction {
        reply: Reply::NoReply(NoReplyReason::Unregistered),
        close: true,
    }
}
