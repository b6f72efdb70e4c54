//! What a whole frame does. (Volume 2, encapsulation commands.)
//! Text: docs/PROTOCOL.md, "A peer".

mod asking;
mod discovery;
mod items;
mod lists;
mod requests;
mod sessions;

ghost use Rattle.std.specs.Prelude.{◌≡◌, [], true};
ghost use Rattle.cip_bytes.specs.declared.protocol.EncapsulationStatus.TheVariants.{InvalidLength};
ghost use Rattle.enip_wire.specs.Stream.{frame_of};
ghost use Rattle.enip_adapter.specs.Commands.{command_served};
ghost use Rattle.enip_adapter.specs.Replies.{reply, written};

use crate::no_reply_reason::NoReplyReason;
use crate::peer::Session;
use crate::reply::{AnswerFrame, Reaction, Reply, refuse};
use crate::shared::Shared;
pub(crate) use asking::{asked, executing, withdraw};
use cip_bytes::protocol::{Command, EncapsulationStatus};
use cip_objects::ReplyBuf;
pub use discovery::DiscoveryBuffer;
use enip_wire::{FrameView, Header};
use items::send_unit_data;
use lists::{list_identity, list_interfaces, list_services};
use requests::send_rr_data;
use sessions::{register_session, unregister_session};

/// Serves a whole frame. `reply` is scratch space for a router's reply; its old content is dropped.
#[tactic(auto, unfolding(crate::specs::Commands::command_served))]
pub(crate) fn serve(
    shared: &mut Shared,
    session: &mut Session,
    frame: FrameView<'_>,
    reply: &mut ReplyBuf,
    answer: &mut AnswerFrame,
) -> Reaction
    ensures session { session.new ≡ record session.old {
      registered = (command_served shared.old session.old (frame_of frame.entry)).reaction.registered;
    } }
    ensures shared { shared.new ≡ (command_served shared.old session.old (frame_of frame.entry)).shared }
    ensures answer { written result.reply answer.new.items
        ≡ (command_served shared.old session.old (frame_of frame.entry)).reaction.answer }
    ensures close { result.close ≡ (command_served shared.old session.old (frame_of frame.entry)).reaction.close }
{
    let asked = frame.header;
    // Options other than 0: the frame is discarded.
    if asked.options != 0 {
        return Reaction::no_reply(NoReplyReason::Options);
    }
    // A status other than 0: the frame is discarded (ours).
    if asked.status != 0 {
        return Reaction::no_reply(NoReplyReason::Status);
    }
    match Command::of(asked.command) {
        Some(Command::Nop) => return Reaction::no_reply(NoReplyReason::Nop),
        Some(Command::ListServices) => list_services(asked, answer),
        Some(Command::ListIdentity) => list_identity(shared, asked, reply, answer),
        Some(Command::ListInterfaces) => list_interfaces(asked, answer),
        Some(Command::RegisterSession) => register_session(session, frame, answer),
        Some(Command::UnRegisterSession) => return unregister_session(*session, asked),
        Some(Command::SendRRData) => send_rr_data(shared, *session, frame, reply, answer),
        Some(Command::SendUnitData) => return send_unit_data(shared, *session, frame, answer),
        // Any other command: unsupported, 0x0001 (ours).
        None => refuse(asked, EncapsulationStatus::UnsupportedCommand, answer),
    }
    Reaction::ANSWERED
}

/// Refuses a header whose length is over the limit, and closes the TCP connection.
#[inline(always)]
pub(crate) fn refuse_long(header: Header, answer: &mut AnswerFrame) -> Reaction
    ensures reaction { result ≡ record { reply = Reply.Written; close = true } }
    ensures answer { answer.new.items ≡ reply header header.session InvalidLength [] }
{
    refuse(header, EncapsulationStatus::InvalidLength, answer);
    Reaction {
        reply: Reply::Written,
        close: true,
    }
}
