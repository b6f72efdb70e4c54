//! SendUnitData: items on connections.
//! Text: docs/PROTOCOL.md, "Packets: SendRRData and SendUnitData".

ghost use Rattle.std.specs.Prelude.{◌≡◌, ◌≤◌, ℕ, List, ◌+◌, ◌++◌, length, true, false, IfSome};
ghost use Rattle.std.specs.Option.{option_map};
ghost use Rattle.cip_bytes.specs.declared.protocol.EncapsulationStatus.TheVariants.{Success};
ghost use Rattle.cip_class3.specs.Item.{item, message_of};
ghost use Rattle.cip_manager.specs.Items.{view as reply_in};
ghost use Rattle.enip_wire.specs.Bodies.{unit_body_bytes};
ghost use Rattle.enip_wire.specs.Stream.{frame_of};
ghost use Rattle.enip_adapter.specs.Replies.{reply, written};
ghost use Rattle.enip_adapter.specs.Rights.{is_refused};
ghost use Rattle.enip_adapter.specs.SendUnitData.{send_unit_data, turn_of_item, left_by_item, item_reply};

use crate::no_reply_reason::NoReplyReason;
use crate::peer::Session;
use crate::reply::{AnswerFrame, PACKET_HEAD, Reaction, write_reply};
use crate::rights::{Refuser, is_refused};
use crate::shared::Shared;
use cip_bytes::protocol::{EncapsulationStatus, LARGEST_CONNECTION_SIZE, SEQUENCE_COUNT_SIZE};
use cip_manager::KeptAnswer;
use enip_wire::{FrameView, Header, unit_body, unit_body_head};

/// The number of bytes before the reply in an item that is sent back: the head of the packet, and the sequence count.
const ITEM_FRONT: usize = PACKET_HEAD + SEQUENCE_COUNT_SIZE;

/// SendUnitData. There is no answer if the session is not this peer's registered one, if the data are not a packet, or
/// if no connection takes the item (ours).
#[inline(always)]
pub(super) fn send_unit_data(
    shared: &mut Shared,
    session: Session,
    frame: FrameView<'_>,
    answer: &mut AnswerFrame,
) -> Reaction
    ensures shared { shared.new ≡ (send_unit_data shared.old session (frame_of frame.entry)).shared }
    ensures answer { written result.reply answer.new.items
        ≡ (send_unit_data shared.old session (frame_of frame.entry)).reaction.answer }
    ensures close { result.close ≡ (send_unit_data shared.old session (frame_of frame.entry)).reaction.close }
{
    if !session.is_registered_as(frame.header.session) {
        return Reaction::no_reply(NoReplyReason::AnotherSession);
    }
    match unit_body(frame.body) {
        Ok((id, item)) => send_item(shared, session, &frame.header, id, item, answer),
        Err(fault) => Reaction::no_reply(NoReplyReason::NotAPacket(fault)),
    }
}

/// Passes an item to the session's connection with this O->T ID, and writes its answer.
#[inline(always)]
fn send_item(
    shared: &mut Shared,
    session: Session,
    asked: &Header,
    id: u32,
    item: &[u8],
    answer: &mut AnswerFrame,
) -> Reaction
    ensures shared { shared.new ≡ left_by_item shared.old (turn_of_item shared.old session id item.now) }
    ensures answer { written result.reply answer.new.items
        ≡ item_reply asked.now (turn_of_item shared.old session id item.now).reply }
    ensures close { result.close ≡ false }
{
    // A reader's request that could change something is refused on its connection: 0x0f (ours).
    if is_refused(session.rights, request_in(item)) {
        return refuse_item(shared, session, asked, id, item, answer);
    }
    let moment = shared.moment;
    let kept = shared
        .manager
        .connected(moment, session.handle, id, item, &mut shared.objects);
    answer_item(asked, kept, answer)
}

/// Passes an item to the session's connection with this O->T ID, which keeps a refusal in place of the device's reply.
#[inline(never)]
fn refuse_item(
    shared: &mut Shared,
    session: Session,
    asked: &Header,
    id: u32,
    item: &[u8],
    answer: &mut AnswerFrame,
) -> Reaction
    requires { is_refused session.rights (message_of item.now) ≡ true }
    ensures shared { shared.new ≡ left_by_item shared.old (turn_of_item shared.old session id item.now) }
    ensures answer { written result.reply answer.new.items
        ≡ item_reply asked.now (turn_of_item shared.old session id item.now).reply }
    ensures close { result.close ≡ false }
{
    let kept = shared
        .manager
        .connected(shared.moment, session.handle, id, item, &mut Refuser);
    answer_item(asked, kept, answer)
}

/// Writes the answer that a connection keeps, if it took the item.
#[inline(always)]
fn answer_item(asked: &Header, kept: Option<KeptAnswer<'_>>, answer: &mut AnswerFrame) -> Reaction
    requires { IfSome kept (λ kept. length kept.reply.now + SEQUENCE_COUNT_SIZE ≤ LARGEST_CONNECTION_SIZE) }
    ensures answer { written result.reply answer.new.items ≡ item_reply asked.now (option_map reply_in kept.entry) }
    ensures close { result.close ≡ false }
{
    match kept {
        Some(kept) => {
            write_unit_reply(asked, kept, answer);
            Reaction::ANSWERED
        }
        None => Reaction::no_reply(NoReplyReason::NotTaken),
    }
}

/// The request of an item, after its sequence count.
fn request_in(item: &[u8]) -> &[u8]
    ensures { result.now ≡ message_of item.now }
{
    if item.len() < SEQUENCE_COUNT_SIZE {
        return &[];
    }
    &item[SEQUENCE_COUNT_SIZE..]
}

/// Writes a whole SendUnitData with the T->O connection ID, and the sequence count and the reply that the target holds.
#[inline(always)]
fn write_unit_reply(asked: &Header, kept: KeptAnswer<'_>, answer: &mut AnswerFrame)
    requires { length kept.reply.now + SEQUENCE_COUNT_SIZE ≤ LARGEST_CONNECTION_SIZE }
    ensures { answer.new.items ≡ reply asked.now asked.now.session Success
        (unit_body_bytes kept.entry.id (item kept.entry.sequence_count kept.entry.reply.now)) }
{
    let size = SEQUENCE_COUNT_SIZE + kept.reply.len();
    let front = item_front(kept.id, kept.sequence_count, size as u16);
    write_reply(
        asked,
        asked.session,
        EncapsulationStatus::Success,
        &front,
        kept.reply,
        answer,
    );
}

/// The body of a SendUnitData up to the reply in its item: the head of the packet, and the sequence count. `size` is
/// the number of bytes of count and reply.
#[inline(always)]
fn item_front(id: u32, sequence_count: u16, size: u16) -> [u8; ITEM_FRONT]
    ensures { (reply : List ℕ) → length reply + SEQUENCE_COUNT_SIZE ≡ size →
        unit_body_bytes id (item sequence_count reply) ≡ result ++ reply }
{
    let mut front = [0; ITEM_FRONT];
    front[..PACKET_HEAD].copy_from_slice(&unit_body_head(id, size));
    front[PACKET_HEAD..].copy_from_slice(&sequence_count.to_le_bytes());
    front
}
