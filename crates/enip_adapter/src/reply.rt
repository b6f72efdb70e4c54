//! Frames that answer. (Volume 2, encapsulation header.)
//! Text: docs/PROTOCOL.md, "A peer".

ghost use Rattle.std.specs.Prelude.{◌≡◌, ◌≤◌, ◌+◌, ◌++◌, length, take, [], false};
ghost use Rattle.enip_wire.specs.Headers.{header_spelling};
ghost use Rattle.enip_adapter.specs.Replies.{reply, reply_header};

use crate::no_reply_reason::NoReplyReason;
use cip_bytes::protocol::{EncapsulationStatus, LARGEST_CONNECTION_SIZE};
use enip_wire::Header;
use std::marker::Model;

/// The greatest number of bytes of a packet before its data: interface 4, timeout 2, item count 2, address item 4 or 8,
/// type and length of the data item 4. (Volume 2, common packet format.)
pub(crate) const PACKET_HEAD: usize = 20;

/// The greatest size of an answer's data, in bytes.
pub(crate) const LONGEST_DATA: usize = PACKET_HEAD + LARGEST_CONNECTION_SIZE;

/// The greatest size of an answer, in bytes.
pub const LONGEST_ANSWER: usize = Header::SIZE + LONGEST_DATA;

/// A buffer for one answer, a whole frame. Each answer overwrites the one before.
#[derive(Drop)]
pub(crate) struct AnswerFrame {
    /// The number of bytes of the answer in the block.
    size: usize,
    block: [u8; LONGEST_ANSWER],
}

impl Model for AnswerFrame {
    ghost use Rattle.std.specs.Prelude.{take};
    ghost use Rattle.enip_adapter.specs.Buffers.{Buffer, IsWithin};
    ghost use Rattle.enip_adapter.specs.declared.reply.TheConstants.{LONGEST_ANSWER};

    ghost Value = { Buffer };

    ghost view = { λ answer. record { items = take answer.size answer.block } };

    ghost invariant = { λ answer. IsWithin LONGEST_ANSWER answer.size answer.block };
}

impl AnswerFrame {
    /// A blank buffer.
    pub(crate) fn new() -> AnswerFrame
        ensures { result.items ≡ [] }
    {
        AnswerFrame {
            size: 0,
            block: [0; LONGEST_ANSWER],
        }
    }

    /// The bytes of the answer that was written last.
    pub(crate) fn as_slice(&self) -> &[u8]
        ensures value { result.now ≡ self.now.items }
        ensures fits { length result.now ≤ LONGEST_ANSWER }
    {
        &self.block[..self.size]
    }

    /// Writes a frame: its header, and its data in two parts.
    #[inline(always)]
    fn write(&mut self, header: &Header, front: &[u8], rest: &[u8])
        requires { length front.now + length rest.now ≤ LONGEST_DATA }
        ensures { self.new.items ≡ header_spelling header.now ++ (front.now ++ rest.now) }
    {
        let size = append_text(&mut self.block, 0, &header.write());
        let size = append_text(&mut self.block, size, front);
        self.size = append_text(&mut self.block, size, rest);
    }
}

/// Copies bytes into a block after its first `size` bytes, and returns where they end.
#[inline(always)]
fn append_text(block: &mut [u8], size: usize, text: &[u8]) -> usize
    requires { size + length text.now ≤ length block.old }
    ensures end { result ≡ size + length text.now }
    ensures text { take result block.new ≡ take size block.old ++ text.now }
    ensures size { length block.new ≡ length block.old }
{
    let end = size + text.len();
    block[size..end].copy_from_slice(text);
    end
}

/// The answer to a frame.
#[derive(Clone, Copy)]
pub(crate) enum Reply {
    /// None, for this reason.
    NoReply(NoReplyReason),
    /// The frame that was written last.
    Written,
}

/// What a frame does to its peer, apart from registering it.
#[derive(Clone, Copy)]
pub(crate) struct Reaction {
    /// The answer.
    pub(crate) reply: Reply,
    /// Whether the TCP connection is closed.
    pub(crate) close: bool,
}

impl Reaction {
    /// An answer was written.
    pub(crate) const ANSWERED: Reaction = Reaction {
        reply: Reply::Written,
        close: false,
    };

    /// The reaction of a peer that is closed or not held.
    pub(crate) const NOT_SERVED: Reaction = Reaction {
        reply: Reply::NoReply(NoReplyReason::NotServed),
        close: true,
    };

    /// Nothing is sent, for this reason.
    #[inline(always)]
    pub(crate) fn no_reply(why: NoReplyReason) -> Reaction
        ensures { result ≡ record { reply = Reply.NoReply why; close = false } }
    {
        Reaction {
            reply: Reply::NoReply(why),
            close: false,
        }
    }
}

/// The header of a reply with `size` bytes of data: command and context of the request, options 0.
#[inline(always)]
fn header_of(asked: &Header, session: u32, status: EncapsulationStatus, size: usize) -> Header
    requires { size ≤ LONGEST_DATA }
    ensures { result ≡ reply_header asked.now session status size }
{
    Header {
        command: asked.command,
        length: size as u16,
        session,
        status: status.number(),
        context: asked.context,
        options: 0,
    }
}

/// Writes a whole reply, with its data in two parts.
#[inline(always)]
pub(crate) fn write_reply(
    asked: &Header,
    session: u32,
    status: EncapsulationStatus,
    front: &[u8],
    rest: &[u8],
    answer: &mut AnswerFrame,
)
    requires { length front.now + length rest.now ≤ LONGEST_DATA }
    ensures { answer.new.items ≡ reply asked.now session status (front.now ++ rest.now) }
{
    let header = header_of(asked, session, status, front.len() + rest.len());
    answer.write(&header, front, rest);
}

/// Refuses a frame: a status, no data, and the session field of the request.
pub(crate) fn refuse(asked: Header, status: EncapsulationStatus, answer: &mut AnswerFrame)
    ensures { answer.new.items ≡ reply asked asked.session status [] }
{
    write_reply(&asked, asked.session, status, &[], &[], answer);
}
