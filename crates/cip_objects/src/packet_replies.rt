//! The replies to the requests of a packet (Volume 1, Message Router object).
//! Text: docs/PROTOCOL.md, "Several requests in one".
ghost use Rattle.std.specs.Prelude.{◌≡◌, ◌≤◌, ◌<◌, ◌+◌, ◌*◌, ◌^◌, ◌++◌, [], length};
ghost use Rattle.cip_bytes.specs.Numbers.{le};
ghost use Rattle.cip_message.specs.Reply.{reply as spelled, reply_of_fields, reply_service};
ghost use Rattle.cip_objects.specs.Packets.{numbers_size, status_of};
ghost use Rattle.cip_objects.specs.PacketReplies.{seen, none_of, pushed};

use crate::packet::NUMBER_SIZE;
use arrayvec::ArrayVec;
use cip_bytes::protocol::REPLY_LIMIT;
use cip_message::{ReplyBuf, reply_service};

/// A request of a packet was refused: embedded service error (Volume 1, general status codes).
pub(crate) const EMBEDDED_SERVICE_ERROR: u8 = 0x1e;

/// Every request of a packet was executed: success (Volume 1, general status codes).
const SUCCESS: u8 = 0x00;

/// The most bytes of offsets: 500 requests have a reply limit of 8 bytes each.
pub(crate) const OFFSETS_LIMIT: usize = 1_000;

/// Offsets of replies, two bytes each.
type OffsetBuf = ArrayVec<u8, OFFSETS_LIMIT>;

/// The replies to the first requests of a packet.
#[derive(Drop)]
pub(crate) struct PacketReplies {
    /// How many requests the packet has.
    pub(crate) count: usize,
    /// The offset of each reply from the count on, two bytes each.
    pub(crate) offsets: OffsetBuf,
    /// The replies, one behind another.
    pub(crate) replies: ReplyBuf,
    /// Whether one of them has a status other than success.
    pub(crate) is_refused: bool,
}

impl PacketReplies {
    /// No reply yet, of so many.
    pub(crate) fn new(count: usize) -> PacketReplies
        ensures { seen result ≡ none_of count }
    {
        PacketReplies {
            count,
            offsets: OffsetBuf::new(),
            replies: ReplyBuf::new(),
            is_refused: false,
        }
    }

    /// Adds the reply to the next request.
    pub(crate) fn push(&mut self, reply: &[u8])
        requires head { 4 ≤ length reply.now }
        requires count { 2 * self.old.count ≤ OFFSETS_LIMIT }
        requires offsets { length self.old.offsets.items + 2 ≤ OFFSETS_LIMIT }
        requires replies { length self.old.replies.items + length reply.now ≤ REPLY_LIMIT }
        ensures { seen self.new ≡ pushed (seen self.old) reply.now }
    {
        let offset = NUMBER_SIZE + NUMBER_SIZE * self.count + self.replies.len();
        let _ = self
            .offsets
            .try_extend_from_slice(&(offset as u16).to_le_bytes());
        let _ = self.replies.try_extend_from_slice(reply);
        self.is_refused = self.is_refused || reply[2] != SUCCESS;
    }

    /// Writes the reply to the packet, whose service this is.
    pub(crate) fn write(&self, service: u8, reply: &mut ReplyBuf)
        requires count { self.now.count < 2 ^ 16 }
        requires fits { 6 + length self.now.offsets.items + length self.now.replies.items ≤ REPLY_LIMIT }
        ensures { reply.new.items ≡ spelled (reply_of_fields (reply_service service) (status_of self.now.is_refused) []
            (le 2 self.now.count ++ (self.now.offsets.items ++ self.now.replies.items))) }
    {
        reply.clear();
        reply.push(reply_service(service));
        reply.push(0);
        reply.push(self.status());
        reply.push(0);
        let _ = reply.try_extend_from_slice(&(self.count as u16).to_le_bytes());
        let _ = reply.try_extend_from_slice(self.offsets.as_slice());
        let _ = reply.try_extend_from_slice(self.replies.as_slice());
    }

    /// The general status of the reply to the packet.
    fn status(&self) -> u8
        ensures { result ≡ status_of self.now.is_refused }
    {
        if self.is_refused {
            EMBEDDED_SERVICE_ERROR
        } else {
            SUCCESS
        }
    }
}
