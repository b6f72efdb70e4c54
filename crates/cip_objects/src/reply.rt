//! A reply that is written in place, up to a maximum size.
ghost use Rattle.std.specs.Prelude.{◌≡◌, ◌≤◌, ◌++◌, [], ◌∷◌};
ghost use Rattle.cip_objects.specs.ReplyWriting.{Writes};

use crate::status::Refusal;
use cip_bytes::protocol::REPLY_LIMIT;
use cip_message::ReplyBuf;

/// Appends bytes to a reply, if it then has at most `max_size` bytes.
#[inline(always)]
pub(crate) fn append(bytes: &[u8], max_size: usize, reply: &mut ReplyBuf) -> Result<(), Refusal>
    requires { max_size ≤ REPLY_LIMIT }
    ensures { Writes max_size (reply.old.items ++ bytes.now) result reply.new.items }
{
    // A longer reply is refused: 0x11.
    if max_size < reply.len() + bytes.len() {
        return Err(Refusal::ReplyDataTooLarge);
    }
    match reply.try_extend_from_slice(bytes) {
        Ok(()) => Ok(()),
        Err(_) => Err(Refusal::ReplyDataTooLarge),
    }
}
