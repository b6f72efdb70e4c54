//! The value of an attribute, and how it is appended to a reply.
ghost use Rattle.std.specs.Prelude.{◌≡◌, ◌≤◌, ◌++◌};
ghost use Rattle.cip_objects.specs.ReplyWriting.{Writes};

use crate::reply::append;
use crate::status::Refusal;
use cip_bytes::protocol::REPLY_LIMIT;
use cip_message::ReplyBuf;

/// The value of an attribute, by its type (Volume 1, elementary data types).
#[derive(Clone, Copy)]
pub(crate) enum AttributeValue<'a> {
    /// A USINT.
    Usint(u8),
    /// Two USINTs: a revision.
    Pair(u8, u8),
    /// A UINT or a WORD.
    Uint(u16),
    /// A UDINT.
    Udint(u32),
    /// A SHORT_STRING: a byte with its length, then the text.
    Text(u8, &'a [u8]),
    /// Bytes, as they are.
    Bytes(&'a [u8]),
}

impl AttributeValue<'_> {
    ghost use Rattle.cip_objects.specs.AttributeValue.{value_bytes};

    /// Appends the value's bytes to a reply, if it then has at most `max_size` bytes.
    #[inline(always)]
    pub(crate) fn append(self, max_size: usize, reply: &mut ReplyBuf) -> Result<(), Refusal>
        requires { max_size ≤ REPLY_LIMIT }
        ensures { Writes max_size (reply.old.items ++ value_bytes self.entry) result reply.new.items }
    {
        match self {
            AttributeValue::Usint(value) => append(&[value], max_size, reply),
            AttributeValue::Pair(first, second) => append(&[first, second], max_size, reply),
            AttributeValue::Uint(value) => append(&value.to_le_bytes(), max_size, reply),
            AttributeValue::Udint(value) => append(&value.to_le_bytes(), max_size, reply),
            AttributeValue::Text(size, text) => {
                append(&[size], max_size, reply)?;
                append(text, max_size, reply)
            }
            AttributeValue::Bytes(bytes) => append(bytes, max_size, reply),
        }
    }
}
