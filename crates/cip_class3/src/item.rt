//! The item of a class 3 connection: a sequence count, then a request or a reply. (Volume 2, connected data item.)
//!
//! ```text
//!  [ sequence count | request or reply ]
//!          2
//! ```

ghost use Rattle.std.specs.Prelude.{◌≡◌, ◌+◌, ◌≤◌, ◌++◌, length, drop};
ghost use Rattle.cip_class3.specs.Item.{item};

use byteorder::{ByteOrder, LittleEndian};
use cip_bytes::protocol::SEQUENCE_COUNT_SIZE;

/// Writes a sequence count and a message to the front of a block.
pub fn write_item(block: &mut [u8], sequence_count: u16, message: &[u8])
    requires { length message.now + 2 ≤ length block.old }
    ensures { block.new ≡ item sequence_count message.now ++ drop (length message.now + 2) block.old }
{
    LittleEndian::write_u16(block, sequence_count);
    block[SEQUENCE_COUNT_SIZE..SEQUENCE_COUNT_SIZE + message.len()].copy_from_slice(message);
}
