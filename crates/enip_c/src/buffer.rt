//! The buffer that C passes for bytes.

ghost use Rattle.std.specs.Prelude.{◌≡◌, ◌≤◌, length, Some};
ghost use Rattle.enip_c.specs.Buffer.{in_buffer, returned_bytes};

use crate::status::Status;

/// Copies bytes to the front of the buffer, and returns their number.
pub(crate) fn copy_front(bytes: &[u8], buffer: &mut [u8]) -> usize
    requires { length bytes.now ≤ length buffer.old }
    ensures count { result ≡ length bytes.now }
    ensures buffer { buffer.new ≡ in_buffer bytes.now buffer.old }
{
    let count = bytes.len();
    buffer[..count].copy_from_slice(bytes);
    count
}

/// Copies bytes to the buffer, and their number to `count`. If they do not fit, nothing changes.
pub(crate) fn return_bytes(bytes: &[u8], buffer: &mut [u8], count: &mut usize) -> u32
    ensures { record { status = result; count = count.new; buffer = buffer.new }
        ≡ returned_bytes (Some bytes.now) count.old buffer.old }
{
    if bytes.len() <= buffer.len() {
        *count = copy_front(bytes, buffer);
        Status::Done.number()
    } else {
        Status::Room.number()
    }
}
