//! Numbers of four and of eight bytes, least byte first. (Volume 1, elementary data types, UDINT and ULINT.)

ghost use Rattle.std.specs.Prelude.{◌≡◌, ◌+◌, ◌≤◌, ◌++◌, length, take, drop};
ghost use Rattle.saved_state.specs.Numbers.{udint, ulint, udint_at, ulint_at};

use byteorder::{ByteOrder, LittleEndian};

/// The number of four bytes at an offset.
pub(crate) fn udint_at(bytes: &[u8], offset: usize) -> u32
    requires { offset + 4 ≤ length bytes.now }
    ensures { result ≡ udint_at offset bytes.now }
{
    LittleEndian::read_u32(&bytes[offset..])
}

/// The number of eight bytes at an offset.
pub(crate) fn ulint_at(bytes: &[u8], offset: usize) -> u64
    requires { offset + 8 ≤ length bytes.now }
    ensures { result ≡ ulint_at offset bytes.now }
{
    LittleEndian::read_u64(&bytes[offset..])
}

/// Writes a number of four bytes at an offset.
pub(crate) fn put_udint(into: &mut [u8], offset: usize, value: u32)
    requires { offset + 4 ≤ length into.old }
    ensures { into.new ≡ take offset into.old ++ (udint value ++ drop (offset + 4) into.old) }
{
    LittleEndian::write_u32(&mut into[offset..], value);
}

/// Writes a number of eight bytes at an offset.
pub(crate) fn put_ulint(into: &mut [u8], offset: usize, value: u64)
    requires { offset + 8 ≤ length into.old }
    ensures { into.new ≡ take offset into.old ++ (ulint value ++ drop (offset + 8) into.old) }
{
    LittleEndian::write_u64(&mut into[offset..], value);
}
