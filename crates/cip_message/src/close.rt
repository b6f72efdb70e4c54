//! The data of a Forward_Close request, which closes a connection (Volume 1, Connection Manager).

ghost use Rattle.std.specs.Prelude.{◌≡◌, ◌↔◌, ◌+◌, ◌%◌, ◌<◌, ◌≤◌, ◌++◌, length, IsOk, OnOk, OnErr};
ghost use Rattle.arrayvec.specs.ArrayVec.{array_vec_len};
ghost use Rattle.cip_bytes.specs.Reading.{Gives};
ghost use Rattle.cip_message.specs.Close.{Close, IsClose, SpellsClose, close, view, expected_length, close_fields};
ghost use Rattle.cip_message.specs.Close.{close_of};

use crate::open::LengthFault;
use arrayvec::ArrayVec;
use byteorder::{ByteOrder, LittleEndian};
use cip_bytes::{Full, append, append_u8, append_u16, append_u32};

/// How many bytes come before the path, including the reserved one.
const SIZE_BEFORE_PATH: usize = 12;

/// The data of a Forward_Close. Connection serial, originator vendor and originator serial name the connection, as
/// its opening did.
#[derive(Clone, Copy, Debug)]
pub struct CloseRequest<'a> {
    /// Priority and tick time.
    pub priority_and_tick_time: u8,
    /// Timeout ticks.
    pub timeout_ticks: u8,
    /// The originator's number for the connection.
    pub connection_serial: u16,
    /// The originator's vendor ID.
    pub originator_vendor: u16,
    /// The originator's serial number.
    pub originator_serial: u32,
    /// The bytes of the path: an even number, as a path is whole 16-bit words.
    pub path: &'a [u8],
}

impl<'a> CloseRequest<'a> {
    /// Reads all of the bytes as a close request. The reserved byte may have any value. The path is lent from the
    /// bytes.
    pub fn read(bytes: &'a [u8]) -> Result<CloseRequest<'a>, LengthFault>
        // A request is read if and only if the bytes spell it.
        ensures close_request { (c : Close) → Gives view result (Ok c) ↔ SpellsClose c bytes.now }
        ensures short { Gives view result (Err LengthFault.Short) ↔ (length bytes.now < expected_length bytes.now) }
        ensures long { Gives view result (Err LengthFault.Long) ↔ (expected_length bytes.now < length bytes.now) }
        ensures exact { Gives view result (close_of bytes.now) }
    {
        close_at(bytes)
    }

    /// Appends the request, with 0 in the reserved byte. The path must be whole words, at most 255 of them.
    ///
    /// # Errors
    ///
    /// `Full` if the request does not fit. Then nothing is written.
    pub fn write<const N: usize>(&self, out: &mut ArrayVec<u8, N>) -> Result<(), Full>
        requires whole_words { length self.now.path.now % 2 ≡ 0 }
        requires counted { length self.now.path.now ≤ 510 }
        ensures fits { IsOk result ↔ (array_vec_len out.old + length (close (view self.now)) ≤ N) }
        ensures ok { OnOk result (out.new.items ≡ out.old.items ++ close (view self.now)) }
        ensures spelled { OnOk result (IsClose (view self.now)) }
        ensures err { OnErr result (out.new ≡ out.old) }
    {
        if out.remaining_capacity() < SIZE_BEFORE_PATH + self.path.len() {
            return Err(Full);
        }
        append_u8(out, self.priority_and_tick_time);
        append_u8(out, self.timeout_ticks);
        append_u16(out, self.connection_serial);
        append_u16(out, self.originator_vendor);
        append_u32(out, self.originator_serial);
        append(out, &[(self.path.len() / 2) as u8, 0]);
        append(out, self.path);
        Ok(())
    }
}

/// Reads all of the bytes as a close request: the computation.
#[tactic(auto, unfolding(crate::specs::Close::close_of))]
fn close_at(bytes: &[u8]) -> Result<CloseRequest<'_>, LengthFault>
    ensures { Gives view result (close_of bytes.now) }
{
    if bytes.len() < SIZE_BEFORE_PATH {
        return Err(LengthFault::Short);
    }
    // Byte 10 is the path size in words, and a reserved byte follows it.
    let expected = SIZE_BEFORE_PATH + 2 * usize::from(bytes[10]);
    if bytes.len() < expected {
        return Err(LengthFault::Short);
    }
    if expected < bytes.len() {
        return Err(LengthFault::Long);
    }
    Ok(fields_at(bytes))
}

/// Reads each field at its offset.
#[tactic(auto, unfolding(crate::specs::Close::close_fields))]
fn fields_at(bytes: &[u8]) -> CloseRequest<'_>
    requires { 12 ≤ length bytes.now }
    ensures { view result ≡ close_fields bytes.now }
{
    CloseRequest {
        priority_and_tick_time: bytes[0],
        timeout_ticks: bytes[1],
        connection_serial: LittleEndian::read_u16(&bytes[2..]),
        originator_vendor: LittleEndian::read_u16(&bytes[4..]),
        originator_serial: LittleEndian::read_u32(&bytes[6..]),
        path: &bytes[12..],
    }
}
