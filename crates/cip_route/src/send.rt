//! The data of an Unconnected_Send request, with which a router passes a message on (Volume 1, Connection Manager).
//! Text: docs/PROTOCOL.md, "Routes".

ghost use Rattle.std.specs.Prelude.{◌≡◌, ◌↔◌, ◌+◌, ◌%◌, ◌<◌, ◌≤◌, ◌^◌, ◌++◌, length, IsOk, OnOk, OnErr, Ok, Err};
ghost use Rattle.arrayvec.specs.ArrayVec.{array_vec_len};
ghost use Rattle.cip_bytes.specs.Reading.{Gives};
ghost use Rattle.cip_bytes.specs.Numbers.{number_at};
ghost use Rattle.cip_route.specs.Send.{Send, IsSend, SpellsSend, send_bytes, view, expected_length, send_fields, send_of};
ghost use Rattle.cip_route.specs.Send.{route_size_at};

use arrayvec::ArrayVec;
use byteorder::{ByteOrder, LittleEndian};
use cip_bytes::{Full, append, append_u8, append_u16};
use cip_message::LengthFault;

/// The service of the Connection Manager that passes a message on. (Volume 1, Connection Manager services.)
pub const UNCONNECTED_SEND: u8 = 0x52;

/// How many bytes come before the message.
const SIZE_BEFORE_MESSAGE: usize = 4;

/// How many bytes are between the message, with its pad byte, and the route.
const SIZE_BEFORE_ROUTE: usize = 2;

/// A message, and the route over which a router passes it on.
///
/// ```
/// let send = UnconnectedSend { priority_and_tick_time: 0x0a, timeout_ticks: 4, message: request, route: &[1, 0] };
/// send.write(&mut data)?;
/// ```
#[derive(Clone, Copy, Debug)]
pub struct UnconnectedSend<'a> {
    /// Priority and tick time: a tick is 2^n milliseconds, where n is the low four bits.
    pub priority_and_tick_time: u8,
    /// After so many ticks the router gives the message up.
    pub timeout_ticks: u8,
    /// The message: a request of the message router of the device at the end of the route.
    pub message: &'a [u8],
    /// The bytes of the route: an even number, as a route is whole 16-bit words.
    pub route: &'a [u8],
}

impl<'a> UnconnectedSend<'a> {
    /// Reads all of the bytes as an Unconnected_Send. The pad byte and the reserved byte may have any value. Message and
    /// route are lent from the bytes.
    pub fn read(bytes: &'a [u8]) -> Result<UnconnectedSend<'a>, LengthFault>
        // An Unconnected_Send is read if and only if the bytes spell it.
        ensures unconnected_send { (s : Send) → Gives view result (Ok s) ↔ SpellsSend s bytes.now }
        ensures short { Gives view result (Err LengthFault.Short) ↔ (length bytes.now < expected_length bytes.now) }
        ensures long { Gives view result (Err LengthFault.Long) ↔ (expected_length bytes.now < length bytes.now) }
        ensures exact { Gives view result (send_of bytes.now) }
    {
        send_at(bytes)
    }

    /// Appends the request, with 0 in the pad byte and the reserved byte. The message must be shorter than 65,536 bytes.
    /// The route must be whole words, at most 255 of them.
    ///
    /// # Errors
    ///
    /// `Full` if the request does not fit. Then nothing is written.
    pub fn write<const N: usize>(&self, out: &mut ArrayVec<u8, N>) -> Result<(), Full>
        requires counted_message { length self.now.message.now < 2 ^ 16 }
        requires whole_words { length self.now.route.now % 2 ≡ 0 }
        requires counted { length self.now.route.now ≤ 510 }
        ensures fits { IsOk result ↔ (array_vec_len out.old + length (send_bytes (view self.now)) ≤ N) }
        ensures ok { OnOk result (out.new.items ≡ out.old.items ++ send_bytes (view self.now)) }
        ensures spelled { OnOk result (IsSend (view self.now)) }
        ensures err { OnErr result (out.new ≡ out.old) }
    {
        let padded = self.message.len() + self.message.len() % 2;
        let size = SIZE_BEFORE_MESSAGE + padded + SIZE_BEFORE_ROUTE + self.route.len();
        if out.remaining_capacity() < size {
            return Err(Full);
        }
        append_u8(out, self.priority_and_tick_time);
        append_u8(out, self.timeout_ticks);
        append_u16(out, self.message.len() as u16);
        append(out, self.message);
        append(out, &[0][..self.message.len() % 2]);
        append(out, &[(self.route.len() / 2) as u8, 0]);
        append(out, self.route);
        Ok(())
    }
}

/// Reads all of the bytes as an Unconnected_Send: the computation.
#[tactic(auto, unfolding(crate::specs::Send::send_of))]
fn send_at(bytes: &[u8]) -> Result<UnconnectedSend<'_>, LengthFault>
    ensures { Gives view result (send_of bytes.now) }
{
    if bytes.len() < SIZE_BEFORE_MESSAGE {
        return Err(LengthFault::Short);
    }
    let size = message_size(bytes);
    let route_size = SIZE_BEFORE_MESSAGE + size + size % 2;
    if bytes.len() < route_size + SIZE_BEFORE_ROUTE {
        return Err(LengthFault::Short);
    }
    // The size of the route is in words, and a reserved byte follows it.
    let expected = route_size + SIZE_BEFORE_ROUTE + 2 * usize::from(bytes[route_size]);
    if bytes.len() < expected {
        return Err(LengthFault::Short);
    }
    if expected < bytes.len() {
        return Err(LengthFault::Long);
    }
    Ok(fields_at(bytes, size))
}

/// The size of the message, which is written before it.
fn message_size(bytes: &[u8]) -> usize
    requires { 4 ≤ length bytes.now }
    ensures size { result ≡ number_at 2 2 bytes.now }
    ensures small { result < 2 ^ 16 }
{
    usize::from(LittleEndian::read_u16(&bytes[2..]))
}

/// Reads each field at its offset, with a message of this size.
#[tactic(auto, unfolding(crate::specs::Send::send_fields))]
fn fields_at(bytes: &[u8], size: usize) -> UnconnectedSend<'_>
    requires size { size ≡ number_at 2 2 bytes.now }
    requires whole { route_size_at bytes.now + 2 ≤ length bytes.now }
    ensures { view result ≡ send_fields bytes.now }
{
    let message_end = SIZE_BEFORE_MESSAGE + size;
    let route_start = message_end + size % 2 + SIZE_BEFORE_ROUTE;
    UnconnectedSend {
        priority_and_tick_time: bytes[0],
        timeout_ticks: bytes[1],
        message: &bytes[SIZE_BEFORE_MESSAGE..message_end],
        route: &bytes[route_start..],
    }
}
