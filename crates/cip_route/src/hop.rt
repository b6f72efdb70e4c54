//! Port segments: the hops of a route (Volume 1, appendix on segments: port segment).
//! Text: docs/PROTOCOL.md, "Routes".
//!
//! ```text
//!  [ 000 | link is long | port or 15 ] [ size of a long link ] [ port above 14 ] [ link ] [ pad ]
//!     3         1             4                  8                   16
//! ```

ghost use Rattle.std.specs.Prelude.{◌≡◌, ◌↔◌, ℕ, ◌+◌, ◌^◌, ◌<◌, ◌≤◌, ◌++◌, ◌%◌, List, length, IsOk, OnOk, OnErr, Ok};
ghost use Rattle.std.specs.Prelude.{IfOk};
ghost use Rattle.arrayvec.specs.ArrayVec.{array_vec_len};
ghost use Rattle.cip_bytes.specs.Numbers.{AreBytes};
ghost use Rattle.cip_bytes.specs.Reading.{Gives};
ghost use Rattle.cip_route.specs.Hop.{Hop, IsHop, IsHopFirst, hop_bytes, hop_fields, view, hop_fault_number, port_bits};
ghost use Rattle.cip_route.specs.Hop.{is_long};
ghost use Rattle.cip_route.specs.HopReading.{port_of, extended_port_of, link_of, one_of, short_hop_of, long_hop_of};
ghost use Rattle.cip_route.specs.HopReading.{hop_of, first_view, unpadded};

use arrayvec::ArrayVec;
use byteorder::{ByteOrder, LittleEndian};
use cip_bytes::{Full, append, append_u8, append_u16};
use thiserror::Error;

/// A hop of a route, lent from the bytes that spell it.
///
/// ```
/// let (hop, rest) = read_hop(&[0x01, 0x05])?;
/// assert_eq!(rt; hop, HopView { port: 1, link: &[5] });
/// ```
#[derive(Clone, Copy, Debug, PartialEq, Eq)]
pub struct HopView<'a> {
    /// The port by which the router passes the message on, 1 to 65,535. Port 1 is mostly a backplane.
    pub port: u16,
    /// The link address of the next node behind the port, 1 to 255 bytes: on a backplane the number of a slot, on an IP
    /// network the text of an address.
    pub link: &'a [u8],
}

/// Why bytes do not begin with a port segment: the first fault from the left.
#[derive(Clone, Copy, Debug, PartialEq, Eq, Error)]
pub enum HopFault {
    /// The first byte begins another kind of segment.
    #[error("not a port segment")]
    Kind = 1,
    /// The port is 0, or a port up to 14 is written in two bytes.
    #[error("not a port")]
    Port = 2,
    /// The size of a link address is written, and is less than 2.
    #[error("not the size of a link address")]
    Size = 3,
    /// The pad byte is not 0.
    #[error("the pad byte is not 0")]
    Pad = 4,
    /// The bytes end within the segment.
    #[error("cut within a port segment")]
    Cut = 5,
}

impl HopFault {
    /// The fault's number, as printed.
    pub fn number(self) -> u8
        ensures { result ≡ hop_fault_number self }
    {
        self as u8
    }
}

/// The lowest first byte of another kind of segment: bits 7 to 5 are the segment type.
const OTHER_KIND: u8 = 0x20;

/// Bit 4 of the first byte: the link address is more than one byte.
const LONG_LINK: u8 = 0x10;

/// The port in the first byte if the port is above 14.
const EXTENDED_PORT: u8 = 15;

/// Reads the hop at the front of the bytes. Returns it with the rest. The link address is lent from the bytes.
pub fn read_hop(bytes: &[u8]) -> Result<(HopView<'_>, &[u8]), HopFault>
    // A hop is read if and only if the bytes begin with its spelling.
    ensures hop { (h : Hop) (rest : List ℕ) → Gives first_view result (Ok (h, rest)) ↔ IsHopFirst h rest bytes.now }
    ensures exact { Gives first_view result (hop_of bytes.now) }
    ensures shorter { IfOk result (λ x. length x.1.now < length bytes.now) }
{
    hop_at(bytes)
}

/// Reads the hop at the front of the bytes: the computation.
#[tactic(auto, unfolding(crate::specs::HopReading::hop_of))]
fn hop_at(bytes: &[u8]) -> Result<(HopView<'_>, &[u8]), HopFault>
    ensures { Gives first_view result (hop_of bytes.now) }
{
    let [first, rest @ ..] = bytes else {
        return Err(HopFault::Cut);
    };
    if *first >= OTHER_KIND {
        return Err(HopFault::Kind);
    }
    if *first < LONG_LINK {
        short_hop(*first, rest)
    } else {
        long_hop(*first - LONG_LINK, rest)
    }
}

/// Reads a hop whose link address is one byte, after its first byte.
#[tactic(auto, unfolding(crate::specs::HopReading::short_hop_of))]
fn short_hop(bits: u8, bytes: &[u8]) -> Result<(HopView<'_>, &[u8]), HopFault>
    ensures { Gives first_view result (short_hop_of bits bytes.now) }
{
    let (port, rest) = port(bits, bytes)?;
    let (link, rest) = one_byte(rest)?;
    Ok((HopView { port, link }, rest))
}

/// Reads a hop whose link address is longer, after its first byte.
#[tactic(auto, unfolding(crate::specs::HopReading::long_hop_of))]
fn long_hop(bits: u8, bytes: &[u8]) -> Result<(HopView<'_>, &[u8]), HopFault>
    ensures { Gives first_view result (long_hop_of bits bytes.now) }
{
    let [size, rest @ ..] = bytes else {
        return Err(HopFault::Cut);
    };
    if *size < 2 {
        return Err(HopFault::Size);
    }
    let (port, rest) = port(bits, rest)?;
    let (link, rest) = link(usize::from(*size), rest)?;
    Ok((HopView { port, link }, rest))
}

/// The port by the four bits of the first byte, with the bytes after it.
#[tactic(auto, unfolding(crate::specs::HopReading::port_of))]
fn port(bits: u8, bytes: &[u8]) -> Result<(u16, &[u8]), HopFault>
    ensures { Gives (λ x. (x.0, x.1.now)) result (port_of bits bytes.now) }
{
    if bits == 0 {
        return Err(HopFault::Port);
    }
    if bits < EXTENDED_PORT {
        return Ok((u16::from(bits), bytes));
    }
    extended_port(bytes)
}

/// The port in the two bytes at the front, with the rest.
fn extended_port(bytes: &[u8]) -> Result<(u16, &[u8]), HopFault>
    ensures { Gives (λ x. (x.0, x.1.now)) result (extended_port_of bytes.now) }
{
    if bytes.len() < 2 {
        return Err(HopFault::Cut);
    }
    let port = LittleEndian::read_u16(bytes);
    // A port up to 14 is in the first byte.
    if port < u16::from(EXTENDED_PORT) {
        return Err(HopFault::Port);
    }
    Ok((port, &bytes[2..]))
}

/// The link address of one byte, with the rest.
fn one_byte(bytes: &[u8]) -> Result<(&[u8], &[u8]), HopFault>
    ensures { Gives (λ x. (x.0.now, x.1.now)) result (one_of bytes.now) }
{
    if bytes.is_empty() {
        return Err(HopFault::Cut);
    }
    Ok((&bytes[..1], &bytes[1..]))
}

/// The link address of this size, with what follows its pad byte.
#[tactic(auto, unfolding(crate::specs::HopReading::link_of))]
fn link(size: usize, bytes: &[u8]) -> Result<(&[u8], &[u8]), HopFault>
    ensures { Gives (λ x. (x.0.now, x.1.now)) result (link_of size bytes.now) }
{
    if bytes.len() < size {
        return Err(HopFault::Cut);
    }
    let link = &bytes[..size];
    let rest = &bytes[size..];
    if size % 2 == 0 {
        return Ok((link, rest));
    }
    unpadded(link, rest)
}

/// The link address, with what follows the pad byte at the front of these bytes.
fn unpadded<'a>(link: &'a [u8], bytes: &'a [u8]) -> Result<(&'a [u8], &'a [u8]), HopFault>
    ensures { Gives (λ x. (x.0.now, x.1.now)) result (unpadded link.now bytes.now) }
{
    match bytes {
        [] => Err(HopFault::Cut),
        [0, rest @ ..] => Ok((link, rest)),
        _ => Err(HopFault::Pad),
    }
}

impl HopView<'_> {
    /// Appends the hop. The port must not be 0, and the link address must be 1 to 255 bytes.
    ///
    /// # Errors
    ///
    /// `Full` if the hop does not fit. Then nothing is written.
    #[tactic(auto, unfolding(crate::specs::Hop::hop_bytes))]
    pub fn write<const N: usize>(&self, out: &mut ArrayVec<u8, N>) -> Result<(), Full>
        requires port { 1 ≤ self.now.port }
        requires some { 1 ≤ length self.now.link.now }
        requires counted { length self.now.link.now < 2 ^ 8 }
        ensures fits { IsOk result ↔ (array_vec_len out.old + length (hop_bytes (view self.now)) ≤ N) }
        ensures ok { OnOk result (out.new.items ≡ out.old.items ++ hop_bytes (view self.now)) }
        ensures spelled { OnOk result (IsHop (view self.now)) }
        ensures err { OnErr result (out.new ≡ out.old) }
    {
        let size = self.fields_size();
        if out.remaining_capacity() < size + size % 2 {
            return Err(Full);
        }
        self.append_fields(out);
        if size % 2 == 1 {
            append_u8(out, 0);
        }
        Ok(())
    }

    /// How many bytes come before a pad byte.
    fn fields_size(&self) -> usize
        requires { length self.now.link.now < 2 ^ 8 }
        ensures size { result ≡ length (hop_fields (view self.now)) }
        ensures small { result < 300 }
    {
        let size = if self.link.len() > 1 { 2 } else { 1 };
        let port = if self.port < u16::from(EXTENDED_PORT) {
            0
        } else {
            2
        };
        size + port + self.link.len()
    }

    /// The port in the first byte.
    fn port_bits(&self) -> u8
        ensures bits { result ≡ port_bits self.now.port }
        ensures small { result < 16 }
    {
        if self.port < u16::from(EXTENDED_PORT) {
            self.port as u8
        } else {
            EXTENDED_PORT
        }
    }

    /// Appends the fields up to the pad byte.
    fn append_fields<const N: usize>(&self, out: &mut ArrayVec<u8, N>)
        requires counted { length self.now.link.now < 2 ^ 8 }
        requires capacity { array_vec_len out.old + length (hop_fields (view self.now)) ≤ N }
        ensures text { out.new.items ≡ out.old.items ++ hop_fields (view self.now) }
        ensures port { self.now.port < 2 ^ 16 }
        ensures bytes { AreBytes self.now.link.now }
    {
        if self.link.len() > 1 {
            append(out, &[LONG_LINK + self.port_bits(), self.link.len() as u8]);
        } else {
            append_u8(out, self.port_bits());
        }
        if self.port >= u16::from(EXTENDED_PORT) {
            append_u16(out, self.port);
        }
        append(out, self.link);
    }
}
