//! The parameters of one direction of a connection, in either layout of an open request (Volume 1, network
//! connection parameters).
//!
//! Text: docs/PROTOCOL.md, "Router messages".

ghost use Rattle.std.specs.Prelude.{◌≡◌, ℕ, ◌+◌, ◌*◌, ◌<◌, ◌≤◌, ◌^◌, ◌++◌, length};
ghost use Rattle.arrayvec.specs.ArrayVec.{array_vec_len};
ghost use Rattle.cip_bytes.specs.Numbers.{le, number_at};
ghost use Rattle.cip_message.specs.Open.{Layout, small, large, width};
ghost use Rattle.cip_message.specs.Open.{connection_type, size_of, large_connection_type, large_size_of};

use arrayvec::ArrayVec;
use byteorder::{ByteOrder, LittleEndian};
use cip_bytes::append;

/// The parameters of one direction in a Forward_Open. (Volume 1, network connection parameters.)
#[derive(Clone, Copy, Debug, PartialEq, Eq)]
pub struct Parameters {
    /// Bit 15 is redundant owner, bits 14 and 13 the type, 11 and 10 the priority, 9 variable size, 8 to 0 the
    /// size.
    pub bits: u16,
}

impl Parameters {
    /// The connection type. 2 is point to point.
    pub fn connection_type(self) -> u8
        ensures { result ≡ connection_type self.bits }
    {
        // Bits 14 and 13 of the network connection parameters.
        (self.bits >> 13 & 3) as u8
    }

    /// The connection size: the most bytes of an item, including its sequence count.
    pub fn size(self) -> u16
        ensures { result ≡ size_of self.bits }
    {
        // Bits 8 to 0 of the network connection parameters.
        self.bits & 0x1ff
    }
}

/// The parameters of one direction in a Large_Forward_Open. (Volume 1, network connection parameters.)
#[derive(Clone, Copy, Debug, PartialEq, Eq)]
pub struct LargeParameters {
    /// Bit 31 is redundant owner, bits 30 and 29 the type, 27 and 26 the priority, 25 variable size, 15 to 0 the
    /// size.
    pub bits: u32,
}

impl LargeParameters {
    /// The connection type. 2 is point to point.
    pub fn connection_type(self) -> u8
        ensures { result ≡ large_connection_type self.bits }
    {
        // Bits 30 and 29 of the network connection parameters of a Large_Forward_Open.
        (self.bits >> 29 & 3) as u8
    }

    /// The connection size: the most bytes of an item, including its sequence count.
    pub fn size(self) -> u16
        ensures { result ≡ large_size_of self.bits }
    {
        // Bits 15 to 0 of the network connection parameters of a Large_Forward_Open.
        (self.bits & 0xffff) as u16
    }
}

/// The parameters of one direction, in one of the two layouts.
pub(crate) trait DirectionParameters: Copy {
    ghost layout: { Layout };

    ghost bits: { Self → ℕ };

    /// The size of the parameters in bytes.
    fn width() -> usize
        ensures exact { result ≡ width layout }
        ensures narrow { result ≤ 4 };

    /// Reads the parameters at the front of the bytes.
    fn read_front(bytes: &[u8]) -> Self
        requires { width layout ≤ length bytes.now }
        ensures { bits result ≡ number_at 0 (width layout) bytes.now };

    /// The parameters as a number.
    fn number(self) -> u32
        ensures exact { result ≡ bits self }
        ensures fits { result < 2 ^ (8 * width layout) };
}

impl DirectionParameters for Parameters {
    ghost layout = { small };

    ghost bits = { λ parameters. parameters.bits };

    fn width() -> usize {
        2
    }

    fn read_front(bytes: &[u8]) -> Parameters {
        Parameters {
            bits: LittleEndian::read_u16(bytes),
        }
    }

    fn number(self) -> u32 {
        u32::from(self.bits)
    }
}

impl DirectionParameters for LargeParameters {
    ghost layout = { large };

    ghost bits = { λ parameters. parameters.bits };

    fn width() -> usize {
        4
    }

    fn read_front(bytes: &[u8]) -> LargeParameters {
        LargeParameters {
            bits: LittleEndian::read_u32(bytes),
        }
    }

    fn number(self) -> u32 {
        self.bits
    }
}

/// Appends the parameters of a direction. They must fit.
pub(crate) fn append_parameters<P: DirectionParameters, const N: usize>(
    out: &mut ArrayVec<u8, N>,
    parameters: P,
)
    requires { array_vec_len out.old + width P.layout ≤ N }
    ensures text { out.new.items ≡ out.old.items ++ le (width P.layout) (P.bits parameters) }
    ensures len { array_vec_len out.new ≡ array_vec_len out.old + width P.layout }
    ensures fits { P.bits parameters < 2 ^ (8 * width P.layout) }
{
    append(out, &u32::to_le_bytes(parameters.number())[..P::width()]);
}
