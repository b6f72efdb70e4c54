//! The elementary number types, and ranges of their values (Volume 1, elementary data types).
//! Text: docs/PROTOCOL.md, "Objects".
ghost use Rattle.std.specs.Prelude.{◌≡◌, ◌≤◌, ◌<◌, ◌==◌, ◌&&◌, if◌then◌else◌, length, Some, None};
ghost use Rattle.byteorder.specs.Endian.{little_number};
ghost use Rattle.cip_application.specs.Numbers.{width_of, signed_rank, float_rank, rank, is_at_most, is_within};
ghost use Rattle.cip_application.specs.Numbers.{are_within};

use byteorder::{ByteOrder, LittleEndian};

/// An elementary type whose values are numbers.
#[derive(Clone, Copy, Debug)]
pub enum NumberType {
    /// 8 bits, unsigned.
    Usint,
    /// 16 bits, unsigned.
    Uint,
    /// 32 bits, unsigned.
    Udint,
    /// 64 bits, unsigned.
    Ulint,
    /// 8 bits, signed.
    Sint,
    /// 16 bits, signed.
    Int,
    /// 32 bits, signed.
    Dint,
    /// 64 bits, signed.
    Lint,
    /// A floating-point number of 32 bits.
    Real,
    /// A floating-point number of 64 bits.
    Lreal,
}

impl NumberType {
    /// The bytes of a value.
    pub fn width(self) -> usize
        ensures width { result ≡ width_of self }
        ensures some { 1 ≤ result }
        ensures most { result ≤ 8 }
    {
        match self {
            NumberType::Usint | NumberType::Sint => 1,
            NumberType::Uint | NumberType::Int => 2,
            NumberType::Udint | NumberType::Dint | NumberType::Real => 4,
            NumberType::Ulint | NumberType::Lint | NumberType::Lreal => 8,
        }
    }

    /// A number that rises with the value of these bits. NaN has none.
    fn rank(self, bits: u64) -> Option<u64>
        ensures { result ≡ rank self bits }
    {
        match self {
            NumberType::Usint | NumberType::Uint | NumberType::Udint | NumberType::Ulint => Some(
                bits,
            ),
            NumberType::Sint => Some(signed_rank(0x80, bits)),
            NumberType::Int => Some(signed_rank(0x8000, bits)),
            NumberType::Dint => Some(signed_rank(0x8000_0000, bits)),
            NumberType::Lint => Some(signed_rank(0x8000_0000_0000_0000, bits)),
            NumberType::Real => float_rank(0x8000_0000, 0x7f80_0000, bits),
            NumberType::Lreal => float_rank(0x8000_0000_0000_0000, 0x7ff0_0000_0000_0000, bits),
        }
    }

    /// Whether the value of bits `a` is at most that of bits `b`. NaN compares with nothing.
    #[tactic(auto, unfolding(crate::specs::Numbers::is_at_most))]
    fn is_at_most(self, a: u64, b: u64) -> bool
        ensures { result ≡ is_at_most self a b }
    {
        match (self.rank(a), self.rank(b)) {
            (Some(a), Some(b)) => a <= b,
            _ => false,
        }
    }
}

/// The rank of a number in two's complement, whose bits from `half` on are negative.
fn signed_rank(half: u64, bits: u64) -> u64
    requires { half ≤ 0x8000_0000_0000_0000 }
    ensures { result ≡ signed_rank half bits }
{
    if bits < half {
        half + bits
    } else {
        bits - half
    }
}

/// The rank of a floating-point number, whose bits from `half` on are negative.
fn float_rank(half: u64, infinity: u64, bits: u64) -> Option<u64>
    requires half { half ≤ 0x8000_0000_0000_0000 }
    requires infinity { infinity < half }
    ensures { result ≡ float_rank half infinity bits }
{
    let is_negative = bits >= half;
    let magnitude = if is_negative { bits - half } else { bits };
    // Beyond infinity is NaN.
    if magnitude > infinity {
        return None;
    }
    Some(if is_negative {
        half - magnitude
    } else {
        half + magnitude
    })
}

/// The values from `least` to `greatest`, as bits, both included.
///
/// ```
/// let speeds = NumberRange { number: NumberType::Uint, least: 0, greatest: 3_000 };
/// ```
#[derive(Clone, Copy, Debug)]
pub struct NumberRange {
    /// The type of the values.
    pub number: NumberType,
    /// The bits of the least value.
    pub least: u64,
    /// The bits of the greatest value.
    pub greatest: u64,
}

impl NumberRange {
    /// The range whose bounds are spelled by these bytes, or `None` if one has not the size of the type.
    pub fn from_bytes(number: NumberType, least: &[u8], greatest: &[u8]) -> Option<NumberRange>
        ensures { result
            ≡ (if (length least.now == width_of number) && (length greatest.now == width_of number) then
            Some (record {
              number = number;
              least = little_number (width_of number) least.now;
              greatest = little_number (width_of number) greatest.now;
            }) else None) }
    {
        let width = number.width();
        if least.len() != width || greatest.len() != width {
            return None;
        }
        Some(NumberRange {
            number,
            least: LittleEndian::read_uint(least, width),
            greatest: LittleEndian::read_uint(greatest, width),
        })
    }

    /// Whether the range has a value: its bounds are numbers that rise.
    pub(crate) fn is_rising(&self) -> bool
        ensures { result ≡ is_at_most self.now.number self.now.least self.now.greatest }
    {
        self.number.is_at_most(self.least, self.greatest)
    }

    /// Whether the value of these bits lies within the range.
    fn contains(&self, bits: u64) -> bool
        ensures { result ≡ is_within self.now bits }
    {
        self.number.is_at_most(self.least, bits) && self.number.is_at_most(bits, self.greatest)
    }

    /// Whether every number of these bytes lies within the range.
    pub(crate) fn contains_all(&self, bytes: &[u8]) -> bool
        ensures { result ≡ are_within self.now bytes.now }
    {
        let width = self.number.width();
        let mut rest = bytes;
        while rest.len() >= width {
            if !self.contains(LittleEndian::read_uint(rest, width)) {
                return false;
            }
            rest = rest.split_at(width).1;
        }
        true
    }
}
