//! Rules: an address, or the addresses that share their first bits.
//! Text: docs/PROGRAM.md, "Who may read, who may write".

ghost use Rattle.std.specs.Prelude.{◌≡◌, ◌+◌, ◌-◌, ◌/◌, ◌%◌, ◌^◌, ◌<◌, ◌≤◌, ◌==◌, length, drop, IfOk};
ghost use Rattle.std.specs.List.{position_or_len};
ghost use Rattle.enip_access.specs.Prefix.{IsPrefix, prefix_in, matches, family_bits, prefix_at, number_in, counted};
ghost use Rattle.enip_access.specs.Prefix.{checked, cut, slash_in, is_digit, is_first_digit};

use crate::address::{address_number, address_of, parse_address};
use std::fmt;
use std::net::IpAddr;
use thiserror::Error;

/// How many bits an address has.
const ADDRESS_BITS: u8 = 128;

/// The addresses that share their first bits with an address.
///
/// ```
/// let prefix = Prefix::parse(b"10.0.0.0/8")?;
/// prefix.matches(address_number(IpAddr::V4(Ipv4Addr::new(10, 1, 2, 3)))) // true
/// ```
#[derive(Clone, Copy, Debug, PartialEq, Eq)]
pub struct Prefix {
    /// The first of the addresses, as a number.
    first: u128,
    /// How many of the 128 bits they share, 0 to 128. The prefix of an IPv4 address has 96 bits more than it is written
    /// with.
    bits: u8,
}

/// Why a text is not a rule: the first fault from the left.
#[derive(Clone, Copy, Debug, PartialEq, Eq, Error)]
pub enum PrefixFault {
    /// The text, or what comes before its first slash, is not an IPv4 or IPv6 address.
    #[error("not an address")]
    Address,
    /// What comes after the slash is not a decimal number without leading zeros, 0 to 32 for IPv4 or 0 to 128 for IPv6.
    #[error("a prefix has 0 to 32 bits of an IPv4 address, or 0 to 128 of an IPv6 address")]
    Length,
    /// The address has a bit after the prefix that is not 0, as `10.0.0.5/8` has. The prefix with zeros after it,
    /// `10.0.0.0/8`, is probably meant.
    #[error("the address has bits after the prefix")]
    HostBits(Prefix),
}

impl Prefix {
    /// Parses a rule: `ADDRESS`, or `ADDRESS/N` for the addresses that share their first N bits with it. The bits of the
    /// address after the first N must be 0.
    ///
    /// ```
    /// Prefix::parse(b"fd00::/8")?;
    /// Prefix::parse(b"10.0.0.5/8") // Err(PrefixFault::HostBits(..))
    /// ```
    ///
    /// # Errors
    ///
    /// The first fault from the left.
    #[tactic(auto, unfolding(crate::specs::Prefix::prefix_in))]
    pub fn parse(text: &[u8]) -> Result<Prefix, PrefixFault>
        ensures read { result ≡ prefix_in text.now }
        ensures prefix { IfOk result IsPrefix }
    {
        let slash = slash_in(text);
        let Some(address) = parse_address(&text[..slash]) else {
            return Err(PrefixFault::Address);
        };
        if slash == text.len() {
            return Ok(prefix_at(address, family_bits(address)));
        }
        counted(address, number_after(text, slash))
    }

    /// Whether the rule has this address, given as a number: whether their first bits agree.
    pub fn matches(self, address: u128) -> bool
        ensures { result ≡ matches self address }
    {
        first_bits(address, self.bits) == first_bits(self.first, self.bits)
    }
}

/// The address `::` alone, which is nobody's. A list fills its free capacity with it.
impl Default for Prefix {
    fn default() -> Prefix {
        Prefix {
            first: 0,
            bits: ADDRESS_BITS,
        }
    }
}

/// Prints the rule as `Prefix::parse` reads it: an address, with a slash and the number of bits unless it is alone.
impl fmt::Display for Prefix {
    ghost use Rattle.std.specs.Prelude.{Some};
    ghost use Rattle.enip_access.specs.Prefix.{prefix_text};

    ghost output = { λ p. Some (prefix_text p) };

    fn fmt<W: fmt::Write>(&self, f: &mut fmt::Formatter<W>) -> fmt::Result {
        let address = address_of(self.first);
        if self.bits == ADDRESS_BITS {
            return write!(f, "{address}");
        }
        let bits = written_bits(address, self.bits);
        write!(f, "{address}/{bits}")
    }
}

/// How many bits of the prefix of an address are written: 96 fewer for IPv4.
fn written_bits(address: IpAddr, bits: u8) -> u8
    ensures { result ≡ bits - (128 - family_bits address) }
{
    bits.saturating_sub(ADDRESS_BITS - family_bits(address))
}

/// How many bits an address has as it is written.
fn family_bits(address: IpAddr) -> u8
    ensures { result ≡ family_bits address }
{
    match address {
        IpAddr::V4(_) => 32,
        IpAddr::V6(_) => 128,
    }
}

/// The first bits of an address. Those before an IPv4 address count too.
fn prefix_at(address: IpAddr, bits: u8) -> Prefix
    requires { bits ≤ family_bits address }
    ensures { result ≡ prefix_at address bits }
{
    Prefix {
        first: address_number(address),
        bits: ADDRESS_BITS - family_bits(address) + bits,
    }
}

/// The prefix of an address with the number after the slash.
fn counted(address: IpAddr, number: Option<u16>) -> Result<Prefix, PrefixFault>
    ensures read { result ≡ counted address number }
    ensures prefix { IfOk result IsPrefix }
{
    match number {
        Some(number) if number <= u16::from(family_bits(address)) => {
            checked(prefix_at(address, number as u8))
        }
        _ => Err(PrefixFault::Length),
    }
}

/// Refuses a prefix with bits after it.
fn checked(prefix: Prefix) -> Result<Prefix, PrefixFault>
    requires { prefix.bits ≤ 128 }
    ensures checked { result ≡ checked prefix }
    ensures prefix { IfOk result IsPrefix }
{
    let after = last_bits(prefix.first, prefix.bits);
    if after == 0 {
        return Ok(prefix);
    }
    Err(PrefixFault::HostBits(Prefix {
        first: prefix.first - after,
        bits: prefix.bits,
    }))
}

/// The first bits of an address, as a number.
fn first_bits(address: u128, bits: u8) -> u128
    ensures { result ≡ address / 2 ^ (128 - bits) }
{
    if bits == 0 {
        return 0;
    }
    address / block_size(bits)
}

/// The bits of an address after the first ones, as a number.
fn last_bits(address: u128, bits: u8) -> u128
    ensures value { result ≡ address % 2 ^ (128 - bits) }
    ensures within { result ≤ address }
{
    if bits == 0 {
        return address;
    }
    address % block_size(bits)
}

/// How many addresses share this many first bits.
fn block_size(bits: u8) -> u128
    requires { 0 < bits }
    ensures value { result ≡ 2 ^ (128 - bits) }
    ensures some { 0 < result }
{
    1u128 << u32::from(ADDRESS_BITS.saturating_sub(bits))
}

/// The index of the first slash, or the length.
fn slash_in(text: &[u8]) -> usize
    ensures index { result ≡ slash_in text.now }
    ensures within { result ≤ length text.now }
{
    for (i, byte) in text.iter().enumerate() {
        if *byte == b'/' {
            return i;
        }
    }
    text.len()
}

/// The decimal number that follows the slash at an index.
fn number_after(text: &[u8], slash: usize) -> Option<u16>
    requires { slash < length text.now }
    ensures { result ≡ number_in (drop (slash + 1) text.now) }
{
    number_in(&text[slash + 1..])
}

/// The decimal number that a text is: one to three digits, without leading zeros.
fn number_in(text: &[u8]) -> Option<u16>
    ensures { result ≡ number_in text.now }
{
    match text {
        [a] if is_digit(*a) => Some(digit(*a)),
        [a, b] if is_first_digit(*a) && is_digit(*b) => Some(10 * digit(*a) + digit(*b)),
        [a, b, c] if is_first_digit(*a) && is_digit(*b) && is_digit(*c) => {
            Some(100 * digit(*a) + 10 * digit(*b) + digit(*c))
        }
        _ => None,
    }
}

/// Whether a byte is a digit.
fn is_digit(byte: u8) -> bool
    ensures { result ≡ is_digit byte }
{
    b'0' <= byte && byte <= b'9'
}

/// Whether a byte is a digit from 1 to 9.
fn is_first_digit(byte: u8) -> bool
    ensures { result ≡ is_first_digit byte }
{
    b'1' <= byte && byte <= b'9'
}

/// The number of a digit.
fn digit(byte: u8) -> u16
    requires { 48 ≤ byte }
    ensures value { result ≡ byte - 48 }
    ensures small { result < 256 }
{
    u16::from(byte - b'0')
}
