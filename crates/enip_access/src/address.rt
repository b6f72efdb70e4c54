//! An address as a number.
//! Text: docs/PROGRAM.md, "Who may read, who may write".

ghost use Rattle.std.specs.Prelude.{◌≡◌};
ghost use Rattle.enip_access.specs.Address.{number_of, address_of, address_in};

use std::net::{IpAddr, Ipv6Addr};

/// The number of `::ffff:0.0.0.0`, the IPv4-mapped address of 0.0.0.0.
const MAPPED: u128 = 0xffff_0000_0000;

/// The address as a number of 128 bits. An IPv4 address has the number of its IPv4-mapped IPv6 address, so both count as
/// the same address.
///
/// ```
/// address_number(IpAddr::V4(Ipv4Addr::LOCALHOST)) // 0xffff_7f00_0001, as `::ffff:127.0.0.1` has
/// address_number(IpAddr::V6(Ipv6Addr::LOCALHOST)) // 1
/// ```
pub fn address_number(address: IpAddr) -> u128
    ensures { result ≡ number_of address }
{
    match address {
        IpAddr::V4(address) => MAPPED + u128::from(address.to_bits()),
        IpAddr::V6(address) => address.to_bits(),
    }
}

/// The address that a text is, if it is one: an IPv4 address, such as `10.0.0.5`, or an IPv6 address, such as `fd00::5`.
///
/// ```
/// parse_address(b"10.0.0.5") // Some(..)
/// parse_address(b"10.0.0.5:44818") // None
/// ```
pub fn parse_address(text: &[u8]) -> Option<IpAddr>
    ensures { result ≡ address_in text.now }
{
    IpAddr::parse_ascii(text).ok()
}

/// The address that has this number. If it is an IPv4-mapped one, it is the IPv4 address.
pub(crate) fn address_of(number: u128) -> IpAddr
    ensures { result ≡ address_of number }
{
    Ipv6Addr::from_bits(number).to_canonical()
}
