//! Rules of addresses: what is printed of one, and that it reads back. The numbers were computed by hand.

use enip_access::{Prefix, PrefixFault, address_number, parse_address};
use std::process::Abort;
use std::test::*;

/// Texts of rules, and how each is printed.
static PRINTED: [(&str, &str); 14] = [
    ("10.0.0.5", "10.0.0.5"),
    ("10.0.0.5/32", "10.0.0.5"),
    ("10.0.0.4/31", "10.0.0.4/31"),
    ("10.0.0.0/8", "10.0.0.0/8"),
    ("0.0.0.0/0", "0.0.0.0/0"),
    ("128.0.0.0/1", "128.0.0.0/1"),
    ("255.255.255.255", "255.255.255.255"),
    ("::ffff:10.0.0.0/104", "10.0.0.0/8"),
    ("::FFFF:a00:5", "10.0.0.5"),
    ("::/0", "::/0"),
    ("::/80", "::/80"),
    ("FD00:0:0::/8", "fd00::/8"),
    ("fd00::4/127", "fd00::4/127"),
    ("::1/128", "::1"),
];

/// Texts that are not rules, and why.
static REFUSED: [(&str, &str); 6] = [
    ("10.0.0.5/8", "10.0.0.0/8"),
    ("10.0.3.0/23", "10.0.2.0/23"),
    ("10.0.0.1/0", "0.0.0.0/0"),
    ("fd00::1/127", "fd00::/127"),
    ("8000::/0", "::/0"),
    ("::ffff:10.0.0.5/104", "10.0.0.0/8"),
];

/// Addresses, and their numbers.
static NUMBERS: [(&str, u128); 6] = [
    ("0.0.0.0", 0xffff_0000_0000),
    ("10.0.0.5", 0xffff_0a00_0005),
    ("::ffff:10.0.0.5", 0xffff_0a00_0005),
    ("::10.0.0.5", 0x0a00_0005),
    ("::1", 1),
    ("fd00::5", 0xfd00_0000_0000_0000_0000_0000_0000_0005),
];

#[test]
fn rules_read_back(rt: HostRuntime) -> Result<(), Fail> {
    let alloc = rt.alloc();
    for (text, printed) in &PRINTED {
        let Ok(rule) = Prefix::parse(text.as_bytes()) else {
            panic!(rt; "{text} is refused");
        };
        let got = format!(in alloc; "{rule}")?;
        assert!(rt;
            got.as_str() == *printed,
            "{text} is printed as {}",
            got.as_str()
        );
        assert!(rt;
            Prefix::parse(got.as_bytes()) == Ok(rule),
            "{text} does not read back"
        );
    }
    Ok(())
}

#[test]
fn bits_after_a_prefix(rt: HostRuntime) -> Result<(), Fail> {
    let alloc = rt.alloc();
    for (text, meant) in &REFUSED {
        let Err(PrefixFault::HostBits(prefix)) = Prefix::parse(text.as_bytes()) else {
            panic!(rt; "{text} has no bits after the prefix");
        };
        let got = format!(in alloc; "{prefix}")?;
        assert!(rt; got.as_str() == *meant, "{text} means {}", got.as_str());
    }
    Ok(())
}

#[test]
fn numbers_of_addresses(rt: HostRuntime) -> Result<(), Fail> {
    for (text, number) in &NUMBERS {
        let Some(address) = parse_address(text.as_bytes()) else {
            panic!(rt; "{text} is not an address");
        };
        assert!(rt; address_number(address) == *number, "{text}");
    }
    Ok(())
}
