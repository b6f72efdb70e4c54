//! Bytes that are not values of a type.

use super::type_of;
use cip_values::{ValueFault, read_values};
use std::test::Fail;

/// A type, bytes, and why they are not values of the type.
type Broken = (
    &'static str,
    &'static [u8],
    ValueFault<'static>,
    &'static str,
);

static BROKEN: [Broken; 30] = [
    (
        "BOOL",
        &[2],
        ValueFault::NotBool(2),
        "2 is not a BOOL (0 or 1)",
    ),
    (
        "BOOL",
        &[],
        ValueFault::Short,
        "the data end within a value",
    ),
    (
        "BOOL[]",
        &[1, 0xff],
        ValueFault::NotBool(255),
        "255 is not a BOOL (0 or 1)",
    ),
    (
        "SINT",
        &[],
        ValueFault::Short,
        "the data end within a value",
    ),
    (
        "INT",
        &[1],
        ValueFault::Short,
        "the data end within a value",
    ),
    (
        "LINT",
        &[1, 2, 3, 4, 5, 6, 7],
        ValueFault::Short,
        "the data end within a value",
    ),
    (
        "REAL",
        &[1, 2, 3],
        ValueFault::Short,
        "the data end within a value",
    ),
    (
        "USINT",
        &[1, 2, 3, 4],
        ValueFault::Trailing(3),
        "3 bytes are left over",
    ),
    (
        "UINT",
        &[1, 2, 3],
        ValueFault::Trailing(1),
        "1 byte is left over",
    ),
    (
        "UINT[]",
        &[1, 2, 3],
        ValueFault::Short,
        "the data end within a value",
    ),
    (
        "LREAL",
        &[1, 2, 3, 4, 5, 6, 7],
        ValueFault::Short,
        "the data end within a value",
    ),
    (
        "STRING",
        &[1],
        ValueFault::Short,
        "the data end within a value",
    ),
    (
        "STRING",
        &[2, 0, 97],
        ValueFault::Short,
        "the data end within a value",
    ),
    (
        "STRING",
        &[1, 0, 97, 98],
        ValueFault::Trailing(1),
        "1 byte is left over",
    ),
    (
        "STRING2",
        &[1],
        ValueFault::Short,
        "the data end within a value",
    ),
    (
        "STRING2",
        &[2, 0, 97, 0, 98],
        ValueFault::Short,
        "the data end within a value",
    ),
    (
        "STRING2",
        &[1, 0, 97, 0, 98],
        ValueFault::Trailing(1),
        "1 byte is left over",
    ),
    (
        "EPATH",
        &[],
        ValueFault::Short,
        "the data end within a value",
    ),
    (
        "EPATH",
        &[1, 32],
        ValueFault::Short,
        "the data end within a value",
    ),
    (
        "EPATH",
        &[1, 32, 4, 36],
        ValueFault::Trailing(1),
        "1 byte is left over",
    ),
    (
        "DATE",
        &[1],
        ValueFault::Short,
        "the data end within a value",
    ),
    (
        "TIME_OF_DAY",
        &[1, 2, 3],
        ValueFault::Short,
        "the data end within a value",
    ),
    (
        "DATE_AND_TIME",
        &[1, 2, 3, 4, 5],
        ValueFault::Short,
        "the data end within a value",
    ),
    (
        "TIME",
        &[1, 2, 3],
        ValueFault::Short,
        "the data end within a value",
    ),
    (
        "LTIME",
        &[1, 2, 3, 4, 5, 6, 7],
        ValueFault::Short,
        "the data end within a value",
    ),
    (
        "DATE_AND_TIME[]",
        &[1, 2, 3, 4, 5, 6, 7],
        ValueFault::Short,
        "the data end within a value",
    ),
    (
        "SHORT_STRING",
        &[],
        ValueFault::Short,
        "the data end within a value",
    ),
    (
        "SHORT_STRING",
        &[3, b'a', b'b'],
        ValueFault::Short,
        "the data end within a value",
    ),
    (
        "SHORT_STRING",
        &[1, b'a', b'b'],
        ValueFault::Trailing(1),
        "1 byte is left over",
    ),
    (
        "SHORT_STRING[]",
        &[1, b'a', 1],
        ValueFault::Short,
        "the data end within a value",
    ),
];

#[test]
fn refused_bytes(rt: HostRuntime) -> Result<(), Fail> {
    for (name, bytes, wanted, why) in BROKEN {
        let Err(fault) = read_values(rt.alloc(), type_of(name)?, bytes) else {
            return Err("the bytes are read")?;
        };
        assert!(rt; fault == wanted, "{name}: {why}");
        let text = format!(in rt.alloc(); "{fault}")?;
        assert!(rt;
            text.as_str() == why,
            "{name}: {why}, and not {}",
            text.as_str()
        );
    }
    Ok(())
}
