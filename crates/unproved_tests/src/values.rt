//! Values of the elementary data types as arguments, bytes and printed text. (Volume 1, data type encoding: two's
//! complement, IEEE 754 single precision, least byte first.)

mod encoded;
mod malformed;
mod read_back;
mod refused_arguments;

use crate::texts::check_texts;
use cip_values::{ElementaryType, Value, ValueFault, ValueType, read_values};
use std::test::Fail;

fn type_of(name: &str) -> Result<ValueType, Fail> {
    Ok(ValueType::from_name(name).ok_or("no type")?)
}

/// The names of the types, and some that are not.
#[test]
fn names(rt: HostRuntime) -> Result<(), Fail> {
    let names = [
        "BOOL",
        "SINT",
        "INT",
        "DINT",
        "LINT",
        "USINT",
        "UINT",
        "UDINT",
        "ULINT",
        "BYTE",
        "WORD",
        "DWORD",
        "LWORD",
        "REAL",
        "SHORT_STRING",
        "LREAL",
        "STRING",
        "STRING2",
        "EPATH",
        "DATE",
        "TIME_OF_DAY",
        "DATE_AND_TIME",
        "TIME",
        "LTIME",
    ];
    for name in names {
        let one = type_of(name)?;
        assert!(rt; !one.is_list, "{name}");
        assert_eq!(rt; one.element.name(), name);
        let list = format!(in rt.alloc(); "{name}[]")?;
        let many = type_of(list.as_str())?;
        assert!(rt; many.is_list && many.element == one.element, "{name}");
        let told = format!(in rt.alloc(); "{one} {many}")?;
        let wanted = format!(in rt.alloc(); "{name} {name}[]")?;
        assert_eq!(rt; told.as_str(), wanted.as_str());
    }
    for name in ["", "uint", "UINT ", "UINT[][]", "[]", "UINT[", "STRINGS"] {
        assert!(rt; ValueType::from_name(name).is_none(), "{name}");
    }
    assert!(rt; ElementaryType::from_name("UINT[]").is_none());
    Ok(())
}

/// The values that are read from bytes.
#[test]
fn values_read(rt: HostRuntime) -> Result<(), Fail> {
    let signed = read_values(rt.alloc(), type_of("INT[]")?, &[0xfe, 0xff, 1, 2])?;
    assert!(rt; signed.as_slice() == [Value::Signed(-2), Value::Signed(513)].as_slice());
    let text = read_values(rt.alloc(), type_of("SHORT_STRING")?, &[2, b'h', b'i'])?;
    assert!(rt; text.as_slice() == [Value::Text(b"hi")].as_slice());
    Ok(())
}

/// Each fault as text. No word is out of range for a BOOL or a SHORT_STRING: it is not of the type, or too long.
#[test]
fn texts_of_faults(rt: HostRuntime) -> Result<(), Fail> {
    let rows = [
        (ValueFault::Short, "the data end within a value"),
        (ValueFault::Trailing(1), "1 byte is left over"),
        (ValueFault::Trailing(12), "12 bytes are left over"),
        (ValueFault::NotBool(3), "3 is not a BOOL (0 or 1)"),
        (
            ValueFault::Count(ElementaryType::Dint, 2),
            "DINT takes one value, not 2",
        ),
        (
            ValueFault::Form("x", ElementaryType::Real),
            "x is not of type REAL",
        ),
        (
            ValueFault::Range("256", ElementaryType::Byte),
            "256 is out of range for BYTE (0x00 to 0xff)",
        ),
        (
            ValueFault::Range("2", ElementaryType::Bool),
            "2 is out of range for BOOL (0 to 1)",
        ),
        (
            ValueFault::Range("x", ElementaryType::ShortString),
            "x is out of range for SHORT_STRING (0 to 255 bytes)",
        ),
        (
            ValueFault::TooLong(256),
            "a SHORT_STRING has at most 255 bytes, not 256",
        ),
        (
            ValueFault::Oversized(ElementaryType::String, 65536),
            "STRING takes 0 to 65535 bytes, not 65536",
        ),
        (
            ValueFault::Oversized(ElementaryType::String2, 65536),
            "STRING2 takes 0 to 65535 characters, not 65536",
        ),
        (
            ValueFault::Oversized(ElementaryType::Epath, 256),
            "EPATH takes 0 to 255 words, not 256",
        ),
        (ValueFault::Memory, "memory"),
    ];
    check_texts(&rt, rt.alloc(), &rows)
}
