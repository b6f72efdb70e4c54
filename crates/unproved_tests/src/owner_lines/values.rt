//! The bytes of values in a line.

use cip_values::ValueType;
use enip_owner::{GivenValue, values_as_bytes};
use std::alloc::Global;
use std::test::Fail;

/// The bytes of values of a type in hexadecimal, or why they are refused.
fn told(alloc: Global, name: &str, values: &[GivenValue<'_>]) -> Result<String, Fail> {
    let value_type = ValueType::from_name(name).ok_or("no type")?;
    match values_as_bytes(alloc, value_type, values) {
        Ok(bytes) => Ok(hex::encode(alloc, bytes.as_slice())?),
        Err(fault) => Ok(format!(in alloc; "{fault}")?),
    }
}

const KIND: &str = "values: a value of another kind than the attribute's type";

const RANGE: &str = "values: not a value of the attribute's type";

const COUNT: &str = "values: expected one value";

/// Types, values, and their bytes.
static ROWS: [(&str, &[GivenValue<'static>], &str); 44] = [
    ("UINT", &[GivenValue::Number("1500")], "dc05"),
    ("UINT", &[GivenValue::Number("65535")], "ffff"),
    ("UINT", &[GivenValue::Number("65536")], RANGE),
    ("UINT", &[GivenValue::Number("-1")], RANGE),
    ("UINT", &[GivenValue::Number("1.5")], RANGE),
    ("UINT", &[GivenValue::Number("1e2")], RANGE),
    ("UINT", &[GivenValue::Text("1500")], KIND),
    ("UINT", &[GivenValue::Truth(true)], KIND),
    ("UINT", &[], COUNT),
    (
        "UINT",
        &[GivenValue::Number("1"), GivenValue::Number("2")],
        COUNT,
    ),
    (
        "UINT[]",
        &[GivenValue::Number("1"), GivenValue::Number("2")],
        "01000200",
    ),
    ("UINT[]", &[], ""),
    (
        "UINT[]",
        &[GivenValue::Number("1"), GivenValue::Number("65536")],
        RANGE,
    ),
    (
        "UINT[]",
        &[GivenValue::Number("1"), GivenValue::Truth(true)],
        KIND,
    ),
    ("SINT", &[GivenValue::Number("-128")], "80"),
    ("SINT", &[GivenValue::Number("-129")], RANGE),
    ("DINT", &[GivenValue::Number("-2")], "feffffff"),
    (
        "ULINT",
        &[GivenValue::Number("18446744073709551615")],
        "ffffffffffffffff",
    ),
    ("LWORD", &[GivenValue::Number("1")], "0100000000000000"),
    ("WORD", &[GivenValue::Number("4660")], "3412"),
    ("TIME", &[GivenValue::Number("1500")], "dc050000"),
    ("LTIME", &[GivenValue::Number("-1")], "ffffffffffffffff"),
    ("BOOL", &[GivenValue::Truth(true)], "01"),
    ("BOOL", &[GivenValue::Truth(false)], "00"),
    ("BOOL", &[GivenValue::Number("1")], KIND),
    ("BOOL", &[GivenValue::Text("true")], KIND),
    (
        "BOOL[]",
        &[GivenValue::Truth(true), GivenValue::Truth(false)],
        "0100",
    ),
    ("REAL", &[GivenValue::Number("1.5")], "0000c03f"),
    ("REAL", &[GivenValue::Number("-2")], "000000c0"),
    ("REAL", &[GivenValue::Number("1e39")], RANGE),
    ("REAL", &[GivenValue::Text("inf")], "0000807f"),
    ("REAL", &[GivenValue::Text("x")], RANGE),
    ("REAL", &[GivenValue::Truth(true)], KIND),
    ("LREAL", &[GivenValue::Number("1e39")], "1d4a9cf487820748"),
    ("SHORT_STRING", &[GivenValue::Text("hi")], "026869"),
    ("SHORT_STRING", &[GivenValue::Text("")], "00"),
    ("SHORT_STRING", &[GivenValue::Text("a\\b\"")], "04615c6222"),
    (
        "SHORT_STRING",
        &[GivenValue::Text("\u{e9}\u{ff}\u{80}")],
        "03e9ff80",
    ),
    ("SHORT_STRING", &[GivenValue::Text("\u{100}")], KIND),
    ("SHORT_STRING", &[GivenValue::Text("a\u{20ac}")], KIND),
    ("SHORT_STRING", &[GivenValue::Number("5")], KIND),
    ("DATE", &[GivenValue::Text("1972-01-02")], "0100"),
    ("DATE", &[GivenValue::Number("1")], KIND),
    ("EPATH", &[GivenValue::Text("2004")], "012004"),
];

#[test]
fn values_to_bytes(rt: HostRuntime) -> Result<(), Fail> {
    for (name, values, wanted) in &ROWS {
        let got = told(rt.alloc(), name, values)?;
        assert!(rt;
            got.as_str() == *wanted,
            "{name}: {} and not {wanted}",
            got.as_str()
        );
    }
    Ok(())
}

/// A SHORT_STRING has at most 255 characters.
#[test]
fn longest_string(rt: HostRuntime) -> Result<(), Fail> {
    let mut text = String::new(rt.alloc());
    for _ in 0..255 {
        text.push_str("\u{e9}")?;
    }
    let longest = told(
        rt.alloc(),
        "SHORT_STRING",
        &[GivenValue::Text(text.as_str())],
    )?;
    assert!(rt; longest.as_str().starts_with("ffe9e9") && longest.as_str().len() == 512);
    text.push_str("x")?;
    let longer = told(
        rt.alloc(),
        "SHORT_STRING",
        &[GivenValue::Text(text.as_str())],
    )?;
    assert_eq!(rt; longer.as_str(), RANGE);
    Ok(())
}
