//! Arguments, their bytes, and what is printed for these.

use super::type_of;
use cip_values::{ValuesText, read_values, write_values};
use std::alloc::Global;
use std::process::Abort;
use std::test::Fail;

/// A type, values as arguments, their bytes, and the printed text.
type Row = (
    &'static str,
    &'static [&'static str],
    &'static [u8],
    &'static str,
);

/// Asserts what is printed for bytes.
fn check_read(
    rt: &impl Abort,
    alloc: Global,
    name: &str,
    bytes: &[u8],
    text: &str,
) -> Result<(), Fail> {
    let value_type = type_of(name)?;
    let values = read_values(alloc, value_type, bytes)?;
    let values = values.as_slice();
    let printed = format!(in alloc; "{}", ValuesText { value_type, values })?;
    assert!(rt;
        printed.as_str() == text,
        "{name}: {text} is {}",
        printed.as_str()
    );
    Ok(())
}

/// Asserts the bytes of the arguments, and what is printed for these bytes.
fn check(rt: &impl Abort, alloc: Global, row: Row) -> Result<(), Fail> {
    let (name, words, bytes, text) = row;
    let written = write_values(alloc, type_of(name)?, words)?;
    assert!(rt; written.as_slice() == bytes, "{name}: {text}");
    check_read(rt, alloc, name, bytes, text)
}

/// The least and the greatest value of each type, and others.
static ROWS: [Row; 100] = [
    ("BOOL", &["0"], &[0], "0"),
    ("BOOL", &["1"], &[1], "1"),
    ("BOOL", &["false"], &[0], "0"),
    ("BOOL", &["true"], &[1], "1"),
    ("SINT", &["-128"], &[0x80], "-128"),
    ("SINT", &["-1"], &[0xff], "-1"),
    ("SINT", &["127"], &[0x7f], "127"),
    ("INT", &["-32768"], &[0x00, 0x80], "-32768"),
    ("INT", &["-2"], &[0xfe, 0xff], "-2"),
    ("INT", &["32767"], &[0xff, 0x7f], "32767"),
    ("DINT", &["-2147483648"], &[0, 0, 0, 0x80], "-2147483648"),
    ("DINT", &["16909060"], &[4, 3, 2, 1], "16909060"),
    (
        "DINT",
        &["2147483647"],
        &[0xff, 0xff, 0xff, 0x7f],
        "2147483647",
    ),
    (
        "LINT",
        &["-9223372036854775808"],
        &[0, 0, 0, 0, 0, 0, 0, 0x80],
        "-9223372036854775808",
    ),
    (
        "LINT",
        &["-2"],
        &[0xfe, 0xff, 0xff, 0xff, 0xff, 0xff, 0xff, 0xff],
        "-2",
    ),
    (
        "LINT",
        &["9223372036854775807"],
        &[0xff, 0xff, 0xff, 0xff, 0xff, 0xff, 0xff, 0x7f],
        "9223372036854775807",
    ),
    ("USINT", &["0"], &[0], "0"),
    ("USINT", &["-0"], &[0], "0"),
    ("USINT", &["255"], &[0xff], "255"),
    ("UINT", &["0"], &[0, 0], "0"),
    ("UINT", &["00513"], &[1, 2], "513"),
    ("UINT", &["65535"], &[0xff, 0xff], "65535"),
    ("UDINT", &["0"], &[0, 0, 0, 0], "0"),
    (
        "UDINT",
        &["4294967295"],
        &[0xff, 0xff, 0xff, 0xff],
        "4294967295",
    ),
    ("ULINT", &["0"], &[0, 0, 0, 0, 0, 0, 0, 0], "0"),
    (
        "ULINT",
        &["18446744073709551615"],
        &[0xff, 0xff, 0xff, 0xff, 0xff, 0xff, 0xff, 0xff],
        "18446744073709551615",
    ),
    (
        "ULINT",
        &["0x0102030405060708"],
        &[8, 7, 6, 5, 4, 3, 2, 1],
        "72623859790382856",
    ),
    (
        "ULINT",
        &["0xFFFFFFFFFFFFFFFF"],
        &[0xff, 0xff, 0xff, 0xff, 0xff, 0xff, 0xff, 0xff],
        "18446744073709551615",
    ),
    ("ULINT", &["0x0"], &[0, 0, 0, 0, 0, 0, 0, 0], "0"),
    ("BYTE", &["0x0f"], &[0x0f], "0x0f"),
    ("BYTE", &["15"], &[0x0f], "0x0f"),
    ("BYTE", &["0xFF"], &[0xff], "0xff"),
    ("WORD", &["0x102"], &[2, 1], "0x0102"),
    ("WORD", &["0xffff"], &[0xff, 0xff], "0xffff"),
    ("DWORD", &["0x01020304"], &[4, 3, 2, 1], "0x01020304"),
    (
        "DWORD",
        &["0xffffffff"],
        &[0xff, 0xff, 0xff, 0xff],
        "0xffffffff",
    ),
    (
        "LWORD",
        &["0x0102030405060708"],
        &[8, 7, 6, 5, 4, 3, 2, 1],
        "0x0102030405060708",
    ),
    (
        "LWORD",
        &["0xffffffffffffffff"],
        &[0xff, 0xff, 0xff, 0xff, 0xff, 0xff, 0xff, 0xff],
        "0xffffffffffffffff",
    ),
    ("REAL", &["1"], &[0, 0, 0x80, 0x3f], "1.0"),
    ("REAL", &["-0.15625"], &[0, 0, 0x20, 0xbe], "-0.15625"),
    ("REAL", &["0.1"], &[0xcd, 0xcc, 0xcc, 0x3d], "0.1"),
    (
        "REAL",
        &["3.4028235e38"],
        &[0xff, 0xff, 0x7f, 0x7f],
        "3.4028235e38",
    ),
    ("REAL", &["1e-45"], &[1, 0, 0, 0], "1e-45"),
    ("REAL", &["-inf"], &[0, 0, 0x80, 0xff], "-inf"),
    ("REAL", &["NaN"], &[0, 0, 0xc0, 0x7f], "NaN"),
    ("SHORT_STRING", &["Demo"], b"\x04Demo", "Demo"),
    ("SHORT_STRING", &[""], &[0], ""),
    (
        "SHORT_STRING",
        &["a \"b\" \\\\ \\x00\\x7f\\xff"],
        b"\x0ba \"b\" \\ \x00\x7f\xff",
        "a \"b\" \\\\ \\x00\\x7f\\xff",
    ),
    ("UINT[]", &["1", "513"], &[1, 0, 1, 2], "1 513"),
    ("UINT[]", &["1"], &[1, 0], "1"),
    ("SINT[]", &[], &[], ""),
    ("BOOL[]", &["1", "false"], &[1, 0], "1 0"),
    (
        "LREAL",
        &["1"],
        &[0x00, 0x00, 0x00, 0x00, 0x00, 0x00, 0xf0, 0x3f],
        "1.0",
    ),
    (
        "LREAL",
        &["0.1"],
        &[0x9a, 0x99, 0x99, 0x99, 0x99, 0x99, 0xb9, 0x3f],
        "0.1",
    ),
    (
        "LREAL",
        &["-0.15625"],
        &[0x00, 0x00, 0x00, 0x00, 0x00, 0x00, 0xc4, 0xbf],
        "-0.15625",
    ),
    (
        "LREAL",
        &["1.7976931348623157e308"],
        &[0xff, 0xff, 0xff, 0xff, 0xff, 0xff, 0xef, 0x7f],
        "1.7976931348623157e308",
    ),
    (
        "LREAL",
        &["5e-324"],
        &[0x01, 0x00, 0x00, 0x00, 0x00, 0x00, 0x00, 0x00],
        "5e-324",
    ),
    (
        "LREAL",
        &["-inf"],
        &[0x00, 0x00, 0x00, 0x00, 0x00, 0x00, 0xf0, 0xff],
        "-inf",
    ),
    (
        "LREAL",
        &["NaN"],
        &[0x00, 0x00, 0x00, 0x00, 0x00, 0x00, 0xf8, 0x7f],
        "NaN",
    ),
    (
        "STRING",
        &["Demo"],
        &[0x04, 0x00, 0x44, 0x65, 0x6d, 0x6f],
        "Demo",
    ),
    ("STRING", &[""], &[0x00, 0x00], ""),
    (
        "STRING",
        &["a\\\\\\x00\\xff"],
        &[0x04, 0x00, 0x61, 0x5c, 0x00, 0xff],
        "a\\\\\\x00\\xff",
    ),
    (
        "STRING2",
        &["Hi"],
        &[0x02, 0x00, 0x48, 0x00, 0x69, 0x00],
        "Hi",
    ),
    ("STRING2", &[""], &[0x00, 0x00], ""),
    (
        "STRING2",
        &["\\u00e9\\u20AC\\\\ \\u007f"],
        &[
            0x05, 0x00, 0xe9, 0x00, 0xac, 0x20, 0x5c, 0x00, 0x20, 0x00, 0x7f, 0x00,
        ],
        "\\u00e9\\u20ac\\\\ \\u007f",
    ),
    (
        "EPATH",
        &["20042464"],
        &[0x02, 0x20, 0x04, 0x24, 0x64],
        "20042464",
    ),
    ("EPATH", &[""], &[0x00], ""),
    (
        "EPATH",
        &["2C00aBcD"],
        &[0x02, 0x2c, 0x00, 0xab, 0xcd],
        "2c00abcd",
    ),
    ("DATE", &["1972-01-01"], &[0x00, 0x00], "1972-01-01"),
    ("DATE", &["1972-02-29"], &[0x3b, 0x00], "1972-02-29"),
    ("DATE", &["1972-12-31"], &[0x6d, 0x01], "1972-12-31"),
    ("DATE", &["1999-12-31"], &[0xf2, 0x27], "1999-12-31"),
    ("DATE", &["2000-02-29"], &[0x2e, 0x28], "2000-02-29"),
    ("DATE", &["2026-11-27"], &[0x56, 0x4e], "2026-11-27"),
    ("DATE", &["2100-02-28"], &[0xda, 0xb6], "2100-02-28"),
    ("DATE", &["2100-03-01"], &[0xdb, 0xb6], "2100-03-01"),
    ("DATE", &["2151-06-06"], &[0xff, 0xff], "2151-06-06"),
    (
        "TIME_OF_DAY",
        &["00:00:00.000"],
        &[0x00, 0x00, 0x00, 0x00],
        "00:00:00.000",
    ),
    (
        "TIME_OF_DAY",
        &["00:00:59.999"],
        &[0x5f, 0xea, 0x00, 0x00],
        "00:00:59.999",
    ),
    (
        "TIME_OF_DAY",
        &["12:34:56.789"],
        &[0x95, 0x2c, 0xb3, 0x02],
        "12:34:56.789",
    ),
    (
        "TIME_OF_DAY",
        &["23:59:59.999"],
        &[0xff, 0x5b, 0x26, 0x05],
        "23:59:59.999",
    ),
    (
        "DATE_AND_TIME",
        &["1972-01-01T00:00:00.000"],
        &[0x00, 0x00, 0x00, 0x00, 0x00, 0x00],
        "1972-01-01T00:00:00.000",
    ),
    (
        "DATE_AND_TIME",
        &["2026-11-27T12:34:56.789"],
        &[0x95, 0x2c, 0xb3, 0x02, 0x56, 0x4e],
        "2026-11-27T12:34:56.789",
    ),
    (
        "DATE_AND_TIME",
        &["2151-06-06T23:59:59.999"],
        &[0xff, 0x5b, 0x26, 0x05, 0xff, 0xff],
        "2151-06-06T23:59:59.999",
    ),
    (
        "TIME",
        &["-2147483648ms"],
        &[0x00, 0x00, 0x00, 0x80],
        "-2147483648ms",
    ),
    ("TIME", &["-1ms"], &[0xff, 0xff, 0xff, 0xff], "-1ms"),
    ("TIME", &["0ms"], &[0x00, 0x00, 0x00, 0x00], "0ms"),
    ("TIME", &["1500ms"], &[0xdc, 0x05, 0x00, 0x00], "1500ms"),
    (
        "TIME",
        &["2147483647ms"],
        &[0xff, 0xff, 0xff, 0x7f],
        "2147483647ms",
    ),
    ("TIME", &["1500"], &[0xdc, 0x05, 0x00, 0x00], "1500ms"),
    (
        "LTIME",
        &["-9223372036854775808us"],
        &[0x00, 0x00, 0x00, 0x00, 0x00, 0x00, 0x00, 0x80],
        "-9223372036854775808us",
    ),
    (
        "LTIME",
        &["1500us"],
        &[0xdc, 0x05, 0x00, 0x00, 0x00, 0x00, 0x00, 0x00],
        "1500us",
    ),
    (
        "LTIME",
        &["9223372036854775807us"],
        &[0xff, 0xff, 0xff, 0xff, 0xff, 0xff, 0xff, 0x7f],
        "9223372036854775807us",
    ),
    (
        "LTIME",
        &["-2"],
        &[0xfe, 0xff, 0xff, 0xff, 0xff, 0xff, 0xff, 0xff],
        "-2us",
    ),
    (
        "TIME[]",
        &["1ms", "2"],
        &[0x01, 0x00, 0x00, 0x00, 0x02, 0x00, 0x00, 0x00],
        "1ms 2ms",
    ),
    (
        "DATE[]",
        &["1972-01-02", "1972-01-03"],
        &[0x01, 0x00, 0x02, 0x00],
        "1972-01-02 1972-01-03",
    ),
    (
        "STRING[]",
        &["a b", ""],
        &[0x03, 0x00, 0x61, 0x20, 0x62, 0x00, 0x00],
        "\"a b\" \"\"",
    ),
    (
        "STRING2[]",
        &["a", "\"\\\"b\""],
        &[0x01, 0x00, 0x61, 0x00, 0x02, 0x00, 0x22, 0x00, 0x62, 0x00],
        "\"a\" \"\\\"b\"",
    ),
    (
        "EPATH[]",
        &["2004", "\"2464\"", ""],
        &[0x01, 0x20, 0x04, 0x01, 0x24, 0x64, 0x00],
        "\"2004\" \"2464\" \"\"",
    ),
    (
        "SHORT_STRING[]",
        &["a b", "", "\"c\\\"d\""],
        b"\x03a b\x00\x03c\"d",
        "\"a b\" \"\" \"c\\\"d\"",
    ),
];

#[test]
fn rows(rt: HostRuntime) -> Result<(), Fail> {
    for row in ROWS {
        check(&rt, rt.alloc(), row)?;
    }
    Ok(())
}

/// The sign and the payload of a NaN are not printed.
#[test]
fn other_nan(rt: HostRuntime) -> Result<(), Fail> {
    check_read(&rt, rt.alloc(), "REAL", &[1, 0, 0x80, 0xff], "NaN")
}

/// A time of day that no day has is printed as its milliseconds, and a DATE_AND_TIME with it.
#[test]
fn clocks_past_the_day(rt: HostRuntime) -> Result<(), Fail> {
    let alloc = rt.alloc();
    check_read(
        &rt,
        alloc,
        "TIME_OF_DAY",
        &[0x00, 0x5c, 0x26, 0x05],
        "86400000",
    )?;
    check_read(
        &rt,
        alloc,
        "TIME_OF_DAY",
        &[0xff, 0xff, 0xff, 0xff],
        "4294967295",
    )?;
    let bytes = [0x00, 0x5c, 0x26, 0x05, 0, 0];
    check_read(&rt, alloc, "DATE_AND_TIME", &bytes, "1972-01-01T86400000")
}
