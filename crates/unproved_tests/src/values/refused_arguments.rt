//! Arguments that are not values of a type.

use super::type_of;
use cip_values::write_values;
use std::test::Fail;

/// A type, arguments, and why they are refused.
type Refused = (&'static str, &'static [&'static str], &'static str);

static REFUSED: [Refused; 108] = [
    ("BOOL", &["2"], "2 is not of type BOOL"),
    ("BOOL", &["TRUE"], "TRUE is not of type BOOL"),
    (
        "SINT",
        &["-129"],
        "-129 is out of range for SINT (-128 to 127)",
    ),
    (
        "SINT",
        &["128"],
        "128 is out of range for SINT (-128 to 127)",
    ),
    (
        "INT",
        &["-32769"],
        "-32769 is out of range for INT (-32768 to 32767)",
    ),
    (
        "INT",
        &["32768"],
        "32768 is out of range for INT (-32768 to 32767)",
    ),
    (
        "DINT",
        &["-2147483649"],
        "-2147483649 is out of range for DINT (-2147483648 to 2147483647)",
    ),
    (
        "DINT",
        &["2147483648"],
        "2147483648 is out of range for DINT (-2147483648 to 2147483647)",
    ),
    (
        "LINT",
        &["-9223372036854775809"],
        "-9223372036854775809 is out of range for LINT (-9223372036854775808 to 9223372036854775807)",
    ),
    (
        "LINT",
        &["9223372036854775808"],
        "9223372036854775808 is out of range for LINT (-9223372036854775808 to 9223372036854775807)",
    ),
    ("USINT", &["-1"], "-1 is out of range for USINT (0 to 255)"),
    (
        "USINT",
        &["300"],
        "300 is out of range for USINT (0 to 255)",
    ),
    (
        "USINT",
        &["256"],
        "256 is out of range for USINT (0 to 255)",
    ),
    (
        "UINT",
        &["65536"],
        "65536 is out of range for UINT (0 to 65535)",
    ),
    (
        "UDINT",
        &["4294967296"],
        "4294967296 is out of range for UDINT (0 to 4294967295)",
    ),
    (
        "ULINT",
        &["18446744073709551616"],
        "18446744073709551616 is out of range for ULINT (0 to 18446744073709551615)",
    ),
    (
        "ULINT",
        &["999999999999999999999999999999999999999999999999"],
        "999999999999999999999999999999999999999999999999 is out of range for ULINT (0 to 18446744073709551615)",
    ),
    (
        "ULINT",
        &["-999999999999999999999999999999999999999999999999"],
        "-999999999999999999999999999999999999999999999999 is out of range for ULINT (0 to 18446744073709551615)",
    ),
    (
        "ULINT",
        &["0x10000000000000000"],
        "0x10000000000000000 is out of range for ULINT (0 to 18446744073709551615)",
    ),
    (
        "BYTE",
        &["0x100"],
        "0x100 is out of range for BYTE (0x00 to 0xff)",
    ),
    (
        "BYTE",
        &["256"],
        "256 is out of range for BYTE (0x00 to 0xff)",
    ),
    (
        "WORD",
        &["0x10000"],
        "0x10000 is out of range for WORD (0x0000 to 0xffff)",
    ),
    (
        "DWORD",
        &["0x100000000"],
        "0x100000000 is out of range for DWORD (0x00000000 to 0xffffffff)",
    ),
    (
        "LWORD",
        &["0x10000000000000000"],
        "0x10000000000000000 is out of range for LWORD (0x0000000000000000 to 0xffffffffffffffff)",
    ),
    (
        "LWORD",
        &["-1"],
        "-1 is out of range for LWORD (0x0000000000000000 to 0xffffffffffffffff)",
    ),
    (
        "REAL",
        &["1e39"],
        "1e39 is out of range for REAL (-3.4028235e38 to 3.4028235e38)",
    ),
    (
        "REAL",
        &["-1e39"],
        "-1e39 is out of range for REAL (-3.4028235e38 to 3.4028235e38)",
    ),
    ("UINT", &[""], " is not of type UINT"),
    ("UINT", &["-"], "- is not of type UINT"),
    ("UINT", &["+1"], "+1 is not of type UINT"),
    ("UINT", &["--1"], "--1 is not of type UINT"),
    ("UINT", &["1x"], "1x is not of type UINT"),
    ("UINT", &[" 1"], " 1 is not of type UINT"),
    ("UINT", &["0x01"], "0x01 is not of type UINT"),
    ("UINT", &["1.0"], "1.0 is not of type UINT"),
    (
        "UINT",
        &["999999999999999999999999999999999999999999999999x"],
        "999999999999999999999999999999999999999999999999x is not of type UINT",
    ),
    ("WORD", &["0x"], "0x is not of type WORD"),
    ("WORD", &["0x+1"], "0x+1 is not of type WORD"),
    ("WORD", &["0x-1"], "0x-1 is not of type WORD"),
    ("WORD", &["-0x1"], "-0x1 is not of type WORD"),
    ("WORD", &["0X01"], "0X01 is not of type WORD"),
    ("WORD", &["0x1g"], "0x1g is not of type WORD"),
    ("WORD", &["ff"], "ff is not of type WORD"),
    ("REAL", &["1,5"], "1,5 is not of type REAL"),
    ("REAL", &[""], " is not of type REAL"),
    ("SHORT_STRING", &["\\n"], "\\n is not of type SHORT_STRING"),
    (
        "SHORT_STRING",
        &["\\x0"],
        "\\x0 is not of type SHORT_STRING",
    ),
    (
        "SHORT_STRING",
        &["\\x0g"],
        "\\x0g is not of type SHORT_STRING",
    ),
    (
        "LREAL",
        &["1e309"],
        "1e309 is out of range for LREAL (-1.7976931348623157e308 to 1.7976931348623157e308)",
    ),
    (
        "LREAL",
        &["-1e309"],
        "-1e309 is out of range for LREAL (-1.7976931348623157e308 to 1.7976931348623157e308)",
    ),
    ("LREAL", &["1,5"], "1,5 is not of type LREAL"),
    ("STRING", &["\\n"], "\\n is not of type STRING"),
    ("STRING2", &["\\x41"], "\\x41 is not of type STRING2"),
    ("STRING2", &["\\u00g1"], "\\u00g1 is not of type STRING2"),
    ("STRING2", &["\\u004"], "\\u004 is not of type STRING2"),
    ("STRING2", &["é"], "é is not of type STRING2"),
    ("EPATH", &["2"], "2 is not of type EPATH"),
    ("EPATH", &["20"], "20 is not of type EPATH"),
    ("EPATH", &["2g04"], "2g04 is not of type EPATH"),
    ("EPATH", &["20 04"], "20 04 is not of type EPATH"),
    (
        "DATE",
        &["1971-12-31"],
        "1971-12-31 is out of range for DATE (1972-01-01 to 2151-06-06)",
    ),
    (
        "DATE",
        &["2151-06-07"],
        "2151-06-07 is out of range for DATE (1972-01-01 to 2151-06-06)",
    ),
    (
        "DATE",
        &["9999-12-31"],
        "9999-12-31 is out of range for DATE (1972-01-01 to 2151-06-06)",
    ),
    (
        "DATE",
        &["0000-01-01"],
        "0000-01-01 is out of range for DATE (1972-01-01 to 2151-06-06)",
    ),
    ("DATE", &["2026-02-29"], "2026-02-29 is not of type DATE"),
    ("DATE", &["2100-02-29"], "2100-02-29 is not of type DATE"),
    ("DATE", &["2026-00-01"], "2026-00-01 is not of type DATE"),
    ("DATE", &["2026-13-01"], "2026-13-01 is not of type DATE"),
    ("DATE", &["2026-04-31"], "2026-04-31 is not of type DATE"),
    ("DATE", &["2026-01-00"], "2026-01-00 is not of type DATE"),
    ("DATE", &["2026-1-01"], "2026-1-01 is not of type DATE"),
    ("DATE", &["2026/01/01"], "2026/01/01 is not of type DATE"),
    ("DATE", &["26-01-01"], "26-01-01 is not of type DATE"),
    ("DATE", &["2026-01-011"], "2026-01-011 is not of type DATE"),
    ("DATE", &[""], " is not of type DATE"),
    ("DATE", &["202x-01-01"], "202x-01-01 is not of type DATE"),
    (
        "TIME_OF_DAY",
        &["24:00:00.000"],
        "24:00:00.000 is out of range for TIME_OF_DAY (00:00:00.000 to 23:59:59.999)",
    ),
    (
        "TIME_OF_DAY",
        &["99:59:59.999"],
        "99:59:59.999 is out of range for TIME_OF_DAY (00:00:00.000 to 23:59:59.999)",
    ),
    (
        "TIME_OF_DAY",
        &["12:60:00.000"],
        "12:60:00.000 is not of type TIME_OF_DAY",
    ),
    (
        "TIME_OF_DAY",
        &["12:00:60.000"],
        "12:00:60.000 is not of type TIME_OF_DAY",
    ),
    (
        "TIME_OF_DAY",
        &["12:00:00"],
        "12:00:00 is not of type TIME_OF_DAY",
    ),
    (
        "TIME_OF_DAY",
        &["12.00.00.000"],
        "12.00.00.000 is not of type TIME_OF_DAY",
    ),
    (
        "TIME_OF_DAY",
        &["12:00:00:000"],
        "12:00:00:000 is not of type TIME_OF_DAY",
    ),
    (
        "TIME_OF_DAY",
        &["12:00:00.0000"],
        "12:00:00.0000 is not of type TIME_OF_DAY",
    ),
    (
        "TIME_OF_DAY",
        &["45296789"],
        "45296789 is not of type TIME_OF_DAY",
    ),
    ("TIME_OF_DAY", &[""], " is not of type TIME_OF_DAY"),
    (
        "DATE_AND_TIME",
        &["1971-12-31T00:00:00.000"],
        "1971-12-31T00:00:00.000 is out of range for DATE_AND_TIME (1972-01-01T00:00:00.000 to 2151-06-06T23:59:59.999)",
    ),
    (
        "DATE_AND_TIME",
        &["2026-11-27T24:00:00.000"],
        "2026-11-27T24:00:00.000 is out of range for DATE_AND_TIME (1972-01-01T00:00:00.000 to 2151-06-06T23:59:59.999)",
    ),
    (
        "DATE_AND_TIME",
        &["2026-11-27"],
        "2026-11-27 is not of type DATE_AND_TIME",
    ),
    (
        "DATE_AND_TIME",
        &["2026-11-27 12:34:56.789"],
        "2026-11-27 12:34:56.789 is not of type DATE_AND_TIME",
    ),
    (
        "DATE_AND_TIME",
        &["2026-11-27T12:34:56"],
        "2026-11-27T12:34:56 is not of type DATE_AND_TIME",
    ),
    (
        "DATE_AND_TIME",
        &["2026-02-30T12:34:56.789"],
        "2026-02-30T12:34:56.789 is not of type DATE_AND_TIME",
    ),
    (
        "DATE_AND_TIME",
        &["2026-02-30T24:00:00.000"],
        "2026-02-30T24:00:00.000 is not of type DATE_AND_TIME",
    ),
    ("DATE_AND_TIME", &[""], " is not of type DATE_AND_TIME"),
    (
        "TIME",
        &["2147483648ms"],
        "2147483648ms is out of range for TIME (-2147483648ms to 2147483647ms)",
    ),
    (
        "TIME",
        &["-2147483649"],
        "-2147483649 is out of range for TIME (-2147483648ms to 2147483647ms)",
    ),
    ("TIME", &["1us"], "1us is not of type TIME"),
    ("TIME", &["1 ms"], "1 ms is not of type TIME"),
    ("TIME", &["ms"], "ms is not of type TIME"),
    ("TIME", &["1.5ms"], "1.5ms is not of type TIME"),
    ("TIME", &["1msms"], "1msms is not of type TIME"),
    (
        "LTIME",
        &["9223372036854775808us"],
        "9223372036854775808us is out of range for LTIME (-9223372036854775808us to 9223372036854775807us)",
    ),
    (
        "LTIME",
        &["-9223372036854775809us"],
        "-9223372036854775809us is out of range for LTIME (-9223372036854775808us to 9223372036854775807us)",
    ),
    ("LTIME", &["1ms"], "1ms is not of type LTIME"),
    ("LTIME", &["1s"], "1s is not of type LTIME"),
    ("UINT", &[], "UINT takes one value, not 0"),
    ("UINT", &["1", "513"], "UINT takes one value, not 2"),
    (
        "UINT[]",
        &["1", "65536"],
        "65536 is out of range for UINT (0 to 65535)",
    ),
];

#[test]
fn refused_words(rt: HostRuntime) -> Result<(), Fail> {
    for (name, words, why) in REFUSED {
        let Err(fault) = write_values(rt.alloc(), type_of(name)?, words) else {
            return Err("the words are written")?;
        };
        let text = format!(in rt.alloc(); "{fault}")?;
        assert!(rt;
            text.as_str() == why,
            "{name}: {why}, and not {}",
            text.as_str()
        );
    }
    Ok(())
}
