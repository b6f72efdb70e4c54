//! The texts of layouts and of their errors, and layouts whose values are given in memory.

use crate::texts::check_texts;
use cip_layouts::{
    FieldFault, FieldsFault, FieldsText, Layout, LayoutFault, read_fields, write_fields,
};
use cip_values::ValueFault;
use std::test::Fail;

/// A layout, words, their bytes, and the printed text.
static ROWS: [(&str, &[&str], &[u8], &str); 5] = [
    ("UINT", &["1"], &[1, 0], "1"),
    (
        "UINT[2],BOOL",
        &["1", "513", "true"],
        &[1, 0, 1, 2, 1],
        "1 513 1",
    ),
    (
        "a:USINT,b:SHORT_STRING",
        &["7", "a b"],
        &[7, 3, 97, 32, 98],
        "7 \"a b\"",
    ),
    (
        "x.1:INT[3]",
        &["-1", "0", "1"],
        &[255, 255, 0, 0, 1, 0],
        "-1 0 1",
    ),
    ("STRING[2]", &["\"\"", "b"], &[0, 0, 1, 0, 98], "\"\" \"b\""),
];

#[test]
fn both_ways(rt: HostRuntime) -> Result<(), Fail> {
    for (name, words, bytes, text) in ROWS {
        let layout = Layout::parse(name)?;
        let fields = layout.fields();
        let written = write_fields(rt.alloc(), fields, words)?;
        assert!(rt; written.as_slice() == bytes, "{name}");
        let values = read_fields(rt.alloc(), fields, bytes)?;
        let values = values.as_slice();
        let printed = format!(in rt.alloc(); "{}", FieldsText { fields, values })?;
        assert!(rt; printed.as_str() == text, "{name}: {printed}");
        let again = format!(in rt.alloc(); "{layout}")?;
        assert!(rt; again.as_str() == name, "{name}: {again}");
    }
    Ok(())
}

#[test]
fn texts_of_faults(rt: HostRuntime) -> Result<(), Fail> {
    check_texts(
        &rt,
        rt.alloc(),
        &[
            (FieldFault::Empty, "empty"),
            (
                FieldFault::Name,
                "a name has 1 to 32 letters, digits, '_', '-' and '.'",
            ),
            (FieldFault::Type, "not a type"),
            (FieldFault::Count, "a count is [1] to [65535]"),
            (FieldFault::Mixed, "either all fields have names, or none"),
            (FieldFault::Doubled, "the name of a field before it"),
            (FieldFault::TooMany, "more than 32 fields"),
        ],
    )?;
    check_texts(
        &rt,
        rt.alloc(),
        &[(
            LayoutFault {
                number: 2,
                reason: FieldFault::Empty,
            },
            "field 2: empty",
        )],
    )?;
    check_texts(
        &rt,
        rt.alloc(),
        &[
            (
                FieldsFault::Field(3, ValueFault::Short),
                "field 3: the data end within a value",
            ),
            (FieldsFault::Trailing(1), "1 byte is left over"),
            (FieldsFault::Trailing(2), "2 bytes are left over"),
            (FieldsFault::Count(2, 3), "the layout takes 2 values, not 3"),
            (FieldsFault::Memory, "memory"),
        ],
    )
}
