//! Values that are read back from what is printed for them, and the longest ones.

use super::type_of;
use cip_values::{ValueFault, ValuesText, read_values, write_values};
use std::test::Fail;

/// Each day that a DATE can be is read back from what is printed for it.
#[test]
fn every_date(rt: HostRuntime) -> Result<(), Fail> {
    let date = type_of("DATE")?;
    for day in 0..=0xffffu16 {
        let bytes = day.to_le_bytes();
        let values = read_values(rt.alloc(), date, &bytes)?;
        let values = values.as_slice();
        let text = format!(in rt.alloc();
            "{}",
            ValuesText {
                value_type: date,
                values
            }
        )?;
        let again = write_values(rt.alloc(), date, &[text.as_str()])?;
        assert!(rt; again.as_slice() == bytes.as_slice(), "{day}");
    }
    Ok(())
}

/// The longest path has 255 words, and the longest STRING 65,535 bytes.
#[test]
fn longest_paths_and_strings(rt: HostRuntime) -> Result<(), Fail> {
    let rows = [
        ("EPATH", "2004", 255usize, 511usize),
        ("STRING", "x", 65535, 65537),
        ("STRING2", "x", 65535, 131072),
    ];
    for (name, piece, most, size) in rows {
        let value_type = type_of(name)?;
        let mut word = String::new(rt.alloc());
        for _ in 0..most {
            word.push_str(piece)?;
        }
        let bytes = write_values(rt.alloc(), value_type, &[word.as_str()])?;
        assert_eq!(rt; bytes.len(), size);
        let values = read_values(rt.alloc(), value_type, bytes.as_slice())?;
        assert_eq!(rt; values.len(), 1);
        word.push_str(piece)?;
        let words = [word.as_str()];
        assert_eq!(rt;
            write_values(rt.alloc(), value_type, &words).err(),
            Some(ValueFault::Oversized(value_type.element, most + 1))
        );
    }
    Ok(())
}

/// A text with any byte, alone and in a list, is read back from what is printed for it.
#[test]
fn every_byte_of_a_text(rt: HostRuntime) -> Result<(), Fail> {
    for byte in 0..=255u8 {
        for name in ["SHORT_STRING", "SHORT_STRING[]"] {
            let value_type = type_of(name)?;
            let bytes = [2, byte, b'x'];
            let values = read_values(rt.alloc(), value_type, &bytes)?;
            let values = values.as_slice();
            let text = format!(in rt.alloc(); "{}", ValuesText { value_type, values })?;
            let again = write_values(rt.alloc(), value_type, &[text.as_str()])?;
            assert!(rt; again.as_slice() == bytes.as_slice(), "{name} {byte}");
        }
    }
    Ok(())
}

/// A text of 255 bytes is encoded, and one of 256 is refused.
#[test]
fn longest_text(rt: HostRuntime) -> Result<(), Fail> {
    let short_string = type_of("SHORT_STRING")?;
    let mut word = String::new(rt.alloc());
    for _ in 0..255 {
        word.push_str("x")?;
    }
    let bytes = write_values(rt.alloc(), short_string, &[word.as_str()])?;
    assert_eq!(rt; bytes.len(), 256);
    assert_eq!(rt; bytes.first().copied(), Some(255));
    word.push_str("x")?;
    let words = [word.as_str()];
    assert_eq!(rt;
        write_values(rt.alloc(), short_string, &words).err(),
        Some(ValueFault::TooLong(256))
    );
    Ok(())
}
