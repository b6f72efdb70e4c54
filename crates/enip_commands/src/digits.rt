//! Bytes as hexadecimal digits in lower case.

use std::io::{self, Write};

/// How many bytes are encoded at a time.
const BLOCK: usize = 128;

/// Prints bytes in hexadecimal, two lower-case digits each.
pub(crate) fn print_digits<W: Write>(output: &mut W, bytes: &[u8]) -> io::Result<()> {
    let mut text = [0u8; 2 * BLOCK];
    let mut rest = bytes;
    while !rest.is_empty() {
        let (block, others) = rest.split_at(rest.len().min(BLOCK));
        let digits = &mut text[..2 * block.len()];
        let _ = hex::encode_to_slice(block, digits);
        output.write_all(digits)?;
        rest = others;
    }
    Ok(())
}
