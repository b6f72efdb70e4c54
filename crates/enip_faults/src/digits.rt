//! Bytes as lower-case hexadecimal.

ghost use Rattle.std.specs.Prelude.{Some};

use std::{fmt, str};

/// Bytes that print in hexadecimal, two lower-case digits each.
#[derive(Clone, Copy)]
pub struct Digits<'a>(pub &'a [u8]);

impl fmt::Display for Digits<'_> {
    ghost use Rattle.hex.specs.Hex.{encode_lower};

    ghost output = { λ d. Some (encode_lower d.0.now) };

    fn fmt<W: fmt::Write>(&self, f: &mut fmt::Formatter<W>) -> fmt::Result {
        for byte in self.0 {
            let mut pair = [0; 2];
            let _ = hex::encode_to_slice([*byte], &mut pair);
            let Ok(text) = str::from_utf8(&pair) else {
                return Err(fmt::Error);
            };
            f.write_str(text)?;
        }
        Ok(())
    }
}
