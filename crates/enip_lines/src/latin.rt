//! Text from devices, which has one byte per character (ISO 8859-1).

ghost use Rattle.std.specs.Prelude.{◌≡◌, IfOk, string_bytes};
ghost use Rattle.enip_lines.specs.JsonValues.{latin};

use std::alloc::{AllocError, Global};

/// The characters of `bytes` as UTF-8.
///
/// # Errors
///
/// `AllocError` if memory is refused.
pub fn latin_text(alloc: Global, bytes: &[u8]) -> Result<String, AllocError>
    ensures { IfOk result (λ text. string_bytes text ≡ latin bytes.now) }
{
    let mut text = String::new(alloc);
    for byte in bytes {
        text.push(char::from(*byte))?;
    }
    Ok(text)
}
