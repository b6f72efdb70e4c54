//! Whether a text is hexadecimal, before memory is taken for its bytes.

ghost use Rattle.std.specs.Prelude.{◌≡◌, is_some};
ghost use Rattle.hex.specs.Hex.{is_hex_digit};
ghost use Rattle.enip_lines.specs.Digits.{bytes_spelled};

/// Whether a text has two hexadecimal digits for each byte, with spaces anywhere.
pub(crate) fn is_hexadecimal(text: &[u8]) -> bool
    ensures { result ≡ is_some (bytes_spelled text.now) }
{
    let mut is_half = false;
    let mut rest = text;
    while !rest.is_empty() {
        let byte = rest[0];
        if byte != b' ' {
            if !is_digit(byte) {
                return false;
            }
            is_half = !is_half;
        }
        rest = &rest[1..];
    }
    !is_half
}

/// Whether a byte is a hexadecimal digit of either case.
fn is_digit(byte: u8) -> bool
    ensures { result ≡ is_hex_digit byte }
{
    matches!(byte, b'0'..=b'9' | b'a'..=b'f' | b'A'..=b'F')
}
