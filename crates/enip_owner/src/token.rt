//! The token that an owner shows.

ghost use Rattle.std.specs.Prelude.{◌≡◌, ◌↔◌, IsTrue};

/// Whether the first line of an owner is the token.
///
/// The comparison does not stop at the first byte that differs. How long it takes depends on the length of the line alone,
/// so that nobody can find the token byte by byte.
///
/// ```
/// is_token(b"3f9a01", b"3f9a01") // true
/// is_token(b"3f9a0", b"3f9a01") // false
/// ```
pub fn is_token(line: &[u8], token: &[u8]) -> bool
    ensures { IsTrue result ↔ (line.now ≡ token.now) }
{
    if token.is_empty() {
        return line.is_empty();
    }
    let mut differs = line.len() != token.len();
    for (index, byte) in line.iter().enumerate() {
        differs |= *byte != token[index % token.len()];
    }
    !differs
}
