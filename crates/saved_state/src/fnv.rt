//! The checksum of a state: FNV-1a with 64 bits.

ghost use Rattle.std.specs.Prelude.{◌≡◌, ◌++◌, List, ℕ};
ghost use Rattle.saved_state.specs.Checksum.{checksum};

/// Where the hash begins.
const OFFSET_BASIS: u64 = 0xcbf2_9ce4_8422_2325;

/// What the hash is multiplied by, after each byte.
const PRIME: u64 = 0x0100_0000_01b3;

/// The checksum of the bytes.
pub fn checksum(bytes: &[u8]) -> u64
    ensures { result ≡ checksum bytes.now }
{
    checksum_more(OFFSET_BASIS, bytes)
}

/// The checksum of bytes that follow others, of which `earlier` is the checksum.
///
/// ```
/// let sum = checksum_more(checksum(b"ab"), b"c"); // checksum(b"abc")
/// ```
pub fn checksum_more(earlier: u64, bytes: &[u8]) -> u64
    ensures { (others : List ℕ) → earlier ≡ checksum others → result ≡ checksum (others ++ bytes.now) }
{
    let mut hash = earlier;
    for byte in bytes {
        hash = (hash ^ u64::from(*byte)).wrapping_mul(PRIME);
    }
    hash
}
