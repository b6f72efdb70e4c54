//! Appending to a buffer of fixed capacity.

ghost use Rattle.std.specs.Prelude.{◌≡◌, ◌+◌, ◌^◌, ◌<◌, ◌≤◌, [], ◌∷◌, ◌++◌, length};
ghost use Rattle.arrayvec.specs.ArrayVec.{array_vec_len};
ghost use Rattle.cip_bytes.specs.Numbers.{le, AreBytes};

use arrayvec::ArrayVec;
use thiserror::Error;

/// The bytes do not fit into the free part of the buffer. The buffer is unchanged.
#[derive(Clone, Copy, Debug, PartialEq, Eq, Error)]
#[error("the bytes do not fit")]
pub struct Full;

/// Appends the bytes. They must fit.
pub fn append<const N: usize>(out: &mut ArrayVec<u8, N>, bytes: &[u8])
    requires { array_vec_len out.old + length bytes.now ≤ N }
    ensures text { out.new.items ≡ out.old.items ++ bytes.now }
    ensures len { array_vec_len out.new ≡ array_vec_len out.old + length bytes.now }
    ensures bytes { AreBytes bytes.now }
{
    let _written = out.try_extend_from_slice(bytes);
}

/// Appends a byte. It must fit.
pub fn append_u8<const N: usize>(out: &mut ArrayVec<u8, N>, value: u8)
    requires { array_vec_len out.old < N }
    ensures text { out.new.items ≡ out.old.items ++ value ∷ [] }
    ensures len { array_vec_len out.new ≡ array_vec_len out.old + 1 }
    ensures fits { value < 2 ^ 8 }
{
    out.push(value);
}

/// Appends a 16-bit number, least byte first. It must fit.
pub fn append_u16<const N: usize>(out: &mut ArrayVec<u8, N>, value: u16)
    requires { array_vec_len out.old + 2 ≤ N }
    ensures text { out.new.items ≡ out.old.items ++ le 2 value }
    ensures len { array_vec_len out.new ≡ array_vec_len out.old + 2 }
    ensures fits { value < 2 ^ 16 }
{
    append(out, &u16::to_le_bytes(value));
}

/// Appends a 32-bit number, least byte first. It must fit.
pub fn append_u32<const N: usize>(out: &mut ArrayVec<u8, N>, value: u32)
    requires { array_vec_len out.old + 4 ≤ N }
    ensures text { out.new.items ≡ out.old.items ++ le 4 value }
    ensures len { array_vec_len out.new ≡ array_vec_len out.old + 4 }
    ensures fits { value < 2 ^ 32 }
{
    append(out, &u32::to_le_bytes(value));
}
