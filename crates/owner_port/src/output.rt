//! The bytes that were not written to the owner yet.

ghost use Rattle.std.specs.Prelude.{◌≡◌, ◌≤◌, ◌+◌, ◌-◌, ◌++◌, [], length, take, drop, nat_le, IfOk, if◌then◌else◌};
ghost use Rattle.std.specs.Vec.{vec_capacity};

use std::alloc::{AllocError, Global};
use std::marker::Model;

/// The most bytes that wait to be written to an owner (ours).
pub const OUTPUT_LIMIT: usize = 262_144;

/// Bytes in the order of the stream, at most 256 KiB. All memory is taken in `new`.
#[derive(Drop)]
pub(crate) struct Output {
    bytes: Vec<u8>,
}

impl Model for Output {
    ghost use Rattle.std.specs.Prelude.{ℕ, List, ◌≤◌, vec_len, vec_capacity};
    ghost use Rattle.owner_port.specs.declared.output.TheConstants.{OUTPUT_LIMIT};

    ghost Value = { List ℕ };

    ghost view = { λ o. o.bytes.items };

    ghost invariant = { λ o. (vec_len o.bytes ≤ OUTPUT_LIMIT) × (OUTPUT_LIMIT ≤ vec_capacity o.bytes) };
}

impl Output {
    /// No bytes wait.
    pub(crate) fn new(alloc: Global) -> Result<Output, AllocError>
        ensures { IfOk result (λ output. output ≡ []) }
    {
        Ok(Output {
            bytes: Vec::with_capacity(alloc, OUTPUT_LIMIT)?,
        })
    }

    /// The bytes that wait.
    pub(crate) fn as_slice(&self) -> &[u8]
        ensures bytes { result.now ≡ self.now }
        ensures few { length result.now ≤ OUTPUT_LIMIT }
    {
        self.bytes.as_slice()
    }

    /// How many more bytes can wait.
    pub(crate) fn free(&self) -> usize
        ensures { result + length self.now ≡ OUTPUT_LIMIT }
    {
        OUTPUT_LIMIT - self.bytes.len()
    }

    /// Drops all bytes.
    pub(crate) fn clear(&mut self)
        ensures { self.new ≡ [] }
    {
        self.bytes.clear();
    }

    /// Drops the first `size` bytes, or all if there are fewer.
    pub(crate) fn drop_front(&mut self, size: usize)
        ensures { self.new ≡ drop size self.old }
    {
        drop_front(&mut self.bytes, size);
    }

    /// Appends bytes if all of them fit. Returns whether they do.
    pub(crate) fn put(&mut self, line: &[u8]) -> bool
        ensures fits { result ≡ nat_le (length self.old + length line.now) OUTPUT_LIMIT }
        ensures bytes { self.new ≡ (if result then self.old ++ line.now else self.old) }
    {
        if line.len() > OUTPUT_LIMIT - self.bytes.len() {
            return false;
        }
        // It has the capacity for all.
        let _ = self.bytes.extend_from_slice(line);
        true
    }
}

/// Drops the first `size` bytes, or all if there are fewer.
fn drop_front(bytes: &mut Vec<u8>, size: usize)
    ensures items { bytes.new.items ≡ drop size bytes.old.items }
    ensures capacity { vec_capacity bytes.new ≡ vec_capacity bytes.old }
{
    if size >= bytes.len() {
        bytes.clear();
        return;
    }
    let left = bytes.len() - size;
    move_to_front(bytes.as_mut_slice(), size);
    bytes.truncate(left);
}

/// Moves the bytes from `start` on to the front.
fn move_to_front(block: &mut [u8], start: usize)
    requires { start ≤ length block.old }
    ensures front { take (length block.old - start) block.new ≡ drop start block.old }
    ensures size { length block.new ≡ length block.old }
{
    block.copy_within(start.., 0);
}
