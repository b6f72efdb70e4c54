//! Reads and writes that are tried again if a signal interrupts them.

ghost use Rattle.std.specs.Prelude.{◌≤◌, length, IfOk};

use std::io::{self, ErrorKind, Read, Write};

/// How many interrupted attempts a read or a write may have.
const MAX_ATTEMPTS: u32 = 64;

/// Reads once.
pub fn read_some<R: Read>(stream: &mut R, into: &mut [u8]) -> io::Result<usize>
    ensures { IfOk result (λ n. n ≤ length into.new) }
{
    for _ in 0..MAX_ATTEMPTS {
        match stream.read(into) {
            Err(error) if error.kind() == ErrorKind::Interrupted => {}
            read => return read,
        }
    }
    Err(io::Error::from(ErrorKind::Interrupted))
}

/// Writes once. The count may be less than the length of `from`.
pub fn write_some<W: Write>(stream: &mut W, from: &[u8]) -> io::Result<usize>
    ensures { IfOk result (λ n. n ≤ length from.now) }
{
    for _ in 0..MAX_ATTEMPTS {
        match stream.write(from) {
            Err(error) if error.kind() == ErrorKind::Interrupted => {}
            written => return written,
        }
    }
    Err(io::Error::from(ErrorKind::Interrupted))
}
