//! Devices: where bytes come from and where they go. A contract describes them, and not a type.
//!
//! A device counts its reads and its failures. So a caller can prove that it reports a fault only if the device
//! failed. A contract speaks of a device's bytes if they are known: those of [`MemorySource`] and [`MemorySink`]
//! are, those of a socket are not.

mod call_behavior;
mod memory_sink;
mod memory_source;

ghost use Rattle.std.specs.Prelude.{ℕ, List, Option, ◌≡◌, ◌+◌, ◌<◌, ◌≤◌, length, take, IfOk, MatchResult};
ghost use Rattle.std.specs.Io.KnownBytes.{Appends, ReadConsumes, WriteAppends};
ghost use Rattle.enip_wire.specs.Devices.{failures_in, moved};

pub use memory_sink::MemorySink;
pub use memory_source::MemorySource;
use thiserror::Error;

/// A call to a device failed.
#[derive(Clone, Copy, Debug, PartialEq, Eq, Drop, Error)]
#[error("the device failed")]
pub struct Failed;

/// Where bytes come from.
///
/// ```
/// let mut source = MemorySource::new(bytes, &[0]).with_largest_size(10);
/// let count = source.read(buffer)?; // at most 10 bytes; 0 is the end
/// ```
pub trait Source {
    // The bytes that are left to read, if they are known.
    ghost left: { Self → Option (List ℕ) };

    // When the last read that gave a byte returned, in microseconds of the source's clock.
    ghost moment: { Self → ℕ };

    // How many reads were made, and how many calls failed.
    ghost reads: { Self → ℕ };

    ghost failures: { Self → ℕ };

    /// Reads bytes to the front of a slice and returns how many. If the slice is not empty, 0 is the end.
    ///
    /// # Errors
    ///
    /// `Failed` if the device failed. Then no byte was read.
    fn read(&mut self, into: &mut [u8]) -> Result<usize, Failed>
        requires reads_left { reads self.old < u64.MAX }
        requires failures_left { failures self.old < u64.MAX }
        ensures count { IfOk result (λ n. n ≤ length into.new) }
        ensures bytes { ReadConsumes (left self.old) (left self.new) result into.new }
        ensures moment_kept { moved result ≡ 0 → moment self.new ≡ moment self.old }
        ensures reads { reads self.new ≡ reads self.old + 1 }
        ensures failures { failures self.new ≡ failures self.old + failures_in result };

    /// When the last read that gave a byte returned, in microseconds of the source's clock. 0 before the first such
    /// read.
    fn moment(&self) -> u64
        ensures { result ≡ moment self.now };

    /// How many reads were made.
    fn reads(&self) -> u64
        ensures { result ≡ reads self.now };

    /// How many reads failed.
    fn failures(&self) -> u64
        ensures { result ≡ failures self.now };
}

/// Where bytes go.
///
/// ```
/// let mut sink = MemorySink::new(buffer);
/// write_all(&mut sink, frame)?;
/// assert_eq!(rt; sink.written(), frame);
/// ```
pub trait Sink {
    // The bytes that were written, if they are known.
    ghost written: { Self → Option (List ℕ) };

    // How many calls failed.
    ghost failures: { Self → ℕ };

    /// Writes bytes from the front of a slice and returns how many: at least one, if the slice is not empty.
    ///
    /// # Errors
    ///
    /// `Failed` if the device failed. Then no byte was written.
    fn write(&mut self, from: &[u8]) -> Result<usize, Failed>
        requires { failures self.old < u64.MAX }
        ensures count { IfOk result (λ n. n ≤ length from.now) }
        ensures some { IfOk result (λ n. 0 < length from.now → 0 < n) }
        ensures bytes { WriteAppends (written self.old) (written self.new) result from.now }
        ensures failures { failures self.new ≡ failures self.old + failures_in result };

    /// How many writes failed.
    fn failures(&self) -> u64
        ensures { result ≡ failures self.now };
}

/// Writes all the bytes of a slice, in as many writes as needed.
///
/// # Errors
///
/// `Failed` if a write failed. Then a proper prefix of the bytes was written.
pub fn write_all<W: Sink>(sink: &mut W, text: &[u8]) -> Result<(), Failed>
    requires { W.failures sink.old < u64.MAX }
    ensures bytes { MatchResult result
        (λ _. Appends (W.written sink.old) (W.written sink.new) text.now)
        (λ _. (sent : ℕ) × (sent < length text.now)
        × Appends (W.written sink.old) (W.written sink.new) (take sent text.now)) }
    ensures failures { W.failures sink.new ≡ W.failures sink.old + failures_in result }
{
    let mut sent = 0;
    while sent < text.len() {
        sent += sink.write(&text[sent..])?;
    }
    Ok(())
}
