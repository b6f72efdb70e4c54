//! A sink in memory.

ghost use Rattle.std.specs.Prelude.{◌≡◌, ◌+◌, ◌<◌, ◌≤◌, [], length, Some, IfOk};
ghost use Rattle.std.specs.Result.{result_ok};
ghost use Rattle.std.specs.Io.KnownBytes.{WriteAppends};
ghost use Rattle.enip_wire.specs.Devices.{failures_in};

use super::call_behavior::CallBehavior;
use super::{Failed, Sink};
use std::marker::Model;

/// A sink in memory. It writes into a slice, and fails once the slice is full.
#[derive(Debug, Drop)]
pub struct MemorySink<'a> {
    into: &'a mut [u8],
    len: usize,
    calls: CallBehavior,
}

impl<'a> Model for MemorySink<'a> {
    ghost use Rattle.std.specs.Prelude.{◌<◌, ◌≤◌, ◌-◌, length, take};
    ghost use Rattle.enip_wire.specs.MemoryDevices.{SinkState};

    ghost Value = { SinkState };

    ghost view = { λ s. record { written = take s.len s.into.now; capacity = length s.into.now - s.len; calls = s.calls } };

    ghost invariant = { λ s. (s.len ≤ length s.into.now) × (0 < s.calls.largest_size) };
}

impl<'a> MemorySink<'a> {
    /// A sink that writes to the front of this slice.
    pub fn new(into: &'a mut [u8]) -> MemorySink<'a>
        ensures { result ≡ record { written = []; capacity = length into.old; calls = CallBehavior.UNBOUNDED } }
    {
        MemorySink {
            into,
            len: 0,
            calls: CallBehavior::UNBOUNDED,
        }
    }

    /// The same sink, but each write takes at most `size` bytes.
    pub fn with_largest_size(mut self, size: usize) -> MemorySink<'a>
        requires { 0 < size }
        ensures { result ≡ record self.entry { calls = record self.entry.calls { largest_size = size } } }
    {
        self.calls.largest_size = size;
        self
    }

    /// The same sink, but the write after `calls` more fails. Later writes fail only if the slice is full.
    pub fn with_failure_after(mut self, calls: u64) -> MemorySink<'a>
        ensures { result ≡ record self.entry { calls = record self.entry.calls { before_failure = Some calls } } }
    {
        self.calls = CallBehavior {
            before_failure: Some(calls),
            ..self.calls
        };
        self
    }

    /// The bytes that were written.
    pub fn written(&self) -> &[u8]
        ensures { result.now ≡ self.now.written }
    {
        &self.into[..self.len]
    }
}

impl Sink for MemorySink<'_> {
    ghost use Rattle.enip_wire.specs.MemoryDevices.{taken_by, after_write};

    ghost written = { λ s. Some s.written };

    ghost failures = { λ s. s.calls.failures };

    /// Writes as the trait says. It takes as many bytes as fit, up to the largest size.
    ///
    /// # Errors
    ///
    /// `Failed` in the call that is to fail, and if the slice is full and there is something to write.
    fn write(&mut self, from: &[u8]) -> Result<usize, Failed>
        requires { self.old.calls.failures < u64.MAX }
        ensures count { IfOk result (λ n. n ≤ length from.now) }
        ensures some { IfOk result (λ n. 0 < length from.now → 0 < n) }
        ensures bytes { WriteAppends (Some self.old.written) (Some self.new.written) result from.now }
        ensures failures { self.new.calls.failures ≡ self.old.calls.failures + failures_in result }
        ensures taken { result_ok result ≡ taken_by self.old (length from.now) }
        ensures state { self.new ≡ after_write self.old from.now (result_ok result) }
    {
        let count = self
            .calls
            .next_size(from.len().min(self.into.len() - self.len))?;
        // A write to a full slice fails (our choice).
        if count == 0 && !from.is_empty() {
            self.calls.failures += 1;
            return Err(Failed);
        }
        self.into[self.len..self.len + count].copy_from_slice(&from[..count]);
        self.len += count;
        Ok(count)
    }

    fn failures(&self) -> u64 {
        self.calls.failures
    }
}
