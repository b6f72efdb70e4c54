//! A source in memory.

ghost use Rattle.std.specs.Prelude.{◌≡◌, ◌+◌, ◌<◌, ◌≤◌, ◌++◌, length, take, drop, Some, IfOk};
ghost use Rattle.std.specs.Result.{result_ok};
ghost use Rattle.std.specs.Io.KnownBytes.{ReadConsumes};
ghost use Rattle.enip_wire.specs.Devices.{failures_in, moved};
ghost use Rattle.enip_wire.specs.MemoryDevices.{moment_at};

use super::call_behavior::CallBehavior;
use super::{Failed, Source};
use std::marker::Model;

/// A source in memory: a slice to read, and a moment for each read.
#[derive(Debug, Drop)]
pub struct MemorySource<'a> {
    left: &'a [u8],
    moments: &'a [u64],
    moment: u64,
    reads: u64,
    calls: CallBehavior,
}

impl<'a> Model for MemorySource<'a> {
    ghost use Rattle.std.specs.Prelude.{◌<◌};
    ghost use Rattle.enip_wire.specs.MemoryDevices.{SourceState};

    ghost Value = { SourceState };

    ghost view = { λ s. record {
      left = s.left.now;
      moments = s.moments.now;
      moment = s.moment;
      reads = s.reads;
      calls = s.calls;
    } };

    ghost invariant = { λ s. 0 < s.calls.largest_size };
}

impl<'a> MemorySource<'a> {
    /// A source of these bytes. Each read has the next moment of the list. After the last one, the last moment is
    /// used again. The moment is 0 if the list is empty.
    pub fn new(bytes: &'a [u8], moments: &'a [u64]) -> MemorySource<'a>
        ensures { result ≡ record {
          left = bytes.now;
          moments = moments.now;
          moment = 0;
          reads = 0;
          calls = CallBehavior.UNBOUNDED;
        } }
    {
        MemorySource {
            left: bytes,
            moments,
            moment: 0,
            reads: 0,
            calls: CallBehavior::UNBOUNDED,
        }
    }

    /// The same source, but each read gives at most `size` bytes.
    pub fn with_largest_size(mut self, size: usize) -> MemorySource<'a>
        requires { 0 < size }
        ensures { result ≡ record self.entry { calls = record self.entry.calls { largest_size = size } } }
    {
        self.calls.largest_size = size;
        self
    }

    /// The same source, but the read after `calls` more fails, and none after it.
    pub fn with_failure_after(mut self, calls: u64) -> MemorySource<'a>
        ensures { result ≡ record self.entry { calls = record self.entry.calls { before_failure = Some calls } } }
    {
        self.calls = CallBehavior {
            before_failure: Some(calls),
            ..self.calls
        };
        self
    }
}

impl Source for MemorySource<'_> {
    ghost use Rattle.enip_wire.specs.MemoryDevices.{given_by, after_read};

    ghost left = { λ s. Some s.left };

    ghost moment = { λ s. s.moment };

    ghost reads = { λ s. s.reads };

    ghost failures = { λ s. s.calls.failures };

    /// Reads as the trait says. It gives as many bytes as the slice takes and the source has, up to the largest
    /// size.
    ///
    /// # Errors
    ///
    /// `Failed` in the call that is to fail. Then the slice is unchanged.
    fn read(&mut self, into: &mut [u8]) -> Result<usize, Failed>
        requires reads_left { self.old.reads < u64.MAX }
        requires failures_left { self.old.calls.failures < u64.MAX }
        ensures count { IfOk result (λ n. n ≤ length into.new) }
        ensures bytes { ReadConsumes (Some self.old.left) (Some self.new.left) result into.new }
        ensures moment_kept { moved result ≡ 0 → self.new.moment ≡ self.old.moment }
        ensures reads { self.new.reads ≡ self.old.reads + 1 }
        ensures failures { self.new.calls.failures ≡ self.old.calls.failures + failures_in result }
        ensures given { result_ok result ≡ given_by self.old (length into.old) }
        ensures state { self.new ≡ after_read self.old (result_ok result) }
        ensures into { into.new ≡ take (moved result) self.old.left ++ drop (moved result) into.old }
    {
        let moment = moment_of(self.moments, self.reads);
        self.reads += 1;
        let count = self.calls.next_size(into.len().min(self.left.len()))?;
        into[..count].copy_from_slice(&self.left[..count]);
        self.left = &self.left[count..];
        if count > 0 {
            self.moment = moment;
        }
        Ok(count)
    }

    fn moment(&self) -> u64 {
        self.moment
    }

    fn reads(&self) -> u64 {
        self.reads
    }

    fn failures(&self) -> u64 {
        self.calls.failures
    }
}

/// The moment of the read after `before` others.
fn moment_of(moments: &[u64], before: u64) -> u64
    ensures { result ≡ moment_at moments.now before }
{
    moments
        .get(before as usize)
        .or(moments.last())
        .map_or(0, |moment| *moment)
}
