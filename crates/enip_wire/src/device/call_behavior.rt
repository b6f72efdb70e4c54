//! How a device in memory answers its calls.

ghost use Rattle.std.specs.Prelude.{◌≡◌, ◌<◌};
ghost use Rattle.std.specs.Result.{result_ok};
ghost use Rattle.enip_wire.specs.MemoryDevices.{size_of, after_call};

use super::Failed;

/// How a device in memory answers its calls.
#[derive(Clone, Copy, Debug)]
pub struct CallBehavior {
    /// The most bytes that one call moves.
    pub largest_size: usize,
    /// How many calls succeed before one fails, if one is to fail.
    pub before_failure: Option<u64>,
    /// How many calls failed.
    pub failures: u64,
}

impl CallBehavior {
    /// Each call moves as many bytes as it can, and none fails.
    pub const UNBOUNDED: CallBehavior = CallBehavior {
        largest_size: usize::MAX,
        before_failure: None,
        failures: 0,
    };

    /// How many of the available bytes the next call moves.
    pub fn next_size(&mut self, available: usize) -> Result<usize, Failed>
        requires { self.old.failures < u64.MAX }
        ensures count { result_ok result ≡ size_of self.old available }
        ensures calls { self.new ≡ after_call self.old (size_of self.old available) }
    {
        // One call fails, and none after it (our choice).
        match self.before_failure {
            Some(0) => {
                self.before_failure = None;
                self.failures += 1;
                return Err(Failed);
            }
            Some(calls) => self.before_failure = Some(calls - 1),
            None => {}
        }
        Ok(available.min(self.largest_size))
    }
}
