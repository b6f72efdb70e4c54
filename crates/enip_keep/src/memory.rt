//! A keeper in memory.
ghost use Rattle.std.specs.Prelude.{◌≡◌, ◌≤◌, ◌+◌, ℕ, false, [], IsTrue, ◌↔◌};
ghost use Rattle.enip_keep.specs.Causes.{HasFailed};
ghost use Rattle.enip_keep.specs.Kept.{pairs_of};

use crate::entries::{copy_all, set_all};
use crate::{Entry, KeepError, Keeper, Restart, StorageFault};
use std::alloc::Global;

/// A keeper in memory, for tests and simulations. It can be told to fail.
///
/// ```
/// let mut keeper = MemoryKeeper::new(alloc);
/// keeper.fail_after(2, true); // the third call fails, and if it is a commit, its changes are kept all the same
/// ```
#[derive(Drop)]
pub struct MemoryKeeper {
    alloc: Global,
    entries: Vec<Entry>,
    /// How many calls succeed before one fails. `None` if none is to fail.
    calls_left: Option<u64>,
    /// Whether a commit that fails keeps its changes.
    keeps_failed: bool,
    is_up: bool,
    faults: u64,
}

impl MemoryKeeper {
    /// A keeper that keeps nothing yet.
    pub fn new(alloc: Global) -> MemoryKeeper
        ensures kept { pairs_of result.entries.items ≡ [] }
        ensures up { IsTrue result.is_up }
        ensures sure { result.calls_left ≡ None }
    {
        MemoryKeeper {
            alloc,
            entries: Vec::new(alloc),
            calls_left: None,
            keeps_failed: false,
            is_up: true,
            faults: 0,
        }
    }

    /// Lets this many calls of `load`, `commit` and `restart` succeed, and then one fail. If that is a commit,
    /// `keeps_failed` says whether its changes are kept all the same, as if the power was cut right after them.
    pub fn fail_after(&mut self, calls: u64, keeps_failed: bool)
        ensures { self.new ≡ record self.old { calls_left = Some calls; keeps_failed = keeps_failed } }
    {
        self.calls_left = Some(calls);
        self.keeps_failed = keeps_failed;
    }

    /// Counts a call. Returns whether it fails.
    fn count_call(&mut self) -> bool
        ensures fails { IsTrue result ↔ (self.old.calls_left ≡ Some 0) }
        ensures down { IsTrue result → self.new.is_up ≡ false }
        ensures up { result ≡ false → self.new.is_up ≡ self.old.is_up }
        ensures entries { self.new.entries ≡ self.old.entries }
        ensures failed { IsTrue result → HasFailed self.old.faults self.new.faults }
        ensures faults { self.old.faults ≤ self.new.faults }
        ensures counted { (calls : ℕ) → self.old.calls_left ≡ Some (calls + 1)
            → self.new ≡ record self.old { calls_left = Some calls } }
        ensures sure { self.old.calls_left ≡ None → self.new ≡ self.old }
    {
        match self.calls_left {
            None => false,
            Some(0) => {
                self.calls_left = None;
                self.is_up = false;
                self.faults = self.faults.saturating_add(1);
                true
            }
            Some(calls) => {
                self.calls_left = Some(calls - 1);
                false
            }
        }
    }
}

impl Keeper for MemoryKeeper {
    ghost kept = { λ k. pairs_of k.entries.items };

    ghost may_leave = { λ k c. c ≡ pairs_of k.entries.items };

    ghost is_up = { λ k. IsTrue k.is_up };

    ghost doubt = { λ _. 0 };

    ghost faults = { λ k. k.faults };

    ghost settled = { λ k c sure up left. left };

    ghost use Rattle.std.specs.Prelude.{refl};

    ghost stays = { λ k sure up. refl };

    fn load(&mut self, alloc: Global) -> Result<Vec<Entry>, KeepError> {
        if self.count_call() {
            return Err(KeepError::Storage(StorageFault::Failed));
        }
        let mut all = Vec::new(alloc);
        copy_all(alloc, &self.entries, &mut all)?;
        Ok(all)
    }

    fn commit(&mut self, changes: &[Entry]) -> Result<(), KeepError> {
        let mut changed = Vec::new(self.alloc);
        copy_all(self.alloc, &self.entries, &mut changed)?;
        set_all(self.alloc, &mut changed, changes)?;
        let fails = self.count_call();
        if !fails || self.keeps_failed {
            self.entries = changed;
        }
        if fails {
            Err(KeepError::Storage(StorageFault::Failed))
        } else {
            Ok(())
        }
    }
}

impl Restart for MemoryKeeper {
    fn restart(&mut self) -> Result<(), KeepError> {
        if self.count_call() {
            return Err(KeepError::Storage(StorageFault::Failed));
        }
        self.is_up = true;
        Ok(())
    }
}
