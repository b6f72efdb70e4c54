//! The keeper of a device of which nothing is kept.

ghost use Rattle.std.specs.Prelude.{◌≡◌, ⊤, [], refl};

use enip_keep::{Entry, KeepError, Keeper, StorageFault};
use std::alloc::Global;

/// A keeper that keeps nothing. It takes no changes.
#[derive(Drop)]
pub struct NoKeeper {
    faults: u64,
}

impl NoKeeper {
    /// A keeper that has refused nothing yet.
    pub fn new() -> NoKeeper
        ensures { result.faults ≡ 0 }
    {
        NoKeeper { faults: 0 }
    }
}

impl Keeper for NoKeeper {
    ghost kept = { λ _. [] };

    ghost may_leave = { λ _ c. c ≡ [] };

    ghost is_up = { λ _. ⊤ };

    ghost doubt = { λ _. 0 };

    ghost faults = { λ k. k.faults };

    ghost settled = { λ k c sure up left. left };

    ghost stays = { λ k sure up. refl };

    fn load(&mut self, alloc: Global) -> Result<Vec<Entry>, KeepError> {
        Ok(Vec::new(alloc))
    }

    fn commit(&mut self, changes: &[Entry]) -> Result<(), KeepError> {
        match changes.split_first() {
            None => Ok(()),
            Some(_) => {
                self.faults = self.faults.saturating_add(1);
                Err(KeepError::Storage(StorageFault::Failed))
            }
        }
    }
}
