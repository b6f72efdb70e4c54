//! The keeper.
ghost use Rattle.std.specs.Prelude.{◌≡◌, ◌≤◌, ℕ, List, IsTrue, IfOk, IfErr, OnOk};
ghost use Rattle.sqlite_trees.specs.Tree.{Trees};
ghost use Rattle.sqlite_trees.specs.View.{doubt, IsClean};
ghost use Rattle.enip_keep.specs.Kept.{Kept};
ghost use Rattle.enip_keep_sqlite.specs.Pairs.{pairs_in};
ghost use Rattle.enip_keep_sqlite.specs.Causes.{IsRefused};
ghost use Rattle.enip_keep_sqlite.specs.Rows.{IsAtRest, IsCalm, IsOnlyTable, Looks};
ghost use Rattle.enip_keep_sqlite.specs.Laws.{settled_at, stays_at};

use crate::check::check;
use crate::read::read_all;
use crate::write::{keep_error, put_all};
use enip_keep::{Entry, KeepError, Keeper, Restart};
use sqlite_trees::store::{Reopen, Store};
use std::alloc::Global;

/// Keeps entries as the rows of the first table of a store, in a transaction for each commit.
#[derive(Drop)]
pub struct Rows<S: Store + Drop> {
    store: S,
    alloc: Global,
}

impl<S: Store + Drop> Rows<S> {
    /// A keeper over a store in which no transaction is open.
    ///
    /// # Errors
    ///
    /// `Foreign` if the first table has a row that is not an entry, or if there is no table or another one.
    /// `Storage` if the storage fails, or did before. `Memory` if memory is refused.
    pub fn over(alloc: Global, store: S) -> Result<Rows<S>, KeepError>
        requires same { IsClean (S.Store.view store) → IsTrue (S.Store.view store).is_open
            → (S.Store.view store).trees ≡ (S.Store.view store).committed }
        ensures up { IfOk result (λ k. IsClean (S.Store.view k.store) → IsAtRest (S.Store.view k.store)) }
        ensures committed { IfOk result (λ k. IsClean (S.Store.view k.store)
            → (S.Store.view k.store).committed ≡ (S.Store.view store).committed) }
        ensures only { IfOk result (λ k. IsClean (S.Store.view k.store) → IsOnlyTable (S.Store.view store)) }
        ensures looks { IfOk result (λ k. IsClean (S.Store.view k.store)
            → Looks (S.Store.view store) (S.Store.view k.store)) }
        ensures calm { IfOk result (λ k. IsCalm S.Store.view S.Store.faults S.Store.recovers store k.store) }
        ensures cause { IfErr result (IsRefused S.Store.view S.Store.faults S.Store.recovers store) }
    {
        let mut store = store;
        check(alloc, &mut store)?;
        Ok(Rows { store, alloc })
    }
}

impl<S: Store + Drop> Keeper for Rows<S> {
    ghost kept = { λ k. pairs_in ((S.Store.view k.store).committed 0) };

    ghost may_leave = { λ k c. (db : Trees) × S.Store.recovers k.store db × (c ≡ pairs_in (db 0)) };

    ghost is_up = { λ k. IsAtRest (S.Store.view k.store) };

    ghost doubt = { λ k. doubt (S.Store.view k.store).is_clean };

    ghost faults = { λ k. S.Store.faults k.store };

    ghost settled = { λ k c clean up left.
        settled_at (S.Store.view k.store) (S.Store.recovers k.store) (S.Store.settled k.store) c up left };

    ghost stays = { λ k clean up.
        stays_at (S.Store.view k.store) (S.Store.recovers k.store) (S.Store.stays k.store) up };

    fn load(&mut self, alloc: Global) -> Result<Vec<Entry>, KeepError> {
        read_all(alloc, &mut self.store)
    }

    fn commit(&mut self, changes: &[Entry]) -> Result<(), KeepError> {
        put_all(self.alloc, &mut self.store, changes)?;
        match self.store.commit() {
            Ok(()) => Ok(()),
            Err(error) => Err(keep_error(error)),
        }
    }
}

impl<S: Reopen + Drop> Restart for Rows<S> {
    fn restart(&mut self) -> Result<(), KeepError> {
        match self.store.crash_and_reopen() {
            Ok(()) => check(self.alloc, &mut self.store),
            Err(error) => Err(keep_error(error)),
        }
    }
}
