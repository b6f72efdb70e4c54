//! Puts entries as rows.
ghost use Rattle.std.specs.Prelude.{◌≡◌, ◌≤◌, ◌<◌, ◌^◌, ℕ, All, IsTrue, IfOk, IfErr, OnOk, [], ◌∷◌};
ghost use Rattle.sqlite_trees.specs.View.{IsClean};
ghost use Rattle.sqlite_trees.specs.declared.store.Shape.TheVariants as kinds;
ghost use Rattle.enip_keep.specs.Kept.{pair_of, pairs_of, IsKeepable};
ghost use Rattle.enip_keep_sqlite.specs.Causes.{keep_error, IsRowCause};
ghost use Rattle.enip_keep_sqlite.specs.Pairs.{row_of};
ghost use Rattle.enip_keep_sqlite.specs.Rows.{IsCalm, Puts};

use enip_keep::{Entry, KeepError, StorageFault};
use sqlite_trees::error::StoreError;
use sqlite_trees::store::Store;
use sqlite_value::row::Row;
use sqlite_value::value::ValueRef;
use std::alloc::{AllocError, Global};

/// What a keeper reports of an error of its store.
pub(crate) fn keep_error(error: StoreError) -> KeepError
    ensures { result ≡ keep_error error }
{
    match error {
        StoreError::OutOfMemory => KeepError::Memory,
        StoreError::Full => KeepError::Storage(StorageFault::Full),
        StoreError::Corrupt => KeepError::Storage(StorageFault::Damaged),
        StoreError::Io | StoreError::Broken | StoreError::Unstorable => {
            KeepError::Storage(StorageFault::Failed)
        }
    }
}

/// The row that an entry is stored as.
fn row_for(alloc: Global, entry: &Entry) -> Result<Row, AllocError>
    requires { IsKeepable entry.now }
    ensures { IfOk result (λ row. row ≡ row_of (pair_of entry.now)) }
{
    let mut row = Row::new(alloc);
    row.push(ValueRef::Int(entry.key as i64))?;
    row.push(ValueRef::Null)?;
    row.push(ValueRef::Blob(&entry.bytes))?;
    Ok(row)
}

/// Puts an entry. Nothing is committed.
fn put_one<S: Store>(alloc: Global, store: &mut S, entry: &Entry) -> Result<(), KeepError>
    requires shape { IsClean (S.view store.old) → (S.view store.old).shape 0 ≡ kinds.Table }
    requires reals { IsClean (S.view store.old) → (S.view store.old).reals 0 ≡ 0 }
    requires keepable { IsKeepable entry.now }
    ensures ok { IsClean (S.view store.new) → OnOk result
        (Puts (S.view store.old) (S.view store.new) (pair_of entry.now ∷ [])) }
    ensures cause { IsClean (S.view store.new) → IfErr result
        (IsRowCause (IsTrue (S.view store.old).is_broken) ⊥ (S.faults store.old) (S.faults store.new)) }
    ensures calm { IsCalm S.view S.faults S.recovers store.old store.new }
{
    let row = row_for(alloc, entry)?;
    match store.put(0, &row) {
        Ok(()) => Ok(()),
        Err(error) => Err(keep_error(error)),
    }
}

/// Puts each entry, the first of them first. Nothing is committed.
pub(crate) fn put_all<S: Store>(
    alloc: Global,
    store: &mut S,
    changes: &[Entry],
) -> Result<(), KeepError>
    requires shape { IsClean (S.view store.old) → (S.view store.old).shape 0 ≡ kinds.Table }
    requires reals { IsClean (S.view store.old) → (S.view store.old).reals 0 ≡ 0 }
    requires keepable { All IsKeepable changes.now }
    ensures ok { IsClean (S.view store.new) → OnOk result
        (Puts (S.view store.old) (S.view store.new) (pairs_of changes.now)) }
    ensures cause { IsClean (S.view store.new) → IfErr result
        (IsRowCause (IsTrue (S.view store.old).is_broken) ⊥ (S.faults store.old) (S.faults store.new)) }
    ensures calm { IsCalm S.view S.faults S.recovers store.old store.new }
{
    for entry in changes {
        put_one(alloc, store, entry)?;
    }
    Ok(())
}
