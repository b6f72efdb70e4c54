//! Reads the rows, and finds out whether this keeper wrote them.
ghost use Rattle.std.specs.Prelude.{◌≡◌, ◌≤◌, pos, false, map, List, IsTrue, IfOk, IfErr, OnOk, IfSome, IfNone, IsSome};
ghost use Rattle.std.specs.List.{AllByRecursion};
ghost use Rattle.sqlite_trees.specs.View.{IsClean};
ghost use Rattle.sqlite_trees.specs.declared.store.Shape.TheVariants as kinds;
ghost use Rattle.enip_keep.specs.Kept.{pair_of, pairs_of};
ghost use Rattle.enip_keep_sqlite.specs.Pairs.{row_of, pair_in, pairs_in, IsOurs};
ghost use Rattle.enip_keep_sqlite.specs.Rows.{IsCalm, Looks, Gives, IsForeignAt};
ghost use Rattle.enip_keep_sqlite.specs.Causes.{IsRowCause};

use crate::write::keep_error;
use enip_keep::{Entry, KeepError};
use sqlite_trees::store::{Direction, Store};
use sqlite_value::row::Row;
use sqlite_value::value::ValueRef;
use std::alloc::{AllocError, Global};

/// The cursor that reads them.
const CURSOR: u16 = 0;

/// The entry that is stored as this row. `None` if this keeper does not write such a row.
fn entry_in(alloc: Global, row: &Row) -> Result<Option<Entry>, AllocError>
    ensures ours { IfOk result (λ found. IfSome found (λ entry. row.now ≡ row_of (pair_of entry))) }
    ensures foreign { IfOk result (λ found. IfNone found (¬ IsOurs row.now)) }
{
    if row.len() != 3 {
        return Ok(None);
    }
    match (row.get(0), row.get(1), row.get(2)) {
        (ValueRef::Int(key), ValueRef::Null, ValueRef::Blob(bytes)) if 0 <= key => {
            let bytes = Vec::from_slice(alloc, bytes)?;
            Ok(Some(Entry {
                key: key as u64,
                bytes,
            }))
        }
        _ => Ok(None),
    }
}

/// The entry at the cursor, which then moves on. `None` at the end. A row that this keeper does not write is refused.
fn next_entry<S: Store>(
    alloc: Global,
    store: &mut S,
    row: &mut Row,
) -> Result<Option<Entry>, KeepError>
    requires live { IsSome ((S.view store.old).cursors 0) }
    ensures live { OnOk result (IsSome ((S.view store.new).cursors 0)) }
    ensures ok { IsClean (S.view store.new) → IfOk result (Gives (S.view store.old) (S.view store.new)) }
    ensures looks { IsClean (S.view store.new) → OnOk result (Looks (S.view store.old) (S.view store.new)) }
    ensures cause { IsClean (S.view store.new) → IfErr result (IsRowCause (IsTrue (S.view store.old).is_broken)
        (IsForeignAt (S.view store.old)) (S.faults store.old) (S.faults store.new)) }
    ensures calm { IsCalm S.view S.faults S.recovers store.old store.new }
{
    match store.next(CURSOR, row) {
        Ok(true) => {}
        Ok(false) => return Ok(None),
        Err(error) => return Err(keep_error(error)),
    }
    match entry_in(alloc, row)? {
        Some(entry) => Ok(Some(entry)),
        None => Err(KeepError::Foreign),
    }
}

/// Places the cursor at the first row.
fn start<S: Store>(alloc: Global, store: &mut S) -> Result<(), KeepError>
    requires shape { IsClean (S.view store.old) → (S.view store.old).shape 0 ≡ kinds.Table }
    ensures live { OnOk result (IsSome ((S.view store.new).cursors 0)) }
    ensures ok { IsClean (S.view store.new) → OnOk result
        ((S.view store.new).cursors 0 ≡ Some ((S.view store.old).trees 0)) }
    ensures looks { IsClean (S.view store.new) → OnOk result (Looks (S.view store.old) (S.view store.new)) }
    ensures sound { IsClean (S.view store.new) → OnOk result ((S.view store.old).is_broken ≡ false) }
    ensures cause { IsClean (S.view store.new) → IfErr result
        (IsRowCause (IsTrue (S.view store.old).is_broken) ⊥ (S.faults store.old) (S.faults store.new)) }
    ensures calm { IsCalm S.view S.faults S.recovers store.old store.new }
{
    let first = Row::new(alloc);
    match store.seek(CURSOR, 0, &first, Direction::Forward) {
        Ok(()) => Ok(()),
        Err(error) => Err(keep_error(error)),
    }
}

/// All entries, in the order of their keys. A table with a row that this keeper does not write is refused.
pub(crate) fn read_all<S: Store>(alloc: Global, store: &mut S) -> Result<Vec<Entry>, KeepError>
    requires shape { IsClean (S.view store.old) → (S.view store.old).shape 0 ≡ kinds.Table }
    ensures rows { IsClean (S.view store.new) → IfOk result
        (λ all. map (λ e. row_of (pair_of e)) all.items ≡ (S.view store.old).trees 0) }
    ensures looks { IsClean (S.view store.new) → OnOk result (Looks (S.view store.old) (S.view store.new)) }
    ensures sound { IsClean (S.view store.new) → OnOk result ((S.view store.old).is_broken ≡ false) }
    ensures cause { IsClean (S.view store.new) → IfErr result (IsRowCause (IsTrue (S.view store.old).is_broken)
        (¬ AllByRecursion IsOurs ((S.view store.old).trees 0)) (S.faults store.old) (S.faults store.new)) }
    ensures calm { IsCalm S.view S.faults S.recovers store.old store.new }
{
    start(alloc, store)?;
    let mut row = Row::new(alloc);
    let mut all = Vec::new(alloc);
    'entries: for _ in 0..u64::MAX {
        let Some(entry) = next_entry(alloc, store, &mut row)? else {
            return Ok(all);
        };
        all.push(entry)?;
    }
    // no memory holds as many
    Err(KeepError::Memory)
}
