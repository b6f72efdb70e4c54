//! Whether a store holds what this keeper writes, and nothing else.
ghost use Rattle.std.specs.Prelude.{◌≡◌, ◌≤◌, false, IsTrue, IfErr, OnOk};
ghost use Rattle.sqlite_trees.specs.View.{IsClean};
ghost use Rattle.enip_keep_sqlite.specs.Causes.{IsRowCause};
ghost use Rattle.enip_keep_sqlite.specs.Rows.{IsAtRest, IsCalm, IsForeign, IsOnlyTable, Looks};

use crate::read::read_all;
use enip_keep::KeepError;
use sqlite_trees::store::{Shape, Store};
use std::alloc::Global;

/// Whether the first tree is a table without a column of the type REAL, and the only one.
fn has_table<S: Store>(store: &S) -> bool
    ensures shape { IsTrue result → (S.view store.now).shape 0 ≡ Shape.Table }
    ensures reals { IsTrue result → (S.view store.now).reals 0 ≡ 0 }
    ensures alone { IsTrue result → (S.view store.now).shape 1 ≡ Shape.Absent }
    ensures other { result ≡ false → ¬ IsOnlyTable (S.view store.now) }
{
    match (store.shape(0), store.shape(1)) {
        (Shape::Table, Shape::Absent) => store.reals(0) == 0,
        _ => false,
    }
}

/// Reads each row of a store in which no transaction is open. Any row that this keeper does not write is refused.
pub(crate) fn check<S: Store>(alloc: Global, store: &mut S) -> Result<(), KeepError>
    requires same { IsClean (S.view store.old) → IsTrue (S.view store.old).is_open
        → (S.view store.old).trees ≡ (S.view store.old).committed }
    ensures rest { IsClean (S.view store.new) → OnOk result (IsAtRest (S.view store.new)) }
    ensures committed { IsClean (S.view store.new) → OnOk result
        ((S.view store.new).committed ≡ (S.view store.old).committed) }
    ensures only { IsClean (S.view store.new) → OnOk result (IsOnlyTable (S.view store.old)) }
    ensures looks { IsClean (S.view store.new) → OnOk result (Looks (S.view store.old) (S.view store.new)) }
    ensures cause { IsClean (S.view store.new) → IfErr result (IsRowCause (IsTrue (S.view store.old).is_broken)
        (IsForeign (S.view store.old)) (S.faults store.old) (S.faults store.new)) }
    ensures calm { IsCalm S.view S.faults S.recovers store.old store.new }
{
    if !has_table(store) {
        return Err(KeepError::Foreign);
    }
    read_all(alloc, store)?;
    Ok(())
}
