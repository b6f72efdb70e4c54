//! The keeper over a file.
ghost use Rattle.std.specs.Prelude.{◌≡◌, ℕ, Option, IfOk, IfErr, IsTrue, is_some};
ghost use Rattle.memchr.specs.Find.{FindsNeedle};
ghost use Rattle.sqlite_wal.specs.Files.{image_at};
ghost use Rattle.sqlite_trees.specs.View.{IsClean};
ghost use Rattle.sqlite_store.specs.FileStore.{recovers, view};
ghost use Rattle.sqlite.specs.Held.{AreDatabases};
ghost use Rattle.enip_keep_sqlite.specs.Files.{begins_as_kept, table_text};
ghost use Rattle.enip_keep_sqlite.specs.Found.{IsFoundIn};
ghost use Rattle.enip_keep_sqlite.specs.Opening.{IsNotOpened};
ghost use Rattle.enip_keep_sqlite.specs.Rows.{IsAtRest};

use crate::fault::{FileFault, fault_of, fault_of_rows};
use crate::rows::Rows;
use enip_keep::Keeper;
use memchr::memmem;
use sqlite::{Connection, FileFrom, FileStore, Start};
use sqlite_disk::Disk;

/// The table. The key is the rowid, so a row has no column but the bytes.
const TABLE: &str = "CREATE TABLE kept (key INTEGER PRIMARY KEY, value BLOB NOT NULL) STRICT";

/// A query that only a database with such a table accepts.
const QUERY: &str = "SELECT key, value FROM kept";

/// The bytes of the header of a database, and what it begins with. (SQLite, Database File Format, 1.3.)
const HEADER: usize = 100;

const MARK: &[u8] = b"SQLite format 3\0";

/// Whether a file that begins with these bytes can have entries: they are at least the header of a database. What makes a
/// database of a shorter file would take it for a new one.
pub fn begins_as_kept(front: &[u8]) -> bool
    ensures { result ≡ begins_as_kept front.now }
{
    front.len() >= HEADER && front.strip_prefix(MARK).is_some()
}

/// Whether the first page of a database has the text of the table. That of a database whose log was never copied into it
/// need not have it.
pub fn names_table(page: &[u8]) -> bool
    ensures { (at : Option ℕ) × FindsNeedle page.now table_text 0 at × (result ≡ is_some at) }
{
    memmem::find(page, TABLE.as_bytes()).is_some()
}

/// Makes the file, with an empty table, unless it has a table or a view already.
///
/// # Errors
///
/// `Full`, `Failed` or `CannotOpen` if the file cannot be opened or written. `Foreign` if it is no database, or a damaged
/// one. `Memory` if memory is refused.
pub fn make_file<S: Start>(rt: &HostRuntime, path: &str, start: S) -> Result<(), FileFault> {
    let mut connection = match Connection::open_from(rt, path, true, start) {
        Ok(connection) => connection,
        Err((error, _)) => return Err(fault_of(error)),
    };
    let schema = connection.schema();
    if !schema.tables.is_empty() || !schema.views.is_empty() {
        return Ok(());
    }
    match connection.execute(TABLE, &[]) {
        Ok(_) => Ok(()),
        Err(error) => Err(fault_of(error)),
    }
}

/// Opens a file that has the table, whatever a crash left of it. It mends what a crash left half done.
///
/// `start` is what the library assumes of the file. `Unknown` assumes that a write which a power cut tears leaves each
/// byte as it was or as it was written, and syncs most commits once. `Wary` does not, and syncs each commit twice.
///
/// # Errors
///
/// `Full`, `Failed` or `CannotOpen` if the file cannot be opened or read, or not be mended. `Foreign` if it holds anything
/// but such entries. `Memory` if memory is refused.
pub fn open<S: Start>(
    rt: &HostRuntime,
    path: &str,
    start: S,
) -> Result<Rows<FileStore<FileFrom<S>>>, FileFault>
    ensures up { IfOk result (λ k. IsClean (view k.store) → IsAtRest (view k.store)) }
    ensures found { IfOk result (λ k. IsClean (view k.store)
        → IsFoundIn (image_at S.Start) (⟦<Rows<FileStore<FileFrom<S>>> as Keeper>⟧.kept k)) }
    ensures databases { IfOk result (λ k. IsClean (view k.store)
        → IsTrue (view k.store).is_numbered × AreDatabases (recovers k.store)) }
    ensures cause { IfErr result (IsNotOpened ⟦<FileFrom<S> as Disk>⟧ (image_at S.Start)) }
{
    let mut connection = match Connection::open_from(rt, path, true, start) {
        Ok(connection) => connection,
        Err((error, _)) => return Err(fault_of(error)),
    };
    if let Some(error) = connection.prepare(QUERY).err() {
        return Err(fault_of(error));
    }
    match Rows::over(rt.alloc(), connection.into_store()) {
        Ok(rows) => Ok(rows),
        Err(error) => Err(fault_of_rows(error)),
    }
}
