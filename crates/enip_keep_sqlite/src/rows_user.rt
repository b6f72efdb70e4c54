//! What is done with a file that was opened, in code that does not know the type of its rows.

ghost use Rattle.std.specs.Prelude.{◌≡◌, IfErr};
ghost use Rattle.sqlite_wal.specs.Files.{image_at};
ghost use Rattle.enip_keep_sqlite.specs.Found.{IsFoundIn};
ghost use Rattle.enip_keep_sqlite.specs.Opening.{IsNotOpened};

use crate::fault::FileFault;
use crate::file::open;
use enip_keep::Keeper;
use sqlite::{FileFrom, Start};
use sqlite_disk::Disk;

/// What is done with the rows of a file once it is open.
///
/// Their type is a parameter, so code that owns them does not depend on how a database is closed: only this crate does.
/// `S` stands for what the file and its log held, as at [`open`].
pub trait RowsUser<S: Start, R> {
    /// Goes on with the rows. Unless what they keep is in doubt, they are up, and keep what the last commit left there.
    fn run<K: Keeper + Drop>(self, rt: &HostRuntime, rows: K) -> R
        requires up { K.doubt rows ≡ 0 → K.is_up rows }
        requires found { K.doubt rows ≡ 0 → IsFoundIn (image_at S.Start) (K.kept rows) };
}

/// Opens a file as [`open`] does, hands its rows on, and returns what comes of that.
///
/// # Errors
///
/// Those of [`open`]. Then nobody gets rows.
pub fn with_rows<S: Start, R, U: RowsUser<S, R> + Drop>(
    rt: &HostRuntime,
    path: &str,
    start: S,
    user: U,
) -> Result<R, FileFault>
    ensures cause { IfErr result (IsNotOpened ⟦<FileFrom<S> as Disk>⟧ (image_at S.Start)) }
{
    match open(rt, path, start) {
        Ok(rows) => Ok(hand_on::<S, _, _, _>(rt, rows, user)),
        Err(error) => Err(error),
    }
}

/// Hands rows on.
fn hand_on<S: Start, K: Keeper + Drop, R, U: RowsUser<S, R> + Drop>(
    rt: &HostRuntime,
    rows: K,
    user: U,
) -> R
    requires up { K.doubt rows ≡ 0 → K.is_up rows }
    requires found { K.doubt rows ≡ 0 → IsFoundIn (image_at S.Start) (K.kept rows) }
{
    user.run(rt, rows)
}
