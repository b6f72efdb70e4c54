//! The texts of errors.

use crate::texts::check_texts;
use enip_keep::{KeepError, StorageFault};
use enip_keep_sqlite::{FileFault, begins_as_kept, names_table};
use std::test::Fail;

#[test]
fn errors(rt: HostRuntime) -> Result<(), Fail> {
    check_texts(
        &rt,
        rt.alloc(),
        &[
            (KeepError::Memory, "out of memory"),
            (KeepError::Storage(StorageFault::Full), "no space left"),
            (
                KeepError::Storage(StorageFault::Failed),
                "the storage failed",
            ),
            (
                KeepError::Storage(StorageFault::Damaged),
                "the storage is damaged",
            ),
            (
                KeepError::Storage(StorageFault::Removed),
                "the storage was removed or replaced",
            ),
            (
                KeepError::Storage(StorageFault::LogRemoved),
                "the log of the storage was removed or replaced",
            ),
            (
                KeepError::Storage(StorageFault::NoteFull),
                "no space left for the number of the round",
            ),
            (
                KeepError::Storage(StorageFault::NoteFailed),
                "the number of the round was not noted",
            ),
            (KeepError::Stopped, "stopped by an earlier failure"),
            (KeepError::Foreign, "the storage holds something else"),
            (
                KeepError::Refused,
                "the entries are not those of this device",
            ),
        ],
    )
}

#[test]
fn of_files(rt: HostRuntime) -> Result<(), Fail> {
    check_texts(
        &rt,
        rt.alloc(),
        &[
            (FileFault::Memory, "out of memory"),
            (FileFault::Full, "no space left"),
            (FileFault::Failed, "a read or a write failed"),
            (FileFault::CannotOpen, "cannot be opened"),
            (FileFault::InUse, "the file is in use"),
            (FileFault::Foreign, "the file holds something else"),
        ],
    )
}

/// What a file of a database begins with.
const MARK: &[u8] = b"SQLite format 3\0";

const TABLE: &[u8] = b"CREATE TABLE kept (key INTEGER PRIMARY KEY, value BLOB NOT NULL) STRICT";

/// A page of this size with the mark at its front and a text at an offset.
fn page(rt: &HostRuntime, size: usize, at: usize, text: &[u8]) -> Result<Vec<u8>, Fail> {
    let mut page = Vec::new(rt.alloc());
    page.resize(size, 0)?;
    for (to, from) in page.iter_mut().zip(MARK) {
        *to = *from;
    }
    for (to, from) in page.iter_mut().skip(at).zip(text) {
        *to = *from;
    }
    Ok(page)
}

#[test]
fn first_bytes(rt: HostRuntime) -> Result<(), Fail> {
    for (size, wanted) in [(16usize, false), (99, false), (100, true), (4_096, true)] {
        let page = page(&rt, size, size, b"")?;
        assert!(rt; begins_as_kept(page.as_slice()) == wanted, "{size}");
        assert!(rt; !names_table(page.as_slice()), "{size}");
    }
    for at in 0..16 {
        let page = page(&rt, 4_096, at, b"?")?;
        assert!(rt; !begins_as_kept(page.as_slice()), "{at}");
    }
    assert!(rt; !begins_as_kept(b"") && !names_table(b""));
    for at in [100usize, 3_000, 4_025] {
        assert!(rt;
            names_table(page(&rt, 4_096, at, TABLE)?.as_slice()),
            "{at}"
        );
    }
    // cut short, and with another letter at its end
    assert!(rt; !names_table(page(&rt, 4_096, 4_026, TABLE)?.as_slice()));
    assert!(rt; !names_table(page(&rt, 4_096, 100, &TABLE[..TABLE.len() - 1])?.as_slice()));
    assert!(rt; names_table(TABLE));
    Ok(())
}
