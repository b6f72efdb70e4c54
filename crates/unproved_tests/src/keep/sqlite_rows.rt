//! The keeper over a table of SQLite, in memory.

use enip_keep::{Entry, KeepError, Keeper, Server, Tally};
use enip_keep_sqlite::Rows;
use sqlite::Connection;
use sqlite_trees::memory::MemStore;
use std::alloc::Global;
use std::test::Fail;

const TABLE: &str = "CREATE TABLE kept (key INTEGER PRIMARY KEY, value BLOB NOT NULL) STRICT";

/// A store after these statements.
fn store(alloc: Global, statements: &str) -> Result<MemStore, Fail> {
    let mut connection = Connection::open_in_memory(alloc)?;
    connection.execute_batch(statements)?;
    Ok(connection.into_store())
}

fn entry(alloc: Global, key: u64, bytes: &[u8]) -> Result<Entry, Fail> {
    Ok(Entry {
        key,
        bytes: Vec::from_slice(alloc, bytes)?,
    })
}

/// What was committed is loaded in the order of the keys, each key once.
#[test]
fn loaded_in_order(rt: HostRuntime) -> Result<(), Fail> {
    let alloc = rt.alloc();
    let mut keeper = Rows::over(alloc, store(alloc, TABLE)?)?;
    assert!(rt; keeper.load(alloc)?.is_empty());
    keeper.commit(&[entry(alloc, 300, b"ab")?, entry(alloc, 7, b"")?])?;
    keeper.commit(&[entry(alloc, 300, b"xyz")?, entry(alloc, 65_536, b"c")?])?;
    let all = keeper.load(alloc)?;
    assert!(rt; all.len() == 3);
    for (at, key, bytes) in [(0usize, 7u64, ""), (1, 300, "xyz"), (2, 65_536, "c")] {
        assert!(rt; all[at].key == key && all[at].bytes.as_slice() == bytes.as_bytes());
    }
    Ok(())
}

/// A device starts from what was committed.
#[test]
fn device_starts_again(rt: HostRuntime) -> Result<(), Fail> {
    let alloc = rt.alloc();
    let keeper = Rows::over(alloc, store(alloc, TABLE)?)?;
    let mut server: Server<Tally, Rows<MemStore>> = Server::start(alloc, keeper, &40)?;
    server.round(2, &mut ())?;
    server.restart(alloc, &7)?;
    assert!(rt; server.device().total() == 42);
    Ok(())
}

/// Stores that hold something else.
const FOREIGN: [&str; 5] = [
    "CREATE TABLE kept (key INTEGER PRIMARY KEY, value TEXT NOT NULL) STRICT; INSERT INTO kept VALUES (1, 'a')",
    "CREATE TABLE kept (key INTEGER PRIMARY KEY, value BLOB) STRICT; INSERT INTO kept VALUES (1, NULL)",
    "CREATE TABLE kept (key INTEGER PRIMARY KEY, value BLOB NOT NULL) STRICT; INSERT INTO kept VALUES (-1, x'01')",
    "CREATE TABLE kept (key INTEGER PRIMARY KEY, a BLOB, b BLOB) STRICT; INSERT INTO kept VALUES (1, x'01', x'02')",
    "",
];

#[test]
fn foreign_refused(rt: HostRuntime) -> Result<(), Fail> {
    for statements in FOREIGN {
        let found = Rows::over(rt.alloc(), store(rt.alloc(), statements)?);
        assert!(rt; found.err() == Some(KeepError::Foreign), "{statements}");
    }
    Ok(())
}
