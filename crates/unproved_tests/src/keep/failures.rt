//! A device that counts, over a keeper in memory that fails at each call in turn. A round or a start makes one call of
//! the keeper to load and one to commit, and a crash makes one more.

use enip_keep::{
    Device, Entry, Event, KeepError, Keeper, MemoryKeeper, Server, StorageFault, Tally, live,
};
use std::alloc::Global;
use std::process::Abort;
use std::test::Fail;

/// The total before the first round, and what the rounds add.
const FIRST: u8 = 40;

const ADDED: [u8; 3] = [1, 10, 100];

fn start(alloc: Global, keeper: MemoryKeeper) -> Result<Server<Tally, MemoryKeeper>, KeepError> {
    Server::start(alloc, keeper, &FIRST)
}

/// A round, a crash, two rounds, and a crash.
fn events(alloc: Global) -> Result<Vec<Event<u8, u8>>, Fail> {
    let mut events = Vec::new(alloc);
    events.push(Event::Round(ADDED[0]))?;
    events.push(Event::Restart(FIRST))?;
    events.push(Event::Round(ADDED[1]))?;
    events.push(Event::Round(ADDED[2]))?;
    events.push(Event::Restart(FIRST))?;
    Ok(events)
}

/// The answers leave once the total is kept.
#[test]
fn answers_leave(rt: HostRuntime) -> Result<(), Fail> {
    let mut server = start(rt.alloc(), MemoryKeeper::new(rt.alloc()))?;
    server.round(2, &mut ())?;
    server.round(3, &mut ())?;
    assert!(rt; server.device().sent() == [42, 45].as_slice());
    server.restart(rt.alloc(), &7)?;
    assert!(rt; server.device().total() == 45 && server.device().sent().is_empty());
    Ok(())
}

/// A start keeps the first total, so a later configuration does not change it.
#[test]
fn start_is_kept(rt: HostRuntime) -> Result<(), Fail> {
    let mut server = start(rt.alloc(), MemoryKeeper::new(rt.alloc()))?;
    server.restart(rt.alloc(), &7)?;
    assert!(rt; server.device().total() == FIRST);
    Ok(())
}

/// A commit that fails: no answer leaves, each further round is stopped, and a start finds the total before the round,
/// or after it if the changes were kept.
fn check_failed_commit<A: Abort>(rt: &A, alloc: Global, keeps_failed: bool) -> Result<(), Fail> {
    let mut keeper = MemoryKeeper::new(alloc);
    // the load and the commit of the start, and the commit of a round
    keeper.fail_after(3, keeps_failed);
    let mut server = start(alloc, keeper)?;
    server.round(2, &mut ())?;
    assert!(rt; server.round(3, &mut ()) == Err(KeepError::Storage(StorageFault::Failed)));
    assert!(rt; server.device().sent() == [42].as_slice() && !server.is_serving());
    assert!(rt; server.round(4, &mut ()) == Err(KeepError::Stopped));
    assert!(rt; server.device().sent() == [42].as_slice());
    server.restart(alloc, &FIRST)?;
    let found = if keeps_failed { 45 } else { 42 };
    assert!(rt; server.device().total() == found && server.is_serving());
    server.round(1, &mut ())?;
    assert!(rt; server.device().sent() == [found + 1].as_slice());
    Ok(())
}

#[test]
fn failed_commit(rt: HostRuntime) -> Result<(), Fail> {
    check_failed_commit(&rt, rt.alloc(), false)?;
    check_failed_commit(&rt, rt.alloc(), true)
}

/// A start fails at its load, and at its commit.
#[test]
fn failed_start(rt: HostRuntime) -> Result<(), Fail> {
    for calls in 0..2u64 {
        let mut keeper = MemoryKeeper::new(rt.alloc());
        keeper.fail_after(calls, false);
        assert!(rt;
            start(rt.alloc(), keeper).err() == Some(KeepError::Storage(StorageFault::Failed))
        );
    }
    Ok(())
}

/// Entries of another device are refused.
#[test]
fn other_device(rt: HostRuntime) -> Result<(), Fail> {
    let mut bytes = Vec::new(rt.alloc());
    bytes.push(5)?;
    let mut keeper = MemoryKeeper::new(rt.alloc());
    keeper.commit(&[Entry { key: 2, bytes }])?;
    assert!(rt; start(rt.alloc(), keeper).err() == Some(KeepError::Refused));
    Ok(())
}

/// The total after the rounds that went well, with those that failed where `with_failed` says so.
fn total_after(went: &[bool], with_failed: bool) -> u8 {
    let mut total = FIRST;
    for (at, added) in [(0, ADDED[0]), (2, ADDED[1]), (3, ADDED[2])] {
        if went[at] || with_failed {
            total += added;
        }
    }
    total
}

/// The events with a keeper whose call of this number fails. Afterwards a start finds the rounds that went well, and
/// possibly one that failed.
fn check_life<A: Abort>(rt: &A, alloc: Global, calls: u64, keeps_failed: bool) -> Result<(), Fail> {
    let mut keeper = MemoryKeeper::new(alloc);
    keeper.fail_after(2 + calls, keeps_failed);
    let mut server = start(alloc, keeper)?;
    let mut went = Vec::new(alloc);
    live(alloc, &mut server, events(alloc)?, &mut (), &mut went)?;
    assert!(rt; went.len() == 5);
    // the failing call may be one of this start
    if server.restart(alloc, &FIRST).is_err() {
        server.restart(alloc, &FIRST)?;
    }
    let total = server.device().total();
    let mut can_be = total == total_after(&went, false);
    for at in [0usize, 2, 3] {
        if !went[at] {
            // one that failed may be among them
            let mut with_one = Vec::from_slice(alloc, &went)?;
            with_one[at] = true;
            can_be = can_be || (keeps_failed && total == total_after(&with_one, false));
        }
    }
    assert!(rt; can_be, "{calls} {keeps_failed}: {total}");
    Ok(())
}

#[test]
fn each_call_fails(rt: HostRuntime) -> Result<(), Fail> {
    for calls in 0..10u64 {
        check_life(&rt, rt.alloc(), calls, false)?;
        check_life(&rt, rt.alloc(), calls, true)?;
    }
    Ok(())
}
