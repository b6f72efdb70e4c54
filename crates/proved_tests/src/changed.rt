//! Replies with one byte changed, at a client that awaits them.

use crate::same::check_same;
use enip_client::{Client, Heard, Hearing};
use std::alloc::Global;
use std::process::Abort;
use std::test::Fail;
use test_fixtures::client::{
    ADDED, CLOSED, GOT, OPENED, REGISTERED, StartState, client_at, hear, with_bytes,
};

/// Asserts that some of a changed reply is taken. Returns whether it is ignored.
fn is_ignored<A: Abort>(rt: &A, hearing: Hearing<'_>, length: usize) -> bool {
    check_same(rt, 0 < hearing.taken && hearing.taken <= length, true);
    hearing.heard == Heard::Nothing
}

/// Feeds a changed reply: the call returns, and a fault lasts. Returns whether the client ignored the reply.
fn stays<A: Abort>(rt: &A, client: &mut Client, changed: &[u8]) -> bool {
    let ignored = is_ignored(rt, hear(client, changed), changed.len());
    let Some(fault) = client.fault() else {
        return ignored;
    };
    check_same(rt, client.unregister(), Err(fault));
    false
}

/// The same, with this byte of the reply changed.
fn stays_changed<A: Abort>(
    rt: &A,
    alloc: Global,
    client: &mut Client,
    reply: &[u8],
    change: (usize, u8),
) -> Result<bool, Fail> {
    let changed = with_bytes(alloc, reply, &[change])?;
    Ok(stays(rt, client, &changed))
}

/// Feeds a reply with one byte changed. If the client ignores it, its state is unchanged, and it gets the next reply.
/// A new client replaces it otherwise, and if the length is changed, since the bytes may not be a whole frame then.
fn check_changed<A: Abort>(
    rt: &A,
    alloc: Global,
    client: &mut Client,
    start: StartState,
    reply: &[u8],
    change: (usize, u8),
) -> Result<(), Fail> {
    let stays = stays_changed(rt, alloc, client, reply, change)?;
    if !stays || change.0 == 2 || change.0 == 3 {
        *client = client_at(alloc, start)?;
    }
    Ok(())
}

/// Replaces each byte of a reply by each of the 255 others. Returns the number of changed replies.
fn check_each<A: Abort>(
    rt: &A,
    alloc: Global,
    client: &mut Client,
    start: StartState,
    reply: &[u8],
) -> Result<usize, Fail> {
    let mut texts = 0usize;
    for (place, old) in reply.iter().enumerate() {
        for change in 1..=255u8 {
            let change = (place, old.wrapping_add(change));
            check_changed(rt, alloc, client, start, reply, change)?;
            texts = texts.saturating_add(1);
        }
    }
    Ok(texts)
}

/// The same at a client in this state.
fn changed_bytes<A: Abort>(
    rt: &A,
    alloc: Global,
    start: StartState,
    reply: &[u8],
) -> Result<usize, Fail> {
    let mut client = client_at(alloc, start)?;
    check_each(rt, alloc, &mut client, start, reply)
}

/// Asserts the number of changed replies.
fn check_changes<A: Abort>(
    rt: &A,
    alloc: Global,
    start: StartState,
    reply: &[u8],
    texts: usize,
) -> Result<(), Fail> {
    check_same(rt, changed_bytes(rt, alloc, start, reply)?, texts);
    Ok(())
}

#[test]
fn changed_register_replies(rt: HostRuntime) -> Result<(), Fail> {
    check_changes(
        &rt,
        rt.alloc(),
        StartState::AwaitsSession,
        REGISTERED,
        7_140,
    )
}

#[test]
fn changed_open_replies(rt: HostRuntime) -> Result<(), Fail> {
    check_changes(
        &rt,
        rt.alloc(),
        StartState::AwaitsConnection,
        OPENED,
        17_850,
    )
}

#[test]
fn changed_replies(rt: HostRuntime) -> Result<(), Fail> {
    check_changes(&rt, rt.alloc(), StartState::AwaitsReply, GOT, 11_730)
}

#[test]
fn changed_items(rt: HostRuntime) -> Result<(), Fail> {
    check_changes(&rt, rt.alloc(), StartState::AwaitsItem, ADDED, 13_770)
}

#[test]
fn changed_close_replies(rt: HostRuntime) -> Result<(), Fail> {
    check_changes(&rt, rt.alloc(), StartState::AwaitsEnd, CLOSED, 13_770)
}
