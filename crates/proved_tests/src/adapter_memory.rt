//! Sessions of an adapter in which an allocation is refused.

use crate::same::check_same;
use cip_objects::Objects;
use enip_adapter::{Adapter, Peer, Served};
use enip_wire::{MemorySink, MemorySource};
use std::alloc::{AllocError, Global};
use std::process::Abort;
use std::test::Fail;
use test_fixtures::adapter::{
    ADD, ADDED, LIMITS, LISTEN, LONG, OPEN, REFUSED, REGISTER, REGISTERED, demo, feed, free,
    serves, value,
};

/// An adapter over `objects`. If an allocation is refused, it is made again over `again`.
pub(crate) fn of_either(alloc: Global, objects: Objects, again: Objects) -> Result<Adapter, Fail> {
    match Adapter::new(alloc, objects, LISTEN, LIMITS) {
        Ok(adapter) => Ok(adapter),
        Err(AllocError) => Ok(Adapter::new(alloc, again, LISTEN, LIMITS)?),
    }
}

/// The answer of an adapter to a piece.
pub(crate) fn answer<'a>(adapter: &'a mut Adapter, peer: &Peer, piece: &[u8]) -> Option<&'a [u8]> {
    feed(adapter, peer, piece).answer
}

/// Asserts that a piece gets this answer.
pub(crate) fn check_answer<A: Abort>(
    rt: &A,
    adapter: &mut Adapter,
    peer: &Peer,
    piece: &[u8],
    wanted: Option<&[u8]>,
) {
    check_same(rt, answer(adapter, peer, piece), wanted);
}

/// Asserts that a piece gets an answer.
pub(crate) fn check_answered<A: Abort>(rt: &A, adapter: &mut Adapter, peer: &Peer, piece: &[u8]) {
    check_same(rt, answer(adapter, peer, piece).is_some(), true);
}

/// Registers a session over a reader and a writer in memory.
fn check_registered<A: Abort>(rt: &A, adapter: &mut Adapter, peer: &Peer) {
    let mut reader = MemorySource::new(REGISTER, &[]);
    let mut bytes = [0; 64];
    let mut writer = MemorySink::new(&mut bytes);
    let expected = Ok(Served::More);
    let is_served = serves(
        adapter,
        peer,
        &mut reader,
        &mut writer,
        expected,
        REGISTERED,
    );
    check_same(rt, is_served, true);
}

/// Feeds a request in two pieces, and its repeat in one.
fn check_requests<A: Abort>(rt: &A, adapter: &mut Adapter, peer: &Peer) {
    check_answer(rt, adapter, peer, &ADD[..30], None);
    check_answer(rt, adapter, peer, &ADD[30..], Some(ADDED));
    check_answer(rt, adapter, peer, ADD, Some(ADDED));
}

/// Asserts that a header with too great a length closes the peer.
fn check_closed<A: Abort>(rt: &A, adapter: &mut Adapter, peer: &Peer) {
    let fed = feed(adapter, peer, LONG);
    check_same(rt, (fed.answer, fed.close), (Some(REFUSED), true));
}

/// Lets the connection time out, and then ends the session.
fn check_end<A: Abort>(rt: &A, adapter: &mut Adapter, peer: Peer) {
    adapter.tick(20_000_000);
    check_same(rt, free(adapter), (8, 16));
    check_closed(rt, adapter, &peer);
    adapter.end(peer);
    check_same(rt, free(adapter), (9, 16));
}

/// A session that uses all buffers: a peer, frames in pieces, a connection, a kept reply and answers.
fn check_session<A: Abort>(rt: &A, adapter: &mut Adapter) -> Result<(), Fail> {
    let peer = adapter.begin().ok().ok_or("a slot is free")?;
    check_registered(rt, adapter, &peer);
    check_answered(rt, adapter, &peer, OPEN);
    check_same(rt, free(adapter), (8, 15));
    check_requests(rt, adapter, &peer);
    check_same(rt, value(adapter)?, 5);
    check_end(rt, adapter, peer);
    Ok(())
}

/// `new` allocates all memory, so this passes whichever allocation after the objects is refused. `tests/memory`
/// refuses each in turn.
#[test]
fn only_new_takes_memory(rt: HostRuntime) -> Result<(), Fail> {
    let objects = demo(rt.alloc())?;
    let again = demo(rt.alloc())?;
    let mut adapter = of_either(rt.alloc(), objects, again)?;
    check_session(&rt, &mut adapter)
}
