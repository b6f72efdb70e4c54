//! Answers that are held until a release, call by call of the wire inside.

use super::turns::joined;
use super::wires::{Call, ScriptedWire};
use enip_server::{HeldWire, LINGER, NO_IDLE_TIMEOUT, Peers, RoundEnd, Wire};
use std::alloc::Global;
use std::cell::Cell;
use std::process::Abort;
use std::test::Fail;
use test_fixtures::adapter::{LONG, REFUSED, REGISTER, REGISTERED, new_adapter};

/// A ListServices, and its answer.
const LIST_SERVICES: &[u8] = b"\x04\0\0\0\0\0\0\0\0\0\0\0\x01\x02\x03\x04\x05\x06\x07\x08\0\0\0\0";

const SERVICES: &[u8] = b"\x04\0\x1a\0\0\0\0\0\0\0\0\0\x01\x02\x03\x04\x05\x06\x07\x08\0\0\0\0\
    \x01\0\0\x01\x14\0\x01\0\x20\0Communications\0\0";

/// One step of a server that stores what a round changed before the answers leave. Returns whether a wire may be ready
/// now, and how many peers ended.
fn step<W: Wire + Drop>(peers: &mut Peers<HeldWire<W>>, now: u64) -> RoundEnd {
    let end = peers.round(now);
    RoundEnd {
        ended: end.ended,
        ready: peers.release(),
        next: end.next,
    }
}

/// A step: its time, whether the wire is marked ready before it, how many calls of the wire inside were made by the end
/// of its round and by the end of its release, whether a wire may be ready then, and how many peers ended.
type Step = (u64, bool, usize, usize, bool, usize);

/// Runs one peer, which is added at time 0, in these steps.
fn run<A: Abort>(rt: &A, alloc: Global, calls: &[Call<'_>], steps: &[Step]) -> Result<(), Fail> {
    let made = Cell::new(0);
    let mut peers = Peers::new(alloc, new_adapter(alloc)?, NO_IDLE_TIMEOUT)?;
    let wire = HeldWire::new(ScriptedWire::new(calls, &made));
    assert_eq!(rt; peers.add(0, wire), Ok(0));
    for (now, woken, by_round, by_release, ready, ended) in steps {
        if *woken {
            peers.mark_ready(0, false);
        }
        let end = peers.round(*now);
        assert_eq!(rt; made.get(), *by_round, "{now}: round");
        assert_eq!(rt; end.ended, *ended, "{now}");
        assert_eq!(rt; peers.release(), *ready, "{now}: ready");
        assert_eq!(rt; made.get(), *by_release, "{now}: release");
    }
    assert_eq!(rt; made.get(), calls.len());
    Ok(())
}

#[test]
fn an_answer_waits_for_the_release(rt: HostRuntime) -> Result<(), Fail> {
    let calls = [
        Call::GivesAll(REGISTER),
        Call::Takes(REGISTERED, 28),
        Call::GivesAll(LIST_SERVICES),
        Call::Takes(SERVICES, 50),
    ];
    // when the answer is out nothing is left to do, and a release with nothing to write calls nothing
    let steps = [
        (0, false, 1, 2, false, 0),
        (1, false, 2, 2, false, 0),
        (2, true, 3, 4, false, 0),
        (3, false, 4, 4, false, 0),
    ];
    run(&rt, rt.alloc(), &calls, &steps)
}

#[test]
fn what_the_wire_does_not_take_goes_first_next_time(rt: HostRuntime) -> Result<(), Fail> {
    let calls = [
        Call::Gives(REGISTER),
        Call::Takes(REGISTERED, 5),
        Call::Takes(&REGISTERED[5..], 0),
        Call::Takes(&REGISTERED[5..], 0),
        Call::Takes(&REGISTERED[5..], 20),
        Call::Takes(&REGISTERED[25..], 3),
        Call::Later,
    ];
    // the second turn reads nothing, since bytes are held; once they are out, the peer has a turn and is read
    let steps = [
        (0, false, 1, 3, true, 0),
        (1, false, 3, 4, false, 0),
        (2, true, 4, 6, true, 0),
        (3, false, 7, 7, false, 0),
    ];
    run(&rt, rt.alloc(), &calls, &steps)
}

#[test]
fn more_answers_than_are_held_go_out_in_several_rounds(rt: HostRuntime) -> Result<(), Fail> {
    let mut read = Vec::new(rt.alloc());
    let mut answers = Vec::new(rt.alloc());
    for _ in 0..100 {
        read.extend_from_slice(LIST_SERVICES)?;
        answers.extend_from_slice(SERVICES)?;
    }
    let calls = [
        Call::GivesAll(read.as_slice()),
        Call::Takes(&answers[..4_096], 4_096),
        Call::Takes(&answers[4_096..], 4),
        Call::Takes(&answers[4_100..], 900),
        Call::Later,
    ];
    let steps = [
        (0, false, 1, 2, true, 0),
        (0, false, 2, 4, true, 0),
        (0, false, 5, 5, false, 0),
    ];
    run(&rt, rt.alloc(), &calls, &steps)
}

#[test]
fn a_wire_that_fails_at_a_release_ends_its_peer(rt: HostRuntime) -> Result<(), Fail> {
    let calls = [Call::GivesAll(REGISTER), Call::Refuses(REGISTERED)];
    let steps = [(0, false, 1, 2, true, 0), (0, false, 2, 2, false, 1)];
    run(&rt, rt.alloc(), &calls, &steps)
}

#[test]
fn the_end_of_a_stream_is_read_once_the_answer_is_out(rt: HostRuntime) -> Result<(), Fail> {
    let calls = [
        Call::Gives(REGISTER),
        Call::Takes(REGISTERED, 0),
        Call::Takes(REGISTERED, 28),
        Call::Ends,
    ];
    let steps = [
        (0, false, 1, 2, true, 0),
        (1, false, 2, 3, true, 0),
        (2, false, 4, 4, false, 1),
    ];
    run(&rt, rt.alloc(), &calls, &steps)
}

#[test]
fn a_closed_peer_is_shut_once_the_refusal_is_out(rt: HostRuntime) -> Result<(), Fail> {
    let calls = [
        Call::GivesAll(LONG),
        Call::Takes(REFUSED, 10),
        Call::Takes(&REFUSED[10..], 0),
        Call::Takes(&REFUSED[10..], 14),
        Call::Shuts,
        Call::GivesAll(REGISTER),
        Call::Shuts,
    ];
    // it waits to be shut down from the second round on
    let steps = [
        (0, false, 1, 3, true, 0),
        (1, false, 3, 5, true, 0),
        (2, false, 6, 7, false, 0),
        (LINGER - 1, false, 7, 7, false, 0),
        (LINGER, false, 7, 7, false, 1),
    ];
    run(&rt, rt.alloc(), &calls, &steps)
}

#[test]
fn held_answers_of_a_dropped_server_never_leave(rt: HostRuntime) -> Result<(), Fail> {
    let (one, two) = (Cell::new(0), Cell::new(0));
    let calls = [Call::GivesAll(REGISTER), Call::Takes(REGISTERED, 28)];
    let read = joined(rt.alloc(), &[LIST_SERVICES, LIST_SERVICES])?;
    let others = [Call::Later, Call::GivesAll(read.as_slice())];
    let mut peers = Peers::new(rt.alloc(), new_adapter(rt.alloc())?, NO_IDLE_TIMEOUT)?;
    assert_eq!(rt;
        peers.add(0, HeldWire::new(ScriptedWire::new(&calls, &one))),
        Ok(0)
    );
    assert_eq!(rt;
        peers.add(0, HeldWire::new(ScriptedWire::new(&others, &two))),
        Ok(1)
    );
    let end = step(&mut peers, 0);
    assert!(rt; !end.ready);
    assert_eq!(rt; end.ended, 0);
    assert_eq!(rt; end.next, None);
    assert_eq!(rt; (one.get(), two.get()), (2, 1));
    // the answers of this round could not be stored
    peers.mark_ready(1, false);
    let _ = peers.round(1);
    drop(peers);
    assert_eq!(rt; (one.get(), two.get()), (2, 2));
    Ok(())
}
