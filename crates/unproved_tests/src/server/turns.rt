//! Turns and rounds, call by call.

use super::wires::{Call, ScriptedWire};
use enip_adapter::Full;
use enip_server::{LINGER, NO_IDLE_TIMEOUT, Peers};
use std::alloc::Global;
use std::cell::Cell;
use std::process::Abort;
use std::test::Fail;
use test_fixtures::adapter::{ADD, ADDED, LONG, OPEN, REFUSED, REGISTER, REGISTERED, new_adapter};

/// The answer to `OPEN`.
pub(super) const OPENED: &[u8] =
    b"\x6f\0\x2e\0\x01\0\0\0\0\0\0\0\x01\x02\x03\x04\x05\x06\x07\x08\0\0\0\0\
    \0\0\0\0\0\0\x02\0\0\0\0\0\xb2\0\x1e\0\xd4\0\0\0\x01\0\0\0\x44\x33\x22\x11\x01\0\x42\0\x78\x56\x34\x12\
    \x80\x84\x1e\0\x80\x84\x1e\0\0\0";

/// The peers of a demo device, with this idle timeout.
fn peers<'a>(alloc: Global, idle_timeout: u64) -> Result<Peers<ScriptedWire<'a>>, Fail> {
    Ok(Peers::new(alloc, new_adapter(alloc)?, idle_timeout)?)
}

/// The texts, joined.
pub(super) fn joined(alloc: Global, texts: &[&[u8]]) -> Result<Vec<u8>, Fail> {
    let mut bytes = Vec::new(alloc);
    for text in texts {
        bytes.extend_from_slice(text)?;
    }
    Ok(bytes)
}

/// A round: its time, whether the wire is marked ready before it, how many calls were made by its end, and how many
/// peers ended in it.
type Round = (u64, bool, usize, usize);

/// Runs one peer, which is added at time 0, in these rounds.
fn run<A: Abort>(
    rt: &A,
    alloc: Global,
    idle_timeout: u64,
    calls: &[Call<'_>],
    rounds: &[Round],
) -> Result<(), Fail> {
    let made = Cell::new(0);
    let mut peers = peers(alloc, idle_timeout)?;
    assert_eq!(rt; peers.add(0, ScriptedWire::new(calls, &made)), Ok(0));
    for (moment, woken, by_then, ended) in rounds {
        if *woken {
            peers.mark_ready(0, false);
        }
        let end = peers.round(*moment);
        assert_eq!(rt; end.ended, *ended, "{moment}");
        assert_eq!(rt; end.next, peers.next_moment(), "{moment}");
        assert_eq!(rt; made.get(), *by_then, "{moment}");
    }
    assert_eq!(rt; made.get(), calls.len());
    Ok(())
}

#[test]
fn an_answer_goes_out_before_more_is_read(rt: HostRuntime) -> Result<(), Fail> {
    let calls = [
        Call::Gives(REGISTER),
        Call::Takes(REGISTERED, 5),
        Call::Takes(&REGISTERED[5..], 0),
        Call::Takes(&REGISTERED[5..], 0),
        Call::Takes(&REGISTERED[5..], 20),
        Call::Takes(&REGISTERED[25..], 3),
        Call::Later,
    ];
    // a peer that is not ready has no turn
    let rounds = [
        (0, false, 3, 0),
        (1, false, 3, 0),
        (2, true, 4, 0),
        (3, true, 7, 0),
        (4, false, 7, 0),
    ];
    run(&rt, rt.alloc(), NO_IDLE_TIMEOUT, &calls, &rounds)
}

#[test]
fn each_answer_goes_out_before_the_next_frame_is_fed(rt: HostRuntime) -> Result<(), Fail> {
    let read = joined(rt.alloc(), &[&REGISTER[20..], OPEN, ADD, &ADD[..30]])?;
    let calls = [
        Call::Gives(&REGISTER[..20]),
        Call::Gives(read.as_slice()),
        Call::Takes(REGISTERED, 28),
        Call::Takes(OPENED, 1),
        Call::Takes(&OPENED[1..], 0),
        Call::Takes(&OPENED[1..], 69),
        Call::Takes(ADDED, 54),
        Call::Gives(&ADD[30..]),
        Call::Takes(ADDED, 54),
        Call::Ends,
    ];
    let rounds = [
        (0, false, 1, 0),
        (0, false, 5, 0),
        (0, true, 7, 0),
        (0, false, 9, 0),
        (0, false, 10, 1),
    ];
    run(&rt, rt.alloc(), NO_IDLE_TIMEOUT, &calls, &rounds)
}

#[test]
fn what_was_read_is_fed_at_the_moment_of_its_round(rt: HostRuntime) -> Result<(), Fail> {
    let read = joined(rt.alloc(), &[REGISTER, OPEN, ADD])?;
    let calls = [
        Call::Gives(read.as_slice()),
        Call::Takes(REGISTERED, 28),
        Call::Takes(OPENED, 70),
        Call::Takes(ADDED, 54),
        Call::Gives(ADD),
        Call::Takes(ADDED, 54),
        Call::Gives(ADD),
        Call::Later,
    ];
    // the connection times out 8,000,000 microseconds after its last item, and a later item gets no answer
    let rounds = [
        (0, false, 4, 0),
        (7_999_999, false, 6, 0),
        (15_999_999, false, 7, 0),
        (15_999_999, false, 8, 0),
    ];
    run(&rt, rt.alloc(), NO_IDLE_TIMEOUT, &calls, &rounds)
}

#[test]
fn a_read_that_took_all_is_the_last_until_more_is_reported(rt: HostRuntime) -> Result<(), Fail> {
    let read = joined(rt.alloc(), &[REGISTER, OPEN])?;
    let calls = [
        Call::GivesAll(read.as_slice()),
        Call::Takes(REGISTERED, 28),
        Call::Takes(OPENED, 70),
        Call::GivesAll(ADD),
        Call::Takes(ADDED, 0),
        Call::Takes(ADDED, 54),
        Call::Later,
    ];
    // while an answer waits to be written, more may come, so the peer is read again afterwards
    let rounds = [
        (0, false, 3, 0),
        (1, false, 3, 0),
        (2, true, 5, 0),
        (3, false, 5, 0),
        (4, true, 7, 0),
    ];
    run(&rt, rt.alloc(), NO_IDLE_TIMEOUT, &calls, &rounds)?;
    // a peer that the adapter closed is shut all the same
    let calls = [
        Call::GivesAll(LONG),
        Call::Takes(REFUSED, 24),
        Call::Shuts,
        Call::GivesAll(REGISTER),
        Call::Shuts,
        Call::Ends,
    ];
    let rounds = [
        (0, false, 2, 0),
        (1, false, 4, 0),
        (2, false, 4, 0),
        (3, true, 6, 1),
    ];
    run(&rt, rt.alloc(), NO_IDLE_TIMEOUT, &calls, &rounds)
}

#[test]
fn an_end_that_was_reported_with_the_last_bytes_is_read(rt: HostRuntime) -> Result<(), Fail> {
    let calls = [
        Call::GivesAll(REGISTER),
        Call::Takes(REGISTERED, 28),
        Call::Ends,
    ];
    let made = Cell::new(0);
    let mut peers = peers(rt.alloc(), NO_IDLE_TIMEOUT)?;
    assert_eq!(rt; peers.add(0, ScriptedWire::new(&calls, &made)), Ok(0));
    peers.mark_ready(0, true);
    for (ended, by_then) in [(0, 2), (1, 3), (0, 3)] {
        assert_eq!(rt; peers.round(0).ended, ended);
        assert_eq!(rt; made.get(), by_then);
    }
    Ok(())
}

#[test]
fn a_peer_that_the_adapter_closed_is_read_for_a_second(rt: HostRuntime) -> Result<(), Fail> {
    let read = joined(rt.alloc(), &[LONG, REGISTER])?;
    let calls = [
        Call::Gives(read.as_slice()),
        Call::Takes(REFUSED, 10),
        Call::Takes(&REFUSED[10..], 0),
        Call::Takes(&REFUSED[10..], 14),
        Call::Shuts,
        Call::Gives(REGISTER),
        Call::Shuts,
        Call::Later,
    ];
    let rounds = [
        (7, false, 3, 0),
        (8, true, 6, 0),
        (9, false, 8, 0),
        (6 + LINGER, false, 8, 0),
        (7 + LINGER, true, 8, 1),
    ];
    run(&rt, rt.alloc(), NO_IDLE_TIMEOUT, &calls, &rounds)?;
    // a peer that closes its connection is ended at once
    let calls = [
        Call::Gives(LONG),
        Call::Takes(REFUSED, 24),
        Call::Shuts,
        Call::Ends,
    ];
    run(
        &rt,
        rt.alloc(),
        NO_IDLE_TIMEOUT,
        &calls,
        &[(0, false, 2, 0), (1, false, 4, 1)],
    )
}

#[test]
fn a_silent_peer_is_ended(rt: HostRuntime) -> Result<(), Fail> {
    let calls = [Call::Later, Call::Gives(&REGISTER[..5]), Call::Later];
    let rounds = [
        (0, false, 1, 0),
        (99, true, 2, 0),
        (150, true, 3, 0),
        (198, true, 3, 0),
        (199, true, 3, 1),
    ];
    run(&rt, rt.alloc(), 100, &calls[..3], &rounds[..3])?;
    run(
        &rt,
        rt.alloc(),
        100,
        &calls[..1],
        &[
            (0, false, 1, 0),
            (99, false, 1, 0),
            (100, true, 1, 1),
            (101, true, 1, 0),
        ],
    )?;
    run(
        &rt,
        rt.alloc(),
        NO_IDLE_TIMEOUT,
        &calls[..1],
        &[(0, false, 1, 0), (u64::MAX - 1, false, 1, 0)],
    )
}

#[test]
fn a_peer_whose_wire_fails_is_ended(rt: HostRuntime) -> Result<(), Fail> {
    run(
        &rt,
        rt.alloc(),
        NO_IDLE_TIMEOUT,
        &[Call::Ends],
        &[(0, false, 1, 1), (1, true, 1, 0)],
    )?;
    run(
        &rt,
        rt.alloc(),
        NO_IDLE_TIMEOUT,
        &[Call::Fails],
        &[(0, false, 1, 1)],
    )?;
    let calls = [Call::Gives(REGISTER), Call::Refuses(REGISTERED)];
    run(
        &rt,
        rt.alloc(),
        NO_IDLE_TIMEOUT,
        &calls,
        &[(0, false, 2, 1)],
    )?;
    let calls = [
        Call::Gives(REGISTER),
        Call::Takes(REGISTERED, 1),
        Call::Refuses(&REGISTERED[1..]),
    ];
    run(
        &rt,
        rt.alloc(),
        NO_IDLE_TIMEOUT,
        &calls,
        &[(0, false, 3, 1)],
    )
}

#[test]
fn places_are_taken_and_freed(rt: HostRuntime) -> Result<(), Fail> {
    let made = Cell::new(0);
    let mut peers = peers(rt.alloc(), NO_IDLE_TIMEOUT)?;
    for place in 0..9 {
        assert_eq!(rt;
            peers.add(0, ScriptedWire::new(&[Call::Later], &made)),
            Ok(place)
        );
        made.set(0);
        assert_eq!(rt; peers.round(0).ended, 0);
        assert_eq!(rt; made.get(), 1);
    }
    assert_eq!(rt; peers.first_free(), None);
    made.set(0);
    assert_eq!(rt;
        peers.add(0, ScriptedWire::new(&[], &made)),
        Err(Full::Places)
    );
    assert_eq!(rt; (peers.round(0).ended, made.get()), (0, 0));
    Ok(())
}

#[test]
fn each_ready_peer_has_one_turn_a_round(rt: HostRuntime) -> Result<(), Fail> {
    let mut texts = [[0; 28]; 3];
    for (index, text) in texts.iter_mut().enumerate() {
        text.copy_from_slice(REGISTERED);
        text[4] = 1 + index as u8;
    }
    let made = [Cell::new(0), Cell::new(0), Cell::new(0)];
    let calls = [
        [
            Call::Gives(REGISTER),
            Call::Takes(&texts[0], 28),
            Call::Later,
        ],
        [
            Call::Gives(REGISTER),
            Call::Takes(&texts[1], 28),
            Call::Later,
        ],
        [
            Call::Gives(REGISTER),
            Call::Takes(&texts[2], 28),
            Call::Ends,
        ],
    ];
    let mut peers = peers(rt.alloc(), NO_IDLE_TIMEOUT)?;
    for (calls, made) in calls.iter().zip(&made) {
        assert!(rt; peers.add(0, ScriptedWire::new(calls, made)).is_ok());
    }
    for (ended, ready, by_then) in [(0, true, 2), (1, false, 3), (0, false, 3)] {
        let end = peers.round(0);
        assert_eq!(rt; end.ended, ended);
        assert!(rt; end.ready == ready);
        for made in &made {
            assert_eq!(rt; made.get(), by_then);
        }
    }
    assert_eq!(rt; peers.first_free(), Some(2));
    Ok(())
}

#[test]
fn the_next_moment_is_the_earliest(rt: HostRuntime) -> Result<(), Fail> {
    let made = [Cell::new(0), Cell::new(0)];
    let mut peers = peers(rt.alloc(), 1_000)?;
    assert_eq!(rt; peers.next_moment(), None);
    assert_eq!(rt;
        peers.add(10, ScriptedWire::new(&[Call::Later], &made[0])),
        Ok(0)
    );
    assert_eq!(rt;
        peers.add(5, ScriptedWire::new(&[Call::Later], &made[1])),
        Ok(1)
    );
    assert_eq!(rt; peers.next_moment(), Some(1_005));
    assert_eq!(rt; peers.round(1_005).ended, 1);
    assert_eq!(rt; peers.next_moment(), Some(1_010));
    Ok(())
}
