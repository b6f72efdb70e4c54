//! Frames that wait until they are admitted, call by call of the wire inside.

ghost use Rattle.std.specs.Prelude.{⊤};

use super::owner::{MOVE_ALONE, Machine, adapter_with_machine, moved_alone, registered_second};
use super::turns::joined;
use super::wires::{Call, ScriptedWire};
use cip_owner::OwnRequest;
use enip_adapter::Peer;
use enip_server::{FrameWire, Gate, HeldWire, NO_IDLE_TIMEOUT, Peers};
use std::alloc::Global;
use std::cell::Cell;
use std::test::Fail;
use test_fixtures::adapter::{REGISTER, REGISTERED};

/// A gate that is open or not. It counts what it is shown.
#[derive(Drop)]
struct Lock {
    is_open: bool,
    shown: u32,
}

impl<W> Gate<W> for Lock {
    ghost shows = { λ lock peer wire asked numbered admitted after. ⊤ };

    fn admits(
        &mut self,
        _peer: Peer,
        _wire: &W,
        request: &OwnRequest<'_>,
        is_numbered: bool,
    ) -> bool {
        if request.service == 50 && !is_numbered {
            self.shown += 1;
        }
        self.is_open
    }
}

/// The peers of the device with the machine.
fn peers<'a>(alloc: Global) -> Result<Peers<FrameWire<ScriptedWire<'a>>>, Fail> {
    Ok(Peers::new(alloc, adapter_with_machine(alloc)?, NO_IDLE_TIMEOUT)?)
}

/// MOVE_ALONE in the first session, and its answer.
pub(super) fn in_first(frame: &[u8]) -> [u8; 50] {
    let mut first = [0; 50];
    first[..frame.len()].copy_from_slice(frame);
    first[4] = 1;
    first
}

#[test]
fn a_request_waits_and_another_peer_is_served(rt: HostRuntime) -> Result<(), Fail> {
    let ask = in_first(MOVE_ALONE);
    let moved = in_first(&moved_alone(3));
    let read = joined(rt.alloc(), &[REGISTER, &ask])?;
    let calls = [
        Call::GivesAll(read.as_slice()),
        Call::Takes(REGISTERED, 28),
        Call::Takes(&moved[..48], 48),
        Call::Later,
    ];
    let registered = registered_second();
    let others = [
        Call::GivesAll(REGISTER),
        Call::Takes(&registered, 28),
        Call::Later,
        Call::Later,
    ];
    let (one, two) = (Cell::new(0), Cell::new(0));
    let mut peers = peers(rt.alloc())?;
    let mut machine = Machine::new();
    let mut lock = Lock {
        is_open: false,
        shown: 0,
    };
    assert_eq!(rt;
        peers.add(0, FrameWire::new(ScriptedWire::new(&calls, &one), true)),
        Ok(0)
    );
    assert_eq!(rt;
        peers.add(0, FrameWire::new(ScriptedWire::new(&others, &two), true)),
        Ok(1)
    );
    // for each round whether the gate is open after it, the calls made by its end, how often the gate was shown a
    // request by then, how often the machine has moved, and whether a wire may be ready
    for (is_open, by_one, by_two, shown, moves, ready) in [
        (false, 1, 1, 0, 0, true),
        (false, 2, 2, 1, 0, true),
        (false, 2, 3, 2, 0, false),
        (false, 2, 3, 3, 0, false),
        (true, 2, 3, 4, 0, true),
        (true, 3, 3, 4, 1, true),
        (true, 4, 3, 4, 1, false),
    ] {
        lock.is_open = is_open;
        assert_eq!(rt; peers.round_asking(1, &mut machine).ended, 0);
        assert_eq!(rt; (one.get(), two.get()), (by_one, by_two));
        assert_eq!(rt; peers.admit_frames(1, &mut lock), ready);
        assert_eq!(rt; (lock.shown, machine.moves), (shown, moves));
    }
    peers.mark_ready(1, false);
    assert_eq!(rt; peers.round_asking(2, &mut machine).ended, 0);
    assert_eq!(rt; two.get(), 4);
    Ok(())
}

#[test]
fn a_frame_in_pieces_waits_at_its_end(rt: HostRuntime) -> Result<(), Fail> {
    let ask = in_first(MOVE_ALONE);
    let moved = in_first(&moved_alone(3));
    for cut in 1..ask.len() {
        let calls = [
            Call::GivesAll(REGISTER),
            Call::Takes(REGISTERED, 28),
            Call::Gives(&ask[..cut]),
            Call::Gives(&ask[cut..]),
            Call::Takes(&moved[..48], 48),
            Call::Ends,
        ];
        let made = Cell::new(0);
        let mut peers = peers(rt.alloc())?;
        let mut machine = Machine::new();
        let mut lock = Lock {
            is_open: true,
            shown: 0,
        };
        let wire = FrameWire::new(ScriptedWire::new(&calls, &made), true);
        assert_eq!(rt; peers.add(0, wire), Ok(0));
        // the front goes to the adapter at once, and the rest once it is admitted
        for (by_then, shown, ended) in [
            (1, 0, 0),
            (2, 0, 0),
            (3, 0, 0),
            (4, 1, 0),
            (5, 1, 0),
            (6, 1, 1),
        ] {
            assert_eq!(rt;
                peers.round_asking(1, &mut machine).ended,
                ended,
                "cut at {cut}"
            );
            assert_eq!(rt; made.get(), by_then, "cut at {cut}");
            peers.admit_frames(1, &mut lock);
            assert_eq!(rt; lock.shown, shown, "cut at {cut}");
        }
        assert_eq!(rt; machine.moves, 1);
    }
    Ok(())
}

#[test]
fn a_frame_behind_an_answer_waits_until_that_has_left(rt: HostRuntime) -> Result<(), Fail> {
    let ask = in_first(MOVE_ALONE);
    let moved = in_first(&moved_alone(3));
    let read = joined(rt.alloc(), &[REGISTER, &ask])?;
    let calls = [
        Call::GivesAll(read.as_slice()),
        Call::Takes(REGISTERED, 10),
        Call::Takes(&REGISTERED[10..], 0),
        Call::Takes(&REGISTERED[10..], 18),
        Call::Takes(&moved[..48], 48),
        Call::Later,
    ];
    let made = Cell::new(0);
    let mut peers: Peers<HeldWire<FrameWire<ScriptedWire<'_>>>> = Peers::new(
        rt.alloc(),
        adapter_with_machine(rt.alloc())?,
        NO_IDLE_TIMEOUT,
    )?;
    let mut machine = Machine::new();
    let mut lock = Lock {
        is_open: false,
        shown: 0,
    };
    let wire = HeldWire::new(FrameWire::new(ScriptedWire::new(&calls, &made), true));
    assert_eq!(rt; peers.add(0, wire), Ok(0));
    // for each round whether the gate is open after it, the calls made by then, how often the gate was shown a request,
    // how often the machine has moved, the calls made by the release, and whether a wire may be ready then
    for (is_open, by_round, shown, moves, by_release, ready) in [
        (true, 1, 0, 0, 1, true),
        (true, 1, 0, 0, 3, true),
        (true, 3, 0, 0, 4, true),
        (false, 4, 1, 0, 4, false),
        (true, 4, 2, 0, 4, true),
        (true, 4, 2, 1, 5, true),
        (true, 6, 2, 1, 6, false),
    ] {
        lock.is_open = is_open;
        assert_eq!(rt; peers.round_asking(1, &mut machine).ended, 0);
        assert_eq!(rt; made.get(), by_round);
        peers.admit_frames(1, &mut lock);
        assert_eq!(rt; (lock.shown, machine.moves), (shown, moves));
        assert_eq!(rt; peers.release(), ready);
        assert_eq!(rt; made.get(), by_release);
    }
    Ok(())
}

#[test]
fn a_wire_that_is_not_gated_goes_through(rt: HostRuntime) -> Result<(), Fail> {
    let ask = in_first(MOVE_ALONE);
    let moved = in_first(&moved_alone(3));
    let read = joined(rt.alloc(), &[REGISTER, &ask])?;
    let calls = [
        Call::GivesAll(read.as_slice()),
        Call::Takes(REGISTERED, 28),
        Call::Takes(&moved[..48], 48),
    ];
    let made = Cell::new(0);
    let mut peers = peers(rt.alloc())?;
    let mut machine = Machine::new();
    let wire = FrameWire::new(ScriptedWire::new(&calls, &made), false);
    assert_eq!(rt; peers.add(0, wire), Ok(0));
    let end = peers.round_asking(1, &mut machine);
    assert_eq!(rt;
        (end.ended, end.ready, made.get(), machine.moves),
        (0, false, 3, 1)
    );
    Ok(())
}
