//! Peers that give way to a new client.

use super::wires::{Call, ScriptedWire};
use enip_adapter::{Adapter, Full, Limits, Rights};
use enip_server::{EVICTION_SILENCE, NO_IDLE_TIMEOUT, Peers};
use std::alloc::Global;
use std::cell::Cell;
use std::process::Abort;
use std::test::Fail;
use test_fixtures::adapter::{LIMITS, LISTEN, REGISTER, REGISTERED, demo};

/// The peers of a demo device with two peer slots. This is the handle of its first session.
fn two_slots<'a>(alloc: Global, first_handle: u32) -> Result<Peers<ScriptedWire<'a>>, Fail> {
    let limits = Limits {
        peers: 2,
        first_handle,
        ..LIMITS
    };
    let adapter = Adapter::new(alloc, demo(alloc)?, LISTEN, limits)?;
    Ok(Peers::new(alloc, adapter, NO_IDLE_TIMEOUT)?)
}

/// Asserts which slot a client of group 3 would get, and whether room is made for it.
fn assert_slot<A: Abort>(
    rt: &A,
    peers: &mut Peers<ScriptedWire<'_>>,
    now: u64,
    slot: Result<usize, Full>,
) {
    assert_eq!(rt; peers.slot_for(now, Some(3)), slot, "{now}");
    assert_eq!(rt; peers.make_room(now, Some(3)), slot.is_ok(), "{now}");
    // the slot that is free then is the one for the client
    assert_eq!(rt; peers.first_free(), slot.ok(), "{now}");
    assert_eq!(rt; peers.slot_for(now, Some(3)), slot, "{now}");
}

#[test]
fn room_is_made_for_a_client(rt: HostRuntime) -> Result<(), Fail> {
    let made = [Cell::new(0), Cell::new(0), Cell::new(0)];
    let calls = [Call::Later];
    let registers = [
        Call::Gives(REGISTER),
        Call::Takes(REGISTERED, 28),
        Call::Later,
    ];
    let mut peers = two_slots(rt.alloc(), 1)?;
    let session = ScriptedWire::new(&registers, &made[0]);
    assert_eq!(rt; peers.add_as(0, session, Rights::Write, Some(1)), Ok(0));
    let silent = ScriptedWire::new(&calls, &made[1]);
    assert_eq!(rt; peers.add_as(5, silent, Rights::Write, Some(2)), Ok(1));
    for _ in 0..2 {
        assert_eq!(rt; peers.round(5).ended, 0);
    }
    // nobody gives way before 10 seconds, and never to a client without a group
    assert_slot(&rt, &mut peers, EVICTION_SILENCE + 4, Err(Full::Places));
    assert!(rt; !peers.make_room(EVICTION_SILENCE + 5, None));
    assert_slot(&rt, &mut peers, EVICTION_SILENCE + 5, Ok(1));
    assert_eq!(rt; peers.adapter().free().0, 1);
    // a free slot is room enough
    assert_slot(&rt, &mut peers, EVICTION_SILENCE + 6, Ok(1));
    let client = ScriptedWire::new(&calls, &made[2]);
    assert_eq!(rt;
        peers.add_as(EVICTION_SILENCE + 6, client, Rights::Read, Some(3)),
        Ok(1)
    );
    // whoever has a session never gives way
    assert_slot(&rt, &mut peers, 2 * EVICTION_SILENCE, Err(Full::Places));
    assert_eq!(rt; peers.round(2 * EVICTION_SILENCE).ended, 0);
    assert_eq!(rt; (made[0].get(), made[1].get(), made[2].get()), (3, 1, 1));
    Ok(())
}

#[test]
fn nobody_gives_way_if_no_session_handle_is_left(rt: HostRuntime) -> Result<(), Fail> {
    let made = [Cell::new(0), Cell::new(0), Cell::new(0)];
    let mut peers = two_slots(rt.alloc(), u32::MAX - 1)?;
    for (slot, made) in made[..2].iter().enumerate() {
        let silent = ScriptedWire::new(&[], made);
        assert_eq!(rt; peers.add_as(0, silent, Rights::Write, Some(1)), Ok(slot));
    }
    assert!(rt; !peers.adapter().has_handle());
    // the slots are looked at before the handle
    assert_slot(&rt, &mut peers, 0, Err(Full::Places));
    assert_eq!(rt;
        peers.slot_for(EVICTION_SILENCE, Some(3)),
        Err(Full::Handles)
    );
    assert!(rt; !peers.make_room(EVICTION_SILENCE, Some(3)));
    let client = ScriptedWire::new(&[], &made[2]);
    assert_eq!(rt;
        peers.add_as(EVICTION_SILENCE, client, Rights::Write, Some(3)),
        Err(Full::Handles)
    );
    assert_eq!(rt; (peers.first_free(), peers.adapter().free().0), (None, 0));
    Ok(())
}
