//! Rounds whose peers put commands into the queue of the device. The owner finishes them between the rounds.

use super::turns::joined;
use super::wires::{Call, ScriptedWire};
use crate::queue_fixtures::{QUEUED, plain_objects, reply, request, unconnected};
use cip_application::GET_RESULT;
use cip_owner::{NoOwner, Queue};
use enip_adapter::{Adapter, Shares};
use enip_server::{NO_IDLE_TIMEOUT, Peers};
use std::alloc::Global;
use std::cell::Cell;
use std::test::Fail;
use test_fixtures::adapter::{LIMITS, LISTEN, REGISTER, REGISTERED};

/// The peers of a device whose queue has room for one command.
fn peers<'a>(alloc: Global) -> Result<Peers<ScriptedWire<'a>>, Fail> {
    let objects = plain_objects(alloc)?;
    let queue = Queue::new(alloc, 1)?;
    let adapter = Adapter::queued(
        alloc,
        objects,
        None,
        Some(queue),
        LISTEN,
        LIMITS,
        Shares::NONE,
    )?;
    Ok(Peers::new(alloc, adapter, NO_IDLE_TIMEOUT)?)
}

#[test]
fn finished_between_rounds(rt: HostRuntime) -> Result<(), Fail> {
    let alloc = rt.alloc();
    let queued = unconnected(alloc, &request(alloc, QUEUED, 1, b"\x05\0\0\0")?)?;
    let result = unconnected(alloc, &request(alloc, GET_RESULT, 1, b"\x01\0\0\0")?)?;
    let ticket = unconnected(alloc, b"\xb3\0\0\0\x01\0\0\0")?;
    let full = unconnected(alloc, b"\xb3\0\x02\0")?;
    let pending = unconnected(alloc, b"\xce\0\0\0\x01")?;
    let done = unconnected(alloc, b"\xce\0\0\0\0\0\x2a")?;
    let read = joined(alloc, &[REGISTER, &queued, &queued, &result])?;
    let calls = [
        Call::GivesAll(read.as_slice()),
        Call::Takes(REGISTERED, 28),
        Call::Takes(&ticket, ticket.len()),
        Call::Takes(&full, full.len()),
        Call::Takes(&pending, pending.len()),
        Call::GivesAll(result.as_slice()),
        Call::Takes(&done, done.len()),
    ];
    let made = Cell::new(0);
    let mut peers = peers(alloc)?;
    assert_eq!(rt; peers.add(0, ScriptedWire::new(&calls, &made)), Ok(0));
    // nobody is asked: the command waits
    assert_eq!(rt; peers.round_asking(0, &mut NoOwner).ended, 0);
    assert_eq!(rt; made.get(), 5);
    assert_eq!(rt; peers.adapter().queue().map(Queue::waiting_count), Some(1));
    assert!(rt; !peers.finish(2, &reply(0, b"\x2a")?));
    assert!(rt; peers.finish(1, &reply(0, b"\x2a")?));
    assert_eq!(rt; peers.adapter().queue().map(Queue::waiting_count), Some(0));
    peers.mark_ready(0, false);
    assert_eq!(rt; peers.round(1).ended, 0);
    assert_eq!(rt; made.get(), calls.len());
    Ok(())
}
