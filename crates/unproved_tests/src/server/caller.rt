//! The examples in the documentation of `enip_server`, over scripted wires. `tests/rules` compares the first with it.

use super::turns::{OPENED, joined};
use super::wires::{Call, ScriptedWire};
use cip_objects::{AssemblyConfig, Objects};
use enip_adapter::{Adapter, DiscoveryBuffer, EndReason, Endings};
use enip_server::{NO_IDLE_TIMEOUT, Peers, Wire};
use std::alloc::Global;
use std::cell::Cell;
use std::test::Fail;
use test_fixtures::adapter::{LIMITS, LISTEN, OPEN, REGISTER, REGISTERED, config, new_adapter};

/// Get_Attribute_Single of the data of assembly 100 in session 1, and its answer once the data is 7, 8, 9, 0.
const GET: &[u8] = b"\x6f\0\x18\0\x01\0\0\0\0\0\0\0\x01\x02\x03\x04\x05\x06\x07\x08\0\0\0\0\
    \0\0\0\0\0\0\x02\0\0\0\0\0\xb2\0\x08\0\x0e\x03\x20\x04\x24\x64\x30\x03";

const GOT: &[u8] = b"\x6f\0\x18\0\x01\0\0\0\0\0\0\0\x01\x02\x03\x04\x05\x06\x07\x08\0\0\0\0\
    \0\0\0\0\0\0\x02\0\0\0\0\0\xb2\0\x08\0\x8e\0\0\0\x07\x08\x09\0";

/// Set_Attribute_Single of the data of assembly 101 to 0xaa, 0xbb in session 1, and its answer.
const SET: &[u8] = b"\x6f\0\x1a\0\x01\0\0\0\0\0\0\0\x01\x02\x03\x04\x05\x06\x07\x08\0\0\0\0\
    \0\0\0\0\0\0\x02\0\0\0\0\0\xb2\0\x0a\0\x10\x03\x20\x04\x24\x65\x30\x03\xaa\xbb";

const SET_REPLY: &[u8] = b"\x6f\0\x14\0\x01\0\0\0\0\0\0\0\x01\x02\x03\x04\x05\x06\x07\x08\0\0\0\0\
    \0\0\0\0\0\0\x02\0\0\0\0\0\xb2\0\x04\0\x90\0\0\0";

/// A ListIdentity, which has no data.
const LIST_IDENTITY: &[u8] = b"\x63\0\0\0\0\0\0\0\0\0\0\0\x01\x02\x03\x04\x05\x06\x07\x08\0\0\0\0";

/// The offset of the status in the answer: 24 bytes of header, 6 before the item, 18 of version and socket address,
/// and 8 of vendor, device type, product code and revision.
const STATUS_AT: usize = 24 + 6 + 18 + 8;

/// One step of a server: adds an accepted wire, marks the wires that may be ready, and runs a round. Returns when the
/// next step is due.
fn serve_ready<W: Wire + Drop>(
    peers: &mut Peers<W>,
    now: u64,
    accepted: Option<W>,
    ready: &[usize],
) -> Option<u64> {
    if let Some(wire) = accepted {
        // if no slot is free, the wire is dropped, which closes it
        let _ = peers.add(now, wire);
    }
    for slot in ready {
        peers.mark_ready(*slot, false);
    }
    let end = peers.round(now);
    if end.ready { Some(now) } else { end.next }
}

/// Writes the inputs that peers read, and returns whether they wrote outputs since `seen`.
fn exchange<W: Wire + Drop>(peers: &mut Peers<W>, inputs: &[u8], seen: &mut Option<u32>) -> bool {
    // peers read the inputs in assembly 100
    peers.write_data(100, 0, inputs);
    // and write the outputs in assembly 101
    let changes = peers.adapter().changes(101);
    let are_new = changes != *seen;
    *seen = changes;
    are_new
}

/// An adapter with the demo configuration, and an assembly 101 of two bytes that peers may set.
fn adapter_with_outputs(alloc: Global) -> Result<Adapter, Fail> {
    let mut config = config(alloc)?;
    config.assemblies.push(AssemblyConfig {
        instance: 101,
        settable: true,
        members: Vec::from_slice(alloc, &[2])?,
        lists: false,
    })?;
    let objects = Objects::new(alloc, &config)
        .ok()
        .ok_or("the objects are made")?;
    Ok(Adapter::new(alloc, objects, LISTEN, LIMITS)?)
}

#[test]
fn its_steps_serve_two_peers(rt: HostRuntime) -> Result<(), Fail> {
    let (one, two) = (Cell::new(0), Cell::new(0));
    let calls = [
        Call::Later,
        Call::GivesAll(REGISTER),
        Call::Takes(REGISTERED, 28),
        Call::Ends,
    ];
    let others = [Call::Later];
    let mut peers = Peers::new(rt.alloc(), new_adapter(rt.alloc())?, NO_IDLE_TIMEOUT)?;
    assert_eq!(rt;
        serve_ready(&mut peers, 0, Some(ScriptedWire::new(&calls, &one)), &[]),
        None
    );
    assert_eq!(rt;
        serve_ready(&mut peers, 1, Some(ScriptedWire::new(&others, &two)), &[]),
        None
    );
    assert_eq!(rt; serve_ready(&mut peers, 2, None, &[0]), None);
    assert_eq!(rt; (one.get(), two.get()), (3, 1));
    assert_eq!(rt; serve_ready(&mut peers, 3, None, &[0]), None);
    assert_eq!(rt; (one.get(), two.get()), (4, 1));
    assert_eq!(rt; peers.first_free(), Some(0));
    Ok(())
}

#[test]
fn peers_read_what_the_device_writes_between_rounds(rt: HostRuntime) -> Result<(), Fail> {
    let made = Cell::new(0);
    let calls = [
        Call::GivesAll(REGISTER),
        Call::Takes(REGISTERED, 28),
        Call::GivesAll(GET),
        Call::Takes(GOT, 48),
        Call::GivesAll(SET),
        Call::Takes(SET_REPLY, 44),
    ];
    let mut peers = Peers::new(
        rt.alloc(),
        adapter_with_outputs(rt.alloc())?,
        NO_IDLE_TIMEOUT,
    )?;
    let mut seen = Some(0);
    let wire = ScriptedWire::new(&calls, &made);
    assert_eq!(rt; serve_ready(&mut peers, 0, Some(wire), &[]), None);
    // the peer gets the inputs
    assert!(rt; !exchange(&mut peers, &[7, 8, 9], &mut seen));
    assert_eq!(rt; serve_ready(&mut peers, 1, None, &[0]), None);
    assert_eq!(rt; made.get(), 4);
    // its outputs are new once
    assert_eq!(rt; serve_ready(&mut peers, 2, None, &[0]), None);
    assert_eq!(rt; made.get(), calls.len());
    assert!(rt; exchange(&mut peers, &[0, 0, 0], &mut seen));
    assert!(rt; !exchange(&mut peers, &[0, 0, 0], &mut seen));
    let outputs = peers
        .adapter()
        .objects()
        .attribute(4, 101, 3)
        .ok_or("assembly 101 has data")?;
    assert_eq!(rt; outputs.as_slice(), [0xaa, 0xbb].as_slice());
    Ok(())
}

#[test]
fn refused_writes_and_the_identity(rt: HostRuntime) -> Result<(), Fail> {
    let mut peers: Peers<ScriptedWire<'_>> = Peers::new(
        rt.alloc(),
        new_adapter(rt.alloc())?,
        NO_IDLE_TIMEOUT,
    )?;
    // past the end of the data, and no such assembly
    assert!(rt; !peers.write_data(100, 3, &[1, 2]));
    assert!(rt; !peers.write_data(101, 0, &[]));
    let data = peers
        .adapter()
        .objects()
        .attribute(4, 100, 3)
        .ok_or("assembly 100 has data")?;
    assert_eq!(rt; data.as_slice(), [0; 4].as_slice());
    assert!(rt; peers.write_data(100, 3, &[1]));
    peers.set_device_status(0x0135);
    peers.set_device_state(5);
    let mut room = DiscoveryBuffer::new();
    let answer = peers
        .discover(LIST_IDENTITY, &mut room)
        .ok_or("it is answered")?;
    assert_eq!(rt; &answer[STATUS_AT..STATUS_AT + 2], [0x35, 0x01].as_slice());
    assert_eq!(rt; answer[answer.len() - 1], 5);
    assert!(rt; peers.adapter().ledger().is_none());
    Ok(())
}

#[test]
fn endings_between_rounds(rt: HostRuntime) -> Result<(), Fail> {
    let read = joined(rt.alloc(), &[REGISTER, OPEN])?;
    let made = Cell::new(0);
    let calls = [
        Call::GivesAll(read.as_slice()),
        Call::Takes(REGISTERED, 28),
        Call::Takes(OPENED, 70),
    ];
    let mut peers = Peers::new(rt.alloc(), new_adapter(rt.alloc())?, NO_IDLE_TIMEOUT)?;
    let mut endings = Endings::new();
    let _ = serve_ready(&mut peers, 0, Some(ScriptedWire::new(&calls, &made)), &[]);
    endings.update(peers.adapter());
    assert_eq!(rt; endings.ended().len(), 0);
    // after its 10 seconds, the connection has timed out
    let _ = serve_ready(&mut peers, 10_000_000, None, &[]);
    endings.update(peers.adapter());
    assert_eq!(rt; endings.ended().len(), 1);
    assert_eq!(rt; endings.ended()[0].id, 1);
    assert_eq!(rt; endings.ended()[0].reason, EndReason::TimedOut);
    Ok(())
}
