//! Rounds that ask the owner of the device. It counts what it is asked.

use super::turns::{OPENED, joined};
use super::wires::{Call, ScriptedWire};
use cip_application::{AttributeConfig, AttributeKind, ObjectConfig, ServiceConfig, ServiceKind};
use cip_objects::{Config, Objects};
use cip_owner::{OwnRequest, Owner, OwnerReply};
use enip_adapter::Adapter;
use enip_server::{NO_IDLE_TIMEOUT, Peers, RoundEnd, Wire};
use std::alloc::Global;
use std::cell::Cell;
use std::test::Fail;
use test_fixtures::adapter::{ADD, ADDED, LIMITS, LISTEN, OPEN, REGISTER, REGISTERED, config};

/// The class of the machine. Its instance 1 has a speed, attribute 1, which is checked, and a service 50, Move, of 4
/// bytes, whose reply is how far it has moved.
const MACHINE: u8 = 0x70;

/// The machine: how far it has moved, and how often it was asked.
#[derive(Drop)]
pub(super) struct Machine {
    pub(super) moved: u8,
    pub(super) moves: u32,
    sets: u32,
}

impl Machine {
    pub(super) fn new() -> Machine {
        Machine {
            moved: 0,
            moves: 0,
            sets: 0,
        }
    }
}

impl Owner for Machine {
    ghost answer = { λ machine asked. None };

    ghost after = { λ machine asked. machine };

    /// Moves by the first byte of the data. A speed over 100 is refused with status 0x0c.
    fn answer(&mut self, request: &OwnRequest<'_>) -> Option<OwnerReply> {
        if request.service == 0x10 {
            self.sets += 1;
            let status = if request.data[0] > 100 { 0x0c } else { 0 };
            return OwnerReply::new(status, &[]);
        }
        self.moves += 1;
        self.moved += request.data[0];
        OwnerReply::new(0, &[self.moved, 0, 0, 0])
    }
}

/// The configuration of the demo device with the machine.
pub(super) fn config_with_machine(alloc: Global) -> Result<Config, Fail> {
    let mut attributes = Vec::new(alloc);
    attributes.push(AttributeConfig {
        number: 1,
        kind: AttributeKind::Fixed {
            size: 2,
            range: None,
        },
        settable: true,
        checked: true,
        value: Vec::from_slice(alloc, &[0, 0])?,
    })?;
    let mut services = Vec::new(alloc);
    services.push(ServiceConfig {
        number: 50,
        least: 4,
        most: 4,
        reply: 4,
        kind: ServiceKind::Asked,
    })?;
    let mut config = config(alloc)?;
    config.objects.push(ObjectConfig {
        class: u16::from(MACHINE),
        instance: 1,
        standard: false,
        name: None,
        attributes,
        services,
        lists: false,
    })?;
    Ok(config)
}

/// The demo device with the machine.
pub(super) fn adapter_with_machine(alloc: Global) -> Result<Adapter, Fail> {
    let config = config_with_machine(alloc)?;
    let objects = Objects::new(alloc, &config)
        .ok()
        .ok_or("the objects are made")?;
    Ok(Adapter::new(alloc, objects, LISTEN, LIMITS)?)
}

/// The peers of that device.
fn peers<'a>(alloc: Global) -> Result<Peers<ScriptedWire<'a>>, Fail> {
    Ok(Peers::new(alloc, adapter_with_machine(alloc)?, NO_IDLE_TIMEOUT)?)
}

/// Move by `by` on connection 1 in session 1, with this count: the counter's Add with another class.
fn move_item(count: u8, by: u8) -> [u8; 56] {
    let mut frame = [0; 56];
    frame.copy_from_slice(ADD);
    frame[44] = count;
    frame[49] = MACHINE;
    frame[52] = by;
    frame
}

/// The answer to it.
fn moved_item(count: u8, moved: u8) -> [u8; 54] {
    let mut frame = [0; 54];
    frame.copy_from_slice(ADDED);
    frame[44] = count;
    frame[50] = moved;
    frame
}

/// The same without a connection, by 3 in session 2.
pub(super) const MOVE_ALONE: &[u8] =
    b"\x6f\0\x1a\0\x02\0\0\0\0\0\0\0\x01\x02\x03\x04\x05\x06\x07\x08\0\0\0\0\
    \0\0\0\0\0\0\x02\0\0\0\0\0\xb2\0\x0a\0\x32\x02\x20\x70\x24\x01\x03\0\0\0";

/// The answer to it if the machine has moved by `moved`.
pub(super) fn moved_alone(moved: u8) -> [u8; 48] {
    let mut frame = [0; 48];
    frame.copy_from_slice(
        b"\x6f\0\x18\0\x02\0\0\0\0\0\0\0\x01\x02\x03\x04\x05\x06\x07\x08\0\0\0\0\
        \0\0\0\0\0\0\x02\0\0\0\0\0\xb2\0\x08\0\xb2\0\0\0\0\0\0\0",
    );
    frame[44] = moved;
    frame
}

/// Set_Attribute_Single of the speed in session 1.
fn set_speed(speed: u8) -> [u8; 50] {
    let mut frame = [0; 50];
    frame.copy_from_slice(
        b"\x6f\0\x1a\0\x01\0\0\0\0\0\0\0\x01\x02\x03\x04\x05\x06\x07\x08\0\0\0\0\
        \0\0\0\0\0\0\x02\0\0\0\0\0\xb2\0\x0a\0\x10\x03\x20\x70\x24\x01\x30\x01\0\0",
    );
    frame[48] = speed;
    frame
}

/// The answer to it, or to a Move, with this service and status and no data.
fn replied(service: u8, status: u8) -> [u8; 44] {
    let mut frame = [0; 44];
    frame.copy_from_slice(
        b"\x6f\0\x14\0\x01\0\0\0\0\0\0\0\x01\x02\x03\x04\x05\x06\x07\x08\0\0\0\0\
        \0\0\0\0\0\0\x02\0\0\0\0\0\xb2\0\x04\0\0\0\0\0",
    );
    frame[40] = 0x80 | service;
    frame[42] = status;
    frame
}

/// The answer to a RegisterSession of the second peer.
pub(super) fn registered_second() -> [u8; 28] {
    let mut frame = [0; 28];
    frame.copy_from_slice(REGISTERED);
    frame[4] = 2;
    frame
}

#[test]
fn a_stalled_peer_and_another_one_are_each_asked_once(rt: HostRuntime) -> Result<(), Fail> {
    let (first, second) = (move_item(1, 5), move_item(2, 7));
    let (moved_5, moved_15) = (moved_item(1, 5), moved_item(2, 15));
    let registered = registered_second();
    let alone = moved_alone(8);
    // the second Move waits in the inbox while the answer to the first, and then to its repeat, is not written
    let read = joined(rt.alloc(), &[REGISTER, OPEN, &first, &first, &second])?;
    let calls = [
        Call::GivesAll(read.as_slice()),
        Call::Takes(REGISTERED, 28),
        Call::Takes(OPENED, 70),
        Call::Takes(&moved_5, 0),
        Call::Takes(&moved_5, 20),
        Call::Takes(&moved_5[20..], 0),
        Call::Takes(&moved_5[20..], 34),
        Call::Takes(&moved_5, 54),
        Call::Takes(&moved_15, 54),
        Call::Later,
    ];
    let read_two = joined(rt.alloc(), &[REGISTER, MOVE_ALONE])?;
    let calls_two = [
        Call::GivesAll(read_two.as_slice()),
        Call::Takes(&registered, 28),
        Call::Takes(&alone, 48),
    ];
    let (one, two) = (Cell::new(0), Cell::new(0));
    let mut peers = peers(rt.alloc())?;
    let mut machine = Machine::new();
    assert_eq!(rt; peers.add(0, ScriptedWire::new(&calls, &one)), Ok(0));
    assert_eq!(rt; peers.add(0, ScriptedWire::new(&calls_two, &two)), Ok(1));
    // the calls made by the end of each round, and how far the machine has moved by how many moves
    for (by_then, others, moved, moves) in [
        (4, 3, 8, 2),
        (6, 3, 8, 2),
        (9, 3, 15, 3),
        (10, 3, 15, 3),
    ] {
        assert_eq!(rt; peers.round_asking(1, &mut machine).ended, 0);
        assert_eq!(rt; (one.get(), two.get()), (by_then, others));
        assert_eq!(rt; (machine.moved, machine.moves), (moved, moves));
        peers.mark_ready(0, false);
    }
    assert_eq!(rt; machine.sets, 0);
    Ok(())
}

#[test]
fn a_checked_set_is_stored_if_the_owner_accepts_it(rt: HostRuntime) -> Result<(), Fail> {
    let (fast, slow) = (set_speed(101), set_speed(100));
    let (refused, done) = (replied(0x10, 0x0c), replied(0x10, 0));
    let read = joined(rt.alloc(), &[REGISTER, &fast, &slow[..49]])?;
    let calls = [
        Call::GivesAll(read.as_slice()),
        Call::Takes(REGISTERED, 28),
        Call::Takes(&refused, 44),
        Call::GivesAll(&slow[49..]),
        Call::Takes(&done, 44),
    ];
    let made = Cell::new(0);
    let mut peers = peers(rt.alloc())?;
    let mut machine = Machine::new();
    assert_eq!(rt; peers.add(0, ScriptedWire::new(&calls, &made)), Ok(0));
    // a frame is asked about once all of it has arrived
    for (by_then, sets, speed, changes) in [(3, 1, [0, 0], 0), (5, 2, [100, 0], 1)] {
        let _ = peers.round_asking(0, &mut machine);
        assert_eq!(rt; (made.get(), machine.sets), (by_then, sets));
        let value = peers
            .adapter()
            .objects()
            .attribute(u16::from(MACHINE), 1, 1)
            .ok_or("it has a speed")?;
        assert_eq!(rt; value.as_slice(), speed.as_slice());
        assert_eq!(rt;
            peers.adapter().attribute_changes(u16::from(MACHINE), 1, 1),
            Some(changes)
        );
        peers.mark_ready(0, false);
    }
    assert_eq!(rt; machine.moves, 0);
    Ok(())
}

#[test]
fn nobody_is_asked_in_a_round_without_an_owner(rt: HostRuntime) -> Result<(), Fail> {
    let mut alone = [0; 50];
    alone.copy_from_slice(MOVE_ALONE);
    alone[4] = 1;
    let speed = set_speed(1);
    let (refused, refused_set) = (replied(0x32, 0x10), replied(0x10, 0x10));
    let read = joined(rt.alloc(), &[REGISTER, &alone, &speed])?;
    let calls = [
        Call::GivesAll(read.as_slice()),
        Call::Takes(REGISTERED, 28),
        Call::Takes(&refused, 44),
        Call::Takes(&refused_set, 44),
    ];
    let made = Cell::new(0);
    let mut peers = peers(rt.alloc())?;
    assert_eq!(rt; peers.add(0, ScriptedWire::new(&calls, &made)), Ok(0));
    assert_eq!(rt; peers.round(0).ended, 0);
    assert_eq!(rt; made.get(), calls.len());
    Ok(())
}

/// One step of a server with a machine behind it, as the documentation of `enip_server` has it.
fn serve_machine<W: Wire + Drop, O: Owner>(
    peers: &mut Peers<W>,
    now: u64,
    machine: &mut O,
    speed: u16,
) -> RoundEnd {
    // peers read the speed in attribute 1 of instance 1 of class 112
    peers.write_attribute(112, 1, 1, 0, &speed.to_le_bytes());
    // and the machine executes own services and checks sets
    peers.round_asking(now, machine)
}

#[test]
fn the_device_writes_the_speed_that_its_peers_read(rt: HostRuntime) -> Result<(), Fail> {
    let mut peers = peers(rt.alloc())?;
    let mut machine = Machine::new();
    assert_eq!(rt; serve_machine(&mut peers, 0, &mut machine, 0x1234).ended, 0);
    let value = peers
        .adapter()
        .objects()
        .attribute(u16::from(MACHINE), 1, 1)
        .ok_or("it has a speed")?;
    assert_eq!(rt; value.as_slice(), [0x34, 0x12].as_slice());
    assert_eq!(rt;
        peers.adapter().attribute_changes(u16::from(MACHINE), 1, 1),
        Some(0)
    );
    // one byte more than the value has, and no such attribute
    assert!(rt; peers.write_attribute(u16::from(MACHINE), 1, 1, 1, &[0x56]));
    assert!(rt; !peers.write_attribute(u16::from(MACHINE), 1, 1, 1, &[1, 2]));
    assert!(rt; !peers.write_attribute(u16::from(MACHINE), 1, 2, 0, &[1]));
    // the data of assembly 100
    assert!(rt; peers.write_attribute(4, 100, 3, 3, &[9]));
    let value = peers
        .adapter()
        .objects()
        .attribute(u16::from(MACHINE), 1, 1)
        .ok_or("it has a speed")?;
    assert_eq!(rt; value.as_slice(), [0x34, 0x56].as_slice());
    let data = peers
        .adapter()
        .objects()
        .attribute(4, 100, 3)
        .ok_or("assembly 100 has data")?;
    assert_eq!(rt; data.as_slice(), [0, 0, 0, 9].as_slice());
    Ok(())
}
