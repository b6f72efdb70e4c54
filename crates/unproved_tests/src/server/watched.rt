//! Rounds that show the device to a watcher, after each frame of a peer.

use super::turns::joined;
use super::wires::{Call, ScriptedWire};
use cip_owner::NoOwner;
use enip_adapter::Adapter;
use enip_server::{NO_IDLE_TIMEOUT, Peers, ReadOutcome, RoundEnd, Watcher, Wire};
use std::alloc::Global;
use std::cell::Cell;
use std::test::Fail;
use test_fixtures::adapter::{REGISTER, REGISTERED, new_adapter};

/// A wire that knows the name of its peer.
#[derive(Drop)]
struct NamedWire<'a> {
    name: u8,
    wire: ScriptedWire<'a>,
}

impl Wire for NamedWire<'_> {
    ghost left = { λ _. None };

    ghost written = { λ _. None };

    ghost known = { λ _. None };

    ghost counts = { λ named. named.wire.counts };

    fn read(&mut self, into: &mut [u8]) -> ReadOutcome {
        self.wire.read(into)
    }

    fn write(&mut self, from: &[u8]) -> Option<usize> {
        self.wire.write(from)
    }

    fn shut(&mut self) {
        self.wire.shut();
    }
}

/// What a watcher saw after a frame: the name of the peer, the first byte of assembly 100, and how often it was set.
type Seen = (u8, u8, Option<u32>);

/// A watcher that writes down what it sees.
#[derive(Drop)]
struct Log {
    seen: Vec<Seen>,
}

impl<'a> Watcher<NamedWire<'a>> for Log {
    ghost has_seen = { λ log device. ⊤ };

    fn served(&mut self, wire: &NamedWire<'a>, adapter: &Adapter) {
        let data = adapter.objects().attribute(4, 100, 3);
        let first = match &data {
            Some(data) => data.as_slice().first().copied(),
            None => None,
        };
        let seen = (wire.name, first.unwrap_or(0xff), adapter.changes(100));
        let _ = self.seen.push(seen);
    }
}

/// One step of a server with a watcher, as the documentation of `enip_server` has it.
fn serve_watched<W: Wire + Drop, T: Watcher<W>>(
    peers: &mut Peers<W>,
    now: u64,
    log: &mut T,
) -> RoundEnd {
    // after each frame of a peer, `log` sees the device and the wire of that peer
    peers.round_watched(now, &mut NoOwner, log)
}

/// Set_Attribute_Single of the data of assembly 100 in a session. The first byte of the data is this one.
fn set(session: u8, first: u8) -> [u8; 52] {
    let mut frame = [0; 52];
    frame.copy_from_slice(
        b"\x6f\0\x1c\0\x01\0\0\0\0\0\0\0\x01\x02\x03\x04\x05\x06\x07\x08\0\0\0\0\
        \0\0\0\0\0\0\x02\0\0\0\0\0\xb2\0\x0c\0\x10\x03\x20\x04\x24\x64\x30\x03\0\0\0\0",
    );
    frame[4] = session;
    frame[48] = first;
    frame
}

/// The answer to it.
fn is_set(session: u8) -> [u8; 44] {
    let mut frame = [0; 44];
    frame.copy_from_slice(
        b"\x6f\0\x14\0\x01\0\0\0\0\0\0\0\x01\x02\x03\x04\x05\x06\x07\x08\0\0\0\0\
        \0\0\0\0\0\0\x02\0\0\0\0\0\xb2\0\x04\0\x90\0\0\0",
    );
    frame[4] = session;
    frame
}

/// A named wire with these calls.
fn wire<'a>(name: u8, calls: &'a [Call<'a>], made: &'a Cell<usize>) -> NamedWire<'a> {
    NamedWire {
        name,
        wire: ScriptedWire::new(calls, made),
    }
}

/// The peers of the demo device.
fn peers<'a>(alloc: Global) -> Result<Peers<NamedWire<'a>>, Fail> {
    Ok(Peers::new(alloc, new_adapter(alloc)?, NO_IDLE_TIMEOUT)?)
}

#[test]
fn each_set_is_seen_with_its_value_and_its_peer(rt: HostRuntime) -> Result<(), Fail> {
    let alloc = rt.alloc();
    let last = set(1, 9);
    let read = joined(alloc, &[REGISTER, &set(1, 7), &set(1, 8), &last[..30]])?;
    let done = is_set(1);
    // the answer to the second set is not written at once
    let calls = [
        Call::GivesAll(read.as_slice()),
        Call::Takes(REGISTERED, 28),
        Call::Takes(&done, 44),
        Call::Takes(&done, 10),
        Call::Takes(&done[10..], 0),
        Call::Takes(&done[10..], 34),
        Call::GivesAll(&last[30..]),
        Call::Takes(&done, 44),
    ];
    let mut registered = [0; 28];
    registered.copy_from_slice(REGISTERED);
    registered[4] = 2;
    let read_two = joined(alloc, &[REGISTER, &set(2, 5)])?;
    let done_two = is_set(2);
    let calls_two = [
        Call::GivesAll(read_two.as_slice()),
        Call::Takes(&registered, 28),
        Call::Takes(&done_two, 44),
    ];
    let (one, two) = (Cell::new(0), Cell::new(0));
    let mut peers = peers(alloc)?;
    let mut log = Log {
        seen: Vec::new(alloc),
    };
    assert_eq!(rt; peers.add(0, wire(21, &calls, &one)), Ok(0));
    assert_eq!(rt; peers.add(0, wire(22, &calls_two, &two)), Ok(1));
    // the second peer sets the data while the first one is stalled; then a part of a frame is fed, and then its rest
    let all = [
        (21, 0, Some(0)),
        (21, 7, Some(1)),
        (21, 8, Some(2)),
        (22, 8, Some(2)),
        (22, 5, Some(3)),
        (21, 5, Some(3)),
        (21, 9, Some(4)),
    ];
    for (moment, by_then, seen) in [(0, 5, 5), (1, 6, 6), (2, 8, 7)] {
        assert_eq!(rt; serve_watched(&mut peers, moment, &mut log).ended, 0);
        assert_eq!(rt; (one.get(), two.get()), (by_then, 3));
        assert_eq!(rt; log.seen.as_slice(), &all[..seen]);
        // what the device writes is not seen: it is no frame of a peer
        assert!(rt; peers.write_data(100, 3, &[1]));
        peers.mark_ready(0, false);
    }
    Ok(())
}

#[test]
fn nothing_is_seen_without_a_frame(rt: HostRuntime) -> Result<(), Fail> {
    let calls = [Call::Later, Call::Ends];
    let made = Cell::new(0);
    let mut peers = peers(rt.alloc())?;
    let mut log = Log {
        seen: Vec::new(rt.alloc()),
    };
    assert_eq!(rt; peers.add(0, wire(21, &calls, &made)), Ok(0));
    for (moment, ended) in [(0, 0), (1, 1)] {
        assert_eq!(rt; serve_watched(&mut peers, moment, &mut log).ended, ended);
        peers.mark_ready(0, false);
    }
    assert_eq!(rt; made.get(), 2);
    assert_eq!(rt; log.seen.len(), 0);
    Ok(())
}
