//! Peers of a device whose state is kept, over a keeper in memory that can fail.

use super::framed::in_first;
use super::owner::{MOVE_ALONE, Machine, config_with_machine, moved_alone};
use super::turns::joined;
use super::wires::{Call, ScriptedWire};
use arrayvec::ArrayVec;
use cip_objects::{Config, Objects};
use cip_owner::{NoOwner, OwnRequest};
use enip_adapter::{Adapter, Limits, Peer};
use enip_keep::{Device, Entry, KeepError, MemoryKeeper, Server, StorageFault};
use enip_server::{
    EVICTION_SILENCE, FrameWire, Gate, HeldWire, NO_IDLE_TIMEOUT, NoWatcher, Peers, Watcher,
};
use kept_server::{Accepted, KeptDevice, KeptPeers, ReadyWire, RoundGuest, RoundInput};
use std::alloc::{AllocError, Global};
use std::cell::Cell;
use std::process::Abort;
use std::test::Fail;
use test_fixtures::adapter::{LIMITS, LISTEN, REGISTER, REGISTERED, config};

/// Set_Attribute_Single of the data of assembly 100 to 7, 8, 9, 10 in session 1, and its answer.
const SET: &[u8] = b"\x6f\0\x1c\0\x01\0\0\0\0\0\0\0\x01\x02\x03\x04\x05\x06\x07\x08\0\0\0\0\
    \0\0\0\0\0\0\x02\0\0\0\0\0\xb2\0\x0c\0\x10\x03\x20\x04\x24\x64\x30\x03\x07\x08\x09\x0a";

const SET_REPLY: &[u8] = b"\x6f\0\x14\0\x01\0\0\0\0\0\0\0\x01\x02\x03\x04\x05\x06\x07\x08\0\0\0\0\
    \0\0\0\0\0\0\x02\0\0\0\0\0\xb2\0\x04\0\x90\0\0\0";

/// The key of the data of assembly 100.
const KEY: u64 = 0x4_0064_0003;

/// A demo device, of which the data of assembly 100 are kept. It starts from those alone, and takes nothing from data of
/// another size.
#[derive(Drop)]
struct DataKept {
    config: Config,
    /// The number of peer slots.
    peers: u16,
}

impl KeptDevice for DataKept {
    ghost saved = { ? };

    ghost keys = { ? };

    ghost started = { ? };

    ghost waiting = { ? };

    ghost refuses = { ? };

    fn idle_timeout(&self) -> u64 {
        NO_IDLE_TIMEOUT
    }

    fn start(&self, alloc: Global, entries: &[Entry]) -> Result<Adapter, KeepError> {
        let mut objects = Objects::new(alloc, &self.config)
            .ok()
            .ok_or(KeepError::Memory)?;
        for entry in entries {
            if entry.key != KEY {
                return Err(KeepError::Refused);
            }
            if entry.bytes.len() == 4 {
                objects.write_data(100, 0, entry.bytes.as_slice());
            }
        }
        let limits = Limits {
            peers: self.peers,
            ..LIMITS
        };
        Ok(Adapter::new(alloc, objects, LISTEN, limits)?)
    }

    fn first(&self, alloc: Global) -> Result<Adapter, AllocError> {
        self.start(alloc, &[]).ok().ok_or(AllocError)
    }

    fn waiting(&self, alloc: Global, entries: &[Entry]) -> Result<Vec<u64>, AllocError> {
        let mut keys = Vec::new(alloc);
        for entry in entries {
            if entry.bytes.len() != 4 {
                keys.push(entry.key)?;
            }
        }
        Ok(keys)
    }

    fn is_saved(adapter: &Adapter, entries: &[Entry]) -> bool {
        match (adapter.objects().attribute(4, 100, 3), entries.first()) {
            (Some(data), Some(entry)) => data.as_slice() == entry.bytes.as_slice(),
            _ => false,
        }
    }

    fn save(alloc: Global, adapter: &Adapter, into: &mut Vec<Entry>) -> Result<(), AllocError> {
        into.clear();
        let mut bytes = Vec::new(alloc);
        if let Some(data) = adapter.objects().attribute(4, 100, 3) {
            bytes.extend_from_slice(data.as_slice())?;
        }
        into.push(Entry { key: KEY, bytes })?;
        Ok(())
    }

    ghost under_keys = { ? };

    ghost same_keys = { ? };
}

type Served<'a> = Server<KeptPeers<ScriptedWire<'a>, DataKept, NoWatcher>, MemoryKeeper>;

/// The input of a round at a time.
fn input<'a>(
    now: u64,
    accepted: Option<ScriptedWire<'a>>,
    ready: &[usize],
) -> RoundInput<ScriptedWire<'a>> {
    let mut wires = ArrayVec::new();
    for slot in ready {
        wires.push(ReadyWire {
            slot: *slot,
            ends: false,
        });
    }
    RoundInput {
        now,
        accepted: accepted.map(Accepted::writer),
        ready: wires,
        room_for: None,
    }
}

/// Asserts that these are the data of assembly 100.
fn assert_data<A: Abort>(rt: &A, adapter: &Adapter, data: [u8; 4]) -> Result<(), Fail> {
    let found = adapter
        .objects()
        .attribute(4, 100, 3)
        .ok_or("assembly 100 has data")?;
    assert_eq!(rt; found.as_slice(), data.as_slice());
    Ok(())
}

#[test]
fn an_answer_leaves_once_its_change_is_kept(rt: HostRuntime) -> Result<(), Fail> {
    let device = DataKept {
        config: config(rt.alloc())?,
        peers: LIMITS.peers,
    };
    let made = Cell::new(0);
    let calls = [
        Call::GivesAll(REGISTER),
        Call::Takes(REGISTERED, 28),
        Call::GivesAll(SET),
        Call::Takes(SET_REPLY, 44),
    ];
    let keeper = MemoryKeeper::new(rt.alloc());
    let mut server: Served<'_> = Server::start(rt.alloc(), keeper, &device)?;
    server.round(
        input(0, Some(ScriptedWire::new(&calls, &made)), &[]),
        &mut NoWatcher,
    )?;
    assert_eq!(rt; made.get(), 2);
    server.round(input(1, None, &[0]), &mut NoWatcher)?;
    assert_eq!(rt; made.get(), 4);
    let end = server.device().last_round();
    assert_eq!(rt; (end.ended, end.ready, end.next), (0, false, None));
    // a start finds what the answer reported, and no peer
    server.restart(rt.alloc(), &device)?;
    assert_data(&rt, server.device().peers().adapter(), [7, 8, 9, 10])?;
    assert_eq!(rt; server.device().peers().first_free(), Some(0));
    Ok(())
}

#[test]
fn no_answer_leaves_if_the_commit_fails(rt: HostRuntime) -> Result<(), Fail> {
    let device = DataKept {
        config: config(rt.alloc())?,
        peers: LIMITS.peers,
    };
    for (keeps_failed, data) in [(false, [0; 4]), (true, [7, 8, 9, 10])] {
        let made = Cell::new(0);
        let calls = [
            Call::GivesAll(REGISTER),
            Call::Takes(REGISTERED, 28),
            Call::GivesAll(SET),
        ];
        let mut keeper = MemoryKeeper::new(rt.alloc());
        // the load and the commit of the start succeed; a round without a change commits nothing
        keeper.fail_after(2, keeps_failed);
        let mut server: Served<'_> = Server::start(rt.alloc(), keeper, &device)?;
        server.round(
            input(0, Some(ScriptedWire::new(&calls, &made)), &[]),
            &mut NoWatcher,
        )?;
        assert_eq!(rt;
            server.round(input(1, None, &[0]), &mut NoWatcher),
            Err(KeepError::Storage(StorageFault::Failed))
        );
        assert_eq!(rt; made.get(), 3);
        // nothing is served any more
        assert_eq!(rt;
            server.round(input(2, None, &[0]), &mut NoWatcher),
            Err(KeepError::Stopped)
        );
        assert_eq!(rt; made.get(), 3);
        server.restart(rt.alloc(), &device)?;
        assert_eq!(rt; made.get(), 3);
        assert_data(&rt, server.device().peers().adapter(), data)?;
    }
    Ok(())
}

/// A guest that writes the data of assembly 100 at the beginning of each round, and counts the frames that it sees.
#[derive(Drop)]
struct Writer {
    data: [u8; 4],
    frames: u32,
}

impl<'a> Watcher<HeldWire<ScriptedWire<'a>>> for Writer {
    ghost use Rattle.std.specs.Prelude.{⊤};

    ghost has_seen = { λ writer device. ⊤ };

    fn served(&mut self, _wire: &HeldWire<ScriptedWire<'a>>, _adapter: &Adapter) {
        self.frames += 1;
    }
}

impl<'a> RoundGuest<ScriptedWire<'a>> for Writer {
    ghost use Rattle.std.specs.Prelude.{⊤};

    type RoundOwner = NoOwner;

    ghost begins = { λ now writer before next after owner. ⊤ };

    ghost admits = { λ now writer before next after. ⊤ };

    fn begin_round(&mut self, _now: u64, peers: &mut Peers<HeldWire<ScriptedWire<'a>>>) -> NoOwner {
        peers.write_data(100, 0, self.data.as_slice());
        NoOwner
    }

    fn admit_frames(&mut self, _now: u64, _peers: &mut Peers<HeldWire<ScriptedWire<'a>>>) {}
}

#[test]
fn what_a_guest_writes_is_kept(rt: HostRuntime) -> Result<(), Fail> {
    let device = DataKept {
        config: config(rt.alloc())?,
        peers: LIMITS.peers,
    };
    let made = Cell::new(0);
    let calls = [Call::GivesAll(REGISTER), Call::Takes(REGISTERED, 28)];
    let mut keeper = MemoryKeeper::new(rt.alloc());
    // the load and the commit of the start, and the commit of the first round
    keeper.fail_after(3, false);
    let mut server: Server<KeptPeers<ScriptedWire<'_>, DataKept, Writer>, MemoryKeeper> =
        Server::start(rt.alloc(), keeper, &device)?;
    let mut guest = Writer {
        data: [1, 2, 3, 4],
        frames: 0,
    };
    let first = input(0, Some(ScriptedWire::new(&calls, &made)), &[]);
    server.round(first, &mut guest)?;
    assert_eq!(rt; (made.get(), guest.frames), (2, 1));
    guest.data = [5, 6, 7, 8];
    assert_eq!(rt;
        server.round(input(1, None, &[]), &mut guest),
        Err(KeepError::Storage(StorageFault::Failed))
    );
    server.restart(rt.alloc(), &device)?;
    assert_data(&rt, server.device().peers().adapter(), [1, 2, 3, 4])
}

/// A wire whose frames wait until they are admitted.
type GatedScript<'a> = FrameWire<ScriptedWire<'a>>;

/// A guest that writes the number of the round, and admits requests to the owner while it is open. The owner of each round
/// is a machine that has not moved.
#[derive(Drop)]
struct Clerk {
    round: u8,
    is_open: bool,
    shown: u32,
}

impl<'a> Watcher<HeldWire<GatedScript<'a>>> for Clerk {
    ghost use Rattle.std.specs.Prelude.{⊤};

    ghost has_seen = { λ clerk device. ⊤ };

    fn served(&mut self, _wire: &HeldWire<GatedScript<'a>>, _adapter: &Adapter) {}
}

impl<W> Gate<W> for Clerk {
    ghost use Rattle.std.specs.Prelude.{⊤};

    ghost shows = { λ clerk peer wire asked numbered admitted after. ⊤ };

    fn admits(
        &mut self,
        _peer: Peer,
        _wire: &W,
        _request: &OwnRequest<'_>,
        _is_numbered: bool,
    ) -> bool {
        self.shown += 1;
        self.is_open
    }
}

impl<'a> RoundGuest<GatedScript<'a>> for Clerk {
    ghost use Rattle.std.specs.Prelude.{⊤};

    type RoundOwner = Machine;

    ghost begins = { λ now clerk before next after owner. ⊤ };

    ghost admits = { λ now clerk before next after. ⊤ };

    fn begin_round(&mut self, _now: u64, peers: &mut Peers<HeldWire<GatedScript<'a>>>) -> Machine {
        self.round += 1;
        peers.write_data(100, 0, &[self.round; 4]);
        Machine::new()
    }

    fn admit_frames(&mut self, now: u64, peers: &mut Peers<HeldWire<GatedScript<'a>>>) {
        peers.admit_frames(now, self);
    }
}

#[test]
fn a_request_that_waits_is_answered_once_it_is_kept(rt: HostRuntime) -> Result<(), Fail> {
    let ask = in_first(MOVE_ALONE);
    let moved = in_first(&moved_alone(3));
    let read = joined(rt.alloc(), &[REGISTER, &ask])?;
    let calls = [
        Call::GivesAll(read.as_slice()),
        Call::Takes(REGISTERED, 28),
        Call::Takes(&moved[..48], 48),
        Call::Later,
    ];
    let device = DataKept {
        config: config_with_machine(rt.alloc())?,
        peers: LIMITS.peers,
    };
    // the round whose commit fails, if one does; the load and the commit of the start come before
    for fails in [None, Some(5u8)] {
        let made = Cell::new(0);
        let mut keeper = MemoryKeeper::new(rt.alloc());
        if let Some(round) = fails {
            keeper.fail_after(1 + u64::from(round), false);
        }
        let mut server: Server<KeptPeers<GatedScript<'_>, DataKept, Clerk>, MemoryKeeper> =
            Server::start(rt.alloc(), keeper, &device)?;
        let mut clerk = Clerk {
            round: 0,
            is_open: false,
            shown: 0,
        };
        let mut accepted = Some(Accepted::writer(FrameWire::new(
            ScriptedWire::new(&calls, &made),
            true,
        )));
        // for each round whether the gate is open, how often it was shown a request, the calls made, and whether a wire may
        // be ready
        for (is_open, shown, by_then, ready) in [
            (true, 0, 1, true),
            (true, 0, 2, true),
            (false, 1, 2, false),
            (true, 2, 2, true),
            (true, 2, 3, true),
            (true, 2, 4, false),
        ] {
            clerk.is_open = is_open;
            let input = RoundInput {
                now: 1,
                accepted: accepted.take(),
                ready: ArrayVec::new(),
                room_for: None,
            };
            let outcome = server.round(input, &mut clerk);
            if fails == Some(clerk.round) {
                assert_eq!(rt; outcome, Err(KeepError::Storage(StorageFault::Failed)));
                assert_eq!(rt; made.get(), 2);
                break;
            }
            assert_eq!(rt; outcome, Ok(()));
            assert_eq!(rt; (clerk.shown, made.get()), (shown, by_then));
            assert_eq!(rt; server.device().last_round().ready, ready);
        }
    }
    Ok(())
}

/// The data of assembly 100 as an entry.
fn data_entry(alloc: Global, data: &[u8]) -> Result<Entry, AllocError> {
    Ok(Entry {
        key: KEY,
        bytes: Vec::from_slice(alloc, data)?,
    })
}

#[test]
fn a_value_that_is_not_used_stays_until_it_is_written(rt: HostRuntime) -> Result<(), Fail> {
    let alloc = rt.alloc();
    let device = DataKept {
        config: config(alloc)?,
        peers: LIMITS.peers,
    };
    let made = Cell::new(0);
    let calls = [
        Call::GivesAll(REGISTER),
        Call::Takes(REGISTERED, 28),
        Call::GivesAll(SET),
        Call::Takes(SET_REPLY, 44),
    ];
    // data of three bytes are not used, and nothing takes their place
    let found = data_entry(alloc, &[1, 2, 3])?;
    let mut peers: KeptPeers<ScriptedWire<'_>, DataKept, NoWatcher> = KeptPeers::start(
        alloc,
        &device,
        &[found],
    )?;
    assert_eq!(rt; peers.changes().len(), 0);
    peers.release();
    peers.serve(
        input(0, Some(ScriptedWire::new(&calls, &made)), &[]),
        &mut NoWatcher,
    )?;
    assert_eq!(rt; peers.changes().len(), 0);
    peers.release();
    // a set does
    peers.serve(input(1, None, &[0]), &mut NoWatcher)?;
    assert_eq!(rt; peers.changes().len(), 1);
    assert_eq!(rt;
        peers.changes()[0].bytes.as_slice(),
        [7, 8, 9, 10].as_slice()
    );
    peers.release();
    assert_eq!(rt; peers.changes().len(), 0);
    // data of four bytes are used, and kept again at the start
    let found = data_entry(alloc, &[1, 2, 3, 4])?;
    let peers: KeptPeers<ScriptedWire<'_>, DataKept, NoWatcher> = KeptPeers::start(
        alloc,
        &device,
        &[found],
    )?;
    assert_eq!(rt; peers.changes().len(), 1);
    Ok(())
}

#[test]
fn room_is_made_at_the_end_of_a_round(rt: HostRuntime) -> Result<(), Fail> {
    let device = DataKept {
        config: config(rt.alloc())?,
        peers: 1,
    };
    let made = [Cell::new(0), Cell::new(0)];
    let calls = [Call::Later];
    let keeper = MemoryKeeper::new(rt.alloc());
    let mut server: Served<'_> = Server::start(rt.alloc(), keeper, &device)?;
    server.round(
        input(0, Some(ScriptedWire::new(&calls, &made[0])), &[]),
        &mut NoWatcher,
    )?;
    for (now, room_for, ended) in [
        (EVICTION_SILENCE, None, 0),
        (EVICTION_SILENCE - 1, Some(7), 0),
        (EVICTION_SILENCE, Some(7), 1),
        (EVICTION_SILENCE, Some(7), 0),
    ] {
        let mut asked = input(now, None, &[]);
        asked.room_for = room_for;
        server.round(asked, &mut NoWatcher)?;
        let end = server.device().last_round();
        assert_eq!(rt;
            (end.ended, end.ready, end.next),
            (ended, false, None),
            "{now}"
        );
    }
    assert_eq!(rt; server.device().peers().first_free(), Some(0));
    // the client is accepted in the next round
    let client = ScriptedWire::new(&calls, &made[1]);
    server.round(input(EVICTION_SILENCE, Some(client), &[]), &mut NoWatcher)?;
    assert_eq!(rt; server.device().peers().first_free(), None);
    assert_eq!(rt; (made[0].get(), made[1].get()), (1, 1));
    Ok(())
}
