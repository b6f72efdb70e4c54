//! An adapter that starts from what was kept of it.

use crate::queue_fixtures::{QUEUED, once, queued_config, reply, request, unconnected};
use cip_application::GET_RESULT;
use cip_ledger::{Ledger, MOST_ORIGINATORS};
use cip_objects::{AssemblyConfig, Config};
use enip_adapter::{Adapter, Shares};
use enip_keep::{Entry, KeepError};
use enip_server::NO_IDLE_TIMEOUT;
use kept_adapter::{AdapterStart, LedgerStart};
use kept_server::KeptDevice;
use std::alloc::{AllocError, Global};
use std::process::Abort;
use std::test::Fail;
use test_fixtures::adapter::{LIMITS, LISTEN, REGISTER, config, feed};

/// The keys of the life and of the first slot of the ledger.
const LIFE: u64 = 0x1_0065_0000_0000;

const FIRST_SLOT: u64 = 0x1_0065_0001_0000;

/// The first key of the queue, which has the last ones.
const QUEUE_KEY: u64 = 1 << 49;

/// The key of the data of assembly 100.
const DATA: u64 = 0x4_0064_0003;

/// Originator 1 and its command 2, which is done, with an empty reply.
const SLOT: [u8; 13] = [1, 0, 0, 0, 0, 0, 0, 0, 2, 0, 0, 0, 0];

/// The demo device with a ledger, which is in this life if its ledger starts empty.
fn start_in(alloc: Global, life: u64) -> Result<AdapterStart, Fail> {
    start_of(config(alloc)?, None, life)
}

/// A device of these objects with a ledger, which is in this life if its ledger starts empty, and with a queue of so
/// many commands if there is one.
fn start_of(objects: Config, queue: Option<u16>, life: u64) -> Result<AdapterStart, Fail> {
    Ok(AdapterStart {
        objects,
        ledger: Some(LedgerStart {
            originators: 2,
            life,
        }),
        queue,
        begins_life: false,
        reset: false,
        listen: LISTEN,
        limits: LIMITS,
        shares: Shares::NONE,
        idle_timeout: NO_IDLE_TIMEOUT,
    })
}

/// What is kept of an adapter.
fn saved(alloc: Global, adapter: &Adapter) -> Result<Vec<Entry>, AllocError> {
    let mut entries = Vec::new(alloc);
    AdapterStart::save(alloc, adapter, &mut entries)?;
    Ok(entries)
}

/// Gives the entry under a key other bytes.
fn set(entries: &mut Vec<Entry>, key: u64, bytes: &[u8]) -> Result<(), AllocError> {
    for index in 0..entries.len() {
        if entries[index].key == key {
            entries[index].bytes.clear();
            entries[index].bytes.extend_from_slice(bytes)?;
        }
    }
    Ok(())
}

/// The life of the adapter's ledger, and how many slots are taken.
fn ledger_of(adapter: &Adapter) -> (u64, usize) {
    adapter.ledger().map_or(
        (0, 0),
        |ledger: &Ledger| (ledger.life(), ledger.slot_count()),
    )
}

#[test]
fn an_adapter_starts_from_what_was_kept(rt: HostRuntime) -> Result<(), Fail> {
    let alloc = rt.alloc();
    let adapter = start_in(alloc, 9)?.start(alloc, &[])?;
    assert_eq!(rt; ledger_of(&adapter), (9, 0));
    let mut entries = saved(alloc, &adapter)?;
    set(&mut entries, DATA, &[7, 8, 9, 10])?;
    set(&mut entries, FIRST_SLOT, &SLOT)?;
    let start = start_in(alloc, 10)?;
    let again = start.start(alloc, &entries)?;
    assert_eq!(rt; ledger_of(&again), (9, 1));
    let data = again
        .objects()
        .attribute(4, 100, 3)
        .ok_or("assembly 100 has data")?;
    assert_eq!(rt; data.as_slice(), [7, 8, 9, 10].as_slice());
    assert_eq!(rt; start.unused(alloc, &entries)?.len(), 0);
    // It is kept in the same entries, the ledger last.
    let kept = saved(alloc, &again)?;
    assert_eq!(rt; kept.len(), entries.len());
    for index in 0..kept.len() {
        assert_eq!(rt; kept[index].key, entries[index].key);
        assert_eq!(rt;
            kept[index].bytes.as_slice(),
            entries[index].bytes.as_slice()
        );
    }
    let life = kept.len() - usize::from(MOST_ORIGINATORS) - 1;
    assert_eq!(rt; kept[life].key, LIFE);
    Ok(())
}

#[test]
fn a_ledger_of_which_a_slot_is_lost_starts_empty(rt: HostRuntime) -> Result<(), Fail> {
    let alloc = rt.alloc();
    let mut entries = saved(alloc, &start_in(alloc, 9)?.start(alloc, &[])?)?;
    set(&mut entries, FIRST_SLOT, &SLOT[..12])?;
    let start = start_in(alloc, 10)?;
    assert_eq!(rt; ledger_of(&start.start(alloc, &entries)?), (10, 0));
    let unused = start.unused(alloc, &entries)?;
    assert_eq!(rt; unused.as_slice(), [FIRST_SLOT].as_slice());
    Ok(())
}

#[test]
fn a_value_of_another_size_waits(rt: HostRuntime) -> Result<(), Fail> {
    let alloc = rt.alloc();
    let mut entries = saved(alloc, &start_in(alloc, 9)?.start(alloc, &[])?)?;
    let start = start_in(alloc, 10)?;
    assert_eq!(rt; start.waiting(alloc, &entries)?.len(), 0);
    set(&mut entries, DATA, &[7, 8, 9])?;
    set(&mut entries, FIRST_SLOT, &SLOT[..12])?;
    let waiting = start.waiting(alloc, &entries)?;
    assert_eq!(rt; waiting.as_slice(), [DATA].as_slice());
    Ok(())
}

#[test]
fn entries_are_compared_in_place(rt: HostRuntime) -> Result<(), Fail> {
    let alloc = rt.alloc();
    let adapter = start_in(alloc, 9)?.start(alloc, &[])?;
    let mut entries = saved(alloc, &adapter)?;
    assert_eq!(rt; AdapterStart::is_saved(&adapter, &entries), true);
    // each entry is compared: another byte, a byte more, and another key
    for index in 0..entries.len() {
        entries[index].bytes.push(0)?;
        assert_eq!(rt; AdapterStart::is_saved(&adapter, &entries), false);
        entries[index].bytes.pop();
        entries[index].key += 1;
        assert_eq!(rt; AdapterStart::is_saved(&adapter, &entries), false);
        entries[index].key -= 1;
    }
    set(&mut entries, DATA, &[0, 0, 0, 1])?;
    assert_eq!(rt; AdapterStart::is_saved(&adapter, &entries), false);
    set(&mut entries, DATA, &[0, 0, 0, 0])?;
    assert_eq!(rt; AdapterStart::is_saved(&adapter, &entries), true);
    let _ = entries.pop();
    assert_eq!(rt; AdapterStart::is_saved(&adapter, &entries), false);
    Ok(())
}

#[test]
fn the_entries_of_another_device_are_refused(rt: HostRuntime) -> Result<(), Fail> {
    let alloc = rt.alloc();
    let mut entries = saved(alloc, &start_in(alloc, 9)?.start(alloc, &[])?)?;
    set(&mut entries, device_state::identity_key(), &[0; 8])?;
    let start = start_in(alloc, 10)?;
    assert_eq!(rt;
        start.start(alloc, &entries).err(),
        Some(KeepError::Refused)
    );
    // Nor does a device start whose assemblies do not rise.
    let mut other = start_in(alloc, 10)?;
    other.objects.assemblies.push(AssemblyConfig {
        instance: 99,
        settable: true,
        members: Vec::from_slice(alloc, &[1])?,
        lists: false,
    })?;
    assert_eq!(rt; other.start(alloc, &[]).err(), Some(KeepError::Refused));
    Ok(())
}

/// Asserts the reply to an unconnected request of a new peer, who is removed then. Each peer has its own session.
fn check_reply(
    rt: &impl Abort,
    alloc: Global,
    adapter: &mut Adapter,
    message: &[u8],
    wanted: &[u8],
) -> Result<(), Fail> {
    let peer = adapter.begin().ok().ok_or("a slot is free")?;
    let _ = feed(adapter, &peer, REGISTER);
    let mut sent = unconnected(alloc, message)?;
    sent[4..8].copy_from_slice(&peer.handle().to_le_bytes());
    let mut answer = unconnected(alloc, wanted)?;
    answer[4..8].copy_from_slice(&peer.handle().to_le_bytes());
    assert!(rt; feed(adapter, &peer, &sent).answer == Some(answer.as_slice()));
    adapter.end(peer);
    Ok(())
}

/// Three commands, the last through Do_Once. The second is finished.
fn command_three(rt: &impl Abort, alloc: Global, adapter: &mut Adapter) -> Result<(), Fail> {
    let queued = request(alloc, QUEUED, 1, b"\x05\0\0\0")?;
    check_reply(rt, alloc, adapter, &queued, b"\xb3\0\0\0\x01\0\0\0")?;
    check_reply(rt, alloc, adapter, &queued, b"\xb3\0\0\0\x02\0\0\0")?;
    let once = once(alloc, 9, 4, &queued)?;
    check_reply(rt, alloc, adapter, &once, b"\xcb\0\0\0\x01")?;
    assert!(rt; adapter.finish(2, &reply(0, b"\x2a")?));
    Ok(())
}

/// A queue goes on over a restart: what waits and in which order, the results, the next ticket, and what is pending in
/// the ledger.
#[test]
fn a_queue_goes_on(rt: HostRuntime) -> Result<(), Fail> {
    let alloc = rt.alloc();
    let mut adapter = start_of(queued_config(alloc)?, Some(3), 9)?.start(alloc, &[])?;
    command_three(&rt, alloc, &mut adapter)?;
    let entries = saved(alloc, &adapter)?;
    let start = start_of(queued_config(alloc)?, Some(3), 10)?;
    let mut again = start.start(alloc, &entries)?;
    assert_eq!(rt; start.unused(alloc, &entries)?.len(), 0);
    assert!(rt; AdapterStart::is_saved(&again, &entries));
    let queue = again.queue().ok_or("a queue")?;
    assert_eq!(rt; queue.waiting_count(), 2);
    assert_eq!(rt; queue.waiting(0).map(|command| command.ticket), Some(1));
    assert_eq!(rt; queue.waiting(1).map(|command| command.ticket), Some(3));
    assert_eq!(rt; queue.result_count(), 1);
    let result = request(alloc, GET_RESULT, 1, b"\x02\0\0\0")?;
    check_reply(&rt, alloc, &mut again, &result, b"\xce\0\0\0\0\0\x2a")?;
    let queued = request(alloc, QUEUED, 1, b"\x05\0\0\0")?;
    let once = once(alloc, 9, 4, &queued)?;
    check_reply(&rt, alloc, &mut again, &once, b"\xcb\0\0\0\x01")?;
    assert!(rt; again.finish(3, &reply(0, b"\x2b")?));
    check_reply(&rt, alloc, &mut again, &once, b"\xcb\0\0\0\0\xb3\0\0\0\x2b")?;
    check_reply(&rt, alloc, &mut again, &queued, b"\xb3\0\0\0\x04\0\0\0")?;
    Ok(())
}

/// If an entry of the queue is lost, the queue starts empty and the ledger in a new life.
#[test]
fn a_lost_entry_of_the_queue(rt: HostRuntime) -> Result<(), Fail> {
    let alloc = rt.alloc();
    let mut adapter = start_of(queued_config(alloc)?, Some(3), 9)?.start(alloc, &[])?;
    command_three(&rt, alloc, &mut adapter)?;
    let whole = saved(alloc, &adapter)?;
    let start = start_of(queued_config(alloc)?, Some(3), 10)?;
    for index in 0..whole.len() {
        if whole[index].key < QUEUE_KEY || whole[index].bytes.is_empty() {
            continue;
        }
        let mut entries = saved(alloc, &adapter)?;
        entries[index].bytes.clear();
        entries[index].bytes.push(0)?;
        let again = start.start(alloc, &entries)?;
        assert_eq!(rt; ledger_of(&again), (10, 0));
        let queue = again.queue().ok_or("a queue")?;
        assert_eq!(rt;
            (queue.next(), queue.waiting_count(), queue.result_count()),
            (1, 0, 0)
        );
    }
    Ok(())
}
