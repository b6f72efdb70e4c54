//! The entries of a device, and a device that starts from them. Keys and bytes are written out by hand.

use super::application_objects::objects_with_conveyor;
use cip_ledger::{KeptCommand, Ledger};
use cip_objects::{Objects, ReplyBuf};
use cip_owner::Queue;
use device_state::{
    Outcome, identity_key, is_same_device, needs_version_2, object_entry, restore,
    restore_queue_entry, saved_entry, write_queue_entry,
};
use std::alloc::Global;
use std::process::Abort;
use std::test::Fail;

/// The keys of the entries of the demo device with a conveyor and a ledger of one taken slot, in their order.
const KEYS: [u64; 10] = [
    0x0001_0001_0000, // which device it is
    0x0065_0000_0000, // the life
    0x0065_0001_0000, // the first slot
    0x0004_0064_0003, // the data of assembly 100
    0x0064_0001_0001, // the counter's value
    0x0064_0001_0002, // its limit
    0x0064_0001_0003, // its additions
    0x0300_0002_0001, // the conveyor's name
    0x0300_0002_0003, // its speed
    0x0300_0002_0004, // its checked attribute
];

/// Vendor 0x1234, product code 7, serial number 0x01020304.
const IDENTITY: &[u8] = b"\x34\x12\x07\x00\x04\x03\x02\x01";

/// Life 0x0102.
const LIFE: &[u8] = b"\x02\x01\x00\x00\x00\x00\x00\x00";

/// Originator 9, number 5, done, the reply `b2 00 00 00`.
const SLOT: &[u8] = b"\x09\x00\x00\x00\x00\x00\x00\x00\x05\x00\x00\x00\x00\xb2\x00\x00\x00";

/// A device with changed values, in life 0x0102.
fn used_device(rt: &impl Abort, alloc: Global) -> Result<(Objects, Option<Ledger>), Fail> {
    let mut objects = objects_with_conveyor(alloc)?;
    assert!(rt; objects.write_data(100, 0, b"\xaa\xbb"));
    assert!(rt; objects.write_attribute(768, 2, 1, 0, b"\x03xyz"));
    assert!(rt; objects.write_attribute(768, 2, 3, 0, b"\xff\xff")); // out of the range of peers
    let mut ledger = Ledger::new(alloc, 2, 0x0102)?;
    assert!(rt;
        ledger.restore(KeptCommand {
            originator: 9,
            number: 5,
            reply: Some(b"\xb2\x00\x00\x00".as_slice()),
            ticket: None,
        })
    );
    Ok((objects, Some(ledger)))
}

/// The same device as it starts.
fn fresh_device(alloc: Global) -> Result<(Objects, Option<Ledger>), Fail> {
    Ok((
        objects_with_conveyor(alloc)?,
        Some(Ledger::new(alloc, 2, 7)?),
    ))
}

/// Asserts which bytes the entry at an index has.
fn check(rt: &impl Abort, device: &(Objects, Option<Ledger>), index: usize, wanted: &[u8]) {
    let mut bytes = ReplyBuf::new();
    let key = saved_entry(&device.0, device.1.as_ref(), index, &mut bytes);
    assert_eq!(rt; key, Some(KEYS[index]));
    assert_eq!(rt; bytes.as_slice(), wanted);
}

#[test]
fn entries_of_a_device(rt: HostRuntime) -> Result<(), Fail> {
    let device = used_device(&rt, rt.alloc())?;
    let mut bytes = ReplyBuf::new();
    for index in 0..10 {
        assert_eq!(rt;
            saved_entry(&device.0, device.1.as_ref(), index, &mut bytes),
            Some(KEYS[index])
        );
    }
    assert_eq!(rt;
        saved_entry(&device.0, device.1.as_ref(), 10, &mut bytes),
        None
    );
    assert_eq!(rt; identity_key(), KEYS[0]);
    check(&rt, &device, 0, IDENTITY);
    check(&rt, &device, 1, LIFE);
    check(&rt, &device, 2, SLOT);
    check(&rt, &device, 3, b"\xaa\xbb\x00\x00");
    check(&rt, &device, 4, b"\x00\x00\x00\x00");
    check(&rt, &device, 5, b"\x64\x00\x00\x00");
    check(&rt, &device, 7, b"\x03xyz");
    check(&rt, &device, 8, b"\xff\xff");
    Ok(())
}

#[test]
fn started_from_its_entries(rt: HostRuntime) -> Result<(), Fail> {
    let old = used_device(&rt, rt.alloc())?;
    let mut new = fresh_device(rt.alloc())?;
    let mut bytes = ReplyBuf::new();
    let mut again = ReplyBuf::new();
    for index in 0..10 {
        let key = saved_entry(&old.0, old.1.as_ref(), index, &mut bytes).ok_or("an entry")?;
        assert_eq!(rt; restore(&mut new.0, &mut new.1, key, &bytes), Outcome::Used);
    }
    for index in 0..10 {
        let key = saved_entry(&old.0, old.1.as_ref(), index, &mut bytes);
        assert_eq!(rt; saved_entry(&new.0, new.1.as_ref(), index, &mut again), key);
        assert_eq!(rt; again.as_slice(), bytes.as_slice());
    }
    // the changes by peers are not kept
    assert_eq!(rt; new.0.changes(100), Some(0));
    Ok(())
}

/// Asserts what becomes of an entry of a fresh device that has the first slot of the other one.
fn check_outcome(
    rt: &impl Abort,
    alloc: Global,
    key: u64,
    bytes: &[u8],
    wanted: Outcome,
) -> Result<(), Fail> {
    let mut device = fresh_device(alloc)?;
    let _ = restore(&mut device.0, &mut device.1, 0x0065_0001_0000, SLOT);
    assert_eq!(rt; restore(&mut device.0, &mut device.1, key, bytes), wanted);
    Ok(())
}

#[test]
fn entries_that_do_not_fit(rt: HostRuntime) -> Result<(), Fail> {
    let rows: [(u64, &[u8], Outcome); 21] = [
        (0x0004_0064_0003, b"\xaa\xbb\xcc", Outcome::Unfit), // four bytes
        (0x0004_0064_0004, b"\x04\x00", Outcome::Unfit), // the size is not kept
        (0x0004_0063_0003, b"\xaa\xbb", Outcome::Unknown), // no assembly 99
        (0x0064_0001_0001, b"\x01\x00", Outcome::Unfit),
        (0x0064_0002_0001, b"\x01\x00\x00\x00", Outcome::Unknown),
        (0x0300_0002_0001, b"\x05abcde", Outcome::Unfit), // a room of 4
        (0x0300_0002_0001, b"\x02abc", Outcome::Unfit), // its length says 2
        (0x0300_0002_0001, b"\x00", Outcome::Used),
        (0x0300_0002_0002, b"\x00", Outcome::Unknown),
        (0x0300_0002_0003, b"\xff\xff", Outcome::Used),
        (0x0065_0000_0000, b"\x01", Outcome::Unfit),
        (0x0065_0002_0000, SLOT, Outcome::Unfit), // the originator has a slot
        (
            0x0065_0002_0000,
            b"\x0a\x00\x00\x00\x00\x00\x00\x00\x05\x00\x00\x00\x01",
            Outcome::Unfit,
        ), // pending
        (
            0x0065_0002_0000,
            b"\x0a\x00\x00\x00\x00\x00\x00\x00\x05\x00\x00\x00\x02\xb2",
            Outcome::Unfit,
        ), // in doubt, with a reply
        (
            0x0065_0002_0000,
            b"\x0a\x00\x00\x00\x00\x00\x00\x00\x05\x00\x00\x00\x02",
            Outcome::Used,
        ), // in doubt
        (
            0x0065_0002_0000,
            b"\x0a\x00\x00\x00\x00\x00\x00\x00\x05\x00\x00\x00\x03",
            Outcome::Used,
        ), // withdrawn
        (
            0x0065_0002_0000,
            b"\x0a\x00\x00\x00\x00\x00\x00\x00\x05\x00\x00\x00\x03\xb2",
            Outcome::Unfit,
        ), // withdrawn, with a reply
        (
            0x0065_0002_0000,
            b"\x0a\x00\x00\x00\x00\x00\x00\x00\x05\x00\x00\x00\x04",
            Outcome::Unfit,
        ), // no such state
        (
            0x0065_0002_0000,
            b"\x0a\x00\x00\x00\x00\x00\x00\x00\x05\x00\x00\x00\x00",
            Outcome::Used,
        ),
        (
            0x0001_0001_0000,
            b"\x34\x12\x07\x00\x05\x03\x02\x01",
            Outcome::OtherDevice,
        ),
        (0x1_0004_0064_0003, b"\xaa\xbb\xcc\xdd", Outcome::Unknown), // a key of 49 bits
    ];
    for (key, bytes, wanted) in rows {
        check_outcome(&rt, rt.alloc(), key, bytes, wanted)?;
    }
    Ok(())
}

#[test]
fn without_a_ledger(rt: HostRuntime) -> Result<(), Fail> {
    let mut objects = objects_with_conveyor(rt.alloc())?;
    let mut ledger = None;
    let mut bytes = ReplyBuf::new();
    assert_eq!(rt;
        saved_entry(&objects, ledger.as_ref(), 1, &mut bytes),
        Some(KEYS[3])
    );
    assert_eq!(rt;
        restore(&mut objects, &mut ledger, KEYS[1], LIFE),
        Outcome::Unknown
    );
    assert!(rt; is_same_device(&objects, IDENTITY));
    assert!(rt; !is_same_device(&objects, b""));
    Ok(())
}

/// A queue with this next ticket, of which those up to another one were handed over.
fn queue(rt: &impl Abort, alloc: Global, next: u64, handed: u32) -> Result<Queue, Fail> {
    let mut queue = Queue::new(alloc, 4)?;
    assert!(rt; queue.set_next(next));
    queue.set_handed(handed);
    Ok(queue)
}

/// The version of a state, and the tickets of its queue. Without a mark both are those of version 1.
#[test]
fn versions(rt: HostRuntime) -> Result<(), Fail> {
    let objects = objects_with_conveyor(rt.alloc())?;
    let mut bytes = ReplyBuf::new();
    let rows: [(u64, u32, &[u8], &[u8]); 6] = [
        (1, 0, b"", b"\x01\0\0\0\0\0\0\0"),
        (8, 7, b"", b"\x08\0\0\0\0\0\0\0"),
        (0x1_0000_0000, 0xffff_ffff, b"", b"\0\0\0\0\x01\0\0\0"),
        (8, 6, b"\x02", b"\x08\0\0\0\0\0\0\0\x06\0\0\0"),
        (8, 0, b"\x02", b"\x08\0\0\0\0\0\0\0\0\0\0\0"),
        (
            0x1_0000_0000,
            0x0102,
            b"\x02",
            b"\0\0\0\0\x01\0\0\0\x02\x01\0\0",
        ),
    ];
    for (next, handed, version, tickets) in rows {
        let old = queue(&rt, rt.alloc(), next, handed)?;
        assert_eq!(rt;
            object_entry(&objects, needs_version_2(Some(&old), None), 0, &mut bytes),
            Some(KEYS[0])
        );
        assert!(rt; &bytes[..8] == IDENTITY && &bytes[8..] == version);
        assert!(rt; is_same_device(&objects, &bytes));
        write_queue_entry(&old, 0, &mut bytes);
        assert_eq!(rt; bytes.as_slice(), tickets);
        let mut new = queue(&rt, rt.alloc(), 3, 1)?;
        assert!(rt; restore_queue_entry(&mut new, 0, &bytes));
        assert!(rt; new.next() == next && new.handed() == handed);
    }
    assert_eq!(rt; object_entry(&objects, false, 0, &mut bytes), Some(KEYS[0]));
    assert_eq!(rt; bytes.as_slice(), IDENTITY);
    assert_eq!(rt; object_entry(&objects, false, 1, &mut bytes), Some(KEYS[3]));
    assert!(rt; !needs_version_2(None, None));
    assert!(rt; !is_same_device(&objects, b"\x34\x12\x07\x00\x04\x03\x02\x01\x03"));
    assert!(rt; !is_same_device(&objects, b"\x34\x12\x07\x00\x05\x03\x02\x01\x02"));
    Ok(())
}

/// A ledger with slots in these states.
fn ledger_of(
    rt: &impl Abort,
    alloc: Global,
    states: &[(Option<&[u8]>, Option<u32>)],
) -> Result<Ledger, Fail> {
    let mut ledger = Ledger::new(alloc, 4, 0x0102)?;
    let mut originator = 8;
    for (reply, ticket) in states {
        originator += 1;
        assert!(rt;
            ledger.restore(KeptCommand {
                originator,
                number: 5,
                reply: *reply,
                ticket: *ticket,
            })
        );
    }
    Ok(ledger)
}

/// A withdrawn command in any slot gives the state version 2, and is withdrawn again in a ledger that starts from it.
#[test]
fn withdrawn_commands(rt: HostRuntime) -> Result<(), Fail> {
    let done: (Option<&[u8]>, Option<u32>) = (Some(b"\xb2\x00\x00\x00"), None);
    let pending: (Option<&[u8]>, Option<u32>) = (None, Some(7));
    let doubtful: (Option<&[u8]>, Option<u32>) = (None, None);
    let withdrawn: (Option<&[u8]>, Option<u32>) = (Some(b""), Some(0));
    let rows: [(&[(Option<&[u8]>, Option<u32>)], &[u8]); 6] = [
        (&[], b""),
        (&[done, pending, doubtful], b""),
        (&[withdrawn], b"\x02"),
        (&[withdrawn, done], b"\x02"),
        (&[done, pending, doubtful, withdrawn], b"\x02"),
        (&[pending, withdrawn, withdrawn], b"\x02"),
    ];
    let mut bytes = ReplyBuf::new();
    for (states, version) in rows {
        let mut old = objects_with_conveyor(rt.alloc())?;
        let ledger = ledger_of(&rt, rt.alloc(), states)?;
        assert_eq!(rt;
            object_entry(&old, needs_version_2(None, Some(&ledger)), 0, &mut bytes),
            Some(KEYS[0])
        );
        assert!(rt; &bytes[..8] == IDENTITY && &bytes[8..] == version);
        let mut new = Some(Ledger::new(rt.alloc(), 4, 7)?);
        for index in 0..states.len() + 2 {
            let key = saved_entry(&old, Some(&ledger), index, &mut bytes).ok_or("an entry")?;
            assert!(rt; index > 0 || &bytes[8..] == version);
            assert_eq!(rt; restore(&mut old, &mut new, key, &bytes), Outcome::Used);
        }
        for (index, (reply, ticket)) in states.iter().enumerate() {
            let kept = new
                .as_ref()
                .and_then(|ledger| ledger.slot(index))
                .ok_or("a slot")?;
            assert!(rt; kept.reply == *reply && kept.ticket == *ticket);
        }
    }
    Ok(())
}

/// Other bytes are not the tickets of a queue.
#[test]
fn tickets_that_do_not_fit(rt: HostRuntime) -> Result<(), Fail> {
    let rows: [&[u8]; 5] = [
        b"",
        b"\x08\0\0\0\0\0\0",
        b"\x08\0\0\0\0\0\0\0\x06",
        b"\x08\0\0\0\0\0\0\0\x06\0\0\0\0",
        b"\x01\0\0\0\x01\0\0\0\x06\0\0\0",
    ];
    for bytes in rows {
        let mut queue = queue(&rt, rt.alloc(), 3, 1)?;
        assert!(rt; !restore_queue_entry(&mut queue, 0, bytes));
        assert!(rt; queue.next() == 3 && queue.handed() == 1);
    }
    Ok(())
}
