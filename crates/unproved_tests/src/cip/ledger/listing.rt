//! Get_Slots: what it answers at each length, index and reply limit.

use super::node::{ADD_FIVE, FIVE, LIFE, Text, check, check_counter, node_of, once, with_data};
use arrayvec::ArrayVec;
use cip_bytes::append;
use cip_ledger::{KeptCommand, LedgerRouter};
use cip_owner::OwnedObjects;
use std::alloc::Global;
use std::process::Abort;
use std::test::Fail;

/// Service, path size and path of Get_Slots: class 0x65, instance 1.
const GET_SLOTS: &[u8] = b"\x50\x02\x20\x65\x24\x01";

/// The slots of the device below: originator, number and state. The first is done, then pending, in doubt and done.
const ENTRIES: [&[u8]; 4] = [
    b"\x08\x07\x06\x05\x04\x03\x02\x01\x04\x03\x02\x01\x00",
    b"\x02\x00\x00\x00\x00\x00\x00\x00\x00\x00\x00\x00\x01",
    b"\x00\x00\x00\x00\x00\x00\x00\x80\xff\xff\xff\xff\x02",
    b"\xff\xff\xff\xff\xff\xff\xff\xff\x01\x00\x00\x00\x00",
];

/// A device with five slots, of which four are taken.
fn device(rt: &impl Abort, alloc: Global) -> Result<LedgerRouter<OwnedObjects>, Fail> {
    let mut node = node_of(alloc, 5, LIFE)?;
    let first = once(LIFE, 0x0102_0304_0506_0708, 0x0102_0304, ADD_FIVE);
    check(rt, &mut node, 504, &first, FIVE);
    let ledger = node.ledger.as_mut().ok_or("a ledger")?;
    let pending = KeptCommand {
        originator: 2,
        number: 0,
        reply: None,
        ticket: Some(7),
    };
    assert!(rt; ledger.restore(pending));
    assert!(rt; ledger.put_in_doubt(0x8000_0000_0000_0000, u32::MAX));
    let done = KeptCommand {
        originator: u64::MAX,
        number: 1,
        reply: Some(b"\xb2\x00\x00\x00"),
        ticket: None,
    };
    assert!(rt; ledger.restore(done));
    Ok(node)
}

/// Get_Slots from an index on.
fn slots_from(index: u16) -> Text {
    with_data(GET_SLOTS, &index.to_le_bytes())
}

/// The reply with so many taken slots, and these of them.
fn listed(taken: u8, entries: &[&[u8]]) -> Text {
    let mut text = with_data(b"\xd0\x00\x00\x00", &[taken, 0]);
    for entry in entries {
        text = with_data(&text, entry);
    }
    text
}

/// A ledger without taken slots lists none, at any index.
#[test]
fn none_taken(rt: HostRuntime) -> Result<(), Fail> {
    let mut node = node_of(rt.alloc(), 5, LIFE)?;
    for index in [0, 1, 0xffff] {
        check(&rt, &mut node, 504, &slots_from(index), &listed(0, &[]));
        check(&rt, &mut node, 8, &slots_from(index), &listed(0, &[]));
    }
    Ok(())
}

/// Each index up to the number of taken slots, and greater ones.
#[test]
fn each_index(rt: HostRuntime) -> Result<(), Fail> {
    let mut node = device(&rt, rt.alloc())?;
    for index in 0..4u16 {
        let entries = &ENTRIES[usize::from(index)..];
        check(&rt, &mut node, 504, &slots_from(index), &listed(4, entries));
    }
    for index in [4, 5, 64, 0x0100, 0x7fff, 0xffff] {
        check(&rt, &mut node, 504, &slots_from(index), &listed(4, &[]));
    }
    check_counter(&rt, &node, 5, 1);
    Ok(())
}

/// Each reply limit from the least to more than all slots need: whole slots, as many as fit.
#[test]
fn each_reply_limit(rt: HostRuntime) -> Result<(), Fail> {
    let mut node = device(&rt, rt.alloc())?;
    for max_size in 8..72usize {
        for index in 0..4usize {
            let fitting = ((max_size - 6) / 13).min(4 - index);
            let entries = &ENTRIES[index..index + fitting];
            let request = slots_from(index as u16);
            check(&rt, &mut node, max_size, &request, &listed(4, entries));
        }
    }
    Ok(())
}

/// Data of another length, before the reply limit.
#[test]
fn each_length(rt: HostRuntime) -> Result<(), Fail> {
    let mut node = device(&rt, rt.alloc())?;
    for max_size in [8, 504] {
        check(&rt, &mut node, max_size, GET_SLOTS, b"\xd0\x00\x13\x00");
        check(
            &rt,
            &mut node,
            max_size,
            &with_data(GET_SLOTS, b"\x00"),
            b"\xd0\x00\x13\x00",
        );
        for size in 3..20usize {
            let long = with_data(GET_SLOTS, &[0; 20][..size]);
            check(&rt, &mut node, max_size, &long, b"\xd0\x00\x15\x00");
        }
    }
    Ok(())
}

/// The class itself and another instance do not have the service, and a command cannot embed it.
#[test]
fn elsewhere(rt: HostRuntime) -> Result<(), Fail> {
    let mut node = device(&rt, rt.alloc())?;
    let class = b"\x50\x02\x20\x65\x24\x00\x00\x00";
    check(&rt, &mut node, 504, class, b"\xd0\x00\x08\x00");
    let other = b"\x50\x02\x20\x65\x24\x02\x00\x00";
    check(&rt, &mut node, 504, other, b"\xd0\x00\x05\x00");
    let counter = b"\x50\x02\x20\x64\x24\x01\x00\x00";
    check(&rt, &mut node, 504, counter, b"\xd0\x00\x08\x00");
    let embedding = once(LIFE, 9, 1, &slots_from(0));
    let refused = b"\xcb\x00\x00\x00\x00\xd0\x00\x08\x00";
    check(&rt, &mut node, 504, &embedding, refused);
    // The command took the last slot.
    let last: &[u8] = b"\x09\x00\x00\x00\x00\x00\x00\x00\x01\x00\x00\x00\x00";
    check(&rt, &mut node, 504, &slots_from(4), &listed(5, &[last]));
    Ok(())
}

/// A slot that is freed is not listed, and those behind it move up. A slot keeps its place with a later command, and one
/// whose command is pending is not freed.
#[test]
fn freed(rt: HostRuntime) -> Result<(), Fail> {
    let mut node = device(&rt, rt.alloc())?;
    let pending = b"\x4d\x02\x20\x65\x24\x01\x02\x00\x00\x00\x00\x00\x00\x00\x00\x00\x00\x00";
    check(&rt, &mut node, 504, pending, b"\xcd\x00\x0c\x00");
    check(&rt, &mut node, 504, &slots_from(0), &listed(4, &ENTRIES));
    let doubtful = b"\x4d\x02\x20\x65\x24\x01\x00\x00\x00\x00\x00\x00\x00\x80\xff\xff\xff\xff";
    check(&rt, &mut node, 504, doubtful, b"\xcd\x00\x00\x00");
    let left = [ENTRIES[0], ENTRIES[1], ENTRIES[3]];
    check(&rt, &mut node, 504, &slots_from(0), &listed(3, &left));
    check(&rt, &mut node, 504, &slots_from(1), &listed(3, &left[1..]));
    let next = once(LIFE, 0x0102_0304_0506_0708, 0x0102_0305, ADD_FIVE);
    check(
        &rt,
        &mut node,
        504,
        &next,
        b"\xcb\x00\x00\x00\x00\xb2\x00\x00\x00\x0a\x00\x00\x00",
    );
    let first: &[u8] = b"\x08\x07\x06\x05\x04\x03\x02\x01\x05\x03\x02\x01\x00";
    let now = [first, ENTRIES[1], ENTRIES[3]];
    check(&rt, &mut node, 504, &slots_from(0), &listed(3, &now));
    Ok(())
}

/// All 64 slots: 38 in an unconnected reply, and the others from index 38 on.
#[test]
fn sixty_four(rt: HostRuntime) -> Result<(), Fail> {
    let mut node = node_of(rt.alloc(), 64, LIFE)?;
    let ledger = node.ledger.as_mut().ok_or("a ledger")?;
    for originator in 0..64u64 {
        assert!(rt; ledger.put_in_doubt(originator, 1));
    }
    for (index, max_size, count) in [
        (0u16, 504usize, 38usize),
        (0, 500, 38),
        (0, 499, 37),
        (38, 504, 26),
        (0, 838, 64),
        (0, 837, 63),
        (0, 4000, 64),
        (63, 504, 1),
        (64, 504, 0),
    ] {
        let mut wanted: ArrayVec<u8, 1_000> = ArrayVec::new();
        append(&mut wanted, b"\xd0\x00\x00\x00\x40\x00");
        for slot in 0..count {
            append(&mut wanted, &(u64::from(index) + slot as u64).to_le_bytes());
            append(&mut wanted, b"\x01\x00\x00\x00\x02");
        }
        check(&rt, &mut node, max_size, &slots_from(index), &wanted);
    }
    Ok(())
}
