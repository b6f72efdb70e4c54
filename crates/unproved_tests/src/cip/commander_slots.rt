//! The slots of a ledger, as the originator's side asks for them and reads them.

use cip_commander::{
    COUNTS_REQUEST, CommandState, LedgerSlot, SlotList, SlotsFault, forget_request, last_request,
    read_counts, read_forgotten, read_last, slots_request,
};
use std::test::Fail;

/// The requests, byte by byte.
#[test]
fn requests(rt: HostRuntime) -> Result<(), Fail> {
    let slots = slots_request(0x0201);
    assert_eq!(rt;
        slots.as_slice(),
        b"\x50\x02\x20\x65\x24\x01\x01\x02".as_slice()
    );
    let last = last_request(0x0807_0605_0403_0201);
    assert_eq!(rt;
        last.as_slice(),
        b"\x4c\x02\x20\x65\x24\x01\x01\x02\x03\x04\x05\x06\x07\x08".as_slice()
    );
    let forget = forget_request(0x0807_0605_0403_0201, 0x0c0b_0a09);
    assert_eq!(rt;
        forget.as_slice(),
        b"\x4d\x02\x20\x65\x24\x01\x01\x02\x03\x04\x05\x06\x07\x08\x09\x0a\x0b\x0c".as_slice()
    );
    assert_eq!(rt;
        COUNTS_REQUEST.as_slice(),
        b"\x03\x02\x20\x65\x24\x01\x02\x00\x01\x00\x02\x00".as_slice()
    );
    Ok(())
}

/// A list with a slot in each state, and one with an unknown state.
#[test]
fn lists(rt: HostRuntime) -> Result<(), Fail> {
    let reply = b"\xd0\x00\x00\x00\x05\x00\
        \x01\x02\x03\x04\x05\x06\x07\x08\x09\x0a\x0b\x0c\x00\
        \xff\xff\xff\xff\xff\xff\xff\xff\xff\xff\xff\xff\x01\
        \x00\x00\x00\x00\x00\x00\x00\x00\x00\x00\x00\x00\x02\
        \x01\x00\x00\x00\x00\x00\x00\x00\x02\x00\x00\x00\x03\
        \x00\x00\x00\x00\x00\x00\x00\x00\x00\x00\x00\x00\x04";
    let list = SlotList::read(reply).ok().ok_or("a list")?;
    assert_eq!(rt; (list.taken(), list.count()), (5, 5));
    let wanted = [
        (0x0807_0605_0403_0201, 0x0c0b_0a09, CommandState::Done),
        (u64::MAX, u32::MAX, CommandState::Pending),
        (0, 0, CommandState::InDoubt),
        (1, 2, CommandState::Withdrawn),
    ];
    for (index, (originator, number, state)) in wanted.iter().enumerate() {
        let slot = LedgerSlot {
            originator: *originator,
            number: *number,
            state: *state,
        };
        assert!(rt; list.slot(index) == Some(slot));
    }
    assert!(rt; list.slot(4).is_none());
    assert!(rt; list.slot(5).is_none());
    assert!(rt; list.slot(usize::MAX).is_none());
    Ok(())
}

/// Replies without a list: of each length up to three slots, of another service, and refusals.
#[test]
fn no_lists(rt: HostRuntime) -> Result<(), Fail> {
    let mut reply = [0; 45];
    reply[0] = 0xd0;
    for size in 0..=45usize {
        let is_list = matches!(size, 6 | 19 | 32 | 45);
        assert_eq!(rt; SlotList::read(&reply[..size]).is_ok(), is_list);
    }
    for (reply, fault) in [
        (
            b"\xcc\x00\x00\x00\x00\x00".as_slice(),
            SlotsFault::Malformed,
        ),
        (b"\xd0\x00\x05\x00".as_slice(), SlotsFault::Refused(5, 0)),
        (
            b"\xd0\x00\x01\x01\x02\x03".as_slice(),
            SlotsFault::Refused(1, 0x0302),
        ),
    ] {
        assert!(rt; matches!(SlotList::read(reply), Err(why) if why == fault));
    }
    Ok(())
}

/// The replies to Get_Last, to a list of two attributes and to Forget, at each length.
#[test]
fn other_replies(rt: HostRuntime) -> Result<(), Fail> {
    let last = b"\xcc\x00\x00\x00\x01\x02\x03\x04\x01\xb2";
    for size in 0..=10usize {
        let wanted = if size < 9 {
            Err(SlotsFault::Malformed)
        } else {
            Ok((0x0403_0201, CommandState::Pending))
        };
        assert!(rt; read_last(&last[..size]) == wanted);
    }
    assert!(rt; read_last(b"\xcc\x00\x16\x00") == Err(SlotsFault::Refused(0x16, 0)));
    assert!(rt;
        read_last(b"\xcc\x00\x00\x00\x01\x02\x03\x04\x03")
            == Ok((0x0403_0201, CommandState::Withdrawn))
    );
    assert!(rt; read_last(b"\xcc\x00\x00\x00\x01\x02\x03\x04\x04") == Err(SlotsFault::Malformed));
    let counts = b"\x83\x00\x00\x00\x02\x00\x01\x00\x00\x00\x04\x03\x02\x00\x00\x00\x02\x01\x00";
    for size in 0..=19usize {
        let wanted = if size == 18 {
            Ok((0x0304, 0x0102))
        } else {
            Err(SlotsFault::Malformed)
        };
        assert!(rt; read_counts(&counts[..size]) == wanted);
    }
    assert!(rt; read_counts(b"\x83\x00\x08\x00") == Err(SlotsFault::Refused(8, 0)));
    assert!(rt; read_forgotten(b"\xcd\x00\x00\x00") == Ok(()));
    assert!(rt; read_forgotten(b"\xcd\x00\x0c\x00") == Err(SlotsFault::Refused(0x0c, 0)));
    assert!(rt; read_forgotten(b"\xcc\x00\x00\x00") == Err(SlotsFault::Malformed));
    Ok(())
}
