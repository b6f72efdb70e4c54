//! Shares of connections: a group that has its share, another group, and sessions of no group.

use super::manager_openings::{DEVICE, close, open};
use arrayvec::ArrayVec;
use cip_manager::{Manager, Opener};
use cip_objects::ReplyBuf;
use std::process::Abort;
use std::test::Fail;

/// A client at 192.0.2.7, as an IPv4-mapped address, and one at 192.0.2.8.
const SEVEN: Option<u128> = Some(0xffffc0000207);

const EIGHT: Option<u128> = Some(0xffffc0000208);

/// The bytes of a reply after its service, if it opens a connection, and if no connection is left (0x0113).
const OPENED: &[u8] = &[0x00, 0x00, 0x00];

const FULL: &[u8] = &[0x00, 0x01, 0x01, 0x13, 0x01];

/// The reply to a Forward_Open with this connection serial.
fn open_for(manager: &mut Manager, opener: Opener, serial: u16) -> ReplyBuf {
    let mut data =
        *b"\x0a\x0e\0\0\0\0\x44\x33\x22\x11\0\0\x42\0\x78\x56\x34\x12\0\0\0\0\x80\x84\x1e\0\xf4\x43\
        \x80\x84\x1e\0\xf4\x43\xa3\x02\x20\x02\x24\x01";
    data[10..12].copy_from_slice(&serial.to_le_bytes());
    let mut reply = ArrayVec::new();
    manager.open_for(0, opener, &data, &mut reply);
    reply
}

/// The reply to a Large_Forward_Open with this connection serial, and sizes of 4,002 bytes.
fn open_large_for(manager: &mut Manager, opener: Opener, serial: u16) -> ReplyBuf {
    let mut data =
        *b"\x0a\x0e\0\0\0\0\x44\x33\x22\x11\0\0\x42\0\x78\x56\x34\x12\0\0\0\0\x80\x84\x1e\0\xa2\x0f\0\x42\
        \x80\x84\x1e\0\xa2\x0f\0\x42\xa3\x02\x20\x02\x24\x01";
    data[10..12].copy_from_slice(&serial.to_le_bytes());
    let mut reply = ArrayVec::new();
    manager.open_large_for(0, opener, &data, &mut reply);
    reply
}

/// A session of the first client.
fn seven(session: u32) -> Opener {
    Opener {
        session,
        group: SEVEN,
    }
}

/// Asserts that the reply is one to this service, with these bytes after it.
fn check_reply(rt: &impl Abort, reply: &ReplyBuf, service: u8, rest: &[u8]) {
    assert!(rt; reply.as_slice().first() == Some(&service));
    assert!(rt; reply.as_slice()[1..].starts_with(rest));
}

#[test]
fn a_group_gets_its_share(rt: HostRuntime) -> Result<(), Fail> {
    let mut manager = Manager::with_share(rt.alloc(), 8, 2, 1, DEVICE)?;
    let eight = Opener {
        session: 1,
        group: EIGHT,
    };
    // Two sessions of one group share its two connections, whichever service opens them.
    check_reply(&rt, &open_for(&mut manager, seven(1), 1), 0xd4, OPENED);
    check_reply(
        &rt,
        &open_large_for(&mut manager, seven(2), 2),
        0xdb,
        OPENED,
    );
    check_reply(&rt, &open_for(&mut manager, seven(3), 3), 0xd4, FULL);
    check_reply(&rt, &open_large_for(&mut manager, seven(1), 3), 0xdb, FULL);
    // Another group, of the same session, and no group are served.
    check_reply(&rt, &open_for(&mut manager, eight, 3), 0xd4, OPENED);
    check_reply(&rt, &open(&mut manager, 0, 1, 4), 0xd4, OPENED);
    assert!(rt; manager.free() == 4);
    // As soon as one of its own is closed, the group gets another.
    let closed = close(&mut manager, 1, 1);
    check_reply(&rt, &closed, 0xce, OPENED);
    check_reply(&rt, &open_for(&mut manager, seven(3), 5), 0xd4, OPENED);
    check_reply(&rt, &open_for(&mut manager, seven(3), 6), 0xd4, FULL);
    Ok(())
}

#[test]
fn without_shares_a_group_gets_all(rt: HostRuntime) -> Result<(), Fail> {
    let mut manager = Manager::new(rt.alloc(), 2, 1, DEVICE)?;
    let opener = seven(1);
    check_reply(&rt, &open_for(&mut manager, opener, 1), 0xd4, OPENED);
    check_reply(&rt, &open_for(&mut manager, opener, 2), 0xd4, OPENED);
    check_reply(&rt, &open_for(&mut manager, opener, 3), 0xd4, FULL);
    Ok(())
}
