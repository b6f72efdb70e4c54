//! The earliest deadline of an adapter.

use enip_adapter::{Adapter, Peer};
use std::alloc::Global;
use std::test::Fail;
use test_fixtures::adapter::{ADD, OPEN, REGISTER, adapter_with_peer, demo_with_connection};

/// A Forward_Close of the connection that `OPEN` opens.
pub(super) const CLOSE: &[u8] =
    b"\x6f\0\x26\0\x01\0\0\0\0\0\0\0\x01\x02\x03\x04\x05\x06\x07\x08\0\0\0\0\
    \0\0\0\0\0\0\x02\0\0\0\0\0\xb2\0\x16\0\
    \x4e\x02\x20\x06\x24\x01\x0a\x0e\x01\0\x42\0\x78\x56\x34\x12\x02\0\x20\x02\x24\x01";

/// The offset of the lowest byte of the session handle in a frame.
const SESSION_AT: usize = 4;

/// The offset of the lowest byte of the connection serial in an opening.
const SERIAL_AT: usize = 56;

/// An opening of another connection by another session.
pub(super) fn opening(alloc: Global, session: u8, serial: u8) -> Result<Vec<u8>, Fail> {
    let mut frame = Vec::from_slice(alloc, OPEN)?;
    frame[SESSION_AT] = session;
    frame[SERIAL_AT] = serial;
    Ok(frame)
}

/// The earliest deadline after a frame at this time.
fn after(adapter: &mut Adapter, now: u64, peer: &Peer, frame: &[u8]) -> Option<u64> {
    let _ = adapter.feed(now, peer, frame);
    adapter.deadline()
}

/// The earliest deadline after a tick at this time.
fn at(adapter: &mut Adapter, now: u64) -> Option<u64> {
    adapter.tick(now);
    adapter.deadline()
}

#[test]
fn of_one_connection(rt: HostRuntime) -> Result<(), Fail> {
    let (mut adapter, peer) = adapter_with_peer(rt.alloc())?;
    assert_eq!(rt; adapter.deadline(), None);
    assert_eq!(rt; after(&mut adapter, 0, &peer, REGISTER), None);
    // ten seconds from the opening, and eight from the last item
    assert_eq!(rt;
        after(&mut adapter, 1_000_000, &peer, OPEN),
        Some(11_000_000)
    );
    assert_eq!(rt;
        after(&mut adapter, 9_000_000, &peer, ADD),
        Some(17_000_000)
    );
    assert_eq!(rt; at(&mut adapter, 16_999_999), Some(17_000_000));
    assert_eq!(rt; after(&mut adapter, 16_999_999, &peer, CLOSE), None);
    Ok(())
}

#[test]
fn of_two_connections(rt: HostRuntime) -> Result<(), Fail> {
    let (mut adapter, peer) = demo_with_connection(rt.alloc())?;
    let other = adapter.begin().ok().ok_or("a slot is free")?;
    assert_eq!(rt;
        after(&mut adapter, 1_000_000, &other, REGISTER),
        Some(10_000_000)
    );
    let opening = opening(rt.alloc(), 2, 2)?;
    assert_eq!(rt;
        after(&mut adapter, 1_000_000, &other, opening.as_slice()),
        Some(10_000_000)
    );
    // an item moves the first deadline, so the second one is the earliest
    assert_eq!(rt;
        after(&mut adapter, 9_000_000, &peer, ADD),
        Some(11_000_000)
    );
    assert_eq!(rt; at(&mut adapter, 10_999_999), Some(11_000_000));
    assert_eq!(rt; at(&mut adapter, 11_000_000), Some(17_000_000));
    assert_eq!(rt; at(&mut adapter, 17_000_000), None);
    Ok(())
}

#[test]
fn ends_with_the_peer(rt: HostRuntime) -> Result<(), Fail> {
    let (mut adapter, peer) = demo_with_connection(rt.alloc())?;
    assert_eq!(rt; adapter.deadline(), Some(10_000_000));
    adapter.end(peer);
    assert_eq!(rt; adapter.deadline(), None);
    Ok(())
}
