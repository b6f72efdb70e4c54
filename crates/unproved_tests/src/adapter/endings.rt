//! Which connections ended, and why.

use super::deadline::{CLOSE, opening};
use enip_adapter::{Adapter, EndReason, EndedConnection, Endings, Peer};
use std::alloc::Global;
use std::test::Fail;
use test_fixtures::adapter::{LONG, REGISTER, demo_with_connection};

/// An UnRegisterSession of session 1.
const UNREGISTER: &[u8] = b"\x66\0\0\0\x01\0\0\0\0\0\0\0\x01\x02\x03\x04\x05\x06\x07\x08\0\0\0\0";

/// An adapter whose first peer has opened connection 1, and a look at its connections.
fn looked_at(alloc: Global) -> Result<(Adapter, Peer, Endings), Fail> {
    let (adapter, peer) = demo_with_connection(alloc)?;
    let mut endings = Endings::new();
    endings.update(&adapter);
    Ok((adapter, peer, endings))
}

/// Whether a look reports that exactly these connections have ended: ID, session and reason.
fn ends_are(endings: &mut Endings, adapter: &Adapter, wanted: &[(u32, u32, EndReason)]) -> bool {
    endings.update(adapter);
    let ended = endings.ended();
    ended.len() == wanted.len() && (0..wanted.len()).all(|place| is(ended[place], wanted[place]))
}

fn is(ended: EndedConnection, wanted: (u32, u32, EndReason)) -> bool {
    (ended.id, ended.session, ended.reason) == wanted
}

#[test]
fn timed_out(rt: HostRuntime) -> Result<(), Fail> {
    let (mut adapter, _, mut endings) = looked_at(rt.alloc())?;
    assert!(rt; endings.ended().is_empty());
    adapter.tick(9_999_999);
    assert!(rt; ends_are(&mut endings, &adapter, &[]));
    adapter.tick(10_000_000);
    assert!(rt; ends_are(&mut endings, &adapter, &[(1, 1, EndReason::TimedOut)]));
    // it is reported once
    assert!(rt; ends_are(&mut endings, &adapter, &[]));
    Ok(())
}

#[test]
fn closed(rt: HostRuntime) -> Result<(), Fail> {
    let (mut adapter, peer, mut endings) = looked_at(rt.alloc())?;
    let _ = adapter.feed(1, &peer, CLOSE);
    assert!(rt; ends_are(&mut endings, &adapter, &[(1, 1, EndReason::Closed)]));
    assert!(rt; ends_are(&mut endings, &adapter, &[]));
    Ok(())
}

#[test]
fn session_ended(rt: HostRuntime) -> Result<(), Fail> {
    // UnRegisterSession, and a header with too great a length: both close the peer
    for frame in [UNREGISTER, LONG] {
        let (mut adapter, peer, mut endings) = looked_at(rt.alloc())?;
        let _ = adapter.feed(1, &peer, frame);
        assert!(rt; ends_are(&mut endings, &adapter, &[(1, 1, EndReason::SessionEnded)]));
        adapter.end(peer);
        assert!(rt; ends_are(&mut endings, &adapter, &[]));
    }
    Ok(())
}

#[test]
fn peer_ended(rt: HostRuntime) -> Result<(), Fail> {
    let (mut adapter, peer, mut endings) = looked_at(rt.alloc())?;
    adapter.end(peer);
    assert!(rt; ends_are(&mut endings, &adapter, &[(1, 1, EndReason::PeerEnded)]));
    assert!(rt; ends_are(&mut endings, &adapter, &[]));
    Ok(())
}

#[test]
fn several(rt: HostRuntime) -> Result<(), Fail> {
    let (mut adapter, first, mut endings) = looked_at(rt.alloc())?;
    let other = adapter.begin().ok().ok_or("a slot is free")?;
    let _ = adapter.feed(1, &other, REGISTER);
    for serial in [2, 3] {
        let opening = opening(rt.alloc(), 2, serial)?;
        let _ = adapter.feed(1_000_000, &other, opening.as_slice());
        assert!(rt; ends_are(&mut endings, &adapter, &[]));
    }
    // each session has its own, in the order of opening; the first one times out first
    adapter.tick(10_000_000);
    assert!(rt; ends_are(&mut endings, &adapter, &[(1, 1, EndReason::TimedOut)]));
    adapter.end(first);
    assert!(rt; ends_are(&mut endings, &adapter, &[]));
    adapter.end(other);
    let wanted = [(2, 2, EndReason::PeerEnded), (3, 2, EndReason::PeerEnded)];
    assert!(rt; ends_are(&mut endings, &adapter, &wanted));
    Ok(())
}
