//! What a reader gets for each service, unconnected and on a connection, and how shares refuse peers and connections.

use cip_ledger::Ledger;
use enip_adapter::{Adapter, Full, Peer, Rights, Shares};
use std::alloc::Global;
use std::test::Fail;
use test_fixtures::adapter::{LIMITS, LISTEN, OPEN, REGISTER, demo, feed, value};

/// The general statuses of replies: success, service not supported, and privilege violation.
const SUCCESS: u8 = 0;

const NOT_SUPPORTED: u8 = 0x08;

const REFUSED: u8 = 0x0f;

/// An unconnected request to the counter without data, in session 1. Its service is at byte 40, its class at 43.
const REQUEST: &[u8] = b"\x6f\0\x16\0\x01\0\0\0\0\0\0\0\x01\x02\x03\x04\x05\x06\x07\x08\0\0\0\0\
    \0\0\0\0\0\0\x02\0\0\0\0\0\xb2\0\x06\0\x01\x02\x20\x64\x24\x01";

/// Where the general status of its answer is.
const STATUS_AT: usize = 42;

/// The same on connection 1. Its count is at byte 44, its service at 46, its class at 49.
const ITEM: &[u8] = b"\x70\0\x1c\0\x01\0\0\0\0\0\0\0\x01\x02\x03\x04\x05\x06\x07\x08\0\0\0\0\
    \0\0\0\0\0\0\x02\0\xa1\0\x04\0\x01\0\0\0\xb1\0\x08\0\x01\0\x01\x02\x20\x64\x24\x01";

/// Where the general status of its answer is.
const ITEM_STATUS_AT: usize = 48;

/// What a peer with these rights gets for a service of the counter: the service, a reader's status, a writer's status.
/// A writer's Add has no data, so it is refused with 0x13.
const SERVICES: &[(u8, u8, u8)] = &[
    (0x01, NOT_SUPPORTED, NOT_SUPPORTED),
    (0x02, REFUSED, NOT_SUPPORTED),
    (0x03, 0x13, 0x13),
    (0x04, REFUSED, NOT_SUPPORTED),
    (0x05, REFUSED, NOT_SUPPORTED),
    (0x06, NOT_SUPPORTED, NOT_SUPPORTED),
    (0x0e, 0x14, 0x14),
    (0x0f, NOT_SUPPORTED, NOT_SUPPORTED),
    (0x10, REFUSED, 0x14),
    (0x11, NOT_SUPPORTED, NOT_SUPPORTED),
    (0x18, NOT_SUPPORTED, NOT_SUPPORTED),
    (0x19, REFUSED, NOT_SUPPORTED),
    (0x31, NOT_SUPPORTED, NOT_SUPPORTED),
    (0x32, REFUSED, 0x13),
    (0x33, REFUSED, SUCCESS),
    (0x34, REFUSED, NOT_SUPPORTED),
    (0x4c, REFUSED, NOT_SUPPORTED),
    (0x63, REFUSED, NOT_SUPPORTED),
    (0x64, NOT_SUPPORTED, NOT_SUPPORTED),
];

/// What they get for a service of the command ledger without data, at instance 1.
const LEDGER_SERVICES: &[(u8, u8, u8)] = &[
    (0x03, 0x13, 0x13),
    (0x0e, 0x14, 0x14),
    (0x10, REFUSED, NOT_SUPPORTED),
    (0x4b, REFUSED, 0x13),
    (0x4c, 0x13, 0x13),
    (0x4d, REFUSED, 0x13),
    (0x4e, REFUSED, NOT_SUPPORTED),
];

/// An adapter with a command ledger and these shares.
fn shared(alloc: Global, shares: Shares) -> Result<Adapter, Fail> {
    let ledger = Ledger::new(alloc, 4, 1)?;
    Ok(Adapter::shared(alloc, demo(alloc)?, Some(ledger), LISTEN, LIMITS, shares)?)
}

/// The same with a peer of these rights, registered, and connection 1.
fn with_peer(alloc: Global, rights: Rights) -> Result<(Adapter, Peer), Fail> {
    let mut adapter = shared(alloc, Shares::NONE)?;
    let peer = adapter.begin_as(rights, None).ok().ok_or("a slot is free")?;
    let _ = feed(&mut adapter, &peer, REGISTER);
    let _ = feed(&mut adapter, &peer, OPEN);
    Ok((adapter, peer))
}

/// The general status of the answer to an unconnected request of this service to this class.
fn unconnected(
    alloc: Global,
    adapter: &mut Adapter,
    peer: &Peer,
    service: u8,
    class: u8,
) -> Result<u8, Fail> {
    let mut frame = Vec::from_slice(alloc, REQUEST)?;
    frame[40] = service;
    frame[43] = class;
    let answer = feed(adapter, peer, frame.as_slice())
        .answer
        .ok_or("it is answered")?;
    Ok(answer[STATUS_AT])
}

/// The same on connection 1, with this count.
fn connected(
    alloc: Global,
    adapter: &mut Adapter,
    peer: &Peer,
    count: u8,
    request: (u8, u8),
) -> Result<u8, Fail> {
    let mut frame = Vec::from_slice(alloc, ITEM)?;
    frame[44] = count;
    frame[46] = request.0;
    frame[49] = request.1;
    let answer = feed(adapter, peer, frame.as_slice())
        .answer
        .ok_or("it is answered")?;
    Ok(answer[ITEM_STATUS_AT])
}

/// Whether a peer with these rights gets what the rows say, unconnected and connected, and each repeat the same.
fn answers_as_listed(
    alloc: Global,
    rights: Rights,
    class: u8,
    rows: &[(u8, u8, u8)],
) -> Result<bool, Fail> {
    let (mut adapter, peer) = with_peer(alloc, rights)?;
    let mut count = 1;
    for (service, reader, writer) in rows {
        let expected = if rights == Rights::Read {
            *reader
        } else {
            *writer
        };
        let alone = unconnected(alloc, &mut adapter, &peer, *service, class)?;
        let first = connected(alloc, &mut adapter, &peer, count, (*service, class))?;
        // another request with the count that is held gets what is kept
        let repeat = connected(alloc, &mut adapter, &peer, count, (0x0e, 0x01))?;
        if alone != expected || first != expected || repeat != expected {
            return Ok(false);
        }
        count += 1;
    }
    Ok(value(&adapter)? == 0)
}

#[test]
fn a_reader_tries_every_service(rt: HostRuntime) -> Result<(), Fail> {
    let alloc = rt.alloc();
    assert!(rt; answers_as_listed(alloc, Rights::Read, 0x64, SERVICES)?);
    assert!(rt; answers_as_listed(alloc, Rights::Read, 0x65, LEDGER_SERVICES)?);
    Ok(())
}

#[test]
fn a_writer_tries_every_service(rt: HostRuntime) -> Result<(), Fail> {
    let alloc = rt.alloc();
    assert!(rt; answers_as_listed(alloc, Rights::Write, 0x64, SERVICES)?);
    assert!(rt; answers_as_listed(alloc, Rights::Write, 0x65, LEDGER_SERVICES)?);
    Ok(())
}

/// Begins a peer of a group.
fn begin(adapter: &mut Adapter, group: Option<u128>) -> Option<Full> {
    adapter.begin_as(Rights::Write, group).err()
}

#[test]
fn a_group_holds_its_share(rt: HostRuntime) -> Result<(), Fail> {
    let shares = Shares {
        peers: 2,
        connections: 8,
    };
    let mut adapter = shared(rt.alloc(), shares)?;
    assert_eq!(rt; begin(&mut adapter, Some(7)), None);
    assert!(rt; !adapter.holds_share(Some(7)));
    assert_eq!(rt; begin(&mut adapter, Some(7)), None);
    assert!(rt; adapter.holds_share(Some(7)));
    assert_eq!(rt; begin(&mut adapter, Some(7)), Some(Full::Share));
    // others are not held back, nor is anybody without a group
    assert_eq!(rt; begin(&mut adapter, Some(u128::MAX)), None);
    assert_eq!(rt; begin(&mut adapter, None), None);
    assert_eq!(rt; adapter.begin().err(), None);
    assert_eq!(rt; adapter.free().0, 4);
    // a peer that ends gives its share back
    adapter.end(Peer::of(1));
    assert_eq!(rt; begin(&mut adapter, Some(7)), None);
    assert_eq!(rt; begin(&mut adapter, Some(7)), Some(Full::Share));
    Ok(())
}

#[test]
fn a_share_is_refused_before_a_slot(rt: HostRuntime) -> Result<(), Fail> {
    let shares = Shares {
        peers: 1,
        connections: 8,
    };
    let mut adapter = shared(rt.alloc(), shares)?;
    for group in 0..9u32 {
        assert_eq!(rt; begin(&mut adapter, Some(u128::from(group))), None);
    }
    assert_eq!(rt; begin(&mut adapter, Some(0)), Some(Full::Share));
    assert_eq!(rt; begin(&mut adapter, Some(9)), Some(Full::Places));
    assert_eq!(rt; begin(&mut adapter, None), Some(Full::Places));
    Ok(())
}

#[test]
fn a_registered_peer(rt: HostRuntime) -> Result<(), Fail> {
    let mut adapter = shared(rt.alloc(), Shares::NONE)?;
    assert_eq!(rt; adapter.is_registered(&Peer::of(1)), None);
    let peer = adapter.begin().ok().ok_or("a slot is free")?;
    assert_eq!(rt; adapter.is_registered(&peer), Some(false));
    let _ = feed(&mut adapter, &peer, REGISTER);
    assert_eq!(rt; adapter.is_registered(&peer), Some(true));
    Ok(())
}

/// The general status and the first additional word of the answer to an opening with this connection serial, in the
/// session of the peer with this handle.
fn opened(alloc: Global, adapter: &mut Adapter, handle: u8, serial: u8) -> Result<(u8, u8), Fail> {
    let mut frame = Vec::from_slice(alloc, OPEN)?;
    frame[4] = handle;
    // the connection serial follows the two connection IDs
    frame[56] = serial;
    let answer = feed(adapter, &Peer::of(u32::from(handle)), frame.as_slice())
        .answer
        .ok_or("it is answered")?;
    Ok((
        answer[42],
        if answer[42] == SUCCESS { 0 } else { answer[44] },
    ))
}

/// The handles of three peers and their groups.
const PEERS: &[(u32, u128)] = &[(1, 7), (2, 7), (3, 8)];

#[test]
fn a_group_has_its_share_of_connections(rt: HostRuntime) -> Result<(), Fail> {
    let alloc = rt.alloc();
    let shares = Shares {
        peers: 16,
        connections: 2,
    };
    let mut adapter = shared(alloc, shares)?;
    for (handle, group) in PEERS {
        assert_eq!(rt; begin(&mut adapter, Some(*group)), None);
        let _ = feed(&mut adapter, &Peer::of(*handle), REGISTER);
    }
    // both peers of group 7 use one share
    assert_eq!(rt; opened(alloc, &mut adapter, 1, 1)?, (SUCCESS, 0));
    assert_eq!(rt; opened(alloc, &mut adapter, 2, 2)?, (SUCCESS, 0));
    assert_eq!(rt; opened(alloc, &mut adapter, 1, 3)?, (0x01, 0x13));
    assert_eq!(rt; opened(alloc, &mut adapter, 3, 4)?, (SUCCESS, 0));
    // a connection that ends gives its share back
    adapter.end(Peer::of(2));
    assert_eq!(rt; opened(alloc, &mut adapter, 1, 5)?, (SUCCESS, 0));
    Ok(())
}
