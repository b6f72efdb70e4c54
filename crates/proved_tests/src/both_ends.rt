//! A client and an adapter back to back: sessions that use each service of the objects, with and without a
//! connection. `tests/memory` counts the allocations of one round and of a thousand.

use crate::client_memory::check_heard;
use crate::same::check_same;
use enip_adapter::{Adapter, Peer};
use enip_client::{Client, Heard};
use std::alloc::Global;
use std::process::Abort;
use std::test::Fail;
use test_fixtures::adapter::{adapter_with_peer, feed};
use test_fixtures::client::made;

/// A request for each service of the objects, and its reply.
const SERVICES: &[(&[u8], &[u8])] = &[
    // Get_Attributes_All and Get_Attribute_List of Identity
    (
        b"\x01\x02\x20\x01\x24\x01",
        b"\x81\0\0\0\x34\x12\x2b\0\x07\0\x02\x05\0\0\x04\x03\x02\x01\x04Demo",
    ),
    (
        b"\x03\x02\x20\x01\x24\x01\x03\0\x01\0\x63\0\x02\0",
        b"\x83\0\x0a\0\x03\0\x01\0\0\0\x34\x12\x63\0\x14\0\x02\0\0\0\x2b\0",
    ),
    // Set_Attribute_Single, Get_Member, Set_Member and Get_Attribute_Single of an assembly
    (
        b"\x10\x03\x20\x04\x24\x64\x30\x03\x01\x02\x03\x04",
        b"\x90\0\0\0",
    ),
    (
        b"\x18\x04\x20\x04\x24\x64\x30\x03\x28\x02",
        b"\x98\0\0\0\x02\x03",
    ),
    (
        b"\x19\x04\x20\x04\x24\x64\x30\x03\x28\x02\xaa\xbb",
        b"\x99\0\0\0",
    ),
    (
        b"\x0e\x03\x20\x04\x24\x64\x30\x03",
        b"\x8e\0\0\0\x01\xaa\xbb\x04",
    ),
    // Add and Clear of the counter
    (
        b"\x32\x02\x20\x64\x24\x01\x64\0\0\0",
        b"\xb2\0\0\0\x64\0\0\0",
    ),
    (b"\x33\x02\x20\x64\x24\x01", b"\xb3\0\0\0\x64\0\0\0"),
];

/// What the client sends.
#[derive(Clone, Copy)]
enum Sent<'a> {
    Registers,
    Opens,
    Asks(&'a [u8]),
    Submits(&'a [u8]),
    Resends,
    Closes,
}

/// The frame.
fn lent<'a>(client: &'a mut Client, sent: Sent<'_>) -> Option<&'a [u8]> {
    match sent {
        Sent::Registers => client.register().ok(),
        Sent::Opens => client.open().ok(),
        Sent::Asks(request) => client.unconnected(request).ok(),
        Sent::Submits(request) => client.submit(request).ok(),
        Sent::Resends => client.resend(),
        Sent::Closes => client.close().ok(),
    }
}

/// The adapter's answer to a frame of the client.
fn pass<'a>(adapter: &'a mut Adapter, peer: &Peer, frame: &[u8]) -> Option<&'a [u8]> {
    feed(adapter, peer, frame).answer
}

/// The client sends this; the result is the adapter's answer.
fn answered<'a>(
    adapter: &'a mut Adapter,
    peer: &Peer,
    client: &mut Client,
    sent: Sent<'_>,
) -> Result<&'a [u8], Fail> {
    let frame = lent(client, sent).ok_or("a frame")?;
    Ok(pass(adapter, peer, frame).ok_or("an answer")?)
}

/// A client, and the adapter of which it is a peer.
#[derive(Drop)]
struct Ends {
    adapter: Adapter,
    peer: Peer,
    client: Client,
}

/// The client sends this, and receives the adapter's answer, which must be `heard`.
fn exchange<A: Abort>(
    rt: &A,
    ends: &mut Ends,
    sent: Sent<'_>,
    heard: Heard<'_>,
) -> Result<(), Fail> {
    let answer = answered(&mut ends.adapter, &ends.peer, &mut ends.client, sent)?;
    check_heard(rt, &mut ends.client, answer, heard);
    Ok(())
}

/// The client sends this, and the answer is lost.
fn loses(ends: &mut Ends, sent: Sent<'_>) -> Result<(), Fail> {
    let _ = answered(&mut ends.adapter, &ends.peer, &mut ends.client, sent)?;
    Ok(())
}

/// Sends a request on the connection. If `lost` is set, the answer is lost and the request is sent again.
fn submits<A: Abort>(
    rt: &A,
    ends: &mut Ends,
    request: &[u8],
    reply: &[u8],
    lost: bool,
) -> Result<(), Fail> {
    let heard = Heard::Accepted(reply);
    if lost {
        loses(ends, Sent::Submits(request))?;
        exchange(rt, ends, Sent::Resends, heard)
    } else {
        exchange(rt, ends, Sent::Submits(request), heard)
    }
}

/// Ends the session, and asserts that the adapter closes.
fn check_left<A: Abort>(rt: &A, ends: &mut Ends) -> Result<(), Fail> {
    let left = ends.client.unregister().ok().ok_or("a frame")?;
    let fed = feed(&mut ends.adapter, &ends.peer, left);
    check_same(rt, fed.close, true);
    Ok(())
}

/// Both ends before the first frame.
fn both_ends(alloc: Global) -> Result<Ends, Fail> {
    let (adapter, peer) = adapter_with_peer(alloc)?;
    let client = made(alloc)?;
    Ok(Ends {
        adapter,
        peer,
        client,
    })
}

/// Requests each service without a connection.
fn ask_each<A: Abort>(rt: &A, ends: &mut Ends) -> Result<(), Fail> {
    for (request, reply) in SERVICES {
        exchange(rt, ends, Sent::Asks(request), Heard::Reply(reply))?;
    }
    Ok(())
}

/// The same, `rounds` times.
fn ask_all<A: Abort>(rt: &A, ends: &mut Ends, rounds: usize) -> Result<(), Fail> {
    for _ in 0..rounds {
        ask_each(rt, ends)?;
    }
    Ok(())
}

/// Requests each service on the connection. If `lost` is set, each first answer is lost.
fn submit_each<A: Abort>(rt: &A, ends: &mut Ends, lost: bool) -> Result<(), Fail> {
    for (request, reply) in SERVICES {
        submits(rt, ends, request, reply, lost)?;
    }
    Ok(())
}

/// The same, `rounds` times, with lost answers in every other round.
fn submit_all<A: Abort>(rt: &A, ends: &mut Ends, rounds: usize) -> Result<(), Fail> {
    for round in 0..rounds {
        submit_each(rt, ends, round % 2 == 1)?;
    }
    Ok(())
}

/// A session that requests each service without a connection, and then on one, with and without lost answers.
fn session<A: Abort>(rt: &A, ends: &mut Ends, rounds: usize) -> Result<(), Fail> {
    exchange(rt, ends, Sent::Registers, Heard::Registered)?;
    ask_all(rt, ends, rounds)?;
    exchange(rt, ends, Sent::Opens, Heard::Opened)?;
    submit_all(rt, ends, rounds)?;
    exchange(rt, ends, Sent::Closes, Heard::Closed)?;
    check_left(rt, ends)
}

/// Asserts that the slot of the connection is free after a session.
fn check_session<A: Abort>(rt: &A, ends: &mut Ends, rounds: usize) -> Result<(), Fail> {
    session(rt, ends, rounds)?;
    check_same(rt, ends.adapter.free(), (8, 16));
    Ok(())
}

/// The same with new ends.
fn check_rounds<A: Abort>(rt: &A, alloc: Global, rounds: usize) -> Result<(), Fail> {
    let mut ends = both_ends(alloc)?;
    check_session(rt, &mut ends, rounds)
}

#[test]
fn one_round(rt: HostRuntime) -> Result<(), Fail> {
    check_rounds(&rt, rt.alloc(), 1)
}

/// No request allocates memory: this has as many allocations as one round.
#[test]
fn a_thousand_rounds(rt: HostRuntime) -> Result<(), Fail> {
    check_rounds(&rt, rt.alloc(), 1_000)
}
