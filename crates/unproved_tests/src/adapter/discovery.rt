//! Which datagrams are answered and which are dropped.

use enip_adapter::{Adapter, DiscoveryBuffer};
use std::alloc::Global;
use std::process::Abort;
use std::test::Fail;
use test_fixtures::adapter::{REGISTER, REGISTERED, adapter_with_peer, feed, free};

/// Datagrams with their answers.
static ANSWERED: [(&[u8], &[u8]); 4] = [
    // ListIdentity
    (
        b"\x63\0\0\0\0\0\0\0\0\0\0\0\x01\x02\x03\x04\x05\x06\x07\x08\0\0\0\0",
        b"\x63\0\x2c\0\0\0\0\0\0\0\0\0\x01\x02\x03\x04\x05\x06\x07\x08\0\0\0\0\
        \x01\0\x0c\0\x26\0\x01\0\0\x02\xaf\x12\x7f\0\0\x01\0\0\0\0\0\0\0\0\
        \x34\x12\x2b\0\x07\0\x02\x05\0\0\x04\x03\x02\x01\x04Demo\x03",
    ),
    // ListServices
    (
        b"\x04\0\0\0\0\0\0\0\0\0\0\0\x01\x02\x03\x04\x05\x06\x07\x08\0\0\0\0",
        b"\x04\0\x1a\0\0\0\0\0\0\0\0\0\x01\x02\x03\x04\x05\x06\x07\x08\0\0\0\0\
        \x01\0\0\x01\x14\0\x01\0\x20\0Communications\0\0",
    ),
    // ListInterfaces
    (
        b"\x64\0\0\0\0\0\0\0\0\0\0\0\x01\x02\x03\x04\x05\x06\x07\x08\0\0\0\0",
        b"\x64\0\x02\0\0\0\0\0\0\0\0\0\x01\x02\x03\x04\x05\x06\x07\x08\0\0\0\0\0\0",
    ),
    // with a session, which the answer repeats
    (
        b"\x64\0\0\0\x07\0\0\0\0\0\0\0\x11\x12\x13\x14\x15\x16\x17\x18\0\0\0\0",
        b"\x64\0\x02\0\x07\0\0\0\0\0\0\0\x11\x12\x13\x14\x15\x16\x17\x18\0\0\0\0\0\0",
    ),
];

/// Datagrams that are dropped.
static DROPPED: [&[u8]; 19] = [
    b"",
    b"\x63",
    // a byte of the header is missing
    b"\x63\0\0\0\0\0\0\0\0\0\0\0\x01\x02\x03\x04\x05\x06\x07\x08\0\0\0",
    // a frame and one more byte
    b"\x63\0\0\0\0\0\0\0\0\0\0\0\x01\x02\x03\x04\x05\x06\x07\x08\0\0\0\0\0",
    // two frames
    b"\x63\0\0\0\0\0\0\0\0\0\0\0\x01\x02\x03\x04\x05\x06\x07\x08\0\0\0\0\
    \x63\0\0\0\0\0\0\0\0\0\0\0\x01\x02\x03\x04\x05\x06\x07\x08\0\0\0\0",
    // a byte of the data is missing
    b"\x63\0\x04\0\0\0\0\0\0\0\0\0\x01\x02\x03\x04\x05\x06\x07\x08\0\0\0\0\x01\x02\x03",
    // options in the first byte, and in the last
    b"\x63\0\0\0\0\0\0\0\0\0\0\0\x01\x02\x03\x04\x05\x06\x07\x08\x01\0\0\0",
    b"\x04\0\0\0\0\0\0\0\0\0\0\0\x01\x02\x03\x04\x05\x06\x07\x08\0\0\0\x01",
    // a status in the first byte, and in the last
    b"\x64\0\0\0\0\0\0\0\x01\0\0\0\x01\x02\x03\x04\x05\x06\x07\x08\0\0\0\0",
    b"\x63\0\0\0\0\0\0\0\0\0\0\x01\x01\x02\x03\x04\x05\x06\x07\x08\0\0\0\0",
    // NOP
    b"\0\0\0\0\0\0\0\0\0\0\0\0\x01\x02\x03\x04\x05\x06\x07\x08\0\0\0\0",
    REGISTER,
    // UnRegisterSession
    b"\x66\0\0\0\x01\0\0\0\0\0\0\0\x01\x02\x03\x04\x05\x06\x07\x08\0\0\0\0",
    // SendRRData: Get_Attribute_Single of the vendor
    b"\x6f\0\x18\0\x01\0\0\0\0\0\0\0\x01\x02\x03\x04\x05\x06\x07\x08\0\0\0\0\
    \0\0\0\0\0\0\x02\0\0\0\0\0\xb2\0\x08\0\x0e\x03\x20\x01\x24\x01\x30\x01",
    // SendUnitData
    b"\x70\0\0\0\x01\0\0\0\0\0\0\0\x01\x02\x03\x04\x05\x06\x07\x08\0\0\0\0",
    // not commands
    b"\x01\0\0\0\0\0\0\0\0\0\0\0\x01\x02\x03\x04\x05\x06\x07\x08\0\0\0\0",
    b"\0\x63\0\0\0\0\0\0\0\0\0\0\x01\x02\x03\x04\x05\x06\x07\x08\0\0\0\0",
    b"\x63\x01\0\0\0\0\0\0\0\0\0\0\x01\x02\x03\x04\x05\x06\x07\x08\0\0\0\0",
    // a length of 65,512
    b"\x63\0\xe8\xff\0\0\0\0\0\0\0\0\x01\x02\x03\x04\x05\x06\x07\x08\0\0\0\0",
];

/// A ListInterfaces with this many bytes of data.
fn with_data(alloc: Global, size: u16) -> Result<Vec<u8>, Fail> {
    let mut datagram = Vec::from_slice(alloc, b"\x64\0")?;
    datagram.extend_from_slice(&size.to_le_bytes())?;
    datagram.extend_from_slice(&[0; 20])?;
    datagram.resize(24 + usize::from(size), 0)?;
    Ok(datagram)
}

/// Asserts that a datagram is dropped, also if the buffer held an answer before.
fn check_dropped<A: Abort>(rt: &A, adapter: &Adapter, room: &mut DiscoveryBuffer, datagram: &[u8]) {
    let answered = ANSWERED[0];
    assert_eq!(rt; adapter.discover(answered.0, room), Some(answered.1));
    assert_eq!(rt; adapter.discover(datagram, room), None);
}

#[test]
fn lists_are_answered_as_over_tcp(rt: HostRuntime) -> Result<(), Fail> {
    let (mut adapter, peer) = adapter_with_peer(rt.alloc())?;
    let mut room = DiscoveryBuffer::new();
    for (datagram, answer) in &ANSWERED {
        assert_eq!(rt; adapter.discover(datagram, &mut room), Some(*answer));
        assert_eq!(rt; feed(&mut adapter, &peer, datagram).answer, Some(*answer));
    }
    Ok(())
}

#[test]
fn other_datagrams_are_dropped(rt: HostRuntime) -> Result<(), Fail> {
    let (mut adapter, peer) = adapter_with_peer(rt.alloc())?;
    let mut room = DiscoveryBuffer::new();
    for datagram in &DROPPED {
        check_dropped(&rt, &adapter, &mut room, datagram);
    }
    // no slot is taken, no session is registered, and the next peer has the next handle
    assert_eq!(rt; free(&adapter), (8, 16));
    assert_eq!(rt;
        feed(&mut adapter, &peer, REGISTER).answer,
        Some(REGISTERED)
    );
    let next = adapter.begin().ok().ok_or("a slot is free")?;
    assert_eq!(rt; next.handle(), 2);
    Ok(())
}

#[test]
fn a_list_with_data_is_no_request(rt: HostRuntime) -> Result<(), Fail> {
    let (adapter, _peer) = adapter_with_peer(rt.alloc())?;
    let mut room = DiscoveryBuffer::new();
    for size in [1, 2, 26, 65_511, 65_512] {
        let datagram = with_data(rt.alloc(), size)?;
        check_dropped(&rt, &adapter, &mut room, datagram.as_slice());
    }
    // an answer is a frame with the same command, but two devices do not answer each other
    for (_, answer) in &ANSWERED {
        check_dropped(&rt, &adapter, &mut room, answer);
    }
    Ok(())
}
