//! Which opening a client sends for which sizes, and how it takes the answers to a large one.

use enip_client::{Client, ClientFault, Heard, Wants};
use std::alloc::Global;
use std::process::Abort;
use std::test::Fail;
use test_fixtures::client::{REGISTERED, WANTS, hear, joined};

/// The O->T and T->O sizes, and the opening that has them: its service, and its bytes from the multiplier to the
/// transport.
static SIZES: [(u16, u16, u8, &[u8]); 6] = [
    (
        4,
        10,
        0x54,
        b"\0\0\0\0\x80\x84\x1e\0\x04\x42\x80\x84\x1e\0\x0a\x42\xa3",
    ),
    (
        511,
        511,
        0x54,
        b"\0\0\0\0\x80\x84\x1e\0\xff\x43\x80\x84\x1e\0\xff\x43\xa3",
    ),
    (
        512,
        500,
        0x5b,
        b"\0\0\0\0\x80\x84\x1e\0\0\x02\0\x42\x80\x84\x1e\0\xf4\x01\0\x42\xa3",
    ),
    (
        500,
        512,
        0x5b,
        b"\0\0\0\0\x80\x84\x1e\0\xf4\x01\0\x42\x80\x84\x1e\0\0\x02\0\x42\xa3",
    ),
    (
        4,
        4_002,
        0x5b,
        b"\0\0\0\0\x80\x84\x1e\0\x04\0\0\x42\x80\x84\x1e\0\xa2\x0f\0\x42\xa3",
    ),
    (
        4_002,
        4_002,
        0x5b,
        b"\0\0\0\0\x80\x84\x1e\0\xa2\x0f\0\x42\x80\x84\x1e\0\xa2\x0f\0\x42\xa3",
    ),
];

/// The bytes of an opening between its service and its multiplier.
const NAMED: &[u8] =
    b"\x02\x20\x06\x24\x01\x0a\x0e\0\0\0\0\x44\x33\x22\x11\x01\0\x42\0\x78\x56\x34\x12";

/// The path of the message router, with its size in words.
const ROUTER: &[u8] = b"\x02\x20\x02\x24\x01";

/// The bytes of a SendRRData frame in session 1 with context 2, before and after the first length, up to the second
/// one.
const COMMAND: &[u8] = b"\x6f\0";

const BEHIND_LENGTH: &[u8] = b"\x01\0\0\0\0\0\0\0\x02\0\0\0\0\0\0\0\0\0\0\0\
    \0\0\0\0\0\0\x02\0\0\0\0\0\xb2\0";

/// A frame with this message.
fn frame(alloc: Global, message: &[u8]) -> Result<Vec<u8>, Fail> {
    let length = u16::try_from(message.len()).ok().ok_or("a message")?;
    let whole = length.saturating_add(16).to_le_bytes();
    let texts: [&[u8]; 5] = [
        COMMAND,
        &whole,
        BEHIND_LENGTH,
        &length.to_le_bytes(),
        message,
    ];
    joined(alloc, &texts)
}

/// A frame with the opening with this service and these parameters.
fn opening(alloc: Global, service: u8, parameters: &[u8]) -> Result<Vec<u8>, Fail> {
    let texts: [&[u8]; 4] = [&[service], NAMED, parameters, ROUTER];
    let message = joined(alloc, &texts)?;
    frame(alloc, &message)
}

/// A registered client that wants these sizes.
fn registered<A: Abort>(
    rt: &A,
    alloc: Global,
    o_to_t_size: u16,
    t_to_o_size: u16,
) -> Result<Client, Fail> {
    assert!(rt; 4 <= o_to_t_size && o_to_t_size <= 4_002);
    assert!(rt; 10 <= t_to_o_size && t_to_o_size <= 4_002);
    let wants = Wants {
        o_to_t_size,
        t_to_o_size,
        ..WANTS
    };
    let Ok(mut client) = Client::new(alloc, &wants) else {
        return Err(Fail::from("the client is not made"));
    };
    let _ = client.register();
    let _ = hear(&mut client, REGISTERED);
    Ok(client)
}

#[test]
fn openings_by_size(rt: HostRuntime) -> Result<(), Fail> {
    for (o_to_t, t_to_o, service, parameters) in &SIZES {
        let wanted = opening(rt.alloc(), *service, parameters)?;
        let mut client = registered(&rt, rt.alloc(), *o_to_t, *t_to_o)?;
        assert_eq!(rt; client.open(), Ok(wanted.as_slice()));
    }
    Ok(())
}

/// Answers to a large opening: success; status 8, which is reported, and the client does not try again; an extended
/// status. The reply to a small opening is malformed, and so is one that is too short.
static ANSWERS: [(&[u8], Heard<'static>, Option<ClientFault>); 5] = [
    (
        b"\xdb\0\0\0\x01\0\0\0\x44\x33\x22\x11\x01\0\x42\0\x78\x56\x34\x12\x80\x84\x1e\0\x80\x84\x1e\0\0\0",
        Heard::Opened,
        None,
    ),
    (b"\xdb\0\x08\0", Heard::Refused(8, 0), None),
    (
        b"\xdb\0\x01\x01\x09\x01\x01\0\x42\0\x78\x56\x34\x12\0\0",
        Heard::Refused(1, 0x0109),
        None,
    ),
    (
        b"\xd4\0\0\0\x01\0\0\0\x44\x33\x22\x11\x01\0\x42\0\x78\x56\x34\x12\x80\x84\x1e\0\x80\x84\x1e\0\0\0",
        Heard::Nothing,
        Some(ClientFault::Malformed),
    ),
    (
        b"\xdb\0\0\0\x01\0\0\0",
        Heard::Nothing,
        Some(ClientFault::Malformed),
    ),
];

#[test]
fn answers_to_a_large_opening(rt: HostRuntime) -> Result<(), Fail> {
    for (reply, heard, fault) in &ANSWERS {
        let answer = frame(rt.alloc(), reply)?;
        let mut client = registered(&rt, rt.alloc(), 4_002, 4_002)?;
        let _ = client.open();
        assert_eq!(rt; client.feed(answer.as_slice()).heard, *heard);
        assert_eq!(rt; client.fault(), *fault);
        assert_eq!(rt; client.stage().is_some(), *heard == Heard::Opened);
    }
    Ok(())
}
