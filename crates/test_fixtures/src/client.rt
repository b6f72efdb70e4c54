//! Frames that a client sends and receives, and clients in each state. (Volume 2, encapsulation.)

use enip_client::{Client, Hearing, Wants};
use std::alloc::Global;
use std::test::Fail;

/// The connection that the program opens.
pub const WANTS: Wants = Wants {
    originator_vendor: 66,
    originator_serial: 305_419_896,
    connection_serial: 1,
    t_to_o_id: 287_454_020,
    rpi: 2_000_000,
    timeout_multiplier: 0,
    o_to_t_size: 500,
    t_to_o_size: 500,
    first_count: 1,
};

/// A RegisterSession with context 1, and its reply: session 1.
pub const REGISTER: &[u8] = b"\x65\0\x04\0\0\0\0\0\0\0\0\0\x01\0\0\0\0\0\0\0\0\0\0\0\x01\0\0\0";

pub const REGISTERED: &[u8] = b"\x65\0\x04\0\x01\0\0\0\0\0\0\0\x01\0\0\0\0\0\0\0\0\0\0\0\x01\0\0\0";

/// A Forward_Open in session 1 with context 2, and its reply: O->T ID 1.
pub const OPEN: &[u8] = b"\x6f\0\x3e\0\x01\0\0\0\0\0\0\0\x02\0\0\0\0\0\0\0\0\0\0\0\
    \0\0\0\0\0\0\x02\0\0\0\0\0\xb2\0\x2e\0\
    \x54\x02\x20\x06\x24\x01\x0a\x0e\0\0\0\0\x44\x33\x22\x11\x01\0\x42\0\x78\x56\x34\x12\0\0\0\0\
    \x80\x84\x1e\0\xf4\x43\x80\x84\x1e\0\xf4\x43\xa3\x02\x20\x02\x24\x01";

pub const OPENED: &[u8] = b"\x6f\0\x2e\0\x01\0\0\0\0\0\0\0\x02\0\0\0\0\0\0\0\0\0\0\0\
    \0\0\0\0\0\0\x02\0\0\0\0\0\xb2\0\x1e\0\xd4\0\0\0\x01\0\0\0\x44\x33\x22\x11\
    \x01\0\x42\0\x78\x56\x34\x12\x80\x84\x1e\0\x80\x84\x1e\0\0\0";

/// The counter's Add of 5, its frame on connection 1 with count 1, and the frame of the reply.
pub const ADD: &[u8] = b"\x32\x02\x20\x64\x24\x01\x05\0\0\0";

pub const ADD_SENT: &[u8] = b"\x70\0\x20\0\x01\0\0\0\0\0\0\0\0\0\0\0\0\0\0\0\0\0\0\0\
    \0\0\0\0\0\0\x02\0\xa1\0\x04\0\x01\0\0\0\xb1\0\x0c\0\x01\0\x32\x02\x20\x64\x24\x01\x05\0\0\0";

pub const ADDED: &[u8] = b"\x70\0\x1e\0\x01\0\0\0\0\0\0\0\0\0\0\0\0\0\0\0\0\0\0\0\
    \0\0\0\0\0\0\x02\0\xa1\0\x04\0\x44\x33\x22\x11\xb1\0\x0a\0\x01\0\xb2\0\0\0\x05\0\0\0";

/// A Forward_Close in session 1 with context 3, and its reply.
pub const CLOSE: &[u8] = b"\x6f\0\x26\0\x01\0\0\0\0\0\0\0\x03\0\0\0\0\0\0\0\0\0\0\0\
    \0\0\0\0\0\0\x02\0\0\0\0\0\xb2\0\x16\0\
    \x4e\x02\x20\x06\x24\x01\x0a\x0e\x01\0\x42\0\x78\x56\x34\x12\x02\0\x20\x02\x24\x01";

pub const CLOSED: &[u8] = b"\x6f\0\x1e\0\x01\0\0\0\0\0\0\0\x03\0\0\0\0\0\0\0\0\0\0\0\
    \0\0\0\0\0\0\x02\0\0\0\0\0\xb2\0\x0e\0\xce\0\0\0\x01\0\x42\0\x78\x56\x34\x12\0\0";

/// A request for the vendor, its frame in session 1 with context 2, and the frame of the reply.
pub const GET: &[u8] = b"\x0e\x03\x20\x01\x24\x01\x30\x01";

pub const GET_SENT: &[u8] = b"\x6f\0\x18\0\x01\0\0\0\0\0\0\0\x02\0\0\0\0\0\0\0\0\0\0\0\
    \0\0\0\0\0\0\x02\0\0\0\0\0\xb2\0\x08\0\x0e\x03\x20\x01\x24\x01\x30\x01";

pub const GOT: &[u8] = b"\x6f\0\x16\0\x01\0\0\0\0\0\0\0\x02\0\0\0\0\0\0\0\0\0\0\0\
    \0\0\0\0\0\0\x02\0\0\0\0\0\xb2\0\x06\0\x8e\0\0\0\x34\x12";

/// An UnRegisterSession in session 1, which has no context.
pub const UNREGISTER: &[u8] = b"\x66\0\0\0\x01\0\0\0\0\0\0\0\0\0\0\0\0\0\0\0\0\0\0\0";

/// The frame of the Add with count 2.
pub const ADD_SENT_NEXT: &[u8] = b"\x70\0\x20\0\x01\0\0\0\0\0\0\0\0\0\0\0\0\0\0\0\0\0\0\0\
    \0\0\0\0\0\0\x02\0\xa1\0\x04\0\x01\0\0\0\xb1\0\x0c\0\x02\0\x32\x02\x20\x64\x24\x01\x05\0\0\0";

/// The frame of the request for the vendor with context 3.
pub const GET_SENT_THIRD: &[u8] = b"\x6f\0\x18\0\x01\0\0\0\0\0\0\0\x03\0\0\0\0\0\0\0\0\0\0\0\
    \0\0\0\0\0\0\x02\0\0\0\0\0\xb2\0\x08\0\x0e\x03\x20\x01\x24\x01\x30\x01";

/// The replies to the Add and to the request for the vendor.
pub const REPLY_OF_5: &[u8] = b"\xb2\0\0\0\x05\0\0\0";

pub const VENDOR: &[u8] = b"\x8e\0\0\0\x34\x12";

pub fn made(alloc: Global) -> Result<Client, Fail> {
    Ok(Client::new(alloc, &WANTS).ok().ok_or("the client is made")?)
}

/// A client with session 1.
pub fn registered(alloc: Global) -> Result<Client, Fail> {
    let mut client = made(alloc)?;
    let _ = client.register();
    let _ = hear(&mut client, REGISTERED);
    Ok(client)
}

/// The same with connection 1 open.
pub fn opened(alloc: Global) -> Result<Client, Fail> {
    let mut client = registered(alloc)?;
    let _ = client.open();
    let _ = hear(&mut client, OPENED);
    Ok(client)
}

/// Feeds a piece to a client.
pub fn hear<'a>(client: &'a mut Client, piece: &'a [u8]) -> Hearing<'a> {
    client.feed(piece)
}

/// The texts, joined.
pub fn joined(alloc: Global, texts: &[&[u8]]) -> Result<Vec<u8>, Fail> {
    let mut bytes = Vec::new(alloc);
    for text in texts {
        bytes.extend_from_slice(text)?;
    }
    Ok(bytes)
}

/// The bytes, with some of them replaced.
pub fn with_bytes(alloc: Global, bytes: &[u8], changes: &[(usize, u8)]) -> Result<Vec<u8>, Fail> {
    let mut changed = Vec::from_slice(alloc, bytes)?;
    for (place, byte) in changes {
        if let Some(old) = changed.as_mut_slice().get_mut(*place) {
            *old = *byte;
        }
    }
    Ok(changed)
}

/// What a client has done, or which reply it awaits.
#[derive(Clone, Copy, Debug)]
pub enum StartState {
    New,
    Registered,
    Opened,
    AwaitsSession,
    AwaitsConnection,
    AwaitsReply,
    AwaitsItem,
    AwaitsEnd,
    AwaitsItemAndEnd,
}

/// Sends the request whose reply this state awaits.
fn asks(client: &mut Client, start: StartState) -> bool {
    match start {
        StartState::New | StartState::Registered | StartState::Opened => true,
        StartState::AwaitsSession => client.register().is_ok(),
        StartState::AwaitsConnection => client.open().is_ok(),
        StartState::AwaitsReply => client.unconnected(GET).is_ok(),
        StartState::AwaitsItem => client.submit(ADD).is_ok(),
        StartState::AwaitsEnd => client.close().is_ok(),
        StartState::AwaitsItemAndEnd => client.submit(ADD).is_ok() && client.close().is_ok(),
    }
}

/// A client in this state.
pub fn client_at(alloc: Global, start: StartState) -> Result<Client, Fail> {
    let mut client = match start {
        StartState::New | StartState::AwaitsSession => made(alloc)?,
        StartState::Registered | StartState::AwaitsConnection | StartState::AwaitsReply =>
            registered(alloc)?,
        StartState::Opened
        | StartState::AwaitsItem
        | StartState::AwaitsEnd
        | StartState::AwaitsItemAndEnd => { opened(alloc)? }
    };
    if asks(&mut client, start) {
        Ok(client)
    } else {
        Err("a frame is lent".into())
    }
}
