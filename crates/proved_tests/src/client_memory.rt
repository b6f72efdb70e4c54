//! Sessions of a client in which an allocation is refused.

use crate::same::check_same;
use enip_client::{Client, ClientFault, Heard};
use std::alloc::Global;
use std::process::Abort;
use std::test::Fail;
use test_fixtures::client::{
    ADD, ADD_SENT, ADDED, CLOSE, CLOSED, OPEN, OPENED, REGISTER, REGISTERED, REPLY_OF_5,
    UNREGISTER, WANTS, hear, made,
};

/// A client. If an allocation is refused, it is made again.
fn made_again<A: Abort>(rt: &A, alloc: Global) -> Result<Client, Fail> {
    match Client::new(alloc, &WANTS) {
        Ok(client) => Ok(client),
        Err(fault) => {
            assert_eq!(rt; fault, ClientFault::Memory);
            made(alloc)
        }
    }
}

/// Asserts what a client hears in a piece.
pub(crate) fn check_heard<A: Abort>(rt: &A, client: &mut Client, piece: &[u8], heard: Heard<'_>) {
    check_same(rt, hear(client, piece).heard, heard);
}

/// Registers a session and opens a connection. The reply to the open comes in two pieces.
fn check_opening<A: Abort>(rt: &A, client: &mut Client) {
    check_same(rt, client.register(), Ok(REGISTER));
    check_heard(rt, client, REGISTERED, Heard::Registered);
    check_same(rt, client.open(), Ok(OPEN));
    check_heard(rt, client, &OPENED[..30], Heard::Nothing);
    check_heard(rt, client, &OPENED[30..], Heard::Opened);
}

/// Sends a request twice, and then closes the connection and the session.
fn check_request<A: Abort>(rt: &A, client: &mut Client) {
    check_same(rt, client.submit(ADD), Ok(ADD_SENT));
    check_same(rt, client.resend(), Some(ADD_SENT));
    check_heard(rt, client, ADDED, Heard::Accepted(REPLY_OF_5));
    check_same(rt, client.close(), Ok(CLOSE));
    check_heard(rt, client, CLOSED, Heard::Closed);
    check_same(rt, client.unregister(), Ok(UNREGISTER));
}

/// `new` allocates all memory, so this passes whichever allocation is refused. `tests/memory` refuses each in turn.
#[test]
fn only_new_takes_memory(rt: HostRuntime) -> Result<(), Fail> {
    let mut client = made_again(&rt, rt.alloc())?;
    check_opening(&rt, &mut client);
    check_request(&rt, &mut client);
    Ok(())
}
