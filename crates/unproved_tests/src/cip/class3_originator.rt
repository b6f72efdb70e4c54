//! An originator's calls, with first counts, sizes and replies that no command of the program makes.

use super::counting::ADD_ONE;
use cip_class3::{Came, Originator, Refused, Stage};
use std::process::Abort;
use std::test::Fail;

/// Asserts that each request is refused for its reason.
fn check_refusals(rt: &impl Abort, originator: &mut Originator, rows: &[(&[u8], Refused)]) {
    for (request, why) in rows {
        assert!(rt; originator.submit(request).err() == Some(*why));
    }
}

/// Asserts that a request is sent whole, in an item with this beginning.
fn check_sent(rt: &impl Abort, originator: &mut Originator, request: &[u8], front: &[u8; 3]) {
    let sent = originator.submit(request).unwrap_or(&[]);
    assert!(rt; sent.starts_with(front));
    assert_eq!(rt; sent.len() - 2, request.len());
}

/// Asserts that the item has the reply to the pending request.
fn check_accepted(rt: &impl Abort, originator: &mut Originator, item: &[u8]) {
    let came = originator.receive(item);
    assert!(rt; matches!(came, Came::Accepted(_)));
}

/// Asserts that the last request was given up, and none is pending.
fn check_given_up(rt: &impl Abort, originator: &mut Originator) {
    assert!(rt; originator.stage() == Stage::GivenUp);
    assert!(rt; originator.resend().is_none());
    assert!(rt; !originator.give_up());
}

/// A refused request uses no count, and count 0 follows 65,535.
#[test]
fn requests_are_refused_by_the_first_check_that_fails(rt: HostRuntime) -> Result<(), Fail> {
    let mut originator = Originator::new(rt.alloc(), 0xffff, 500, 500)?;
    let long = [0x0e; 499];
    // a service with bit 7 set is that of a reply
    let idle: [(&[u8], Refused); 3] = [
        (&long, Refused::TooLong),
        (&[0x32], Refused::NoRequest),
        (b"\xb2\x02\x20\x64\x24\x01", Refused::NoRequest),
    ];
    check_refusals(&rt, &mut originator, &idle);
    check_sent(&rt, &mut originator, &long[..498], b"\xff\xff\x0e");
    let waiting: [(&[u8], Refused); 2] = [(&ADD_ONE, Refused::Busy), (&[0x32], Refused::Busy)];
    check_refusals(&rt, &mut originator, &waiting);
    check_accepted(&rt, &mut originator, b"\xff\xff\x8e\0\0\0");
    check_sent(&rt, &mut originator, &ADD_ONE, b"\0\0\x32");
    assert!(rt; originator.give_up());
    check_given_up(&rt, &mut originator);
    Ok(())
}

/// The reply to a request that was given up is ignored. The reply to the next one is accepted.
#[test]
fn a_request_is_taken_after_giving_up(rt: HostRuntime) -> Result<(), Fail> {
    let mut originator = Originator::new(rt.alloc(), 0, 500, 500)?;
    check_sent(&rt, &mut originator, &ADD_ONE, b"\0\0\x32");
    assert!(rt; originator.give_up());
    let rows: [(&[u8], Refused); 2] = [
        (&[0x32], Refused::NoRequest),
        (&[0x0e; 499], Refused::TooLong),
    ];
    check_refusals(&rt, &mut originator, &rows);
    check_given_up(&rt, &mut originator);
    check_sent(&rt, &mut originator, &ADD_ONE, b"\x01\0\x32");
    assert!(rt; originator.receive(b"\0\0\xb2\0\0\0") == Came::Ignored);
    check_accepted(&rt, &mut originator, b"\x01\0\xb2\0\0\0");
    Ok(())
}

#[test]
fn refusals_have_their_numbers(rt: HostRuntime) {
    let rows = [
        (Refused::Busy, 1),
        (Refused::TooLong, 2),
        (Refused::NoRequest, 3),
        (Refused::GivenUp, 4),
        (Refused::TooManyAbandoned, 5),
    ];
    for (why, number) in &rows {
        assert_eq!(rt; why.number(), *number);
    }
}

/// Items that do not answer service 0x32 with count 1 at a T->O size of 12 bytes: five bytes, thirteen bytes, another
/// count, and another service.
static IGNORED: [&[u8]; 4] = [
    b"\x01\0\xb2\0\0",
    b"\x01\0\xb2\0\0\0\x05\0\0\0\0\0\0",
    b"\x02\0\xb2\0\0\0",
    b"\x01\0\x8e\0\0\0",
];

#[test]
fn one_reply_is_accepted(rt: HostRuntime) -> Result<(), Fail> {
    let mut originator = Originator::new(rt.alloc(), 1, 500, 12)?;
    assert!(rt; originator.stage() == Stage::Idle && !originator.give_up());
    let item = *b"\x01\0\x32\x02\x20\x64\x24\x01\x01\0\0\0";
    check_sent(&rt, &mut originator, &ADD_ONE, b"\x01\0\x32");
    assert!(rt; originator.resend() == Some(item.as_slice()));
    for reply in &IGNORED {
        assert!(rt; originator.receive(reply) == Came::Ignored);
    }
    assert!(rt; originator.stage() == Stage::Waiting);
    let reply = *b"\x01\0\xb2\0\0\0\x05\0\0\0";
    assert!(rt; originator.receive(&reply) == Came::Accepted(&reply[2..]));
    assert!(rt; originator.stage() == Stage::Idle);
    // a late duplicate
    assert!(rt; originator.receive(&reply) == Came::Ignored);
    Ok(())
}

/// With sizes of 4,002 bytes, the longest request is sent, and one with a byte more is refused.
#[test]
fn the_greatest_sizes(rt: HostRuntime) -> Result<(), Fail> {
    let mut originator = Originator::new(rt.alloc(), 65_535, 4_002, 4_002)?;
    let request = [0x33; 4_001];
    check_refusals(
        &rt,
        &mut originator,
        &[(request.as_slice(), Refused::TooLong)],
    );
    check_sent(&rt, &mut originator, &request[..4_000], b"\xff\xff\x33");
    Ok(())
}
