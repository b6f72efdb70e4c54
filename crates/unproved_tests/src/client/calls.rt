//! Calls of a client in orders that no command makes, and their results.

use cip_class3::{Refused, Stage};
use enip_client::{Client, ClientFault, Heard, Hearing, SubmitFault};
use std::alloc::Global;
use std::process::Abort;
use std::test::Fail;
use test_fixtures::client::{
    ADD, ADD_SENT, ADD_SENT_NEXT, ADDED, CLOSE, CLOSED, GET, GET_SENT_THIRD, GOT, OPEN, OPENED,
    REGISTER, REGISTERED, REPLY_OF_5, StartState, UNREGISTER, client_at, hear, opened, with_bytes,
};

/// A call and its result.
#[derive(Clone, Copy)]
enum Step<'a> {
    Register(Result<&'a [u8], ClientFault>),
    Open(Result<&'a [u8], ClientFault>),
    Ask(&'a [u8], Result<&'a [u8], ClientFault>),
    Submit(&'a [u8], Result<&'a [u8], SubmitFault>),
    Resend(Option<&'a [u8]>),
    GiveUp(bool),
    Close(Result<&'a [u8], ClientFault>),
    Unregister(Result<&'a [u8], ClientFault>),
    /// Feeds a piece, of which this is heard.
    Feed(&'a [u8], Heard<'a>),
    /// The same, and this many bytes are taken.
    Take(&'a [u8], usize, Heard<'a>),
    Stage(Option<Stage>),
    Fault(Option<ClientFault>),
}

/// Makes a call, and compares its result.
fn check_step<A: Abort>(rt: &A, client: &mut Client, name: &str, position: usize, step: Step<'_>) {
    match step {
        Step::Register(expected) => assert_eq!(rt;
            client.register(),
            expected,
            "{name}, {position}"
        ),
        Step::Open(expected) => assert_eq!(rt; client.open(), expected, "{name}, {position}"),
        Step::Close(expected) => assert_eq!(rt; client.close(), expected, "{name}, {position}"),
        Step::Unregister(expected) => assert_eq!(rt;
            client.unregister(),
            expected,
            "{name}, {position}"
        ),
        Step::Stage(expected) => assert_eq!(rt; client.stage(), expected, "{name}, {position}"),
        Step::Fault(expected) => assert_eq!(rt; client.fault(), expected, "{name}, {position}"),
        _ => check_request(rt, client, name, position, step),
    }
}

/// The same for a request.
fn check_request<A: Abort>(
    rt: &A,
    client: &mut Client,
    name: &str,
    position: usize,
    step: Step<'_>,
) {
    match step {
        Step::Ask(request, expected) => {
            assert_eq!(rt; client.unconnected(request), expected, "{name}, {position}");
        }
        Step::Submit(request, expected) => {
            assert_eq!(rt; client.submit(request), expected, "{name}, {position}");
        }
        Step::Resend(expected) => assert_eq!(rt; client.resend(), expected, "{name}, {position}"),
        Step::GiveUp(expected) => assert_eq!(rt; client.give_up(), expected, "{name}, {position}"),
        _ => check_hearing(rt, client, name, position, step),
    }
}

/// Asserts what was heard of a piece, and how many bytes were taken.
fn check_heard<A: Abort>(
    rt: &A,
    name: &str,
    position: usize,
    hearing: Hearing<'_>,
    taken: Option<usize>,
    expected: Heard<'_>,
) {
    let taken = taken.unwrap_or(hearing.taken);
    assert_eq!(rt; hearing.taken, taken, "{name}, {position}");
    assert_eq!(rt; hearing.heard, expected, "{name}, {position}");
}

/// The same for `Feed` and `Take`.
fn check_hearing<A: Abort>(
    rt: &A,
    client: &mut Client,
    name: &str,
    position: usize,
    step: Step<'_>,
) {
    let (piece, taken, expected) = match step {
        Step::Feed(piece, expected) => (piece, None, expected),
        Step::Take(piece, taken, expected) => (piece, Some(taken), expected),
        _ => return,
    };
    check_heard(rt, name, position, hear(client, piece), taken, expected);
}

/// Makes these calls in turn, and compares their results.
fn check<A: Abort>(rt: &A, client: &mut Client, name: &str, steps: &[Step<'_>]) {
    for (position, step) in steps.iter().enumerate() {
        check_step(rt, client, name, position, *step);
    }
}

const WHOLE: [Step<'static>; 17] = [
    Step::Register(Ok(REGISTER)),
    Step::Feed(REGISTERED, Heard::Registered),
    Step::Stage(None),
    Step::Open(Ok(OPEN)),
    Step::Feed(OPENED, Heard::Opened),
    Step::Stage(Some(Stage::Idle)),
    Step::Submit(ADD, Ok(ADD_SENT)),
    Step::Stage(Some(Stage::Waiting)),
    Step::Resend(Some(ADD_SENT)),
    Step::Feed(ADDED, Heard::Accepted(REPLY_OF_5)),
    Step::Stage(Some(Stage::Idle)),
    Step::Resend(None),
    Step::Close(Ok(CLOSE)),
    Step::Stage(None),
    Step::Feed(CLOSED, Heard::Closed),
    Step::Unregister(Ok(UNREGISTER)),
    Step::Fault(None),
];

/// Without a session, only `register` is possible.
const NOT_REGISTERED: [Step<'static>; 7] = [
    Step::Open(Err(ClientFault::State)),
    Step::Ask(&[], Err(ClientFault::State)),
    Step::Submit(ADD, Err(SubmitFault::Client(ClientFault::State))),
    Step::Close(Err(ClientFault::State)),
    Step::Unregister(Err(ClientFault::State)),
    Step::Resend(None),
    Step::GiveUp(false),
];

/// While the session is awaited, nothing is possible.
const REGISTERS_ONCE: [Step<'static>; 11] = [
    Step::Open(Err(ClientFault::State)),
    Step::Ask(&[], Err(ClientFault::State)),
    Step::Submit(ADD, Err(SubmitFault::Client(ClientFault::State))),
    Step::Close(Err(ClientFault::State)),
    Step::Unregister(Err(ClientFault::State)),
    Step::Resend(None),
    Step::GiveUp(false),
    Step::Register(Err(ClientFault::State)),
    Step::Feed(REGISTERED, Heard::Registered),
    Step::Register(Err(ClientFault::State)),
    Step::Fault(None),
];

/// While a reply is awaited, only requests on the connection are possible.
const WHILE_AWAITED: [Step<'static>; 8] = [
    Step::Open(Err(ClientFault::State)),
    Step::Ask(GET, Ok(GET_SENT_THIRD)),
    Step::Ask(GET, Err(ClientFault::State)),
    Step::Close(Err(ClientFault::State)),
    Step::Unregister(Err(ClientFault::State)),
    Step::Submit(ADD, Ok(ADD_SENT)),
    Step::Submit(ADD, Err(SubmitFault::Refused(Refused::Busy))),
    Step::Feed(ADDED, Heard::Accepted(REPLY_OF_5)),
];

/// After the end of the session nothing is possible.
const AFTER_THE_END: [Step<'static>; 8] = [
    Step::Unregister(Ok(UNREGISTER)),
    Step::Stage(None),
    Step::Register(Err(ClientFault::State)),
    Step::Open(Err(ClientFault::State)),
    Step::Ask(GET, Err(ClientFault::State)),
    Step::Submit(ADD, Err(SubmitFault::Client(ClientFault::State))),
    Step::Close(Err(ClientFault::State)),
    Step::Unregister(Err(ClientFault::State)),
];

/// An unconnected request has at least 2 bytes, and bit 7 of the first one is clear.
const NO_REQUESTS: [Step<'static>; 2] = [
    Step::Ask(b"\x0e", Err(ClientFault::Request)),
    Step::Ask(b"\x80\0", Err(ClientFault::Request)),
];

/// After giving up, a late reply is not accepted, and the next request has the next count.
const GIVING_UP: [Step<'static>; 12] = [
    Step::GiveUp(false),
    Step::Submit(ADD, Ok(ADD_SENT)),
    Step::GiveUp(true),
    Step::Stage(Some(Stage::GivenUp)),
    Step::GiveUp(false),
    Step::Resend(None),
    Step::Feed(ADDED, Heard::Nothing),
    Step::Submit(ADD, Ok(ADD_SENT_NEXT)),
    Step::Stage(Some(Stage::Waiting)),
    Step::Feed(ADDED, Heard::Nothing),
    Step::Submit(ADD, Err(SubmitFault::Refused(Refused::Busy))),
    Step::Close(Ok(CLOSE)),
];

/// A reply to an open with general status 0x01 and extended status 0x0113.
const REFUSED: &[u8] = b"\x6f\0\x20\0\x01\0\0\0\0\0\0\0\x02\0\0\0\0\0\0\0\0\0\0\0\
    \0\0\0\0\0\0\x02\0\0\0\0\0\xb2\0\x10\0\xd4\0\x01\x01\x13\x01\x01\0\x42\0\x78\x56\x34\x12\0\0";

/// The open again with context 3, and a reply without an additional word.
const OPEN_AGAIN: &[u8] = b"\x6f\0\x3e\0\x01\0\0\0\0\0\0\0\x03\0\0\0\0\0\0\0\0\0\0\0\
    \0\0\0\0\0\0\x02\0\0\0\0\0\xb2\0\x2e\0\
    \x54\x02\x20\x06\x24\x01\x0a\x0e\0\0\0\0\x44\x33\x22\x11\x01\0\x42\0\x78\x56\x34\x12\0\0\0\0\
    \x80\x84\x1e\0\xf4\x43\x80\x84\x1e\0\xf4\x43\xa3\x02\x20\x02\x24\x01";

const REFUSED_AGAIN: &[u8] = b"\x6f\0\x14\0\x01\0\0\0\0\0\0\0\x03\0\0\0\0\0\0\0\0\0\0\0\
    \0\0\0\0\0\0\x02\0\0\0\0\0\xb2\0\x04\0\xd4\0\x08\0";

/// After a refused open, the client can open again. The contexts go on.
const REFUSED_OPEN: [Step<'static>; 5] = [
    Step::Open(Ok(OPEN)),
    Step::Feed(REFUSED, Heard::Refused(1, 0x0113)),
    Step::Stage(None),
    Step::Open(Ok(OPEN_AGAIN)),
    Step::Feed(REFUSED_AGAIN, Heard::Refused(8, 0)),
];

const CLOSE_REFUSED: &[u8] = b"\x6f\0\x20\0\x01\0\0\0\0\0\0\0\x03\0\0\0\0\0\0\0\0\0\0\0\
    \0\0\0\0\0\0\x02\0\0\0\0\0\xb2\0\x10\0\xce\0\x01\x01\x07\x01\x01\0\x42\0\x78\x56\x34\x12\0\0";

/// After a refused close, the connection is closed all the same.
const REFUSED_CLOSE: [Step<'static>; 4] = [
    Step::Close(Ok(CLOSE)),
    Step::Feed(CLOSE_REFUSED, Heard::Refused(1, 0x0107)),
    Step::Stage(None),
    Step::Submit(ADD, Err(SubmitFault::Client(ClientFault::State))),
];

/// The state of a client, and the calls that follow.
struct Calls<'a> {
    name: &'static str,
    start: StartState,
    steps: &'a [Step<'a>],
}

static CALLS: [Calls<'static>; 9] = [
    Calls {
        name: "a connection from register to unregister",
        start: StartState::New,
        steps: &WHOLE,
    },
    Calls {
        name: "before the session",
        start: StartState::New,
        steps: &NOT_REGISTERED,
    },
    Calls {
        name: "while the session is awaited",
        start: StartState::AwaitsSession,
        steps: &REGISTERS_ONCE,
    },
    Calls {
        name: "while a reply is awaited",
        start: StartState::Opened,
        steps: &WHILE_AWAITED,
    },
    Calls {
        name: "after the end",
        start: StartState::Opened,
        steps: &AFTER_THE_END,
    },
    Calls {
        name: "forms of requests",
        start: StartState::Registered,
        steps: &NO_REQUESTS,
    },
    Calls {
        name: "giving up",
        start: StartState::Opened,
        steps: &GIVING_UP,
    },
    Calls {
        name: "an open that is refused",
        start: StartState::Registered,
        steps: &REFUSED_OPEN,
    },
    Calls {
        name: "a close that is refused",
        start: StartState::Opened,
        steps: &REFUSED_CLOSE,
    },
];

#[test]
fn calls_in_any_order(rt: HostRuntime) -> Result<(), Fail> {
    for row in &CALLS {
        let mut client = client_at(rt.alloc(), row.start)?;
        check(&rt, &mut client, row.name, row.steps);
    }
    Ok(())
}

const AT_THE_BOUND: [Step<'static>; 3] = [
    Step::Submit(ADD, Err(SubmitFault::Refused(Refused::TooManyAbandoned))),
    Step::Stage(Some(Stage::GivenUp)),
    Step::Close(Ok(CLOSE)),
];

/// After 65,535 requests that were given up, another is refused. The connection can still be closed.
#[test]
fn giving_up_to_the_bound(rt: HostRuntime) -> Result<(), Fail> {
    let mut client = opened(rt.alloc())?;
    for n in 0..65_535u32 {
        let taken = client.submit(ADD).is_ok();
        assert!(rt; taken && client.give_up(), "at {n}");
    }
    check(&rt, &mut client, "at the bound", &AT_THE_BOUND);
    Ok(())
}

/// A RegisterSession reply with 5 bytes of data instead of 4.
const LONGER_REGISTERED: &[u8] =
    b"\x65\0\x05\0\x01\0\0\0\0\0\0\0\x01\0\0\0\0\0\0\0\0\0\0\0\x01\0\0\0\0";

/// A success reply to an open with 25 bytes of data instead of 26. The lengths of frame and item agree.
const SHORTER_OPENED: &[u8] = b"\x6f\0\x2d\0\x01\0\0\0\0\0\0\0\x02\0\0\0\0\0\0\0\0\0\0\0\
    \0\0\0\0\0\0\x02\0\0\0\0\0\xb2\0\x1d\0\xd4\0\0\0\x01\0\0\0\x44\x33\x22\x11\
    \x01\0\x42\0\x78\x56\x34\x12\x80\x84\x1e\0\x80\x84\x1e\0\0";

/// The state of a client, the frame that comes, with some bytes replaced, and the fault that lasts.
struct IsBodyFault<'a> {
    start: StartState,
    frame: &'a [u8],
    changes: &'a [(usize, u8)],
    fault: ClientFault,
}

static FAULTY: [IsBodyFault<'static>; 9] = [
    // a status, in each reply that can be awaited
    IsBodyFault {
        start: StartState::AwaitsSession,
        frame: REGISTERED,
        changes: &[(8, 0x64)],
        fault: ClientFault::Status(100),
    },
    IsBodyFault {
        start: StartState::AwaitsConnection,
        frame: OPENED,
        changes: &[(9, 1)],
        fault: ClientFault::Status(256),
    },
    IsBodyFault {
        start: StartState::AwaitsReply,
        frame: GOT,
        changes: &[(8, 3)],
        fault: ClientFault::Status(3),
    },
    IsBodyFault {
        start: StartState::AwaitsItemAndEnd,
        frame: CLOSED,
        changes: &[(8, 1)],
        fault: ClientFault::Status(1),
    },
    // a header with a length over 65,511
    IsBodyFault {
        start: StartState::Opened,
        frame: UNREGISTER,
        changes: &[(2, 0xe8), (3, 0xff)],
        fault: ClientFault::TooLong,
    },
    // malformed
    IsBodyFault {
        start: StartState::AwaitsSession,
        frame: LONGER_REGISTERED,
        changes: &[],
        fault: ClientFault::Malformed,
    },
    IsBodyFault {
        start: StartState::AwaitsConnection,
        frame: SHORTER_OPENED,
        changes: &[],
        fault: ClientFault::Malformed,
    },
    IsBodyFault {
        start: StartState::AwaitsEnd,
        frame: CLOSED,
        changes: &[(40, 0xd4)],
        fault: ClientFault::Malformed,
    },
    IsBodyFault {
        start: StartState::AwaitsReply,
        frame: GOT,
        changes: &[(24, 1)],
        fault: ClientFault::Malformed,
    },
];

/// Asserts that a fault lasts: every call returns it, and no byte is taken.
fn lasts<A: Abort>(rt: &A, client: &mut Client, fault: ClientFault) {
    let steps = [
        Step::Fault(Some(fault)),
        Step::Register(Err(fault)),
        Step::Open(Err(fault)),
        Step::Ask(GET, Err(fault)),
        Step::Submit(ADD, Err(SubmitFault::Client(fault))),
        Step::Close(Err(fault)),
        Step::Unregister(Err(fault)),
        Step::Resend(None),
        Step::GiveUp(false),
        Step::Take(GOT, 0, Heard::Nothing),
        Step::Fault(Some(fault)),
    ];
    check(rt, client, "a fault lasts", &steps);
}

/// Asserts that the frame causes the fault, which lasts. All bytes of the frame are taken.
fn check_faulty<A: Abort>(rt: &A, alloc: Global, row: &IsBodyFault<'_>) -> Result<(), Fail> {
    let changed = with_bytes(alloc, row.frame, row.changes)?;
    let mut client = client_at(alloc, row.start)?;
    let hearing = hear(&mut client, &changed);
    check_heard(
        rt,
        "a fault",
        0,
        hearing,
        Some(changed.len()),
        Heard::Nothing,
    );
    lasts(rt, &mut client, row.fault);
    Ok(())
}

#[test]
fn faults_that_last(rt: HostRuntime) -> Result<(), Fail> {
    for row in &FAULTY {
        check_faulty(&rt, rt.alloc(), row)?;
    }
    Ok(())
}
