//! Exchanges over readers and writers that fail, in writes of one byte, and with requests that no command makes.

ghost use Rattle.std.specs.Prelude.{None};

use cip_class3::Refused;
use cip_objects::ReplyBuf;
use enip_client::{AskFault, Client, ClientFault, ask};
use enip_wire::{Failed, MemorySink, MemorySource, Sink, Source};
use std::alloc::Global;
use std::process::Abort;
use std::test::Fail;
use test_fixtures::client::{
    ADD, ADD_SENT, ADDED, CLOSE, CLOSED, GET, GET_SENT, GOT, OPEN, OPENED, REGISTER, REGISTERED,
    REPLY_OF_5, StartState, UNREGISTER, VENDOR, client_at, joined, made,
};

/// A reader at its end, with a count of its reads.
#[derive(Drop)]
struct Counted {
    reads: u64,
}

impl Source for Counted {
    ghost left = { λ s. None };

    ghost moment = { λ s. 0 };

    ghost reads = { λ s. s.reads };

    ghost failures = { λ s. 0 };

    fn read(&mut self, into: &mut [u8]) -> Result<usize, Failed> {
        self.reads += 1;
        Ok(0)
    }

    fn moment(&self) -> u64 {
        0
    }

    fn reads(&self) -> u64 {
        self.reads
    }

    fn failures(&self) -> u64 {
        0
    }
}

/// An exchange over memory: the state of the client, the frames that come, the greatest size of a read or a write and
/// after how many it fails, the request, the result, and how many bytes of the frames are sent.
struct Exchange<'a> {
    name: &'static str,
    start: StartState,
    heard: &'a [&'a [u8]],
    largest_read: usize,
    reads: u64,
    largest_write: usize,
    writes: u64,
    request: &'a [u8],
    connected: bool,
    expected: Result<(), AskFault>,
    reply: &'a [u8],
    sent: &'a [&'a [u8]],
    count: usize,
}

/// An exchange in which nothing fails.
const WELL: Exchange<'static> = Exchange {
    name: "nothing fails",
    start: StartState::New,
    heard: &[REGISTERED, GOT],
    largest_read: 4_096,
    reads: u64::MAX,
    largest_write: 4_096,
    writes: u64::MAX,
    request: GET,
    connected: false,
    expected: Ok(()),
    reply: VENDOR,
    sent: &[REGISTER, GET_SENT, UNREGISTER],
    count: 100,
};

/// A request whose service has bit 7 set.
const NO_REQUEST: &[u8] = b"\xb2\x02\x20\x64\x24\x01";

static EXCHANGES: [Exchange<'static>; 10] = [
    WELL,
    Exchange {
        name: "each read and each write has one byte",
        heard: &[REGISTERED, OPENED, ADDED, CLOSED],
        largest_read: 1,
        largest_write: 1,
        request: ADD,
        connected: true,
        reply: REPLY_OF_5,
        sent: &[REGISTER, OPEN, ADD_SENT, CLOSE, UNREGISTER],
        count: 256,
        ..WELL
    },
    Exchange {
        name: "no request, on a connection",
        heard: &[REGISTERED, OPENED],
        request: NO_REQUEST,
        connected: true,
        expected: Err(AskFault::Submit(Refused::NoRequest)),
        reply: &[],
        sent: &[REGISTER, OPEN],
        count: 114,
        ..WELL
    },
    Exchange {
        name: "no request, without a connection",
        request: NO_REQUEST,
        expected: Err(AskFault::Client(ClientFault::Request)),
        reply: &[],
        count: 28,
        ..WELL
    },
    Exchange {
        name: "a client in use: nothing is read or written",
        start: StartState::AwaitsSession,
        reads: 0,
        writes: 0,
        expected: Err(AskFault::Client(ClientFault::State)),
        reply: &[],
        count: 0,
        ..WELL
    },
    Exchange {
        name: "a writer of 10 bytes a call fails after 0",
        largest_write: 10,
        writes: 0,
        expected: Err(AskFault::Write),
        reply: &[],
        count: 0,
        ..WELL
    },
    Exchange {
        name: "a writer of 10 bytes a call fails after 1",
        largest_write: 10,
        writes: 1,
        expected: Err(AskFault::Write),
        reply: &[],
        count: 10,
        ..WELL
    },
    Exchange {
        name: "a writer of 10 bytes a call fails after 3",
        largest_write: 10,
        writes: 3,
        expected: Err(AskFault::Write),
        reply: &[],
        count: 28,
        ..WELL
    },
    Exchange {
        name: "a writer of 10 bytes a call fails after 4",
        largest_write: 10,
        writes: 4,
        expected: Err(AskFault::Write),
        reply: &[],
        count: 38,
        ..WELL
    },
    Exchange {
        name: "a reader of 30 bytes a call fails at its second",
        largest_read: 30,
        reads: 1,
        expected: Err(AskFault::Read),
        reply: &[],
        count: 76,
        ..WELL
    },
];

/// Asserts the reply, and what was sent.
fn check_texts<A: Abort>(rt: &A, row: &Exchange<'_>, reply: &[u8], written: &[u8], sent: &[u8]) {
    assert_eq!(rt; reply, row.reply, "{}", row.name);
    assert_eq!(rt; Some(written), sent.get(..row.count), "{}", row.name);
}

/// Sends the request of a row over any reader and writer.
fn asked<A: Abort, R: Source, W: Sink>(
    rt: &A,
    client: &mut Client,
    reader: &mut R,
    writer: &mut W,
    row: &Exchange<'_>,
    reply: &mut ReplyBuf,
) -> Result<(), AskFault> {
    assert!(rt; reader.failures() < u64::MAX && writer.failures() < u64::MAX);
    ask(client, reader, writer, row.request, row.connected, reply)
}

/// Makes the exchange of a row, and asserts its result, its reply and what was sent.
fn check_devices<A: Abort>(
    rt: &A,
    client: &mut Client,
    row: &Exchange<'_>,
    heard: &[u8],
    sent: &[u8],
) {
    assert!(rt; 0 < row.largest_read && 0 < row.largest_write);
    let mut room = [0; 400];
    let mut reader = MemorySource::new(heard, &[])
        .with_largest_size(row.largest_read)
        .with_failure_after(row.reads);
    let mut writer = MemorySink::new(&mut room)
        .with_largest_size(row.largest_write)
        .with_failure_after(row.writes);
    let mut reply = ReplyBuf::new();
    let expected = asked(rt, client, &mut reader, &mut writer, row, &mut reply);
    assert_eq!(rt; expected, row.expected, "{}", row.name);
    check_texts(rt, row, reply.as_slice(), writer.written(), sent);
}

fn check_exchange<A: Abort>(rt: &A, alloc: Global, row: &Exchange<'_>) -> Result<(), Fail> {
    let heard = joined(alloc, row.heard)?;
    let sent = joined(alloc, row.sent)?;
    let mut client = client_at(alloc, row.start)?;
    check_devices(rt, &mut client, row, heard.as_slice(), sent.as_slice());
    Ok(())
}

#[test]
fn exchanges_over_memory(rt: HostRuntime) -> Result<(), Fail> {
    for row in &EXCHANGES {
        check_exchange(&rt, rt.alloc(), row)?;
    }
    Ok(())
}

#[test]
fn a_reader_that_counts_no_further_read(rt: HostRuntime) -> Result<(), Fail> {
    let mut room = [0; 200];
    let mut client = made(rt.alloc())?;
    let mut writer = MemorySink::new(&mut room);
    let mut reply = ReplyBuf::new();
    let asked = ask(
        &mut client,
        &mut Counted { reads: u64::MAX },
        &mut writer,
        GET,
        false,
        &mut reply,
    );
    assert_eq!(rt; asked, Err(AskFault::Spent));
    assert_eq!(rt; writer.written(), REGISTER);
    Ok(())
}
