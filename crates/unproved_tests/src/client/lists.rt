//! The lists of a device: each field, each refusal, and exchanges over readers and writers that fail.

ghost use Rattle.std.specs.Prelude.{None};

use enip_client::{
    AskFault, ClientFault, IdentityView, LONGEST_SENT, ListCommand, ListEntries, ListEntry, Sent,
    ServiceView, ask_list, read_list, write_list,
};
use enip_wire::{Failed, FrameReader, MemorySink, MemorySource, Sink, Source};
use std::alloc::Global;
use std::process::Abort;
use std::test::Fail;

/// The requests.
const LIST_IDENTITY: &[u8] = b"\x63\0\0\0\0\0\0\0\0\0\0\0\0\0\0\0\0\0\0\0\0\0\0\0";

const LIST_SERVICES: &[u8] = b"\x04\0\0\0\0\0\0\0\0\0\0\0\0\0\0\0\0\0\0\0\0\0\0\0";

/// An identity with a different value in each field.
const PRESS: IdentityView<'static> = IdentityView {
    version: 1,
    family: 2,
    port: 44_818,
    address: [192, 168, 1, 20],
    vendor: 0x1234,
    device_type: 0x002b,
    product_code: 0x0506,
    major: 7,
    minor: 8,
    status: 0x0930,
    serial: 0x0102_0304,
    name: b"Press",
    state: 3,
};

/// Its item and its answer.
const PRESS_ITEM: &[u8] = b"\x0c\0\x27\0\x01\0\0\x02\xaf\x12\xc0\xa8\x01\x14\0\0\0\0\0\0\0\0\
    \x34\x12\x2b\0\x06\x05\x07\x08\x30\x09\x04\x03\x02\x01\x05Press\x03";

const PRESS_ANSWER: &[u8] = b"\x63\0\x2d\0\0\0\0\0\0\0\0\0\0\0\0\0\0\0\0\0\0\0\0\0\
    \x01\0\x0c\0\x27\0\x01\0\0\x02\xaf\x12\xc0\xa8\x01\x14\0\0\0\0\0\0\0\0\
    \x34\x12\x2b\0\x06\x05\x07\x08\x30\x09\x04\x03\x02\x01\x05Press\x03";

const COMMUNICATIONS: ServiceView<'static> = ServiceView {
    version: 1,
    flags: 0x0120,
    name: b"Communications",
};

/// An answer: command, status, context and data, and what is read from it.
struct Answer<'a> {
    name: &'static str,
    command: ListCommand,
    number: u8,
    status: u8,
    context: u8,
    data: &'a [&'a [u8]],
    read: Result<&'a [ListEntry<'a>], ClientFault>,
}

const IDENTITY: Answer<'static> = Answer {
    name: "one device",
    command: ListCommand::Identity,
    number: 0x63,
    status: 0,
    context: 0,
    data: &[b"\x01\0", PRESS_ITEM],
    read: Ok(&[ListEntry::Identity(PRESS)]),
};

const MALFORMED: Answer<'static> = Answer {
    read: Err(ClientFault::Malformed),
    ..IDENTITY
};

const SERVICES: Answer<'static> = Answer {
    name: "one service",
    command: ListCommand::Services,
    number: 0x04,
    data: &[b"\x01\0\0\x01\x14\0\x01\0\x20\x01Communications\0\0"],
    read: Ok(&[ListEntry::Service(COMMUNICATIONS)]),
    ..IDENTITY
};

/// Answers to ListIdentity.
static IDENTITIES: [Answer<'static>; 6] = [
    IDENTITY,
    Answer {
        name: "another family, and a filling that is not zeros",
        data: &[
            b"\x01\0\x0c\0\x27\0\x01\0\x01\x03\xaf\x12\xc0\xa8\x01\x14\x11\x12\x13\x14\x15\x16\x17\x18",
            b"\x34\x12\x2b\0\x06\x05\x07\x08\x30\x09\x04\x03\x02\x01\x05Press\x03",
        ],
        read: Ok(&[ListEntry::Identity(IdentityView {
            family: 0x0103,
            ..PRESS
        })]),
        ..IDENTITY
    },
    Answer {
        name: "a device without a name",
        data: &[
            b"\x01\0\x0c\0\x22\0\x01\0\0\x02\xaf\x12\xc0\xa8\x01\x14\0\0\0\0\0\0\0\0",
            b"\x34\x12\x2b\0\x06\x05\x07\x08\x30\x09\x04\x03\x02\x01\0\xff",
        ],
        read: Ok(&[ListEntry::Identity(IdentityView {
            name: b"",
            state: 0xff,
            ..PRESS
        })]),
        ..IDENTITY
    },
    Answer {
        name: "two devices",
        data: &[b"\x02\0", PRESS_ITEM, PRESS_ITEM],
        read: Ok(&[ListEntry::Identity(PRESS), ListEntry::Identity(PRESS)]),
        ..IDENTITY
    },
    Answer {
        name: "items of other types around a device",
        data: &[
            b"\x04\0\x0b\0\0\0",
            b"\x0d\0\x02\0\x01\x02",
            PRESS_ITEM,
            b"\x0c\x01\x01\0\x01",
        ],
        ..IDENTITY
    },
    Answer {
        name: "no item",
        data: &[b"\0\0"],
        read: Ok(&[]),
        ..IDENTITY
    },
];

/// Answers to ListServices.
static SERVICES_READ: [Answer<'static>; 5] = [
    SERVICES,
    Answer {
        name: "a name of 16 bytes",
        data: &[b"\x01\0\0\x01\x14\0\x02\x03\x04\x05Sixteen or less."],
        read: Ok(&[ListEntry::Service(ServiceView {
            version: 0x0302,
            flags: 0x0504,
            name: b"Sixteen or less.",
        })]),
        ..SERVICES
    },
    Answer {
        name: "bytes behind the first NUL",
        data: &[b"\x01\0\0\x01\x14\0\x01\0\x20\x01Communications\0x"],
        ..SERVICES
    },
    Answer {
        name: "two services, one without a name",
        data: &[
            b"\x02\0\0\x01\x14\0\x01\0\x20\x01\0ommunications\0\0",
            b"\0\x01\x14\0\x01\0\x20\x01Communications\0\0",
        ],
        read: Ok(&[
            ListEntry::Service(ServiceView {
                name: b"",
                ..COMMUNICATIONS
            }),
            ListEntry::Service(COMMUNICATIONS),
        ]),
        ..SERVICES
    },
    Answer {
        name: "a device among the services",
        data: &[b"\x01\0", PRESS_ITEM],
        read: Ok(&[]),
        ..SERVICES
    },
];

/// Answers that are refused.
static REFUSED: [Answer<'static>; 20] = [
    Answer {
        name: "the state is missing",
        data: &[
            b"\x01\0\x0c\0\x26\0\x01\0\0\x02\xaf\x12\xc0\xa8\x01\x14\0\0\0\0\0\0\0\0",
            b"\x34\x12\x2b\0\x06\x05\x07\x08\x30\x09\x04\x03\x02\x01\x05Press",
        ],
        ..MALFORMED
    },
    Answer {
        name: "a byte behind the state",
        data: &[
            b"\x01\0\x0c\0\x28\0\x01\0\0\x02\xaf\x12\xc0\xa8\x01\x14\0\0\0\0\0\0\0\0",
            b"\x34\x12\x2b\0\x06\x05\x07\x08\x30\x09\x04\x03\x02\x01\x05Press\x03\0",
        ],
        ..MALFORMED
    },
    Answer {
        name: "a name that is longer than it says",
        data: &[
            b"\x01\0\x0c\0\x27\0\x01\0\0\x02\xaf\x12\xc0\xa8\x01\x14\0\0\0\0\0\0\0\0",
            b"\x34\x12\x2b\0\x06\x05\x07\x08\x30\x09\x04\x03\x02\x01\x04Press\x03",
        ],
        ..MALFORMED
    },
    Answer {
        name: "a name that goes past the item",
        data: &[
            b"\x01\0\x0c\0\x27\0\x01\0\0\x02\xaf\x12\xc0\xa8\x01\x14\0\0\0\0\0\0\0\0",
            b"\x34\x12\x2b\0\x06\x05\x07\x08\x30\x09\x04\x03\x02\x01\xffPress\x03",
        ],
        ..MALFORMED
    },
    Answer {
        name: "an item that ends before the name",
        data: &[
            b"\x01\0\x0c\0\x20\0\x01\0\0\x02\xaf\x12\xc0\xa8\x01\x14\0\0\0\0\0\0\0\0",
            b"\x34\x12\x2b\0\x06\x05\x07\x08\x30\x09\x04\x03\x02\x01",
        ],
        ..MALFORMED
    },
    Answer {
        name: "an item that ends behind the name's length",
        data: &[
            b"\x01\0\x0c\0\x21\0\x01\0\0\x02\xaf\x12\xc0\xa8\x01\x14\0\0\0\0\0\0\0\0",
            b"\x34\x12\x2b\0\x06\x05\x07\x08\x30\x09\x04\x03\x02\x01\0",
        ],
        ..MALFORMED
    },
    Answer {
        name: "an item of no byte",
        data: &[b"\x01\0\x0c\0\0\0"],
        ..MALFORMED
    },
    Answer {
        name: "the second of two devices is none",
        data: &[b"\x02\0", PRESS_ITEM, b"\x0c\0\0\0"],
        ..MALFORMED
    },
    Answer {
        name: "a count that is too large",
        data: &[b"\x02\0", PRESS_ITEM],
        ..MALFORMED
    },
    Answer {
        name: "a count that is too small",
        data: &[b"\x01\0", PRESS_ITEM, PRESS_ITEM],
        ..MALFORMED
    },
    Answer {
        name: "a count of no item before one",
        data: &[b"\0\0", PRESS_ITEM],
        ..MALFORMED
    },
    Answer {
        name: "an item of another type that is cut short",
        data: &[b"\x02\0", PRESS_ITEM, b"\x0b\0\x02\0\x01"],
        ..MALFORMED
    },
    Answer {
        name: "no data",
        data: &[],
        ..MALFORMED
    },
    Answer {
        name: "the command of another list",
        number: 0x64,
        ..MALFORMED
    },
    Answer {
        name: "another context",
        context: 1,
        ..MALFORMED
    },
    Answer {
        name: "a status",
        status: 1,
        read: Err(ClientFault::Status(1)),
        ..IDENTITY
    },
    Answer {
        name: "a status without data",
        status: 8,
        data: &[],
        read: Err(ClientFault::Status(8)),
        ..IDENTITY
    },
    Answer {
        name: "a service of 19 bytes",
        data: &[b"\x01\0\0\x01\x13\0\x01\0\x20\x01Communications\0"],
        read: Err(ClientFault::Malformed),
        ..SERVICES
    },
    Answer {
        name: "a service of 21 bytes",
        data: &[b"\x01\0\0\x01\x15\0\x01\0\x20\x01Communications\0\0\0"],
        read: Err(ClientFault::Malformed),
        ..SERVICES
    },
    Answer {
        name: "a list of devices where services are asked for",
        number: 0x63,
        read: Err(ClientFault::Malformed),
        ..SERVICES
    },
];

/// The bytes of an answer.
fn bytes_of(alloc: Global, answer: &Answer<'_>) -> Result<Vec<u8>, Fail> {
    let mut data = Vec::new(alloc);
    for part in answer.data {
        data.extend_from_slice(part)?;
    }
    let size = u8::try_from(data.len()).ok().ok_or("short data")?;
    let mut bytes = Vec::new(alloc);
    bytes.extend_from_slice(&[
        answer.number,
        0,
        size,
        0,
        0,
        0,
        0,
        0,
        answer.status,
        0,
        0,
        0,
    ])?;
    bytes.extend_from_slice(&[answer.context, 0, 0, 0, 0, 0, 0, 0, 0, 0, 0, 0])?;
    bytes.extend_from_slice(data.as_slice())?;
    Ok(bytes)
}

/// Asserts that exactly these entries are read.
fn check_entries<A: Abort>(
    rt: &A,
    name: &str,
    mut entries: ListEntries<'_>,
    wanted: &[ListEntry<'_>],
) {
    for entry in wanted {
        assert_eq!(rt; entries.next(), Some(*entry), "{name}");
    }
    assert_eq!(rt; entries.next(), None, "{name}");
    assert_eq!(rt; entries.next(), None, "{name}");
}

fn check_answer<A: Abort>(rt: &A, alloc: Global, answer: &Answer<'_>) -> Result<(), Fail> {
    let bytes = bytes_of(alloc, answer)?;
    match (read_list(answer.command, bytes.as_slice()), answer.read) {
        (Ok(entries), Ok(wanted)) => check_entries(rt, answer.name, entries, wanted),
        (read, wanted) => assert_eq!(rt; read.err(), wanted.err(), "{}", answer.name),
    }
    Ok(())
}

#[test]
fn answers_that_are_read(rt: HostRuntime) -> Result<(), Fail> {
    for answer in &IDENTITIES {
        check_answer(&rt, rt.alloc(), answer)?;
    }
    for answer in &SERVICES_READ {
        check_answer(&rt, rt.alloc(), answer)?;
    }
    Ok(())
}

#[test]
fn answers_of_another_shape(rt: HostRuntime) -> Result<(), Fail> {
    for answer in &REFUSED {
        check_answer(&rt, rt.alloc(), answer)?;
    }
    Ok(())
}

/// A truncated answer is malformed, and so is an answer with a byte more.
#[test]
fn bytes_that_are_not_one_frame(rt: HostRuntime) -> Result<(), Fail> {
    for size in 0..PRESS_ANSWER.len() {
        let read = read_list(ListCommand::Identity, &PRESS_ANSWER[..size]);
        assert_eq!(rt; read.err(), Some(ClientFault::Malformed));
    }
    let mut bytes = Vec::from_slice(rt.alloc(), PRESS_ANSWER)?;
    bytes.push(0)?;
    let read = read_list(ListCommand::Identity, bytes.as_slice());
    assert_eq!(rt; read.err(), Some(ClientFault::Malformed));
    let long = b"\x63\0\xe8\xff\0\0\0\0\0\0\0\0\0\0\0\0\0\0\0\0\0\0\0\0";
    let read = read_list(ListCommand::Identity, long);
    assert_eq!(rt; read.err(), Some(ClientFault::TooLong));
    Ok(())
}

/// The request of a list.
fn sent_for(command: ListCommand) -> Sent {
    let mut sent = Sent::new();
    sent.push(0xff);
    write_list(command, &mut sent);
    sent
}

#[test]
fn requests_in_place_of_what_was_there(rt: HostRuntime) {
    assert!(rt; LONGEST_SENT >= LIST_IDENTITY.len());
    assert_eq!(rt; sent_for(ListCommand::Identity).as_slice(), LIST_IDENTITY);
    assert_eq!(rt; sent_for(ListCommand::Services).as_slice(), LIST_SERVICES);
}

/// A reader at its end, with a count of its reads.
#[derive(Drop)]
struct Counted {
    reads: u64,
}

impl Source for Counted {
    ghost left = { λ s. None };

    ghost moment = { λ s. 0 };

    ghost reads = { λ s. s.reads };

    ghost failures = { λ s. 0 };

    fn read(&mut self, into: &mut [u8]) -> Result<usize, Failed> {
        self.reads += 1;
        Ok(0)
    }

    fn moment(&self) -> u64 {
        0
    }

    fn reads(&self) -> u64 {
        self.reads
    }

    fn failures(&self) -> u64 {
        0
    }
}

/// An exchange over memory: the bytes that come, the greatest size of a read and after how many it fails, after how
/// many writes of 10 bytes the writer fails, the result, how many bytes of the request are sent, and how many reads
/// are made.
struct Exchange<'a> {
    name: &'static str,
    heard: &'a [u8],
    largest_read: usize,
    reads: u64,
    writes: u64,
    expected: Result<(), AskFault>,
    count: usize,
    made: u64,
}

const WELL: Exchange<'static> = Exchange {
    name: "nothing fails",
    heard: PRESS_ANSWER,
    largest_read: 4_096,
    reads: u64::MAX,
    writes: u64::MAX,
    expected: Ok(()),
    count: 24,
    made: 1,
};

static EXCHANGES: [Exchange<'static>; 10] = [
    WELL,
    Exchange {
        name: "a byte a read",
        largest_read: 1,
        made: 69,
        ..WELL
    },
    Exchange {
        name: "a read that goes on behind the frame",
        heard: b"\x63\0\x02\0\0\0\0\0\0\0\0\0\0\0\0\0\0\0\0\0\0\0\0\0\0\0\x63\0\x02\0",
        ..WELL
    },
    Exchange {
        name: "the input ends",
        heard: b"",
        expected: Err(AskFault::Ended),
        ..WELL
    },
    Exchange {
        name: "the input ends within the frame",
        heard: b"\x63\0\x02\0\0\0\0\0\0\0\0\0\0\0\0\0\0\0\0\0\0\0\0\0\0",
        expected: Err(AskFault::Ended),
        made: 2,
        ..WELL
    },
    Exchange {
        name: "the second read fails",
        largest_read: 30,
        reads: 1,
        expected: Err(AskFault::Read),
        made: 2,
        ..WELL
    },
    Exchange {
        name: "the third write fails",
        writes: 2,
        expected: Err(AskFault::Write),
        count: 20,
        made: 0,
        ..WELL
    },
    Exchange {
        name: "a frame that is too long",
        heard: b"\x63\0\xe8\xff\0\0\0\0\0\0\0\0\0\0\0\0\0\0\0\0\0\0\0\0",
        expected: Err(AskFault::Client(ClientFault::TooLong)),
        ..WELL
    },
    Exchange {
        name: "a status",
        heard: b"\x63\0\0\0\0\0\0\0\x01\0\0\0\0\0\0\0\0\0\0\0\0\0\0\0",
        expected: Err(AskFault::Client(ClientFault::Status(1))),
        ..WELL
    },
    Exchange {
        name: "the first frame is not an answer",
        heard: b"\x65\0\0\0\0\0\0\0\0\0\0\0\0\0\0\0\0\0\0\0\0\0\0\0\x63\0\x02\0",
        expected: Err(AskFault::Client(ClientFault::Malformed)),
        ..WELL
    },
];

/// Asks for the list over any reader and writer.
fn asked<A: Abort, R: Source, W: Sink>(
    rt: &A,
    frames: &mut FrameReader,
    reader: &mut R,
    writer: &mut W,
) -> Result<(), AskFault> {
    assert!(rt; reader.failures() < u64::MAX && writer.failures() < u64::MAX);
    ask_list(ListCommand::Identity, frames, reader, writer)?;
    Ok(())
}

fn check_exchange<A: Abort>(rt: &A, alloc: Global, row: &Exchange<'_>) -> Result<(), Fail> {
    assert!(rt; 0 < row.largest_read);
    let mut room = [0; 400];
    let mut frames = FrameReader::new(alloc)?;
    // what the frame reader held before is dropped
    frames.push(b"\x65\0\x04\0");
    let mut reader = MemorySource::new(row.heard, &[])
        .with_largest_size(row.largest_read)
        .with_failure_after(row.reads);
    let mut writer = MemorySink::new(&mut room)
        .with_largest_size(10)
        .with_failure_after(row.writes);
    let expected = asked(rt, &mut frames, &mut reader, &mut writer);
    assert_eq!(rt; expected, row.expected, "{}", row.name);
    assert_eq!(rt;
        Some(writer.written()),
        LIST_IDENTITY.get(..row.count),
        "{}",
        row.name
    );
    assert_eq!(rt; reader.reads(), row.made, "{}", row.name);
    Ok(())
}

#[test]
fn exchanges_over_memory(rt: HostRuntime) -> Result<(), Fail> {
    for row in &EXCHANGES {
        check_exchange(&rt, rt.alloc(), row)?;
    }
    Ok(())
}

#[test]
fn what_came_is_lent(rt: HostRuntime) -> Result<(), Fail> {
    let mut room = [0; 24];
    let mut frames = FrameReader::new(rt.alloc())?;
    let mut reader = MemorySource::new(PRESS_ANSWER, &[]).with_largest_size(7);
    let mut writer = MemorySink::new(&mut room);
    match ask_list(ListCommand::Identity, &mut frames, &mut reader, &mut writer) {
        Ok(entries) => check_entries(&rt, "over a stream", entries, &[ListEntry::Identity(PRESS)]),
        Err(_) => return Err(Fail::from("an answer")),
    }
    Ok(())
}

#[test]
fn a_reader_that_counts_no_further_read(rt: HostRuntime) -> Result<(), Fail> {
    let mut room = [0; 24];
    let mut frames = FrameReader::new(rt.alloc())?;
    let mut writer = MemorySink::new(&mut room);
    let asked = ask_list(
        ListCommand::Services,
        &mut frames,
        &mut Counted { reads: u64::MAX },
        &mut writer,
    );
    assert_eq!(rt; asked.err(), Some(AskFault::Spent));
    assert_eq!(rt; writer.written(), LIST_SERVICES);
    Ok(())
}
