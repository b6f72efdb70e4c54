//! `enip get`, `set` and `call` over memory.

use super::exchanges::{
    ADD, Answer, Asked, FAILING, GET, ITEMS, LENGTHS, NO_DIGITS, OPENED, REFUSED, REGISTERED,
    REPLIES, VENDOR,
};
use super::streams::BrokenWriter;
use cip_message::{Path, ReplyBuf};
use cip_route::Route;
use enip_client::{ClientFault, USUAL_WANTS};
use enip_commands::{
    DIGITS, DeviceRequest, ReplyOutcome, RequestFailure, exchange_with, show_refusal, show_reply,
};
use enip_wire::{MemorySink, MemorySource, Sink, Source};
use std::alloc::Global;
use std::io::Write;
use std::process::Abort;
use std::test::Fail;

/// Appends these texts.
fn push_all(answers: &mut Vec<u8>, texts: &[&[u8]]) -> Result<(), Fail> {
    for text in texts {
        answers.extend_from_slice(text)?;
    }
    Ok(())
}

/// The fixed bytes of a SendRRData, around its length, its context, and the length of its reply.
const REPLY_COMMAND: &[u8] = b"\x6f\0";

const REPLY_SESSION: &[u8] = b"\0\x01\0\0\0\0\0\0\0";

const REPLY_PACKET: &[u8] = b"\0\0\0\0\0\0\0\0\0\0\0\0\0\0\0\0\0\x02\0\0\0\0\0\xb2\0";

fn push_reply(answers: &mut Vec<u8>, context: u8, reply: &[u8]) -> Result<(), Fail> {
    let count = u8::try_from(reply.len()).ok().ok_or("a short reply")?;
    let length = count.checked_add(16).ok_or("a short reply")?;
    let texts: [&[u8]; 7] = [
        REPLY_COMMAND,
        &[length],
        REPLY_SESSION,
        &[context],
        REPLY_PACKET,
        &[count, 0],
        reply,
    ];
    push_all(answers, &texts)
}

/// The fixed bytes of a SendUnitData, around its length and the length of its item.
const ITEM_COMMAND: &[u8] = b"\x70\0";

const ITEM_PACKET: &[u8] =
    b"\0\x01\0\0\0\0\0\0\0\0\0\0\0\0\0\0\0\0\0\0\0\0\0\0\0\0\0\x02\0\xa1\0\x04\0\
    \x44\x33\x22\x11\xb1\0";

fn push_item(answers: &mut Vec<u8>, item: &[u8]) -> Result<(), Fail> {
    let count = u8::try_from(item.len()).ok().ok_or("a short item")?;
    let length = count.checked_add(20).ok_or("a short item")?;
    let texts: [&[u8]; 5] = [ITEM_COMMAND, &[length], ITEM_PACKET, &[count, 0], item];
    push_all(answers, &texts)
}

/// The answers, joined.
fn bytes_of(alloc: Global, answers: &[Answer<'_>]) -> Result<Vec<u8>, Fail> {
    let mut bytes = Vec::new(alloc);
    for answer in answers {
        match *answer {
            Answer::Bytes(text) => bytes.extend_from_slice(text)?,
            Answer::Reply(context, reply) => push_reply(&mut bytes, context, reply)?,
            Answer::Item(item) => push_item(&mut bytes, item)?,
        }
    }
    Ok(bytes)
}

/// Sends a request over any reader and writer, and prints the reply, or why a connection was not opened or not closed.
fn asked_over<R: Source, W: Sink, O: Write + Drop>(
    alloc: Global,
    reader: &mut R,
    writer: &mut W,
    request: &[u8],
    connected: bool,
    output: O,
) -> Result<Result<ReplyOutcome, RequestFailure>, Fail> {
    if reader.failures() == u64::MAX || writer.failures() == u64::MAX {
        return Err(Fail::from("devices that can fail once more"));
    }
    let mut reply = ReplyBuf::new();
    let asked = exchange_with(
        alloc,
        &USUAL_WANTS,
        reader,
        writer,
        &Route::new(),
        request,
        connected,
        &mut reply,
    );
    Ok(match asked {
        Ok(()) => show_reply(alloc, output, DIGITS, reply.as_slice()),
        Err(RequestFailure::Client(ClientFault::Refused(status, extended))) => {
            show_refusal(alloc, output, DIGITS, status, extended)
        }
        Err(failure) => Err(failure),
    })
}

/// The exit status of the program. If no reply was printed, also prints the reason on `errors`.
fn reported<E: Write + Drop>(told: Result<ReplyOutcome, RequestFailure>, mut errors: E) -> u8 {
    match told {
        Ok(replied) => replied.exit_status(),
        Err(failure) => {
            let _ = writeln!(errors, "{failure}");
            failure.exit_status()
        }
    }
}

/// The same for a row. Returns the exit status.
fn run<R: Source, W: Sink>(
    alloc: Global,
    question: &DeviceRequest<'_>,
    connected: bool,
    reader: &mut R,
    writer: &mut W,
    output: &mut Vec<u8>,
    errors: &mut Vec<u8>,
) -> Result<u8, Fail> {
    let told = match question.request(alloc) {
        Ok(request) => {
            let request = request.as_slice();
            asked_over(alloc, reader, writer, request, connected, output)?
        }
        Err(stop) => Err(stop),
    };
    Ok(reported(told, errors))
}

/// Asserts what was printed and sent.
fn check_texts<A: Abort>(
    rt: &A,
    alloc: Global,
    row: &Asked<'_>,
    output: &[u8],
    errors: &[u8],
    sent: &[u8],
) -> Result<(), Fail> {
    assert_eq!(rt; output, row.output.as_bytes(), "{}", row.name);
    assert_eq!(rt; errors, row.errors.as_bytes(), "{}", row.name);
    if let Some(texts) = row.sent {
        let mut wanted = Vec::new(alloc);
        push_all(&mut wanted, texts)?;
        assert_eq!(rt; sent, wanted.as_slice(), "{}", row.name);
    }
    Ok(())
}

/// Runs a row over memory. A read returns at most 7 bytes.
fn check_asked<A: Abort>(rt: &A, alloc: Global, row: &Asked<'_>) -> Result<(), Fail> {
    let answers = bytes_of(alloc, row.answers)?;
    let mut taken = vec![in alloc; 0u8; row.room]?;
    let mut source = MemorySource::new(answers.as_slice(), &[]).with_largest_size(7);
    let mut sink = MemorySink::new(taken.as_mut_slice());
    let mut output = Vec::new(alloc);
    let mut errors = Vec::new(alloc);
    let status = run(
        alloc,
        &row.question,
        row.connected,
        &mut source,
        &mut sink,
        &mut output,
        &mut errors,
    )?;
    assert_eq!(rt; status, row.status, "{}", row.name);
    check_texts(
        rt,
        alloc,
        row,
        output.as_slice(),
        errors.as_slice(),
        sink.written(),
    )
}

#[test]
fn exchanges_over_memory(rt: HostRuntime) -> Result<(), Fail> {
    for rows in [
        REPLIES.as_slice(),
        ITEMS.as_slice(),
        REFUSED.as_slice(),
        FAILING.as_slice(),
    ] {
        for row in rows {
            check_asked(&rt, rt.alloc(), row)?;
        }
    }
    Ok(())
}

#[test]
fn exchanges_that_fail_without_a_connection(rt: HostRuntime) -> Result<(), Fail> {
    for row in &FAILING {
        let row = Asked {
            connected: false,
            ..*row
        };
        check_asked(&rt, rt.alloc(), &row)?;
    }
    Ok(())
}

#[test]
fn data_that_are_no_digits(rt: HostRuntime) -> Result<(), Fail> {
    for digits in NO_DIGITS {
        let row = Asked {
            name: digits,
            question: DeviceRequest { digits, ..ADD },
            answers: &[Answer::Bytes(REGISTERED)],
            status: 2,
            output: "",
            errors: "hex\n",
            sent: Some(&[]),
            ..GET
        };
        check_asked(&rt, rt.alloc(), &row)?;
    }
    Ok(())
}

/// The hexadecimal digits of this many zero bytes.
fn zeros(alloc: Global, count: usize) -> Result<String, Fail> {
    let mut digits = String::new(alloc);
    for _ in 0..count {
        digits.push_str("00")?;
    }
    Ok(digits)
}

/// The answers of a device that registers a session, opens a connection if `connected` is set, and then answers no
/// more.
fn first_answers(connected: bool) -> &'static [Answer<'static>] {
    if connected {
        &[Answer::Bytes(REGISTERED), Answer::Reply(2, OPENED)]
    } else {
        &[Answer::Bytes(REGISTERED)]
    }
}

/// Sends it a request with these digits of data.
fn check_length<'a, A: Abort>(
    rt: &A,
    alloc: Global,
    digits: &'a str,
    connected: bool,
    status: u8,
    errors: &'a str,
) -> Result<(), Fail> {
    let row = Asked {
        name: "a request of the longest length, or a longer one",
        question: DeviceRequest { digits, ..ADD },
        connected,
        answers: first_answers(connected),
        room: 1_000,
        status,
        output: "",
        errors,
        sent: None,
    };
    check_asked(rt, alloc, &row)
}

#[test]
fn requests_that_are_too_long(rt: HostRuntime) -> Result<(), Fail> {
    for (count, connected, status, errors) in LENGTHS {
        let digits = zeros(rt.alloc(), count)?;
        check_length(&rt, rt.alloc(), digits.as_str(), connected, status, errors)?;
    }
    Ok(())
}

/// Requests the vendor with a reader or an output that fails. Asserts exit status 5 and `device`.
fn check_device_fails<A: Abort, R: Source, O: Write + Drop>(
    rt: &A,
    alloc: Global,
    reader: &mut R,
    output: O,
) -> Result<(), Fail> {
    let mut errors = Vec::new(alloc);
    let mut taken = [0; 100];
    let mut sink = MemorySink::new(&mut taken);
    let request = b"\x0e\x03\x20\x01\x24\x01\x30\x01";
    let told = asked_over(alloc, reader, &mut sink, request, false, output)?;
    assert_eq!(rt; reported(told, &mut errors), 5);
    assert_eq!(rt; errors.as_slice(), b"device\n".as_slice());
    Ok(())
}

#[test]
fn a_reader_that_fails(rt: HostRuntime) -> Result<(), Fail> {
    let mut output = Vec::new(rt.alloc());
    let mut source = MemorySource::new(REGISTERED, &[]).with_failure_after(1);
    check_device_fails(&rt, rt.alloc(), &mut source, &mut output)?;
    assert_eq!(rt; output.len(), 0);
    Ok(())
}

#[test]
fn a_reply_that_can_not_be_printed(rt: HostRuntime) -> Result<(), Fail> {
    let mut written = Vec::new(rt.alloc());
    let answers = bytes_of(rt.alloc(), GET.answers)?;
    let mut source = MemorySource::new(answers.as_slice(), &[]);
    let output = BrokenWriter {
        text: &mut written,
        room: 2,
    };
    check_device_fails(&rt, rt.alloc(), &mut source, output)?;
    assert_eq!(rt; written.as_slice(), b"34".as_slice());
    Ok(())
}

/// The longest and the shortest encoding of a path, and capital digits.
#[test]
fn requests_of_words(rt: HostRuntime) -> Result<(), Fail> {
    let largest = DeviceRequest {
        service: 127,
        path: Path {
            class: 65_535,
            instance: 4_294_967_295,
            attribute: Some(65_535),
            member: None,
        },
        digits: "aBCd",
    };
    let request = largest.request(rt.alloc()).ok().ok_or("a request")?;
    assert_eq!(rt;
        request.as_slice(),
        b"\x7f\x07\x21\0\xff\xff\x26\0\xff\xff\xff\xff\x31\0\xff\xff\xab\xcd".as_slice()
    );
    let request = VENDOR.request(rt.alloc()).ok().ok_or("a request")?;
    assert_eq!(rt;
        request.as_slice(),
        b"\x0e\x03\x20\x01\x24\x01\x30\x01".as_slice()
    );
    Ok(())
}
