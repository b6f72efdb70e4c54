//! `write_all` to a sink that takes some bytes or fails, and what a caller knows about any source and sink. What
//! `MemorySource` and `MemorySink` do is computed in `proofs/DeviceRows.antt` of `enip_wire`.

ghost use Rattle.std.specs.Prelude.{ℕ, List, ◌≡◌, ◌<◌, ◌+◌, length, IfOk};
ghost use Rattle.std.specs.Io.KnownBytes.{Appends, Consumes};
ghost use Rattle.enip_wire.specs.Devices.{failures_in};

use enip_wire::{Failed, MemorySink, Sink, Source, write_all};
use std::io::Read;
use std::process::Abort;
use std::test::*;

/// Ten bytes to read.
const BYTES: [u8; 10] = [0, 1, 2, 3, 4, 5, 6, 7, 8, 9];

/// Writes to the beginning of a buffer, and compares the whole buffer afterwards.
fn check_room<A: Abort>(rt: &A, room: &mut [u8], front: &[u8], wanted: &[u8]) {
    let mut sink = MemorySink::new(room);
    assert_eq!(rt; sink.write(front), Ok(front.len()));
    assert_eq!(rt; &*room, wanted);
}

/// A sink leaves the rest of its buffer as it is.
#[test]
fn the_rest_of_the_slice_stays(rt: HostRuntime) {
    let mut room = [0xff; 6];
    check_room(&rt, &mut room, &BYTES[..4], &[0, 1, 2, 3, 0xff, 0xff]);
}

/// A text that is written, the result, what the sink has afterwards, and how many of its writes have failed.
#[derive(Clone, Copy)]
struct Text<'a> {
    text: &'a [u8],
    expected: Result<(), Failed>,
    written: &'a [u8],
    failures: u64,
}

/// A sink, and the texts that are written to it. The sink has a capacity, a greatest size of a write, and a number of
/// writes after which one fails.
struct Written<'a> {
    room: usize,
    largest: usize,
    failing: Option<u64>,
    texts: &'a [Text<'a>],
}

static WRITTEN: [Written<'static>; 3] = [
    // all is written, and then an empty text
    Written {
        room: 10,
        largest: 3,
        failing: None,
        texts: &[
            Text {
                text: &BYTES,
                expected: Ok(()),
                written: &BYTES,
                failures: 0,
            },
            Text {
                text: &[],
                expected: Ok(()),
                written: &BYTES,
                failures: 0,
            },
        ],
    },
    // a part is written: the third write fails, or the capacity is used up
    Written {
        room: 10,
        largest: 3,
        failing: Some(2),
        texts: &[Text {
            text: &BYTES,
            expected: Err(Failed),
            written: &[0, 1, 2, 3, 4, 5],
            failures: 1,
        }],
    },
    Written {
        room: 7,
        largest: usize::MAX,
        failing: None,
        texts: &[Text {
            text: &BYTES,
            expected: Err(Failed),
            written: &[0, 1, 2, 3, 4, 5, 6],
            failures: 1,
        }],
    },
];

fn check_text<A: Abort>(rt: &A, sink: &mut MemorySink<'_>, row: Text<'_>) {
    assert!(rt; sink.failures() < u64::MAX);
    assert_eq!(rt; write_all(sink, row.text), row.expected);
    assert_eq!(rt; sink.written(), row.written);
    assert_eq!(rt; sink.failures(), row.failures);
}

fn check_written<A: Abort>(rt: &A, room: &mut [u8], row: &Written<'_>) {
    assert!(rt; 0 < row.largest);
    let mut sink = MemorySink::new(room).with_largest_size(row.largest);
    if let Some(writes) = row.failing {
        sink = sink.with_failure_after(writes);
    }
    for text in row.texts {
        check_text(rt, &mut sink, *text);
    }
}

#[test]
fn texts_are_written(rt: HostRuntime) {
    for row in &WRITTEN {
        let mut room = [0; 10];
        assert!(rt; row.room <= room.len());
        check_written(&rt, &mut room[..row.room], row);
    }
}

/// Reads once and writes what was read. The contract is what a caller of any source and any sink knows.
fn pass_on<R: Source, W: Sink>(reader: &mut R, writer: &mut W) -> Result<usize, Failed>
    requires reads { R.reads reader.old < u64.MAX }
    requires read_failures { R.failures reader.old < u64.MAX }
    requires write_failures { W.failures writer.old < u64.MAX }
    ensures bytes { IfOk result (λ n. (bytes : List ℕ) × (length bytes ≡ n)
        × Consumes (R.left reader.old) (R.left reader.new) bytes
        × Appends (W.written writer.old) (W.written writer.new) bytes) }
    ensures reads { R.reads reader.new ≡ R.reads reader.old + 1 }
    ensures failures { R.failures reader.new + W.failures writer.new
        ≡ R.failures reader.old + W.failures writer.old + failures_in result }
{
    let mut buffer = [0; 16];
    let count = reader.read(&mut buffer)?;
    write_all(writer, &buffer[..count])?;
    Ok(count)
}

/// A source over any reader, with a time for each read. What is known about its bytes is what is known about the
/// reader's; for a socket that is nothing.
#[derive(Drop)]
struct Over<R> {
    reader: R,
    moment: u64,
    reads: u64,
    failures: u64,
}

impl<R: Read> Source for Over<R> {
    ghost left = { λ s. R.remaining s.reader };

    ghost moment = { λ s. s.moment };

    ghost reads = { λ s. s.reads };

    ghost failures = { λ s. s.failures };

    fn read(&mut self, into: &mut [u8]) -> Result<usize, Failed> {
        self.reads += 1;
        match self.reader.read(into) {
            Ok(count) => {
                if count > 0 {
                    self.moment = self.reads;
                }
                Ok(count)
            }
            Err(_) => {
                self.failures += 1;
                Err(Failed)
            }
        }
    }

    fn moment(&self) -> u64 {
        self.moment
    }

    fn reads(&self) -> u64 {
        self.reads
    }

    fn failures(&self) -> u64 {
        self.failures
    }
}

/// Passes on the bytes of one read. Compares their number and all that was written so far.
fn check_passed<A: Abort>(
    rt: &A,
    source: &mut Over<&[u8]>,
    sink: &mut MemorySink<'_>,
    count: usize,
    written: &[u8],
) {
    assert!(rt; source.reads < u64::MAX && source.failures < u64::MAX);
    assert!(rt; sink.failures() < u64::MAX);
    assert_eq!(rt; pass_on(source, sink), Ok(count));
    assert_eq!(rt; sink.written(), written);
}

#[test]
fn passed_on_from_any_reader(rt: HostRuntime) {
    let mut source = Over {
        reader: BYTES.as_slice(),
        moment: 0,
        reads: 0,
        failures: 0,
    };
    let mut room = [0; 16];
    let mut sink = MemorySink::new(&mut room).with_largest_size(3);
    for count in [10, 0] {
        check_passed(&rt, &mut source, &mut sink, count, &BYTES);
    }
    assert_eq!(rt;
        (source.reads(), source.moment(), source.failures()),
        (2, 1, 0)
    );
}
