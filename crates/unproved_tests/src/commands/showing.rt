//! `show` over readers and writers that fail, and long messages.

use super::streams::{BrokenReader, BrokenWriter, CountingWriter, FullWriter, WatchingReader};
use enip_commands::show_frames;
use std::alloc::Global;
use std::cell::Cell;
use std::io::{Read, Write};
use std::test::Fail;

/// Runs `show_frames`, and prints the fault on `errors`. Returns the exit status of the program.
fn show<R: Read + Drop, W: Write + Drop>(
    alloc: Global,
    input: R,
    output: W,
    errors: &mut Vec<u8>,
) -> u8 {
    match show_frames(alloc, input, output) {
        Ok(()) => 0,
        Err(fault) => {
            let _ = writeln!(errors, "{fault}");
            fault.exit_status()
        }
    }
}

/// Runs `show` over a text. Returns the exit status, the output and the errors.
fn run(alloc: Global, input: &str) -> Result<(u8, Vec<u8>, Vec<u8>), Fail> {
    let mut output = Vec::new(alloc);
    let mut errors = Vec::new(alloc);
    let status = show(alloc, input.as_bytes(), &mut output, &mut errors);
    Ok((status, output, errors))
}

/// A request for the vendor, and the lines that are printed for it.
const REQUEST: &str =
    "6f0018000100000000000000010203040506070800000000000000000000020000000000b20008000e03200124013001\n";

const REQUEST_SHOWN: &str =
    "frame 0x006f length 24 session 1 status 0x00000000 context 0102030405060708 options 0
item 0x0000 length 0
item 0x00b2 length 8
request 0x0e class 1 instance 1 attribute 1 member - data -
";

#[test]
fn a_reader_that_fails(rt: HostRuntime) -> Result<(), Fail> {
    let mut output = Vec::new(rt.alloc());
    let mut errors = Vec::new(rt.alloc());
    let input = BrokenReader {
        text: Some(REQUEST.as_bytes()),
    };
    let status = show(rt.alloc(), input, &mut output, &mut errors);
    assert_eq!(rt; status, 5);
    assert_eq!(rt; output.as_slice(), REQUEST_SHOWN.as_bytes());
    assert_eq!(rt; errors.as_slice(), b"device\n".as_slice());
    Ok(())
}

#[test]
fn a_writer_that_fails(rt: HostRuntime) -> Result<(), Fail> {
    let mut written = Vec::new(rt.alloc());
    let mut errors = Vec::new(rt.alloc());
    let output = BrokenWriter {
        text: &mut written,
        room: 12,
    };
    let status = show(rt.alloc(), REQUEST.as_bytes(), output, &mut errors);
    assert_eq!(rt; status, 5);
    assert_eq!(rt; written.as_slice(), b"frame 0x006f".as_slice());
    assert_eq!(rt; errors.as_slice(), b"device\n".as_slice());
    Ok(())
}

/// A text, repeated.
fn repeated(alloc: Global, text: &str, count: usize) -> Result<String, Fail> {
    let mut all = String::new(alloc);
    for _ in 0..count {
        all.push_str(text)?;
    }
    Ok(all)
}

#[test]
fn long_messages(rt: HostRuntime) -> Result<(), Fail> {
    let alloc = rt.alloc();
    let contents = repeated(alloc, "00a5ff5a", 125)?;
    // an assembly of 500 bytes is written without a connection, and read on one
    let input = format!(in alloc;
        "6f00 0c02 01000000 00000000 0102030405060708 00000000 00000000 0000 0200 0000 0000 b200 fc01 1003 2004 2464 3003 {contents}
7000 0e02 01000000 00000000 0102030405060708 00000000 00000000 0000 0200 a100 0400 44332211 b100 fa01 0201 8e000000 {contents}
"
    )?;
    let output = format!(in alloc;
        "frame 0x006f length 524 session 1 status 0x00000000 context 0102030405060708 options 0
item 0x0000 length 0
item 0x00b2 length 508
request 0x10 class 4 instance 100 attribute 3 member - data {contents}
frame 0x0070 length 526 session 1 status 0x00000000 context 0102030405060708 options 0
item 0x00a1 length 4
item 0x00b1 length 506
count 258
reply 0x8e status 0x00 extended - data {contents}
"
    )?;
    let got = run(alloc, input.as_str())?;
    assert_eq!(rt; got.0, 0);
    assert_eq!(rt; got.1.as_slice(), output.as_bytes());
    Ok(())
}

#[test]
fn fields_leave_before_more_is_read(rt: HostRuntime) -> Result<(), Fail> {
    let (written, seen) = (Cell::new(0), Cell::new(None));
    let input = WatchingReader {
        text: Some(REQUEST.as_bytes()),
        written: &written,
        seen: &seen,
    };
    let output = CountingWriter { written: &written };
    let mut errors = Vec::new(rt.alloc());
    let status = show(rt.alloc(), input, output, &mut errors);
    assert_eq!(rt; status, 0);
    assert_eq!(rt; seen.get(), Some(REQUEST_SHOWN.len()));
    Ok(())
}

#[test]
fn output_that_does_not_leave(rt: HostRuntime) -> Result<(), Fail> {
    // the flush before the second read fails, or the last one
    for flushes in 0..2 {
        let mut errors = Vec::new(rt.alloc());
        let output = FullWriter { flushes };
        let status = show(rt.alloc(), REQUEST.as_bytes(), output, &mut errors);
        assert_eq!(rt; status, 5, "{flushes}");
        assert_eq!(rt; errors.as_slice(), b"device\n".as_slice(), "{flushes}");
    }
    Ok(())
}
