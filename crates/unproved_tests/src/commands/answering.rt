//! `answer` over readers and writers that fail or return pieces, and over long lines.

use super::demo::demo_adapter;
use super::streams::{
    BrokenReader, BrokenWriter, CountingWriter, FullWriter, PieceReader, WatchingReader,
};
use enip_answer::answer;
use enip_commands::{LineFault, ProgramFault};
use std::alloc::Global;
use std::cell::Cell;
use std::io::{BufWriter, Read, Write};
use std::test::Fail;

/// A RegisterSession and its answer.
const REGISTER: &str = "1 6500 0400 00000000 00000000 0102030405060708 00000000 01000000\n";

const REGISTERED: &str = "1 65000400010000000000000001020304050607080000000001000000\n";

/// The size of the output buffer, in bytes, as in `enip answer`.
const OUTPUT_BUFFER: usize = 65_536;

/// Runs `answer` with the demo device and a buffered output. Returns why it ended early, if it did.
fn ending<R: Read + Drop, W: Write + Drop>(
    alloc: Global,
    input: R,
    output: W,
) -> Result<Option<ProgramFault>, Fail> {
    let adapter = demo_adapter(alloc)?;
    let mut output = BufWriter::with_capacity(alloc, OUTPUT_BUFFER, output)?;
    Ok(answer(alloc, adapter, input, &mut output).err())
}

/// The same over a text. Also returns what was printed.
fn run(alloc: Global, input: &str) -> Result<(Option<ProgramFault>, Vec<u8>), Fail> {
    let mut output = Vec::new(alloc);
    let ended = ending(alloc, input.as_bytes(), &mut output)?;
    Ok((ended, output))
}

#[test]
fn in_single_bytes(rt: HostRuntime) -> Result<(), Fail> {
    let digits = "65000400000000000000000001020304050607080000000001000000";
    let mut input = String::new(rt.alloc());
    for i in 0..28 {
        input.push_str("1 ")?;
        input.push_str(digits.get(2 * i..2 * i + 2).ok_or("digits")?)?;
        input.push_str("\n")?;
    }
    let whole = run(rt.alloc(), input.as_str())?;
    assert_eq!(rt; whole.1.as_slice(), REGISTERED.as_bytes());

    let mut short = String::new(rt.alloc());
    short.push_str(input.as_str().get(..27 * 5).ok_or("lines")?)?;
    short.push_str("end 1\n")?;
    let cut = run(rt.alloc(), short.as_str())?;
    assert_eq!(rt; cut.0, None);
    assert_eq!(rt; cut.1.len(), 0);
    Ok(())
}

#[test]
fn longest_frame(rt: HostRuntime) -> Result<(), Fail> {
    let mut input = String::new(rt.alloc());
    input.push_str("1 0000 e7ff 00000000 00000000 0102030405060708 00000000 ")?;
    for _ in 0..65_511 {
        input.push_str("00")?;
    }
    input.push_str("\n")?;
    input.push_str(REGISTER)?;
    let got = run(rt.alloc(), input.as_str())?;
    assert_eq!(rt; got.0, None);
    assert_eq!(rt; got.1.as_slice(), REGISTERED.as_bytes());
    Ok(())
}

#[test]
fn a_reader_that_fails(rt: HostRuntime) -> Result<(), Fail> {
    let mut output = Vec::new(rt.alloc());
    let input = BrokenReader {
        text: Some(REGISTER.as_bytes()),
    };
    let ended = ending(rt.alloc(), input, &mut output)?;
    assert_eq!(rt; ended, Some(ProgramFault::Device));
    assert_eq!(rt; output.as_slice(), REGISTERED.as_bytes());
    Ok(())
}

#[test]
fn a_writer_that_fails(rt: HostRuntime) -> Result<(), Fail> {
    let mut written = Vec::new(rt.alloc());
    let output = BrokenWriter {
        text: &mut written,
        room: 10,
    };
    let ended = ending(rt.alloc(), REGISTER.as_bytes(), output)?;
    assert_eq!(rt; ended, Some(ProgramFault::Device));
    assert_eq!(rt; written.as_slice(), b"1 65000400".as_slice());
    Ok(())
}

#[test]
fn twenty_frames_in_a_line(rt: HostRuntime) -> Result<(), Fail> {
    let alloc = rt.alloc();
    let mut input = String::from_str(alloc, "1 ")?;
    let mut output = String::new(alloc);
    for number in 0..20u8 {
        // an unknown command is answered with status 1
        let frame = format!(in alloc; "67000000 05000000 00000000 {number:016x} 00000000")?;
        input.push_str(frame.as_str())?;
        let answered = format!(in alloc; "1 670000000500000001000000{number:016x}00000000\n")?;
        output.push_str(answered.as_str())?;
    }
    let got = run(alloc, input.as_str())?;
    assert_eq!(rt; got.0, None);
    assert_eq!(rt; got.1.as_slice(), output.as_bytes());
    Ok(())
}

#[test]
fn megabytes_of_long_lines(rt: HostRuntime) -> Result<(), Fail> {
    // the longest NOP, which takes two chunks of input, between lines that are answered; a refused line is the last
    let mut input = String::from_str(rt.alloc(), REGISTER)?;
    let mut nop = String::from_str(
        rt.alloc(),
        "1 0000 e7ff 00000000 00000000 0102030405060708 00000000 ",
    )?;
    for _ in 0..65_511 {
        nop.push_str("00")?;
    }
    for _ in 0..20 {
        input.push_str(nop.as_str())?;
        input.push_str("\r\n")?;
    }
    input.push_str(
        "end 1\n1 6500 0400 00000000 00000000 0102030405060708 00000000 01000000\n1 0g",
    )?;
    let got = run(rt.alloc(), input.as_str())?;
    let want = "1 65000400010000000000000001020304050607080000000001000000\n\
        1 65000400020000000000000001020304050607080000000001000000\n";
    assert_eq!(rt; got.0, Some(ProgramFault::Line(24, LineFault::Piece)));
    assert_eq!(rt; got.1.as_slice(), want.as_bytes());
    Ok(())
}

#[test]
fn lines_over_several_reads(rt: HostRuntime) -> Result<(), Fail> {
    let end = "01000000";
    let front = "1 6500 0400 00000000 00000000 0102030405060708 00000000 ";
    let rows: [(&[&str], &str, Option<ProgramFault>); 6] = [
        // the line ending is in the next read, or is itself cut
        (&[front, end, "\n"], REGISTERED, None),
        (&[front, end, "\r", "\n"], REGISTERED, None),
        (
            &[front, "01000000\r", "\nend 1\n1 0g"],
            REGISTERED,
            Some(ProgramFault::Line(3, LineFault::Piece)),
        ),
        // the last line has no ending
        (&[front, end], REGISTERED, None),
        (
            &["end 1\n", "\n", "en", "d 1x"],
            "",
            Some(ProgramFault::Line(3, LineFault::End)),
        ),
        (
            &["1 0", "g\n", REGISTER],
            "",
            Some(ProgramFault::Line(1, LineFault::Piece)),
        ),
    ];
    for (place, (texts, output, fault)) in rows.into_iter().enumerate() {
        let mut pieces = Vec::new(rt.alloc());
        for text in texts {
            pieces.push(text.as_bytes())?;
        }
        let input = PieceReader {
            pieces: pieces.as_slice(),
        };
        let mut written = Vec::new(rt.alloc());
        let ended = ending(rt.alloc(), input, &mut written)?;
        assert_eq!(rt; ended, fault, "{place}");
        assert_eq!(rt; written.as_slice(), output.as_bytes(), "{place}");
    }
    Ok(())
}

#[test]
fn answers_leave_before_more_is_read(rt: HostRuntime) -> Result<(), Fail> {
    let (written, seen) = (Cell::new(0), Cell::new(None));
    let input = WatchingReader {
        text: Some(REGISTER.as_bytes()),
        written: &written,
        seen: &seen,
    };
    let output = CountingWriter { written: &written };
    let ended = ending(rt.alloc(), input, output)?;
    assert_eq!(rt; ended, None);
    assert_eq!(rt; seen.get(), Some(REGISTERED.len()));
    Ok(())
}

#[test]
fn output_that_does_not_leave(rt: HostRuntime) -> Result<(), Fail> {
    let rows = [
        // the flush before the second read fails, or the last one; the last one also fails after a refused line
        (REGISTER, 0),
        (REGISTER, 1),
        ("1 0g\n", 0),
    ];
    for (input, flushes) in rows {
        let output = FullWriter { flushes };
        let ended = ending(rt.alloc(), input.as_bytes(), output)?;
        assert_eq!(rt; ended, Some(ProgramFault::Device), "{flushes}");
    }
    Ok(())
}

#[test]
fn why_lines_end(rt: HostRuntime) -> Result<(), Fail> {
    let rows = [
        (ProgramFault::Line(3, LineFault::Input), 4, "line 3"),
        (ProgramFault::Device, 5, "device"),
        (ProgramFault::Memory, 5, "memory"),
    ];
    for (fault, status, text) in rows {
        assert_eq!(rt; fault.exit_status(), status);
        assert_eq!(rt; fault.to_string(rt.alloc())?.as_str(), text);
    }
    Ok(())
}
