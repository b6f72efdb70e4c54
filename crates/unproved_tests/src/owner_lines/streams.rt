//! The lines of a stream, however it is cut.

use enip_owner::{LINE_LIMIT, LineBuffer, LineOutcome};
use std::alloc::Global;
use std::test::Fail;

/// The lines that come out of pieces, each in brackets, and `long` for one that is too long.
fn lines_in(alloc: Global, pieces: &[&[u8]]) -> Result<String, Fail> {
    let mut buffer = LineBuffer::new(alloc)?;
    let mut lines = String::new(alloc);
    for piece in pieces {
        let mut rest = *piece;
        loop {
            let (outcome, left) = buffer.feed(rest);
            rest = left;
            match outcome {
                LineOutcome::Unfinished => break,
                LineOutcome::Whole => {
                    lines.push_str("[")?;
                    lines.push_str(String::from_utf8_lossy(alloc, buffer.line())?.as_str())?;
                    lines.push_str("]")?;
                }
                LineOutcome::TooLong => lines.push_str("long")?,
            }
        }
    }
    Ok(lines)
}

/// Streams, and their lines.
static STREAMS: [(&str, &str); 8] = [
    ("", ""),
    ("{\"state\":3}", ""),
    ("{\"state\":3}\n", "[{\"state\":3}]"),
    ("a\nb\n", "[a][b]"),
    ("a\nb", "[a]"),
    ("\n", "[]"),
    ("\n\na\n", "[][][a]"),
    ("a\r\n", "[a\r]"),
];

#[test]
fn lines_of_streams(rt: HostRuntime) -> Result<(), Fail> {
    for (stream, wanted) in &STREAMS {
        let lines = lines_in(rt.alloc(), &[stream.as_bytes()])?;
        assert_eq!(rt; lines.as_str(), *wanted);
        for cut in 0..stream.len() {
            let (front, back) = stream.as_bytes().split_at(cut);
            let lines = lines_in(rt.alloc(), &[front, back])?;
            assert!(rt; lines.as_str() == *wanted, "{stream:?} cut at {cut}");
        }
    }
    Ok(())
}

/// Lines of up to 64 KiB come out, and a longer one does not.
#[test]
fn long_lines(rt: HostRuntime) -> Result<(), Fail> {
    let longest = vec![in rt.alloc(); b'x'; LINE_LIMIT]?;
    let end = "\nb\n".as_bytes();
    let lines = lines_in(rt.alloc(), &[longest.as_slice(), end])?;
    assert_eq!(rt; lines.as_str().len(), LINE_LIMIT + 5);
    assert!(rt; lines.as_str().ends_with("x][b]"));

    let longer = lines_in(rt.alloc(), &[longest.as_slice(), b"x", end])?;
    assert_eq!(rt; longer.as_str(), "long[b]");
    let longest_by_far = lines_in(
        rt.alloc(),
        &[
            longest.as_slice(),
            longest.as_slice(),
            longest.as_slice(),
            end,
        ],
    )?;
    assert_eq!(rt; longest_by_far.as_str(), "long[b]");
    let unended = lines_in(rt.alloc(), &[longest.as_slice(), b"x"])?;
    assert_eq!(rt; unended.as_str(), "");
    Ok(())
}

/// What a call returns, and the text of the line.
#[test]
fn one_call(rt: HostRuntime) -> Result<(), Fail> {
    let mut buffer = LineBuffer::new(rt.alloc())?;
    let (outcome, rest) = buffer.feed(b"{\"sta");
    assert!(rt; outcome == LineOutcome::Unfinished && rest.is_empty());
    let (outcome, rest) = buffer.feed(b"te\":3}\n{\"re");
    assert!(rt; outcome == LineOutcome::Whole);
    assert_eq!(rt; rest, b"{\"re".as_slice());
    assert_eq!(rt; buffer.line(), b"{\"state\":3}".as_slice());
    let (outcome, rest) = buffer.feed(rest);
    assert!(rt; outcome == LineOutcome::Unfinished && rest.is_empty());
    assert_eq!(rt; buffer.line(), b"{\"re".as_slice());
    Ok(())
}
