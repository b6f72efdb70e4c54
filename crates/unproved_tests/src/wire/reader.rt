//! How many bytes of a piece a frame reader takes, and what it lends.

ghost use Rattle.std.specs.Prelude.{◌≡◌, ◌<◌, ◌≤◌, length};
ghost use Rattle.enip_wire.specs.Stream.{bytes_taken, parsed, held_and_taken, cleared};

use enip_wire::{FrameReader, FrameView, Header, Held};
use std::process::Abort;
use std::test::*;

/// A RegisterSession with four bytes of data: version 1 and no flags.
const REGISTER: &[u8] = b"\x65\0\x04\0\0\0\0\0\0\0\0\0\x01\x02\x03\x04\x05\x06\x07\x08\0\0\0\0\
    \x01\0\0\0";

/// A NOP in session 7 with two bytes of data.
const NOP: &[u8] = b"\0\0\x02\0\x07\0\0\0\0\0\0\0\x09\x09\x09\x09\x09\x09\x09\x09\0\0\0\0\
    \xaa\xbb";

/// The RegisterSession followed by the NOP.
const TWO_FRAMES: &[u8] = b"\x65\0\x04\0\0\0\0\0\0\0\0\0\x01\x02\x03\x04\x05\x06\x07\x08\0\0\0\0\
    \x01\0\0\0\
    \0\0\x02\0\x07\0\0\0\0\0\0\0\x09\x09\x09\x09\x09\x09\x09\x09\0\0\0\0\
    \xaa\xbb";

/// A header with a length of 65,512, followed by two bytes.
const TOO_LONG: &[u8] = b"\0\0\xe8\xff\0\0\0\0\0\0\0\0\0\0\0\0\0\0\0\0\0\0\0\0\0\0";

/// What a reader holds or lends.
#[derive(Clone, Copy, Debug, PartialEq, Eq)]
enum Shown {
    More,
    Register,
    Nop,
    TooLong,
    /// None of these.
    Other,
}

/// Which of the frames above this is.
fn frame_shown(frame: FrameView<'_>) -> Shown {
    let register = Header {
        command: 0x65,
        length: 4,
        session: 0,
        status: 0,
        context: [1, 2, 3, 4, 5, 6, 7, 8],
        options: 0,
    };
    let nop = Header {
        command: 0,
        length: 2,
        session: 7,
        status: 0,
        context: [9; 8],
        options: 0,
    };
    if frame.header == register && frame.body == [1, 0, 0, 0].as_slice() {
        Shown::Register
    } else if frame.header == nop && frame.body == [0xaa, 0xbb].as_slice() {
        Shown::Nop
    } else {
        Shown::Other
    }
}

/// Which of these states this is.
fn shown_by(held: Held<'_>) -> Shown {
    match held {
        Held::More => Shown::More,
        Held::TooLong(header) if header.length == 65_512 => Shown::TooLong,
        Held::TooLong(_) => Shown::Other,
        Held::Frame(frame) => frame_shown(frame),
    }
}

/// A call of a reader.
#[derive(Clone, Copy)]
enum Call<'a> {
    /// `push` of a piece, and how many bytes are taken.
    Push(&'a [u8], usize),
    /// `next` of a piece, how many bytes are taken, and what is lent.
    Next(&'a [u8], usize, Shown),
    Clear,
}

/// A call, and what the reader holds after it.
type Step<'a> = (Call<'a>, Shown);

fn check_call<A: Abort>(rt: &A, reader: &mut FrameReader, name: &str, call: Call<'_>) {
    match call {
        Call::Push(piece, taken) => assert_eq!(rt; reader.push(piece), taken, "{name}"),
        Call::Next(piece, taken, lent) => {
            let (count, held) = reader.next(piece);
            assert_eq!(rt; (count, shown_by(held)), (taken, lent), "{name}");
        }
        Call::Clear => reader.clear(),
    }
}

fn check<A: Abort>(rt: &A, reader: &mut FrameReader, name: &str, steps: &[Step<'_>]) {
    for (call, held) in steps {
        check_call(rt, reader, name, *call);
        assert_eq!(rt; shown_by(reader.state()), *held, "{name}");
    }
}

/// Nothing is taken after a frame until it is cleared.
const PUSHED: [Step<'static>; 4] = [
    (Call::Push(TWO_FRAMES, 28), Shown::Register),
    (Call::Push(NOP, 0), Shown::Register),
    (Call::Clear, Shown::More),
    (Call::Push(NOP, 26), Shown::Nop),
];

/// A whole frame is read in place: it is not held. Clearing a reader that holds nothing is harmless.
const IN_PLACE: [Step<'static>; 3] = [
    (Call::Next(TWO_FRAMES, 28, Shown::Register), Shown::More),
    (Call::Clear, Shown::More),
    (Call::Next(NOP, 26, Shown::Nop), Shown::More),
];

/// No byte is taken after a header with too great a length.
const PUSHED_TOO_LONG: [Step<'static>; 4] = [
    (Call::Push(TOO_LONG, 24), Shown::TooLong),
    (Call::Push(b"\0\0", 0), Shown::TooLong),
    (Call::Clear, Shown::More),
    (Call::Push(REGISTER, 28), Shown::Register),
];

/// Such a header is held, since it is not read in place.
const HELD_TOO_LONG: [Step<'static>; 4] = [
    (Call::Next(TOO_LONG, 24, Shown::TooLong), Shown::TooLong),
    (Call::Next(REGISTER, 0, Shown::TooLong), Shown::TooLong),
    (Call::Clear, Shown::More),
    (Call::Next(REGISTER, 28, Shown::Register), Shown::More),
];

static CALLS: [(&str, &[Step<'static>]); 4] = [
    ("two frames in one piece", &PUSHED),
    ("a whole frame in place", &IN_PLACE),
    ("a header that is too long", &PUSHED_TOO_LONG),
    ("such a header is held", &HELD_TOO_LONG),
];

#[test]
fn calls_of_a_reader(rt: HostRuntime) -> Result<(), Fail> {
    for (name, steps) in &CALLS {
        let mut reader = FrameReader::new(rt.alloc())?;
        check(&rt, &mut reader, name, steps);
    }
    Ok(())
}

/// A frame that came in two pieces is held, and nothing is taken until it is cleared.
#[test]
fn a_cut_frame_is_held_until_clear(rt: HostRuntime) -> Result<(), Fail> {
    let mut reader = FrameReader::new(rt.alloc())?;
    for place in 1..REGISTER.len() {
        let (front, rest) = (&TWO_FRAMES[..place], &TWO_FRAMES[place..]);
        let steps = [
            (Call::Next(front, place, Shown::More), Shown::More),
            (
                Call::Next(rest, 28 - place, Shown::Register),
                Shown::Register,
            ),
            (Call::Next(NOP, 0, Shown::Register), Shown::Register),
            (Call::Clear, Shown::More),
        ];
        check(&rt, &mut reader, "a frame that is cut", &steps);
    }
    Ok(())
}

/// A reader, with a count that its caller keeps.
#[derive(Drop)]
struct Counting {
    reader: FrameReader,
    shown: u8,
}

impl Counting {
    /// Counts a frame if the piece completes one. Returns how many bytes were taken.
    fn feed(&mut self, piece: &[u8]) -> usize
        requires { self.old.shown < 255 }
        ensures number { result ≡ bytes_taken self.old.reader piece.now }
        ensures held { self.new.reader
            ≡ cleared (parsed (held_and_taken self.old.reader piece.now)) (held_and_taken self.old.reader piece.now) }
        ensures within { result ≤ length piece.now }
    {
        let (taken, held) = self.reader.next(piece);
        match held {
            Held::More | Held::TooLong(_) => {}
            Held::Frame(frame) => {
                // the frame is borrowed while another field changes
                self.shown += 1;
                prove!(frame.body.len() <= 65_511);
                self.reader.clear();
            }
        }
        taken
    }
}

#[test]
fn counted_beside_the_reader(rt: HostRuntime) -> Result<(), Fail> {
    let mut counting = Counting {
        reader: FrameReader::new(rt.alloc())?,
        shown: 0,
    };
    assert_eq!(rt; counting.feed(TWO_FRAMES), 28);
    assert_eq!(rt; counting.shown, 1);
    assert!(rt; matches!(counting.reader.state(), Held::More));
    Ok(())
}
