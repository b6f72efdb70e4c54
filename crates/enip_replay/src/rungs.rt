//! The rungs of a ladder: one line of text each, with the client, the wire and the adapter as columns.
//!
//! A rung has at most 80 characters, unless a position has more than four digits or a request number more than five.

ghost use Rattle.std.specs.Prelude.{◌≡◌, ◌≤◌, ◌*◌, min, length, replicate, Some};
ghost use Rattle.std.specs.Fmt.{WritesOnOk};
ghost use Rattle.enip_replay.specs.Ladder.{digits_of};

use enip_faults::Digits;
use std::fmt;

/// The width of a column between an end and the wire, in characters.
const WIDTH: usize = 22;

/// A request or a reply of up to this many bytes is shown whole.
const SHOWN: usize = 6;

/// What is drawn between an end and the wire.
#[derive(Clone, Copy)]
pub(crate) enum Field<'a> {
    /// Nothing.
    Blank,
    /// The outcome of an event that moves no frame.
    Words(&'a str),
    /// An item with its sequence count and its request or reply.
    Arrow(Arrow<'a>),
}

/// The direction of an arrow.
#[derive(Clone, Copy)]
pub(crate) enum Direction {
    /// From the client to the adapter.
    ToAdapter,
    /// From the adapter to the client.
    ToClient,
}

/// An item on its way.
#[derive(Clone, Copy)]
pub(crate) struct Arrow<'a> {
    pub(crate) way: Direction,
    /// Whether it arrives. If not, the arrow has a cross for a head.
    pub(crate) arrives: bool,
    pub(crate) count: u16,
    /// The request or the reply.
    pub(crate) message: &'a [u8],
}

impl fmt::Display for Field<'_> {
    ghost use Rattle.enip_replay.specs.Ladder.{field_text};

    ghost output = { λ field. Some (field_text field) };

    fn fmt<W: fmt::Write>(&self, f: &mut fmt::Formatter<W>) -> fmt::Result {
        match self {
            Field::Blank => write_spaces(f, WIDTH),
            Field::Words(words) => {
                write!(f, " {words}")?;
                write_spaces(f, WIDTH.saturating_sub(words.len()).saturating_sub(1))
            }
            Field::Arrow(arrow) => write!(f, "{arrow}"),
        }
    }
}

impl fmt::Display for Arrow<'_> {
    ghost use Rattle.enip_replay.specs.Ladder.{arrow_text};

    ghost output = { λ arrow. Some (arrow_text arrow) };

    fn fmt<W: fmt::Write>(&self, f: &mut fmt::Formatter<W>) -> fmt::Result {
        let (count, message) = (self.count, Message(self.message));
        let rest = WIDTH.saturating_sub(5 + digits_of(count) + message.width());
        match self.way {
            Direction::ToAdapter => {
                write!(f, "-{count}: {message} ")?;
                write_dashes(f, rest)?;
                f.write_str(if self.arrives { ">" } else { "x" })
            }
            Direction::ToClient => {
                f.write_str(if self.arrives { "<" } else { "x" })?;
                write!(f, "-{count}: {message} ")?;
                write_dashes(f, rest)
            }
        }
    }
}

/// A request or a reply in hexadecimal. A long one is cut, and ends in `..`.
#[derive(Clone, Copy)]
struct Message<'a>(&'a [u8]);

impl Message<'_> {
    /// The number of characters.
    fn width(self) -> usize
        ensures width { result ≡ 2 * min (length self.entry.0.now) SHOWN }
        ensures few { result ≤ 2 * SHOWN }
    {
        2 * self.0.len().min(SHOWN)
    }
}

impl fmt::Display for Message<'_> {
    ghost use Rattle.enip_replay.specs.Ladder.{message_text};

    ghost output = { λ m. Some (message_text m.0.now) };

    fn fmt<W: fmt::Write>(&self, f: &mut fmt::Formatter<W>) -> fmt::Result {
        if self.0.len() <= SHOWN {
            return write!(f, "{}", Digits(self.0));
        }
        write!(f, "{}..", Digits(&self.0[..SHOWN - 1]))
    }
}

/// The number of decimal digits of a count.
fn digits_of(count: u16) -> usize
    ensures digits { result ≡ digits_of count }
    ensures few { result ≤ 5 }
{
    match count {
        0..=9 => 1,
        10..=99 => 2,
        100..=999 => 3,
        1_000..=9_999 => 4,
        _ => 5,
    }
}

/// Writes `count` spaces.
fn write_spaces<W: fmt::Write>(f: &mut fmt::Formatter<W>, count: usize) -> fmt::Result
    ensures { WritesOnOk W.write_str_gives f.old result (replicate count 32) f.new }
{
    for _space in 0..count {
        write!(f, " ")?;
    }
    Ok(())
}

/// Writes `count` dashes.
fn write_dashes<W: fmt::Write>(f: &mut fmt::Formatter<W>, count: usize) -> fmt::Result
    ensures { WritesOnOk W.write_str_gives f.old result (replicate count 45) f.new }
{
    for _dash in 0..count {
        write!(f, "-")?;
    }
    Ok(())
}

/// The note next to an end, with the number of a request if it concerns one.
#[derive(Clone, Copy)]
pub(crate) struct Note<'a> {
    pub(crate) words: &'a str,
    pub(crate) number: Option<usize>,
}

impl Note<'_> {
    /// No note.
    pub(crate) const BLANK: Note<'static> = Note {
        words: "",
        number: None,
    };
}

/// A line of the ladder.
#[derive(Clone, Copy)]
pub(crate) struct Rung<'a> {
    /// Next to the client: which request it sent, or what it accepted.
    pub(crate) client: Note<'a>,
    /// Between the client and the wire.
    pub(crate) near: Field<'a>,
    /// The position on the wire, in the direction of the arrow.
    pub(crate) position: Option<usize>,
    /// Between the wire and the adapter.
    pub(crate) far: Field<'a>,
    /// Next to the adapter: what it executed.
    pub(crate) adapter: Note<'a>,
}

impl fmt::Display for Rung<'_> {
    ghost use Rattle.enip_replay.specs.Ladder.{rung_text};

    ghost output = { λ rung. Some (rung_text rung) };

    fn fmt<W: fmt::Write>(&self, f: &mut fmt::Formatter<W>) -> fmt::Result {
        let (client, position) = (AtClient(self.client), OnWire(self.position));
        let (near, far, adapter) = (self.near, self.far, AtAdapter(self.adapter));
        write!(f, "{client}{near}{position}{far}|{adapter}")
    }
}

/// The note next to the client.
#[derive(Clone, Copy)]
struct AtClient<'a>(Note<'a>);

impl fmt::Display for AtClient<'_> {
    ghost use Rattle.enip_replay.specs.Ladder.{client_text};

    ghost output = { λ c. Some (client_text c.0.words.now c.0.number) };

    fn fmt<W: fmt::Write>(&self, f: &mut fmt::Formatter<W>) -> fmt::Result {
        let words = self.0.words;
        match self.0.number {
            Some(number) => write!(f, "{words:<8}{number:<5}|"),
            None => write!(f, "{words:<13}|"),
        }
    }
}

/// The position of a frame, or blanks.
#[derive(Clone, Copy)]
struct OnWire(Option<usize>);

impl fmt::Display for OnWire {
    ghost use Rattle.enip_replay.specs.Ladder.{position_text};

    ghost output = { λ w. Some (position_text w.0) };

    fn fmt<W: fmt::Write>(&self, f: &mut fmt::Formatter<W>) -> fmt::Result {
        match self.0 {
            Some(position) => write!(f, "{position:>4} "),
            None => f.write_str("     "),
        }
    }
}

/// The note next to the adapter.
#[derive(Clone, Copy)]
struct AtAdapter<'a>(Note<'a>);

impl fmt::Display for AtAdapter<'_> {
    ghost use Rattle.enip_replay.specs.Ladder.{adapter_text};

    ghost output = { λ a. Some (adapter_text a.0.words.now a.0.number) };

    fn fmt<W: fmt::Write>(&self, f: &mut fmt::Formatter<W>) -> fmt::Result {
        let words = self.0.words;
        if words.is_empty() {
            return Ok(());
        }
        match self.0.number {
            Some(number) => write!(f, " {words} {number}"),
            None => write!(f, " {words}"),
        }
    }
}
