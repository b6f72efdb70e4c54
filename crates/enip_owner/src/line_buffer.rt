//! The lines of a stream of bytes, however it is cut.

ghost use Rattle.std.specs.Prelude.{◌≡◌, ◌≤◌, IfOk, length};
ghost use Rattle.enip_owner.specs.Streams.{no_line, closed, outcome_of, with_bytes, begun, IsFed};

use memchr::memchr;
use std::alloc::{AllocError, Global};
use std::marker::Model;

/// The most bytes of a line, without its newline.
pub const LINE_LIMIT: usize = 65_536;

/// What the bytes that were fed led to.
#[derive(Clone, Copy, Debug, PartialEq, Eq)]
pub enum LineOutcome {
    /// All of them were taken. The line that they are part of has not ended.
    Unfinished,
    /// A line has ended, and [`LineBuffer::line`] is its text.
    Whole,
    /// A line of more than 64 KiB has ended. It is lost.
    TooLong,
}

/// A line of a stream: its bytes so far, and whether it has ended. A newline ends a line, and nothing else does.
///
/// `new` allocates 64 KiB, and nothing else allocates. If a line is longer, its bytes are dropped up to its newline.
///
/// ```
/// let mut buffer = LineBuffer::new(alloc)?;
/// buffer.feed(b"{\"sta"); // (Unfinished, b"")
/// buffer.feed(b"te\":3}\n{\"re"); // (Whole, b"{\"re")
/// buffer.line() // b"{\"state\":3}"
/// ```
#[derive(Drop)]
pub struct LineBuffer {
    /// The bytes, without the newline. None if the line is too long.
    text: Vec<u8>,
    /// Whether the line is too long.
    is_long: bool,
    /// Whether the line has ended. The next byte begins another one.
    has_ended: bool,
}

impl Model for LineBuffer {
    ghost use Rattle.std.specs.Prelude.{◌≤◌, vec_len, vec_capacity};
    ghost use Rattle.enip_owner.specs.declared.line_buffer.TheConstants.{LINE_LIMIT};
    ghost use Rattle.enip_owner.specs.Streams.{BufferedLine};

    ghost Value = { BufferedLine };

    ghost view = { λ b. record { text = b.text.items; is_long = b.is_long; has_ended = b.has_ended } };

    ghost invariant = { λ b. (vec_len b.text ≤ LINE_LIMIT) × (LINE_LIMIT ≤ vec_capacity b.text) };
}

impl LineBuffer {
    /// A buffer to which no byte was fed.
    ///
    /// # Errors
    ///
    /// `AllocError` if memory is refused.
    pub fn new(alloc: Global) -> Result<LineBuffer, AllocError>
        ensures { IfOk result (λ buffer. buffer ≡ no_line) }
    {
        Ok(LineBuffer {
            text: Vec::with_capacity(alloc, LINE_LIMIT)?,
            is_long: false,
            has_ended: false,
        })
    }

    /// Takes bytes of the stream up to the end of a line, or all of them if no line ends in them. Returns which it was,
    /// and the bytes that are left.
    pub fn feed<'a>(&mut self, bytes: &'a [u8]) -> (LineOutcome, &'a [u8])
        ensures { IsFed self.old bytes.now result.0 result.1.now self.new }
    {
        self.begin();
        match memchr(b'\n', bytes) {
            Some(end) => {
                let (front, back) = bytes.split_at(end);
                self.extend(front);
                (self.end(), &back[1..])
            }
            None => {
                self.extend(bytes);
                (LineOutcome::Unfinished, &bytes[bytes.len()..])
            }
        }
    }

    /// The text of the line, if `feed` returned `Whole` last. It has no newline.
    pub fn line(&self) -> &[u8]
        ensures text { result.now ≡ self.now.text }
        ensures short { length result.now ≤ LINE_LIMIT }
    {
        self.text.as_slice()
    }

    /// Begins another stream: what was fed of a line is dropped.
    ///
    /// ```
    /// buffer.feed(b"{\"sta"); // the owner leaves, and another one comes
    /// buffer.clear();
    /// ```
    pub fn clear(&mut self)
        ensures { self.new ≡ no_line }
    {
        self.text.clear();
        self.is_long = false;
        self.has_ended = false;
    }

    /// Begins the next line, if this one has ended.
    fn begin(&mut self)
        ensures { self.new ≡ begun self.old }
    {
        if self.has_ended {
            self.clear();
        }
    }

    /// Adds bytes that are not a newline.
    fn extend(&mut self, bytes: &[u8])
        ensures { self.new ≡ with_bytes self.old bytes.now }
    {
        if self.is_long {
            return;
        }
        if bytes.len() > LINE_LIMIT - self.text.len() {
            self.text.clear();
            self.is_long = true;
            return;
        }
        // It has the capacity for a whole line.
        let _ = self.text.extend_from_slice(bytes);
    }

    /// Ends the line.
    fn end(&mut self) -> LineOutcome
        ensures ended { self.new ≡ closed self.old }
        ensures outcome { result ≡ outcome_of self.old.is_long }
    {
        self.has_ended = true;
        if self.is_long {
            LineOutcome::TooLong
        } else {
            LineOutcome::Whole
        }
    }
}
