//! Frames from a stream, however it is cut into pieces. (Volume 2, encapsulation over TCP.)
//!
//! ```text
//!  stream   [ header | data ][ header | data ][ head
//!  pieces   ------,-------------,---,---------------
//!  held     what came since the last frame was cleared, at most one frame
//! ```
//!
//! Text: docs/PROTOCOL.md, "Encapsulation".

ghost use Rattle.std.specs.Prelude.{◌≡◌, ◌≤◌, ◌<◌, ◌^◌, ◌+◌, ◌++◌, [], take, length, IfOk, IfSome, IfNone, slice_index};
ghost use Rattle.cip_bytes.specs.Numbers.{number_at, AreBytes};
ghost use Rattle.enip_wire.specs.Frames.{Frame, end_after as end_after_length};
ghost use Rattle.enip_wire.specs.Stream.{IsAtMostOneFrame, Takes, bytes_taken, Shows, parsed_frame, parsed, held_after_next, held_and_taken, frame_of};
ghost use Rattle.enip_wire.specs.Stream.{IsTakenFirst};
ghost use Rattle.enip_wire.specs.Stream.Parsed.{WholeFrame};
ghost use Rattle.std.specs.Borrow.{sem};
ghost use Rattle.std.specs.Io.BufRead.{Rests};

use crate::header::Header;
use byteorder::{ByteOrder, LittleEndian};
use std::alloc::{AllocError, Global};
use std::boxed::BoxedSlice;
use std::marker::Model;

/// The most data of a frame, in bytes. Header and data are at most 65,535 bytes. (Volume 2, encapsulation header,
/// length.)
pub const LONGEST_BODY: u16 = 65_511;

/// The size of the longest frame, in bytes.
const LONGEST_FRAME: usize = Header::SIZE + LONGEST_BODY as usize;

/// A whole frame, lent: its header and the `header.length` bytes after it.
#[derive(Clone, Copy, Debug)]
pub struct FrameView<'a> {
    /// The header.
    pub header: Header,
    /// The data, `header.length` bytes.
    pub body: &'a [u8],
}

/// What a reader holds.
///
/// ```
/// match reader.state() {
///     Held::More => {} // push the next piece
///     Held::Frame(frame) => serve(frame),
///     Held::TooLong(header) => refuse(header),
/// }
/// ```
#[derive(Clone, Copy, Debug)]
pub enum Held<'a> {
    /// Less than a whole frame.
    More,
    /// One whole frame.
    Frame(FrameView<'a>),
    /// A header whose length is over 65,511. No byte after it is taken.
    TooLong(Header),
}

/// Gathers one frame at a time from the pieces of a stream.
///
/// ```
/// let mut reader = FrameReader::new(alloc)?;
/// let taken = reader.push(piece); // up to the end of one frame
/// if let Held::Frame(frame) = reader.state() {
///     serve(frame);
///     reader.clear();
/// }
/// let rest = &piece[taken..]; // push it next
/// ```
#[derive(Drop)]
pub struct FrameReader {
    // `new` allocates it at its full length. A boxed slice does not grow.
    buffer: BoxedSlice<u8>,
    len: usize,
}

impl Model for FrameReader {
    ghost use Rattle.std.specs.Prelude.{ℕ, List, ◌≡◌, ◌≤◌, take};
    ghost use Rattle.std.specs.Box.{boxed_slice_items, boxed_slice_len};
    ghost use Rattle.enip_wire.specs.Stream.{IsAtMostOneFrame};

    ghost Value = { List ℕ };

    ghost view = { λ r. take r.len (boxed_slice_items r.buffer) };

    ghost invariant = { λ r. (boxed_slice_len r.buffer ≡ 65535) × (r.len ≤ 65535)
        × IsAtMostOneFrame (take r.len (boxed_slice_items r.buffer)) };
}

impl FrameReader {
    ghost use Rattle.enip_wire.specs.contracts.reader.FrameReader.{the_row};

    /// A reader that holds no byte. It reserves its 65,535 bytes here. No later call allocates.
    ///
    /// # Errors
    ///
    /// `AllocError` if memory is refused.
    pub fn new(alloc: Global) -> Result<FrameReader, AllocError>
        ensures { IfOk result (λ r. r ≡ []) }
    {
        let buffer = vec![in alloc; 0u8; LONGEST_FRAME]?;
        Ok(FrameReader {
            buffer: buffer.into_boxed_slice(),
            len: 0,
        })
    }

    /// Takes bytes of the piece, up to the end of one frame or of a header that is too long. Returns how many it
    /// took. It takes none while it holds a whole frame or such a header.
    pub fn push(&mut self, piece: &[u8]) -> usize
        ensures taken { Takes self.old piece.now result }
        ensures number { result ≡ bytes_taken self.old piece.now }
        ensures held { self.new ≡ self.old ++ take result piece.now }
        ensures fresh { IsAtMostOneFrame self.new }
        ensures bound { length self.new ≤ 65535 }
    {
        let taken = taken_size(&self.buffer[..self.len], piece);
        copy_behind(&mut self.buffer, self.len, &piece[..taken]);
        self.len += taken;
        taken
    }

    /// What the reader holds.
    pub fn state(&self) -> Held<'_>
        ensures shown { Shows self.now result }
        ensures kind { parsed_frame result ≡ parsed self.now }
        ensures bound { length self.now ≤ 65535 }
    {
        parse_frame(&self.buffer[..self.len])
    }

    /// Takes the bytes that `push` takes, and returns what `state` then returns.
    ///
    /// If the reader holds nothing and the piece begins with a whole frame, it lends the frame from the piece and
    /// holds nothing afterwards. Otherwise it holds what it took until `clear`, as after `push`.
    ///
    /// A caller that calls `clear` after each frame leaves the reader as it would with `push`, `state` and `clear`.
    #[inline(always)]
    pub fn next<'a>(&'a mut self, piece: &'a [u8]) -> (usize, Held<'a>)
        ensures* after { sem 𝓛 (Rests the_row self.entry (λ last. last ≡ held_after_next self.old piece.now)) }
        ensures taken { Takes self.old piece.now result.0 }
        ensures number { result.0 ≡ bytes_taken self.old piece.now }
        ensures shown { Shows (self.old ++ take result.0 piece.now) result.1 }
        ensures kind { parsed_frame result.1 ≡ parsed (self.old ++ take result.0 piece.now) }
        ensures bound { length self.old + result.0 ≤ 65535 }
    {
        if self.len == 0 {
            if let Some(frame) = first_frame(piece) {
                return (Header::SIZE + frame.body.len(), Held::Frame(frame));
            }
        }
        let taken = self.push(piece);
        (taken, self.state())
    }

    /// Returns what `next` would show of this piece, and takes no byte: afterwards the reader holds the same bytes as
    /// before.
    ///
    /// ```
    /// if let Held::Frame(frame) = reader.peek(piece) {
    ///     prepare(frame); // the frame that the piece completes
    /// }
    /// let (taken, held) = reader.next(piece); // shows the same frame, and takes its bytes
    /// ```
    pub fn peek<'a>(&'a mut self, piece: &'a [u8]) -> Held<'a>
        ensures* unchanged { sem 𝓛 (Rests the_row self.entry (λ last. last ≡ self.old)) }
        ensures shown { Shows (held_and_taken self.old piece.now) result }
        ensures kind { parsed_frame result ≡ parsed (held_and_taken self.old piece.now) }
    {
        if self.len == 0 {
            if let Some(whole) = first_frame(piece) {
                return Held::Frame(whole);
            }
        }
        let more = taken_size(&self.buffer[..self.len], piece);
        // These bytes are behind `len`, so the reader does not hold them.
        copy_behind(&mut self.buffer, self.len, &piece[..more]);
        parse_frame(&self.buffer[..self.len + more])
    }

    /// The bytes that the reader holds.
    pub fn bytes(&self) -> &[u8]
        ensures lent { result.now ≡ self.now }
        ensures bound { length self.now ≤ 65535 }
    {
        &self.buffer[..self.len]
    }

    /// Drops what the reader holds.
    pub fn clear(&mut self)
        ensures { self.new ≡ [] }
    {
        self.len = 0;
    }
}

/// The frame at the front of a piece, if all of it is there.
#[inline(always)]
fn first_frame(piece: &[u8]) -> Option<FrameView<'_>>
    ensures none { IfNone result ((f : Frame) → parsed (held_and_taken [] piece.now) ≡ WholeFrame f → ⊥) }
    ensures size { IfSome result (λ frame. IsTakenFirst piece.now (24 + length frame.body.now)) }
    ensures shown { IfSome result (λ frame. Shows (take (24 + length frame.body.now) piece.now) (Held.Frame frame)) }
    ensures kind { IfSome result (λ frame.
        WholeFrame (frame_of frame) ≡ parsed (take (24 + length frame.body.now) piece.now)) }
{
    let (head, rest) = piece.split_first_chunk::<{ Header::SIZE }>()?;
    let header = Header::read(head);
    // No frame has a length over 65,511.
    if header.length > LONGEST_BODY {
        return None;
    }
    let size = usize::from(header.length);
    if rest.len() < size {
        return None;
    }
    Some(FrameView {
        header,
        body: &rest[..size],
    })
}

/// How many bytes of a piece a reader takes that holds these bytes.
fn taken_size(held: &[u8], piece: &[u8]) -> usize
    requires { IsAtMostOneFrame held.now }
    ensures takes { Takes held.now piece.now result }
    ensures number { result ≡ bytes_taken held.now piece.now }
    ensures bound { length held.now + result ≤ 65535 }
{
    if held.len() < Header::SIZE && piece.len() < Header::SIZE - held.len() {
        return piece.len();
    }
    // No byte is taken after a whole frame, or after a header that begins no frame.
    let end = end_after(length_in(held, piece));
    end.saturating_sub(held.len()).min(piece.len())
}

/// Copies bytes into a buffer, after its first `len` bytes.
fn copy_behind(buffer: &mut [u8], len: usize, text: &[u8])
    requires { len + length text.now ≤ length buffer.old }
    ensures { take (len + length text.now) buffer.new ≡ take len buffer.old ++ text.now }
{
    buffer[len..len + text.len()].copy_from_slice(text);
}

/// Where a frame with a header of this length ends, or the header alone if it is too long.
#[inline(always)]
fn end_after(length: u16) -> usize
    ensures { result ≡ end_after_length length }
{
    // No frame has a length over 65,511.
    if length > LONGEST_BODY {
        Header::SIZE
    } else {
        Header::SIZE + length as usize
    }
}

/// The length field of the header at the front of `held` joined with `piece`.
#[inline(always)]
fn length_in(held: &[u8], piece: &[u8]) -> u16
    requires { 24 ≤ length held.now + length piece.now }
    ensures { result ≡ number_at 2 2 (held.now ++ piece.now) }
{
    LittleEndian::read_u16(&[byte_in(held, piece, 2), byte_in(held, piece, 3)])
}

/// The byte at this index in `held` joined with `piece`.
#[inline(always)]
fn byte_in(held: &[u8], piece: &[u8], index: usize) -> u8
    requires { index < length held.now + length piece.now }
    ensures { result ≡ slice_index (held.now ++ piece.now) index }
{
    if index < held.len() {
        held[index]
    } else {
        piece[index - held.len()]
    }
}

/// Parses bytes: one whole frame, a header whose length is too long, or neither.
#[inline(never)]
pub fn parse_frame(bytes: &[u8]) -> Held<'_>
    ensures shown { Shows bytes.now result }
    ensures kind { parsed_frame result ≡ parsed bytes.now }
{
    let Some((head, body)) = bytes.split_first_chunk::<{ Header::SIZE }>() else {
        return Held::More;
    };
    let header = Header::read(head);
    // No frame has a length over 65,511.
    if header.length > LONGEST_BODY {
        Held::TooLong(header)
    } else if body.len() == header.length as usize {
        Held::Frame(FrameView { header, body })
    } else {
        Held::More
    }
}
