//! Frames by position. Their bytes follow each other in one block:
//!
//! ```text
//!  block    [ frame 0 | frame 1    | frame 2 | spare         ]
//!  spans    0..60, 60..118, 118..176
//! ```

ghost use Rattle.std.specs.Prelude.{◌≡◌, ◌<◌, ◌≤◌, ◌+◌, ◌^◌, ◌++◌, [], ◌∷◌, length, slice_get, IfOk, OnOk};
ghost use Rattle.std.specs.Prelude.{vec_len, vec_capacity};
ghost use Rattle.std.specs.Option.{option_map};
ghost use Rattle.enip_bench.specs.Frames.{part_of};

use std::alloc::{AllocError, Global};
use std::marker::Model;

/// The bytes of a frame within the block.
#[derive(Clone, Copy)]
pub(crate) struct Span {
    /// The index of its first byte.
    start: usize,
    /// The index after its last byte.
    end: usize,
}

/// Frames by position, from 0, each of its own size.
#[derive(Drop)]
pub struct Frames {
    block: Vec<u8>,
    spans: Vec<Span>,
}

impl Model for Frames {
    ghost use Rattle.std.specs.Prelude.{◌-◌, vec_len, vec_capacity, map};
    ghost use Rattle.enip_bench.specs.Frames.{FramesState, part_of, LieWithin};

    ghost Value = { FramesState };

    ghost view = { λ f. record {
      frames = map (part_of f.block.items) f.spans.items;
      places = vec_capacity f.spans - vec_len f.spans;
      spare = vec_capacity f.block - vec_len f.block;
    } };

    ghost invariant = { λ f. LieWithin f.block.items f.spans.items };
}

impl Frames {
    /// No frames, with capacity for this many spans.
    ///
    /// # Errors
    ///
    /// `AllocError` if memory is refused.
    pub(crate) fn with_capacity_for(alloc: Global, places: usize) -> Result<Frames, AllocError>
        ensures { IfOk result (λ made. made.frames ≡ []) }
    {
        Ok(Frames {
            block: Vec::new(alloc),
            spans: Vec::with_capacity(alloc, places)?,
        })
    }

    /// Reserves capacity for one more frame, of up to this many bytes.
    ///
    /// # Errors
    ///
    /// `AllocError` if memory is refused.
    pub(crate) fn reserve_frame(&mut self, size: usize) -> Result<(), AllocError>
        ensures kept { self.new.frames ≡ self.old.frames }
        ensures place { OnOk result (0 < self.new.places) }
        ensures room { OnOk result (size ≤ self.new.spare) }
    {
        self.spans.reserve(1)?;
        self.block.reserve(size)
    }

    /// Appends a frame within the reserved capacity. Allocates nothing.
    pub(crate) fn push(&mut self, frame: &[u8])
        requires place { 0 < self.old.places }
        requires room { length frame.now ≤ self.old.spare }
        ensures { self.new.frames ≡ self.old.frames ++ frame.now ∷ [] }
    {
        let start = self.block.len();
        append(&mut self.block, frame);
        let end = self.block.len();
        self.spans.push_reserved(Span { start, end });
    }

    /// The number of frames.
    pub fn len(&self) -> usize
        ensures count { result ≡ length self.now.frames }
        ensures bound { result < 2 ^ 63 }
    {
        self.spans.len()
    }

    /// The frame at this position, from 0. `None` if there is no such frame.
    pub fn get(&self, position: usize) -> Option<&[u8]>
        ensures { option_map (λ (frame : _). frame.now) result ≡ slice_get self.now.frames position }
    {
        if position >= self.spans.len() {
            return None;
        }
        Some(part(&self.block, self.spans[position]))
    }
}

/// Appends bytes within the capacity of a block.
fn append(block: &mut Vec<u8>, bytes: &[u8])
    requires { vec_len block.old + length bytes.now ≤ vec_capacity block.old }
    ensures { block.new.items ≡ block.old.items ++ bytes.now }
{
    let Ok(()) = block.extend_from_slice(bytes) else {
        unreachable!()
    };
}

/// The bytes of a span.
fn part(block: &[u8], span: Span) -> &[u8]
    requires rises { span.start ≤ span.end }
    requires within { span.end ≤ length block.now }
    ensures { result.now ≡ part_of block.now span }
{
    &block[span.start..span.end]
}
