//! A scripted wire: each call must be the next one of the script.

use enip_server::{ReadOutcome, Wire, WireCounts};
use std::cell::Cell;

/// A call of a wire, with its result.
#[derive(Clone, Copy, Debug)]
pub(super) enum Call<'a> {
    /// A read returns these bytes, and more may be available.
    Gives(&'a [u8]),
    /// A read returns these bytes, and no more are available.
    GivesAll(&'a [u8]),
    /// A read would block.
    Later,
    /// A read returns the end of the stream.
    Ends,
    /// A read fails.
    Fails,
    /// Exactly these bytes are written, and this many of them are taken.
    Takes(&'a [u8], usize),
    /// Exactly these bytes are written, and the write fails.
    Refuses(&'a [u8]),
    /// The writing side is shut.
    Shuts,
}

/// A scripted wire.
#[derive(Drop)]
pub(super) struct ScriptedWire<'a> {
    calls: &'a [Call<'a>],
    /// How many calls were made, or `usize::MAX` after a call that is not the next one.
    made: &'a Cell<usize>,
    counts: WireCounts,
}

impl<'a> ScriptedWire<'a> {
    /// A wire with these calls, which are counted in `made`.
    pub(super) fn new(calls: &'a [Call<'a>], made: &'a Cell<usize>) -> ScriptedWire<'a> {
        ScriptedWire {
            calls,
            made,
            counts: WireCounts::new(),
        }
    }

    fn next(&mut self) -> Option<Call<'a>> {
        let next = self.calls.get(self.made.get()).copied();
        self.made.set(self.made.get().saturating_add(1));
        next
    }

    fn wrong(&mut self) {
        self.made.set(usize::MAX);
    }

    fn read_next(&mut self, into: &mut [u8]) -> ReadOutcome {
        match self.next() {
            Some(Call::Gives(bytes)) if bytes.len() <= into.len() => {
                into[..bytes.len()].copy_from_slice(bytes);
                ReadOutcome::Bytes(bytes.len())
            }
            Some(Call::GivesAll(bytes)) if bytes.len() <= into.len() => {
                into[..bytes.len()].copy_from_slice(bytes);
                ReadOutcome::Drained(bytes.len())
            }
            Some(Call::Later) => ReadOutcome::WouldBlock,
            Some(Call::Ends) => ReadOutcome::End,
            Some(Call::Fails) => ReadOutcome::Failed,
            _ => {
                self.wrong();
                ReadOutcome::Failed
            }
        }
    }

    fn write_next(&mut self, from: &[u8]) -> Option<usize> {
        match self.next() {
            Some(Call::Takes(bytes, size)) if bytes == from => Some(size),
            Some(Call::Refuses(bytes)) if bytes == from => None,
            _ => {
                self.wrong();
                None
            }
        }
    }
}

impl Wire for ScriptedWire<'_> {
    ghost left = { λ _. None };

    ghost written = { λ _. None };

    ghost known = { λ _. None };

    ghost counts = { λ wire. wire.counts };

    fn read(&mut self, into: &mut [u8]) -> ReadOutcome {
        let came = self.read_next(into);
        self.counts.add_read(came);
        came
    }

    fn write(&mut self, from: &[u8]) -> Option<usize> {
        let taken = self.write_next(from);
        self.counts.add_write(taken);
        taken
    }

    fn shut(&mut self) {
        if !matches!(self.next(), Some(Call::Shuts)) {
            self.wrong();
        }
    }
}
