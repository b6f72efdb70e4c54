//! Readers and writers that fail in mid-stream, return pieces, or count.

use std::cell::Cell;
use std::io::{self, Read, Write};

/// A reader that returns a text once, and then fails.
pub(crate) struct BrokenReader<'a> {
    pub(crate) text: Option<&'a [u8]>,
}

impl Drop for BrokenReader<'_> {
    fn drop(self) {
        let BrokenReader { text: _ } = self;
    }
}

impl Read for BrokenReader<'_> {
    fn read(&mut self, into: &mut [u8]) -> io::Result<usize> {
        let mut text = self
            .text
            .take()
            .ok_or(io::Error::from(io::ErrorKind::ConnectionReset))?;
        text.read(into)
    }
}

/// A writer that takes a number of bytes, and then fails.
pub(crate) struct BrokenWriter<'a> {
    pub(crate) text: &'a mut Vec<u8>,
    pub(crate) room: usize,
}

impl Drop for BrokenWriter<'_> {
    fn drop(self) {
        let BrokenWriter { text: _, room: _ } = self;
    }
}

impl Write for BrokenWriter<'_> {
    fn write(&mut self, from: &[u8]) -> io::Result<usize> {
        if self.room == 0 {
            return Err(io::Error::from(io::ErrorKind::BrokenPipe));
        }
        let count = from.len().min(self.room);
        self.text.extend_from_slice(&from[..count])?;
        self.room -= count;
        Ok(count)
    }

    fn flush(&mut self) -> io::Result<()> {
        Ok(())
    }
}

/// A reader that returns its pieces one at a time.
pub(crate) struct PieceReader<'a> {
    pub(crate) pieces: &'a [&'a [u8]],
}

impl Drop for PieceReader<'_> {
    fn drop(self) {
        let PieceReader { pieces: _ } = self;
    }
}

impl Read for PieceReader<'_> {
    fn read(&mut self, into: &mut [u8]) -> io::Result<usize> {
        let [piece, others @ ..] = self.pieces else {
            return Ok(0);
        };
        self.pieces = others;
        let mut piece = *piece;
        piece.read(into)
    }
}

/// A reader that returns a text once, and at the second read notes how many bytes have been written.
pub(crate) struct WatchingReader<'t, 'a> {
    pub(crate) text: Option<&'t [u8]>,
    pub(crate) written: &'a Cell<usize>,
    pub(crate) seen: &'a Cell<Option<usize>>,
}

impl Drop for WatchingReader<'_, '_> {
    fn drop(self) {
        let WatchingReader {
            text: _,
            written: _,
            seen: _,
        } = self;
    }
}

impl Read for WatchingReader<'_, '_> {
    fn read(&mut self, into: &mut [u8]) -> io::Result<usize> {
        match self.text.take() {
            Some(mut text) => text.read(into),
            None => {
                if self.seen.get().is_none() {
                    self.seen.set(Some(self.written.get()));
                }
                Ok(0)
            }
        }
    }
}

/// A writer that counts the bytes that are written.
pub(crate) struct CountingWriter<'a> {
    pub(crate) written: &'a Cell<usize>,
}

impl Drop for CountingWriter<'_> {
    fn drop(self) {
        let CountingWriter { written: _ } = self;
    }
}

impl Write for CountingWriter<'_> {
    fn write(&mut self, from: &[u8]) -> io::Result<usize> {
        self.written
            .set(self.written.get().saturating_add(from.len()));
        Ok(from.len())
    }

    fn flush(&mut self) -> io::Result<()> {
        Ok(())
    }
}

/// A writer that takes every byte, but whose flush fails after `flushes` flushes.
pub(crate) struct FullWriter {
    pub(crate) flushes: usize,
}

impl Drop for FullWriter {
    fn drop(self) {
        let FullWriter { flushes: _ } = self;
    }
}

impl Write for FullWriter {
    fn write(&mut self, from: &[u8]) -> io::Result<usize> {
        Ok(from.len())
    }

    fn flush(&mut self) -> io::Result<()> {
        self.flushes = self
            .flushes
            .checked_sub(1)
            .ok_or(io::Error::from(io::ErrorKind::StorageFull))?;
        Ok(())
    }
}
