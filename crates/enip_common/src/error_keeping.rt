//! Streams of the program that keep their last error.

ghost use Rattle.std.specs.Prelude.{◌≡◌, None};

use crate::reason::{Reason, SystemError};
use retried_io::read_some;
use std::io::{self, Read, Write};

/// A stream and its last error.
#[derive(Drop)]
pub struct ErrorKeeping<S> {
    stream: S,
    last_error: Option<io::Error>,
}

impl<S> ErrorKeeping<S> {
    /// The stream, which has not failed.
    pub fn new(stream: S) -> ErrorKeeping<S>
        ensures stream { result.stream ≡ stream }
        ensures error { result.last_error ≡ None }
    {
        ErrorKeeping {
            stream,
            last_error: None,
        }
    }

    /// Why the stream failed, if it did. `name` is what the message calls it.
    pub fn reason<'a>(&self, name: &'a str) -> Option<Reason<'a>> {
        let error = self.last_error?;
        Some(Reason::System(name, SystemError(error)))
    }
}

impl<S: Read> Read for ErrorKeeping<S> {
    fn read(&mut self, into: &mut [u8]) -> io::Result<usize> {
        let read = read_some(&mut self.stream, into);
        if let Err(error) = &read {
            self.last_error = Some(*error);
        }
        read
    }
}

impl<S: Write> Write for ErrorKeeping<S> {
    fn write(&mut self, from: &[u8]) -> io::Result<usize> {
        let written = self.stream.write(from);
        if let Err(error) = &written {
            self.last_error = Some(*error);
        }
        written
    }

    fn flush(&mut self) -> io::Result<()> {
        let flushed = self.stream.flush();
        if let Err(error) = &flushed {
            self.last_error = Some(*error);
        }
        flushed
    }
}
