//! A client's TCP connection as a source and a sink of bytes. The calls block.

ghost use Rattle.std.specs.Prelude.{◌≡◌, ◌≤◌, None, IfOk, length};

use crate::host_port::Timeout;
use crate::reason::{NamedReason, Reason};
use enip_wire::{Failed, Sink, Source};
use retried_io::{read_some, write_some};
use std::io::{self, ErrorKind};
use std::net::TcpStream;
use std::rt::Clock;
use std::time::Instant;

/// Why a connection can no longer be read or written.
#[derive(Clone, Copy)]
pub enum StreamFault {
    /// The other end shut its writing side.
    Ended,
    /// The system reports an error.
    Failed(io::Error),
    /// The deadline of the command is over.
    DeadlineOver,
}

impl StreamFault {
    /// The reason to print for a connection to an address, with the timeout that it had.
    pub fn reason<'a>(self, address: &'a str, timeout: Timeout<'a>) -> Reason<'a> {
        match self {
            StreamFault::Ended => Reason::Named(address, NamedReason::Disconnected),
            StreamFault::Failed(error) => timeout.reason(address, error),
            StreamFault::DeadlineOver => timeout.deadline_reason(address),
        }
    }
}

/// The reading side of a connection. Its moments are microseconds since `start`.
#[derive(Drop)]
pub struct SocketSource<'a, C> {
    stream: &'a TcpStream,
    clock: &'a C,
    start: Instant,
    timeout: Timeout<'a>,
    moment: u64,
    reads: u64,
    failures: u64,
    fault: Option<StreamFault>,
}

impl<'a, C: Clock> SocketSource<'a, C> {
    /// The reading side of a new connection, with this timeout of each read.
    pub fn new(
        stream: &'a TcpStream,
        clock: &'a C,
        start: Instant,
        timeout: Timeout<'a>,
    ) -> SocketSource<'a, C>
        ensures failures { result.failures ≡ 0 }
        ensures reads { result.reads ≡ 0 }
    {
        SocketSource {
            stream,
            clock,
            start,
            timeout,
            moment: 0,
            reads: 0,
            failures: 0,
            fault: None,
        }
    }

    /// Why the last read gave nothing, if it did.
    pub fn fault(&self) -> Option<StreamFault>
        ensures { result ≡ self.now.fault }
    {
        self.fault
    }

    /// Whether the last read took as long as the timeout.
    pub fn is_timed_out(&self) -> bool {
        match self.fault {
            Some(StreamFault::Failed(error)) => is_timeout(&error),
            _ => false,
        }
    }

    /// Reads once, within the timeout and before the deadline.
    fn read_in_time(&self, into: &mut [u8]) -> Result<usize, StreamFault>
        ensures { IfOk result (λ n. n ≤ length into.new) }
    {
        self.set_timeout()?;
        let mut stream = self.stream;
        match read_some(&mut stream, into) {
            Ok(count) => Ok(count),
            Err(error) => Err(self.fault_of(error)),
        }
    }

    /// Sets the timeout of the next read, if there is a deadline. Without one it is that of the connection.
    fn set_timeout(&self) -> Result<(), StreamFault> {
        if !self.timeout.has_deadline() {
            return Ok(());
        }
        if self.timeout.deadline_over(self.clock).is_some() {
            return Err(StreamFault::DeadlineOver);
        }
        match self
            .stream
            .set_read_timeout(self.timeout.next_limit(self.clock))
        {
            Ok(()) => Ok(()),
            Err(error) => Err(self.fault_of(error)),
        }
    }

    /// What an error of the system means: an error after the deadline is its end.
    fn fault_of(&self, error: io::Error) -> StreamFault {
        match self.timeout.deadline_over(self.clock) {
            Some(_) => StreamFault::DeadlineOver,
            None => StreamFault::Failed(error),
        }
    }
}

/// Whether an error of the system is the end of a timeout.
fn is_timeout(error: &io::Error) -> bool {
    matches!(error.kind(), ErrorKind::WouldBlock | ErrorKind::TimedOut)
}

impl<C: Clock> Source for SocketSource<'_, C> {
    ghost left = { λ _. None };

    ghost moment = { λ s. s.moment };

    ghost reads = { λ s. s.reads };

    ghost failures = { λ s. s.failures };

    fn read(&mut self, into: &mut [u8]) -> Result<usize, Failed> {
        self.reads += 1;
        let count = self.read_in_time(into);
        match (count, self.start.elapsed(self.clock)) {
            (Ok(0), _) => {
                self.fault = Some(StreamFault::Ended);
                Ok(0)
            }
            (Ok(count), Ok(elapsed)) => {
                self.moment = u64::try_from(elapsed.as_micros()).unwrap_or(u64::MAX);
                Ok(count)
            }
            (Err(fault), _) => {
                self.fault = Some(fault);
                self.failures += 1;
                Err(Failed)
            }
            (Ok(_), Err(error)) => {
                self.fault = Some(StreamFault::Failed(error));
                self.failures += 1;
                Err(Failed)
            }
        }
    }

    fn moment(&self) -> u64 {
        self.moment
    }

    fn reads(&self) -> u64 {
        self.reads
    }

    fn failures(&self) -> u64 {
        self.failures
    }
}

/// The writing side of a connection. The first write of a frame gets the whole frame, and each further one the rest.
#[derive(Drop)]
pub struct SocketSink<'a> {
    stream: &'a TcpStream,
    frames: u64,
    unwritten: usize,
    failures: u64,
    fault: Option<StreamFault>,
}

impl<'a> SocketSink<'a> {
    /// The writing side of a new connection.
    pub fn new(stream: &'a TcpStream) -> SocketSink<'a>
        ensures { result.failures ≡ 0 }
    {
        SocketSink {
            stream,
            frames: 0,
            unwritten: 0,
            failures: 0,
            fault: None,
        }
    }

    /// How many frames were passed to the system, the last one maybe in part.
    pub fn frames(&self) -> u64
        ensures { result ≡ self.now.frames }
    {
        self.frames
    }

    /// Why the last write failed, if it did.
    pub fn fault(&self) -> Option<StreamFault>
        ensures { result ≡ self.now.fault }
    {
        self.fault
    }
}

impl Sink for SocketSink<'_> {
    ghost written = { λ _. None };

    ghost failures = { λ s. s.failures };

    fn write(&mut self, from: &[u8]) -> Result<usize, Failed> {
        if self.unwritten == 0 {
            self.frames = self.frames.saturating_add(1);
        }
        let mut stream = self.stream;
        let error = match write_some(&mut stream, from) {
            Ok(count) if count > 0 || from.is_empty() => {
                self.unwritten = from.len().saturating_sub(count);
                return Ok(count);
            }
            Ok(_) => io::Error::from(ErrorKind::WriteZero),
            Err(error) => error,
        };
        self.fault = Some(StreamFault::Failed(error));
        self.failures += 1;
        Err(Failed)
    }

    fn failures(&self) -> u64 {
        self.failures
    }
}
