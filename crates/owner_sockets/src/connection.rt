//! The connection of an owner: what it sends is fed to its session line by line, and what the session has for it is
//! written.

ghost use Rattle.std.specs.Prelude.{◌≤◌, length};
ghost use Rattle.enip_server.specs.Rounds.{IsWritten, state_of};
ghost use Rattle.owner_port.specs.Ports.{HasSeen};

use device_sockets::OwnerEnd;
use enip_server::{Peers, Wire};
use mio::net::TcpStream;
use owner_port::OwnerPort;
use retried_io::{read_some, write_some};
use std::alloc::{AllocError, Global};
use std::io::ErrorKind;
use std::net::{Shutdown, SocketAddr};

/// How many bytes a read takes at most.
const READ_SIZE: usize = 4_096;

/// A nonblocking connection of an owner.
#[derive(Drop)]
pub(crate) struct OwnerConnection {
    stream: TcpStream,
    address: SocketAddr,
    /// What was read and not fed, at most `READ_SIZE` bytes.
    input: Vec<u8>,
    /// Whether a read may give bytes.
    may_read: bool,
    /// Whether a write may take bytes.
    may_write: bool,
    /// Whether the system has reported the end of the stream, which it does only once.
    end_reported: bool,
    /// Why it is at its end.
    end: Option<OwnerEnd>,
}

impl OwnerConnection {
    /// A connection that was accepted now.
    ///
    /// # Errors
    ///
    /// `AllocError` if memory is refused.
    pub(crate) fn new(
        alloc: Global,
        stream: TcpStream,
        address: SocketAddr,
    ) -> Result<OwnerConnection, AllocError> {
        Ok(OwnerConnection {
            stream,
            address,
            input: Vec::with_capacity(alloc, READ_SIZE)?,
            may_read: true,
            may_write: true,
            end_reported: false,
            end: None,
        })
    }

    /// The address of the owner.
    pub(crate) fn address(&self) -> SocketAddr {
        self.address
    }

    /// The system reports that the connection may be ready, and whether its stream has ended or failed.
    pub(crate) fn on_ready(&mut self, ends: bool) {
        self.may_read = true;
        self.may_write = true;
        self.end_reported = self.end_reported || ends;
    }

    /// Whether the system has reported the end of the stream. There may be lines before it.
    pub(crate) fn is_leaving(&self) -> bool {
        self.end_reported
    }

    /// Feeds what was read, after one read if there is nothing left of the last one. Writes nothing: what the lines have
    /// changed may have to be kept before their answers leave.
    pub(crate) fn receive<W: Wire + Drop>(&mut self, port: &mut OwnerPort, peers: &mut Peers<W>)
        ensures writes { IsWritten (state_of peers.old) (state_of peers.new) }
        ensures seen { HasSeen port.old (state_of peers.old).adapter.state.shared.objects →
            HasSeen port.new (state_of peers.new).adapter.state.shared.objects }
    {
        if self.may_read && self.input.is_empty() && port.can_feed() {
            self.read();
        }
        let fed = feed_lines(self.input.as_slice(), port, peers);
        self.input.drain(..fed);
    }

    /// Reads once. A read that does not fill its buffer has read all there is, and the system will report what comes next.
    /// It reports the end of a stream only once, so a connection whose end is known is read on.
    fn read(&mut self) {
        if self.input.resize(READ_SIZE, 0).is_err() {
            self.end = Some(OwnerEnd::Failed);
            return;
        }
        let size = match read_some(&mut self.stream, self.input.as_mut_slice()) {
            Ok(0) => {
                self.end = Some(OwnerEnd::Closed);
                0
            }
            Ok(size) => {
                self.may_read = size == READ_SIZE || self.end_reported;
                size
            }
            Err(error) if error.kind() == ErrorKind::WouldBlock => {
                self.may_read = false;
                0
            }
            Err(_) => {
                self.end = Some(OwnerEnd::Failed);
                0
            }
        };
        self.input.truncate(size);
    }

    /// Writes once what the session has for the owner. Returns whether the system took a part of it.
    pub(crate) fn send(&mut self, port: &mut OwnerPort) -> bool {
        if !self.may_write || port.pending().is_empty() {
            return false;
        }
        match write_some(&mut self.stream, port.pending()) {
            Ok(size) if size > 0 => {
                port.written(size);
                true
            }
            Err(error) if error.kind() == ErrorKind::WouldBlock => {
                self.may_write = false;
                false
            }
            _ => {
                self.may_write = false;
                self.end = Some(OwnerEnd::Failed);
                false
            }
        }
    }

    /// Whether the stream is at its end, or has failed.
    pub(crate) fn has_ended(&self) -> bool {
        self.end.is_some()
    }

    /// Why the connection is over, if it is.
    pub(crate) fn over(&self, port: &OwnerPort) -> Option<OwnerEnd> {
        if self.end.is_some() {
            return self.end;
        }
        match port.ending() {
            Some(end) => Some(OwnerEnd::Session(end)),
            None => None,
        }
    }

    /// Whether the connection has something to do at once: lines to feed, a read or a write.
    pub(crate) fn is_ready(&self, port: &OwnerPort) -> bool {
        let receives = port.can_feed() && (self.may_read || !self.input.is_empty());
        let sends = self.may_write && !port.pending().is_empty();
        receives || sends
    }

    /// The stream without its writing side, so that the owner can still read the last line.
    pub(crate) fn into_shut(self) -> TcpStream {
        let OwnerConnection {
            stream,
            address: _,
            input: _,
            may_read: _,
            may_write: _,
            end_reported: _,
            end: _,
        } = self;
        let _ = stream.shutdown(Shutdown::Write);
        stream
    }
}

/// Feeds lines of an owner, as far as the port takes them. Returns how many bytes were fed.
fn feed_lines<W: Wire + Drop>(bytes: &[u8], port: &mut OwnerPort, peers: &mut Peers<W>) -> usize
    ensures within { result ≤ length bytes.now }
    ensures writes { IsWritten (state_of peers.old) (state_of peers.new) }
    ensures seen { HasSeen port.old (state_of peers.old).adapter.state.shared.objects →
        HasSeen port.new (state_of peers.new).adapter.state.shared.objects }
{
    let mut left = bytes;
    for _ in 0..bytes.len() {
        if left.is_empty() || !port.can_feed() {
            break;
        }
        left = port.feed(left, peers);
    }
    bytes.len().saturating_sub(left.len())
}
