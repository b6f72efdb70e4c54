//! A nonblocking TCP connection as a peer's wire.

ghost use Rattle.std.specs.Prelude.{◌≡◌, ◌<◌, ◌≤◌, length, None, IfSome};
ghost use Rattle.device_sockets.specs.Reads.{IsDrainedOnlyIfShort};
ghost use Rattle.enip_server.specs.Wires.{IsRead, after_read};

use enip_server::{ReadOutcome, Wire, WireCounts};
use enip_wire::Header;
use mio::net::TcpStream;
use owner_port::HasAddress;
use retried_io::{read_some, write_some};
use std::io::ErrorKind;
use std::net::{IpAddr, Shutdown, SocketAddr};

/// A nonblocking TCP connection.
#[derive(Drop)]
pub struct TcpWire {
    stream: TcpStream,
    /// The address of the client.
    address: IpAddr,
    counts: WireCounts,
}

impl TcpWire {
    /// The wire of a new connection to a client at this address.
    pub fn new(stream: TcpStream, address: SocketAddr) -> TcpWire {
        TcpWire {
            stream,
            address: address.ip().to_canonical(),
            counts: WireCounts::new(),
        }
    }

    /// As `read`, but never reports that it read all, so that another read follows once these bytes are served.
    pub fn read_partial(&mut self, into: &mut [u8]) -> ReadOutcome
        requires { 0 < length into.old }
        ensures read { IsRead None None result into.new }
        ensures counts { self.new.counts ≡ after_read result self.old.counts }
    {
        let outcome = match read_now(&mut self.stream, into) {
            ReadOutcome::Drained(size) => ReadOutcome::Bytes(size),
            outcome => outcome,
        };
        self.counts.add_read(outcome);
        outcome
    }
}

impl HasAddress for TcpWire {
    ghost address_of = { λ wire. wire.address };

    fn address(&self) -> IpAddr {
        self.address
    }
}

impl Wire for TcpWire {
    ghost left = { λ _. None };

    ghost written = { λ _. None };

    ghost known = { λ _. None };

    ghost counts = { λ wire. wire.counts };

    fn read(&mut self, into: &mut [u8]) -> ReadOutcome {
        let outcome = read_now(&mut self.stream, into);
        self.counts.add_read(outcome);
        outcome
    }

    fn write(&mut self, from: &[u8]) -> Option<usize> {
        let taken = write_now(&mut self.stream, from);
        self.counts.add_write(taken);
        taken
    }

    fn shut(&mut self) {
        let _ = self.stream.shutdown(Shutdown::Write);
    }
}

/// Reads once. A read that does not fill its buffer has read all there is, and the system will report what comes next.
/// After a read that is shorter than a header another one follows all the same. That happens once in a frame at most.
fn read_now(stream: &mut TcpStream, into: &mut [u8]) -> ReadOutcome
    requires { 0 < length into.old }
    ensures read { IsRead None None result into.new }
    ensures short { IsDrainedOnlyIfShort (length into.new) result }
{
    match read_some(stream, into) {
        Ok(0) => ReadOutcome::End,
        Ok(size) if size < into.len() && size >= Header::SIZE => ReadOutcome::Drained(size),
        Ok(size) => ReadOutcome::Bytes(size),
        Err(error) if error.kind() == ErrorKind::WouldBlock => ReadOutcome::WouldBlock,
        Err(_) => ReadOutcome::Failed,
    }
}

/// Writes once. Returns how many of the bytes were written.
fn write_now(stream: &mut TcpStream, from: &[u8]) -> Option<usize>
    ensures { IfSome result (λ n. n ≤ length from.now) }
{
    match write_some(stream, from) {
        Ok(0) if !from.is_empty() => None,
        Ok(size) => Some(size),
        Err(error) if error.kind() == ErrorKind::WouldBlock => Some(0),
        Err(_) => None,
    }
}
