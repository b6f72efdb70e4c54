//! Answers clients that look for devices over UDP.

use device_sockets::{Observer, Readiness};
use enip_adapter::DiscoveryBuffer;
use enip_server::{Peers, Wire};
use mio::net::UdpSocket;
use std::alloc::{AllocError, Global};

/// More bytes than a datagram can have, so that none is cut off.
const DATAGRAM_CAPACITY: usize = 65_536;

/// A nonblocking UDP socket, and the buffers of a datagram and its answer.
#[derive(Drop)]
pub(crate) struct Discovery {
    socket: UdpSocket,
    readiness: Readiness,
    buffer: Vec<u8>,
    answer: DiscoveryBuffer,
}

impl Discovery {
    /// Takes over a socket. A datagram may be waiting already.
    ///
    /// # Errors
    ///
    /// `AllocError` if memory is refused.
    pub(crate) fn new(alloc: Global, socket: UdpSocket) -> Result<Discovery, AllocError> {
        Ok(Discovery {
            socket,
            readiness: Readiness::Ready,
            buffer: Vec::from_elem(alloc, 0, DATAGRAM_CAPACITY)?,
            answer: DiscoveryBuffer::new(),
        })
    }

    /// When to try the socket next.
    pub(crate) fn readiness(&self) -> Readiness {
        self.readiness
    }

    /// The system has reported the socket as readable.
    pub(crate) fn on_readable(&mut self) {
        self.readiness = self.readiness.on_readable();
    }

    /// Reads one datagram, if there is one, and sends the answer to its sender. An answer that cannot be sent is dropped.
    /// `now` is in microseconds.
    pub(crate) fn answer_one<O: Observer, W: Wire + Drop>(
        &mut self,
        peers: &Peers<W>,
        observer: &O,
        now: u64,
    ) {
        if !self.readiness.is_due(now) {
            return;
        }
        match self.socket.recv_from(&mut self.buffer) {
            Ok((size, sender)) => {
                self.readiness = Readiness::Ready;
                let datagram = &self.buffer[..size];
                if let Some(answer) = peers.discover(datagram, &mut self.answer) {
                    let _ = self.socket.send_to(answer, sender);
                    observer.answered(sender, datagram, answer);
                }
            }
            Err(error) => self.readiness = Readiness::after_error(&error, now),
        }
    }
}
