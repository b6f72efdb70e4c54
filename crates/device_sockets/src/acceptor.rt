//! Accepts connections.

use crate::readiness::Readiness;
use mio::net::{TcpListener, TcpStream};
use mio::{Interest, Registry, Token};
use std::io;
use std::net::SocketAddr;

/// A nonblocking listening socket.
#[derive(Drop)]
pub struct Acceptor {
    listener: TcpListener,
    readiness: Readiness,
}

impl Acceptor {
    /// The acceptor of a listener. A connection may be waiting already.
    pub fn new(listener: TcpListener) -> Acceptor {
        Acceptor {
            listener,
            readiness: Readiness::Ready,
        }
    }

    /// Has the system report the listener under this token.
    pub fn register(&mut self, registry: &Registry, token: usize) -> io::Result<()> {
        registry.register(&mut self.listener, Token(token), Interest::READABLE)
    }

    /// When to try the listener next.
    pub fn readiness(&self) -> Readiness {
        self.readiness
    }

    /// The system has reported the listener as readable.
    pub fn on_readable(&mut self) {
        self.readiness = self.readiness.on_readable();
    }

    /// A descriptor was closed. A listener that lacked one is tried at once.
    pub fn on_descriptor_freed(&mut self) {
        self.readiness = self.readiness.on_descriptor_freed();
    }

    /// The next connection, and the address of its client. `None` if there is none, or if the listener is not to be tried
    /// yet. `now` is in microseconds.
    pub fn accept(&mut self, now: u64) -> Option<(TcpStream, SocketAddr)> {
        if !self.readiness.is_due(now) {
            return None;
        }
        match self.listener.accept() {
            Ok((stream, address)) => {
                self.readiness = Readiness::Ready;
                // Answers are small, so they are not to wait for one another.
                let _ = stream.set_nodelay(true);
                Some((stream, address))
            }
            Err(error) => {
                self.readiness = Readiness::after_error(&error, now);
                None
            }
        }
    }
}
