//! The sockets of a device for its owner: where it listens for one, and the connection of the one that there is.

ghost use Rattle.std.specs.Prelude.{◌≡◌, ◌≤◌, ◌<◌, IsTrue};
ghost use Rattle.owner_sockets.specs.Owners.{owner_refusal};
ghost use Rattle.enip_server.specs.Rounds.{IsWritten, state_of};
ghost use Rattle.owner_port.specs.Ports.{HasSeen};

use crate::connection::OwnerConnection;
use device_sockets::{Acceptor, OwnerEnd, OwnerEvent, OwnerLog, OwnerRefusal, earlier};
use enip_access::address_number;
use enip_adapter::Adapter;
use enip_server::{LINGER, Peers, Wire};
use mio::net::{TcpListener, TcpStream};
use mio::{Interest, Registry, Token};
use owner_port::OwnerPort;
use std::alloc::Global;
use std::io;
use std::net::SocketAddr;

/// The tokens of the listener and of the connection. The device's own sockets have lesser ones.
pub(crate) const OWNER_LISTENER: usize = 66;

pub(crate) const OWNER: usize = 67;

/// For how many rounds a new owner is deferred while lines of one that has left are fed.
const MAX_ROUNDS_DEFERRED: u32 = 64;

/// How often in a round commands are handed over and written.
const MAX_WRITES: u32 = 4;

/// The stream of a connection that the device ended. The owner can still read the last line.
#[derive(Drop)]
struct ShutStream {
    stream: TcpStream,
    /// When it is closed.
    until: u64,
}

/// The sockets of a device for its owner.
pub struct OwnerSockets<L: OwnerLog + Drop> {
    alloc: Global,
    acceptor: Acceptor,
    /// The only address from which an owner may come, as a number.
    from: Option<u128>,
    connection: Option<OwnerConnection>,
    shut: Option<ShutStream>,
    /// For how many rounds the next connection has been deferred.
    rounds_deferred: u32,
    log: L,
}

// Written out, so that each exit of a function that owns one calls it, and has no drop of every part.
impl<L: OwnerLog + Drop> Drop for OwnerSockets<L> {
    fn drop(self) {
        let OwnerSockets {
            alloc: _,
            acceptor: _,
            from: _,
            connection: _,
            shut: _,
            rounds_deferred: _,
            log: _,
        } = self;
    }
}

impl<L: OwnerLog + Drop> OwnerSockets<L> {
    /// No owner has come yet.
    pub fn new(
        alloc: Global,
        listener: TcpListener,
        from: Option<u128>,
        log: L,
    ) -> OwnerSockets<L> {
        OwnerSockets {
            alloc,
            acceptor: Acceptor::new(listener),
            from,
            connection: None,
            shut: None,
            rounds_deferred: 0,
            log,
        }
    }

    /// Has the system report the listener.
    pub(crate) fn register(&mut self, registry: &Registry) -> io::Result<()> {
        self.acceptor.register(registry, OWNER_LISTENER)
    }

    /// The system has reported the listener as readable.
    pub(crate) fn on_acceptable(&mut self) {
        self.acceptor.on_readable();
    }

    /// The system reports that the connection may be ready, and whether its stream has ended or failed.
    pub(crate) fn on_ready(&mut self, ends: bool) {
        if let Some(connection) = &mut self.connection {
            connection.on_ready(ends);
        }
    }

    /// A descriptor was closed.
    pub(crate) fn on_descriptor_freed(&mut self) {
        self.acceptor.on_descriptor_freed();
    }

    /// Receives lines of the owner. Writes nothing to it.
    pub(crate) fn receive<W: Wire + Drop>(&mut self, port: &mut OwnerPort, peers: &mut Peers<W>)
        ensures writes { IsWritten (state_of peers.old) (state_of peers.new) }
        ensures seen { HasSeen port.old (state_of peers.old).adapter.state.shared.objects →
            HasSeen port.new (state_of peers.new).adapter.state.shared.objects }
    {
        if let Some(connection) = &mut self.connection {
            connection.receive(port, peers);
        }
    }

    /// An owner that has left gets the last answers, and its session ends.
    pub(crate) fn end_left(&mut self, now: u64, port: &mut OwnerPort) {
        let has_ended = match &mut self.connection {
            Some(connection) if connection.has_ended() => {
                connection.send(port);
                true
            }
            _ => false,
        };
        if has_ended {
            self.end_if_over(now, port);
        }
    }

    /// Accepts the next connection, if there is one. It is the owner's, or it is closed at once. One whose token has not
    /// come gives way to it.
    pub(crate) fn accept(
        &mut self,
        now: u64,
        registry: &Registry,
        port: &mut OwnerPort,
        adapter: &Adapter,
    ) {
        if !self.acceptor.readiness().is_due(now) || self.is_deferred() {
            return;
        }
        let Some((stream, address)) = self.acceptor.accept(now) else {
            return;
        };
        let has_owner = self.connection.is_some() && !port.awaits_token();
        if let Some(why) = owner_refusal(self.from, address_number(address.ip()), has_owner) {
            self.log.owner(address, OwnerEvent::Refused(why));
            return;
        }
        self.give_way(port);
        if self.connect(registry, stream, address) {
            port.begin(adapter);
        }
    }

    /// Ends a connection whose token has not come, so that nobody without the token keeps an owner out.
    fn give_way(&mut self, port: &mut OwnerPort) {
        if let Some(connection) = self.connection.take() {
            self.log.owner(
                connection.address(),
                OwnerEvent::Disconnected(OwnerEnd::Replaced),
            );
            port.end();
        }
    }

    /// Whether the next connection is deferred to the next round: the owner has left, and its last lines are fed before.
    fn is_deferred(&mut self) -> bool
        ensures counted { IsTrue result → self.old.rounds_deferred < self.new.rounds_deferred }
        ensures limit { IsTrue result → self.new.rounds_deferred ≤ 64 }
    {
        let is_leaving = match &self.connection {
            Some(connection) => connection.is_leaving(),
            None => false,
        };
        if is_leaving && self.rounds_deferred < MAX_ROUNDS_DEFERRED {
            self.rounds_deferred += 1;
            return true;
        }
        self.rounds_deferred = 0;
        false
    }

    /// Makes a stream the connection of the owner. Returns whether the system and the memory allow it.
    fn connect(&mut self, registry: &Registry, stream: TcpStream, address: SocketAddr) -> bool {
        let mut stream = stream;
        let interests = Interest::READABLE | Interest::WRITABLE;
        if registry
            .register(&mut stream, Token(OWNER), interests)
            .is_err()
        {
            return false;
        }
        let Ok(connection) = OwnerConnection::new(self.alloc, stream, address) else {
            return false;
        };
        self.log.owner(address, OwnerEvent::Connected);
        self.connection = Some(connection);
        true
    }

    /// Hands over the commands that are marked, after a round, and writes what the session has for the owner.
    pub(crate) fn send(&mut self, now: u64, port: &mut OwnerPort, adapter: &Adapter) {
        for _ in 0..MAX_WRITES {
            // What is written makes space for further commands.
            port.hand_over(adapter);
            let is_sent = match &mut self.connection {
                Some(connection) => connection.send(port),
                None => false,
            };
            if !is_sent {
                break;
            }
        }
        self.end_if_over(now, port);
        if matches!(&self.shut, Some(shut) if now >= shut.until) {
            self.shut = None;
            self.acceptor.on_descriptor_freed();
        }
    }

    /// Ends the session if its connection is over.
    fn end_if_over(&mut self, now: u64, port: &mut OwnerPort) {
        let Some(connection) = self.connection.take() else {
            return;
        };
        let Some(end) = connection.over(port) else {
            self.connection = Some(connection);
            return;
        };
        self.log
            .owner(connection.address(), OwnerEvent::Disconnected(end));
        port.end();
        if let OwnerEnd::Session(_) = end {
            self.shut = Some(ShutStream {
                stream: connection.into_shut(),
                until: now.saturating_add(LINGER),
            });
        }
        self.acceptor.on_descriptor_freed();
    }

    /// Whether the owner has something to be done at once.
    pub(crate) fn is_ready(&self, port: &OwnerPort) -> bool {
        match &self.connection {
            Some(connection) => connection.is_ready(port),
            None => false,
        }
    }

    /// The earliest time at which a round is due although the system reports nothing.
    pub(crate) fn next_moment(&self) -> Option<u64> {
        let next = self.acceptor.readiness().next_try();
        match &self.shut {
            Some(shut) => earlier(next, Some(shut.until)),
            None => next,
        }
    }
}

/// Why the connection of an owner from this address, given as a number, is closed at once. `None` if it is not.
fn owner_refusal(from: Option<u128>, address: u128, has_owner: bool) -> Option<OwnerRefusal>
    ensures { result ≡ owner_refusal from address has_owner }
{
    match from {
        Some(only) if only != address => Some(OwnerRefusal::Address),
        _ if has_owner => Some(OwnerRefusal::Busy),
        _ => None,
    }
}
