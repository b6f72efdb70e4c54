//! `enip serve`: serves a device on TCP and UDP sockets.
//!
//! A loop of rounds. In each the system reports which sockets may be ready. Then one datagram is answered, each peer that
//! may be ready has one turn, and one connection is accepted. All of a round has the same time, in microseconds since
//! the start.

ghost use Rattle.std.specs.Prelude.{◌≡◌, ◌≤◌, ◌<◌, ◌↔◌, IsSomeAnd, IsTrue, IfOk, OnOk, option_map};
ghost use Rattle.device_sockets.specs.Admission.{admitted};
ghost use Rattle.enip_keep.specs.Server.{IsReady, IsServed};

use crate::discovery::Discovery;
use crate::round_device::RoundDevice;
use crate::served_device::ServedDevice;
use device_sockets::{
    Acceptor, Admission, GuestSockets, Observer, ServeFault, TurnedAway, admit, earlier,
};
use enip_access::{Access, address_number};
use enip_adapter::Full;
use enip_keep::Keeper;
use enip_server::RoundEnd;
use mio::net::{TcpListener, TcpStream, UdpSocket};
use mio::{Events, Interest, Poll, Token};
use std::alloc::Global;
use std::io;
use std::net::{Net, SocketAddr};
use std::rt::Clock;
use std::time::{Duration, Instant};

/// The tokens of the listener and of the UDP socket. A peer's token is its slot, which is less. The sockets for an owner
/// have further ones.
const LISTENER: usize = 64;

const DATAGRAMS: usize = 65;

/// How many events the system reports at once.
const EVENT_CAPACITY: usize = 32;

/// For how many rounds a connection is deferred while all slots are taken and a peer may be about to end.
const MAX_ROUNDS_DEFERRED: u32 = 16;

/// The nonblocking sockets of a device.
#[derive(Drop)]
pub struct Sockets {
    /// Receives connections.
    pub listener: TcpListener,
    /// Receives datagrams, with --discovery.
    pub datagrams: Option<UdpSocket>,
}

/// Whom a device serves.
#[derive(Drop)]
pub struct ServeLimits {
    /// How many connections to accept.
    pub count: u64,
    /// Who may connect, and what they may do. `None`: everybody may do everything.
    pub access: Option<Access>,
}

/// Serves as many connections as the limits say, until they have come and gone. A connection that fails ends only itself.
pub fn serve_connections<
    R: Clock + Net,
    O: Observer + Drop,
    D: RoundDevice<O::Wire, G> + Drop,
    K: Keeper + Drop,
    G: GuestSockets + Drop,
>(
    rt: &R,
    alloc: Global,
    sockets: Sockets,
    device: ServedDevice<O::Wire, D, K, G>,
    limits: ServeLimits,
    observer: O,
) -> Result<(), ServeFault>
    requires { IsReady K.doubt K.is_up K.kept D.contents D.known_kept D.kept_part device.server }
{
    let mut server = Server::new(rt, alloc, device, limits, observer)?;
    server.run(rt, alloc, sockets)
}

/// The microseconds since `start`.
fn microseconds_since<C: Clock>(clock: &C, start: Instant) -> io::Result<u64> {
    let elapsed = start.elapsed(clock)?;
    Ok(u64::try_from(elapsed.as_micros()).unwrap_or(u64::MAX))
}

/// The clock and the poll of a server.
#[derive(Drop)]
struct System {
    start: Instant,
    /// Reports which sockets may be ready.
    poll: Poll,
    /// What was reported last.
    events: Events,
}

impl System {
    /// A poll without sockets.
    fn new<R: Clock + Net>(rt: &R, alloc: Global) -> io::Result<System> {
        let start = Instant::now(rt)?;
        let poll = Poll::new(rt)?;
        let events = Events::with_capacity(alloc, EVENT_CAPACITY)?;
        Ok(System {
            start,
            poll,
            events,
        })
    }
}

/// A client that was accepted and admitted, and is no peer yet.
#[derive(Drop)]
struct AcceptedClient {
    stream: TcpStream,
    address: SocketAddr,
    admission: Admission,
}

/// The peers and the sockets of a served device.
struct Server<
    O: Observer + Drop,
    D: RoundDevice<O::Wire, G> + Drop,
    K: Keeper + Drop,
    G: GuestSockets + Drop,
> {
    system: System,
    /// `None` before the sockets are open, and once all connections were accepted.
    acceptor: Option<Acceptor>,
    discovery: Option<Discovery>,
    device: ServedDevice<O::Wire, D, K, G>,
    observer: O,
    /// The end of the last round. `ready` is set if a peer was added since.
    last_round: RoundEnd,
    limits: ServeLimits,
    /// How many were accepted.
    accepted: u64,
    /// How many of these have ended.
    ended: u64,
    /// For how many rounds the next connection has been deferred.
    rounds_deferred: u32,
    /// A client to which a peer gives way in the next round.
    waiting: Option<AcceptedClient>,
}

// Written out, so that each exit of a function that owns one calls it, and has no drop of every part.
impl<O: Observer + Drop, D, K: Keeper + Drop, G> Drop for Server<O, D, K, G>
where
    D: RoundDevice<O::Wire, G> + Drop,
    G: GuestSockets + Drop,
{
    fn drop(self) {
        let Server {
            system: _,
            acceptor: _,
            discovery: _,
            device: _,
            observer: _,
            last_round: _,
            limits: _,
            accepted: _,
            ended: _,
            rounds_deferred: _,
            waiting: _,
        } = self;
    }
}

impl<O: Observer + Drop, D, K: Keeper + Drop, G> Server<O, D, K, G>
where
    D: RoundDevice<O::Wire, G> + Drop,
    G: GuestSockets + Drop,
{
    /// A server without sockets and peers.
    fn new<R: Clock + Net>(
        rt: &R,
        alloc: Global,
        device: ServedDevice<O::Wire, D, K, G>,
        limits: ServeLimits,
        observer: O,
    ) -> io::Result<Server<O, D, K, G>>
        requires { IsReady K.doubt K.is_up K.kept D.contents D.known_kept D.kept_part device.server }
        ensures device { IfOk result (λ s. s.device ≡ device) }
        ensures ready { IfOk result (λ s. IsReady K.doubt K.is_up K.kept D.contents D.known_kept D.kept_part s.device.server) }
    {
        let system = System::new(rt, alloc)?;
        let last_round = RoundEnd {
            ended: 0,
            ready: false,
            next: device.next_moment(),
        };
        Ok(Server {
            system,
            acceptor: None,
            discovery: None,
            device,
            observer,
            last_round,
            limits,
            accepted: 0,
            ended: 0,
            rounds_deferred: 0,
            waiting: None,
        })
    }

    /// Takes over the sockets. The system reports them from now on.
    fn open(&mut self, alloc: Global, sockets: Sockets) -> io::Result<()>
        ensures { self.new.device.server ≡ self.old.device.server }
    {
        let Sockets {
            listener,
            datagrams,
        } = sockets;
        self.device.register(self.system.poll.registry())?;
        self.listen(listener)?;
        match datagrams {
            Some(socket) => self.answer_datagrams(alloc, socket),
            None => Ok(()),
        }
    }

    /// Accepts connections from a listener.
    fn listen(&mut self, mut listener: TcpListener) -> io::Result<()>
        ensures { self.new.device ≡ self.old.device }
    {
        let registry = self.system.poll.registry();
        registry.register(&mut listener, Token(LISTENER), Interest::READABLE)?;
        self.acceptor = Some(Acceptor::new(listener));
        Ok(())
    }

    /// Answers datagrams from a socket.
    fn answer_datagrams(&mut self, alloc: Global, mut socket: UdpSocket) -> io::Result<()>
        ensures { self.new.device ≡ self.old.device }
    {
        let registry = self.system.poll.registry();
        registry.register(&mut socket, Token(DATAGRAMS), Interest::READABLE)?;
        self.discovery = Some(Discovery::new(alloc, socket)?);
        Ok(())
    }

    /// Takes over the sockets, and serves them until all connections have come and gone.
    fn run<R: Clock>(
        &mut self,
        clock: &R,
        alloc: Global,
        sockets: Sockets,
    ) -> Result<(), ServeFault>
        requires { IsReady K.doubt K.is_up K.kept D.contents D.known_kept D.kept_part self.old.device.server }
    {
        self.open(alloc, sockets)?;
        let mut now = 0;
        for _ in 0..u64::MAX {
            if self.is_done() {
                break;
            }
            self.wait(now)?;
            now = microseconds_since(clock, self.system.start)?;
            self.round(now)?;
        }
        Ok(())
    }

    /// Whether all connections have come and gone.
    fn is_done(&self) -> bool
        ensures { IsTrue result ↔ (self.now.limits.count ≤ self.now.ended) }
    {
        self.ended >= self.limits.count
    }

    /// Waits until a socket may be ready or a time limit is reached. `now` is the time of the last round.
    fn wait(&mut self, now: u64) -> io::Result<()>
        ensures { self.new.device.server ≡ self.old.device.server }
    {
        let timeout = self.timeout(now);
        self.system.poll.poll(&mut self.system.events, timeout)?;
        for event in &self.system.events {
            match event.token().0 {
                LISTENER => {
                    if let Some(acceptor) = &mut self.acceptor {
                        acceptor.on_readable();
                    }
                }
                DATAGRAMS => {
                    if let Some(discovery) = &mut self.discovery {
                        discovery.on_readable();
                    }
                }
                slot => {
                    let ends = event.is_read_closed() || event.is_error();
                    self.device.mark_ready(slot, ends);
                }
            }
        }
        Ok(())
    }

    /// How long the next wait may take. `None` is no limit.
    fn timeout(&self, now: u64) -> Option<Duration> {
        if self.last_round.ready {
            return Some(Duration::ZERO);
        }
        let mut next = earlier(self.last_round.next, self.observer.next_report());
        if let Some(acceptor) = &self.acceptor {
            next = earlier(next, acceptor.readiness().next_try());
        }
        if let Some(discovery) = &self.discovery {
            next = earlier(next, discovery.readiness().next_try());
        }
        match next {
            Some(time) => Some(Duration::from_micros(time.saturating_sub(now))),
            None => None,
        }
    }

    /// One round: answers a datagram, gives each peer that may be ready a turn, and accepts a connection.
    fn round(&mut self, now: u64) -> Result<(), ServeFault>
        requires ready { IsReady K.doubt K.is_up K.kept D.contents D.known_kept D.kept_part self.old.device.server }
        ensures ready { IsReady K.doubt K.is_up K.kept D.contents D.known_kept D.kept_part self.new.device.server }
        ensures served { OnOk result (IsServed D.brings D.contents D.executed D.holds_answers D.sends_nothing D.sends_held
            (record {
              now = now;
              accepted = self.old.device.accepted;
              ready = self.old.device.ready;
              room_for = self.old.device.room_for;
            }) self.old.device.server.device self.new.device.server.device) }
    {
        if let Some(discovery) = &mut self.discovery {
            discovery.answer_one(self.device.peers(), &self.observer, now);
        }
        let registry = self.system.poll.registry();
        self.last_round = match self.device.round(now, registry) {
            Ok(end) => end,
            Err(error) => return Err(ServeFault::Keep(error)),
        };
        if self.last_round.ended > 0 {
            self.ended = self.ended.saturating_add(self.last_round.ended as u64);
            if let Some(acceptor) = &mut self.acceptor {
                acceptor.on_descriptor_freed();
            }
        }
        self.accept_one(now);
        self.observer.report(now);
        Ok(())
    }

    /// Makes a client a peer: the one that waits for a slot, or else that of the next connection, if there is one. If it
    /// cannot become a peer, it is closed at once.
    fn accept_one(&mut self, now: u64)
        ensures { self.new.device.server ≡ self.old.device.server }
    {
        let client = match self.waiting.take() {
            Some(client) => Some(client),
            None => self.next_client(now),
        };
        let Some(client) = client else {
            return;
        };
        let is_added = self.find_slot(now, client);
        if !is_added {
            self.ended = self.ended.saturating_add(1);
        }
    }

    /// Accepts the next connection, if there is one. If its client is not admitted, it is closed at once.
    fn next_client(&mut self, now: u64) -> Option<AcceptedClient>
        ensures { self.new.device ≡ self.old.device }
    {
        let is_due = matches!(&self.acceptor, Some(acceptor) if acceptor.readiness().is_due(now));
        if !is_due || self.is_deferred() {
            return None;
        }
        let Some(acceptor) = &mut self.acceptor else {
            return None;
        };
        let (stream, address) = acceptor.accept(now)?;
        self.accepted = self.accepted.saturating_add(1);
        if self.accepted >= self.limits.count {
            self.acceptor = None;
        }
        let number = address_number(address.ip());
        let client = admitted_client(&self.limits.access, number, stream, address);
        if client.is_none() {
            self.observer
                .turned_away(now, address, TurnedAway::NotListed);
            self.ended = self.ended.saturating_add(1);
        }
        client
    }

    /// Whether the next connection is deferred to the next round: all slots are taken, but a peer may be about to end. If
    /// no peer is ready, the system may still have something to report, so the first deferral needs no ready peer.
    fn is_deferred(&mut self) -> bool
        ensures counted { IsTrue result → self.old.rounds_deferred < self.new.rounds_deferred }
        ensures limit { IsTrue result → self.new.rounds_deferred ≤ 16 }
        ensures same { self.new.device ≡ self.old.device }
    {
        let may_have_ended = self.last_round.ready || self.rounds_deferred == 0;
        if may_have_ended
            && self.rounds_deferred < MAX_ROUNDS_DEFERRED
            && self.device.peers().first_free().is_none()
        {
            self.rounds_deferred += 1;
            return true;
        }
        self.rounds_deferred = 0;
        false
    }

    /// Finds a slot for a client, which becomes a peer in it. If a peer gives way to it in the next round, it waits until
    /// then. Returns whether there is a slot and a session handle for it.
    fn find_slot(&mut self, now: u64, client: AcceptedClient) -> bool
        ensures { self.new.device.server ≡ self.old.device.server }
    {
        let slot = match self.device.peers().slot_for(now, client.admission.group) {
            Ok(slot) => slot,
            Err(full) => {
                self.observer
                    .turned_away(now, client.address, turned_away_by(full));
                return false;
            }
        };
        if !self.device.make_room(client.admission.group) {
            self.waiting = Some(client);
            self.last_round.ready = true;
            return true;
        }
        self.add_peer(slot, client)
    }

    /// Makes a client a peer in this slot, with the rights and the group of its admission. Returns whether it can be.
    fn add_peer(&mut self, slot: usize, client: AcceptedClient) -> bool
        ensures added { IsTrue result → IsSomeAnd self.new.device.accepted (λ accepted.
            (accepted.rights ≡ client.admission.rights) × (accepted.group ≡ client.admission.group)) }
        ensures server { self.new.device.server ≡ self.old.device.server }
    {
        let AcceptedClient {
            stream,
            address,
            admission,
        } = client;
        let mut stream = stream;
        let interests = Interest::READABLE | Interest::WRITABLE;
        let registered = self
            .system
            .poll
            .registry()
            .register(&mut stream, Token(slot), interests);
        if registered.is_err() {
            return false;
        }
        let Some(wire) = self.observer.wire(stream, address) else {
            return false;
        };
        self.device.add(wire, admission);
        self.last_round.ready = true;
        true
    }
}

/// The client of a connection from this address, which is given as a number too, with what it may do. `None` if it may not
/// connect.
fn admitted_client(
    access: &Option<Access>,
    number: u128,
    stream: TcpStream,
    address: SocketAddr,
) -> Option<AcceptedClient>
    ensures { option_map (λ client. client.admission) result ≡ admitted access.now number }
{
    match admit(access, number) {
        Some(admission) => Some(AcceptedClient {
            stream,
            address,
            admission,
        }),
        None => None,
    }
}

/// Why there is no slot for a client.
fn turned_away_by(full: Full) -> TurnedAway {
    match full {
        Full::Share => TurnedAway::Share,
        Full::Places | Full::Handles => TurnedAway::NoSlot,
    }
}
