//! The owner of a device as its rounds use it: the port for its lines, and its sockets.

ghost use Rattle.std.specs.Prelude.{◌≡◌, ◌<◌, false};
ghost use Rattle.cip_ledger.specs.Device.{Device};
ghost use Rattle.enip_server.specs.Rounds.{IsWritten, state_of};
ghost use Rattle.owner_port.specs.Asking.{IsPass};
ghost use Rattle.owner_port.specs.Ports.{HasSeen};

use crate::sockets::{OWNER, OWNER_LISTENER, OwnerSockets};
use device_sockets::{OwnerLog, earlier};
use enip_adapter::Adapter;
use enip_server::{GatedWire, Peers, RoundEnd, Wire};
use mio::Registry;
use owner_port::{HasAddress, OwnerPort};
use std::io;

/// The port and the sockets of an owner.
///
/// In a round `receive` comes first, then the frames of peers, which the port watches, and then `ask`. The calls that write to
/// the owner, `admit` and `send`, come when the round is over: no `ok`, no `changed`, no question and no command leaves before
/// what it reports is kept, and before the mark that a command was handed over.
pub struct OwnerLink<L: OwnerLog + Drop> {
    pub(crate) port: OwnerPort,
    sockets: OwnerSockets<L>,
}

// Written out, so that each exit of a function that owns one calls it, and has no drop of every part.
impl<L: OwnerLog + Drop> Drop for OwnerLink<L> {
    fn drop(self) {
        let OwnerLink {
            port: _,
            sockets: _,
        } = self;
    }
}

impl<L: OwnerLog + Drop> OwnerLink<L> {
    /// No owner has come yet.
    pub fn new(port: OwnerPort, sockets: OwnerSockets<L>) -> OwnerLink<L> {
        OwnerLink { port, sockets }
    }

    /// Has the system report the listener.
    pub(crate) fn register(&mut self, registry: &Registry) -> io::Result<()> {
        self.sockets.register(registry)
    }

    /// The system reports the socket with this token. Returns whether it is one of the owner.
    pub(crate) fn mark_ready(&mut self, token: usize, ends: bool) -> bool
        ensures { token < 64 → result ≡ false }
    {
        match token {
            OWNER_LISTENER => self.sockets.on_acceptable(),
            OWNER => self.sockets.on_ready(ends),
            _ => return false,
        }
        true
    }

    /// Begins a round: shows how many connections are open, and receives lines of the owner at the time `now`, after which
    /// it is too late for the answers that are due. Writes nothing to it.
    pub(crate) fn receive<W: Wire + Drop>(&mut self, now: u64, peers: &mut Peers<W>)
        ensures writes { IsWritten (state_of peers.old) (state_of peers.new) }
        ensures seen { HasSeen self.old.port (state_of peers.old).adapter.state.shared.objects →
            HasSeen self.new.port (state_of peers.new).adapter.state.shared.objects }
    {
        peers.show_connections();
        self.port.expire(now);
        self.sockets.receive(&mut self.port, peers);
    }

    /// Lets an owner go that has left, with the last answers, and accepts the next one.
    pub(crate) fn admit(&mut self, now: u64, registry: &Registry, adapter: &Adapter) {
        self.sockets.end_left(now, &mut self.port);
        self.sockets.accept(now, registry, &mut self.port, adapter);
    }

    /// Asks the owner what the frames that wait ask of it, after a round. Writes nothing to it. Returns whether a wire may
    /// be ready now.
    pub(crate) fn ask<W: GatedWire + HasAddress + Drop>(
        &mut self,
        now: u64,
        peers: &mut Peers<W>,
    ) -> bool
        ensures pass { IsPass W.waiting W.admitted W.address_of now self.old.port (state_of peers.old) self.new.port
            (state_of peers.new) }
        ensures seen { (device : Device) → HasSeen self.old.port device → HasSeen self.new.port device }
    {
        self.port.admit_frames(now, peers)
    }

    /// Hands over the commands that are marked, after a round, and writes what the session has for the owner. Returns the
    /// end of the round with what is due for the owner: another round, if a command waits that is not marked.
    pub(crate) fn send(&mut self, now: u64, end: RoundEnd, adapter: &Adapter) -> RoundEnd
        ensures { result.ended ≡ end.ended }
    {
        if end.ended > 0 {
            self.sockets.on_descriptor_freed();
        }
        self.sockets.send(now, &mut self.port, adapter);
        // If the session has just ended, nobody answers the questions that were open.
        let is_due = self.port.has_settled()
            || self.port.has_unmarked(adapter)
            || self.sockets.is_ready(&self.port);
        RoundEnd {
            ended: end.ended,
            ready: end.ready || is_due,
            next: earlier(end.next, self.next_moment()),
        }
    }

    /// The earliest time at which a round is due for the owner, or for a peer that waits for its answer.
    pub(crate) fn next_moment(&self) -> Option<u64> {
        // Without a limit, a deadline is never.
        let deadline = self.port.next_deadline().filter(|time| *time != u64::MAX);
        earlier(self.sockets.next_moment(), deadline)
    }
}
