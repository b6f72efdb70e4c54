//! A device that is served round by round: with a keeper, no answer leaves before what it reports is kept.

ghost use Rattle.std.specs.Prelude.{◌≡◌, ◌<◌, ◌++◌, [], ◌∷◌, length, false, None, Some, IfOk, OnOk, OnErr};
ghost use Rattle.enip_keep.specs.Kept.{Kept};
ghost use Rattle.enip_keep.specs.Server.{IsReady, IsServed};
ghost use Rattle.enip_server.specs.FrameWires.{new_frame_wire};
ghost use Rattle.enip_server.specs.Rounds.{state_of};

use crate::round_device::RoundDevice;
use arrayvec::ArrayVec;
use device_sockets::{Admission, GuestSockets, earlier};
use enip_keep::{KeepError, Keeper, Server};
use enip_server::{FrameWire, Peers, RoundEnd, Wire};
use kept_server::{Accepted, MOST_READY, ReadyWire, RoundInput};
use mio::Registry;
use std::io;

/// The peers of a device, what keeps its state, the guest of its rounds, and what the next round gets.
///
/// A device whose state is kept is `KeptPeers` of `kept_server`. One of which nothing is kept is `UnkeptPeers`, with `NoKeeper`.
/// A device without an owner has nobody (`NoWatcher`) as its guest. So all devices are served the same way.
pub struct ServedDevice<
    W: Wire + Drop,
    D: RoundDevice<W, G> + Drop,
    K: Keeper + Drop,
    G: GuestSockets + Drop,
> {
    server: Server<D, K>,
    guest: G,
    /// Whether the owner is asked while a peer waits. If not, no frame waits until it is admitted.
    asks: bool,
    /// A connection that was accepted, for the first free slot.
    accepted: Option<Accepted<FrameWire<W>>>,
    /// The wires that may be ready.
    ready: ArrayVec<ReadyWire, MOST_READY>,
    /// The group of a client that waits for a slot: a peer gives way to it in the next round.
    room_for: Option<u128>,
}

// Written out, so that each exit of a function that owns one calls it, and has no drop of every part.
impl<W: Wire + Drop, D, K: Keeper + Drop, G> Drop for ServedDevice<W, D, K, G>
where
    D: RoundDevice<W, G> + Drop,
    G: GuestSockets + Drop,
{
    fn drop(self) {
        let ServedDevice {
            server: _,
            guest: _,
            asks: _,
            accepted: _,
            ready: _,
            room_for: _,
        } = self;
    }
}

impl<W: Wire + Drop, D, K: Keeper + Drop, G> ServedDevice<W, D, K, G>
where
    D: RoundDevice<W, G> + Drop,
    G: GuestSockets + Drop,
{
    /// The device of this server, with this guest in its rounds. `asks` says whether the owner is asked while a peer waits.
    pub fn new(server: Server<D, K>, guest: G, asks: bool) -> ServedDevice<W, D, K, G>
        ensures server { result.server ≡ server }
        ensures guest { result.guest ≡ guest }
        ensures asks { result.asks ≡ asks }
        ensures nobody { (result.accepted ≡ None) × (result.ready.items ≡ []) × (result.room_for ≡ None) }
    {
        ServedDevice {
            server,
            guest,
            asks,
            accepted: None,
            ready: ArrayVec::new(),
            room_for: None,
        }
    }

    /// The peers, as the last round left them.
    pub(crate) fn peers(&self) -> &Peers<D::PeerWire>
        ensures { state_of result.now ≡ D.state self.now.server.device }
    {
        self.server.device().peers()
    }

    /// Has the system report the sockets of the guest.
    pub(crate) fn register(&mut self, registry: &Registry) -> io::Result<()>
        ensures { self.new.server ≡ self.old.server }
    {
        self.guest.register(registry)
    }

    /// Whether a slot is free. If not, a peer gives way to a client of this group at the end of the next round, and the client
    /// waits until then.
    pub(crate) fn make_room(&mut self, group: Option<u128>) -> bool
        ensures server { self.new.server ≡ self.old.server }
        ensures room { result ≡ false → self.new.room_for ≡ group }
    {
        if self.peers().first_free().is_some() {
            return true;
        }
        self.room_for = group;
        false
    }

    /// A client was admitted: the next round adds it as a peer, with the rights and the group of its admission.
    pub(crate) fn add(&mut self, wire: W, admission: Admission)
        ensures accepted { self.new.accepted ≡ Some (record {
          wire = new_frame_wire wire self.old.asks;
          rights = admission.rights;
          group = admission.group;
        }) }
        ensures server { self.new.server ≡ self.old.server }
        ensures ready { self.new.ready ≡ self.old.ready }
    {
        self.accepted = Some(Accepted {
            wire: FrameWire::new(wire, self.asks),
            rights: admission.rights,
            group: admission.group,
        });
    }

    /// The system reports that the wire of a slot, or the socket of the guest with this token, may be ready, and whether its
    /// stream has ended or failed.
    pub(crate) fn mark_ready(&mut self, token: usize, ends: bool)
        ensures ready { token < 64 → length self.old.ready.items < 16
            → self.new.ready.items ≡ self.old.ready.items ++ (record { slot = token; ends = ends }) ∷ [] }
        ensures server { self.new.server ≡ self.old.server }
        ensures accepted { self.new.accepted ≡ self.old.accepted }
    {
        if !self.guest.mark_ready(token, ends) {
            let _ = self.ready.try_push(ReadyWire { slot: token, ends });
        }
    }

    /// What the next round gets at the time `now`.
    fn input(&mut self, now: u64) -> RoundInput<FrameWire<W>>
        ensures input { result ≡ record {
          now = now;
          accepted = self.old.accepted;
          ready = self.old.ready;
          room_for = self.old.room_for;
        } }
        ensures server { self.new.server ≡ self.old.server }
        ensures nobody { (self.new.accepted ≡ None) × (self.new.ready.items ≡ []) × (self.new.room_for ≡ None) }
    {
        let mut ready = ArrayVec::new();
        std::mem::swap(&mut self.ready, &mut ready);
        RoundInput {
            now,
            accepted: self.accepted.take(),
            ready,
            room_for: self.room_for.take(),
        }
    }

    /// Serves one round at the time `now`: the client that was accepted is added, the peers that may be ready are served, what
    /// this changes is kept, and then the answers leave. Last, the guest sends what it has, and registers its new sockets.
    ///
    /// # Errors
    ///
    /// If what the round has changed cannot be kept. No answer has left then, and no further round is served.
    pub(crate) fn round(&mut self, now: u64, registry: &Registry) -> Result<RoundEnd, KeepError>
        requires ready { IsReady K.doubt K.is_up K.kept D.contents D.known_kept D.kept_part self.old.server }
        ensures ready { IsReady K.doubt K.is_up K.kept D.contents D.known_kept D.kept_part self.new.server }
        ensures served { OnOk result (IsServed D.brings D.contents D.executed D.holds_answers D.sends_nothing D.sends_held
            (record {
              now = now;
              accepted = self.old.accepted;
              ready = self.old.ready;
              room_for = self.old.room_for;
            }) self.old.server.device self.new.server.device) }
        ensures durable { K.doubt self.new.server.keeper ≡ 0 → OnOk result ((c : Kept)
            → K.may_leave self.new.server.keeper c → c ≡ D.kept_part (D.contents self.new.server.device)) }
        ensures sent { IfOk result (λ end. (guest : G) × G.ends_round now guest (D.last self.new.server.device)
            (D.state self.new.server.device).adapter self.new.guest end) }
        ensures silent { OnErr result (D.sends_nothing self.old.server.device self.new.server.device) }
        ensures nobody { (self.new.accepted ≡ None) × (self.new.ready.items ≡ []) × (self.new.room_for ≡ None) }
    {
        let input = self.input(now);
        self.server.round(input, &mut self.guest)?;
        // What the round has changed is kept: what it has for the guest may leave now.
        let device = self.server.device();
        let adapter = device.peers().adapter();
        let end = self
            .guest
            .end_round(now, registry, device.last_round(), adapter);
        Ok(end)
    }

    /// The earliest time at which a round is due although no wire is ready.
    pub(crate) fn next_moment(&self) -> Option<u64> {
        earlier(self.peers().next_moment(), self.guest.next_moment())
    }
}
