//! Peers of a device of which nothing is kept.

ghost use Rattle.std.specs.Prelude.{◌≡◌, []};
ghost use Rattle.device_rounds.specs.Rounds.{IsAddedIfAny, IsNotEmpty, IsUnkeptRound, MayHaveSent, UnkeptRequests, may_have_sent};
ghost use Rattle.enip_adapter.specs.Calls.{AdapterState};
ghost use Rattle.enip_server.specs.Evictions.{with_room};
ghost use Rattle.enip_server.specs.Rounds.{state_of};
ghost use Rattle.kept_server.specs.Rounds.{with_marks};

use crate::round_device::RoundDevice;
use device_sockets::UnkeptGuest;
use enip_keep::{Device, Entry, KeepError};
use enip_server::{FrameWire, Peers, RoundEnd, Wire};
use kept_server::{Accepted, KeptDevice, ReadyWire, RoundInput};
use std::alloc::Global;
use std::marker::PhantomData;

/// The peers of a device of which nothing is kept: their answers leave at once, and a round compares and copies nothing of the
/// state.
///
/// It is the device of an `enip_keep::Server` whose keeper is `NoKeeper`. `G` is the guest of the rounds: the port of an owner,
/// or `NoWatcher` if the device has none.
pub struct UnkeptPeers<W: Wire + Drop, C: KeptDevice, G> {
    peers: Peers<W>,
    last_round: RoundEnd,
    configuration: PhantomData<C>,
    guest: PhantomData<G>,
}

// Written out, so that each exit of a function that owns one calls it, and has no drop of every part.
impl<W: Wire + Drop, C: KeptDevice, G> Drop for UnkeptPeers<W, C, G> {
    fn drop(self) {
        let UnkeptPeers {
            peers: _,
            last_round: _,
            configuration: _,
            guest: _,
        } = self;
    }
}

impl<W: Wire + Drop, C: KeptDevice, G: UnkeptGuest<W>> Device for UnkeptPeers<W, C, G> {
    type Configuration = C;

    type Input = RoundInput<W>;

    type Guest = G;

    ghost Contents = { AdapterState };

    ghost Requests = { UnkeptRequests W };

    ghost executed = { λ adapter requests. requests.adapter };

    ghost kept_part = { λ adapter. [] };

    ghost started = { λ configuration found. C.started configuration [] };

    ghost refuses = { λ configuration found. IsNotEmpty found };

    ghost brings = { λ input requests. requests.input ≡ input };

    ghost contents = { λ d. (state_of d.peers).adapter };

    ghost known_kept = { λ d. [] };

    ghost sends_nothing = { λ old new. MayHaveSent old new };

    ghost holds_answers = { λ old requests new. IsUnkeptRound W.left W.written W.known W.counts G.RoundOwner.answer
        G.RoundOwner.after G.begins G.admits requests.input (state_of old.peers) (state_of new.peers) new.last_round };

    ghost sends_held = { λ old new. new ≡ old };

    fn start(alloc: Global, configuration: &C, entries: &[Entry]) -> Result<Self, KeepError> {
        match entries.split_first() {
            None => {}
            Some(_) => return Err(KeepError::Refused),
        }
        let adapter = configuration.first(alloc)?;
        let peers = Peers::new(alloc, adapter, configuration.idle_timeout())?;
        let last_round = RoundEnd {
            ended: 0,
            ready: false,
            next: peers.next_moment(),
        };
        Ok(UnkeptPeers {
            peers,
            last_round,
            configuration: PhantomData,
            guest: PhantomData,
        })
    }

    fn serve(&mut self, input: RoundInput<W>, guest: &mut G) -> Result<(), KeepError> {
        self.last_round = take_round(&mut self.peers, input, guest);
        Ok(())
    }

    fn changes(&self) -> &[Entry] {
        &[]
    }

    fn release(&mut self) {}

    ghost silent = { λ d. may_have_sent d };
}

impl<W: Wire + Drop, C: KeptDevice, G: UnkeptGuest<FrameWire<W>>> RoundDevice<W, G>
    for UnkeptPeers<FrameWire<W>, C, G> {
    type PeerWire = FrameWire<W>;

    ghost state = { λ d. state_of d.peers };

    ghost last = { λ d. d.last_round };

    fn peers(&self) -> &Peers<FrameWire<W>> {
        &self.peers
    }

    fn last_round(&self) -> RoundEnd {
        self.last_round
    }
}

/// Lets the guest make its writes, adds the connection and marks the wires that may be ready, and then serves one round,
/// which the guest watches, and in which the guest's owner is asked. Then the guest admits frames for the next round. If the
/// device was reset, all peers are closed. At the end, room is made for the client that waits.
fn take_round<W: Wire + Drop, G: UnkeptGuest<W>>(
    peers: &mut Peers<W>,
    input: RoundInput<W>,
    guest: &mut G,
) -> RoundEnd
    ensures { IsUnkeptRound W.left W.written W.known W.counts G.RoundOwner.answer G.RoundOwner.after G.begins G.admits
        input (state_of peers.old) (state_of peers.new) result }
{
    let RoundInput {
        now,
        accepted,
        ready,
        room_for,
    } = input;
    let before = peers.adapter().resets();
    let mut owner = guest.begin_round(now, peers);
    add_accepted(peers, now, accepted);
    mark_ready(peers, ready.as_slice());
    let end = peers.round_watched(now, &mut owner, guest);
    let is_admitted = guest.admit_frames(now, peers);
    let was_reset = peers.close_if_reset(now, before);
    let gave_way = make_room(peers, now, room_for);
    RoundEnd {
        ended: end.ended.saturating_add(usize::from(gave_way)),
        ready: end.ready || is_admitted || was_reset,
        next: peers.next_moment(),
    }
}

/// Makes room for a client of a group that waits for a slot. Returns whether a peer gave way to it.
fn make_room<W: Wire + Drop>(peers: &mut Peers<W>, now: u64, group: Option<u128>) -> bool
    ensures { state_of peers.new ≡ with_room (state_of peers.old) now group }
{
    if peers.first_free().is_some() {
        return false;
    }
    peers.make_room(now, group)
}

/// Adds a connection, if there is one. If no slot is free, it is dropped: no peer gives way to it in this round.
fn add_accepted<W: Wire + Drop>(peers: &mut Peers<W>, now: u64, accepted: Option<Accepted<W>>)
    ensures { IsAddedIfAny now accepted (state_of peers.old) (state_of peers.new) }
{
    let Some(accepted) = accepted else {
        return;
    };
    if let Some(_) = peers.first_free() {
        let _ = peers.add_as(now, accepted.wire, accepted.rights, accepted.group);
    }
}

/// Marks these wires as ready.
fn mark_ready<W: Wire + Drop>(peers: &mut Peers<W>, ready: &[ReadyWire])
    ensures { state_of peers.new ≡ with_marks ready.now (state_of peers.old) }
{
    for wire in ready {
        peers.mark_ready(wire.slot, wire.ends);
    }
}
