//! A round of peers whose wires hold back what is written to them.

ghost use Rattle.std.specs.Prelude.{◌≡◌, List, None, IsFalse, IsTrue};
ghost use Rattle.enip_adapter.specs.declared.peer.Rights.TheVariants.{Write};
ghost use Rattle.enip_adapter.specs.Calls.{Call};
ghost use Rattle.enip_server.specs.Evictions.{with_room};
ghost use Rattle.enip_server.specs.Rounds.{ended_in, next_moment, state_of};
ghost use Rattle.kept_server.specs.Rounds.{IsAccepted, IsHeldRound, IsOneEnded, SendsNothing, TakesRound, with_marks};

use crate::guest::RoundGuest;
use arrayvec::ArrayVec;
use cip_owner::Owner;
use enip_adapter::Rights;
use enip_server::{HeldWire, Peers, RoundEnd, Wire};

/// How many wires can be marked ready in one round: a server has at most so many peers.
pub const MOST_READY: usize = 16;

/// A wire that may be ready.
#[derive(Clone, Copy, Debug, Default, PartialEq, Eq)]
pub struct ReadyWire {
    /// The slot of its peer.
    pub slot: usize,
    /// Whether the system reported that its stream has ended or failed.
    pub ends: bool,
}

/// A connection that was accepted, and what its client may do.
#[derive(Drop)]
pub struct Accepted<W> {
    pub wire: W,
    /// What the client may do.
    pub rights: Rights,
    /// The group for whom the shares count, such as the client's address.
    pub group: Option<u128>,
}

impl<W> Accepted<W> {
    /// A client that may do everything, and has no group.
    ///
    /// ```
    /// let input = RoundInput { now, accepted: Some(Accepted::writer(wire)), ready, room_for: None };
    /// ```
    pub fn writer(wire: W) -> Accepted<W>
        ensures { result ≡ record { wire = wire; rights = Write; group = None } }
    {
        Accepted {
            wire,
            rights: Rights::Write,
            group: None,
        }
    }
}

/// What the peers get in a round.
#[derive(Drop)]
pub struct RoundInput<W> {
    /// The time, in microseconds.
    pub now: u64,
    /// A connection that was accepted. It takes the first free slot; if there is none, or if its group holds its share, it
    /// is dropped, which closes it.
    pub accepted: Option<Accepted<W>>,
    /// The wires that may be ready since the last round.
    pub ready: ArrayVec<ReadyWire, MOST_READY>,
    /// The group of a client that waits for a slot, if there is one. At the end of the round a peer gives way to it, as
    /// `Peers::make_room` says, and the client is accepted in the next round.
    pub room_for: Option<u128>,
}

/// Lets the guest make its writes, adds the connection and marks the wires that may be ready, and then serves one round,
/// which the guest watches, and in which the guest's owner is asked. Then the guest admits frames for the next round. If the
/// device was reset, all peers are closed: their answers leave first, as from a peer that the adapter closed. At the end,
/// room is made for the client that waits: not before it is served, so that a slot holds one peer throughout the
/// round.
pub(crate) fn take_round<W: Wire + Drop, G: RoundGuest<W>>(
    peers: &mut Peers<HeldWire<W>>,
    input: RoundInput<W>,
    guest: &mut G,
) -> RoundEnd
    ensures round { (calls : List Call) × TakesRound W.left W.written G.RoundOwner.answer G.RoundOwner.after G.begins
        G.admits (record { input = input; calls = calls }) guest.old (state_of peers.old) guest.new (state_of peers.new)
        result }
    ensures silent { SendsNothing W.written (state_of peers.old) (state_of peers.new) }
    ensures watched { G.has_seen guest.old (state_of peers.old).adapter.state.shared.objects →
        G.has_seen guest.new (state_of peers.new).adapter.state.shared.objects }
{
    let RoundInput {
        now,
        accepted,
        ready,
        room_for,
    } = input;
    let before = peers.adapter().resets();
    let mut owner = guest.begin_round(now, peers);
    add_accepted(peers, now, accepted);
    mark_ready(peers, ready.as_slice());
    let end = serve_round(peers, now, &mut owner, guest);
    guest.admit_frames(now, peers);
    let was_reset = peers.close_if_reset(now, before);
    let gave_way = make_room(peers, now, room_for);
    RoundEnd {
        ended: end.ended + usize::from(gave_way),
        ready: end.ready || was_reset,
        next: peers.next_moment(),
    }
}

/// Serves one round, which the guest watches, and in which this owner is asked.
fn serve_round<W: Wire + Drop, O: Owner, G: RoundGuest<W>>(
    peers: &mut Peers<HeldWire<W>>,
    now: u64,
    owner: &mut O,
    guest: &mut G,
) -> RoundEnd
    ensures round { IsHeldRound W.left W.written O.answer O.after now owner.old (state_of peers.old) owner.new
        (state_of peers.new) }
    ensures watched { G.has_seen guest.old (state_of peers.old).adapter.state.shared.objects →
        G.has_seen guest.new (state_of peers.new).adapter.state.shared.objects }
    ensures ended { result.ended ≡ ended_in (state_of peers.old).slots (state_of peers.new).slots }
{
    peers.round_watched(now, owner, guest)
}

/// Makes room for a client of a group that waits for a slot. Returns whether a peer gave way to it.
fn make_room<W: Wire + Drop>(peers: &mut Peers<HeldWire<W>>, now: u64, group: Option<u128>) -> bool
    ensures room { state_of peers.new ≡ with_room (state_of peers.old) now group }
    ensures still { IsFalse result → state_of peers.new ≡ state_of peers.old }
    ensures ended { IsTrue result → IsOneEnded (state_of peers.old) (state_of peers.new) }
{
    if peers.first_free().is_some() {
        return false;
    }
    peers.make_room(now, group)
}

/// Adds a connection, if there is one. If no slot is free, it is dropped: no peer gives way to it in this round.
fn add_accepted<W: Wire + Drop>(
    peers: &mut Peers<HeldWire<W>>,
    now: u64,
    accepted: Option<Accepted<W>>,
)
    ensures { IsAccepted now accepted (state_of peers.old) (state_of peers.new) }
{
    let Some(accepted) = accepted else {
        return;
    };
    if let Some(_) = peers.first_free() {
        let wire = HeldWire::new(accepted.wire);
        let _ = peers.add_as(now, wire, accepted.rights, accepted.group);
    }
}

/// Marks these wires as ready.
fn mark_ready<W: Wire + Drop>(peers: &mut Peers<HeldWire<W>>, ready: &[ReadyWire])
    ensures { state_of peers.new ≡ with_marks ready.now (state_of peers.old) }
{
    for wire in ready {
        peers.mark_ready(wire.slot, wire.ends);
    }
}
