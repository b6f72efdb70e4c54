//! Laws that hold for every list of calls of `Peers`. Each law is the contract of a function that does nothing. It is
//! stated over the same definitions as the contracts of the calls.

ghost use Rattle.std.specs.Prelude.{ℕ, ◌≡◌, ◌≢◌, ◌<◌, ◌-◌, List, Option, Some, Result, Ok, true, slice_get};
ghost use Rattle.std.specs.List.{AllByRecursion};
ghost use Rattle.enip_adapter.specs.Asks.{asks_of_calls, owner_after};
ghost use Rattle.enip_adapter.specs.Calls.{AdapterState, Call};
ghost use Rattle.enip_adapter.specs.declared.adapter.Full.{Full};
ghost use Rattle.enip_adapter.specs.declared.peer.Rights.{Rights};
ghost use Rattle.enip_server.specs.declared.held_wire.HeldWire.{HeldWire};
ghost use Rattle.enip_server.specs.declared.peer_io.PeerIo.{PeerIo};
ghost use Rattle.enip_server.specs.Admissions.{AreShown};
ghost use Rattle.enip_server.specs.PeerStates.{PeerState, IsTurn, peer_state_of};
ghost use Rattle.enip_server.specs.Transfers.{Transfers, IsTurnCall, GoesOnWith, AreAsked};
ghost use Rattle.enip_server.specs.Rounds.{ServerState, IsRound, new_peers, new_peer_io};
ghost use Rattle.enip_server.specs.Evictions.{IsAddedAs, is_registered, slot_for, with_room};
ghost use Rattle.enip_server.specs.Held.{AreReleased};
ghost use Rattle.enip_server.specs.Runs.{IsRun, IsStep, KeepsSlot};
ghost use Rattle.enip_server.specs.Watching.{AreFrames, IsChanged};

use crate::gate::Gate;
use crate::gated_wire::GatedWire;
use crate::held_wire::HeldWire;
use crate::wire::Wire;
use cip_owner::Owner;

/// All adapter calls of a turn are feeds of this peer at this time, and replies of the owner that are prepared for them
/// or withdrawn. A turn loses no byte and mixes up none, whatever the owner answers, and the owner is asked what these
/// calls ask, in this order, and nothing else.
pub fn turns_lose_nothing<O: Owner>()
    ensures { (now peer : ℕ) (first last : O) (old new : PeerState) →
        IsTurn O.answer O.after now peer first old last new → (calls : List Call) × (received : List ℕ)
        × (gone : List ℕ) × AllByRecursion (IsTurnCall now peer) calls × Transfers peer calls received gone old new
        × (last ≡ owner_after O.answer O.after first (asks_of_calls old.adapter calls)) }
{}

/// In a round the owner of the device is asked what the round's calls of the adapter ask, in their order, and nothing
/// else. By the law `owner_is_asked` of `enip_adapter`, one feed asks at most one request, and a repeat asks none.
pub fn rounds_ask_in_order<W: Wire, O: Owner>()
    ensures { (now : ℕ) (first last : O) (old new : ServerState W) →
        IsRound W.left W.written W.known W.counts O.answer O.after now first old last new →
        AreAsked O.answer O.after first old.adapter last new.adapter }
{}

/// A round changes the device by frames of peers, one after the other, and by nothing else. No other call changes it but
/// a write of the device itself. So a watcher that is passed to each round sees each change that a peer makes.
pub fn frames_change_the_device<W: Wire, O: Owner>()
    ensures round { (now : ℕ) (first last : O) (old new : ServerState W) →
        IsRound W.left W.written W.known W.counts O.answer O.after now first old last new →
        AreFrames old.adapter.state.shared.objects new.adapter.state.shared.objects }
    ensures step { (old new : ServerState W) → IsStep W.left W.written W.known W.counts O.answer O.after old new →
        IsChanged old.adapter.state.shared.objects new.adapter.state.shared.objects }
{}

/// Peers are served apart, whatever calls are made, with the device's own writes and the owner's replies among them,
/// and for any number of peers. As long as a peer holds its slot, the adapter is in a state that calls of it lead to,
/// none of which ends this peer, and no byte of this peer is lost or mixed up. What was read from its wire is what these
/// calls took of it, followed by what waits to be fed. What these calls answered it is what was written to its wire,
/// followed by what waits to be written, in this order.
pub fn peers_are_served_apart<W: Wire, O: Owner>()
    ensures { (adapter : AdapterState) (idle_timeout slot peer : ℕ) (first last : ServerState W) (io after : PeerIo W) →
        IsRun W.left W.written W.known W.counts O.answer O.after (new_peers adapter idle_timeout) first →
        KeepsSlot W.left W.written W.known W.counts O.answer O.after slot peer first io last after →
        (calls : List Call) × (received : List ℕ) × (gone : List ℕ) × AllByRecursion (GoesOnWith peer) calls
        × Transfers peer calls received gone (peer_state_of W.left W.written W.known W.counts first.adapter io)
        (peer_state_of W.left W.written W.known W.counts last.adapter after) }
{}

/// A round sends nothing if the wires hold back what is written to them: of each peer that stays, the bytes that were
/// written to the wire inside are the same before and after the round, whatever the peers send and the owner answers.
pub fn nothing_leaves_in_a_round<W: Wire, O: Owner>()
    ensures { (now slot : ℕ) (first last : O) (old new : ServerState (HeldWire W)) (io after : PeerIo (HeldWire W)) →
        IsRound ⟦<HeldWire<W> as Wire>⟧.left ⟦<HeldWire<W> as Wire>⟧.written ⟦<HeldWire<W> as Wire>⟧.known
        ⟦<HeldWire<W> as Wire>⟧.counts O.answer O.after now first old last new →
        slice_get old.slots slot ≡ Some (Some io) → slice_get new.slots slot ≡ Some (Some after) →
        W.written after.wire.wire ≡ W.written io.wire.wire }
{}

/// A release is one of the calls of which `peers_are_served_apart` speaks: no byte is lost, doubled or mixed up by it.
/// What was written to a wire that holds it back, in a round, is what was written to the wire inside, at releases,
/// followed by what is held.
pub fn releases_lose_nothing<W: Wire, O: Owner>()
    ensures { (old new : ServerState (HeldWire W)) → AreReleased W.left W.written W.known W.counts old new →
        IsStep ⟦<HeldWire<W> as Wire>⟧.left ⟦<HeldWire<W> as Wire>⟧.written ⟦<HeldWire<W> as Wire>⟧.known
        ⟦<HeldWire<W> as Wire>⟧.counts O.answer O.after old new }
{}

/// An admission of frames is made of calls of which `peers_are_served_apart` speaks: no byte is lost, doubled or mixed up by
/// it. The adapter takes the time into account, and nothing of it changes otherwise.
pub fn admissions_lose_nothing<W: GatedWire, O: Owner, G: Gate<W>>()
    ensures { (now : ℕ) (gate next : G) (old new : ServerState W) →
        AreShown W.waiting W.admitted G.shows now gate old next new →
        IsRun W.left W.written W.known W.counts O.answer O.after old new }
{}

/// Nobody with a session gives way to a new client, and nobody from whom a byte arrived in the last 10 seconds: such a
/// peer keeps its slot, and nothing of it changes, when the client is added and when room is made for it before.
pub fn nobody_with_a_session_gives_way<W: Wire>()
    ensures session { (now : ℕ) (wire : W) (rights : Rights) (group : Option ℕ) (old new : ServerState W)
        (result : Result ℕ Full) (slot : ℕ) (io : PeerIo W) →
        IsAddedAs now wire rights group old new result → slice_get old.slots slot ≡ Some (Some io) →
        is_registered old.adapter io.peer ≡ Some true → slice_get new.slots slot ≡ Some (Some io) }
    ensures recent { (now : ℕ) (wire : W) (rights : Rights) (group : Option ℕ) (old new : ServerState W)
        (result : Result ℕ Full) (slot : ℕ) (io : PeerIo W) →
        IsAddedAs now wire rights group old new result → slice_get old.slots slot ≡ Some (Some io) →
        now - io.last_byte_at < 10000000 → slice_get new.slots slot ≡ Some (Some io) }
    ensures room_session { (now : ℕ) (group : Option ℕ) (p : ServerState W) (slot : ℕ) (io : PeerIo W) →
        slice_get p.slots slot ≡ Some (Some io) → is_registered p.adapter io.peer ≡ Some true →
        slice_get (with_room p now group).slots slot ≡ Some (Some io) }
    ensures room_recent { (now : ℕ) (group : Option ℕ) (p : ServerState W) (slot : ℕ) (io : PeerIo W) →
        slice_get p.slots slot ≡ Some (Some io) → now - io.last_byte_at < 10000000 →
        slice_get (with_room p now group).slots slot ≡ Some (Some io) }
{}

/// A new client gets the slot that is for it, whatever calls were made before, for any adapter at the beginning. If
/// `slot_for` names a slot, `add_as` does not refuse the client, and the client holds that slot: a peer that gives way
/// leaves a place in the adapter, takes no share away from a group, and nobody gives way if no session handle is left.
/// Everybody else keeps its slot as it is. Room that is made for a client beforehand is the same slot.
pub fn new_client_gets_its_slot<W: Wire, O: Owner>()
    ensures given { (adapter : AdapterState) (idle_timeout now slot : ℕ) (wire : W) (rights : Rights) (group : Option ℕ)
        (old new : ServerState W) (result : Result ℕ Full) →
        IsRun W.left W.written W.known W.counts O.answer O.after (new_peers adapter idle_timeout) old →
        slot_for old now group ≡ Ok slot → IsAddedAs now wire rights group old new result → (handle : ℕ)
        × (result ≡ Ok slot) × (slice_get new.slots slot ≡ Some (Some (new_peer_io handle wire now))) }
    ensures others { (now : ℕ) (wire : W) (rights : Rights) (group : Option ℕ) (old new : ServerState W)
        (result : Result ℕ Full) (other : ℕ) → IsAddedAs now wire rights group old new result →
        slot_for old now group ≢ Ok other → slice_get new.slots other ≡ slice_get old.slots other }
    ensures room { (now : ℕ) (group : Option ℕ) (p : ServerState W) →
        slot_for (with_room p now group) now group ≡ slot_for p now group }
{}
