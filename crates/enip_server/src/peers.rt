//! The peers of an adapter, and the calls that serve them.
//! Text: docs/PROGRAM.md, "`enip serve`".

ghost use Rattle.std.specs.Prelude.{◌≡◌, ◌≤◌, ◌<◌, length, IfOk, IfSome, is_ok, is_some};
ghost use Rattle.std.specs.List.{list_any};
ghost use Rattle.std.specs.Option.{option_map};
ghost use Rattle.cip_ledger.specs.Device.{finished_in};
ghost use Rattle.cip_objects.specs.DeviceWrites.{device_write};
ghost use Rattle.enip_adapter.specs.Discovery.{discovered};
ghost use Rattle.enip_adapter.specs.OwnWrites.{OwnWrite, attribute_write};
ghost use Rattle.enip_adapter.specs.QueueLaws.{is_waiting};
ghost use Rattle.enip_server.specs.Rounds.{IsRound, ended_in};
ghost use Rattle.enip_server.specs.Rounds.{state_of, new_peers, first_free, IsAdded, marked_ready, is_ready, earliest_of, next_moment};
ghost use Rattle.enip_server.specs.Rounds.{idle_of, moment_or_none, written_by};
ghost use Rattle.enip_server.specs.Rounds.{nobody, no_answer, same_nobody};
ghost use Rattle.enip_server.specs.Evictions.{IsAddedAs, freed, gives_way, slot_for, slot_found, with_room};
ghost use Rattle.enip_server.specs.Admissions.{AreShown};
ghost use Rattle.enip_server.specs.Held.{AreReleased};
ghost use Rattle.enip_server.specs.Resets.{after_reset, was_reset};

use crate::admissions::admit_slots;
use crate::evictions::longest_silent;
use crate::gate::Gate;
use crate::gated_wire::GatedWire;
use crate::held_wire::HeldWire;
use crate::peer_io::PeerIo;
use crate::slots::{close_slots, is_slot_ready, release_slots, serve_slots};
use crate::watcher::{NoWatcher, Watcher};
use crate::wire::Wire;
use cip_owner::{NoOwner, Owner, OwnerReply};
use enip_adapter::{Adapter, DiscoveryBuffer, Full, LONGEST_ANSWER, Rights};
use std::alloc::{AllocError, Global};
use std::boxed::BoxedSlice;

/// An idle timeout that never expires.
pub const NO_IDLE_TIMEOUT: u64 = u64::MAX;

/// The microseconds of a second.
const SECOND: u64 = 1_000_000;

/// The outcome of a round.
#[derive(Clone, Copy, Debug, PartialEq, Eq)]
pub struct RoundEnd {
    /// The number of peers that ended: their stream was over, or they timed out.
    pub ended: usize,
    /// Whether a wire may be ready now.
    pub ready: bool,
    /// The earliest time at which a round is due although no wire is ready: a connection times out, or a peer is ended.
    /// `None` if there is no such time.
    pub next: Option<u64>,
}

/// An adapter, and a slot for each of its peers.
///
/// ```
/// let mut peers = Peers::new(alloc, adapter, NO_IDLE_TIMEOUT)?;
/// if let Ok(slot) = peers.add(now, wire) {
///     peers.mark_ready(slot, false);
/// }
/// let end = peers.round(now);
/// ```
pub struct Peers<W> {
    adapter: Adapter,
    /// For how long a peer may send nothing, in microseconds, if the device has no TCP/IP Interface.
    idle_timeout: u64,
    slots: BoxedSlice<Option<PeerIo<W>>>,
}

// Written out, so that each exit of a function that owns one calls it, and has no drop of every part.
impl<W: Drop> Drop for Peers<W> {
    fn drop(self) {
        let Peers {
            adapter: _,
            idle_timeout: _,
            slots: _,
        } = self;
    }
}

impl<W: Wire + Drop> Peers<W> {
    /// Makes as many slots as the adapter has free peer slots. A peer that sends no byte for `idle_timeout`
    /// microseconds is ended; but if the device has a TCP/IP Interface, its encapsulation inactivity timeout counts. It
    /// allocates all of its memory here.
    ///
    /// # Errors
    ///
    /// `AllocError` if memory is refused.
    pub fn new(alloc: Global, adapter: Adapter, idle_timeout: u64) -> Result<Peers<W>, AllocError>
        ensures { IfOk result (λ p. state_of p ≡ new_peers adapter idle_timeout) }
    {
        let (places, _) = adapter.free();
        let mut slots = Vec::with_capacity(alloc, usize::from(places))?;
        for _ in 0..places {
            slots.push_reserved(None);
        }
        Ok(Peers {
            adapter,
            idle_timeout,
            slots: slots.into_boxed_slice(),
        })
    }

    /// The index of the first free slot.
    pub fn first_free(&self) -> Option<usize>
        ensures { result ≡ first_free (state_of self.now).slots }
    {
        self.slots.iter().position(|io| io.is_none())
    }

    /// Begins a peer on a wire at the time `now`. It takes the first free slot, whose index is returned.
    ///
    /// # Errors
    ///
    /// `Full::Places` if all slots are taken, otherwise `Full::Handles` if the last session handle was assigned. The
    /// wire is dropped.
    pub fn add(&mut self, now: u64, wire: W) -> Result<usize, Full>
        ensures { IsAdded now wire (state_of self.old) (state_of self.new) result }
    {
        let Some(slot) = self.first_free() else {
            return Err(Full::Places);
        };
        let peer = self.adapter.begin()?;
        self.slots[slot] = Some(PeerIo::new(peer, wire, now));
        Ok(slot)
    }

    /// The slot that a new client of a group would get at the time `now`: the first free one. If all are taken, and the
    /// client has a group, it is the slot of a peer that has registered no session and sent nothing for 10 seconds
    /// (`EVICTION_SILENCE`): of those, the one that has been silent longest. Nobody with a session gives way.
    ///
    /// # Errors
    ///
    /// `Full::Share` if the group holds its share of the peer slots, otherwise `Full::Places` if no slot is for it,
    /// otherwise `Full::Handles` if the last session handle was assigned.
    pub fn slot_for(&self, now: u64, group: Option<u128>) -> Result<usize, Full>
        ensures slot { result ≡ slot_for (state_of self.now) now group }
        ensures within { IfOk result (λ slot. slot < length (state_of self.now).slots) }
    {
        if self.adapter.holds_share(group) {
            return Err(Full::Share);
        }
        let slot = self.free_or_silent(now, group)?;
        if !self.adapter.has_handle() {
            return Err(Full::Handles);
        }
        Ok(slot)
    }

    /// The first free slot, or else that of the peer that gives way to a new client of a group.
    fn free_or_silent(&self, now: u64, group: Option<u128>) -> Result<usize, Full>
        ensures slot { result
            ≡ slot_found (first_free (state_of self.now).slots) (gives_way (state_of self.now) now group) }
        ensures within { IfOk result (λ slot. slot < length (state_of self.now).slots) }
    {
        if let Some(free) = self.first_free() {
            return Ok(free);
        }
        let silent = match group {
            Some(_) => longest_silent(&self.slots, &self.adapter, now),
            None => None,
        };
        match silent {
            Some(silent) => Ok(silent.slot),
            None => Err(Full::Places),
        }
    }

    /// Makes room for a new client of a group, at the time `now`: ends the peer that gives way to it, if all slots are
    /// taken. Its wire is dropped. `add_as` does the same for the client that it adds; this is for one that is added
    /// later, with other calls in between.
    ///
    /// Returns whether there is a slot for the client now: the one that `slot_for` says. If there is none, nothing
    /// changes.
    ///
    /// ```
    /// if peers.make_room(now, Some(address)) {
    ///     // a slot is free, and `add_as` of a client at this address takes it
    /// }
    /// ```
    pub fn make_room(&mut self, now: u64, group: Option<u128>) -> bool
        ensures room { state_of self.new ≡ with_room (state_of self.old) now group }
        ensures told { result ≡ is_ok (slot_for (state_of self.old) now group) }
    {
        match self.slot_for(now, group) {
            Ok(slot) => {
                self.free_slot(slot);
                true
            }
            Err(_) => false,
        }
    }

    /// Begins a peer on a wire at the time `now`, with these rights and as one of a group, if it has one. It takes the
    /// slot that `slot_for` says, whose index is returned. A peer that gives way is ended first, and its wire is dropped.
    ///
    /// ```
    /// if let Err(Full::Share) = peers.add_as(now, wire, Rights::Read, Some(address)) {
    ///     // the address holds as many slots as its share: its other peers go on
    /// }
    /// ```
    ///
    /// # Errors
    ///
    /// As `slot_for`. Nothing changes, and the wire is dropped.
    pub fn add_as(
        &mut self,
        now: u64,
        wire: W,
        rights: Rights,
        group: Option<u128>,
    ) -> Result<usize, Full>
        ensures { IsAddedAs now wire rights group (state_of self.old) (state_of self.new) result }
    {
        let slot = self.slot_for(now, group)?;
        self.free_slot(slot);
        let peer = self.adapter.begin_as(rights, group)?;
        let io = PeerIo::new(peer, wire, now);
        self.slots[slot] = Some(io);
        Ok(slot)
    }

    /// Ends the peer in a slot, if there is one.
    fn free_slot(&mut self, slot: usize)
        requires { slot < length (state_of self.old).slots }
        ensures freed { state_of self.new ≡ freed (state_of self.old) slot }
        ensures size { length (state_of self.new).slots ≡ length (state_of self.old).slots }
    {
        if let Some(io) = &self.slots[slot] {
            self.adapter.end(io.peer);
            self.slots[slot] = None;
        }
    }

    /// Reports that the wire of a slot may be ready. `ends` reports that its stream has ended or failed too; the system
    /// may report that only once, so the peer is then read up to there. Nothing changes if the slot is free.
    pub fn mark_ready(&mut self, slot: usize, ends: bool)
        ensures { state_of self.new ≡ record (state_of self.old) { slots = marked_ready ends (state_of self.old).slots slot } }
    {
        if slot >= self.slots.len() {
            return;
        }
        if let Some(io) = &mut self.slots[slot] {
            io.ready = true;
            if ends {
                io.end_reported = true;
            }
        }
    }

    /// Serves one round at the time `now`: each peer whose wire may be ready has one turn. The device has no owner: a
    /// request to one is answered "device state conflict" (0x10).
    pub fn round(&mut self, now: u64) -> RoundEnd
        ensures round { IsRound W.left W.written W.known W.counts no_answer same_nobody now
            nobody (state_of self.old) nobody (state_of self.new) }
        ensures ended { result.ended ≡ ended_in (state_of self.old).slots (state_of self.new).slots }
        ensures ready { result.ready ≡ list_any is_ready (state_of self.new).slots }
        ensures next { result.next ≡ next_moment (state_of self.new) }
    {
        self.round_asking(now, &mut NoOwner)
    }

    /// Serves one round at the time `now`, as `round` does, and asks the owner of the device about each request to it,
    /// once, when its frame is served. The owner's reply is the answer to that frame; then the turn goes on.
    ///
    /// ```
    /// let end = peers.round_asking(now, &mut conveyor);
    /// ```
    pub fn round_asking<O: Owner>(&mut self, now: u64, owner: &mut O) -> RoundEnd
        ensures round { IsRound W.left W.written W.known W.counts O.answer O.after now
            owner.old (state_of self.old) owner.new (state_of self.new) }
        ensures ended { result.ended ≡ ended_in (state_of self.old).slots (state_of self.new).slots }
        ensures ready { result.ready ≡ list_any is_ready (state_of self.new).slots }
        ensures next { result.next ≡ next_moment (state_of self.new) }
    {
        self.round_watched(now, owner, &mut NoWatcher)
    }

    /// Serves one round at the time `now`, as `round_asking` does, and shows the device to a watcher: after each frame of
    /// a peer, before the next one is fed. If the watcher had seen all that led to the device before the round, it has seen
    /// all that led to the device after it. Between rounds, nothing but the device's own calls changes the device.
    ///
    /// ```
    /// let end = peers.round_watched(now, &mut NoOwner, &mut log);
    /// ```
    pub fn round_watched<O: Owner, T: Watcher<W>>(
        &mut self,
        now: u64,
        owner: &mut O,
        watcher: &mut T,
    ) -> RoundEnd
        ensures round { IsRound W.left W.written W.known W.counts O.answer O.after now
            owner.old (state_of self.old) owner.new (state_of self.new) }
        ensures watched { T.has_seen watcher.old (state_of self.old).adapter.state.shared.objects →
            T.has_seen watcher.new (state_of self.new).adapter.state.shared.objects }
        ensures ended { result.ended ≡ ended_in (state_of self.old).slots (state_of self.new).slots }
        ensures ready { result.ready ≡ list_any is_ready (state_of self.new).slots }
        ensures next { result.next ≡ next_moment (state_of self.new) }
    {
        let idle_timeout = self.idle_timeout();
        self.adapter.tick(now);
        let ended = serve_slots(
            &mut self.slots,
            &mut self.adapter,
            owner,
            watcher,
            now,
            idle_timeout,
        );
        // A peer may have set the idle timeout.
        RoundEnd {
            ended,
            ready: self.is_ready(),
            next: self.next_moment(),
        }
    }

    /// Whether a wire may be ready now.
    fn is_ready(&self) -> bool
        ensures { result ≡ list_any is_ready (state_of self.now).slots }
    {
        self.slots.iter().any(|slot| is_slot_ready(slot))
    }

    /// For how long a peer may send nothing, in microseconds: the encapsulation inactivity timeout of the TCP/IP Interface,
    /// if the device has that object, or else the time that was given. Attribute 13 of that object counts from the round on
    /// that follows its set. 0 there is `NO_IDLE_TIMEOUT`.
    #[tactic(auto, unfolding(crate::specs::Rounds::idle_of))]
    pub fn idle_timeout(&self) -> u64
        ensures { result ≡ idle_of (state_of self.now) }
    {
        match self.adapter.objects().inactivity_timeout() {
            None => self.idle_timeout,
            Some(0) => NO_IDLE_TIMEOUT,
            Some(seconds) => u64::from(seconds) * SECOND,
        }
    }

    /// The adapter, to be read between rounds: its objects, its command ledger, how often peers have written an
    /// assembly (`Adapter::changes`), and its connections. Pass it to `Endings::update` after each round to learn which
    /// connections ended.
    pub fn adapter(&self) -> &Adapter
        ensures { result.now ≡ (state_of self.now).adapter }
    {
        &self.adapter
    }

    /// Writes bytes into the data of an assembly, from `offset` on, on behalf of the device itself. Whether peers may
    /// set the assembly does not matter. Peers that are served later read the bytes.
    ///
    /// Returns `false`, and changes nothing, if there is no such assembly or the bytes go past the end of its data. The
    /// write is not counted in `changes`. No slot, wire, buffer or idle timeout changes.
    pub fn write_data(&mut self, instance: u32, offset: usize, bytes: &[u8]) -> bool
        ensures call { state_of self.new
            ≡ written_by (OwnWrite.WritesData instance offset bytes.now) (state_of self.old) }
        ensures told { result ≡ is_some
            (device_write (state_of self.old).adapter.state.shared.objects.router.objects instance offset bytes.now) }
    {
        self.adapter.write_data(instance, offset, bytes)
    }

    /// Writes bytes into an attribute, from `offset` on, on behalf of the device itself: the data of an assembly (class
    /// 0x04, attribute 3) or an attribute of an application object. Whether peers may set it does not matter. Peers that
    /// are served later read the bytes.
    ///
    /// Returns `false`, and changes nothing, if it is neither or its value cannot hold the bytes: they must end within
    /// it, and a SHORT_STRING is written as a whole. The write is not counted in `attribute_changes`. No slot, wire,
    /// buffer or idle timeout changes.
    ///
    /// ```
    /// let speed: u16 = 1_200;
    /// peers.write_attribute(0x300, 1, 2, 0, &speed.to_le_bytes());
    /// ```
    pub fn write_attribute(
        &mut self,
        class: u16,
        instance: u32,
        attribute: u16,
        offset: usize,
        bytes: &[u8],
    ) -> bool
        ensures call { state_of self.new
            ≡ written_by (OwnWrite.WritesAttribute class instance attribute offset bytes.now) (state_of self.old) }
        ensures told { result ≡ is_some (attribute_write (state_of self.old).adapter.state.shared.objects.router.objects
            class instance attribute offset bytes.now) }
    {
        self.adapter
            .write_attribute(class, instance, attribute, offset, bytes)
    }

    /// Sets the device's status, a WORD: attribute 5 of the Identity object, which ListIdentity shows too. Nothing else
    /// changes.
    pub fn set_device_status(&mut self, status: u16)
        ensures { state_of self.new ≡ written_by (OwnWrite.SetsStatus status) (state_of self.old) }
    {
        self.adapter.set_device_status(status);
    }

    /// Sets the device's state, a USINT: attribute 8 of the Identity object, which ListIdentity shows too. Nothing else
    /// changes.
    pub fn set_device_state(&mut self, state: u8)
        ensures { state_of self.new ≡ written_by (OwnWrite.SetsState state) (state_of self.old) }
    {
        self.adapter.set_device_state(state);
    }

    /// Finishes a queued command, by its ticket, with the owner's reply: it waits no longer, and peers that are served later
    /// get its result. The commands that wait are in the queue of the adapter (`Adapter::queue`).
    ///
    /// Returns `false`, and changes nothing, if no command with this ticket waits, or if the reply cannot be given to it
    /// (`Adapter::finish`). No slot, wire, buffer or idle timeout changes.
    ///
    /// ```
    /// let finished = peers.finish(ticket, &reply);
    /// ```
    pub fn finish(&mut self, ticket: u32, reply: &OwnerReply) -> bool
        ensures call { state_of self.new
            ≡ written_by (OwnWrite.Finishes ticket reply.now) (state_of self.old) }
        ensures told { result
            ≡ is_some (finished_in ticket reply.now (state_of self.old).adapter.state.shared.objects) }
    {
        self.adapter.finish(ticket, reply)
    }

    /// Marks a queued command, by its ticket, and each that waits before it, as handed over to the owner.
    ///
    /// Returns `false`, and changes nothing, if no command with this ticket waits (`Adapter::mark`). No slot, wire, buffer
    /// or idle timeout changes.
    ///
    /// ```
    /// let waits = peers.mark(ticket);
    /// ```
    pub fn mark(&mut self, ticket: u32) -> bool
        ensures call { state_of self.new ≡ written_by (OwnWrite.Marks ticket) (state_of self.old) }
        ensures told { result ≡ is_waiting ticket (state_of self.old).adapter.state.shared.objects.router.queue }
    {
        self.adapter.mark(ticket)
    }

    /// Closes all peers if the device was reset, that is, if `Adapter::resets` is not `before` any more. Call it after
    /// each round, with the number from before that round: no session and no connection outlasts a reset.
    ///
    /// A peer that is closed is treated like one that the adapter closed. In its next turn the answers that wait are
    /// written, as far as its wire takes them, and then the writing side is shut down. It is ended once its stream is
    /// over, and after one second at the latest. Nothing that it sends is executed any more. So the reply to the Reset is
    /// out before its connection ends.
    ///
    /// Returns whether the device was reset. Then a wire may be ready now.
    ///
    /// ```
    /// let before = peers.adapter().resets();
    /// let end = peers.round(now);
    /// let was_reset = peers.close_if_reset(now, before);
    /// let end = RoundEnd { ready: end.ready || was_reset, next: peers.next_moment(), ..end };
    /// ```
    pub fn close_if_reset(&mut self, now: u64, before: u32) -> bool
        ensures closed { state_of self.new ≡ after_reset before now (state_of self.old) }
        ensures told { result ≡ was_reset before (state_of self.old).adapter }
    {
        if self.adapter.resets() == before {
            return false;
        }
        close_slots(&mut self.slots, now);
        true
    }

    /// The answer to a datagram, written into `room`. A datagram is answered if it is exactly one ListIdentity,
    /// ListServices or ListInterfaces. `None` for any other datagram. No peer, session or connection changes.
    pub fn discover<'a>(&self, datagram: &[u8], room: &'a mut DiscoveryBuffer) -> Option<&'a [u8]>
        ensures answer { option_map (λ bytes. bytes.now) result
            ≡ discovered (state_of self.now).adapter.state.shared datagram.now }
        ensures fits { IfSome result (λ bytes. length bytes.now ≤ LONGEST_ANSWER) }
    {
        self.adapter.discover(datagram, room)
    }

    /// The earliest time at which a round is due although no wire is ready: a connection times out, or a peer is ended.
    /// `None` if there is no such time.
    pub fn next_moment(&self) -> Option<u64>
        ensures { result ≡ next_moment (state_of self.now) }
    {
        moment_or_none(self.earliest(self.adapter.deadline().unwrap_or(u64::MAX)))
    }

    /// The earliest of a time and of the times at which peers are ended unless a byte arrives.
    fn earliest(&self, moment: u64) -> u64
        ensures { result ≡ earliest_of (idle_of (state_of self.now)) moment (state_of self.now).slots }
    {
        let idle = self.idle_timeout();
        let mut earliest = moment;
        for io in self.slots.iter() {
            if let Some(io) = io {
                earliest = earliest.min(io.timeout_at(idle));
            }
        }
        earliest
    }
}

impl<W: Wire + Drop> Peers<HeldWire<W>> {
    /// Releases the wires of all peers, after a round: what each holds is written to the wire inside, as far as that
    /// takes it. The rest stays held, and goes first at the next release. A peer that can go on now has a turn in the
    /// next round. No peer is ended, and the adapter and the idle timeout do not change.
    ///
    /// Returns whether a wire may be ready now, in place of `RoundEnd::ready` of the round before. If the wire inside
    /// takes no more, its peer waits: once the system reports the wire as writable, call `mark_ready`, `round` and
    /// `release`.
    ///
    /// ```
    /// let end = peers.round(now);
    /// let ready = peers.release();
    /// let end = RoundEnd { ready, ..end };
    /// ```
    pub fn release(&mut self) -> bool
        ensures released { AreReleased W.left W.written W.known W.counts (state_of self.old) (state_of self.new) }
        ensures ready { result ≡ list_any is_ready (state_of self.new).slots }
    {
        release_slots(&mut self.slots)
    }
}

impl<W: GatedWire + Drop> Peers<W> {
    /// Admits the frames that wait, after a round at the time `now`: each that asks nothing of the owner of the device, and
    /// of the others those that the gate admits. A frame waits once its last bytes were read, and is looked at once all
    /// bytes before it were fed and answered. Its peer has a turn in the next round once it is admitted. No peer is ended,
    /// and nothing is fed: the adapter takes the time into account, and nothing else changes.
    ///
    /// Returns whether a wire may be ready now, in place of `RoundEnd::ready` of the round before.
    ///
    /// ```
    /// let end = peers.round_asking(now, &mut replies);
    /// let ready = peers.admit_frames(now, &mut gate);
    /// let end = RoundEnd { ready, ..end };
    /// ```
    pub fn admit_frames<G: Gate<W>>(&mut self, now: u64, gate: &mut G) -> bool
        ensures shown { AreShown W.waiting W.admitted G.shows now gate.old (state_of self.old) gate.new (state_of self.new) }
        ensures ready { result ≡ list_any is_ready (state_of self.new).slots }
    {
        admit_slots(&mut self.slots, &mut self.adapter, now, gate)
    }
}

/// `None` for the time that never comes.
fn moment_or_none(moment: u64) -> Option<u64>
    ensures { result ≡ moment_or_none moment }
{
    match moment {
        u64::MAX => None,
        moment => Some(moment),
    }
}
