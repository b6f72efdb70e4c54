//! The input and output of one peer, and its turn.
//! Text: docs/PROGRAM.md, "`enip serve`".

ghost use Rattle.std.specs.Prelude.{◌≡◌, ◌≢◌, ◌≤◌, ◌<◌, [], length, take, Some, None, true, false, IfSome, IfNone, IfErr, IfOk};
ghost use Rattle.std.specs.Io.KnownBytes.{Appends};
ghost use Rattle.enip_adapter.specs.Calls.{AdapterState};
ghost use Rattle.enip_server.specs.Admissions.{has_bytes};
ghost use Rattle.enip_server.specs.Evictions.{may_give_way};
ghost use Rattle.enip_server.specs.Resets.{closed_peer};
ghost use Rattle.enip_server.specs.Rounds.{timeout_at, IsServedPeer};
ghost use Rattle.enip_server.specs.PeerStates.{peer_state_of, fed_once, owner_fed, closed_at, IsFlushed, AreFed, IsDiscarded, IsTurn, FitsBuffers, FitsCounts, IsWaiting};
ghost use Rattle.enip_server.specs.PeerStates.{IsFetched, IsByRead, IsThrough, GoesOn, IsCutShort, is_closed_now, turn_after};

use crate::evictions::EVICTION_SILENCE;
use crate::io_buffer::{IO_BUFFER_SIZE, IoBuffer};
use crate::watcher::Watcher;
use crate::wire::{ReadOutcome, Wire};
use cip_owner::Owner;
use enip_adapter::{Adapter, Peer};

/// For how long a peer that the adapter closed is still read, in microseconds, so that its last answer is not lost
/// (ours).
pub const LINGER: u64 = 1_000_000;

/// The outcome of a turn.
#[derive(Clone, Copy, PartialEq, Eq)]
pub(crate) enum Turn {
    /// More input may be available now.
    More,
    /// All input was read: wait until the wire is readable.
    UntilReadable,
    /// An answer is not written to its end: wait until the wire is writable.
    UntilWritable,
    /// The stream is at its end, or a call of the wire failed.
    Finished,
}

impl Turn {
    /// The outcome of a turn once everything that it read has been fed. The system reports the end of a stream only
    /// once, so a turn that knows of it (`end_reported`) keeps reading.
    fn after(received: ReadOutcome, end_reported: bool) -> Turn
        ensures { result ≡ turn_after received end_reported }
    {
        match received {
            ReadOutcome::Bytes(_) => Turn::More,
            ReadOutcome::Drained(_) if end_reported => Turn::More,
            ReadOutcome::Drained(_) | ReadOutcome::WouldBlock => Turn::UntilReadable,
            ReadOutcome::End | ReadOutcome::Failed => Turn::Finished,
        }
    }
}

/// A peer that holds a slot: its wire, its buffers and its timers.
#[derive(Drop)]
pub(crate) struct PeerIo<W> {
    pub(crate) peer: Peer,
    pub(crate) wire: W,
    /// Whether the wire may be ready.
    pub(crate) ready: bool,
    /// Whether the system has reported the end of the stream, which it does only once.
    pub(crate) end_reported: bool,
    /// When the last byte arrived, or when the peer began.
    last_byte_at: u64,
    /// If the adapter closed the peer: the time up to which it is still read.
    closed: Option<u64>,
    /// Bytes that were read and not fed.
    inbox: IoBuffer,
    /// Bytes of an answer that were not written.
    outbox: IoBuffer,
}

impl<W: Wire> PeerIo<W> {
    /// A peer that begins now.
    pub(crate) fn new(peer: Peer, wire: W, now: u64) -> PeerIo<W>
        ensures { result ≡ record {
          peer = peer;
          wire = wire;
          ready = true;
          end_reported = false;
          last_byte_at = now;
          closed = None;
          inbox = [];
          outbox = [];
        } }
    {
        PeerIo {
            peer,
            wire,
            ready: true,
            end_reported: false,
            last_byte_at: now,
            closed: None,
            inbox: IoBuffer::new(),
            outbox: IoBuffer::new(),
        }
    }

    /// The time at which the peer is ended unless a byte arrives before.
    pub(crate) fn timeout_at(&self, idle_timeout: u64) -> u64
        ensures { result ≡ timeout_at idle_timeout self.now }
    {
        let silent = self.last_byte_at.saturating_add(idle_timeout);
        match self.closed {
            Some(last) => last.min(silent),
            None => silent,
        }
    }

    /// Whether bytes were read and not fed, or are of an answer and were not written.
    pub(crate) fn has_bytes(&self) -> bool
        ensures { result ≡ has_bytes self.now }
    {
        !self.inbox.is_empty() || !self.outbox.is_empty()
    }

    /// When the last byte arrived, or when the peer began.
    pub(crate) fn last_byte_at(&self) -> u64
        ensures { result ≡ self.now.last_byte_at }
    {
        self.last_byte_at
    }

    /// Whether the peer may give way to a new client: it has registered no session, and no byte of it has arrived for 10
    /// seconds.
    pub(crate) fn may_give_way(&self, adapter: &Adapter, now: u64) -> bool
        ensures { result ≡ may_give_way adapter.now now self.now }
    {
        match adapter.is_registered(&self.peer) {
            Some(false) => now.saturating_sub(self.last_byte_at) >= EVICTION_SILENCE,
            _ => false,
        }
    }

    /// Gives the peer a turn if its wire may be ready. Returns whether the peer goes on: not if it timed out, and not
    /// if its stream is over.
    pub(crate) fn serve<O: Owner, T: Watcher<W>>(
        &mut self,
        adapter: &mut Adapter,
        owner: &mut O,
        watcher: &mut T,
        now: u64,
        idle_timeout: u64,
    ) -> bool
        ensures served { IsServedPeer W.left W.written W.known W.counts O.answer O.after now idle_timeout
            owner.old adapter.old self.old owner.new adapter.new self.new result }
        ensures watched { T.has_seen watcher.old adapter.old.state.shared.objects →
            T.has_seen watcher.new adapter.new.state.shared.objects }
    {
        if now >= self.timeout_at(idle_timeout) {
            return false;
        }
        if !self.ready {
            return true;
        }
        let turn = self.turn(adapter, owner, watcher, now);
        self.ready = turn == Turn::More;
        turn != Turn::Finished
    }

    /// One turn: writes what is left of an answer; once all of it is written, makes one read and feeds it.
    fn turn<O: Owner, T: Watcher<W>>(
        &mut self,
        adapter: &mut Adapter,
        owner: &mut O,
        watcher: &mut T,
        now: u64,
    ) -> Turn
        ensures turn { IsTurn O.answer O.after now self.old.peer
            owner.old (peer_state_of W.left W.written W.known W.counts adapter.old self.old)
            owner.new (peer_state_of W.left W.written W.known W.counts adapter.new self.new) }
        ensures watched { T.has_seen watcher.old adapter.old.state.shared.objects →
            T.has_seen watcher.new adapter.new.state.shared.objects }
        ensures fits_buffers { FitsBuffers (peer_state_of W.left W.written W.known W.counts adapter.new self.new) result }
        ensures fits_counts { FitsCounts self.old.end_reported (is_closed_now self.old.closed self.new.closed) result
            (W.counts self.old.wire) (W.counts self.new.wire) }
        ensures peer { self.new.peer ≡ self.old.peer }
        ensures end_reported { self.new.end_reported ≡ self.old.end_reported }
    {
        if let Some(waits) = self.flush() {
            return waits;
        }
        if self.closed.is_some() {
            return self.discard_input();
        }
        let turn = self.fetch(now);
        if self.inbox.is_empty() {
            return turn;
        }
        if let Some(cut_short) = self.feed_all(adapter, owner, watcher, now) {
            return cut_short;
        }
        turn
    }

    /// Makes one read if the inbox is empty. Returns the outcome of the turn once the inbox has been fed.
    fn fetch(&mut self, now: u64) -> Turn
        ensures fetched { (adapter : AdapterState) → IsFetched now (peer_state_of W.left W.written W.known W.counts adapter self.old)
            (peer_state_of W.left W.written W.known W.counts adapter self.new) }
        ensures by_read { IsByRead result }
        ensures some { self.new.inbox ≢ [] → IsThrough (W.counts self.old.wire) (W.counts self.new.wire) }
        ensures fits_counts { FitsCounts self.old.end_reported false result (W.counts self.old.wire) (W.counts self.new.wire) }
        ensures peer { self.new.peer ≡ self.old.peer }
        ensures end_reported { self.new.end_reported ≡ self.old.end_reported }
        ensures outbox { self.new.outbox ≡ self.old.outbox }
        ensures closed { self.new.closed ≡ self.old.closed }
    {
        if !self.inbox.is_empty() {
            return Turn::More;
        }
        let received = self.inbox.fill(&mut self.wire);
        if let ReadOutcome::Bytes(_) | ReadOutcome::Drained(_) = received {
            self.last_byte_at = now;
        }
        Turn::after(received, self.end_reported)
    }

    /// Feeds the inbox, frame by frame. Returns `None` if nothing is left. Otherwise it returns the outcome of the
    /// turn: an answer is not written to its end, or the adapter closed the peer.
    fn feed_all<O: Owner, T: Watcher<W>>(
        &mut self,
        adapter: &mut Adapter,
        owner: &mut O,
        watcher: &mut T,
        now: u64,
    ) -> Option<Turn>
        requires out { self.old.outbox ≡ [] }
        requires open { self.old.closed ≡ None }
        ensures fed { AreFed O.answer O.after now self.old.peer
            owner.old (peer_state_of W.left W.written W.known W.counts adapter.old self.old)
            owner.new (peer_state_of W.left W.written W.known W.counts adapter.new self.new) }
        ensures watched { T.has_seen watcher.old adapter.old.state.shared.objects →
            T.has_seen watcher.new adapter.new.state.shared.objects }
        ensures out { IfNone result ((self.new.outbox ≡ []) × (self.new.inbox ≡ [])) }
        ensures fits_buffers { IfSome result (FitsBuffers (peer_state_of W.left W.written W.known W.counts adapter.new self.new)) }
        ensures goes_on { IfNone result (GoesOn (W.counts self.old.wire) (W.counts self.new.wire)) }
        ensures fits_counts { IfSome result (λ turn.
            IsCutShort self.new.closed turn (W.counts self.old.wire) (W.counts self.new.wire)) }
        ensures peer { self.new.peer ≡ self.old.peer }
        ensures end_reported { self.new.end_reported ≡ self.old.end_reported }
    {
        while !self.inbox.is_empty() {
            if let Some(unsent) = self.feed_watched(adapter, owner, watcher, now) {
                return Some(unsent);
            }
            if self.closed.is_some() {
                return Some(Turn::More);
            }
        }
        None
    }

    /// Feeds the inbox as `feed_once` does, and shows the device to the watcher.
    fn feed_watched<O: Owner, T: Watcher<W>>(
        &mut self,
        adapter: &mut Adapter,
        owner: &mut O,
        watcher: &mut T,
        now: u64,
    ) -> Option<Turn>
        requires out { self.old.outbox ≡ [] }
        requires open { self.old.closed ≡ None }
        ensures fed { IsFlushed (fed_once O.answer O.after now self.old.peer owner.old
            (peer_state_of W.left W.written W.known W.counts adapter.old self.old))
            (peer_state_of W.left W.written W.known W.counts adapter.new self.new) }
        ensures owner { owner.new ≡ owner_fed O.answer O.after now self.old.peer owner.old
            (peer_state_of W.left W.written W.known W.counts adapter.old self.old) }
        ensures watched { T.has_seen watcher.old adapter.old.state.shared.objects →
            T.has_seen watcher.new adapter.new.state.shared.objects }
        ensures out { IfNone result (self.new.outbox ≡ []) }
        ensures waits { IfSome result (λ turn. (self.new.outbox ≢ []) × IsWaiting turn) }
        ensures goes_on { IfNone result (GoesOn (W.counts self.old.wire) (W.counts self.new.wire)) }
        ensures fits_counts { IfSome result (λ turn.
            IsCutShort self.new.closed turn (W.counts self.old.wire) (W.counts self.new.wire)) }
        ensures peer { self.new.peer ≡ self.old.peer }
        ensures end_reported { self.new.end_reported ≡ self.old.end_reported }
        ensures progress { 0 < length self.old.inbox → self.new.closed ≡ None →
            length self.new.inbox < length self.old.inbox }
    {
        let unsent = self.feed_once(adapter, owner, now);
        watcher.served(&self.wire, adapter);
        unsent
    }

    /// Withdraws what the frame in the inbox withdraws, feeds the inbox up to the end of this frame, and writes the answer.
    /// The owner is asked if the frame is a request to it. Returns `None` if all of the answer is written.
    fn feed_once<O: Owner>(
        &mut self,
        adapter: &mut Adapter,
        owner: &mut O,
        now: u64,
    ) -> Option<Turn>
        requires out { self.old.outbox ≡ [] }
        requires open { self.old.closed ≡ None }
        ensures fed { IsFlushed (fed_once O.answer O.after now self.old.peer owner.old
            (peer_state_of W.left W.written W.known W.counts adapter.old self.old))
            (peer_state_of W.left W.written W.known W.counts adapter.new self.new) }
        ensures owner { owner.new ≡ owner_fed O.answer O.after now self.old.peer owner.old
            (peer_state_of W.left W.written W.known W.counts adapter.old self.old) }
        ensures out { IfNone result (self.new.outbox ≡ []) }
        ensures waits { IfSome result (λ turn. (self.new.outbox ≢ []) × IsWaiting turn) }
        ensures goes_on { IfNone result (GoesOn (W.counts self.old.wire) (W.counts self.new.wire)) }
        ensures fits_counts { IfSome result (λ turn.
            IsCutShort self.new.closed turn (W.counts self.old.wire) (W.counts self.new.wire)) }
        ensures peer { self.new.peer ≡ self.old.peer }
        ensures end_reported { self.new.end_reported ≡ self.old.end_reported }
        ensures progress { 0 < length self.old.inbox → self.new.closed ≡ None →
            length self.new.inbox < length self.old.inbox }
    {
        adapter.withdraw_asked(&self.peer, self.inbox.as_slice());
        let fed = adapter.feed_asking(now, &self.peer, self.inbox.as_slice(), owner);
        self.inbox.drop_front(fed.taken);
        self.closed = closed_at(now, fed.close);
        match fed.answer {
            Some(frame) => self.send(frame),
            None => None,
        }
    }

    /// Writes an answer. What the wire does not take goes to the outbox. Returns `None` if all of it is written.
    fn send(&mut self, frame: &[u8]) -> Option<Turn>
        requires out { self.old.outbox ≡ [] }
        requires fits { length frame.now ≤ IO_BUFFER_SIZE }
        ensures sent { (adapter : AdapterState) → IsFlushed
            (record (peer_state_of W.left W.written W.known W.counts adapter self.old) { outbox = frame.now })
            (peer_state_of W.left W.written W.known W.counts adapter self.new) }
        ensures out { IfNone result (self.new.outbox ≡ []) }
        ensures waits { IfSome result (λ turn. (self.new.outbox ≢ []) × IsWaiting turn) }
        ensures goes_on { IfNone result (GoesOn (W.counts self.old.wire) (W.counts self.new.wire)) }
        ensures fits_counts { IfSome result (λ turn.
            IsCutShort self.new.closed turn (W.counts self.old.wire) (W.counts self.new.wire)) }
        ensures peer { self.new.peer ≡ self.old.peer }
        ensures end_reported { self.new.end_reported ≡ self.old.end_reported }
        ensures inbox { self.new.inbox ≡ self.old.inbox }
        ensures closed { self.new.closed ≡ self.old.closed }
    {
        let (written, unsent) = write_front(&mut self.wire, frame);
        if unsent.is_some() {
            self.outbox.put(&frame[written..]);
        }
        unsent
    }

    /// Writes the outbox. Returns `None` once it is empty.
    fn flush(&mut self) -> Option<Turn>
        ensures flushed { (adapter : AdapterState) → IsFlushed (peer_state_of W.left W.written W.known W.counts adapter self.old)
            (peer_state_of W.left W.written W.known W.counts adapter self.new) }
        ensures out { IfNone result (self.new.outbox ≡ []) }
        ensures waits { IfSome result (λ turn. (self.new.outbox ≢ []) × IsWaiting turn) }
        ensures goes_on { IfNone result (GoesOn (W.counts self.old.wire) (W.counts self.new.wire)) }
        ensures fits_counts { IfSome result (λ turn.
            IsCutShort self.new.closed turn (W.counts self.old.wire) (W.counts self.new.wire)) }
        ensures peer { self.new.peer ≡ self.old.peer }
        ensures end_reported { self.new.end_reported ≡ self.old.end_reported }
        ensures inbox { self.new.inbox ≡ self.old.inbox }
        ensures closed { self.new.closed ≡ self.old.closed }
    {
        let (written, unsent) = write_front(&mut self.wire, self.outbox.as_slice());
        self.outbox.drop_front(written);
        unsent
    }

    /// Closes the peer at the time `now`, as if the adapter had closed it.
    pub(crate) fn close(&mut self, now: u64)
        ensures { self.new ≡ closed_peer now self.old }
    {
        self.ready = true;
        if self.closed.is_none() {
            self.closed = closed_at(now, true);
        }
    }

    /// For a peer that the adapter closed: shuts the writing side down, makes one read and discards it.
    fn discard_input(&mut self) -> Turn
        requires out { self.old.outbox ≡ [] }
        ensures discarded { (adapter : AdapterState) → IsDiscarded (peer_state_of W.left W.written W.known W.counts adapter self.old)
            (peer_state_of W.left W.written W.known W.counts adapter self.new) }
        ensures fits_buffers { (adapter : AdapterState) → FitsBuffers (peer_state_of W.left W.written W.known W.counts adapter self.new) result }
        ensures fits_counts { FitsCounts self.old.end_reported false result (W.counts self.old.wire) (W.counts self.new.wire) }
        ensures peer { self.new.peer ≡ self.old.peer }
        ensures end_reported { self.new.end_reported ≡ self.old.end_reported }
    {
        self.wire.shut();
        let received = self.inbox.fill(&mut self.wire);
        self.inbox.clear();
        Turn::after(received, self.end_reported)
    }
}

/// If the adapter closes a peer at the time `now`: the time up to which it is still read.
fn closed_at(now: u64, close: bool) -> Option<u64>
    ensures { result ≡ closed_at now close }
{
    if close {
        Some(now.saturating_add(LINGER))
    } else {
        None
    }
}

/// Writes these bytes. Returns how many the wire took, and why it did not take all. `None` if it did.
pub(crate) fn write_front<W: Wire>(wire: &mut W, bytes: &[u8]) -> (usize, Option<Turn>)
    ensures within { result.0 ≤ length bytes.now }
    ensures all { IfNone result.1 (result.0 ≡ length bytes.now) }
    ensures some { IfSome result.1 (λ turn. (result.0 < length bytes.now) × IsWaiting turn) }
    ensures written { Appends (W.written wire.old) (W.written wire.new) (take result.0 bytes.now) }
    ensures left { W.left wire.new ≡ W.left wire.old }
    ensures known { W.known wire.new ≡ W.known wire.old }
    ensures reads { (W.counts wire.new).reads ≡ (W.counts wire.old).reads }
    ensures goes_on { IfNone result.1 (GoesOn (W.counts wire.old) (W.counts wire.new)) }
    ensures fits_counts { IfSome result.1 (λ turn. IsCutShort None turn (W.counts wire.old) (W.counts wire.new)) }
{
    let mut written = 0;
    while written < bytes.len() {
        match wire.write(&bytes[written..]) {
            None => return (written, Some(Turn::Finished)),
            Some(0) => return (written, Some(Turn::UntilWritable)),
            Some(size) => written += size,
        }
    }
    (written, None)
}
