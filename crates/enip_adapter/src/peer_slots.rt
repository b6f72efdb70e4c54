//! The peer slots: those that are taken, and the readers of those that are free. No call adds a slot.

ghost use Rattle.std.specs.Prelude.{ℕ, map, ◌≡◌, ◌==◌, ◌<◌, ◌≤◌, ◌-◌, length, false, is_some, All, IfOk};
ghost use Rattle.std.specs.Borrow.{sem};
ghost use Rattle.std.specs.Io.BufRead.{Rests};
ghost use Rattle.std.specs.Option.{option_map};
ghost use Rattle.std.specs.List.{position};
ghost use Rattle.enip_adapter.specs.Adapter.{session_in, IsWaiting};
ghost use Rattle.enip_adapter.specs.Asks.{asks_at, asks_by_seen};
ghost use Rattle.enip_adapter.specs.Executing.{executing_at, executing_seen};
ghost use Rattle.enip_adapter.specs.Withdrawing.{requests_by_seen, requests_at};
ghost use Rattle.enip_adapter.specs.Groups.{has_share, peers_of_group};
ghost use Rattle.enip_adapter.specs.Lookup.{first_with, without_first};
ghost use Rattle.enip_adapter.specs.PeerSlots.{IsFed, piece_at, handle_of, no_slot_taken, with_slot};
ghost use Rattle.enip_adapter.specs.Serving.{is_open};

use crate::peer::{PeerSlot, Rights, Session};
use crate::reply::{AnswerFrame, Reaction};
use crate::shared::Shared;
use cip_objects::ReplyBuf;
use enip_wire::{FrameReader, FrameView};
use std::alloc::{AllocError, Global};
use std::marker::Model;

/// A fixed number of peer slots. The slots that are taken are in the order in which their peers began.
#[derive(Drop)]
pub(crate) struct PeerSlots {
    limit: u16,
    taken: Vec<PeerSlot>,
    free: Vec<FrameReader>,
}

impl Model for PeerSlots {
    ghost use Rattle.enip_adapter.specs.PeerSlots.{PeerSlotsState, peer_slots_in, HasFreeReaders};

    ghost Value = { PeerSlotsState };

    ghost view = { λ p. peer_slots_in p.limit p.taken.items };

    ghost invariant = { λ p. HasFreeReaders p.limit p.taken p.free };
}

impl PeerSlots {
    ghost use Rattle.enip_adapter.specs.contracts.peer_slots.PeerSlots.{the_row};

    /// Makes `limit` slots, all free. It allocates all of their memory here.
    ///
    /// # Errors
    ///
    /// `AllocError` if memory is refused.
    pub(crate) fn new(alloc: Global, limit: u16) -> Result<PeerSlots, AllocError>
        requires { limit ≤ 16 }
        ensures { IfOk result (λ p. p ≡ no_slot_taken limit) }
    {
        let taken = Vec::with_capacity(alloc, usize::from(limit))?;
        let mut free = Vec::with_capacity(alloc, usize::from(limit))?;
        for _ in 0..limit {
            free.push_reserved(FrameReader::new(alloc)?);
        }
        Ok(PeerSlots { limit, taken, free })
    }

    /// The number of free slots.
    pub(crate) fn free(&self) -> u16
        ensures count { result ≡ self.now.limit - length self.now.taken }
        ensures within { length self.now.taken ≤ self.now.limit }
    {
        self.free.len() as u16
    }

    /// Whether one more peer of a group may be held, if `share` may. A peer without a group counts for nobody.
    pub(crate) fn has_share(&self, share: u16, group: Option<u128>) -> bool
        ensures { result ≡ has_share share (map session_in self.now.taken) group }
    {
        match group {
            Some(group) => peers_of_group(&self.taken, group) < usize::from(share),
            None => true,
        }
    }

    /// Takes a free slot for a peer that begins with this session handle, these rights and this group.
    pub(crate) fn take(&mut self, handle: u32, rights: Rights, group: Option<u128>)
        requires { length self.old.taken < self.old.limit }
        ensures { self.new ≡ with_slot self.old handle rights group }
    {
        if let Some(reader) = self.free.pop() {
            let session = Session {
                handle,
                registered: false,
                closed: false,
                rights,
                group,
            };
            self.taken.push_reserved(PeerSlot { session, reader });
        }
    }

    /// Frees the slot of the peer with this handle. Returns `false` if it holds none.
    pub(crate) fn release(&mut self, handle: u32) -> bool
        ensures held { result ≡ is_some (first_with handle_of handle self.old.taken) }
        ensures limit { self.new.limit ≡ self.old.limit }
        ensures taken { self.new.taken ≡ without_first handle_of handle self.old.taken }
    {
        let Some(index) = index_of(&self.taken, handle) else {
            return false;
        };
        let place = self.taken.remove(index);
        let mut reader = place.reader;
        reader.clear();
        self.free.push_reserved(reader);
        true
    }

    /// The session of the peer with this handle. `None` if it holds no slot.
    pub(crate) fn session(&self, handle: u32) -> Option<Session>
        ensures { result ≡ option_map session_in (first_with handle_of handle self.now.taken) }
    {
        let index = index_of(&self.taken, handle)?;
        Some(self.taken[index].session)
    }

    /// Whether the peer with this handle holds a slot and is not closed.
    pub(crate) fn is_open(&self, handle: u32) -> bool
        ensures { result ≡ is_open (option_map session_in (first_with handle_of handle self.now.taken)) }
    {
        match index_of(&self.taken, handle) {
            Some(index) => !self.taken[index].session.closed,
            None => false,
        }
    }

    /// The session of the peer with this handle, and the frame that a piece would complete if it were fed to it. `None`
    /// if the piece completes no frame, or if the peer holds no slot or is closed. Nothing changes. The frame is lent
    /// from the piece, or from the bytes that are held of the peer.
    pub(crate) fn peek<'a>(
        &'a mut self,
        handle: u32,
        piece: &'a [u8],
    ) -> Option<(Session, FrameView<'a>)>
        ensures* state { sem 𝓛 (Rests the_row self.entry (λ last. last ≡ self.old)) }
        ensures seen { (next_handle : ℕ) (shared : Shared) → asks_by_seen shared result
            ≡ asks_at self.old.limit next_handle shared self.old.taken handle piece.now }
        ensures executing { (next_handle : ℕ) (shared : Shared) → executing_seen shared result
            ≡ executing_at self.old.limit next_handle shared self.old.taken handle piece.now }
        ensures requests { (next_handle : ℕ) (shared : Shared) → requests_by_seen shared result
            ≡ requests_at self.old.limit next_handle shared self.old.taken handle piece.now }
    {
        let Some(index) = index_of(&self.taken, handle) else {
            return None;
        };
        if self.taken[index].session.closed {
            return None;
        }
        self.taken[index].peek(piece)
    }

    /// Feeds a piece to the peer with this handle. Returns the number of bytes taken and the reaction to them.
    pub(crate) fn feed(
        &mut self,
        shared: &mut Shared,
        handle: u32,
        piece: &[u8],
        reply: &mut ReplyBuf,
        answer: &mut AnswerFrame,
    ) -> (usize, Reaction)
        ensures fed { (next_handle : ℕ) → IsFed self.old.limit next_handle shared.old self.old.taken
            (piece_at self.old.limit next_handle shared.old self.old.taken handle piece.now)
            shared.new self.new.taken result answer.new.items }
        ensures limit { self.new.limit ≡ self.old.limit }
        ensures within { result.0 ≤ length piece.now }
        ensures progress { 0 < length piece.now → result.1.close ≡ false → 0 < result.0 }
    {
        feed_taken(shared, &mut self.taken, handle, piece, reply, answer)
    }
}

/// The number of peers of a group.
fn peers_of_group(places: &[PeerSlot], group: u128) -> usize
    ensures count { result ≡ peers_of_group group (map session_in places.now) }
    ensures within { result ≤ length places.now }
{
    let mut count = 0;
    for index in 0..places.len() {
        if places[index].session.group == Some(group) {
            count += 1;
        }
    }
    count
}

/// The index of the first peer with this handle.
fn index_of(places: &[PeerSlot], handle: u32) -> Option<usize>
    ensures { result ≡ position (λ p. p.session.handle == handle) places.now }
{
    places
        .iter()
        .position(|place| place.session.handle == handle)
}

/// Feeds a piece to the peer with this handle. Returns the number of bytes taken and the reaction to them.
fn feed_taken(
    shared: &mut Shared,
    places: &mut [PeerSlot],
    handle: u32,
    piece: &[u8],
    reply: &mut ReplyBuf,
    answer: &mut AnswerFrame,
) -> (usize, Reaction)
    requires { All IsWaiting places.old }
    ensures fed { (limit next_handle : ℕ) → IsFed limit next_handle shared.old places.old
        (piece_at limit next_handle shared.old places.old handle piece.now)
        shared.new places.new result answer.new.items }
    ensures size { length places.new ≡ length places.old }
    ensures within { result.0 ≤ length piece.now }
    ensures progress { 0 < length piece.now → result.1.close ≡ false → 0 < result.0 }
    ensures waiting { All IsWaiting places.new }
{
    match index_of(places, handle) {
        Some(index) if !places[index].session.closed => places[index].feed(
            shared, piece, reply, answer,
        ),
        _ => (0, Reaction::NOT_SERVED),
    }
}
