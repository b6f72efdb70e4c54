//! The slots of the originators. No call after `new` takes memory.
ghost use Rattle.std.specs.Prelude.{◌≡◌, ℕ, List, ◌≤◌, ◌<◌, nat_lt, [], ◌∷◌, ◌++◌, length, option_map, Some, None};
ghost use Rattle.std.specs.Prelude.{IfOk, IfSome, IfNone, unwrap_or, ◌^◌};
ghost use Rattle.std.specs.Prelude.{slice_index_or, slice_set, slice_get, map, filter};
ghost use Rattle.cip_ledger.specs.Doubt.{is_doubtful, command_name};
ghost use Rattle.cip_ledger.specs.Pending.{any_pending, completed_slot};
ghost use Rattle.cip_ledger.specs.Ledger.{SlotState, slot_of, with_slot, without_slot, slot_withdrawn, AreApart, AreSlots};
ghost use Rattle.cip_ledger.specs.Services.{KEPT_LIMIT};
ghost use Rattle.cip_ledger.specs.Slots.{slots_in, IsKeptAt, IsFound};

use crate::doubt::DoubtfulCommand;
use crate::slot::Slot;
use cip_message::MOST_ORIGINATORS;
use std::alloc::{AllocError, Global};
use std::marker::Model;

/// So many slots, in the order in which those that are taken were taken.
#[derive(Drop)]
pub(crate) struct Slots {
    limit: u16,
    taken: Vec<Slot>,
}

impl Model for Slots {
    ghost use Rattle.cip_ledger.specs.Slots.{SlotsState, slots_in, HasSlots};

    ghost Value = { SlotsState };

    ghost view = { λ s. slots_in s.limit s.taken.items };

    ghost invariant = { λ s. HasSlots s.limit s.taken };
}

impl Slots {
    /// So many slots, all free. All their memory is taken here.
    ///
    /// # Errors
    ///
    /// `AllocError` if memory is refused.
    pub(crate) fn new(alloc: Global, limit: u16) -> Result<Slots, AllocError>
        requires { limit ≤ MOST_ORIGINATORS }
        ensures { IfOk result (λ slots. slots ≡ slots_in limit []) }
    {
        let taken = Vec::with_capacity(alloc, usize::from(limit))?;
        Ok(Slots { limit, taken })
    }

    /// How many slots there are.
    pub(crate) fn limit(&self) -> u16
        ensures { result ≡ self.now.limit }
    {
        self.limit
    }

    /// How many slots are taken.
    pub(crate) fn taken(&self) -> u16
        ensures count { result ≡ length self.now.taken }
        ensures few { self.now.limit ≤ MOST_ORIGINATORS }
        ensures within { length self.now.taken ≤ self.now.limit }
        ensures apart { AreApart self.now.taken }
        ensures slots { AreSlots self.now.taken }
    {
        self.taken.len() as u16
    }

    /// Whether a slot is free.
    pub(crate) fn has_free(&self) -> bool
        ensures { result ≡ nat_lt (length self.now.taken) self.now.limit }
    {
        self.taken.len() < usize::from(self.limit)
    }

    /// The slot of an originator, `None` if it has none.
    pub(crate) fn find(&self, originator: u64) -> Option<&Slot>
        ensures { option_map (λ slot. slot.now) result ≡ slot_of originator self.now.taken }
    {
        let index = self.position(originator);
        self.found(originator, index)
    }

    /// Where the slot of an originator is, `None` if it has none.
    #[inline(always)]
    pub(crate) fn position(&self, originator: u64) -> Option<usize>
        ensures { IsFound self.now.taken originator result }
    {
        index_of(&self.taken, originator)
    }

    /// The slot at an index, in the order in which they were taken.
    pub(crate) fn get(&self, index: usize) -> Option<&Slot>
        ensures { option_map (λ slot. slot.now) result ≡ slice_get self.now.taken index }
    {
        self.taken.get(index)
    }

    /// The slot of an originator that was found at this index.
    #[inline(always)]
    pub(crate) fn found(&self, originator: u64, index: Option<usize>) -> Option<&Slot>
        requires { IsFound self.now.taken originator index }
        ensures { option_map (λ slot. slot.now) result ≡ slot_of originator self.now.taken }
    {
        match index {
            Some(index) => Some(&self.taken[index]),
            None => None,
        }
    }

    /// Keeps the last command of an originator and its reply, in the slot that was found at this index or in a free
    /// one, and answers the index of that slot.
    pub(crate) fn keep(
        &mut self,
        index: Option<usize>,
        originator: u64,
        number: u32,
        reply: &[u8],
    ) -> usize
        requires found { IsFound self.old.taken originator index }
        requires free { slot_of originator self.old.taken ≡ None → length self.old.taken < self.old.limit }
        requires fits { length reply.now ≤ KEPT_LIMIT }
        ensures limit { self.new.limit ≡ self.old.limit }
        ensures taken { self.new.taken
            ≡ with_slot (record { originator = originator; number = number; reply = Some reply.now; ticket = None })
            self.old.taken }
        ensures index { IsKeptAt self.new.taken result reply.now }
    {
        let Some(index) = index else {
            let index = self.taken.len();
            self.taken
                .push_reserved(Slot::new(originator, number, reply));
            return index;
        };
        self.taken[index].keep(number, reply);
        index
    }

    /// The command at this place among those in doubt, in the order of the slots.
    pub(crate) fn in_doubt(&self, place: usize) -> Option<DoubtfulCommand>
        ensures { result ≡ slice_get (map command_name (filter is_doubtful self.now.taken)) place }
    {
        self.taken
            .iter()
            .filter(|slot| slot.is_in_doubt())
            .map(DoubtfulCommand::of)
            .nth(place)
    }

    /// The reply in the slot at an index.
    pub(crate) fn reply(&self, index: usize) -> &[u8]
        requires { index < length self.now.taken }
        ensures reply { (reply : List ℕ) → IsKeptAt self.now.taken index reply → result.now ≡ reply }
        ensures fits { length result.now ≤ KEPT_LIMIT }
    {
        self.taken[index].kept()
    }

    /// Keeps the last command of an originator without a reply, pending with this ticket or in doubt, in the slot that
    /// was found at this index or in a free one.
    pub(crate) fn await_reply(
        &mut self,
        index: Option<usize>,
        originator: u64,
        number: u32,
        ticket: Option<u32>,
    )
        requires found { IsFound self.old.taken originator index }
        requires free { slot_of originator self.old.taken ≡ None → length self.old.taken < self.old.limit }
        requires ticket { unwrap_or ticket 0 < 2 ^ 32 }
        ensures limit { self.new.limit ≡ self.old.limit }
        ensures taken { self.new.taken
            ≡ with_slot (record { originator = originator; number = number; reply = None; ticket = ticket })
            self.old.taken }
    {
        let Some(index) = index else {
            self.taken
                .push_reserved(Slot::new_unanswered(originator, number, ticket));
            return;
        };
        self.taken[index].await_reply(number, ticket);
    }

    /// Keeps the last command of an originator, which was withdrawn, in the slot that was found at this index or in a free
    /// one.
    pub(crate) fn withdraw(&mut self, index: Option<usize>, originator: u64, number: u32)
        requires found { IsFound self.old.taken originator index }
        requires free { slot_of originator self.old.taken ≡ None → length self.old.taken < self.old.limit }
        ensures limit { self.new.limit ≡ self.old.limit }
        ensures taken { self.new.taken ≡ with_slot (slot_withdrawn originator number) self.old.taken }
    {
        let Some(index) = index else {
            self.taken
                .push_reserved(Slot::new_withdrawn(originator, number));
            return;
        };
        self.taken[index].withdraw(number);
    }

    /// Keeps the reply to the command with this ticket, wherever it is pending, and returns whether it is.
    pub(crate) fn complete(&mut self, ticket: u32, reply: &[u8]) -> bool
        requires { length reply.now ≤ KEPT_LIMIT }
        ensures limit { self.new.limit ≡ self.old.limit }
        ensures taken { self.new.taken ≡ map (completed_slot ticket reply.now) self.old.taken }
        ensures result { result ≡ any_pending ticket self.old.taken }
    {
        complete_in(self.taken.as_mut_slice(), ticket, reply)
    }

    /// Frees the slot of an originator.
    pub(crate) fn free(&mut self, originator: u64)
        ensures limit { self.new.limit ≡ self.old.limit }
        ensures taken { self.new.taken ≡ without_slot originator self.old.taken }
    {
        self.taken.retain(|slot| slot.originator() != originator);
    }
}

/// Keeps the reply to the command with this ticket, wherever it is pending, and returns whether it is.
fn complete_in(taken: &mut [Slot], ticket: u32, reply: &[u8]) -> bool
    requires { length reply.now ≤ KEPT_LIMIT }
    ensures taken { taken.new ≡ map (completed_slot ticket reply.now) taken.old }
    ensures result { result ≡ any_pending ticket taken.old }
{
    let mut any = false;
    for index in 0..taken.len() {
        let was_pending = taken[index].complete(ticket, reply);
        any = any || was_pending;
    }
    any
}

/// Where the slot of an originator is, `None` if it has none.
fn index_of(taken: &[Slot], originator: u64) -> Option<usize>
    ensures found { IfSome result (λ index. (index < length taken.now)
        × ((d : SlotState) → slot_of originator taken.now ≡ Some (slice_index_or taken.now index d))) }
    ensures put { IfSome result (λ index. (slot : SlotState) → slot.originator ≡ originator →
        with_slot slot taken.now ≡ slice_set taken.now index slot) }
    ensures missing { IfNone result ((slot_of originator taken.now ≡ None)
        × ((slot : SlotState) → slot.originator ≡ originator → with_slot slot taken.now ≡ taken.now ++ slot ∷ [])) }
{
    for index in 0..taken.len() {
        if taken[index].originator() == originator {
            return Some(index);
        }
    }
    None
}
