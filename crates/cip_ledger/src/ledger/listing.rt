//! Get_Slots: whose slots are taken.
ghost use Rattle.std.specs.Prelude.{◌≡◌, ◌≤◌, ◌+◌, ◌++◌, length, drop};
ghost use Rattle.cip_ledger.specs.Services.{reply_to, get_slots};
ghost use Rattle.cip_ledger.specs.SlotList.{entry, entries_within, state_byte};

use super::{Ledger, last_state};
use crate::reply::{HEAD_SIZE, begin, size_fault};
use crate::slot::Slot;
use crate::slots::Slots;
use crate::status::Status;
use byteorder::{ByteOrder, LittleEndian};
use cip_bytes::{append, append_u8, append_u16, append_u32};
use cip_message::GET_SLOTS;
use cip_objects::{REPLY_LIMIT, ReplyBuf};

/// The bytes of a slot in the list.
const ENTRY_SIZE: usize = 13;

/// The bytes of the count before the slots.
const COUNT_SIZE: usize = 2;

impl Ledger {
    /// Get_Slots: how many slots are taken, and the originator, the last number and the state of each one, from an index
    /// on and as many as fit.
    #[tactic(auto, using(crate::proofs::SlotListLemmas::list_fits))]
    pub(super) fn get_slots(&self, data: &[u8], max_size: usize, reply: &mut ReplyBuf)
        requires max_size_from { 8 ≤ max_size }
        requires max_size_to { max_size ≤ REPLY_LIMIT }
        ensures reply { reply.new.items ≡ reply_to GET_SLOTS (get_slots self.now max_size «data».now) }
        ensures fits { length reply.new.items ≤ max_size }
    {
        // one number of 16 bits (ledger, ours)
        if let Some(status) = size_fault(2, data) {
            begin(GET_SLOTS, status, reply);
            return;
        }
        let first = usize::from(LittleEndian::read_u16(data));
        begin(GET_SLOTS, Status::Success, reply);
        append_u16(reply, self.slots.taken());
        append_from(&self.slots, first, max_size - HEAD_SIZE - COUNT_SIZE, reply);
    }
}

/// Appends the slots from this index on, as many as fit into this space.
#[tactic(auto, using(crate::proofs::SlotListLemmas::listed_none, crate::proofs::SlotListLemmas::listed_full, crate::proofs::SlotListLemmas::listed_more))]
fn append_from(slots: &Slots, index: usize, space: usize, reply: &mut ReplyBuf)
    requires { length reply.old.items + space ≤ REPLY_LIMIT }
    ensures { reply.new.items ≡ reply.old.items ++ entries_within space (drop index slots.now.taken) }
{
    let Some(slot) = slots.get(index) else {
        return;
    };
    // a slot is listed whole or not at all (ledger, ours)
    if space < ENTRY_SIZE {
        return;
    }
    append_entry(slot, reply);
    // at most 64 slots are taken
    let _count = slots.taken();
    append_from(slots, index + 1, space - ENTRY_SIZE, reply);
}

/// Appends a slot: the originator, and the number and the state of its last command.
fn append_entry(slot: &Slot, reply: &mut ReplyBuf)
    requires { length reply.old.items + ENTRY_SIZE ≤ REPLY_LIMIT }
    ensures text { reply.new.items ≡ reply.old.items ++ entry slot.now }
    ensures len { length reply.new.items ≡ length reply.old.items + ENTRY_SIZE }
{
    append(reply, &slot.originator().to_le_bytes());
    append_u32(reply, slot.number());
    append_u8(reply, state_of(slot));
}

/// The state byte of the last command of a slot.
#[tactic(auto, using(crate::proofs::SlotListLemmas::state_first))]
fn state_of(slot: &Slot) -> u8
    ensures { result ≡ state_byte slot.now.reply slot.now.ticket }
{
    let (state, _) = last_state(slot);
    state
}
