//! Withdraw: what a request withdraws, and what is answered.
ghost use Rattle.std.specs.Prelude.{◌≡◌, ◌≤◌, ◌<◌, length, Some, None};
ghost use Rattle.cip_bytes.specs.Numbers.{number_at};
ghost use Rattle.cip_ledger.specs.Ledger.{slot_of};
ghost use Rattle.cip_ledger.specs.Services.{reply_to, withdraw, withdraw_in};
ghost use Rattle.cip_ledger.specs.Views.{request_in};
ghost use Rattle.cip_ledger.specs.Withdrawing.{withdrawal_by, by_withdraw, by_forget, of_pending, withdraw_by_slot, forget_by_slot, with_withdrawn};

use super::{Ledger, last_state};
use crate::reply::{answer, begin, size_fault};
use crate::request::LedgerRequest;
use crate::slot::Slot;
use crate::status::Status;
use crate::withdrawal::Withdrawal;
use byteorder::{ByteOrder, LittleEndian};
use cip_message::{FORGET, WITHDRAW};
use cip_objects::{REPLY_LIMIT, ReplyBuf};

/// The bytes of the data of Withdraw: a life, an originator and a number.
const NAME_SIZE: usize = 20;

/// The bytes of the data of Forget: an originator and a number.
const SLOT_SIZE: usize = 12;

impl Ledger {
    /// What a request to the ledger withdraws before it is executed. `None` if that is nothing.
    pub(crate) fn withdrawal(&self, request: LedgerRequest<'_>) -> Option<Withdrawal>
        ensures { result ≡ withdrawal_by self.now (request_in request.entry) }
    {
        if request.instance != 1 {
            return None;
        }
        match request.service {
            WITHDRAW => self.withdrawal_asked(request.data),
            FORGET => self.withdrawal_forgotten(request.data),
            _ => None,
        }
    }

    /// What Withdraw withdraws.
    fn withdrawal_asked(&self, data: &[u8]) -> Option<Withdrawal>
        ensures { result ≡ by_withdraw self.now «data».now }
    {
        if data.len() != NAME_SIZE {
            return None;
        }
        let (life, originator, number) = read_name(data);
        if life != self.life {
            return None;
        }
        self.withdrawal_of_command(originator, number)
    }

    /// What Withdraw of a command withdraws.
    fn withdrawal_of_command(&self, originator: u64, number: u32) -> Option<Withdrawal>
        ensures { result ≡ withdraw_by_slot self.now originator number (slot_of originator self.now.taken) }
    {
        let is_unused = match self.slots.find(originator) {
            Some(slot) if slot.is_pending() => return pending_withdrawal(slot, originator, number),
            Some(slot) => slot.number() < number,
            None => self.slots.has_free(),
        };
        if !is_unused {
            return None;
        }
        Some(Withdrawal {
            originator,
            number,
            ticket: None,
        })
    }

    /// What Forget withdraws.
    fn withdrawal_forgotten(&self, data: &[u8]) -> Option<Withdrawal>
        ensures { result ≡ by_forget self.now «data».now }
    {
        if data.len() != SLOT_SIZE {
            return None;
        }
        let originator = LittleEndian::read_u64(data);
        let number = LittleEndian::read_u32(&data[8..]);
        match self.slots.find(originator) {
            Some(slot) if slot.is_pending() => pending_withdrawal(slot, originator, number),
            _ => None,
        }
    }

    /// Keeps a command that was withdrawn as the last one of its originator, if that has a slot or one is free.
    pub(crate) fn keep_withdrawn(&mut self, originator: u64, number: u32)
        ensures { self.new ≡ with_withdrawn originator number self.old }
    {
        let index = self.position(originator);
        let has_place = self.slots.found(originator, index).is_some() || self.slots.has_free();
        if has_place {
            self.slots.withdraw(index, originator, number);
        }
    }

    /// Withdraw: what has become of a command.
    pub(super) fn withdraw(&self, data: &[u8], max_size: usize, reply: &mut ReplyBuf)
        requires max_size_from { 8 ≤ max_size }
        requires max_size_to { max_size ≤ REPLY_LIMIT }
        ensures reply { reply.new.items ≡ reply_to WITHDRAW (withdraw self.now max_size «data».now) }
        ensures fits { length reply.new.items ≤ max_size }
    {
        if let Some(status) = size_fault(NAME_SIZE, data) {
            begin(WITHDRAW, status, reply);
            return;
        }
        let (life, originator, number) = read_name(data);
        // a command of another life is never executed: 0x10 (ledger, ours)
        if life != self.life {
            begin(WITHDRAW, Status::DeviceStateConflict, reply);
            return;
        }
        self.answer_withdrawal(originator, number, max_size, reply);
    }

    /// What has become of a command of this life.
    fn answer_withdrawal(&self, originator: u64, number: u32, max_size: usize, reply: &mut ReplyBuf)
        requires max_size_from { 8 ≤ max_size }
        requires max_size_to { max_size ≤ REPLY_LIMIT }
        ensures reply { reply.new.items
            ≡ reply_to WITHDRAW (withdraw_in max_size number (slot_of originator self.now.taken)) }
        ensures fits { length reply.new.items ≤ max_size }
    {
        match self.slots.find(originator) {
            Some(slot) => answer_of_slot(slot, number, max_size, reply),
            // no slot is free for it: 0x02 (ledger, ours)
            None => begin(WITHDRAW, Status::ResourceUnavailable, reply),
        }
    }
}

/// The life, the originator and the number in the data of Withdraw.
fn read_name(data: &[u8]) -> (u64, u64, u32)
    requires { NAME_SIZE ≤ length «data».now }
    ensures life { result.0 ≡ number_at 0 8 «data».now }
    ensures originator { result.1 ≡ number_at 8 8 «data».now }
    ensures number { result.2 ≡ number_at 16 4 «data».now }
{
    let life = LittleEndian::read_u64(data);
    let originator = LittleEndian::read_u64(&data[8..]);
    let number = LittleEndian::read_u32(&data[16..]);
    (life, originator, number)
}

/// What has become of the command with this number, by the slot of its originator.
fn answer_of_slot(slot: &Slot, number: u32, max_size: usize, reply: &mut ReplyBuf)
    requires max_size_from { 8 ≤ max_size }
    requires max_size_to { max_size ≤ REPLY_LIMIT }
    ensures reply { reply.new.items ≡ reply_to WITHDRAW (withdraw_in max_size number (Some slot.now)) }
    ensures fits { length reply.new.items ≤ max_size }
{
    let last = slot.number();
    // a smaller number is never executed: 0x0c (ledger, ours)
    if number < last {
        begin(WITHDRAW, Status::ObjectStateConflict, reply);
        return;
    }
    // no number is used while the last command is pending: 0xd0 (ledger, ours)
    if number != last {
        begin(WITHDRAW, Status::CommandPending, reply);
        return;
    }
    let (state, kept) = last_state(slot);
    answer(WITHDRAW, &[state], kept, max_size, reply);
}

/// The withdrawal of a pending command, if it has this number.
fn pending_withdrawal(slot: &Slot, originator: u64, number: u32) -> Option<Withdrawal>
    ensures { result ≡ of_pending originator number slot.now }
{
    if slot.number() != number {
        return None;
    }
    Some(Withdrawal {
        originator,
        number,
        ticket: slot.ticket(),
    })
}
