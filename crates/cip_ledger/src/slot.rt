//! An originator's slot.
ghost use Rattle.std.specs.Prelude.{◌≡◌, ◌≤◌, ℕ, List, length, Some, None, IfSome, if◌then◌else◌};
ghost use Rattle.std.specs.Option.{option_copied};
ghost use Rattle.cip_ledger.specs.Doubt.{is_doubtful};
ghost use Rattle.cip_ledger.specs.Ledger.{is_pending, is_withdrawn, slot_withdrawn};
ghost use Rattle.cip_ledger.specs.Pending.{is_pending_at, completed_slot};
ghost use Rattle.cip_ledger.specs.Services.{KEPT_LIMIT};

use arrayvec::ArrayVec;
use cip_bytes::append;
use std::marker::Model;

/// The most bytes of a kept reply, and so the reply limit of an embedded request.
pub const KEPT_LIMIT: usize = 480;

/// An originator's slot: the last of its commands, and the reply to it, unless the command is pending or in doubt. A
/// pending one has a ticket. One that was withdrawn has an empty reply and the ticket 0.
#[derive(Drop)]
pub(crate) struct Slot {
    originator: u64,
    number: u32,
    is_done: bool,
    ticket: Option<u32>,
    reply: ArrayVec<u8, KEPT_LIMIT>,
}

impl Model for Slot {
    ghost use Rattle.cip_ledger.specs.Ledger.{SlotState};

    ghost Value = { SlotState };

    ghost use Rattle.cip_ledger.specs.Inside.{slot_in};

    ghost view = { slot_in };
}

impl Slot {
    /// The slot of an originator whose last command has this number and this reply.
    pub(crate) fn new(originator: u64, number: u32, reply: &[u8]) -> Slot
        requires { length reply.now ≤ KEPT_LIMIT }
        ensures { result
            ≡ record { originator = originator; number = number; reply = Some reply.now; ticket = None } }
    {
        let mut kept = ArrayVec::new();
        append(&mut kept, reply);
        Slot {
            originator,
            number,
            is_done: true,
            ticket: None,
            reply: kept,
        }
    }

    /// The slot of an originator whose last command has this number and no reply: it is pending with this ticket, or in
    /// doubt.
    pub(crate) fn new_unanswered(originator: u64, number: u32, ticket: Option<u32>) -> Slot
        ensures { result
            ≡ record { originator = originator; number = number; reply = None; ticket = ticket } }
    {
        Slot {
            originator,
            number,
            is_done: false,
            ticket,
            reply: ArrayVec::new(),
        }
    }

    /// The slot of an originator whose last command has this number and was withdrawn.
    pub(crate) fn new_withdrawn(originator: u64, number: u32) -> Slot
        ensures { result ≡ slot_withdrawn originator number }
    {
        Slot {
            originator,
            number,
            is_done: true,
            ticket: Some(0),
            reply: ArrayVec::new(),
        }
    }

    /// Whose slot it is.
    pub(crate) fn originator(&self) -> u64
        ensures { result ≡ self.now.originator }
    {
        self.originator
    }

    /// The number of the last command.
    pub(crate) fn number(&self) -> u32
        ensures { result ≡ self.now.number }
    {
        self.number
    }

    /// Whether the last command is in doubt.
    pub(crate) fn is_in_doubt(&self) -> bool
        ensures { result ≡ is_doubtful self.now }
    {
        !self.is_done && self.ticket.is_none()
    }

    /// Whether the last command is pending.
    pub(crate) fn is_pending(&self) -> bool
        ensures { result ≡ is_pending self.now }
    {
        !self.is_done && self.ticket.is_some()
    }

    /// Whether the last command was withdrawn.
    pub(crate) fn is_withdrawn(&self) -> bool
        ensures { result ≡ is_withdrawn self.now }
    {
        self.is_done && self.ticket.is_some()
    }

    /// The ticket of the last command, if that is pending, and 0 if it was withdrawn.
    pub(crate) fn ticket(&self) -> Option<u32>
        ensures { result ≡ self.now.ticket }
    {
        self.ticket
    }

    /// The reply to the last command, `None` if that is pending or in doubt.
    pub(crate) fn reply(&self) -> Option<&[u8]>
        ensures reply { option_copied result ≡ self.now.reply }
        ensures fits { IfSome result (λ reply. length reply.now ≤ KEPT_LIMIT) }
    {
        if !self.is_done {
            return None;
        }
        Some(self.reply.as_slice())
    }

    /// The reply to the last command, which was just kept.
    pub(crate) fn kept(&self) -> &[u8]
        ensures reply { (reply : List ℕ) → self.now.reply ≡ Some reply → result.now ≡ reply }
        ensures fits { length result.now ≤ KEPT_LIMIT }
    {
        self.reply.as_slice()
    }

    /// Keeps the originator's next command and its reply.
    pub(crate) fn keep(&mut self, number: u32, reply: &[u8])
        requires { length reply.now ≤ KEPT_LIMIT }
        ensures { self.new ≡ record self.old { number = number; reply = Some reply.now; ticket = None } }
    {
        self.number = number;
        self.is_done = true;
        self.ticket = None;
        keep_reply(&mut self.reply, reply);
    }

    /// Keeps the originator's next command without a reply: it is pending with this ticket, or in doubt.
    pub(crate) fn await_reply(&mut self, number: u32, ticket: Option<u32>)
        ensures { self.new ≡ record self.old { number = number; reply = None; ticket = ticket } }
    {
        self.number = number;
        self.is_done = false;
        self.ticket = ticket;
        self.reply.clear();
    }

    /// Keeps the originator's next command, which was withdrawn.
    pub(crate) fn withdraw(&mut self, number: u32)
        ensures { self.new ≡ slot_withdrawn self.old.originator number }
    {
        self.number = number;
        self.is_done = true;
        self.ticket = Some(0);
        self.reply.clear();
    }

    /// Keeps the reply to the command with this ticket, if that is pending here, and returns whether it is.
    pub(crate) fn complete(&mut self, ticket: u32, reply: &[u8]) -> bool
        requires { length reply.now ≤ KEPT_LIMIT }
        ensures result { result ≡ is_pending_at ticket self.old }
        ensures slot { self.new ≡ completed_slot ticket reply.now self.old }
    {
        if self.is_done {
            return false;
        }
        let Some(own) = self.ticket else {
            return false;
        };
        if own != ticket {
            return false;
        }
        self.keep(self.number, reply);
        true
    }
}

/// Keeps a reply in place of another one. Most have the length of the last, and are copied over it.
fn keep_reply(kept: &mut ArrayVec<u8, KEPT_LIMIT>, reply: &[u8])
    requires { length reply.now ≤ KEPT_LIMIT }
    ensures { kept.new.items ≡ reply.now }
{
    if kept.len() == reply.len() {
        kept.as_mut_slice().copy_from_slice(reply);
        return;
    }
    kept.clear();
    append(kept, reply);
}
