//! The ledger: what it does with each request.
ghost use Rattle.std.specs.Prelude.{◌≡◌, ◌≤◌, ◌∷◌, length, map, Some, IfOk, IfSome, option_map};
ghost use Rattle.std.specs.Prelude.{unwrap_or, is_some, slice_get};
ghost use Rattle.cip_ledger.specs.Kept.{kept_in, with_life, restored, IsLedger};
ghost use Rattle.cip_ledger.specs.Ledger.{empty_ledger};
ghost use Rattle.cip_message.specs.LedgerCommand as commands;
ghost use Rattle.cip_ledger.specs.Doubt.{doubtful_in, command_name, can_settle, settled, can_doubt, doubted};
ghost use Rattle.cip_ledger.specs.Doubt.{is_kept_reply};
ghost use Rattle.cip_ledger.specs.Pending.{can_complete, completed};
ghost use Rattle.cip_ledger.specs.Services.{do_command, KEPT_LIMIT};
ghost use Rattle.cip_ledger.specs.Services as services;
ghost use Rattle.cip_ledger.specs.Slots.{IsFound};
ghost use Rattle.cip_ledger.specs.Standings.{at_router};
ghost use Rattle.cip_ledger.specs.Turn.{turn, turn_of, acted, ActsAlone};
ghost use Rattle.cip_ledger.specs.Verdicts.{action_in, Fits};
ghost use Rattle.cip_ledger.specs.Views.{command_in, request_in};
ghost use Rattle.cip_ledger.specs.AttributeValue.{values_in};

mod commands;
mod executing;
mod listing;
mod withdrawing;

use crate::attributes::{Attributes, class_value, write_single};
use crate::doubt::DoubtfulCommand;
use crate::reply::{
    DONE, HEAD_SIZE, IN_DOUBT, LONGEST_DONE, PENDING, WITHDRAWN, answer, begin, size_fault,
};
use crate::request::{Command, LedgerRequest, SHORT_SIZE, is_do_once};
use crate::service::{GET_ATTRIBUTE_LIST, GET_ATTRIBUTE_SINGLE};
use crate::slot::{KEPT_LIMIT, Slot};
use crate::slots::Slots;
use crate::status::Status;
use crate::target::Target;
use byteorder::{ByteOrder, LittleEndian};
use cip_message::{DO_ONCE, FORGET, GET_LAST, GET_SLOTS, MOST_ORIGINATORS, WITHDRAW};
use cip_objects::{REPLY_LIMIT, ReplyBuf};
pub(crate) use commands::embedded_standing;
use std::alloc::{AllocError, Global};
use std::marker::Model;

/// What is to be done with a command.
pub(crate) enum Verdict<'a> {
    /// It is refused.
    Refuses(Status),
    /// It is the last one of its originator: it has this state, and this is kept of its reply.
    Repeats(u8, &'a [u8]),
    /// It is new, and is executed.
    Executes,
}

/// The last command of an originator, and the reply to it or its ticket, as a slot keeps them.
#[derive(Clone, Copy, Debug)]
pub struct KeptCommand<'a> {
    /// Whose command it is.
    pub originator: u64,
    /// The number of the command.
    pub number: u32,
    /// The reply, at most 480 bytes. `None` if the command is pending or in doubt.
    pub reply: Option<&'a [u8]>,
    /// The ticket of a command that is pending. A command without a reply and without a ticket is in doubt, and one that
    /// was withdrawn has an empty reply and the ticket 0.
    pub ticket: Option<u32>,
}

/// The ledger of a device: for each originator the last command that was executed, and its reply or its ticket, or a
/// command that is in doubt.
///
/// A caller sees it as `LedgerState`: how many slots there are, the number of the device's life, and the taken slots.
/// No call after `new` takes memory.
#[derive(Drop)]
pub struct Ledger {
    life: u64,
    slots: Slots,
}

impl Model for Ledger {
    ghost use Rattle.cip_ledger.specs.Ledger.{LedgerState};

    ghost Value = { LedgerState };

    ghost view = { λ l. record { slots = l.slots.limit; life = l.life; taken = l.slots.taken } };
}

impl Ledger {
    /// A ledger with slots for so many originators, 1 to 64, all free. `life` is the number of the device's life: a
    /// device that starts with an empty ledger has another life than before. All memory is taken here, some 500 bytes a
    /// slot.
    ///
    /// # Errors
    ///
    /// `AllocError` if memory is refused.
    pub fn new(alloc: Global, originators: u16, life: u64) -> Result<Ledger, AllocError>
        requires least { 1 ≤ originators }
        requires most { originators ≤ MOST_ORIGINATORS }
        ensures { IfOk result (λ ledger. ledger ≡ empty_ledger originators life) }
    {
        Ok(Ledger {
            life,
            slots: Slots::new(alloc, originators)?,
        })
    }

    /// Puts an originator's command in doubt: it has this number, and the device does not know whether it was executed.
    /// False if the originator's last command has this number or a greater one, or if no slot is free for it. Nothing
    /// has changed then.
    ///
    /// A device does so as it starts, with a command of its ledger that it may have executed before.
    pub fn put_in_doubt(&mut self, originator: u64, number: u32) -> bool
        ensures result { result ≡ can_doubt self.old originator number }
        ensures state { self.new ≡ doubted self.old originator number }
    {
        let index = self.position(originator);
        let is_new = match self.slots.found(originator, index) {
            Some(slot) => slot.number() < number,
            None => self.slots.has_free(),
        };
        if is_new {
            self.slots.await_reply(index, originator, number, None);
        }
        is_new
    }

    /// Settles a command in doubt: its kept reply is this one from now on, and a repeat of the command gets it. False
    /// if this command is not in doubt, or if the reply does not have 4 to 480 bytes. Nothing has changed then.
    ///
    /// `reply` is the whole reply that the embedded request should have had, with its head.
    ///
    /// ```
    /// // the machine did move: the command's reply is a success without data
    /// ledger.settle(originator, number, &[0xb2, 0, 0, 0]);
    /// ```
    pub fn settle(&mut self, originator: u64, number: u32, reply: &[u8]) -> bool
        ensures result { result ≡ can_settle self.old originator number reply.now }
        ensures state { self.new ≡ settled self.old originator number reply.now }
    {
        if !is_kept_reply(reply) {
            return false;
        }
        let index = self.position(originator);
        let is_doubtful = match self.slots.found(originator, index) {
            Some(slot) => slot.number() == number && slot.is_in_doubt(),
            None => false,
        };
        if is_doubtful {
            self.slots.keep(index, originator, number, reply);
        }
        is_doubtful
    }

    /// Keeps the reply to a pending command: it is done with this reply from now on, and a repeat of the command gets
    /// it. `ticket` is the one that the router gave the command. False if no command is pending with this ticket, or if
    /// the reply does not have 4 to 480 bytes. Nothing has changed then.
    ///
    /// `reply` is the whole reply to the embedded request, with its head.
    ///
    /// ```
    /// // the command with ticket 7 is done: a success without data
    /// ledger.complete(7, &[0xb2, 0, 0, 0]);
    /// ```
    pub fn complete(&mut self, ticket: u32, reply: &[u8]) -> bool
        ensures result { result ≡ can_complete self.old ticket reply.now }
        ensures state { self.new ≡ completed self.old ticket reply.now }
    {
        if !is_kept_reply(reply) {
            return false;
        }
        self.slots.complete(ticket, reply)
    }

    /// The command at this place among those in doubt, from 0, `None` if there are fewer. A command that is settled is
    /// not among them.
    ///
    /// ```
    /// while let Some(command) = ledger.in_doubt(0) {
    ///     let reply = ask_the_machine(command.originator, command.number);
    ///     ledger.settle(command.originator, command.number, &reply);
    /// }
    /// ```
    pub fn in_doubt(&self, place: usize) -> Option<DoubtfulCommand>
        ensures { result ≡ slice_get (map command_name (doubtful_in self.now)) place }
    {
        self.slots.in_doubt(place)
    }

    /// The number of the device's life.
    pub fn life(&self) -> u64
        ensures { result ≡ self.now.life }
    {
        self.life
    }

    /// Sets the number of the device's life. A device that starts from what was kept of its ledger is still in the life
    /// that it was in.
    pub fn set_life(&mut self, life: u64)
        ensures { self.new ≡ with_life life self.old }
    {
        self.life = life;
    }

    /// How many slots are taken.
    pub fn slot_count(&self) -> usize
        ensures count { result ≡ length self.now.taken }
        ensures ledger { IsLedger self.now }
    {
        let _life = self.life;
        usize::from(self.slots.taken())
    }

    /// The last command in a taken slot, by the slot's index in the order in which they were taken. `None` past the
    /// last.
    pub fn slot(&self, index: usize) -> Option<KeptCommand<'_>>
        ensures kept { option_map kept_in result ≡ slice_get self.now.taken index }
        ensures short { IfSome result (λ kept. IfSome kept.reply (λ reply. length reply.now ≤ KEPT_LIMIT)) }
    {
        match self.slots.get(index) {
            Some(slot) => Some(KeptCommand {
                originator: slot.originator(),
                number: slot.number(),
                reply: slot.reply(),
                ticket: slot.ticket(),
            }),
            None => None,
        }
    }

    /// Puts the last command of an originator into a free slot, as it was kept, and returns whether it did. If no slot
    /// is free, the originator has one, the reply has over 480 bytes, or there are both a reply and a ticket that are not
    /// those of a command that was withdrawn, nothing changes.
    ///
    /// With this call a device starts from what was kept of its ledger, before it answers any peer.
    ///
    /// ```
    /// ledger.set_life(life);
    /// let restored = ledger.restore(KeptCommand { originator, number, reply: Some(reply), ticket: None });
    /// ```
    pub fn restore(&mut self, kept: KeptCommand<'_>) -> bool
        ensures restored { self.new ≡ unwrap_or (restored (kept_in kept.entry) self.old) self.old }
        ensures reported { result ≡ is_some (restored (kept_in kept.entry) self.old) }
    {
        let size = kept.reply.map_or(0, |reply| reply.len());
        if !self.slots.has_free() || size > KEPT_LIMIT {
            return false;
        }
        let index = self.position(kept.originator);
        if index.is_some() {
            return false;
        }
        match (kept.reply, kept.ticket) {
            (Some(reply), Some(ticket)) => {
                // a command that is done has no ticket
                if !reply.is_empty() || ticket != 0 {
                    return false;
                }
                self.slots.withdraw(index, kept.originator, kept.number);
            }
            (Some(reply), None) => {
                self.slots.keep(index, kept.originator, kept.number, reply);
            }
            (None, Some(ticket)) => {
                self.slots
                    .await_reply(index, kept.originator, kept.number, Some(ticket));
            }
            (None, None) => {
                self.slots
                    .await_reply(index, kept.originator, kept.number, None);
            }
        }
        true
    }

    /// What is to be done with a command: the first check that fails refuses it.
    fn verdict(&self, command: Command<'_>, index: Option<usize>, max_size: usize) -> Verdict<'_>
        requires { IsFound self.now.taken command.originator index }
        ensures action { action_in max_size (command_in command.entry) result
            ≡ do_command self.now max_size (command_in command.entry) }
        ensures fits { Fits max_size result }
    {
        // a command of another life is never executed: 0x10 (ledger, ours)
        if command.life != self.life {
            return Verdict::Refuses(Status::DeviceStateConflict);
        }
        let Some(slot) = self.slots.found(command.originator, index) else {
            // a slot is never taken away: 0x02 (ledger, ours)
            if !self.slots.has_free() {
                return Verdict::Refuses(Status::ResourceUnavailable);
            }
            return verdict_on_new(max_size);
        };
        // a smaller number is never executed: 0x0c (ledger, ours)
        if command.number < slot.number() {
            return Verdict::Refuses(Status::ObjectStateConflict);
        }
        if command.number == slot.number() {
            let (state, kept) = last_state(slot);
            return Verdict::Repeats(state, kept);
        }
        // an originator has one pending command at most: 0xd0 (ledger, ours)
        if slot.is_pending() {
            return Verdict::Refuses(Status::CommandPending);
        }
        verdict_on_new(max_size)
    }

    /// Where the slot of an originator is, `None` if it has none.
    #[inline(always)]
    fn position(&self, originator: u64) -> Option<usize>
        ensures { IsFound self.now.taken originator result }
    {
        self.slots.position(originator)
    }

    /// Do_Once: executes a command that is new, and replies to one that was executed as it was replied to then. The
    /// arguments have the router's order.
    #[tactic(auto, unfolding(crate::specs::Services::do_once))]
    fn do_once<R: Target>(
        router: &mut R,
        data: &[u8],
        max_size: usize,
        reply: &mut ReplyBuf,
        ledger: &mut Ledger,
    )
        requires max_size_from { 8 ≤ max_size }
        requires max_size_to { max_size ≤ REPLY_LIMIT }
        ensures rule { turn_of (Some ledger.new) router.new reply.new.items
            ≡ acted R.after R.answer (at_router R.standing router.old (services.do_once ledger.old max_size «data».now))
            DO_ONCE (Some ledger.old) router.old }
        ensures fits { length reply.new.items ≤ max_size }
    {
        // two numbers of 64 bits, one of 32, a request: 0x13 (ledger, ours)
        if data.len() < Command::SMALLEST {
            begin(DO_ONCE, Status::NotEnoughData, reply);
            return;
        }
        let command = Command::read(data);
        let index = ledger.position(command.originator);
        match ledger.verdict(command, index, max_size) {
            Verdict::Refuses(status) => begin(DO_ONCE, status, reply),
            Verdict::Repeats(state, kept) => answer(DO_ONCE, &[state], kept, max_size, reply),
            Verdict::Executes => {
                let request = &data[Command::FRONT_SIZE..];
                ledger.take_command(router, command, request, index, reply);
            }
        }
    }

    /// Get_Last: the number of an originator's last command, its state, and the reply to it.
    fn get_last(&self, data: &[u8], max_size: usize, reply: &mut ReplyBuf)
        requires max_size_from { 8 ≤ max_size }
        requires max_size_to { max_size ≤ REPLY_LIMIT }
        ensures reply { reply.new.items ≡ services.reply_to GET_LAST (services.get_last self.now max_size «data».now) }
        ensures fits { length reply.new.items ≤ max_size }
    {
        if let Some(status) = size_fault(8, data) {
            begin(GET_LAST, status, reply);
            return;
        }
        let Some(slot) = self.slots.find(LittleEndian::read_u64(data)) else {
            // the originator has no slot: 0x16 (ledger, ours)
            begin(GET_LAST, Status::ObjectDoesNotExist, reply);
            return;
        };
        let [first, second, third, fourth] = slot.number().to_le_bytes();
        let (state, kept) = last_state(slot);
        let front = [first, second, third, fourth, state];
        answer(GET_LAST, &front, kept, max_size, reply);
    }

    /// Forget: frees the slot of an originator, if its last command has this number and is not pending.
    fn forget(&mut self, data: &[u8], reply: &mut ReplyBuf)
        ensures rule { ActsAlone self.old (services.forget self.old «data».now) FORGET self.new reply.new.items }
    {
        if let Some(status) = size_fault(12, data) {
            begin(FORGET, status, reply);
            return;
        }
        let originator = LittleEndian::read_u64(data);
        let number = LittleEndian::read_u32(&data[8..]);
        let Some(slot) = self.slots.find(originator) else {
            begin(FORGET, Status::Success, reply);
            return;
        };
        // only the last number is forgotten, and none that is pending: 0x0c (ledger, ours)
        if slot.number() != number || slot.is_pending() {
            begin(FORGET, Status::ObjectStateConflict, reply);
            return;
        }
        self.slots.free(originator);
        begin(FORGET, Status::Success, reply);
    }

    /// The attributes of the instance.
    fn attributes(&self) -> Attributes
        ensures { values_in result ≡ services.ledger_values self.now }
    {
        Attributes {
            slots: self.slots.limit(),
            taken: self.slots.taken(),
            life: self.life,
        }
    }

    /// Serves a request to the instance.
    fn serve_instance<R: Target>(
        &mut self,
        router: &mut R,
        request: LedgerRequest<'_>,
        max_size: usize,
        reply: &mut ReplyBuf,
    )
        requires max_size_from { 8 ≤ max_size }
        requires max_size_to { max_size ≤ REPLY_LIMIT }
        ensures rule { turn_of (Some self.new) router.new reply.new.items
            ≡ acted R.after R.answer
            (at_router R.standing router.old (services.instance_action self.old max_size (request_in request.entry)))
            request.entry.service (Some self.old) router.old }
        ensures fits { length reply.new.items ≤ max_size }
    {
        match request.service {
            DO_ONCE => Ledger::do_once(router, request.data, max_size, reply, self),
            GET_LAST => self.get_last(request.data, max_size, reply),
            FORGET => self.forget(request.data, reply),
            GET_ATTRIBUTE_SINGLE => {
                let value = self.attributes().named(request.attribute);
                write_single(value, request.data, max_size, reply);
            }
            GET_ATTRIBUTE_LIST => self.attributes().write_list(request.data, max_size, reply),
            GET_SLOTS => self.get_slots(request.data, max_size, reply),
            WITHDRAW => self.withdraw(request.data, max_size, reply),
            // the ledger does not have this service: 0x08 (objects)
            _ => begin(request.service, Status::ServiceNotSupported, reply),
        }
    }

    /// Serves a request to the ledger's class, by its instance.
    fn serve<R: Target>(
        &mut self,
        router: &mut R,
        request: LedgerRequest<'_>,
        max_size: usize,
        reply: &mut ReplyBuf,
    )
        requires max_size_from { 8 ≤ max_size }
        requires max_size_to { max_size ≤ REPLY_LIMIT }
        ensures rule { turn_of (Some self.new) router.new reply.new.items
            ≡ acted R.after R.answer
            (at_router R.standing router.old (services.action_of self.old max_size (request_in request.entry)))
            request.entry.service (Some self.old) router.old }
        ensures fits { length reply.new.items ≤ max_size }
    {
        match request.instance {
            // instance 0 is the class itself (object model)
            0 => serve_class(request, max_size, reply),
            1 => self.serve_instance(router, request, max_size, reply),
            // no such instance: 0x05 (objects)
            _ => begin(request.service, Status::PathDestinationUnknown, reply),
        }
    }
}

/// Executes a request that may be one to the ledger's class, and leaves its reply in `reply`. The arguments have the
/// router's order, so that a request which is the router's is passed on as it is.
#[inline(never)]
pub(crate) fn execute_by<R: Target>(
    router: &mut R,
    request: &[u8],
    max_size: usize,
    reply: &mut ReplyBuf,
    ledger: &mut Ledger,
)
    requires request { 2 ≤ length request.now }
    requires max_size_from { 8 ≤ max_size }
    requires max_size_to { max_size ≤ REPLY_LIMIT }
    ensures rule { turn_of (Some ledger.new) router.new reply.new.items
        ≡ turn R.after R.answer R.standing (Some ledger.old) router.old max_size request.now }
    ensures fits { length reply.new.items ≤ max_size }
{
    if is_do_once(request) {
        Ledger::do_once(router, &request[SHORT_SIZE..], max_size, reply, ledger);
        return;
    }
    execute_any(router, request, max_size, reply, ledger);
}

/// Executes a request as `execute_by` does, however it is spelled. It is a function of its own, so that Do_Once saves
/// no registers for it.
#[inline(never)]
fn execute_any<R: Target>(
    router: &mut R,
    request: &[u8],
    max_size: usize,
    reply: &mut ReplyBuf,
    ledger: &mut Ledger,
)
    requires request { 2 ≤ length request.now }
    requires max_size_from { 8 ≤ max_size }
    requires max_size_to { max_size ≤ REPLY_LIMIT }
    ensures rule { turn_of (Some ledger.new) router.new reply.new.items
        ≡ turn R.after R.answer R.standing (Some ledger.old) router.old max_size request.now }
    ensures fits { length reply.new.items ≤ max_size }
{
    match LedgerRequest::read(request) {
        Some(own) => ledger.serve(router, own, max_size, reply),
        None => router.execute(request, max_size, reply),
    }
}

/// Serves a request to the class itself.
fn serve_class(request: LedgerRequest<'_>, max_size: usize, reply: &mut ReplyBuf)
    requires max_size_from { 8 ≤ max_size }
    requires max_size_to { max_size ≤ REPLY_LIMIT }
    ensures reply { reply.new.items
        ≡ services.reply_to request.entry.service (services.class_answer max_size (request_in request.entry)) }
    ensures fits { length reply.new.items ≤ max_size }
{
    if request.service != GET_ATTRIBUTE_SINGLE {
        begin(request.service, Status::ServiceNotSupported, reply);
        return;
    }
    write_single(
        class_value(request.attribute),
        request.data,
        max_size,
        reply,
    );
}

/// Whether a reply has a head at least, and is no longer than one that a slot keeps.
fn is_kept_reply(reply: &[u8]) -> bool
    ensures { result ≡ is_kept_reply reply.now }
{
    HEAD_SIZE <= reply.len() && reply.len() <= KEPT_LIMIT
}

/// The state of the last command of a slot, and what is kept of the reply to it.
fn last_state(slot: &Slot) -> (u8, &[u8])
    ensures content { result.0 ∷ result.1.now ≡ services.last_content slot.now }
    ensures fits { length result.1.now ≤ KEPT_LIMIT }
{
    match slot.reply() {
        // what was withdrawn is never executed: state 3 (ledger, ours)
        Some(_) if slot.is_withdrawn() => (WITHDRAWN, &[]),
        Some(kept) => (DONE, kept),
        // what is in the queue is not executed again: state 1 (ledger, ours)
        None if slot.ticket().is_some() => (PENDING, &[]),
        // what may have been executed is never executed again: state 2 (ledger, ours)
        None => (IN_DOUBT, &[]),
    }
}

/// What is to be done with a command that is new.
fn verdict_on_new(max_size: usize) -> Verdict<'static>
    ensures action { (command : commands.Command) →
        action_in max_size command result ≡ services.do_new max_size command }
    ensures fits { Fits max_size result }
{
    // an executed command's reply always fits: 0x11 (ledger, ours)
    if max_size < LONGEST_DONE {
        return Verdict::Refuses(Status::ReplyDataTooLarge);
    }
    Verdict::Executes
}
