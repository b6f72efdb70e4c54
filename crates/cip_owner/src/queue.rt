//! The queue of commands that wait for the owner of the device, and the results of those that it finished.
//! Text: docs/PROTOCOL.md, "Queued commands".
ghost use Rattle.std.specs.Prelude.{◌≡◌, ◌≤◌, length, nat_le, IfOk, IfSome, option_map, unwrap_or, is_some};
ghost use Rattle.std.specs.Prelude.{slice_get, if◌then◌else◌};
ghost use Rattle.cip_objects.specs.OwnRequests.{asked_in};
ghost use Rattle.cip_owner.specs.Queue.{empty_queue, has_widths, takes, next_ticket, after_push, command_of};
ghost use Rattle.cip_owner.specs.Queue.{is_reply_within, finished, can_finish, outcome_of, result_of, IsQueue};
ghost use Rattle.cip_owner.specs.Queue.{with_next, restored_waiting, restored_result, with_handed, marked};
ghost use Rattle.cip_owner.specs.QueueViews.{waiting_in, result_in, outcome_in, IsShort};

mod results;
mod waiting;

use crate::owner::OwnerReply;
use byteorder::{ByteOrder, LittleEndian};
use cip_application::QUEUED_REPLY_LIMIT;
use cip_objects::{GeneralStatus, OwnRequest};
use results::Results;
use std::alloc::{AllocError, Global};
use std::marker::Model;
use waiting::Waiting;

/// The most commands that may wait (our choice).
pub const QUEUE_LIMIT: u16 = 256;

/// The most results that are kept (our choice).
pub const RESULT_LIMIT: usize = 256;

/// The most bytes of a waiting command's data: those of a value that is set.
pub const COMMAND_DATA_LIMIT: usize = 500;

/// No ticket has this number, or a greater one.
const TICKETS_END: u64 = 0x1_0000_0000;

/// The bytes of a ticket.
const TICKET_SIZE: usize = 4;

/// A command that waits for the owner of the device. Its data are lent from the queue.
///
/// ```
/// if let Some(command) = queue.waiting(0) {
///     start(command.service, command.data); // and later `finish` it by `command.ticket`
/// }
/// ```
#[derive(Clone, Copy, Debug)]
pub struct WaitingCommand<'a> {
    /// The ticket: no other command of the device has it.
    pub ticket: u32,
    /// The object's class.
    pub class: u16,
    /// The object's instance number.
    pub instance: u32,
    /// The service.
    pub service: u8,
    /// The data of the service, at most 500 bytes.
    pub data: &'a [u8],
    /// The most bytes of the reply's data, at most 476.
    pub reply_limit: u16,
}

/// The result of a command that the owner of the device finished. Its data are lent from the queue.
///
/// ```
/// if let Some(result) = queue.kept_result(0) {
///     println!(rt; "{}: {}", result.ticket, result.status)?;
/// }
/// ```
#[derive(Clone, Copy, Debug)]
pub struct CommandResult<'a> {
    /// The ticket.
    pub ticket: u32,
    /// The object's class.
    pub class: u16,
    /// The object's instance number.
    pub instance: u32,
    /// The owner's general status.
    pub status: u8,
    /// The owner's data, at most 476 bytes.
    pub data: &'a [u8],
}

/// What the queue has of a ticket.
///
/// ```
/// match queue.outcome(ticket, 768, 1) {
///     Outcome::Pending => wait(),
///     Outcome::Done(result) => show(result.status, result.data),
///     Outcome::Unknown => give_up(),
/// }
/// ```
#[derive(Clone, Copy, Debug)]
pub enum Outcome<'a> {
    /// The command waits.
    Pending,
    /// The owner finished it, with this result.
    Done(CommandResult<'a>),
    /// No command of the object has this ticket, or its result is no longer kept.
    Unknown,
}

/// The queue of a device: the commands that wait for its owner, and the last 256 results.
///
/// A caller sees it as `QueueState`. No call after `new` takes memory.
///
/// ```
/// let queue = Queue::new(alloc, 16)?;
/// let mut device = OwnedObjects::with_queue(objects, Some(queue));
/// device.execute(request, 504, &mut reply); // a queued service: the reply is its ticket
/// ```
#[derive(Drop)]
pub struct Queue {
    next: u64,
    handed: u32,
    waiting: Waiting,
    results: Results,
}

impl Model for Queue {
    ghost use Rattle.std.specs.Prelude.{◌≤◌, ◌^◌};
    ghost use Rattle.cip_owner.specs.Queue.{QueueState};

    ghost Value = { QueueState };

    ghost view = { λ q. record {
      limit = q.waiting.limit;
      next = q.next;
      handed = q.handed;
      waiting = q.waiting.commands;
      results = q.results;
    } };

    ghost invariant = { λ q. q.next ≤ 2 ^ 32 };
}

impl Queue {
    /// An empty queue in which so many commands may wait, at most 256. All memory is taken here: some 500 bytes for
    /// each of these commands, and for each of 256 results.
    ///
    /// # Errors
    ///
    /// `AllocError` if memory is refused.
    pub fn new(alloc: Global, limit: u16) -> Result<Queue, AllocError>
        requires { limit ≤ QUEUE_LIMIT }
        ensures { IfOk result (λ queue. queue ≡ empty_queue limit) }
    {
        let waiting = Waiting::new(alloc, limit)?;
        let results = Results::new(alloc)?;
        Ok(Queue {
            next: 1,
            handed: 0,
            waiting,
            results,
        })
    }

    /// How many commands may wait.
    pub fn limit(&self) -> u16
        ensures { result ≡ self.now.limit }
    {
        self.waiting.limit()
    }

    /// The next ticket. 2^32 if every ticket was given: then the queue takes no command any more.
    pub fn next(&self) -> u64
        ensures { result ≡ self.now.next }
    {
        self.next
    }

    /// The greatest ticket that was handed over, or 0. Commands are handed over in the order of their tickets: each one
    /// that waits with this ticket or a smaller one was handed over.
    pub fn handed(&self) -> u32
        ensures { result ≡ self.now.handed }
    {
        self.handed
    }

    /// Marks the waiting command with this ticket, and each before it, as handed over. Returns whether such a command
    /// waits: if not, nothing changes. Call it before the owner hears of the command.
    ///
    /// ```
    /// if queue.mark(command.ticket) {
    ///     hand_over(command); // it cannot be withdrawn any more
    /// }
    /// ```
    pub fn mark(&mut self, ticket: u32) -> bool
        ensures state { self.new ≡ marked self.old ticket }
        ensures reported { result ≡ is_some (command_of ticket self.old.waiting) }
    {
        let waits = self.waiting.find(ticket).is_some();
        if waits {
            self.handed = self.handed.max(ticket);
        }
        waits
    }

    /// The ticket that a request would have if it were put into the queue now. `None` if the queue does not take it: it
    /// is full, every ticket was given, or the data have over 500 bytes or those of the reply over 476.
    pub fn next_ticket(&self, own: OwnRequest<'_>) -> Option<u32>
        ensures { result ≡ next_ticket self.now (asked_in own.entry) }
    {
        if self.takes(own) {
            return Some(self.next as u32);
        }
        None
    }

    /// Whether the queue takes a request.
    fn takes(&self, own: OwnRequest<'_>) -> bool
        ensures { result ≡ takes self.now (asked_in own.entry) }
    {
        self.waiting.has_place() && self.next < TICKETS_END && has_widths(own)
    }

    /// Puts a request into the queue, and returns its ticket. `None` if the queue does not take it, and nothing changes
    /// then.
    pub(crate) fn push(&mut self, own: OwnRequest<'_>) -> Option<u32>
        ensures ticket { result ≡ next_ticket self.old (asked_in own.entry) }
        ensures state { self.new ≡ after_push self.old (asked_in own.entry) }
    {
        let ticket = self.next_ticket(own)?;
        self.next += 1;
        self.waiting.push(WaitingCommand {
            ticket,
            class: own.class,
            instance: own.instance,
            service: own.service,
            data: own.data,
            reply_limit: own.reply_limit,
        });
        Some(ticket)
    }

    /// How many commands wait.
    pub fn waiting_count(&self) -> usize
        ensures count { result ≡ length self.now.waiting }
        ensures queue { IsQueue self.now }
    {
        let _next = self.next;
        let _handed = self.handed;
        let _results = self.results.len();
        self.waiting.len()
    }

    /// The waiting command at an index, in the order in which they were put into the queue. `None` past the last.
    ///
    /// ```
    /// while let Some(command) = queue.waiting(0) {
    ///     queue.finish(command.ticket, &execute(command));
    /// }
    /// ```
    pub fn waiting(&self, index: usize) -> Option<WaitingCommand<'_>>
        ensures command { option_map waiting_in result ≡ slice_get self.now.waiting index }
        ensures short { IfSome result (λ command. length command.data.now ≤ COMMAND_DATA_LIMIT) }
    {
        self.waiting.get(index)
    }

    /// The waiting command with this ticket. `None` if no such command waits.
    pub fn command(&self, ticket: u32) -> Option<WaitingCommand<'_>>
        ensures command { option_map waiting_in result ≡ command_of ticket self.now.waiting }
        ensures short { IfSome result (λ command. length command.data.now ≤ COMMAND_DATA_LIMIT) }
    {
        self.waiting.find(ticket)
    }

    /// How many results are kept.
    pub fn result_count(&self) -> usize
        ensures { result ≡ length self.now.results }
    {
        self.results.len()
    }

    /// The result at an index, oldest first. `None` past the last.
    pub fn kept_result(&self, index: usize) -> Option<CommandResult<'_>>
        ensures kept { option_map result_in result ≡ slice_get self.now.results index }
        ensures short { IfSome result (λ kept. length kept.data.now ≤ QUEUED_REPLY_LIMIT) }
    {
        self.results.get(index)
    }

    /// Finishes the waiting command with this ticket: this is its result from now on, and it waits no more. False if no
    /// such command waits, or if this cannot be its reply: it is longer than the service allows, or says that it is too
    /// large (0x11). Nothing changes then. Allocates nothing.
    ///
    /// ```
    /// let reply = OwnerReply::new(0, &[0x01])?;
    /// queue.finish(ticket, &reply); // the machine has moved
    /// ```
    pub fn finish(&mut self, ticket: u32, reply: &OwnerReply) -> bool
        ensures state { self.new ≡ unwrap_or (finished self.old ticket reply.now) self.old }
        ensures reported { result ≡ can_finish self.old ticket reply.now }
    {
        let Some(command) = self.waiting.find(ticket) else {
            return false;
        };
        if !is_reply_within(reply, command.reply_limit) {
            return false;
        }
        let finished = CommandResult {
            ticket: command.ticket,
            class: command.class,
            instance: command.instance,
            status: reply.status(),
            data: reply.data(),
        };
        self.results.keep(finished);
        self.waiting.remove(ticket);
        true
    }

    /// What the queue has of a ticket, for this object.
    pub fn outcome(&self, ticket: u32, class: u16, instance: u32) -> Outcome<'_>
        ensures outcome { outcome_in result ≡ outcome_of self.now ticket class instance }
        ensures short { IsShort result }
    {
        if let Some(command) = self.waiting.find(ticket) {
            if command.class == class && command.instance == instance {
                return Outcome::Pending;
            }
            return Outcome::Unknown;
        }
        match self.results.find(ticket) {
            Some(kept) if kept.class == class && kept.instance == instance => Outcome::Done(kept),
            _ => Outcome::Unknown,
        }
    }

    /// What Get_Result of an object answers.
    pub(crate) fn result_of(&self, own: OwnRequest<'_>) -> Outcome<'_>
        ensures outcome { outcome_in result ≡ result_of self.now (asked_in own.entry) }
        ensures short { IsShort result }
    {
        if own.data.len() != TICKET_SIZE {
            return Outcome::Unknown;
        }
        let ticket = LittleEndian::read_u32(own.data);
        self.outcome(ticket, own.class, own.instance)
    }

    /// Sets the next ticket, and returns whether it did. A number over 2^32 changes nothing.
    ///
    /// With this call, `set_handed`, `restore_waiting` and `restore_result` a device starts from what was kept of its
    /// queue, before it answers any peer.
    ///
    /// ```
    /// let mut queue = Queue::new(alloc, 16)?;
    /// queue.set_next(next);
    /// queue.set_handed(handed);
    /// queue.restore_waiting(command); // each command that waited, in order
    /// queue.restore_result(result); // each result that was kept, oldest first
    /// ```
    pub fn set_next(&mut self, next: u64) -> bool
        ensures state { self.new ≡ (if nat_le next TICKETS_END then with_next next self.old else self.old) }
        ensures reported { result ≡ nat_le next TICKETS_END }
    {
        if next > TICKETS_END {
            return false;
        }
        self.next = next;
        true
    }

    /// Sets the greatest ticket that was handed over, as it was kept.
    pub fn set_handed(&mut self, ticket: u32)
        ensures { self.new ≡ with_handed ticket self.old }
    {
        self.handed = ticket;
    }

    /// Puts a waiting command behind the others, as it was kept, and returns whether it did. If no more may wait, or
    /// its data have over 500 bytes or its reply over 476, nothing changes.
    pub fn restore_waiting(&mut self, command: WaitingCommand<'_>) -> bool
        ensures restored { self.new
            ≡ unwrap_or (restored_waiting (waiting_in command.entry) self.old) self.old }
        ensures reported { result ≡ is_some (restored_waiting (waiting_in command.entry) self.old) }
    {
        if !self.waiting.has_place()
            || command.data.len() > COMMAND_DATA_LIMIT
            || usize::from(command.reply_limit) > QUEUED_REPLY_LIMIT
        {
            return false;
        }
        self.waiting.push(command);
        true
    }

    /// Puts a result behind the others, as it was kept, and returns whether it did. If 256 are kept, or its data have
    /// over 476 bytes, nothing changes.
    pub fn restore_result(&mut self, kept: CommandResult<'_>) -> bool
        ensures restored { self.new ≡ unwrap_or (restored_result (result_in kept.entry) self.old) self.old }
        ensures reported { result ≡ is_some (restored_result (result_in kept.entry) self.old) }
    {
        if self.results.len() >= RESULT_LIMIT || kept.data.len() > QUEUED_REPLY_LIMIT {
            return false;
        }
        self.results.keep(kept);
        true
    }
}

/// Whether a request is not too long to be kept. Its numbers have the widths of their types.
fn has_widths(own: OwnRequest<'_>) -> bool
    ensures { result ≡ has_widths (asked_in own.entry) }
{
    own.data.len() <= COMMAND_DATA_LIMIT && usize::from(own.reply_limit) <= QUEUED_REPLY_LIMIT
}

/// Whether a reply can be that of a command whose reply may have `limit` bytes of data.
fn is_reply_within(reply: &OwnerReply, limit: u16) -> bool
    ensures { result ≡ is_reply_within limit reply.now }
{
    let status = reply.status();
    let size = reply.data().len();
    status != GeneralStatus::ReplyDataTooLarge.number()
        && size <= usize::from(limit)
        && size <= QUEUED_REPLY_LIMIT
}
