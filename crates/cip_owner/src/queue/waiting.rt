//! The commands that wait. No call after `new` takes memory.
ghost use Rattle.std.specs.Prelude.{◌≡◌, ◌≤◌, ◌<◌, ◌++◌, ◌∷◌, [], length, nat_lt, Some, None, option_map};
ghost use Rattle.std.specs.Prelude.{IfOk, IfSome, IfNone, slice_get, slice_index_or};
ghost use Rattle.std.specs.List.{AllByRecursion};
ghost use Rattle.cip_owner.specs.Queue.{QueuedCommand, IsQueued, command_of, without_command};
ghost use Rattle.cip_owner.specs.QueueViews.{waiting_in, waiting_of};

use crate::queue::{COMMAND_DATA_LIMIT, QUEUE_LIMIT, WaitingCommand};
use arrayvec::ArrayVec;
use cip_application::QUEUED_REPLY_LIMIT;
use cip_bytes::append;
use std::alloc::{AllocError, Global};
use std::marker::Model;

/// A command that waits.
#[derive(Drop)]
struct WaitingSlot {
    ticket: u32,
    class: u16,
    instance: u32,
    service: u8,
    reply_limit: u16,
    data: ArrayVec<u8, COMMAND_DATA_LIMIT>,
}

impl Model for WaitingSlot {
    ghost use Rattle.cip_owner.specs.Queue.{QueuedCommand};

    ghost Value = { QueuedCommand };

    ghost view = { λ s. record {
      ticket = s.ticket;
      class = s.class;
      instance = s.instance;
      service = s.service;
      content = s.data.items;
      reply_limit = s.reply_limit;
    } };
}

impl WaitingSlot {
    /// A command that waits from now on.
    fn new(command: WaitingCommand<'_>) -> WaitingSlot
        requires { length command.data.now ≤ COMMAND_DATA_LIMIT }
        ensures { result ≡ waiting_in command.entry }
    {
        let mut data = ArrayVec::new();
        append(&mut data, command.data);
        WaitingSlot {
            ticket: command.ticket,
            class: command.class,
            instance: command.instance,
            service: command.service,
            reply_limit: command.reply_limit,
            data,
        }
    }

    /// The command's ticket.
    fn ticket(&self) -> u32
        ensures { result ≡ self.now.ticket }
    {
        self.ticket
    }

    /// The command. Its data are lent.
    fn lent(&self) -> WaitingCommand<'_>
        ensures command { waiting_in result ≡ self.now }
        ensures short { length result.data.now ≤ COMMAND_DATA_LIMIT }
    {
        WaitingCommand {
            ticket: self.ticket,
            class: self.class,
            instance: self.instance,
            service: self.service,
            data: self.data.as_slice(),
            reply_limit: self.reply_limit,
        }
    }
}

/// The commands that wait, in the order in which they were put into the queue, and how many may wait.
#[derive(Drop)]
pub(crate) struct Waiting {
    limit: u16,
    commands: Vec<WaitingSlot>,
}

impl Model for Waiting {
    ghost use Rattle.cip_owner.specs.QueueViews.{WaitingState, waiting_of, HasWaiting};

    ghost Value = { WaitingState };

    ghost view = { λ w. waiting_of w.limit w.commands.items };

    ghost invariant = { λ w. HasWaiting w.limit w.commands };
}

impl Waiting {
    /// Places for so many commands, all free. All their memory is taken here.
    ///
    /// # Errors
    ///
    /// `AllocError` if memory is refused.
    pub(crate) fn new(alloc: Global, limit: u16) -> Result<Waiting, AllocError>
        requires { limit ≤ QUEUE_LIMIT }
        ensures { IfOk result (λ waiting. waiting ≡ waiting_of limit []) }
    {
        let commands = Vec::with_capacity(alloc, usize::from(limit))?;
        Ok(Waiting { limit, commands })
    }

    /// How many commands may wait.
    pub(crate) fn limit(&self) -> u16
        ensures { result ≡ self.now.limit }
    {
        self.limit
    }

    /// How many commands wait.
    pub(crate) fn len(&self) -> usize
        ensures count { result ≡ length self.now.commands }
        ensures few { self.now.limit ≤ QUEUE_LIMIT }
        ensures within { length self.now.commands ≤ self.now.limit }
        ensures sized { AllByRecursion IsQueued self.now.commands }
    {
        self.commands.len()
    }

    /// Whether one more command may wait.
    pub(crate) fn has_place(&self) -> bool
        ensures { result ≡ nat_lt (length self.now.commands) self.now.limit }
    {
        self.commands.len() < usize::from(self.limit)
    }

    /// The command at an index.
    pub(crate) fn get(&self, index: usize) -> Option<WaitingCommand<'_>>
        ensures command { option_map waiting_in result ≡ slice_get self.now.commands index }
        ensures short { IfSome result (λ command. length command.data.now ≤ COMMAND_DATA_LIMIT) }
    {
        match self.commands.get(index) {
            Some(slot) => Some(slot.lent()),
            None => None,
        }
    }

    /// The command with this ticket, `None` if it does not wait.
    pub(crate) fn find(&self, ticket: u32) -> Option<WaitingCommand<'_>>
        ensures command { option_map waiting_in result ≡ command_of ticket self.now.commands }
        ensures short { IfSome result (λ command. length command.data.now ≤ COMMAND_DATA_LIMIT) }
    {
        match index_of(&self.commands, ticket) {
            Some(index) => Some(self.commands[index].lent()),
            None => None,
        }
    }

    /// Puts a command behind all others.
    pub(crate) fn push(&mut self, command: WaitingCommand<'_>)
        requires place { length self.old.commands < self.old.limit }
        requires data { length command.data.now ≤ COMMAND_DATA_LIMIT }
        requires reply { command.reply_limit ≤ QUEUED_REPLY_LIMIT }
        ensures { self.new
            ≡ waiting_of self.old.limit (self.old.commands ++ waiting_in command.entry ∷ []) }
    {
        self.commands.push_reserved(WaitingSlot::new(command));
    }

    /// Takes the command with this ticket away.
    pub(crate) fn remove(&mut self, ticket: u32)
        ensures { self.new ≡ waiting_of self.old.limit (without_command ticket self.old.commands) }
    {
        self.commands.retain(|slot| slot.ticket() != ticket);
    }
}

/// Where the command with this ticket is, `None` if it does not wait.
fn index_of(commands: &[WaitingSlot], ticket: u32) -> Option<usize>
    ensures found { IfSome result (λ index. (index < length commands.now)
        × ((d : QueuedCommand) → command_of ticket commands.now ≡ Some (slice_index_or commands.now index d))) }
    ensures missing { IfNone result (command_of ticket commands.now ≡ None) }
{
    for index in 0..commands.len() {
        if commands[index].ticket() == ticket {
            return Some(index);
        }
    }
    None
}
