//! The results of commands that the owner finished. No call after `new` takes memory.
ghost use Rattle.std.specs.Prelude.{◌≡◌, ◌≤◌, ◌<◌, [], length, Some, None, option_map};
ghost use Rattle.std.specs.Prelude.{IfOk, IfSome, IfNone, slice_get, slice_index_or};
ghost use Rattle.std.specs.List.{AllByRecursion};
ghost use Rattle.cip_owner.specs.Queue.{QueueResult, IsResult, kept_result, with_result};
ghost use Rattle.cip_owner.specs.QueueViews.{result_in};

use crate::queue::{CommandResult, RESULT_LIMIT};
use arrayvec::ArrayVec;
use cip_application::QUEUED_REPLY_LIMIT;
use cip_bytes::append;
use std::alloc::{AllocError, Global};
use std::collections::VecDeque;
use std::marker::Model;

/// A result that is kept.
#[derive(Drop)]
struct ResultSlot {
    ticket: u32,
    class: u16,
    instance: u32,
    status: u8,
    data: ArrayVec<u8, QUEUED_REPLY_LIMIT>,
}

impl Model for ResultSlot {
    ghost use Rattle.cip_owner.specs.Queue.{QueueResult};

    ghost Value = { QueueResult };

    ghost view = { λ s. record {
      ticket = s.ticket;
      class = s.class;
      instance = s.instance;
      status = s.status;
      content = s.data.items;
    } };
}

impl ResultSlot {
    /// A result that is kept from now on.
    fn new(finished: CommandResult<'_>) -> ResultSlot
        requires { length finished.data.now ≤ QUEUED_REPLY_LIMIT }
        ensures { result ≡ result_in finished.entry }
    {
        let mut data = ArrayVec::new();
        append(&mut data, finished.data);
        ResultSlot {
            ticket: finished.ticket,
            class: finished.class,
            instance: finished.instance,
            status: finished.status,
            data,
        }
    }

    /// The command's ticket.
    fn ticket(&self) -> u32
        ensures { result ≡ self.now.ticket }
    {
        self.ticket
    }

    /// The result. Its data are lent.
    fn lent(&self) -> CommandResult<'_>
        ensures kept { result_in result ≡ self.now }
        ensures short { length result.data.now ≤ QUEUED_REPLY_LIMIT }
    {
        CommandResult {
            ticket: self.ticket,
            class: self.class,
            instance: self.instance,
            status: self.status,
            data: self.data.as_slice(),
        }
    }
}

/// The results that are kept, oldest first.
#[derive(Drop)]
pub(crate) struct Results {
    results: VecDeque<ResultSlot>,
}

impl Model for Results {
    ghost use Rattle.std.specs.Prelude.{List};
    ghost use Rattle.cip_owner.specs.Queue.{QueueResult};
    ghost use Rattle.std.specs.VecDeque.{deque_capacity, deque_len};
    ghost use Rattle.cip_owner.specs.QueueViews.{HasResults};

    ghost Value = { List QueueResult };

    ghost view = { λ r. r.results.items };

    ghost invariant = { λ r. HasResults (deque_capacity r.results) (deque_len r.results) r.results.items };
}

impl Results {
    /// Places for 256 results, all free. All their memory is taken here.
    ///
    /// # Errors
    ///
    /// `AllocError` if memory is refused.
    pub(crate) fn new(alloc: Global) -> Result<Results, AllocError>
        ensures { IfOk result (λ results. results ≡ []) }
    {
        let results = VecDeque::with_capacity(alloc, RESULT_LIMIT)?;
        Ok(Results { results })
    }

    /// How many results are kept.
    pub(crate) fn len(&self) -> usize
        ensures count { result ≡ length self.now }
        ensures within { length self.now ≤ RESULT_LIMIT }
        ensures sized { AllByRecursion IsResult self.now }
    {
        self.results.len()
    }

    /// The result at an index, oldest first.
    pub(crate) fn get(&self, index: usize) -> Option<CommandResult<'_>>
        ensures kept { option_map result_in result ≡ slice_get self.now index }
        ensures short { IfSome result (λ kept. length kept.data.now ≤ QUEUED_REPLY_LIMIT) }
    {
        match self.results.get(index) {
            Some(slot) => Some(slot.lent()),
            None => None,
        }
    }

    /// The result with this ticket, `None` if it is not kept.
    pub(crate) fn find(&self, ticket: u32) -> Option<CommandResult<'_>>
        ensures kept { option_map result_in result ≡ kept_result ticket self.now }
        ensures short { IfSome result (λ kept. length kept.data.now ≤ QUEUED_REPLY_LIMIT) }
    {
        match index_of(&self.results, ticket) {
            Some(index) => self.get(index),
            None => None,
        }
    }

    /// Keeps a result. If 256 are kept, the oldest is dropped.
    pub(crate) fn keep(&mut self, finished: CommandResult<'_>)
        requires { length finished.data.now ≤ QUEUED_REPLY_LIMIT }
        ensures { self.new ≡ with_result self.old (result_in finished.entry) }
    {
        if self.results.len() >= RESULT_LIMIT {
            self.results.pop_front();
        }
        self.results.push_back_reserved(ResultSlot::new(finished));
    }
}

/// Where the result with this ticket is, `None` if it is not kept.
fn index_of(results: &VecDeque<ResultSlot>, ticket: u32) -> Option<usize>
    ensures found { IfSome result (λ index. (index < length results.now.items)
        × ((d : QueueResult) → kept_result ticket results.now.items ≡ Some (slice_index_or results.now.items index d))) }
    ensures missing { IfNone result (kept_result ticket results.now.items ≡ None) }
{
    for index in 0..results.len() {
        if results[index].ticket() == ticket {
            return Some(index);
        }
    }
    None
}
