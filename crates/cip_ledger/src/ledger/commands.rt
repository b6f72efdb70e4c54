//! A command that is new: what the router makes of it, and how it is executed and kept.
ghost use Rattle.std.specs.Prelude.{◌≡◌, ◌<◌, ◌≤◌, length, Some, None, IfSome, option_map, if◌then◌else◌};
ghost use Rattle.cip_ledger.specs.Executing.{new_command};
ghost use Rattle.cip_ledger.specs.Ledger.{slot_of};
ghost use Rattle.cip_ledger.specs.Services as services;
ghost use Rattle.cip_ledger.specs.Services.{do_command, Executes, Queues, KEPT_LIMIT};
ghost use Rattle.cip_ledger.specs.Slots.{IsFound};
ghost use Rattle.cip_ledger.specs.Standings.{new_at_router, embedded_standing};
ghost use Rattle.cip_ledger.specs.Turn.{turn_of, acted, after_embedded, embedded_reply};
ghost use Rattle.cip_ledger.specs.Views.{command_in, request_in};

use super::{Ledger, Verdict};
use crate::reply::{LONGEST_DONE, PENDING, answer, begin, write_done};
use crate::request::{Command, LedgerRequest, is_barred};
use crate::slot::KEPT_LIMIT;
use crate::status::Status;
use crate::target::{Standing, Target};
use cip_message::DO_ONCE;
use cip_objects::ReplyBuf;

impl Ledger {
    /// Does with a command that is new what the router makes of it. `request` is the command's own.
    pub(super) fn take_command<R: Target>(
        &mut self,
        router: &mut R,
        command: Command<'_>,
        request: &[u8],
        index: Option<usize>,
        reply: &mut ReplyBuf,
    )
        requires found { IsFound self.old.taken command.originator index }
        requires free { slot_of command.originator self.old.taken ≡ None → length self.old.taken < self.old.slots }
        requires own { request.now ≡ command.request.now }
        requires request { 2 ≤ length request.now }
        ensures rule { turn_of (Some self.new) router.new reply.new.items
            ≡ acted R.after R.answer (new_at_router R.standing router.old (command_in command.entry)) DO_ONCE
            (Some self.old) router.old }
        ensures fits { length reply.new.items ≤ LONGEST_DONE }
    {
        match embedded_standing(router, request) {
            Standing::Final => self.execute_command(router, command, request, index, reply),
            Standing::Pending(ticket) => {
                self.queue_command(router, command, request, index, ticket, reply);
            }
            // the queue is full: 0x02 (ledger, ours)
            Standing::Refused => begin(DO_ONCE, Status::ResourceUnavailable, reply),
        }
    }

    /// Executes a command that is new and that the router queues, and keeps its ticket. `request` is the command's own.
    fn queue_command<R: Target>(
        &mut self,
        router: &mut R,
        command: Command<'_>,
        request: &[u8],
        index: Option<usize>,
        ticket: u32,
        reply: &mut ReplyBuf,
    )
        requires found { IsFound self.old.taken command.originator index }
        requires free { slot_of command.originator self.old.taken ≡ None → length self.old.taken < self.old.slots }
        requires own { request.now ≡ command.request.now }
        requires request { 2 ≤ length request.now }
        ensures rule { turn_of (Some self.new) router.new reply.new.items
            ≡ acted R.after R.answer (Queues (command_in command.entry) ticket) DO_ONCE (Some self.old) router.old }
        ensures fits { length reply.new.items ≤ LONGEST_DONE }
    {
        execute_embedded(router, request, reply);
        self.slots
            .await_reply(index, command.originator, command.number, Some(ticket));
        answer(DO_ONCE, &[PENDING], &[], LONGEST_DONE, reply);
    }

    /// Executes a command that is new, and keeps its reply. `request` is the command's own.
    fn execute_command<R: Target>(
        &mut self,
        router: &mut R,
        command: Command<'_>,
        request: &[u8],
        index: Option<usize>,
        reply: &mut ReplyBuf,
    )
        requires found { IsFound self.old.taken command.originator index }
        requires free { slot_of command.originator self.old.taken ≡ None → length self.old.taken < self.old.slots }
        requires own { request.now ≡ command.request.now }
        requires request { 2 ≤ length request.now }
        ensures rule { turn_of (Some self.new) router.new reply.new.items
            ≡ acted R.after R.answer (Executes (command_in command.entry)) DO_ONCE (Some self.old) router.old }
        ensures fits { length reply.new.items ≤ LONGEST_DONE }
    {
        execute_embedded(router, request, reply);
        let index = self.slots.keep(index, command.originator, command.number, reply.as_slice());
        write_done(self.slots.reply(index), reply);
    }

    /// The command of a request to the ledger, if it would be new now. Its embedded request has 2 bytes or more.
    #[tactic(auto, unfolding(crate::specs::Services::do_once))]
    pub(crate) fn new_command<'a>(
        &self,
        request: LedgerRequest<'a>,
        max_size: usize,
    ) -> Option<Command<'a>>
        ensures command { option_map command_in result
            ≡ new_command (services.action_of self.now max_size (request_in request.entry)) }
        ensures request { IfSome result (λ command. 2 ≤ length command.request.now) }
    {
        if request.instance != 1 || request.service != DO_ONCE {
            return None;
        }
        if request.data.len() < Command::SMALLEST {
            return None;
        }
        let command = Command::read(request.data);
        if self.is_new(command, max_size) {
            Some(command)
        } else {
            None
        }
    }

    /// Whether a command would be new now.
    fn is_new(&self, command: Command<'_>, max_size: usize) -> bool
        ensures { (if result then Some (command_in command.entry) else None)
            ≡ new_command (do_command self.now max_size (command_in command.entry)) }
    {
        let index = self.position(command.originator);
        match self.verdict(command, index, max_size) {
            Verdict::Executes => true,
            Verdict::Refuses(_) | Verdict::Repeats(_, _) => false,
        }
    }
}

/// What the router makes of a command that embeds this request. The reply to a request that goes to the Connection
/// Manager or to the ledger is final, as that does not reach the router.
pub(crate) fn embedded_standing<R: Target>(router: &R, request: &[u8]) -> Standing
    requires { 2 ≤ length request.now }
    ensures { result ≡ embedded_standing R.standing router.now request.now }
{
    let reaches = !is_barred(request);
    if reaches {
        router.standing(request)
    } else {
        Standing::Final
    }
}

/// Executes an embedded request, unless it goes to the Connection Manager or to the ledger.
fn execute_embedded<R: Target>(router: &mut R, request: &[u8], reply: &mut ReplyBuf)
    requires { 2 ≤ length request.now }
    ensures router { router.new ≡ after_embedded R.after R.answer router.old request.now }
    ensures reply { reply.new.items ≡ embedded_reply R.after R.answer router.old request.now }
    ensures fits { length reply.new.items ≤ KEPT_LIMIT }
{
    if is_barred(request) {
        begin(request[0], Status::ServiceNotSupported, reply);
        return;
    }
    router.execute(request, KEPT_LIMIT, reply);
}
