//! The owner of a device finishes a queued command.
ghost use Rattle.std.specs.Prelude.{◌≡◌, is_some, unwrap_or};
ghost use Rattle.cip_ledger.specs.Device.{finished_in, finished_text, IsFinished};
ghost use Rattle.cip_ledger.specs.Pending.{completed};

use crate::ledger::Ledger;
use crate::router::LedgerRouter;
use cip_bytes::append;
use cip_message::reply_service;
use cip_objects::ReplyBuf;
use cip_owner::{OwnedObjects, OwnerReply, Queue};

impl LedgerRouter<OwnedObjects> {
    /// Finishes the command with this ticket: it leaves the queue, and its result is this status and these data. If the
    /// command came by Do_Once, the ledger answers it by the whole reply from now on. False if no such command waits,
    /// or if this cannot be its reply: it is longer than the service allows, or says that it is too large. Nothing has
    /// changed then. Allocates nothing.
    ///
    /// ```
    /// if let Some(command) = queue.waiting(0) {
    ///     let reply = run(&command); // the machine moves
    ///     device.finish(command.ticket, &reply);
    /// }
    /// ```
    pub fn finish(&mut self, ticket: u32, reply: &OwnerReply) -> bool
        ensures state { self.new ≡ unwrap_or (finished_in ticket reply.now self.old) self.old }
        ensures result { result ≡ is_some (finished_in ticket reply.now self.old) }
    {
        let Some(service) = finish_queued(&mut self.router.queue, ticket, reply) else {
            return false;
        };
        if let Some(ledger) = &mut self.ledger {
            complete(ledger, ticket, service, reply);
        }
        true
    }
}

/// Finishes the command with this ticket in the queue, and returns its service. `None` if it cannot be finished.
fn finish_queued(queue: &mut Option<Queue>, ticket: u32, reply: &OwnerReply) -> Option<u8>
    ensures { IsFinished ticket reply.now queue.old result queue.new }
{
    let Some(queue) = queue else {
        return None;
    };
    let service = queue.command(ticket)?.service;
    if queue.finish(ticket, reply) {
        Some(service)
    } else {
        None
    }
}

/// Keeps the owner's reply to a command of this service in the ledger.
fn complete(ledger: &mut Ledger, ticket: u32, service: u8, reply: &OwnerReply)
    ensures { ledger.new ≡ completed ledger.old ticket (finished_text service reply.now) }
{
    let mut text = ReplyBuf::new();
    append(&mut text, &[reply_service(service), 0, reply.status(), 0]);
    append(&mut text, reply.data());
    ledger.complete(ticket, text.as_slice());
}
