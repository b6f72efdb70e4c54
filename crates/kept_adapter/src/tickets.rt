//! Whether the queue has given the tickets of the commands that are pending in the ledger.
ghost use Rattle.std.specs.Prelude.{◌≡◌, option_map};
ghost use Rattle.cip_ledger.specs.Kept.{kept_in};
ghost use Rattle.kept_adapter.specs.Started.{has_given, has_given_all, has_given_each, pending_ticket};

use cip_ledger::{KeptCommand, Ledger};
use cip_owner::Queue;

/// Whether the queue, if there is one, has given the ticket of each command that is pending in the ledger.
pub(crate) fn has_given_all(ledger: Option<&Ledger>, queue: Option<&Queue>) -> bool
    ensures { result ≡ has_given_all (option_map (λ l. l.now) ledger.entry) (option_map (λ q. q.now) queue.entry) }
{
    match ledger {
        Some(ledger) => has_given_each(ledger, queue),
        None => true,
    }
}

/// Whether the queue, if there is one, has given the ticket of each command that is pending in a ledger.
fn has_given_each(ledger: &Ledger, queue: Option<&Queue>) -> bool
    ensures { result ≡ has_given_each ledger.now.taken (option_map (λ q. q.now) queue.entry) }
{
    for index in 0..ledger.slot_count() {
        let Some(kept) = ledger.slot(index) else {
            return true;
        };
        if !has_given(pending_ticket(kept), queue) {
            return false;
        }
    }
    true
}

/// The ticket of the command in a slot if it is pending.
fn pending_ticket(kept: KeptCommand<'_>) -> Option<u32>
    ensures { result ≡ pending_ticket (kept_in kept.entry) }
{
    match kept.reply {
        Some(_) => None, // the ticket of a command that was withdrawn is none of a queue
        None => kept.ticket,
    }
}

/// Whether the queue, if there is one, has given this ticket.
fn has_given(ticket: Option<u32>, queue: Option<&Queue>) -> bool
    ensures { result ≡ has_given ticket (option_map (λ q. q.now) queue.entry) }
{
    let Some(ticket) = ticket else {
        return true;
    };
    match queue {
        Some(queue) => u64::from(ticket) < queue.next(),
        None => false,
    }
}
