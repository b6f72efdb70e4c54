//! A request withdraws a command before it is executed.
ghost use Rattle.std.specs.Prelude.{◌≡◌, is_some, unwrap_or};
ghost use Rattle.cip_ledger.specs.Withdrawing.{withdrawn_by, withdrawal_of, left_device, was_handed};

use crate::ledger::Ledger;
use crate::request::{LedgerRequest, may_be_to_ledger};
use crate::router::LedgerRouter;
use crate::withdrawal::Withdrawal;
use cip_owner::{OwnedObjects, OwnerReply, Queue};

/// The general status of the result of a command that was withdrawn: its object is not in the state for it (ours).
const WITHDRAWN_STATUS: u8 = 0x0c;

impl LedgerRouter<OwnedObjects> {
    /// Withdraws what a request withdraws, and returns whether that is anything. Call it before `execute`: Withdraw and
    /// Forget of a pending command take it out of the queue, if no owner was handed it, and Withdraw of a number that was
    /// not used uses it up, if no command of its originator is pending. No other request changes anything. Allocates
    /// nothing.
    ///
    /// ```
    /// device.withdraw_asked(request);
    /// device.execute(request, 504, &mut reply); // answers what has become of the command
    /// ```
    pub fn withdraw_asked(&mut self, request: &[u8]) -> bool
        ensures state { self.new ≡ unwrap_or (withdrawn_by request.now self.old) self.old }
        ensures result { result ≡ is_some (withdrawn_by request.now self.old) }
    {
        let Some(withdrawal) = withdrawal_of(&self.ledger, request) else {
            return false;
        };
        if !self.leave_queue(withdrawal.ticket) {
            return false;
        }
        if let Some(ledger) = &mut self.ledger {
            ledger.keep_withdrawn(withdrawal.originator, withdrawal.number);
        }
        true
    }

    /// Takes the command with this ticket out of the queue, and returns whether it did. False if it does not wait, or if
    /// an owner was handed it. Nothing has changed then. Without a ticket there is nothing to take out.
    fn leave_queue(&mut self, ticket: Option<u32>) -> bool
        ensures state { self.new ≡ unwrap_or (left_device ticket self.old) self.old }
        ensures result { result ≡ is_some (left_device ticket self.old) }
    {
        let Some(ticket) = ticket else {
            return true;
        };
        if was_handed(&self.router.queue, ticket) {
            return false;
        }
        match OwnerReply::new(WITHDRAWN_STATUS, &[]) {
            Some(reply) => self.finish(ticket, &reply),
            None => false,
        }
    }
}

/// What a request withdraws. `None` if that is nothing.
fn withdrawal_of(ledger: &Option<Ledger>, request: &[u8]) -> Option<Withdrawal>
    ensures { result ≡ withdrawal_of ledger.now request.now }
{
    let Some(ledger) = ledger else {
        return None;
    };
    let passes = !may_be_to_ledger(request);
    if passes {
        return None;
    }
    let own = LedgerRequest::read(request)?;
    ledger.withdrawal(own)
}

/// Whether an owner was handed the command with this ticket, or there is no queue.
fn was_handed(queue: &Option<Queue>, ticket: u32) -> bool
    ensures { result ≡ was_handed ticket queue.now }
{
    match queue {
        Some(queue) => ticket <= queue.handed(),
        None => true,
    }
}
