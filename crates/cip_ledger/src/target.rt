//! What the ledger asks the router behind it before it executes a command.
ghost use Rattle.std.specs.Prelude.{◌≡◌, ◌≤◌, ℕ, List, length};
ghost use Rattle.cip_ledger.specs.declared.target.Standing.{Standing as CommandStanding};
ghost use Rattle.std.specs.Option.{option_map};
ghost use Rattle.cip_bytes.specs.Reading.{map_ok};
ghost use Rattle.cip_objects.specs.OwnRequests.{asked_in};
ghost use Rattle.cip_ledger.specs.Device.{owned_standing, standing_of_own};

use cip_objects::{Refusal, Router, ServiceKind};
use cip_owner::{OwnRequest, OwnedObjects, Queue};

/// What becomes of a command that the router executes.
#[derive(Clone, Copy, Debug, PartialEq, Eq)]
pub enum Standing {
    /// The reply is that of the execution.
    Final,
    /// The router puts it into its queue, with this ticket. Its reply comes later.
    Pending(u32),
    /// The router cannot take it now.
    Refused,
}

/// A router that a ledger can be put before: it says what would become of a command.
///
/// A command is a request that Do_Once embeds. The ledger asks before it executes one, and keeps its reply or its
/// ticket, or refuses it.
///
/// ```
/// match router.standing(embedded) {
///     Standing::Final => {}           // its reply is that of the execution
///     Standing::Pending(ticket) => {} // it will be in the queue of the router, with this ticket
///     Standing::Refused => {}         // the queue is full
/// }
/// ```
pub trait Target: Router {
    // What would become of a command that embeds this request.
    ghost standing: { Self → List ℕ → CommandStanding };

    /// What would become of a command that embeds this request, if the router executed it now.
    fn standing(&self, request: &[u8]) -> Standing
        requires { 2 ≤ length request.now }
        ensures { result ≡ standing self.now request.now };
}

impl Target for OwnedObjects {
    ghost standing = { owned_standing };

    /// A request of a queued service is put into the queue, and every other one is executed at once. Allocates nothing.
    #[inline(always)]
    fn standing(&self, request: &[u8]) -> Standing {
        // Most devices have no queue, and then this is all.
        match &self.queue {
            Some(queue) => standing_of_own(queue, self.objects.own_request(request)),
            None => Standing::Final,
        }
    }
}

/// What would become of a request to the owner.
fn standing_of_own(queue: &Queue, own: Option<Result<OwnRequest<'_>, Refusal>>) -> Standing
    ensures { result ≡ standing_of_own queue.now (option_map (map_ok asked_in) own.entry) }
{
    let Some(Ok(own)) = own else {
        return Standing::Final;
    };
    match own.kind {
        ServiceKind::Asked | ServiceKind::Result => Standing::Final,
        ServiceKind::Queued => match queue.next_ticket(own) {
            Some(ticket) => Standing::Pending(ticket),
            None => Standing::Refused,
        },
    }
}
