//! What all peers share.
//! Text: docs/PROTOCOL.md, "Connections: opened, closed, timed out".

ghost use Rattle.std.specs.Prelude.{◌≡◌};
ghost use Rattle.enip_adapter.specs.Turn.{at_moment, without_connections};

use cip_ledger::LedgerRouter;
use cip_manager::Manager;
use cip_owner::OwnedObjects;

/// The address and port in a ListIdentity reply.
///
/// ```
/// Listen { address: [127, 0, 0, 1], port: 44818 }
/// ```
#[derive(Clone, Copy, Debug)]
pub struct Listen {
    /// The four bytes of the IPv4 address, most significant first.
    pub address: [u8; 4],
    /// The TCP port, 16 bits.
    pub port: u16,
}

/// What a peer's frame may change, apart from its session.
#[derive(Drop)]
pub(crate) struct Shared {
    pub(crate) listen: Listen,
    /// How many peers of one group may be held at a time.
    pub(crate) share: u16,
    /// The greatest time so far, in microseconds.
    pub(crate) moment: u64,
    pub(crate) manager: Manager,
    /// The objects with the reply that their owner prepared and the queue of commands, and the command ledger before them
    /// if there is one.
    pub(crate) objects: LedgerRouter<OwnedObjects>,
}

impl Shared {
    /// Takes a time into account: connections whose deadline is at or before the greatest time so far end.
    pub(crate) fn advance(&mut self, now: u64)
        ensures { self.new ≡ at_moment self.old now }
    {
        self.moment = self.moment.max(now);
        self.manager.expire(self.moment);
    }

    /// Ends the connections that a session opened.
    pub(crate) fn end_session(&mut self, session: u32)
        ensures { self.new ≡ without_connections self.old session }
    {
        self.manager.end_session(session);
    }
}
