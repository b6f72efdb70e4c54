//! Which of the open connections a call concerns (Volume 1, Connection Manager).
ghost use Rattle.std.specs.Prelude.{◌≡◌};
ghost use Rattle.cip_manager.specs.Table.{is_in};

use crate::connection::{Connection, Triad};

/// A subset of the open connections.
#[derive(Drop)]
pub enum Selection {
    /// Those whose deadline is at or before this moment, in microseconds.
    Overdue(u64),
    /// Those that this session opened.
    OfSession(u32),
    /// Those that count for this group.
    OfGroup(u128),
    /// Those with this triad.
    WithTriad(Triad),
    /// Those that this session opened with this triad.
    OfSessionWith(u32, Triad),
}

impl Selection {
    /// Whether a connection is selected.
    #[inline(always)]
    pub fn has(&self, connection: &Connection) -> bool
        ensures { result ≡ is_in self.now connection.now }
    {
        match self {
            Selection::Overdue(now) => *now >= connection.deadline,
            Selection::OfSession(session) => connection.session == *session,
            Selection::OfGroup(group) => connection.is_of_group(*group),
            Selection::WithTriad(triad) => connection.triad == *triad,
            Selection::OfSessionWith(session, triad) => connection.is_closed_by(*session, *triad),
        }
    }
}
