//! Why a client is turned away.

use std::fmt;

/// Why a connection is closed at once.
#[derive(Clone, Copy)]
pub enum TurnedAway {
    /// No peer slot is free.
    NoSlot,
    /// The client's address holds its share of the peer slots.
    Share,
    /// The client's address is in neither list.
    NotListed,
}

impl fmt::Display for TurnedAway {
    fn fmt<W: fmt::Write>(&self, f: &mut fmt::Formatter<W>) -> fmt::Result {
        let text = match self {
            TurnedAway::NoSlot => "turned away: all peer slots are taken",
            TurnedAway::Share => "turned away: its address holds all its peer slots",
            TurnedAway::NotListed => "refused: in neither list of [access]",
        };
        write!(f, "{text}")
    }
}
