//! Why a device does not start from what is kept, as text.

use crate::kept_commands::{CommandText, Counted};
use enip_faults::Digits;
use enip_keep::Entry;
use kept_adapter::{EntryName, Hindrance, kept_at};
use std::fmt;

/// What hinders a start from these entries, and what to do.
#[derive(Clone, Copy)]
pub(crate) struct HindranceText<'e>(pub(crate) Hindrance, pub(crate) &'e [Entry]);

impl fmt::Display for HindranceText<'_> {
    fn fmt<W: fmt::Write>(&self, f: &mut fmt::Formatter<W>) -> fmt::Result {
        let entries = self.1;
        match self.0 {
            Hindrance::OtherDevice => f.write_str("the state of another device"),
            Hindrance::TooFewPlaces(waiting, 0) => write!(
                f,
                "{}, and the configuration has no queue (see --drop-commands)",
                Counted(waiting, "command waits", "commands wait"),
            ),
            Hindrance::TooFewPlaces(waiting, places) => write!(
                f,
                "{}, and the queue of the configuration has {} (see --drop-commands)",
                Counted(waiting, "command waits", "commands wait"),
                Counted(places, "place", "places"),
            ),
            Hindrance::TooFewSlots(taken, 0) => write!(
                f,
                "{}, and the configuration has no command ledger (see --drop-commands)",
                Counted(
                    taken,
                    "slot of the command ledger is taken",
                    "slots of the command ledger are taken",
                ),
            ),
            Hindrance::TooFewSlots(taken, slots) => write!(
                f,
                "{}, and the configuration has {} (see --drop-commands)",
                Counted(
                    taken,
                    "slot of the command ledger is taken",
                    "slots of the command ledger are taken",
                ),
                Counted(slots, "originator", "originators"),
            ),
            Hindrance::NoService(key) => write!(
                f,
                "a command waits ({}), and its service is gone or has another size (see --drop-commands)",
                CommandText(kept_at(entries, key).unwrap_or(&[])),
            ),
            Hindrance::Disallowed(key) => write!(
                f,
                "{} was set to {}, which its type or range does not allow any more (see --reset-value and --accept-config)",
                EntryName::of_key(key),
                Digits(kept_at(entries, key).unwrap_or(&[])),
            ),
        }
    }
}
