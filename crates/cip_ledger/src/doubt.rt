//! Commands in doubt.
ghost use Rattle.std.specs.Prelude.{◌≡◌};
ghost use Rattle.cip_ledger.specs.Doubt.{command_name};

use crate::slot::Slot;

/// A command in doubt: the device does not know whether it was executed, and the owner has to settle it.
#[derive(Clone, Copy, Debug, PartialEq, Eq)]
pub struct DoubtfulCommand {
    /// Who gave it.
    pub originator: u64,
    /// Its number.
    pub number: u32,
}

impl DoubtfulCommand {
    /// The last command of a slot.
    pub(crate) fn of(slot: &Slot) -> DoubtfulCommand
        ensures { result ≡ command_name slot.now }
    {
        DoubtfulCommand {
            originator: slot.originator(),
            number: slot.number(),
        }
    }
}
