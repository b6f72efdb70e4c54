//! The slot in which a command that is about to be executed would be in doubt.
ghost use Rattle.cip_ledger.specs.Executing.{IsDoubtedAt};

use super::Ledger;
use crate::doubt::DoubtfulCommand;

impl Ledger {
    /// The index of the slot in which `put_in_doubt` would put a command. `None` if it would not put it in doubt.
    ///
    /// A device that keeps its ledger does so before it executes a command: with this index it writes what the ledger
    /// will be, and the ledger stays as it is.
    ///
    /// ```
    /// let index = ledger.doubt_index(command); // `Some(ledger.slot_count())` for an originator without a slot
    /// ```
    #[tactic(auto, using(crate::proofs::ExecutingLemmas::not_doubted, crate::proofs::ExecutingLemmas::doubted_found, crate::proofs::ExecutingLemmas::doubted_missing))]
    pub fn doubt_index(&self, command: DoubtfulCommand) -> Option<usize>
        ensures { IsDoubtedAt self.now command result }
    {
        let index = self.position(command.originator);
        let is_new = match self.slots.found(command.originator, index) {
            Some(slot) => slot.number() < command.number,
            None => self.slots.has_free(),
        };
        if !is_new {
            return None;
        }
        match index {
            Some(index) => Some(index),
            None => Some(self.slot_count()),
        }
    }
}
