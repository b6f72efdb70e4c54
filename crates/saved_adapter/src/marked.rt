//! A ledger with a command in doubt.

ghost use Rattle.std.specs.Prelude.{◌≡◌, None, Some, option_map, slice_get};
ghost use Rattle.cip_ledger.specs.Executing.{doubted_by, doubtful};
ghost use Rattle.cip_ledger.specs.Kept.{kept_in};
ghost use Rattle.device_state.specs.Saved.{has_withdrawn, slot_bytes};
ghost use Rattle.kept_adapter.specs.Saved.{ledger_bytes};
ghost use Rattle.saved_adapter.specs.Entries.{IsMarkedAt};

use cip_bytes::{append, append_u8, append_u32};
use cip_ledger::{DoubtfulCommand, KeptCommand, Ledger};
use cip_objects::{Objects, ReplyBuf};
use device_state::is_withdrawn;
use kept_adapter::write_ledger_bytes;
use std::marker::Model;

/// The state of a command that is in doubt.
const IN_DOUBT: u8 = 2;

/// A ledger as it is with a command in doubt, if there is one. The ledger itself does not change.
#[derive(Drop)]
pub(crate) struct MarkedLedger<'a> {
    ledger: &'a Ledger,
    doubt: Option<DoubtfulCommand>,
    index: Option<usize>,
}

impl<'a> Model for MarkedLedger<'a> {
    ghost use Rattle.cip_ledger.specs.Ledger.{LedgerState};
    ghost use Rattle.cip_ledger.specs.Executing.{doubted_by};
    ghost use Rattle.saved_adapter.specs.Entries.{IsMarkedAt};

    ghost Value = { LedgerState };

    ghost view = { λ m. doubted_by m.doubt m.ledger.now };

    ghost invariant = { λ m. IsMarkedAt m.ledger.now m.doubt m.index };
}

impl<'a> MarkedLedger<'a> {
    /// The ledger with this command in doubt.
    pub(crate) fn new(ledger: &'a Ledger, doubt: Option<DoubtfulCommand>) -> MarkedLedger<'a>
        ensures { result ≡ doubted_by doubt ledger.now }
    {
        let index = index_of(ledger, doubt);
        MarkedLedger {
            ledger,
            doubt,
            index,
        }
    }

    /// Writes the content of an entry by its number, as `write_ledger_bytes` does.
    pub(crate) fn write(&self, objects: &Objects, number: u16, bytes: &mut ReplyBuf)
        ensures { bytes.new.items ≡ ledger_bytes self.now number }
    {
        match (self.doubt, self.index) {
            (Some(command), Some(index)) if number > 0 && usize::from(number - 1) == index => {
                write_doubtful(command, bytes);
            }
            _ => write_ledger_bytes(objects, self.ledger, number, bytes),
        }
    }

    /// Whether a slot has a command that was withdrawn.
    pub(crate) fn has_withdrawn(&self) -> bool
        ensures { result ≡ has_withdrawn (Some self.now) }
    {
        // the command in doubt may have a slot of its own, behind the others
        for index in 0..self.ledger.slot_count() + 1 {
            let Some(kept) = self.slot(index) else {
                return false;
            };
            if is_withdrawn(kept) {
                return true;
            }
        }
        false
    }

    /// The last command in a slot, by the slot's index. `None` past the last.
    fn slot(&self, index: usize) -> Option<KeptCommand<'_>>
        ensures { option_map kept_in result ≡ slice_get self.now.taken index }
    {
        match (self.doubt, self.index) {
            (Some(command), Some(at)) if at == index => Some(KeptCommand {
                originator: command.originator,
                number: command.number,
                reply: None,
                ticket: None,
            }),
            _ => self.ledger.slot(index),
        }
    }
}

/// Where a command would be in doubt.
fn index_of(ledger: &Ledger, doubt: Option<DoubtfulCommand>) -> Option<usize>
    ensures { IsMarkedAt ledger.now doubt result }
{
    match doubt {
        Some(command) => ledger.doubt_index(command),
        None => None,
    }
}

/// Writes the slot of a command in doubt to `bytes`, in place of its old content.
fn write_doubtful(command: DoubtfulCommand, bytes: &mut ReplyBuf)
    ensures { bytes.new.items ≡ slot_bytes (doubtful command) }
{
    bytes.clear();
    append(bytes, &command.originator.to_le_bytes());
    append_u32(bytes, command.number);
    append_u8(bytes, IN_DOUBT);
}
