//! What is kept under a key.
ghost use Rattle.std.specs.Prelude.{◌≡◌};
ghost use Rattle.kept_adapter.specs.Names.{entry_name, is_of_ledger, is_of_queue, ledger_entry_name, queue_entry_name};

use crate::keys::{device_key, is_ledger_key, is_queue_key, queue_number};
use device_state::identity_key;
use std::fmt;

/// What is kept under a key. As text, it is what a message calls the entry.
///
/// ```
/// assert_eq!(EntryName::of_key(0x64_0001_0001), EntryName::Attribute(100, 1, 1));
/// ```
#[derive(Clone, Copy, Debug, PartialEq, Eq)]
pub enum EntryName {
    /// Which device it is: its vendor, its product code and its serial number.
    Identity,
    /// An attribute: its class, its instance and its number.
    Attribute(u16, u16, u16),
    /// The life of the command ledger.
    Life,
    /// A slot of the command ledger, from 1.
    Slot(u16),
    /// The next ticket of the queue.
    NextTicket,
    /// A waiting command of the queue, from 1 in their order.
    WaitingCommand(u16),
    /// A result of the queue, from 1, the oldest first.
    CommandResult(u16),
    /// Nothing that this adapter keeps.
    Unknown,
}

impl EntryName {
    /// What is kept under a key.
    pub fn of_key(key: u64) -> EntryName
        ensures { result ≡ entry_name key }
    {
        if is_ledger_key(key) {
            return ledger_entry_name((key / 0x1_0000 % 0x1_0000) as u16);
        }
        if is_queue_key(key) {
            return queue_entry_name(queue_number(key));
        }
        if device_key(key).is_none() {
            return EntryName::Unknown;
        }
        if key == identity_key() {
            return EntryName::Identity;
        }
        let instance = (key / 0x1_0000 % 0x1_0000) as u16;
        EntryName::Attribute(
            (key / 0x1_0000_0000) as u16,
            instance,
            (key % 0x1_0000) as u16,
        )
    }

    /// Whether it is a part of the command ledger.
    pub fn is_of_ledger(self) -> bool
        ensures { result ≡ is_of_ledger self }
    {
        matches!(self, EntryName::Life | EntryName::Slot(_))
    }

    /// Whether it is a part of the queue of commands.
    pub fn is_of_queue(self) -> bool
        ensures { result ≡ is_of_queue self }
    {
        matches!(
            self,
            EntryName::NextTicket | EntryName::WaitingCommand(_) | EntryName::CommandResult(_)
        )
    }
}

/// The entry of the ledger with this number.
fn ledger_entry_name(number: u16) -> EntryName
    ensures { result ≡ ledger_entry_name number }
{
    match number {
        0 => EntryName::Life,
        slot => EntryName::Slot(slot),
    }
}

/// The entry of the queue with this number.
fn queue_entry_name(number: u16) -> EntryName
    ensures { result ≡ queue_entry_name number }
{
    match number {
        0 => EntryName::NextTicket,
        1..=256 => EntryName::WaitingCommand(number),
        _ => EntryName::CommandResult(number - 256),
    }
}

impl fmt::Display for EntryName {
    fn fmt<W: fmt::Write>(&self, f: &mut fmt::Formatter<W>) -> fmt::Result {
        match *self {
            EntryName::Identity => f.write_str("the identity"),
            EntryName::Attribute(class, instance, attribute) => {
                write!(
                    f,
                    "attribute {attribute} of class {class:#04x}, instance {instance}"
                )
            }
            EntryName::Life => f.write_str("the life of the command ledger"),
            EntryName::Slot(number) => write!(f, "slot {number} of the command ledger"),
            EntryName::NextTicket => f.write_str("the next ticket of the queue"),
            EntryName::WaitingCommand(number) => write!(f, "command {number} of the queue"),
            EntryName::CommandResult(number) => write!(f, "result {number} of the queue"),
            EntryName::Unknown => f.write_str("an entry of another version"),
        }
    }
}
