//! What it means that a ledger refuses a command.

ghost use Rattle.std.specs.Prelude.{◌≡◌};
ghost use Rattle.enip_faults.specs.Refusals.{ledger_refusal, may_be_executed};

use thiserror::Error;

/// What the general status says with which a ledger refuses a command. The command is still pending.
#[derive(Clone, Copy, Debug, PartialEq, Eq, Error)]
pub enum LedgerRefusal {
    /// 0x02. Nothing has changed.
    #[error("all slots of the command ledger are taken, or its queue of commands is full")]
    NoSlot,
    /// 0x02, of an originator without a slot, while no slot is free. Nothing has changed.
    #[error("all slots of the command ledger are taken (see enip ledger and --forget, or configure more originators)")]
    SlotsTaken,
    /// 0x02, while a slot is the originator's or free. Nothing has changed.
    #[error("the device's queue of commands is full (try again later, or configure a larger queue)")]
    QueueFull,
    /// 0x05.
    #[error("the device has no command ledger")]
    NoLedger,
    /// 0x0c.
    #[error("the ledger has a later command of this originator, and will not execute this one")]
    NumberPassed,
    /// 0x10.
    #[error("the device was restarted")]
    OtherLife,
    /// 0x11.
    #[error("the ledger's reply does not fit the connection")]
    ReplyTooLarge,
    /// 0xd0. Nothing has changed.
    #[error("the last command of this originator is still in the queue of the device, which takes no other until it has ended")]
    LastPending,
    /// Another one.
    #[error("the ledger refused the command with general status {0:#04x}")]
    Other(u8),
}

impl LedgerRefusal {
    /// The meaning of a general status other than 0. (docs/PROTOCOL.md, "The command ledger".)
    pub fn of(status: u8) -> LedgerRefusal
        ensures { result ≡ ledger_refusal status }
    {
        match status {
            0x02 => LedgerRefusal::NoSlot,
            0x05 => LedgerRefusal::NoLedger,
            0x0c => LedgerRefusal::NumberPassed,
            0x10 => LedgerRefusal::OtherLife,
            0x11 => LedgerRefusal::ReplyTooLarge,
            0xd0 => LedgerRefusal::LastPending,
            _ => LedgerRefusal::Other(status),
        }
    }

    /// Whether the command may have been executed, when it was sent before. A ledger without a slot for an originator
    /// has executed none of its commands, and a command that finds the queue full, or the last one of its originator
    /// pending, was not executed.
    pub fn may_be_executed(self) -> bool
        ensures { result ≡ may_be_executed self }
    {
        !matches!(
            self,
            LedgerRefusal::NoSlot
                | LedgerRefusal::SlotsTaken
                | LedgerRefusal::QueueFull
                | LedgerRefusal::LastPending
        )
    }
}
