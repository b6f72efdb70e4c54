//! What it means that a ledger refuses to withdraw a command.

ghost use Rattle.std.specs.Prelude.{◌≡◌};
ghost use Rattle.enip_faults.specs.Refusals.{withdrawal_refusal, withdrawal_may_be_executed};

use thiserror::Error;

/// What the general status says with which a device refuses to withdraw a command. The command is still pending.
#[derive(Clone, Copy, Debug, PartialEq, Eq, Error)]
pub enum WithdrawalRefusal {
    /// 0x02, of an originator without a slot, while no slot is free. Nothing has changed.
    #[error("all slots of the command ledger are taken (see enip ledger and --forget, or configure more originators)")]
    SlotsTaken,
    /// 0x05.
    #[error("the device has no command ledger")]
    NoLedger,
    /// 0x08, of a device that is older than the service.
    #[error("the device cannot withdraw a command")]
    NotSupported,
    /// 0x0c.
    #[error("the ledger has a later command of this originator, and will not execute this one")]
    NumberPassed,
    /// 0xd0. Nothing has changed.
    #[error("another command of this originator is still in the queue of the device")]
    OtherPending,
    /// Another one.
    #[error("the device refused to withdraw the command, with general status {0:#04x}")]
    Other(u8),
}

impl WithdrawalRefusal {
    /// The meaning of a general status other than 0. (docs/PROTOCOL.md, "The command ledger".)
    pub fn of(status: u8) -> WithdrawalRefusal
        ensures { result ≡ withdrawal_refusal status }
    {
        match status {
            0x02 => WithdrawalRefusal::SlotsTaken,
            0x05 => WithdrawalRefusal::NoLedger,
            0x08 => WithdrawalRefusal::NotSupported,
            0x0c => WithdrawalRefusal::NumberPassed,
            0xd0 => WithdrawalRefusal::OtherPending,
            _ => WithdrawalRefusal::Other(status),
        }
    }

    /// Whether the command may have been executed, when it was sent before. A ledger without a slot for an originator
    /// has executed none of its commands, and none after one that is pending.
    pub fn may_be_executed(self) -> bool
        ensures { result ≡ withdrawal_may_be_executed self }
    {
        !matches!(
            self,
            WithdrawalRefusal::SlotsTaken | WithdrawalRefusal::OtherPending
        )
    }
}
