//! Why a call fails.
ghost use Rattle.std.specs.Prelude.{◌≡◌};
ghost use Rattle.kept_commander.specs.declared.fault.KeptCommandError.TheVariants.{Storage};

use cip_commander::CommandRefused;
use thiserror::Error;

/// The storage failed or refused, as a full disk does. The keeper may say more.
#[derive(Clone, Copy, Debug, PartialEq, Eq, Error)]
#[error("the storage failed")]
pub struct StorageFailed;

/// Why a call of a `KeptCommander` failed.
#[derive(Clone, Copy, Debug, PartialEq, Eq, Error)]
pub enum KeptCommandError {
    /// The command is not taken. Nothing has changed, and no number was taken.
    #[error("{0}")]
    Refused(CommandRefused),
    /// The storage failed. A start finds what was kept before, or what was to be kept.
    #[error("the storage failed")]
    Storage,
    /// An earlier call failed: nothing is handed out until the next start. Nothing has changed.
    #[error("stopped by an earlier failure")]
    Stopped,
}

impl From<StorageFailed> for KeptCommandError {
    ghost from_gives = { λ _ e. e ≡ Storage };

    fn from(_: StorageFailed) -> Self {
        KeptCommandError::Storage
    }
}
