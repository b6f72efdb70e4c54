//! What is kept under a key, and why a call fails.
ghost use Rattle.std.specs.Prelude.{◌≡◌};
ghost use Rattle.enip_keep.specs.declared.entry.KeepError.TheVariants.{Memory};

use std::alloc::{AllocError, AllocFailed};
use thiserror::Error;

/// A key, and the bytes that are kept under it. Keys are below 2^63.
#[derive(Debug, Drop)]
pub struct Entry {
    pub key: u64,
    pub bytes: Vec<u8>,
}

/// Why a storage failed or refused.
#[derive(Clone, Copy, Debug, PartialEq, Eq, Error)]
pub enum StorageFault {
    /// There is no space left for the entries.
    #[error("no space left")]
    Full,
    /// A call failed.
    #[error("the storage failed")]
    Failed,
    /// Something that was kept is damaged.
    #[error("the storage is damaged")]
    Damaged,
    /// What keeps the entries was removed or replaced.
    #[error("the storage was removed or replaced")]
    Removed,
    /// What keeps the newest changes was removed or replaced.
    #[error("the log of the storage was removed or replaced")]
    LogRemoved,
    /// There is no space left where the number of the round is noted.
    #[error("no space left for the number of the round")]
    NoteFull,
    /// The number of the round could not be noted.
    #[error("the number of the round was not noted")]
    NoteFailed,
}

/// Why a call of a keeper, a device or a server failed.
#[derive(Clone, Copy, Debug, PartialEq, Eq, Error)]
pub enum KeepError {
    /// Memory was refused.
    #[error("out of memory")]
    Memory,
    /// The storage failed or refused, as a full disk does.
    #[error("{0}")]
    Storage(StorageFault),
    /// An earlier call failed: the server serves no more until the next start.
    #[error("stopped by an earlier failure")]
    Stopped,
    /// The storage holds what no keeper of this kind writes.
    #[error("the storage holds something else")]
    Foreign,
    /// The device does not start from these entries, as from those of another device.
    #[error("the entries are not those of this device")]
    Refused,
}

impl From<AllocError> for KeepError {
    ghost from_gives = { λ _ e. e ≡ Memory };

    fn from(_: AllocError) -> Self {
        KeepError::Memory
    }
}

impl<T: Drop> From<AllocFailed<T>> for KeepError {
    ghost from_gives = { λ _ e. e ≡ Memory };

    fn from(_: AllocFailed<T>) -> Self {
        KeepError::Memory
    }
}
