//! Why FILE of `--keep` is not used: what it has is refused, or the system does not give it.
ghost use Rattle.std.specs.Prelude.{◌≡◌, ◌⊎◌};
ghost use Rattle.enip_common.specs.declared.fault.Fault.TheVariants.{Run, Storage};
ghost use Rattle.enip_faults.specs.declared.fault.ProgramFault.TheVariants.{Memory};
ghost use Rattle.std.specs.IoError.{error_kind};
ghost use Rattle.device_start.specs.Starting.{fault_at_start, fault_of_open, fault_of_system, IsJudged};

use enip_common::{StateFile, StorageReason, SystemError, can_update, open_or_make};
use enip_keep::{KeepError, StorageFault};
use enip_keep_sqlite::FileFault;
use std::alloc::{AllocError, Global};
use std::io::{self, ErrorKind};

/// Why a file is not opened.
#[derive(Drop)]
pub enum OpenFault {
    /// Memory was refused.
    Memory,
    /// Another process uses it.
    InUse,
    /// It holds something else, or is damaged.
    NotAState,
    /// It is the state of another device.
    OtherDevice,
    /// `FILE.round` does not have the number of the last round.
    NoLastRound,
    /// It lacks so many rounds.
    Older(u64),
    /// The file, or one beside it, cannot be used now.
    Storage(StateFile, StorageReason),
}

impl OpenFault {
    /// The system reports an error of this file.
    pub(crate) fn of_system(file: StateFile, error: io::Error) -> OpenFault
        ensures { fault_of_open result ≡ fault_of_system (error_kind error) }
    {
        match error.kind() {
            ErrorKind::OutOfMemory => OpenFault::Memory,
            ErrorKind::StorageFull => OpenFault::Storage(file, StorageReason::Full),
            _ => OpenFault::Storage(file, StorageReason::System(SystemError(error))),
        }
    }

    /// Why a call of the keeper failed at the start.
    pub(crate) fn of_start(error: KeepError) -> OpenFault
        ensures { fault_of_open result ≡ fault_at_start error }
    {
        match error {
            KeepError::Memory => OpenFault::Memory,
            KeepError::Refused => OpenFault::OtherDevice,
            KeepError::Storage(StorageFault::Damaged) | KeepError::Stopped | KeepError::Foreign => {
                OpenFault::NotAState
            }
            KeepError::Storage(fault) => {
                let (file, why) = named(fault);
                OpenFault::Storage(file, why)
            }
        }
    }
}

impl From<AllocError> for OpenFault {
    fn from(_error: AllocError) -> OpenFault {
        OpenFault::Memory
    }
}

/// Why the database at a path is not opened. If nobody says which file the system refuses, they are tried.
pub(crate) fn judged(alloc: Global, path: &str, fault: FileFault) -> OpenFault
    ensures { IsJudged fault (fault_of_open result) }
{
    match fault {
        FileFault::Memory => OpenFault::Memory,
        FileFault::InUse => OpenFault::InUse,
        FileFault::Foreign => OpenFault::NotAState,
        FileFault::Full => OpenFault::Storage(StateFile::File, StorageReason::Full),
        FileFault::Failed => tried(alloc, path, StorageReason::Failed),
        FileFault::CannotOpen => tried(alloc, path, StorageReason::CannotOpen),
    }
}

/// The error of the system for the database at a path, or for its log; this reason if it reports none.
fn tried(alloc: Global, path: &str, otherwise: StorageReason) -> OpenFault
    ensures { (fault_of_open result ≡ Storage) ⊎ (fault_of_open result ≡ Run Memory) }
{
    if let Err(error) = can_update(path.as_bytes()) {
        return OpenFault::of_system(StateFile::File, error);
    }
    match try_log(alloc, path) {
        Ok(()) => OpenFault::Storage(StateFile::File, otherwise),
        Err(error) => OpenFault::of_system(StateFile::Log, error),
    }
}

/// Opens the log of the database at a path. An empty log is none.
fn try_log(alloc: Global, path: &str) -> io::Result<()> {
    let log = format!(in alloc; "{path}-wal")?;
    open_or_make(log.as_bytes())
}

/// The file that a fault of the storage is of, and why it cannot be used.
pub(crate) fn named(fault: StorageFault) -> (StateFile, StorageReason) {
    match fault {
        StorageFault::Full => (StateFile::File, StorageReason::Full),
        StorageFault::Failed => (StateFile::File, StorageReason::Failed),
        StorageFault::Damaged => (StateFile::File, StorageReason::Damaged),
        StorageFault::Removed => (StateFile::File, StorageReason::Removed),
        StorageFault::LogRemoved => (StateFile::Log, StorageReason::Removed),
        StorageFault::NoteFull => (StateFile::Round, StorageReason::Full),
        StorageFault::NoteFailed => (StateFile::Round, StorageReason::Failed),
    }
}
