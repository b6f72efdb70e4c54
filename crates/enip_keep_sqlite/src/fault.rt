//! Why a file is not opened.
ghost use Rattle.std.specs.Prelude.{◌≡◌};
ghost use Rattle.enip_keep_sqlite.specs.Files.{fault_of, fault_of_rows};

use enip_keep::{KeepError, StorageFault};
use sqlite::ErrorCode;
use thiserror::Error;

/// Why a file is not made or opened.
#[derive(Clone, Copy, Debug, PartialEq, Eq, Error)]
pub enum FileFault {
    /// Memory was refused.
    #[error("out of memory")]
    Memory,
    /// There is no space left.
    #[error("no space left")]
    Full,
    /// A read, a write or a sync failed.
    #[error("a read or a write failed")]
    Failed,
    /// The file, or the log beside it, cannot be opened or created.
    #[error("cannot be opened")]
    CannotOpen,
    /// It is open already.
    #[error("the file is in use")]
    InUse,
    /// It is no database, is damaged, or holds something else than entries.
    #[error("the file holds something else")]
    Foreign,
}

/// Why the library opens no database, or makes no table in it.
pub(crate) fn fault_of(error: sqlite::Error) -> FileFault
    ensures { result ≡ fault_of error }
{
    let sqlite::Error::SqliteFailure(code) = error else {
        return FileFault::Foreign;
    };
    match code {
        ErrorCode::OutOfMemory => FileFault::Memory,
        ErrorCode::DiskFull => FileFault::Full,
        ErrorCode::SystemIoFailure | ErrorCode::Closed => FileFault::Failed,
        ErrorCode::CannotOpen => FileFault::CannotOpen,
        ErrorCode::DatabaseBusy => FileFault::InUse,
        _ => FileFault::Foreign,
    }
}

/// Why the rows of a database are not read.
pub(crate) fn fault_of_rows(error: KeepError) -> FileFault
    ensures { result ≡ fault_of_rows error }
{
    match error {
        KeepError::Memory => FileFault::Memory,
        KeepError::Storage(StorageFault::Full) => FileFault::Full,
        KeepError::Storage(StorageFault::Damaged) => FileFault::Foreign,
        KeepError::Storage(_) => FileFault::Failed,
        KeepError::Stopped | KeepError::Foreign | KeepError::Refused => FileFault::Foreign,
    }
}
