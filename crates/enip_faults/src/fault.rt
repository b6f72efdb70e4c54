//! Why a command ends early: the line that it prints, and its exit status.

ghost use Rattle.std.specs.Prelude.{◌≡◌};
ghost use Rattle.enip_faults.specs.Statuses.{exit_status};

use crate::line_fault::LineFault;
use std::alloc::{AllocError, AllocFailed};
use std::io;
use thiserror::Error;

/// Why a command ends early. The text is the code for scripts on standard error.
#[derive(Clone, Copy, Debug, PartialEq, Eq, Error)]
pub enum ProgramFault {
    /// A line of the input is refused: its number, from 1, and the reason. The lines before it were run.
    #[error("line {0}")]
    Line(u64, LineFault),
    /// A file or a stream could not be read or written.
    #[error("device")]
    Device,
    /// Memory was refused.
    #[error("memory")]
    Memory,
}

impl ProgramFault {
    /// The exit status of the program: 4 or 5.
    pub fn exit_status(self) -> u8
        ensures { result ≡ exit_status self }
    {
        match self {
            ProgramFault::Line(..) => 4,
            ProgramFault::Device | ProgramFault::Memory => 5,
        }
    }
}

impl From<AllocError> for ProgramFault {
    ghost use Rattle.enip_faults.specs.declared.fault.ProgramFault.TheVariants.{Memory};

    ghost from_gives = { λ _ fault. fault ≡ Memory };

    fn from(_error: AllocError) -> ProgramFault {
        ProgramFault::Memory
    }
}

impl<T: Drop> From<AllocFailed<T>> for ProgramFault {
    ghost use Rattle.enip_faults.specs.declared.fault.ProgramFault.TheVariants.{Memory};

    ghost from_gives = { λ _ fault. fault ≡ Memory };

    fn from(_error: AllocFailed<T>) -> ProgramFault {
        ProgramFault::Memory
    }
}

impl From<io::Error> for ProgramFault {
    ghost use Rattle.std.specs.IoError.{error_kind};
    ghost use Rattle.enip_faults.specs.Statuses.{IsOfDevices, fault_of_kind};

    ghost from_gives = { λ error fault. IsOfDevices fault × (fault ≡ fault_of_kind (error_kind error)) };

    fn from(error: io::Error) -> ProgramFault {
        match error.kind() {
            io::ErrorKind::OutOfMemory => ProgramFault::Memory,
            _ => ProgramFault::Device,
        }
    }
}
