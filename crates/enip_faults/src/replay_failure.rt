//! Why a replay ends early.

ghost use Rattle.std.specs.Prelude.{◌≡◌};
ghost use Rattle.enip_faults.specs.Statuses.{replay_failure_status};

use crate::fault::ProgramFault;
use std::io;
use thiserror::Error;

/// Why a replay ends early. The text is the code for scripts on standard error.
#[derive(Clone, Copy, Debug, PartialEq, Eq, Error)]
pub enum ReplayFailure {
    /// The client cannot open its connection, or the second session cannot begin.
    #[error("setup")]
    Setup,
    /// The program itself failed.
    #[error("{0}")]
    Program(ProgramFault),
}

impl ReplayFailure {
    /// The exit status of the program: 6, or that of the program's own fault.
    pub fn exit_status(self) -> u8
        ensures { result ≡ replay_failure_status self }
    {
        match self {
            ReplayFailure::Setup => 6,
            ReplayFailure::Program(fault) => fault.exit_status(),
        }
    }
}

impl From<ProgramFault> for ReplayFailure {
    ghost use Rattle.enip_faults.specs.declared.replay_failure.ReplayFailure.TheVariants.{Program};

    ghost from_gives = { λ fault stop. stop ≡ Program fault };

    fn from(fault: ProgramFault) -> ReplayFailure {
        ReplayFailure::Program(fault)
    }
}

impl From<io::Error> for ReplayFailure {
    ghost use Rattle.enip_faults.specs.Failures.{IsStopOfDevices};

    ghost from_gives = { λ _ stop. IsStopOfDevices stop };

    fn from(error: io::Error) -> ReplayFailure {
        ReplayFailure::Program(ProgramFault::from(error))
    }
}
