//! The faults of the program's commands, with their texts and exit statuses.

ghost use Rattle.std.specs.Prelude.{◌≡◌};
ghost use Rattle.enip_common.specs.Statuses.{exit_status, is_of_device, is_device};

use config_refusal::{ConfigurationRefusal, LoadFault};
use enip_faults::ReplayFailure;
use std::alloc::AllocError;
use std::io;
use thiserror::Error;

/// Why a command ends early. The text is the last line on standard error.
#[derive(Clone, Copy, Debug, PartialEq, Eq, Error)]
pub enum Fault {
    /// The configuration is refused.
    #[error("configuration {}", .0.number())]
    Configuration(ConfigurationRefusal),
    /// The client of a replay could not open its connection, or the second session could not be registered.
    #[error("setup")]
    Setup,
    /// A line of the input is refused, or a file, a stream or memory failed.
    #[error("{0}")]
    Run(enip_faults::ProgramFault),
    /// An argument is not a value of the requested type.
    #[error("value")]
    Value,
    /// The data of a request are not hexadecimal.
    #[error("hex")]
    Hex,
    /// A command that is executed once is not sent: another one is pending, or none is.
    #[error("pending")]
    Pending,
    /// A command that is executed once is not sent: it is for another life of the device.
    #[error("life")]
    OtherLife,
    /// A command that is executed once is not sent: the one with its id has another request.
    #[error("id")]
    OtherRequest,
    /// A command that is executed once is not sent: it was withdrawn.
    #[error("withdrawn")]
    Withdrawn,
    /// A command with an id is pending in its file, and this run has no reply to it.
    #[error("unsettled")]
    Unsettled,
    /// A command with an id is not sent, because another one is pending in its file.
    #[error("blocked")]
    Blocked,
    /// The file of `--keep` is refused.
    #[error("state")]
    State,
    /// The file of `--keep`, one beside it, or its folder cannot be used. A later start may succeed.
    #[error("storage")]
    Storage,
    /// A line of a command file is refused: its number, from 1.
    #[error("line {0}")]
    CommandFile(u64),
    /// The device refused the session of a client.
    #[error("fault 2")]
    Session,
    /// The device, or a router on the route to it, refused a connection or a command of a client.
    #[error("fault 3")]
    Refusal,
    /// A client met another fault, with this number.
    #[error("fault {0}")]
    Client(u8),
}

impl Fault {
    /// The exit status of the program.
    pub fn exit_status(self) -> u8
        ensures { result ≡ exit_status self }
    {
        match self {
            Fault::Value | Fault::Hex => 2,
            Fault::Pending | Fault::OtherLife | Fault::OtherRequest => 2,
            Fault::Configuration(_) | Fault::State => 3,
            Fault::Setup => ReplayFailure::Setup.exit_status(),
            Fault::CommandFile(_) => 4,
            Fault::Storage => 5,
            Fault::Unsettled => 8,
            Fault::Blocked => 9,
            Fault::Run(fault) => fault.exit_status(),
            Fault::Withdrawn | Fault::Session | Fault::Refusal | Fault::Client(_) => 7,
        }
    }
}

impl Fault {
    /// Whether a file, a stream or a device failed.
    pub(crate) fn is_of_device(self) -> bool
        ensures { result ≡ is_of_device self }
    {
        match self {
            Fault::Run(fault) => is_device(fault),
            Fault::Configuration(_)
            | Fault::Setup
            | Fault::Value
            | Fault::Hex
            | Fault::Pending
            | Fault::OtherLife
            | Fault::OtherRequest
            | Fault::Withdrawn
            | Fault::Unsettled
            | Fault::Blocked
            | Fault::State
            | Fault::Storage
            | Fault::CommandFile(_)
            | Fault::Session
            | Fault::Refusal
            | Fault::Client(_) => false,
        }
    }
}

/// Whether a file, a stream or a device failed.
fn is_device(fault: enip_faults::ProgramFault) -> bool
    ensures { result ≡ is_device fault }
{
    match fault {
        enip_faults::ProgramFault::Device => true,
        enip_faults::ProgramFault::Line(..) | enip_faults::ProgramFault::Memory => false,
    }
}

impl From<enip_faults::ProgramFault> for Fault {
    ghost use Rattle.enip_common.specs.declared.fault.Fault.TheVariants.{Run};

    ghost from_gives = { λ ended fault. fault ≡ Run ended };

    fn from(fault: enip_faults::ProgramFault) -> Fault {
        Fault::Run(fault)
    }
}

impl From<AllocError> for Fault {
    ghost use Rattle.enip_faults.specs.declared.fault.ProgramFault.TheVariants.{Memory};
    ghost use Rattle.enip_common.specs.declared.fault.Fault.TheVariants.{Run};

    ghost from_gives = { λ _ fault. fault ≡ Run Memory };

    fn from(_error: AllocError) -> Fault {
        Fault::Run(enip_faults::ProgramFault::Memory)
    }
}

impl From<io::Error> for Fault {
    ghost use Rattle.std.specs.IoError.{error_kind};
    ghost use Rattle.enip_faults.specs.Statuses.{fault_of_kind};
    ghost use Rattle.enip_common.specs.declared.fault.Fault.TheVariants.{Run};

    ghost from_gives = { λ error fault. fault ≡ Run (fault_of_kind (error_kind error)) };

    fn from(error: io::Error) -> Fault {
        Fault::Run(enip_faults::ProgramFault::from(error))
    }
}

impl From<LoadFault> for Fault {
    ghost use Rattle.enip_common.specs.Statuses.{fault_of_configuration};

    ghost from_gives = { λ refused fault. fault ≡ fault_of_configuration refused };

    fn from(fault: LoadFault) -> Fault {
        match fault {
            LoadFault::Refused(refusal) => Fault::Configuration(refusal),
            LoadFault::Memory => Fault::Run(enip_faults::ProgramFault::Memory),
        }
    }
}

impl From<ReplayFailure> for Fault {
    ghost use Rattle.enip_common.specs.Statuses.{fault_of_replay};

    ghost from_gives = { λ failure fault. fault ≡ fault_of_replay failure };

    fn from(failure: ReplayFailure) -> Fault {
        match failure {
            ReplayFailure::Setup => Fault::Setup,
            ReplayFailure::Program(fault) => Fault::Run(fault),
        }
    }
}
