//! Why a request to a device got no reply that is printed.

ghost use Rattle.std.specs.Prelude.{◌≡◌};
ghost use Rattle.enip_commands.specs.Failures.{request_failure_status};

use cip_layouts::FieldsFault;
use cip_values::{ValueFault, ValueType};
use enip_client::{AskFault, ClientFault};
use enip_faults::ProgramFault;
use std::alloc::AllocError;
use std::io;
use thiserror::Error;

/// Why no reply was printed. The text is the code for scripts on standard error.
#[derive(Clone, Copy, Debug, PartialEq, Eq, Error)]
pub enum RequestFailure {
    /// The data of the request are not hexadecimal.
    #[error("hex")]
    Hex,
    /// The device refused the session with this encapsulation status.
    #[error("fault {}", ClientFault::Status(*.0).number())]
    Session(u32),
    /// The client met this fault.
    #[error("fault {}", .0.number())]
    Client(ClientFault),
    /// The data of the reply are not values of this type.
    #[error("fault {}", ClientFault::Malformed.number())]
    Shape(ValueType, ValueFault<'static>),
    /// The data of the reply are not values of the layout.
    #[error("fault {}", ClientFault::Malformed.number())]
    Fields(FieldsFault<'static>),
    /// The program itself failed.
    #[error("{0}")]
    Program(ProgramFault),
}

impl RequestFailure {
    /// The exit status of the program: 2, 7, or that of the program's own fault.
    pub fn exit_status(self) -> u8
        ensures { result ≡ request_failure_status self }
    {
        match self {
            RequestFailure::Hex => 2,
            RequestFailure::Session(_) | RequestFailure::Client(_) => 7,
            RequestFailure::Shape(..) | RequestFailure::Fields(_) => 7,
            RequestFailure::Program(fault) => fault.exit_status(),
        }
    }
}

impl From<ProgramFault> for RequestFailure {
    ghost use Rattle.enip_commands.specs.declared.request_failure.RequestFailure.TheVariants.{Program};

    ghost from_gives = { λ fault stop. stop ≡ Program fault };

    fn from(fault: ProgramFault) -> RequestFailure {
        RequestFailure::Program(fault)
    }
}

impl From<AllocError> for RequestFailure {
    ghost use Rattle.enip_commands.specs.declared.request_failure.RequestFailure.TheVariants.{Program};
    ghost use Rattle.enip_faults.specs.declared.fault.ProgramFault.TheVariants.{Memory};

    ghost from_gives = { λ _ stop. stop ≡ Program Memory };

    fn from(_error: AllocError) -> RequestFailure {
        RequestFailure::Program(ProgramFault::Memory)
    }
}

impl From<io::Error> for RequestFailure {
    ghost use Rattle.enip_commands.specs.Failures.{IsOfDevice};

    ghost from_gives = { λ _ stop. IsOfDevice stop };

    fn from(error: io::Error) -> RequestFailure {
        RequestFailure::Program(ProgramFault::from(error))
    }
}

impl From<AskFault> for RequestFailure {
    ghost use Rattle.enip_commands.specs.Failures.{stop_of};

    ghost from_gives = { λ fault stop. stop ≡ stop_of fault };

    fn from(fault: AskFault) -> RequestFailure {
        match fault {
            AskFault::Read | AskFault::Write | AskFault::Ended | AskFault::Spent => {
                RequestFailure::Program(ProgramFault::Device)
            }
            AskFault::Client(ClientFault::Memory) => RequestFailure::Program(ProgramFault::Memory),
            AskFault::Client(fault) => RequestFailure::Client(fault),
            // the request cannot be sent on the connection (ours)
            AskFault::Submit(_) => RequestFailure::Client(ClientFault::Request),
        }
    }
}
