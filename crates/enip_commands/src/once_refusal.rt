//! Why a command that is executed once is not sent.

ghost use Rattle.std.specs.Prelude.{◌≡◌};
ghost use Rattle.enip_commands.specs.Failures.{once_refusal_status};

use cip_commander::CommandRefused;
use enip_client::ClientFault;
use thiserror::Error;

/// Why nothing is sent. The text is the code for scripts on standard error.
#[derive(Clone, Copy, Debug, PartialEq, Eq, Error)]
pub enum OnceRefusal {
    /// The pending command has another request.
    #[error("pending")]
    Differs,
    /// The pending command is to be sent, and there is none.
    #[error("pending")]
    NonePending,
    /// The pending command is for another life of the device, so it may have been executed before the device was
    /// restarted.
    #[error("life")]
    OtherLife,
    /// The command with this id has another request.
    #[error("id")]
    OtherRequest,
    /// The pending command was withdrawn: it is never executed, and not pending any more.
    #[error("withdrawn")]
    Withdrawn,
    /// The request cannot be a command.
    #[error("fault {}", client_fault(*.0).number())]
    Command(CommandRefused),
}

impl OnceRefusal {
    /// The exit status of the program: 2 or 7.
    pub fn exit_status(self) -> u8
        ensures { result ≡ once_refusal_status self }
    {
        match self {
            OnceRefusal::Differs
            | OnceRefusal::NonePending
            | OnceRefusal::OtherLife
            | OnceRefusal::OtherRequest => 2,
            OnceRefusal::Withdrawn | OnceRefusal::Command(_) => 7,
        }
    }
}

/// The client's fault that a refused command is reported as.
fn client_fault(why: CommandRefused) -> ClientFault {
    match why {
        CommandRefused::NotARequest | CommandRefused::TooLong => ClientFault::Request,
        CommandRefused::Pending | CommandRefused::NumbersExhausted => ClientFault::State,
    }
}
