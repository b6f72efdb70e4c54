//! Why a call of the client is refused, and why an exchange was not completed.

ghost use Rattle.std.specs.Prelude.{◌≡◌};

use cip_class3::Refused;
use thiserror::Error;

/// Why a call is refused. `Status`, `TooLong` and `Malformed` last: each further call reports them again.
#[derive(Clone, Copy, Debug, PartialEq, Eq, Error)]
pub enum ClientFault {
    /// The call is not possible now.
    #[error("the call is not possible now")]
    State,
    /// An awaited reply has this encapsulation status, 32 bits.
    #[error("an awaited reply has encapsulation status {0:#010x}")]
    Status(u32),
    /// An open or a close was refused: the general status, and the first additional word or 0.
    #[error("an open or a close was refused: general status {0:#04x}, extended status {1:#06x}")]
    Refused(u8, u16),
    /// A header with a length over 65,511 arrived.
    #[error("a frame is longer than 65,535 bytes")]
    TooLong,
    /// Memory was refused.
    #[error("out of memory")]
    Memory,
    /// An awaited reply has another shape.
    #[error("an awaited reply is malformed")]
    Malformed,
    /// An unconnected request has fewer than 2 or more than 504 bytes, or a service with bit 7, which marks a reply.
    #[error("not an unconnected request: 2 to 504 bytes, and a service below 0x80")]
    Request,
}

impl ClientFault {
    ghost use Rattle.enip_client.specs.Faults.{client_fault_number};

    /// The number of this fault in printed output.
    pub fn number(self) -> u8
        ensures { result ≡ client_fault_number self }
    {
        match self {
            ClientFault::State => 1,
            ClientFault::Status(_) => 2,
            ClientFault::Refused(..) => 3,
            ClientFault::TooLong => 4,
            ClientFault::Memory => 5,
            ClientFault::Malformed => 6,
            ClientFault::Request => 7,
        }
    }
}

/// Why a request is not submitted.
#[derive(Clone, Copy, Debug, PartialEq, Eq, Error)]
pub enum SubmitFault {
    /// The client refuses the call.
    #[error("{0}")]
    Client(ClientFault),
    /// The originator's end of the connection refuses the request.
    #[error("{0}")]
    Refused(Refused),
}

impl SubmitFault {
    ghost use Rattle.enip_client.specs.Faults.{submit_fault_number};

    /// The number of this fault in printed output.
    pub fn number(self) -> u8
        ensures { result ≡ submit_fault_number self }
    {
        match self {
            SubmitFault::Client(_) => 1,
            SubmitFault::Refused(_) => 2,
        }
    }
}

/// Why an exchange was not completed.
#[derive(Clone, Copy, Debug, PartialEq, Eq, Error)]
pub enum AskFault {
    /// The reader failed.
    #[error("the reader failed")]
    Read,
    /// The writer failed.
    #[error("the writer failed")]
    Write,
    /// The input ended before the exchange did.
    #[error("the input ended before the exchange was complete")]
    Ended,
    /// The client refuses a call, a reply causes a lasting fault, or an open or a close was refused.
    #[error("{0}")]
    Client(ClientFault),
    /// The connection refuses the request.
    #[error("{0}")]
    Submit(Refused),
    /// The reader cannot count another read.
    #[error("the reader cannot count another read")]
    Spent,
}

impl AskFault {
    ghost use Rattle.enip_client.specs.Faults.{ask_fault_number};

    /// The number of this fault in printed output.
    pub fn number(self) -> u8
        ensures { result ≡ ask_fault_number self }
    {
        match self {
            AskFault::Read => 1,
            AskFault::Write => 2,
            AskFault::Ended => 3,
            AskFault::Client(_) => 4,
            AskFault::Submit(_) => 5,
            AskFault::Spent => 6,
        }
    }
}

impl From<ClientFault> for AskFault {
    ghost use Rattle.enip_client.specs.Asking.{client_failure};

    ghost from_gives = { λ fault e. e ≡ client_failure fault };

    fn from(fault: ClientFault) -> AskFault {
        AskFault::Client(fault)
    }
}

impl From<SubmitFault> for AskFault {
    ghost use Rattle.enip_client.specs.Asking.{submit_failure};

    ghost from_gives = { λ fault e. e ≡ submit_failure fault };

    fn from(fault: SubmitFault) -> AskFault {
        match fault {
            SubmitFault::Client(fault) => AskFault::Client(fault),
            SubmitFault::Refused(why) => AskFault::Submit(why),
        }
    }
}
