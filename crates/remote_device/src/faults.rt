//! How a client's failure is reported: as a fault of the program, with its code for scripts and its exit status.

ghost use Rattle.std.specs.Prelude.{◌≡◌};
ghost use Rattle.remote_device.specs.Faults.{fault_of_client, fault_of_request, fault_of_command, fault_of_once};

use cip_commander::CommandRefused;
use enip_client::ClientFault;
use enip_commands::{OnceRefusal, RequestFailure};
use enip_common::Fault;

/// The program's fault if a request got no reply that is printed.
pub fn fault_of_request(failure: RequestFailure) -> Fault
    ensures { result ≡ fault_of_request failure }
{
    match failure {
        RequestFailure::Hex => Fault::Hex,
        RequestFailure::Session(_) => Fault::Session,
        RequestFailure::Client(fault) => fault_of_client(fault),
        RequestFailure::Shape(..) | RequestFailure::Fields(_) => {
            fault_of_client(ClientFault::Malformed)
        }
        RequestFailure::Program(fault) => Fault::Run(fault),
    }
}

/// The program's fault if a command that is executed once is not sent.
pub fn fault_of_once(refusal: OnceRefusal) -> Fault
    ensures { result ≡ fault_of_once refusal }
{
    match refusal {
        OnceRefusal::Differs | OnceRefusal::NonePending => Fault::Pending,
        OnceRefusal::OtherLife => Fault::OtherLife,
        OnceRefusal::OtherRequest => Fault::OtherRequest,
        OnceRefusal::Withdrawn => Fault::Withdrawn,
        OnceRefusal::Command(why) => fault_of_command(why),
    }
}

/// The program's fault for a fault of the client.
fn fault_of_client(fault: ClientFault) -> Fault
    ensures { result ≡ fault_of_client fault }
{
    match fault {
        ClientFault::Refused(..) => Fault::Refusal,
        fault => Fault::Client(fault.number()),
    }
}

/// The program's fault for a command that is refused before it is sent.
fn fault_of_command(why: CommandRefused) -> Fault
    ensures { result ≡ fault_of_command why }
{
    match why {
        CommandRefused::NotARequest | CommandRefused::TooLong => {
            fault_of_client(ClientFault::Request)
        }
        CommandRefused::Pending | CommandRefused::NumbersExhausted => {
            fault_of_client(ClientFault::State)
        }
    }
}
