//! Why a request to a device failed, or why the device refused it.

use crate::device::Device;
use crate::faults::fault_of_request;
use crate::request::is_read;
use cip_bytes::StatusText;
use cip_bytes::protocol::{ExtendedStatus, GeneralStatus};
use cip_layouts::FieldsFault;
use cip_values::ValueFault;
use enip_client::ClientFault;
use enip_commands::RequestFailure;
use enip_common::{CommandError, NamedReason, Note, Reason, SocketSink, SocketSource};
use std::rt::Clock;

/// Why a device refused.
pub fn reason_of_refusal<'a>(device: Device<'a>, status: StatusText) -> Reason<'a> {
    let is_in_use = status.status == GeneralStatus::ConnectionFailure.number()
        && status.extended == ExtendedStatus::DoubleOpen.number();
    if device.connected && is_in_use {
        return Reason::SerialInUse(status);
    }
    Reason::of_refusal(status.status, status.extended)
}

/// The error of a request to an address without a printed reply. `stream_reason` is why a stream failed, if one did.
pub fn error_of_failure<'a>(
    failure: RequestFailure,
    address: &'a str,
    stream_reason: Option<Reason<'a>>,
) -> CommandError<'a> {
    let reason = match failure {
        RequestFailure::Hex => Reason::Named(address, NamedReason::Failed),
        RequestFailure::Session(status) => Reason::Session(status),
        RequestFailure::Client(fault) => reason_of_client(fault),
        RequestFailure::Shape(value_type, fault) => Reason::Shape(Some(value_type), 0, fault),
        RequestFailure::Fields(fault) => reason_of_fields(fault),
        RequestFailure::Program(enip_commands::ProgramFault::Memory) => Reason::Memory,
        RequestFailure::Program(_) => stream_reason.unwrap_or(Reason::Named(
            address,
            NamedReason::Failed,
        )),
    };
    CommandError::new(fault_of_request(failure), reason)
}

/// The reason for data of a reply that are not the values of a layout.
fn reason_of_fields<'a>(fault: FieldsFault<'static>) -> Reason<'a> {
    match fault {
        FieldsFault::Field(number, fault) => Reason::Shape(None, number, fault),
        FieldsFault::Trailing(size) => Reason::Shape(None, 0, ValueFault::Trailing(size)),
        FieldsFault::Count(wanted, given) => Reason::Values(wanted, given),
        FieldsFault::Memory => Reason::Memory,
    }
}

/// Why a session was not opened, or a request has no reply.
#[derive(Drop)]
pub enum SessionFailure<'a> {
    /// The device refused the connection, or a router did not pass the request on: the general status, and the first
    /// additional word or 0.
    Refused(u8, u16),
    /// The request is too long for the connection or the route, and was not sent.
    TooLong,
    /// There is no reply.
    Failed(CommandError<'a>),
}

impl<'a> From<CommandError<'a>> for SessionFailure<'a> {
    fn from(error: CommandError<'a>) -> SessionFailure<'a> {
        SessionFailure::Failed(error)
    }
}

impl<'a> From<SessionFailure<'a>> for CommandError<'a> {
    fn from(failure: SessionFailure<'a>) -> CommandError<'a> {
        let fault = match failure {
            SessionFailure::Refused(status, extended) => ClientFault::Refused(status, extended),
            SessionFailure::TooLong => ClientFault::Request,
            SessionFailure::Failed(error) => return error,
        };
        let reason = reason_of_client(fault);
        CommandError::new(fault_of_request(RequestFailure::Client(fault)), reason)
    }
}

impl<'a> SessionFailure<'a> {
    /// The failure of a request over these two ends of a stream. If one of them failed, its fault is the reason.
    pub(crate) fn of<C: Clock>(
        device: Device<'a>,
        failure: RequestFailure,
        source: &SocketSource<'_, C>,
        sink: &SocketSink<'_>,
    ) -> SessionFailure<'a> {
        match failure {
            RequestFailure::Client(ClientFault::Refused(status, extended)) => {
                SessionFailure::Refused(status, extended)
            }
            RequestFailure::Client(ClientFault::Request) => SessionFailure::TooLong,
            failure => {
                let reason = match source.fault().or(sink.fault()) {
                    Some(fault) => Some(fault.reason(device.address, device.timeout)),
                    None => None,
                };
                SessionFailure::Failed(error_of_failure(failure, device.address, reason))
            }
        }
    }

    /// The failure, with what is known of the request after this many frames and with this reply, if one arrived. Only a
    /// request that may change the device has that.
    pub(crate) fn noted(
        self,
        device: Device<'a>,
        frames: u64,
        request: &[u8],
        reply: &[u8],
    ) -> SessionFailure<'a> {
        let is_unanswered = frames > device.frames_before() && reply.is_empty();
        match self {
            SessionFailure::Failed(error)
                if is_unanswered && !is_read(request) && error.may_pass() => {
                SessionFailure::Failed(error.with_note(Note::NoReply))
            }
            failure => failure,
        }
    }
}

/// The reason for a fault of the client.
pub fn reason_of_client<'a>(fault: ClientFault) -> Reason<'a> {
    match fault {
        ClientFault::State => Reason::State,
        ClientFault::Status(status) => Reason::Encapsulation(status),
        ClientFault::Refused(status, extended) => Reason::of_refusal(status, extended),
        ClientFault::TooLong => Reason::TooLong,
        ClientFault::Memory => Reason::Memory,
        ClientFault::Malformed => Reason::Malformed,
        ClientFault::Request => Reason::Request,
    }
}
