//! `enip get`, `enip set` and `enip call`: sends one request to a device, and prints the reply.

use cip_bytes::StatusText;
use cip_message::ReplyBuf;
use enip_commands::{ReplyOutcome, show_refusal, show_reply};
use enip_common::{CommandError, ErrorKeeping, OUTPUT, print_reason};
use remote_device::{
    Device, Request, SessionFailure, error_of_failure, exchange, reason_of_refusal,
};

/// Sends one request, and prints the reply. Returns the exit status.
pub(crate) fn run_request<'a>(
    rt: &HostRuntime,
    request: Request<'a, '_>,
) -> Result<u8, CommandError<'a>> {
    let bytes = request.bytes(rt.alloc())?;
    let outcome = send_request(rt, request.device, bytes.as_slice())?;
    print_refusal(rt, request.device, outcome);
    Ok(outcome.exit_status())
}

/// Prints on standard error what the status means with which a device refused. If standard output has only values, the
/// status itself follows.
pub(crate) fn print_refusal(rt: &HostRuntime, device: Device<'_>, outcome: ReplyOutcome) {
    let ReplyOutcome::Refused(status, extended) = outcome else {
        return;
    };
    print_reason(
        rt,
        &reason_of_refusal(device, StatusText { status, extended }),
    );
    if device.is_quiet && extended == 0 {
        let _ = eprintln!(rt; "refused {status:#04x}");
    } else if device.is_quiet {
        let _ = eprintln!(rt; "refused {status:#04x} {extended:#06x}");
    }
}

/// Sends the request in a session of its own, and prints the reply.
fn send_request<'a>(
    rt: &HostRuntime,
    device: Device<'a>,
    bytes: &[u8],
) -> Result<ReplyOutcome, CommandError<'a>> {
    let mut reply = ReplyBuf::new();
    match exchange(rt, device, bytes, &mut reply) {
        Ok(()) => print_reply(rt, device, reply.as_slice()),
        Err(SessionFailure::Refused(status, extended)) => {
            print_refused_connection(rt, device, status, extended)
        }
        Err(failure) => Err(CommandError::from(failure)),
    }
}

/// Prints a reply on standard output, in the style of the device.
fn print_reply<'a>(
    rt: &HostRuntime,
    device: Device<'a>,
    reply: &[u8],
) -> Result<ReplyOutcome, CommandError<'a>> {
    if let Some(outcome) = device.quiet_outcome(reply) {
        return Ok(outcome);
    }
    let mut output = ErrorKeeping::new(rt.stdout());
    show_reply(rt.alloc(), &mut output, device.style, reply).map_err(|failure| error_of_failure(
        failure,
        device.address,
        output.reason(OUTPUT),
    ))
}

/// Prints that the device refused the connection.
fn print_refused_connection<'a>(
    rt: &HostRuntime,
    device: Device<'a>,
    status: u8,
    extended: u16,
) -> Result<ReplyOutcome, CommandError<'a>> {
    if device.is_quiet {
        return Ok(ReplyOutcome::Refused(status, extended));
    }
    let mut output = ErrorKeeping::new(rt.stdout());
    show_refusal(rt.alloc(), &mut output, device.style, status, extended).map_err(
        |failure| error_of_failure(failure, device.address, output.reason(OUTPUT)),
    )
}
