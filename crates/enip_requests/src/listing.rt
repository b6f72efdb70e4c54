//! `enip identity`, `enip services` and `enip discover`: the lists that a device sends without a session.

ghost use Rattle.std.specs.Prelude.{◌≤◌, length, IfOk, IfSome};

use crate::found_devices::{DeviceForm, FoundDevices};
use enip_client::{ListCommand, Sent, write_list};
use enip_commands::{RequestFailure, list_over, objects_over};
use enip_common::{
    CLOCK, CommandError, ErrorKeeping, HostPort, NamedReason, Reason, SocketSink, SocketSource,
    Timeout,
};
use remote_device::{fault_of_request, reason_of_client};
use std::io::{ErrorKind, Write};
use std::net::{SocketAddr, UdpSocket};
use std::time::Instant;

/// More bytes than a datagram can have, so that none is cut off.
const DATAGRAM_CAPACITY: usize = 65_536;

/// Our own limit: how many datagrams are read.
const MAX_DATAGRAMS: u32 = 100_000;

const OUTPUT: &str = "standard output";

/// Requests a list from a device over TCP, and prints it. Returns the exit status.
pub(crate) fn run_list<'a>(
    rt: &HostRuntime,
    command: ListCommand,
    is_json: bool,
    address: &'a str,
    timeout: Timeout<'a>,
) -> Result<u8, CommandError<'a>> {
    let device = HostPort::parse(address)?;
    let start = Instant::now(rt).map_err(|error| CommandError::of_system(CLOCK, error))?;
    let stream = device.connect(rt, timeout)?;
    let mut output = ErrorKeeping::new(rt.stdout());
    let mut source = SocketSource::new(&stream, rt, start, timeout);
    let mut sink = SocketSink::new(&stream);
    let listed = if is_json {
        objects_over(rt.alloc(), &mut source, &mut sink, command, &mut output)
    } else {
        list_over(rt.alloc(), &mut source, &mut sink, command, &mut output)
    };
    match listed {
        Ok(()) => Ok(0),
        Err(failure) => {
            let network = match source.fault().or(sink.fault()) {
                Some(fault) => Some(fault.reason(address, timeout)),
                None => None,
            };
            let reason = output
                .reason(OUTPUT)
                .or(network)
                .unwrap_or(Reason::Named(address, NamedReason::Failed));
            Err(error_of_failure(failure, reason))
        }
    }
}

/// The error of a request without a printed list. `stream_reason` is why a stream failed, if one did.
fn error_of_failure<'a>(failure: RequestFailure, stream_reason: Reason<'a>) -> CommandError<'a> {
    let reason = match failure {
        RequestFailure::Client(fault) => reason_of_client(fault),
        RequestFailure::Program(enip_commands::ProgramFault::Memory) => Reason::Memory,
        _ => stream_reason,
    };
    CommandError::new(fault_of_request(failure), reason)
}

/// Sends one ListIdentity as a datagram, and prints the devices that answer within the timeout. Returns the exit status.
pub(crate) fn run_discovery<'a>(
    rt: &HostRuntime,
    form: DeviceForm,
    address: &'a str,
    timeout: Timeout<'a>,
) -> Result<u8, CommandError<'a>> {
    let target = HostPort::parse(address)?;
    let mut request = Sent::new();
    write_list(ListCommand::Identity, &mut request);
    let socket = target.send_datagram(rt, request.as_slice())?;
    let start = Instant::now(rt).map_err(|error| CommandError::of_system(CLOCK, error))?;
    let mut buffer = Vec::from_elem(rt.alloc(), 0, DATAGRAM_CAPACITY)?;
    let mut output = ErrorKeeping::new(rt.stdout());
    let mut found = FoundDevices::new(rt.alloc(), form);
    for _ in 0..MAX_DATAGRAMS {
        let Some((size, source)) = next_datagram(rt, &socket, target, timeout, start, &mut buffer)?
        else {
            break;
        };
        // A refused datagram has no source.
        let Some(source) = source else {
            continue;
        };
        if let Err(fault) = found.take(rt, &mut output, &buffer[..size], source) {
            return Err(error_of_output(fault, output.reason(OUTPUT)));
        }
    }
    output
        .flush()
        .map_err(|error| CommandError::of_system(OUTPUT, error))?;
    Ok(0)
}

/// The error of a command whose output failed. `stream_reason` is why the output failed, if the system said so.
fn error_of_output<'a>(
    fault: enip_commands::ProgramFault,
    stream_reason: Option<Reason<'a>>,
) -> CommandError<'a> {
    match fault {
        enip_commands::ProgramFault::Memory => CommandError::of_memory(),
        _ => CommandError::of_reason(stream_reason.unwrap_or(Reason::Named(
            OUTPUT,
            NamedReason::Failed,
        ))),
    }
}

/// Reads the next datagram into a buffer. Returns its size and where it came from, or `None` once the timeout is over.
fn next_datagram<'a>(
    rt: &HostRuntime,
    socket: &UdpSocket,
    target: HostPort<'a>,
    timeout: Timeout<'a>,
    start: Instant,
    buffer: &mut [u8],
) -> Result<Option<(usize, Option<SocketAddr>)>, CommandError<'a>>
    ensures { IfOk result (λ received. IfSome received (λ datagram. datagram.0 ≤ length buffer.new)) }
{
    let elapsed = start
        .elapsed(rt)
        .map_err(|error| CommandError::of_system(CLOCK, error))?;
    let mut left = None;
    if let Some(limit) = timeout.limit() {
        let rest = limit.saturating_sub(elapsed);
        if rest.is_zero() {
            return Ok(None);
        }
        left = Some(rest);
    }
    socket
        .set_read_timeout(left)
        .map_err(|error| CommandError::of_system(target.text(), error))?;
    match socket.recv_from(buffer) {
        Ok((size, source)) => Ok(Some((size, Some(source)))),
        Err(error) => match error.kind() {
            ErrorKind::WouldBlock | ErrorKind::TimedOut => Ok(None),
            // A machine without a device refuses the datagram. Others may still answer.
            ErrorKind::Interrupted | ErrorKind::ConnectionRefused => Ok(Some((0, None))),
            _ => Err(CommandError::of_system(target.text(), error)),
        },
    }
}
