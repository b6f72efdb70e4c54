//! The one way to open a session with a device over a socket: for request after request, or for a single one.

use crate::device::Device;
use crate::failure::SessionFailure;
use cip_message::ReplyBuf;
use enip_client::USUAL_WANTS;
use enip_commands::{DeviceSession, LONG_LIVED, RequestFailure, exchange_with};
use enip_common::{CLOCK, CommandError, SocketSink, SocketSource};
use std::net::TcpStream;
use std::time::Instant;

/// A session with a device, over a stream to it. Requests are sent in it one after the other.
pub struct OpenSession<'a, 's> {
    rt: &'s HostRuntime,
    device: Device<'a>,
    source: SocketSource<'s, HostRuntime>,
    sink: SocketSink<'s>,
    session: DeviceSession,
}

// Written out, so that each exit of a function that owns one calls it, and has no drop of every part.
impl Drop for OpenSession<'_, '_> {
    fn drop(self) {
        let OpenSession {
            rt: _,
            device: _,
            source: _,
            sink: _,
            session: _,
        } = self;
    }
}

impl<'a: 's, 's> OpenSession<'a, 's> {
    /// Opens a session over a stream to the device, and its connection if requests go over one. The connection outlives
    /// long pauses between requests.
    ///
    /// # Errors
    ///
    /// `Refused` if the device refuses the connection, otherwise `Failed`.
    pub fn open(
        rt: &'s HostRuntime,
        device: Device<'a>,
        stream: &'s TcpStream,
    ) -> Result<OpenSession<'a, 's>, SessionFailure<'a>> {
        OpenSession::open_with(rt, device, stream, LONG_LIVED.timeout_multiplier)
    }

    /// As [`OpenSession::open`], with this timeout multiplier of the connection unless an option gives another.
    fn open_with(
        rt: &'s HostRuntime,
        device: Device<'a>,
        stream: &'s TcpStream,
        multiplier: u8,
    ) -> Result<OpenSession<'a, 's>, SessionFailure<'a>> {
        let route = device.route.route()?;
        let wants = device.connection.wants(rt, multiplier)?;
        let mut source = SocketSource::new(stream, rt, now(rt)?, device.timeout);
        let mut sink = SocketSink::new(stream);
        let begun = DeviceSession::begin_with(
            rt.alloc(),
            &wants,
            &mut source,
            &mut sink,
            route,
            device.connected,
        );
        match begun {
            Ok(session) => Ok(OpenSession {
                rt,
                device,
                source,
                sink,
                session,
            }),
            Err(failure) => Err(SessionFailure::of(device, failure, &source, &sink)),
        }
    }
}

impl<'a> OpenSession<'a, '_> {
    /// Sends a request, and again on the connection after each timeout, up to the number of tries. Keeps the reply.
    ///
    /// # Errors
    ///
    /// `Refused` if a router did not pass the request on. `TooLong` if the request cannot be sent. Otherwise `Failed`.
    pub fn ask(&mut self, request: &[u8]) -> Result<(), SessionFailure<'a>> {
        let mut failure = match self.session.ask(&mut self.source, &mut self.sink, request) {
            Ok(_) => return Ok(()),
            Err(failure) => failure,
        };
        for number in 1..u64::MAX {
            if number == self.device.tries || !self.may_ask_again() {
                break;
            }
            match self.session.ask_again(&mut self.source, &mut self.sink) {
                Ok(_) => return Ok(()),
                Err(again) => failure = again,
            }
        }
        Err(self.failure_of(failure))
    }

    /// Whether the last read timed out, and a further request can be sent before the deadline.
    fn may_ask_again(&self) -> bool {
        let is_over = self.device.timeout.deadline_over(self.rt).is_some();
        !is_over && self.source.is_timed_out() && self.sink.fault().is_none()
    }

    /// The last reply. Empty if there was none.
    pub fn reply(&self) -> &[u8] {
        self.session.reply()
    }

    /// Closes the connection, if there is one, and unregisters the session.
    ///
    /// # Errors
    ///
    /// `Refused` if the device refuses to close the connection, otherwise `Failed`.
    pub fn end(&mut self) -> Result<(), SessionFailure<'a>> {
        match self.session.end(&mut self.source, &mut self.sink) {
            Ok(()) => Ok(()),
            Err(failure) => Err(self.failure_of(failure)),
        }
    }

    fn failure_of(&self, failure: RequestFailure) -> SessionFailure<'a> {
        SessionFailure::of(self.device, failure, &self.source, &self.sink)
    }
}

/// Connects to the device, sends one request in a session of its own, and leaves the reply in `reply`. If the device has
/// more than one try, the request is sent again on the connection after each timeout.
///
/// # Errors
///
/// `Refused` if the connection was not opened or not closed, or if a router did not pass the request on. `TooLong` if
/// the request cannot be sent. Otherwise `Failed`, with a note if the request was sent and may change the device.
pub fn exchange<'a>(
    rt: &HostRuntime,
    device: Device<'a>,
    request: &[u8],
    reply: &mut ReplyBuf,
) -> Result<(), SessionFailure<'a>> {
    let stream = device.connect(rt)?;
    if device.tries == 1 {
        return exchange_once(rt, device, &stream, request, reply);
    }
    let mut session = OpenSession::open_with(rt, device, &stream, USUAL_WANTS.timeout_multiplier)?;
    match ask_and_end(&mut session, request, reply) {
        Ok(()) => Ok(()),
        Err(failure) => {
            let frames = session.sink.frames();
            Err(failure.noted(device, frames, request, reply.as_slice()))
        }
    }
}

/// Sends a request in a session, leaves the reply in `reply`, and ends the session.
fn ask_and_end<'a>(
    session: &mut OpenSession<'a, '_>,
    request: &[u8],
    reply: &mut ReplyBuf,
) -> Result<(), SessionFailure<'a>> {
    session.ask(request)?;
    reply.clear();
    let _ = reply.try_extend_from_slice(session.reply());
    session.end()
}

/// Sends one request over a stream, in one exchange from the registration to the end of the session.
fn exchange_once<'a>(
    rt: &HostRuntime,
    device: Device<'a>,
    stream: &TcpStream,
    request: &[u8],
    reply: &mut ReplyBuf,
) -> Result<(), SessionFailure<'a>> {
    let route = device.route.route()?;
    let wants = device.connection.wants(rt, USUAL_WANTS.timeout_multiplier)?;
    let mut source = SocketSource::new(stream, rt, now(rt)?, device.timeout);
    let mut sink = SocketSink::new(stream);
    let exchanged = exchange_with(
        rt.alloc(),
        &wants,
        &mut source,
        &mut sink,
        &route,
        request,
        device.connected,
        reply,
    );
    match exchanged {
        Ok(()) => Ok(()),
        Err(failure) => {
            let failure = SessionFailure::of(device, failure, &source, &sink);
            Err(failure.noted(device, sink.frames(), request, reply.as_slice()))
        }
    }
}

/// The start of a session.
fn now<'a>(rt: &HostRuntime) -> Result<Instant, CommandError<'a>> {
    Instant::now(rt).map_err(|error| CommandError::of_system(CLOCK, error))
}
