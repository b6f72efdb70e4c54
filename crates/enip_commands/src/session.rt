//! A session for several requests, one after the other, with or without a connection.

ghost use Rattle.std.specs.Prelude.{◌≡◌, ◌≤◌, IfErr};
ghost use Rattle.cip_bytes.specs.Reading.{map_ok};
ghost use Rattle.cip_bytes.specs.declared.protocol.TheConstants.{LARGEST_CONNECTION_SIZE};
ghost use Rattle.enip_commands.specs.Asking.{IsOfExchange};
ghost use Rattle.enip_commands.specs.Sessions.{session_ends, begin_failure, IsBegun, IsAskedInSession, IsReplyLent, IsClosedIf, IsEnded};
ghost use Rattle.enip_commands.specs.Sessions.{IsSessionBegunOver};
ghost use Rattle.enip_commands.specs.Sessions.{IsAskedAgain, IsReplyLentAgain};

use crate::request_failure::RequestFailure;
use crate::turns::{ask_again, ask_once, close, open, register, unregister};
use cip_message::ReplyBuf;
use cip_route::Route;
use enip_client::{AskFault, Client, ClientFault, USUAL_WANTS, Wants};
use enip_wire::{Sink, Source};
use std::alloc::Global;

/// The connection of repeated reads: as for one request, but with a timeout of 512 packet intervals.
/// (Volume 1, connection timeout multiplier.)
pub const LONG_LIVED: Wants = Wants {
    timeout_multiplier: 7,
    ..USUAL_WANTS
};

/// A session with a device, and its connection if it has one.
pub struct DeviceSession {
    client: Client,
    route: Route,
    connected: bool,
    reply: ReplyBuf,
}

// Written out, so that each exit of a function that owns one calls it, and has no drop of every part.
impl Drop for DeviceSession {
    fn drop(self) {
        let DeviceSession {
            client: _,
            route: _,
            connected: _,
            reply: _,
        } = self;
    }
}

impl DeviceSession {
    /// Registers a session over a reader and a writer, with a client that wants this connection. If `connected` is set, also
    /// opens a connection. The session is with the first router of a route, and the connection is opened over the route.
    ///
    /// # Errors
    ///
    /// `Session` if the device refuses the session. `Client` with `Refused` if it refuses the connection, or with
    /// another fault of the client. `Program` if the reader or the writer failed, the input ended, or memory was
    /// refused.
    pub fn begin_with<R: Source, W: Sink>(
        alloc: Global,
        wants: &Wants,
        reader: &mut R,
        writer: &mut W,
        route: Route,
        connected: bool,
    ) -> Result<DeviceSession, RequestFailure>
        requires o_to_t_from { 4 ≤ wants.now.o_to_t_size }
        requires o_to_t_to { wants.now.o_to_t_size ≤ LARGEST_CONNECTION_SIZE }
        requires t_to_o_from { 10 ≤ wants.now.t_to_o_size }
        requires t_to_o_to { wants.now.t_to_o_size ≤ LARGEST_CONNECTION_SIZE }
        ensures begun { IsSessionBegunOver wants.now route connected
            (λ client reply. session_ends client (R.left reader.old) (R.reads reader.old) (R.failures reader.old)
            (W.written writer.old) (W.failures writer.old) reply)
            (λ client reply. session_ends client (R.left reader.new) (R.reads reader.new) (R.failures reader.new)
            (W.written writer.new) (W.failures writer.new) reply) result }
        ensures failed { IfErr result IsOfExchange }
    {
        let mut client = match Client::new(alloc, wants) {
            Ok(client) => client,
            Err(fault) => return Err(RequestFailure::from(AskFault::Client(fault))),
        };
        let mut reply = ReplyBuf::new();
        match begin_client(&mut client, reader, writer, &route, connected, &mut reply) {
            Ok(()) => Ok(DeviceSession {
                client,
                route,
                connected,
                reply,
            }),
            Err(failure) => Err(failure),
        }
    }

    /// Sends a request and lends the reply.
    ///
    /// # Errors
    ///
    /// `Client` with `Request` if the request cannot be sent on the connection or over the route, with `Refused` if a
    /// router did not pass it on, or with another fault of the client.
    /// `Program` if the reader or the writer failed, or the input ended.
    pub fn ask<R: Source, W: Sink>(
        &mut self,
        reader: &mut R,
        writer: &mut W,
        request: &[u8],
    ) -> Result<&[u8], RequestFailure>
        ensures asked { IsReplyLent self.old.route request.now self.old.connected
            (session_ends self.old.client (R.left reader.old) (R.reads reader.old) (R.failures reader.old)
            (W.written writer.old) (W.failures writer.old) self.old.reply.items)
            (λ client reply. session_ends client (R.left reader.new) (R.reads reader.new) (R.failures reader.new)
            (W.written writer.new) (W.failures writer.new) reply) (map_ok (λ lent. lent.now) result) }
        ensures failed { IfErr result IsOfExchange }
    {
        match self.exchange(reader, writer, request) {
            Ok(()) => Ok(self.reply.as_slice()),
            Err(failure) => Err(failure),
        }
    }

    /// Sends a request, and keeps the reply.
    fn exchange<R: Source, W: Sink>(
        &mut self,
        reader: &mut R,
        writer: &mut W,
        request: &[u8],
    ) -> Result<(), RequestFailure>
        ensures asked { IsAskedInSession self.old.route request.now self.old.connected
            (session_ends self.old.client (R.left reader.old) (R.reads reader.old) (R.failures reader.old)
            (W.written writer.old) (W.failures writer.old) self.old.reply.items)
            (session_ends self.new.client (R.left reader.new) (R.reads reader.new) (R.failures reader.new)
            (W.written writer.new) (W.failures writer.new) self.new.reply.items) result }
        ensures connected { self.new.connected ≡ self.old.connected }
        ensures failed { IfErr result IsOfExchange }
    {
        let asked = ask_once(
            &mut self.client,
            reader,
            writer,
            &self.route,
            request,
            self.connected,
            &mut self.reply,
        );
        match asked {
            Ok(()) => Ok(()),
            Err(fault) => Err(RequestFailure::from(fault)),
        }
    }

    /// Sends the request that waits on the connection once more, with the same sequence count, and lends the reply. The
    /// device executes such a request once. Call it after [`DeviceSession::ask`] got no answer.
    ///
    /// # Errors
    ///
    /// `Client` with `State` if no request waits. Otherwise those of [`DeviceSession::ask`].
    pub fn ask_again<R: Source, W: Sink>(
        &mut self,
        reader: &mut R,
        writer: &mut W,
    ) -> Result<&[u8], RequestFailure>
        ensures asked { IsReplyLentAgain
            (session_ends self.old.client (R.left reader.old) (R.reads reader.old) (R.failures reader.old)
            (W.written writer.old) (W.failures writer.old) self.old.reply.items)
            (λ client reply. session_ends client (R.left reader.new) (R.reads reader.new) (R.failures reader.new)
            (W.written writer.new) (W.failures writer.new) reply) (map_ok (λ lent. lent.now) result) }
        ensures failed { IfErr result IsOfExchange }
    {
        match self.exchange_again(reader, writer) {
            Ok(()) => Ok(self.reply.as_slice()),
            Err(failure) => Err(failure),
        }
    }

    /// Sends the request that waits once more, and keeps the reply.
    fn exchange_again<R: Source, W: Sink>(
        &mut self,
        reader: &mut R,
        writer: &mut W,
    ) -> Result<(), RequestFailure>
        ensures asked { IsAskedAgain
            (session_ends self.old.client (R.left reader.old) (R.reads reader.old) (R.failures reader.old)
            (W.written writer.old) (W.failures writer.old) self.old.reply.items)
            (session_ends self.new.client (R.left reader.new) (R.reads reader.new) (R.failures reader.new)
            (W.written writer.new) (W.failures writer.new) self.new.reply.items) result }
        ensures connected { self.new.connected ≡ self.old.connected }
        ensures failed { IfErr result IsOfExchange }
    {
        match ask_again(&mut self.client, reader, writer, &mut self.reply) {
            Ok(()) => Ok(()),
            Err(fault) => Err(RequestFailure::from(fault)),
        }
    }

    /// The last reply. Empty if there was none.
    pub fn reply(&self) -> &[u8]
        ensures { result.now ≡ self.now.reply.items }
    {
        self.reply.as_slice()
    }

    /// Closes the connection, if there is one, and unregisters the session.
    ///
    /// # Errors
    ///
    /// `Client` with `Refused` if the device refuses the close, or with another fault of the client. `Program` as for
    /// [`DeviceSession::ask`].
    pub fn end<R: Source, W: Sink>(
        &mut self,
        reader: &mut R,
        writer: &mut W,
    ) -> Result<(), RequestFailure>
        ensures ended { IsEnded self.old.route self.old.connected
            (session_ends self.old.client (R.left reader.old) (R.reads reader.old) (R.failures reader.old)
            (W.written writer.old) (W.failures writer.old) self.old.reply.items)
            (session_ends self.new.client (R.left reader.new) (R.reads reader.new) (R.failures reader.new)
            (W.written writer.new) (W.failures writer.new) self.new.reply.items) result }
        ensures failed { IfErr result IsOfExchange }
    {
        end_with(
            &mut self.client,
            reader,
            writer,
            &self.route,
            self.connected,
            &mut self.reply,
        )
    }
}

/// Registers a session, and opens a connection over the route if one is wanted.
fn begin_client<R: Source, W: Sink>(
    client: &mut Client,
    reader: &mut R,
    writer: &mut W,
    route: &Route,
    connected: bool,
    reply: &mut ReplyBuf,
) -> Result<(), RequestFailure>
    ensures begun { IsBegun route.now connected
        (session_ends client.old (R.left reader.old) (R.reads reader.old) (R.failures reader.old)
        (W.written writer.old) (W.failures writer.old) reply.old.items)
        (session_ends client.new (R.left reader.new) (R.reads reader.new) (R.failures reader.new)
        (W.written writer.new) (W.failures writer.new) reply.new.items) result }
    ensures failed { IfErr result IsOfExchange }
{
    match register(client, reader, writer, reply) {
        Ok(()) => {}
        Err(fault) => return Err(begin_failure(fault)),
    }
    if !connected {
        return Ok(());
    }
    match open(client, reader, writer, route, reply) {
        Ok(()) => Ok(()),
        Err(fault) => Err(RequestFailure::from(fault)),
    }
}

/// Closes the connection, if there is one, and unregisters the session.
fn end_with<R: Source, W: Sink>(
    client: &mut Client,
    reader: &mut R,
    writer: &mut W,
    route: &Route,
    connected: bool,
    reply: &mut ReplyBuf,
) -> Result<(), RequestFailure>
    ensures ended { IsEnded route.now connected
        (session_ends client.old (R.left reader.old) (R.reads reader.old) (R.failures reader.old)
        (W.written writer.old) (W.failures writer.old) reply.old.items)
        (session_ends client.new (R.left reader.new) (R.reads reader.new) (R.failures reader.new)
        (W.written writer.new) (W.failures writer.new) reply.new.items) result }
    ensures failed { IfErr result IsOfExchange }
{
    match close_if(client, reader, writer, route, connected, reply) {
        Ok(()) => {}
        Err(fault) => return Err(RequestFailure::from(fault)),
    }
    match unregister(client, writer) {
        Ok(()) => Ok(()),
        Err(fault) => Err(RequestFailure::from(fault)),
    }
}

/// Why a session did not begin. A status is the answer to RegisterSession.
fn begin_failure(fault: AskFault) -> RequestFailure
    ensures reported { result ≡ begin_failure fault }
    ensures failed { IsOfExchange result }
{
    match fault {
        AskFault::Client(ClientFault::Status(status)) => RequestFailure::Session(status),
        fault => RequestFailure::from(fault),
    }
}

/// Closes the connection, if there is one.
fn close_if<R: Source, W: Sink>(
    client: &mut Client,
    reader: &mut R,
    writer: &mut W,
    route: &Route,
    connected: bool,
    reply: &mut ReplyBuf,
) -> Result<(), AskFault>
    ensures { IsClosedIf route.now connected
        (session_ends client.old (R.left reader.old) (R.reads reader.old) (R.failures reader.old)
        (W.written writer.old) (W.failures writer.old) reply.old.items)
        (session_ends client.new (R.left reader.new) (R.reads reader.new) (R.failures reader.new)
        (W.written writer.new) (W.failures writer.new) reply.new.items) result }
{
    if connected {
        close(client, reader, writer, route, reply)
    } else {
        Ok(())
    }
}
