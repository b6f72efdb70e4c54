//! The calls that write a frame to send.
//! Text: docs/PROTOCOL.md, "The client".

ghost use Rattle.std.specs.Prelude.{◌≡◌, ◌≤◌, length, IsTrue};
ghost use Rattle.std.specs.Option.{option_map};
ghost use Rattle.enip_wire.specs.Frames.{frame};
ghost use Rattle.enip_client.specs.Calls.{bytes_lent, after_lending, asking, resends};
ghost use Rattle.enip_client.specs.Calls.{registers, opens, asks, submits, closes, unregisters, is_unconnected};
ghost use Rattle.enip_client.specs.Calls.{opens_over, asks_over, asks_routed, closes_over};
ghost use Rattle.enip_client.specs.Client.{bytes_written, bytes_rewritten};

use crate::fault::{ClientFault, SubmitFault};
use crate::sending::{
    Sent, close_request, open_request, routed_request, write_item, write_register, write_request,
    write_unregister,
};
use crate::state::{Awaited, ConnectionState, Registration, State};
use cip_bytes::protocol::{SMALLEST_REQUEST, UNCONNECTED_LIMIT};
use cip_route::Route;

impl State {
    /// Writes the RegisterSession to send.
    pub(crate) fn register(&mut self, sent: &mut Sent) -> Result<(), ClientFault>
        ensures state { self.new ≡ after_lending self.old (registers self.old) }
        ensures bytes { bytes_written result sent.new.items ≡ bytes_lent (registers self.old) }
    {
        // Once, before all other calls (ours).
        let possible = matches!(self.registration, Registration::NotRegistered) && self.is_free();
        self.allow(possible)?;
        let number = self.await_reply(Awaited::Session);
        write_register(number, sent);
        Ok(())
    }

    /// Writes the Forward_Open to send.
    pub(crate) fn open(&mut self, sent: &mut Sent) -> Result<(), ClientFault>
        ensures state { self.new ≡ after_lending self.old (opens self.old) }
        ensures bytes { bytes_written result sent.new.items ≡ bytes_lent (opens self.old) }
    {
        self.open_over(&Route::new(), sent)
    }

    /// Writes the Forward_Open over a route to send.
    pub(crate) fn open_over(&mut self, route: &Route, sent: &mut Sent) -> Result<(), ClientFault>
        ensures state { self.new ≡ after_lending self.old (opens_over route.now self.old) }
        ensures bytes { bytes_written result sent.new.items ≡ bytes_lent (opens_over route.now self.old) }
    {
        // A client opens at most one connection (ours).
        let possible = self.is_ready()
            && matches!(self.connection_state, ConnectionState::NotOpened);
        self.allow(possible)?;
        let request = open_request(&self.wants, route);
        self.write_awaited_request(Awaited::Connection, request.as_slice(), sent);
        Ok(())
    }

    /// Writes an unconnected request to send.
    pub(crate) fn unconnected(&mut self, request: &[u8], sent: &mut Sent) -> Result<(), ClientFault>
        ensures state { self.new ≡ after_lending self.old (asks self.old request.now) }
        ensures bytes { bytes_written result sent.new.items ≡ bytes_lent (asks self.old request.now) }
    {
        self.allow(self.is_ready())?;
        if !is_unconnected(request) {
            return Err(ClientFault::Request);
        }
        self.write_awaited_request(Awaited::Reply(request[0]), request, sent);
        Ok(())
    }

    /// Writes an unconnected request over a route to send.
    pub(crate) fn unconnected_over(
        &mut self,
        route: &Route,
        request: &[u8],
        sent: &mut Sent,
    ) -> Result<(), ClientFault>
        ensures state { self.new ≡ after_lending self.old (asks_over route.now self.old request.now) }
        ensures bytes { bytes_written result sent.new.items ≡ bytes_lent (asks_over route.now self.old request.now) }
    {
        if route.is_empty() {
            self.unconnected(request, sent)
        } else {
            self.unconnected_routed(route, request, sent)
        }
    }

    /// The same over a route that is not empty.
    fn unconnected_routed(
        &mut self,
        route: &Route,
        request: &[u8],
        sent: &mut Sent,
    ) -> Result<(), ClientFault>
        ensures state { self.new ≡ after_lending self.old (asks_routed route.now self.old request.now) }
        ensures bytes { bytes_written result sent.new.items ≡ bytes_lent (asks_routed route.now self.old request.now) }
    {
        self.allow(self.is_ready())?;
        if !is_unconnected(request) {
            return Err(ClientFault::Request);
        }
        let Some(routed) = routed_request(route, request) else {
            return Err(ClientFault::Request);
        };
        self.write_awaited_request(Awaited::Routed(request[0]), routed.as_slice(), sent);
        Ok(())
    }

    /// Writes the item of a request on the connection to send.
    pub(crate) fn submit(&mut self, request: &[u8], sent: &mut Sent) -> Result<(), SubmitFault>
        ensures state { self.new ≡ after_lending self.old (submits self.old request.now) }
        ensures bytes { bytes_written result sent.new.items ≡ bytes_lent (submits self.old request.now) }
    {
        if let Err(fault) = self.allow(self.is_open()) {
            return Err(SubmitFault::Client(fault));
        }
        let session = self.session();
        let o_to_t_id = self.o_to_t_id();
        match self.originator.submit(request) {
            Ok(item) => {
                write_item(session, o_to_t_id, item, sent);
                Ok(())
            }
            Err(why) => Err(SubmitFault::Refused(why)),
        }
    }

    /// Writes the item of the waiting request once more. Returns `false` if there is none to send.
    pub(crate) fn resend(&self, sent: &mut Sent) -> bool
        ensures { bytes_rewritten result sent.new.items ≡ option_map frame (resends self.now) }
    {
        if !self.is_connected() {
            return false;
        }
        match self.originator.resend() {
            Some(item) => {
                write_item(self.session(), self.o_to_t_id(), item, sent);
                true
            }
            None => false,
        }
    }

    /// Writes the Forward_Close to send.
    pub(crate) fn close(&mut self, sent: &mut Sent) -> Result<(), ClientFault>
        ensures state { self.new ≡ after_lending self.old (closes self.old) }
        ensures bytes { bytes_written result sent.new.items ≡ bytes_lent (closes self.old) }
    {
        self.close_over(&Route::new(), sent)
    }

    /// Writes the Forward_Close over a route to send.
    pub(crate) fn close_over(&mut self, route: &Route, sent: &mut Sent) -> Result<(), ClientFault>
        ensures state { self.new ≡ after_lending self.old (closes_over route.now self.old) }
        ensures bytes { bytes_written result sent.new.items ≡ bytes_lent (closes_over route.now self.old) }
    {
        let possible = self.is_open() && self.is_free();
        self.allow(possible)?;
        self.connection_state = ConnectionState::Closed;
        let request = close_request(&self.wants, route);
        self.write_awaited_request(Awaited::End, request.as_slice(), sent);
        Ok(())
    }

    /// Writes the UnRegisterSession to send.
    pub(crate) fn unregister(&mut self, sent: &mut Sent) -> Result<(), ClientFault>
        ensures state { self.new ≡ after_lending self.old (unregisters self.old) }
        ensures bytes { bytes_written result sent.new.items ≡ bytes_lent (unregisters self.old) }
    {
        let possible = self.is_ready();
        self.allow(possible)?;
        write_unregister(self.session(), sent);
        self.registration = Registration::Unregistered;
        // A session's connections end with it.
        if self.is_open() {
            self.connection_state = ConnectionState::Closed;
        }
        Ok(())
    }

    /// Writes a request to the message router whose reply is awaited.
    fn write_awaited_request(&mut self, awaited: Awaited, request: &[u8], sent: &mut Sent)
        requires { length request.now ≤ UNCONNECTED_LIMIT }
        ensures state { self.new ≡ (asking self.old awaited request.now).state }
        ensures bytes { sent.new.items ≡ frame (asking self.old awaited request.now).frame }
    {
        let session = self.session();
        let number = self.await_reply(awaited);
        write_request(session, number, request, sent);
    }
}

/// Whether a request can be sent without a connection: it has a service and a path size at least, and at most as many bytes
/// as a target accepts. Bit 7 of a service marks a reply.
fn is_unconnected(request: &[u8]) -> bool
    ensures is { result ≡ is_unconnected request.now }
    ensures some { IsTrue result → SMALLEST_REQUEST ≤ length request.now }
    ensures within { IsTrue result → length request.now ≤ UNCONNECTED_LIMIT }
{
    request.len() >= SMALLEST_REQUEST && request.len() <= UNCONNECTED_LIMIT && request[0] < 0x80
}
