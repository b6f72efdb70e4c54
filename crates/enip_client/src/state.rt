//! The state of a client.
//!
//! A call or a frame that is heard changes it, and nothing else. Once a fault lasts, nothing changes it any more.
//!
//! ```text
//! session      NotRegistered ── register, heard Registered ──▶ Registered ── unregister ──▶ Unregistered
//!
//! connection   NotOpened ── open, heard Opened ──▶ Open ── close, unregister ──▶ Closed
//!  (in it)       └──▶ open, heard Refused: it stays NotOpened
//!
//! on it        idle ── submit ──▶ waiting ── heard Accepted ──▶ idle
//!  (Originator)                      └── give_up ──▶ given up ── submit ──▶ waiting
//!
//! awaiting     nothing ── register, open, unconnected, close ──▶ its reply ── heard ──▶ nothing
//! ```
//!
//! Text: docs/PROTOCOL.md, "The client".

ghost use Rattle.std.specs.Prelude.{◌≡◌, ◌≤◌, length, Result, Ok, Err};
ghost use Rattle.enip_client.specs.State.{is_registered, session_in, is_open, o_to_t_id_in, is_free};
ghost use Rattle.enip_client.specs.Calls.{can_ask, is_connected, refusal, next_number, awaiting};
ghost use Rattle.enip_client.specs.Client.{allowed};

use crate::fault::ClientFault;
use crate::wants::Wants;
use cip_class3::Originator;

/// The client's session.
#[derive(Clone, Copy)]
pub(crate) enum Registration {
    /// No session was registered yet.
    NotRegistered,
    /// The session with this handle is registered.
    Registered(u32),
    /// The session is over.
    Unregistered,
}

/// The client's connection.
#[derive(Clone, Copy)]
pub(crate) enum ConnectionState {
    /// No connection was opened yet.
    NotOpened,
    /// The connection is open, with this O->T ID.
    Open(u32),
    /// The connection is over.
    Closed,
}

/// Which reply is awaited.
#[derive(Clone, Copy)]
pub(crate) enum Awaited {
    /// The reply to RegisterSession.
    Session,
    /// The reply to Forward_Open.
    Connection,
    /// The reply to an unconnected request of this service.
    Reply(u8),
    /// The reply to an unconnected request of this service over a route.
    Routed(u8),
    /// The reply to Forward_Close.
    End,
}

/// Which reply is awaited, and the number of its request, which is the context of both.
#[derive(Clone, Copy)]
pub(crate) struct Awaiting {
    pub(crate) number: u64,
    pub(crate) awaited: Awaited,
}

/// The state of a client, apart from the bytes held of its next frame.
#[derive(Drop)]
pub(crate) struct State {
    pub(crate) wants: Wants,
    pub(crate) registration: Registration,
    pub(crate) awaiting: Option<Awaiting>,
    pub(crate) connection_state: ConnectionState,
    /// The originator's end of the connection. It is idle until the connection is open.
    pub(crate) originator: Originator,
    /// The number of frames that were counted for contexts, modulo 2^64.
    pub(crate) frames: u64,
    /// The lasting fault, if any.
    pub(crate) fault: Option<ClientFault>,
}

impl State {
    /// Whether no reply is awaited.
    pub(crate) fn is_free(&self) -> bool
        ensures { result ≡ is_free self.now }
    {
        self.awaiting.is_none()
    }

    /// Whether the session is registered and no reply is awaited.
    pub(crate) fn is_ready(&self) -> bool
        ensures { result ≡ can_ask self.now }
    {
        matches!(self.registration, Registration::Registered(_)) && self.is_free()
    }

    /// Whether the connection is open.
    pub(crate) fn is_open(&self) -> bool
        ensures { result ≡ is_open self.now.connection_state }
    {
        matches!(self.connection_state, ConnectionState::Open(_))
    }

    /// Whether the connection is open, and no fault lasts.
    pub(crate) fn is_connected(&self) -> bool
        ensures { result ≡ is_connected self.now }
    {
        self.fault.is_none() && self.is_open()
    }

    /// The handle of the registered session, or 0.
    pub(crate) fn session(&self) -> u32
        ensures { result ≡ session_in self.now.registration }
    {
        match self.registration {
            Registration::Registered(session) => session,
            _ => 0,
        }
    }

    /// The O->T ID of the open connection, or 0.
    pub(crate) fn o_to_t_id(&self) -> u32
        ensures { result ≡ o_to_t_id_in self.now.connection_state }
    {
        match self.connection_state {
            ConnectionState::Open(id) => id,
            _ => 0,
        }
    }

    /// Checks whether a call is allowed: no fault lasts, and it is possible now.
    ///
    /// # Errors
    ///
    /// The lasting fault, if any, otherwise `State`.
    pub(crate) fn allow(&self, possible: bool) -> Result<(), ClientFault>
        ensures { result ≡ allowed (refusal self.now possible) }
    {
        if let Some(fault) = self.fault {
            return Err(fault);
        }
        if possible {
            Ok(())
        } else {
            Err(ClientFault::State)
        }
    }

    /// Counts a frame whose reply is awaited, and returns its number.
    pub(crate) fn await_reply(&mut self, awaited: Awaited) -> u64
        ensures number { result ≡ next_number self.old }
        ensures state { self.new ≡ awaiting awaited self.old }
    {
        // From 1 on, modulo 2^64.
        let number = self.frames.wrapping_add(1);
        self.frames = number;
        self.awaiting = Some(Awaiting { number, awaited });
        number
    }
}
