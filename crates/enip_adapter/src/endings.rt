//! Which connections ended since the last update, and why.

ghost use Rattle.std.specs.Prelude.{◌≡◌, ◌≤◌, ◌<◌, ◌+◌, ◌++◌, [], ◌∷◌, length};
ghost use Rattle.arrayvec.specs.ArrayVec.{array_vec_len};
ghost use Rattle.enip_adapter.specs.Endings.{no_endings, updated, open_in, endings_of, end_reason};

use crate::adapter::Adapter;
use arrayvec::ArrayVec;
use cip_manager::ConnectionInfo;
use std::marker::Model;

/// The greatest number of open connections of an adapter.
const MOST_CONNECTIONS: usize = 64;

/// Why a connection ended.
#[derive(Clone, Copy, Debug, Default, PartialEq, Eq)]
pub enum EndReason {
    /// It timed out: its deadline was reached.
    #[default]
    TimedOut,
    /// Its peer was ended.
    PeerEnded,
    /// Its peer was closed, by an UnRegisterSession or by a length over the limit.
    SessionEnded,
    /// Its originator closed it with a Forward_Close.
    Closed,
}

/// A connection that ended.
#[derive(Clone, Copy, Debug, Default)]
pub struct EndedConnection {
    /// The O->T connection ID, 32 bits. It is never used again.
    pub id: u32,
    /// The handle of the session that opened it, 32 bits.
    pub session: u32,
    /// Why it ended.
    pub reason: EndReason,
}

/// Reports which connections of an adapter ended, and why.
///
/// Call `update` after each call of the adapter. Then `ended` lists the connections that this call ended, each once, in
/// the order in which they were opened. For each open connection, this type remembers the O->T ID, the session and the
/// deadline. If `update` is called less often, the same connections are listed, with three exceptions: a reason may be
/// that of a later time; a connection that timed out is listed as `Closed` if an item between the two updates brought
/// its deadline forward, since the first deadline is ten seconds after the opening at least; and a connection that was
/// opened and ended between two updates is never listed.
///
/// It has capacity for all connections of an adapter from `new` on, and allocates no memory.
///
/// ```
/// let mut endings = Endings::new();
/// endings.update(&adapter);
/// adapter.tick(now);
/// endings.update(&adapter);
/// for connection in endings.ended() {
///     // connection.id, connection.session and connection.reason
/// }
/// ```
#[derive(Drop)]
pub struct Endings {
    remembered: ArrayVec<ConnectionInfo, MOST_CONNECTIONS>,
    ended: ArrayVec<EndedConnection, MOST_CONNECTIONS>,
}

impl Model for Endings {
    ghost use Rattle.enip_adapter.specs.Endings.{EndingsState};

    ghost Value = { EndingsState };

    ghost view = { λ e. record { remembered = e.remembered.items; ended = e.ended.items } };
}

impl Endings {
    /// No update yet: no connection is remembered.
    pub fn new() -> Endings
        ensures { result ≡ no_endings }
    {
        Endings {
            remembered: ArrayVec::new(),
            ended: ArrayVec::new(),
        }
    }

    /// Compares an adapter with the last update; it must be the same adapter each time. The connections that were open
    /// then and are not open now have ended. Those that are open now are remembered.
    pub fn update(&mut self, adapter: &Adapter)
        ensures { self.new ≡ updated self.old adapter.now }
    {
        collect_ended(adapter, self.remembered.as_slice(), &mut self.ended);
        remember(adapter, &mut self.remembered);
    }

    /// The connections that ended between the last two updates, in the order in which they were opened.
    pub fn ended(&self) -> &[EndedConnection]
        ensures { result.now ≡ self.now.ended }
    {
        self.ended.as_slice()
    }
}

/// Lists those of the remembered connections that are no longer open.
fn collect_ended(
    adapter: &Adapter,
    remembered: &[ConnectionInfo],
    ended: &mut ArrayVec<EndedConnection, MOST_CONNECTIONS>,
)
    requires { length remembered.now ≤ MOST_CONNECTIONS }
    ensures { ended.new.items ≡ endings_of adapter.now remembered.now }
{
    ended.clear();
    for connection in remembered {
        collect(adapter, *connection, ended);
    }
}

/// Appends a remembered connection if it is no longer open.
fn collect(
    adapter: &Adapter,
    connection: ConnectionInfo,
    ended: &mut ArrayVec<EndedConnection, MOST_CONNECTIONS>,
)
    requires { array_vec_len ended.old < MOST_CONNECTIONS }
    ensures text { ended.new.items ≡ ended.old.items ++ endings_of adapter.now (connection ∷ []) }
    ensures size { array_vec_len ended.new ≤ array_vec_len ended.old + 1 }
{
    if !adapter.has_connection(connection.id) {
        ended.push(EndedConnection {
            id: connection.id,
            session: connection.session,
            reason: end_reason(adapter, connection),
        });
    }
}

/// Why a connection that is no longer open ended.
fn end_reason(adapter: &Adapter, connection: ConnectionInfo) -> EndReason
    ensures { result ≡ end_reason adapter.now connection }
{
    if connection.deadline <= adapter.moment() {
        return EndReason::TimedOut;
    }
    match adapter.session(connection.session) {
        None => EndReason::PeerEnded,
        Some(session) if session.closed => EndReason::SessionEnded,
        Some(_) => EndReason::Closed,
    }
}

/// Remembers the open connections.
fn remember(adapter: &Adapter, remembered: &mut ArrayVec<ConnectionInfo, MOST_CONNECTIONS>)
    ensures { remembered.new.items ≡ open_in adapter.now }
{
    remembered.clear();
    for index in 0..adapter.connections() {
        remembered.push(adapter.connection_info(index));
    }
}
