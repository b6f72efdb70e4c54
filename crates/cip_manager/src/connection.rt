//! One open connection (Volume 1, Connection Manager).
//!
//! Its states and transitions. T is its timeout in microseconds, and `now` is the greatest moment so far:
//!
//! ```text
//!         ┌──────┐  an opening that is refused: nothing changes, and no ID is used
//!         │ none │
//!         └──┬───┘
//!            │ Forward_Open, Large_Forward_Open: it gets the next ID; the deadline is now + max(T, 10 s)
//!            ▼
//!         ┌──────┐◀─┐ an item that is executed or repeated: the deadline is now + T
//!         │ open │──┘
//!         └──┬───┘  an item that is dropped, a Forward_Close of another session: nothing changes
//!            │
//!            │ Forward_Close of its session; the end of its session; a moment at or past its deadline
//!            ▼
//!         ┌──────┐
//!         │ over │  its ID is never used again
//!         └──────┘
//! ```
//!
//! Text: docs/PROTOCOL.md, "Connections: opened, closed, timed out".
ghost use Rattle.std.specs.Prelude.{◌≡◌, ◌+◌, ◌≤◌, length, IfSome, None, if◌then◌else◌};
ghost use Rattle.std.specs.Option.{option_map};
ghost use Rattle.std.specs.Borrow.{sem};
ghost use Rattle.std.specs.Io.BufRead.{Rests};
ghost use Rattle.cip_class3.specs.TargetRule.{execution_limit};
ghost use Rattle.cip_manager.specs.ConnectionInfo.{connection_info};
ghost use Rattle.cip_manager.specs.Opening.{CanBeOpened, new_connection};
ghost use Rattle.cip_manager.specs.Items.{view as reply_in, held_reply, connection_turn, turn_until, answer_of};
ghost use Rattle.cip_manager.specs.Connection.{timeout_of, moment_after, is_of_session_with, is_of_group, is_answered};

use crate::manager::KeptAnswer;
use crate::opening::Opening;
use cip_bytes::protocol::{LARGEST_CONNECTION_SIZE, REPLY_LIMIT, SEQUENCE_COUNT_SIZE};
use cip_class3::{Received, Target};
use cip_message::{CloseRequest, Router};

/// The least time from an opening to the deadline, in microseconds.
const LEAST_FIRST_TIMEOUT: u64 = 10_000_000;

/// The three numbers by which an originator names a connection.
#[derive(Clone, Copy, PartialEq, Eq)]
pub struct Triad {
    pub connection_serial: u16,
    pub originator_vendor: u16,
    pub originator_serial: u32,
}

impl Triad {
    ghost use Rattle.cip_manager.specs.Closing.{triad_of};
    ghost use Rattle.cip_message.specs.Close.{view};

    /// The triad in a Forward_Close.
    pub fn of(request: &CloseRequest<'_>) -> Triad
        ensures { result ≡ triad_of (view request.now) }
    {
        Triad {
            connection_serial: request.connection_serial,
            originator_vendor: request.originator_vendor,
            originator_serial: request.originator_serial,
        }
    }
}

/// Who opens a connection, as `Manager::open_for` takes it.
///
/// ```
/// let opener = Opener { session, group: Some(u128::from(address)) }; // a client by its address
/// let local = Opener { session, group: None };                       // nobody's share
/// ```
#[derive(Clone, Copy, Debug, PartialEq, Eq)]
pub struct Opener {
    /// The handle of the session, 32 bits. The connection ends with it, and only it can use or close the connection.
    pub session: u32,
    /// The group whose share the connection uses while it is open, by a number that the caller chooses. `None`: it
    /// uses nobody's.
    pub group: Option<u128>,
}

/// An open connection, as `Manager::connection_info` reports it.
#[derive(Clone, Copy, Debug, Default)]
pub struct ConnectionInfo {
    /// The O->T connection ID, 32 bits. It is never used again.
    pub id: u32,
    /// The handle of the session that opened it, 32 bits.
    pub session: u32,
    /// When it ends if no item arrives on it, in microseconds.
    pub deadline: u64,
}

/// An open connection, at the target.
#[derive(Drop)]
pub struct Connection {
    /// The session that opened it.
    pub session: u32,
    /// The group whose share it uses.
    pub group: Option<u128>,
    // The ID of items to the target. Only `connection_info` and definitions read it: a search by ID goes through
    // the index, which counts each comparison.
    o_to_t_id: u32,
    /// The ID of items to the originator, which chose it.
    pub t_to_o_id: u32,
    pub triad: Triad,
    /// How long it stays open without an item, in microseconds.
    pub timeout: u64,
    /// When it ends, in microseconds.
    pub deadline: u64,
    /// The target's end, with both sizes, and the count and reply that it holds.
    pub target: Target,
}

impl Connection {
    ghost use Rattle.cip_manager.specs.contracts.connection.Connection.{the_row};

    /// The connection that an opening asks for. Its target holds nothing yet.
    pub fn new(id: u32, now: u64, opener: Opener, opening: &Opening) -> Connection
        requires { CanBeOpened opening.now }
        ensures { result ≡ new_connection id now opener opening.now }
    {
        let timeout = timeout_of(opening.o_to_t.rpi, opening.timeout_multiplier);
        Connection {
            session: opener.session,
            group: opener.group,
            o_to_t_id: id,
            t_to_o_id: opening.t_to_o_id,
            triad: opening.triad,
            timeout,
            deadline: moment_after(now, timeout.max(LEAST_FIRST_TIMEOUT)),
            target: Target::new(opening.o_to_t.size, opening.t_to_o.size),
        }
    }

    /// The connection, as callers see it.
    pub fn connection_info(&self) -> ConnectionInfo
        ensures { result ≡ connection_info self.now }
    {
        ConnectionInfo {
            id: self.o_to_t_id,
            session: self.session,
            deadline: self.deadline,
        }
    }

    /// The deadline after an item at this moment.
    #[inline(always)]
    pub fn deadline_from(&self, now: u64) -> u64
        ensures { result ≡ moment_after now self.now.timeout }
    {
        moment_after(now, self.timeout)
    }

    /// Whether it uses the share of this group.
    pub fn is_of_group(&self, group: u128) -> bool
        ensures { result ≡ is_of_group group self.now }
    {
        match self.group {
            Some(other) => other == group,
            None => false,
        }
    }

    /// Whether a Forward_Close of this session with this triad closes it.
    pub fn is_closed_by(&self, session: u32, triad: Triad) -> bool
        ensures { result ≡ is_of_session_with session triad self.now }
    {
        self.session == session && self.triad == triad
    }

    /// The limit on the reply with which `receive` would execute this item's request. `None` if it would not.
    pub fn would_execute(&self, item: &[u8]) -> Option<usize>
        ensures limit { result ≡ execution_limit self.now.target item.now }
        ensures request { IfSome result (λ max_size. 4 ≤ length item.now) }
        ensures from { IfSome result (λ max_size. 8 ≤ max_size) }
        ensures to { IfSome result (λ max_size. max_size ≤ REPLY_LIMIT) }
    {
        self.target.would_execute(item)
    }

    /// Passes an item to the target. An item that is not dropped moves the deadline to this one.
    #[inline(always)]
    pub fn receive<R: Router>(&mut self, deadline: u64, item: &[u8], router: &mut R) -> Received
        ensures { connection_turn result self.new router.new
            ≡ turn_until R.after R.answer self.old deadline item.now router.old }
    {
        let received = self.target.receive(router, item);
        if received != Received::Dropped {
            self.deadline = deadline;
        }
        received
    }

    /// Passes an item to the target, and lends the answer. `None` if the item is dropped. An item that is not dropped
    /// moves the deadline to this one.
    #[inline(always)]
    pub fn serve<R: Router>(
        &mut self,
        deadline: u64,
        item: &[u8],
        router: &mut R,
    ) -> Option<KeptAnswer<'_>>
        ensures* state { sem 𝓛 (Rests the_row self.entry (λ last. last
            ≡ (turn_until R.after R.answer self.old deadline item.now router.old).connection)) }
        ensures answer { option_map reply_in result
            ≡ answer_of (turn_until R.after R.answer self.old deadline item.now router.old) }
        ensures router { router.new ≡ (turn_until R.after R.answer self.old deadline item.now router.old).router }
        ensures fits { IfSome result (λ answer. length answer.reply.now + SEQUENCE_COUNT_SIZE ≤ LARGEST_CONNECTION_SIZE) }
    {
        let received = self.receive(deadline, item, router);
        self.answer_to(received)
    }

    /// The answer to an item: the kept reply, or `None` if the item was dropped.
    #[inline(always)]
    pub fn answer_to(&self, received: Received) -> Option<KeptAnswer<'_>>
        ensures reply { option_map reply_in result ≡ (if is_answered received then held_reply self.now else None) }
        ensures fits { IfSome result (λ answer. length answer.reply.now + SEQUENCE_COUNT_SIZE ≤ LARGEST_CONNECTION_SIZE) }
    {
        if received == Received::Dropped {
            return None;
        }
        let kept = self.target.kept()?;
        Some(KeptAnswer {
            id: self.t_to_o_id,
            sequence_count: kept.sequence_count,
            reply: kept.reply,
        })
    }
}

/// The timeout: O->T RPI x 4 x 2^multiplier, in microseconds.
fn timeout_of(rpi: u32, multiplier: u8) -> u64
    requires { multiplier ≤ 7 }
    ensures { result ≡ timeout_of rpi multiplier }
{
    u64::from(rpi) * 4 * 2u64.pow(u32::from(multiplier))
}

/// The moment `time` after `now`. A later moment than the greatest becomes the greatest.
#[inline(always)]
fn moment_after(now: u64, time: u64) -> u64
    ensures { result ≡ moment_after now time }
{
    now.saturating_add(time)
}
