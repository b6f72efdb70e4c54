//! The open connections, in the order in which they were opened.
//! Text: docs/PROTOCOL.md, "Connections: opened, closed, timed out".
ghost use Rattle.std.specs.Prelude.{◌≡◌, ◌≤◌, ◌+◌, ◌-◌, ◌<◌, ℕ, not, filter, [], ◌∷◌, ◌++◌, length, slice_index_or};
ghost use Rattle.std.specs.Prelude.{IfOk, IfSome, IfNone, min, unwrap_or};
ghost use Rattle.std.specs.Option.{option_map};
ghost use Rattle.std.specs.List.{list_any, remove};
ghost use Rattle.std.specs.Borrow.{sem};
ghost use Rattle.std.specs.Io.BufRead.{Rests};
ghost use Rattle.cip_manager.specs.declared.connection.Connection.{Connection as OpenConnection};
ghost use Rattle.cip_manager.specs.Connection.{has_id, is_open_at, earliest_deadline};
ghost use Rattle.cip_manager.specs.Index.{binary_digits};
ghost use Rattle.cip_manager.specs.ConnectionInfo.{connection_info};
ghost use Rattle.cip_manager.specs.Items.{view as reply_in, item_turn, item_execution_limit};
ghost use Rattle.cip_manager.specs.Table.{is_in, no_entry, AreBelow};

use crate::connection::{Connection, ConnectionInfo};
use crate::index::{Index, Steps};
use crate::manager::KeptAnswer;
use crate::search::position_of;
use crate::selection::Selection;
use crate::slots::Slots;
use cip_bytes::protocol::{LARGEST_CONNECTION_SIZE, REPLY_LIMIT, SEQUENCE_COUNT_SIZE};
use cip_message::Router;
use std::alloc::{AllocError, Global};
use std::marker::Model;

/// The open connections, in the order in which they were opened.
#[derive(Drop)]
pub struct Table {
    places: u16,
    // A lower bound on all deadlines.
    earliest: u64,
    index: Index,
    connections: Slots,
}

impl Model for Table {
    ghost use Rattle.cip_manager.specs.Table.{TableState};

    ghost Value = { TableState };

    ghost use Rattle.cip_manager.specs.Table.{listed};
    ghost use Rattle.cip_manager.specs.Soundness.{IsSound};

    ghost view = { λ t. record { places = t.places; connections = listed t.connections t.index } };

    ghost invariant = { λ t. IsSound t.places t.earliest t.index t.connections };
}

impl Table {
    ghost use Rattle.cip_manager.specs.contracts.table.Table.{the_row};

    /// A table with this many slots and no connection. It allocates all its memory here.
    pub fn new(alloc: Global, places: u16) -> Result<Table, AllocError>
        requires from { 1 ≤ places }
        requires to { places ≤ 64 }
        ensures { IfOk result (λ table. table ≡ no_entry places) }
    {
        Ok(Table {
            places,
            earliest: u64::MAX,
            index: Index::new(),
            connections: Slots::new(alloc, places)?,
        })
    }

    /// How many connections are open.
    #[inline(always)]
    pub fn len(&self) -> usize
        ensures count { result ≡ length self.now.connections }
        ensures taken { result ≤ self.now.places }
        ensures most { result ≤ 64 }
    {
        self.index.len()
    }

    /// How many slots are free.
    pub fn free(&self) -> u16
        ensures { result ≡ self.now.places - length self.now.connections }
    {
        self.places - self.len() as u16
    }

    /// Whether a selected connection is open.
    pub fn has_any(&self, selection: &Selection) -> bool
        ensures { result ≡ list_any (is_in selection.now) self.now.connections }
    {
        for position in 0..self.len() {
            if selection.has(self.at(position)) {
                return true;
            }
        }
        false
    }

    /// How many of the open connections are selected.
    pub fn count(&self, selection: &Selection) -> usize
        ensures { result ≡ length (filter (is_in selection.now) self.now.connections) }
    {
        let mut count = 0;
        for position in 0..self.len() {
            count += usize::from(selection.has(self.at(position)));
        }
        count
    }

    /// Whether a connection with this O->T ID is open. It takes at most as many steps as the number of open
    /// connections has binary digits.
    pub fn find(&self, id: u32, steps: &mut Steps) -> bool
        requires { steps.old.count ≤ 18446744073709551608 }
        ensures found { result ≡ list_any (has_id id) self.now.connections }
        ensures bound { steps.new.count ≤ steps.old.count + binary_digits (length self.now.connections) }
        ensures seven { steps.new.count ≤ steps.old.count + 7 }
        ensures rises { steps.old.count ≤ steps.new.count }
    {
        position_of(&self.index, id, steps).is_some()
    }

    /// The connection at this position. Positions start at 0 and follow the order of opening.
    pub fn connection_info(&self, position: usize) -> ConnectionInfo
        requires { position < length self.now.connections }
        ensures { (d : OpenConnection) → result ≡ connection_info (slice_index_or self.now.connections position d) }
    {
        self.at(position).connection_info()
    }

    /// Opens a connection, after the others. Its ID must be above theirs.
    pub fn push(&mut self, id: u32, connection: Connection)
        requires position { length self.old.connections < self.old.places }
        requires id { id ≡ connection.o_to_t_id }
        requires above { AreBelow connection.o_to_t_id self.old.connections }
        ensures pushed { self.new
            ≡ record self.old { connections = self.old.connections ++ connection ∷ [] } }
        ensures below { AreBelow (connection.o_to_t_id + 1) self.new.connections }
    {
        self.earliest = self.earliest.min(connection.deadline);
        let key = self.connections.insert(connection);
        self.index.push(id, key);
    }

    /// Ends the selected connections.
    #[inline(always)]
    pub fn end(&mut self, selection: &Selection)
        ensures ended { self.new
            ≡ record self.old { connections = filter (λ c. not (is_in selection.now c)) self.old.connections } }
        ensures below { (n : ℕ) → AreBelow n self.old.connections → AreBelow n self.new.connections }
    {
        for position in (0..self.len()).rev() {
            if selection.has(self.at(position)) {
                self.remove(position);
            }
        }
    }

    /// Ends the connections whose deadline is at or before this moment. Before `earliest` it reads none of them.
    #[inline(always)]
    pub fn expire(&mut self, now: u64)
        ensures ended { self.new
            ≡ record self.old { connections = filter (is_open_at now) self.old.connections } }
        ensures below { (n : ℕ) → AreBelow n self.old.connections → AreBelow n self.new.connections }
    {
        if now < self.earliest {
            return;
        }
        self.end_overdue(now);
    }

    /// The earliest deadline, in microseconds. `None` if no connection is open.
    pub fn deadline(&self) -> Option<u64>
        ensures { result ≡ earliest_deadline self.now.connections }
    {
        let mut earliest = None;
        for position in 0..self.len() {
            earliest = Some(earlier(self.at(position).deadline, earliest));
        }
        earliest
    }

    /// Passes an item to the session's connection with this O->T ID, and lends the answer from there.
    #[inline(always)]
    pub fn receive<R: Router>(
        &mut self,
        now: u64,
        session: u32,
        id: u32,
        item: &[u8],
        router: &mut R,
    ) -> Option<KeptAnswer<'_>>
        ensures* state { sem 𝓛 (Rests the_row self.entry (λ last.
            (last ≡ record self.old {
              connections =
                  (item_turn R.after R.answer self.old.connections now session id item.now router.old).connections;
            })
            × IfNone result (last ≡ self.old))) }
        ensures silent { IfNone result (router.new ≡ router.old) }
        ensures answer { option_map reply_in result
            ≡ (item_turn R.after R.answer self.old.connections now session id item.now router.old).reply }
        ensures router { router.new
            ≡ (item_turn R.after R.answer self.old.connections now session id item.now router.old).router }
        ensures fits { IfSome result (λ answer. length answer.reply.now + SEQUENCE_COUNT_SIZE ≤ LARGEST_CONNECTION_SIZE) }
    {
        let Some(position) = position_of(&self.index, id, &mut Steps::default()) else {
            return None;
        };
        let key = self.index.key(position);
        let connection = self.connections.at(key);
        if connection.session != session {
            return None;
        }
        let deadline = connection.deadline_from(now);
        self.earliest = self.earliest.min(deadline);
        self.connections.serve(key, deadline, item, router)
    }

    /// The limit on the reply with which `receive` would execute this item's request. `None` if it would not.
    pub fn would_execute(&self, session: u32, id: u32, item: &[u8]) -> Option<usize>
        ensures limit { result ≡ item_execution_limit self.now.connections session id item.now }
        ensures request { IfSome result (λ max_size. 4 ≤ length item.now) }
        ensures from { IfSome result (λ max_size. 8 ≤ max_size) }
        ensures to { IfSome result (λ max_size. max_size ≤ REPLY_LIMIT) }
    {
        let Some(position) = position_of(&self.index, id, &mut Steps::default()) else {
            return None;
        };
        let key = self.index.key(position);
        let connection = self.connections.at(key);
        if connection.session == session {
            connection.would_execute(item)
        } else {
            None
        }
    }

    /// The connection at this position.
    #[inline(always)]
    fn at(&self, position: usize) -> &Connection
        requires { position < length self.now.connections }
        ensures { (d : OpenConnection) → result.now ≡ slice_index_or self.now.connections position d }
    {
        self.connections.at(self.index.key(position))
    }

    /// Ends the connections whose deadline is at or before this moment, and finds the earliest deadline of the
    /// others.
    #[inline(never)]
    fn end_overdue(&mut self, now: u64)
        ensures ended { self.new
            ≡ record self.old { connections = filter (is_open_at now) self.old.connections } }
        ensures below { (n : ℕ) → AreBelow n self.old.connections → AreBelow n self.new.connections }
    {
        self.end(&Selection::Overdue(now));
        self.earliest = self.deadline().unwrap_or(u64::MAX);
    }

    /// Ends the connection at this position.
    fn remove(&mut self, position: usize)
        requires { position < length self.old.connections }
        ensures { self.new ≡ record self.old { connections = remove self.old.connections position } }
    {
        let key = self.index.remove(position);
        self.connections.remove(key);
    }
}

/// The earlier of a deadline and an optional other one.
fn earlier(deadline: u64, other: Option<u64>) -> u64
    ensures { result ≡ min deadline (unwrap_or other deadline) }
{
    deadline.min(other.unwrap_or(deadline))
}
