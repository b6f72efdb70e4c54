//! The open connections, and the calls that change them (Volume 1, Connection Manager).
//! Text: docs/PROTOCOL.md, "Connections: opened, closed, timed out".
ghost use Rattle.std.specs.Prelude.{◌≡◌, ◌≢◌, ◌≤◌, ◌+◌, ◌-◌, ◌<◌, ◌^◌, length, is_some, slice_index_or, IfNone, IfSome, IfOk, OnOk};
ghost use Rattle.std.specs.List.{list_any};
ghost use Rattle.std.specs.Option.{option_map};
ghost use Rattle.std.specs.Borrow.{sem};
ghost use Rattle.std.specs.Io.BufRead.{Rests};
ghost use Rattle.cip_manager.specs.Items.{view as reply_in, item_turn, is_taken, item_execution_limit};
ghost use Rattle.cip_manager.specs.Check.{first_failure};
ghost use Rattle.cip_manager.specs.Connection.{has_id, earliest_deadline};
ghost use Rattle.cip_manager.specs.Index.{binary_digits};
ghost use Rattle.cip_manager.specs.ConnectionInfo.{connection_info};
ghost use Rattle.cip_manager.specs.declared.connection.Connection.{Connection as OpenConnection};
ghost use Rattle.cip_manager.specs.Opening.{CanBeOpened, table_checks, has_share_left};

use crate::connection::{Connection, ConnectionInfo, Opener, Triad};
use crate::index::Steps;
use crate::opening::Opening;
use crate::reply::{write_close_success, write_failure, write_length_fault, write_open_success};
use crate::selection::Selection;
use crate::table::Table;
use cip_bytes::protocol::{
    ExtendedStatus, LARGEST_CONNECTION_SIZE, ManagerService, REPLY_LIMIT, SEQUENCE_COUNT_SIZE,
};
use cip_message::{CloseRequest, Device, OpenRequest, ReplyBuf, Router};
use std::alloc::{AllocError, Global};
use std::marker::Model;

/// The most bytes of a reply to a Forward_Open, a Large_Forward_Open or a Forward_Close.
pub const LONGEST_REPLY: usize = 30;

/// The answer to an item: the sequence count and the reply that the connection keeps.
#[derive(Clone, Copy, Debug)]
pub struct KeptAnswer<'a> {
    /// The T->O connection ID.
    pub id: u32,
    /// The sequence count of the last request that was executed.
    pub sequence_count: u16,
    /// The reply to that request.
    pub reply: &'a [u8],
}

/// The open connections of a device.
///
/// ```
/// let mut manager = Manager::new(alloc, 8, 1, objects.device())?;
/// manager.open(now, session, data, &mut reply); // `reply` is the reply to the Forward_Open
/// manager.expire(now);
/// if let Some(answer) = manager.connected(now, session, id, item, objects) {
///     // Send `answer.sequence_count` and `answer.reply` on connection `answer.id`.
/// }
/// ```
#[derive(Drop)]
pub struct Manager {
    // How many connections one group may have.
    share: u16,
    // It is past the greatest ID after that was used.
    next_id: u64,
    device: Device,
    table: Table,
}

impl Model for Manager {
    ghost use Rattle.cip_manager.specs.Manager.{ManagerState};

    ghost Value = { ManagerState };

    ghost use Rattle.cip_manager.specs.Soundness.{IsNumbered};

    ghost view = { λ m. record {
      places = m.table.places;
      share = m.share;
      next_id = m.next_id;
      device = m.device;
      connections = m.table.connections;
    } };

    ghost invariant = { λ m. IsNumbered m.next_id m.table.connections };
}

impl Manager {
    ghost use Rattle.cip_message.specs.Open.{small, large};
    ghost use Rattle.cip_manager.specs.Manager.{no_connection, no_connection_with_share, turn};
    ghost use Rattle.cip_manager.specs.Opening.{opening_check, opening_turn, open_turn, open_large_turn, open_turn_in};
    ghost use Rattle.cip_manager.specs.Opening.{OpensNext};
    ghost use Rattle.cip_manager.specs.Closing.{close_turn, closing_turn, without_overdue, without_session};
    ghost use Rattle.cip_manager.specs.contracts.manager.Manager.{the_row};
    ghost use Rattle.cip_message.specs.Router.{general_status};
    ghost use Rattle.cip_manager.specs.Replies.{SUCCESS};

    /// A manager with `places` slots and no connection. The first O->T ID is `first_id`. A group may have all
    /// connections. It allocates all its memory here.
    pub fn new(
        alloc: Global,
        places: u16,
        first_id: u32,
        device: Device,
    ) -> Result<Manager, AllocError>
        requires places_from { 1 ≤ places }
        requires places_to { places ≤ 64 }
        requires id { 1 ≤ first_id }
        ensures { IfOk result (λ manager. manager ≡ no_connection places first_id device) }
    {
        Manager::with_share(alloc, places, places, first_id, device)
    }

    /// A manager with `places` slots and no connection. The first O->T ID is `first_id`. A group may have `share`
    /// connections at a time: `places` and more limit nothing, and with 0 no group can open one. It allocates all its
    /// memory here.
    ///
    /// ```
    /// let mut manager = Manager::with_share(alloc, 64, 8, 1, objects.device())?;
    /// manager.open_for(now, Opener { session, group: Some(address) }, data, &mut reply);
    /// ```
    pub fn with_share(
        alloc: Global,
        places: u16,
        share: u16,
        first_id: u32,
        device: Device,
    ) -> Result<Manager, AllocError>
        requires places_from { 1 ≤ places }
        requires places_to { places ≤ 64 }
        requires id { 1 ≤ first_id }
        ensures { IfOk result (λ manager. manager ≡ no_connection_with_share places share first_id device) }
    {
        Ok(Manager {
            share,
            next_id: u64::from(first_id),
            device,
            table: Table::new(alloc, places)?,
        })
    }

    /// How many slots are free.
    pub fn free(&self) -> u16
        ensures { result ≡ self.now.places - length self.now.connections }
    {
        self.table.free()
    }

    /// Forward_Open: opens the connection that the data of a session's request ask for. It uses nobody's share.
    /// Leaves the whole router reply in `reply`.
    pub fn open(&mut self, now: u64, session: u32, data: &[u8], reply: &mut ReplyBuf)
        ensures turn { turn self.new reply.new.items ≡ open_turn self.old now session «data».now }

        // A refused open changes nothing, and uses no ID. Any other uses the next ID, and opens one more
        // connection, after the others.
        ensures refused { general_status reply.new.items ≢ SUCCESS → self.new ≡ self.old }
        ensures opened { general_status reply.new.items ≡ SUCCESS → OpensNext self.old self.new reply.new.items }
        ensures fits { length reply.new.items ≤ LONGEST_REPLY }
    {
        let opener = Opener {
            session,
            group: None,
        };
        self.open_for(now, opener, data, reply);
    }

    /// Large_Forward_Open: the same as `open`, for data with 32-bit parameters.
    pub fn open_large(&mut self, now: u64, session: u32, data: &[u8], reply: &mut ReplyBuf)
        ensures turn { turn self.new reply.new.items ≡ open_large_turn self.old now session «data».now }

        // A refused open changes nothing, and uses no ID. Any other uses the next ID, and opens one more
        // connection, after the others.
        ensures refused { general_status reply.new.items ≢ SUCCESS → self.new ≡ self.old }
        ensures opened { general_status reply.new.items ≡ SUCCESS → OpensNext self.old self.new reply.new.items }
        ensures fits { length reply.new.items ≤ LONGEST_REPLY }
    {
        let opener = Opener {
            session,
            group: None,
        };
        self.open_large_for(now, opener, data, reply);
    }

    /// Forward_Open, of a session whose connection counts for a group: the same as `open`, but an opening of a group
    /// that has its share already is refused with the extended status 0x0113, as if all slots were taken.
    ///
    /// ```
    /// let opener = Opener { session, group: Some(u128::from(address)) };
    /// manager.open_for(now, opener, data, &mut reply);
    /// ```
    #[inline(never)]
    pub fn open_for(&mut self, now: u64, opener: Opener, data: &[u8], reply: &mut ReplyBuf)
        ensures turn { turn self.new reply.new.items ≡ open_turn_in small self.old now opener «data».now }

        // A refused open changes nothing, and uses no ID. Any other uses the next ID, and opens one more
        // connection, after the others.
        ensures refused { general_status reply.new.items ≢ SUCCESS → self.new ≡ self.old }
        ensures opened { general_status reply.new.items ≡ SUCCESS → OpensNext self.old self.new reply.new.items }
        ensures fits { length reply.new.items ≤ LONGEST_REPLY }
    {
        match OpenRequest::read(data) {
            Ok(request) => {
                let opening = Opening::of(&request);
                self.open_connection(ManagerService::ForwardOpen, now, opener, &opening, reply);
            }
            Err(fault) => write_length_fault(ManagerService::ForwardOpen, fault, reply),
        }
    }

    /// Large_Forward_Open, of a session whose connection counts for a group: the same as `open_for`, for data with
    /// 32-bit parameters.
    #[inline(never)]
    pub fn open_large_for(&mut self, now: u64, opener: Opener, data: &[u8], reply: &mut ReplyBuf)
        ensures turn { turn self.new reply.new.items ≡ open_turn_in large self.old now opener «data».now }

        // A refused open changes nothing, and uses no ID. Any other uses the next ID, and opens one more
        // connection, after the others.
        ensures refused { general_status reply.new.items ≢ SUCCESS → self.new ≡ self.old }
        ensures opened { general_status reply.new.items ≡ SUCCESS → OpensNext self.old self.new reply.new.items }
        ensures fits { length reply.new.items ≤ LONGEST_REPLY }
    {
        match OpenRequest::read_large(data) {
            Ok(request) => {
                let opening = Opening::of_large(&request);
                self.open_connection(
                    ManagerService::LargeForwardOpen,
                    now,
                    opener,
                    &opening,
                    reply,
                );
            }
            Err(fault) => write_length_fault(ManagerService::LargeForwardOpen, fault, reply),
        }
    }

    /// Forward_Close: ends the connection that the data of a session's request name, if it belongs to that session.
    /// Leaves the whole router reply in `reply`.
    #[inline(never)]
    pub fn close(&mut self, session: u32, data: &[u8], reply: &mut ReplyBuf)
        ensures turn { turn self.new reply.new.items ≡ close_turn self.old session «data».now }

        // A refused close changes nothing.
        ensures refused { general_status reply.new.items ≢ SUCCESS → self.new ≡ self.old }
        ensures fits { length reply.new.items ≤ LONGEST_REPLY }
    {
        match CloseRequest::read(data) {
            Ok(request) => self.close_named(session, Triad::of(&request), reply),
            Err(fault) => write_length_fault(ManagerService::ForwardClose, fault, reply),
        }
    }

    /// Passes an item to the session's connection with this O->T ID, and lends the answer. `None` if the session
    /// has no connection with that ID, or if the item is dropped.
    ///
    /// It ends no connection: call `expire` with the same moment first.
    #[tactic(auto, using(crate::proofs::ItemLemmas::answered_item))]
    #[inline(always)]
    pub fn connected<R: Router>(
        &mut self,
        now: u64,
        session: u32,
        id: u32,
        item: &[u8],
        router: &mut R,
    ) -> Option<KeptAnswer<'_>>
        ensures* state { sem 𝓛 (Rests the_row self.entry (λ last.
            (last ≡ record self.old {
              connections =
                  (item_turn R.after R.answer self.old.connections now session id item.now router.old).connections;
            })
            × IfNone result (last ≡ self.old))) }
        // An item is answered if and only if the session has a connection with that ID, and the item has a size
        // that its target accepts. An item that is not answered changes neither the router nor, by `state`, any
        // connection.
        ensures taken { is_some result ≡ is_taken self.old.connections session id item.now }
        ensures silent { IfNone result (router.new ≡ router.old) }
        ensures answer { option_map reply_in result
            ≡ (item_turn R.after R.answer self.old.connections now session id item.now router.old).reply }
        ensures router { router.new
            ≡ (item_turn R.after R.answer self.old.connections now session id item.now router.old).router }
        // The reply with its sequence count fits the largest connection size.
        ensures fits { IfSome result (λ answer. length answer.reply.now + SEQUENCE_COUNT_SIZE ≤ LARGEST_CONNECTION_SIZE) }
    {
        self.table.receive(now, session, id, item, router)
    }

    /// The limit on the reply with which `connected` would execute this item's request, in bytes: the `max_size` of the
    /// router's `execute`. `None` if the session has no connection with this O->T ID, or if `connected` would drop
    /// the item or answer it as a repeat.
    ///
    /// It ends no connection: call `expire` with the moment of `connected` first.
    ///
    /// ```
    /// manager.expire(now);
    /// if let Some(max_size) = manager.would_execute(session, id, item) {
    ///     prepare(&item[2..], max_size); // the request, which `connected` executes next
    /// }
    /// let answer = manager.connected(now, session, id, item, objects);
    /// ```
    pub fn would_execute(&self, session: u32, id: u32, item: &[u8]) -> Option<usize>
        ensures limit { result ≡ item_execution_limit self.now.connections session id item.now }
        // What `Router::execute` requires of the request behind the item's sequence count, and of the limit.
        ensures request { IfSome result (λ max_size. 4 ≤ length item.now) }
        ensures from { IfSome result (λ max_size. 8 ≤ max_size) }
        ensures to { IfSome result (λ max_size. max_size ≤ REPLY_LIMIT) }
    {
        self.table.would_execute(session, id, item)
    }

    /// Whether a connection with this O->T ID is open, in any session. Each comparison of IDs adds 1 to `steps`.
    /// There are at most as many as the number of open connections has binary digits, so at most 7.
    pub fn find(&self, id: u32, steps: &mut Steps) -> bool
        requires { steps.old.count ≤ 18446744073709551608 }
        ensures found { result ≡ list_any (has_id id) self.now.connections }
        ensures bound { steps.new.count ≤ steps.old.count + binary_digits (length self.now.connections) }
        ensures seven { steps.new.count ≤ steps.old.count + 7 }
        ensures rises { steps.old.count ≤ steps.new.count }
    {
        self.table.find(id, steps)
    }

    /// How many connections are open.
    pub fn len(&self) -> usize
        ensures count { result ≡ length self.now.connections }
        ensures most { result ≤ 64 }
    {
        self.table.len()
    }

    /// The connection at this position. Positions start at 0 and follow the order of opening.
    pub fn connection_info(&self, position: usize) -> ConnectionInfo
        requires { position < length self.now.connections }
        ensures { (d : OpenConnection) → result ≡ connection_info (slice_index_or self.now.connections position d) }
    {
        self.table.connection_info(position)
    }

    /// The next moment at which `expire` ends a connection, in microseconds: the earliest deadline. `None` if no
    /// connection is open.
    pub fn deadline(&self) -> Option<u64>
        ensures { result ≡ earliest_deadline self.now.connections }
    {
        self.table.deadline()
    }

    /// Ends the connections whose deadline is at or before this moment.
    #[inline(always)]
    pub fn expire(&mut self, now: u64)
        ensures { self.new ≡ without_overdue self.old now }
    {
        self.table.expire(now);
    }

    /// Ends the connections of a session.
    pub fn end_session(&mut self, session: u32)
        ensures { self.new ≡ without_session self.old session }
    {
        self.table.end(&Selection::OfSession(session));
    }

    fn close_named(&mut self, session: u32, triad: Triad, reply: &mut ReplyBuf)
        ensures turn { turn self.new reply.new.items ≡ closing_turn self.old session triad }
        ensures fits { length reply.new.items ≤ LONGEST_REPLY }
    {
        let named = Selection::OfSessionWith(session, triad);
        if !self.table.has_any(&named) {
            write_failure(
                ManagerService::ForwardClose,
                ExtendedStatus::ConnectionNotFound,
                triad,
                reply,
            );
            return;
        }
        self.table.end(&named);
        write_close_success(triad, reply);
    }

    fn open_connection(
        &mut self,
        service: ManagerService,
        now: u64,
        opener: Opener,
        opening: &Opening,
        reply: &mut ReplyBuf,
    )
        ensures turn { turn self.new reply.new.items ≡ opening_turn service self.old now opener opening.now }
        ensures refused { general_status reply.new.items ≢ SUCCESS → self.new ≡ self.old }
        ensures opened { general_status reply.new.items ≡ SUCCESS → OpensNext self.old self.new reply.new.items }
        ensures fits { length reply.new.items ≤ LONGEST_REPLY }
    {
        if let Err(extended) = self.check(opener, opening) {
            write_failure(service, extended, opening.triad, reply);
            return;
        }
        let id = self.next_id as u32;
        self.next_id += 1;
        self.table
            .push(id, Connection::new(id, now, opener, opening));
        write_open_success(service, id, opening, reply);
    }

    /// Why an opening is refused: the first check that fails.
    fn check(&self, opener: Opener, opening: &Opening) -> Result<(), ExtendedStatus>
        ensures check { result ≡ opening_check self.now opener.group opening.now }
        ensures can_be { OnOk result (CanBeOpened opening.now) }
        ensures position { OnOk result (length self.now.connections < self.now.places) }
        ensures id { OnOk result (self.now.next_id < 2 ^ 32) }
    {
        opening.check_path(&self.device)?;
        opening.check_fields()?;
        self.check_table(opener, opening.triad)
    }

    /// The checks against the open connections.
    fn check_table(&self, opener: Opener, triad: Triad) -> Result<(), ExtendedStatus>
        ensures check { result ≡ first_failure (table_checks self.now opener.group triad) }
        ensures position { OnOk result (length self.now.connections < self.now.places) }
        ensures id { OnOk result (self.now.next_id < 2 ^ 32) }
    {
        if self.table.has_any(&Selection::WithTriad(triad)) {
            return Err(ExtendedStatus::DoubleOpen);
        }
        if self.table.free() == 0
            || self.next_id > u64::from(u32::MAX)
            || !self.has_share_left(opener)
        {
            return Err(ExtendedStatus::OutOfConnections);
        }
        Ok(())
    }

    /// Whether the opener's group has fewer connections than its share. No group needs no share.
    fn has_share_left(&self, opener: Opener) -> bool
        ensures { result ≡ has_share_left self.now opener.group }
    {
        match opener.group {
            Some(group) => self.table.count(&Selection::OfGroup(group)) < usize::from(self.share),
            None => true,
        }
    }
}
