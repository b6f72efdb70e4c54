//! What follows for every list of calls of the manager, with any router.
//!
//! The functions do nothing: their clauses are the laws.
ghost use Rattle.std.specs.Prelude.{◌≡◌, ℕ, ◌≤◌, ◌<◌, ◌*◌, ◌^◌, true, List, [], Option, Some, None, Ok, length, filter, find};
ghost use Rattle.std.specs.Prelude.{All, AllPairs, IfSome, IfNone};
ghost use Rattle.std.specs.List.{list_all, AllByRecursion, Any, Contains};
ghost use Rattle.std.specs.Option.{MatchOption};
ghost use Rattle.cip_message.specs.declared.key.Device.{Device};
ghost use Rattle.cip_message.specs.Open.{Layout, Open};
ghost use Rattle.cip_message.specs.Router.{general_status};
ghost use Rattle.cip_manager.specs.declared.connection.Connection.{Connection};
ghost use Rattle.cip_manager.specs.declared.connection.Opener.{Opener};
ghost use Rattle.cip_manager.specs.declared.opening.Opening.{Opening};
ghost use Rattle.cip_manager.specs.Connection.{is_named, count_of_group, earliest_deadline};
ghost use Rattle.cip_class3.specs.Item.{message_of};
ghost use Rattle.cip_manager.specs.Items.{item_turn, item_execution_limit};
ghost use Rattle.cip_manager.specs.Manager.{ManagerState, no_connection_with_share};
ghost use Rattle.cip_manager.specs.Opening.{open_in, opening_in, earlier_check, has_share_left, opening_check, open_turn_in};
ghost use Rattle.cip_manager.specs.Replies.{SUCCESS};
ghost use Rattle.cip_manager.specs.Table.{AreOpenUntil};
ghost use Rattle.cip_manager.specs.Runs.{ManagerCall, State, state_after, ids_drawn, CountsFrom, IsOfOther, of_session};
ghost use Rattle.cip_manager.specs.Runs.{is_open_after_all, is_spared, AreApart, is_of_one_of};

use cip_message::Router;

/// Calls of other sessions, and timeouts, leave a session exactly those of its connections whose deadline no moment
/// reached. Each keeps its count, kept reply and deadline.
pub fn sessions_apart<R: Router>()
    ensures { (session : ℕ) (state : State R) (calls : List ManagerCall) → AllByRecursion (IsOfOther session) calls →
        of_session session (state_after R.after R.answer state calls).manager.connections
        ≡ filter (is_open_after_all calls) (of_session session state.manager.connections) }
{}

/// Calls for other sessions, and for other IDs and triads of the same session, do not change a connection, while no
/// moment reaches its deadline. It keeps its count, kept reply and deadline, and is still found.
pub fn connections_apart<R: Router>()
    ensures { (session id : ℕ) (connection : Connection) (state : State R) (calls : List ManagerCall) →
        find (is_named session id) state.manager.connections ≡ Some connection →
        list_all (is_spared connection) calls ≡ true →
        find (is_named session id) (state_after R.after R.answer state calls).manager.connections ≡ Some connection }
{}

/// `Manager::would_execute` says what `Manager::connected` does with the item: the router executes the request with
/// this limit, or stays as it is.
pub fn execution_foreseen<R: Router>()
    ensures executed { (connections : List Connection) (now session id : ℕ) (bytes : List ℕ) (router : R) →
        IfSome (item_execution_limit connections session id bytes) (λ max_size.
        (item_turn R.after R.answer connections now session id bytes router).router
        ≡ R.after router max_size (message_of bytes)) }
    ensures not_executed { (connections : List Connection) (now session id : ℕ) (bytes : List ℕ) (router : R) →
        IfNone (item_execution_limit connections session id bytes)
        ((item_turn R.after R.answer connections now session id bytes router).router ≡ router) }
{}

/// The IDs of connections count up by one from the next ID. So none is used twice.
pub fn ids_rise<R: Router>()
    ensures { (state : State R) (calls : List ManagerCall) →
        CountsFrom state.manager.next_id (ids_drawn R.after R.answer state calls) }
{}

/// Whatever the calls of a manager that began with no connection, no two open connections have the same ID or the
/// same triad. They are in the order of their IDs.
pub fn connections_differ<R: Router>()
    ensures { (places share first_id : ℕ) (device : Device) (router : R) (calls : List ManagerCall) →
        AllPairs AreApart (state_after R.after R.answer (record {
          manager = no_connection_with_share places share first_id device;
          router = router;
        }) calls).manager.connections }
{}

/// Whatever the calls of a manager that began with no connection, no group has more connections than its share.
pub fn groups_keep_to_their_share<R: Router>()
    ensures { (places share first_id : ℕ) (device : Device) (router : R) (calls : List ManagerCall) (group : ℕ) →
        count_of_group group (state_after R.after R.answer (record {
          manager = no_connection_with_share places share first_id device;
          router = router;
        }) calls).manager.connections
        ≤ share }
{}

/// An opening of a group with fewer connections than its share succeeds if the checks before the last pass, a slot is
/// free and an ID is left. So nothing that other groups do refuses it, except that they take slots, IDs and the three
/// numbers of the connection.
pub fn opens_within_the_share()
    ensures { (layout : Layout) (manager : ManagerState) (now : ℕ) (opener : Opener) (bytes : List ℕ)
        (request : Open) → open_in layout bytes ≡ Ok request →
        earlier_check manager (opening_in layout request) ≡ Ok tt →
        has_share_left manager opener.group ≡ true →
        length manager.connections < manager.places → manager.next_id < 2 ^ 32 →
        general_status (open_turn_in layout manager now opener bytes).reply ≡ SUCCESS }
{}

/// If the shares of some groups together are at most all slots, and each open connection is of one of them, a group of
/// these with fewer connections than its share finds a free slot.
pub fn a_slot_for_each_share<R: Router>()
    ensures { (places share first_id : ℕ) (device : Device) (router : R) (calls : List ManagerCall)
        (groups : List ℕ) (group : ℕ) →
        let connections = (state_after R.after R.answer (record {
          manager = no_connection_with_share places share first_id device;
          router = router;
        }) calls).manager.connections in
        length groups * share ≤ places → All (λ connection. is_of_one_of groups connection ≡ true) connections →
        Contains groups group → count_of_group group connections < share → length connections < places }
{}

/// A share of all slots refuses nothing.
pub fn a_share_of_all_slots_limits_nothing()
    ensures { (manager : ManagerState) (group : Option ℕ) (opening : Opening) → manager.places ≤ manager.share →
        opening_check manager group opening ≡ opening_check manager None opening }
{}

/// The earliest deadline is that of a connection, and none of them ends before it. It is `None` if and only if
/// there is no connection.
pub fn earliest_is_a_deadline()
    ensures { (connections : List Connection) → MatchOption (earliest_deadline connections) (connections ≡ [])
        (λ moment. Any (λ connection. connection.deadline ≡ moment) connections × AreOpenUntil moment connections) }
{}
