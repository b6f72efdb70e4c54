//! Laws that hold for every list of calls of the adapter. Each law is the contract of a function that does nothing. It
//! is stated over the same definitions as the contracts of the calls.

ghost use Rattle.std.specs.Prelude.{ℕ, List, [], ◌∷◌, ◌++◌, ◌≡◌, ◌≤◌, ◌||◌, not, true, false, Some, filter};
ghost use Rattle.std.specs.Option.{option_map};
ghost use Rattle.std.specs.List.{flat_map, concat, list_any, AllByRecursion};
ghost use Rattle.cip_manager.specs.declared.connection.Connection.{Connection};
ghost use Rattle.cip_manager.specs.Runs.{of_session};
ghost use Rattle.enip_wire.specs.Stream.{Cut};
ghost use Rattle.cip_ledger.specs.Device.{Device};
ghost use Rattle.enip_adapter.specs.declared.adapter.Limits.{Limits};
ghost use Rattle.enip_adapter.specs.declared.adapter.Shares.{Shares};
ghost use Rattle.enip_adapter.specs.declared.peer.Session.{Session};
ghost use Rattle.enip_adapter.specs.declared.shared.Listen.{Listen};
ghost use Rattle.enip_adapter.specs.Adapter.{shared_adapter};
ghost use Rattle.enip_adapter.specs.DeviceRuns.{device_law, run_law, objects_law, commands_once_law, numbers_rise_law};
ghost use Rattle.enip_adapter.specs.Discovery.{discovered};
ghost use Rattle.enip_adapter.specs.LedgerSteps.{ledger_steps_law};
ghost use Rattle.enip_adapter.specs.OwnerLaws.{one_asked_law, asked_alike_law, repeat_law, given_law, unasked_law};
ghost use Rattle.enip_adapter.specs.OwnerLaws.{answered_law, nobody_law, calls_law, asked_once_law};
ghost use Rattle.enip_adapter.specs.WithdrawLaws.{never_handed_law, slot_says_law, never_executed_law, no_earlier_waits_law};
ghost use Rattle.enip_adapter.specs.QueueLaws.{queue_steps_law, handed_over_law, pending_law, finished_answer_law};
ghost use Rattle.enip_adapter.specs.QueueLaws.{keeps_slot_law};
ghost use Rattle.enip_adapter.specs.RightsLaws.{unchanged_law, unasked_by_reading_law, readers_law, readers_ask_nothing_law};
ghost use Rattle.enip_adapter.specs.ShareLaws.{peers_share_law, connections_share_law, refused_begin_law};
ghost use Rattle.enip_adapter.specs.ShareLaws.{under_share_law, slot_for_each_share_law};
ghost use Rattle.enip_adapter.specs.EndCauses.{endings_in_calls, IsReportedClosed, IsForwardClosed};
ghost use Rattle.enip_adapter.specs.Endings.{EndingsState, updated};
ghost use Rattle.enip_adapter.specs.Turn.{Event, Answer, answers, after, session_of};
ghost use Rattle.enip_adapter.specs.Turn.Output.{Sends};
ghost use Rattle.enip_adapter.specs.Calls.Call.{Feeds, Ticks};
ghost use Rattle.enip_adapter.specs.Calls.{AdapterState, Call, call_meaning, after_call, call_answer, bytes_held};
ghost use Rattle.enip_adapter.specs.Runs.{after_calls, call_answers, events_of_calls, answers_by_call, outputs_in};
ghost use Rattle.enip_adapter.specs.Runs.{IsForOther, moments_of_calls, is_open_at_all};
ghost use Rattle.enip_adapter.specs.Runs.{RisesFrom, handles_in, ids_of_events};
ghost use Rattle.enip_adapter.specs.Runs.{Run, at_end, taken_in, frames_in, FeedsPieces, visible_answers, progress_of};
ghost use Rattle.enip_adapter.specs.Runs.{TimedPiece, joined, FeedsTimedPieces};
ghost use Rattle.enip_adapter.specs.Serving.{is_peer_served};
ghost use Rattle.enip_adapter.specs.AdapterActions.{AdapterAction, LeadTo, AmountTo, IsActionForOther};

/// For every list of calls, for any number of peers: the adapter is in the state to which the events of these calls
/// lead, and the answers to these events, call by call, are the answers of the calls. What the calls output is what the
/// events output. A call closes if one of its events does, or if its piece is dropped.
pub fn answers_of_events()
    ensures state { (a : AdapterState) (calls : List Call) →
        (after_calls a calls).state ≡ after a.state (events_of_calls a calls) }
    ensures answers { (a : AdapterState) (calls : List Call) →
        answers a.state (events_of_calls a calls) ≡ flat_map (λ own. own) (answers_by_call a calls) }
    ensures output { (a : AdapterState) (calls : List Call) →
        outputs_in (call_answers a calls) ≡ outputs_in (answers a.state (events_of_calls a calls)) }
    ensures close { (a : AdapterState) (call : Call) → (call_answer a call).close
        ≡ ((call_meaning a call).dropped || list_any (λ x. x.close) (answers a.state (call_meaning a call).events)) }
{}

/// A serving amounts to feeds. Whatever list of calls and servings is done to an adapter, it ends in the state to which
/// a list of calls leads, in which each serving is replaced by feeds of its peer at its time (the clause `feeds` of
/// `serve`). If all actions are for other peers than one, so are these calls. So `peers_apart`, `handles_rise` and all
/// other laws about lists of calls also hold with servings among them.
pub fn servings_are_calls()
    ensures calls { (a last : AdapterState) (actions : List AdapterAction) → LeadTo a actions last →
        (calls : List Call) × (AmountTo actions calls × (last ≡ after_calls a calls)) }
    ensures others { (peer : ℕ) (actions : List AdapterAction) (calls : List Call) → AmountTo actions calls →
        AllByRecursion (IsActionForOther peer) actions → AllByRecursion (IsForOther peer) calls }
{}

/// Calls for other peers, begins of other peers, and ticks change neither a peer's session nor the bytes held of its
/// next frame. They keep exactly those of a session's connections whose deadline has not been reached, each with its
/// count, kept reply and deadline.
pub fn peers_apart()
    ensures session { (peer : ℕ) (session : Session) (a : AdapterState) (calls : List Call) →
        AllByRecursion (IsForOther peer) calls → session_of a.state peer ≡ Some session →
        session_of (after_calls a calls).state peer ≡ Some session }
    ensures held { (peer : ℕ) (a : AdapterState) (calls : List Call) → AllByRecursion (IsForOther peer) calls →
        bytes_held (after_calls a calls).held peer ≡ bytes_held a.held peer }
    ensures connections { (peer : ℕ) (a : AdapterState) (calls : List Call) → AllByRecursion (IsForOther peer) calls →
        of_session peer (after_calls a calls).state.shared.manager.connections
        ≡ filter (is_open_at_all (moments_of_calls a.state.shared.moment calls))
        (of_session peer a.state.shared.manager.connections) }
{}

/// Session handles are never used again: they rise from the next one.
pub fn handles_rise()
    ensures { (a : AdapterState) (calls : List Call) →
        RisesFrom a.state.next_handle (handles_in (call_answers a calls)) }
{}

/// O->T IDs are never used again: whatever happens to a new adapter, the IDs of the connections that open rise from its
/// first ID.
pub fn ids_rise()
    ensures { (device : Device) (listen : Listen) (limits : Limits) (shares : Shares) (events : List Event) →
        RisesFrom limits.first_id (ids_of_events (shared_adapter device listen limits shares).state events) }
{}

/// Whatever calls are made, the objects and the command ledger change only by requests and by the device's own writes:
/// they are those after `steps_of_calls`, the requests in the frames that are served and these writes, in order. Among
/// calls without such writes they are those after a run of the requests, so all laws of `cip_ledger` hold for frames,
/// over any peers, sessions, connections, timeouts and new connections. If no command in doubt is settled, they are those
/// after steps of the ledger, in which the device finishes queued commands: so `answers_never_go_back` of `cip_ledger`
/// holds too. Two laws are written out, and hold with all writes among the calls: no number of an originator is executed
/// twice, and the numbers rise, unless the originator's slot is freed in between.
pub fn device_runs_requests()
    ensures device { device_law }
    ensures run { run_law }
    ensures steps { ledger_steps_law }
    ensures objects { objects_law }
    ensures once { commands_once_law }
    ensures rising { numbers_rise_law }
{}

/// From a peer's begin on, whatever other calls come between: the bytes taken of its stream are the frames that are
/// served to it, followed by the bytes held. These are the frames and the rest of the stream's cut.
pub fn frames_of_the_stream()
    ensures { (peer : ℕ) (run : Run peer) →
        Cut (taken_in peer run) (frames_in peer run) (bytes_held (at_end peer run).held peer) }
{}

/// So the bytes alone decide which frames they are. In any two runs, each with its own pieces, times and calls for
/// other peers: if the same bytes are taken, the same frames are served and the same bytes are held. If the peer also
/// has the same handle in both runs, its session has become the same, whatever its rights and its group: whether it is
/// registered, and whether it is closed.
pub fn frames_by_bytes_alone()
    ensures frames { (peer other : ℕ) (run : Run peer) (second : Run other) →
        taken_in peer run ≡ taken_in other second →
        (frames_in peer run ≡ frames_in other second)
        × (bytes_held (at_end peer run).held peer ≡ bytes_held (at_end other second).held other) }
    ensures session { (peer : ℕ) (run second : Run peer) → taken_in peer run ≡ taken_in peer second →
        option_map progress_of (session_of (at_end peer run).state peer)
        ≡ option_map progress_of (session_of (at_end peer second).state peer) }
{}

/// A stream closes its peer at one byte, whatever its pieces, the times and the calls for other peers. If one run has
/// closed the peer, no run takes a byte more of this stream, and each run that took as many bytes has closed it. So two
/// runs over one stream that have both closed it took the same bytes. A feed answers `close` exactly if the peer is not
/// served after it.
pub fn closes_at_one_byte()
    ensures last { (peer : ℕ) (run second : Run peer) (more : List ℕ) →
        is_peer_served (at_end peer run) peer ≡ false → taken_in peer second ≡ taken_in peer run ++ more →
        (more ≡ []) × (is_peer_served (at_end peer second) peer ≡ false) }
    ensures same { (peer : ℕ) (run second : Run peer) (rest later : List ℕ) →
        taken_in peer run ++ rest ≡ taken_in peer second ++ later →
        is_peer_served (at_end peer run) peer ≡ false → is_peer_served (at_end peer second) peer ≡ false →
        taken_in peer run ≡ taken_in peer second }
    ensures told { (a : AdapterState) (now peer : ℕ) (piece : List ℕ) → (call_answer a (Feeds now peer piece)).close
        ≡ not (is_peer_served (after_call a (Feeds now peer piece)) peer) }
{}

/// A piece that is not empty is taken in part at least, or the answer is that the peer's connection is closed.
pub fn progress()
    ensures { (device : Device) (listen : Listen) (limits : Limits) (shares : Shares) (calls : List Call)
        (now peer b : ℕ) (bs : List ℕ) → let a = after_calls (shared_adapter device listen limits shares) calls in
        (call_answer a (Feeds now peer (b ∷ bs))).close ≡ false →
        1 ≤ (call_meaning a (Feeds now peer (b ∷ bs))).taken }
{}

/// How a peer's stream is cut into pieces does not matter. After any calls, take two lists of pieces that join to the
/// same bytes and feed both at the same time, each piece until all of it is taken or the peer is closed: both have the
/// same answers and leave the same adapter. Every list of pieces can be fed this way.
pub fn cuts_change_nothing()
    ensures answers { (device : Device) (listen : Listen) (limits : Limits) (shares : Shares) (calls : List Call)
        (now peer : ℕ) (pieces others : List (List ℕ)) (answers replies : List Answer) (last end : AdapterState) →
        concat pieces ≡ concat others →
        FeedsPieces now peer (after_calls (shared_adapter device listen limits shares) calls) pieces answers last →
        FeedsPieces now peer (after_calls (shared_adapter device listen limits shares) calls) others replies end →
        visible_answers answers ≡ visible_answers replies }
    ensures adapter { (device : Device) (listen : Listen) (limits : Limits) (shares : Shares) (calls : List Call)
        (now peer : ℕ) (pieces others : List (List ℕ)) (answers replies : List Answer) (last end : AdapterState) →
        concat pieces ≡ concat others →
        FeedsPieces now peer (after_calls (shared_adapter device listen limits shares) calls) pieces answers last →
        FeedsPieces now peer (after_calls (shared_adapter device listen limits shares) calls) others replies end →
        last ≡ end }
    ensures some { (device : Device) (listen : Listen) (limits : Limits) (shares : Shares) (calls : List Call)
        (now peer : ℕ) (pieces : List (List ℕ)) → (answers : List Answer) × ((last : AdapterState) ×
        FeedsPieces now peer (after_calls (shared_adapter device listen limits shares) calls) pieces answers last) }
{}

/// Nor do the times of the pieces matter, as long as the same bytes complete something at the same times. After any
/// calls, take two lists of pieces that join to the same bytes, each piece with a time of its own, and feed both as
/// before. If the current times at the feeds that complete a frame are the same (or a header whose length is over the
/// limit, or that find the peer closed), both have the same answers. If the last current times are also the same, both
/// leave the same adapter. Every list of pieces can be fed this way.
pub fn times_between_change_nothing()
    ensures answers { (device : Device) (listen : Listen) (limits : Limits) (shares : Shares) (calls : List Call)
        (peer : ℕ) (pieces others : List TimedPiece) (moments : List ℕ) (answers replies : List Answer)
        (last end : AdapterState) → joined pieces ≡ joined others →
        FeedsTimedPieces peer (after_calls (shared_adapter device listen limits shares) calls) pieces moments answers last →
        FeedsTimedPieces peer (after_calls (shared_adapter device listen limits shares) calls) others moments replies end →
        visible_answers answers ≡ visible_answers replies }
    ensures adapter { (device : Device) (listen : Listen) (limits : Limits) (shares : Shares) (calls : List Call)
        (peer : ℕ) (pieces others : List TimedPiece) (moments : List ℕ) (answers replies : List Answer)
        (last end : AdapterState) → joined pieces ≡ joined others →
        FeedsTimedPieces peer (after_calls (shared_adapter device listen limits shares) calls) pieces moments answers last →
        FeedsTimedPieces peer (after_calls (shared_adapter device listen limits shares) calls) others moments replies end →
        last.state.shared.moment ≡ end.state.shared.moment → last ≡ end }
    ensures some { (device : Device) (listen : Listen) (limits : Limits) (shares : Shares) (calls : List Call)
        (peer : ℕ) (pieces : List TimedPiece) → (moments : List ℕ) × ((answers : List Answer) × ((last : AdapterState) ×
        FeedsTimedPieces peer (after_calls (shared_adapter device listen limits shares) calls) pieces moments answers last)) }
{}

/// Why connections ended. Of the connections that were open at an update, the next one reports those that the calls in
/// between ended, each with the reason that these calls say, and with no other: its deadline was reached by the current
/// time; or its peer was ended; or its peer was closed, by an UnRegisterSession or by a length over the limit; or none
/// of these. A connection that is reported as closed, by an update after each call, was closed by its own session: the
/// call completed a frame with a Forward_Close of its triad.
pub fn endings_have_causes()
    ensures reasons { (device : Device) (listen : Listen) (limits : Limits) (shares : Shares)
        (earlier calls : List Call) (e : EndingsState) → let a = after_calls (shared_adapter device listen limits shares) earlier in
        (updated (updated e a) (after_calls a calls)).ended ≡ endings_in_calls a calls }
    ensures closed { (device : Device) (listen : Listen) (limits : Limits) (shares : Shares) (earlier : List Call)
        (call : Call) →
        let a = after_calls (shared_adapter device listen limits shares) earlier in
        AllByRecursion (λ (c : Connection). IsReportedClosed a call c → IsForwardClosed a call c)
        a.state.shared.manager.connections }
{}

/// Discovery answers as TCP does. The answer to a datagram is what any peer gets that sends the same bytes, registered
/// or not, at any time, if it is served and none of its bytes are held. The peer is not closed by it, and the adapter
/// is then in the state to which the time alone would have brought it.
pub fn discovery_is_as_over_tcp()
    ensures answer { (a : AdapterState) (now peer : ℕ) (datagram bytes : List ℕ) → is_peer_served a peer ≡ true →
        bytes_held a.held peer ≡ [] → discovered a.state.shared datagram ≡ Some bytes →
        call_answer a (Feeds now peer datagram) ≡ record { output = Sends bytes; close = false } }
    ensures adapter { (a : AdapterState) (now peer : ℕ) (datagram bytes : List ℕ) → is_peer_served a peer ≡ true →
        bytes_held a.held peer ≡ [] → discovered a.state.shared datagram ≡ Some bytes →
        after_call a (Feeds now peer datagram) ≡ after_call a (Ticks now) }
{}

/// The owner of the device is asked each of its own requests that reaches the objects. A feed asks at most one. Neither
/// what is prepared nor what the device writes changes what is asked, but that the end of a queued command of the ledger
/// lets the next one of its originator through. A repeat on a connection asks nothing. A
/// prepared reply goes to the request that is asked: it is the device's reply, then nothing is prepared, and only a set
/// that the owner accepts has changed the objects. A feed that asks nothing leaves what is prepared. If nothing is
/// prepared, a feed that asks `NoOwner` is a feed. What calls ask is what each of them asks, in order. Of the commands
/// that the ledger executes, none asks twice, unless the originator's slot is freed in between.
pub fn owner_is_asked()
    ensures one { one_asked_law }
    ensures alike { asked_alike_law }
    ensures repeat { repeat_law }
    ensures given { given_law }
    ensures answered { answered_law }
    ensures unasked { unasked_law }
    ensures nobody { nobody_law }
    ensures calls { calls_law }
    ensures once { asked_once_law }
{}

/// Queued commands are handed over in order, each until it is done. Whatever calls are made, the queue changes only by the
/// requests of queued services that reach the objects and by the commands that the device finishes: it is the one after
/// these steps, in order. So tickets are numbers in a row. The commands that wait are those that were put into the queue
/// and not finished, in the order of their tickets: none is lost or made up, and none waits again once it is finished.
/// Each command has one result at most, and the last 256 results are kept. A command of the ledger that is pending is one
/// that waits. It keeps its slot until it leaves the queue: until then no later one of its originator is taken. Once
/// the device has finished it, a repeat is answered by the owner's reply, and is not executed again.
pub fn queued_commands_are_handed_over()
    ensures steps { queue_steps_law }
    ensures handed_over { handed_over_law }
    ensures pending { pending_law }
    ensures kept { keeps_slot_law }
    ensures answered { finished_answer_law }
{}

/// A request withdraws a command that waits in the queue only if no owner was handed it. The command is the pending one of
/// an originator, whose slot then says that it was withdrawn. Whatever calls are made afterwards, it does not wait again, so
/// no owner is handed it, and until the slot is freed neither its number nor a smaller one of its originator is executed.
/// A command that is pending keeps its slot as long as it waits. So once a later number of its originator is accepted, no
/// owner is handed it.
pub fn withdrawn_commands_are_never_handed_over()
    ensures handed { never_handed_law }
    ensures slot { slot_says_law }
    ensures executed { never_executed_law }
    ensures later { no_earlier_waits_law }
{}

/// A request that is not a change, by its service and class alone, leaves the device as it was: the objects, the command
/// ledger and the reply that is prepared. It asks the owner of the device nothing.
pub fn unchanged_by_reading()
    ensures device { unchanged_law }
    ensures owner { unasked_by_reading_law }
{}

/// Readers change nothing. Whatever calls are made, with any peers, frames and connections: the objects and the command
/// ledger are those after the requests in the frames of writers that reach the device and the device's own writes, in
/// their order, and the owner of the device is asked what these ask. No frame of a reader is among them, whatever it
/// holds.
pub fn readers_change_nothing()
    ensures device { readers_law }
    ensures owner { readers_ask_nothing_law }
{}

/// Groups keep to their shares. Whatever calls are made, no group has more peers than its share, nor more connections. A
/// begin that is refused changes nothing, and one of a group under its share is not refused for its share. If the shares
/// of some groups together are at most all peer slots, and each peer is of one of these groups, one of them that is under
/// its share is not refused for want of a slot either: so with `shares.peers * n` slots, n groups always get in.
pub fn groups_keep_to_their_share()
    ensures peers { peers_share_law }
    ensures connections { connections_share_law }
    ensures refused { refused_begin_law }
    ensures under { under_share_law }
    ensures slot { slot_for_each_share_law }
{}
