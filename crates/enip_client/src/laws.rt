//! Laws that hold for every list of calls of a client. Each law is the contract of a function that does nothing. It is
//! stated over the same definitions as the contracts of the calls.

ghost use Rattle.std.specs.Prelude.{ℕ, List, [], ◌≡◌, ◌<◌, ◌^◌, false, Some, None, Err};
ghost use Rattle.std.specs.List.{concat, AllByRecursion};
ghost use Rattle.cip_class3.specs.OriginatorRule.{originator_at_opening};
ghost use Rattle.enip_wire.specs.Stream.{Cut};
ghost use Rattle.enip_client.specs.declared.fault.ClientFault.{ClientFault};
ghost use Rattle.enip_client.specs.declared.fault.SubmitFault.{SubmitFault};
ghost use Rattle.enip_client.specs.declared.wants.Wants.{Wants};
ghost use Rattle.enip_client.specs.Calls.{registers, opens, asks, submits, closes, unregisters, resends, gives_up};
ghost use Rattle.enip_client.specs.Hears.{HeardEvent};
ghost use Rattle.enip_client.specs.Client.{ClientState, new_client, fed, fed_unless};
ghost use Rattle.enip_client.specs.Runs.{Call, Event, after_calls, after_events, frames_lent, lent_by_events};
ghost use Rattle.enip_client.specs.Runs.{heard_events_of_calls, heard_events_of_events, events_of_calls, events_of_call, after_call};
ghost use Rattle.enip_client.specs.Runs.{heard_events_of_call, lent_by_call, frame_before, heard_events_before, heard_in};
ghost use Rattle.enip_client.specs.Runs.{taken_by_calls, frames_of_events, IsOfBytes, FeedsPieces, contexts_lent, CountFrom};
ghost use Rattle.enip_client.specs.Runs.{seen_of_calls, AnsweredOnce, originator_calls, originator_after};
ghost use Rattle.enip_client.specs.Runs.{frames_submitted, ItemsFrom, exchanges, RepliedOnce};

/// For every list of calls, the client is in the state to which their events lead: its calls that take no bytes, and
/// the whole frames that arrived. The frames that it lends and what it hears are those of the events, for all calls
/// together and for each one.
pub fn answers_of_events()
    ensures state { (c : ClientState) (calls : List Call) →
        (after_calls c calls).state ≡ after_events c.state (events_of_calls c calls) }
    ensures lent { (c : ClientState) (calls : List Call) →
        frames_lent c calls ≡ lent_by_events c.state (events_of_calls c calls) }
    ensures heard { (c : ClientState) (calls : List Call) →
        heard_events_of_calls c calls ≡ heard_events_of_events c.state (events_of_calls c calls) }
    ensures each { (c : ClientState) (call : Call) →
        ((after_call c call).state ≡ after_events c.state (events_of_call c call))
        × (frame_before (lent_by_call c call) [] ≡ lent_by_events c.state (events_of_call c call))
        × (heard_events_before (heard_events_of_call c call) [] ≡ heard_events_of_events c.state (events_of_call c call)) }
{}

/// From a new client on, whatever calls come between: the bytes taken of the stream are the frames that are heard,
/// followed by the bytes held. These are the frames and the rest of the stream's cut.
pub fn frames_of_the_stream()
    ensures { (wants : Wants) (calls : List Call) → AllByRecursion IsOfBytes calls →
        Cut (taken_by_calls (new_client wants) calls) (frames_of_events (events_of_calls (new_client wants) calls))
        (after_calls (new_client wants) calls).held }
{}

/// How the stream is cut into pieces does not matter. After any calls, take two lists of pieces that join to the same
/// bytes and feed each piece until all of it is taken or a fault lasts: both hear the same in the same order and leave
/// the same client. Every list of pieces can be fed this way.
pub fn cuts_change_nothing()
    ensures heard_event { (wants : Wants) (calls : List Call) (pieces others : List (List ℕ)) (heard_event outcome : List HeardEvent)
        (last end : ClientState) → concat pieces ≡ concat others →
        FeedsPieces (after_calls (new_client wants) calls) pieces heard_event last →
        FeedsPieces (after_calls (new_client wants) calls) others outcome end →
        heard_in heard_event ≡ heard_in outcome }
    ensures client { (wants : Wants) (calls : List Call) (pieces others : List (List ℕ)) (heard_event outcome : List HeardEvent)
        (last end : ClientState) → concat pieces ≡ concat others →
        FeedsPieces (after_calls (new_client wants) calls) pieces heard_event last →
        FeedsPieces (after_calls (new_client wants) calls) others outcome end →
        last ≡ end }
    ensures some { (wants : Wants) (calls : List Call) (pieces : List (List ℕ)) →
        (heard_event : List HeardEvent) × ((last : ClientState) × FeedsPieces (after_calls (new_client wants) calls) pieces heard_event last) }
{}

/// No context comes twice in 2^64 frames: the frames that `register`, `open`, `unconnected` and `close` lend have the
/// contexts 1, 2, 3, .., in this order and modulo 2^64.
pub fn contexts_count()
    ensures { (wants : Wants) (calls : List Call) → CountFrom 1 (contexts_lent (new_client wants) calls) }
{}

/// Each reply to a session, an open, an unconnected request or a close is heard once, after its own request and before
/// the next one. No reply is heard without a request.
pub fn heard_once()
    ensures { (wants : Wants) (calls : List Call) → AnsweredOnce (seen_of_calls (new_client wants) calls) }
{}

/// The client's connection is an originator's: whatever calls come, the originator in the client is in the state to
/// which its own calls lead. These are the submits, resends, items and give-ups of the open connection.
pub fn connection_of_an_originator()
    ensures { (wants : Wants) (calls : List Call) → (after_calls (new_client wants) calls).state.originator
        ≡ originator_after (originator_at_opening wants.first_count wants.o_to_t_size wants.t_to_o_size)
        (originator_calls (new_client wants).state (events_of_calls (new_client wants) calls)) }
{}

/// The items that `submit` lends have consecutive counts from the first one on, modulo 65,536.
pub fn counts_follow()
    ensures { (wants : Wants) (calls : List Call) → wants.first_count < 2 ^ 16 →
        ItemsFrom wants.first_count (frames_submitted (new_client wants) calls) }
{}

/// At most one reply is accepted for each request that was submitted, and it is a reply to the service of that request,
/// whatever is resent, lost, repeated or given up.
pub fn one_reply_each()
    ensures { (wants : Wants) (calls : List Call) → RepliedOnce (exchanges (new_client wants) calls) }
{}

/// A lasting fault ends everything. From then on no call changes the client, no frame is lent, nothing is heard, no
/// byte is taken, and each call that can report a fault reports this one.
pub fn faults_last()
    ensures same { (c : ClientState) (fault : ClientFault) (calls : List Call) → c.state.fault ≡ Some fault →
        after_calls c calls ≡ c }
    ensures lent { (c : ClientState) (fault : ClientFault) (calls : List Call) → c.state.fault ≡ Some fault →
        frames_lent c calls ≡ [] }
    ensures heard { (c : ClientState) (fault : ClientFault) (calls : List Call) → c.state.fault ≡ Some fault →
        heard_events_of_calls c calls ≡ [] }
    ensures taken { (c : ClientState) (fault : ClientFault) (piece : List ℕ) → c.state.fault ≡ Some fault →
        (fed c piece).taken ≡ 0 }
    ensures answered { (c : ClientState) (fault : ClientFault) (request : List ℕ) → c.state.fault ≡ Some fault →
        (registers c.state ≡ Err fault) × (opens c.state ≡ Err fault) × (asks c.state request ≡ Err fault)
        × (submits c.state request ≡ Err (SubmitFault.Client fault)) × (closes c.state ≡ Err fault)
        × (unregisters c.state ≡ Err fault) × (resends c.state ≡ None) × (gives_up c.state ≡ false) }
{}
