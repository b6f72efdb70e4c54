//! The laws of a connection, over whole lists of events.
//!
//! The functions do nothing: the clauses of each are the law. The events begin at an opening, when nothing is held, no
//! request is pending, and nothing was sent. They are any list of submits, resends, in-order deliveries with any losses
//! and repeats, other sessions' requests, writes of the device itself, closings and give-ups. So the count may wrap any
//! number of times. A router's change by a write of the device is any function (`written`).

ghost use Rattle.cip_message.specs.Router.{RepliesWellFormed};
ghost use Rattle.enip_adapter.specs.OwnWrites.{OwnWrite};
ghost use Rattle.enip_bench.specs.Bound.{bound_law, refusals_law, raised_law};
ghost use Rattle.enip_bench.specs.FrameAsks.{asks_in_frames, calls_in_frames, first_asks_in_frames, other_asks_in_frames};
ghost use Rattle.enip_bench.specs.FrameAsks.{one_ask_in_frames, unasked_in_frames};
ghost use Rattle.enip_bench.specs.FrameBound.{raised_in_frames};
ghost use Rattle.enip_bench.specs.FrameLaw.{frame_law};
ghost use Rattle.enip_bench.specs.FrameOnce.{accepted_in_frames, accepted_order_in_frames, answers_in_frames};
ghost use Rattle.enip_bench.specs.FrameOnce.{same_frames, once_in_frames, requests_in_frames, first_in_frames};
ghost use Rattle.enip_bench.specs.FrameOnce.{written_in_frames, unchanged_in_frames};
ghost use Rattle.enip_bench.specs.JustOpened.{opening_law};
ghost use Rattle.enip_bench.specs.ObjectsRun.{steps_law, run_law};
ghost use Rattle.enip_bench.specs.WorldLaws.{agreement_law, once_law, order_law, writes_law, window_law, arrival_law};
ghost use Rattle.enip_bench.specs.WorldLaws.{accepted_law, accepted_order_law, answer_law, same_bytes_law};

use cip_objects::Router;

/// Both ends, by their rules, show what the numbered world shows: the router's state, every item sent back, each
/// accepted reply with the number of its request, and the originator's stage.
pub fn worlds_agree<R: Router>()
    ensures { RepliesWellFormed R.answer → (written : OwnWrite → R → R) →
        agreement_law R.after R.answer written }
{}

/// In the numbered world, no request is executed twice, and requests are executed in the order of their numbers.
pub fn executed_once()
    ensures once { once_law }
    ensures order { order_law }
{}

/// In the numbered world, the log has each write of the device itself once, in the order of the events.
pub fn written_once()
    ensures { writes_law }
{}

/// In the numbered world, a request is executed if and only if it reached the target while the target was open.
pub fn executed_on_arrival()
    ensures { arrival_law }
{}

/// A reply that the originator accepts is the reply of its request's only execution. At most one reply is accepted for
/// each request.
pub fn accepted_once<R: Router>()
    ensures reply { RepliesWellFormed R.answer → (written : OwnWrite → R → R) →
        accepted_law R.after R.answer written }
    ensures order { RepliesWellFormed R.answer → (written : OwnWrite → R → R) →
        accepted_order_law R.after R.answer written }
{}

/// Every answer to a request has the request's count and the reply of its only execution, so the same bytes each time.
pub fn answered_alike<R: Router>()
    ensures reply { RepliesWellFormed R.answer → (written : OwnWrite → R → R) →
        answer_law R.after R.answer written }
    ensures same_bytes { RepliesWellFormed R.answer → (written : OwnWrite → R → R) →
        same_bytes_law R.after R.answer written }
{}

/// Fewer requests were submitted since the last accepted reply than there are counts.
pub fn fewer_than_counts()
    ensures { window_law }
{}

/// A request is refused as one too many if and only if 65,535 were submitted since the last accepted reply. Both worlds
/// refuse the same requests, for the same reasons. So the worlds agree while the bound holds, and it holds after every
/// list of events.
pub fn refused_at_the_bound<R: Router>()
    ensures bound { bound_law }
    ensures refusals { RepliesWellFormed R.answer → (written : OwnWrite → R → R) →
        refusals_law R.after R.answer written }
{}

/// The bound can't be raised. Suppose a request is executed and its reply accepted, and 65,535 more are submitted,
/// given up and lost. If one more were taken, it would have the count of the first one. An open target would not
/// execute it, but send the first one's reply again, and the originator would accept that as the reply to the last one.
pub fn bound_cannot_be_raised<R: Router>()
    ensures { RepliesWellFormed R.answer → (written : OwnWrite → R → R) →
        raised_law R.after R.answer written }
{}

/// At the objects, a log of the numbered world is a run of requests and of the device's own writes, in order: the same
/// contents after it, and the same reply at each position. Without such writes it is a run of requests alone.
pub fn log_is_a_run()
    ensures steps { steps_law }
    ensures run { run_law }
{}

/// Once the client has registered and opened its connection, the whole adapter and the whole client show what the
/// numbered world shows: the objects, the bytes of every frame sent back, each accepted reply with the number of its
/// request, and the client's stage. Between the two ends are the bytes of whole frames. A second session has requests
/// of its own executed, of any bytes, the device itself writes, and the connection ends by timeout.
pub fn frames_agree()
    ensures { frame_law }
{}

/// Over whole frames, a reply that the client accepts is the reply of its request's only execution. At most one reply
/// is accepted for each request.
pub fn frames_accepted_once()
    ensures reply { accepted_in_frames }
    ensures order { accepted_order_in_frames }
{}

/// Every frame sent back answers a request, with the request's count and the reply of its only execution, so with the
/// same bytes each time.
pub fn frames_answered_alike()
    ensures reply { answers_in_frames }
    ensures same_bytes { same_frames }
{}

/// Over whole frames, each request is executed at most once: when its first frame reaches the open adapter. Nothing
/// else changes the objects, except requests of another session and the device's own writes, each of which changes them
/// once, in order.
pub fn frames_executed_once()
    ensures once { once_in_frames }
    ensures sent { requests_in_frames }
    ensures first { first_in_frames }
    ensures written { written_in_frames }
    ensures unchanged { unchanged_in_frames }
{}

/// Over whole frames, the owner of the device is asked what the log asks, in order: each request of the connection asks
/// at most once, when its first frame reaches the open adapter, and each request of another session when it comes. No
/// repeat asks anything.
pub fn frames_asked_once()
    ensures log { asks_in_frames }
    ensures first { first_asks_in_frames }
    ensures other { other_asks_in_frames }
    ensures unasked { unasked_in_frames }
    ensures one { one_ask_in_frames }
    ensures calls { calls_in_frames }
{}

/// Over whole frames, the bound can't be raised. If a client took one more request after the same events, the adapter
/// would answer its frame with the first request's reply, which it had kept, and the client would accept that reply.
pub fn frames_bound_cannot_be_raised()
    ensures { raised_in_frames }
{}

/// After the opening of a new adapter and a new client, the connection is open at both ends, with the same IDs and
/// sizes. The target holds nothing, no request was executed, and the client's next count is the first count that it
/// wants.
pub fn ends_just_opened()
    ensures { opening_law }
{}
