//! What follows from the rules of the two ends, for whole lists of items and calls.
//!
//! The functions do nothing: their clauses are the laws.

ghost use Rattle.std.specs.Prelude.{◌≡◌, ℕ, ◌+◌, ◌%◌, ◌<◌, ◌≤◌, ◌^◌, List, length, slice_index, IfSome, IfNone};
ghost use Rattle.cip_class3.specs.Item.{message_of, NeighboursDiffer};
ghost use Rattle.cip_class3.specs.TargetRule.{TargetState, max_reply_size, execution_limit, target_step};
ghost use Rattle.cip_class3.specs.declared.target.Received.TheVariants.{Executed};
ghost use Rattle.cip_class3.specs.Deliveries.{Delivery, AreDelivered, items_of, requests_of, router_after, answers_to};
ghost use Rattle.cip_class3.specs.Deliveries.{router_after_requests, answers_once};
ghost use Rattle.cip_class3.specs.OriginatorRule.{originator_at_opening, MOST_UNACCEPTED};
ghost use Rattle.cip_class3.specs.Calls.{OriginatorCall, events_of, counts_taken, taken_since_accepted, AcceptedOnce};

use cip_message::Router;

/// A target executes each request that reaches it once, however often it arrives, and answers it with the same
/// bytes each time.
///
/// The requests arrive in order, each any number of times in a row. Each has a different sequence count than the
/// one before it.
pub fn each_request_once<R: Router>()
    // The router has executed each request once, in that order.
    ensures once { (target : TargetState) (router : R) (deliveries : List Delivery) →
        AreDelivered target deliveries →
        router_after R.after R.answer target router (items_of deliveries)
        ≡ router_after_requests R.after R.answer (max_reply_size target) router (requests_of deliveries) }
    // Each arrival is answered with the request's count and the reply of its one execution.
    ensures same_bytes { (target : TargetState) (router : R) (deliveries : List Delivery) →
        AreDelivered target deliveries →
        answers_to R.after R.answer target router (items_of deliveries)
        ≡ answers_once R.after R.answer (max_reply_size target) router deliveries }
{}

/// `Target::would_execute` says what `Target::receive` does with the item: it executes the request with this limit, or
/// executes nothing and leaves the router as it is.
pub fn execution_foreseen<R: Router>()
    ensures executed { (target : TargetState) (router : R) (bytes : List ℕ) →
        IfSome (execution_limit target bytes) (λ max_size.
        ((target_step R.after R.answer target router bytes).received ≡ Executed)
        × ((target_step R.after R.answer target router bytes).router ≡ R.after router max_size (message_of bytes))) }
    ensures not_executed { (target : TargetState) (router : R) (bytes : List ℕ) →
        IfNone (execution_limit target bytes)
        (((target_step R.after R.answer target router bytes).received ≡ Executed → ⊥)
        × ((target_step R.after R.answer target router bytes).router ≡ router)) }
{}

/// The originator's requests have consecutive sequence counts, whatever the calls: the n-th request, from 0, has
/// the first count plus n, modulo 65,536.
pub fn counts_in_order()
    ensures { (first o_to_t_size t_to_o_size n : ℕ) (calls : List OriginatorCall) → first < 2 ^ 16 →
        n < length (counts_taken (events_of (originator_at_opening first o_to_t_size t_to_o_size) calls)) →
        slice_index (counts_taken (events_of (originator_at_opening first o_to_t_size t_to_o_size) calls)) n
        ≡ (first + n) % 65536 }
{}

/// Two requests that an originator accepts one after the other never have the same count, whatever the calls.
pub fn counts_differ()
    ensures { (first o_to_t_size t_to_o_size : ℕ) (calls : List OriginatorCall) → first < 2 ^ 16 →
        NeighboursDiffer (counts_taken (events_of (originator_at_opening first o_to_t_size t_to_o_size) calls)) }
{}

/// Between two accepted replies, an originator never accepts so many requests that a count is used again.
pub fn fewer_than_counts()
    ensures { (first o_to_t_size t_to_o_size : ℕ) (calls : List OriginatorCall) →
        taken_since_accepted 0 (events_of (originator_at_opening first o_to_t_size t_to_o_size) calls)
        ≤ MOST_UNACCEPTED }
{}

/// At most one reply is accepted for each request, whatever the calls.
pub fn one_reply_each()
    ensures { (first o_to_t_size t_to_o_size : ℕ) (calls : List OriginatorCall) →
        AcceptedOnce (events_of (originator_at_opening first o_to_t_size t_to_o_size) calls) }
{}
