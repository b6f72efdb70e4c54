//! Rounds, crashes and starts, in any order.
ghost use Rattle.std.specs.Prelude.{◌≡◌, ◌⊎◌, ◌≤◌, [], IsTrue, OnOk, ◌↔◌};
ghost use Rattle.enip_keep.specs.Kept.{Kept};
ghost use Rattle.enip_keep.specs.Server.{IsReady};
ghost use Rattle.enip_keep.specs.Lives.{AreAfter, IsKeptAfter, Makes};

use crate::{Device, Restart, Server};
use std::alloc::{AllocError, Global};

/// What happens to a server.
#[derive(Drop)]
pub enum Event<Input, Configuration> {
    /// A round with this input. If it fails, a crash may have come inside it.
    Round(Input),
    /// The power is cut at this moment, and the device starts with this configuration.
    Restart(Configuration),
}

/// Rounds, crashes and starts, in any order. `guest` takes part in all of the rounds: nothing is said of it, so it may be
/// any, and what it does in a round is among the requests of that round.
///
/// `went` says of each event whether it went well.
///
/// # Errors
///
/// `AllocError` if memory is refused for `went`.
pub fn live<D: Device + Drop, K: Restart + Drop>(
    alloc: Global,
    server: &mut Server<D, K>,
    events: Vec<Event<D::Input, D::Configuration>>,
    guest: &mut D::Guest,
    went: &mut Vec<bool>,
) -> Result<(), AllocError>
where
    D::Configuration: Drop,
    requires ready { IsReady K.doubt K.is_up K.kept D.contents D.known_kept D.kept_part server.old }
    requires serving { IsTrue server.old.is_serving }
    requires fresh { went.old.items ≡ [] }
    ensures kept { K.doubt server.new.keeper ≡ 0 → OnOk result ((c : Kept) → K.may_leave server.new.keeper c
        → IsKeptAfter D.brings D.executed D.kept_part D.started
        events.items went.new.items (D.contents server.old.device) c) }
    ensures contents { K.doubt server.new.keeper ≡ 0 → OnOk result (IsTrue server.new.is_serving
        → AreAfter D.brings D.executed D.kept_part D.started
        events.items went.new.items (D.contents server.old.device) (D.contents server.new.device)) }
    ensures ready { IsReady K.doubt K.is_up K.kept D.contents D.known_kept D.kept_part server.new }
    ensures doubt { K.doubt server.old.keeper ≤ K.doubt server.new.keeper }
{
    for event in events {
        let well = happen(alloc, server, event, guest);
        went.push(well)?;
    }
    Ok(())
}

/// One event. Returns whether it went well.
fn happen<D: Device + Drop, K: Restart + Drop>(
    alloc: Global,
    server: &mut Server<D, K>,
    event: Event<D::Input, D::Configuration>,
    guest: &mut D::Guest,
) -> bool
where
    D::Configuration: Drop,
    requires { IsReady K.doubt K.is_up K.kept D.contents D.known_kept D.kept_part server.old }
    ensures ready { IsReady K.doubt K.is_up K.kept D.contents D.known_kept D.kept_part server.new }
    ensures serves { IsTrue result ↔ IsTrue server.new.is_serving }
    ensures made { K.doubt server.new.keeper ≡ 0 → IsTrue result → Makes D.brings D.executed D.started
        (λ c. IsTrue server.old.is_serving × (c ≡ D.contents server.old.device)) (K.may_leave server.old.keeper)
        event (D.contents server.new.device) }
    ensures settled { K.doubt server.new.keeper ≡ 0 → IsTrue result → (c : Kept) → K.may_leave server.new.keeper c
        → c ≡ D.kept_part (D.contents server.new.device) }
    ensures crash { K.doubt server.new.keeper ≡ 0 → (c : Kept) → K.may_leave server.new.keeper c
        → K.may_leave server.old.keeper c ⊎ ((contents : D.Contents) × Makes D.brings D.executed D.started
        (λ c. IsTrue server.old.is_serving × (c ≡ D.contents server.old.device)) (K.may_leave server.old.keeper)
        event contents × (c ≡ D.kept_part contents)) }
    ensures doubt { K.doubt server.old.keeper ≤ K.doubt server.new.keeper }
{
    match event {
        Event::Round(input) => server.round(input, guest).is_ok(),
        Event::Restart(configuration) => server.restart(alloc, &configuration).is_ok(),
    }
}
