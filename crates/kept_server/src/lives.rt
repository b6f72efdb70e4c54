//! Rounds of peers, crashes and starts, in any order.

ghost use Rattle.std.specs.Prelude.{◌≡◌, [], IsTrue, OnOk};
ghost use Rattle.enip_keep.specs.Kept.{Kept};
ghost use Rattle.enip_keep.specs.Lives.{IsKeptAfter};
ghost use Rattle.enip_keep.specs.Server.{IsReady};
ghost use Rattle.kept_server.specs.Rounds.{after_round, contents_with, kept_of};

use crate::guest::RoundGuest;
use crate::kept_device::KeptDevice;
use crate::kept_peers::KeptPeers;
use crate::round::RoundInput;
use enip_keep::{Device, Event, Restart, Server, live};
use enip_server::Wire;
use std::alloc::{AllocError, Global};

/// Rounds of peers, crashes and starts, in any order. Whatever a crash leaves at the end is what is kept of a device after
/// rounds in the order of their execution, each on what the start before it found, and with each round among them that
/// went well, so that its answers left. The writes of the guest are in the rounds: what it was told after a round that
/// went well is kept, too.
///
/// `went` says of each event whether it went well.
///
/// # Errors
///
/// `AllocError` if memory is refused for `went`.
pub fn live_peers<W: Wire + Drop, C: KeptDevice + Drop, G: RoundGuest<W>, K: Restart + Drop>(
    alloc: Global,
    server: &mut Server<KeptPeers<W, C, G>, K>,
    events: Vec<Event<RoundInput<W>, C>>,
    guest: &mut G,
    went: &mut Vec<bool>,
) -> Result<(), AllocError>
    requires ready { IsReady K.doubt K.is_up K.kept ⟦<KeptPeers<W, C, G> as Device>⟧.contents
        ⟦<KeptPeers<W, C, G> as Device>⟧.known_kept kept_of server.old }
    requires serving { IsTrue server.old.is_serving }
    requires fresh { went.old.items ≡ [] }
    ensures { K.doubt server.new.keeper ≡ 0 → OnOk result ((left : Kept) → K.may_leave server.new.keeper left
        → IsKeptAfter (λ input requests. requests.input ≡ input) (after_round C.saved) kept_of
        (λ configuration found. contents_with C.saved (C.waiting configuration found) found
        (C.started configuration found)) events.items went.new.items
        (⟦<KeptPeers<W, C, G> as Device>⟧.contents server.old.device) left) }
{
    live(alloc, server, events, guest, went)
}
