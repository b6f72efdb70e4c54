//! Rounds of an adapter, crashes and starts, in any order.

ghost use Rattle.std.specs.Prelude.{◌≡◌, [], map, IsTrue, OnOk};
ghost use Rattle.std.specs.List.{AllByRecursion};
ghost use Rattle.enip_keep.specs.Kept.{Kept};
ghost use Rattle.enip_keep.specs.Server.{IsReady};
ghost use Rattle.kept_server.specs.Rounds.{kept_of};
ghost use Rattle.kept_adapter.specs.Restarts.{IsServing, RestartsTables, IsKeptOfAdapter};

use crate::adapter_start::AdapterStart;
use enip_keep::{Device, Event, Restart, Server};
use enip_server::Wire;
use kept_server::{KeptPeers, RoundGuest, RoundInput, live_peers};
use std::alloc::{AllocError, Global};

/// Rounds of peers, crashes and starts of an adapter, in any order. Whatever a crash leaves at the end is what is kept of
/// the adapter after the calls of rounds and the restarts, in order, with each round that went well among them, so that
/// its answers left. The writes of the guest, such as those that an owner's lines ask for, are calls of rounds, too. The
/// laws of `laws` hold of these steps. The premises are that what was found at first is nothing, or
/// has the keys of the adapter, that no value waits at first, and that each configuration has the same tables, and values
/// that its attributes can have.
///
/// `went` says of each event whether it went well.
///
/// # Errors
///
/// `AllocError` if memory is refused for `went`.
pub fn live_adapter<W: Wire + Drop, G: RoundGuest<W>, K: Restart + Drop>(
    alloc: Global,
    server: &mut Server<KeptPeers<W, AdapterStart, G>, K>,
    events: Vec<Event<RoundInput<W>, AdapterStart>>,
    guest: &mut G,
    went: &mut Vec<bool>,
) -> Result<(), AllocError>
    requires ready { IsReady K.doubt K.is_up K.kept ⟦<KeptPeers<W, AdapterStart, G> as Device>⟧.contents
        ⟦<KeptPeers<W, AdapterStart, G> as Device>⟧.known_kept kept_of server.old }
    requires serving { IsTrue server.old.is_serving }
    requires fresh { went.old.items ≡ [] }
    ensures { let contents = ⟦<KeptPeers<W, AdapterStart, G> as Device>⟧.contents server.old.device in
        IsServing contents → AllByRecursion (RestartsTables contents.adapter.state.shared.objects) events.items
        → K.doubt server.new.keeper ≡ 0 → OnOk result ((left : Kept) → K.may_leave server.new.keeper left
        → IsKeptOfAdapter contents events.items went.new.items left) }
{
    live_peers(alloc, server, events, guest, went)
}
