//! What takes part in the rounds of a device of which nothing is kept: its owner, or nobody.

ghost use Rattle.std.specs.Prelude.{ℕ, ◌≡◌};
ghost use Rattle.enip_server.specs.Rounds.{IsWritten, ServerState, state_of, written_all};
ghost use Rattle.enip_server.specs.ShownConnections.{shown_connections};

use cip_owner::{NoOwner, Owner};
use enip_server::{NoWatcher, Peers, Watcher, Wire};

/// Takes part in the rounds of a device of which nothing is kept, as a `RoundGuest` of `kept_server` does in those of a device
/// whose state is kept. The answers to peers leave at once. What the guest sends waits for the end of the round all the same
/// (`GuestSockets::end_round`).
pub trait UnkeptGuest<W: Wire + Drop>: Watcher<W> {
    /// The owner of the device in a round, who is asked about each request to it.
    type RoundOwner: Owner + Drop;

    // What the guest makes of the beginning of a round, at a time: the guest and the peers before and after it, and the
    // owner of the round.
    ghost begins: { ℕ → Self → ServerState W → Self → ServerState W → Self.RoundOwner → Type 0 };

    // What it makes of the end.
    ghost admits: { ℕ → Self → ServerState W → Self → ServerState W → Type 0 };

    /// A round begins at the time `now`. The guest may make own writes of the device. It changes nothing else of the peers,
    /// and sends nothing. Returns the owner of this round.
    fn begin_round(&mut self, now: u64, peers: &mut Peers<W>) -> Self::RoundOwner
        ensures begun { begins now self.old (state_of peers.old) self.new (state_of peers.new) result }
        ensures writes { IsWritten (state_of peers.old) (state_of peers.new) };

    /// The frames of the round at the time `now` were served. The guest may admit frames that wait, for the next round, and
    /// make own writes. Returns whether a wire may be ready now because of that.
    fn admit_frames(&mut self, now: u64, peers: &mut Peers<W>) -> bool
        ensures { admits now self.old (state_of peers.old) self.new (state_of peers.new) };
}

/// Nobody takes part: nobody is asked, and no frame is admitted. The device shows how many connections are open.
impl<W: Wire + Drop> UnkeptGuest<W> for NoWatcher {
    type RoundOwner = NoOwner;

    ghost begins = { λ now guest before next after owner. after ≡ written_all (shown_connections before) before };

    ghost admits = { λ now guest before next after. after ≡ before };

    fn begin_round(&mut self, _now: u64, peers: &mut Peers<W>) -> NoOwner {
        peers.show_connections();
        NoOwner
    }

    fn admit_frames(&mut self, _now: u64, _peers: &mut Peers<W>) -> bool {
        false
    }
}
