//! What takes part in the rounds of a device whose state is kept.

ghost use Rattle.std.specs.Prelude.{ℕ, ◌≡◌};
ghost use Rattle.cip_ledger.specs.Device.{Device};
ghost use Rattle.enip_server.specs.declared.held_wire.HeldWire.{HeldWire};
ghost use Rattle.enip_server.specs.Rounds.{IsWritten, ServerState, state_of, written_all};
ghost use Rattle.enip_server.specs.ShownConnections.{shown_connections};
ghost use Rattle.kept_server.specs.Rounds.{IsAdmission};

use cip_owner::{NoOwner, Owner};
use enip_server::{HeldWire, NoWatcher, Peers, Watcher, Wire};

/// Takes part in the rounds of a device whose state is kept, and is not a part of the device: the port of its owner, for
/// example. In a round it makes the device's own writes first, and names the owner of the round. Then it watches the
/// frames of peers, and at the end it may admit frames that wait (`enip_server::GatedWire`).
///
/// What it learns in a round is not kept before the round is over. So nothing that it wants to send may leave until then:
/// no answer to a write, no command, and no question.
///
/// ```
/// impl<W: GatedWire + HasAddress + Drop> RoundGuest<W> for Port {
///     type RoundOwner = PreparedReply;
///
///     // the reply that was prepared is not left for another round
///     ghost begins = { λ now port before next after reply. next.prepared ≡ None };
///
///     ghost admits = { λ now port before next after. IsPass W.address_of now port before next after };
///
///     fn begin_round(&mut self, _now: u64, peers: &mut Peers<HeldWire<W>>) -> PreparedReply {
///         self.receive(peers);
///         self.take_reply()
///     }
///
///     fn admit_frames(&mut self, now: u64, peers: &mut Peers<HeldWire<W>>) {
///         peers.admit_frames(now, self);
///     }
/// }
/// ```
pub trait RoundGuest<W: Wire + Drop>: Watcher<HeldWire<W>> {
    /// The owner of the device in a round, who is asked about each request to it.
    type RoundOwner: Owner + Drop;

    // What the guest makes of the beginning of a round, at a time: the guest and the peers before and after it, and the
    // owner of the round.
    ghost begins: { ℕ → Self → ServerState (HeldWire W) → Self → ServerState (HeldWire W) → Self.RoundOwner → Type 0 };

    // What it makes of the end.
    ghost admits: { ℕ → Self → ServerState (HeldWire W) → Self → ServerState (HeldWire W) → Type 0 };

    /// A round begins at the time `now`. The guest may make own writes of the device. It changes nothing else of the peers,
    /// and sends nothing. Returns the owner of this round.
    fn begin_round(&mut self, now: u64, peers: &mut Peers<HeldWire<W>>) -> Self::RoundOwner
        ensures begun { begins now self.old (state_of peers.old) self.new (state_of peers.new) result }
        ensures writes { IsWritten (state_of peers.old) (state_of peers.new) }
        ensures seen { Self.has_seen self.old (state_of peers.old).adapter.state.shared.objects →
            Self.has_seen self.new (state_of peers.new).adapter.state.shared.objects };

    /// The frames of the round at the time `now` were served. The guest may admit frames that wait, for the next round. It
    /// changes nothing else of the peers, and sends nothing.
    fn admit_frames(&mut self, now: u64, peers: &mut Peers<HeldWire<W>>)
        ensures admitted { admits now self.old (state_of peers.old) self.new (state_of peers.new) }
        ensures admission { IsAdmission W.left W.written now (state_of peers.old) (state_of peers.new) }
        ensures seen { (device : Device) → Self.has_seen self.old device → Self.has_seen self.new device };
}

/// Nobody takes part: nobody is asked, and no frame is admitted. The device shows how many connections are open.
impl<W: Wire + Drop> RoundGuest<W> for NoWatcher {
    type RoundOwner = NoOwner;

    ghost begins = { λ now guest before next after owner. after ≡ written_all (shown_connections before) before };

    ghost admits = { λ now guest before next after. after ≡ before };

    fn begin_round(&mut self, _now: u64, peers: &mut Peers<HeldWire<W>>) -> NoOwner {
        peers.show_connections();
        NoOwner
    }

    fn admit_frames(&mut self, _now: u64, _peers: &mut Peers<HeldWire<W>>) {}
}
