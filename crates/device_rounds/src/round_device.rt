//! What is served in rounds of peers: a device whose state is kept, or one of which nothing is kept.

ghost use Rattle.std.specs.Prelude.{◌≡◌};
ghost use Rattle.enip_server.specs.Rounds.{ServerState, state_of};
ghost use Rattle.enip_server.specs.declared.peers.RoundEnd.{RoundEnd};

use enip_keep::Device;
use enip_server::{FrameWire, HeldWire, Peers, RoundEnd, Wire};
use kept_server::{KeptDevice, KeptPeers, RoundGuest, RoundInput};

/// A device that is served in rounds of peers on wires that give out frames (`FrameWire`), with a guest of type `G`.
pub trait RoundDevice<W: Wire + Drop, G>: Device<Input = RoundInput<FrameWire<W>>, Guest = G> {
    /// The wire of a peer: around the one that was accepted, if its answers are held back.
    type PeerWire: Wire + Drop;

    // The peers, and the end of the last round.
    ghost state: { Self → ServerState Self.PeerWire };

    ghost last: { Self → RoundEnd };

    /// The peers, to be read between rounds.
    fn peers(&self) -> &Peers<Self::PeerWire>
        ensures { state_of result.now ≡ state self.now };

    /// The end of the last round.
    fn last_round(&self) -> RoundEnd
        ensures { result ≡ last self.now };
}

impl<W: Wire + Drop, C: KeptDevice, G: RoundGuest<FrameWire<W>>> RoundDevice<W, G>
    for KeptPeers<FrameWire<W>, C, G> {
    type PeerWire = HeldWire<FrameWire<W>>;

    ghost state = { λ d. state_of d.peers };

    ghost last = { λ d. d.last_round };

    fn peers(&self) -> &Peers<HeldWire<FrameWire<W>>> {
        KeptPeers::peers(self)
    }

    fn last_round(&self) -> RoundEnd {
        KeptPeers::last_round(self)
    }
}
