//! The owner of a device as the guest of its rounds.

ghost use Rattle.std.specs.Prelude.{◌≡◌};
ghost use Rattle.enip_server.specs.Rounds.{IsWritten, ServerState, state_of};
ghost use Rattle.owner_port.specs.Asking.{IsPass, has_no_reply};

use crate::link::OwnerLink;
use device_sockets::{GuestSockets, OwnerLog, UnkeptGuest};
use enip_adapter::Adapter;
use enip_server::{GatedWire, HeldWire, Peers, RoundEnd, Watcher};
use kept_server::RoundGuest;
use mio::Registry;
use owner_port::{HasAddress, PreparedReply};
use std::io;

impl<W: HasAddress, L: OwnerLog + Drop> Watcher<W> for OwnerLink<L> {
    ghost use Rattle.owner_port.specs.Ports.{HasSeen};

    ghost has_seen = { λ link device. HasSeen link.port device };

    fn served(&mut self, wire: &W, adapter: &Adapter) {
        self.port.see_frame(wire.address(), adapter);
    }
}

impl<W: GatedWire + HasAddress + Drop, L: OwnerLog + Drop> RoundGuest<W> for OwnerLink<L> {
    ghost use Rattle.enip_server.specs.Held.{held_admitted, held_waiting};

    type RoundOwner = PreparedReply;

    // The reply that was prepared is for this round, and not left for another one.
    ghost begins = { λ now link before next after reply. has_no_reply next.port };

    ghost admits = { λ now link before next after. IsPass (held_waiting W.waiting) (held_admitted W.admitted)
        (λ held. W.address_of held.wire) now link.port before next.port after };

    fn begin_round(&mut self, now: u64, peers: &mut Peers<HeldWire<W>>) -> PreparedReply {
        self.receive(now, peers);
        self.port.mark(peers);
        self.port.take_reply()
    }

    fn admit_frames(&mut self, now: u64, peers: &mut Peers<HeldWire<W>>) {
        // The release after the round says whether a wire may be ready.
        self.ask(now, peers);
    }
}

impl<W: GatedWire + HasAddress + Drop, L: OwnerLog + Drop> UnkeptGuest<W> for OwnerLink<L> {
    type RoundOwner = PreparedReply;

    ghost begins = { λ now link before next after reply. has_no_reply next.port };

    ghost admits = { λ now link before next after. (asked : ServerState W)
        × IsPass W.waiting W.admitted W.address_of now link.port before next.port asked × IsWritten asked after };

    fn begin_round(&mut self, now: u64, peers: &mut Peers<W>) -> PreparedReply {
        self.receive(now, peers);
        self.port.take_reply()
    }

    fn admit_frames(&mut self, now: u64, peers: &mut Peers<W>) -> bool {
        let is_ready = self.ask(now, peers);
        // Nothing is kept, so a command is marked as soon as it waits.
        self.port.mark(peers);
        is_ready
    }
}

impl<L: OwnerLog + Drop> GuestSockets for OwnerLink<L> {
    // The peers that have ended are those of the round.
    ghost ends_round = { λ now before end adapter after result. result.ended ≡ end.ended };

    fn register(&mut self, registry: &Registry) -> io::Result<()> {
        OwnerLink::register(self, registry)
    }

    fn mark_ready(&mut self, token: usize, ends: bool) -> bool {
        OwnerLink::mark_ready(self, token, ends)
    }

    fn end_round(
        &mut self,
        now: u64,
        registry: &Registry,
        end: RoundEnd,
        adapter: &Adapter,
    ) -> RoundEnd {
        self.admit(now, registry, adapter);
        self.send(now, end, adapter)
    }

    fn next_moment(&self) -> Option<u64> {
        OwnerLink::next_moment(self)
    }
}
