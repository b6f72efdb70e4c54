//! The sockets of what takes part in the rounds of a served device: of its owner, or nobody's.

ghost use Rattle.std.specs.Prelude.{ℕ, ◌≡◌, ◌<◌, false};
ghost use Rattle.enip_adapter.specs.Calls.{AdapterState};
ghost use Rattle.enip_server.specs.declared.peers.RoundEnd.{RoundEnd};

use enip_adapter::Adapter;
use enip_server::{NoWatcher, RoundEnd};
use mio::Registry;
use std::io;

/// A guest of the rounds of a device that may have sockets of its own.
pub trait GuestSockets {
    // What the guest makes of the end of a round: the time, the guest before it, the end of the round, the adapter that the
    // round left, the guest after it, and the end that it returns.
    ghost ends_round: { ℕ → Self → RoundEnd → AdapterState → Self → RoundEnd → Type 0 };

    /// Has the system report the sockets of the guest.
    fn register(&mut self, registry: &Registry) -> io::Result<()>;

    /// The system reports the socket with this token. Returns whether it is one of the guest. The tokens below 64 are those of
    /// peers.
    fn mark_ready(&mut self, token: usize, ends: bool) -> bool
        ensures { token < 64 → result ≡ false };

    /// A round is over, and what it has changed is kept. `adapter` is what it left. What the guest sends leaves here, and
    /// nowhere else. Returns the end of the round with what is due for the guest.
    fn end_round(
        &mut self,
        now: u64,
        registry: &Registry,
        end: RoundEnd,
        adapter: &Adapter,
    ) -> RoundEnd
        ensures { ends_round now self.old end adapter.now self.new result };

    /// The earliest time at which a round is due for the guest.
    fn next_moment(&self) -> Option<u64>;
}

/// Nobody has sockets, and nothing is due for nobody.
impl GuestSockets for NoWatcher {
    ghost ends_round = { λ now before end adapter after result. result ≡ end };

    fn register(&mut self, _registry: &Registry) -> io::Result<()> {
        Ok(())
    }

    fn mark_ready(&mut self, _token: usize, _ends: bool) -> bool {
        false
    }

    fn end_round(
        &mut self,
        _now: u64,
        _registry: &Registry,
        end: RoundEnd,
        _adapter: &Adapter,
    ) -> RoundEnd {
        end
    }

    fn next_moment(&self) -> Option<u64> {
        None
    }
}
