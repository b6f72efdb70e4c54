//! Who decides when a request to the owner of the device is served.

ghost use Rattle.std.specs.Prelude.{◌≡◌, ℕ, Bool};
ghost use Rattle.cip_objects.specs.OwnRequests.{Asked, asked_in};

use cip_owner::OwnRequest;
use enip_adapter::Peer;

/// Decides when a request to the owner of the device is served. Until then its peer waits, and others are served.
///
/// ```
/// impl<W> Gate<W> for Answers {
///     // whether the owner has answered
///     ghost shows = { λ answers peer wire asked numbered admitted after. after ≡ answers };
///
///     fn admits(&mut self, peer: Peer, wire: &W, request: &OwnRequest<'_>, is_numbered: bool) -> bool {
///         is_numbered || self.answered.contains(&peer.handle())
///     }
/// }
/// ```
pub trait Gate<W> {
    // What the gate decides about the request of a peer on this wire, and the gate afterwards: whether the request is in a
    // numbered command, and whether it is admitted.
    ghost shows: { Self → ℕ → W → Asked → Bool → Bool → Self → Type 0 };

    /// The frame of this peer that waits asks this of the owner. `is_numbered` says that a command of the ledger embeds
    /// the request. Returns whether the frame is admitted: it is served in the next round. If not, it is shown again.
    fn admits(&mut self, peer: Peer, wire: &W, request: &OwnRequest<'_>, is_numbered: bool) -> bool
        ensures { shows self.old peer wire.now (asked_in request.now) is_numbered result self.new };
}
