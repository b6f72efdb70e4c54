//! What serves requests, and whose state is kept.
ghost use Rattle.std.specs.Prelude.{◌≡◌, ◌⊎◌, List, All, IfOk, IfErr, OnOk};
ghost use Rattle.enip_keep.specs.declared.entry.KeepError.TheVariants.{Memory, Refused};
ghost use Rattle.enip_keep.specs.Kept.{Kept, pairs_of, set_all, IsKeepable};

use crate::{Entry, KeepError};
use std::alloc::Global;

/// Serves requests in rounds, holds their answers back until it is told to release them, and knows which entries have
/// changed.
///
/// What its rounds execute is `contents`: objects, and sessions and connections too. `kept_part` is what of these is
/// kept, as entries, and `started` is what a start makes of the entries that are kept. Sessions are not among them, so
/// a start finds none. [`Tally`](crate::Tally) is an example.
pub trait Device {
    /// What a device is made from, in addition to the entries that are kept.
    type Configuration;

    /// What a round gets: the time, for example, or the requests themselves.
    type Input: Drop;

    /// What a round works with and the device does not own, such as the port of a program behind it. What a round makes
    /// of it is not kept. `()` if there is none.
    type Guest;

    // What rounds execute, and the requests of a round.
    ghost Contents: { Type 0 };

    ghost Requests: { Type 0 };

    // What a round makes of the contents.
    ghost executed: { Contents → Requests → Contents };

    // The entries that are kept of the contents.
    ghost kept_part: { Contents → Kept };

    // What a start makes of the entries that are kept.
    ghost started: { Self.Configuration → Kept → Contents };

    // These entries are not those of a device with this configuration.
    ghost refuses: { Self.Configuration → Kept → Type 0 };

    // The requests that may come in a round with this input.
    ghost brings: { Self.Input → Requests → Type 0 };

    ghost contents: { Self → Contents };

    // The entries that the device takes to be kept: those that it started from, with the changes up to the last
    // release.
    ghost known_kept: { Self → Kept };

    // Between these two states nothing left the device.
    ghost sends_nothing: { Self → Self → Type 0 };

    // Between these two states the answers to these requests were added to those that are held back.
    ghost holds_answers: { Self → Requests → Self → Type 0 };

    // Between these two states the answers that were held back left, and nothing else did.
    ghost sends_held: { Self → Self → Type 0 };

    /// Makes a device from a configuration and the entries that are kept.
    ///
    /// # Errors
    ///
    /// `Memory` if memory is refused. `Refused` if these entries are not those of such a device.
    fn start(
        alloc: Global,
        configuration: &Self::Configuration,
        entries: &[Entry],
    ) -> Result<Self, KeepError>
        ensures contents { IfOk result (λ d. contents d ≡ started configuration.now (pairs_of entries.now)) }
        ensures known { IfOk result (λ d. known_kept d ≡ pairs_of entries.now) }
        ensures accepted { OnOk result (¬ refuses configuration.now (pairs_of entries.now)) }
        ensures cause { IfErr result (λ e. (e ≡ Memory)
            ⊎ ((e ≡ Refused) × refuses configuration.now (pairs_of entries.now))) };

    /// Serves the requests of a round, and holds their answers back. `guest` may bring requests too. What the round leaves
    /// for the guest reports changes that are not kept yet: it has to wait until the round is over.
    ///
    /// # Errors
    ///
    /// `Memory` if memory is refused. The device is then not served any more.
    fn serve(&mut self, input: Self::Input, guest: &mut Self::Guest) -> Result<(), KeepError>
        ensures served { OnOk result ((requests : Requests) × brings input requests
            × (contents self.new ≡ executed (contents self.old) requests)
            × holds_answers self.old requests self.new) }
        ensures known { known_kept self.new ≡ known_kept self.old }
        ensures silent { sends_nothing self.old self.new }
        ensures cause { IfErr result (λ e. e ≡ Memory) };

    /// The entries that differ from what is kept.
    fn changes(&self) -> &[Entry]
        ensures changes { set_all (pairs_of result.now) (known_kept self.now) ≡ kept_part (contents self.now) }
        ensures keys { All IsKeepable result.now };

    /// Takes the changes to be kept from now on, and lets the answers leave that were held back.
    fn release(&mut self)
        ensures contents { contents self.new ≡ contents self.old }
        ensures known { known_kept self.new ≡ kept_part (contents self.old) }
        ensures sent { sends_held self.old self.new };

    // Nothing leaves a device that is not called.
    ghost silent: { (d : Self) → sends_nothing d d };
}
