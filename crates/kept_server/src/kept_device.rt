//! What a device is made from, and what of it is kept.

ghost use Rattle.std.specs.Prelude.{ℕ, List, [], ◌≡◌, ◌⊎◌, ◌↔◌, true, IsTrue, IfOk, IfErr, OnOk};
ghost use Rattle.enip_adapter.specs.Calls.{AdapterState, Call};
ghost use Rattle.enip_adapter.specs.Runs.{after_calls};
ghost use Rattle.enip_keep.specs.declared.entry.KeepError.TheVariants.{Memory, Refused};
ghost use Rattle.enip_keep.specs.Kept.{Kept, pairs_of};
ghost use Rattle.kept_server.specs.Changes.{keys_of, rise, are_small};

use enip_adapter::Adapter;
use enip_keep::{Entry, KeepError};
use std::alloc::{AllocError, Global};

/// What a device is made from, and what of its adapter is kept over a restart.
///
/// `saved` is what is kept of an adapter, as entries under its `keys`. These keys rise, and no call of the adapter
/// changes them. `started` is the adapter that starts from what was kept, and `waiting` names the values from which
/// nothing was taken then.
pub trait KeptDevice {
    // The entries of an adapter, and their keys.
    ghost saved: { AdapterState → Kept };

    ghost keys: { AdapterState → List ℕ };

    // The adapter that starts from these entries.
    ghost started: { Self → Kept → AdapterState };

    // The keys of the values from which nothing is taken: they wait.
    ghost waiting: { Self → Kept → List ℕ };

    // These entries are not those of such a device.
    ghost refuses: { Self → Kept → Type 0 };

    /// For how long a peer may send nothing, in microseconds.
    fn idle_timeout(&self) -> u64;

    /// Makes the adapter from the entries that are kept.
    ///
    /// # Errors
    ///
    /// `Memory` if memory is refused. `Refused` if these entries are not those of such a device.
    fn start(&self, alloc: Global, entries: &[Entry]) -> Result<Adapter, KeepError>
        ensures started { IfOk result (λ a. a ≡ started self.now (pairs_of entries.now)) }
        ensures rising { IfOk result (λ a. rise (keys a) ≡ true) }
        ensures accepted { OnOk result (¬ refuses self.now (pairs_of entries.now)) }
        ensures cause { IfErr result (λ e. (e ≡ Memory)
            ⊎ ((e ≡ Refused) × refuses self.now (pairs_of entries.now))) };

    /// Makes the adapter of a device of which nothing is kept. Its keys may be in any order.
    ///
    /// # Errors
    ///
    /// `AllocError` if memory is refused.
    fn first(&self, alloc: Global) -> Result<Adapter, AllocError>
        ensures { IfOk result (λ a. a ≡ started self.now []) };

    /// The keys of the values from which the start takes nothing, as one that has another size. What is kept under such a
    /// key stays until the value changes.
    ///
    /// # Errors
    ///
    /// `AllocError` if memory is refused.
    fn waiting(&self, alloc: Global, entries: &[Entry]) -> Result<Vec<u64>, AllocError>
        ensures { IfOk result (λ keys. keys.items ≡ waiting self.now (pairs_of entries.now)) };

    /// Whether these are the entries of an adapter: those that `save` would write. It copies nothing.
    fn is_saved(adapter: &Adapter, entries: &[Entry]) -> bool
        ensures { IsTrue result ↔ (pairs_of entries.now ≡ saved adapter.now) };

    /// Replaces these entries with those of an adapter. It allocates nothing if they are entries of the same adapter that
    /// were as long before.
    ///
    /// # Errors
    ///
    /// `AllocError` if memory is refused.
    fn save(alloc: Global, adapter: &Adapter, into: &mut Vec<Entry>) -> Result<(), AllocError>
        ensures saved { OnOk result (pairs_of into.new.items ≡ saved adapter.now) }
        ensures small { OnOk result (are_small (pairs_of into.new.items) ≡ true) };

    ghost under_keys: { (a : AdapterState) → keys_of (saved a) ≡ keys a };

    ghost same_keys: { (a : AdapterState) (calls : List Call) → keys (after_calls a calls) ≡ keys a };
}
