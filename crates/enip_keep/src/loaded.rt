//! What is kept, as it was loaded before a device starts from it.
ghost use Rattle.std.specs.Prelude.{◌≡◌, ◌⊎◌, ◌≤◌, All, IfErr, OnOk};
ghost use Rattle.enip_keep.specs.Causes.{IsCause};
ghost use Rattle.enip_keep.specs.Kept.{Kept, pairs_of, set_all, IsKeepable};

use crate::server::keep;
use crate::{Entry, KeepError, Keeper};

/// Commits changes, if there are any, that were made before in the entries that were loaded from the keeper. So a device can
/// start from these entries: see `Server::start_from`.
///
/// # Errors
///
/// `Memory` if memory is refused, `Storage` if the storage fails or is full. Any error requires a new start, which finds all
/// of the changes or none.
///
/// ```
/// let mut entries = keeper.load(alloc)?;
/// set_all(alloc, &mut entries, &changes)?;
/// commit_loaded(&mut keeper, &entries, &changes)?;
/// let server = Server::start_from(alloc, keeper, &entries, &configuration)?;
/// ```
pub fn commit_loaded<K: Keeper>(
    keeper: &mut K,
    entries: &[Entry],
    changes: &[Entry],
) -> Result<(), KeepError>
    requires up { K.doubt keeper.old ≡ 0 → K.is_up keeper.old }
    requires made { K.doubt keeper.old ≡ 0 → pairs_of entries.now ≡ set_all (pairs_of changes.now) (K.kept keeper.old) }
    requires keys { All IsKeepable changes.now }
    ensures up { OnOk result (K.doubt keeper.new ≡ 0 → K.is_up keeper.new) }
    ensures loaded { OnOk result (K.doubt keeper.new ≡ 0 → pairs_of entries.now ≡ K.kept keeper.new) }
    ensures kept { OnOk result (K.doubt keeper.new ≡ 0
        → K.kept keeper.new ≡ set_all (pairs_of changes.now) (K.kept keeper.old)) }
    ensures cause { K.doubt keeper.new ≡ 0 → IfErr result (IsCause (K.faults keeper.old) (K.faults keeper.new)) }
    ensures crash { K.doubt keeper.new ≡ 0 → (c : Kept) → K.may_leave keeper.new c
        → K.may_leave keeper.old c ⊎ (c ≡ set_all (pairs_of changes.now) (K.kept keeper.old)) }
    ensures doubt { K.doubt keeper.old ≤ K.doubt keeper.new }
    ensures faults { K.faults keeper.old ≤ K.faults keeper.new }
{
    keep(keeper, changes)
}
