//! A server that releases the answers of a round once its changes are kept.
ghost use Rattle.std.specs.Prelude.{◌≡◌, ◌⊎◌, ◌≤◌, false, All, IsTrue, IfOk, IfErr, OnOk, OnErr};
ghost use Rattle.enip_keep.specs.Causes.{IsCause, IsStartCause};
ghost use Rattle.enip_keep.specs.Kept.{Kept, pairs_of, set_all, IsKeepable};
ghost use Rattle.enip_keep.specs.Server.{IsKept, IsReady, IsServed, IsKeptOfRound};
ghost use Rattle.enip_keep.specs.declared.entry.KeepError.TheVariants.{Stopped};

use crate::{Device, Entry, KeepError, Keeper, Restart};
use std::alloc::Global;

/// A device, and the keeper of what is kept of it.
pub struct Server<D: Device + Drop, K: Keeper + Drop> {
    device: D,
    keeper: K,
    /// Whether there was no failure since the last start.
    is_serving: bool,
}

// Written out, so that each exit of a function that owns one calls it, and has no drop of every part.
impl<D: Device + Drop, K: Keeper + Drop> Drop for Server<D, K> {
    fn drop(self) {
        let Server {
            device: _,
            keeper: _,
            is_serving: _,
        } = self;
    }
}

impl<D: Device + Drop, K: Keeper + Drop> Server<D, K> {
    /// Loads what is kept, makes the device from it, and keeps what the start has changed.
    ///
    /// # Errors
    ///
    /// `Memory` if memory is refused. `Storage` if the storage fails. `Refused` if the device refuses what is kept.
    pub fn start(
        alloc: Global,
        mut keeper: K,
        configuration: &D::Configuration,
    ) -> Result<Server<D, K>, KeepError>
        requires { K.doubt keeper ≡ 0 → K.is_up keeper }
        ensures ready { IfOk result (IsReady K.doubt K.is_up K.kept D.contents D.known_kept D.kept_part) }
        ensures serving { IfOk result (λ s. IsTrue s.is_serving) }
        ensures contents { IfOk result (λ s. K.doubt s.keeper ≡ 0
            → D.contents s.device ≡ D.started configuration.now (K.kept keeper)) }
        ensures cause { IfErr result (λ e. (after : K) × (K.doubt keeper ≤ K.doubt after) × (K.doubt after ≡ 0
            → IsStartCause (D.refuses configuration.now (K.kept keeper)) (K.faults keeper) (K.faults after) e)) }
        ensures doubt { IfOk result (λ s. K.doubt keeper ≤ K.doubt s.keeper) }
    {
        let device = start_device(alloc, &mut keeper, configuration)?;
        Ok(Server {
            device,
            keeper,
            is_serving: true,
        })
    }

    /// The same, from entries that were loaded from the keeper since its last commit.
    ///
    /// # Errors
    ///
    /// Those of `start`.
    pub fn start_from(
        alloc: Global,
        mut keeper: K,
        entries: &[Entry],
        configuration: &D::Configuration,
    ) -> Result<Server<D, K>, KeepError>
        requires up { K.doubt keeper ≡ 0 → K.is_up keeper }
        requires loaded { K.doubt keeper ≡ 0 → pairs_of entries.now ≡ K.kept keeper }
        ensures ready { IfOk result (IsReady K.doubt K.is_up K.kept D.contents D.known_kept D.kept_part) }
        ensures serving { IfOk result (λ s. IsTrue s.is_serving) }
        ensures contents { IfOk result (λ s. K.doubt s.keeper ≡ 0
            → D.contents s.device ≡ D.started configuration.now (K.kept keeper)) }
        ensures cause { IfErr result (λ e. (after : K) × (K.doubt keeper ≤ K.doubt after) × (K.doubt after ≡ 0
            → IsStartCause (D.refuses configuration.now (K.kept keeper)) (K.faults keeper) (K.faults after) e)) }
        ensures doubt { IfOk result (λ s. K.doubt keeper ≤ K.doubt s.keeper) }
    {
        let device = start_loaded(alloc, &mut keeper, entries, configuration)?;
        Ok(Server {
            device,
            keeper,
            is_serving: true,
        })
    }

    /// The device.
    pub fn device(&self) -> &D
        ensures { result.now ≡ self.now.device }
    {
        &self.device
    }

    /// Whether there was no failure since the last start.
    pub fn is_serving(&self) -> bool
        ensures { result ≡ self.now.is_serving }
    {
        self.is_serving
    }

    /// Serves a round. Once it returns `Ok`, its answers have left, and every crash leaves what they report. Until then
    /// nothing of what the round left for the guest may leave.
    ///
    /// # Errors
    ///
    /// At any error no answer leaves, and the server serves no more until a start: each further round is `Stopped`, and
    /// changes nothing.
    pub fn round(&mut self, input: D::Input, guest: &mut D::Guest) -> Result<(), KeepError>
        requires { IsReady K.doubt K.is_up K.kept D.contents D.known_kept D.kept_part self.old }
        ensures ready { IsReady K.doubt K.is_up K.kept D.contents D.known_kept D.kept_part self.new }
        ensures served { OnOk result (IsServed D.brings D.contents D.executed
            D.holds_answers D.sends_nothing D.sends_held input self.old.device self.new.device) }
        ensures serving { OnOk result (IsTrue self.old.is_serving × IsTrue self.new.is_serving) }
        ensures durable { K.doubt self.new.keeper ≡ 0 → OnOk result ((c : Kept) → K.may_leave self.new.keeper c
            → c ≡ D.kept_part (D.contents self.new.device)) }
        ensures silent { OnErr result (D.sends_nothing self.old.device self.new.device) }
        ensures cause { K.doubt self.new.keeper ≡ 0 → IsTrue self.old.is_serving → IfErr result
            (IsCause (K.faults self.old.keeper) (K.faults self.new.keeper)) }
        ensures stops { OnErr result (self.new.is_serving ≡ false) }
        ensures stopped { self.old.is_serving ≡ false → (result ≡ Err Stopped) × (self.new ≡ self.old) }
        ensures crash { K.doubt self.new.keeper ≡ 0 → (c : Kept) → K.may_leave self.new.keeper c
            → K.may_leave self.old.keeper c ⊎ (IsTrue self.old.is_serving
            × IsKeptOfRound D.brings D.executed D.kept_part input (D.contents self.old.device) c) }
        ensures doubt { K.doubt self.old.keeper ≤ K.doubt self.new.keeper }
        ensures faults { K.faults self.old.keeper ≤ K.faults self.new.keeper }
    {
        if !self.is_serving {
            return Err(KeepError::Stopped);
        }
        self.is_serving = false;
        self.device.serve(input, guest)?;
        keep(&mut self.keeper, self.device.changes())?;
        self.device.release();
        self.is_serving = true;
        Ok(())
    }
}

impl<D: Device + Drop, K: Restart + Drop> Server<D, K> {
    /// A crash at this moment, and a start with this configuration. The device is made anew from what the start finds.
    ///
    /// # Errors
    ///
    /// At any error the server serves nothing until a start.
    pub fn restart(
        &mut self,
        alloc: Global,
        configuration: &D::Configuration,
    ) -> Result<(), KeepError>
        ensures ready { IsReady K.doubt K.is_up K.kept D.contents D.known_kept D.kept_part self.new }
        ensures serving { OnOk result (IsTrue self.new.is_serving) }
        ensures stops { OnErr result (self.new.is_serving ≡ false) }
        ensures found { K.doubt self.new.keeper ≡ 0 → OnOk result ((found : Kept) × K.may_leave self.old.keeper found
            × (D.contents self.new.device ≡ D.started configuration.now found)) }
        ensures crash { K.doubt self.new.keeper ≡ 0 → (c : Kept) → K.may_leave self.new.keeper c
            → K.may_leave self.old.keeper c ⊎ ((found : Kept) × K.may_leave self.old.keeper found
            × (c ≡ D.kept_part (D.started configuration.now found))) }
        ensures doubt { K.doubt self.old.keeper ≤ K.doubt self.new.keeper }
        ensures faults { K.faults self.old.keeper ≤ K.faults self.new.keeper }
    {
        self.is_serving = false;
        self.keeper.restart()?;
        self.device = start_device(alloc, &mut self.keeper, configuration)?;
        self.is_serving = true;
        Ok(())
    }
}

/// Loads what is kept, makes the device from it, and keeps what the start has changed.
fn start_device<D: Device + Drop, K: Keeper + Drop>(
    alloc: Global,
    keeper: &mut K,
    configuration: &D::Configuration,
) -> Result<D, KeepError>
    requires { K.doubt keeper.old ≡ 0 → K.is_up keeper.old }
    ensures contents { K.doubt keeper.new ≡ 0 → IfOk result (λ d.
        D.contents d ≡ D.started configuration.now (K.kept keeper.old)) }
    ensures kept { K.doubt keeper.new ≡ 0 → IfOk result (λ d.
        IsKept (K.is_up keeper.new) (K.kept keeper.new) (D.known_kept d) (D.kept_part (D.contents d))) }
    ensures crash { K.doubt keeper.new ≡ 0 → (c : Kept) → K.may_leave keeper.new c
        → K.may_leave keeper.old c ⊎ (c ≡ D.kept_part (D.started configuration.now (K.kept keeper.old))) }
    ensures cause { K.doubt keeper.new ≡ 0 → IfErr result (IsStartCause
        (D.refuses configuration.now (K.kept keeper.old)) (K.faults keeper.old) (K.faults keeper.new)) }
    ensures doubt { K.doubt keeper.old ≤ K.doubt keeper.new }
    ensures faults { K.faults keeper.old ≤ K.faults keeper.new }
{
    let entries = keeper.load(alloc)?;
    start_loaded(alloc, keeper, &entries, configuration)
}

/// Makes the device from the entries that were loaded, and keeps what the start has changed.
fn start_loaded<D: Device + Drop, K: Keeper + Drop>(
    alloc: Global,
    keeper: &mut K,
    entries: &[Entry],
    configuration: &D::Configuration,
) -> Result<D, KeepError>
    requires up { K.doubt keeper.old ≡ 0 → K.is_up keeper.old }
    requires loaded { K.doubt keeper.old ≡ 0 → pairs_of entries.now ≡ K.kept keeper.old }
    ensures contents { K.doubt keeper.new ≡ 0 → IfOk result (λ d.
        D.contents d ≡ D.started configuration.now (K.kept keeper.old)) }
    ensures kept { K.doubt keeper.new ≡ 0 → IfOk result (λ d.
        IsKept (K.is_up keeper.new) (K.kept keeper.new) (D.known_kept d) (D.kept_part (D.contents d))) }
    ensures crash { K.doubt keeper.new ≡ 0 → (c : Kept) → K.may_leave keeper.new c
        → K.may_leave keeper.old c ⊎ (c ≡ D.kept_part (D.started configuration.now (K.kept keeper.old))) }
    ensures cause { K.doubt keeper.new ≡ 0 → IfErr result (IsStartCause
        (D.refuses configuration.now (K.kept keeper.old)) (K.faults keeper.old) (K.faults keeper.new)) }
    ensures doubt { K.doubt keeper.old ≤ K.doubt keeper.new }
    ensures faults { K.faults keeper.old ≤ K.faults keeper.new }
{
    let mut device = D::start(alloc, configuration, entries)?;
    keep(keeper, device.changes())?;
    device.release();
    Ok(device)
}

/// Commits changes, if there are any.
pub(crate) fn keep<K: Keeper>(keeper: &mut K, changes: &[Entry]) -> Result<(), KeepError>
    requires up { K.doubt keeper.old ≡ 0 → K.is_up keeper.old }
    requires keys { All IsKeepable changes.now }
    ensures done { K.doubt keeper.new ≡ 0 → OnOk result
        (K.is_up keeper.new × (K.kept keeper.new ≡ set_all (pairs_of changes.now) (K.kept keeper.old))) }
    ensures crash { K.doubt keeper.new ≡ 0 → (c : Kept) → K.may_leave keeper.new c
        → K.may_leave keeper.old c ⊎ (c ≡ set_all (pairs_of changes.now) (K.kept keeper.old)) }
    ensures cause { K.doubt keeper.new ≡ 0 → IfErr result (IsCause (K.faults keeper.old) (K.faults keeper.new)) }
    ensures doubt { K.doubt keeper.old ≤ K.doubt keeper.new }
    ensures faults { K.faults keeper.old ≤ K.faults keeper.new }
{
    if changes.is_empty() {
        return Ok(());
    }
    keeper.commit(changes)
}
