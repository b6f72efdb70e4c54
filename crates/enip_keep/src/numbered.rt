//! A keeper that also keeps the number of the last round and a checksum, and has the number noted elsewhere.
ghost use Rattle.std.specs.Prelude.{◌≡◌, ◌⊎◌, ◌≤◌, ◌+◌, ◌-◌, ◌^◌, ℕ, All, min, true, Err};
ghost use Rattle.std.specs.Prelude.{IfOk, IfErr, OnOk};
ghost use Rattle.enip_keep.specs.declared.entry.KeepError.TheVariants.{Storage};
ghost use Rattle.enip_keep.specs.Causes.{IsCause};
ghost use Rattle.enip_keep.specs.Kept.{Kept, pairs_of, set_all, IsKeepable};
ghost use Rattle.enip_keep.specs.Rounds.{without_round, round_in, round_bytes_in, are_of_device, is_whole, IsLoaded};

use crate::entries::{copy_all, set_all};
use crate::rounds::{ROUND_KEY, are_of_device, is_whole, round_entry, round_in, with_entry};
use crate::{Entry, KeepError, Keeper, Restart, StorageFault};
use std::alloc::Global;

/// Notes the number of the last round, in a file beside that of the keeper for example. If the keeper's storage loses
/// rounds without an error, as an older copy of it does, the note has the greater number.
pub trait RoundNote {
    // The number that was noted last.
    ghost noted: { Self → ℕ };

    /// Notes a number in place of the last one. Once this returns `Ok`, it survives every crash.
    ///
    /// # Errors
    ///
    /// Why it was not noted.
    fn note(&mut self, round: u64) -> Result<(), StorageFault>
        ensures { OnOk result (noted self.new ≡ round) };
}

/// A keeper that numbers its commits: it keeps the number of the last one and a checksum with the entries of the
/// device, and has the number noted. It refuses an entry of the device under its own key, as a storage that fails.
///
/// ```
/// let keeper = Numbered::start(alloc, keeper, note)?;
/// if !keeper.is_whole() || keeper.round() < noted {
///     // the storage is damaged, or older than it was
/// }
/// ```
#[derive(Drop)]
pub struct Numbered<K: Keeper + Drop, N: RoundNote + Drop> {
    alloc: Global,
    keeper: K,
    note: N,
    /// The entries of the device, as they are kept.
    entries: Vec<Entry>,
    round: u64,
    is_whole: bool,
    /// How often a number was not noted, or an entry under the key of the round was refused.
    faults: u64,
}

impl<K: Keeper + Drop, N: RoundNote + Drop> Numbered<K, N> {
    /// Goes on after the last round that this keeper has kept. Nothing is noted yet. What is kept may be damaged: ask
    /// `is_whole` before you use it.
    ///
    /// # Errors
    ///
    /// Those of `Keeper::load`.
    pub fn start(alloc: Global, mut keeper: K, note: N) -> Result<Numbered<K, N>, KeepError>
        requires up { K.doubt keeper ≡ 0 → K.is_up keeper }
        ensures kept { IfOk result (λ n. K.doubt n.keeper ≡ 0
            → K.is_up n.keeper × (K.kept n.keeper ≡ K.kept keeper)) }
        ensures loaded { IfOk result (λ n. K.doubt n.keeper ≡ 0
            → IsLoaded (K.kept n.keeper) (pairs_of n.entries.items) n.round n.is_whole) }
        ensures round { IfOk result (λ n. K.doubt n.keeper ≡ 0 → n.round ≡ round_in (K.kept keeper)) }
        ensures whole { IfOk result (λ n. K.doubt n.keeper ≡ 0 → n.is_whole ≡ is_whole (K.kept keeper)) }
        ensures cause { IfErr result (λ e. (after : K) × (K.doubt keeper ≤ K.doubt after) × (K.doubt after ≡ 0
            → IsCause (K.faults keeper) (K.faults after) e)) }
        ensures doubt { IfOk result (λ n. K.doubt keeper ≤ K.doubt n.keeper) }
    {
        let loaded = load_rounds(alloc, &mut keeper)?;
        Ok(Numbered {
            alloc,
            keeper,
            note,
            entries: loaded.entries,
            round: loaded.round,
            is_whole: loaded.is_whole,
            faults: 0,
        })
    }

    /// The number of the last round, 0 before the first.
    pub fn round(&self) -> u64
        ensures { result ≡ self.now.round }
    {
        self.round
    }

    /// Whether the checksum that is kept is that of everything else that is kept. An empty storage is whole, too. One
    /// that is not has lost, damaged or added something. The next commit keeps the checksum of what is there.
    pub fn is_whole(&self) -> bool
        ensures { result ≡ self.now.is_whole }
    {
        self.is_whole
    }

    /// Gives the keeper back.
    pub fn into_keeper(self) -> K
        ensures { result ≡ self.keeper }
    {
        let Numbered { keeper, .. } = self;
        keeper
    }

    /// Goes on after the round of this number, if that is greater than the last one.
    pub fn skip_to(&mut self, round: u64)
        ensures same { self.new ≡ record self.old { round = self.new.round } }
        ensures at_least { round ≤ self.new.round }
        ensures only_up { self.old.round ≤ self.new.round }
        ensures one { (self.new.round ≡ self.old.round) ⊎ (self.new.round ≡ round) }
        ensures loaded { (kept : Kept)
            → IsLoaded kept (pairs_of self.old.entries.items) self.old.round self.old.is_whole
            → IsLoaded kept (pairs_of self.new.entries.items) self.new.round self.new.is_whole }
    {
        self.round = self.round.max(round);
    }
}

impl<K: Keeper + Drop, N: RoundNote + Drop> Numbered<K, N> {
    /// Counts a failure, and returns it.
    fn fail(&mut self, fault: StorageFault) -> Result<(), KeepError>
        ensures failed { result ≡ Err (Storage fault) }
        ensures faults { self.old.faults ≤ self.new.faults }
        ensures counted { self.new ≡ record self.old { faults = min (self.old.faults + 1) (2 ^ 64 - 1) } }
    {
        self.faults = self.faults.saturating_add(1);
        Err(KeepError::Storage(fault))
    }
}

impl<K: Keeper + Drop, N: RoundNote + Drop> Keeper for Numbered<K, N> {
    ghost use Rattle.enip_keep.specs.RoundLaws.{settled_without, stays_without};

    ghost kept = { λ n. without_round (K.kept n.keeper) };

    ghost may_leave = { λ n c. (all : Kept) × K.may_leave n.keeper all × (c ≡ without_round all) };

    ghost is_up = { λ n. K.is_up n.keeper
        × IsLoaded (K.kept n.keeper) (pairs_of n.entries.items) n.round n.is_whole };

    ghost doubt = { λ n. K.doubt n.keeper };

    ghost faults = { λ n. K.faults n.keeper + n.faults };

    ghost settled = { λ n c sure up left. settled_without (K.may_leave n.keeper) (K.kept n.keeper)
        (λ all there. K.settled n.keeper all sure up.0 there) c left };

    ghost stays = { λ n sure up. stays_without (K.may_leave n.keeper) (K.kept n.keeper) (K.stays n.keeper sure up.0) };

    fn load(&mut self, alloc: Global) -> Result<Vec<Entry>, KeepError> {
        // They were loaded at the start, and each commit has changed them as what is kept.
        let mut all = Vec::new(alloc);
        copy_all(alloc, &self.entries, &mut all)?;
        Ok(all)
    }

    fn commit(&mut self, changes: &[Entry]) -> Result<(), KeepError>
        requires up { K.doubt self.old.keeper ≡ 0 → K.is_up self.old.keeper × IsLoaded (K.kept self.old.keeper)
            (pairs_of self.old.entries.items) self.old.round self.old.is_whole }
        requires keys { All IsKeepable changes.now }
        ensures done { K.doubt self.new.keeper ≡ 0 → OnOk result
            ((K.is_up self.new.keeper × IsLoaded (K.kept self.new.keeper)
            (pairs_of self.new.entries.items) self.new.round self.new.is_whole)
            × (without_round (K.kept self.new.keeper)
            ≡ set_all (pairs_of changes.now) (without_round (K.kept self.old.keeper)))) }
        ensures whole { K.doubt self.new.keeper ≡ 0 → OnOk result (is_whole (K.kept self.new.keeper) ≡ true) }
        ensures numbered { K.doubt self.new.keeper ≡ 0
            → OnOk result (round_in (K.kept self.new.keeper) ≡ self.new.round) }
        ensures noted { OnOk result (N.noted self.new.note ≡ self.new.round) }
        // The note changes only once the number is kept.
        ensures note_last { (self.new.note ≡ self.old.note) ⊎ (K.doubt self.new.keeper ≡ 0
            → round_in (K.kept self.new.keeper) ≡ self.new.round) }
        ensures next { OnOk result (self.new.round ≡ min (self.old.round + 1) (2 ^ 64 - 1)) }
        ensures cause { K.doubt self.new.keeper ≡ 0 → IfErr result (IsCause
            (K.faults self.old.keeper + self.old.faults) (K.faults self.new.keeper + self.new.faults)) }
        ensures crash { K.doubt self.new.keeper ≡ 0 → (c : Kept)
            → ((all : Kept) × K.may_leave self.new.keeper all × (c ≡ without_round all))
            → ((all : Kept) × K.may_leave self.old.keeper all × (c ≡ without_round all))
            ⊎ (c ≡ set_all (pairs_of changes.now) (without_round (K.kept self.old.keeper))) }
        ensures doubt { K.doubt self.old.keeper ≤ K.doubt self.new.keeper }
        ensures faults { K.faults self.old.keeper + self.old.faults
            ≤ K.faults self.new.keeper + self.new.faults }
    {
        if !are_of_device(changes) {
            return self.fail(StorageFault::Failed);
        }
        let round = self.round.saturating_add(1);
        set_all(self.alloc, &mut self.entries, changes)?;
        let own = round_entry(self.alloc, round, &self.entries)?;
        commit_with(self.alloc, &mut self.keeper, changes, own)?;
        self.round = round;
        self.is_whole = true;
        match self.note.note(round) {
            Ok(()) => Ok(()),
            Err(fault) => self.fail(fault),
        }
    }
}

impl<K: Restart + Drop, N: RoundNote + Drop> Restart for Numbered<K, N> {
    fn restart(&mut self) -> Result<(), KeepError> {
        self.keeper.restart()?;
        let loaded = load_rounds(self.alloc, &mut self.keeper)?;
        self.entries = loaded.entries;
        self.round = loaded.round;
        self.is_whole = loaded.is_whole;
        Ok(())
    }
}

/// What a start finds.
#[derive(Drop)]
struct Loaded {
    /// The entries of the device.
    entries: Vec<Entry>,
    round: u64,
    is_whole: bool,
}

/// Loads all entries.
fn load_rounds<K: Keeper>(alloc: Global, keeper: &mut K) -> Result<Loaded, KeepError>
    requires { K.doubt keeper.old ≡ 0 → K.is_up keeper.old }
    ensures loaded { K.doubt keeper.new ≡ 0 → IfOk result (λ l.
        IsLoaded (K.kept keeper.old) (pairs_of l.entries.items) l.round l.is_whole) }
    ensures round { K.doubt keeper.new ≡ 0 → IfOk result (λ l. l.round ≡ round_in (K.kept keeper.old)) }
    ensures same { K.doubt keeper.new ≡ 0 → OnOk result (K.is_up keeper.new × (K.kept keeper.new ≡ K.kept keeper.old)) }
    ensures cause { K.doubt keeper.new ≡ 0 → IfErr result (IsCause (K.faults keeper.old) (K.faults keeper.new)) }
    ensures crash { K.doubt keeper.new ≡ 0 → (c : Kept) → K.may_leave keeper.new c → K.may_leave keeper.old c }
    ensures doubt { K.doubt keeper.old ≤ K.doubt keeper.new }
    ensures faults { K.faults keeper.old ≤ K.faults keeper.new }
{
    let mut entries = keeper.load(alloc)?;
    let round = round_in(&entries);
    let is_whole = is_whole(&entries);
    entries.retain(|entry| entry.key != ROUND_KEY);
    Ok(Loaded {
        entries,
        round,
        is_whole,
    })
}

/// Commits these changes, and the entry of their round with them.
fn commit_with<K: Keeper>(
    alloc: Global,
    keeper: &mut K,
    changes: &[Entry],
    own: Entry,
) -> Result<(), KeepError>
    requires up { K.doubt keeper.old ≡ 0 → K.is_up keeper.old }
    requires keys { All IsKeepable changes.now }
    requires of_device { are_of_device (pairs_of changes.now) ≡ true }
    requires own_key { own.key ≡ 0 }
    requires own_size { IsKeepable own }
    ensures done { K.doubt keeper.new ≡ 0 → OnOk result (K.is_up keeper.new × (without_round (K.kept keeper.new)
        ≡ set_all (pairs_of changes.now) (without_round (K.kept keeper.old)))) }
    ensures own { K.doubt keeper.new ≡ 0 → OnOk result (round_bytes_in (K.kept keeper.new) ≡ own.bytes.items) }
    ensures cause { K.doubt keeper.new ≡ 0 → IfErr result (IsCause (K.faults keeper.old) (K.faults keeper.new)) }
    ensures crash { K.doubt keeper.new ≡ 0 → (c : Kept)
        → ((all : Kept) × K.may_leave keeper.new all × (c ≡ without_round all))
        → ((all : Kept) × K.may_leave keeper.old all × (c ≡ without_round all))
        ⊎ (c ≡ set_all (pairs_of changes.now) (without_round (K.kept keeper.old))) }
    ensures doubt { K.doubt keeper.old ≤ K.doubt keeper.new }
    ensures faults { K.faults keeper.old ≤ K.faults keeper.new }
{
    let all = with_entry(alloc, changes, own)?;
    keeper.commit(&all)
}
