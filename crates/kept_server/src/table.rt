//! What is kept of a device, and what has changed of it.

ghost use Rattle.std.specs.Prelude.{◌≡◌, [], true, All, IfOk, OnOk};
ghost use Rattle.enip_keep.specs.Kept.{Kept, pairs_of, set_all, IsKeepable};
ghost use Rattle.kept_server.specs.Changes.{keys_of, rise, are_small, newest, still_waiting, waiting_for};
ghost use Rattle.kept_server.specs.Savings.{kept_by};

use crate::changes::{collect_changes, recycle};
use crate::waits::{copy_without_waiting, mark_still_waiting, mark_waiting};
use enip_keep::Entry;
use std::alloc::{AllocError, Global};
use std::mem::swap;

/// The entries of a device at some time, and which of them wait.
#[derive(Drop)]
pub(crate) struct Saving {
    pub(crate) entries: Vec<Entry>,
    /// Whether the entry at this index waits.
    pub(crate) waits: Vec<bool>,
}

impl Saving {
    /// No entries.
    pub(crate) fn new(alloc: Global) -> Saving
        ensures entries { result.entries.items ≡ [] }
        ensures waits { result.waits.items ≡ [] }
    {
        Saving {
            entries: Vec::new(alloc),
            waits: Vec::new(alloc),
        }
    }
}

/// The entries of a device: those that are kept, those that are to be kept next, and the difference. Its entries have
/// the same keys all the time, which rise.
///
/// What was found at the start may have other keys too. Such entries stay kept, and so does what was found under the
/// keys of entries that wait.
#[derive(Drop)]
pub(crate) struct EntryTable {
    /// What was kept at the start.
    pub(crate) found: Vec<Entry>,
    /// The entries of the last commit, once there was one.
    pub(crate) kept: Saving,
    /// The entries that are to be kept next, unless these are `kept`.
    pub(crate) current: Saving,
    /// Those that differ from what is kept.
    pub(crate) changed: Vec<Entry>,
    /// Whether nothing was saved since the last commit.
    pub(crate) is_settled: bool,
    /// Room for the next entries, for the next changes and for copies.
    pub(crate) next: Saving,
    next_changed: Vec<Entry>,
    spare: Vec<Entry>,
    ghost changes: { set_all (pairs_of changed.items)
        (kept_by kept (pairs_of found.items))
        ≡ kept_by (newest is_settled kept current) (pairs_of found.items) },
    ghost rising: { rise (keys_of (pairs_of (newest is_settled kept current).entries.items)) ≡ true },
    ghost small: { are_small (pairs_of changed.items) ≡ true },
}

impl EntryTable {
    /// The table of a device that starts from these entries, with its own entries afterwards. All of these are to be kept,
    /// but the values with these keys wait.
    ///
    /// # Errors
    ///
    /// `AllocError` if memory is refused.
    pub(crate) fn new(
        alloc: Global,
        found: Vec<Entry>,
        entries: Vec<Entry>,
        keys: &[u64],
    ) -> Result<EntryTable, AllocError>
        requires rising { rise (keys_of (pairs_of entries.items)) ≡ true }
        requires small { are_small (pairs_of entries.items) ≡ true }
        ensures found { IfOk result (λ t. t.found.items ≡ found.items) }
        ensures saved { IfOk result (λ t.
            pairs_of (newest t.is_settled t.kept t.current).entries.items ≡ pairs_of entries.items) }
        ensures waits { IfOk result (λ t.
            (newest t.is_settled t.kept t.current).waits.items ≡ waiting_for keys.now (pairs_of entries.items)) }
        ensures known { IfOk result (λ t.
            kept_by t.kept (pairs_of t.found.items) ≡ pairs_of found.items) }
    {
        let mut waits = Vec::new(alloc);
        mark_waiting(keys, entries.as_slice(), &mut waits)?;
        let mut changed = Vec::new(alloc);
        copy_without_waiting(alloc, waits.as_slice(), entries.as_slice(), &mut changed)?;
        Ok(EntryTable {
            found,
            kept: Saving::new(alloc),
            current: Saving { entries, waits },
            changed,
            is_settled: false,
            next: Saving::new(alloc),
            next_changed: Vec::new(alloc),
            spare: Vec::new(alloc),
        })
    }

    /// The entries that were saved last.
    pub(crate) fn newest(&self) -> &[Entry]
        ensures { result.now ≡ (newest self.now.is_settled self.now.kept self.now.current).entries.items }
    {
        newest(self.is_settled, &self.kept, &self.current)
            .entries
            .as_slice()
    }

    /// Takes the entries in `next` as those that are to be kept next.
    ///
    /// # Errors
    ///
    /// `AllocError` if memory is refused. The entries that are to be kept next stay as they were.
    pub(crate) fn update(&mut self, alloc: Global) -> Result<(), AllocError>
        requires keys { keys_of (pairs_of (newest self.old.is_settled self.old.kept self.old.current).entries.items)
            ≡ keys_of (pairs_of self.old.next.entries.items) }
        requires small { are_small (pairs_of self.old.next.entries.items) ≡ true }
        ensures saved { OnOk result
            (pairs_of (newest self.new.is_settled self.new.kept self.new.current).entries.items
            ≡ pairs_of self.old.next.entries.items) }
        ensures waits { OnOk result ((newest self.new.is_settled self.new.kept self.new.current).waits.items
            ≡ still_waiting (newest self.old.is_settled self.old.kept self.old.current).waits.items
            (pairs_of (newest self.old.is_settled self.old.kept self.old.current).entries.items)
            (pairs_of self.old.next.entries.items)) }
        ensures keys { keys_of (pairs_of (newest self.new.is_settled self.new.kept self.new.current).entries.items)
            ≡ keys_of (pairs_of (newest self.old.is_settled self.old.kept self.old.current).entries.items) }
        ensures found { self.new.found ≡ self.old.found }
        ensures kept { self.new.kept ≡ self.old.kept }
    {
        recycle(&mut self.next_changed, &mut self.spare);
        self.next.waits.clear();
        compare(
            alloc,
            newest(self.is_settled, &self.kept, &self.current),
            &mut self.next,
            &mut self.spare,
            &mut self.next_changed,
        )?;
        self.changed.append(&mut self.next_changed)?;
        swap(&mut self.current, &mut self.next);
        self.is_settled = false;
        Ok(())
    }

    /// Takes the entries that are to be kept next as committed.
    pub(crate) fn settle(&mut self)
        ensures known { kept_by self.new.kept (pairs_of self.new.found.items)
            ≡ kept_by (newest self.old.is_settled self.old.kept self.old.current) (pairs_of self.old.found.items) }
        ensures same { newest self.new.is_settled self.new.kept self.new.current
            ≡ newest self.old.is_settled self.old.kept self.old.current }
        ensures found { self.new.found ≡ self.old.found }
    {
        if !self.is_settled {
            swap(&mut self.kept, &mut self.current);
        }
        recycle(&mut self.changed, &mut self.spare);
        self.is_settled = true;
    }

    /// The entries that differ from what is kept.
    pub(crate) fn changes(&self) -> &[Entry]
        ensures changes { set_all (pairs_of result.now)
            (kept_by self.now.kept (pairs_of self.now.found.items))
            ≡ kept_by (newest self.now.is_settled self.now.kept self.now.current) (pairs_of self.now.found.items) }
        ensures keys { All IsKeepable result.now }
    {
        self.changed.as_slice()
    }
}

/// What was saved last.
fn newest<'a>(is_settled: bool, kept: &'a Saving, current: &'a Saving) -> &'a Saving
    ensures { result.now ≡ newest is_settled kept.now current.now }
{
    if is_settled { kept } else { current }
}

/// Collects the entries of `next` that differ from the last ones, and marks those that wait on.
///
/// # Errors
///
/// `AllocError` if memory is refused.
fn compare(
    alloc: Global,
    last: &Saving,
    next: &mut Saving,
    spare: &mut Vec<Entry>,
    changed: &mut Vec<Entry>,
) -> Result<(), AllocError>
    requires keys { keys_of (pairs_of last.now.entries.items) ≡ keys_of (pairs_of next.old.entries.items) }
    requires rising { rise (keys_of (pairs_of last.now.entries.items)) ≡ true }
    requires small { are_small (pairs_of next.old.entries.items) ≡ true }
    requires unmarked { next.old.waits.items ≡ [] }
    requires none { changed.old.items ≡ [] }
    ensures entries { next.new.entries ≡ next.old.entries }
    ensures waits { OnOk result (next.new.waits.items ≡ still_waiting last.now.waits.items
        (pairs_of last.now.entries.items) (pairs_of next.old.entries.items)) }
    ensures changes { OnOk result ((found : Kept)
        → set_all (pairs_of changed.new.items) (kept_by last.now found) ≡ kept_by next.new found) }
    ensures small { OnOk result (are_small (pairs_of changed.new.items) ≡ true) }
{
    mark_still_waiting(
        last.waits.as_slice(),
        last.entries.as_slice(),
        next.entries.as_slice(),
        &mut next.waits,
    )?;
    collect_changes(
        alloc,
        last.entries.as_slice(),
        next.entries.as_slice(),
        spare,
        changed,
    )
}
