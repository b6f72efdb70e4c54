//! Entries that wait: nothing was taken from what was found under their keys, and that stays kept until their bytes
//! change.

ghost use Rattle.std.specs.Prelude.{◌≡◌, ◌==◌, ◌&&◌, ◌++◌, [], ◌∷◌, if◌then◌else◌, drop, OnOk};
ghost use Rattle.std.specs.List.{list_any};
ghost use Rattle.enip_keep.specs.Kept.{pair_of, pairs_of};
ghost use Rattle.kept_server.specs.Changes.{is_marked, same_first, still_waiting, waiting_for, without_waiting};

use crate::changes::copied;
use enip_keep::Entry;
use std::alloc::{AllocError, Global};

/// Marks the entries that wait: those with one of these keys.
///
/// # Errors
///
/// `AllocError` if memory is refused.
pub(crate) fn mark_waiting(
    keys: &[u64],
    entries: &[Entry],
    marks: &mut Vec<bool>,
) -> Result<(), AllocError>
    requires { marks.old.items ≡ [] }
    ensures { OnOk result (marks.new.items ≡ waiting_for keys.now (pairs_of entries.now)) }
{
    for entry in entries {
        marks.push(has_key(keys, entry.key))?;
    }
    Ok(())
}

/// Whether a key is among these.
fn has_key(keys: &[u64], key: u64) -> bool
    ensures { result ≡ list_any (λ k. k == key) keys.now }
{
    keys.iter().any(|k| *k == key)
}

/// Marks the entries that wait on: those that waited and have the same bytes as before.
///
/// # Errors
///
/// `AllocError` if memory is refused.
pub(crate) fn mark_still_waiting(
    waits: &[bool],
    old: &[Entry],
    new: &[Entry],
    marks: &mut Vec<bool>,
) -> Result<(), AllocError>
    requires { marks.old.items ≡ [] }
    ensures { OnOk result (marks.new.items ≡ still_waiting waits.now (pairs_of old.now) (pairs_of new.now)) }
{
    for (index, waited) in waits.iter().enumerate() {
        let waits = waits_on(*waited, old, new, index);
        marks.push(waits)?;
    }
    Ok(())
}

/// Whether an entry that waited, or not, waits on.
fn waits_on(waited: bool, old: &[Entry], new: &[Entry], index: usize) -> bool
    ensures { result ≡ (waited && same_first (pairs_of (drop index old.now)) (pairs_of (drop index new.now))) }
{
    waited && are_same(old, new, index)
}

/// Whether the entries at an index have the same bytes. They do if one of them is missing.
fn are_same(old: &[Entry], new: &[Entry], index: usize) -> bool
    ensures { result ≡ same_first (pairs_of (drop index old.now)) (pairs_of (drop index new.now)) }
{
    if index >= old.len() || index >= new.len() {
        return true;
    }
    old[index].bytes.as_slice() == new[index].bytes.as_slice()
}

/// Copies the entries that do not wait.
///
/// # Errors
///
/// `AllocError` if memory is refused.
pub(crate) fn copy_without_waiting(
    alloc: Global,
    waits: &[bool],
    entries: &[Entry],
    copies: &mut Vec<Entry>,
) -> Result<(), AllocError>
    requires { copies.old.items ≡ [] }
    ensures { OnOk result (pairs_of copies.new.items ≡ without_waiting waits.now (pairs_of entries.now)) }
{
    for (index, entry) in entries.iter().enumerate() {
        let waits = is_marked(waits, index);
        copy_unless(alloc, waits, entry, copies)?;
    }
    Ok(())
}

/// Copies an entry, unless it waits.
fn copy_unless(
    alloc: Global,
    waits: bool,
    entry: &Entry,
    copies: &mut Vec<Entry>,
) -> Result<(), AllocError>
    ensures { OnOk result (pairs_of copies.new.items
        ≡ pairs_of copies.old.items ++ (if waits then [] else pair_of entry.now ∷ [])) }
{
    if waits {
        return Ok(());
    }
    let copy = copied(alloc, entry, &mut Vec::new(alloc))?;
    copies.push(copy)?;
    Ok(())
}

/// Whether there is a mark at an index that says that the entry waits.
fn is_marked(waits: &[bool], index: usize) -> bool
    ensures { result ≡ is_marked (drop index waits.now) }
{
    index < waits.len() && waits[index]
}
