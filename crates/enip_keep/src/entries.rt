//! Lists of entries in the order of their keys.
ghost use Rattle.std.specs.Prelude.{◌≡◌, ◌≤◌, ◌<◌, ◌++◌, List, ℕ, length, take, drop, slice_index_or, IfOk, OnOk};
ghost use Rattle.enip_keep.specs.Kept.{pair_of, pairs_of, set, set_all};
ghost use Rattle.enip_keep.specs.declared.entry.Entry.{Entry};

use crate::Entry;
use std::alloc::{AllocError, Global};

/// Sets the bytes of these keys, the first of them first. The entries stay in the order of their keys.
///
/// # Errors
///
/// `AllocError` if memory is refused. Some of the keys may be set.
///
/// ```
/// set_all(alloc, &mut entries, &changes)?;
/// ```
pub fn set_all(alloc: Global, entries: &mut Vec<Entry>, changes: &[Entry]) -> Result<(), AllocError>
    ensures { OnOk result (pairs_of entries.new.items
        ≡ set_all (pairs_of changes.now) (pairs_of entries.old.items)) }
{
    for change in changes {
        set(alloc, entries, change)?;
    }
    Ok(())
}

/// Sets the bytes of a key.
fn set(alloc: Global, entries: &mut Vec<Entry>, change: &Entry) -> Result<(), AllocError>
    ensures { OnOk result (pairs_of entries.new.items
        ≡ set change.now.key change.now.bytes.items (pairs_of entries.old.items)) }
{
    let index = index_of(entries, change.key);
    let copy = copy(alloc, change)?;
    if index < entries.len() && entries[index].key == change.key {
        entries[index] = copy;
    } else {
        entries.insert(index, copy)?;
    }
    Ok(())
}

/// The index of the first entry whose key is not below this one.
fn index_of(entries: &[Entry], key: u64) -> usize
    ensures within { result ≤ length entries.now }
    ensures found { (bytes : List ℕ) → set key bytes (pairs_of entries.now)
        ≡ pairs_of (take result entries.now) ++ set key bytes (pairs_of (drop result entries.now)) }
    ensures reached { result < length entries.now → (e : Entry) → key ≤ (slice_index_or entries.now result e).key }
{
    for (index, entry) in entries.iter().enumerate() {
        if key <= entry.key {
            return index;
        }
    }
    entries.len()
}

/// Appends copies of the entries.
pub(crate) fn copy_all(
    alloc: Global,
    entries: &[Entry],
    into: &mut Vec<Entry>,
) -> Result<(), AllocError>
    ensures { OnOk result (pairs_of into.new.items ≡ pairs_of into.old.items ++ pairs_of entries.now) }
{
    for entry in entries {
        into.push(copy(alloc, entry)?)?;
    }
    Ok(())
}

/// A copy of an entry.
fn copy(alloc: Global, entry: &Entry) -> Result<Entry, AllocError>
    ensures { IfOk result (λ e. pair_of e ≡ pair_of entry.now) }
{
    Ok(Entry {
        key: entry.key,
        bytes: Vec::from_slice(alloc, &entry.bytes)?,
    })
}
