//! The entries that differ from what is kept.

ghost use Rattle.std.specs.Prelude.{◌≡◌, [], OnOk, IfOk};
ghost use Rattle.enip_keep.specs.Kept.{pairs_of};
ghost use Rattle.kept_server.specs.Changes.{AreChanges, keys_of};

use enip_keep::Entry;
use std::alloc::{AllocError, Global};

/// Collects copies of the entries of `current` that differ from those of `kept`, which are under the same keys. The copies
/// are made in entries of `spare`, as long as there are any.
///
/// # Errors
///
/// `AllocError` if memory is refused.
pub(crate) fn collect_changes(
    alloc: Global,
    kept: &[Entry],
    current: &[Entry],
    spare: &mut Vec<Entry>,
    changed: &mut Vec<Entry>,
) -> Result<(), AllocError>
    requires keys { keys_of (pairs_of kept.now) ≡ keys_of (pairs_of current.now) }
    requires none { changed.old.items ≡ [] }
    ensures { OnOk result (AreChanges (pairs_of kept.now) (pairs_of current.now) (pairs_of changed.new.items)) }
{
    for index in 0..current.len() {
        if index >= kept.len() {
            break;
        }
        let (old, new) = (&kept[index], &current[index]);
        if old.bytes.as_slice() != new.bytes.as_slice() {
            let copy = copied(alloc, new, spare)?;
            changed.push(copy)?;
        }
    }
    Ok(())
}

/// A copy of an entry, made in an entry of `spare` if there is one.
pub(crate) fn copied(
    alloc: Global,
    entry: &Entry,
    spare: &mut Vec<Entry>,
) -> Result<Entry, AllocError>
    ensures { IfOk result (λ copy. (copy.key ≡ entry.now.key) × (copy.bytes.items ≡ entry.now.bytes.items)) }
{
    let mut copy = match spare.pop() {
        Some(used) => used,
        None => Entry {
            key: 0,
            bytes: Vec::new(alloc),
        },
    };
    copy.key = entry.key;
    copy.bytes.clear();
    copy.bytes.extend_from_slice(entry.bytes.as_slice())?;
    Ok(copy)
}

/// Copies entries.
///
/// # Errors
///
/// `AllocError` if memory is refused.
pub(crate) fn copy_all(
    alloc: Global,
    entries: &[Entry],
    copies: &mut Vec<Entry>,
) -> Result<(), AllocError>
    requires { copies.old.items ≡ [] }
    ensures { OnOk result (pairs_of copies.new.items ≡ pairs_of entries.now) }
{
    let mut none = Vec::new(alloc);
    for entry in entries {
        let copy = copied(alloc, entry, &mut none)?;
        copies.push(copy)?;
    }
    Ok(())
}

/// Moves all entries to `spare`, for later copies. They are dropped if there is no memory for that.
pub(crate) fn recycle(used: &mut Vec<Entry>, spare: &mut Vec<Entry>)
    ensures { used.new.items ≡ [] }
{
    while let Some(entry) = used.pop() {
        let _ = spare.push(entry);
    }
}
