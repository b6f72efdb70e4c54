//! Writes what is kept of an adapter.
ghost use Rattle.std.specs.Prelude.{◌≡◌, ◌<◌, ◌≤◌, ◌+◌, ◌^◌, ◌∷◌, ◌++◌, [], suc, length, take, true, Some, IfOk, OnOk, option_map};
ghost use Rattle.enip_keep.specs.Kept.{pair_of, pairs_of};
ghost use Rattle.kept_server.specs.Changes.{are_small, keys_of, rise};
ghost use Rattle.device_state.specs.QueueEntries.{QUEUE_ENTRIES};
ghost use Rattle.kept_adapter.specs.Saved.{first_entries, ledger_bytes, saved_ledger, versioned_objects, ENTRIES};
ghost use Rattle.kept_adapter.specs.Saved.{first_queue_entries, saved_queue};

use crate::keys::{ledger_key, queue_key};
use cip_ledger::{Ledger, MOST_ORIGINATORS};
use cip_objects::{Objects, ReplyBuf};
use cip_owner::Queue;
use device_state::{QUEUE_ENTRIES, object_entry, saved_entry, write_queue_entry};
use enip_keep::Entry;
use std::alloc::{AllocError, Global};

/// Makes sure that there is an entry at an index, which is at most behind all others.
fn add_if_missing(alloc: Global, into: &mut Vec<Entry>, index: usize) -> Result<(), AllocError>
    requires { index ≤ length into.old.items }
    ensures front { OnOk result (take index (pairs_of into.new.items) ≡ take index (pairs_of into.old.items)) }
    ensures within { OnOk result (index < length into.new.items) }
{
    if index == into.len() {
        into.push(Entry {
            key: 0,
            bytes: Vec::new(alloc),
        })?;
    }
    Ok(())
}

/// Gives an entry this key and these bytes.
fn write_entry(entry: &mut Entry, key: u64, bytes: &[u8]) -> Result<(), AllocError>
    ensures { OnOk result (pair_of entry.new ≡ (key, bytes.now)) }
{
    entry.key = key;
    entry.bytes.clear();
    entry.bytes.extend_from_slice(bytes)
}

/// Writes an entry to `into` at an index, in place of what is there, or behind all others.
fn set_entry(
    alloc: Global,
    into: &mut Vec<Entry>,
    index: usize,
    key: u64,
    bytes: &[u8],
) -> Result<(), AllocError>
    requires within { index ≤ length into.old.items }
    requires key { key < 2 ^ 63 }
    requires bytes { length bytes.now < 2 ^ 16 }
    requires small { are_small (take index (pairs_of into.old.items)) ≡ true }
    ensures entry { OnOk result (take (suc index) (pairs_of into.new.items)
        ≡ take index (pairs_of into.old.items) ++ (key, bytes.now) ∷ []) }
    ensures within { OnOk result (suc index ≤ length into.new.items) }
    ensures small { OnOk result (are_small (take (suc index) (pairs_of into.new.items)) ≡ true) }
{
    add_if_missing(alloc, into, index)?;
    write_entry(&mut into[index], key, bytes)
}

/// Writes the entries of objects to `into`, in place of the first ones that are there, with the version of the state if it is
/// 2. Returns how many they are.
///
/// # Errors
///
/// `AllocError` if memory is refused.
pub(crate) fn save_objects(
    alloc: Global,
    objects: &Objects,
    is_version_2: bool,
    into: &mut Vec<Entry>,
) -> Result<usize, AllocError>
    ensures entries { IfOk result (λ count. take count (pairs_of into.new.items)
        ≡ versioned_objects objects.now is_version_2) }
    ensures small { IfOk result (λ count. are_small (take count (pairs_of into.new.items)) ≡ true) }
    ensures within { IfOk result (λ count. count ≤ length into.new.items) }
{
    let mut bytes = ReplyBuf::new();
    let mut count = 0;
    while let Some(key) = object_entry(objects, is_version_2, count, &mut bytes) {
        set_entry(alloc, into, count, key, &bytes)?;
        count += 1;
    }
    Ok(count)
}

/// Writes the entries of a ledger to `into`, in place of those from an index on. Returns the index behind them.
///
/// # Errors
///
/// `AllocError` if memory is refused.
pub(crate) fn save_ledger(
    alloc: Global,
    objects: &Objects,
    ledger: &Ledger,
    start: usize,
    into: &mut Vec<Entry>,
) -> Result<usize, AllocError>
    requires within { start ≤ length into.old.items }
    requires small { are_small (take start (pairs_of into.old.items)) ≡ true }
    ensures entries { IfOk result (λ count. take count (pairs_of into.new.items)
        ≡ take start (pairs_of into.old.items) ++ first_entries ledger.now ENTRIES) }
    ensures small { IfOk result (λ count. are_small (take count (pairs_of into.new.items)) ≡ true) }
    ensures within { IfOk result (λ count. count ≤ length into.new.items) }
{
    let mut bytes = ReplyBuf::new();
    let mut count = start;
    for number in 0..MOST_ORIGINATORS + 1 {
        write_ledger_bytes(objects, ledger, number, &mut bytes);
        set_entry(alloc, into, count, ledger_key(number), &bytes)?;
        count += 1;
    }
    Ok(count)
}

/// The same, if there is a ledger. Nothing is written if there is none.
///
/// # Errors
///
/// `AllocError` if memory is refused.
pub(crate) fn save_ledger_if_any(
    alloc: Global,
    objects: &Objects,
    ledger: Option<&Ledger>,
    start: usize,
    into: &mut Vec<Entry>,
) -> Result<usize, AllocError>
    requires within { start ≤ length into.old.items }
    requires small { are_small (take start (pairs_of into.old.items)) ≡ true }
    ensures entries { IfOk result (λ count. take count (pairs_of into.new.items)
        ≡ take start (pairs_of into.old.items) ++ saved_ledger (option_map (λ l. l.now) ledger.entry)) }
    ensures small { IfOk result (λ count. are_small (take count (pairs_of into.new.items)) ≡ true) }
    ensures within { IfOk result (λ count. count ≤ length into.new.items) }
{
    match ledger {
        Some(ledger) => save_ledger(alloc, objects, ledger, start, into),
        None => Ok(start),
    }
}

/// Writes the entries of a queue to `into`, in place of those from an index on. Returns the index behind them.
///
/// # Errors
///
/// `AllocError` if memory is refused.
pub(crate) fn save_queue(
    alloc: Global,
    queue: &Queue,
    start: usize,
    into: &mut Vec<Entry>,
) -> Result<usize, AllocError>
    requires within { start ≤ length into.old.items }
    requires small { are_small (take start (pairs_of into.old.items)) ≡ true }
    ensures entries { IfOk result (λ count. take count (pairs_of into.new.items)
        ≡ take start (pairs_of into.old.items) ++ first_queue_entries queue.now QUEUE_ENTRIES) }
    ensures small { IfOk result (λ count. are_small (take count (pairs_of into.new.items)) ≡ true) }
{
    let mut bytes = ReplyBuf::new();
    let mut count = start;
    for number in 0..QUEUE_ENTRIES {
        write_queue_entry(queue, number, &mut bytes);
        set_entry(alloc, into, count, queue_key(number), &bytes)?;
        count += 1;
    }
    Ok(count)
}

/// The same, if there is a queue. Nothing is written if there is none.
///
/// # Errors
///
/// `AllocError` if memory is refused.
pub(crate) fn save_queue_if_any(
    alloc: Global,
    queue: Option<&Queue>,
    start: usize,
    into: &mut Vec<Entry>,
) -> Result<usize, AllocError>
    requires within { start ≤ length into.old.items }
    requires small { are_small (take start (pairs_of into.old.items)) ≡ true }
    ensures entries { IfOk result (λ count. take count (pairs_of into.new.items)
        ≡ take start (pairs_of into.old.items) ++ saved_queue (option_map (λ q. q.now) queue.entry)) }
    ensures small { IfOk result (λ count. are_small (take count (pairs_of into.new.items)) ≡ true) }
{
    match queue {
        Some(queue) => save_queue(alloc, queue, start, into),
        None => Ok(start),
    }
}

/// Writes the content of an entry of the ledger to `bytes`, in place of its old content, by the entry's number: that of
/// the life is 0, and those of the slots are numbered from 1. That of a free slot is empty.
///
/// ```
/// let mut bytes = ReplyBuf::new();
/// write_ledger_bytes(adapter.objects(), ledger, 0, &mut bytes); // the 8 bytes of the life
/// ```
pub fn write_ledger_bytes(objects: &Objects, ledger: &Ledger, number: u16, bytes: &mut ReplyBuf)
    ensures { bytes.new.items ≡ ledger_bytes ledger.now number }
{
    if usize::from(number) > ledger.slot_count() {
        bytes.clear();
        return;
    }
    // The first entry says which device it is, and those of the ledger are next.
    let _ = saved_entry(objects, Some(ledger), 1 + usize::from(number), bytes);
}

/// Whether the keys of entries rise.
pub(crate) fn do_keys_rise(entries: &[Entry]) -> bool
    ensures { result ≡ rise (keys_of (pairs_of entries.now)) }
{
    let Some((first, rest)) = entries.split_first() else {
        return true;
    };
    let mut last = first.key;
    for entry in rest {
        if entry.key <= last {
            return false;
        }
        last = entry.key;
    }
    true
}
