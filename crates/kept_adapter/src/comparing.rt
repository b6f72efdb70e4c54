//! Compares entries with what is kept of an adapter, without a copy of it.
ghost use Rattle.std.specs.Prelude.{◌≡◌, ◌≢◌, ◌↔◌, ◌++◌, IsTrue, IfSome, IfNone, option_map};
ghost use Rattle.device_state.specs.QueueEntries.{QUEUE_ENTRIES, queue_bytes};
ghost use Rattle.enip_keep.specs.Kept.{Kept, pair_of, pairs_of};
ghost use Rattle.kept_adapter.specs.Keys.{ledger_key, queue_key};
ghost use Rattle.kept_adapter.specs.Saved.{first_entries, ledger_bytes, saved_ledger, versioned_objects, ENTRIES};
ghost use Rattle.kept_adapter.specs.Saved.{first_queue_entries, is_free, saved_queue};

use crate::keys::{ledger_key, queue_key};
use crate::saving::write_ledger_bytes;
use cip_ledger::{Ledger, MOST_ORIGINATORS};
use cip_objects::{Objects, ReplyBuf};
use cip_owner::{QUEUE_LIMIT, Queue};
use device_state::{QUEUE_ENTRIES, object_entry, write_queue_entry};
use enip_keep::Entry;

/// Whether an entry has this key and these bytes.
fn is_entry(entry: &Entry, key: u64, bytes: &[u8]) -> bool
    ensures { IsTrue result ↔ (pair_of entry.now ≡ (key, bytes.now)) }
{
    entry.key == key && entry.bytes.as_slice() == bytes
}

/// The entries behind those of the objects. `None` if the first entries are not those of the objects.
pub(crate) fn behind_objects<'a>(
    objects: &Objects,
    is_version_2: bool,
    entries: &'a [Entry],
) -> Option<&'a [Entry]>
    ensures same { IfSome result (λ rest. pairs_of entries.now
        ≡ versioned_objects objects.now is_version_2 ++ pairs_of rest.now) }
    ensures other { IfNone result ((rest : Kept) → pairs_of entries.now
        ≢ versioned_objects objects.now is_version_2 ++ rest) }
{
    let mut bytes = ReplyBuf::new();
    let mut count = 0;
    while let Some(key) = object_entry(objects, is_version_2, count, &mut bytes) {
        if count >= entries.len() || !is_entry(&entries[count], key, &bytes) {
            return None;
        }
        count += 1;
    }
    Some(&entries[count..])
}

/// The entries behind those of the ledger, if there is one. `None` if the first entries are not those of the ledger.
pub(crate) fn behind_ledger<'a>(
    objects: &Objects,
    ledger: Option<&Ledger>,
    entries: &'a [Entry],
) -> Option<&'a [Entry]>
    ensures same { IfSome result (λ rest. pairs_of entries.now
        ≡ saved_ledger (option_map (λ l. l.now) ledger.entry) ++ pairs_of rest.now) }
    ensures other { IfNone result ((rest : Kept) → pairs_of entries.now
        ≢ saved_ledger (option_map (λ l. l.now) ledger.entry) ++ rest) }
{
    match ledger {
        Some(ledger) => behind_all_of_ledger(objects, ledger, entries),
        None => Some(entries),
    }
}

/// The entries behind those of a ledger. `None` if the first entries are not those of the ledger.
fn behind_all_of_ledger<'a>(
    objects: &Objects,
    ledger: &Ledger,
    entries: &'a [Entry],
) -> Option<&'a [Entry]>
    ensures same { IfSome result (λ rest. pairs_of entries.now
        ≡ first_entries ledger.now ENTRIES ++ pairs_of rest.now) }
    ensures other { IfNone result ((rest : Kept) → pairs_of entries.now
        ≢ first_entries ledger.now ENTRIES ++ rest) }
{
    let count = usize::from(MOST_ORIGINATORS) + 1;
    if entries.len() < count || !are_all_of_ledger(objects, ledger, &entries[..count]) {
        return None;
    }
    Some(&entries[count..])
}

/// Whether these are the entries of a queue, if there is one. Without a queue there are none.
pub(crate) fn are_of_queue(queue: Option<&Queue>, entries: &[Entry]) -> bool
    ensures { IsTrue result ↔ (pairs_of entries.now ≡ saved_queue (option_map (λ q. q.now) queue.entry)) }
{
    match queue {
        Some(queue) => are_all_of_queue(queue, entries),
        None => entries.is_empty(),
    }
}

/// Whether these are the entries of a queue.
fn are_all_of_queue(queue: &Queue, entries: &[Entry]) -> bool
    ensures { IsTrue result ↔ (pairs_of entries.now ≡ first_queue_entries queue.now QUEUE_ENTRIES) }
{
    if entries.len() != usize::from(QUEUE_ENTRIES) {
        return false;
    }
    let mut bytes = ReplyBuf::new();
    for number in 0..QUEUE_ENTRIES {
        if !is_of_queue(queue, number, &entries[usize::from(number)], &mut bytes) {
            return false;
        }
    }
    true
}

/// Whether this is the entry of a queue with this number. `bytes` is the memory for its content.
fn is_of_queue(queue: &Queue, number: u16, entry: &Entry, bytes: &mut ReplyBuf) -> bool
    ensures { IsTrue result ↔ (pair_of entry.now ≡ (queue_key number, queue_bytes queue.now number)) }
{
    // Most places are free: their content is not written.
    if is_free(queue, number) {
        return is_entry(entry, queue_key(number), &[]);
    }
    write_queue_entry(queue, number, bytes);
    is_entry(entry, queue_key(number), bytes)
}

/// Whether the entry of a queue with this number is that of a place that no command and no result has.
fn is_free(queue: &Queue, number: u16) -> bool
    ensures { result ≡ is_free queue.now number }
{
    if number == 0 {
        return false;
    }
    let index = usize::from(number - 1);
    let most = usize::from(QUEUE_LIMIT);
    if index < most {
        index >= queue.waiting_count()
    } else {
        index - most >= queue.result_count()
    }
}

/// Whether these are the entries of a ledger.
fn are_all_of_ledger(objects: &Objects, ledger: &Ledger, entries: &[Entry]) -> bool
    ensures { IsTrue result ↔ (pairs_of entries.now ≡ first_entries ledger.now ENTRIES) }
{
    if entries.len() != usize::from(MOST_ORIGINATORS) + 1 {
        return false;
    }
    let mut bytes = ReplyBuf::new();
    for number in 0..MOST_ORIGINATORS + 1 {
        if !is_of_ledger(
            objects,
            ledger,
            number,
            &entries[usize::from(number)],
            &mut bytes,
        ) {
            return false;
        }
    }
    true
}

/// Whether this is the entry of a ledger with this number: that of the life is 0, and those of the slots are numbered
/// from 1. That of a free slot is empty. `bytes` is the memory for its content.
fn is_of_ledger(
    objects: &Objects,
    ledger: &Ledger,
    number: u16,
    entry: &Entry,
    bytes: &mut ReplyBuf,
) -> bool
    ensures { IsTrue result ↔ (pair_of entry.now ≡ (ledger_key number, ledger_bytes ledger.now number)) }
{
    let key = ledger_key(number);
    if usize::from(number) > ledger.slot_count() {
        return is_entry(entry, key, &[]);
    }
    write_ledger_bytes(objects, ledger, number, bytes);
    is_entry(entry, key, bytes)
}
