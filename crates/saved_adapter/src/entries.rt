//! The entries of an adapter.

ghost use Rattle.std.specs.Prelude.{◌≡◌, ◌++◌, Some, option_map, slice_get};
ghost use Rattle.cip_ledger.specs.Executing.{doubted_by};
ghost use Rattle.device_state.specs.Saved.{needs_version_2};
ghost use Rattle.kept_adapter.specs.Saved.{saved_ledger, saved_queue};
ghost use Rattle.saved_adapter.specs.Entries.{entries_in_doubt, entries_of, entry_in, IsCounted};

use crate::marked::MarkedLedger;
use cip_ledger::{DoubtfulCommand, Ledger, MOST_ORIGINATORS};
use cip_objects::{Objects, ReplyBuf};
use cip_owner::Queue;
use device_state::{QUEUE_ENTRIES, needs_version_2, object_entry, write_queue_entry};
use enip_adapter::Adapter;
use kept_adapter::{ledger_key, queue_key};
use saved_state::{EntryHead, EntrySource};
use std::marker::Model;

/// The entries in which an adapter is kept: those of `kept_adapter`, with a command of its ledger in doubt if there is
/// one.
///
/// ```
/// let size = saved_size(&AdapterEntries::new(&adapter, None))?;
/// ```
#[derive(Drop)]
pub struct AdapterEntries<'a> {
    objects: &'a Objects,
    ledger: Option<MarkedLedger<'a>>,
    queue: Option<&'a Queue>,
    /// Whether the state has version 2.
    is_version_2: bool,
    /// How many entries come before those of the ledger and of the queue.
    values: usize,
}

impl<'a> Model for AdapterEntries<'a> {
    ghost use Rattle.std.specs.Prelude.{◌≡◌, List, option_map};
    ghost use Rattle.std.specs.Coded.{coded_list};
    ghost use Rattle.device_state.specs.Saved.{needs_version_2};
    ghost use Rattle.kept_adapter.specs.Saved.{saved_device};
    ghost use Rattle.saved_state.specs.States.{Entry, entry_code};
    ghost use Rattle.saved_adapter.specs.Entries.{entries_of, IsCounted};

    ghost Value = { List Entry };

    ghost coded = { coded_list entry_code };

    ghost view = { λ s. entries_of (saved_device s.objects.now s.ledger (option_map (λ q. q.now) s.queue)) };

    ghost invariant = { λ s. IsCounted s.objects.now s.values
        × (s.is_version_2 ≡ needs_version_2 (option_map (λ q. q.now) s.queue) s.ledger) };
}

impl<'a> AdapterEntries<'a> {
    /// The entries of an adapter. If there is a command in `doubt`, it is in doubt in the ledger, if that can put it in
    /// doubt (`Ledger::put_in_doubt`).
    pub fn new(adapter: &'a Adapter, doubt: Option<DoubtfulCommand>) -> AdapterEntries<'a>
        ensures { result ≡ entries_in_doubt doubt adapter.now }
    {
        let objects = adapter.objects();
        let ledger = marked(adapter.ledger(), doubt);
        let queue = adapter.queue();
        let is_version_2 = is_version_2(queue, &ledger);
        AdapterEntries {
            objects,
            ledger,
            queue,
            is_version_2,
            values: value_count(objects),
        }
    }

    /// The key of the entry at an index, and its bytes, which are written to `bytes` in place of the old content.
    /// `None` past the last entry.
    pub(crate) fn entry(&self, index: usize, bytes: &mut ReplyBuf) -> Option<u64>
        ensures { entry_in result bytes.new.items ≡ slice_get self.now index }
    {
        if let Some(key) = object_entry(self.objects, self.is_version_2, index, bytes) {
            return Some(key);
        }
        if index < self.values {
            return None;
        }
        let number = index - self.values;
        match &self.ledger {
            Some(ledger) => ledger_or_queue(self.objects, ledger, self.queue, number, bytes),
            None => queue_entry(self.queue, number, bytes),
        }
    }
}

/// The key of the entry of a ledger or behind these of a queue, if there is one, by its index among them, and its bytes,
/// which are written to `bytes` in place of the old content. `None` past the last entry.
fn ledger_or_queue(
    objects: &Objects,
    ledger: &MarkedLedger<'_>,
    queue: Option<&Queue>,
    number: usize,
    bytes: &mut ReplyBuf,
) -> Option<u64>
    ensures { entry_in result bytes.new.items
        ≡ slice_get (entries_of (saved_ledger (Some ledger.now) ++ saved_queue (option_map (λ q. q.now) queue.entry)))
        number }
{
    let slots = usize::from(MOST_ORIGINATORS) + 1;
    if number < slots {
        ledger.write(objects, number as u16, bytes);
        return Some(ledger_key(number as u16));
    }
    queue_entry(queue, number - slots, bytes)
}

/// The key of an entry of a queue, if there is one, by the entry's number, and its bytes. `None` past the last entry.
fn queue_entry(queue: Option<&Queue>, number: usize, bytes: &mut ReplyBuf) -> Option<u64>
    ensures { entry_in result bytes.new.items
        ≡ slice_get (entries_of (saved_queue (option_map (λ q. q.now) queue.entry))) number }
{
    let Some(queue) = queue else {
        return None;
    };
    if number >= usize::from(QUEUE_ENTRIES) {
        return None;
    }
    write_queue_entry(queue, number as u16, bytes);
    Some(queue_key(number as u16))
}

impl EntrySource for AdapterEntries<'_> {
    ghost entries = { λ s. s };

    #[tactic(auto, using(crate::proofs::EntryLemmas::at, crate::proofs::EntryLemmas::past))]
    fn head(&self, index: usize) -> Option<EntryHead> {
        let mut bytes = ReplyBuf::new();
        let key = self.entry(index, &mut bytes)?;
        Some(EntryHead {
            key,
            len: bytes.len(),
        })
    }

    #[tactic(auto, using(crate::proofs::EntryLemmas::at, crate::proofs::EntryLemmas::past))]
    fn copy(&self, index: usize, into: &mut [u8]) {
        let mut bytes = ReplyBuf::new();
        if self.entry(index, &mut bytes).is_some() {
            into.copy_from_slice(&bytes);
        }
    }
}

/// The ledger, if there is one, with this command in doubt.
fn marked<'a>(
    ledger: Option<&'a Ledger>,
    doubt: Option<DoubtfulCommand>,
) -> Option<MarkedLedger<'a>>
    ensures { result ≡ option_map (doubted_by doubt) (option_map (λ l. l.now) ledger.entry) }
{
    match ledger {
        Some(ledger) => Some(MarkedLedger::new(ledger, doubt)),
        None => None,
    }
}

/// Whether a state with this queue and this ledger has version 2.
fn is_version_2(queue: Option<&Queue>, ledger: &Option<MarkedLedger<'_>>) -> bool
    ensures { result ≡ needs_version_2 (option_map (λ q. q.now) queue.entry) ledger.now }
{
    let has_withdrawn = match ledger {
        Some(ledger) => ledger.has_withdrawn(),
        None => false,
    };
    needs_version_2(queue, None) || has_withdrawn
}

/// How many entries the objects have.
fn value_count(objects: &Objects) -> usize
    ensures { IsCounted objects.now result }
{
    let mut bytes = ReplyBuf::new();
    for count in 0..usize::MAX {
        if object_entry(objects, false, count, &mut bytes).is_none() {
            return count;
        }
    }
    usize::MAX
}
