//! A device that entries are put back into, one after another.
ghost use Rattle.std.specs.Prelude.{◌≡◌, ◌∷◌, ◌++◌, IfOk};
ghost use Rattle.device_state.specs.Restored.{done};
ghost use Rattle.device_state.specs.Saved.{state_of};
ghost use Rattle.enip_keep.specs.Kept.{pair_of, pairs_of};
ghost use Rattle.kept_adapter.specs.Started.{after_entry, beginning, put_all_back, put_back, unused_keys};
ghost use Rattle.kept_adapter.specs.Started.{is_free_slot};

use crate::keys::{device_key, is_ledger_key, is_queue_key, ledger_key};
use cip_ledger::Ledger;
use cip_objects::Objects;
use device_state::{Outcome, restore};
use enip_keep::Entry;
use std::alloc::{AllocError, Global};

/// A device that has just started, and what is known of the entries that were put back so far.
#[derive(Drop)]
pub(crate) struct Progress {
    pub(crate) objects: Objects,
    pub(crate) ledger: Option<Ledger>,
    /// Whether the life of the ledger was among the entries.
    pub(crate) has_life: bool,
    /// Whether an entry of the ledger could not be put back.
    pub(crate) has_lost: bool,
    /// Whether the entries are of another device.
    pub(crate) is_other_device: bool,
}

impl Progress {
    /// Nothing has been put back yet.
    pub(crate) fn new(objects: Objects, ledger: Option<Ledger>) -> Progress
        ensures { result ≡ beginning (state_of objects ledger) }
    {
        Progress {
            objects,
            ledger,
            has_life: false,
            has_lost: false,
            is_other_device: false,
        }
    }

    /// Puts an entry back, and returns what became of it.
    fn put_back(&mut self, entry: &Entry) -> Outcome
        ensures after { self.new ≡ put_back self.old (pair_of entry.now) }
        ensures outcome { result ≡ (after_entry (state_of self.old.objects self.old.ledger) entry.now.key
            entry.now.bytes.items).outcome }
    {
        let outcome = put_in(
            &mut self.objects,
            &mut self.ledger,
            entry.key,
            entry.bytes.as_slice(),
        );
        if entry.key == ledger_key(0) {
            self.has_life = true;
        }
        if is_ledger_key(entry.key) && outcome != Outcome::Used {
            self.has_lost = true;
        }
        if outcome == Outcome::OtherDevice {
            self.is_other_device = true;
        }
        outcome
    }

    /// Puts entries back, one after another.
    pub(crate) fn put_all_back(&mut self, entries: &[Entry])
        ensures { self.new ≡ put_all_back self.old (pairs_of entries.now) }
    {
        for entry in entries {
            let _ = self.put_back(entry);
        }
    }

    /// Puts entries back, and collects the keys of those that were not used, other than entries of the queue.
    ///
    /// # Errors
    ///
    /// `AllocError` if memory is refused.
    pub(crate) fn unused_keys(
        &mut self,
        alloc: Global,
        entries: &[Entry],
    ) -> Result<Vec<u64>, AllocError>
        ensures { IfOk result (λ keys. keys.items ≡ unused_keys self.old (pairs_of entries.now)) }
    {
        let mut keys = Vec::new(alloc);
        for entry in entries {
            if self.put_back(entry) != Outcome::Used && !is_queue_key(entry.key) {
                keys.push(entry.key)?;
            }
        }
        Ok(keys)
    }
}

/// Puts an entry back into objects or a ledger.
fn put_in(objects: &mut Objects, ledger: &mut Option<Ledger>, key: u64, bytes: &[u8]) -> Outcome
    ensures { done (state_of objects.new ledger.new) result
        ≡ after_entry (state_of objects.old ledger.old) key bytes.now }
{
    if is_free_slot(key, bytes) {
        return Outcome::Used;
    }
    match device_key(key) {
        Some(key) => restore(objects, ledger, key, bytes),
        None => Outcome::Unknown,
    }
}

/// Whether an entry says that a slot of the ledger is free.
fn is_free_slot(key: u64, bytes: &[u8]) -> bool
    ensures { result ≡ is_free_slot key bytes.now }
{
    is_ledger_key(key) && key != ledger_key(0) && bytes.is_empty()
}
