//! A queue that entries are put back into, one after another.
ghost use Rattle.std.specs.Prelude.{◌≡◌, ◌++◌, OnOk};
ghost use Rattle.enip_keep.specs.Kept.{pair_of, pairs_of};
ghost use Rattle.kept_adapter.specs.Started.{empty_progress, put_queue_all_back, put_queue_back};
ghost use Rattle.kept_adapter.specs.Started.{is_queue_used, unused_queue_keys};

use crate::keys::{is_queue_key, queue_number};
use cip_owner::Queue;
use device_state::restore_queue_entry;
use enip_keep::Entry;
use std::alloc::AllocError;

/// A queue of a device that has just started, if it has one, and what is known of the entries that were put back so far.
#[derive(Drop)]
pub(crate) struct QueueProgress {
    pub(crate) queue: Option<Queue>,
    /// Whether an entry of the queue could not be put back.
    pub(crate) has_lost: bool,
}

impl QueueProgress {
    /// Nothing has been put back yet.
    pub(crate) fn new(queue: Option<Queue>) -> QueueProgress
        ensures { result ≡ empty_progress queue }
    {
        QueueProgress {
            queue,
            has_lost: false,
        }
    }

    /// Puts an entry back, if it is one of the queue. Returns false if it is one, and is not used.
    fn put_back(&mut self, entry: &Entry) -> bool
        ensures after { self.new ≡ put_queue_back self.old (pair_of entry.now) }
        ensures used { result ≡ is_queue_used self.old (pair_of entry.now) }
    {
        if !is_queue_key(entry.key) {
            return true;
        }
        let number = queue_number(entry.key);
        match &mut self.queue {
            Some(queue) => {
                let is_put_back = restore_queue_entry(queue, number, entry.bytes.as_slice());
                if !is_put_back {
                    self.has_lost = true;
                }
                is_put_back
            }
            None => entry.bytes.is_empty(),
        }
    }

    /// Puts entries back, one after another.
    pub(crate) fn put_all_back(&mut self, entries: &[Entry])
        ensures { self.new ≡ put_queue_all_back self.old (pairs_of entries.now) }
    {
        for entry in entries {
            let _ = self.put_back(entry);
        }
    }

    /// Puts entries back, and collects the keys of those of the queue that were not used.
    ///
    /// # Errors
    ///
    /// `AllocError` if memory is refused.
    pub(crate) fn unused_keys(
        &mut self,
        entries: &[Entry],
        keys: &mut Vec<u64>,
    ) -> Result<(), AllocError>
        ensures { OnOk result (keys.new.items ≡ keys.old.items ++ unused_queue_keys self.old (pairs_of entries.now)) }
    {
        for entry in entries {
            if !self.put_back(entry) {
                keys.push(entry.key)?;
            }
        }
        Ok(())
    }
}
