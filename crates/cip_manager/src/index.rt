//! The index of the open connections by their O->T IDs. It says where each is kept.
ghost use Rattle.std.specs.Prelude.{◌≡◌, ◌≤◌, ◌<◌, ◌+◌, ◌^◌, [], ◌∷◌, ◌++◌, length, slice_index};
ghost use Rattle.std.specs.List.{AllByRecursion, remove};
ghost use Rattle.std.specs.Ordering.{nat_cmp};
ghost use Rattle.cip_manager.specs.Index.{ids, keys, Rises};

use arrayvec::ArrayVec;
use std::cmp::Ordering;
use std::marker::Model;

/// The most entries of an index.
const MAX_ENTRIES: usize = 64;

/// Counts comparisons with an ID.
#[derive(Clone, Copy, Debug, Default, PartialEq, Eq)]
pub struct Steps {
    pub count: u64,
}

/// The ID of an open connection, and the key of its slot. A key is not an ID: keys are used again.
#[derive(Clone, Copy, Default)]
pub struct Entry {
    id: u32,
    key: usize,
}

/// An entry for each open connection, in ascending order of IDs.
///
/// Only `compare` reads an ID: it compares one entry and counts that. A walk over all connections reads their keys,
/// one position after another, and no ID.
#[derive(Drop)]
pub struct Index {
    entries: ArrayVec<Entry, MAX_ENTRIES>,
}

impl Model for Index {
    ghost use Rattle.std.specs.Prelude.{List};
    ghost use Rattle.cip_manager.specs.declared.index.Entry.{Entry as IndexEntry};

    ghost Value = { List IndexEntry };

    ghost use Rattle.cip_manager.specs.Index.{ids, Rises};

    ghost view = { λ i. i.entries.items };

    ghost invariant = { λ i. Rises (ids i.entries.items) };
}

impl Index {
    /// An index with no entry.
    pub fn new() -> Index
        ensures { result ≡ [] }
    {
        Index {
            entries: ArrayVec::new(),
        }
    }

    /// How many entries there are.
    #[inline(always)]
    pub fn len(&self) -> usize
        ensures count { result ≡ length self.now }
        ensures most { result ≤ 64 }
        ensures rising { Rises (ids self.now) }
    {
        self.entries.len()
    }

    /// Compares the ID of the entry at this position with an ID. This is one step.
    #[inline(always)]
    pub fn compare(&self, position: usize, id: u32, steps: &mut Steps) -> Ordering
        requires position { position < length self.now }
        requires counts { steps.old.count + 1 < 2 ^ 64 }
        ensures order { result ≡ nat_cmp (slice_index (ids self.now) position) id }
        ensures counted { steps.new.count ≡ steps.old.count + 1 }
    {
        steps.count += 1;
        let other = self.entries[position].id;
        if other < id {
            Ordering::Less
        } else if other > id {
            Ordering::Greater
        } else {
            Ordering::Equal
        }
    }

    /// The key of the entry at this position.
    #[inline(always)]
    pub fn key(&self, position: usize) -> usize
        requires { position < length self.now }
        ensures key { result ≡ slice_index (keys self.now) position }
        ensures rising { Rises (ids self.now) }
    {
        self.entries[position].key
    }

    /// Appends an entry. Its ID must be above the others.
    pub fn push(&mut self, id: u32, key: usize)
        requires room { length self.old < 64 }
        requires above { AllByRecursion (λ other. other < id) (ids self.old) }
        ensures { self.new ≡ self.old ++ record { id = id; key = key } ∷ [] }
    {
        self.entries.push(Entry { id, key });
    }

    /// Removes the entry at this position, and returns its key. Later entries move up.
    pub fn remove(&mut self, position: usize) -> usize
        requires { position < length self.old }
        ensures key { result ≡ slice_index (keys self.old) position }
        ensures removed { self.new ≡ remove self.old position }
        ensures rising { Rises (ids self.old) }
    {
        self.entries.remove(position).key
    }
}
