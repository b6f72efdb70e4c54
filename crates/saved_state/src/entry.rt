//! The entries of a state, lent from the bytes that spell them.
//!
//! ```text
//!  entry   [ key | length | bytes ]
//!            8     4
//! ```

ghost use Rattle.std.specs.Prelude.{◌≡◌, ◌≤◌, ◌<◌, ◌^◌, drop, length, MatchOption};
ghost use Rattle.std.specs.Iterator.{YieldsFirstBy, item_count};
ghost use Rattle.saved_state.specs.States.{entry_of};
ghost use Rattle.saved_state.specs.Reading.{entry_at, size_at, entries_fault};

use crate::fault::StateFault;
use crate::numbers::{udint_at, ulint_at};
use std::marker::Model;

/// The size of an entry's head in bytes: its key and its length.
pub(crate) const ENTRY_HEAD: usize = 12;

/// All keys are below this one.
pub(crate) const KEY_END: u64 = 1 << 63;

/// An entry, lent from where its bytes are.
#[derive(Clone, Copy, Debug, PartialEq, Eq)]
pub struct EntryView<'a> {
    /// The key, below 2^63.
    pub key: u64,
    /// What is kept under the key.
    pub bytes: &'a [u8],
}

/// An iterator over the entries of a state, in the order of their keys.
///
/// ```
/// for entry in state.entries() {
///     restore(entry.key, entry.bytes);
/// }
/// ```
#[derive(Debug, Drop)]
pub struct Entries<'a> {
    left: u32,
    text: &'a [u8],
}

impl<'a> Model for Entries<'a> {
    ghost use Rattle.std.specs.Prelude.{List};
    ghost use Rattle.std.specs.Coded.{coded_list};
    ghost use Rattle.saved_state.specs.States.{Entry, entry_code};
    ghost use Rattle.saved_state.specs.Reading.{first_entries};

    ghost Value = { List Entry };

    ghost coded = { coded_list entry_code };

    ghost view = { λ s. first_entries s.left s.text.now };
}

impl<'a> Entries<'a> {
    ghost use Rattle.saved_state.specs.Reading.{first_entries};

    /// The entries at the front of these bytes.
    pub(crate) fn of(count: u32, text: &'a [u8]) -> Entries<'a>
        ensures entries { result ≡ first_entries count text.now }
        ensures few { length (first_entries count text.now) < 2 ^ 32 }
    {
        Entries { left: count, text }
    }
}

impl<'a> Iterator for Entries<'a> {
    type Item = EntryView<'a>;

    ghost next_gives = { YieldsFirstBy entry_of (λ left. left) };

    ghost remaining = { item_count (λ left. left) };

    fn next(&mut self) -> Option<EntryView<'a>> {
        if self.left == 0 {
            return None;
        }
        let (entry, rest) = first_entry(self.text)?;
        self.left -= 1;
        self.text = rest;
        Some(entry)
    }
}

/// Why the bytes are not so many entries with rising keys, if they are not.
pub(crate) fn entries_fault(count: u32, text: &[u8]) -> Option<StateFault>
    ensures { result ≡ entries_fault count 0 text.now }
{
    let mut rest = text;
    let mut least = 0;
    for index in 0..count {
        let Some((entry, next)) = first_entry(rest) else {
            return Some(StateFault::Layout);
        };
        if entry.key < least || entry.key >= KEY_END {
            return Some(StateFault::Order);
        }
        rest = next;
        least = entry.key + 1;
    }
    // Nothing may follow the last entry.
    if rest.is_empty() {
        None
    } else {
        Some(StateFault::Layout)
    }
}

/// Reads the entry at the front, if it is whole. Returns it with the rest.
fn first_entry(text: &[u8]) -> Option<(EntryView<'_>, &[u8])>
    ensures { MatchOption result (length text.now < size_at text.now)
        (λ x. (size_at text.now ≤ length text.now) × (entry_of x.0 ≡ entry_at text.now)
        × (x.1.now ≡ drop (size_at text.now) text.now)) }
{
    if text.len() < ENTRY_HEAD {
        return None;
    }
    let key = ulint_at(text, 0);
    let length = udint_at(text, 8) as usize;
    let rest = &text[ENTRY_HEAD..];
    // All the bytes must be there, otherwise the entry is cut short.
    if rest.len() < length {
        return None;
    }
    let entry = EntryView {
        key,
        bytes: &rest[..length],
    };
    Some((entry, &rest[length..]))
}
