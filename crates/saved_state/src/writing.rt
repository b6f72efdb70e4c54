//! Writing a state into a buffer, entry after entry.
//!
//! Text: docs/STATE.md.

ghost use Rattle.std.specs.Prelude.{ℕ, List, ◌≡◌, ◌+◌, ◌<◌, ◌≤◌, ◌^◌, ◌++◌, length, drop, MatchOption, IfOk, IfErr, OnErr};
ghost use Rattle.std.specs.Prelude.{Some, None};
ghost use Rattle.saved_state.specs.States.{Entry, entry, entries as entry_bytes, size, rise_from, spelled};
ghost use Rattle.saved_state.specs.Writing.{entry_number, head_of, entries_refusal, write_refusal};

use crate::entry::{ENTRY_HEAD, EntryView, KEY_END};
use crate::fault::WriteFault;
use crate::fnv::checksum;
use crate::numbers::{put_udint, put_ulint};
use crate::state::{CHECKSUM, HEAD, MARK, VERSION};

/// The most bytes of the entries of a state.
const ENTRIES_LIMIT: usize = u32::MAX as usize - HEAD - CHECKSUM;

/// What an entry begins with.
#[derive(Clone, Copy, Debug, PartialEq, Eq)]
pub struct EntryHead {
    /// The key, below 2^63.
    pub key: u64,
    /// How many bytes are kept under the key.
    pub len: usize,
}

/// What has entries to save, in the order of their keys.
///
/// ```
/// let size = write(&source, generation, buffer)?;
/// keep(&buffer[..size]);
/// ```
pub trait EntrySource {
    // The entries, in their order.
    ghost entries: { Self → List Entry };

    /// The head of the entry at an index, or `None` past the last entry.
    fn head(&self, index: usize) -> Option<EntryHead>
        ensures { MatchOption result (length (entries self.now) ≤ index)
            (λ head. (index < length (entries self.now)) × (head ≡ head_of (entry_number index (entries self.now)))) };

    /// Copies the bytes of the entry at an index. The slice has their size.
    fn copy(&self, index: usize, into: &mut [u8])
        requires index { index < length (entries self.now) }
        requires size { length into.old ≡ length (entry_number index (entries self.now)).bytes }
        ensures { into.new ≡ (entry_number index (entries self.now)).bytes };
}

/// How many entries there are, and how many bytes they have.
#[derive(Clone, Copy)]
struct Extent {
    count: u32,
    size: usize,
}

/// How many bytes the state with these entries has.
///
/// # Errors
///
/// `Order` if the keys do not rise, `TooLong` if it has 2^32 bytes or more.
pub fn saved_size<S: EntrySource>(source: &S) -> Result<usize, WriteFault>
    ensures size { IfOk result (λ n. n ≡ size (S.entries source.now)) }
    ensures allowed { IfOk result (λ n. entries_refusal (S.entries source.now) ≡ None) }
    ensures refused { IfErr result (λ fault. entries_refusal (S.entries source.now) ≡ Some fault) }
{
    let extent = checked_extent(source)?;
    Ok(HEAD + extent.size + CHECKSUM)
}

/// Writes the state with these entries and this generation to the front of the buffer. Returns its size in bytes.
///
/// # Errors
///
/// `Order` if the keys do not rise, `TooLong` if the state has 2^32 bytes or more, `Full` if it does not fit. Then
/// nothing is written.
pub fn write<S: EntrySource>(
    source: &S,
    generation: u64,
    buffer: &mut [u8],
) -> Result<usize, WriteFault>
    ensures size { IfOk result (λ n. n ≡ size (S.entries source.now)) }
    ensures written { IfOk result (λ n. buffer.new
        ≡ spelled (record { generation = generation; entries = S.entries source.now }) ++ drop n buffer.old) }
    ensures allowed { IfOk result (λ n. write_refusal (length buffer.old) (S.entries source.now) ≡ None) }
    ensures refused { IfErr result (λ fault. write_refusal (length buffer.old) (S.entries source.now) ≡ Some fault) }
    ensures unchanged { OnErr result (buffer.new ≡ buffer.old) }
{
    let extent = checked_extent(source)?;
    let size = HEAD + extent.size + CHECKSUM;
    if buffer.len() < size {
        return Err(WriteFault::Full);
    }
    write_state(source, generation, extent.count, &mut buffer[..size]);
    Ok(size)
}

/// How many entries there are, and how many bytes they have, if a state can have them.
fn checked_extent<S: EntrySource>(source: &S) -> Result<Extent, WriteFault>
    ensures extent { IfOk result (λ extent. (extent.count ≡ length (S.entries source.now))
        × (extent.size ≡ length (entry_bytes (S.entries source.now)))) }
    ensures allowed { IfOk result (λ extent. entries_refusal (S.entries source.now) ≡ None) }
    ensures refused { IfErr result (λ fault. entries_refusal (S.entries source.now) ≡ Some fault) }
{
    if !do_keys_rise(source) {
        return Err(WriteFault::Order);
    }
    extent_of(source).ok_or(WriteFault::TooLong)
}

/// Whether the keys rise and are below 2^63.
fn do_keys_rise<S: EntrySource>(source: &S) -> bool
    ensures { result ≡ rise_from 0 (S.entries source.now) }
{
    let mut index = 0;
    let mut least = 0;
    while let Some(head) = source.head(index) {
        if head.key < least || head.key >= KEY_END {
            return false;
        }
        least = head.key + 1;
        index += 1;
    }
    true
}

/// How many entries there are, and how many bytes they have, if a state can have so many.
fn extent_of<S: EntrySource>(source: &S) -> Option<Extent>
    ensures { MatchOption result (2 ^ 32 ≤ size (S.entries source.now))
        (λ extent. (extent.count ≡ length (S.entries source.now))
        × (extent.size ≡ length (entry_bytes (S.entries source.now))) × (size (S.entries source.now) < 2 ^ 32)) }
{
    let mut count = 0;
    let mut size = 0;
    while let Some(head) = source.head(count as usize) {
        if ENTRIES_LIMIT - size < ENTRY_HEAD || ENTRIES_LIMIT - size - ENTRY_HEAD < head.len {
            return None;
        }
        size += ENTRY_HEAD + head.len;
        count += 1;
    }
    Some(Extent { count, size })
}

/// Writes a state over the whole buffer, which has its size.
fn write_state<S: EntrySource>(source: &S, generation: u64, count: u32, buffer: &mut [u8])
    requires counted { count ≡ length (S.entries source.now) }
    requires sized { length buffer.old ≡ size (S.entries source.now) }
    requires limit { size (S.entries source.now) < 2 ^ 32 }
    ensures { buffer.new ≡ spelled (record { generation = generation; entries = S.entries source.now }) }
{
    let size = buffer.len();
    let end = size - CHECKSUM;
    put_ulint(buffer, 0, MARK);
    put_udint(buffer, 8, VERSION);
    put_udint(buffer, 12, size as u32);
    put_ulint(buffer, 16, generation);
    put_udint(buffer, 24, count);
    write_entries(source, &mut buffer[HEAD..end]);
    let sum = checksum(&buffer[..end]);
    put_ulint(buffer, end, sum);
}

/// Writes the entries over the whole slice, which has their size.
fn write_entries<S: EntrySource>(source: &S, into: &mut [u8])
    requires sized { length into.old ≡ length (entry_bytes (S.entries source.now)) }
    requires limit { length into.old < 2 ^ 32 }
    ensures { into.new ≡ entry_bytes (S.entries source.now) }
{
    let mut index = 0;
    let mut at = 0;
    while let Some(head) = source.head(index) {
        let end = at + ENTRY_HEAD + head.len;
        write_entry(source, index, head, &mut into[at..end]);
        at = end;
        index += 1;
    }
}

/// Writes an entry over the whole slice, which has its size.
fn write_entry<S: EntrySource>(source: &S, index: usize, head: EntryHead, into: &mut [u8])
    requires index { index < length (S.entries source.now) }
    requires head { head ≡ head_of (entry_number index (S.entries source.now)) }
    requires sized { length into.old ≡ 12 + length (entry_number index (S.entries source.now)).bytes }
    requires limit { length into.old < 2 ^ 32 }
    ensures { into.new ≡ entry (entry_number index (S.entries source.now)) }
{
    put_ulint(into, 0, head.key);
    put_udint(into, 8, head.len as u32);
    source.copy(index, &mut into[ENTRY_HEAD..]);
}

/// Entries that lie in memory.
///
/// ```
/// let entries = [EntryView { key: 1, bytes: name }, EntryView { key: 2, bytes: speed }];
/// let size = write(&EntryList(&entries), 1, buffer)?;
/// ```
#[derive(Clone, Copy, Debug)]
pub struct EntryList<'a>(pub &'a [EntryView<'a>]);

impl EntrySource for EntryList<'_> {
    ghost use Rattle.std.specs.Prelude.{map};
    ghost use Rattle.saved_state.specs.States.{entry_of};

    ghost entries = { λ list. map entry_of list.0.now };

    fn head(&self, index: usize) -> Option<EntryHead> {
        let entry = self.0.get(index)?;
        Some(EntryHead {
            key: entry.key,
            len: entry.bytes.len(),
        })
    }

    fn copy(&self, index: usize, into: &mut [u8]) {
        into.copy_from_slice(self.0[index].bytes);
    }
}
