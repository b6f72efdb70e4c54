//! What is kept of a round: its number, and a checksum of everything that is kept.
ghost use Rattle.std.specs.Prelude.{◌≡◌, ◌++◌, List, ℕ, [], ◌∷◌, All, IfOk};
ghost use Rattle.saved_state.specs.Checksum.{checksum};
ghost use Rattle.enip_keep.specs.Kept.{pair_of, pairs_of, IsKeepable};
ghost use Rattle.enip_keep.specs.Rounds.{round_in, round_bytes_in, round_of_bytes, round_bytes, are_of_device};
ghost use Rattle.enip_keep.specs.Rounds.{entry_bytes, checksum_of, has_checksum, is_whole};

use crate::Entry;
use byteorder::{ByteOrder, LittleEndian};
use saved_state::{checksum, checksum_more};
use std::alloc::{AllocError, Global};

/// The key of the entry that has the number of the last round, in eight bytes, and the checksum, in eight bytes more,
/// the least byte first. No device has an entry under this key.
pub(crate) const ROUND_KEY: u64 = 0;

/// How many bytes are kept under that key.
const ROUND_BYTES: usize = 16;

/// The number of the last round in these entries, 0 if they have none.
pub(crate) fn round_in(entries: &[Entry]) -> u64
    ensures { result ≡ round_in (pairs_of entries.now) }
{
    round_of_bytes(round_bytes_in(entries))
}

/// Whether the checksum in these entries is right. It is if there are no entries.
pub(crate) fn is_whole(entries: &[Entry]) -> bool
    ensures { result ≡ is_whole (pairs_of entries.now) }
{
    entries.is_empty() || has_checksum(round_bytes_in(entries), entries)
}

/// Whether none of these entries has the key of the round.
pub(crate) fn are_of_device(entries: &[Entry]) -> bool
    ensures { result ≡ are_of_device (pairs_of entries.now) }
{
    match entries.split_first() {
        Some((first, others)) => first.key != ROUND_KEY && are_of_device(others),
        None => true,
    }
}

/// The entry of a round with the checksum of these entries.
pub(crate) fn round_entry(alloc: Global, round: u64, entries: &[Entry]) -> Result<Entry, AllocError>
    ensures pair { IfOk result (λ e. pair_of e ≡ (0, round_bytes round (pairs_of entries.now))) }
    ensures keepable { IfOk result (λ e. IsKeepable e) }
{
    let sum = checksum_of(round, entries);
    let mut bytes = Vec::from_slice(alloc, &round.to_le_bytes())?;
    bytes.extend_from_slice(&sum.to_le_bytes())?;
    Ok(Entry {
        key: ROUND_KEY,
        bytes,
    })
}

/// Copies of these changes, and behind them this entry.
pub(crate) fn with_entry(
    alloc: Global,
    changes: &[Entry],
    entry: Entry,
) -> Result<Vec<Entry>, AllocError>
    requires changes { All IsKeepable changes.now }
    requires entry { IsKeepable entry }
    ensures pairs { IfOk result (λ all. pairs_of all.items ≡ pairs_of changes.now ++ pair_of entry ∷ []) }
    ensures keepable { IfOk result (λ all. All IsKeepable all.items) }
{
    let mut all = Vec::with_capacity(alloc, changes.len())?;
    for change in changes {
        all.push(Entry {
            key: change.key,
            bytes: Vec::from_slice(alloc, &change.bytes)?,
        })?;
    }
    all.push(entry)?;
    Ok(all)
}

/// What is kept under the key of the round, nothing if there is no such entry.
fn round_bytes_in(entries: &[Entry]) -> &[u8]
    ensures { result.now ≡ round_bytes_in (pairs_of entries.now) }
{
    for entry in entries {
        if entry.key == ROUND_KEY {
            return entry.bytes.as_slice();
        }
    }
    &[]
}

/// The number in the first eight bytes, 0 if there are fewer.
fn round_of_bytes(bytes: &[u8]) -> u64
    ensures { result ≡ round_of_bytes bytes.now }
{
    if bytes.len() < 8 {
        return 0;
    }
    LittleEndian::read_u64(bytes)
}

/// Whether these bytes are a number, and its checksum with these entries.
fn has_checksum(bytes: &[u8], entries: &[Entry]) -> bool
    ensures { result ≡ has_checksum bytes.now (pairs_of entries.now) }
{
    if bytes.len() != ROUND_BYTES {
        return false;
    }
    LittleEndian::read_u64(&bytes[8..]) == checksum_of(round_of_bytes(bytes), entries)
}

/// The checksum of a round: of its number and of all these entries but its own.
fn checksum_of(round: u64, entries: &[Entry]) -> u64
    ensures { result ≡ checksum_of round (pairs_of entries.now) }
{
    let mut sum = checksum(&round.to_le_bytes());
    for entry in entries {
        sum = checksum_with(sum, entry);
    }
    sum
}

/// The checksum of bytes, of which `earlier` is the checksum, and of an entry behind them.
fn checksum_with(earlier: u64, entry: &Entry) -> u64
    ensures { (others : List ℕ) → earlier ≡ checksum others
        → result ≡ checksum (others ++ entry_bytes (pair_of entry.now)) }
{
    if entry.key == ROUND_KEY {
        return earlier;
    }
    let with_key = checksum_more(earlier, &entry.key.to_le_bytes());
    let with_length = checksum_more(with_key, &(entry.bytes.len() as u64).to_le_bytes());
    checksum_more(with_length, &entry.bytes)
}
