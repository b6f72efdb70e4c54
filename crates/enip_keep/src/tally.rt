//! A device that counts.
ghost use Rattle.std.specs.Prelude.{◌≡◌, if◌then◌else◌, take, All, IfOk};
ghost use Rattle.enip_keep.specs.Kept.{pairs_of, IsKeepable};
ghost use Rattle.enip_keep.specs.Tally.{entries_of, total_in, is_tally};

use crate::{Device, Entry, KeepError};
use std::alloc::{AllocError, Global};
use std::marker::Model;

/// A device that counts: an example of a [`Device`], and for tests. A request adds a number, modulo 256, and is
/// answered with the total, which is kept. The configuration is the first total.
#[derive(Drop)]
pub struct Tally {
    alloc: Global,
    total: u8,
    /// The total that is kept. `None` if none is.
    kept: Option<u8>,
    /// The entry of the total.
    changes: Vec<Entry>,
    /// All answers since the start. The first `released` have left.
    answers: Vec<u8>,
    released: usize,
}

impl Model for Tally {
    ghost use Rattle.std.specs.Prelude.{◌≡◌, ◌≤◌, length, All};
    ghost use Rattle.enip_keep.specs.Kept.{pairs_of, IsKeepable};
    ghost use Rattle.enip_keep.specs.Tally.{TallyState, entries_of};

    ghost Value = { TallyState };

    ghost view = { λ t. record {
      total = t.total;
      kept = t.kept;
      answers = t.answers.items;
      released = t.released;
    } };

    ghost invariant = { λ t. (pairs_of t.changes.items ≡ entries_of t.total) × All IsKeepable t.changes.items
        × (t.released ≤ length t.answers.items) };
}

impl Tally {
    /// The total.
    pub fn total(&self) -> u8
        ensures { result ≡ self.now.total }
    {
        self.total
    }

    /// The answers that have left, the first of them first.
    pub fn sent(&self) -> &[u8]
        ensures { result.now ≡ take self.now.released self.now.answers }
    {
        &self.answers[..self.released]
    }
}

impl Device for Tally {
    type Configuration = u8;

    type Input = u8;

    type Guest = ();

    ghost use Rattle.std.specs.Prelude.{◌≡◌, ℕ, false, [], refl};
    ghost use Rattle.std.proofs.Common.{sym, append-nil};
    ghost use Rattle.enip_keep.specs.Tally.{added, entries_of, kept_of, total_in, is_tally, IsSilent, Answers, Releases};

    ghost Contents = { ℕ };

    ghost Requests = { ℕ };

    ghost executed = { added };

    ghost kept_part = { entries_of };

    ghost started = { total_in };

    ghost refuses = { λ first kept. is_tally kept ≡ false };

    ghost brings = { λ input request. request ≡ input };

    ghost contents = { λ t. t.total };

    ghost known_kept = { λ t. kept_of t.kept };

    ghost sends_nothing = { IsSilent };

    ghost holds_answers = { Answers };

    ghost sends_held = { Releases };

    ghost silent = { λ t. (refl, ([], sym (append-nil t.answers))) };

    fn start(alloc: Global, configuration: &u8, entries: &[Entry]) -> Result<Tally, KeepError> {
        let Some(total) = total_in(*configuration, entries) else {
            return Err(KeepError::Refused);
        };
        Ok(Tally {
            alloc,
            total,
            kept: if entries.is_empty() {
                None
            } else {
                Some(total)
            },
            changes: entries_of(alloc, total)?,
            answers: Vec::new(alloc),
            released: 0,
        })
    }

    fn serve(&mut self, input: u8, _guest: &mut ()) -> Result<(), KeepError> {
        let total = self.total.wrapping_add(input);
        let changes = entries_of(self.alloc, total)?;
        self.answers.push(total)?;
        self.total = total;
        self.changes = changes;
        Ok(())
    }

    fn changes(&self) -> &[Entry] {
        &self.changes
    }

    fn release(&mut self) {
        self.kept = Some(self.total);
        self.released = self.answers.len();
    }
}

/// The total that is kept, or the first one if none is. `None` if the entries are not those of a total.
fn total_in(first: u8, entries: &[Entry]) -> Option<u8>
    ensures { let kept = pairs_of entries.now in result ≡ (if is_tally kept then Some (total_in first kept) else None) }
{
    match entries {
        [] => Some(first),
        [entry] if entry.key == 1 && entry.bytes.len() == 1 => Some(entry.bytes[0]),
        _ => None,
    }
}

/// The entry of a total.
fn entries_of(alloc: Global, total: u8) -> Result<Vec<Entry>, AllocError>
    ensures pairs { IfOk result (λ all. pairs_of all.items ≡ entries_of total) }
    ensures keepable { IfOk result (λ all. All IsKeepable all.items) }
{
    let mut bytes = Vec::new(alloc);
    bytes.push(total)?;
    let mut all = Vec::new(alloc);
    all.push(Entry { key: 1, bytes })?;
    Ok(all)
}
