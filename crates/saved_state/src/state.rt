//! A state, lent from the bytes that spell it.
//!
//! ```text
//!  state   [ SOMBIKPT | version | size | generation | count ][ entry ][ entry ] .. [ checksum ]
//!            8          4         4      8            4                              8
//! ```
//!
//! Text: docs/STATE.md.

ghost use Rattle.std.specs.Prelude.{◌≡◌, ◌≤◌, ◌<◌, ◌^◌, ◌↔◌, length, List, Ok, Err, Some, None, IfNone};
ghost use Rattle.std.specs.Option.{option_copied};
ghost use Rattle.saved_state.specs.declared.fault.StateFault.{StateFault};
ghost use Rattle.saved_state.specs.States.{State, IsState, spelled, kept_under};
ghost use Rattle.saved_state.specs.Reading.{state_of, fault_of, head_fault};

use crate::entry::{Entries, entries_fault};
use crate::fault::StateFault;
use crate::fnv::checksum;
use crate::numbers::{udint_at, ulint_at};
use std::marker::Model;

/// The mark of a state: the text `SOMBIKPT`, as a number.
pub(crate) const MARK: u64 = 0x5450_4b49_424d_4f53;

/// The version of the format.
pub(crate) const VERSION: u32 = 1;

/// The size of the head in bytes: all that comes before the first entry.
pub(crate) const HEAD: usize = 28;

/// The size of the checksum in bytes.
pub(crate) const CHECKSUM: usize = 8;

/// A state, lent from the bytes that spell it: a generation, and entries in the order of their keys.
///
/// ```
/// let state = SavedState::read(bytes)?;
/// let speed = state.find(key); // what is kept under this key, if anything is
/// ```
#[derive(Debug, Drop)]
pub struct SavedState<'a> {
    generation: u64,
    count: u32,
    text: &'a [u8],
}

impl<'a> Model for SavedState<'a> {
    ghost use Rattle.saved_state.specs.States.{State, state_code};
    ghost use Rattle.saved_state.specs.Reading.{first_entries};

    ghost Value = { State };

    ghost coded = { state_code };

    ghost view = { λ s. record { generation = s.generation; entries = first_entries s.count s.text.now } };
}

impl<'a> SavedState<'a> {
    /// Reads all of the bytes as a state, and lends it.
    ///
    /// # Errors
    ///
    /// The first fault, in the order of [`StateFault`].
    pub fn read(bytes: &'a [u8]) -> Result<SavedState<'a>, StateFault>
        // A state is read if and only if the bytes spell it.
        ensures spelled { (s : State) → (result ≡ Ok s) ↔ (IsState s × (bytes.now ≡ spelled s)) }
        ensures refused { (fault : StateFault) → (result ≡ Err fault) ↔ (fault_of bytes.now ≡ Some fault) }
    {
        read_state(bytes)
    }

    /// How many changes came before the state was saved.
    pub fn generation(&self) -> u64
        ensures { result ≡ self.now.generation }
    {
        self.generation
    }

    /// The entries, in the order of their keys.
    pub fn entries(&self) -> Entries<'a>
        ensures entries { result ≡ self.now.entries }
        ensures few { length self.now.entries < 2 ^ 32 }
    {
        Entries::of(self.count, self.text)
    }

    /// What is kept under the key, if anything is.
    pub fn find(&self, key: u64) -> Option<&'a [u8]>
        ensures { option_copied result ≡ kept_under key self.now.entries }
    {
        for entry in self.entries() {
            if entry.key == key {
                return Some(entry.bytes);
            }
        }
        None
    }
}

/// Reads all of the bytes as a state: the computation.
fn read_state(bytes: &[u8]) -> Result<SavedState<'_>, StateFault>
    ensures { result ≡ state_of bytes.now }
{
    if let Some(fault) = head_fault(bytes) {
        return Err(fault);
    }
    let end = bytes.len() - CHECKSUM;
    let body = &bytes[..end];
    if checksum(body) != ulint_at(bytes, end) {
        return Err(StateFault::Checksum);
    }
    let generation = ulint_at(bytes, 16);
    let count = udint_at(bytes, 24);
    let text = &body[HEAD..];
    match entries_fault(count, text) {
        Some(fault) => Err(fault),
        None => Ok(SavedState {
            generation,
            count,
            text,
        }),
    }
}

/// What the head shows, if the bytes are not a state.
fn head_fault(bytes: &[u8]) -> Option<StateFault>
    ensures fault { result ≡ head_fault bytes.now }
    ensures sized { IfNone result (36 ≤ length bytes.now) }
{
    if bytes.len() < 8 || ulint_at(bytes, 0) != MARK {
        return Some(StateFault::NotAState);
    }
    if bytes.len() < 12 {
        return Some(StateFault::Cut);
    }
    let version = udint_at(bytes, 8);
    if version != VERSION {
        return Some(StateFault::Version(version));
    }
    if bytes.len() < HEAD + CHECKSUM {
        return Some(StateFault::Cut);
    }
    let size = udint_at(bytes, 12) as usize;
    if bytes.len() < size {
        return Some(StateFault::Cut);
    }
    if bytes.len() > size {
        return Some(StateFault::TooLong);
    }
    None
}
