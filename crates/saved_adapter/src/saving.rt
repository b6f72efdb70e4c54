//! Writes the state of an adapter, and says whether anything has changed since.

ghost use Rattle.std.specs.Prelude.{◌≡◌, ◌++◌, length, drop, Some, IfOk, IfErr, OnErr};
ghost use Rattle.saved_state.specs.States.{size, spelled};
ghost use Rattle.saved_state.specs.Writing.{write_refusal};
ghost use Rattle.saved_adapter.specs.Entries.{are_same, entries_in_doubt, generation_after, generation_of, last_state};

use crate::entries::AdapterEntries;
use cip_ledger::DoubtfulCommand;
use cip_objects::ReplyBuf;
use enip_adapter::Adapter;
use saved_state::{SavedState, StateFault, WriteFault, write};

/// Writes the state of an adapter to the front of the buffer, with this generation, and with a command in doubt if
/// there is one. Returns its size in bytes. It allocates nothing.
///
/// # Errors
///
/// `Order` if the assemblies or the application objects are not configured in rising order, `Full` if the state does
/// not fit. Then nothing is written.
///
/// ```
/// let size = save(&adapter, adapter_executes, generation, buffer)?;
/// ```
pub fn save(
    adapter: &Adapter,
    doubt: Option<DoubtfulCommand>,
    generation: u64,
    buffer: &mut [u8],
) -> Result<usize, WriteFault>
    ensures size { IfOk result (λ n. n ≡ size (entries_in_doubt doubt adapter.now)) }
    ensures written { IfOk result (λ n. buffer.new
        ≡ spelled (record { generation = generation; entries = entries_in_doubt doubt adapter.now })
        ++ drop n buffer.old) }
    ensures refused { IfErr result (λ fault.
        write_refusal (length buffer.old) (entries_in_doubt doubt adapter.now) ≡ Some fault) }
    ensures unchanged { OnErr result (buffer.new ≡ buffer.old) }
{
    write(&AdapterEntries::new(adapter, doubt), generation, buffer)
}

/// The generation of what is kept of an adapter now, with a command in doubt if there is one: that of the last state if
/// it has the same entries, otherwise the next, modulo 2^64. `last` has the bytes of the last state, or is empty if
/// nothing was saved yet; then the generation is 1.
///
/// # Errors
///
/// The first fault of the last state, if it is not empty.
///
/// ```
/// if generation(&adapter, None, last)? != kept {
///     // something has changed since `last` was saved
/// }
/// ```
pub fn generation(
    adapter: &Adapter,
    doubt: Option<DoubtfulCommand>,
    last: &[u8],
) -> Result<u64, StateFault>
    ensures { result ≡ generation_of (last_state last.now) (entries_in_doubt doubt adapter.now) }
{
    if last.is_empty() {
        return Ok(1);
    }
    match SavedState::read(last) {
        Ok(state) => Ok(generation_after(&state, &AdapterEntries::new(adapter, doubt))),
        Err(why) => Err(why),
    }
}

/// The generation of these entries after a state.
fn generation_after(last: &SavedState<'_>, entries: &AdapterEntries<'_>) -> u64
    ensures { result ≡ generation_after last.now entries.now }
{
    if is_same(entries, last) {
        last.generation()
    } else {
        last.generation().wrapping_add(1)
    }
}

/// Whether a state has these entries.
fn is_same(entries: &AdapterEntries<'_>, state: &SavedState<'_>) -> bool
    ensures { result ≡ are_same entries.now state.now.entries }
{
    let mut bytes = ReplyBuf::new();
    let mut index = 0;
    for entry in state.entries() {
        match entries.entry(index, &mut bytes) {
            Some(key) if key == entry.key && bytes.as_slice() == entry.bytes => index += 1,
            _ => return false,
        }
    }
    entries.entry(index, &mut bytes).is_none()
}
