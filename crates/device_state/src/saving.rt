//! Gives the entries in which the state of a device is saved.
ghost use Rattle.std.specs.Prelude.{◌≡◌, ◌<◌, ◌^◌, ◌++◌, Some, IfSome, slice_get, option_map};
ghost use Rattle.device_state.specs.Saved.{state_of, saved, ledger_entries, value_entries, object_entries, entry_in};

use crate::identity::{identity_key, needs_version_2, write_versioned};
use crate::key::key_of;
use crate::ledger::ledger_entry;
use cip_ledger::Ledger;
use cip_objects::{Objects, ReplyBuf};

/// The key of an entry of a device without a queue, by the entry's index, and its bytes, which are written to `bytes` in
/// place of the old content. `None` past the last entry. The first says which device it is; behind that is the version of
/// the state, 2, if the ledger has a command that was withdrawn. Then come the ledger, if there is one, and the values that
/// are kept, in the order of the configuration.
///
/// ```
/// let mut bytes = ReplyBuf::new();
/// let first = saved_entry(adapter.objects(), adapter.ledger(), 0, &mut bytes); // `identity_key()`, and 8 or 9 bytes
/// ```
pub fn saved_entry(
    objects: &Objects,
    ledger: Option<&Ledger>,
    index: usize,
    bytes: &mut ReplyBuf,
) -> Option<u64>
    ensures entry { entry_in result bytes.new.items ≡ slice_get (saved (state_of objects.now (option_map (λ l. l.now) ledger.entry))) index }
    ensures small { IfSome result (λ key. key < 2 ^ 48) }
{
    if index == 0 {
        write_versioned(objects, needs_version_2(None, ledger), bytes);
        return Some(identity_key());
    }
    match ledger {
        Some(ledger) => entry_with_ledger(objects, ledger, index - 1, bytes),
        None => value_entry(objects, index - 1, bytes),
    }
}

/// The key of an entry of the objects by its index, and its bytes, which are written to `bytes` in place of the old content.
/// `None` past the last entry. The first says which device it is; behind that is the version of the state if it is 2, as
/// `needs_version_2` says. Then come the values. Keep these entries if you keep those of a queue (`write_queue_entry`). An
/// older program refuses a state of version 2 as that of another device.
///
/// ```
/// let is_version_2 = needs_version_2(adapter.queue(), adapter.ledger());
/// // `identity_key()`, and 8 or 9 bytes
/// let first = object_entry(adapter.objects(), is_version_2, 0, &mut bytes);
/// ```
pub fn object_entry(
    objects: &Objects,
    is_version_2: bool,
    index: usize,
    bytes: &mut ReplyBuf,
) -> Option<u64>
    ensures entry { entry_in result bytes.new.items
        ≡ slice_get (object_entries objects.now is_version_2) index }
    ensures small { IfSome result (λ key. key < 2 ^ 48) }
{
    if index == 0 {
        write_versioned(objects, is_version_2, bytes);
        return Some(identity_key());
    }
    value_entry(objects, index - 1, bytes)
}

/// The entry at an index behind the first, of a device with a ledger.
fn entry_with_ledger(
    objects: &Objects,
    ledger: &Ledger,
    index: usize,
    bytes: &mut ReplyBuf,
) -> Option<u64>
    ensures entry { entry_in result bytes.new.items
        ≡ slice_get (ledger_entries (Some ledger.now) ++ value_entries objects.now) index }
    ensures small { IfSome result (λ key. key < 2 ^ 48) }
{
    let own = 1 + ledger.slot_count();
    if index < own {
        return ledger_entry(ledger, index, bytes);
    }
    value_entry(objects, index - own, bytes)
}

/// The entry of a value that is kept, by its index among these.
fn value_entry(objects: &Objects, index: usize, bytes: &mut ReplyBuf) -> Option<u64>
    ensures entry { entry_in result bytes.new.items ≡ slice_get (value_entries objects.now) index }
    ensures small { IfSome result (λ key. key < 2 ^ 48) }
{
    let name = objects.kept_name(index)?;
    objects.read_attribute(name.class, u32::from(name.instance), name.attribute, bytes);
    Some(key_of(name.class, name.instance, name.attribute))
}
