//! Puts entries back into a device that has just started.
ghost use Rattle.std.specs.Prelude.{◌≡◌, Some};
ghost use Rattle.device_state.specs.Restored.{done, identity_outcome, value_done, by_name, restored_entry};
ghost use Rattle.device_state.specs.Saved.{state_of, entry_of};

use crate::identity::is_same_device;
use crate::key::name_in;
use crate::ledger::restore_in_ledger;
use cip_bytes::protocol::IDENTITY;
use cip_ledger::{LEDGER, Ledger};
use cip_objects::{AttributeName, Objects, ReplyBuf};

/// What became of an entry.
#[derive(Clone, Copy, Debug, PartialEq, Eq)]
pub enum Outcome {
    /// The value is as it was saved.
    Used,
    /// The device has no such attribute or no ledger. Nothing changes.
    Unknown,
    /// The bytes are not a value of the attribute: they have another size, or are a text that is longer than its room. Or
    /// the ledger cannot have this slot: none is free, its originator has one, or the bytes are not those of a slot. Nothing
    /// changes.
    Unfit,
    /// The entries are of another device. Nothing changes.
    OtherDevice,
}

/// Puts an entry back, in a device that has just started and that no peer has reached.
///
/// A value that has another size than before, because the configuration changed, is left as the configuration made it,
/// and so is everything that no entry names.
///
/// ```
/// if restore(&mut objects, &mut ledger, key, bytes) == Outcome::Unfit {
///     // the attribute has another type than before: its value is that of the configuration
/// }
/// ```
pub fn restore(
    objects: &mut Objects,
    ledger: &mut Option<Ledger>,
    key: u64,
    bytes: &[u8],
) -> Outcome
    ensures { done (state_of objects.new ledger.new) result
        ≡ restored_entry (state_of objects.old ledger.old) (entry_of key bytes.now) }
{
    match name_in(key) {
        Some(name) => restore_named(objects, ledger, name, bytes),
        None => Outcome::Unknown,
    }
}

/// Puts the value of this name back.
fn restore_named(
    objects: &mut Objects,
    ledger: &mut Option<Ledger>,
    name: AttributeName,
    bytes: &[u8],
) -> Outcome
    ensures { done (state_of objects.new ledger.new) result
        ≡ by_name (state_of objects.old ledger.old) bytes.now (Some name) }
{
    if name.class == IDENTITY {
        return compare_identity(objects, name, bytes);
    }
    if name.class == LEDGER {
        return match ledger {
            Some(ledger) => restore_in_ledger(ledger, name, bytes),
            None => Outcome::Unknown,
        };
    }
    restore_value(objects, name, bytes)
}

/// Compares which device an entry is of with this one.
fn compare_identity(objects: &Objects, name: AttributeName, bytes: &[u8]) -> Outcome
    ensures { result ≡ identity_outcome objects.now name bytes.now }
{
    if name.instance != 1 || name.attribute != 0 {
        return Outcome::Unknown;
    }
    if is_same_device(objects, bytes) {
        Outcome::Used
    } else {
        Outcome::OtherDevice
    }
}

/// Puts the value of an attribute back.
fn restore_value(objects: &mut Objects, name: AttributeName, bytes: &[u8]) -> Outcome
    ensures { done objects.new result ≡ value_done objects.old name bytes.now }
{
    if objects.restore(name, bytes) {
        return Outcome::Used;
    }
    let mut value = ReplyBuf::new();
    if objects.read_attribute(
        name.class,
        u32::from(name.instance),
        name.attribute,
        &mut value,
    ) {
        Outcome::Unfit
    } else {
        Outcome::Unknown
    }
}
