//! Which device the entries are of.
ghost use Rattle.arrayvec.specs.ArrayVec.{array_vec_len};
ghost use Rattle.std.specs.Prelude.{◌≡◌, ◌<◌, ◌^◌, option_map};
ghost use Rattle.device_state.specs.Keys.{key_of};
ghost use Rattle.device_state.specs.Restored.{is_same_device};
ghost use Rattle.device_state.specs.Saved.{has_mark, has_withdrawn, identity_bytes, needs_version_2, with_version};

use crate::key::key_of;
use crate::ledger::has_withdrawn;
use crate::queue::has_handed_all;
use cip_bytes::protocol::IDENTITY;
use cip_bytes::{append, append_u8};
use cip_ledger::Ledger;
use cip_objects::{Objects, ReplyBuf};
use cip_owner::Queue;

/// The version of a state with a mark or a withdrawn command. Any other one has version 1, which is not written.
const VERSION_2: u8 = 2;

/// The key of the entry that says which device it is.
pub fn identity_key() -> u64
    ensures key { result ≡ key_of IDENTITY 1 0 }
    ensures small { result < 2 ^ 48 }
{
    key_of(IDENTITY, 1, 0)
}

/// Writes the vendor, the product code and the serial number to `bytes`, in place of its old content.
pub(crate) fn write_identity(objects: &Objects, bytes: &mut ReplyBuf)
    ensures bytes { bytes.new.items ≡ identity_bytes objects.now }
    ensures short { array_vec_len bytes.new < 504 }
{
    objects.read_attribute(IDENTITY, 1, 1, bytes);
    let mut part = ReplyBuf::new();
    objects.read_attribute(IDENTITY, 1, 3, &mut part);
    append(bytes, &part);
    objects.read_attribute(IDENTITY, 1, 6, &mut part);
    append(bytes, &part);
}

/// Writes the same, and behind it the version of the state if that is 2.
pub(crate) fn write_versioned(objects: &Objects, is_version_2: bool, bytes: &mut ReplyBuf)
    ensures { bytes.new.items ≡ with_version is_version_2 (identity_bytes objects.now) }
{
    write_identity(objects, bytes);
    if is_version_2 {
        append_u8(bytes, VERSION_2);
    }
}

/// Whether a state has version 2: commands of its queue may wait that no owner was handed, or its ledger has a command that
/// was withdrawn. An older program would misread either, so it must refuse the state.
///
/// ```
/// let is_version_2 = needs_version_2(adapter.queue(), adapter.ledger());
/// ```
pub fn needs_version_2(queue: Option<&Queue>, ledger: Option<&Ledger>) -> bool
    ensures { result ≡ needs_version_2 (option_map (λ q. q.now) queue.entry) (option_map (λ l. l.now) ledger.entry) }
{
    let has_mark = match queue {
        Some(queue) => !has_handed_all(queue),
        None => false,
    };
    let has_withdrawn = match ledger {
        Some(ledger) => has_withdrawn(ledger),
        None => false,
    };
    has_mark || has_withdrawn
}

/// Whether entries are of this device: `bytes` is what its entry of `identity_key` holds, with the version of the state or
/// without.
///
/// ```
/// if !is_same_device(&objects, bytes) {
///     // the entries are of another device: start without them
/// }
/// ```
pub fn is_same_device(objects: &Objects, bytes: &[u8]) -> bool
    ensures { result ≡ is_same_device objects.now bytes.now }
{
    let mut own = ReplyBuf::new();
    write_identity(objects, &mut own);
    if bytes == own.as_slice() {
        return true;
    }
    append_u8(&mut own, VERSION_2);
    bytes == own.as_slice()
}
