//! The keys under which entries are kept.
ghost use Rattle.std.specs.Prelude.{◌≡◌, ◌<◌, ◌^◌};
ghost use Rattle.kept_adapter.specs.Keys.{ledger_key, is_ledger_key, is_value_key, device_key};
ghost use Rattle.kept_adapter.specs.Keys.{queue_key, is_queue_key, queue_number, origin_key, is_origin_key};

use cip_ledger::LEDGER;
use device_state::identity_key;

/// The entries of the ledger have keys from this one on.
const LEDGER_KEYS: u64 = 0x1_0000_0000_0000;

/// The entries of the queue have keys from this one on.
const QUEUE_KEYS: u64 = 0x2_0000_0000_0000;

/// The origins of values have keys from this one on.
const ORIGIN_KEYS: u64 = 0x4_0000_0000_0000;

/// The key of an entry of the ledger: that of the life is number 0, and those of the slots are numbered from 1.
///
/// ```
/// let life = ledger_key(0); // 0x1_0065_0000_0000
/// ```
pub fn ledger_key(number: u16) -> u64
    ensures key { result ≡ ledger_key number }
    ensures small { result < 2 ^ 63 }
{
    LEDGER_KEYS + u64::from(LEDGER) * 0x1_0000_0000 + u64::from(number) * 0x1_0000
}

/// The key of an entry of the queue, by its number: that of the next ticket is 0, those of the waiting commands are
/// numbered from 1, and those of the results from 257.
///
/// ```
/// let next = queue_key(0); // 0x2_0000_0000_0000
/// ```
pub fn queue_key(number: u16) -> u64
    ensures key { result ≡ queue_key number }
    ensures small { result < 2 ^ 63 }
{
    QUEUE_KEYS + u64::from(number)
}

/// Whether an entry with this key is one of the queue.
pub(crate) fn is_queue_key(key: u64) -> bool
    ensures { result ≡ is_queue_key key }
{
    key / 0x1_0000 == 0x2_0000_0000
}

/// The number of an entry of the queue, by its key.
pub(crate) fn queue_number(key: u64) -> u16
    ensures { result ≡ queue_number key }
{
    (key % 0x1_0000) as u16
}

/// Whether an entry with this key is one of the ledger.
pub(crate) fn is_ledger_key(key: u64) -> bool
    ensures { result ≡ is_ledger_key key }
{
    key / 0x1_0000_0000 == 0x1_0000 + u64::from(LEDGER)
}

/// The key of the origin of a value, by the key of the value.
///
/// ```
/// let origin = origin_key(0x64_0001_0001); // 0x4_0064_0001_0001
/// ```
pub fn origin_key(key: u64) -> u64
    requires { key < 2 ^ 48 }
    ensures key { result ≡ origin_key key }
    ensures small { result < 2 ^ 63 }
{
    ORIGIN_KEYS + key
}

/// Whether what is kept under this key is the origin of a value.
pub fn is_origin_key(key: u64) -> bool
    ensures { result ≡ is_origin_key key }
{
    key / LEDGER_KEYS == 4
}

/// Whether an entry with this key is a value: it is none of the ledger, and not the one that says which device it is.
pub(crate) fn is_value_key(key: u64) -> bool
    ensures { result ≡ is_value_key key }
{
    !is_ledger_key(key) && key != identity_key()
}

/// The key that `device_state` has for an entry, or `None` if no entry is kept under this one.
pub(crate) fn device_key(key: u64) -> Option<u64>
    ensures { result ≡ device_key key }
{
    if is_ledger_key(key) {
        return Some(key - LEDGER_KEYS);
    }
    if key >= LEDGER_KEYS || key / 0x1_0000_0000 == u64::from(LEDGER) {
        return None;
    }
    Some(key)
}
