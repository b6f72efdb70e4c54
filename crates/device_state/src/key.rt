//! The keys of entries.
ghost use Rattle.std.specs.Prelude.{◌≡◌, ◌<◌, ◌^◌};
ghost use Rattle.device_state.specs.Keys.{key_of, name_in};

use cip_objects::AttributeName;

/// The key of an entry: the class, the instance and the attribute of what it holds, 16 bits each.
pub(crate) fn key_of(class: u16, instance: u16, attribute: u16) -> u64
    ensures key { result ≡ key_of class instance attribute }
    ensures small { result < 2 ^ 48 }
{
    u64::from(class) * 0x1_0000_0000 + u64::from(instance) * 0x1_0000 + u64::from(attribute)
}

/// The name in a key, or `None` if the key has over 48 bits.
pub(crate) fn name_in(key: u64) -> Option<AttributeName>
    ensures { result ≡ name_in key }
{
    if key >= 0x1_0000_0000_0000 {
        return None;
    }
    Some(AttributeName {
        class: (key / 0x1_0000_0000) as u16,
        instance: (key / 0x1_0000 % 0x1_0000) as u16,
        attribute: (key % 0x1_0000) as u16,
    })
}
