//! Where the values of a device come from: from its configuration, or from somebody who wrote them.
ghost use Rattle.arrayvec.specs.ArrayVec.{array_vec_len};
ghost use Rattle.std.specs.Prelude.{◌≡◌, ◌≤◌, ◌<◌, ◌+◌, ◌/◌, ◌%◌, ◌^◌, ◌∷◌, ◌++◌, [], length, is_ok, option_copied, option_map};
ghost use Rattle.std.specs.Option.{option_and_then};
ghost use Rattle.cip_bytes.specs.Numbers.{le};
ghost use Rattle.enip_keep.specs.Kept.{pairs_of};
ghost use Rattle.kept_adapter.specs.Origins.{attribute_in, configured_in, description, description_in, described_kind};
ghost use Rattle.kept_adapter.specs.Origins.{goes_on, has_size, is_allowed, kept_at, kind_of, kind_under, number_code, object_in};
ghost use Rattle.kept_adapter.specs.Origins.{state_by, value_state, written_if};

use cip_application::{AttributeConfig, AttributeKind, NumberRange, NumberType, ObjectConfig};
use cip_bytes::{append, append_u8, append_u16};
use cip_objects::{Config, ReplyBuf};
use enip_keep::Entry;

/// What a start makes of a value that is kept.
#[derive(Clone, Copy, Debug, PartialEq, Eq)]
pub enum ValueState {
    /// Nothing of it is kept: the value is the configured one.
    Missing,
    /// It is as it was configured at the last start, so it follows the configuration.
    Configured,
    /// Somebody wrote it, and it goes on.
    Written,
    /// Somebody wrote it, and the configuration does not allow it any more: its type or its range has changed.
    Unfit,
}

/// The bytes that are kept under a key.
///
/// ```
/// let value = kept_at(&entries, 0x64_0001_0001);
/// ```
pub fn kept_at(entries: &[Entry], key: u64) -> Option<&[u8]>
    ensures { option_copied result ≡ kept_at key (pairs_of entries.now) }
{
    for entry in entries {
        if entry.key == key {
            return Some(entry.bytes.as_slice());
        }
    }
    None
}

/// The object of this class with this instance number.
pub(crate) fn object_in(
    objects: &[ObjectConfig],
    class: u16,
    instance: u32,
) -> Option<&ObjectConfig>
    ensures { option_copied result ≡ object_in class instance objects.now }
{
    for object in objects {
        if object.class == class && u32::from(object.instance) == instance {
            return Some(object);
        }
    }
    None
}

/// The kind of the attribute with this number.
fn kind_in(attributes: &[AttributeConfig], number: u16) -> Option<AttributeKind>
    ensures { result ≡ option_map (λ a. a.kind) (attribute_in number attributes.now) }
{
    for attribute in attributes {
        if attribute.number == number {
            return Some(attribute.kind);
        }
    }
    None
}

/// The kind of a value of an application object, by its key. `None` for the data of an assembly and for the counter.
pub(crate) fn kind_under(config: &Config, key: u64) -> Option<AttributeKind>
    requires { key < 2 ^ 48 }
    ensures { result ≡ kind_under config.now key }
{
    let class = (key / 0x1_0000_0000) as u16;
    let instance = (key / 0x1_0000 % 0x1_0000) as u32;
    let object = object_in(&config.objects, class, instance)?;
    kind_in(&object.attributes, (key % 0x1_0000) as u16)
}

/// The number of a type in a description.
fn number_code(number: NumberType) -> u8
    ensures { result ≡ number_code number }
{
    match number {
        NumberType::Usint => 1,
        NumberType::Uint => 2,
        NumberType::Udint => 3,
        NumberType::Ulint => 4,
        NumberType::Sint => 5,
        NumberType::Int => 6,
        NumberType::Dint => 7,
        NumberType::Lint => 8,
        NumberType::Real => 9,
        NumberType::Lreal => 10,
    }
}

/// Writes how a kind is described to `bytes`, in place of its old content.
pub(crate) fn write_description(kind: Option<AttributeKind>, bytes: &mut ReplyBuf)
    ensures bytes { bytes.new.items ≡ description kind }
    ensures short { array_vec_len bytes.new ≤ 19 }
{
    bytes.clear();
    match kind {
        None => {}
        Some(AttributeKind::ShortString { room }) => {
            write_parts(11, u16::from(room), 0, 0, bytes);
        }
        Some(AttributeKind::Fixed { size, range: None }) => write_parts(0, size, 0, 0, bytes),
        Some(
            AttributeKind::Fixed {
                size,
                range: Some(range),
            },
        ) => {
            let NumberRange {
                number,
                least,
                greatest,
            } = range;
            write_parts(number_code(number), size, least, greatest, bytes);
        }
    }
}

/// Writes the parts of a description.
fn write_parts(code: u8, size: u16, least: u64, greatest: u64, bytes: &mut ReplyBuf)
    ensures bytes { bytes.new.items ≡ code ∷ le 2 size ++ (le 8 least ++ le 8 greatest) }
    ensures short { array_vec_len bytes.new ≤ 19 }
{
    bytes.clear();
    append_u8(bytes, code);
    append_u16(bytes, size);
    append(bytes, &least.to_le_bytes());
    append(bytes, &greatest.to_le_bytes());
}

/// How a value was described at the last start, by what is kept of its origin.
fn description_in(origin: &[u8]) -> &[u8]
    ensures { result.now ≡ description_in origin.now }
{
    match origin.split_first() {
        Some((size, rest)) if usize::from(*size) < rest.len() => &rest[..usize::from(*size)],
        Some((_, rest)) => rest,
        None => origin,
    }
}

/// The value that was configured at the last start.
fn configured_in(origin: &[u8]) -> &[u8]
    ensures { result.now ≡ configured_in origin.now }
{
    match origin.split_first() {
        Some((size, rest)) => &rest[usize::from(*size).min(rest.len())..],
        None => origin,
    }
}

/// Whether bytes can be a value of this kind.
fn has_size(kind: Option<AttributeKind>, configured: &[u8], bytes: &[u8]) -> bool
    ensures { result ≡ has_size kind configured.now bytes.now }
{
    match kind {
        Some(kind) => kind.is_whole(bytes),
        None => bytes.len() == configured.len(),
    }
}

/// Whether a peer could set a value of this kind to these bytes.
fn is_allowed(kind: Option<AttributeKind>, configured: &[u8], bytes: &[u8]) -> bool
    ensures { result ≡ is_allowed kind configured.now bytes.now }
{
    match kind {
        Some(kind) => kind.check(bytes).is_ok(),
        None => bytes.len() == configured.len(),
    }
}

/// Whether a value is allowed, or described as before.
fn goes_on(kind: Option<AttributeKind>, configured: &[u8], bytes: &[u8], origin: &[u8]) -> bool
    ensures { result ≡ goes_on kind configured.now bytes.now origin.now }
{
    if is_allowed(kind, configured, bytes) {
        return true;
    }
    let mut described = ReplyBuf::new();
    write_description(kind, &mut described);
    description_in(origin) == described.as_slice() && has_size(kind, configured, bytes)
}

/// The state of a value that was written.
fn written_if(fits: bool) -> ValueState
    ensures { result ≡ written_if fits }
{
    if fits {
        ValueState::Written
    } else {
        ValueState::Unfit
    }
}

/// What a start makes of a value of this kind with this configured value, by what is kept of it and of its origin.
pub(crate) fn value_state(
    kind: Option<AttributeKind>,
    configured: &[u8],
    kept: Option<&[u8]>,
    origin: Option<&[u8]>,
) -> ValueState
    ensures { result ≡ value_state kind configured.now (option_copied kept.entry) (option_copied origin.entry) }
{
    let Some(bytes) = kept else {
        return ValueState::Missing;
    };
    match origin {
        None => written_if(has_size(kind, configured, bytes)),
        Some(origin) if configured_in(origin) == bytes => ValueState::Configured,
        Some(origin) => written_if(goes_on(kind, configured, bytes, origin)),
    }
}
