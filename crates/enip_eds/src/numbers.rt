//! The values of Params as text.

ghost use Rattle.std.specs.Prelude.{◌≡◌, drop, IfOk, string_bytes};
ghost use Rattle.std.specs.Float.{binary32, binary64};
ghost use Rattle.enip_eds.specs.Numbers.{bits_in, exact_text, signed};
ghost use Rattle.enip_eds.specs.Numbers.{IsBoundText, IsBytesText, IsFloatText, IsNumberText, IsStartText};
ghost use Rattle.enip_eds.specs.Types.{greatest_of, least_of};

use crate::texts::Quoted;
use crate::types::{greatest_of, least_of};
use byteorder::{ByteOrder, LittleEndian};
use cip_values::ElementaryType;
use ryu::Buffer;
use std::alloc::{AllocError, Global};
use std::num::{f32_from_bits_with_nan, f64_from_bits_with_nan};

/// The value at the start, given by its bytes. A SHORT_STRING has its length before its text.
pub(crate) fn start_text(
    alloc: Global,
    element: ElementaryType,
    bytes: &[u8],
) -> Result<String, AllocError>
    ensures { IfOk result (λ text. IsStartText element bytes.now (string_bytes text)) }
{
    match element {
        ElementaryType::ShortString => format!(in alloc; "{}", Quoted(behind_length(bytes))),
        _ => bytes_text(alloc, element, bits_in(bytes)),
    }
}

/// The least value, given by its bits. If there are none, it is that of the type.
pub(crate) fn least_text(
    alloc: Global,
    element: ElementaryType,
    least: Option<u64>,
) -> Result<String, AllocError>
    ensures { IfOk result (λ text. IsBoundText element least (least_of element) (string_bytes text)) }
{
    match least {
        Some(bits) => number_text(alloc, element, bits),
        None => String::from_str(alloc, least_of(element)),
    }
}

/// The greatest value, given by its bits. If there are none, it is that of the type.
pub(crate) fn greatest_text(
    alloc: Global,
    element: ElementaryType,
    greatest: Option<u64>,
) -> Result<String, AllocError>
    ensures { IfOk result (λ text. IsBoundText element greatest (greatest_of element) (string_bytes text)) }
{
    match greatest {
        Some(bits) => number_text(alloc, element, bits),
        None => String::from_str(alloc, greatest_of(element)),
    }
}

/// What follows the first byte.
fn behind_length(bytes: &[u8]) -> &[u8]
    ensures { result.now ≡ drop 1 bytes.now }
{
    match bytes {
        [_, text @ ..] => text,
        [] => bytes,
    }
}

/// The bits that up to eight bytes spell.
fn bits_in(bytes: &[u8]) -> Option<u64>
    ensures { result ≡ bits_in bytes.now }
{
    let size = bytes.len();
    if 1 <= size && size <= 8 {
        return Some(LittleEndian::read_uint(bytes, size));
    }
    None
}

/// A number, or no text if there is none.
fn bytes_text(
    alloc: Global,
    element: ElementaryType,
    bits: Option<u64>,
) -> Result<String, AllocError>
    ensures { IfOk result (λ text. IsBytesText element bits (string_bytes text)) }
{
    match bits {
        Some(bits) => number_text(alloc, element, bits),
        None => Ok(String::new(alloc)),
    }
}

/// A number, given by its bits.
fn number_text(alloc: Global, element: ElementaryType, bits: u64) -> Result<String, AllocError>
    ensures { IfOk result (λ text. IsNumberText element bits (string_bytes text)) }
{
    match element {
        ElementaryType::Real => match u32::try_from(bits) {
            Ok(bits) => real_text(alloc, bits),
            Err(_) => Ok(String::new(alloc)),
        },
        ElementaryType::Lreal => lreal_text(alloc, bits),
        _ => exact_text(alloc, element, bits),
    }
}

/// A REAL, given by its bits. There is no text for an infinite number, and none for NaN.
fn real_text(alloc: Global, bits: u32) -> Result<String, AllocError>
    ensures { IfOk result (λ text. IsFloatText binary32 bits (string_bytes text)) }
{
    let number = f32_from_bits_with_nan(bits);
    if !number.is_finite() {
        return Ok(String::new(alloc));
    }
    String::from_str(alloc, Buffer::new().format_finite(number))
}

/// An LREAL, given by its bits. There is no text for an infinite number, and none for NaN.
fn lreal_text(alloc: Global, bits: u64) -> Result<String, AllocError>
    ensures { IfOk result (λ text. IsFloatText binary64 bits (string_bytes text)) }
{
    let number = f64_from_bits_with_nan(bits);
    if !number.is_finite() {
        return Ok(String::new(alloc));
    }
    String::from_str(alloc, Buffer::new().format_finite(number))
}

/// A number other than a REAL or an LREAL, given by its bits.
fn exact_text(alloc: Global, element: ElementaryType, bits: u64) -> Result<String, AllocError>
    ensures { IfOk result (λ text. string_bytes text ≡ exact_text element bits) }
{
    match element {
        ElementaryType::Sint => signed_text(alloc, 0x80, bits),
        ElementaryType::Int => signed_text(alloc, 0x8000, bits),
        ElementaryType::Dint | ElementaryType::Time => signed_text(alloc, 0x8000_0000, bits),
        ElementaryType::Lint | ElementaryType::Ltime => {
            signed_text(alloc, 0x8000_0000_0000_0000, bits)
        }
        ElementaryType::Byte => format!(in alloc; "0x{bits:02X}"),
        ElementaryType::Word => format!(in alloc; "0x{bits:04X}"),
        ElementaryType::Dword => format!(in alloc; "0x{bits:08X}"),
        ElementaryType::Lword => format!(in alloc; "0x{bits:016X}"),
        _ => format!(in alloc; "{bits}"),
    }
}

/// A number in two's complement, given by its bits. Negative numbers begin at the bits `half`.
fn signed_text(alloc: Global, half: u64, bits: u64) -> Result<String, AllocError>
    ensures { IfOk result (λ text. string_bytes text ≡ signed half bits) }
{
    if bits < half {
        return format!(in alloc; "{bits}");
    }
    let magnitude = half.saturating_sub(bits - half);
    format!(in alloc; "-{magnitude}")
}
