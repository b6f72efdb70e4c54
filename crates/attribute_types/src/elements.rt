//! The bytes of values of elementary types in a configuration. (Volume 1, data types.)

ghost use Rattle.std.specs.Prelude.{◌≡◌, ◌≤◌, ◌++◌, IfOk, IfErr, OnOk, Some};
ghost use Rattle.toml.specs.Data.{float};
ghost use Rattle.cip_bytes.specs.Numbers.{le};
ghost use Rattle.toml.specs.View.{view, items_view};
ghost use Rattle.attribute_types.specs.Types.{element_bits, signed_bits, truth_bits, real_bits, lreal_bits};
ghost use Rattle.attribute_types.specs.Types.{element_bytes, all_bytes};
ghost use Rattle.attribute_types.specs.Values.{IsBad, IsBadOrMemory};

use crate::attribute_type::width_of;
use crate::value::{BAD_VALUE, number_in};
use cip_values::ElementaryType;
use config_refusal::LoadFault;
use std::alloc::{AllocError, Global};
use std::num::{
    f32_to_bits_with_nan, f64_to_bits_with_nan, nearest_f64_to_f32_with_nan, nearest_i64_to_f32,
    nearest_i64_to_f64,
};
use toml::Value;

/// Reads values of an elementary type, and returns their bytes, one value after the other.
pub(crate) fn all_bytes(
    alloc: Global,
    element: ElementaryType,
    values: &[Value],
) -> Result<Vec<u8>, LoadFault>
    ensures read { IfOk result (λ bytes. all_bytes element (items_view values.now) ≡ Some bytes.items) }
    ensures refused { IfErr result (IsBadOrMemory (all_bytes element (items_view values.now))) }
{
    let mut bytes = Vec::new(alloc);
    for value in values {
        let bits = element_bits(element, value)?;
        append_bits(bits, width_of(element), &mut bytes)?;
    }
    Ok(bytes)
}

/// Reads one value of an elementary type, and returns its bytes.
pub(crate) fn element_bytes(
    alloc: Global,
    element: ElementaryType,
    value: &Value,
) -> Result<Vec<u8>, LoadFault>
    ensures read { IfOk result (λ bytes. element_bytes element (view value.now) ≡ Some bytes.items) }
    ensures refused { IfErr result (IsBadOrMemory (element_bytes element (view value.now))) }
{
    let bits = element_bits(element, value)?;
    let mut bytes = Vec::new(alloc);
    append_bits(bits, width_of(element), &mut bytes)?;
    Ok(bytes)
}

/// Appends the `width` lowest bytes of the bits of a value, least first.
fn append_bits(bits: u64, width: u16, out: &mut Vec<u8>) -> Result<(), AllocError>
    requires { width ≤ 8 }
    ensures { OnOk result (out.new.items ≡ out.old.items ++ le width bits) }
{
    out.extend_from_slice(&bits.to_le_bytes()[..usize::from(width)])
}

/// Reads a value of an elementary type, and returns its bits: the number that its bytes spell, least first.
pub(crate) fn element_bits(element: ElementaryType, value: &Value) -> Result<u64, LoadFault>
    ensures read { IfOk result (λ bits. element_bits element (view value.now) ≡ Some bits) }
    ensures refused { IfErr result (IsBad (element_bits element (view value.now))) }
{
    match element {
        ElementaryType::Bool => truth_bits(value),
        ElementaryType::Sint => signed_bits(0x80, value),
        ElementaryType::Int => signed_bits(0x8000, value),
        ElementaryType::Dint => signed_bits(0x8000_0000, value),
        ElementaryType::Lint => signed_bits(0x8000_0000_0000_0000, value),
        ElementaryType::Usint | ElementaryType::Byte => number_in(value, 0, 0xff),
        ElementaryType::Uint | ElementaryType::Word => number_in(value, 0, 0xffff),
        ElementaryType::Udint | ElementaryType::Dword => number_in(value, 0, 0xffff_ffff),
        ElementaryType::Ulint | ElementaryType::Lword => number_in(value, 0, u64::MAX),
        ElementaryType::Real => real_bits(value),
        ElementaryType::Lreal => lreal_bits(value),
        ElementaryType::Time => signed_bits(0x8000_0000, value),
        ElementaryType::Ltime => signed_bits(0x8000_0000_0000_0000, value),
        _ => Err(BAD_VALUE),
    }
}

/// Reads a signed integer in two's complement, whose bits from `half` on are the negative numbers.
fn signed_bits(half: u64, value: &Value) -> Result<u64, LoadFault>
    requires { half ≤ 0x8000_0000_0000_0000 }
    ensures read { IfOk result (λ bits. signed_bits half (view value.now) ≡ Some bits) }
    ensures refused { IfErr result (IsBad (signed_bits half (view value.now))) }
{
    let Value::Integer(number) = value else {
        return Err(BAD_VALUE);
    };
    let magnitude = number.unsigned_abs();
    if *number >= 0 && magnitude < half {
        return Ok(magnitude);
    }
    if *number < 0 && magnitude <= half {
        return Ok(half + (half - magnitude));
    }
    Err(BAD_VALUE)
}

/// Reads true or false, or 1 or 0.
fn truth_bits(value: &Value) -> Result<u64, LoadFault>
    ensures read { IfOk result (λ bits. truth_bits (view value.now) ≡ Some bits) }
    ensures refused { IfErr result (IsBad (truth_bits (view value.now))) }
{
    match value {
        Value::Boolean(truth) => Ok(u64::from(*truth)),
        value => number_in(value, 0, 1),
    }
}

/// Reads a number as the nearest single-precision number.
fn real_bits(value: &Value) -> Result<u64, LoadFault>
    ensures read { IfOk result (λ bits. real_bits (view value.now) ≡ Some bits) }
    ensures refused { IfErr result (IsBad (real_bits (view value.now))) }
{
    match value {
        Value::Float(number) => rounded_bits(*number),
        Value::Integer(number) => {
            Ok(u64::from(f32_to_bits_with_nan(nearest_i64_to_f32(*number))))
        }
        _ => Err(BAD_VALUE),
    }
}

/// Reads a number as the nearest double-precision number.
fn lreal_bits(value: &Value) -> Result<u64, LoadFault>
    ensures read { IfOk result (λ bits. lreal_bits (view value.now) ≡ Some bits) }
    ensures refused { IfErr result (IsBad (lreal_bits (view value.now))) }
{
    match value {
        Value::Float(number) => Ok(f64_to_bits_with_nan(*number)),
        Value::Integer(number) => Ok(f64_to_bits_with_nan(nearest_i64_to_f64(*number))),
        _ => Err(BAD_VALUE),
    }
}

/// The bits of the nearest single-precision number. A finite number beyond all of them is refused.
fn rounded_bits(number: f64) -> Result<u64, LoadFault>
    ensures read { IfOk result (λ bits. real_bits (float number) ≡ Some bits) }
    ensures refused { IfErr result (IsBad (real_bits (float number))) }
{
    let nearest = nearest_f64_to_f32_with_nan(number);
    if nearest.is_infinite() && !number.is_infinite() {
        return Err(BAD_VALUE);
    }
    Ok(u64::from(f32_to_bits_with_nan(nearest)))
}
