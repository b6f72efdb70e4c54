//! The kind of an attribute and its first value, as its type, its value and its bounds describe them.

ghost use Rattle.std.specs.Prelude.{◌≡◌, IfOk, IfErr, Some, option_map};
ghost use Rattle.toml.specs.View.{view, table_view};
ghost use Rattle.attribute_types.specs.Types.{bound_bits, element_range, range_of, number_type, least_bits, greatest_bits};
ghost use Rattle.attribute_types.specs.Types.{array_bytes, text_bytes, value_bytes, first_value};
ghost use Rattle.attribute_types.specs.Types.{typed_as, typed_by, typed_in, typed_seen, untyped};
ghost use Rattle.attribute_types.specs.Values.{IsBad, IsBadOrMemory};

use crate::attribute_type::AttributeType;
use crate::elements::{all_bytes, element_bits, element_bytes};
use crate::value::{BAD_VALUE, value_of};
use cip_application::{AttributeKind, NumberRange, NumberType};
use cip_values::ElementaryType;
use config_refusal::LoadFault;
use std::alloc::Global;
use toml::{Table, Value};

/// The kind of an attribute, and its first value.
#[derive(Drop)]
pub struct TypedValue {
    /// The kind.
    pub kind: AttributeKind,
    /// The bytes of the value.
    pub value: Vec<u8>,
}

/// Why an attribute has no bytes of its type.
#[derive(Clone, Copy, Debug)]
pub enum TypedFault {
    /// There is no type of this name.
    NoType,
    /// There is a bound, and the type has no numbers.
    NoNumbers,
    /// The key `min` is not of the type.
    Least,
    /// The key `max` is not of the type.
    Greatest,
    /// The key `value` is not of the type.
    Value,
}

/// Reads the keys `type`, `value`, `min` and `max` of a table `object.attribute`. A type that does not exist, and a
/// value or a bound that is not of the type, give an attribute of no bytes. The objects refuse it, and `fault` says why.
pub fn typed_in(
    alloc: Global,
    table: &Table,
    fault: &mut Option<TypedFault>,
) -> Result<TypedValue, LoadFault>
    ensures read { IfOk result (λ typed. typed_in (table_view table.now) ≡ Some (typed_seen typed)) }
    ensures refused { IfErr result (IsBadOrMemory (typed_in (table_view table.now))) }
{
    let Some(Value::String(name)) = value_of(table, "type") else {
        return Err(BAD_VALUE);
    };
    let mut looked_for = TypedFault::NoType;
    match typed_by(alloc, table, name.as_str(), &mut looked_for) {
        Ok(typed) => Ok(typed),
        Err(LoadFault::Memory) => Err(LoadFault::Memory),
        Err(LoadFault::Refused(_)) => {
            *fault = Some(looked_for);
            Ok(untyped(alloc))
        }
    }
}

/// An attribute of no bytes.
fn untyped(alloc: Global) -> TypedValue
    ensures { typed_seen result ≡ untyped }
{
    TypedValue {
        kind: AttributeKind::Fixed {
            size: 0,
            range: None,
        },
        value: Vec::new(alloc),
    }
}

/// Reads the value and the bounds of an attribute whose type has this name. If it is refused, `fault` says why.
fn typed_by(
    alloc: Global,
    table: &Table,
    name: &str,
    fault: &mut TypedFault,
) -> Result<TypedValue, LoadFault>
    ensures read { IfOk result (λ typed. typed_by (table_view table.now) name.now ≡ Some (typed_seen typed)) }
    ensures refused { IfErr result (IsBadOrMemory (typed_by (table_view table.now) name.now)) }
{
    *fault = TypedFault::NoType;
    let Some(of_type) = AttributeType::from_name(name) else {
        return Err(BAD_VALUE);
    };
    typed_as(alloc, table, of_type, fault)
}

/// Reads the value and the bounds of an attribute of this type.
fn typed_as(
    alloc: Global,
    table: &Table,
    of_type: AttributeType,
    fault: &mut TypedFault,
) -> Result<TypedValue, LoadFault>
    ensures read { IfOk result (λ typed. typed_as (table_view table.now) of_type ≡ Some (typed_seen typed)) }
    ensures refused { IfErr result (IsBadOrMemory (typed_as (table_view table.now) of_type)) }
{
    let range = range_of(
        of_type,
        value_of(table, "min"),
        value_of(table, "max"),
        fault,
    )?;
    *fault = TypedFault::Value;
    let value = first_value(alloc, of_type, value_of(table, "value"))?;
    Ok(TypedValue {
        kind: of_type.kind(range),
        value,
    })
}

/// Reads the first value of an attribute of this type. All zeros if it is left out.
fn first_value(
    alloc: Global,
    of_type: AttributeType,
    value: Option<&Value>,
) -> Result<Vec<u8>, LoadFault>
    ensures read { IfOk result (λ bytes. first_value of_type (option_map (λ v. view v.now) value.entry)
        ≡ Some bytes.items) }
    ensures refused { IfErr result (IsBadOrMemory (first_value of_type (option_map (λ v. view v.now) value.entry))) }
{
    match value {
        Some(value) => value_bytes(alloc, of_type, value),
        None => Ok(vec![in alloc; 0; usize::from(of_type.fixed_size())]?),
    }
}

/// Reads a value of this type, and returns its bytes.
fn value_bytes(alloc: Global, of_type: AttributeType, value: &Value) -> Result<Vec<u8>, LoadFault>
    ensures read { IfOk result (λ bytes. value_bytes of_type (view value.now) ≡ Some bytes.items) }
    ensures refused { IfErr result (IsBadOrMemory (value_bytes of_type (view value.now))) }
{
    match of_type {
        AttributeType::One(element) => element_bytes(alloc, element, value),
        AttributeType::Array(element, _) => array_bytes(alloc, element, value),
        AttributeType::Bytes(_) => array_bytes(alloc, ElementaryType::Usint, value),
        AttributeType::ShortString(_) => text_bytes(alloc, value),
    }
}

/// Reads an array of values, and returns their bytes.
fn array_bytes(alloc: Global, element: ElementaryType, value: &Value) -> Result<Vec<u8>, LoadFault>
    ensures read { IfOk result (λ bytes. array_bytes element (view value.now) ≡ Some bytes.items) }
    ensures refused { IfErr result (IsBadOrMemory (array_bytes element (view value.now))) }
{
    match value {
        Value::Array(values) => all_bytes(alloc, element, values.as_slice()),
        _ => Err(BAD_VALUE),
    }
}

/// Reads a text, and returns its bytes after a byte with its length.
fn text_bytes(alloc: Global, value: &Value) -> Result<Vec<u8>, LoadFault>
    ensures read { IfOk result (λ bytes. text_bytes (view value.now) ≡ Some bytes.items) }
    ensures refused { IfErr result (IsBadOrMemory (text_bytes (view value.now))) }
{
    let Value::String(text) = value else {
        return Err(BAD_VALUE);
    };
    let text = text.as_bytes();
    let Ok(length) = u8::try_from(text.len()) else {
        return Err(BAD_VALUE);
    };
    let mut bytes = Vec::new(alloc);
    bytes.push(length)?;
    bytes.extend_from_slice(text)?;
    Ok(bytes)
}

/// Reads the bounds of a type's numbers. Without both there is no range.
fn range_of(
    of_type: AttributeType,
    min: Option<&Value>,
    max: Option<&Value>,
    fault: &mut TypedFault,
) -> Result<Option<NumberRange>, LoadFault>
    ensures read { IfOk result (λ range. range_of of_type (option_map (λ v. view v.now) min.entry)
        (option_map (λ v. view v.now) max.entry) ≡ Some range) }
    ensures refused { IfErr result (IsBad (range_of of_type (option_map (λ v. view v.now) min.entry)
        (option_map (λ v. view v.now) max.entry))) }
{
    if min.is_none() && max.is_none() {
        return Ok(None);
    }
    *fault = TypedFault::NoNumbers;
    match of_type {
        AttributeType::One(element) | AttributeType::Array(element, _) => {
            Ok(Some(element_range(element, min, max, fault)?))
        }
        AttributeType::Bytes(_) | AttributeType::ShortString(_) => Err(BAD_VALUE),
    }
}

/// Reads the bounds of an element's numbers. A bound that is left out is that of the type.
fn element_range(
    element: ElementaryType,
    min: Option<&Value>,
    max: Option<&Value>,
    fault: &mut TypedFault,
) -> Result<NumberRange, LoadFault>
    ensures read { IfOk result (λ range. element_range element (option_map (λ v. view v.now) min.entry)
        (option_map (λ v. view v.now) max.entry) ≡ Some range) }
    ensures refused { IfErr result (IsBad (element_range element (option_map (λ v. view v.now) min.entry)
        (option_map (λ v. view v.now) max.entry))) }
{
    *fault = TypedFault::NoNumbers;
    let Some(number) = number_type(element) else {
        return Err(BAD_VALUE);
    };
    *fault = TypedFault::Least;
    let least = bound(element, min, least_bits(number))?;
    *fault = TypedFault::Greatest;
    let greatest = bound(element, max, greatest_bits(number))?;
    Ok(NumberRange {
        number,
        least,
        greatest,
    })
}

/// The bits of a bound, or these if it is left out.
fn bound(element: ElementaryType, value: Option<&Value>, default: u64) -> Result<u64, LoadFault>
    ensures read { IfOk result (λ bits. bound_bits element (option_map (λ v. view v.now) value.entry) default
        ≡ Some bits) }
    ensures refused { IfErr result (IsBad (bound_bits element (option_map (λ v. view v.now) value.entry) default)) }
{
    match value {
        Some(value) => element_bits(element, value),
        None => Ok(default),
    }
}

/// The type of the numbers that have a range.
pub fn number_type(element: ElementaryType) -> Option<NumberType>
    ensures { result ≡ number_type element }
{
    match element {
        ElementaryType::Sint => Some(NumberType::Sint),
        ElementaryType::Int => Some(NumberType::Int),
        ElementaryType::Dint => Some(NumberType::Dint),
        ElementaryType::Lint => Some(NumberType::Lint),
        ElementaryType::Usint => Some(NumberType::Usint),
        ElementaryType::Uint => Some(NumberType::Uint),
        ElementaryType::Udint => Some(NumberType::Udint),
        ElementaryType::Ulint => Some(NumberType::Ulint),
        ElementaryType::Real => Some(NumberType::Real),
        ElementaryType::Lreal => Some(NumberType::Lreal),
        ElementaryType::Time => Some(NumberType::Dint),
        ElementaryType::Ltime => Some(NumberType::Lint),
        _ => None,
    }
}

/// The bits of the least number of a type.
fn least_bits(number: NumberType) -> u64
    ensures { result ≡ least_bits number }
{
    match number {
        NumberType::Sint => 0x80,
        NumberType::Int => 0x8000,
        NumberType::Dint => 0x8000_0000,
        NumberType::Lint => 0x8000_0000_0000_0000,
        NumberType::Real => 0xff80_0000,
        NumberType::Lreal => 0xfff0_0000_0000_0000,
        _ => 0,
    }
}

/// The bits of the greatest number of a type.
fn greatest_bits(number: NumberType) -> u64
    ensures { result ≡ greatest_bits number }
{
    match number {
        NumberType::Sint => 0x7f,
        NumberType::Int => 0x7fff,
        NumberType::Dint => 0x7fff_ffff,
        NumberType::Lint => 0x7fff_ffff_ffff_ffff,
        NumberType::Usint => 0xff,
        NumberType::Uint => 0xffff,
        NumberType::Udint => 0xffff_ffff,
        NumberType::Ulint => u64::MAX,
        NumberType::Real => 0x7f80_0000,
        NumberType::Lreal => 0x7ff0_0000_0000_0000,
    }
}
