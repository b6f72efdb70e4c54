//! The types of the attributes of own objects, for those who print their values.

ghost use Rattle.std.specs.Prelude.{◌≡◌, IfOk, map};
ghost use Rattle.toml.specs.View.{view, items_view, table_view};
ghost use Rattle.enip_config.specs.ObjectTypes.{type_of_attribute, types_of_object, types_of, map_items, types_seen};

use attribute_types::{AttributeType, value_of};
use std::alloc::{AllocError, Global};
use toml::{Table, Value};

/// The types of the attributes of each object, in the order of the file.
pub(crate) fn types_of(alloc: Global, text: &Table) -> Result<Vec<Vec<AttributeType>>, AllocError>
    ensures { IfOk result (λ types. map types_seen types.items ≡ types_of (table_view text.now)) }
{
    match value_of(text, "object") {
        Some(Value::Array(values)) => each_object(alloc, values.as_slice()),
        _ => Ok(Vec::new(alloc)),
    }
}

/// The types of the attributes of these objects.
fn each_object(alloc: Global, values: &[Value]) -> Result<Vec<Vec<AttributeType>>, AllocError>
    ensures { IfOk result (λ types. map types_seen types.items ≡ map_items types_of_object (items_view values.now)) }
{
    let mut types = Vec::new(alloc);
    for value in values {
        types.push(types_of_object(alloc, value)?)?;
    }
    Ok(types)
}

/// The types of the attributes of an object.
fn types_of_object(alloc: Global, value: &Value) -> Result<Vec<AttributeType>, AllocError>
    ensures { IfOk result (λ types. types.items ≡ types_of_object (view value.now)) }
{
    let Value::Table(table) = value else {
        return Ok(Vec::new(alloc));
    };
    match value_of(table, "attribute") {
        Some(Value::Array(values)) => each_attribute(alloc, values.as_slice()),
        _ => Ok(Vec::new(alloc)),
    }
}

/// The types of these attributes.
fn each_attribute(alloc: Global, values: &[Value]) -> Result<Vec<AttributeType>, AllocError>
    ensures { IfOk result (λ types. types.items ≡ map_items type_of_attribute (items_view values.now)) }
{
    let mut types = Vec::new(alloc);
    for value in values {
        types.push(type_of_attribute(value))?;
    }
    Ok(types)
}

/// The type of an attribute. One whose type does not exist has no bytes.
fn type_of_attribute(value: &Value) -> AttributeType
    ensures { result ≡ type_of_attribute (view value.now) }
{
    let Value::Table(table) = value else {
        return AttributeType::Bytes(0);
    };
    match value_of(table, "type") {
        Some(Value::String(name)) => {
            AttributeType::from_name(name.as_str()).unwrap_or(AttributeType::Bytes(0))
        }
        _ => AttributeType::Bytes(0),
    }
}
