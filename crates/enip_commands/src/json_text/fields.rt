//! The values of a layout as JSON.

ghost use Rattle.std.specs.Prelude.{◌≡◌, ◌≤◌, IfOk, OnOk, map, drop, length, string_bytes};
ghost use Rattle.cip_layouts.specs.Layouts.{fields_of, name_of};
ghost use Rattle.cip_values.specs.Values.{value_in};
ghost use Rattle.enip_commands.specs.LayoutJson.{IsFieldsLine, IsFieldsObject, AreFieldsJson, AreMembersOf, AddsMember, AddsItems, IsFieldJson};
ghost use Rattle.enip_lines.specs.JsonValues.{latin};
ghost use Rattle.serde_json.specs.Data.{put};
ghost use Rattle.serde_json.specs.View.{view, members_view};

use cip_layouts::{Field, FieldName, Layout, split_values};
use cip_values::Value;
use enip_lines::{json_of, latin_text, list_of};
use serde_json::{Map, Value as Json, json, put};
use std::alloc::{AllocError, Global};

/// The line of a successful reply: its data in hexadecimal, and as the values of a layout. With names they are an object,
/// and without an array. A field that is an array is an array.
///
/// # Errors
///
/// `AllocError` if memory is refused.
pub fn fields_line(
    alloc: Global,
    bytes: &[u8],
    layout: &Layout,
    values: &[Value<'_>],
) -> Result<String, AllocError>
    ensures { IfOk result (λ line. IsFieldsLine bytes.now layout.now (map value_in values.now) (string_bytes line)) }
{
    fields_object(alloc, bytes, layout, values)?.to_string(alloc)
}

fn fields_object(
    alloc: Global,
    bytes: &[u8],
    layout: &Layout,
    values: &[Value<'_>],
) -> Result<Json, AllocError>
    ensures { IfOk result (λ object. IsFieldsObject bytes.now layout.now (map value_in values.now) (view object)) }
{
    let given = given_of(alloc, layout, values)?;
    let digits = hex::encode(alloc, bytes)?;
    let name = format!(in alloc; "{layout}")?;
    json!(in alloc; {"data": &digits, "status": 0u8, "type": &name, "values": given})
}

/// The values of all fields: an object if they have names, otherwise an array.
fn given_of(alloc: Global, layout: &Layout, values: &[Value<'_>]) -> Result<Json, AllocError>
    ensures { IfOk result (λ given. AreFieldsJson (fields_of layout.now) (map value_in values.now) (view given)) }
{
    if layout.has_names() {
        let mut members = Map::new(alloc);
        add_members(alloc, layout.fields(), 0, values, &mut members)?;
        Ok(Json::Object(members))
    } else {
        let mut items = Vec::new(alloc);
        add_items(alloc, layout.fields(), 0, values, &mut items)?;
        Ok(Json::Array(items))
    }
}

/// Adds the members of the fields from this index on.
fn add_members(
    alloc: Global,
    fields: &[Field],
    index: usize,
    values: &[Value<'_>],
    members: &mut Map<String, Json>,
) -> Result<(), AllocError>
    requires { index ≤ length fields.now }
    ensures { OnOk result (AreMembersOf (drop index fields.now) (map value_in values.now)
        (members_view members.old.entries) (members_view members.new.entries)) }
{
    if index == fields.len() {
        return Ok(());
    }
    let field = &fields[index];
    let (mine, rest) = split_values(values, field.values());
    add_member(alloc, field, mine, members)?;
    add_members(alloc, fields, index + 1, rest, members)
}

/// Adds the member of a field, if it has a name.
fn add_member(
    alloc: Global,
    field: &Field,
    values: &[Value<'_>],
    members: &mut Map<String, Json>,
) -> Result<(), AllocError>
    ensures { OnOk result (AddsMember field.now (map value_in values.now)
        (members_view members.old.entries) (members_view members.new.entries)) }
{
    let value = field_json(alloc, field, values)?;
    match field.name {
        Some(name) => put_name(alloc, name, value, members),
        None => Ok(()),
    }
}

/// Adds a member with the name of a field.
fn put_name(
    alloc: Global,
    name: FieldName,
    value: Json,
    members: &mut Map<String, Json>,
) -> Result<(), AllocError>
    ensures { OnOk result (members_view members.new.entries
        ≡ put (latin (name_of name)) (view value) (members_view members.old.entries)) }
{
    let name = latin_text(alloc, name.as_slice())?;
    put(members, alloc, name.as_str(), value)
}

/// Adds the items of the fields from this index on.
fn add_items(
    alloc: Global,
    fields: &[Field],
    index: usize,
    values: &[Value<'_>],
    items: &mut Vec<Json>,
) -> Result<(), AllocError>
    requires { index ≤ length fields.now }
    ensures { OnOk result (AddsItems (drop index fields.now) (map value_in values.now) items.old.items items.new.items) }
{
    if index == fields.len() {
        return Ok(());
    }
    let field = &fields[index];
    let (mine, rest) = split_values(values, field.values());
    items.push(field_json(alloc, field, mine)?)?;
    add_items(alloc, fields, index + 1, rest, items)
}

/// The values of one field: an array if the field is one, otherwise its value.
fn field_json(alloc: Global, field: &Field, values: &[Value<'_>]) -> Result<Json, AllocError>
    ensures { IfOk result (λ json. IsFieldJson field.now.count (map value_in values.now) (view json)) }
{
    match (field.count, values) {
        (None, [value]) => json_of(alloc, *value),
        _ => list_of(alloc, values),
    }
}
