//! The objects of an identity and of a service.

ghost use Rattle.std.specs.Prelude.{◌≡◌, IfOk, string_bytes};
ghost use Rattle.enip_client.specs.Identity.{identity_in};
ghost use Rattle.enip_client.specs.Service.{service_in};
ghost use Rattle.enip_commands.specs.Json.{identity_data, identity_members, service_data, host_text};
ghost use Rattle.serde_json.specs.View.{view, members_view};
ghost use Rattle.serde_json.specs.Written.{compact_text};

use enip_client::{IdentityView, ServiceView};
use enip_lines::latin_text;
use serde_json::{Map, Value, json, put};
use std::alloc::{AllocError, Global};

/// The line of an identity: what the device reports about itself.
///
/// # Errors
///
/// `AllocError` if memory is refused.
pub fn identity_line(alloc: Global, identity: &IdentityView<'_>) -> Result<String, AllocError>
    ensures { IfOk result (λ line. string_bytes line ≡ compact_text (identity_data (identity_in identity.now))) }
{
    identity_object(alloc, identity)?.to_string(alloc)
}

/// The object of an identity.
fn identity_object(alloc: Global, identity: &IdentityView<'_>) -> Result<Value, AllocError>
    ensures { IfOk result (λ object. view object ≡ identity_data (identity_in identity.now)) }
{
    Ok(Value::Object(identity_members(alloc, identity)?))
}

/// The members of the object of an identity.
pub(crate) fn identity_members(
    alloc: Global,
    identity: &IdentityView<'_>,
) -> Result<Map<String, Value>, AllocError>
    ensures { IfOk result (λ members. members_view members.entries ≡ identity_members (identity_in identity.now)) }
{
    let host = host_of(alloc, identity.address)?;
    let name = latin_text(alloc, identity.name)?;
    let mut members = Map::new(alloc);
    put(&mut members, alloc, "address", Value::from(host))?;
    put(
        &mut members,
        alloc,
        "device_type",
        Value::from(identity.device_type),
    )?;
    put(&mut members, alloc, "major", Value::from(identity.major))?;
    put(&mut members, alloc, "minor", Value::from(identity.minor))?;
    put(&mut members, alloc, "name", Value::from(name))?;
    put(&mut members, alloc, "port", Value::from(identity.port))?;
    put(
        &mut members,
        alloc,
        "product_code",
        Value::from(identity.product_code),
    )?;
    put(&mut members, alloc, "serial", Value::from(identity.serial))?;
    put(&mut members, alloc, "state", Value::from(identity.state))?;
    put(&mut members, alloc, "status", Value::from(identity.status))?;
    put(&mut members, alloc, "vendor", Value::from(identity.vendor))?;
    Ok(members)
}

/// An address in dotted decimal, without a port.
pub(crate) fn host_of(alloc: Global, address: [u8; 4]) -> Result<String, AllocError>
    ensures { IfOk result (λ host. string_bytes host ≡ host_text address) }
{
    let [first, second, third, fourth] = address;
    format!(in alloc; "{first}.{second}.{third}.{fourth}")
}

/// The line of a service: what the device reports about it.
///
/// # Errors
///
/// `AllocError` if memory is refused.
pub fn service_line(alloc: Global, service: &ServiceView<'_>) -> Result<String, AllocError>
    ensures { IfOk result (λ line. string_bytes line ≡ compact_text (service_data (service_in service.now))) }
{
    service_object(alloc, service)?.to_string(alloc)
}

/// The object of a service.
fn service_object(alloc: Global, service: &ServiceView<'_>) -> Result<Value, AllocError>
    ensures { IfOk result (λ object. view object ≡ service_data (service_in service.now)) }
{
    let name = latin_text(alloc, service.name)?;
    json!(in alloc; {"capability_flags": service.flags, "name": &name, "version": service.version})
}
