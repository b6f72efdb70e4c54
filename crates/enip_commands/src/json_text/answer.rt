//! The object of an answer to a discovery.

ghost use Rattle.std.specs.Prelude.{◌≡◌, IfOk, OnOk, string_bytes};
ghost use Rattle.enip_client.specs.Identity.{identity_in};
ghost use Rattle.enip_commands.specs.Discovering.{answer_data, with_remarks};
ghost use Rattle.serde_json.specs.View.{view, members_view};
ghost use Rattle.serde_json.specs.Written.{compact_text};

use crate::discovering::Remarks;
use crate::json_text::entry::identity_members;
use enip_client::IdentityView;
use serde_json::{Map, Value, put};
use std::alloc::{AllocError, Global};
use std::net::SocketAddr;

/// The line of an answer: the identity, the address that it came from, and what was noticed.
///
/// # Errors
///
/// `AllocError` if memory is refused.
pub fn answer_object(
    alloc: Global,
    source: SocketAddr,
    remarks: Remarks,
    identity: &IdentityView<'_>,
) -> Result<String, AllocError>
    ensures { IfOk result (λ line. string_bytes line
        ≡ compact_text (answer_data source remarks (identity_in identity.now))) }
{
    answer_value(alloc, source, remarks, identity)?.to_string(alloc)
}

fn answer_value(
    alloc: Global,
    source: SocketAddr,
    remarks: Remarks,
    identity: &IdentityView<'_>,
) -> Result<Value, AllocError>
    ensures { IfOk result (λ object. view object ≡ answer_data source remarks (identity_in identity.now)) }
{
    let mut members = identity_members(alloc, identity)?;
    put_remarks(alloc, source, remarks, &mut members)?;
    Ok(Value::Object(members))
}

/// Adds the address that an answer came from, and what was noticed.
fn put_remarks(
    alloc: Global,
    source: SocketAddr,
    remarks: Remarks,
    members: &mut Map<String, Value>,
) -> Result<(), AllocError>
    ensures { OnOk result (members_view members.new.entries
        ≡ with_remarks source remarks (members_view members.old.entries)) }
{
    let from = format!(in alloc; "{source}")?;
    put(members, alloc, "from", Value::from(from))?;
    put(
        members,
        alloc,
        "other_address",
        Value::from(remarks.other_address),
    )?;
    put(
        members,
        alloc,
        "same_address",
        Value::from(remarks.same_address),
    )?;
    put(
        members,
        alloc,
        "same_serial",
        Value::from(remarks.same_serial),
    )
}
