//! The table `commands` of a configuration, and the services that are queued.

ghost use Rattle.std.specs.Prelude.{◌≡◌, IfOk, IfErr, Some};
ghost use Rattle.std.specs.List.{list_any};
ghost use Rattle.toml.specs.View.{view, table_view};
ghost use Rattle.enip_config.specs.Commands.{has_queued, is_queued};
ghost use Rattle.enip_config.specs.Keys.{queue_in, queue_of, ahead_in, ahead_of};
ghost use Rattle.attribute_types.specs.Values.{IsBad};
ghost use Rattle.enip_config.specs.Documents.{IsUnread};

use crate::key::{AHEAD, DEFAULT_AHEAD, QUEUE};
use crate::values::number_by;
use attribute_types::{BAD_VALUE, value_of};
use cip_application::{ObjectConfig, ServiceConfig, ServiceKind};
use config_explained::Finding;
use config_refusal::LoadFault;
use toml::{Table, Value};

/// Reads the table `commands`: how many queued commands can wait. `None` if it is left out.
pub(crate) fn queue_of(text: &Table, finding: &mut Finding) -> Result<Option<u16>, LoadFault>
    ensures read { IfOk result (λ queue. queue_of (table_view text.now) ≡ Some queue) }
    ensures refused { IfErr result (IsUnread (table_view text.now)) }
{
    finding.enter_table("commands");
    match value_of(text, "commands") {
        None => Ok(None),
        Some(value) => Ok(Some(queue_in(value, finding)?)),
    }
}

/// Reads a value as a table `commands`.
fn queue_in(value: &Value, finding: &mut Finding) -> Result<u16, LoadFault>
    ensures read { IfOk result (λ queue. queue_in (view value.now) ≡ Some queue) }
    ensures refused { IfErr result (IsBad (queue_in (view value.now))) }
{
    let Value::Table(table) = value else {
        return Err(BAD_VALUE);
    };
    number_by(table, QUEUE, finding)
}

/// Reads how many queued commands are handed over and not done at once.
pub(crate) fn ahead_of(text: &Table, finding: &mut Finding) -> Result<u16, LoadFault>
    ensures read { IfOk result (λ ahead. ahead_of (table_view text.now) ≡ Some ahead) }
    ensures refused { IfErr result (IsUnread (table_view text.now)) }
{
    finding.enter_table("commands");
    match value_of(text, "commands") {
        None => Ok(DEFAULT_AHEAD),
        Some(value) => ahead_in(value, finding),
    }
}

/// Reads a value as a table `commands`: how many commands are handed over at once.
fn ahead_in(value: &Value, finding: &mut Finding) -> Result<u16, LoadFault>
    ensures read { IfOk result (λ ahead. ahead_in (view value.now) ≡ Some ahead) }
    ensures refused { IfErr result (IsBad (ahead_in (view value.now))) }
{
    let Value::Table(table) = value else {
        return Err(BAD_VALUE);
    };
    number_by(table, AHEAD, finding)
}

/// Whether any of these objects has a queued service.
pub(crate) fn has_queued(objects: &[ObjectConfig]) -> bool
    ensures { result ≡ has_queued objects.now }
{
    for object in objects {
        if has_queued_service(&object.services) {
            return true;
        }
    }
    false
}

/// Whether any of these services is queued.
pub(crate) fn has_queued_service(services: &[ServiceConfig]) -> bool
    ensures { result ≡ list_any is_queued services.now }
{
    for service in services {
        if is_queued(service) {
            return true;
        }
    }
    false
}

/// Whether a service is queued.
fn is_queued(service: &ServiceConfig) -> bool
    ensures { result ≡ is_queued service.now }
{
    match service.kind {
        ServiceKind::Queued => true,
        ServiceKind::Asked | ServiceKind::Result => false,
    }
}
