//! The key `message_router` of a configuration, and the object that it makes.
//! Text: docs/PROGRAM.md, "The configuration".

ghost use Rattle.std.specs.Prelude.{◌≡◌, IfOk, IfErr, OnOk, Some, map};
ghost use Rattle.toml.specs.View.{table_view};
ghost use Rattle.enip_config.specs.Documents.{IsUnread};
ghost use Rattle.enip_config.specs.Objects.{object_seen};
ghost use Rattle.enip_config.specs.RouterObject.{router_wanted, with_router, HasAllObjects};

use crate::standard::all_objects_of;
use crate::values::flag_of;
use cip_application::{MessageRouter, OBJECT_LIMIT, ObjectConfig};
use config_explained::Finding;
use config_refusal::LoadFault;
use std::alloc::{AllocError, Global};
use toml::Table;

/// Reads all application objects: the own ones, those of the tables `tcp_ip` and `ethernet_link`, and the Message Router
/// as the last one if the key `message_router` is true. `router` says what the device has besides.
pub(crate) fn objects_with_router(
    alloc: Global,
    text: &Table,
    router: MessageRouter,
    finding: &mut Finding,
) -> Result<Vec<ObjectConfig>, LoadFault>
    ensures read { IfOk result (λ objects. HasAllObjects (table_view text.now) router objects.items) }
    ensures refused { IfErr result (IsUnread (table_view text.now)) }
{
    // What needs no memory comes first: nothing has to be dropped if it is refused.
    let wanted = router_wanted(text, finding)?;
    let mut objects = all_objects_of(alloc, text, finding)?;
    push_router(alloc, wanted, router, &mut objects)?;
    Ok(objects)
}

/// Whether the device has the Message Router as an object. False if the key is left out.
#[tactic(auto, using(crate::proofs::RouterLemmas::unread_router))]
fn router_wanted(text: &Table, finding: &mut Finding) -> Result<bool, LoadFault>
    ensures read { IfOk result (λ wanted. router_wanted (table_view text.now) ≡ Some wanted) }
    ensures refused { IfErr result (IsUnread (table_view text.now)) }
{
    finding.enter_text();
    flag_of(text, "message_router", false, finding)
}

/// Adds the Message Router to the other objects, if it is wanted.
fn push_router(
    alloc: Global,
    wanted: bool,
    router: MessageRouter,
    objects: &mut Vec<ObjectConfig>,
) -> Result<(), AllocError>
    ensures { OnOk result (map object_seen objects.new.items
        ≡ with_router wanted router (map object_seen objects.old.items)) }
{
    // A device with more objects is refused in any case.
    if wanted && objects.len() <= OBJECT_LIMIT {
        let object = router.object(alloc, objects)?;
        objects.push(object)?;
    }
    Ok(())
}
