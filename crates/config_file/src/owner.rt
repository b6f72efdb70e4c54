//! Which part of a configuration needs an owner of the device.

ghost use Rattle.std.specs.Prelude.{◌≡◌};
ghost use Rattle.config_file.specs.Owner.{asked_number, checked_number, first_asked, first_checked, first_need, first_service};
ghost use Rattle.config_file.specs.Owner.{first_need_at_once, is_asked, need_of_service};

use cip_application::{AttributeConfig, ObjectConfig, ServiceConfig, ServiceKind};
use enip_common::OwnerNeed;

/// The first part of these objects that needs an owner: checked attributes come before services.
pub fn owner_need(objects: &[ObjectConfig]) -> Option<OwnerNeed>
    ensures { result ≡ first_need objects.now }
{
    match first_checked(objects) {
        Some(need) => Some(need),
        None => first_service(objects),
    }
}

/// The first part of these objects that needs an owner that answers while the client waits: checked attributes come before
/// services that are not queued.
pub fn need_at_once(objects: &[ObjectConfig]) -> Option<OwnerNeed>
    ensures { result ≡ first_need_at_once objects.now }
{
    match first_checked(objects) {
        Some(need) => Some(need),
        None => first_asked(objects),
    }
}

/// The first checked attribute of these objects.
fn first_checked(objects: &[ObjectConfig]) -> Option<OwnerNeed>
    ensures { result ≡ first_checked objects.now }
{
    for object in objects {
        if let Some(number) = checked_number(&object.attributes) {
            return Some(OwnerNeed::Attribute(object.class, object.instance, number));
        }
    }
    None
}

/// The number of the first checked attribute.
fn checked_number(attributes: &[AttributeConfig]) -> Option<u16>
    ensures { result ≡ checked_number attributes.now }
{
    for attribute in attributes {
        if attribute.checked {
            return Some(attribute.number);
        }
    }
    None
}

/// The first service of these objects.
fn first_service(objects: &[ObjectConfig]) -> Option<OwnerNeed>
    ensures { result ≡ first_service objects.now }
{
    for object in objects {
        if let Some(service) = object.services.first() {
            return Some(need_of_service(object.class, object.instance, *service));
        }
    }
    None
}

/// What a service of an object needs.
fn need_of_service(class: u16, instance: u16, service: ServiceConfig) -> OwnerNeed
    ensures { result ≡ need_of_service class instance service }
{
    match service.kind {
        ServiceKind::Asked => OwnerNeed::Service(class, instance, service.number),
        ServiceKind::Queued | ServiceKind::Result => {
            OwnerNeed::Queued(class, instance, service.number)
        }
    }
}

/// The first service of these objects that is not queued.
fn first_asked(objects: &[ObjectConfig]) -> Option<OwnerNeed>
    ensures { result ≡ first_asked objects.now }
{
    for object in objects {
        if let Some(number) = asked_number(&object.services) {
            return Some(OwnerNeed::Service(object.class, object.instance, number));
        }
    }
    None
}

/// The number of the first service that is not queued.
fn asked_number(services: &[ServiceConfig]) -> Option<u8>
    ensures { result ≡ asked_number services.now }
{
    for service in services {
        if is_asked(service.kind) {
            return Some(service.number);
        }
    }
    None
}

/// Whether the owner is asked while the client waits.
fn is_asked(kind: ServiceKind) -> bool
    ensures { result ≡ is_asked kind }
{
    match kind {
        ServiceKind::Asked => true,
        ServiceKind::Queued | ServiceKind::Result => false,
    }
}
