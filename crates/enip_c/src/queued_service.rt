//! The queued service for which the library for C refuses a configuration, since it has no queue of commands.

ghost use Rattle.std.specs.Prelude.{◌≡◌};
ghost use Rattle.enip_config.specs.Commands.{is_queued};
ghost use Rattle.enip_c.specs.ExplainCalls.{first_queued, first_queued_of};

use cip_application::{ObjectConfig, ServiceConfig, ServiceKind};
use thiserror::Error;

/// A queued service: the class and the instance of its object, and its number.
#[derive(Clone, Copy, Debug, Error)]
#[error("service {number:#04x} of class {class:#04x}, instance {instance} is queued, and this library has no queue")]
pub(crate) struct QueuedService {
    pub(crate) class: u16,
    pub(crate) instance: u16,
    pub(crate) number: u8,
}

/// The first queued service of these objects.
pub(crate) fn first_queued(objects: &[ObjectConfig]) -> Option<QueuedService>
    ensures { result ≡ first_queued objects.now }
{
    for object in objects {
        if let Some(number) = first_queued_of(&object.services) {
            return Some(QueuedService {
                class: object.class,
                instance: object.instance,
                number,
            });
        }
    }
    None
}

/// The number of the first queued service.
fn first_queued_of(services: &[ServiceConfig]) -> Option<u8>
    ensures { result ≡ first_queued_of services.now }
{
    for service in services {
        if is_queued(service) {
            return Some(service.number);
        }
    }
    None
}

/// Whether a service is queued.
fn is_queued(service: &ServiceConfig) -> bool
    ensures { result ≡ is_queued service.now }
{
    match service.kind {
        ServiceKind::Queued => true,
        ServiceKind::Asked | ServiceKind::Result => false,
    }
}
