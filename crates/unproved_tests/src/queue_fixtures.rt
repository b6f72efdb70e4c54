//! Objects with queued services, and requests to them.

use cip_application::{GET_RESULT, ObjectConfig, ServiceConfig, ServiceKind};
use cip_objects::{Config, Objects};
use cip_owner::{OwnedObjects, OwnerReply, Queue};
use std::alloc::Global;
use std::test::Fail;
use test_fixtures::adapter::config;

/// A service that is asked of the owner. It takes 4 bytes and answers up to 4.
pub const ASKED: u8 = 0x32;

/// A queued service. It takes 4 bytes and answers up to 4.
pub const QUEUED: u8 = 0x33;

/// A queued service that takes up to 480 bytes and answers up to 476.
pub const LARGEST: u8 = 0x34;

/// The class of the objects with these services.
pub const CLASS: u16 = 768;

fn service(number: u8, sizes: (u16, u16), reply: u16, kind: ServiceKind) -> ServiceConfig {
    ServiceConfig {
        number,
        least: sizes.0,
        most: sizes.1,
        reply,
        kind,
    }
}

/// The services of an object, with the queued ones or without.
fn services(alloc: Global, is_queued: bool) -> Result<Vec<ServiceConfig>, Fail> {
    let mut services = Vec::new(alloc);
    services.push(service(ASKED, (4, 4), 4, ServiceKind::Asked))?;
    if is_queued {
        services.push(service(QUEUED, (4, 4), 4, ServiceKind::Queued))?;
        services.push(service(LARGEST, (0, 480), 476, ServiceKind::Queued))?;
        services.push(service(GET_RESULT, (4, 4), 478, ServiceKind::Result))?;
    }
    Ok(services)
}

/// The demo configuration with three objects. Instances 1 and 2 have queued services, instance 3 has none.
pub fn queued_config(alloc: Global) -> Result<Config, Fail> {
    let mut config = config(alloc)?;
    for instance in 1..=3u16 {
        config.objects.push(ObjectConfig {
            class: CLASS,
            instance,
            standard: false,
            name: None,
            attributes: Vec::new(alloc),
            services: services(alloc, instance < 3)?,
            lists: false,
        })?;
    }
    Ok(config)
}

/// These objects.
pub fn plain_objects(alloc: Global) -> Result<Objects, Fail> {
    Ok(
        Objects::new(alloc, &queued_config(alloc)?)
            .ok()
            .ok_or("the objects are made")?,
    )
}

/// These objects, and a queue in which so many commands may wait.
pub fn queued_objects(alloc: Global, limit: u16) -> Result<OwnedObjects, Fail> {
    let objects = plain_objects(alloc)?;
    Ok(OwnedObjects::with_queue(objects, Some(Queue::new(alloc, limit)?)))
}

/// A request for a service of an instance of the class, with these data.
pub fn request(alloc: Global, service: u8, instance: u8, data: &[u8]) -> Result<Vec<u8>, Fail> {
    let mut request = Vec::from_slice(
        alloc,
        &[service, 0x03, 0x21, 0x00, 0x00, 0x03, 0x24, instance],
    )?;
    request.extend_from_slice(data)?;
    Ok(request)
}

/// An owner's reply.
pub fn reply(status: u8, data: &[u8]) -> Result<OwnerReply, Fail> {
    Ok(OwnerReply::new(status, data).ok_or("the reply is short")?)
}

/// A frame of session 1 with this command, these items before the size of the message, this count, and this message.
pub fn frame(
    alloc: Global,
    command: u8,
    items: &[u8],
    count: &[u8],
    message: &[u8],
) -> Result<Vec<u8>, Fail> {
    let size = (count.len() + message.len()) as u16;
    let mut frame = Vec::from_slice(alloc, &[command, 0])?;
    frame.extend_from_slice(&(items.len() as u16 + 10 + size).to_le_bytes())?;
    frame.extend_from_slice(b"\x01\0\0\0\0\0\0\0\x01\x02\x03\x04\x05\x06\x07\x08\0\0\0\0")?;
    frame.extend_from_slice(b"\0\0\0\0\0\0\x02\0")?;
    frame.extend_from_slice(items)?;
    frame.extend_from_slice(&size.to_le_bytes())?;
    frame.extend_from_slice(count)?;
    frame.extend_from_slice(message)?;
    Ok(frame)
}

/// A SendRRData of session 1 with this message.
pub fn unconnected(alloc: Global, message: &[u8]) -> Result<Vec<u8>, Fail> {
    frame(alloc, 0x6f, b"\0\0\0\0\xb2\0", b"", message)
}

/// Do_Once of this life, with originator 1, this number and this embedded request.
pub fn once(alloc: Global, life: u64, number: u8, embedded: &[u8]) -> Result<Vec<u8>, Fail> {
    let mut once = Vec::from_slice(alloc, b"\x4b\x02\x20\x65\x24\x01")?;
    once.extend_from_slice(&life.to_le_bytes())?;
    once.extend_from_slice(&[1, 0, 0, 0, 0, 0, 0, 0, number, 0, 0, 0])?;
    once.extend_from_slice(embedded)?;
    Ok(once)
}
