//! Requests that the owner of the device executes: what is asked, what is refused before, and what an approved set
//! stores.

use cip_application::{
    AttributeConfig, AttributeKind, NumberRange, NumberType, ObjectConfig, ServiceConfig,
    ServiceKind,
};
use cip_objects::{Objects, Refusal, ReplyBuf, Router};
use std::alloc::Global;
use std::process::Abort;
use std::test::Fail;
use test_fixtures::adapter::config;

/// The path of instance 1 of class 768.
const CONVEYOR: &[u8] = b"\x21\x00\x00\x03\x24\x01";

fn attribute(
    alloc: Global,
    number: u16,
    kind: AttributeKind,
    may: (bool, bool),
    value: &[u8],
) -> Result<AttributeConfig, Fail> {
    Ok(AttributeConfig {
        number,
        kind,
        settable: may.0,
        checked: may.1,
        value: Vec::from_slice(alloc, value)?,
    })
}

/// Numbers from 0 to 3,000, of two bytes each.
fn speeds(size: u16) -> AttributeKind {
    AttributeKind::Fixed {
        size,
        range: Some(NumberRange {
            number: NumberType::Uint,
            least: 0,
            greatest: 3_000,
        }),
    }
}

/// The attributes of the conveyor: a checked speed, a checked text, a checked array of two speeds, a settable speed
/// that is not checked, and a checked speed that is not settable.
fn attributes(alloc: Global) -> Result<Vec<AttributeConfig>, Fail> {
    let text = AttributeKind::ShortString { room: 2 };
    let mut attributes = Vec::new(alloc);
    attributes.push(attribute(alloc, 1, speeds(2), (true, true), b"\x10\x00")?)?;
    attributes.push(attribute(alloc, 2, text, (true, true), b"\x00")?)?;
    attributes.push(attribute(alloc, 3, speeds(4), (true, true), b"\x00\x00\x00\x00")?)?;
    attributes.push(attribute(alloc, 4, speeds(2), (true, false), b"\x00\x00")?)?;
    attributes.push(attribute(alloc, 5, speeds(2), (false, true), b"\x00\x00")?)?;
    Ok(attributes)
}

/// Instance 1 of class 768. Its service 0x32 takes 4 bytes and answers up to 4, and 0x63 takes up to 480 bytes and
/// answers up to 480. Instance 2 has neither attributes nor services.
fn objects(alloc: Global) -> Result<Objects, Fail> {
    let mut services = Vec::new(alloc);
    services.push(ServiceConfig {
        number: 0x32,
        least: 4,
        most: 4,
        reply: 4,
        kind: ServiceKind::Asked,
    })?;
    services.push(ServiceConfig {
        number: 0x63,
        least: 0,
        most: 480,
        reply: 480,
        kind: ServiceKind::Asked,
    })?;
    let mut config = config(alloc)?;
    config.objects.push(ObjectConfig {
        class: 768,
        instance: 2,
        standard: false,
        name: None,
        attributes: Vec::new(alloc),
        services: Vec::new(alloc),
        lists: false,
    })?;
    config.objects.push(ObjectConfig {
        class: 768,
        instance: 1,
        standard: false,
        name: None,
        attributes: attributes(alloc)?,
        services,
        lists: false,
    })?;
    Ok(Objects::new(alloc, &config)?)
}

/// A request of this service with this path.
fn request(alloc: Global, service: u8, path: &[u8], data: &[u8]) -> Result<Vec<u8>, Fail> {
    let mut request = Vec::from_slice(alloc, &[service, (path.len() / 2) as u8])?;
    request.extend_from_slice(path)?;
    request.extend_from_slice(data)?;
    Ok(request)
}

/// What a test expects of a request: `None` if the owner does not execute it, and otherwise the most bytes of the reply
/// or the refusal.
type Wanted = Option<Result<u16, Refusal>>;

/// Asserts what a request asks the owner. The objects themselves refuse what the owner executes.
fn check(rt: &impl Abort, objects: &mut Objects, request: &[u8], data: &[u8], wanted: Wanted) {
    match objects.own_request(request) {
        Some(Ok(asked)) => {
            assert!(rt; wanted == Some(Ok(asked.reply_limit)));
            assert_eq!(rt; asked.class, 768);
            assert_eq!(rt; asked.instance, 1);
            assert_eq!(rt; asked.service, request[0]);
            assert_eq!(rt; asked.data, data);
        }
        Some(Err(refusal)) => assert!(rt; wanted == Some(Err(refusal))),
        None => assert!(rt; wanted.is_none()),
    }
    if wanted.is_some() {
        let mut reply = ReplyBuf::new();
        objects.execute(request, 500, &mut reply);
        let status = if request[0] == 0x10 { 0x0e } else { 0x08 };
        assert_eq!(rt;
            reply.as_slice(),
            [request[0] | 0x80, 0, status, 0].as_slice()
        );
    }
}

/// Asserts what a service of the conveyor asks.
fn check_service(
    rt: &impl Abort,
    alloc: Global,
    objects: &mut Objects,
    service: u8,
    data: &[u8],
    wanted: Wanted,
) -> Result<(), Fail> {
    let request = request(alloc, service, CONVEYOR, data)?;
    check(rt, objects, &request, data, wanted);
    Ok(())
}

/// Asserts what a set of an attribute of the conveyor asks.
fn check_set(
    rt: &impl Abort,
    alloc: Global,
    objects: &mut Objects,
    number: u8,
    data: &[u8],
    wanted: Wanted,
) -> Result<(), Fail> {
    let mut path = Vec::from_slice(alloc, CONVEYOR)?;
    path.extend_from_slice(&[0x30, number])?;
    let request = request(alloc, 0x10, &path, data)?;
    check(rt, objects, &request, data, wanted);
    Ok(())
}

#[test]
fn own_services(rt: HostRuntime) -> Result<(), Fail> {
    let alloc = rt.alloc();
    let mut objects = objects(alloc)?;
    let o = &mut objects;
    check_service(
        &rt,
        alloc,
        o,
        0x32,
        b"\x01\x02\x03",
        Some(Err(Refusal::NotEnoughData)),
    )?;
    check_service(&rt, alloc, o, 0x32, b"\x01\x02\x03\x04", Some(Ok(4)))?;
    check_service(
        &rt,
        alloc,
        o,
        0x32,
        b"\x01\x02\x03\x04\x05",
        Some(Err(Refusal::TooMuchData)),
    )?;
    check_service(&rt, alloc, o, 0x63, b"", Some(Ok(480)))?;
    check_service(&rt, alloc, o, 0x63, &[7; 480], Some(Ok(480)))?;
    check_service(
        &rt,
        alloc,
        o,
        0x63,
        &[7; 481],
        Some(Err(Refusal::TooMuchData)),
    )?;
    check_service(&rt, alloc, o, 0x33, b"", None)?;
    check_service(&rt, alloc, o, 0x31, b"", None)?;
    check_service(&rt, alloc, o, 0x64, b"", None)?;
    check_service(&rt, alloc, o, 0x0e, b"", None)?;
    Ok(())
}

#[test]
fn checked_sets(rt: HostRuntime) -> Result<(), Fail> {
    let alloc = rt.alloc();
    let mut objects = objects(alloc)?;
    let o = &mut objects;
    // The size comes before the range.
    check_set(&rt, alloc, o, 1, b"\xff", Some(Err(Refusal::NotEnoughData)))?;
    check_set(
        &rt,
        alloc,
        o,
        1,
        b"\xff\xff\xff",
        Some(Err(Refusal::TooMuchData)),
    )?;
    check_set(
        &rt,
        alloc,
        o,
        1,
        b"\xb9\x0b",
        Some(Err(Refusal::InvalidAttributeValue)),
    )?;
    check_set(&rt, alloc, o, 1, b"\xb8\x0b", Some(Ok(0)))?;
    // A text with its length.
    check_set(&rt, alloc, o, 2, b"", Some(Err(Refusal::NotEnoughData)))?;
    check_set(
        &rt,
        alloc,
        o,
        2,
        b"\x03ab",
        Some(Err(Refusal::NotEnoughData)),
    )?;
    check_set(&rt, alloc, o, 2, b"\x01ab", Some(Err(Refusal::TooMuchData)))?;
    check_set(
        &rt,
        alloc,
        o,
        2,
        b"\x03abc",
        Some(Err(Refusal::InvalidAttributeValue)),
    )?;
    check_set(&rt, alloc, o, 2, b"\x02ab", Some(Ok(0)))?;
    // Each element of an array.
    check_set(
        &rt,
        alloc,
        o,
        3,
        b"\x00\x00\xb9\x0b",
        Some(Err(Refusal::InvalidAttributeValue)),
    )?;
    check_set(&rt, alloc, o, 3, b"\xb8\x0b\xb8\x0b", Some(Ok(0)))?;
    // Not checked, not settable, not there.
    check_set(&rt, alloc, o, 4, b"\x00\x00", None)?;
    check_set(&rt, alloc, o, 5, b"\x00\x00", None)?;
    check_set(&rt, alloc, o, 6, b"\x00\x00", None)?;
    // No attribute.
    check_service(&rt, alloc, o, 0x10, b"\x00\x00", None)?;
    Ok(())
}

#[test]
fn elsewhere(rt: HostRuntime) -> Result<(), Fail> {
    let mut objects = objects(rt.alloc())?;
    let o = &mut objects;
    // The counter, the class itself, an instance without services, an instance that is not there, no path, a path past
    // the end, and no request.
    check(
        &rt,
        o,
        b"\x32\x02\x20\x64\x24\x01\x01\x00\x00\x00",
        b"",
        None,
    );
    check(
        &rt,
        o,
        b"\x32\x03\x21\x00\x00\x03\x24\x00\x01\x02\x03\x04",
        b"",
        None,
    );
    check(
        &rt,
        o,
        b"\x32\x03\x21\x00\x00\x03\x24\x02\x01\x02\x03\x04",
        b"",
        None,
    );
    check(
        &rt,
        o,
        b"\x32\x03\x21\x00\x00\x03\x24\x03\x01\x02\x03\x04",
        b"",
        None,
    );
    check(&rt, o, b"\x32\x00\x01\x02\x03\x04", b"", None);
    check(&rt, o, b"\x32\x04\x21\x00\x00\x03\x24\x01", b"", None);
    check(&rt, o, b"\x32", b"", None);
    // A device without application objects.
    let mut demo = Objects::new(rt.alloc(), &config(rt.alloc())?)?;
    check(
        &rt,
        &mut demo,
        b"\x32\x02\x20\x64\x24\x01\x01\x00\x00\x00",
        b"",
        None,
    );
    Ok(())
}

/// Asserts the value of an attribute of the conveyor, and how often it was set.
fn check_value(rt: &impl Abort, objects: &Objects, number: u16, wanted: &[u8], changes: u32) {
    let value = objects.attribute(768, 1, number);
    assert!(rt; value.is_some());
    if let Some(value) = value {
        assert_eq!(rt; value.as_slice(), wanted);
    }
    assert_eq!(rt; objects.attribute_changes(768, 1, number), Some(changes));
}

#[test]
fn approved(rt: HostRuntime) -> Result<(), Fail> {
    let mut objects = objects(rt.alloc())?;
    objects.store_checked(768, 1, 1, b"\xb8\x0b");
    check_value(&rt, &objects, 1, b"\xb8\x0b", 1);
    objects.store_checked(768, 1, 2, b"\x01a");
    check_value(&rt, &objects, 2, b"\x01a", 1);
    // Values that the attribute may not have, and attributes that are not set in this way.
    objects.store_checked(768, 1, 1, b"\xb9\x0b");
    objects.store_checked(768, 1, 1, b"\x00");
    check_value(&rt, &objects, 1, b"\xb8\x0b", 1);
    objects.store_checked(768, 1, 4, b"\x01\x00");
    check_value(&rt, &objects, 4, b"\x00\x00", 0);
    objects.store_checked(768, 1, 5, b"\x01\x00");
    check_value(&rt, &objects, 5, b"\x00\x00", 0);
    objects.store_checked(768, 2, 1, b"\x01\x00");
    objects.store_checked(769, 1, 1, b"\x01\x00");
    check_value(&rt, &objects, 1, b"\xb8\x0b", 1);
    Ok(())
}

#[test]
fn statuses(rt: HostRuntime) {
    assert_eq!(rt; Refusal::NotEnoughData.status().number(), 0x13);
    assert_eq!(rt; Refusal::TooMuchData.status().number(), 0x15);
    assert_eq!(rt; Refusal::InvalidAttributeValue.status().number(), 0x09);
}
