//! Application objects: what peers read and set, and what the device itself reads, writes and counts.

use cip_application::{AttributeConfig, AttributeKind, NumberRange, NumberType, ObjectConfig};
use cip_objects::{ConfigFault, Objects, ReplyBuf, Router};
use std::alloc::Global;
use std::process::Abort;
use std::test::Fail;
use test_fixtures::adapter::config;

/// Get_Attributes_All of instance 2 of class 768.
const GET_ALL: &[u8] = b"\x01\x03\x21\x00\x00\x03\x24\x02";

/// Set_Attribute_Single of its attribute 3, with 3,000 and with 3,001.
const SET: &[u8] = b"\x10\x04\x21\x00\x00\x03\x24\x02\x30\x03\xb8\x0b";

const SET_OVER: &[u8] = b"\x10\x04\x21\x00\x00\x03\x24\x02\x30\x03\xb9\x0b";

/// Set_Attribute_Single of its attribute 1, which is not settable, and of its attribute 4, which is checked.
const SET_NAME: &[u8] = b"\x10\x04\x21\x00\x00\x03\x24\x02\x30\x01\x01\x61";

const SET_CHECKED: &[u8] = b"\x10\x04\x21\x00\x00\x03\x24\x02\x30\x04\x01";

/// Get_Attribute_Single of the greatest instance of the class.
const GREATEST: &[u8] = b"\x0e\x04\x21\x00\x00\x03\x24\x00\x30\x02";

/// Get_Attribute_Single of the counter's value.
const COUNTER: &[u8] = b"\x0e\x03\x20\x64\x24\x01\x30\x01";

fn attribute(
    alloc: Global,
    number: u16,
    kind: AttributeKind,
    settable: bool,
    value: &[u8],
) -> Result<AttributeConfig, Fail> {
    Ok(AttributeConfig {
        number,
        kind,
        settable,
        checked: number == 4,
        value: Vec::from_slice(alloc, value)?,
    })
}

/// Instance 2 of this class: a speed of 0 to 3,000 as attribute 3, a name as attribute 1, and a checked attribute 4.
pub(super) fn conveyor(alloc: Global, class: u16) -> Result<ObjectConfig, Fail> {
    let speeds = NumberRange {
        number: NumberType::Uint,
        least: 0,
        greatest: 3_000,
    };
    let speed = AttributeKind::Fixed {
        size: 2,
        range: Some(speeds),
    };
    let byte = AttributeKind::Fixed {
        size: 1,
        range: None,
    };
    let mut attributes = Vec::new(alloc);
    attributes.push(attribute(alloc, 3, speed, true, b"\x10\x00")?)?;
    attributes.push(attribute(
        alloc,
        1,
        AttributeKind::ShortString { room: 4 },
        false,
        b"\x02ab",
    )?)?;
    attributes.push(attribute(alloc, 4, byte, true, b"\x00")?)?;
    Ok(ObjectConfig {
        class,
        instance: 2,
        standard: false,
        name: None,
        attributes,
        services: Vec::new(alloc),
        lists: false,
    })
}

/// The objects of the demo configuration and a conveyor of class 768.
pub(super) fn objects_with_conveyor(alloc: Global) -> Result<Objects, Fail> {
    let mut config = config(alloc)?;
    config.objects.push(conveyor(alloc, 768)?)?;
    Ok(Objects::new(alloc, &config)?)
}

/// Asserts the reply to a request.
fn check(rt: &impl Abort, objects: &mut Objects, request: &[u8], wanted: &[u8]) {
    let mut reply = ReplyBuf::new();
    objects.execute(request, 500, &mut reply);
    assert_eq!(rt; reply.as_slice(), wanted);
}

#[test]
fn read_and_set(rt: HostRuntime) -> Result<(), Fail> {
    let mut objects = objects_with_conveyor(rt.alloc())?;
    check(
        &rt,
        &mut objects,
        GET_ALL,
        b"\x81\x00\x00\x00\x02ab\x10\x00\x00",
    );
    check(&rt, &mut objects, SET, b"\x90\x00\x00\x00");
    check(&rt, &mut objects, SET_OVER, b"\x90\x00\x09\x00");
    check(&rt, &mut objects, SET_NAME, b"\x90\x00\x0e\x00");
    check(&rt, &mut objects, SET_CHECKED, b"\x90\x00\x0e\x00");
    check(
        &rt,
        &mut objects,
        GET_ALL,
        b"\x81\x00\x00\x00\x02ab\xb8\x0b\x00",
    );
    check(&rt, &mut objects, GREATEST, b"\x8e\x00\x00\x00\x02\x00");
    assert_eq!(rt; objects.attribute_changes(768, 2, 3), Some(1));
    assert_eq!(rt; objects.attribute_changes(768, 2, 1), Some(0));
    assert_eq!(rt; objects.attribute_changes(768, 1, 1), None);
    assert_eq!(rt; objects.attribute_changes(4, 100, 3), objects.changes(100));
    Ok(())
}

#[test]
fn written_by_the_device(rt: HostRuntime) -> Result<(), Fail> {
    let mut objects = objects_with_conveyor(rt.alloc())?;
    assert!(rt; objects.write_attribute(768, 2, 3, 1, b"\xff"));
    assert!(rt; objects.write_attribute(768, 2, 1, 0, b"\x01c"));
    assert!(rt; !objects.write_attribute(768, 2, 3, 1, b"\xff\xff"));
    assert!(rt; !objects.write_attribute(768, 2, 2, 0, b""));
    check(
        &rt,
        &mut objects,
        GET_ALL,
        b"\x81\x00\x00\x00\x01c\x10\xff\x00",
    );
    assert_eq!(rt; objects.attribute_changes(768, 2, 3), Some(0));
    Ok(())
}

#[test]
fn no_counter(rt: HostRuntime) -> Result<(), Fail> {
    let mut config = config(rt.alloc())?;
    config.counter.enabled = false;
    let mut objects = Objects::new(rt.alloc(), &config)?;
    check(&rt, &mut objects, COUNTER, b"\x8e\x00\x05\x00");
    config.objects.push(conveyor(rt.alloc(), 100)?)?;
    assert!(rt; Objects::new(rt.alloc(), &config).is_ok());
    config.counter.enabled = true;
    assert!(rt; Objects::new(rt.alloc(), &config).is_err());
    assert!(rt; config.fault() == Some(ConfigFault::Object));
    Ok(())
}
