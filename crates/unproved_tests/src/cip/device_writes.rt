//! What the device itself writes, and how it sees writes by clients.

use cip_objects::{AssemblyConfig, Objects, ReplyBuf, Router};
use std::alloc::Global;
use std::process::Abort;
use std::test::Fail;
use test_fixtures::adapter::config;

/// Set_Attribute_Single of the data of assembly 100 with all four bytes, and with three.
const SET: &[u8] = b"\x10\x03\x20\x04\x24\x64\x30\x03\x01\x02\x03\x04";

const SHORT_SET: &[u8] = b"\x10\x03\x20\x04\x24\x64\x30\x03\x01\x02\x03";

/// Set_Member of its second member, which has two bytes.
const SET_MEMBER: &[u8] = b"\x19\x04\x20\x04\x24\x64\x30\x03\x28\x02\xaa\xbb";

/// Set_Attribute_Single of the data of assembly 101, which is not settable.
const SET_OTHER: &[u8] = b"\x10\x03\x20\x04\x24\x65\x30\x03\x01\x02";

/// Set_Attribute_Single of the counter's limit, and the counter's Add of 1.
const SET_LIMIT: &[u8] = b"\x10\x03\x20\x64\x24\x01\x30\x02\x64\x00\x00\x00";

const ADD: &[u8] = b"\x32\x02\x20\x64\x24\x01\x01\x00\x00\x00";

/// The objects of the demo configuration, and an assembly 101 of two bytes that is not settable.
fn objects(alloc: Global) -> Result<Objects, Fail> {
    let mut config = config(alloc)?;
    config.assemblies.push(AssemblyConfig {
        instance: 101,
        settable: false,
        members: Vec::from_slice(alloc, &[2])?,
        lists: false,
    })?;
    Ok(Objects::new(alloc, &config)?)
}

/// Asserts the value of an attribute.
fn check(
    rt: &impl Abort,
    objects: &Objects,
    place: (u16, u32, u16),
    wanted: &[u8],
) -> Result<(), Fail> {
    let (class, instance, attribute) = place;
    let value = objects
        .attribute(class, instance, attribute)
        .ok_or("there is no such attribute")?;
    assert_eq!(rt; value.as_slice(), wanted);
    Ok(())
}

/// The general status of the reply to a request.
fn status(objects: &mut Objects, request: &[u8]) -> Result<u8, Fail> {
    let mut reply = ReplyBuf::new();
    objects.execute(request, 500, &mut reply);
    Ok(*reply.as_slice().get(2).ok_or("the reply has a status")?)
}

#[test]
fn data_settable_or_not(rt: HostRuntime) -> Result<(), Fail> {
    let mut objects = objects(rt.alloc())?;
    assert!(rt; objects.write_data(101, 0, &[1, 2]));
    check(&rt, &objects, (4, 101, 3), &[1, 2])?;
    assert!(rt; objects.write_data(100, 1, &[0xaa, 0xbb]));
    check(&rt, &objects, (4, 100, 3), &[0, 0xaa, 0xbb, 0])?;
    // writing no byte at the end of the data is allowed
    assert!(rt; objects.write_data(100, 4, &[]));
    check(&rt, &objects, (4, 100, 3), &[0, 0xaa, 0xbb, 0])
}

#[test]
fn outside_changes_nothing(rt: HostRuntime) -> Result<(), Fail> {
    let mut objects = objects(rt.alloc())?;
    // bytes past the end of the data, also if the sum of offset and length wraps
    assert!(rt; !objects.write_data(100, 3, &[1, 2]));
    assert!(rt; !objects.write_data(100, 0, &[1, 2, 3, 4, 5]));
    assert!(rt; !objects.write_data(100, 5, &[]));
    assert!(rt; !objects.write_data(100, usize::MAX, &[1]));
    // not assemblies: the class itself, an instance that does not exist, and 100 plus 2^16
    assert!(rt; !objects.write_data(0, 0, &[1]));
    assert!(rt; !objects.write_data(7, 0, &[]));
    assert!(rt; !objects.write_data(0x1_0064, 0, &[1]));
    check(&rt, &objects, (4, 100, 3), &[0, 0, 0, 0])?;
    check(&rt, &objects, (4, 101, 3), &[0, 0])
}

#[test]
fn status_and_state(rt: HostRuntime) -> Result<(), Fail> {
    let mut objects = objects(rt.alloc())?;
    objects.set_device_status(0x0135);
    objects.set_device_state(5);
    check(&rt, &objects, (1, 1, 5), &[0x35, 0x01])?;
    check(&rt, &objects, (1, 1, 8), &[5])?;
    check(&rt, &objects, (1, 1, 4), &[2, 5])?;
    check(&rt, &objects, (1, 1, 6), &[4, 3, 2, 1])
}

#[test]
fn changes(rt: HostRuntime) -> Result<(), Fail> {
    let mut objects = objects(rt.alloc())?;
    assert_eq!(rt; objects.changes(100), Some(0));
    assert_eq!(rt; objects.changes(0), None);
    assert_eq!(rt; objects.changes(7), None);
    assert_eq!(rt; status(&mut objects, SET)?, 0x00);
    assert_eq!(rt; objects.changes(100), Some(1));
    assert_eq!(rt; status(&mut objects, SET_MEMBER)?, 0x00);
    assert_eq!(rt; objects.changes(100), Some(2));
    // a refused request does not count as a write: not enough data, an attribute that is not settable
    assert_eq!(rt; status(&mut objects, SHORT_SET)?, 0x13);
    assert_eq!(rt; status(&mut objects, SET_OTHER)?, 0x0e);
    // nor does a write to another object, or by the device itself
    assert_eq!(rt; status(&mut objects, SET_LIMIT)?, 0x00);
    assert_eq!(rt; status(&mut objects, ADD)?, 0x00);
    assert!(rt; objects.write_data(100, 0, &[9]));
    assert!(rt; objects.write_data(101, 0, &[9]));
    objects.set_device_state(4);
    assert_eq!(rt; objects.changes(100), Some(2));
    assert_eq!(rt; objects.changes(101), Some(0));
    // writing the same data again is a write like any other
    assert_eq!(rt; status(&mut objects, SET)?, 0x00);
    assert_eq!(rt; status(&mut objects, SET)?, 0x00);
    assert_eq!(rt; objects.changes(100), Some(4));
    Ok(())
}
