//! Set_Attribute_List: what it counts, and what a reply that does not fit leaves.

use super::application_objects::conveyor;
use cip_objects::{Objects, ReplyBuf, Router};
use std::alloc::Global;
use std::process::Abort;
use std::test::Fail;
use test_fixtures::adapter::config;

/// Set_Attribute_List of attribute 3 of instance 2 of class 768, with 3,000, with 3,001 and with 1.
const SET_LIST: &[u8] =
    b"\x04\x03\x21\x00\x00\x03\x24\x02\x03\x00\x03\x00\xb8\x0b\x03\x00\xb9\x0b\x03\x00\x01\x00";

/// The second value is over the limit. (Volume 1, Set_Attribute_List.)
const DONE: &[u8] = b"\x84\x00\x0a\x00\x03\x00\x03\x00\x00\x00\x03\x00\x09\x00\x03\x00\x00\x00";

/// The objects of the demo configuration and a conveyor whose attributes can be set by lists.
fn objects_with_lists(alloc: Global) -> Result<Objects, Fail> {
    let mut config = config(alloc)?;
    let mut listed = conveyor(alloc, 768)?;
    listed.lists = true;
    config.objects.push(listed)?;
    Ok(Objects::new(alloc, &config)?)
}

/// Asserts the reply to the list, which has up to `max_size` bytes.
fn check(rt: &impl Abort, objects: &mut Objects, max_size: usize, wanted: &[u8]) {
    let mut reply = ReplyBuf::new();
    objects.execute(SET_LIST, max_size, &mut reply);
    assert_eq!(rt; reply.as_slice(), wanted);
}

#[test]
fn each_set_is_counted(rt: HostRuntime) -> Result<(), Fail> {
    let mut objects = objects_with_lists(rt.alloc())?;
    check(&rt, &mut objects, 500, DONE);
    assert_eq!(rt; objects.attribute_changes(768, 2, 3), Some(2));
    Ok(())
}

#[test]
fn too_large_sets_nothing(rt: HostRuntime) -> Result<(), Fail> {
    let mut objects = objects_with_lists(rt.alloc())?;
    check(&rt, &mut objects, 17, b"\x84\x00\x11\x00");
    assert_eq!(rt; objects.attribute_changes(768, 2, 3), Some(0));
    check(&rt, &mut objects, 18, DONE);
    assert_eq!(rt; objects.attribute_changes(768, 2, 3), Some(2));
    Ok(())
}
