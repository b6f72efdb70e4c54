//! The attributes of the ledger, and the services that read them.

use super::node::{
    ADD_FIVE, ADD_ONE, FIVE, LIFE, check, check_counter, node, node_of, once, with_data,
};
use cip_objects::{ReplyBuf, Router};
use std::test::Fail;

/// The attributes of the instance and of the class.
#[test]
fn attributes(rt: HostRuntime) -> Result<(), Fail> {
    let mut node = node(rt.alloc())?;
    check(&rt, &mut node, 504, &once(LIFE, 1, 1, ADD_FIVE), FIVE);
    check(
        &rt,
        &mut node,
        504,
        b"\x0e\x03\x20\x65\x24\x01\x30\x01",
        b"\x8e\x00\x00\x00\x02\x00",
    );
    check(
        &rt,
        &mut node,
        504,
        b"\x0e\x03\x20\x65\x24\x01\x30\x02",
        b"\x8e\x00\x00\x00\x01\x00",
    );
    let life = b"\x8e\x00\x00\x00\x07\x00\x00\x00\x00\x00\x00\x00";
    check(
        &rt,
        &mut node,
        12,
        b"\x0e\x03\x20\x65\x24\x01\x30\x03",
        life,
    );
    check(
        &rt,
        &mut node,
        11,
        b"\x0e\x03\x20\x65\x24\x01\x30\x03",
        b"\x8e\x00\x11\x00",
    );
    check(
        &rt,
        &mut node,
        504,
        b"\x0e\x03\x20\x65\x24\x01\x30\x04",
        b"\x8e\x00\x14\x00",
    );
    check(
        &rt,
        &mut node,
        504,
        b"\x0e\x02\x20\x65\x24\x01",
        b"\x8e\x00\x14\x00",
    );
    check(
        &rt,
        &mut node,
        504,
        b"\x0e\x03\x20\x65\x24\x01\x30\x01\x00",
        b"\x8e\x00\x15\x00",
    );
    check(
        &rt,
        &mut node,
        504,
        b"\x0e\x03\x20\x65\x24\x01\x30\x04\x00",
        b"\x8e\x00\x14\x00",
    );
    for attribute in 1..4u8 {
        let get = with_data(b"\x0e\x03\x20\x65\x24\x00\x30", &[attribute]);
        check(&rt, &mut node, 504, &get, b"\x8e\x00\x00\x00\x01\x00");
    }
    check(
        &rt,
        &mut node,
        504,
        b"\x0e\x03\x20\x65\x24\x00\x30\x04",
        b"\x8e\x00\x14\x00",
    );
    Ok(())
}

/// Get_Attribute_List: all attributes, an unknown one, and each refusal.
#[test]
fn attribute_list(rt: HostRuntime) -> Result<(), Fail> {
    let mut node = node(rt.alloc())?;
    let head = b"\x03\x02\x20\x65\x24\x01";
    let three = with_data(head, b"\x03\x00\x03\x00\x01\x00\x02\x00");
    let values = b"\x83\x00\x00\x00\x03\x00\
        \x03\x00\x00\x00\x07\x00\x00\x00\x00\x00\x00\x00\
        \x01\x00\x00\x00\x02\x00\
        \x02\x00\x00\x00\x00\x00";
    check(&rt, &mut node, 30, &three, values);
    check(&rt, &mut node, 29, &three, b"\x83\x00\x11\x00");
    let unknown = with_data(head, b"\x02\x00\x09\x00\x01\x00");
    let partly = b"\x83\x00\x0a\x00\x02\x00\x09\x00\x14\x00\x01\x00\x00\x00\x02\x00";
    check(&rt, &mut node, 504, &unknown, partly);
    check(
        &rt,
        &mut node,
        504,
        &with_data(head, b"\x00\x00"),
        b"\x83\x00\x00\x00\x00\x00",
    );
    check(
        &rt,
        &mut node,
        504,
        &with_data(head, b"\x00"),
        b"\x83\x00\x13\x00",
    );
    check(
        &rt,
        &mut node,
        504,
        &with_data(head, b"\x01\x00\x01"),
        b"\x83\x00\x13\x00",
    );
    check(
        &rt,
        &mut node,
        504,
        &with_data(head, b"\x01\x00\x01\x00\x00"),
        b"\x83\x00\x15\x00",
    );
    Ok(())
}

/// Instances and services that the ledger does not have.
#[test]
fn unknown(rt: HostRuntime) -> Result<(), Fail> {
    let mut node = node(rt.alloc())?;
    check(
        &rt,
        &mut node,
        504,
        b"\x4b\x02\x20\x65\x24\x02",
        b"\xcb\x00\x05\x00",
    );
    check(
        &rt,
        &mut node,
        504,
        b"\x0e\x03\x20\x65\x24\x02\x30\x01",
        b"\x8e\x00\x05\x00",
    );
    check(
        &rt,
        &mut node,
        504,
        b"\x4b\x02\x20\x65\x24\x00",
        b"\xcb\x00\x08\x00",
    );
    check(
        &rt,
        &mut node,
        504,
        b"\x03\x02\x20\x65\x24\x00\x00\x00",
        b"\x83\x00\x08\x00",
    );
    check(
        &rt,
        &mut node,
        504,
        b"\x10\x03\x20\x65\x24\x01\x30\x01\x00\x00",
        b"\x90\x00\x08\x00",
    );
    check(
        &rt,
        &mut node,
        504,
        b"\x32\x02\x20\x65\x24\x01",
        b"\xb2\x00\x08\x00",
    );
    check(
        &rt,
        &mut node,
        504,
        b"\x01\x02\x20\x65\x24\x01",
        b"\x81\x00\x08\x00",
    );
    Ok(())
}

/// Each byte of the life, and the number of taken slots after each command, after a repeat and after Forget.
#[test]
fn values(rt: HostRuntime) -> Result<(), Fail> {
    let life = 0x7817_1615_1413_1211;
    let mut node = node_of(rt.alloc(), 64, life)?;
    let slots = b"\x0e\x03\x20\x65\x24\x01\x30\x01";
    let taken = b"\x0e\x03\x20\x65\x24\x01\x30\x02";
    let get_life = b"\x0e\x03\x20\x65\x24\x01\x30\x03";
    let has_life = b"\x8e\x00\x00\x00\x11\x12\x13\x14\x15\x16\x17\x78";
    check(&rt, &mut node, 504, slots, b"\x8e\x00\x00\x00\x40\x00");
    check(&rt, &mut node, 504, get_life, has_life);
    for (originator, number, count) in [(1, 1, 1), (2, 1, 2), (1, 2, 2), (2, 1, 2), (3, 9, 3)] {
        let mut reply = ReplyBuf::new();
        node.execute(&once(life, originator, number, ADD_ONE), 504, &mut reply);
        check(&rt, &mut node, 504, taken, &[0x8e, 0, 0, 0, count, 0]);
    }
    let forget = b"\x4d\x02\x20\x65\x24\x01\x02\x00\x00\x00\x00\x00\x00\x00\x01\x00\x00\x00";
    check(&rt, &mut node, 504, forget, b"\xcd\x00\x00\x00");
    check(&rt, &mut node, 504, taken, b"\x8e\x00\x00\x00\x02\x00");
    check_counter(&rt, &node, 4, 4);
    Ok(())
}

/// Two checks that both apply: the attribute, the length of the data, the reply limit.
#[test]
fn first_check_decides(rt: HostRuntime) -> Result<(), Fail> {
    let mut node = node(rt.alloc())?;
    // attribute 3 needs 12 bytes: an unknown one, and long data, before the reply limit
    let unknown = b"\x0e\x03\x20\x65\x24\x01\x30\x00";
    check(&rt, &mut node, 8, unknown, b"\x8e\x00\x14\x00");
    let long = b"\x0e\x03\x20\x65\x24\x01\x30\x03\x00";
    check(&rt, &mut node, 8, long, b"\x8e\x00\x15\x00");
    // the same at the class
    let class_unknown = b"\x0e\x03\x20\x65\x24\x00\x30\x00\x00";
    check(&rt, &mut node, 8, class_unknown, b"\x8e\x00\x14\x00");
    let class_long = b"\x0e\x03\x20\x65\x24\x00\x30\x01\x00";
    check(&rt, &mut node, 8, class_long, b"\x8e\x00\x15\x00");
    // a list: its length, before an unknown attribute and the reply limit
    let head = b"\x03\x02\x20\x65\x24\x01";
    let short_list = with_data(head, b"\x02\x00\x09\x00\x03");
    check(&rt, &mut node, 8, &short_list, b"\x83\x00\x13\x00");
    let long_list = with_data(head, b"\x01\x00\x09\x00\x03\x00");
    check(&rt, &mut node, 8, &long_list, b"\x83\x00\x15\x00");
    // the reply limit, before the status of an unknown attribute: 10 bytes
    let one_unknown = with_data(head, b"\x01\x00\x09\x00");
    let partly = b"\x83\x00\x0a\x00\x01\x00\x09\x00\x14\x00";
    check(&rt, &mut node, 10, &one_unknown, partly);
    check(&rt, &mut node, 9, &one_unknown, b"\x83\x00\x11\x00");
    Ok(())
}
