//! Paths to the ledger, and requests that are not to it.

use super::node::{
    ADD_FIVE, ADD_ONE, FIVE, LIFE, check, check_counter, node, objects, once, with_data,
};
use cip_bytes::append;
use cip_ledger::LedgerRouter;
use cip_owner::OwnedObjects;
use std::test::Fail;

/// The attribute and the member of a path are ignored by the three services, and the class may have 16 bits.
#[test]
fn other_paths(rt: HostRuntime) -> Result<(), Fail> {
    let mut node = node(rt.alloc())?;
    let data = b"\x07\x00\x00\x00\x00\x00\x00\x00\x01\x00\x00\x00\x00\x00\x00\x00\x01\x00\x00\x00";
    let mut text = with_data(b"\x4b\x04\x20\x65\x24\x01\x30\x07\x28\x02", data);
    append(&mut text, ADD_FIVE);
    check(&rt, &mut node, 504, &text, FIVE);
    let mut wide = with_data(b"\x4b\x04\x21\x00\x65\x00\x25\x00\x01\x00", data);
    append(&mut wide, ADD_FIVE);
    check(&rt, &mut node, 504, &wide, FIVE);
    check_counter(&rt, &node, 5, 1);
    let last = with_data(
        b"\x4c\x03\x20\x65\x24\x01\x30\x09",
        b"\x01\x00\x00\x00\x00\x00\x00\x00",
    );
    check(
        &rt,
        &mut node,
        504,
        &last,
        b"\xcc\x00\x00\x00\x01\x00\x00\x00\x00\xb2\x00\x00\x00\x05\x00\x00\x00",
    );
    let forget = with_data(
        b"\x4d\x03\x20\x65\x24\x01\x30\x09",
        b"\x01\x00\x00\x00\x00\x00\x00\x00\x01\x00\x00\x00",
    );
    check(&rt, &mut node, 504, &forget, b"\xcd\x00\x00\x00");
    check(&rt, &mut node, 504, &last, b"\xcc\x00\x16\x00");
    Ok(())
}

/// Other requests are the objects', and so is one whose path can't be read.
#[test]
fn others_pass(rt: HostRuntime) -> Result<(), Fail> {
    let mut node = node(rt.alloc())?;
    check(
        &rt,
        &mut node,
        504,
        ADD_ONE,
        b"\xb2\x00\x00\x00\x01\x00\x00\x00",
    );
    check(
        &rt,
        &mut node,
        504,
        ADD_ONE,
        b"\xb2\x00\x00\x00\x02\x00\x00\x00",
    );
    check(
        &rt,
        &mut node,
        504,
        b"\x4b\x02\x20\x66\x24\x01",
        b"\xcb\x00\x05\x00",
    );
    check(
        &rt,
        &mut node,
        504,
        b"\x4b\x01\x20\x65",
        b"\xcb\x00\x04\x00",
    );
    check(
        &rt,
        &mut node,
        504,
        b"\x4b\x02\x20\x65",
        b"\xcb\x00\x26\x00",
    );
    check(&rt, &mut node, 504, b"\x4b\x00", b"\xcb\x00\x04\x00");
    check(
        &rt,
        &mut node,
        504,
        b"\x0e\x03\x21\x00\x64\x00\x24\x01",
        b"\x8e\x00\x14\x00",
    );
    Ok(())
}

/// Without a ledger its class is unknown.
#[test]
fn no_ledger(rt: HostRuntime) -> Result<(), Fail> {
    let mut node = LedgerRouter {
        ledger: None,
        router: OwnedObjects::new(objects(rt.alloc())?),
    };
    check(
        &rt,
        &mut node,
        504,
        &once(LIFE, 1, 1, ADD_FIVE),
        b"\xcb\x00\x05\x00",
    );
    check(
        &rt,
        &mut node,
        504,
        b"\x0e\x03\x20\x65\x24\x01\x30\x01",
        b"\x8e\x00\x05\x00",
    );
    check(
        &rt,
        &mut node,
        504,
        b"\x0e\x03\x20\x65\x24\x00\x30\x01",
        b"\x8e\x00\x05\x00",
    );
    check(
        &rt,
        &mut node,
        504,
        ADD_ONE,
        b"\xb2\x00\x00\x00\x01\x00\x00\x00",
    );
    Ok(())
}

/// The checks before the services, two that both apply: path size, path, instance, service, data or attribute.
#[test]
fn first_check_decides(rt: HostRuntime) -> Result<(), Fail> {
    let mut node = node(rt.alloc())?;
    let rows = [
        // the path size, before a path that can't be read; the path, before an unknown service
        (b"\x4b\x03\x20\x65\x35\x01".as_slice(), [0xcb, 0, 0x26, 0]),
        (b"\x4f\x02\x20\x65\x35\x01", [0xcf, 0, 0x04, 0]),
        // the instance, in each width, before an unknown service and short data
        (b"\x4f\x02\x20\x65\x24\x02", [0xcf, 0, 0x05, 0]),
        (b"\x4b\x03\x20\x65\x25\x00\x01\x01", [0xcb, 0, 0x05, 0]),
        (
            b"\x4b\x04\x20\x65\x26\x00\x01\x00\x01\x00",
            [0xcb, 0, 0x05, 0],
        ),
        // the service, before short data and an unknown attribute
        (b"\x4b\x02\x20\x65\x24\x00", [0xcb, 0, 0x08, 0]),
        (b"\x4c\x02\x20\x65\x24\x00", [0xcc, 0, 0x08, 0]),
        (b"\x4d\x02\x20\x65\x24\x00", [0xcd, 0, 0x08, 0]),
        (b"\x10\x03\x20\x65\x24\x01\x30\x09", [0x90, 0, 0x08, 0]),
        (b"\x03\x02\x20\x65\x24\x00", [0x83, 0, 0x08, 0]),
        (b"\x4a\x02\x20\x65\x24\x01", [0xca, 0, 0x08, 0]),
        (b"\x4e\x02\x20\x65\x24\x01", [0xce, 0, 0x08, 0]),
        // class 0x165 is another one
        (b"\x4b\x03\x21\x00\x65\x01\x24\x01", [0xcb, 0, 0x05, 0]),
    ];
    for (request, reply) in rows {
        check(&rt, &mut node, 504, request, &reply);
    }
    Ok(())
}
