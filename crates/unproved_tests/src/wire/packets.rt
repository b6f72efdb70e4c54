//! Encoding of items and bodies.

use arrayvec::ArrayVec;
use enip_wire::{
    Full, ItemView, Items, cpf_items, rr_body, unit_body, write_items, write_rr_body,
    write_unit_body,
};
use std::process::Abort;
use std::test::*;

/// The body of a SendRRData with a request for the vendor.
const ROW: [u8; 24] = [
    // interface, timeout, and two items
    0x00, 0x00, 0x00, 0x00, 0x00, 0x00, 0x02, 0x00,
    // the null address, and eight bytes of unconnected data
    0x00, 0x00, 0x00, 0x00, 0xb2, 0x00, 0x08, 0x00,
    // Get_Attribute_Single of attribute 1 of Identity
    0x0e, 0x03, 0x20, 0x01, 0x24, 0x01, 0x30, 0x01,
];

/// The body of a SendUnitData on connection 0x01020304.
const UNIT: [u8; 22] = [
    // interface, timeout, and two items
    0x00, 0x00, 0x00, 0x00, 0x00, 0x00, 0x02, 0x00,
    // the connected address
    0xa1, 0x00, 0x04, 0x00, 0x04, 0x03, 0x02, 0x01,
    // two bytes of connected data
    0xb1, 0x00, 0x02, 0x00, 0x07, 0x09,
];

/// Two items: two bytes of type 12, and no bytes of type 0x8000.
const TEXT: [u8; 12] = [
    0x02, 0x00, 0x0c, 0x00, 0x02, 0x00, 0x01, 0x02, 0x00, 0x80, 0x00, 0x00,
];

/// Writes the body of a SendRRData, and compares the result.
fn check_rr_body<A: Abort>(
    rt: &A,
    out: &mut ArrayVec<u8, 24>,
    data: &[u8],
    expected: Result<(), Full>,
) {
    assert!(rt; data.len() < 0x1_0000);
    assert_eq!(rt; write_rr_body(out, data), expected);
}

/// The same for a SendUnitData.
fn check_unit_body<A: Abort>(
    rt: &A,
    out: &mut ArrayVec<u8, 22>,
    id: u32,
    data: &[u8],
    expected: Result<(), Full>,
) {
    assert!(rt; data.len() < 0x1_0000);
    assert_eq!(rt; write_unit_body(out, id, data), expected);
}

/// Asserts what was written, and what is read from it.
fn check_rr_text<A: Abort>(rt: &A, got: &[u8], text: &[u8], data: &[u8]) {
    assert_eq!(rt; got, text);
    assert_eq!(rt; rr_body(got), Ok(data));
}

fn check_unit_text<A: Abort>(rt: &A, got: &[u8], text: &[u8], id: u32, data: &[u8]) {
    assert_eq!(rt; got, text);
    assert_eq!(rt; unit_body(got), Ok((id, data)));
}

/// Each body fills its buffer, and then no other fits.
#[test]
fn bodies_are_written(rt: HostRuntime) {
    let mut out: ArrayVec<u8, 24> = ArrayVec::new();
    for (data, expected) in [(&ROW[16..], Ok(())), (&[], Err(Full))] {
        check_rr_body(&rt, &mut out, data, expected);
        check_rr_text(&rt, out.as_slice(), &ROW, &ROW[16..]);
    }
    let mut out: ArrayVec<u8, 22> = ArrayVec::new();
    for (id, data, expected) in [(0x0102_0304, &UNIT[20..], Ok(())), (1, &[], Err(Full))] {
        check_unit_body(&rt, &mut out, id, data, expected);
        check_unit_text(&rt, out.as_slice(), &UNIT, 0x0102_0304, &[7, 9]);
    }
}

/// Writes two items, and compares the result.
fn check_items<A: Abort>(
    rt: &A,
    out: &mut ArrayVec<u8, 13>,
    list: [ItemView<'_>; 2],
    expected: Result<(), Full>,
) {
    assert!(rt; list[0].bytes.len() < 0x1_0000 && list[1].bytes.len() < 0x1_0000);
    assert_eq!(rt; write_items(out, &list), expected);
}

fn check_no_items<A: Abort>(rt: &A, out: &mut ArrayVec<u8, 13>, expected: Result<(), Full>) {
    assert_eq!(rt; write_items(out, &[]), expected);
}

fn check_item<A: Abort>(rt: &A, items: &mut Items<'_>, kind: u16, bytes: &[u8]) {
    let item = items.next().expect(rt, "an item");
    assert_eq!(rt; (item.kind, item.bytes), (kind, bytes));
}

/// Asserts what was written, and the items that are read from it.
fn check_items_text<A: Abort>(rt: &A, got: &[u8], text: &[u8], list: &[ItemView<'_>]) {
    assert_eq!(rt; got, text);
    let mut items = cpf_items(got).expect(rt, "items");
    for item in list {
        check_item(rt, &mut items, item.kind, item.bytes);
    }
    assert!(rt; items.next().is_none());
}

/// The items fill their buffer but for one byte, and then not even an empty list fits.
#[test]
fn items_are_written(rt: HostRuntime) {
    let list = [
        ItemView {
            kind: 0x0c,
            bytes: &[1, 2],
        },
        ItemView {
            kind: 0x8000,
            bytes: &[],
        },
    ];
    let mut out: ArrayVec<u8, 13> = ArrayVec::new();
    check_items(&rt, &mut out, list, Ok(()));
    check_no_items(&rt, &mut out, Err(Full));
    check_items_text(&rt, out.as_slice(), &TEXT, &list);
}
