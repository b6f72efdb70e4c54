//! Forget: what it frees, and each check.

use super::node::{
    ADD_FIVE, ADD_ONE, FIVE, LIFE, NO_SLOT, SEVEN, SIX, check, check_counter, node, once, with_data,
};
use std::test::Fail;

/// Forget: only the last number frees the slot.
#[test]
fn forget(rt: HostRuntime) -> Result<(), Fail> {
    let mut node = node(rt.alloc())?;
    let head = b"\x4d\x02\x20\x65\x24\x01";
    let two_of_one = with_data(head, b"\x01\x00\x00\x00\x00\x00\x00\x00\x02\x00\x00\x00");
    // an originator without a slot
    check(&rt, &mut node, 504, &two_of_one, b"\xcd\x00\x00\x00");
    check(
        &rt,
        &mut node,
        504,
        &with_data(head, b"\x01\x00\x00\x00\x00\x00\x00\x00\x02\x00\x00"),
        b"\xcd\x00\x13\x00",
    );
    check(
        &rt,
        &mut node,
        504,
        &with_data(
            head,
            b"\x01\x00\x00\x00\x00\x00\x00\x00\x02\x00\x00\x00\x00",
        ),
        b"\xcd\x00\x15\x00",
    );
    check(&rt, &mut node, 504, &once(LIFE, 1, 2, ADD_FIVE), FIVE);
    check(&rt, &mut node, 504, &once(LIFE, 2, 2, ADD_ONE), SIX);
    // a smaller and a greater number
    check(
        &rt,
        &mut node,
        504,
        &with_data(head, b"\x01\x00\x00\x00\x00\x00\x00\x00\x01\x00\x00\x00"),
        b"\xcd\x00\x0c\x00",
    );
    check(
        &rt,
        &mut node,
        504,
        &with_data(head, b"\x01\x00\x00\x00\x00\x00\x00\x00\x03\x00\x00\x00"),
        b"\xcd\x00\x0c\x00",
    );
    check(&rt, &mut node, 504, &once(LIFE, 1, 2, ADD_FIVE), FIVE);
    check(&rt, &mut node, 504, &once(LIFE, 3, 1, ADD_ONE), NO_SLOT);
    check(&rt, &mut node, 504, &two_of_one, b"\xcd\x00\x00\x00");
    // the other originator's slot stays, and the free one can be taken
    check(&rt, &mut node, 504, &once(LIFE, 2, 2, ADD_ONE), SIX);
    check(&rt, &mut node, 504, &once(LIFE, 3, 1, ADD_ONE), SEVEN);
    check(&rt, &mut node, 504, &once(LIFE, 1, 2, ADD_FIVE), NO_SLOT);
    check_counter(&rt, &node, 7, 3);
    Ok(())
}

/// The length of the data, before the number. Nothing is freed. The reply fits the smallest reply limit.
#[test]
fn first_check_decides(rt: HostRuntime) -> Result<(), Fail> {
    let mut node = node(rt.alloc())?;
    let head = b"\x4d\x02\x20\x65\x24\x01";
    check(&rt, &mut node, 504, &once(LIFE, 1, 2, ADD_FIVE), FIVE);
    // the slot's number, and another one
    for number in [2u8, 3] {
        let short = with_data(head, &[1, 0, 0, 0, 0, 0, 0, 0, number, 0, 0]);
        let long = with_data(head, &[1, 0, 0, 0, 0, 0, 0, 0, number, 0, 0, 0, 0]);
        check(&rt, &mut node, 504, &short, b"\xcd\x00\x13\x00");
        check(&rt, &mut node, 504, &long, b"\xcd\x00\x15\x00");
    }
    check(&rt, &mut node, 504, head, b"\xcd\x00\x13\x00");
    // each byte of the number and of the originator counts
    for at in 0..12usize {
        let mut data = [1, 0, 0, 0, 0, 0, 0, 0, 2, 0, 0, 0];
        data[at] ^= 0x40;
        let reply = [0xcd, 0, if at < 8 { 0 } else { 0x0c }, 0];
        check(&rt, &mut node, 504, &with_data(head, &data), &reply);
    }
    check(&rt, &mut node, 504, &once(LIFE, 1, 2, ADD_ONE), FIVE);
    let right = with_data(head, &[1, 0, 0, 0, 0, 0, 0, 0, 2, 0, 0, 0]);
    check(&rt, &mut node, 8, &right, b"\xcd\x00\x00\x00");
    check(&rt, &mut node, 504, &once(LIFE, 1, 2, ADD_ONE), SIX);
    Ok(())
}
