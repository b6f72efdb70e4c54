//! Get_Last: what it answers, and each check.

use super::node::{
    ADD_FIVE, ADD_ONE, FIVE, LIFE, SIX, TOO_LARGE, TOO_OLD, check, check_counter, node, once,
    with_data,
};
use std::test::Fail;

/// Get_Last: the data, and each refusal.
#[test]
fn get_last(rt: HostRuntime) -> Result<(), Fail> {
    let mut node = node(rt.alloc())?;
    let head = b"\x4c\x02\x20\x65\x24\x01";
    let of_one = with_data(head, b"\x01\x00\x00\x00\x00\x00\x00\x00");
    check(&rt, &mut node, 504, &of_one, b"\xcc\x00\x16\x00");
    check(
        &rt,
        &mut node,
        504,
        &with_data(head, b"\x01\x00\x00\x00\x00\x00\x00"),
        b"\xcc\x00\x13\x00",
    );
    check(
        &rt,
        &mut node,
        504,
        &with_data(head, b"\x01\x00\x00\x00\x00\x00\x00\x00\x00"),
        b"\xcc\x00\x15\x00",
    );
    check(
        &rt,
        &mut node,
        504,
        &once(LIFE, 1, 0x0403_0201, ADD_FIVE),
        FIVE,
    );
    let last = b"\xcc\x00\x00\x00\x01\x02\x03\x04\x00\xb2\x00\x00\x00\x05\x00\x00\x00";
    check(&rt, &mut node, 504, &of_one, last);
    check(&rt, &mut node, 17, &of_one, last);
    check(&rt, &mut node, 16, &of_one, b"\xcc\x00\x11\x00");
    check(
        &rt,
        &mut node,
        504,
        &with_data(head, b"\x02\x00\x00\x00\x00\x00\x00\x00"),
        b"\xcc\x00\x16\x00",
    );
    Ok(())
}

/// Each originator's own last command, which a refused one does not replace, and a refusal is one too.
#[test]
fn own_last_command(rt: HostRuntime) -> Result<(), Fail> {
    let mut node = node(rt.alloc())?;
    let of_one = b"\x4c\x02\x20\x65\x24\x01\x01\x00\x00\x00\x00\x00\x00\x00";
    let of_two = b"\x4c\x02\x20\x65\x24\x01\x02\x00\x00\x00\x00\x00\x00\x00";
    let five = b"\xcc\x00\x00\x00\x08\x00\x00\x00\x00\xb2\x00\x00\x00\x05\x00\x00\x00";
    let six = b"\xcc\x00\x00\x00\x03\x00\x00\x00\x00\xb2\x00\x00\x00\x06\x00\x00\x00";
    check(&rt, &mut node, 504, &once(LIFE, 1, 8, ADD_FIVE), FIVE);
    check(&rt, &mut node, 504, &once(LIFE, 2, 3, ADD_ONE), SIX);
    check(&rt, &mut node, 504, &once(LIFE, 1, 7, ADD_ONE), TOO_OLD);
    check(&rt, &mut node, 484, &once(LIFE, 1, 9, ADD_ONE), TOO_LARGE);
    check(&rt, &mut node, 504, of_one, five);
    check(&rt, &mut node, 504, of_two, six);
    let refused = b"\xcb\x00\x00\x00\x00\xb2\x00\x13\x00";
    let add_nothing = b"\x32\x02\x20\x64\x24\x01";
    check(&rt, &mut node, 504, &once(LIFE, 1, 9, add_nothing), refused);
    let last = b"\xcc\x00\x00\x00\x09\x00\x00\x00\x00\xb2\x00\x13\x00";
    check(&rt, &mut node, 504, of_one, last);
    check(&rt, &mut node, 504, of_two, six);
    check_counter(&rt, &node, 6, 2);
    Ok(())
}

/// Two checks that both apply: the length of the data, the slot, the reply limit.
#[test]
fn first_check_decides(rt: HostRuntime) -> Result<(), Fail> {
    let mut node = node(rt.alloc())?;
    let head = b"\x4c\x02\x20\x65\x24\x01";
    check(&rt, &mut node, 504, &once(LIFE, 1, 1, ADD_FIVE), FIVE);
    // no slot, before a small reply limit
    let of_two = with_data(head, b"\x02\x00\x00\x00\x00\x00\x00\x00");
    check(&rt, &mut node, 8, &of_two, b"\xcc\x00\x16\x00");
    // the data of an originator with a slot, and of one without, before a small reply limit
    for originator in [1u8, 2] {
        let short = with_data(head, &[originator, 0, 0, 0, 0, 0, 0]);
        let long = with_data(head, &[originator, 0, 0, 0, 0, 0, 0, 0, 0]);
        check(&rt, &mut node, 8, &short, b"\xcc\x00\x13\x00");
        check(&rt, &mut node, 8, &long, b"\xcc\x00\x15\x00");
    }
    check(&rt, &mut node, 8, head, b"\xcc\x00\x13\x00");
    Ok(())
}
