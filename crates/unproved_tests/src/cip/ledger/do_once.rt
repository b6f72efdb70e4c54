//! Do_Once: its fields, what is executed, and what is repeated.

use super::node::{
    ADD_FIVE, ADD_ONE, FIVE, LIFE, OTHER_LIFE, SEVEN, SIX, TOO_LARGE, TOO_OLD, WHOLE, check,
    check_counter, done, node, node_of, once,
};
use std::test::Fail;

/// The layout of Do_Once, byte by byte.
#[test]
fn layout(rt: HostRuntime) -> Result<(), Fail> {
    let mut node = node(rt.alloc())?;
    check(&rt, &mut node, 504, WHOLE, FIVE);
    let same = once(LIFE, 0x0102_0304_0506_0708, 9, ADD_FIVE);
    assert_eq!(rt; same.as_slice(), WHOLE);
    check(&rt, &mut node, 504, &same, FIVE);
    check_counter(&rt, &node, 5, 1);
    Ok(())
}

/// A command is executed once, and a repeat has the same reply, whatever else it says.
#[test]
fn executed_once(rt: HostRuntime) -> Result<(), Fail> {
    let mut node = node(rt.alloc())?;
    check(&rt, &mut node, 504, &once(LIFE, 1, 1, ADD_FIVE), FIVE);
    check(&rt, &mut node, 504, &once(LIFE, 1, 1, ADD_FIVE), FIVE);
    check(&rt, &mut node, 504, &once(LIFE, 1, 1, ADD_ONE), FIVE);
    check(&rt, &mut node, 504, &once(LIFE, 1, 1, b"\x32\x00"), FIVE);
    // another originator's number 1 is another command
    check(&rt, &mut node, 504, &once(LIFE, 2, 1, ADD_ONE), SIX);
    check(&rt, &mut node, 504, &once(LIFE, 1, 1, ADD_FIVE), FIVE);
    // equal bytes with another number are another command
    check(&rt, &mut node, 504, &once(LIFE, 2, 2, ADD_ONE), SEVEN);
    check(&rt, &mut node, 504, &once(LIFE, 2, 2, ADD_ONE), SEVEN);
    check(&rt, &mut node, 504, &once(LIFE, 1, 1, ADD_ONE), FIVE);
    check_counter(&rt, &node, 7, 3);
    Ok(())
}

/// Numbers may leave gaps, up to the greatest.
#[test]
fn gaps(rt: HostRuntime) -> Result<(), Fail> {
    let mut node = node(rt.alloc())?;
    check(&rt, &mut node, 504, &once(LIFE, 1, 0, ADD_FIVE), FIVE);
    check(&rt, &mut node, 504, &once(LIFE, 1, u32::MAX, ADD_ONE), SIX);
    check(&rt, &mut node, 504, &once(LIFE, 1, u32::MAX, ADD_ONE), SIX);
    check(
        &rt,
        &mut node,
        504,
        &once(LIFE, 1, u32::MAX - 1, ADD_ONE),
        TOO_OLD,
    );
    check(&rt, &mut node, 504, &once(LIFE, 1, 0, ADD_FIVE), TOO_OLD);
    check_counter(&rt, &node, 6, 2);
    Ok(())
}

/// The smallest data: 22 bytes, with a request of two.
#[test]
fn smallest(rt: HostRuntime) -> Result<(), Fail> {
    let mut node = node(rt.alloc())?;
    let wanted = b"\xcb\x00\x00\x00\x00\x8e\x00\x04\x00";
    check(&rt, &mut node, 504, &once(LIFE, 1, 1, b"\x0e\x00"), wanted);
    Ok(())
}

/// Both sides of each edge of the reply limit.
#[test]
fn reply_limits(rt: HostRuntime) -> Result<(), Fail> {
    let mut node = node(rt.alloc())?;
    // a new command: 484 and 485
    check(&rt, &mut node, 484, &once(LIFE, 1, 1, ADD_FIVE), TOO_LARGE);
    check(&rt, &mut node, 8, &once(LIFE, 1, 1, ADD_FIVE), TOO_LARGE);
    check_counter(&rt, &node, 0, 0);
    check(&rt, &mut node, 485, &once(LIFE, 1, 1, ADD_FIVE), FIVE);
    // a kept reply of 8 bytes: 12 and 13
    check(&rt, &mut node, 12, &once(LIFE, 1, 1, ADD_FIVE), TOO_LARGE);
    check(&rt, &mut node, 13, &once(LIFE, 1, 1, ADD_FIVE), FIVE);
    // a greater number of an originator that has a slot
    check(&rt, &mut node, 484, &once(LIFE, 1, 2, ADD_ONE), TOO_LARGE);
    check(&rt, &mut node, 504, &once(LIFE, 1, 1, ADD_FIVE), FIVE);
    check(&rt, &mut node, 485, &once(LIFE, 1, 2, ADD_ONE), SIX);
    check_counter(&rt, &node, 6, 2);
    Ok(())
}

/// Each byte of the life, of the originator and of the number counts.
#[test]
fn each_byte_counts(rt: HostRuntime) -> Result<(), Fail> {
    let mut node = node_of(rt.alloc(), 9, 0x1817_1615_1413_1211)?;
    let command = *b"\x4b\x02\x20\x65\x24\x01\
        \x11\x12\x13\x14\x15\x16\x17\x18\
        \x21\x22\x23\x24\x25\x26\x27\x28\
        \x31\x32\x33\x34\
        \x32\x02\x20\x64\x24\x01\x01\x00\x00\x00";
    check(&rt, &mut node, 504, &command, &done(1));
    for at in 6..14usize {
        let mut other_life = command;
        other_life[at] ^= 0x40;
        check(&rt, &mut node, 504, &other_life, OTHER_LIFE);
    }
    let mut value = 1;
    for at in 14..22usize {
        let mut other_originator = command;
        other_originator[at] ^= 0x40;
        value += 1;
        check(&rt, &mut node, 504, &other_originator, &done(value));
    }
    for at in 22..26usize {
        let mut smaller = command;
        smaller[at] -= 1;
        check(&rt, &mut node, 504, &smaller, TOO_OLD);
    }
    for at in 22..26usize {
        let mut greater = command;
        greater[at] += 1;
        value += 1;
        check(&rt, &mut node, 504, &greater, &done(value));
    }
    check(&rt, &mut node, 504, &command, TOO_OLD);
    check_counter(&rt, &node, 13, 13);
    Ok(())
}

/// A number that was forgotten may be executed again, and so may a smaller one.
#[test]
fn after_forget(rt: HostRuntime) -> Result<(), Fail> {
    let mut node = node(rt.alloc())?;
    let forget = b"\x4d\x02\x20\x65\x24\x01\x01\x00\x00\x00\x00\x00\x00\x00\x05\x00\x00\x00";
    check(&rt, &mut node, 504, &once(LIFE, 1, 5, ADD_FIVE), FIVE);
    check(&rt, &mut node, 504, forget, b"\xcd\x00\x00\x00");
    check(&rt, &mut node, 504, &once(LIFE, 1, 5, ADD_ONE), SIX);
    check(&rt, &mut node, 504, forget, b"\xcd\x00\x00\x00");
    check(&rt, &mut node, 504, &once(LIFE, 1, 4, ADD_ONE), SEVEN);
    check(&rt, &mut node, 504, &once(LIFE, 1, 4, ADD_ONE), SEVEN);
    check_counter(&rt, &node, 7, 3);
    Ok(())
}
