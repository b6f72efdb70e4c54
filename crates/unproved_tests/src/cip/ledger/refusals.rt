//! Do_Once: each row that refuses, and each pair of rows that both apply.

use super::node::{
    ADD_FIVE, ADD_ONE, DO_ONCE, FIVE, LIFE, NO_SLOT, OTHER_LIFE, SEVEN, SIX, TOO_OLD, TOO_SHORT,
    check, check_counter, node, once,
};
use std::test::Fail;

/// Each line that refuses, and nothing changes.
#[test]
fn refusals(rt: HostRuntime) -> Result<(), Fail> {
    let mut node = node(rt.alloc())?;
    // 21 bytes of data, and none
    check(&rt, &mut node, 504, &once(LIFE, 1, 1, b"\x32"), TOO_SHORT);
    check(&rt, &mut node, 504, DO_ONCE, TOO_SHORT);
    check(
        &rt,
        &mut node,
        504,
        &once(LIFE + 1, 1, 1, ADD_FIVE),
        OTHER_LIFE,
    );
    check(&rt, &mut node, 504, &once(0, 1, 1, ADD_FIVE), OTHER_LIFE);
    // no slot was taken by these
    check(
        &rt,
        &mut node,
        504,
        b"\x0e\x03\x20\x65\x24\x01\x30\x02",
        b"\x8e\x00\x00\x00\x00\x00",
    );
    check(&rt, &mut node, 504, &once(LIFE, 1, 5, ADD_FIVE), FIVE);
    check(&rt, &mut node, 504, &once(LIFE, 2, 5, ADD_ONE), SIX);
    check(&rt, &mut node, 504, &once(LIFE, 3, 5, ADD_ONE), NO_SLOT);
    check(&rt, &mut node, 504, &once(LIFE, 1, 4, ADD_ONE), TOO_OLD);
    // the slots are as they were
    check(&rt, &mut node, 504, &once(LIFE, 1, 5, ADD_ONE), FIVE);
    check(&rt, &mut node, 504, &once(LIFE, 2, 5, ADD_ONE), SIX);
    check_counter(&rt, &node, 6, 2);
    Ok(())
}

/// Two lines that both apply: the first decides.
#[test]
fn first_line_decides(rt: HostRuntime) -> Result<(), Fail> {
    let mut node = node(rt.alloc())?;
    check(&rt, &mut node, 504, &once(LIFE, 1, 5, ADD_FIVE), FIVE);
    check(&rt, &mut node, 504, &once(LIFE, 2, 5, ADD_ONE), SIX);
    // too short, before another life
    check(
        &rt,
        &mut node,
        504,
        &once(LIFE + 1, 1, 5, b"\x32"),
        TOO_SHORT,
    );
    // another life, before no slot, a greater number, a kept reply and a small reply limit
    check(
        &rt,
        &mut node,
        504,
        &once(LIFE + 1, 3, 5, ADD_ONE),
        OTHER_LIFE,
    );
    check(
        &rt,
        &mut node,
        504,
        &once(LIFE + 1, 1, 4, ADD_ONE),
        OTHER_LIFE,
    );
    check(
        &rt,
        &mut node,
        504,
        &once(LIFE + 1, 1, 5, ADD_FIVE),
        OTHER_LIFE,
    );
    check(
        &rt,
        &mut node,
        12,
        &once(LIFE + 1, 1, 5, ADD_FIVE),
        OTHER_LIFE,
    );
    check(
        &rt,
        &mut node,
        484,
        &once(LIFE + 1, 1, 6, ADD_FIVE),
        OTHER_LIFE,
    );
    // no slot, before a small reply limit
    check(&rt, &mut node, 484, &once(LIFE, 3, 5, ADD_ONE), NO_SLOT);
    // a greater number, before a small reply limit
    check(&rt, &mut node, 8, &once(LIFE, 1, 4, ADD_ONE), TOO_OLD);
    // a kept reply, below the limit at which a new command is executed
    check(&rt, &mut node, 13, &once(LIFE, 1, 5, ADD_ONE), FIVE);
    check_counter(&rt, &node, 6, 2);
    Ok(())
}

/// Data that are too short, before each of the other rows.
#[test]
fn short_data_first(rt: HostRuntime) -> Result<(), Fail> {
    let mut node = node(rt.alloc())?;
    check(&rt, &mut node, 504, &once(LIFE, 1, 5, ADD_FIVE), FIVE);
    check(&rt, &mut node, 504, &once(LIFE, 2, 5, ADD_ONE), SIX);
    let rows = [
        // another life, no slot, a greater number
        (LIFE + 1, 1, 5, 504),
        (LIFE, 3, 5, 504),
        (LIFE, 1, 4, 504),
        // a kept reply that does not fit, and one that does
        (LIFE, 1, 5, 8),
        (LIFE, 1, 5, 504),
        // a new command whose reply may not fit, and one that would be executed
        (LIFE, 1, 6, 484),
        (LIFE, 1, 6, 504),
    ];
    for (life, originator, number, max_size) in rows {
        let short = once(life, originator, number, b"\x32");
        check(&rt, &mut node, max_size, &short, TOO_SHORT);
    }
    check_counter(&rt, &node, 6, 2);
    Ok(())
}

/// All slots are taken, before each of the rows of a new command. The originators that have slots are served.
#[test]
fn no_slot(rt: HostRuntime) -> Result<(), Fail> {
    let mut node = node(rt.alloc())?;
    check(&rt, &mut node, 504, &once(LIFE, 1, 5, ADD_FIVE), FIVE);
    check(&rt, &mut node, 504, &once(LIFE, 2, 5, ADD_ONE), SIX);
    // numbers below, at and above those of the slots
    for number in 4..7u32 {
        let command = once(LIFE, 3, number, ADD_ONE);
        check(&rt, &mut node, 8, &command, NO_SLOT);
        check(&rt, &mut node, 485, &command, NO_SLOT);
    }
    check(&rt, &mut node, 504, &once(LIFE, 2, 6, ADD_ONE), SEVEN);
    check_counter(&rt, &node, 7, 3);
    Ok(())
}
