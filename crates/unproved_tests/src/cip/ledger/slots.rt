//! One slot, and as many as a ledger may have.

use super::node::{
    ADD_FIVE, ADD_ONE, FIVE, LIFE, NO_SLOT, check, check_counter, done, node_of, once,
};
use std::test::Fail;

/// All 64 slots, each with its own reply.
#[test]
fn sixty_four_originators(rt: HostRuntime) -> Result<(), Fail> {
    let mut node = node_of(rt.alloc(), 64, LIFE)?;
    for round in 0..2u8 {
        for originator in 0..64u8 {
            let request = once(LIFE, u64::from(originator), 1, ADD_ONE);
            check(
                &rt,
                &mut node,
                504 - usize::from(round),
                &request,
                &done(originator + 1),
            );
        }
    }
    check(&rt, &mut node, 504, &once(LIFE, 64, 1, ADD_ONE), NO_SLOT);
    check_counter(&rt, &node, 64, 64);
    Ok(())
}

/// A ledger of one slot.
#[test]
fn one_slot(rt: HostRuntime) -> Result<(), Fail> {
    let mut node = node_of(rt.alloc(), 1, LIFE)?;
    check(&rt, &mut node, 504, &once(LIFE, 1, 1, ADD_FIVE), FIVE);
    check(&rt, &mut node, 504, &once(LIFE, 2, 1, ADD_ONE), NO_SLOT);
    Ok(())
}
