//! Commands in doubt: they are answered by their state and never executed, until they are settled or a later one comes.

use super::node::{
    ADD_FIVE, ADD_ONE, FIVE, LIFE, NO_SLOT, OTHER_LIFE, TOO_LARGE, TOO_OLD, check, check_counter,
    node, once,
};
use cip_ledger::{DoubtfulCommand, Ledger, LedgerRouter};
use cip_owner::OwnedObjects;
use std::process::Abort;
use std::test::Fail;

/// The reply to Do_Once of a command in doubt: success, the state, and nothing else.
const DOUBT: &[u8] = b"\xcb\x00\x00\x00\x02";

/// Get_Last of originator 1, and the reply to it while its command 4 is in doubt.
const LAST: &[u8] = b"\x4c\x02\x20\x65\x24\x01\x01\x00\x00\x00\x00\x00\x00\x00";

const LAST_DOUBT: &[u8] = b"\xcc\x00\x00\x00\x04\x00\x00\x00\x02";

/// The reply that command 4 should have had, and what Do_Once and Get_Last answer once it is settled with that.
const SETTLED: &[u8] = b"\xb2\x00\x00\x00\x2a\x00\x00\x00";

const DONE: &[u8] = b"\xcb\x00\x00\x00\x00\xb2\x00\x00\x00\x2a\x00\x00\x00";

const LAST_DONE: &[u8] = b"\xcc\x00\x00\x00\x04\x00\x00\x00\x00\xb2\x00\x00\x00\x2a\x00\x00\x00";

/// The ledger of a device.
fn ledger<'a>(node: &'a mut LedgerRouter<OwnedObjects>) -> Result<&'a mut Ledger, Fail> {
    let ledger = node.ledger.as_mut().ok_or("a ledger")?;
    Ok(ledger)
}

/// The commands in doubt are these, each an originator and a number.
fn check_doubtful(rt: &impl Abort, ledger: &Ledger, wanted: &[(u64, u32)]) {
    for (place, (originator, number)) in wanted.iter().enumerate() {
        let command = DoubtfulCommand {
            originator: *originator,
            number: *number,
        };
        assert!(rt; ledger.in_doubt(place) == Some(command));
    }
    assert!(rt; ledger.in_doubt(wanted.len()).is_none());
}

/// A command in doubt is answered by its state, whatever else the request says, and is not executed.
#[test]
fn answered_by_its_state(rt: HostRuntime) -> Result<(), Fail> {
    let mut node = node(rt.alloc())?;
    assert!(rt; ledger(&mut node)?.put_in_doubt(1, 4));
    check(&rt, &mut node, 504, &once(LIFE, 1, 4, ADD_FIVE), DOUBT);
    check(&rt, &mut node, 504, &once(LIFE, 1, 4, ADD_ONE), DOUBT);
    check(&rt, &mut node, 8, &once(LIFE, 1, 4, ADD_ONE), DOUBT);
    check(&rt, &mut node, 504, &once(LIFE, 1, 3, ADD_FIVE), TOO_OLD);
    check(&rt, &mut node, 504, &once(8, 1, 4, ADD_FIVE), OTHER_LIFE);
    check(&rt, &mut node, 504, LAST, LAST_DOUBT);
    check(&rt, &mut node, 9, LAST, LAST_DOUBT);
    check(&rt, &mut node, 8, LAST, b"\xcc\x00\x11\x00");
    check_counter(&rt, &node, 0, 0);
    Ok(())
}

/// A later command of the originator is executed, and ends the doubt. Others are not concerned.
#[test]
fn ended_by_a_later_command(rt: HostRuntime) -> Result<(), Fail> {
    let mut node = node(rt.alloc())?;
    assert!(rt; ledger(&mut node)?.put_in_doubt(1, 4));
    check(&rt, &mut node, 484, &once(LIFE, 1, 5, ADD_FIVE), TOO_LARGE);
    check(&rt, &mut node, 504, &once(LIFE, 1, 4, ADD_FIVE), DOUBT);
    check(&rt, &mut node, 504, &once(LIFE, 1, 5, ADD_FIVE), FIVE);
    check(&rt, &mut node, 504, &once(LIFE, 1, 5, ADD_FIVE), FIVE);
    check(&rt, &mut node, 504, &once(LIFE, 1, 4, ADD_FIVE), TOO_OLD);
    assert!(rt; !ledger(&mut node)?.settle(1, 4, SETTLED));
    check_doubtful(&rt, ledger(&mut node)?, &[]);
    check_counter(&rt, &node, 5, 1);
    Ok(())
}

/// A command in doubt is settled once, by a reply of 4 to 480 bytes, which a repeat gets from then on.
#[test]
fn settled(rt: HostRuntime) -> Result<(), Fail> {
    let mut node = node(rt.alloc())?;
    assert!(rt; !ledger(&mut node)?.settle(1, 4, SETTLED));
    assert!(rt; ledger(&mut node)?.put_in_doubt(1, 4));
    // another originator, another number, too short, too long
    assert!(rt; !ledger(&mut node)?.settle(2, 4, SETTLED));
    assert!(rt; !ledger(&mut node)?.settle(1, 3, SETTLED));
    assert!(rt; !ledger(&mut node)?.settle(1, 5, SETTLED));
    assert!(rt; !ledger(&mut node)?.settle(1, 4, b"\xb2\x00\x00"));
    assert!(rt; !ledger(&mut node)?.settle(1, 4, &[0; 481]));
    check(&rt, &mut node, 504, &once(LIFE, 1, 4, ADD_FIVE), DOUBT);
    assert!(rt; ledger(&mut node)?.settle(1, 4, SETTLED));
    assert!(rt; !ledger(&mut node)?.settle(1, 4, b"\xb2\x00\x10\x00"));
    check(&rt, &mut node, 504, &once(LIFE, 1, 4, ADD_FIVE), DONE);
    check(&rt, &mut node, 504, &once(LIFE, 1, 4, ADD_ONE), DONE);
    check(&rt, &mut node, 12, &once(LIFE, 1, 4, ADD_ONE), TOO_LARGE);
    check(&rt, &mut node, 504, LAST, LAST_DONE);
    check(&rt, &mut node, 504, &once(LIFE, 1, 5, ADD_FIVE), FIVE);
    check_counter(&rt, &node, 5, 1);
    Ok(())
}

/// The shortest and the longest reply that settles a command.
#[test]
fn settled_at_both_ends(rt: HostRuntime) -> Result<(), Fail> {
    let mut node = node(rt.alloc())?;
    assert!(rt; ledger(&mut node)?.put_in_doubt(1, 4));
    assert!(rt; ledger(&mut node)?.put_in_doubt(2, 9));
    assert!(rt; ledger(&mut node)?.settle(1, 4, b"\xb2\x00\x02\x00"));
    assert!(rt; ledger(&mut node)?.settle(2, 9, &[0x11; 480]));
    let refused = b"\xcb\x00\x00\x00\x00\xb2\x00\x02\x00";
    check(&rt, &mut node, 504, &once(LIFE, 1, 4, ADD_FIVE), refused);
    let mut longest = [0x11; 485];
    longest[..5].copy_from_slice(b"\xcb\x00\x00\x00\x00");
    check(&rt, &mut node, 485, &once(LIFE, 2, 9, ADD_FIVE), &longest);
    check_counter(&rt, &node, 0, 0);
    Ok(())
}

/// What can be put in doubt: a number above the originator's last one, or a first one if a slot is free.
#[test]
fn put_in_doubt(rt: HostRuntime) -> Result<(), Fail> {
    let mut node = node(rt.alloc())?;
    check(&rt, &mut node, 504, &once(LIFE, 1, 2, ADD_FIVE), FIVE);
    assert!(rt; !ledger(&mut node)?.put_in_doubt(1, 1));
    assert!(rt; !ledger(&mut node)?.put_in_doubt(1, 2));
    check(&rt, &mut node, 504, &once(LIFE, 1, 2, ADD_FIVE), FIVE);
    assert!(rt; ledger(&mut node)?.put_in_doubt(1, 3));
    assert!(rt; !ledger(&mut node)?.put_in_doubt(1, 3));
    check(&rt, &mut node, 504, &once(LIFE, 1, 3, ADD_FIVE), DOUBT);
    assert!(rt; ledger(&mut node)?.put_in_doubt(1, u32::MAX));
    assert!(rt; ledger(&mut node)?.put_in_doubt(0, 0));
    assert!(rt; !ledger(&mut node)?.put_in_doubt(2, 1));
    check(&rt, &mut node, 504, &once(LIFE, 2, 1, ADD_FIVE), NO_SLOT);
    check_doubtful(&rt, ledger(&mut node)?, &[(1, u32::MAX), (0, 0)]);
    assert!(rt; ledger(&mut node)?.settle(1, u32::MAX, SETTLED));
    check_doubtful(&rt, ledger(&mut node)?, &[(0, 0)]);
    check_counter(&rt, &node, 5, 1);
    Ok(())
}

/// Forget frees the slot of a command in doubt.
#[test]
fn forgotten(rt: HostRuntime) -> Result<(), Fail> {
    let mut node = node(rt.alloc())?;
    assert!(rt; ledger(&mut node)?.put_in_doubt(1, 4));
    let forget = b"\x4d\x02\x20\x65\x24\x01\x01\x00\x00\x00\x00\x00\x00\x00\x04\x00\x00\x00";
    check(&rt, &mut node, 504, forget, b"\xcd\x00\x00\x00");
    check(&rt, &mut node, 504, LAST, b"\xcc\x00\x16\x00");
    check_doubtful(&rt, ledger(&mut node)?, &[]);
    Ok(())
}
