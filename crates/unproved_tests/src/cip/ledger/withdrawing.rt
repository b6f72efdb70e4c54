//! Withdraw: a command that waits leaves the queue if no owner was handed it, and a number that was not used is used up.

use super::node::{
    ADD_FIVE, FIVE, LIFE, TOO_OLD, Text, check, check_counter, node, once, with_data,
};
use crate::queue_fixtures::{queued_objects, reply};
use cip_ledger::{KeptCommand, Ledger, LedgerRouter};
use cip_owner::{OwnedObjects, Queue};
use std::alloc::Global;
use std::process::Abort;
use std::test::Fail;

/// Service, path size and path of Withdraw and of Forget.
const WITHDRAW: &[u8] = b"\x4f\x02\x20\x65\x24\x01";

const FORGET: &[u8] = b"\x4d\x02\x20\x65\x24\x01";

/// The replies to Withdraw: withdrawn, pending and in doubt.
const WITHDRAWN: &[u8] = b"\xcf\x00\x00\x00\x03";

const HANDED_OVER: &[u8] = b"\xcf\x00\x00\x00\x01";

const DOUBTFUL: &[u8] = b"\xcf\x00\x00\x00\x02";

/// The refusals of Withdraw.
const SMALLER: &[u8] = b"\xcf\x00\x0c\x00";

const OTHER_LIFE: &[u8] = b"\xcf\x00\x10\x00";

const NO_SLOT: &[u8] = b"\xcf\x00\x02\x00";

const WAITS: &[u8] = b"\xcf\x00\xd0\x00";

/// The reply to Do_Once of a command that waits, and of one that was withdrawn.
const PENDING: &[u8] = b"\xcb\x00\x00\x00\x01";

const NOT_EXECUTED: &[u8] = b"\xcb\x00\x00\x00\x03";

/// A queued service: 0x33 of class 768, instance 1.
const QUEUED: &[u8] = b"\x33\x03\x21\x00\x00\x03\x24\x01\x05\x00\x00\x00";

/// Withdraw of a command.
fn withdraw(life: u64, originator: u64, number: u32) -> Text {
    let mut data: Text = with_data(&life.to_le_bytes(), &originator.to_le_bytes());
    cip_bytes::append(&mut data, &number.to_le_bytes());
    with_data(WITHDRAW, data.as_slice())
}

/// Forget of a command.
fn forget(originator: u64, number: u32) -> Text {
    let data: Text = with_data(&originator.to_le_bytes(), &number.to_le_bytes());
    with_data(FORGET, data.as_slice())
}

/// Asserts whether a request withdraws something, and its reply after that.
fn check_asked(
    rt: &impl Abort,
    device: &mut LedgerRouter<OwnedObjects>,
    request: &[u8],
    withdraws: bool,
    wanted: &[u8],
) {
    assert_eq!(rt; device.withdraw_asked(request), withdraws);
    check(rt, device, 504, request, wanted);
}

/// A ledger of two slots before objects with a queue of two commands.
fn device(alloc: Global) -> Result<LedgerRouter<OwnedObjects>, Fail> {
    Ok(LedgerRouter {
        ledger: Some(Ledger::new(alloc, 2, LIFE)?),
        router: queued_objects(alloc, 2)?,
    })
}

/// The queue of a device.
fn queue<'a>(device: &'a mut LedgerRouter<OwnedObjects>) -> Result<&'a mut Queue, Fail> {
    let queue = device.router.queue.as_mut().ok_or("a queue")?;
    Ok(queue)
}

/// A number that was not used is used up, once, and its command is not executed.
#[test]
fn a_number_is_used_up(rt: HostRuntime) -> Result<(), Fail> {
    let mut node = node(rt.alloc())?;
    check_asked(&rt, &mut node, &withdraw(LIFE, 1, 4), true, WITHDRAWN);
    check_asked(&rt, &mut node, &withdraw(LIFE, 1, 4), false, WITHDRAWN);
    check_asked(
        &rt,
        &mut node,
        &once(LIFE, 1, 4, ADD_FIVE),
        false,
        NOT_EXECUTED,
    );
    check_asked(&rt, &mut node, &once(LIFE, 1, 3, ADD_FIVE), false, TOO_OLD);
    check_asked(&rt, &mut node, &withdraw(LIFE, 1, 3), false, SMALLER);
    check_asked(&rt, &mut node, &withdraw(8, 1, 5), false, OTHER_LIFE);
    check_asked(&rt, &mut node, &withdraw(LIFE, 1, 5), true, WITHDRAWN);
    check_counter(&rt, &node, 0, 0);
    check_asked(&rt, &mut node, &once(LIFE, 1, 6, ADD_FIVE), false, FIVE);
    let done = b"\xcf\x00\x00\x00\x00\xb2\x00\x00\x00\x05\x00\x00\x00";
    check_asked(&rt, &mut node, &withdraw(LIFE, 1, 6), false, done);
    check_asked(&rt, &mut node, &withdraw(LIFE, 2, 0), true, WITHDRAWN);
    check_asked(&rt, &mut node, &withdraw(LIFE, 3, 1), false, NO_SLOT);
    check_asked(
        &rt,
        &mut node,
        &withdraw(LIFE, 1, u32::MAX),
        true,
        WITHDRAWN,
    );
    check_counter(&rt, &node, 5, 1);
    Ok(())
}

/// A command in doubt stays so. A later number can be used up.
#[test]
fn a_doubt_stays(rt: HostRuntime) -> Result<(), Fail> {
    let mut node = node(rt.alloc())?;
    let ledger = node.ledger.as_mut().ok_or("a ledger")?;
    assert!(rt; ledger.put_in_doubt(1, 4));
    check_asked(&rt, &mut node, &withdraw(LIFE, 1, 4), false, DOUBTFUL);
    check_asked(&rt, &mut node, &withdraw(LIFE, 1, 3), false, SMALLER);
    check_asked(&rt, &mut node, &forget(1, 3), false, b"\xcd\x00\x0c\x00");
    check_asked(&rt, &mut node, &withdraw(LIFE, 1, 5), true, WITHDRAWN);
    check_asked(&rt, &mut node, &withdraw(LIFE, 1, 4), false, SMALLER);
    let ledger = node.ledger.as_mut().ok_or("a ledger")?;
    assert!(rt; ledger.in_doubt(0).is_none());
    assert!(rt; !ledger.settle(1, 4, b"\xb2\x00\x00\x00"));
    assert!(rt; !ledger.settle(1, 5, b"\xb2\x00\x00\x00"));
    assert!(rt; !ledger.put_in_doubt(1, 5));
    Ok(())
}

/// A command that waits leaves the queue, by Withdraw and by Forget, unless an owner was handed it.
#[test]
fn a_command_leaves_the_queue(rt: HostRuntime) -> Result<(), Fail> {
    let mut device = device(rt.alloc())?;
    check_asked(&rt, &mut device, &once(LIFE, 1, 4, QUEUED), false, PENDING);
    check_asked(&rt, &mut device, &once(LIFE, 2, 4, QUEUED), false, PENDING);
    check_asked(&rt, &mut device, &withdraw(LIFE, 1, 5), false, WAITS);
    assert!(rt; queue(&mut device)?.mark(1));
    check_asked(&rt, &mut device, &withdraw(LIFE, 1, 4), false, HANDED_OVER);
    check_asked(&rt, &mut device, &forget(1, 4), false, b"\xcd\x00\x0c\x00");
    check_asked(&rt, &mut device, &withdraw(LIFE, 2, 4), true, WITHDRAWN);
    assert_eq!(rt; queue(&mut device)?.waiting_count(), 1);
    assert!(rt; !device.finish(2, &reply(0, b"\x2a")?));
    assert!(rt; device.finish(1, &reply(0, b"\x2a")?));
    let done = b"\xcf\x00\x00\x00\x00\xb3\x00\x00\x00\x2a";
    check_asked(&rt, &mut device, &withdraw(LIFE, 1, 4), false, done);
    check_asked(&rt, &mut device, &once(LIFE, 1, 5, QUEUED), false, PENDING);
    check_asked(&rt, &mut device, &forget(1, 4), false, b"\xcd\x00\x0c\x00");
    check_asked(&rt, &mut device, &forget(1, 5), true, b"\xcd\x00\x00\x00");
    check_asked(&rt, &mut device, &forget(1, 5), false, b"\xcd\x00\x00\x00");
    assert_eq!(rt; queue(&mut device)?.waiting_count(), 0);
    check_asked(&rt, &mut device, &once(LIFE, 1, 5, QUEUED), false, PENDING);
    Ok(())
}

/// What withdraws nothing: other data, another service, another object, and a device without a ledger.
#[test]
fn nothing_is_withdrawn(rt: HostRuntime) -> Result<(), Fail> {
    let mut device = device(rt.alloc())?;
    check_asked(&rt, &mut device, &once(LIFE, 1, 4, QUEUED), false, PENDING);
    let whole = withdraw(LIFE, 1, 4);
    for size in 2..whole.len() {
        assert!(rt; !device.withdraw_asked(&whole.as_slice()[..size]));
    }
    assert!(rt; !device.withdraw_asked(&with_data(whole.as_slice(), b"\x00")));
    for (place, value) in [
        (0usize, 0x4eu8),
        (0, 0x4b),
        (3, 0x64),
        (5, 2),
        (5, 0),
        (6, 6),
        (14, 3),
        (22, 5),
    ] {
        let mut other = withdraw(LIFE, 1, 4);
        other.as_mut_slice()[place] = value;
        // another originator without a slot is a case of its own
        assert_eq!(rt; device.withdraw_asked(other.as_slice()), place == 14);
    }
    assert!(rt; !device.withdraw_asked(&once(LIFE, 2, 1, withdraw(LIFE, 1, 4).as_slice())));
    check(&rt, &mut device, 504, &once(LIFE, 1, 4, QUEUED), PENDING);
    device.ledger = None;
    assert!(rt; !device.withdraw_asked(&withdraw(LIFE, 1, 4)));
    Ok(())
}

/// A slot that is put back with a command that was withdrawn is answered so. One with another reply or ticket is not.
#[test]
fn put_back(rt: HostRuntime) -> Result<(), Fail> {
    let mut node = node(rt.alloc())?;
    let ledger = node.ledger.as_mut().ok_or("a ledger")?;
    let kept = |reply, ticket| KeptCommand {
        originator: 1,
        number: 4,
        reply,
        ticket,
    };
    assert!(rt; !ledger.restore(kept(Some(b"\xb2".as_slice()), Some(0))));
    assert!(rt; !ledger.restore(kept(Some(b"".as_slice()), Some(1))));
    assert!(rt; ledger.restore(kept(Some(b"".as_slice()), Some(0))));
    check_asked(&rt, &mut node, &withdraw(LIFE, 1, 4), false, WITHDRAWN);
    check_asked(
        &rt,
        &mut node,
        &once(LIFE, 1, 4, ADD_FIVE),
        false,
        NOT_EXECUTED,
    );
    Ok(())
}
