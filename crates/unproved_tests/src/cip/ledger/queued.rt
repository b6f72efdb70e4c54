//! Queued commands through Do_Once: pending until the owner finishes them, and then done for good.

use super::node::{
    ADD_FIVE, FIVE, LIFE, NO_SLOT, OTHER_LIFE, TOO_LARGE, TOO_OLD, TOO_SHORT, check, once,
    with_data,
};
use crate::queue_fixtures::{queued_objects, reply};
use cip_application::GET_RESULT;
use cip_ledger::{KeptCommand, Ledger, LedgerRouter};
use cip_owner::{OwnedObjects, Queue};
use std::alloc::Global;
use std::process::Abort;
use std::test::Fail;

/// Service 0x33 of class 768, instance 1, which is queued, with the data 5. The same of instance 3, which does not have
/// it. The largest queued service, of instance 2.
const QUEUED: &[u8] = b"\x33\x03\x21\x00\x00\x03\x24\x01\x05\x00\x00\x00";

const ABSENT: &[u8] = b"\x33\x03\x21\x00\x00\x03\x24\x03\x05\x00\x00\x00";

const LARGEST: &[u8] = b"\x34\x03\x21\x00\x00\x03\x24\x02";

/// The reply to Do_Once of a command that waits: success, the state, and nothing else.
const PENDING: &[u8] = b"\xcb\x00\x00\x00\x01";

/// The reply to Do_Once while the queue is full.
const FULL: &[u8] = b"\xcb\x00\x02\x00";

/// The reply to Do_Once with a greater number while the originator's last command is pending.
const WAITS: &[u8] = b"\xcb\x00\xd0\x00";

/// Forget of originator 1 and command 4, and its refusal.
const FORGET_FOUR: &[u8] =
    b"\x4d\x02\x20\x65\x24\x01\x01\x00\x00\x00\x00\x00\x00\x00\x04\x00\x00\x00";

const NOT_FORGOTTEN: &[u8] = b"\xcd\x00\x0c\x00";

/// Get_Last of originator 1.
const LAST: &[u8] = b"\x4c\x02\x20\x65\x24\x01\x01\x00\x00\x00\x00\x00\x00\x00";

/// A ledger of two slots before objects with a queue of so many commands.
fn device(alloc: Global, limit: u16) -> Result<LedgerRouter<OwnedObjects>, Fail> {
    Ok(LedgerRouter {
        ledger: Some(Ledger::new(alloc, 2, LIFE)?),
        router: queued_objects(alloc, limit)?,
    })
}

/// The queue of a device, and its ledger.
fn queue<'a>(device: &'a LedgerRouter<OwnedObjects>) -> Result<&'a Queue, Fail> {
    let queue = device.router.queue.as_ref().ok_or("a queue")?;
    Ok(queue)
}

fn ledger<'a>(device: &'a mut LedgerRouter<OwnedObjects>) -> Result<&'a mut Ledger, Fail> {
    let ledger = device.ledger.as_mut().ok_or("a ledger")?;
    Ok(ledger)
}

/// Asserts the reply to Get_Result of instance 1, for a ticket.
fn check_result(
    rt: &impl Abort,
    device: &mut LedgerRouter<OwnedObjects>,
    ticket: u8,
    wanted: &[u8],
) {
    let text = [
        GET_RESULT, 0x03, 0x21, 0x00, 0x00, 0x03, 0x24, 0x01, ticket, 0, 0, 0,
    ];
    check(rt, device, 504, &text, wanted);
}

/// A command waits once, however often it is repeated, and then has the reply that the owner gave.
#[test]
fn pending_and_then_done(rt: HostRuntime) -> Result<(), Fail> {
    let mut device = device(rt.alloc(), 2)?;
    let command = once(LIFE, 1, 4, QUEUED);
    check(&rt, &mut device, 504, &command, PENDING);
    check(&rt, &mut device, 504, &command, PENDING);
    check(&rt, &mut device, 8, &command, PENDING);
    check(&rt, &mut device, 504, &once(LIFE, 1, 4, ADD_FIVE), PENDING);
    check(
        &rt,
        &mut device,
        504,
        LAST,
        b"\xcc\x00\x00\x00\x04\x00\x00\x00\x01",
    );
    assert_eq!(rt; queue(&device)?.waiting_count(), 1);
    let waiting = queue(&device)?.waiting(0).ok_or("a command")?;
    assert_eq!(rt; (waiting.ticket, waiting.service), (1, 0x33));
    assert_eq!(rt; waiting.data, b"\x05\x00\x00\x00".as_slice());
    assert!(rt; device.finish(1, &reply(0, b"\x2a\x00")?));
    assert_eq!(rt; queue(&device)?.waiting_count(), 0);
    let done = b"\xcb\x00\x00\x00\x00\xb3\x00\x00\x00\x2a\x00";
    check(&rt, &mut device, 504, &command, done);
    check(&rt, &mut device, 504, &once(LIFE, 1, 4, ADD_FIVE), done);
    check(&rt, &mut device, 10, &command, TOO_LARGE);
    check(&rt, &mut device, 11, &command, done);
    check(
        &rt,
        &mut device,
        504,
        LAST,
        b"\xcc\x00\x00\x00\x04\x00\x00\x00\x00\xb3\x00\x00\x00\x2a\x00",
    );
    assert!(rt; !device.finish(1, &reply(0, b"\x2b")?));
    check(&rt, &mut device, 504, &command, done);
    check_result(&rt, &mut device, 1, b"\xce\x00\x00\x00\x00\x00\x2a\x00");
    Ok(())
}

/// A reply that the service does not allow finishes nothing. A refusal of the owner is a reply.
#[test]
fn refused_by_the_owner(rt: HostRuntime) -> Result<(), Fail> {
    let mut device = device(rt.alloc(), 2)?;
    let command = once(LIFE, 1, 1, QUEUED);
    check(&rt, &mut device, 504, &command, PENDING);
    assert!(rt; !device.finish(1, &reply(0x11, b"")?));
    assert!(rt; !device.finish(1, &reply(0, b"\x01\x02\x03\x04\x05")?));
    assert!(rt; !device.finish(2, &reply(0, b"")?));
    check(&rt, &mut device, 504, &command, PENDING);
    assert!(rt; device.finish(1, &reply(0x0c, b"")?));
    check(
        &rt,
        &mut device,
        504,
        &command,
        b"\xcb\x00\x00\x00\x00\xb3\x00\x0c\x00",
    );
    Ok(())
}

/// The longest reply of a queued command fits the slot, and the reply limit of a new command.
#[test]
fn longest(rt: HostRuntime) -> Result<(), Fail> {
    let mut device = device(rt.alloc(), 1)?;
    let command = once(LIFE, 1, 1, LARGEST);
    check(&rt, &mut device, 484, &command, TOO_LARGE);
    check(&rt, &mut device, 485, &command, PENDING);
    assert!(rt; device.finish(1, &reply(0, &[9; 476])?));
    let mut done = [9; 485];
    done[..9].copy_from_slice(b"\xcb\x00\x00\x00\x00\xb4\x00\x00\x00");
    check(&rt, &mut device, 485, &command, &done);
    check(&rt, &mut device, 484, &command, TOO_LARGE);
    Ok(())
}

/// A full queue is not recorded: the number can be tried again, and the originator has no slot for it.
#[test]
fn full(rt: HostRuntime) -> Result<(), Fail> {
    let mut device = device(rt.alloc(), 1)?;
    check(&rt, &mut device, 504, &once(LIFE, 1, 1, QUEUED), PENDING);
    check(&rt, &mut device, 504, &once(LIFE, 2, 7, QUEUED), FULL);
    check(&rt, &mut device, 504, &once(LIFE, 2, 7, QUEUED), FULL);
    let last_of_2 = b"\x4c\x02\x20\x65\x24\x01\x02\x00\x00\x00\x00\x00\x00\x00";
    check(&rt, &mut device, 504, last_of_2, b"\xcc\x00\x16\x00");
    check(&rt, &mut device, 504, &once(LIFE, 1, 2, QUEUED), WAITS);
    check(&rt, &mut device, 504, &once(LIFE, 1, 1, QUEUED), PENDING);
    // what is not queued is executed, and what is refused inside is recorded, with or without room
    check(&rt, &mut device, 504, &once(LIFE, 2, 7, ADD_FIVE), FIVE);
    check(
        &rt,
        &mut device,
        504,
        &once(LIFE, 2, 8, ABSENT),
        b"\xcb\0\0\0\0\xb3\0\x08\0",
    );
    check(
        &rt,
        &mut device,
        504,
        &once(LIFE, 2, 9, &QUEUED[..11]),
        b"\xcb\0\0\0\0\xb3\0\x13\0",
    );
    assert!(rt; device.finish(1, &reply(0, b"")?));
    check(&rt, &mut device, 504, &once(LIFE, 1, 2, QUEUED), PENDING);
    check(&rt, &mut device, 504, &once(LIFE, 1, 1, QUEUED), TOO_OLD);
    assert_eq!(rt;
        queue(&device)?.waiting(0).map(|command| command.ticket),
        Some(2)
    );
    Ok(())
}

/// The checks of Do_Once that come before the queue: two that both apply. A command that is pending comes before the
/// reply limit, and that before the queue.
#[test]
fn before_the_queue(rt: HostRuntime) -> Result<(), Fail> {
    let mut device = device(rt.alloc(), 1)?;
    check(&rt, &mut device, 504, &once(LIFE, 1, 5, QUEUED), PENDING);
    check(&rt, &mut device, 504, &once(LIFE, 2, 1, ADD_FIVE), FIVE);
    let short = with_data(b"\x4b\x02\x20\x65\x24\x01", &[0; 21]);
    check(&rt, &mut device, 504, &short, TOO_SHORT);
    check(&rt, &mut device, 504, &once(8, 1, 6, QUEUED), OTHER_LIFE);
    check(&rt, &mut device, 504, &once(LIFE, 1, 4, QUEUED), TOO_OLD);
    check(&rt, &mut device, 504, &once(LIFE, 1, 5, QUEUED), PENDING);
    check(&rt, &mut device, 484, &once(LIFE, 1, 6, QUEUED), WAITS);
    check(&rt, &mut device, 485, &once(LIFE, 1, 6, QUEUED), WAITS);
    check(&rt, &mut device, 484, &once(LIFE, 2, 2, QUEUED), TOO_LARGE);
    check(&rt, &mut device, 485, &once(LIFE, 2, 2, QUEUED), FULL);
    check(&rt, &mut device, 484, &once(LIFE, 3, 1, QUEUED), NO_SLOT);
    check(&rt, &mut device, 504, &once(LIFE, 3, 1, QUEUED), NO_SLOT);
    Ok(())
}

/// A later command of the originator is taken once the earlier one has ended, whatever it embeds and whatever limit it
/// has. Until then nothing changes.
#[test]
fn later_command(rt: HostRuntime) -> Result<(), Fail> {
    let mut device = device(rt.alloc(), 2)?;
    check(&rt, &mut device, 504, &once(LIFE, 1, 1, QUEUED), PENDING);
    for request in [QUEUED, ABSENT, LARGEST, ADD_FIVE, &QUEUED[..11]] {
        check(&rt, &mut device, 504, &once(LIFE, 1, 2, request), WAITS);
    }
    for limit in [8, 484, 485] {
        check(&rt, &mut device, limit, &once(LIFE, 1, 2, QUEUED), WAITS);
    }
    check(&rt, &mut device, 504, &once(LIFE, 1, 0, QUEUED), TOO_OLD);
    check(&rt, &mut device, 504, &once(8, 1, 2, QUEUED), OTHER_LIFE);
    check(&rt, &mut device, 504, &once(LIFE, 1, 1, QUEUED), PENDING);
    assert_eq!(rt; queue(&device)?.waiting_count(), 1);
    // a reply that the service does not allow does not end it
    assert!(rt; !device.finish(1, &reply(0, b"\x01\x02\x03\x04\x05")?));
    check(&rt, &mut device, 504, &once(LIFE, 1, 2, QUEUED), WAITS);
    assert!(rt; device.finish(1, &reply(0, b"\x01")?));
    check(&rt, &mut device, 504, &once(LIFE, 1, 2, QUEUED), PENDING);
    check(&rt, &mut device, 504, &once(LIFE, 1, 1, QUEUED), TOO_OLD);
    check_result(&rt, &mut device, 1, b"\xce\x00\x00\x00\x00\x00\x01");
    assert!(rt; device.finish(2, &reply(0, b"\x02")?));
    let done = b"\xcb\x00\x00\x00\x00\xb3\x00\x00\x00\x02";
    check(&rt, &mut device, 504, &once(LIFE, 1, 2, QUEUED), done);
    Ok(())
}

/// Two originators, whose commands are finished in the other order.
#[test]
fn two_originators(rt: HostRuntime) -> Result<(), Fail> {
    let mut device = device(rt.alloc(), 2)?;
    let (first, second) = (once(LIFE, 1, 1, QUEUED), once(LIFE, 2, 1, QUEUED));
    check(&rt, &mut device, 504, &first, PENDING);
    check(&rt, &mut device, 504, &second, PENDING);
    assert!(rt; device.finish(2, &reply(0, b"\x02")?));
    check(&rt, &mut device, 504, &first, PENDING);
    check(
        &rt,
        &mut device,
        504,
        &second,
        b"\xcb\x00\x00\x00\x00\xb3\x00\x00\x00\x02",
    );
    assert!(rt; device.finish(1, &reply(0, b"\x01")?));
    check(
        &rt,
        &mut device,
        504,
        &first,
        b"\xcb\x00\x00\x00\x00\xb3\x00\x00\x00\x01",
    );
    Ok(())
}

/// A pending command is not in doubt, is not settled, and is not forgotten before it has ended.
#[test]
fn neither_in_doubt_nor_lost(rt: HostRuntime) -> Result<(), Fail> {
    let mut device = device(rt.alloc(), 2)?;
    check(&rt, &mut device, 504, &once(LIFE, 1, 4, QUEUED), PENDING);
    assert!(rt; ledger(&mut device)?.in_doubt(0).is_none());
    assert!(rt; !ledger(&mut device)?.settle(1, 4, b"\xb3\x00\x00\x00"));
    check(&rt, &mut device, 504, &once(LIFE, 1, 4, QUEUED), PENDING);
    check(&rt, &mut device, 504, FORGET_FOUR, NOT_FORGOTTEN);
    let last = b"\xcc\x00\x00\x00\x04\x00\x00\x00\x01";
    check(&rt, &mut device, 504, LAST, last);
    assert_eq!(rt; queue(&device)?.waiting_count(), 1);
    assert!(rt; device.finish(1, &reply(0, b"\x01")?));
    check(&rt, &mut device, 504, FORGET_FOUR, b"\xcd\x00\x00\x00");
    check(&rt, &mut device, 504, LAST, b"\xcc\x00\x16\x00");
    check_result(&rt, &mut device, 1, b"\xce\x00\x00\x00\x00\x00\x01");
    Ok(())
}

/// A command that came without Do_Once is finished in the queue alone.
#[test]
fn without_the_ledger(rt: HostRuntime) -> Result<(), Fail> {
    let mut device = device(rt.alloc(), 2)?;
    check(
        &rt,
        &mut device,
        504,
        QUEUED,
        b"\xb3\x00\x00\x00\x01\x00\x00\x00",
    );
    check(&rt, &mut device, 504, &once(LIFE, 1, 1, QUEUED), PENDING);
    assert!(rt; device.finish(1, &reply(0, b"\x01")?));
    check(&rt, &mut device, 504, &once(LIFE, 1, 1, QUEUED), PENDING);
    check_result(&rt, &mut device, 1, b"\xce\x00\x00\x00\x00\x00\x01");
    check_result(&rt, &mut device, 2, b"\xce\x00\x00\x00\x01");
    device.ledger = None;
    assert!(rt; device.finish(2, &reply(0, b"\x02")?));
    check_result(&rt, &mut device, 2, b"\xce\x00\x00\x00\x00\x00\x02");
    Ok(())
}

/// A slot that a restarted device puts back with a ticket is pending, and is completed by that ticket once.
#[test]
fn restarted(rt: HostRuntime) -> Result<(), Fail> {
    let mut device = device(rt.alloc(), 2)?;
    let pending = KeptCommand {
        originator: 1,
        number: 4,
        reply: None,
        ticket: Some(7),
    };
    assert!(rt; ledger(&mut device)?.restore(pending));
    check(&rt, &mut device, 504, &once(LIFE, 1, 4, QUEUED), PENDING);
    assert!(rt; ledger(&mut device)?.in_doubt(0).is_none());
    assert!(rt; !ledger(&mut device)?.complete(6, b"\xb3\x00\x00\x00"));
    assert!(rt; !ledger(&mut device)?.complete(7, b"\xb3\x00\x00"));
    assert!(rt; !ledger(&mut device)?.complete(7, &[0; 481]));
    assert!(rt; ledger(&mut device)?.complete(7, b"\xb3\x00\x00\x00\x09"));
    assert!(rt; !ledger(&mut device)?.complete(7, b"\xb3\x00\x00\x00\x0a"));
    let done = b"\xcb\x00\x00\x00\x00\xb3\x00\x00\x00\x09";
    check(&rt, &mut device, 504, &once(LIFE, 1, 4, QUEUED), done);
    // neither a reply nor a ticket is in doubt; both are refused
    let both = KeptCommand {
        originator: 2,
        number: 1,
        reply: Some(b"\xb3\x00\x00\x00".as_slice()),
        ticket: Some(8),
    };
    assert!(rt; !ledger(&mut device)?.restore(both));
    Ok(())
}
