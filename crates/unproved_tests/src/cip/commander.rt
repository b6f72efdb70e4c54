//! A commander's calls: a row for each refusal and for each status of a reply, and commands at a device's ledger whose
//! answers are lost. The bytes are those of docs/PROTOCOL.md.

use super::counting::{ADD_ONE, objects};
use cip_commander::{
    CommandOutcome, CommandRefused, Commander, LONGEST_EMBEDDED, WithdrawalOutcome,
};
use cip_ledger::{Ledger, LedgerRouter};
use cip_objects::{ReplyBuf, Router};
use cip_owner::OwnedObjects;
use std::alloc::Global;
use std::process::Abort;
use std::test::Fail;

/// Do_Once in life 7 by the originator 0x0102030405060708, before its number.
const FRONT: [u8; 22] = [
    0x4b, 0x02, 0x20, 0x65, 0x24, 0x01, 0x07, 0x00, 0x00, 0x00, 0x00, 0x00, 0x00, 0x00, 0x08, 0x07,
    0x06, 0x05, 0x04, 0x03, 0x02, 0x01,
];

/// A commander of life 7 whose last command had this number.
fn commander(last_number: u32) -> Commander {
    Commander::new(7, 0x0102_0304_0506_0708, last_number)
}

/// A device of life 7 with one slot, and a counter that is 0.
fn device(alloc: Global, life: u64) -> Result<LedgerRouter<OwnedObjects>, Fail> {
    Ok(LedgerRouter {
        ledger: Some(Ledger::new(alloc, 1, life)?),
        router: OwnedObjects::new(objects(alloc)?),
    })
}

/// The pending command has this number and this embedded request, and its message is Do_Once with both.
fn check_pending(rt: &impl Abort, commander: &Commander, number: u32, request: &[u8]) {
    let message = commander.pending().unwrap_or(&[]);
    assert!(rt; message.starts_with(&FRONT));
    assert!(rt; message[22..26].starts_with(&number.to_le_bytes()));
    assert!(rt; &message[26..] == request);
    assert!(rt; commander.pending_request() == Some(request));
    assert_eq!(rt; commander.last_number(), number);
}

/// Each request is refused for the reason behind it, and nothing changes.
fn check_refusals(rt: &impl Abort, commander: &mut Commander, rows: &[(&[u8], CommandRefused)]) {
    for (request, why) in rows {
        let last_number = commander.last_number();
        let was_pending = commander.pending().is_some();
        assert!(rt; commander.command(request).err() == Some(*why));
        assert_eq!(rt; commander.last_number(), last_number);
        assert_eq!(rt; commander.pending().is_some(), was_pending);
    }
}

/// A command is sent as Do_Once with the next number, and again as the same bytes.
#[test]
fn a_command_is_sent_whole(rt: HostRuntime) -> Result<(), Fail> {
    let mut commander = commander(0x0201);
    let sent = commander
        .command(&ADD_ONE)
        .ok()
        .ok_or("the command is taken")?;
    assert_eq!(rt; sent.len(), 36);
    assert!(rt; sent.starts_with(&FRONT));
    assert!(rt; sent[22..26].starts_with(&[0x02, 0x02, 0x00, 0x00]));
    assert!(rt; sent.ends_with(&ADD_ONE));
    check_pending(&rt, &commander, 0x0202, &ADD_ONE);
    check_pending(&rt, &commander, 0x0202, &ADD_ONE);
    assert_eq!(rt; commander.life(), 7);
    assert_eq!(rt; commander.originator(), 0x0102_0304_0506_0708);
    Ok(())
}

/// The first check that fails says why a command is not taken.
#[test]
fn commands_are_refused_by_the_first_check_that_fails(rt: HostRuntime) {
    let long = [0x32; 479];
    let long_reply = [0xb2; 479];
    let rows: [(&[u8], CommandRefused); 5] = [
        (&[], CommandRefused::NotARequest),
        (&[0x32], CommandRefused::NotARequest),
        (b"\x80\0", CommandRefused::NotARequest),
        (&long_reply, CommandRefused::NotARequest),
        (&long, CommandRefused::TooLong),
    ];
    check_refusals(&rt, &mut commander(0), &rows);
    // The greatest number was taken.
    let mut exhausted = commander(u32::MAX);
    check_refusals(&rt, &mut exhausted, &rows);
    check_refusals(
        &rt,
        &mut exhausted,
        &[(&ADD_ONE, CommandRefused::NumbersExhausted)],
    );
    let mut busy = commander(0);
    assert!(rt; busy.command(&ADD_ONE).is_ok());
    for (request, _) in &rows {
        check_refusals(&rt, &mut busy, &[(request, CommandRefused::Pending)]);
    }
    check_refusals(&rt, &mut busy, &[(&ADD_ONE, CommandRefused::Pending)]);
    check_pending(&rt, &busy, 1, &ADD_ONE);
}

/// The longest request and the greatest number are taken, and the smallest request too.
#[test]
fn the_last_of_each_is_taken(rt: HostRuntime) {
    let longest = [0x7f; 478];
    assert_eq!(rt; LONGEST_EMBEDDED, longest.len());
    let mut commander = commander(u32::MAX - 2);
    assert!(rt; commander.command(&longest).is_ok());
    check_pending(&rt, &commander, u32::MAX - 1, &longest);
    assert!(rt; commander.abandon());
    assert!(rt; commander.command(b"\x00\x00").is_ok());
    check_pending(&rt, &commander, u32::MAX, b"\x00\x00");
}

/// Each reply has the outcome behind it, and the command stays pending.
#[test]
fn a_reply_that_is_not_done_keeps_the_command(rt: HostRuntime) {
    let mut commander = commander(4);
    assert!(rt; commander.command(&ADD_ONE).is_ok());
    let rows: [(&[u8], CommandOutcome<'_>); 22] = [
        (b"\xcb\0\x02\0", CommandOutcome::Refused(0x02)),
        (b"\xcb\0\x05\0", CommandOutcome::Refused(0x05)),
        (b"\xcb\0\x08\0", CommandOutcome::Refused(0x08)),
        (b"\xcb\0\x0c\0", CommandOutcome::Refused(0x0c)),
        (b"\xcb\0\x10\0", CommandOutcome::Refused(0x10)),
        (b"\xcb\0\x11\0", CommandOutcome::Refused(0x11)),
        (b"\xcb\0\x13\0", CommandOutcome::Refused(0x13)),
        // with data, with additional status words, and with another reserved byte
        (b"\xcb\0\x0c\0\0", CommandOutcome::Refused(0x0c)),
        (b"\xcb\0\x01\x01\x07\x01", CommandOutcome::Refused(0x01)),
        (b"\xcb\x55\x10\0", CommandOutcome::Refused(0x10)),
        (b"\xcb\0\0\0\x01", CommandOutcome::StillPending),
        (b"\xcb\0\0\0\x01\xb2\0\0\0", CommandOutcome::StillPending),
        (b"\xcb\0\0\0\x02", CommandOutcome::InDoubt),
        (b"\xcb\0\0\0\x02\xb2\0\0\0", CommandOutcome::InDoubt),
        // no reply; no reply to Do_Once; words past the end; no state; no such state
        (b"", CommandOutcome::Malformed),
        (b"\xcb\0\0", CommandOutcome::Malformed),
        (b"\x4b\0\0\0\0", CommandOutcome::Malformed),
        (b"\xcc\0\0\0\0", CommandOutcome::Malformed),
        (b"\xcb\0\x0c\x01\0", CommandOutcome::Malformed),
        (b"\xcb\0\0\0", CommandOutcome::Malformed),
        (b"\xcb\0\0\0\x04", CommandOutcome::Malformed),
        (b"\xcb\0\0\0\xff\xb2\0\0\0", CommandOutcome::Malformed),
    ];
    for (reply, outcome) in &rows {
        assert!(rt; commander.receive(reply) == *outcome);
        check_pending(&rt, &commander, 5, &ADD_ONE);
    }
}

/// A command is done once: its reply is lent, and later ones come to none.
#[test]
fn a_command_is_done_once(rt: HostRuntime) {
    let mut commander = commander(0);
    let reply = b"\xcb\0\0\0\0\xb2\0\0\0\x01\0\0\0";
    assert!(rt; commander.receive(reply) == CommandOutcome::NotPending);
    assert!(rt; commander.command(&ADD_ONE).is_ok());
    assert!(rt; commander.receive(reply) == CommandOutcome::Done(b"\xb2\0\0\0\x01\0\0\0"));
    assert!(rt; commander.pending().is_none() && commander.pending_request().is_none());
    assert!(rt; commander.receive(reply) == CommandOutcome::NotPending);
    assert!(rt; commander.receive(b"") == CommandOutcome::NotPending);
    assert!(rt; !commander.abandon());
    // an embedded refusal, and no bytes at all, are done too
    assert!(rt; commander.command(&ADD_ONE).is_ok());
    assert!(rt;
        commander.receive(b"\xcb\0\0\0\0\xb2\0\x09\0") == CommandOutcome::Done(b"\xb2\0\x09\0")
    );
    assert!(rt; commander.command(&ADD_ONE).is_ok());
    assert!(rt; commander.receive(b"\xcb\0\0\0\0") == CommandOutcome::Done(b""));
    assert_eq!(rt; commander.last_number(), 3);
}

/// A command that was withdrawn is not pending any more, and its number is not taken again.
#[test]
fn a_withdrawn_command_ends(rt: HostRuntime) {
    for reply in [b"\xcb\0\0\0\x03".as_slice(), b"\xcb\0\0\0\x03\xb2\0\0\0"] {
        let mut commander = commander(4);
        assert!(rt; commander.command(&ADD_ONE).is_ok());
        assert!(rt; commander.receive(reply) == CommandOutcome::Withdrawn);
        assert!(rt; commander.pending().is_none() && commander.withdrawal().is_none());
        assert!(rt; commander.receive(reply) == CommandOutcome::NotPending);
        assert!(rt; commander.command(&ADD_ONE).is_ok());
        check_pending(&rt, &commander, 6, &ADD_ONE);
    }
}

/// Withdraw has the life, the originator and the number of the pending command. Each reply that does not say that it was
/// withdrawn or is done leaves it pending.
#[test]
fn a_command_that_is_not_withdrawn_stays(rt: HostRuntime) -> Result<(), Fail> {
    let mut commander = commander(0x0201);
    assert!(rt; commander.withdrawal().is_none());
    assert!(rt; commander.receive_withdrawal(b"\xcf\0\0\0\x03") == WithdrawalOutcome::NotPending);
    assert!(rt; commander.command(&ADD_ONE).is_ok());
    let rows: [(&[u8], WithdrawalOutcome<'_>); 16] = [
        (b"\xcf\0\0\0\x01", WithdrawalOutcome::HandedOver),
        (b"\xcf\0\0\0\x01\xb2\0\0\0", WithdrawalOutcome::HandedOver),
        (b"\xcf\0\0\0\x02", WithdrawalOutcome::InDoubt),
        (b"\xcf\0\x0c\0", WithdrawalOutcome::Smaller),
        (b"\xcf\0\x10\0", WithdrawalOutcome::OtherLife),
        (b"\xcf\x55\x10\x01\x07\x01\0", WithdrawalOutcome::OtherLife),
        (b"\xcf\0\x02\0", WithdrawalOutcome::Refused(0x02)),
        (b"\xcf\0\x08\0", WithdrawalOutcome::Refused(0x08)),
        (b"\xcf\0\xd0\0", WithdrawalOutcome::Refused(0xd0)),
        // no reply; no reply to Withdraw; words past the end; no state; no such state
        (b"", WithdrawalOutcome::Malformed),
        (b"\xcf\0\0", WithdrawalOutcome::Malformed),
        (b"\x4f\0\0\0\x03", WithdrawalOutcome::Malformed),
        (b"\xcb\0\0\0\x03", WithdrawalOutcome::Malformed),
        (b"\xcf\0\x0c\x01\0", WithdrawalOutcome::Malformed),
        (b"\xcf\0\0\0", WithdrawalOutcome::Malformed),
        (b"\xcf\0\0\0\x04", WithdrawalOutcome::Malformed),
    ];
    for (reply, outcome) in &rows {
        assert!(rt; commander.receive_withdrawal(reply) == *outcome);
        check_pending(&rt, &commander, 0x0202, &ADD_ONE);
        let request = commander.withdrawal().ok_or("a command is pending")?;
        let request = request.as_slice();
        assert_eq!(rt; (request.len(), request[0]), (26, 0x4f));
        assert!(rt; &request[1..22] == &FRONT[1..]);
        assert!(rt; &request[22..] == [0x02, 0x02, 0, 0].as_slice());
    }
    Ok(())
}

/// A command ends as withdrawn, or as done with the reply to its request.
#[test]
fn a_command_is_withdrawn_or_done(rt: HostRuntime) {
    let rows: [(&[u8], WithdrawalOutcome<'_>); 4] = [
        (b"\xcf\0\0\0\x03", WithdrawalOutcome::Withdrawn),
        (b"\xcf\0\0\0\x03\xb2\0\0\0", WithdrawalOutcome::Withdrawn),
        (
            b"\xcf\0\0\0\0\xb2\0\x09\0",
            WithdrawalOutcome::Done(b"\xb2\0\x09\0"),
        ),
        (b"\xcf\0\0\0\0", WithdrawalOutcome::Done(b"")),
    ];
    for (reply, outcome) in &rows {
        let mut commander = commander(4);
        assert!(rt; commander.command(&ADD_ONE).is_ok());
        assert!(rt; commander.receive_withdrawal(reply) == *outcome);
        assert!(rt; commander.pending().is_none() && commander.pending_request().is_none());
        assert!(rt; commander.receive_withdrawal(reply) == WithdrawalOutcome::NotPending);
        assert_eq!(rt; commander.last_number(), 5);
    }
}

/// An abandoned command's number is not taken again.
#[test]
fn an_abandoned_number_is_not_taken_again(rt: HostRuntime) {
    let mut commander = commander(8);
    assert!(rt; commander.command(&ADD_ONE).is_ok());
    assert!(rt; commander.abandon());
    assert!(rt; !commander.abandon());
    assert!(rt; commander.receive(b"\xcb\0\0\0\0\xb2\0\0\0") == CommandOutcome::NotPending);
    assert!(rt; commander.command(&ADD_ONE).is_ok());
    check_pending(&rt, &commander, 10, &ADD_ONE);
}

/// A commander goes on from what a file kept.
#[test]
fn a_commander_is_resumed(rt: HostRuntime) -> Result<(), Fail> {
    let originator = 0x0102_0304_0506_0708;
    let resumed = Commander::resume(7, originator, 12, Some(&ADD_ONE));
    let mut resumed = resumed.ok().ok_or("a pending request is taken")?;
    check_pending(&rt, &resumed, 12, &ADD_ONE);
    assert!(rt; resumed.abandon());
    let idle = Commander::resume(7, originator, 12, None);
    let mut idle = idle.ok().ok_or("no pending request is taken")?;
    assert!(rt; idle.pending().is_none());
    assert!(rt; idle.command(&ADD_ONE).is_ok());
    check_pending(&rt, &idle, 13, &ADD_ONE);
    let rows: [(&[u8], CommandRefused); 3] = [
        (&[0x32], CommandRefused::NotARequest),
        (b"\xb2\0", CommandRefused::NotARequest),
        (&[0x32; 479], CommandRefused::TooLong),
    ];
    for (request, why) in &rows {
        assert!(rt; Commander::resume(7, originator, 12, Some(request)).err() == Some(*why));
    }
    Ok(())
}

/// The device's reply to the pending command, within this limit.
fn reply_to(
    commander: &Commander,
    device: &mut LedgerRouter<OwnedObjects>,
    max_size: usize,
) -> ReplyBuf {
    let mut reply = ReplyBuf::new();
    device.execute(commander.pending().unwrap_or(&[]), max_size, &mut reply);
    reply
}

/// The pending command is done with this count.
fn check_done(rt: &impl Abort, commander: &mut Commander, reply: &ReplyBuf, count: u8) {
    let wanted = [0xb2, 0, 0, 0, count, 0, 0, 0];
    assert!(rt; commander.receive(reply.as_slice()) == CommandOutcome::Done(&wanted));
}

/// Commands whose answers are lost are executed once each, over a resumed commander too.
#[test]
fn lost_answers_move_the_machine_once(rt: HostRuntime) -> Result<(), Fail> {
    let mut device = device(rt.alloc(), 7)?;
    let mut commander = commander(0);
    for count in 1..=5u8 {
        assert!(rt; commander.command(&ADD_ONE).is_ok());
        for _ in 0..count {
            let _lost = reply_to(&commander, &mut device, 504);
        }
        let kept = Commander::resume(7, 0x0102_0304_0506_0708, u32::from(count), Some(&ADD_ONE));
        let mut resumed = kept.ok().ok_or("the file has a command")?;
        let reply = reply_to(&resumed, &mut device, 504);
        check_done(&rt, &mut resumed, &reply, count);
        check_done(&rt, &mut commander, &reply, count);
    }
    Ok(())
}

/// The device's reply to Withdraw of the pending command.
fn withdrawn_at(commander: &Commander, device: &mut LedgerRouter<OwnedObjects>) -> ReplyBuf {
    let mut reply = ReplyBuf::new();
    if let Some(request) = commander.withdrawal() {
        device.withdraw_asked(request.as_slice());
        device.execute(request.as_slice(), 504, &mut reply);
    }
    reply
}

/// A command that is withdrawn at the device before it arrives is never executed, and one that was executed is done.
#[test]
fn a_withdrawn_command_never_moves_the_machine(rt: HostRuntime) -> Result<(), Fail> {
    let mut device = device(rt.alloc(), 7)?;
    let mut commander = commander(0);
    assert!(rt; commander.command(&ADD_ONE).is_ok());
    let late = Commander::resume(7, 0x0102_0304_0506_0708, 1, Some(&ADD_ONE));
    let mut late = late.ok().ok_or("the file has a command")?;
    for _ in 0..2 {
        let mut again = Commander::resume(7, 0x0102_0304_0506_0708, 1, Some(&ADD_ONE))
            .ok()
            .ok_or("the file has a command")?;
        let reply = withdrawn_at(&again, &mut device);
        assert!(rt; again.receive_withdrawal(reply.as_slice()) == WithdrawalOutcome::Withdrawn);
    }
    let reply = reply_to(&late, &mut device, 504);
    assert!(rt; late.receive(reply.as_slice()) == CommandOutcome::Withdrawn);
    let reply = withdrawn_at(&commander, &mut device);
    assert!(rt; commander.receive_withdrawal(reply.as_slice()) == WithdrawalOutcome::Withdrawn);
    assert!(rt; commander.command(&ADD_ONE).is_ok());
    let _lost = reply_to(&commander, &mut device, 504);
    let reply = withdrawn_at(&commander, &mut device);
    let done = [0xb2, 0, 0, 0, 1, 0, 0, 0];
    assert!(rt; commander.receive_withdrawal(reply.as_slice()) == WithdrawalOutcome::Done(&done));
    let mut smaller = Commander::resume(7, 0x0102_0304_0506_0708, 1, Some(&ADD_ONE))
        .ok()
        .ok_or("the file has a command")?;
    let reply = withdrawn_at(&smaller, &mut device);
    assert!(rt; smaller.receive_withdrawal(reply.as_slice()) == WithdrawalOutcome::Smaller);
    let mut other = Commander::resume(8, 0x0102_0304_0506_0708, 9, Some(&ADD_ONE))
        .ok()
        .ok_or("the file has a command")?;
    let reply = withdrawn_at(&other, &mut device);
    assert!(rt; other.receive_withdrawal(reply.as_slice()) == WithdrawalOutcome::OtherLife);
    let mut second = Commander::new(7, 2, 0);
    assert!(rt; second.command(&ADD_ONE).is_ok());
    let reply = withdrawn_at(&second, &mut device);
    assert!(rt; second.receive_withdrawal(reply.as_slice()) == WithdrawalOutcome::Refused(0x02));
    Ok(())
}

/// A device's refusals leave the command pending: too short a reply limit, no free slot, a greater number, another life.
#[test]
fn a_device_refuses(rt: HostRuntime) -> Result<(), Fail> {
    let mut device = device(rt.alloc(), 7)?;
    let mut first = commander(8);
    assert!(rt; first.command(&ADD_ONE).is_ok());
    let reply = reply_to(&first, &mut device, 484);
    assert!(rt; first.receive(reply.as_slice()) == CommandOutcome::Refused(0x11));
    let reply = reply_to(&first, &mut device, 485);
    check_done(&rt, &mut first, &reply, 1);
    let mut second = Commander::new(7, 2, 0);
    assert!(rt; second.command(&ADD_ONE).is_ok());
    let reply = reply_to(&second, &mut device, 504);
    assert!(rt; second.receive(reply.as_slice()) == CommandOutcome::Refused(0x02));
    let mut earlier = commander(7);
    assert!(rt; earlier.command(&ADD_ONE).is_ok());
    let reply = reply_to(&earlier, &mut device, 504);
    assert!(rt; earlier.receive(reply.as_slice()) == CommandOutcome::Refused(0x0c));
    let mut restarted = self::device(rt.alloc(), 8)?;
    assert!(rt; first.command(&ADD_ONE).is_ok());
    let reply = reply_to(&first, &mut restarted, 504);
    assert!(rt; first.receive(reply.as_slice()) == CommandOutcome::Refused(0x10));
    device.ledger = None;
    let reply = reply_to(&first, &mut device, 504);
    assert!(rt; first.receive(reply.as_slice()) == CommandOutcome::Refused(0x05));
    check_pending(&rt, &first, 10, &ADD_ONE);
    Ok(())
}
