//! Queued commands at the objects: a row for each line of the tables, and for each pair of checks that follow one
//! another. The bytes are written out from the tables of docs/PROTOCOL.md.

use crate::queue_fixtures::{ASKED, CLASS, LARGEST, QUEUED, queued_objects, reply, request};
use cip_application::GET_RESULT;
use cip_objects::{ReplyBuf, Router};
use cip_owner::{OwnedObjects, Queue, RESULT_LIMIT};
use std::alloc::Global;
use std::process::Abort;
use std::test::Fail;

/// The refusals of service 0x33 and of Get_Result.
const FULL: &[u8] = b"\xb3\x00\x02\x00";

const UNKNOWN: &[u8] = b"\xce\x00\x16\x00";

/// Get_Result of a command that waits.
const PENDING: &[u8] = b"\xce\x00\x00\x00\x01";

/// Asserts the reply to a request with a reply limit.
fn check(
    rt: &impl Abort,
    device: &mut OwnedObjects,
    max_size: usize,
    request: &[u8],
    wanted: &[u8],
) {
    let mut reply = ReplyBuf::new();
    device.execute(request, max_size, &mut reply);
    assert_eq!(rt; reply.as_slice(), wanted);
}

/// Asserts the reply to service 0x33 of an instance, with these data.
fn check_queued(
    rt: &impl Abort,
    device: &mut OwnedObjects,
    instance: u8,
    data: &[u8],
    wanted: &[u8],
) -> Result<(), Fail> {
    let mut text = [
        0x33, 0x03, 0x21, 0x00, 0x00, 0x03, 0x24, instance, 0, 0, 0, 0, 0,
    ];
    text[8..8 + data.len()].copy_from_slice(data);
    check(rt, device, 504, &text[..8 + data.len()], wanted);
    Ok(())
}

/// Asserts the reply to Get_Result of an instance, for a ticket.
fn check_result(
    rt: &impl Abort,
    device: &mut OwnedObjects,
    instance: u8,
    ticket: u32,
    wanted: &[u8],
) {
    let mut text = [
        GET_RESULT, 0x03, 0x21, 0x00, 0x00, 0x03, 0x24, instance, 0, 0, 0, 0,
    ];
    text[8..].copy_from_slice(&ticket.to_le_bytes());
    check(rt, device, 504, &text, wanted);
}

/// The queue of a device.
fn queue<'a>(device: &'a mut OwnedObjects) -> Result<&'a mut Queue, Fail> {
    let queue = device.queue.as_mut().ok_or("a queue")?;
    Ok(queue)
}

/// Asserts the tickets of the commands that wait, in order.
fn check_waiting(rt: &impl Abort, queue: &Queue, wanted: &[u32]) {
    assert_eq!(rt; queue.waiting_count(), wanted.len());
    for (index, ticket) in wanted.iter().enumerate() {
        assert_eq!(rt;
            queue.waiting(index).map(|command| command.ticket),
            Some(*ticket)
        );
    }
    assert!(rt; queue.waiting(wanted.len()).is_none());
}

/// Each request gets the next ticket, whatever its object, and waits with its data.
#[test]
fn a_ticket_each(rt: HostRuntime) -> Result<(), Fail> {
    let alloc = rt.alloc();
    let mut device = queued_objects(alloc, 3)?;
    check_queued(
        &rt,
        &mut device,
        1,
        b"\x05\x06\x07\x08",
        b"\xb3\0\0\0\x01\0\0\0",
    )?;
    check_queued(
        &rt,
        &mut device,
        2,
        b"\x01\x00\x00\x00",
        b"\xb3\0\0\0\x02\0\0\0",
    )?;
    let longest = request(alloc, LARGEST, 1, &[7; 480])?;
    check(&rt, &mut device, 8, &longest, b"\xb4\0\0\0\x03\0\0\0");
    let queue = queue(&mut device)?;
    check_waiting(&rt, queue, &[1, 2, 3]);
    let first = queue.waiting(0).ok_or("a command")?;
    assert_eq!(rt;
        (first.class, first.instance, first.service),
        (CLASS, 1, QUEUED)
    );
    assert_eq!(rt; first.data, b"\x05\x06\x07\x08".as_slice());
    assert_eq!(rt; first.reply_limit, 4);
    let last = queue.waiting(2).ok_or("a command")?;
    assert_eq!(rt;
        (last.service, last.data.len(), last.reply_limit),
        (LARGEST, 480, 476)
    );
    Ok(())
}

/// What is refused before the queue is looked at: with room in it, and without.
fn check_refused_before(rt: &impl Abort, device: &mut OwnedObjects) -> Result<(), Fail> {
    // a path size past the end, a path that ends early, a class, an instance, and an object without the service
    check(
        rt,
        device,
        504,
        b"\x33\x04\x21\x00\x00\x03\x24\x01",
        b"\xb3\x00\x26\x00",
    );
    check(
        rt,
        device,
        504,
        b"\x33\x02\x21\x00\x00\x03",
        b"\xb3\x00\x04\x00",
    );
    check(
        rt,
        device,
        504,
        b"\x33\x03\x21\x00\x01\x03\x24\x01\x00\x00\x00\x00",
        b"\xb3\x00\x05\x00",
    );
    check_queued(rt, device, 4, b"\x01\x00\x00\x00", b"\xb3\x00\x05\x00")?;
    check_queued(rt, device, 3, b"\x01\x00\x00\x00", b"\xb3\x00\x08\x00")?;
    check_queued(rt, device, 3, b"\x01\x00\x00", b"\xb3\x00\x08\x00")?;
    check_queued(rt, device, 1, b"\x01\x00\x00", b"\xb3\x00\x13\x00")?;
    check_queued(rt, device, 1, b"\x01\x00\x00\x00\x00", b"\xb3\x00\x15\x00")
}

#[test]
fn refused_before(rt: HostRuntime) -> Result<(), Fail> {
    let mut device = queued_objects(rt.alloc(), 1)?;
    check_refused_before(&rt, &mut device)?;
    check_waiting(&rt, queue(&mut device)?, &[]);
    check_queued(
        &rt,
        &mut device,
        1,
        b"\x01\x00\x00\x00",
        b"\xb3\0\0\0\x01\0\0\0",
    )?;
    check_refused_before(&rt, &mut device)?;
    check_waiting(&rt, queue(&mut device)?, &[1]);
    Ok(())
}

/// A full queue refuses, and takes no ticket for it. A command that is finished makes room.
#[test]
fn full(rt: HostRuntime) -> Result<(), Fail> {
    let mut device = queued_objects(rt.alloc(), 2)?;
    check_queued(
        &rt,
        &mut device,
        1,
        b"\x01\x00\x00\x00",
        b"\xb3\0\0\0\x01\0\0\0",
    )?;
    check_queued(
        &rt,
        &mut device,
        1,
        b"\x02\x00\x00\x00",
        b"\xb3\0\0\0\x02\0\0\0",
    )?;
    check_queued(&rt, &mut device, 1, b"\x03\x00\x00\x00", FULL)?;
    check_queued(&rt, &mut device, 2, b"\x03\x00\x00\x00", FULL)?;
    check_waiting(&rt, queue(&mut device)?, &[1, 2]);
    assert!(rt; queue(&mut device)?.finish(1, &reply(0, b"")?));
    check_queued(
        &rt,
        &mut device,
        2,
        b"\x04\x00\x00\x00",
        b"\xb3\0\0\0\x03\0\0\0",
    )?;
    check_queued(&rt, &mut device, 1, b"\x05\x00\x00\x00", FULL)?;
    check_waiting(&rt, queue(&mut device)?, &[2, 3]);
    Ok(())
}

/// The greatest queue, and objects without one.
#[test]
fn greatest_and_none(rt: HostRuntime) -> Result<(), Fail> {
    let mut device = queued_objects(rt.alloc(), 256)?;
    for ticket in 1..=256u32 {
        let mut wanted = *b"\xb3\0\0\0\0\0\0\0";
        wanted[4..].copy_from_slice(&ticket.to_le_bytes());
        check_queued(&rt, &mut device, 1, &ticket.to_le_bytes(), &wanted)?;
    }
    check_queued(&rt, &mut device, 1, b"\x01\x00\x00\x00", FULL)?;
    device.queue = None;
    check_queued(&rt, &mut device, 1, b"\x01\x00\x00\x00", FULL)?;
    check_result(&rt, &mut device, 1, 1, UNKNOWN);
    Ok(())
}

/// The last ticket is 2^32 - 1. After it the queue takes no command.
#[test]
fn last_ticket(rt: HostRuntime) -> Result<(), Fail> {
    let mut device = queued_objects(rt.alloc(), 2)?;
    assert!(rt; queue(&mut device)?.set_next(0xffff_ffff));
    check_queued(
        &rt,
        &mut device,
        1,
        b"\x01\x00\x00\x00",
        b"\xb3\0\0\0\xff\xff\xff\xff",
    )?;
    check_queued(&rt, &mut device, 1, b"\x01\x00\x00\x00", FULL)?;
    check_result(&rt, &mut device, 1, 0xffff_ffff, PENDING);
    assert!(rt; queue(&mut device)?.finish(0xffff_ffff, &reply(0, b"")?));
    check_queued(&rt, &mut device, 1, b"\x01\x00\x00\x00", FULL)?;
    Ok(())
}

/// Get_Result: pending, done, and unknown for another object. Its data have the size of a ticket.
#[test]
fn results(rt: HostRuntime) -> Result<(), Fail> {
    let mut device = queued_objects(rt.alloc(), 2)?;
    check_result(&rt, &mut device, 1, 1, UNKNOWN);
    check_queued(
        &rt,
        &mut device,
        1,
        b"\x01\x00\x00\x00",
        b"\xb3\0\0\0\x01\0\0\0",
    )?;
    check_queued(
        &rt,
        &mut device,
        2,
        b"\x01\x00\x00\x00",
        b"\xb3\0\0\0\x02\0\0\0",
    )?;
    check_result(&rt, &mut device, 1, 0, UNKNOWN);
    check_result(&rt, &mut device, 1, 1, PENDING);
    check_result(&rt, &mut device, 2, 1, UNKNOWN);
    check_result(&rt, &mut device, 1, 2, UNKNOWN);
    check_result(&rt, &mut device, 2, 2, PENDING);
    check_result(&rt, &mut device, 3, 1, b"\xce\x00\x08\x00");
    check_result(&rt, &mut device, 1, 3, UNKNOWN);
    check_result(&rt, &mut device, 1, 257, UNKNOWN);
    assert!(rt; queue(&mut device)?.finish(1, &reply(0x1f, b"\x0a\x0b")?));
    check_result(&rt, &mut device, 1, 1, b"\xce\x00\x00\x00\x00\x1f\x0a\x0b");
    check_result(&rt, &mut device, 1, 1, b"\xce\x00\x00\x00\x00\x1f\x0a\x0b");
    check_result(&rt, &mut device, 2, 1, UNKNOWN);
    check_result(&rt, &mut device, 2, 2, PENDING);
    // the size of the data comes before the ticket
    let short = b"\x4e\x03\x21\x00\x00\x03\x24\x01\x01\x00\x00";
    check(&rt, &mut device, 504, short, b"\xce\x00\x13\x00");
    let long = b"\x4e\x03\x21\x00\x00\x03\x24\x01\x01\x00\x00\x00\x00";
    check(&rt, &mut device, 504, long, b"\xce\x00\x15\x00");
    Ok(())
}

/// The longest result, within the least reply limit that it fits. Pending fits any.
#[test]
fn largest_result(rt: HostRuntime) -> Result<(), Fail> {
    let alloc = rt.alloc();
    let mut device = queued_objects(alloc, 1)?;
    let queued = request(alloc, LARGEST, 1, b"")?;
    check(&rt, &mut device, 8, &queued, b"\xb4\0\0\0\x01\0\0\0");
    let result = request(alloc, GET_RESULT, 1, b"\x01\x00\x00\x00")?;
    check(&rt, &mut device, 8, &result, PENDING);
    assert!(rt; !queue(&mut device)?.finish(1, &reply(0, &[9; 477])?));
    assert!(rt; queue(&mut device)?.finish(1, &reply(0, &[9; 476])?));
    let mut wanted = [9; 482];
    wanted[..6].copy_from_slice(b"\xce\x00\x00\x00\x00\x00");
    check(&rt, &mut device, 482, &result, &wanted);
    check(&rt, &mut device, 481, &result, b"\xce\x00\x11\x00");
    check(&rt, &mut device, 482, &result, &wanted);
    // a ticket of another object is unknown before its result is too large
    let other = request(alloc, GET_RESULT, 2, b"\x01\x00\x00\x00")?;
    check(&rt, &mut device, 8, &other, UNKNOWN);
    Ok(())
}

/// A command is finished once, by a reply that its service allows. The others keep their order.
#[test]
fn finished_once(rt: HostRuntime) -> Result<(), Fail> {
    let mut device = queued_objects(rt.alloc(), 3)?;
    for ticket in 1..=3u8 {
        check_queued(
            &rt,
            &mut device,
            1,
            &[ticket, 0, 0, 0],
            &[0xb3, 0, 0, 0, ticket, 0, 0, 0],
        )?;
    }
    let queue = queue(&mut device)?;
    // never given, too long, and a status that says that nothing was executed
    assert!(rt; !queue.finish(0, &reply(0, b"")?));
    assert!(rt; !queue.finish(4, &reply(0, b"")?));
    assert!(rt; !queue.finish(2, &reply(0, b"\x01\x02\x03\x04\x05")?));
    assert!(rt; !queue.finish(2, &reply(0x11, b"")?));
    check_waiting(&rt, queue, &[1, 2, 3]);
    assert!(rt; queue.finish(2, &reply(0, b"\x01\x02\x03\x04")?));
    check_waiting(&rt, queue, &[1, 3]);
    assert!(rt; !queue.finish(2, &reply(0x1f, b"\x05")?));
    assert!(rt; queue.finish(3, &reply(0xff, b"")?));
    check_waiting(&rt, queue, &[1]);
    check_result(&rt, &mut device, 1, 1, PENDING);
    check_result(&rt, &mut device, 1, 2, b"\xce\0\0\0\0\0\x01\x02\x03\x04");
    check_result(&rt, &mut device, 1, 3, b"\xce\0\0\0\0\xff");
    Ok(())
}

/// The last 256 results are kept, in the order in which the commands were finished.
#[test]
fn last_results(rt: HostRuntime) -> Result<(), Fail> {
    let mut device = queued_objects(rt.alloc(), 2)?;
    check_queued(&rt, &mut device, 2, b"\0\0\0\0", b"\xb3\0\0\0\x01\0\0\0")?;
    for ticket in 2..=257u32 {
        let mut wanted = *b"\xb3\0\0\0\0\0\0\0";
        wanted[4..].copy_from_slice(&ticket.to_le_bytes());
        check_queued(&rt, &mut device, 1, b"\0\0\0\0", &wanted)?;
        assert!(rt; queue(&mut device)?.finish(ticket, &reply(0, &ticket.to_le_bytes())?));
    }
    assert_eq!(rt; queue(&mut device)?.result_count(), RESULT_LIMIT);
    check_result(&rt, &mut device, 2, 1, PENDING);
    check_result(&rt, &mut device, 1, 2, b"\xce\0\0\0\0\0\x02\0\0\0");
    // the first ticket is finished last: the result of the second is dropped for it
    assert!(rt; queue(&mut device)?.finish(1, &reply(0, b"\x01")?));
    assert_eq!(rt; queue(&mut device)?.result_count(), RESULT_LIMIT);
    check_result(&rt, &mut device, 1, 2, UNKNOWN);
    check_result(&rt, &mut device, 1, 3, b"\xce\0\0\0\0\0\x03\0\0\0");
    check_result(&rt, &mut device, 1, 257, b"\xce\0\0\0\0\0\x01\x01\0\0");
    check_result(&rt, &mut device, 2, 1, b"\xce\0\0\0\0\0\x01");
    assert!(rt; !queue(&mut device)?.finish(2, &reply(0, b"")?));
    Ok(())
}

/// The owner is asked for services that are neither queued nor Get_Result, and their prepared reply waits for them.
#[test]
fn asked_next_to_queued(rt: HostRuntime) -> Result<(), Fail> {
    let alloc = rt.alloc();
    let mut device = queued_objects(alloc, 2)?;
    let asked = request(alloc, ASKED, 1, b"\x01\x00\x00\x00")?;
    let queued = request(alloc, QUEUED, 1, b"\x01\x00\x00\x00")?;
    let result = request(alloc, GET_RESULT, 1, b"\x01\x00\x00\x00")?;
    assert!(rt; device.asks(&asked, 504).is_some());
    assert!(rt; device.asks(&queued, 504).is_none());
    assert!(rt; device.asks(&result, 504).is_none());
    check(&rt, &mut device, 504, &asked, b"\xb2\x00\x10\x00");
    device.prepared = Some(reply(0, b"\x2a")?);
    check(&rt, &mut device, 504, &queued, b"\xb3\0\0\0\x01\0\0\0");
    check(&rt, &mut device, 504, &result, PENDING);
    check(&rt, &mut device, 504, &asked, b"\xb2\x00\x00\x00\x2a");
    check(&rt, &mut device, 504, &asked, b"\xb2\x00\x10\x00");
    check_waiting(&rt, queue(&mut device)?, &[1]);
    Ok(())
}

/// A mark is that of a command that waits, and those before it. It stays.
#[test]
fn marks(rt: HostRuntime) -> Result<(), Fail> {
    let mut device = queued_objects(rt.alloc(), 3)?;
    assert!(rt; !queue(&mut device)?.mark(1) && queue(&mut device)?.handed() == 0);
    for ticket in 1..=3u8 {
        check_queued(
            &rt,
            &mut device,
            1,
            &[ticket, 0, 0, 0],
            &[0xb3, 0, 0, 0, ticket, 0, 0, 0],
        )?;
    }
    let queue = queue(&mut device)?;
    assert_eq!(rt; queue.handed(), 0);
    assert!(rt; queue.mark(2) && queue.handed() == 2);
    assert!(rt; queue.mark(1) && queue.handed() == 2);
    assert!(rt; !queue.mark(4) && !queue.mark(0) && queue.handed() == 2);
    assert!(rt; queue.finish(2, &reply(0, b"\x2a")?));
    assert!(rt; !queue.mark(2) && queue.handed() == 2);
    assert!(rt; queue.mark(3) && queue.handed() == 3);
    Ok(())
}

/// What a restarted device puts back: the next ticket, the waiting commands in order, and the results.
#[test]
fn put_back(rt: HostRuntime) -> Result<(), Fail> {
    let alloc = rt.alloc();
    let mut old = queued_objects(alloc, 3)?;
    for ticket in 1..=3u8 {
        check_queued(
            &rt,
            &mut old,
            1,
            &[ticket, 0, 0, 0],
            &[0xb3, 0, 0, 0, ticket, 0, 0, 0],
        )?;
    }
    assert!(rt; queue(&mut old)?.finish(2, &reply(0, b"\x2a")?));
    assert!(rt; queue(&mut old)?.mark(1));
    let mut new = queued_objects(alloc, 3)?;
    put_back_all(&rt, queue(&mut old)?, queue(&mut new)?)?;
    check_waiting(&rt, queue(&mut new)?, &[1, 3]);
    assert_eq!(rt; queue(&mut new)?.handed(), 1);
    check_result(&rt, &mut new, 1, 2, b"\xce\0\0\0\0\0\x2a");
    check_result(&rt, &mut new, 1, 3, PENDING);
    check_queued(&rt, &mut new, 1, b"\0\0\0\0", b"\xb3\0\0\0\x04\0\0\0")?;
    check_queued(&rt, &mut new, 1, b"\0\0\0\0", FULL)?;
    assert!(rt; !queue(&mut new)?.set_next(0x1_0000_0001));
    Ok(())
}

/// Puts what a queue has into another one.
fn put_back_all(rt: &impl Abort, old: &Queue, new: &mut Queue) -> Result<(), Fail> {
    assert!(rt; new.set_next(old.next()));
    new.set_handed(old.handed());
    for index in 0..old.waiting_count() {
        assert!(rt; new.restore_waiting(old.waiting(index).ok_or("a command")?));
    }
    for index in 0..old.result_count() {
        assert!(rt; new.restore_result(old.kept_result(index).ok_or("a result")?));
    }
    Ok(())
}

/// A device of another adapter: no command of one device is in the queue of the other.
#[test]
fn apart(rt: HostRuntime) -> Result<(), Fail> {
    let alloc: Global = rt.alloc();
    let mut one = queued_objects(alloc, 1)?;
    let mut other = queued_objects(alloc, 1)?;
    check_queued(&rt, &mut one, 1, b"\0\0\0\0", b"\xb3\0\0\0\x01\0\0\0")?;
    check_result(&rt, &mut other, 1, 1, UNKNOWN);
    check_queued(&rt, &mut other, 1, b"\0\0\0\0", b"\xb3\0\0\0\x01\0\0\0")?;
    Ok(())
}
