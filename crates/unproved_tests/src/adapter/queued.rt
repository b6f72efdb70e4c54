//! Queued commands of an adapter: its peers put them into the queue, and the owner finishes them.

use crate::queue_fixtures::{
    ASKED, QUEUED, frame, once, plain_objects, reply, request, unconnected,
};
use cip_application::GET_RESULT;
use cip_ledger::Ledger;
use cip_owner::Queue;
use enip_adapter::{Adapter, Peer, Rights, Shares};
use std::alloc::Global;
use std::process::Abort;
use std::test::Fail;
use test_fixtures::adapter::{LIMITS, LISTEN, OPEN, REGISTER, feed};

/// The life of the device.
const LIFE: u64 = 7;

/// An adapter whose queue has room for two commands, with a command ledger.
fn adapter(alloc: Global) -> Result<Adapter, Fail> {
    let objects = plain_objects(alloc)?;
    let queue = Queue::new(alloc, 2)?;
    let ledger = Ledger::new(alloc, 2, LIFE)?;
    Ok(Adapter::queued(
        alloc,
        objects,
        Some(ledger),
        Some(queue),
        LISTEN,
        LIMITS,
        Shares::NONE,
    )?)
}

/// The same with its first peer, who has registered session 1 and opened connection 1.
fn with_peer(alloc: Global, rights: Rights) -> Result<(Adapter, Peer), Fail> {
    let mut adapter = adapter(alloc)?;
    let peer = adapter.begin_as(rights, None).ok().ok_or("a slot is free")?;
    let _ = feed(&mut adapter, &peer, REGISTER);
    let _ = feed(&mut adapter, &peer, OPEN);
    Ok((adapter, peer))
}

/// Asserts the reply to an unconnected request.
fn check(
    rt: &impl Abort,
    alloc: Global,
    adapter: &mut Adapter,
    peer: &Peer,
    message: &[u8],
    wanted: &[u8],
) -> Result<(), Fail> {
    let (sent, answer) = (unconnected(alloc, message)?, unconnected(alloc, wanted)?);
    assert!(rt; feed(adapter, peer, &sent).answer == Some(answer.as_slice()));
    Ok(())
}

/// How many commands wait.
fn waiting(adapter: &Adapter) -> Option<usize> {
    adapter.queue().map(Queue::waiting_count)
}

/// A command waits without the owner being asked, and its result is there when the owner has finished it.
#[test]
fn finished_by_the_owner(rt: HostRuntime) -> Result<(), Fail> {
    let alloc = rt.alloc();
    let (mut adapter, peer) = with_peer(alloc, Rights::Write)?;
    let queued = request(alloc, QUEUED, 1, b"\x05\0\0\0")?;
    let result = request(alloc, GET_RESULT, 1, b"\x01\0\0\0")?;
    let asked = request(alloc, ASKED, 1, b"\x05\0\0\0")?;
    assert!(rt;
        adapter
            .asked(0, &peer, &unconnected(alloc, &queued)?)
            .is_none()
    );
    assert!(rt;
        adapter
            .asked(0, &peer, &unconnected(alloc, &result)?)
            .is_none()
    );
    assert!(rt;
        adapter
            .asked(0, &peer, &unconnected(alloc, &asked)?)
            .is_some()
    );
    assert_eq!(rt; waiting(&adapter), Some(0));
    check(
        &rt,
        alloc,
        &mut adapter,
        &peer,
        &queued,
        b"\xb3\0\0\0\x01\0\0\0",
    )?;
    check(
        &rt,
        alloc,
        &mut adapter,
        &peer,
        &queued,
        b"\xb3\0\0\0\x02\0\0\0",
    )?;
    check(&rt, alloc, &mut adapter, &peer, &queued, b"\xb3\0\x02\0")?;
    check(&rt, alloc, &mut adapter, &peer, &result, b"\xce\0\0\0\x01")?;
    assert_eq!(rt; waiting(&adapter), Some(2));
    assert!(rt; !adapter.finish(3, &reply(0, b"")?));
    assert!(rt; adapter.finish(1, &reply(0, b"\x2a")?));
    assert!(rt; !adapter.finish(1, &reply(0, b"\x2a")?));
    assert_eq!(rt; waiting(&adapter), Some(1));
    check(
        &rt,
        alloc,
        &mut adapter,
        &peer,
        &result,
        b"\xce\0\0\0\0\0\x2a",
    )?;
    Ok(())
}

/// A repeat on a connection is answered by the same ticket, and puts nothing into the queue.
#[test]
fn repeated_on_a_connection(rt: HostRuntime) -> Result<(), Fail> {
    let alloc = rt.alloc();
    let (mut adapter, peer) = with_peer(alloc, Rights::Write)?;
    let queued = request(alloc, QUEUED, 2, b"\x05\0\0\0")?;
    let (to, from) = (
        b"\xa1\0\x04\0\x01\0\0\0\xb1\0",
        b"\xa1\0\x04\0\x44\x33\x22\x11\xb1\0",
    );
    let first = frame(alloc, 0x70, to, b"\x01\0", &queued)?;
    let answer = frame(alloc, 0x70, from, b"\x01\0", b"\xb3\0\0\0\x01\0\0\0")?;
    for _ in 0..3 {
        assert!(rt; feed(&mut adapter, &peer, &first).answer == Some(answer.as_slice()));
        assert_eq!(rt; waiting(&adapter), Some(1));
    }
    let second = frame(alloc, 0x70, to, b"\x02\0", &queued)?;
    let answer = frame(alloc, 0x70, from, b"\x02\0", b"\xb3\0\0\0\x02\0\0\0")?;
    assert!(rt; feed(&mut adapter, &peer, &second).answer == Some(answer.as_slice()));
    assert_eq!(rt; waiting(&adapter), Some(2));
    Ok(())
}

/// A reader puts nothing into the queue, and gets no result.
#[test]
fn of_a_reader(rt: HostRuntime) -> Result<(), Fail> {
    let alloc = rt.alloc();
    let (mut adapter, peer) = with_peer(alloc, Rights::Read)?;
    let queued = request(alloc, QUEUED, 1, b"\x05\0\0\0")?;
    let result = request(alloc, GET_RESULT, 1, b"\x01\0\0\0")?;
    check(&rt, alloc, &mut adapter, &peer, &queued, b"\xb3\0\x0f\0")?;
    check(&rt, alloc, &mut adapter, &peer, &result, b"\xce\0\x0f\0")?;
    assert_eq!(rt; waiting(&adapter), Some(0));
    Ok(())
}

/// Through Do_Once a command is pending, and then done with the owner's reply, for another peer too.
#[test]
fn through_the_ledger(rt: HostRuntime) -> Result<(), Fail> {
    let alloc = rt.alloc();
    let (mut adapter, peer) = with_peer(alloc, Rights::Write)?;
    let once = once(alloc, LIFE, 9, &request(alloc, QUEUED, 1, b"\x05\0\0\0")?)?;
    for _ in 0..2 {
        check(&rt, alloc, &mut adapter, &peer, &once, b"\xcb\0\0\0\x01")?;
        assert_eq!(rt; waiting(&adapter), Some(1));
    }
    assert!(rt; adapter.finish(1, &reply(0x1f, b"")?));
    check(
        &rt,
        alloc,
        &mut adapter,
        &peer,
        &once,
        b"\xcb\0\0\0\0\xb3\0\x1f\0",
    )?;
    assert!(rt; !adapter.finish(1, &reply(0, b"")?));
    check(
        &rt,
        alloc,
        &mut adapter,
        &peer,
        &once,
        b"\xcb\0\0\0\0\xb3\0\x1f\0",
    )?;
    assert_eq!(rt; waiting(&adapter), Some(0));
    Ok(())
}

/// An adapter without a queue.
#[test]
fn without_a_queue(rt: HostRuntime) -> Result<(), Fail> {
    let alloc = rt.alloc();
    let objects = plain_objects(alloc)?;
    let mut adapter = Adapter::new(alloc, objects, LISTEN, LIMITS)?;
    assert!(rt; adapter.queue().is_none());
    assert!(rt; !adapter.finish(1, &reply(0, b"")?));
    let peer = adapter.begin().ok().ok_or("a slot is free")?;
    let _ = feed(&mut adapter, &peer, REGISTER);
    let queued = request(alloc, QUEUED, 1, b"\x05\0\0\0")?;
    check(&rt, alloc, &mut adapter, &peer, &queued, b"\xb3\0\x02\0")?;
    Ok(())
}
