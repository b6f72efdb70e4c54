//! The earliest of several deadlines, also if a time is earlier than the one before.

use super::counting::objects;
use super::manager_openings::{DEVICE, check_id, is_answered, open};
use cip_manager::Manager;
use cip_objects::Objects;
use std::process::Abort;
use std::test::Fail;

/// A call of the manager, with its time.
#[derive(Clone, Copy)]
enum Call {
    /// An item on the connection with an ID, which is answered.
    Receive(u64, u32),
    /// Ends the connections that have timed out.
    Expire(u64),
}

fn make(rt: &impl Abort, manager: &mut Manager, objects: &mut Objects, call: Call) {
    match call {
        Call::Receive(now, id) => {
            assert!(rt; is_answered(manager, objects, now, 1, id));
        }
        Call::Expire(now) => manager.expire(now),
    }
}

/// Opens three connections with deadlines at 10, 11 and 12 seconds.
fn open_three(rt: &impl Abort, manager: &mut Manager) {
    for (now, serial) in [(0, 1u16), (1_000_000, 2), (2_000_000, 3)] {
        let reply = open(manager, now, 1, serial);
        check_id(rt, &reply, u32::from(serial));
    }
}

/// Calls, with the number of free slots of 16 and the earliest deadline after each.
static CALLS: [(Call, u16, Option<u64>); 11] = [
    // an item moves the earliest deadline, that of the first connection, from 10 to 17 seconds
    (Call::Receive(9_000_000, 1), 13, Some(11_000_000)),
    (Call::Expire(10_000_000), 13, Some(11_000_000)),
    (Call::Expire(10_999_999), 13, Some(11_000_000)),
    (Call::Expire(11_000_000), 14, Some(12_000_000)),
    // an item at an earlier time moves it back, from 17 to 11.5 seconds, before that of the third
    (Call::Receive(3_500_000, 1), 14, Some(11_500_000)),
    (Call::Expire(11_499_999), 14, Some(11_500_000)),
    (Call::Expire(11_500_000), 15, Some(12_000_000)),
    (Call::Receive(11_500_000, 3), 15, Some(19_500_000)),
    (Call::Expire(12_000_000), 15, Some(19_500_000)),
    (Call::Expire(19_499_999), 15, Some(19_500_000)),
    (Call::Expire(19_500_000), 16, None),
];

#[test]
fn each_ends_at_its_last_deadline(rt: HostRuntime) -> Result<(), Fail> {
    let mut manager = Manager::new(rt.alloc(), 16, 1, DEVICE)?;
    let mut objects = objects(rt.alloc())?;
    assert_eq!(rt; manager.deadline(), None);
    open_three(&rt, &mut manager);
    assert_eq!(rt; manager.deadline(), Some(10_000_000));
    for (call, free, deadline) in &CALLS {
        make(&rt, &mut manager, &mut objects, *call);
        assert!(rt; manager.free() == *free);
        assert_eq!(rt; manager.deadline(), *deadline);
    }
    Ok(())
}
