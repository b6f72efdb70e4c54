//! Connections found by their IDs.

ghost use Rattle.std.specs.Prelude.{◌<◌};

use super::counting::objects;
use super::manager_openings::{DEVICE, check_id, close, is_answered, open};
use cip_manager::{Manager, Steps};
use cip_objects::Objects;
use std::alloc::AllocError;
use std::process::Abort;
use std::test::Fail;

/// The number of connections that can be open.
const PLACES: u16 = 64;

/// Whether the manager finds the ID. Asserts that it takes at most `most` steps.
fn is_found(rt: &impl Abort, manager: &Manager, id: u32, most: u64) -> bool {
    let mut steps = Steps::default();
    let found = manager.find(id, &mut steps);
    assert!(rt; steps.count <= most);
    found
}

#[test]
fn an_id_is_found_in_six_steps(rt: HostRuntime) -> Result<(), Fail> {
    let mut manager = Manager::new(rt.alloc(), PLACES, 1, DEVICE)?;
    for serial in 1..=64u16 {
        let reply = open(&mut manager, 0, 1, serial);
        check_id(&rt, &reply, u32::from(serial));
    }
    for half in 1..=32u16 {
        let reply = close(&mut manager, 1, 2 * half);
        assert!(rt; reply.as_slice().starts_with(&[0xce, 0x00, 0x00, 0x00]));
    }
    check_id(&rt, &open(&mut manager, 0, 1, 65), 65);
    assert!(rt; manager.free() == 31);
    for (id, is_open) in [
        (64, false),
        (63, true),
        (0, false),
        (1, true),
        (2, false),
        (65, true),
        (66, false),
    ] {
        assert!(rt; is_found(&rt, &manager, id, 6) == is_open);
    }
    Ok(())
}

/// A connection in the plain list.
#[derive(Clone, Copy)]
struct Open {
    id: u32,
    session: u32,
    serial: u16,
    deadline: u64,
}

/// A manager, and a plain list of the connections that must be open.
#[derive(Drop)]
struct Beside {
    manager: Manager,
    objects: Objects,
    list: Vec<Open>,
    next_id: u32,
    now: u64,
}

impl Beside {
    fn open(&mut self, rt: &impl Abort, session: u32, serial: u16) -> Result<(), AllocError> {
        let reply = open(&mut self.manager, self.now, session, serial);
        if self.list.iter().any(|open| open.serial == serial) {
            assert!(rt;
                reply
                    .as_slice()
                    .starts_with(&[0xd4, 0x00, 0x01, 0x01, 0x00, 0x01])
            );
        } else if self.list.len() >= usize::from(PLACES) {
            assert!(rt;
                reply
                    .as_slice()
                    .starts_with(&[0xd4, 0x00, 0x01, 0x01, 0x13, 0x01])
            );
        } else {
            check_id(rt, &reply, self.next_id);
            self.list.push(Open {
                id: self.next_id,
                session,
                serial,
                deadline: self.now.saturating_add(10_000_000),
            })?;
            self.next_id = self.next_id.wrapping_add(1);
        }
        Ok(())
    }

    fn close(&mut self, rt: &impl Abort, session: u32, serial: u16) {
        let reply = close(&mut self.manager, session, serial);
        let is_open = self
            .list
            .iter()
            .any(|open| open.session == session && open.serial == serial);
        if is_open {
            assert!(rt; reply.as_slice().starts_with(&[0xce, 0x00, 0x00, 0x00]));
            self.list.retain(|open| open.serial != serial);
        } else {
            assert!(rt;
                reply
                    .as_slice()
                    .starts_with(&[0xce, 0x00, 0x01, 0x01, 0x07, 0x01])
            );
        }
    }

    fn expire(&mut self, time: u64) {
        let now = self.now.saturating_add(time);
        self.now = now;
        self.manager.expire(now);
        self.list.retain(|open| now < open.deadline);
    }

    /// An item on a connection of this session moves its deadline.
    fn receive(&mut self, rt: &impl Abort, session: u32, id: u32) {
        let answered = is_answered(&mut self.manager, &mut self.objects, self.now, session, id);
        let mut is_open = false;
        for open in self.list.iter_mut() {
            if open.session == session && open.id == id {
                open.deadline = self.now.saturating_add(8_000_000);
                is_open = true;
            }
        }
        assert!(rt; answered == is_open);
    }

    fn find(&self, rt: &impl Abort, id: u32) {
        let is_open = self.list.iter().any(|open| open.id == id);
        let digits = usize::BITS - self.list.len().leading_zeros();
        assert!(rt; is_found(rt, &self.manager, id, u64::from(digits)) == is_open);
        assert!(rt; usize::from(self.manager.free()) + self.list.len() == usize::from(PLACES));
    }

    /// Makes a call that the seed determines.
    fn call(&mut self, rt: &impl Abort, seed: &mut u64) -> Result<(), AllocError> {
        let kind = drawn(seed, 8);
        let session = drawn(seed, 2);
        let serial = drawn(seed, 150) as u16;
        let id = self.next_id.saturating_sub(drawn(seed, 100));
        match kind {
            0..=2 => self.open(rt, session, serial)?,
            3 => self.close(rt, session, serial),
            4 => self.expire(u64::from(drawn(seed, 400_000))),
            5 => self.receive(rt, session, id),
            _ => self.find(rt, id),
        }
        Ok(())
    }
}

/// The next pseudorandom number below a bound.
fn drawn(seed: &mut u64, bound: u32) -> u32
    requires { 0 < bound }
    ensures { result < bound }
{
    *seed = seed
        .wrapping_mul(6_364_136_223_846_793_005)
        .wrapping_add(1_442_695_040_888_963_407);
    ((*seed >> 33) % u64::from(bound)) as u32
}

#[test]
fn a_thousand_calls_beside_a_plain_list(rt: HostRuntime) -> Result<(), Fail> {
    let mut beside = Beside {
        manager: Manager::new(rt.alloc(), PLACES, 1, DEVICE)?,
        objects: objects(rt.alloc())?,
        list: Vec::new(rt.alloc()),
        next_id: 1,
        now: 0,
    };
    let mut seed = 16;
    for _ in 0..1000 {
        beside.call(&rt, &mut seed)?;
    }
    // so many were opened that slots were used again
    assert!(rt; beside.next_id > 100);
    Ok(())
}
