//! Both ends of a connection over more requests than there are counts.

use super::counting::{ADD_ONE, objects};
use cip_class3::{Came, KeptReply, Originator, Received, Refused, Stage, Target};
use cip_objects::Objects;
use std::alloc::Global;
use std::process::Abort;
use std::test::Fail;

/// Both ends of a connection with first count 60,000, and the objects of the target.
#[derive(Drop)]
struct Ends {
    originator: Originator,
    target: Target,
    objects: Objects,
}

fn make_ends(alloc: Global) -> Result<Ends, Fail> {
    Ok(Ends {
        originator: Originator::new(alloc, 60_000, 500, 500)?,
        target: Target::new(500, 500),
        objects: objects(alloc)?,
    })
}

impl Ends {
    /// Submits the n-th request and sends it twice. It is executed once, and its reply is accepted once.
    fn check(&mut self, rt: &impl Abort, n: u32) -> Result<(), Fail> {
        let item = self.originator.submit(&ADD_ONE)?;
        self.target.receive(&mut self.objects, item);
        let item = self.originator.resend().ok_or("no item")?;
        self.target.receive(&mut self.objects, item);
        let [a, b, c, d] = n.to_le_bytes();
        let reply = [0xb2, 0x00, 0x00, 0x00, a, b, c, d];
        let kept = self.target.kept().ok_or("nothing is kept")?;
        assert!(rt; kept.reply == reply.as_slice(), "at {n}");
        let [low, high] = kept.sequence_count.to_le_bytes();
        let item = [low, high, 0xb2, 0x00, 0x00, 0x00, a, b, c, d];
        assert!(rt;
            self.originator.receive(&item) == Came::Accepted(&reply),
            "at {n}"
        );
        assert!(rt; self.originator.receive(&item) == Came::Ignored, "at {n}");
        Ok(())
    }
}

#[test]
fn each_of_many_requests_is_executed_once(rt: HostRuntime) -> Result<(), Fail> {
    let mut ends = make_ends(rt.alloc())?;
    for n in 1..=70_000u32 {
        ends.check(&rt, n)?;
    }
    let value = ends.objects.attribute(0x64, 1, 1).ok_or("the value")?;
    assert!(rt; value.as_slice() == 70_000u32.to_le_bytes().as_slice());
    Ok(())
}

/// Submits `count` requests, and gives up each.
fn abandon(rt: &impl Abort, originator: &mut Originator, count: u32) {
    for n in 0..count {
        let taken = originator.submit(&ADD_ONE).is_ok();
        assert!(rt; taken && originator.give_up(), "at {n}");
    }
}

/// Asserts that every request is refused, since too many were given up.
fn check_bound(rt: &impl Abort, originator: &mut Originator) {
    assert!(rt; originator.submit(&ADD_ONE).err() == Some(Refused::TooManyAbandoned));
    assert!(rt; originator.submit(&[0x32]).err() == Some(Refused::TooManyAbandoned));
}

#[test]
fn requests_are_taken_up_to_the_bound(rt: HostRuntime) -> Result<(), Fail> {
    let mut originator = Originator::new(rt.alloc(), 1, 500, 500)?;
    abandon(&rt, &mut originator, 65_534);
    // the 65,535th has a count of its own; while it waits, the bound is the first reason to refuse another
    let item = originator.submit(&ADD_ONE)?;
    assert!(rt; item.starts_with(&[0xff, 0xff, 0x32]));
    check_bound(&rt, &mut originator);
    // its reply is accepted, and another 65,535 requests can be submitted
    let came = originator.receive(b"\xff\xff\xb2\0\0\0");
    assert!(rt; matches!(came, Came::Accepted(_)));
    abandon(&rt, &mut originator, 65_535);
    check_bound(&rt, &mut originator);
    assert!(rt; originator.stage() == Stage::GivenUp && !originator.give_up());
    Ok(())
}

/// Asserts what the target does with an item with this count. It keeps the count and the reply with this value.
fn check_item(
    rt: &impl Abort,
    target: &mut Target,
    objects: &mut Objects,
    count: u16,
    dealt: (Received, u32),
) {
    let [low, high] = count.to_le_bytes();
    let item = [
        low, high, 0x32, 0x02, 0x20, 0x64, 0x24, 0x01, 0x01, 0x00, 0x00, 0x00,
    ];
    let (received, value) = dealt;
    assert!(rt; target.receive(objects, &item) == received);
    let [a, b, c, d] = value.to_le_bytes();
    let reply = [0xb2, 0x00, 0x00, 0x00, a, b, c, d];
    let wanted = KeptReply {
        sequence_count: count,
        reply: &reply,
    };
    assert!(rt; target.kept() == Some(wanted));
}

/// Count 7 is executed and the next requests are lost. The request that is `later` counts later is executed too,
/// unless it is the 65,536th.
#[test]
fn one_more_than_the_bound_would_get_the_old_reply(rt: HostRuntime) -> Result<(), Fail> {
    let mut objects = objects(rt.alloc())?;
    let mut value = 0u32;
    let mut count = 7u16;
    for later in 1..=65_536u32 {
        let mut target = Target::new(500, 500);
        assert!(rt; target.kept().is_none());
        value = value.wrapping_add(1);
        check_item(
            &rt,
            &mut target,
            &mut objects,
            7,
            (Received::Executed, value),
        );
        count = count.wrapping_add(1);
        if later < 65_536 {
            value = value.wrapping_add(1);
            check_item(
                &rt,
                &mut target,
                &mut objects,
                count,
                (Received::Executed, value),
            );
        } else {
            check_item(
                &rt,
                &mut target,
                &mut objects,
                count,
                (Received::Repeated, value),
            );
        }
    }
    Ok(())
}
