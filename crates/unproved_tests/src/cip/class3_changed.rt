//! Items with a byte changed, cut or filled up, at a target that has executed the original. (Volume 1, transport
//! class 3: the sequence count alone decides whether an item is a repeat.)

use super::counting::objects;
use cip_class3::{KeptReply, Received, Target};
use std::alloc::Global;
use std::process::Abort;
use std::test::Fail;

/// An addition of 1 with count 0x0102, and its reply.
const ITEM: [u8; 12] = [
    0x02, 0x01, 0x32, 0x02, 0x20, 0x64, 0x24, 0x01, 0x01, 0x00, 0x00, 0x00,
];

const FIRST: KeptReply<'static> = KeptReply {
    sequence_count: 0x0102,
    reply: &[0xb2, 0x00, 0x00, 0x00, 0x01, 0x00, 0x00, 0x00],
};

/// Asserts what a target of 500 bytes each way does with an item after `ITEM`, which reply it keeps then, and how
/// many additions were executed.
fn check(
    rt: &impl Abort,
    alloc: Global,
    item: &[u8],
    wanted: (Received, KeptReply<'_>, u8),
) -> Result<(), Fail> {
    let (received, kept, additions) = wanted;
    let mut objects = objects(alloc)?;
    let mut target = Target::new(500, 500);
    assert_eq!(rt; target.receive(&mut objects, &ITEM), Received::Executed);
    assert_eq!(rt; target.receive(&mut objects, item), received);
    assert_eq!(rt; target.kept(), Some(kept));
    let counted = objects
        .attribute(0x64, 1, 3)
        .ok_or("the counter has additions")?;
    assert_eq!(rt; counted.as_slice(), [additions, 0, 0, 0].as_slice());
    Ok(())
}

/// An item with a changed count is another request, which is executed. With any other byte changed it is a repeat.
#[test]
fn each_changed_byte(rt: HostRuntime) -> Result<(), Fail> {
    for place in 0..ITEM.len() {
        for change in 1..=255u8 {
            let mut item = ITEM;
            item[place] = ITEM[place].wrapping_add(change);
            let wanted = if place < 2 {
                let second = KeptReply {
                    sequence_count: u16::from_le_bytes([item[0], item[1]]),
                    reply: &[0xb2, 0x00, 0x00, 0x00, 0x02, 0x00, 0x00, 0x00],
                };
                (Received::Executed, second, 2)
            } else {
                (Received::Repeated, FIRST, 1)
            };
            check(&rt, rt.alloc(), &item, wanted)?;
        }
    }
    Ok(())
}

/// An item of 4 to 500 bytes is a repeat, also if it was cut or filled up. Any other is dropped.
#[test]
fn each_size(rt: HostRuntime) -> Result<(), Fail> {
    let mut block = [0; 502];
    block[..ITEM.len()].copy_from_slice(&ITEM);
    for size in 0..=block.len() {
        let received = if (4..=500).contains(&size) {
            Received::Repeated
        } else {
            Received::Dropped
        };
        check(&rt, rt.alloc(), &block[..size], (received, FIRST, 1))?;
    }
    Ok(())
}

/// The longest item, with another count, is executed. The objects refuse it, and the reply is kept all the same.
#[test]
fn the_longest_with_another_count(rt: HostRuntime) -> Result<(), Fail> {
    let mut block = [0; 500];
    block[..ITEM.len()].copy_from_slice(&ITEM);
    block[0] = 0x03;
    let refused = KeptReply {
        sequence_count: 0x0103,
        reply: &[0xb2, 0x00, 0x15, 0x00],
    };
    check(&rt, rt.alloc(), &block, (Received::Executed, refused, 1))
}
