//! The device's own writes among the events.

use enip_bench::Step;
use std::test::Fail;
use test_fixtures::bench::{ADD_5, REPLY_OF_5, Row, bench, compare, look};

/// Each kind of write, two that don't fit, and a request in between that arrives twice.
const WRITES: [(Row, Step); 10] = [
    (Row::Submit(ADD_5), Step::Sent(0, 0)),
    (Row::WriteData(100, 2, &[9, 8]), Step::Done),
    (Row::Reach(0), Step::Reached(Some(0))),
    (Row::WriteData(100, 2, &[0, 0, 0]), Step::Impossible),
    (Row::WriteData(99, 0, &[]), Step::Impossible),
    (Row::WriteStatus(0x0130), Step::Done),
    (Row::WriteState(5), Step::Done),
    (Row::Reach(0), Step::Reached(Some(1))),
    (Row::WriteData(100, 0, &[7]), Step::Done),
    (Row::Back(1), Step::Accepted(REPLY_OF_5)),
];

/// Attributes after these events, each with its class and instance: the data of assembly 100, the device's status, its
/// state, and the counter.
const ATTRIBUTES: [(u16, u32, u16, &[u8]); 4] = [
    (4, 100, 3, &[7, 0, 9, 8]),
    (1, 1, 5, &[0x30, 0x01]),
    (1, 1, 8, &[5]),
    (0x64, 1, 1, &[5, 0, 0, 0]),
];

#[test]
fn writes_between_two_arrivals(rt: HostRuntime) -> Result<(), Fail> {
    let mut bench = bench(rt.alloc(), 100)?;
    compare(rt.alloc(), &mut bench, &WRITES)?;
    for (class, instance, number, bytes) in &ATTRIBUTES {
        let attribute = look(&bench).objects.attribute(*class, *instance, *number);
        let attribute = attribute.ok_or("the device has it")?;
        assert_eq!(rt; attribute.as_slice(), *bytes);
    }
    Ok(())
}
