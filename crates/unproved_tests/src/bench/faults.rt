//! An opening that is refused, and the numbers and the texts of the faults.

use crate::texts::check_texts;
use enip_adapter::Adapter;
use enip_bench::{Bench, BenchFault};
use enip_client::{Client, Wants};
use std::test::Fail;
use test_fixtures::bench::{LIMITS, LISTEN, WANTS, demo};

/// A connection that the adapter refuses: its packet interval is 0.
const NO_INTERVAL: Wants = Wants { rpi: 0, ..WANTS };

#[test]
fn an_opening_that_is_refused(rt: HostRuntime) -> Result<(), Fail> {
    let adapter = Adapter::new(rt.alloc(), demo(rt.alloc(), 100)?, LISTEN, LIMITS)?;
    let Ok(client) = Client::new(rt.alloc(), &NO_INTERVAL) else {
        return Err(Fail::from("the client is made"));
    };
    let refused = Bench::new(rt.alloc(), adapter, client).err();
    assert_eq!(rt; refused, Some(BenchFault::Setup));
    Ok(())
}

#[test]
fn faults_have_numbers(rt: HostRuntime) -> Result<(), Fail> {
    assert_eq!(rt; BenchFault::Memory as u8, 1);
    assert_eq!(rt; BenchFault::Setup as u8, 2);
    Ok(())
}

#[test]
fn texts_of_enip_bench(rt: HostRuntime) -> Result<(), Fail> {
    let rows = [(BenchFault::Memory, "memory"), (BenchFault::Setup, "setup")];
    check_texts(&rt, rt.alloc(), &rows)
}
