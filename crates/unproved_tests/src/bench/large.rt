//! A connection of 4,002 bytes each way.

use cip_class3::{Refused, Stage};
use cip_objects::{AssemblyConfig, Objects};
use enip_adapter::Adapter;
use enip_bench::{Bench, Event, Step};
use enip_client::{Client, Wants};
use std::alloc::Global;
use std::process::Abort;
use std::test::Fail;
use test_fixtures::bench::{
    CLEAR, EXACTLY_ONCE, LIMITS, LISTEN, WANTS, compare, config, counter, done, look,
};

/// A connection with the greatest size in both directions.
const LARGE: Wants = Wants {
    o_to_t_size: 4_002,
    t_to_o_size: 4_002,
    ..WANTS
};

/// A bench with the demo configuration, and assembly 101 of 3,900 bytes.
fn large_bench(alloc: Global) -> Result<Bench, Fail> {
    let mut config = config(alloc, 100)?;
    config.assemblies.push(AssemblyConfig {
        instance: 101,
        settable: true,
        members: Vec::from_slice(alloc, &[3_900])?,
        lists: false,
    })?;
    let Ok(objects) = Objects::new(alloc, &config) else {
        return Err(Fail::from("the objects are made"));
    };
    let adapter = Adapter::new(alloc, objects, LISTEN, LIMITS)?;
    let Ok(client) = Client::new(alloc, &LARGE) else {
        return Err(Fail::from("the client is made"));
    };
    let Ok(bench) = Bench::new(alloc, adapter, client) else {
        return Err(Fail::from("the ends open"));
    };
    Ok(bench)
}

/// Asserts what is seen after `EXACTLY_ONCE`: 5 and 7 were added once each.
fn check_exactly_once<A: Abort>(rt: &A, bench: &Bench) -> Result<(), Fail> {
    assert_eq!(rt; counter(bench, 1)?, 12);
    assert_eq!(rt; counter(bench, 3)?, 2);
    let seen = look(bench);
    assert_eq!(rt; seen.stage, Stage::Idle);
    assert_eq!(rt; seen.back.len(), 3);
    Ok(())
}

#[test]
fn exactly_once_on_a_large_connection(rt: HostRuntime) -> Result<(), Fail> {
    let mut bench = large_bench(rt.alloc())?;
    compare(rt.alloc(), &mut bench, &EXACTLY_ONCE)?;
    check_exactly_once(&rt, &bench)
}

/// Some bytes, filled up with one byte to this length.
fn filled(alloc: Global, front: &[u8], byte: u8, length: usize) -> Result<Vec<u8>, Fail> {
    let mut bytes = Vec::from_slice(alloc, front)?;
    for _ in front.len()..length {
        bytes.push(byte)?;
    }
    Ok(bytes)
}

/// Runs an event and compares the step.
fn does(bench: &mut Bench, event: Event, step: Step<'_>) -> Result<(), Fail> {
    if done(bench, &event)? == step {
        Ok(())
    } else {
        Err(Fail::from("another step is reported"))
    }
}

/// Submits a request, which is executed, and compares the reply.
fn replies(bench: &mut Bench, number: usize, request: Vec<u8>, reply: &[u8]) -> Result<(), Fail> {
    does(
        bench,
        Event::Submit(request),
        Step::Sent(number as u64, number),
    )?;
    does(bench, Event::Reach(number), Step::Reached(Some(number)))?;
    does(bench, Event::Back(number), Step::Accepted(reply))
}

/// A Get_Attribute_List of 21 attributes that do not exist, and of the size and the data of the assembly.
const LIST: &[u8] = b"\x03\x02\x20\x04\x24\x65\x17\0\
    \x63\0\x63\0\x63\0\x63\0\x63\0\x63\0\x63\0\x63\0\x63\0\x63\0\x63\0\
    \x63\0\x63\0\x63\0\x63\0\x63\0\x63\0\x63\0\x63\0\x63\0\x63\0\
    \x01\0\x03\0";

/// Its reply up to the data.
const LISTED: &[u8] = b"\x83\0\x0a\0\x17\0\
    \x63\0\x14\0\x63\0\x14\0\x63\0\x14\0\x63\0\x14\0\x63\0\x14\0\x63\0\x14\0\x63\0\x14\0\
    \x63\0\x14\0\x63\0\x14\0\x63\0\x14\0\x63\0\x14\0\x63\0\x14\0\x63\0\x14\0\x63\0\x14\0\
    \x63\0\x14\0\x63\0\x14\0\x63\0\x14\0\x63\0\x14\0\x63\0\x14\0\x63\0\x14\0\x63\0\x14\0\
    \x01\0\0\0\x01\0\x03\0\0\0";

/// Sets the 3,900 bytes of the assembly.
const SET: &[u8] = b"\x10\x03\x20\x04\x24\x65\x30\x03";

/// Sets the data.
fn set_all(alloc: Global, bench: &mut Bench) -> Result<(), Fail> {
    let set = filled(alloc, SET, 0xa5, 3_908)?;
    replies(bench, 0, set, b"\x90\0\0\0")
}

/// The longest reply has the 3,900 bytes and 22 other attributes.
fn list_all(alloc: Global, bench: &mut Bench) -> Result<(), Fail> {
    let listed = filled(alloc, LISTED, 0xa5, 4_000)?;
    replies(bench, 1, Vec::from_slice(alloc, LIST)?, &listed)
}

/// The longest request has too much data for its service.
fn submit_longest(alloc: Global, bench: &mut Bench) -> Result<(), Fail> {
    let longest = filled(alloc, CLEAR, 0, 4_000)?;
    replies(bench, 2, longest, b"\xb3\0\x15\0")
}

/// A request with one byte more is refused.
fn submit_longer(alloc: Global, bench: &mut Bench) -> Result<(), Fail> {
    let longer = filled(alloc, CLEAR, 0, 4_001)?;
    does(
        bench,
        Event::Submit(longer),
        Step::Refused(Refused::TooLong),
    )
}

fn exchange_longest(alloc: Global, bench: &mut Bench) -> Result<(), Fail> {
    set_all(alloc, bench)?;
    list_all(alloc, bench)?;
    submit_longest(alloc, bench)?;
    submit_longer(alloc, bench)
}

#[test]
fn longest_requests_and_replies(rt: HostRuntime) -> Result<(), Fail> {
    let mut bench = large_bench(rt.alloc())?;
    exchange_longest(rt.alloc(), &mut bench)
}
