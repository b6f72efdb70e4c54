//! Runs of many events. (Volume 1, transport class 3.)

use crate::same::check_same;
use enip_bench::{Accepted, Bench, Event, Step};
use std::alloc::Global;
use std::process::Abort;
use std::test::Fail;
use test_fixtures::bench::{ADD_1, EXACTLY_ONCE, REPLY_OF_12, Row, all_done, bench, counter, look};

/// Appends the events of these rows to a list.
fn add_events(
    alloc: Global,
    events: &mut Vec<Event>,
    rows: &[(Row, Step<'_>)],
) -> Result<(), Fail> {
    for (row, _) in rows {
        events.push(row.event(alloc)?)?;
    }
    Ok(())
}

/// Runs the events of these rows in one call.
fn run_rows(alloc: Global, bench: &mut Bench, rows: &[(Row, Step<'_>)]) -> Result<(), Fail> {
    let mut events = Vec::new(alloc);
    add_events(alloc, &mut events, rows)?;
    run(bench, events.as_slice())
}

/// Runs these events in one call.
fn run(bench: &mut Bench, events: &[Event]) -> Result<(), Fail> {
    match all_done(bench, events) {
        Ok(()) => Ok(()),
        Err(_) => Err(Fail::from("there is memory")),
    }
}

/// The expected state after a run.
struct Wanted<'a> {
    value: u32,
    additions: u32,
    back: usize,
    accepted: usize,
    last_number: u64,
    last_reply: &'a [u8],
}

/// Asserts the counter's value and its number of additions.
fn check_counter<A: Abort>(rt: &A, bench: &Bench, wanted: &Wanted<'_>) -> Result<(), Fail> {
    check_same(rt, counter(bench, 1)?, wanted.value);
    check_same(rt, counter(bench, 3)?, wanted.additions);
    Ok(())
}

/// Asserts the last accepted reply.
fn check_last<A: Abort>(rt: &A, last: &Accepted, wanted: &Wanted<'_>) {
    check_same(rt, last.number, wanted.last_number);
    check_same(rt, last.reply.as_slice(), wanted.last_reply);
}

fn check_seen<A: Abort>(rt: &A, bench: &Bench, wanted: &Wanted<'_>) -> Result<(), Fail> {
    check_counter(rt, bench, wanted)?;
    let seen = look(bench);
    check_same(rt, seen.back.len(), wanted.back);
    check_same(rt, seen.accepted.len(), wanted.accepted);
    let last = seen.accepted.last().ok_or("replies were accepted")?;
    check_last(rt, last, wanted);
    Ok(())
}

/// After `EXACTLY_ONCE`: 5 and 7 were added once each.
const ONCE: Wanted<'static> = Wanted {
    value: 12,
    additions: 2,
    back: 3,
    accepted: 2,
    last_number: 1,
    last_reply: REPLY_OF_12,
};

/// Sends a request twice. Both copies reach the adapter, and both replies reach the client.
fn add_twice(alloc: Global, bench: &mut Bench, number: usize) -> Result<(), Fail> {
    let submit = Row::Submit(ADD_1).event(alloc)?;
    let first = number.saturating_mul(2);
    let second = first.saturating_add(1);
    let events = [
        submit,
        Event::Resend,
        Event::Reach(first),
        Event::Reach(second),
        Event::Back(first),
        Event::Back(second),
    ];
    run(bench, &events)
}

/// Sends `count` requests. The reply to each is accepted once.
fn add_many(alloc: Global, bench: &mut Bench, count: usize) -> Result<(), Fail> {
    for number in 0..count {
        add_twice(alloc, bench, number)?;
        if look(bench).accepted.len() != number + 1 {
            return Err(Fail::from("the reply is accepted once"));
        }
    }
    Ok(())
}

/// After 70,000 requests that add 1.
const MANY: Wanted<'static> = Wanted {
    value: 70_000,
    additions: 70_000,
    back: 140_000,
    accepted: 70_000,
    last_number: 69_999,
    last_reply: b"\xb2\0\0\0\x70\x11\x01\0",
};

/// A run at a bench.
#[derive(Clone, Copy)]
enum Work {
    ExactlyOnce,
    ManyRequests,
}

/// Runs it and checks the result.
fn check_run<A: Abort>(rt: &A, alloc: Global, bench: &mut Bench, work: Work) -> Result<(), Fail> {
    match work {
        Work::ExactlyOnce => {
            run_rows(alloc, bench, &EXACTLY_ONCE)?;
            check_seen(rt, bench, &ONCE)
        }
        Work::ManyRequests => {
            add_many(alloc, bench, 70_000)?;
            check_seen(rt, bench, &MANY)
        }
    }
}

/// The same at a new bench, with this limit of the counter.
fn check_bench<A: Abort>(rt: &A, alloc: Global, limit: u32, work: Work) -> Result<(), Fail> {
    let mut bench = bench(alloc, limit)?;
    check_run(rt, alloc, &mut bench, work)
}

/// All events in one call.
#[test]
fn exactly_once_in_one_run(rt: HostRuntime) -> Result<(), Fail> {
    check_bench(&rt, rt.alloc(), 100, Work::ExactlyOnce)
}

/// The count wraps: each request is sent twice and executed once, and its reply is accepted once.
#[test]
fn seventy_thousand_requests(rt: HostRuntime) -> Result<(), Fail> {
    check_bench(&rt, rt.alloc(), 1_000_000, Work::ManyRequests)
}
