//! The state of a bench after an allocation is refused.

use crate::same::check_same;
use cip_class3::Stage;
use enip_adapter::Adapter;
use enip_bench::{Bench, BenchFault, Event, Seen};
use enip_client::Client;
use std::alloc::Global;
use std::process::Abort;
use std::test::Fail;
use test_fixtures::bench::{
    ADD_5, ADD_7, CLEAR, LIMITS, LISTEN, Row, WANTS, all_done, bench, counter, demo, look,
};

/// A lost request, a request of the second session, and the end of the connection.
const EVENTS: &[Row] = &[
    Row::Submit(ADD_5),
    Row::Resend,
    Row::Reach(0),
    Row::Reach(1),
    Row::Other(CLEAR),
    Row::Back(0),
    Row::Submit(ADD_7),
    Row::Reach(2),
    Row::Back(1),
    Row::Back(2),
    Row::Shut,
    Row::GiveUp,
];

/// Appends these events to a list.
fn add_events(alloc: Global, events: &mut Vec<Event>) -> Result<(), Fail> {
    for row in EVENTS {
        events.push(row.event(alloc)?)?;
    }
    Ok(())
}

/// How many frames were sent back before each event, and how many replies were accepted.
const BACK_BEFORE: [usize; 12] = [0, 0, 0, 1, 2, 2, 2, 2, 3, 3, 3, 3];

const ACCEPTED_BEFORE: [usize; 12] = [0, 0, 0, 0, 0, 0, 1, 1, 1, 1, 2, 2];

/// Whether the bench is in the state before this event.
fn is_as_before(bench: &Bench, position: usize) -> bool {
    let seen = look(bench);
    BACK_BEFORE.get(position) == Some(&seen.back.len())
        && ACCEPTED_BEFORE.get(position) == Some(&seen.accepted.len())
}

/// Runs the events. If an allocation is refused, runs the rest a second time.
fn run_all(bench: &mut Bench, events: &[Event]) -> Result<(), Fail> {
    let Err((position, _)) = all_done(bench, events) else {
        return Ok(());
    };
    if !is_as_before(bench, position) {
        return Err(Fail::from("exactly the events before it have happened"));
    }
    let rest = events.get(position..).ok_or("it is one of them")?;
    match all_done(bench, rest) {
        Ok(()) => Ok(()),
        Err(_) => Err(Fail::from("the rest is run")),
    }
}

/// A bench. If an allocation is refused, it is made again.
fn made(alloc: Global) -> Result<Bench, Fail> {
    let adapter = Adapter::new(alloc, demo(alloc, 100)?, LISTEN, LIMITS)?;
    let Ok(client) = Client::new(alloc, &WANTS) else {
        return Err(Fail::from("the client is made"));
    };
    match Bench::new(alloc, adapter, client) {
        Ok(bench) => Ok(bench),
        Err(BenchFault::Memory) => bench(alloc, 100),
        Err(BenchFault::Setup) => Err(Fail::from("the ends open")),
    }
}

/// Asserts what is seen at the end.
fn check_seen<A: Abort>(rt: &A, seen: Seen<'_>) {
    check_same(rt, seen.stage, Stage::Idle);
    check_same(rt, seen.back.len(), 3);
    check_same(rt, seen.accepted.len(), 2);
}

/// Asserts the counter's value and its number of additions at the end.
fn check_counter<A: Abort>(rt: &A, bench: &Bench) -> Result<(), Fail> {
    check_same(rt, counter(bench, 1)?, 7);
    check_same(rt, counter(bench, 3)?, 2);
    Ok(())
}

/// Runs the events and checks the result.
fn check_run<A: Abort>(rt: &A, bench: &mut Bench, events: &[Event]) -> Result<(), Fail> {
    run_all(bench, events)?;
    check_counter(rt, bench)?;
    check_seen(rt, look(bench));
    Ok(())
}

/// The same with a new bench.
fn check_events<A: Abort>(rt: &A, alloc: Global, events: &[Event]) -> Result<(), Fail> {
    let mut bench = made(alloc)?;
    check_run(rt, &mut bench, events)
}

/// Whichever allocation of `new` and `run` is refused, exactly the events before it have happened, and the rest can
/// be run afterwards. `tests/memory` refuses each in turn.
#[test]
fn events_before_a_refused_growth(rt: HostRuntime) -> Result<(), Fail> {
    let mut events = Vec::new(rt.alloc());
    add_events(rt.alloc(), &mut events)?;
    check_events(&rt, rt.alloc(), events.as_slice())
}
