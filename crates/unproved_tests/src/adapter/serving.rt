//! Serving over readers and writers in memory, some of which fail.

use enip_adapter::{Adapter, Peer, ServeFault, Served};
use enip_wire::{MemorySink, MemorySource, Sink, Source};
use std::alloc::Global;
use std::process::Abort;
use std::test::Fail;
use test_fixtures::adapter::{
    ADD, ADDED, LONG, OPEN, REFUSED, REGISTER, REGISTERED, adapter_with_peer, demo_with_connection,
    free, serves, value,
};

/// The result of each call, with all that was written by then.
type Told<'a> = &'a [(Result<Served, ServeFault>, &'a [u8])];

/// Serves once for each row, and compares the result.
fn check_served<A: Abort>(
    rt: &A,
    adapter: &mut Adapter,
    peer: &Peer,
    reader: &mut MemorySource<'_>,
    writer: &mut MemorySink<'_>,
    expected: Told<'_>,
) {
    for (served, written) in expected {
        assert!(rt; serves(adapter, peer, reader, writer, *served, written));
    }
}

/// Asserts the number of reads, and how many of them failed.
fn check_reads<A: Abort>(rt: &A, reader: &MemorySource<'_>, reads: u64, failures: u64) {
    assert_eq!(rt; (reader.reads(), reader.failures()), (reads, failures));
}

/// Asserts the number of reads, and how many writes failed.
fn check_calls<A: Abort>(
    rt: &A,
    reader: &MemorySource<'_>,
    writer: &MemorySink<'_>,
    reads: u64,
    failures: u64,
) {
    assert_eq!(rt; (reader.reads(), writer.failures()), (reads, failures));
}

/// Two texts, joined.
fn joined(alloc: Global, front: &[u8], back: &[u8]) -> Result<Vec<u8>, Fail> {
    let mut bytes = Vec::from_slice(alloc, front)?;
    bytes.extend_from_slice(back)?;
    Ok(bytes)
}

#[test]
fn more_and_then_the_end(rt: HostRuntime) -> Result<(), Fail> {
    let (mut adapter, peer) = adapter_with_peer(rt.alloc())?;
    let mut reader = MemorySource::new(REGISTER, &[]);
    let mut bytes = [0; 64];
    let mut writer = MemorySink::new(&mut bytes);
    let expected: [(Result<Served, ServeFault>, &[u8]); 2] = [
        (Ok(Served::More), REGISTERED),
        (Ok(Served::Input), REGISTERED),
    ];
    check_served(
        &rt,
        &mut adapter,
        &peer,
        &mut reader,
        &mut writer,
        &expected,
    );
    check_reads(&rt, &reader, 2, 0);
    Ok(())
}

#[test]
fn each_read_has_its_moment(rt: HostRuntime) -> Result<(), Fail> {
    let (mut adapter, peer) = demo_with_connection(rt.alloc())?;
    let input = joined(rt.alloc(), ADD, ADD)?;
    let moments = [0, 20_000_000];
    let mut reader = MemorySource::new(input.as_slice(), &moments).with_largest_size(56);
    let mut bytes = [0; 128];
    let mut writer = MemorySink::new(&mut bytes);
    // by the second read the connection has timed out, so the item gets no answer
    let expected: [(Result<Served, ServeFault>, &[u8]); 2] = [
        (Ok(Served::More), ADDED),
        (Ok(Served::More), ADDED),
    ];
    check_served(
        &rt,
        &mut adapter,
        &peer,
        &mut reader,
        &mut writer,
        &expected,
    );
    assert_eq!(rt; free(&adapter), (8, 16));
    Ok(())
}

/// Serves an addition with a writer that does not fail.
fn check_addition<A: Abort>(rt: &A, adapter: &mut Adapter, peer: &Peer, answer: &[u8]) {
    let mut reader = MemorySource::new(ADD, &[]);
    let mut bytes = [0; 128];
    let mut writer = MemorySink::new(&mut bytes);
    let expected = Ok(Served::More);
    assert!(rt; serves(adapter, peer, &mut reader, &mut writer, expected, answer));
}

/// Serves a RegisterSession and an opening that come in one read, with a writer that takes 10 bytes per call and
/// fails after `calls` calls. Then serves an addition with a writer that does not fail.
fn serve_with_failure_after(
    rt: &impl Abort,
    alloc: Global,
    calls: u64,
    front: &[u8],
    answer: &[u8],
) -> Result<(), Fail> {
    let (mut adapter, peer) = adapter_with_peer(alloc)?;
    let input = joined(alloc, REGISTER, OPEN)?;
    let mut reader = MemorySource::new(input.as_slice(), &[]);
    let mut bytes = [0; 128];
    let mut writer = MemorySink::new(&mut bytes)
        .with_largest_size(10)
        .with_failure_after(calls);
    let expected = Err(ServeFault::Write);
    assert!(rt;
        serves(
            &mut adapter,
            &peer,
            &mut reader,
            &mut writer,
            expected,
            front
        )
    );
    check_calls(rt, &reader, &writer, 1, 1);
    check_addition(rt, &mut adapter, &peer, answer);
    Ok(())
}

#[test]
fn the_writer_fails(rt: HostRuntime) -> Result<(), Fail> {
    // the fourth call is the first of the second answer; the connection is open all the same
    serve_with_failure_after(&rt, rt.alloc(), 3, REGISTERED, ADDED)?;
    // the second call is in the middle of the first answer, and the rest of the read is not fed
    serve_with_failure_after(&rt, rt.alloc(), 1, &REGISTERED[..10], b"")?;
    Ok(())
}

/// Serves the addition with this writer, and asserts the counter's value.
fn check_added<A: Abort>(
    rt: &A,
    adapter: &mut Adapter,
    peer: &Peer,
    writer: &mut MemorySink<'_>,
    expected: Result<Served, ServeFault>,
    written: &[u8],
) -> Result<(), Fail> {
    let mut reader = MemorySource::new(ADD, &[]);
    assert!(rt; serves(adapter, peer, &mut reader, writer, expected, written));
    assert_eq!(rt; value(adapter)?, 5);
    Ok(())
}

#[test]
fn a_reply_that_was_not_written_is_kept(rt: HostRuntime) -> Result<(), Fail> {
    let (mut adapter, peer) = demo_with_connection(rt.alloc())?;
    let mut bytes = [0; 128];
    let mut writer = MemorySink::new(&mut bytes).with_failure_after(0);
    let expected: [(Result<Served, ServeFault>, &[u8]); 2] = [
        (Err(ServeFault::Write), b""),
        (Ok(Served::More), ADDED),
    ];
    for (served, written) in expected {
        check_added(&rt, &mut adapter, &peer, &mut writer, served, written)?;
    }
    Ok(())
}

#[test]
fn the_reader_fails(rt: HostRuntime) -> Result<(), Fail> {
    let (mut adapter, peer) = adapter_with_peer(rt.alloc())?;
    let mut reader = MemorySource::new(REGISTER, &[])
        .with_largest_size(27)
        .with_failure_after(1);
    let mut bytes = [0; 64];
    let mut writer = MemorySink::new(&mut bytes);
    let expected: [(Result<Served, ServeFault>, &[u8]); 2] = [
        (Ok(Served::More), b""),
        (Err(ServeFault::Read), b""),
    ];
    check_served(
        &rt,
        &mut adapter,
        &peer,
        &mut reader,
        &mut writer,
        &expected,
    );
    check_reads(&rt, &reader, 2, 1);
    // what was read before is not lost
    let expected: [(Result<Served, ServeFault>, &[u8]); 1] = [(Ok(Served::More), REGISTERED)];
    check_served(
        &rt,
        &mut adapter,
        &peer,
        &mut reader,
        &mut writer,
        &expected,
    );
    Ok(())
}

/// Asserts that nothing is read from a peer that the adapter does not have.
fn check_not_held<A: Abort>(
    rt: &A,
    adapter: &mut Adapter,
    peer: &Peer,
    writer: &mut MemorySink<'_>,
) {
    let mut reader = MemorySource::new(REGISTER, &[]).with_failure_after(0);
    let expected = Ok(Served::Closed);
    assert!(rt; serves(adapter, peer, &mut reader, writer, expected, REFUSED));
    check_reads(rt, &reader, 0, 0);
}

/// The same for a peer that has ended.
fn check_ended<A: Abort>(rt: &A, adapter: &mut Adapter, peer: Peer, writer: &mut MemorySink<'_>) {
    adapter.end(peer);
    check_not_held(rt, adapter, &peer, writer);
}

#[test]
fn a_closed_peer_is_not_read(rt: HostRuntime) -> Result<(), Fail> {
    let (mut adapter, peer) = adapter_with_peer(rt.alloc())?;
    let input = joined(rt.alloc(), LONG, REGISTER)?;
    let mut reader = MemorySource::new(input.as_slice(), &[]);
    let mut bytes = [0; 64];
    let mut writer = MemorySink::new(&mut bytes);
    // the answer is written before the peer closes, and the rest of the read is not fed; nothing more is read from a
    // peer that is closed or has ended
    for _ in 0..2 {
        let expected = Ok(Served::Closed);
        assert!(rt;
            serves(
                &mut adapter,
                &peer,
                &mut reader,
                &mut writer,
                expected,
                REFUSED
            )
        );
        check_calls(&rt, &reader, &writer, 1, 0);
    }
    check_ended(&rt, &mut adapter, peer, &mut writer);
    Ok(())
}

#[test]
fn faults_have_numbers(rt: HostRuntime) -> Result<(), Fail> {
    assert_eq!(rt; ServeFault::Read.number(), 1);
    assert_eq!(rt; ServeFault::Write.number(), 2);
    Ok(())
}
