//! `replay` over writers that fail.

use super::demo::demo_adapter;
use super::streams::{BrokenWriter, FullWriter};
use enip_commands::ProgramFault;
use enip_replay::{ReplayFailure, replay};
use std::alloc::Global;
use std::io::Write;
use std::test::Fail;

/// What is printed at the end if nothing was executed.
const UNTOUCHED: &str = "counter 0 100 0\nassembly 100 00000000\nclient idle\n";

/// Runs a script of one line with the demo device. Returns why it ended early, if it did.
fn ending<W: Write>(alloc: Global, output: &mut W) -> Result<Option<ReplayFailure>, Fail> {
    let adapter = demo_adapter(alloc)?;
    Ok(replay(alloc, adapter, b"resend\n", output).err())
}

#[test]
fn a_writer_that_fails(rt: HostRuntime) -> Result<(), Fail> {
    for room in [0, 1, 10, UNTOUCHED.len() + 11] {
        let mut written = Vec::new(rt.alloc());
        let mut output = BrokenWriter {
            text: &mut written,
            room,
        };
        let ended = ending(rt.alloc(), &mut output)?;
        drop(output);
        assert_eq!(rt;
            ended,
            Some(ReplayFailure::Program(ProgramFault::Device)),
            "{room}"
        );
        assert_eq!(rt; written.len(), room);
    }
    Ok(())
}

#[test]
fn output_that_does_not_leave(rt: HostRuntime) -> Result<(), Fail> {
    // the flush after the lines were read, the one before the final state, or the one after it
    for flushes in [0, 1, 2] {
        let mut output = FullWriter { flushes };
        let ended = ending(rt.alloc(), &mut output)?;
        assert_eq!(rt;
            ended,
            Some(ReplayFailure::Program(ProgramFault::Device)),
            "{flushes}"
        );
    }
    Ok(())
}

#[test]
fn why_no_bench_is_made(rt: HostRuntime) -> Result<(), Fail> {
    let rows = [
        (ReplayFailure::Program(ProgramFault::Memory), 5, "memory"),
        (ReplayFailure::Setup, 6, "setup"),
    ];
    for (stop, status, text) in rows {
        assert_eq!(rt; stop.exit_status(), status);
        assert_eq!(rt; stop.to_string(rt.alloc())?.as_str(), text);
    }
    Ok(())
}
