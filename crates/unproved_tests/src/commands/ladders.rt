//! The pictures that `draw_replay` draws.

use super::demo::demo_adapter;
use super::streams::BrokenWriter;
use enip_commands::{LineFault, ProgramFault};
use enip_replay::{ReplayFailure, draw_replay};
use std::alloc::Global;
use std::test::Fail;

/// What is printed at the end if nothing was executed.
const UNTOUCHED: &str = "counter 0 100 0\nassembly 100 00000000\nclient idle\n";

/// The first line.
const HEAD: &str = "          client                    wire                    adapter\n";

/// The last line.
const SAME: &str = "same result as in a world without sequence counts or kept replies\n";

/// Draws a script with the demo device.
fn drawn(alloc: Global, script: &str) -> Result<String, Fail> {
    let adapter = demo_adapter(alloc)?;
    let mut written = Vec::new(alloc);
    match draw_replay(alloc, adapter, script.as_bytes(), &mut written) {
        Ok(()) => Ok(String::from_utf8_lossy(alloc, written.as_slice())?),
        Err(_) => Err(Fail::from("a ladder")),
    }
}

#[test]
fn a_lost_reply_and_a_repeat(rt: HostRuntime) -> Result<(), Fail> {
    let text = drawn(
        rt.alloc(),
        "submit 32022064240105000000\nreach 0\nresend\nreach 1\nback 1\n",
    )?;
    let lines = [
        "submit  0    |-1: 3202206424.. ---->   0                       |",
        "             |                         0 -1: 3202206424.. ---->| executes 0",
        "             |                         0 x-1: b200000005.. ----|",
        "resend  0    |-1: 3202206424.. ---->   1                       |",
        "             |                         1 -1: 3202206424.. ---->| repeat of 0",
        "             |                         1 <-1: b200000005.. ----|",
        "accepts 0    |<-1: b200000005.. ----   1                       |",
        "counter 5 100 1",
        "assembly 100 00000000",
        "client idle",
    ];
    let mut drawn = text.as_str().lines();
    assert_eq!(rt; drawn.next(), HEAD.lines().next());
    for line in lines {
        assert_eq!(rt; drawn.next(), Some(line));
    }
    assert_eq!(rt; drawn.next(), SAME.lines().next());
    assert_eq!(rt; drawn.next(), None);
    Ok(())
}

#[test]
fn what_moves_no_frame(rt: HostRuntime) -> Result<(), Fail> {
    let rows = [
        (
            "resend",
            "             | resend none                                     |\n",
        ),
        (
            "submit 32",
            "             | submit refused 3                                |\n",
        ),
        (
            "reach 0",
            "             |                            reach 0 impossible   |\n",
        ),
        (
            "back 7",
            "             | back 7 impossible                               |\n",
        ),
        (
            "giveup",
            "             | giveup                                          |\n",
        ),
        (
            "shut",
            "             |                            shut                 |\n",
        ),
        (
            "owner 255 0a 00",
            "             |                            owner 255            |\n",
        ),
    ];
    for (script, line) in rows {
        let text = drawn(rt.alloc(), script)?;
        let want = format!(in rt.alloc(); "{HEAD}{line}{UNTOUCHED}{SAME}")?;
        assert_eq!(rt; text.as_str(), want.as_str());
    }
    Ok(())
}

#[test]
fn what_is_lost_or_ignored(rt: HostRuntime) -> Result<(), Fail> {
    let text = drawn(
        rt.alloc(),
        "submit 0e03200124013001\ngiveup\nsubmit 3202206424010700000000000000\nshut\nreach 1\n",
    )?;
    let lines = [
        "submit  0    |-1: 0e03200124.. ----x   0                       |",
        "             | giveup                                          |",
        "submit  1    |-2: 3202206424.. ---->   1                       |",
        "             |                            shut                 |",
        "             |                         1 -2: 3202206424.. ---->| no connection",
    ];
    let mut drawn = text.as_str().lines().skip(1);
    for line in lines {
        assert_eq!(rt; drawn.next(), Some(line));
    }
    Ok(())
}

#[test]
fn a_line_that_is_refused(rt: HostRuntime) -> Result<(), Fail> {
    let rows = [
        ("reach x", LineFault::Reach),
        ("owner", LineFault::Script),
        ("owner 17 00", LineFault::Owner),
        ("owner 256", LineFault::Owner),
        ("owner 0 0", LineFault::Owner),
        ("owner  0", LineFault::Owner),
    ];
    let line = "             | giveup                                          |\n";
    let want = format!(in rt.alloc(); "{HEAD}{line}")?;
    for (refused, fault) in rows {
        let adapter = demo_adapter(rt.alloc())?;
        let script = format!(in rt.alloc(); "giveup\n{refused}\n")?;
        let mut written = Vec::new(rt.alloc());
        let ended = draw_replay(rt.alloc(), adapter, script.as_bytes(), &mut written);
        assert_eq!(rt;
            ended,
            Err(ReplayFailure::Program(ProgramFault::Line(2, fault))),
            "{refused}"
        );
        assert_eq!(rt; written.as_slice(), want.as_bytes());
    }
    Ok(())
}

#[test]
fn a_writer_that_fails(rt: HostRuntime) -> Result<(), Fail> {
    for room in [0, 1, HEAD.len() + 1] {
        let mut written = Vec::new(rt.alloc());
        let mut output = BrokenWriter {
            text: &mut written,
            room,
        };
        let adapter = demo_adapter(rt.alloc())?;
        let ended = draw_replay(rt.alloc(), adapter, b"resend\n", &mut output);
        drop(output);
        assert_eq!(rt;
            ended,
            Err(ReplayFailure::Program(ProgramFault::Device)),
            "{room}"
        );
        assert_eq!(rt; written.len(), room);
    }
    Ok(())
}
