//! The file of `--once`: its text, and the fault of each text that is none.

use super::streams::BrokenWriter;
use cip_commander::Commander;
use enip_commands::{CommandFileFault, read_commander, write_commander};
use std::alloc::Global;
use std::process::Abort;
use std::test::Fail;

/// A file with a pending command: Add of 5 to the counter.
pub(super) const PENDING: &[u8] =
    b"enip commands 1\noriginator 0123456789abcdef\nlife 1764187443000000\n\
    number 12\npending 32022064240105000000\n";

/// A file without one.
const NONE_PENDING: &[u8] =
    b"enip commands 1\noriginator 00000000000000ff\nlife 1\nnumber 0\npending none\n";

/// Add of 5 to the counter: service 0x32, class 0x64, instance 1.
pub(super) const ADD: &[u8] = b"\x32\x02\x20\x64\x24\x01\x05\0\0\0";

/// The text of a commander.
pub(super) fn text_of(alloc: Global, commander: &Commander) -> Result<Vec<u8>, Fail> {
    let mut text = Vec::new(alloc);
    write_commander(&mut text, commander)?;
    Ok(text)
}

/// The commander in a text that is one.
pub(super) fn commander_in(text: &[u8]) -> Result<Commander, Fail> {
    match read_commander(text) {
        Ok(commander) => Ok(commander),
        Err(_) => Err(Fail::from("not a commander")),
    }
}

/// The fault of a text that is none.
fn fault_in(text: &[u8]) -> Option<CommandFileFault> {
    read_commander(text).err()
}

#[test]
fn values_of_a_file(rt: HostRuntime) -> Result<(), Fail> {
    let commander = commander_in(PENDING)?;
    assert_eq!(rt; commander.originator(), 0x0123_4567_89ab_cdef);
    assert_eq!(rt; commander.life(), 1_764_187_443_000_000);
    assert_eq!(rt; commander.last_number(), 12);
    assert_eq!(rt; commander.pending_request(), Some(ADD));
    let commander = commander_in(NONE_PENDING)?;
    assert_eq!(rt; commander.originator(), 255);
    assert_eq!(rt; commander.life(), 1);
    assert_eq!(rt; commander.last_number(), 0);
    assert_eq!(rt; commander.pending_request(), None);
    Ok(())
}

/// The least and the greatest values: the longest request has 478 bytes.
#[test]
fn ends_of_the_values(rt: HostRuntime) -> Result<(), Fail> {
    let alloc = rt.alloc();
    let commander = commander_in(
        b"enip commands 1\noriginator ffffffffffffffff\nlife 18446744073709551615\n\
        number 4294967295\npending 0000\n",
    )?;
    assert_eq!(rt; commander.originator(), u64::MAX);
    assert_eq!(rt; commander.life(), u64::MAX);
    assert_eq!(rt; commander.last_number(), u32::MAX);
    assert_eq!(rt; commander.pending_request(), Some([0, 0].as_slice()));
    let longest = vec![in alloc; 0x7fu8; 478]?;
    let commander = Commander::resume(0, 0, 0, Some(longest.as_slice()))?;
    let text = text_of(alloc, &commander)?;
    let again = commander_in(text.as_slice())?;
    assert_eq!(rt; again.life(), 0);
    assert_eq!(rt; again.pending_request(), Some(longest.as_slice()));
    Ok(())
}

/// What was written is read again, and written in the same way.
#[test]
fn texts_that_are_written(rt: HostRuntime) -> Result<(), Fail> {
    let alloc = rt.alloc();
    for text in [PENDING, NONE_PENDING] {
        assert_eq!(rt; text_of(alloc, &commander_in(text)?)?.as_slice(), text);
    }
    let mut commander = Commander::new(1_764_187_443_000_000, 0x0123_4567_89ab_cdef, 11);
    commander.command(ADD)?;
    assert_eq!(rt; text_of(alloc, &commander)?.as_slice(), PENDING);
    assert!(rt; commander.abandon());
    let text = text_of(alloc, &commander)?;
    assert!(rt; text.as_slice().ends_with(b"number 12\npending none\n"));
    Ok(())
}

/// Each front of a text is refused, with the fault of the line in which it ends.
#[test]
fn texts_that_were_cut(rt: HostRuntime) -> Result<(), Fail> {
    // The lines end after 16, 44, 66, 76 and 107 bytes.
    assert_eq!(rt; PENDING.len(), 105);
    for size in 0..PENDING.len() {
        let fault = match size {
            0..16 => CommandFileFault::Head,
            16..44 => CommandFileFault::Originator,
            44..66 => CommandFileFault::Life,
            66..76 => CommandFileFault::Number,
            _ => CommandFileFault::Pending,
        };
        assert_eq!(rt; fault_in(&PENDING[..size]), Some(fault), "{size}");
    }
    Ok(())
}

/// A text and its fault.
type Row<'a> = (&'a [u8], CommandFileFault);

fn check_faults<A: Abort>(rt: &A, rows: &[Row<'_>]) {
    for (number, (text, fault)) in rows.iter().enumerate() {
        assert_eq!(rt; fault_in(text), Some(*fault), "row {number}");
    }
}

/// Faults of the first two lines.
#[test]
fn faults_of_heads_and_originators(rt: HostRuntime) {
    let rows: [Row<'_>; 13] = [
        (b"", CommandFileFault::Head),
        (b"\n", CommandFileFault::Head),
        (b"enip commands 2\n", CommandFileFault::Head),
        (b"enip commands 10\n", CommandFileFault::Head),
        (b"enip commands 1\r\n", CommandFileFault::Head),
        (b" enip commands 1\n", CommandFileFault::Head),
        (b"enip commands 1\n\n", CommandFileFault::Originator),
        (b"enip commands 1\nlife 1\n", CommandFileFault::Originator),
        // 15 and 17 digits, an upper-case one, one that is none, and a second space
        (
            b"enip commands 1\noriginator 0123456789abcde\n",
            CommandFileFault::Originator,
        ),
        (
            b"enip commands 1\noriginator 0123456789abcdef0\n",
            CommandFileFault::Originator,
        ),
        (
            b"enip commands 1\noriginator 0123456789abcdeF\n",
            CommandFileFault::Originator,
        ),
        (
            b"enip commands 1\noriginator 0123456789abcdeg\n",
            CommandFileFault::Originator,
        ),
        (
            b"enip commands 1\noriginator  0123456789abcdef\n",
            CommandFileFault::Originator,
        ),
    ];
    check_faults(&rt, &rows);
}

/// The faults of a text whose first two lines are sound.
fn check_faults_after_originator<A: Abort>(
    rt: &A,
    alloc: Global,
    rows: &[Row<'_>],
) -> Result<(), Fail> {
    for (number, (rest, fault)) in rows.iter().enumerate() {
        let mut text = Vec::from_slice(alloc, &PENDING[..44])?;
        text.extend_from_slice(rest)?;
        assert_eq!(rt; fault_in(text.as_slice()), Some(*fault), "row {number}");
    }
    Ok(())
}

/// Faults of the numbers: none, a leading zero, a sign, one too many, another line.
#[test]
fn faults_of_lives_and_numbers(rt: HostRuntime) -> Result<(), Fail> {
    let rows: [Row<'_>; 14] = [
        (b"life \n", CommandFileFault::Life),
        (b"life 01\n", CommandFileFault::Life),
        (b"life 00\n", CommandFileFault::Life),
        (b"life +1\n", CommandFileFault::Life),
        (b"life 1 \n", CommandFileFault::Life),
        (b"life 18446744073709551616\n", CommandFileFault::Life),
        (b"number 1\n", CommandFileFault::Life),
        (b"life 0\nnumber \n", CommandFileFault::Number),
        (b"life 0\nnumber 01\n", CommandFileFault::Number),
        (b"life 0\nnumber -1\n", CommandFileFault::Number),
        (b"life 0\nnumber 1x\n", CommandFileFault::Number),
        (b"life 0\nnumber 4294967296\n", CommandFileFault::Number),
        (b"life 0\npending none\n", CommandFileFault::Number),
        (b"life 0\nnumber 0\n", CommandFileFault::Pending),
    ];
    check_faults_after_originator(&rt, rt.alloc(), &rows)
}

/// Faults of the pending request, and of what follows it.
#[test]
fn faults_of_requests_and_ends(rt: HostRuntime) -> Result<(), Fail> {
    let rows: [Row<'_>; 12] = [
        (b"life 0\nnumber 0\npending\n", CommandFileFault::Pending),
        (b"life 0\nnumber 0\npending \n", CommandFileFault::Pending),
        (
            b"life 0\nnumber 0\npending nones\n",
            CommandFileFault::Pending,
        ),
        // under 2 bytes, an odd digit, an upper-case one, a service with bit 7
        (b"life 0\nnumber 0\npending 32\n", CommandFileFault::Pending),
        (
            b"life 0\nnumber 0\npending 32022\n",
            CommandFileFault::Pending,
        ),
        (
            b"life 0\nnumber 0\npending 320A\n",
            CommandFileFault::Pending,
        ),
        (
            b"life 0\nnumber 0\npending 8002\n",
            CommandFileFault::Pending,
        ),
        (b"life 0\nnumber 0\npending none", CommandFileFault::Pending),
        (
            b"life 0\nnumber 0\npending none\r\n",
            CommandFileFault::Pending,
        ),
        (b"life 0\nnumber 0\npending none\n\n", CommandFileFault::End),
        (b"life 0\nnumber 0\npending none\nx", CommandFileFault::End),
        (
            b"life 0\nnumber 0\npending 3202\npending 3202\n",
            CommandFileFault::End,
        ),
    ];
    check_faults_after_originator(&rt, rt.alloc(), &rows)
}

/// A request of 479 bytes is one too long for a command.
#[test]
fn request_that_is_too_long(rt: HostRuntime) -> Result<(), Fail> {
    let mut text = Vec::from_slice(rt.alloc(), &PENDING[..76])?;
    text.extend_from_slice(b"pending ")?;
    for _ in 0..479 {
        text.extend_from_slice(b"32")?;
    }
    text.push(b'\n')?;
    assert_eq!(rt; fault_in(text.as_slice()), Some(CommandFileFault::Pending));
    Ok(())
}

#[test]
fn lines_of_the_faults(rt: HostRuntime) -> Result<(), Fail> {
    let rows = [
        (CommandFileFault::Head, "1: expected `enip commands 1`"),
        (
            CommandFileFault::Originator,
            "2: expected `originator` and 16 lower-case hexadecimal digits",
        ),
        (
            CommandFileFault::Life,
            "3: expected `life` and 0 to 18446744073709551615",
        ),
        (
            CommandFileFault::Number,
            "4: expected `number` and 0 to 4294967295",
        ),
        (
            CommandFileFault::Pending,
            "5: expected `pending none`, or `pending` and a request in lower-case hexadecimal digits",
        ),
        (CommandFileFault::End, "6: expected the end of the file"),
    ];
    for (fault, text) in rows {
        assert_eq!(rt;
            format!(in rt.alloc(); "{}: {fault}", fault.line())?.as_str(),
            text
        );
    }
    Ok(())
}

/// A writer that is full after any number of bytes makes the write fail.
#[test]
fn outputs_that_fail(rt: HostRuntime) -> Result<(), Fail> {
    let alloc = rt.alloc();
    let commander = commander_in(PENDING)?;
    for room in 0..PENDING.len() {
        let mut text = Vec::new(alloc);
        let written = write_commander(
            &mut BrokenWriter {
                text: &mut text,
                room,
            },
            &commander,
        );
        assert!(rt; written.is_err(), "{room}");
        assert_eq!(rt; text.as_slice(), &PENDING[..room]);
    }
    Ok(())
}
