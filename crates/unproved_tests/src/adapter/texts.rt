//! The texts of the errors of `enip_adapter`.

use crate::texts::check_texts;
use enip_adapter::{Full, NoReplyReason, ServeFault};
use enip_wire::CpfFault;
use std::test::Fail;

#[test]
fn of_enip_adapter(rt: HostRuntime) -> Result<(), Fail> {
    let full = [
        (Full::Places, "all peer slots are taken"),
        (Full::Handles, "no session handle is left"),
        (Full::Share, "all peer slots of this group are taken"),
    ];
    let serving = [
        (ServeFault::Read, "the reader failed"),
        (ServeFault::Write, "the writer failed"),
    ];
    check_texts(&rt, rt.alloc(), &full)?;
    check_texts(&rt, rt.alloc(), &serving)
}

#[test]
fn why_a_frame_has_no_answer(rt: HostRuntime) -> Result<(), Fail> {
    let rows = [
        (NoReplyReason::NoFrame, "no whole frame has arrived"),
        (NoReplyReason::Options, "the options are not 0"),
        (NoReplyReason::Status, "the status is not 0"),
        (NoReplyReason::Nop, "a NOP has no answer"),
        (
            NoReplyReason::AnotherSession,
            "the session is not the one that the peer registered",
        ),
        (
            NoReplyReason::NotAPacket(CpfFault::Trailing),
            "not a packet: bytes follow the last item",
        ),
        (
            NoReplyReason::NotTaken,
            "no such connection, or an item that it does not accept",
        ),
        (NoReplyReason::Unregistered, "the session is unregistered"),
        (
            NoReplyReason::NotServed,
            "the peer is closed or has no slot",
        ),
    ];
    check_texts(&rt, rt.alloc(), &rows)
}
