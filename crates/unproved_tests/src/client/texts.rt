//! The texts of the errors of `enip_client`.

use crate::texts::check_texts;
use cip_class3::Refused;
use enip_client::{AskFault, ClientFault, SubmitFault};
use std::test::Fail;

#[test]
fn of_enip_client(rt: HostRuntime) -> Result<(), Fail> {
    let client = [
        (ClientFault::State, "the call is not possible now"),
        (
            ClientFault::Status(0x0a65),
            "an awaited reply has encapsulation status 0x00000a65",
        ),
        (
            ClientFault::Refused(0x0c, 0x0b2a),
            "an open or a close was refused: general status 0x0c, extended status 0x0b2a",
        ),
        (ClientFault::TooLong, "a frame is longer than 65,535 bytes"),
        (ClientFault::Memory, "out of memory"),
        (ClientFault::Malformed, "an awaited reply is malformed"),
        (
            ClientFault::Request,
            "not an unconnected request: 2 to 504 bytes, and a service below 0x80",
        ),
    ];
    let submitting = [
        (
            SubmitFault::Client(ClientFault::State),
            "the call is not possible now",
        ),
        (
            SubmitFault::Refused(Refused::Busy),
            "another request is waiting for its reply",
        ),
    ];
    let asking = [
        (AskFault::Read, "the reader failed"),
        (AskFault::Write, "the writer failed"),
        (
            AskFault::Ended,
            "the input ended before the exchange was complete",
        ),
        (AskFault::Client(ClientFault::Memory), "out of memory"),
        (AskFault::Submit(Refused::GivenUp), "a request was given up"),
        (AskFault::Spent, "the reader cannot count another read"),
    ];
    check_texts(&rt, rt.alloc(), &client)?;
    check_texts(&rt, rt.alloc(), &submitting)?;
    check_texts(&rt, rt.alloc(), &asking)
}
