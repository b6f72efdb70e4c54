//! Exchanges of `enip get`, `set` and `call`: what is sent, what the device answers, and what is printed.

use cip_message::Path;
use enip_commands::DeviceRequest;

/// A RegisterSession with context 1, its answer, and an UnRegisterSession, which has no context.
pub(super) const REGISTER: &[u8] =
    b"\x65\0\x04\0\0\0\0\0\0\0\0\0\x01\0\0\0\0\0\0\0\0\0\0\0\x01\0\0\0";

pub(super) const REGISTERED: &[u8] =
    b"\x65\0\x04\0\x01\0\0\0\0\0\0\0\x01\0\0\0\0\0\0\0\0\0\0\0\x01\0\0\0";

pub(super) const UNREGISTER: &[u8] = b"\x66\0\0\0\x01\0\0\0\0\0\0\0\0\0\0\0\0\0\0\0\0\0\0\0";

/// A request for the vendor with context 2.
pub(super) const GET_SENT: &[u8] = b"\x6f\0\x18\0\x01\0\0\0\0\0\0\0\x02\0\0\0\0\0\0\0\0\0\0\0\
    \0\0\0\0\0\0\x02\0\0\0\0\0\xb2\0\x08\0\x0e\x03\x20\x01\x24\x01\x30\x01";

/// A Forward_Open with context 2, and the router reply: O->T ID 1.
pub(super) const OPEN: &[u8] = b"\x6f\0\x3e\0\x01\0\0\0\0\0\0\0\x02\0\0\0\0\0\0\0\0\0\0\0\
    \0\0\0\0\0\0\x02\0\0\0\0\0\xb2\0\x2e\0\
    \x54\x02\x20\x06\x24\x01\x0a\x0e\0\0\0\0\x44\x33\x22\x11\x01\0\x42\0\x78\x56\x34\x12\0\0\0\0\
    \x80\x84\x1e\0\xf4\x43\x80\x84\x1e\0\xf4\x43\xa3\x02\x20\x02\x24\x01";

pub(super) const OPENED: &[u8] = b"\xd4\0\0\0\x01\0\0\0\x44\x33\x22\x11\
    \x01\0\x42\0\x78\x56\x34\x12\x80\x84\x1e\0\x80\x84\x1e\0\0\0";

/// The counter's Add of 5 on connection 1 with count 1.
pub(super) const ADD_SENT: &[u8] = b"\x70\0\x20\0\x01\0\0\0\0\0\0\0\0\0\0\0\0\0\0\0\0\0\0\0\
    \0\0\0\0\0\0\x02\0\xa1\0\x04\0\x01\0\0\0\xb1\0\x0c\0\x01\0\x32\x02\x20\x64\x24\x01\x05\0\0\0";

/// A Forward_Close with context 3, and the router reply.
pub(super) const CLOSE: &[u8] = b"\x6f\0\x26\0\x01\0\0\0\0\0\0\0\x03\0\0\0\0\0\0\0\0\0\0\0\
    \0\0\0\0\0\0\x02\0\0\0\0\0\xb2\0\x16\0\
    \x4e\x02\x20\x06\x24\x01\x0a\x0e\x01\0\x42\0\x78\x56\x34\x12\x02\0\x20\x02\x24\x01";

pub(super) const CLOSED: &[u8] = b"\xce\0\0\0\x01\0\x42\0\x78\x56\x34\x12\0\0";

pub(super) const VENDOR: DeviceRequest<'static> = DeviceRequest {
    service: 0x0e,
    path: Path {
        class: 1,
        instance: 1,
        attribute: Some(1),
        member: None,
    },
    digits: "",
};

pub(super) const ADD: DeviceRequest<'static> = DeviceRequest {
    service: 0x32,
    path: Path {
        class: 0x64,
        instance: 1,
        attribute: None,
        member: None,
    },
    digits: "05 000000",
};

/// What a device answers: these bytes; a SendRRData in session 1 with this context and router reply; or a
/// SendUnitData in session 1 with T->O ID 0x11223344 and this item, a count and a router reply.
#[derive(Clone, Copy)]
pub(super) enum Answer<'a> {
    Bytes(&'a [u8]),
    Reply(u8, &'a [u8]),
    Item(&'a [u8]),
}

/// A request, what the device answers, how many bytes it takes, and the result. If `sent` is `None`, what is sent is
/// not checked.
#[derive(Clone, Copy)]
pub(super) struct Asked<'a> {
    pub(super) name: &'static str,
    pub(super) question: DeviceRequest<'a>,
    pub(super) connected: bool,
    pub(super) answers: &'a [Answer<'a>],
    pub(super) room: usize,
    pub(super) status: u8,
    pub(super) output: &'a str,
    pub(super) errors: &'a str,
    pub(super) sent: Option<&'a [&'a [u8]]>,
}

/// A request for the vendor without a connection.
pub(super) const GET: Asked<'static> = Asked {
    name: "the frames of a get",
    question: VENDOR,
    connected: false,
    answers: &[
        Answer::Bytes(REGISTERED),
        Answer::Reply(2, b"\x8e\0\0\0\x34\x12"),
    ],
    room: 1_000,
    status: 0,
    output: "3412\n",
    errors: "",
    sent: Some(&[REGISTER, GET_SENT, UNREGISTER]),
};

/// The counter's Add on a connection.
pub(super) const CALL: Asked<'static> = Asked {
    name: "the value after an addition",
    question: ADD,
    connected: true,
    answers: &[
        Answer::Bytes(REGISTERED),
        Answer::Reply(2, OPENED),
        Answer::Item(b"\x01\0\xb2\0\0\0\x05\0\0\0"),
        Answer::Reply(3, CLOSED),
    ],
    room: 1_000,
    status: 0,
    output: "05000000\n",
    errors: "",
    sent: Some(&[REGISTER, OPEN, ADD_SENT, CLOSE, UNREGISTER]),
};

/// Replies without a connection.
pub(super) static REPLIES: [Asked<'static>; 8] = [
    GET,
    Asked {
        name: "no data",
        answers: &[Answer::Bytes(REGISTERED), Answer::Reply(2, b"\x8e\0\0\0")],
        output: "ok\n",
        sent: None,
        ..GET
    },
    Asked {
        name: "a status",
        answers: &[Answer::Bytes(REGISTERED), Answer::Reply(2, b"\x8e\0\x05\0")],
        status: 6,
        output: "refused 0x05\n",
        sent: None,
        ..GET
    },
    Asked {
        name: "a status with a word",
        answers: &[
            Answer::Bytes(REGISTERED),
            Answer::Reply(2, b"\x8e\0\x01\x01\x15\x03"),
        ],
        status: 6,
        output: "refused 0x01 0x0315\n",
        sent: None,
        ..GET
    },
    Asked {
        name: "two words, the first of them 0",
        answers: &[
            Answer::Bytes(REGISTERED),
            Answer::Reply(2, b"\x8e\0\x01\x02\0\0\x15\x03"),
        ],
        status: 6,
        output: "refused 0x01\n",
        sent: None,
        ..GET
    },
    Asked {
        name: "data behind a status",
        answers: &[
            Answer::Bytes(REGISTERED),
            Answer::Reply(2, b"\x8e\0\x0a\0\x01\0"),
        ],
        status: 6,
        output: "refused 0x0a\n",
        sent: None,
        ..GET
    },
    Asked {
        name: "data behind a word",
        answers: &[
            Answer::Bytes(REGISTERED),
            Answer::Reply(2, b"\x8e\0\0\x01\x01\0\xab"),
        ],
        output: "ab\n",
        sent: None,
        ..GET
    },
    Asked {
        name: "additional words that go past the end",
        answers: &[Answer::Bytes(REGISTERED), Answer::Reply(2, b"\x8e\0\0\x01")],
        status: 7,
        output: "",
        errors: "fault 6\n",
        sent: None,
        ..GET
    },
];

/// Replies on a connection.
pub(super) static ITEMS: [Asked<'static>; 5] = [
    CALL,
    Asked {
        name: "no data",
        answers: &[
            Answer::Bytes(REGISTERED),
            Answer::Reply(2, OPENED),
            Answer::Item(b"\x01\0\xb2\0\0\0"),
            Answer::Reply(3, CLOSED),
        ],
        output: "ok\n",
        ..CALL
    },
    Asked {
        name: "a status",
        answers: &[
            Answer::Bytes(REGISTERED),
            Answer::Reply(2, OPENED),
            Answer::Item(b"\x01\0\xb2\0\x20\0"),
            Answer::Reply(3, CLOSED),
        ],
        status: 6,
        output: "refused 0x20\n",
        ..CALL
    },
    Asked {
        name: "a status with a word",
        answers: &[
            Answer::Bytes(REGISTERED),
            Answer::Reply(2, OPENED),
            Answer::Item(b"\x01\0\xb2\0\x01\x01\x09\x01"),
            Answer::Reply(3, CLOSED),
        ],
        status: 6,
        output: "refused 0x01 0x0109\n",
        ..CALL
    },
    Asked {
        name: "words that go past the end",
        answers: &[
            Answer::Bytes(REGISTERED),
            Answer::Reply(2, OPENED),
            Answer::Item(b"\x01\0\xb2\0\0\x05"),
            Answer::Reply(3, CLOSED),
        ],
        status: 7,
        output: "",
        errors: "fault 6\n",
        ..CALL
    },
];

/// Connections whose open or close is refused.
pub(super) static REFUSED: [Asked<'static>; 3] = [
    Asked {
        name: "there is one with these numbers",
        answers: &[
            Answer::Bytes(REGISTERED),
            Answer::Reply(2, b"\xd4\0\x01\x01\0\x01\x01\0\x42\0\x78\x56\x34\x12\0\0"),
            Answer::Item(b"\x01\0\xb2\0\0\0\x05\0\0\0"),
            Answer::Reply(3, b""),
        ],
        status: 6,
        output: "refused 0x01 0x0100\n",
        sent: None,
        ..CALL
    },
    Asked {
        name: "there is no free slot",
        answers: &[
            Answer::Bytes(REGISTERED),
            Answer::Reply(2, b"\xd4\0\x08\0"),
            Answer::Item(b"\x01\0\xb2\0\0\0\x05\0\0\0"),
            Answer::Reply(3, b""),
        ],
        status: 6,
        output: "refused 0x08\n",
        sent: None,
        ..CALL
    },
    Asked {
        name: "there is none to be closed",
        answers: &[
            Answer::Bytes(REGISTERED),
            Answer::Reply(2, OPENED),
            Answer::Item(b"\x01\0\xb2\0\0\0\x05\0\0\0"),
            Answer::Reply(3, b"\xce\0\x01\x01\x07\x01\x01\0\x42\0\x78\x56\x34\x12\0\0"),
        ],
        status: 6,
        output: "refused 0x01 0x0107\n",
        sent: None,
        ..CALL
    },
];

/// Exchanges that fail, with and without a connection.
pub(super) static FAILING: [Asked<'static>; 8] = [
    Asked {
        name: "the input ends at once",
        answers: &[Answer::Bytes(b"")],
        status: 5,
        output: "",
        errors: "device\n",
        sent: None,
        ..CALL
    },
    Asked {
        name: "the input ends within a frame",
        answers: &[Answer::Bytes(b"\x65\0\x04")],
        status: 5,
        output: "",
        errors: "device\n",
        sent: None,
        ..CALL
    },
    Asked {
        name: "the input ends instead of the reply",
        answers: &[Answer::Bytes(REGISTERED)],
        status: 5,
        output: "",
        errors: "device\n",
        sent: None,
        ..CALL
    },
    Asked {
        name: "the device takes no byte",
        answers: &[Answer::Bytes(REGISTERED)],
        room: 0,
        status: 5,
        output: "",
        errors: "device\n",
        sent: None,
        ..CALL
    },
    Asked {
        name: "the device does not take all",
        answers: &[Answer::Bytes(REGISTERED)],
        room: 40,
        status: 5,
        output: "",
        errors: "device\n",
        sent: None,
        ..CALL
    },
    Asked {
        name: "an encapsulation status",
        answers: &[Answer::Bytes(
            b"\x65\0\x04\0\0\0\0\0\x69\0\0\0\x01\0\0\0\0\0\0\0\0\0\0\0\x01\0\0\0",
        )],
        status: 7,
        output: "",
        errors: "fault 2\n",
        sent: None,
        ..CALL
    },
    Asked {
        name: "a frame that is too long",
        answers: &[Answer::Bytes(b"\x65\0\xe8\xff\0\0\0\0\0\0\0\0\x01\0\0\0\0\0\0\0\0\0\0\0")],
        status: 7,
        output: "",
        errors: "fault 4\n",
        sent: None,
        ..CALL
    },
    Asked {
        name: "a session with no data",
        answers: &[Answer::Bytes(b"\x65\0\0\0\x01\0\0\0\0\0\0\0\x01\0\0\0\0\0\0\0\0\0\0\0")],
        status: 7,
        output: "",
        errors: "fault 6\n",
        sent: None,
        ..CALL
    },
];

/// Data that are not hexadecimal: nothing is sent.
pub(super) const NO_DIGITS: [&str; 4] = ["0g", "012", "0x01", "-"];

/// Numbers of bytes of data, with and without a connection. A request has at most 504 bytes, or 498 on a connection;
/// 6 of them precede the data.
pub(super) const LENGTHS: [(usize, bool, u8, &str); 4] = [
    (498, false, 5, "device\n"),
    (499, false, 7, "fault 7\n"),
    (492, true, 5, "device\n"),
    (493, true, 7, "fault 7\n"),
];
