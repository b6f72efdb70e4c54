//! The lines between a device and its owner (`enip_owner`). The expected texts were written by hand from docs/PROGRAM.md.

mod events;
mod handed_over;
mod requests;
mod streams;
mod values;

use crate::texts::check_texts;
use enip_owner::{EventFault, OwnerFault, RequestKey, ValuesFault, is_token};
use std::test::Fail;

/// The reason for each refusal, as in an `error` line.
#[test]
fn texts_of_refusals(rt: HostRuntime) -> Result<(), Fail> {
    let rows = [
        (OwnerFault::NotJson, "not JSON"),
        (OwnerFault::DoubledKey, "an object has a key twice"),
        (
            OwnerFault::NotRequest,
            "expected an object with one key: done, answer, write, read, status or state",
        ),
        (
            OwnerFault::NotObject(RequestKey::Done),
            "done: expected an object",
        ),
        (
            OwnerFault::UnknownKey(RequestKey::Write),
            "write: unknown key",
        ),
        (
            OwnerFault::Missing(RequestKey::Ticket),
            "missing key: ticket",
        ),
        (
            OwnerFault::NotNumber(RequestKey::Class),
            "class: expected a number",
        ),
        (
            OwnerFault::OutOfRange(RequestKey::Instance),
            "instance: number out of range",
        ),
        (
            OwnerFault::NotHexadecimal,
            "data: expected a string of hexadecimal digits, two per byte",
        ),
        (OwnerFault::TooManyBytes, "data: too many bytes"),
        (OwnerFault::TwoContents, "write: both data and values"),
        (
            OwnerFault::NotValues,
            "values: expected a list of numbers, strings, true and false",
        ),
        (OwnerFault::Memory, "out of memory"),
    ];
    check_texts(&rt, rt.alloc(), &rows)
}

#[test]
fn texts_of_other_faults(rt: HostRuntime) -> Result<(), Fail> {
    let values = [
        (ValuesFault::Count, "values: expected one value"),
        (
            ValuesFault::Kind,
            "values: a value of another kind than the attribute's type",
        ),
        (
            ValuesFault::Range,
            "values: not a value of the attribute's type",
        ),
        (ValuesFault::Memory, "out of memory"),
    ];
    check_texts(&rt, rt.alloc(), &values)?;
    let events = [
        (EventFault::TooLong, "line too long"),
        (EventFault::Memory, "out of memory"),
    ];
    check_texts(&rt, rt.alloc(), &events)
}

/// First lines, a token, and whether the line is the token.
static TOKENS: [(&str, &str, bool); 9] = [
    ("3f9a01", "3f9a01", true),
    ("3f9a00", "3f9a01", false),
    ("2f9a01", "3f9a01", false),
    ("3f9a0", "3f9a01", false),
    ("3f9a011", "3f9a01", false),
    ("3f9a013f9a01", "3f9a01", false),
    ("", "3f9a01", false),
    ("", "", true),
    ("3", "", false),
];

#[test]
fn tokens(rt: HostRuntime) -> Result<(), Fail> {
    for (line, token, same) in &TOKENS {
        assert!(rt;
            is_token(line.as_bytes(), token.as_bytes()) == *same,
            "{line} and {token}"
        );
    }
    Ok(())
}
