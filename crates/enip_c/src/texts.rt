//! The texts of the numbers in `enip.h`.

ghost use Rattle.std.specs.Prelude.{◌≤◌, length};

use crate::buffer::copy_front;
use crate::status::Status;
use arrayvec::ArrayString;
use cip_bytes::StatusText;
use cip_bytes::protocol::GeneralStatus;
use enip_adapter::NoReplyReason;
use saved_adapter::RestoreFault;
use saved_state::StateFault;
use std::fmt::{self, Write};

/// The longest text, in bytes.
const LONGEST_TEXT: usize = 160;

/// A buffer for a text.
type Words = ArrayString<LONGEST_TEXT>;

/// The kind of a number.
#[derive(Clone, Copy)]
enum Kind {
    Call,
    NoReplyReason,
    General,
    Extended,
    Ending,
}

impl Kind {
    /// The kind with this number in `enip.h`.
    fn of(number: u32) -> Option<Kind> {
        Some(match number {
            0 => Kind::Call,
            1 => Kind::NoReplyReason,
            2 => Kind::General,
            3 => Kind::Extended,
            4 => Kind::Ending,
            _ => return None,
        })
    }
}

/// The statuses of calls, in the order of their numbers.
static STATUSES: [Status; 22] = [
    Status::Done,
    Status::Misuse,
    Status::Room,
    Status::Memory,
    Status::Configuration,
    Status::Places,
    Status::Handles,
    Status::Absent,
    Status::State,
    Status::Failed,
    Status::Refused,
    Status::TooLong,
    Status::Malformed,
    Status::Request,
    Status::Waiting,
    Status::LongRequest,
    Status::GivenUp,
    Status::Abandoned,
    Status::Wants,
    Status::Numbers,
    Status::SavedState,
    Status::Share,
];

/// Writes the text of a number of this kind. Returns its length, 0 if there is none or it does not fit.
#[unsafe(no_mangle)]
pub extern "C" fn enip_core_status_text(kind: u32, number: u32, buffer: &mut [u8]) -> usize
    ensures { result ≤ length buffer.new }
{
    let Some(kind) = Kind::of(kind) else {
        return 0;
    };
    let mut words = Words::new();
    if write_text(kind, number, &mut words).is_err() || words.as_str().len() > buffer.len() {
        return 0;
    }
    copy_front(words.as_str().as_bytes(), buffer)
}

/// Writes why a saved state is refused, by the number of the check, and by the version of the state if that is why.
/// Returns the length of the text, 0 if there is none or it does not fit.
#[unsafe(no_mangle)]
pub extern "C" fn enip_core_state_text(number: u32, version: u32, buffer: &mut [u8]) -> usize
    ensures { result ≤ length buffer.new }
{
    let Some(fault) = restore_fault(number, version) else {
        return 0;
    };
    let mut words = Words::new();
    if write!(words, "{fault}").is_err() || words.as_str().len() > buffer.len() {
        return 0;
    }
    copy_front(words.as_str().as_bytes(), buffer)
}

/// The check with this number.
fn restore_fault(number: u32, version: u32) -> Option<RestoreFault> {
    Some(match number {
        1 => RestoreFault::Malformed(StateFault::NotAState),
        2 => RestoreFault::Malformed(StateFault::Cut),
        3 => RestoreFault::Malformed(StateFault::Version(version)),
        4 => RestoreFault::Malformed(StateFault::TooLong),
        5 => RestoreFault::Malformed(StateFault::Checksum),
        6 => RestoreFault::Malformed(StateFault::Layout),
        7 => RestoreFault::Malformed(StateFault::Order),
        8 => RestoreFault::OtherDevice,
        13 => RestoreFault::Order,
        _ => return None,
    })
}

/// Writes the text of a number, if it has one.
fn write_text(kind: Kind, number: u32, words: &mut Words) -> fmt::Result {
    match kind {
        Kind::Call => write_status(number, words),
        Kind::NoReplyReason => write_silence(number, words),
        Kind::General => write_general(number, words),
        Kind::Extended => write_extended(number, words),
        Kind::Ending => words.write_str(ending_text(number)),
    }
}

fn write_status(number: u32, words: &mut Words) -> fmt::Result {
    match STATUSES.iter().find(|status| status.number() == number) {
        Some(status) => write!(words, "{status}"),
        None => Ok(()),
    }
}

fn write_silence(number: u32, words: &mut Words) -> fmt::Result {
    let why = match number {
        1 => NoReplyReason::NoFrame,
        2 => NoReplyReason::Options,
        3 => NoReplyReason::Status,
        4 => NoReplyReason::Nop,
        5 => NoReplyReason::AnotherSession,
        // The number does not say which fault it is.
        6 => return words.write_str("the data are malformed"),
        7 => NoReplyReason::NotTaken,
        8 => NoReplyReason::Unregistered,
        9 => NoReplyReason::NotServed,
        _ => return Ok(()),
    };
    write!(words, "{why}")
}

fn write_general(number: u32, words: &mut Words) -> fmt::Result {
    match u8::try_from(number) {
        Ok(status) => write!(
            words,
            "{}",
            StatusText {
                status,
                extended: 0
            }
        ),
        Err(_) => Ok(()),
    }
}

fn write_extended(number: u32, words: &mut Words) -> fmt::Result {
    let status = GeneralStatus::ConnectionFailure.number();
    match u16::try_from(number) {
        Ok(extended) => write!(words, "{}", StatusText { status, extended }),
        Err(_) => Ok(()),
    }
}

/// Why a connection ended; an empty text for an unknown number.
fn ending_text(number: u32) -> &'static str {
    match number {
        1 => "no item came in time",
        2 => "its peer was removed",
        3 => "its session ended",
        4 => "its originator closed it",
        _ => "",
    }
}
