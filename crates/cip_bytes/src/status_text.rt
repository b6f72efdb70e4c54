//! The text of the statuses with which a device refuses a request.

use crate::protocol::{ExtendedStatus, GeneralStatus};
use std::fmt;

/// The general statuses that this adapter also sends.
static GENERAL: [GeneralStatus; 15] = [
    GeneralStatus::Success,
    GeneralStatus::ConnectionFailure,
    GeneralStatus::PathSegmentError,
    GeneralStatus::PathDestinationUnknown,
    GeneralStatus::ServiceNotSupported,
    GeneralStatus::InvalidAttributeValue,
    GeneralStatus::AttributeListError,
    GeneralStatus::AttributeNotSettable,
    GeneralStatus::ReplyDataTooLarge,
    GeneralStatus::NotEnoughData,
    GeneralStatus::AttributeNotSupported,
    GeneralStatus::TooMuchData,
    GeneralStatus::InvalidParameter,
    GeneralStatus::PathSizeInvalid,
    GeneralStatus::InvalidMemberId,
];

/// The extended statuses of a refused connection that this adapter also sends.
static EXTENDED: [ExtendedStatus; 12] = [
    ExtendedStatus::DoubleOpen,
    ExtendedStatus::Transport,
    ExtendedStatus::ConnectionNotFound,
    ExtendedStatus::ConnectionParameter,
    ExtendedStatus::ConnectionSize,
    ExtendedStatus::Rpi,
    ExtendedStatus::OutOfConnections,
    ExtendedStatus::VendorOrProduct,
    ExtendedStatus::DeviceType,
    ExtendedStatus::Revision,
    ExtendedStatus::ApplicationPath,
    ExtendedStatus::PathSegment,
];

/// A general status and its first additional status word. `Display` prints the standard's name for them. (Volume 1,
/// general status codes.)
///
/// ```
/// let refused = StatusText { status: 0x05, extended: 0 };
/// let text = format!(in alloc; "{refused}")?; // path destination unknown
/// ```
#[derive(Clone, Copy, Debug)]
pub struct StatusText {
    /// The general status.
    pub status: u8,
    /// The first additional status word, or 0.
    pub extended: u16,
}

impl fmt::Display for StatusText {
    fn fmt<W: fmt::Write>(&self, f: &mut fmt::Formatter<W>) -> fmt::Result {
        write_general(f, self.status)?;
        if self.status != GeneralStatus::ConnectionFailure.number() {
            return Ok(());
        }
        match EXTENDED
            .iter()
            .find(|known| known.number() == self.extended)
        {
            Some(known) => write!(f, ": {known}"),
            None => Ok(()),
        }
    }
}

/// Writes the name of a general status, or its number if the standard does not name it.
fn write_general<W: fmt::Write>(f: &mut fmt::Formatter<W>, status: u8) -> fmt::Result {
    if let Some(known) = GENERAL.iter().find(|known| known.number() == status) {
        return write!(f, "{known}");
    }
    match other_text(status) {
        Some(words) => f.write_str(words),
        None => write!(f, "general status {status:#04x}"),
    }
}

/// The text of a general status that this adapter never sends. (Volume 1, general status codes.)
fn other_text(status: u8) -> Option<&'static str> {
    Some(match status {
        0x02 => "resource unavailable",
        0x03 => "invalid parameter value",
        0x06 => "partial transfer",
        0x07 => "connection lost",
        0x0b => "already in requested mode or state",
        0x0c => "object state conflict",
        0x0d => "object already exists",
        0x0f => "privilege violation",
        0x10 => "device state conflict",
        0x12 => "fragmentation of a primitive value",
        0x16 => "object does not exist",
        0x17 => "service fragmentation sequence not in progress",
        0x18 => "no stored attribute data",
        0x19 => "store operation failure",
        0x1a => "routing failure, request packet too large",
        0x1b => "routing failure, response packet too large",
        0x1c => "missing attribute list entry data",
        0x1d => "invalid attribute value list",
        0x1e => "embedded service error",
        0x1f => "vendor specific error",
        0x21 => "write-once value or medium already written",
        0x22 => "invalid reply received",
        0x25 => "key failure in path",
        0x27 => "unexpected attribute in list",
        0x29 => "member not settable",
        _ => return None,
    })
}
