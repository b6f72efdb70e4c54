//! General statuses with their numbers, as the log prints them.

use cip_bytes::StatusText;
use std::fmt;

/// A general status as the log prints it: its number, the first additional status word if it is not 0, and the
/// standard's name, such as `0x05 path destination unknown`.
#[derive(Clone, Copy, Debug)]
pub(crate) struct NumberedStatus(pub(crate) StatusText);

impl fmt::Display for NumberedStatus {
    fn fmt<W: fmt::Write>(&self, f: &mut fmt::Formatter<W>) -> fmt::Result {
        let StatusText { status, extended } = self.0;
        let text = self.0;
        match extended {
            0 => write!(f, "{status:#04x} {text}"),
            _ => write!(f, "{status:#04x} {extended:#06x} {text}"),
        }
    }
}
