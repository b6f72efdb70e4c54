//! Why a device is not served any longer.

use enip_keep::KeepError;
use std::io;

/// Why a device is not served any longer.
#[derive(Clone, Copy, Debug)]
pub enum ServeFault {
    /// A socket, the clock or memory failed.
    System(io::Error),
    /// What a round has changed could not be kept.
    Keep(KeepError),
}

impl From<io::Error> for ServeFault {
    fn from(error: io::Error) -> ServeFault {
        ServeFault::System(error)
    }
}
