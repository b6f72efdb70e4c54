//! Why a router did not pass a request on.

ghost use Rattle.std.specs.Prelude.{◌≡◌};
ghost use Rattle.cip_route.specs.Failure.{failure_number, failure_of};

use cip_bytes::protocol::GeneralStatus;
use thiserror::Error;

/// Why a router did not pass a request on: the extended status of a reply with general status 0x01. (Volume 1,
/// Connection Manager.)
///
/// ```
/// let failure = RouteFailure::of(0x01, 0x0311); // the router has no such port
/// ```
#[derive(Clone, Copy, Debug, PartialEq, Eq, Error)]
pub enum RouteFailure {
    /// The next node did not answer in time.
    #[error("a router on the route got no answer in time")]
    TimedOut = 0x0204,
    /// The port of a hop is not available.
    #[error("the router has no such port")]
    Port = 0x0311,
    /// The link address of a hop is not valid.
    #[error("the router has no such link address")]
    Link = 0x0312,
    /// A segment of the path is invalid.
    #[error("the router does not accept a segment of the path")]
    Segment = 0x0315,
}

impl RouteFailure {
    /// The failure with these statuses, if there is one.
    pub fn of(status: u8, extended: u16) -> Option<RouteFailure>
        ensures { result ≡ failure_of status extended }
    {
        if status != GeneralStatus::ConnectionFailure.number() {
            return None;
        }
        match extended {
            0x0204 => Some(RouteFailure::TimedOut),
            0x0311 => Some(RouteFailure::Port),
            0x0312 => Some(RouteFailure::Link),
            0x0315 => Some(RouteFailure::Segment),
            _ => None,
        }
    }

    /// The failure's extended status.
    pub fn number(self) -> u16
        ensures { result ≡ failure_number self }
    {
        self as u16
    }
}
