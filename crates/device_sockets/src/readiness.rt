//! When to try a socket that gives one connection or datagram after another.

ghost use Rattle.std.specs.Prelude.{◌≡◌, ◌↔◌, IsTrue};
ghost use Rattle.std.specs.IoError.{error_kind};
ghost use Rattle.device_sockets.specs.Readiness as spec;

use std::io;
use std::io::ErrorKind;

/// How long a socket is left alone after an error, in microseconds: a second.
const RETRY_DELAY: u64 = 1_000_000;

/// When a socket is tried next. Times are in microseconds.
#[derive(Clone, Copy)]
pub enum Readiness {
    /// At once: it may have more.
    Ready,
    /// When the system reports it: it has nothing now.
    Blocked,
    /// At this time: it has something that it could not give, for example for lack of descriptors.
    RetryAt(u64),
}

impl Readiness {
    /// The readiness of a socket after an error.
    pub fn after_error(error: &io::Error, now: u64) -> Readiness
        ensures { result ≡ spec.after_error (error_kind error.now) now }
    {
        match error.kind() {
            ErrorKind::WouldBlock => Readiness::Blocked,
            ErrorKind::Interrupted | ErrorKind::ConnectionAborted => Readiness::Ready,
            _ => Readiness::RetryAt(now.saturating_add(RETRY_DELAY)),
        }
    }

    /// The readiness once the system reports the socket as readable. A delay after an error goes on.
    pub fn on_readable(self) -> Readiness
        ensures { result ≡ spec.on_readable self }
    {
        match self {
            Readiness::Ready | Readiness::Blocked => Readiness::Ready,
            Readiness::RetryAt(time) => Readiness::RetryAt(time),
        }
    }

    /// The readiness once a descriptor is free that the socket may have lacked.
    pub fn on_descriptor_freed(self) -> Readiness
        ensures { result ≡ spec.on_descriptor_freed self }
    {
        match self {
            Readiness::Blocked => Readiness::Blocked,
            Readiness::Ready | Readiness::RetryAt(_) => Readiness::Ready,
        }
    }

    /// The time of the next try, unless the system reports the socket earlier. A socket that is ready has time 0.
    pub fn next_try(self) -> Option<u64>
        ensures { result ≡ spec.next_try self }
    {
        match self {
            Readiness::Ready => Some(0),
            Readiness::Blocked => None,
            Readiness::RetryAt(time) => Some(time),
        }
    }

    /// Whether to try the socket now.
    pub fn is_due(self, now: u64) -> bool
        ensures { IsTrue result ↔ spec.IsDue now self }
    {
        match self.next_try() {
            Some(time) => time <= now,
            None => false,
        }
    }
}
