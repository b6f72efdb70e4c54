//! Why a session ends in which requests are sent again and again.

use crate::failure::SessionFailure;
use enip_common::{CLOCK, CommandError, NamedReason, Reason, Timeout, print_reason};
use std::alloc::AllocError;
use std::thread;
use std::time::Duration;

/// The seconds before a lost device is tried again, if the timeout has no limit.
const RECONNECT_DELAY: u64 = 5;

/// Why a session ends before all replies were taken.
#[derive(Drop)]
pub enum SessionEnd<'a> {
    /// The device is lost, and may return.
    DeviceLost(Reason<'a>),
    /// The command fails.
    Fatal(CommandError<'a>),
}

impl From<AllocError> for SessionEnd<'_> {
    fn from(_error: AllocError) -> Self {
        SessionEnd::Fatal(CommandError::of_memory())
    }
}

impl<'a> From<SessionFailure<'a>> for SessionEnd<'a> {
    fn from(failure: SessionFailure<'a>) -> SessionEnd<'a> {
        SessionEnd::of(CommandError::from(failure))
    }
}

impl<'a> SessionEnd<'a> {
    /// The end of a session by the error that a single request would end with. It is fatal if memory was refused, or if
    /// another session would fail for the same reason. After any other error the device is tried again.
    pub fn of(error: CommandError<'a>) -> SessionEnd<'a> {
        match error.into_reason() {
            Reason::Memory => SessionEnd::Fatal(CommandError::of_memory()),
            reason if is_lasting(&reason) => SessionEnd::Fatal(CommandError::of_reason(reason)),
            reason => SessionEnd::DeviceLost(reason),
        }
    }

    /// Reports that the device is lost, and waits until it is tried again.
    ///
    /// # Errors
    ///
    /// The error of the command, if it fails.
    pub fn wait_for_device(
        self,
        rt: &HostRuntime,
        timeout: Timeout<'_>,
    ) -> Result<(), CommandError<'a>> {
        match self {
            SessionEnd::DeviceLost(reason) => {
                print_reason(rt, &reason);
                thread::sleep(rt, pause_after_loss(timeout));
                Ok(())
            }
            SessionEnd::Fatal(error) => Err(error),
        }
    }
}

/// Whether another session fails for the same reason: the deadline is over, the address is malformed, or the clock failed.
fn is_lasting(reason: &Reason<'_>) -> bool {
    match reason {
        Reason::DeadlineOver(..) | Reason::Named(_, NamedReason::NotAnAddress) => true,
        Reason::System(name, _) => *name == CLOCK,
        _ => false,
    }
}

/// How long to wait before a lost device is tried again.
fn pause_after_loss(timeout: Timeout<'_>) -> Duration {
    timeout
        .limit()
        .unwrap_or(Duration::from_secs(RECONNECT_DELAY))
}
