//! `enip get --every`: sends the same request to a device again and again.

use crate::request::print_refusal;
use clap::ArgMatches;
use enip_commands::{Readings, ReplyOutcome, print_reading};
use enip_common::{
    ArgumentError, CLOCK, CommandError, ErrorKeeping, NumberArgument, OUTPUT, parse_seconds,
};
use remote_device::{OpenSession, Request, SessionEnd, error_of_failure};
use std::thread;
use std::time::{Duration, Instant};

/// Our own limit, in seconds: the longest interval within one session. A device may end a session that is silent for
/// longer.
const MAX_SESSION_INTERVAL: u64 = 60;

/// How often the request is sent, and which replies are printed.
#[derive(Clone, Copy)]
pub(crate) struct PollOptions {
    /// The time from a reply to the next request.
    interval: Duration,
    /// How many replies to take.
    count: u64,
    /// Whether to print every reply, and not only those that differ from the one before.
    print_all: bool,
}

impl PollOptions {
    /// The options in the arguments. `None` if the request is to be sent once.
    pub(crate) fn from_matches<'a>(
        matches: &ArgMatches<'a>,
    ) -> Result<Option<PollOptions>, ArgumentError<'a>> {
        let Some(seconds) = matches.get_str("every") else {
            return Ok(None);
        };
        Ok(Some(PollOptions {
            interval: parse_seconds("every", seconds)?,
            // Without --count there is no end: more replies than there can be.
            count: NumberArgument::REPLIES.value(matches)?.unwrap_or(u64::MAX),
            print_all: matches.get_flag("all"),
        }))
    }
}

/// The state of a command that sends its request again and again.
#[derive(Drop)]
struct Poller<'a, 'm, 'r> {
    rt: &'r HostRuntime,
    request: Request<'a, 'm>,
    options: PollOptions,
    /// The bytes of the request.
    bytes: &'r [u8],
    start: Instant,
    readings: Readings,
    /// How many replies were taken.
    taken: u64,
    /// The outcome of the last one.
    last: ReplyOutcome,
}

/// Sends a request again and again, and prints the replies. Returns the exit status of the last one.
pub(crate) fn run_polling<'a>(
    rt: &HostRuntime,
    request: Request<'a, '_>,
    options: PollOptions,
) -> Result<u8, CommandError<'a>> {
    let bytes = request.bytes(rt.alloc())?;
    let mut poller = Poller {
        rt,
        request,
        options,
        bytes: bytes.as_slice(),
        start: Instant::now(rt).map_err(|error| CommandError::of_system(CLOCK, error))?,
        readings: Readings::new(rt.alloc()),
        taken: 0,
        last: ReplyOutcome::Done,
    };
    for _ in 0..u64::MAX {
        match poller.run_session() {
            Ok(()) if poller.taken >= options.count => break,
            Ok(()) => thread::sleep(rt, options.interval),
            Err(end) => end.wait_for_device(rt, request.device.timeout)?,
        }
    }
    Ok(poller.last.exit_status())
}

impl<'a> Poller<'a, '_, '_> {
    /// Sends the request in one session until all replies were taken, or once if the interval is too long for a session.
    fn run_session(&mut self) -> Result<(), SessionEnd<'a>> {
        let device = self.request.device;
        let stream = device.connect(self.rt).map_err(SessionEnd::of)?;
        let mut session = OpenSession::open(self.rt, device, &stream)?;
        for _ in 0..u64::MAX {
            session.ask(self.bytes)?;
            self.take_reply(session.reply())?;
            if self.taken >= self.options.count
                || self.options.interval > Duration::from_secs(MAX_SESSION_INTERVAL)
            {
                break;
            }
            thread::sleep(self.rt, self.options.interval);
        }
        let _ = session.end();
        Ok(())
    }

    /// Counts a reply, and prints it if the options say so.
    fn take_reply(&mut self, reply: &[u8]) -> Result<(), SessionEnd<'a>> {
        self.taken = self.taken.saturating_add(1);
        let is_new = self.readings.is_changed(reply)?;
        if !is_new && !self.options.print_all {
            return Ok(());
        }
        let outcome = self.print_timed(reply).map_err(SessionEnd::Fatal)?;
        if is_new {
            print_refusal(self.rt, self.request.device, outcome);
        }
        self.last = outcome;
        Ok(())
    }

    /// Prints a reply on standard output, with the time since the start.
    fn print_timed(&self, reply: &[u8]) -> Result<ReplyOutcome, CommandError<'a>> {
        if let Some(outcome) = self.request.device.quiet_outcome(reply) {
            return Ok(outcome);
        }
        let moment = self.moment()?;
        let mut output = ErrorKeeping::new(self.rt.stdout());
        let printed = print_reading(
            self.rt.alloc(),
            &mut output,
            self.request.device.style,
            moment,
            reply,
        );
        printed.map_err(|failure| error_of_failure(
            failure,
            self.request.device.address,
            output.reason(OUTPUT),
        ))
    }

    /// The microseconds since the start.
    fn moment(&self) -> Result<u64, CommandError<'a>> {
        match self.start.elapsed(self.rt) {
            Ok(elapsed) => Ok(u64::try_from(elapsed.as_micros()).unwrap_or(u64::MAX)),
            Err(error) => Err(CommandError::of_system(CLOCK, error)),
        }
    }
}
