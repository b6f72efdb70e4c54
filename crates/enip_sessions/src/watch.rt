//! `enip watch`: reads several attributes of a device again and again.

use crate::line_request::{LineRefusal, read_request};
use crate::watch_table::{JsonText, WatchTable};
use clap::ArgMatches;
use enip_commands::{Readings, Style, show_reply};
use enip_common::{
    ARGUMENTS_REFUSED, ArgumentError, CLOCK, CommandError, ErrorKeeping, NamedReason,
    NumberArgument, OUTPUT, Reason, Timeout, parse_seconds, print_argument_error,
};
use remote_device::{Device, OpenSession, SessionEnd, error_of_failure};
use std::io::{IsTerminal, Write};
use std::thread;
use std::time::{Duration, Instant};

/// The microseconds of a second.
const SECOND: u64 = 1_000_000;

/// An attribute that is watched.
#[derive(Drop)]
struct Watched<'a> {
    /// The argument, as the output names the attribute.
    text: &'a str,
    bytes: Vec<u8>,
    style: Style,
    readings: Readings,
}

/// How often the attributes are read.
#[derive(Clone, Copy)]
struct WatchOptions {
    /// The time from the last reply of a round to the next round.
    interval: Duration,
    /// How many rounds to take.
    count: u64,
}

/// The state of a watch.
struct Watch<'a, 'r> {
    rt: &'r HostRuntime,
    device: Device<'a>,
    options: WatchOptions,
    watched: Vec<Watched<'a>>,
    start: Instant,
    /// The table on a terminal. `None` if each change is a line.
    table: Option<WatchTable>,
    /// How many rounds were taken.
    taken: u64,
}

// Written out, so that each exit of a function that owns one calls it, and has no drop of every part.
impl Drop for Watch<'_, '_> {
    fn drop(self) {
        let Watch {
            rt: _,
            device: _,
            options: _,
            watched: _,
            start: _,
            table: _,
            taken: _,
        } = self;
    }
}

/// `enip watch`.
pub fn run_watch<'a>(rt: &HostRuntime, matches: &ArgMatches<'a>) -> Result<u8, CommandError<'a>> {
    let (device, options) = match options_of(rt, matches) {
        Ok(options) => options,
        Err(error) => return Ok(print_argument_error(rt, error)),
    };
    let watched = match watched_of(rt, matches, device) {
        Ok(watched) => watched,
        Err((_, LineRefusal::Memory)) => return Err(CommandError::of_memory()),
        Err((text, LineRefusal::Text(reason))) => {
            return Ok(refuse_argument(rt, text, reason.as_str()));
        }
    };
    let is_table = rt.stdout().is_terminal() && !device.style.is_json;
    let mut watch = Watch {
        rt,
        device,
        options,
        watched,
        start: Instant::now(rt).map_err(|error| CommandError::of_system(CLOCK, error))?,
        table: if is_table {
            Some(WatchTable::new(rt.alloc()))
        } else {
            None
        },
        taken: 0,
    };
    watch.run()
}

/// The device and the options in the arguments.
fn options_of<'a>(
    rt: &HostRuntime,
    matches: &ArgMatches<'a>,
) -> Result<(Device<'a>, WatchOptions), ArgumentError<'a>> {
    let timeout = Timeout::from_matches(rt, matches)?;
    let options = WatchOptions {
        interval: parse_seconds("every", matches.get_str("every").unwrap_or("1"))?,
        // Without --count there is no end: more rounds than there can be.
        count: NumberArgument::REPLIES.value(matches)?.unwrap_or(u64::MAX),
    };
    Ok((Device::from_matches(matches, timeout)?, options))
}

/// The attributes in the arguments, or the argument that is not a request, and why.
fn watched_of<'a>(
    rt: &HostRuntime,
    matches: &ArgMatches<'a>,
    device: Device<'a>,
) -> Result<Vec<Watched<'a>>, (&'a str, LineRefusal)> {
    let mut watched = Vec::new(rt.alloc());
    for text in matches.get_strs("REQUEST").unwrap_or(&[]) {
        let request = match read_request(rt.alloc(), Some("get"), *text, device.timeout) {
            Ok(Some(request)) => request,
            Ok(None) => return Err((*text, no_request(rt))),
            Err(refusal) => return Err((*text, refusal)),
        };
        let style = Style {
            is_json: device.style.is_json,
            ..request.style
        };
        let pushed = watched.push(Watched {
            text: *text,
            bytes: request.bytes,
            style,
            readings: Readings::new(rt.alloc()),
        });
        if pushed.is_err() {
            return Err((*text, LineRefusal::Memory));
        }
    }
    Ok(watched)
}

/// Why an argument without words is refused.
fn no_request(rt: &HostRuntime) -> LineRefusal {
    match String::from_str(rt.alloc(), "no CLASS and INSTANCE") {
        Ok(text) => LineRefusal::Text(text),
        Err(_) => LineRefusal::Memory,
    }
}

/// Prints why an argument is not a request. Returns the exit status.
fn refuse_argument(rt: &HostRuntime, text: &str, reason: &str) -> u8 {
    let _ = eprintln!(rt;
        "error: invalid value '{text}' for '<REQUEST>': {reason}\n\nFor more information, try '--help'."
    );
    ARGUMENTS_REFUSED
}

impl<'a> Watch<'a, '_> {
    /// Reads the attributes again and again. A device that is lost is tried again.
    fn run(&mut self) -> Result<u8, CommandError<'a>> {
        for _ in 0..u64::MAX {
            match self.run_session() {
                Ok(()) => break,
                Err(end) => end.wait_for_device(self.rt, self.device.timeout)?,
            }
        }
        Ok(0)
    }

    /// Takes rounds in one session, until all were taken.
    fn run_session(&mut self) -> Result<(), SessionEnd<'a>> {
        let stream = self.device.connect(self.rt).map_err(SessionEnd::of)?;
        let mut session = OpenSession::open(self.rt, self.device, &stream)?;
        for _ in 0..u64::MAX {
            self.round(&mut session)?;
            if self.taken >= self.options.count {
                break;
            }
            thread::sleep(self.rt, self.options.interval);
        }
        let _ = session.end();
        Ok(())
    }

    /// Reads each attribute once, and prints what changed.
    fn round(&mut self, session: &mut OpenSession<'a, '_>) -> Result<(), SessionEnd<'a>> {
        for index in 0..self.watched.len() {
            let Some(watched) = self.watched.get(index) else {
                break;
            };
            session.ask(watched.bytes.as_slice())?;
            self.take_reply(index, session.reply())?;
        }
        self.taken = self.taken.saturating_add(1);
        self.print_table()
    }

    /// Prints a reply if it differs from the one before, or keeps its text for the table.
    fn take_reply(&mut self, index: usize, reply: &[u8]) -> Result<(), SessionEnd<'a>> {
        let (rt, address) = (self.rt, self.device.address);
        let microseconds = self.microseconds().map_err(SessionEnd::Fatal)?;
        let Some(watched) = self.watched.get_mut(index) else {
            return Ok(());
        };
        if !watched.readings.is_changed(reply)? {
            return Ok(());
        }
        let mut text = Vec::new(rt.alloc());
        let shown = show_reply(rt.alloc(), &mut text, watched.style, reply);
        if let Err(failure) = shown {
            return Err(SessionEnd::Fatal(error_of_failure(failure, address, None)));
        }
        let value = str::from_utf8(text.as_slice()).unwrap_or("").trim_end();
        if let Some(table) = &mut self.table {
            return Ok(table.set(index, watched.text, value)?);
        }
        let (seconds, rest, name) = (microseconds / SECOND, microseconds % SECOND, watched.text);
        let line = if watched.style.is_json {
            let name = JsonText(name);
            format!(in rt.alloc();
                "{{\"microseconds\":{microseconds},\"reply\":{value},\"request\":\"{name}\"}}\n"
            )?
        } else {
            format!(in rt.alloc(); "{seconds}.{rest:06} {name}: {value}\n")?
        };
        self.print(line.as_str())
    }

    /// Prints the table, if there is one.
    fn print_table(&self) -> Result<(), SessionEnd<'a>> {
        let Some(table) = &self.table else {
            return Ok(());
        };
        let microseconds = self.microseconds().map_err(SessionEnd::Fatal)?;
        let screen = table.screen(self.rt.alloc(), self.device.address, microseconds / SECOND)?;
        self.print(screen.as_str())
    }

    /// Prints a text on standard output.
    fn print(&self, text: &str) -> Result<(), SessionEnd<'a>> {
        let mut output = ErrorKeeping::new(self.rt.stdout());
        match output.write_all(text.as_bytes()) {
            Ok(()) => Ok(()),
            Err(_) => {
                let reason = output
                    .reason(OUTPUT)
                    .unwrap_or(Reason::Named(OUTPUT, NamedReason::Failed));
                Err(SessionEnd::Fatal(CommandError::of_reason(reason)))
            }
        }
    }

    /// The microseconds since the start.
    fn microseconds(&self) -> Result<u64, CommandError<'a>> {
        match self.start.elapsed(self.rt) {
            Ok(elapsed) => Ok(u64::try_from(elapsed.as_micros()).unwrap_or(u64::MAX)),
            Err(error) => Err(CommandError::of_system(CLOCK, error)),
        }
    }
}
