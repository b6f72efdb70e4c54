//! `enip serve --log`: a line for each connection that begins or ends, and for each frame.

use crate::frame_summary::{AnswerStatus, RequestSummary};
use crate::log_event::{LogClock, LogEvent, LogLine, LogStyle, LogTime};
use crate::logged_wire::LoggedWire;
use device_sockets::{Observer, OwnerEvent, OwnerLog, TurnedAway};
use enip_wire::{Held, parse_frame};
use mio::net::TcpStream;
use std::alloc::Global;
use std::net::SocketAddr;
use std::rt::Clock;
use std::time::{Instant, UNIX_EPOCH};

/// A log on standard error. Its times count from `start`, or are those of the day.
#[derive(Drop)]
pub struct FrameLog<'a, R> {
    rt: &'a R,
    alloc: Global,
    start: Instant,
    style: LogStyle,
    clock: LogClock,
}

impl<'a, R: Eprint + Clock> FrameLog<'a, R> {
    /// A log of the events from now on.
    pub fn new(
        rt: &'a R,
        alloc: Global,
        start: Instant,
        style: LogStyle,
        clock: LogClock,
    ) -> FrameLog<'a, R> {
        FrameLog {
            rt,
            alloc,
            start,
            style,
            clock,
        }
    }

    /// Writes a line about a client. A line that cannot be written is dropped.
    pub(crate) fn write(&self, address: SocketAddr, event: LogEvent) {
        let elapsed = match self.clock {
            LogClock::Start => self.start.elapsed(self.rt),
            LogClock::Utc => UNIX_EPOCH.elapsed(self.rt),
        };
        let Ok(elapsed) = elapsed else {
            return;
        };
        let line = LogLine {
            style: self.style,
            time: LogTime {
                clock: self.clock,
                microseconds: u64::try_from(elapsed.as_micros()).unwrap_or(u64::MAX),
            },
            address,
            event,
        };
        if let Ok(text) = format!(in self.alloc; "{line}") {
            let _ = self.rt.eprint(text.as_str());
        }
    }
}

impl<'a, R: Eprint + Clock> OwnerLog for &'a FrameLog<'a, R> {
    fn owner(&self, address: SocketAddr, event: OwnerEvent) {
        self.write(address, LogEvent::Owner(event));
    }
}

impl<'a, R: Eprint + Clock> Observer for &'a FrameLog<'a, R> {
    type Wire = LoggedWire<'a, R>;

    type OwnerLog = &'a FrameLog<'a, R>;

    fn owner_log(&self) -> &'a FrameLog<'a, R> {
        *self
    }

    fn wire(&self, stream: TcpStream, _address: SocketAddr) -> Option<LoggedWire<'a, R>> {
        LoggedWire::new(*self, self.alloc, stream)
    }

    fn turned_away(&mut self, _now: u64, address: SocketAddr, why: TurnedAway) {
        self.write(address, LogEvent::TurnedAway(why));
    }

    fn next_report(&self) -> Option<u64> {
        None
    }

    fn report(&mut self, _now: u64) {}

    fn answered(&self, sender: SocketAddr, datagram: &[u8], answer: &[u8]) {
        if let (Held::Frame(request), Held::Frame(answer)) = (
            parse_frame(datagram),
            parse_frame(answer),
        ) {
            let (request, status) = (RequestSummary::of(request), AnswerStatus::of(answer));
            self.write(sender, LogEvent::Datagram(request, status));
        }
    }
}
