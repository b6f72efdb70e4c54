//! What the log prints of a served device: its events, as text or as JSON.

use crate::frame_summary::{AnswerStatus, RequestSummary};
use cip_values::Date;
use device_sockets::{OwnerEvent, TurnedAway};
use std::fmt;
use std::net::SocketAddr;

/// Why a connection ended.
#[derive(Clone, Copy)]
pub(crate) enum EndCause {
    /// The client closed it.
    Client,
    /// The client unregistered its session.
    Unregistered,
    /// The header of a frame has a length over the limit.
    TooLong,
    /// The device closed it for another reason.
    Device,
    /// A read or a write failed.
    Failed,
    /// The client sent nothing for the time of `--idle`, or it had no session and gave its slot to another client, or
    /// the device stopped.
    Silent,
}

impl fmt::Display for EndCause {
    fn fmt<W: fmt::Write>(&self, f: &mut fmt::Formatter<W>) -> fmt::Result {
        let text = match self {
            EndCause::Client => "closed by the client",
            EndCause::Unregistered => "session unregistered",
            EndCause::TooLong => "frame too long",
            EndCause::Device => "closed by the device",
            EndCause::Failed => "connection failed",
            EndCause::Silent => "silent for too long",
        };
        write!(f, "{text}")
    }
}

/// The members of a connection that is closed at once.
fn write_turned_away<W: fmt::Write>(f: &mut fmt::Formatter<W>, why: TurnedAway) -> fmt::Result {
    match why {
        TurnedAway::NoSlot => write!(f, "\"event\":\"turned away\""),
        TurnedAway::Share => write!(f, "\"cause\":\"share\",\"event\":\"turned away\""),
        TurnedAway::NotListed => write!(f, "\"event\":\"refused\""),
    }
}

/// Writes the members of an event of an owner.
fn write_owner<W: fmt::Write>(f: &mut fmt::Formatter<W>, event: OwnerEvent) -> fmt::Result {
    match event {
        OwnerEvent::Connected => write!(f, "\"event\":\"owner connected\""),
        OwnerEvent::Disconnected(cause) => {
            write!(f, "\"cause\":\"{cause}\",\"event\":\"owner disconnected\"")
        }
        OwnerEvent::Refused(cause) => write!(
            f,
            "\"cause\":\"{cause}\",\"event\":\"owner refused\""
        ),
    }
}

/// An event of a served device.
#[derive(Clone, Copy)]
pub(crate) enum LogEvent {
    /// A client has connected.
    Connected,
    /// A connection has ended.
    Disconnected(EndCause),
    /// A connection was closed at once.
    TurnedAway(TurnedAway),
    /// A frame was answered.
    Answered(RequestSummary, AnswerStatus),
    /// A frame was answered with the reply that was kept: it repeats the request before it on its connection.
    Repeated(RequestSummary, AnswerStatus),
    /// A frame was not answered.
    Unanswered(RequestSummary),
    /// A datagram was answered.
    Datagram(RequestSummary, AnswerStatus),
    /// Something happened to the connection of an owner.
    Owner(OwnerEvent),
}

impl fmt::Display for LogEvent {
    fn fmt<W: fmt::Write>(&self, f: &mut fmt::Formatter<W>) -> fmt::Result {
        match self {
            LogEvent::Connected => write!(f, "connected"),
            LogEvent::Disconnected(cause) => write!(f, "disconnected: {cause}"),
            LogEvent::TurnedAway(why) => write!(f, "{why}"),
            LogEvent::Answered(request, status) => write!(f, "{request}: {status}"),
            LogEvent::Repeated(request, status) => write!(f, "{request}: {status} (kept reply)"),
            LogEvent::Unanswered(request) => write!(f, "{request}: no answer"),
            LogEvent::Datagram(request, status) => write!(f, "datagram {request}: {status}"),
            LogEvent::Owner(event) => write!(f, "{event}"),
        }
    }
}

/// An event as the members of a JSON object, in the order of their names, after `address`.
#[derive(Clone, Copy)]
pub(crate) struct JsonMembers(pub(crate) LogEvent);

impl fmt::Display for JsonMembers {
    fn fmt<W: fmt::Write>(&self, f: &mut fmt::Formatter<W>) -> fmt::Result {
        match self.0 {
            LogEvent::Connected => write!(f, "\"event\":\"connected\""),
            LogEvent::Disconnected(cause) => {
                write!(f, "\"cause\":\"{cause}\",\"event\":\"disconnected\"")
            }
            LogEvent::TurnedAway(why) => write_turned_away(f, why),
            LogEvent::Answered(request, status) => write_frame(f, "frame", request, Some(status)),
            LogEvent::Repeated(request, status) => write_frame(f, "repeat", request, Some(status)),
            LogEvent::Unanswered(request) => write_frame(f, "frame", request, None),
            LogEvent::Datagram(request, status) => {
                write_frame(f, "datagram", request, Some(status))
            }
            LogEvent::Owner(event) => write_owner(f, event),
        }
    }
}

/// Writes the members of a frame, which has a status if it was answered.
fn write_frame<W: fmt::Write>(
    f: &mut fmt::Formatter<W>,
    event: &str,
    request: RequestSummary,
    status: Option<AnswerStatus>,
) -> fmt::Result {
    if let Some(class) = request.class() {
        write!(f, "\"class\":{class},")?;
    }
    if let Some(AnswerStatus::Encapsulation(number)) = status {
        write!(f, "\"encapsulation_status\":{number},")?;
    }
    write!(f, "\"event\":\"{event}\",")?;
    if let Some(AnswerStatus::Reply(text)) = status {
        let number = text.status;
        write!(f, "\"general_status\":{number},")?;
    }
    write!(f, "\"request\":\"{request}\"")?;
    if let Some(service) = request.service() {
        write!(f, ",\"service\":{service}")?;
    }
    match status {
        Some(status) => write!(f, ",\"status\":\"{status}\""),
        None => Ok(()),
    }
}

/// How the log is written.
#[derive(Clone, Copy)]
pub enum LogStyle {
    /// A line of text for each event.
    Text,
    /// A JSON object on a line for each event.
    Json,
}

/// The clock of the times in a log.
#[derive(Clone, Copy)]
pub enum LogClock {
    /// The time since the program began to serve.
    Start,
    /// The time of day, in UTC.
    Utc,
}

/// The time of an event, in microseconds: since the start, or since 1970-01-01 in UTC.
#[derive(Clone, Copy)]
pub(crate) struct LogTime {
    pub(crate) clock: LogClock,
    pub(crate) microseconds: u64,
}

/// The microseconds of a second.
const SECOND: u64 = 1_000_000;

/// The seconds of a day.
const DAY: u64 = 86_400;

/// The days from 1970-01-01 to 1972-01-01.
const DAYS_BEFORE_1972: u64 = 730;

impl fmt::Display for LogTime {
    fn fmt<W: fmt::Write>(&self, f: &mut fmt::Formatter<W>) -> fmt::Result {
        let (seconds, rest) = (self.microseconds / SECOND, self.microseconds % SECOND);
        let LogClock::Utc = self.clock else {
            return write!(f, "{seconds}.{rest:06}");
        };
        let days = (seconds / DAY).saturating_sub(DAYS_BEFORE_1972);
        let date = Date::from_days(u16::try_from(days).unwrap_or(u16::MAX));
        let (hour, minute, second) = (seconds % DAY / 3_600, seconds % 3_600 / 60, seconds % 60);
        write!(f, "{date}T{hour:02}:{minute:02}:{second:02}.{rest:06}Z")
    }
}

/// A line of the log.
#[derive(Clone, Copy)]
pub(crate) struct LogLine {
    pub(crate) style: LogStyle,
    pub(crate) time: LogTime,
    pub(crate) address: SocketAddr,
    pub(crate) event: LogEvent,
}

impl fmt::Display for LogLine {
    fn fmt<W: fmt::Write>(&self, f: &mut fmt::Formatter<W>) -> fmt::Result {
        let (time, address, event) = (self.time, self.address, self.event);
        let members = JsonMembers(event);
        match (self.style, time.clock) {
            (LogStyle::Text, _) => writeln!(f, "{time} {address} {event}"),
            (LogStyle::Json, LogClock::Start) => {
                writeln!(f, "{{\"address\":\"{address}\",{members},\"time\":{time}}}")
            }
            (LogStyle::Json, LogClock::Utc) => {
                writeln!(
                    f,
                    "{{\"address\":\"{address}\",{members},\"time\":\"{time}\"}}"
                )
            }
        }
    }
}
