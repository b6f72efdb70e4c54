//! A TCP connection as a peer's wire that logs its frames.

ghost use Rattle.std.specs.Prelude.{◌≡◌, None};

use crate::frame_log::FrameLog;
use crate::frame_summary::{AnswerStatus, RequestSummary};
use crate::log_event::{EndCause, LogEvent};
use device_sockets::TcpWire;
use enip_server::{ReadOutcome, Wire};
use enip_wire::{FrameReader, FrameView, Held};
use mio::net::TcpStream;
use owner_port::HasAddress;
use std::alloc::Global;
use std::collections::VecDeque;
use std::net::{IpAddr, SocketAddr};
use std::rt::Clock;

/// The most connections whose last sequence counts are noted, to recognize repeats.
const MOST_NOTED: usize = 256;

/// The wire of a connection, and the log of its frames.
pub struct LoggedWire<'a, R: Eprint + Clock> {
    wire: TcpWire,
    log: &'a FrameLog<'a, R>,
    address: SocketAddr,
    frames: PendingFrames,
    /// Why the connection ends, once that is known.
    end: Option<EndCause>,
}

impl<'a, R: Eprint + Clock> LoggedWire<'a, R> {
    /// The wire of a new connection. `None` if there is no memory for it, or if the connection is already over.
    pub(crate) fn new(
        log: &'a FrameLog<'a, R>,
        alloc: Global,
        stream: TcpStream,
    ) -> Option<LoggedWire<'a, R>> {
        let address = stream.peer_addr().ok()?;
        let frames = PendingFrames::new(alloc)?;
        log.write(address, LogEvent::Connected);
        Some(LoggedWire {
            wire: TcpWire::new(stream, address),
            log,
            address,
            frames,
            end: None,
        })
    }
}

/// The frames that were read and not answered yet, and the parts of the next frame in each direction.
#[derive(Drop)]
struct PendingFrames {
    pending: VecDeque<RequestSummary>,
    requests: FrameReader,
    answers: FrameReader,
    /// Whether a header was too long, so that the bytes after it are not frames.
    is_too_long: bool,
    /// Whether the client has unregistered its session.
    has_unregistered: bool,
    /// The connections whose items were answered last, and the sequence count of the last item of each, newest last.
    answered: VecDeque<(u32, u16)>,
}

impl PendingFrames {
    /// No frames. `None` if there is no memory for the readers.
    fn new(alloc: Global) -> Option<PendingFrames> {
        let requests = FrameReader::new(alloc).ok()?;
        let answers = FrameReader::new(alloc).ok()?;
        Some(PendingFrames {
            pending: VecDeque::new(alloc),
            requests,
            answers,
            is_too_long: false,
            has_unregistered: false,
            answered: VecDeque::new(alloc),
        })
    }

    /// Records the frames of a piece that was read.
    fn record(&mut self, piece: &[u8]) {
        let mut rest = piece;
        for _ in 0..piece.len() {
            if rest.is_empty() || self.is_too_long {
                break;
            }
            let (taken, held) = self.requests.next(rest);
            rest = &rest[taken..];
            let request = match held {
                Held::Frame(frame) => RequestSummary::of(frame),
                Held::TooLong(header) => {
                    self.is_too_long = true;
                    RequestSummary::of_header(&header)
                }
                Held::More => continue,
            };
            self.requests.clear();
            // A frame for which there is no memory is left out of the log.
            let _ = self.pending.push_back(request);
        }
    }

    /// Logs the frames that a written piece answers.
    fn log_answers<R: Eprint + Clock>(
        &mut self,
        log: &FrameLog<'_, R>,
        address: SocketAddr,
        piece: &[u8],
    ) {
        let mut rest = piece;
        for _ in 0..piece.len() {
            if rest.is_empty() {
                break;
            }
            let (taken, held) = self.answers.next(rest);
            rest = &rest[taken..];
            if let Held::Frame(frame) = held {
                let answered = log_unanswered_before(log, address, &mut self.pending, frame);
                let status = AnswerStatus::of(frame);
                self.answers.clear();
                if let Some(request) = answered {
                    self.log_answer(log, address, request, status);
                }
            }
        }
    }

    /// Logs a frame that was answered. It repeats the frame before it if that has the same connection and sequence count.
    fn log_answer<R: Eprint + Clock>(
        &mut self,
        log: &FrameLog<'_, R>,
        address: SocketAddr,
        request: RequestSummary,
        status: AnswerStatus,
    ) {
        let is_repeat = match request.item() {
            Some(item) if status.is_reply() => self.note(item),
            _ => false,
        };
        let event = match is_repeat {
            true => LogEvent::Repeated(request, status),
            false => LogEvent::Answered(request, status),
        };
        log.write(address, event);
    }

    /// Notes that an item was answered. Returns whether the item before it on its connection has the same count.
    fn note(&mut self, item: (u32, u16)) -> bool {
        let (connection, count) = item;
        let found = self.answered.iter().position(|(id, _)| *id == connection);
        let last = found.and_then(|index| self.answered.remove(index));
        if self.answered.len() >= MOST_NOTED {
            let _ = self.answered.pop_front();
        }
        // Without memory for the note, a repeat is logged as any frame.
        let _ = self.answered.push_back(item);
        matches!(last, Some((_, before)) if before == count)
    }

    /// Logs the remaining frames as not answered. All that was read is served before more is read.
    fn log_unanswered<R: Eprint + Clock>(&mut self, log: &FrameLog<'_, R>, address: SocketAddr) {
        for _ in 0..self.pending.len() {
            if let Some(request) = self.pending.pop_front() {
                self.has_unregistered = self.has_unregistered || request.unregisters();
                log.write(address, LogEvent::Unanswered(request));
            }
        }
    }
}

/// Logs the frames before the one that is answered as not answered. Returns the one that is.
fn log_unanswered_before<R: Eprint + Clock>(
    log: &FrameLog<'_, R>,
    address: SocketAddr,
    pending: &mut VecDeque<RequestSummary>,
    frame: FrameView<'_>,
) -> Option<RequestSummary> {
    for _ in 0..pending.len() {
        let request = pending.pop_front()?;
        if request.is_answered_by(frame) {
            return Some(request);
        }
        log.write(address, LogEvent::Unanswered(request));
    }
    None
}

impl<R: Eprint + Clock> LoggedWire<'_, R> {
    /// Why the connection ends. A connection that has not ended by itself was silent for too long.
    fn cause(&self) -> EndCause {
        match self.end {
            Some(EndCause::Device) if self.frames.is_too_long => EndCause::TooLong,
            Some(EndCause::Device) if self.frames.has_unregistered => EndCause::Unregistered,
            Some(cause) => cause,
            None => EndCause::Silent,
        }
    }

    /// Keeps the first cause of the end.
    fn end_by(&mut self, cause: EndCause)
        ensures { self.new.wire.counts ≡ self.old.wire.counts }
    {
        if self.end.is_none() {
            self.end = Some(cause);
        }
    }
}

impl<R: Eprint + Clock> Drop for LoggedWire<'_, R> {
    fn drop(mut self) {
        let (log, address) = (self.log, self.address);
        self.frames.log_unanswered(log, address);
        log.write(address, LogEvent::Disconnected(self.cause()));
        let LoggedWire {
            wire: _,
            log: _,
            address: _,
            frames: _,
            end: _,
        } = self;
    }
}

impl<R: Eprint + Clock> HasAddress for LoggedWire<'_, R> {
    ghost address_of = { λ w. w.wire.address };

    fn address(&self) -> IpAddr {
        self.wire.address()
    }
}

impl<R: Eprint + Clock> Wire for LoggedWire<'_, R> {
    ghost left = { λ _. None };

    ghost written = { λ _. None };

    ghost known = { λ _. None };

    ghost counts = { λ w. w.wire.counts };

    fn read(&mut self, into: &mut [u8]) -> ReadOutcome {
        self.frames.log_unanswered(self.log, self.address);
        // Another read follows once these frames are served. It logs those that were not answered.
        let outcome = self.wire.read_partial(into);
        match outcome {
            ReadOutcome::Bytes(size) => self.frames.record(&into[..size]),
            ReadOutcome::End => self.end_by(EndCause::Client),
            ReadOutcome::Failed => self.end_by(EndCause::Failed),
            _ => {}
        }
        outcome
    }

    fn write(&mut self, from: &[u8]) -> Option<usize> {
        let sent = self.wire.write(from);
        match sent {
            Some(size) => self
                .frames
                .log_answers(self.log, self.address, &from[..size]),
            None => self.end_by(EndCause::Failed),
        }
        sent
    }

    fn shut(&mut self) {
        self.end_by(EndCause::Device);
        self.wire.shut();
    }
}
