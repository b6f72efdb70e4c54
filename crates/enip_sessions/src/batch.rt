//! `enip batch`: sends the requests of an input, one a line, in one session.

ghost use Rattle.std.specs.Prelude.{⊤};

use crate::line_request::{LineRefusal, read_request};
use cip_bytes::StatusText;
use clap::ArgMatches;
use enip_commands::{ProgramFault, ReplyOutcome, RequestFailure, Style, show_refusal, show_reply};
use enip_common::{
    CommandError, ErrorKeeping, INPUT, NamedReason, OUTPUT, Reason, print_argument_error,
};
use enip_lines::{TakeLines, read_lines};
use remote_device::{Device, OpenSession, SessionFailure, error_of_failure, reason_of_refusal};
use std::fmt::Display;
use std::io::Write;

/// The exit status if a line is not a request.
const LINE_REFUSED: u8 = 4;

/// The exit status if a reply is not usable, or a request is too long.
const NOT_USABLE: u8 = 7;

/// A batch of requests: the session in which they are sent, and what became of them.
struct Batch<'a, 'r> {
    rt: &'r HostRuntime,
    device: Device<'a>,
    session: OpenSession<'a, 'r>,
    /// Whether the first line that fails ends the batch.
    stops: bool,
    /// The exit status of the first line that failed, or 0.
    status: u8,
    /// The number of the first line that is not a request.
    refused: Option<u64>,
    /// Why the batch ended before its input.
    end: Option<CommandError<'a>>,
}

// Written out, so that each exit of a function that owns one calls it, and has no drop of every part.
impl Drop for Batch<'_, '_> {
    fn drop(self) {
        let Batch {
            rt: _,
            device: _,
            session: _,
            stops: _,
            status: _,
            refused: _,
            end: _,
        } = self;
    }
}

/// `enip batch`.
pub fn run_batch<'a>(rt: &HostRuntime, matches: &ArgMatches<'a>) -> Result<u8, CommandError<'a>> {
    let device = match Device::of_command(rt, matches) {
        Ok(device) => device,
        Err(error) => return Ok(print_argument_error(rt, error)),
    };
    let stream = device.connect(rt)?;
    let session = OpenSession::open(rt, device, &stream)?;
    let mut batch = Batch {
        rt,
        device,
        session,
        stops: matches.get_flag("stop"),
        status: 0,
        refused: None,
        end: None,
    };
    batch.run()
}

impl<'a> Batch<'a, '_> {
    /// Sends the requests on standard input, and ends the session. Returns the exit status.
    fn run(&mut self) -> Result<u8, CommandError<'a>> {
        let mut input = ErrorKeeping::new(self.rt.stdin());
        let mut output = ErrorKeeping::new(self.rt.stdout());
        let read = read_lines(self.rt.alloc(), &mut input, self, &mut output);
        let stream_reason = output.reason(OUTPUT).or(input.reason(INPUT));
        match (stream_reason, self.end.take(), read) {
            (Some(reason), _, _) => return Err(CommandError::of_reason(reason)),
            (None, Some(error), _) => return Err(error),
            (None, None, Err(ProgramFault::Memory)) => return Err(CommandError::of_memory()),
            _ => {}
        }
        let _ = self.session.end();
        match self.refused {
            Some(number) => {
                let _ = eprintln!(self.rt; "line {number}");
                Ok(LINE_REFUSED)
            }
            None => Ok(self.status),
        }
    }

    /// Sends the request of a line, and prints the reply. Returns the exit status of the line.
    fn run_line<W: Write>(
        &mut self,
        text: &[u8],
        number: u64,
        output: &mut W,
    ) -> Result<u8, CommandError<'a>> {
        let Ok(line) = str::from_utf8(text) else {
            return Ok(self.refuse(number, &"not UTF-8"));
        };
        match read_request(self.rt.alloc(), None, line, self.device.timeout) {
            Ok(None) => Ok(0),
            Ok(Some(request)) => {
                let style = Style {
                    is_json: self.device.style.is_json,
                    ..request.style
                };
                self.send(request.bytes.as_slice(), style, number, output)
            }
            Err(LineRefusal::Memory) => Err(CommandError::of_memory()),
            Err(LineRefusal::Text(reason)) => Ok(self.refuse(number, &reason)),
        }
    }

    /// Sends a request, and prints the reply. Returns the exit status of the line.
    fn send<W: Write>(
        &mut self,
        bytes: &[u8],
        style: Style,
        number: u64,
        output: &mut W,
    ) -> Result<u8, CommandError<'a>> {
        let (alloc, device) = (self.rt.alloc(), self.device);
        let printed = match self.session.ask(bytes) {
            Ok(()) => show_reply(alloc, &mut *output, style, self.session.reply()),
            Err(SessionFailure::Refused(status, extended)) => {
                show_refusal(alloc, &mut *output, style, status, extended)
            }
            Err(SessionFailure::TooLong) => {
                return Ok(self.report(number, &Reason::Request, NOT_USABLE));
            }
            Err(SessionFailure::Failed(error)) => return Err(error),
        };
        match printed {
            Ok(ReplyOutcome::Done) => Ok(0),
            Ok(outcome @ ReplyOutcome::Refused(status, extended)) => {
                let reason = reason_of_refusal(device, StatusText { status, extended });
                Ok(self.report(number, &reason, outcome.exit_status()))
            }
            Err(RequestFailure::Program(ProgramFault::Memory)) => Err(CommandError::of_memory()),
            Err(RequestFailure::Program(_)) => Err(CommandError::of_reason(Reason::Named(
                OUTPUT,
                NamedReason::Failed,
            ))),
            Err(failure) => {
                let reason = error_of_failure(failure, device.address, None).into_reason();
                Ok(self.report(number, &reason, NOT_USABLE))
            }
        }
    }

    /// Reports that a line is not a request. Returns the exit status of the line.
    fn refuse<D: Display>(&mut self, number: u64, reason: &D) -> u8 {
        if self.refused.is_none() {
            self.refused = Some(number);
        }
        self.report(number, reason, LINE_REFUSED)
    }

    /// Reports why a line failed. Returns the exit status of the line.
    fn report<D: Display>(&self, number: u64, reason: &D, status: u8) -> u8 {
        let _ = eprintln!(self.rt; "enip: line {number}: {reason}");
        status
    }
}

impl TakeLines for Batch<'_, '_> {
    ghost does = { λ _ _ _ _ _. ⊤ };

    ghost refuses = { λ _. ⊤ };

    fn take_line<W: Write>(
        &mut self,
        text: &[u8],
        number: u64,
        output: &mut W,
    ) -> Result<(), ProgramFault> {
        match self.run_line(text, number, output) {
            Ok(0) => Ok(()),
            Ok(status) => {
                if self.status == 0 {
                    self.status = status;
                }
                if self.stops {
                    Err(ProgramFault::Device)
                } else {
                    Ok(())
                }
            }
            Err(error) => {
                self.end = Some(error);
                Err(ProgramFault::Device)
            }
        }
    }
}
