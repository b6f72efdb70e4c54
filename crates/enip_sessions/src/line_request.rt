//! Requests as text: the lines of `enip batch`, and the arguments of `enip watch`.

use clap::ArgMatches;
use clap::error::ErrorKind;
use enip_cli::line_command;
use enip_commands::Style;
use enip_common::{ArgumentError, Reason, Timeout, service_of};
use remote_device::{Request, service_of_get, service_of_set};
use std::alloc::{AllocError, AllocFailed, Global};
use std::fmt::Display;

/// Why a text is refused that has none of the commands, or asks for help.
const NOT_A_REQUEST: &str = "not get, set or call with arguments";

/// A request: its bytes, and how its reply is printed as text.
#[derive(Drop)]
pub(crate) struct LineRequest {
    pub(crate) bytes: Vec<u8>,
    pub(crate) style: Style,
}

/// Why a text is not a request.
#[derive(Drop)]
pub(crate) enum LineRefusal {
    /// Out of memory.
    Memory,
    /// The reason, for people.
    Text(String),
}

impl From<AllocError> for LineRefusal {
    fn from(_error: AllocError) -> LineRefusal {
        LineRefusal::Memory
    }
}

impl<T: Drop> From<AllocFailed<T>> for LineRefusal {
    fn from(_error: AllocFailed<T>) -> LineRefusal {
        LineRefusal::Memory
    }
}

impl LineRefusal {
    /// The refusal for this reason.
    fn of<D: Display>(alloc: Global, reason: &D) -> LineRefusal {
        match format!(in alloc; "{reason}") {
            Ok(text) => LineRefusal::Text(text),
            Err(_) => LineRefusal::Memory,
        }
    }
}

/// Reads a text as a request, or as nothing if it has no words. `command` comes before the words of the text.
pub(crate) fn read_request(
    alloc: Global,
    command: Option<&'static str>,
    text: &str,
    timeout: Timeout<'_>,
) -> Result<Option<LineRequest>, LineRefusal> {
    let mut words = Vec::new(alloc);
    if let Some(command) = command {
        words.push(command)?;
    }
    let first = words.len();
    if !push_words(text, &mut words)? {
        return Err(LineRefusal::of(alloc, &"a quotation mark is not closed"));
    }
    if words.len() == first {
        return Ok(None);
    }
    let name = words.first().copied().unwrap_or("");
    let Some(parser) = line_command(alloc, name)? else {
        return Err(LineRefusal::of(alloc, &NOT_A_REQUEST));
    };
    match parser.try_get_matches_from(words.as_slice()) {
        Ok(matches) => Ok(Some(request_of(alloc, name, &matches, timeout)?)),
        Err(error) if error.kind() == ErrorKind::OutOfMemory => Err(LineRefusal::Memory),
        Err(error) if !error.use_stderr() => Err(LineRefusal::of(alloc, &NOT_A_REQUEST)),
        Err(error) => {
            let message = format!(in alloc; "{error}")?;
            let line = message.as_str().lines().next().unwrap_or("");
            Err(LineRefusal::of(alloc, &line.strip_prefix("error: ").unwrap_or(line)))
        }
    }
}

/// The request of a command and its arguments.
fn request_of<'a>(
    alloc: Global,
    command: &str,
    matches: &ArgMatches<'a>,
    timeout: Timeout<'a>,
) -> Result<LineRequest, LineRefusal> {
    let request = match described(command, matches, timeout) {
        Ok(request) => request,
        Err(error) => return Err(LineRefusal::of(alloc, &error)),
    };
    match request.bytes(alloc) {
        Ok(bytes) => Ok(LineRequest {
            bytes,
            style: request.device.style,
        }),
        Err(error) => match error.into_reason() {
            Reason::Memory => Err(LineRefusal::Memory),
            reason => Err(LineRefusal::of(alloc, &reason)),
        },
    }
}

/// The request that the arguments of a command describe.
fn described<'a, 'm>(
    command: &str,
    matches: &'m ArgMatches<'a>,
    timeout: Timeout<'a>,
) -> Result<Request<'a, 'm>, ArgumentError<'a>> {
    let service = match command {
        "get" => Some(service_of_get(matches)),
        "set" => Some(service_of_set(matches)),
        _ => service_of(matches)?,
    };
    Request::from_matches(service, matches, timeout)
}

/// Adds the words of a text. A word in quotation marks, double or single, may contain spaces. A word that begins with `#`
/// begins a comment. Returns whether all quotation marks are closed.
fn push_words<'t>(text: &'t str, words: &mut Vec<&'t str>) -> Result<bool, AllocError> {
    let mut rest = text.trim_start();
    for _ in 0..text.len() {
        if rest.is_empty() || rest.starts_with('#') {
            break;
        }
        let Some((word, after)) = next_word(rest) else {
            return Ok(false);
        };
        words.push(word)?;
        rest = after.trim_start();
    }
    Ok(true)
}

/// The first word of a text that does not begin with a space, and what follows it. `None` if a quotation mark is not
/// closed.
fn next_word(text: &str) -> Option<(&str, &str)> {
    for mark in ['"', '\''] {
        if let Some(quoted) = text.strip_prefix(mark) {
            return quoted.split_once(mark);
        }
    }
    match text.split_once(|c: char| c.is_whitespace()) {
        Some((word, after)) => Some((word, after)),
        None => Some((text, "")),
    }
}
