//! Repeated reads of an attribute.

ghost use Rattle.std.specs.Prelude.{◌≡◌, ◌↔◌, false, OnOk, IfOk, IfErr, Some};
ghost use Rattle.enip_commands.specs.Asking.{IsReplyPrinted, IsNotPrinted};

use crate::asking::{ReplyOutcome, print_reply, reply_object};
use crate::json_text::timed_line;
use crate::request_failure::RequestFailure;
use crate::style::Style;
use enip_faults::ProgramFault;
use std::alloc::{AllocError, Global};
use std::io::{BufWriter, Write};
use std::marker::Model;

/// Microseconds per second.
const SECOND: u64 = 1_000_000;

/// Remembers the last reply, to find out whether the next one differs.
#[derive(Drop)]
pub struct Readings {
    last: Vec<u8>,
    is_first: bool,
}

impl Model for Readings {
    ghost use Rattle.std.specs.Prelude.{List, ℕ, Option};
    ghost use Rattle.enip_commands.specs.Readings.{last_of};

    ghost Value = { Option (List ℕ) };

    ghost view = { λ r. last_of r.is_first r.last.items };
}

impl Readings {
    ghost use Rattle.std.specs.Prelude.{None};

    /// Starts without a reply.
    pub fn new(alloc: Global) -> Readings
        ensures { result ≡ None }
    {
        Readings {
            last: Vec::new(alloc),
            is_first: true,
        }
    }

    /// Remembers a reply. Returns whether it is the first, or differs from the last one.
    ///
    /// # Errors
    ///
    /// `AllocError` if memory is refused.
    pub fn is_changed(&mut self, reply: &[u8]) -> Result<bool, AllocError>
        ensures rendered { IfOk result (λ changed. (changed ≡ false) ↔ (self.old ≡ Some reply.now)) }
        ensures kept { OnOk result (self.new ≡ Some reply.now) }
    {
        if !self.is_first && self.last.as_slice() == reply {
            return Ok(false);
        }
        self.last.clear();
        self.last.extend_from_slice(reply)?;
        self.is_first = false;
        Ok(true)
    }
}

/// Prints a reply on one line, with the time at which it came. `moment` is in microseconds. As text, the time is
/// printed before the reply, in seconds with six decimals.
///
/// # Errors
///
/// `Client` with `Malformed` if the bytes are not a reply. `Shape` or `Fields` if its data are not values of the style's type
/// or layout.
/// `Program` if the output failed or memory was refused.
pub fn print_reading<O: Write + Drop>(
    alloc: Global,
    output: O,
    style: Style,
    moment: u64,
    reply: &[u8],
) -> Result<ReplyOutcome, RequestFailure>
    ensures rendered { IfOk result (IsReplyPrinted reply.now) }
    ensures not_printed { IfErr result (IsNotPrinted style reply.now) }
{
    let mut output = BufWriter::new(alloc, output).map_err(ProgramFault::from)?;
    print_timed(alloc, &mut output, style, moment, reply)
}

/// Prints a reply with its time to a buffered output, and flushes it.
fn print_timed<O: Write>(
    alloc: Global,
    output: &mut O,
    style: Style,
    moment: u64,
    reply: &[u8],
) -> Result<ReplyOutcome, RequestFailure>
    ensures rendered { IfOk result (IsReplyPrinted reply.now) }
    ensures not_printed { IfErr result (IsNotPrinted style reply.now) }
{
    let replied = if style.is_json {
        print_timed_object(alloc, output, style, moment, reply)?
    } else {
        let (seconds, rest) = (moment / SECOND, moment % SECOND);
        write!(output, "{seconds}.{rest:06} ")?;
        print_reply(alloc, output, style, reply)?
    };
    output.flush()?;
    Ok(replied)
}

/// Prints the JSON object of a reply and its time.
fn print_timed_object<O: Write>(
    alloc: Global,
    output: &mut O,
    style: Style,
    moment: u64,
    reply: &[u8],
) -> Result<ReplyOutcome, RequestFailure>
    ensures rendered { IfOk result (IsReplyPrinted reply.now) }
    ensures not_printed { IfErr result (IsNotPrinted style reply.now) }
{
    let object = reply_object(alloc, style, reply)?;
    let line = timed_line(alloc, moment, object.text.as_str())?;
    writeln!(output, "{line}")?;
    Ok(object.replied)
}
