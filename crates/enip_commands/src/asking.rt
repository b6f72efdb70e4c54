//! `enip get`, `enip set` and `enip call`: one request and its reply.

ghost use Rattle.std.specs.Prelude.{◌≡◌, ◌<◌, ◌≤◌, ◌++◌, codes, None, IfOk, IfErr, OnOk};
ghost use Rattle.std.specs.Io.KnownBytes.{Appends};
ghost use Rattle.cip_bytes.specs.declared.protocol.TheConstants.{LARGEST_CONNECTION_SIZE};
ghost use Rattle.cip_message.specs.PathWriting.{short};
ghost use Rattle.cip_message.specs.Request.{request};
ghost use Rattle.enip_client.specs.Asking.{ends};
ghost use Rattle.enip_commands.specs.Asking.{IsRequested, IsReplyPrinted, IsNotPrinted, IsOfExchange};
ghost use Rattle.enip_commands.specs.Asking.{IsExchangedOver, IsNotMade, exchange_result};
ghost use Rattle.enip_commands.specs.Statuses.{replied_status};
ghost use Rattle.enip_commands.specs.Json.{resumed_text};
ghost use Rattle.enip_commands.specs.Failures.{IsOfDevice};
ghost use Rattle.enip_faults.specs.Statuses.{IsOfDevices};

use crate::hexadecimal::is_hexadecimal;
use crate::json_text::{refusal_line, resumed_line};
use crate::request_failure::RequestFailure;
use crate::style::{Style, data_object, print_data};
use arrayvec::ArrayVec;
use cip_message::{Path, ReplyBuf, ReplyView, write_path};
use cip_route::Route;
use enip_client::{AskFault, Client, ClientFault, USUAL_WANTS, Wants};
use enip_faults::ProgramFault;
use enip_lines::decode;
use enip_wire::{Sink, Source};
use std::alloc::{AllocError, Global};
use std::io::{BufWriter, Write};

/// The longest path in bytes: class 4, instance 6, attribute 4 and member 4. (Volume 1, logical segments.)
const LONGEST_PATH: usize = 18;

/// A request whose data are given in hexadecimal.
#[derive(Clone, Copy, Debug)]
pub struct DeviceRequest<'a> {
    /// The service code.
    pub service: u8,
    /// The object that the request goes to.
    pub path: Path,
    /// The data in hexadecimal, with spaces anywhere.
    pub digits: &'a str,
}

impl DeviceRequest<'_> {
    /// Encodes the request: service, shortest path, and data.
    ///
    /// # Errors
    ///
    /// `Hex` if the digits are not hexadecimal. `Program` with `Memory` if they are and memory was refused.
    pub fn request(&self, alloc: Global) -> Result<Vec<u8>, RequestFailure>
        ensures made { IfOk result (λ request. IsRequested self.now request.items) }
        ensures refused { IfErr result (IsNotMade self.now) }
    {
        if !is_hexadecimal(self.digits.as_bytes()) {
            return Err(RequestFailure::Hex);
        }
        let mut digits = Vec::new(alloc);
        let mut data = Vec::new(alloc);
        decode(self.digits.as_bytes(), &mut digits, &mut data)?;
        Ok(spell_request(alloc, self.service, self.path, data.as_slice())?)
    }
}

/// Encodes a request: service, shortest path, and data.
///
/// # Errors
///
/// `AllocError` if memory is refused.
pub(crate) fn spell_request(
    alloc: Global,
    service: u8,
    path: Path,
    bytes: &[u8],
) -> Result<Vec<u8>, AllocError>
    ensures { IfOk result (λ spelled. spelled.items
        ≡ request (record { service = service; path = short path; «data» = bytes.now })) }
{
    let path = path_bytes(path);
    let mut request = Vec::new(alloc);
    // the path size is in words of two bytes (Volume 1, message router)
    request.extend_from_slice(&[service, (path.len() / 2) as u8])?;
    request.extend_from_slice(path.as_slice())?;
    request.extend_from_slice(bytes)?;
    Ok(request)
}

/// The shortest encoding of a path.
#[tactic(auto, using(crate::proofs::PathLemmas::short_at_most))]
fn path_bytes(path: Path) -> ArrayVec<u8, LONGEST_PATH>
    ensures { result.items ≡ short path }
{
    let mut bytes = ArrayVec::new();
    let _ = write_path(&mut bytes, path);
    bytes
}

/// What a device replied.
#[derive(Clone, Copy, Debug, PartialEq, Eq)]
pub enum ReplyOutcome {
    /// The request succeeded.
    Done,
    /// The request was refused: the general status, and the first additional word or 0.
    Refused(u8, u16),
}

impl ReplyOutcome {
    /// The exit status of the program: 0 or 6.
    pub fn exit_status(self) -> u8
        ensures { result ≡ replied_status self }
    {
        match self {
            ReplyOutcome::Done => 0,
            ReplyOutcome::Refused(..) => 6,
        }
    }
}

/// Sends one request over a reader and a writer with a new client that wants this connection, to a device at the end of a
/// route, and leaves the router's reply in `reply`. If `connected` is set, the request is sent on a connection, which is opened
/// before and closed afterwards. The session is the first router's.
///
/// # Errors
///
/// `Session` if the device refuses the session. `Client` with `Refused` if the connection was not opened or not closed, or if a
/// router did not pass the request on, with `Request` if the request cannot be sent on it, with `Malformed` if the reply is
/// malformed, or with another fault of the client. `Program` if the reader or the writer failed, the input ended, or memory was
/// refused. If memory was refused, nothing was read or written.
pub fn exchange_with<R: Source, W: Sink>(
    alloc: Global,
    wants: &Wants,
    reader: &mut R,
    writer: &mut W,
    route: &Route,
    request: &[u8],
    connected: bool,
    reply: &mut ReplyBuf,
) -> Result<(), RequestFailure>
    requires o_to_t_from { 4 ≤ wants.now.o_to_t_size }
    requires o_to_t_to { wants.now.o_to_t_size ≤ LARGEST_CONNECTION_SIZE }
    requires t_to_o_from { 10 ≤ wants.now.t_to_o_size }
    requires t_to_o_to { wants.now.t_to_o_size ≤ LARGEST_CONNECTION_SIZE }
    requires reads { R.failures reader.old < u64.MAX }
    requires writes { W.failures writer.old < u64.MAX }
    ensures exchanged { IsExchangedOver wants.now route.now request.now connected
        (λ client. ends client (R.left reader.old) (R.reads reader.old) (W.written writer.old) reply.old.items)
        (λ client. ends client (R.left reader.new) (R.reads reader.new) (W.written writer.new) reply.new.items) result }
    ensures failed { IfErr result IsOfExchange }
{
    let mut client = match Client::new(alloc, wants) {
        Ok(client) => client,
        Err(fault) => return Err(RequestFailure::from(AskFault::Client(fault))),
    };
    let asked = enip_client::ask_over(
        &mut client,
        reader,
        writer,
        route,
        request,
        connected,
        reply,
    );
    session_refusal(asked, client.is_registered())
}

/// Why an exchange was not completed. If the session is not registered, a status is the answer to RegisterSession.
fn session_refusal(asked: Result<(), AskFault>, is_registered: bool) -> Result<(), RequestFailure>
    ensures reported { result ≡ exchange_result asked is_registered }
    ensures failed { IfErr result IsOfExchange }
{
    match asked {
        Ok(()) => Ok(()),
        Err(AskFault::Client(ClientFault::Status(status))) if !is_registered => {
            Err(RequestFailure::Session(status))
        }
        Err(fault) => Err(RequestFailure::from(fault)),
    }
}

/// Prints a reply on `output` in a style: its data, or `refused 0xGG`, with ` 0xEEEE` if the first additional word is not 0.
///
/// # Errors
///
/// `Client` with `Malformed` if the bytes are not a reply. `Shape` or `Fields` if its data are not values of the style's type
/// or layout.
/// `Program` if the output failed or memory was refused.
pub fn show_reply<O: Write + Drop>(
    alloc: Global,
    output: O,
    style: Style,
    bytes: &[u8],
) -> Result<ReplyOutcome, RequestFailure>
    ensures rendered { IfOk result (IsReplyPrinted bytes.now) }
    ensures not_printed { IfErr result (IsNotPrinted style bytes.now) }
{
    let mut output = BufWriter::new(alloc, output)?;
    let replied = print_reply(alloc, &mut output, style, bytes)?;
    output.flush()?;
    Ok(replied)
}

/// Prints the reply to a pending command with this number, which an earlier run has sent. As text it is that of
/// `show_reply`, and the object of JSON has the members `number` and `resumed`, too.
///
/// # Errors
///
/// Those of `show_reply`.
pub fn show_resumed<O: Write + Drop>(
    alloc: Global,
    output: O,
    style: Style,
    number: u32,
    bytes: &[u8],
) -> Result<ReplyOutcome, RequestFailure>
    ensures rendered { IfOk result (IsReplyPrinted bytes.now) }
    ensures not_printed { IfErr result (IsNotPrinted style bytes.now) }
{
    let mut output = BufWriter::new(alloc, output)?;
    let replied = if style.is_json {
        let object = reply_object(alloc, style, bytes)?;
        print_resumed(alloc, &mut output, number, object.text.as_str())?;
        object.replied
    } else {
        print_reply(alloc, &mut output, style, bytes)?
    };
    output.flush()?;
    Ok(replied)
}

/// Prints the object of a reply to a command that an earlier run has sent, on one line.
fn print_resumed<O: Write>(
    alloc: Global,
    output: &mut O,
    number: u32,
    object: &str,
) -> Result<(), ProgramFault>
    ensures printed { OnOk result (Appends (O.contents output.old) (O.contents output.new)
        (resumed_text number object.now ++ codes "\n")) }
    ensures failed { IfErr result IsOfDevices }
{
    let line = resumed_line(alloc, number, object)?;
    writeln!(output, "{line}")?;
    Ok(())
}

/// Prints a refusal of the connection on `output` in a style, as that of a request.
///
/// # Errors
///
/// `Program` if the output failed or memory was refused.
pub fn show_refusal<O: Write + Drop>(
    alloc: Global,
    output: O,
    style: Style,
    status: u8,
    extended: u16,
) -> Result<ReplyOutcome, RequestFailure>
    ensures rendered { IfOk result (λ replied. replied ≡ ReplyOutcome.Refused status extended) }
    ensures not_printed { IfErr result IsOfDevice }
{
    let mut output = BufWriter::new(alloc, output)?;
    let replied = print_refusal(alloc, &mut output, style, status, extended)?;
    output.flush()?;
    Ok(replied)
}

/// Prints a reply in a style.
///
/// # Errors
///
/// As for `reply_object`, and `Program` if the output failed.
pub(crate) fn print_reply<O: Write>(
    alloc: Global,
    output: &mut O,
    style: Style,
    bytes: &[u8],
) -> Result<ReplyOutcome, RequestFailure>
    ensures rendered { IfOk result (IsReplyPrinted bytes.now) }
    ensures not_printed { IfErr result (IsNotPrinted style bytes.now) }
{
    if style.is_json {
        let line = reply_object(alloc, style, bytes)?;
        writeln!(output, "{}", line.text)?;
        return Ok(line.replied);
    }
    let Ok(reply) = ReplyView::read(bytes) else {
        return Err(RequestFailure::Client(ClientFault::Malformed));
    };
    // general status 0 is success (Volume 1, message router)
    if reply.status != 0 {
        let extended = reply.additional_word(0).unwrap_or(0);
        return print_refused(output, reply.status, extended);
    }
    print_data(alloc, output, style, reply.data)?;
    Ok(ReplyOutcome::Done)
}

/// The JSON object of a reply, and the outcome.
#[derive(Drop)]
pub(crate) struct ReplyObject {
    pub(crate) replied: ReplyOutcome,
    pub(crate) text: String,
}

/// The JSON object of a reply.
///
/// # Errors
///
/// `Client` with `Malformed` if the bytes are not a reply. `Shape` or `Fields` if its data are not values of the style's type
/// or layout.
/// `Program` if memory was refused.
pub(crate) fn reply_object(
    alloc: Global,
    style: Style,
    bytes: &[u8],
) -> Result<ReplyObject, RequestFailure>
    ensures rendered { IfOk result (λ rendered. IsReplyPrinted bytes.now rendered.replied) }
    ensures not_printed { IfErr result (IsNotPrinted style bytes.now) }
{
    let Ok(reply) = ReplyView::read(bytes) else {
        return Err(RequestFailure::Client(ClientFault::Malformed));
    };
    if reply.status != 0 {
        let extended = reply.additional_word(0).unwrap_or(0);
        return Ok(ReplyObject {
            replied: ReplyOutcome::Refused(reply.status, extended),
            text: refusal_line(alloc, reply.status, extended)?,
        });
    }
    Ok(ReplyObject {
        replied: ReplyOutcome::Done,
        text: data_object(alloc, style, reply.data)?,
    })
}

/// Prints a refusal in a style.
fn print_refusal<O: Write>(
    alloc: Global,
    output: &mut O,
    style: Style,
    status: u8,
    extended: u16,
) -> Result<ReplyOutcome, RequestFailure>
    ensures rendered { IfOk result (λ replied. replied ≡ ReplyOutcome.Refused status extended) }
    ensures not_printed { IfErr result IsOfDevice }
{
    if style.is_json {
        writeln!(output, "{}", refusal_line(alloc, status, extended)?)?;
        return Ok(ReplyOutcome::Refused(status, extended));
    }
    print_refused(output, status, extended)
}

/// Prints a refusal as text: `refused 0xGG`, with ` 0xEEEE` if the first additional word is not 0.
fn print_refused<O: Write>(
    output: &mut O,
    status: u8,
    extended: u16,
) -> Result<ReplyOutcome, RequestFailure>
    ensures rendered { IfOk result (λ replied. replied ≡ ReplyOutcome.Refused status extended) }
    ensures not_printed { IfErr result IsOfDevice }
{
    write!(output, "refused {status:#04x}")?;
    if extended != 0 {
        write!(output, " {extended:#06x}")?;
    }
    output.write_all(b"\n")?;
    Ok(ReplyOutcome::Refused(status, extended))
}
