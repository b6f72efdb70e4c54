//! The turns of a session: a frame is sent, and its answer is heard.

ghost use Rattle.std.specs.Prelude.{◌≡◌, ◌≤◌, ◌<◌, ◌+◌, ◌++◌, ℕ, length, take, Option, List, Some, None, false, IfOk, MatchResult};
ghost use Rattle.std.specs.Io.KnownBytes.{Appends};
ghost use Rattle.enip_client.specs.Asking.{lends, lends_call, submit_failure, requests_over};
ghost use Rattle.enip_client.specs.Calls.{registers, opens_over, asks_over, submits, closes_over, unregisters, resends};
ghost use Rattle.enip_client.specs.Client.{heard_event_in};
ghost use Rattle.enip_commands.specs.Sessions.{SessionEnds, session_ends, is_answer, fault_heard, kept_after, lent_again};
ghost use Rattle.enip_commands.specs.Sessions.{IsSent, IsAwaited, IsTurn, IsReadBy, IsHeard, IsFaultHeard, IsWrittenBy};

use cip_bytes::protocol::REPLY_LIMIT;
use cip_message::ReplyBuf;
use cip_route::Route;
use enip_client::{AskFault, Client, ClientFault, Heard};
use enip_wire::{Sink, Source, write_all};

/// The size of a read, in bytes (ours).
const LONGEST_READ: usize = 4_096;

/// Which answer is awaited.
#[derive(Clone, Copy)]
pub(crate) enum Turn {
    /// That to RegisterSession.
    Register,
    /// That to an open.
    Open,
    /// The reply to a request.
    Request,
    /// That to a close.
    Close,
}

/// Registers the session.
///
/// # Errors
///
/// Those of `send` and `await_answer`, or `Client` if the call is refused.
pub(crate) fn register<R: Source, W: Sink>(
    client: &mut Client,
    reader: &mut R,
    writer: &mut W,
    reply: &mut ReplyBuf,
) -> Result<(), AskFault>
    ensures { IsTurn (lends_call (registers client.old.state)) Turn.Register
        (session_ends client.old (R.left reader.old) (R.reads reader.old) (R.failures reader.old)
        (W.written writer.old) (W.failures writer.old) reply.old.items)
        (session_ends client.new (R.left reader.new) (R.reads reader.new) (R.failures reader.new)
        (W.written writer.new) (W.failures writer.new) reply.new.items) result }
{
    let frame = client.register()?;
    send(writer, frame)?;
    await_answer(client, Turn::Register, reader, reply)
}

/// Opens the connection over a route.
///
/// # Errors
///
/// Those of `send` and `await_answer`, or `Client` if the call is refused.
pub(crate) fn open<R: Source, W: Sink>(
    client: &mut Client,
    reader: &mut R,
    writer: &mut W,
    route: &Route,
    reply: &mut ReplyBuf,
) -> Result<(), AskFault>
    ensures { IsTurn (lends_call (opens_over route.now client.old.state)) Turn.Open
        (session_ends client.old (R.left reader.old) (R.reads reader.old) (R.failures reader.old)
        (W.written writer.old) (W.failures writer.old) reply.old.items)
        (session_ends client.new (R.left reader.new) (R.reads reader.new) (R.failures reader.new)
        (W.written writer.new) (W.failures writer.new) reply.new.items) result }
{
    let frame = client.open_over(route)?;
    send(writer, frame)?;
    await_answer(client, Turn::Open, reader, reply)
}

/// Sends a request, on the connection if there is one, otherwise over a route, and keeps the reply.
///
/// # Errors
///
/// Those of `send` and `await_answer`, or `Client` or `Submit` if the call is refused.
pub(crate) fn ask_once<R: Source, W: Sink>(
    client: &mut Client,
    reader: &mut R,
    writer: &mut W,
    route: &Route,
    request: &[u8],
    connected: bool,
    reply: &mut ReplyBuf,
) -> Result<(), AskFault>
    ensures { IsTurn (requests_over route.now client.old.state request.now connected) Turn.Request
        (session_ends client.old (R.left reader.old) (R.reads reader.old) (R.failures reader.old)
        (W.written writer.old) (W.failures writer.old) reply.old.items)
        (session_ends client.new (R.left reader.new) (R.reads reader.new) (R.failures reader.new)
        (W.written writer.new) (W.failures writer.new) reply.new.items) result }
{
    if connected {
        submit(client, reader, writer, request, reply)
    } else {
        ask_unconnected(client, reader, writer, route, request, reply)
    }
}

/// Sends a request on the connection, and keeps the reply.
fn submit<R: Source, W: Sink>(
    client: &mut Client,
    reader: &mut R,
    writer: &mut W,
    request: &[u8],
    reply: &mut ReplyBuf,
) -> Result<(), AskFault>
    ensures { IsTurn (lends submit_failure (submits client.old.state request.now)) Turn.Request
        (session_ends client.old (R.left reader.old) (R.reads reader.old) (R.failures reader.old)
        (W.written writer.old) (W.failures writer.old) reply.old.items)
        (session_ends client.new (R.left reader.new) (R.reads reader.new) (R.failures reader.new)
        (W.written writer.new) (W.failures writer.new) reply.new.items) result }
{
    let frame = client.submit(request)?;
    send(writer, frame)?;
    await_answer(client, Turn::Request, reader, reply)
}

/// Sends an unconnected request over a route, and keeps the reply.
fn ask_unconnected<R: Source, W: Sink>(
    client: &mut Client,
    reader: &mut R,
    writer: &mut W,
    route: &Route,
    request: &[u8],
    reply: &mut ReplyBuf,
) -> Result<(), AskFault>
    ensures { IsTurn (lends_call (asks_over route.now client.old.state request.now)) Turn.Request
        (session_ends client.old (R.left reader.old) (R.reads reader.old) (R.failures reader.old)
        (W.written writer.old) (W.failures writer.old) reply.old.items)
        (session_ends client.new (R.left reader.new) (R.reads reader.new) (R.failures reader.new)
        (W.written writer.new) (W.failures writer.new) reply.new.items) result }
{
    let frame = client.unconnected_over(route, request)?;
    send(writer, frame)?;
    await_answer(client, Turn::Request, reader, reply)
}

/// Sends the request that waits on the connection once more, and keeps the reply.
///
/// # Errors
///
/// Those of `send` and `await_answer`, or `Client` with `State` if no request waits.
pub(crate) fn ask_again<R: Source, W: Sink>(
    client: &mut Client,
    reader: &mut R,
    writer: &mut W,
    reply: &mut ReplyBuf,
) -> Result<(), AskFault>
    ensures { IsTurn (lends_call (lent_again client.old.state (resends client.old.state))) Turn.Request
        (session_ends client.old (R.left reader.old) (R.reads reader.old) (R.failures reader.old)
        (W.written writer.old) (W.failures writer.old) reply.old.items)
        (session_ends client.new (R.left reader.new) (R.reads reader.new) (R.failures reader.new)
        (W.written writer.new) (W.failures writer.new) reply.new.items) result }
{
    let Some(frame) = client.resend() else {
        return Err(AskFault::Client(ClientFault::State));
    };
    send(writer, frame)?;
    await_answer(client, Turn::Request, reader, reply)
}

/// Closes the connection over the route of its opening.
///
/// # Errors
///
/// Those of `send` and `await_answer`, or `Client` if the call is refused.
pub(crate) fn close<R: Source, W: Sink>(
    client: &mut Client,
    reader: &mut R,
    writer: &mut W,
    route: &Route,
    reply: &mut ReplyBuf,
) -> Result<(), AskFault>
    ensures { IsTurn (lends_call (closes_over route.now client.old.state)) Turn.Close
        (session_ends client.old (R.left reader.old) (R.reads reader.old) (R.failures reader.old)
        (W.written writer.old) (W.failures writer.old) reply.old.items)
        (session_ends client.new (R.left reader.new) (R.reads reader.new) (R.failures reader.new)
        (W.written writer.new) (W.failures writer.new) reply.new.items) result }
{
    let frame = client.close_over(route)?;
    send(writer, frame)?;
    await_answer(client, Turn::Close, reader, reply)
}

/// Unregisters the session. There is no answer.
///
/// # Errors
///
/// Those of `send`, or `Client` if the call is refused.
pub(crate) fn unregister<W: Sink>(client: &mut Client, writer: &mut W) -> Result<(), AskFault>
    ensures { (left : Option (List ℕ)) (reads read_failures : ℕ) (reply : List ℕ) →
        IsSent (lends_call (unregisters client.old.state))
        (session_ends client.old left reads read_failures (W.written writer.old) (W.failures writer.old) reply)
        (session_ends client.new left reads read_failures (W.written writer.new) (W.failures writer.new) reply) result }
{
    let frame = client.unregister()?;
    send(writer, frame)
}

/// Sends a frame.
///
/// # Errors
///
/// `Write` if the writer failed, or cannot count another failure.
fn send<W: Sink>(writer: &mut W, frame: &[u8]) -> Result<(), AskFault>
    ensures { IsWrittenBy (W.written writer.old) (W.written writer.new) (W.failures writer.old) (W.failures writer.new)
        frame.now result }
{
    if writer.failures() == u64::MAX {
        return Err(AskFault::Write);
    }
    match write_all(writer, frame) {
        Ok(()) => Ok(()),
        Err(_) => Err(AskFault::Write),
    }
}

/// Reads until the awaited answer has come. A reply is stored in `reply`.
///
/// # Errors
///
/// `Read`, `Ended` or `Spent`. `Client` with `Refused` if an open, a close or a request on a route was refused, with
/// `Malformed` if a reply is too long, or with another fault of the client.
fn await_answer<R: Source>(
    client: &mut Client,
    turn: Turn,
    reader: &mut R,
    reply: &mut ReplyBuf,
) -> Result<(), AskFault>
    ensures { (written : Option (List ℕ)) (write_failures : ℕ) → IsAwaited turn
        (session_ends client.old (R.left reader.old) (R.reads reader.old) (R.failures reader.old)
        written write_failures reply.old.items)
        (session_ends client.new (R.left reader.new) (R.reads reader.new) (R.failures reader.new)
        written write_failures reply.new.items) result }
{
    let mut buffer = [0; LONGEST_READ];
    let mut is_heard = false;
    while !is_heard {
        let size = read(reader, &mut buffer)?;
        is_heard = feed_piece(client, turn, &buffer[..size], reply)?;
    }
    Ok(())
}

/// Reads one byte or more.
///
/// # Errors
///
/// `Ended` at the end of the stream, `Read` if the reader failed, `Spent` if its counters are used up.
fn read<R: Source>(reader: &mut R, into: &mut [u8; LONGEST_READ]) -> Result<usize, AskFault>
    ensures within { IfOk result (λ size. size ≤ LONGEST_READ) }
    ensures room { length into.new ≡ LONGEST_READ }
    ensures read { IsReadBy (R.left reader.old) (R.left reader.new) (R.reads reader.old) (R.reads reader.new)
        (R.failures reader.old) (R.failures reader.new) into.new result }
{
    if reader.reads() == u64::MAX || reader.failures() == u64::MAX {
        return Err(AskFault::Spent);
    }
    match reader.read(into) {
        // a read of no byte is the end of the stream
        Ok(0) => Err(AskFault::Ended),
        Ok(size) => Ok(size),
        Err(_) => Err(AskFault::Read),
    }
}

/// Feeds a whole piece to the client. Returns whether it has the awaited answer.
///
/// # Errors
///
/// `Client`, as for `keep`, or with the client's fault.
fn feed_piece(
    client: &mut Client,
    turn: Turn,
    piece: &[u8],
    reply: &mut ReplyBuf,
) -> Result<bool, AskFault>
    ensures { IsHeard turn client.old client.new reply.old.items reply.new.items piece.now result }
{
    let mut is_heard = false;
    let mut rest = piece;
    while !rest.is_empty() {
        if let Some(fault) = client.fault() {
            return Err(AskFault::Client(fault));
        }
        let hearing = client.feed(rest);
        let taken = hearing.taken;
        is_heard |= keep(turn, hearing.heard, reply)?;
        rest = &rest[taken..];
    }
    match client.fault() {
        Some(fault) => Err(AskFault::Client(fault)),
        None => Ok(is_heard),
    }
}

/// Stores a reply. Returns whether this is the awaited answer.
///
/// # Errors
///
/// `Client` with `Refused` if an open, a close or a request on a route was refused, or with `Malformed` if a reply is too long.
fn keep(turn: Turn, heard: Heard<'_>, reply: &mut ReplyBuf) -> Result<bool, AskFault>
    ensures { MatchResult result
        (λ is_heard. (is_heard ≡ is_answer turn (heard_event_in heard.entry))
        × (fault_heard turn (heard_event_in heard.entry) ≡ None)
        × (reply.new.items ≡ kept_after turn reply.old.items (heard_event_in heard.entry)))
        (λ fault. IsFaultHeard turn (heard_event_in heard.entry) fault × (reply.new.items ≡ reply.old.items)) }
{
    match (turn, heard) {
        (Turn::Register, Heard::Registered)
        | (Turn::Open, Heard::Opened)
        | (Turn::Close, Heard::Closed) => Ok(true),
        (Turn::Open | Turn::Request | Turn::Close, Heard::Refused(status, extended)) => {
            Err(AskFault::Client(ClientFault::Refused(status, extended)))
        }
        (Turn::Request, Heard::Reply(bytes) | Heard::Accepted(bytes)) => {
            // the capacity of a reply (ours)
            if bytes.len() > REPLY_LIMIT {
                return Err(AskFault::Client(ClientFault::Malformed));
            }
            reply.clear();
            let _ = reply.try_extend_from_slice(bytes);
            Ok(true)
        }
        _ => Ok(false),
    }
}
