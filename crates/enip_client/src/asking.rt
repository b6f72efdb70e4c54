//! One whole exchange over a reader and a writer.
//! Text: docs/PROTOCOL.md, "The client".

ghost use Rattle.std.specs.Prelude.{◌≡◌, ◌+◌, ◌<◌, ◌≤◌, length, true, None, IfOk, List};
ghost use Rattle.enip_wire.specs.Frames.{Frame};
ghost use Rattle.enip_client.specs.Asking.{IsAsked, IsAskedOver, IsRefused, IsPartial, ends, is_awaiting, read_faults, write_faults};
ghost use Rattle.enip_client.specs.AskSteps.{ask_phase_of, IsHealthy, IsPieceFed, IsRead};

use crate::client::Client;
use crate::fault::AskFault;
use crate::step::{Asked, Step, advance, send};
use cip_message::ReplyBuf;
use cip_route::Route;
use enip_wire::{Sink, Source};

/// The greatest number of bytes of one read (ours).
pub(crate) const LONGEST_READ: usize = 4_096;

/// Does one whole exchange: registers a session, opens a connection if `connected` is set, sends the request, waits for
/// its reply, closes the connection and unregisters. Each frame is sent as soon as the one before is answered, before a
/// further frame is processed.
///
/// The router's reply, at most 4,000 bytes, is left in `reply`. If the client cannot register, it is unchanged, and
/// nothing is read or written.
///
/// ```
/// let mut client = Client::new(alloc, &wants)?;
/// let mut reply = ReplyBuf::new();
/// ask(&mut client, &mut reader, &mut writer, request, true, &mut reply)?;
/// ```
///
/// # Errors
///
/// - `Read` or `Write` if that device failed.
/// - `Ended` if the input ended first.
/// - `Client` with the client's fault, or with the refusal of an open or a close. A longer reply is `Client` with
///   `Malformed`, which the client does not keep as its fault.
/// - `Submit` if the connection refuses the request.
/// - `Spent` if the reader cannot count another read.
pub fn ask<R: Source, W: Sink>(
    client: &mut Client,
    reader: &mut R,
    writer: &mut W,
    request: &[u8],
    connected: bool,
    reply: &mut ReplyBuf,
) -> Result<(), AskFault>
    requires read_failures { R.failures reader.old < u64.MAX }
    requires write_failures { W.failures writer.old < u64.MAX }
    ensures asked { IsAsked request.now connected
        (ends client.old (R.left reader.old) (R.reads reader.old) (W.written writer.old) reply.old.items)
        (ends client.new (R.left reader.new) (R.reads reader.new) (W.written writer.new) reply.new.items) result }
    ensures refused { IsRefused
        (ends client.old (R.left reader.old) (R.reads reader.old) (W.written writer.old) reply.old.items)
        (ends client.new (R.left reader.new) (R.reads reader.new) (W.written writer.new) reply.new.items) result }
    ensures read_failures { R.failures reader.new ≡ R.failures reader.old + read_faults result }
    ensures write_failures { W.failures writer.new ≡ W.failures writer.old + write_faults result }
{
    ask_over(
        client,
        reader,
        writer,
        &Route::new(),
        request,
        connected,
        reply,
    )
}

/// Does one whole exchange, as `ask` does, with a device at the end of a route. The session is the first router's. A
/// request without a connection goes in an Unconnected_Send. A connection is opened and closed over the route.
///
/// ```
/// let route = Route::parse(b"1/0")?;
/// ask_over(&mut client, &mut reader, &mut writer, &route, request, false, &mut reply)?;
/// ```
///
/// # Errors
///
/// As for `ask`. It is `Client` with `Refused` as well if a router did not pass the request on.
pub fn ask_over<R: Source, W: Sink>(
    client: &mut Client,
    reader: &mut R,
    writer: &mut W,
    route: &Route,
    request: &[u8],
    connected: bool,
    reply: &mut ReplyBuf,
) -> Result<(), AskFault>
    requires read_failures { R.failures reader.old < u64.MAX }
    requires write_failures { W.failures writer.old < u64.MAX }
    ensures asked { IsAskedOver route.now request.now connected
        (ends client.old (R.left reader.old) (R.reads reader.old) (W.written writer.old) reply.old.items)
        (ends client.new (R.left reader.new) (R.reads reader.new) (W.written writer.new) reply.new.items) result }
    ensures refused { IsRefused
        (ends client.old (R.left reader.old) (R.reads reader.old) (W.written writer.old) reply.old.items)
        (ends client.new (R.left reader.new) (R.reads reader.new) (W.written writer.new) reply.new.items) result }
    ensures read_failures { R.failures reader.new ≡ R.failures reader.old + read_faults result }
    ensures write_failures { W.failures writer.new ≡ W.failures writer.old + write_faults result }
{
    let asked = Asked {
        route,
        request,
        connected,
    };
    let frame = client.register()?;
    send(frame, writer)?;
    let mut step = Step::Registering;
    let mut buffer = [0; LONGEST_READ];
    while step.awaits() {
        let size = read(reader, &mut buffer)?;
        step = feed_piece(client, asked, step, &buffer[..size], writer, reply)?;
    }
    Ok(())
}

/// Reads at least one byte.
///
/// # Errors
///
/// `Spent`, `Ended` or `Read`.
pub(crate) fn read<R: Source>(
    reader: &mut R,
    into: &mut [u8; LONGEST_READ],
) -> Result<usize, AskFault>
    requires { R.failures reader.old < u64.MAX }
    ensures bytes { IsRead (R.left reader.old) (R.left reader.new) (R.reads reader.old) (R.reads reader.new)
        into.new result }
    ensures within { IfOk result (λ size. size ≤ LONGEST_READ) }
    ensures room { length into.new ≡ LONGEST_READ }
    ensures counted { IfOk result (λ _. R.reads reader.old < u64.MAX) }
    ensures failures { R.failures reader.new ≡ R.failures reader.old + read_faults result }
{
    if reader.reads() == u64::MAX {
        return Err(AskFault::Spent);
    }
    match reader.read(into) {
        // A read of 0 bytes is the end of the stream.
        Ok(0) => Err(AskFault::Ended),
        Ok(size) => Ok(size),
        Err(_) => Err(AskFault::Read),
    }
}

/// Feeds a piece to its end, or until the exchange is complete.
///
/// # Errors
///
/// `Client`, `Submit` or `Write`. Then the rest is not fed.
fn feed_piece<W: Sink>(
    client: &mut Client,
    asked: Asked<'_>,
    step: Step,
    piece: &[u8],
    writer: &mut W,
    reply: &mut ReplyBuf,
) -> Result<Step, AskFault>
    requires healthy { client.old.state.fault ≡ None }
    requires awaiting { is_awaiting (ask_phase_of step) ≡ true }
    requires failures { W.failures writer.old < u64.MAX }
    ensures heard { IsPartial client.old.held → (sent : List Frame) → IsPieceFed asked.entry step piece.now
        (record { client = client.old; written = W.written writer.old; reply = reply.old.items })
        (record { client = client.new; written = W.written writer.new; reply = reply.new.items }) result sent }
    ensures healthy { IsHealthy client.new.state result }
    ensures not_read { read_faults result ≡ 0 }
    ensures failures { W.failures writer.new ≡ W.failures writer.old + write_faults result }
{
    let mut step = step;
    let mut heard = 0;
    while heard < piece.len() && step.awaits() {
        let progress = advance(client, asked, step, &piece[heard..], writer, reply)?;
        heard += progress.taken;
        step = progress.step;
    }
    Ok(step)
}
