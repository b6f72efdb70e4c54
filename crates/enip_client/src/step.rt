//! The steps of an exchange: what is heard in a piece, and the call that follows.

ghost use Rattle.std.specs.Prelude.{◌≡◌, ◌+◌, ◌<◌, ◌≤◌, length, true, None, IfOk, MatchResult};
ghost use Rattle.std.specs.Io.KnownBytes.{Appends};
ghost use Rattle.enip_wire.specs.Stream.{bytes_taken};
ghost use Rattle.enip_client.specs.Calls.{after_lending};
ghost use Rattle.enip_client.specs.Client.{with_state, heard_event_in};
ghost use Rattle.enip_client.specs.Asking.{is_awaiting, read_faults, write_faults};
ghost use Rattle.enip_client.specs.AskSteps.{ask_phase_of, step_after, called, next_of, reply_after, IsPerformed, FailsWithin};
ghost use Rattle.enip_client.specs.AskSteps.{step_in, IsAdvanced, IsHealthy, kept, fits};

use crate::client::Client;
use crate::fault::{AskFault, ClientFault};
use crate::hearing::Heard;
use cip_bytes::protocol::REPLY_LIMIT;
use cip_message::ReplyBuf;
use cip_route::Route;
use enip_wire::{Sink, write_all};

/// Which reply is awaited.
#[derive(Clone, Copy)]
pub(crate) enum Step {
    Registering,
    Opening,
    Requesting,
    Closing,
    Completed,
}

impl Step {
    /// Whether a reply is awaited.
    pub(crate) fn awaits(self) -> bool
        ensures { result ≡ is_awaiting (ask_phase_of self) }
    {
        !matches!(self, Step::Completed)
    }
}

/// The call that follows what was heard.
#[derive(Clone, Copy)]
pub(crate) enum Call {
    Open,
    Request,
    Close,
    Leave,
}

impl Call {
    /// Which reply is awaited after this call.
    fn step(self) -> Step
        ensures { result ≡ step_after self }
    {
        match self {
            Call::Open => Step::Opening,
            Call::Request => Step::Requesting,
            Call::Close => Step::Closing,
            Call::Leave => Step::Completed,
        }
    }
}

/// A request, its route, and whether it goes on a connection.
#[derive(Clone, Copy)]
pub(crate) struct Asked<'a> {
    pub(crate) route: &'a Route,
    pub(crate) request: &'a [u8],
    pub(crate) connected: bool,
}

/// How many bytes of a piece were taken, and which reply is awaited after them.
#[derive(Clone, Copy)]
pub(crate) struct Progress {
    pub(crate) taken: usize,
    pub(crate) step: Step,
}

/// Feeds a piece up to the end of one frame, and sends what follows.
///
/// # Errors
///
/// `Client`, `Submit` or `Write`.
pub(crate) fn advance<W: Sink>(
    client: &mut Client,
    asked: Asked<'_>,
    step: Step,
    piece: &[u8],
    writer: &mut W,
    reply: &mut ReplyBuf,
) -> Result<Progress, AskFault>
    requires healthy { client.old.state.fault ≡ None }
    requires awaiting { is_awaiting (ask_phase_of step) ≡ true }
    requires failures { W.failures writer.old < u64.MAX }
    ensures heard { IsAdvanced asked.entry step piece.now
        (record { client = client.old; written = W.written writer.old; reply = reply.old.items })
        (record { client = client.new; written = W.written writer.new; reply = reply.new.items }) (step_in result) }
    ensures taken { IfOk result (λ progress. progress.taken ≡ bytes_taken client.old.held piece.now) }
    ensures within { IfOk result (λ progress. progress.taken ≤ length piece.now) }
    ensures some { IfOk result (λ progress. 0 < length piece.now → 0 < progress.taken) }
    ensures some_fed { 0 < length piece.now → 0 < bytes_taken client.old.held piece.now }
    ensures healthy { IsHealthy client.new.state (step_in result) }
    ensures not_read { read_faults result ≡ 0 }
    ensures failures { W.failures writer.new ≡ W.failures writer.old + write_faults result }
{
    let hearing = client.feed(piece);
    let taken = hearing.taken;
    let next = next_call(step, asked.connected, hearing.heard, reply)?;
    if let Some(fault) = client.fault() {
        return Err(AskFault::Client(fault));
    }
    match next {
        None => Ok(Progress { taken, step }),
        Some(call) => {
            perform(client, asked, call, writer)?;
            Ok(Progress {
                taken,
                step: call.step(),
            })
        }
    }
}

/// The call that follows what was heard. A reply is left in `reply`.
///
/// # Errors
///
/// `Client` if an open, a close or a request on a route was refused, or a reply is too long.
fn next_call(
    step: Step,
    connected: bool,
    heard: Heard<'_>,
    reply: &mut ReplyBuf,
) -> Result<Option<Call>, AskFault>
    ensures next { result ≡ next_of step connected (heard_event_in heard.entry) }
    ensures not_read { read_faults result ≡ 0 }
    ensures reply { reply.new.items ≡ reply_after step (heard_event_in heard.entry) reply.old.items }
{
    match (step, heard) {
        (Step::Registering, Heard::Registered) if connected => Ok(Some(Call::Open)),
        (Step::Registering, Heard::Registered) | (Step::Opening, Heard::Opened) => {
            Ok(Some(Call::Request))
        }
        (Step::Opening | Step::Requesting | Step::Closing, Heard::Refused(status, extended)) => {
            Err(AskFault::Client(ClientFault::Refused(status, extended)))
        }
        (Step::Requesting, Heard::Reply(bytes) | Heard::Accepted(bytes)) => {
            keep(bytes, reply)?;
            Ok(Some(if connected { Call::Close } else { Call::Leave }))
        }
        (Step::Closing, Heard::Closed) => Ok(Some(Call::Leave)),
        _ => Ok(None),
    }
}

/// Keeps a reply.
///
/// # Errors
///
/// `Client` with `Malformed` if it is too long. Then nothing changes.
fn keep(bytes: &[u8], reply: &mut ReplyBuf) -> Result<(), AskFault>
    ensures fits { result ≡ fits bytes.now }
    ensures reply { reply.new.items ≡ kept reply.old.items bytes.now }
{
    // The capacity of a reply buffer (ours).
    if bytes.len() > REPLY_LIMIT {
        return Err(AskFault::Client(ClientFault::Malformed));
    }
    reply.clear();
    let _ = reply.try_extend_from_slice(bytes);
    Ok(())
}

/// Makes a call and sends its frame.
///
/// # Errors
///
/// `Client` or `Submit` if the call was refused, otherwise `Write`.
fn perform<W: Sink>(
    client: &mut Client,
    asked: Asked<'_>,
    call: Call,
    writer: &mut W,
) -> Result<(), AskFault>
    requires { W.failures writer.old < u64.MAX }
    ensures state { client.new ≡ with_state client.old (after_lending client.old.state
        (called asked.entry.route.now call client.old.state asked.entry.request.now asked.entry.connected)) }
    ensures not_read { read_faults result ≡ 0 }
    ensures performed { IsPerformed
        (called asked.entry.route.now call client.old.state asked.entry.request.now asked.entry.connected)
        (W.written writer.old) (W.written writer.new) result }
    ensures failures { W.failures writer.new ≡ W.failures writer.old + write_faults result }
{
    match call {
        Call::Open => {
            let frame = client.open_over(asked.route)?;
            send(frame, writer)
        }
        Call::Request if asked.connected => {
            let frame = client.submit(asked.request)?;
            send(frame, writer)
        }
        Call::Request => {
            let frame = client.unconnected_over(asked.route, asked.request)?;
            send(frame, writer)
        }
        Call::Close => {
            let frame = client.close_over(asked.route)?;
            send(frame, writer)
        }
        Call::Leave => {
            let frame = client.unregister()?;
            send(frame, writer)
        }
    }
}

/// Sends a frame.
///
/// # Errors
///
/// `Write` if the writer failed.
pub(crate) fn send<W: Sink>(frame: &[u8], writer: &mut W) -> Result<(), AskFault>
    requires { W.failures writer.old < u64.MAX }
    ensures not_read { read_faults result ≡ 0 }
    ensures written { MatchResult result
        (λ _. Appends (W.written writer.old) (W.written writer.new) frame.now)
        (λ fault. FailsWithin (W.written writer.old) (W.written writer.new) frame.now fault) }
    ensures failures { W.failures writer.new ≡ W.failures writer.old + write_faults result }
{
    match write_all(writer, frame) {
        Ok(()) => Ok(()),
        Err(_) => Err(AskFault::Write),
    }
}
