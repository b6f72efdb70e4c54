//! The adapter over a reader and a writer.

ghost use Rattle.std.specs.Prelude.{◌≡◌, ◌+◌, ◌<◌, ◌≤◌, length, if◌then◌else◌, true, false};
ghost use Rattle.std.specs.Prelude.{IfOk, MatchResult};
ghost use Rattle.std.specs.Io.KnownBytes.{Appends};
ghost use Rattle.enip_wire.specs.Devices.{failures_in};
ghost use Rattle.enip_adapter.specs.AdapterActions.{AreFeeds};
ghost use Rattle.enip_adapter.specs.Calls.{Call, call_meaning, call_answer, after_call};
ghost use Rattle.enip_adapter.specs.Serving.{serve_fault_number, is_peer_served, read_faults, write_faults};
ghost use Rattle.enip_adapter.specs.Serving.{output_bytes, AppendsFront, IsFedAll, IsServed, IfNothingFed};

use crate::adapter::Adapter;
use crate::peer::Peer;
use enip_wire::{Failed, Sink, Source, write_all};
use thiserror::Error;

/// The greatest number of bytes of one read (ours).
pub const LONGEST_READ: usize = 4_096;

/// The outcome of one `serve`.
#[derive(Clone, Copy, Debug, PartialEq, Eq)]
pub enum Served {
    /// At least one byte was read, all of it was fed, and each answer was written.
    More,
    /// The reader is at its end.
    Input,
    /// The adapter closed the connection, or the peer was closed or not held before.
    Closed,
}

/// Which device failed.
#[derive(Clone, Copy, Debug, PartialEq, Eq, Error)]
pub enum ServeFault {
    /// The reader.
    #[error("the reader failed")]
    Read = 1,
    /// The writer.
    #[error("the writer failed")]
    Write = 2,
}

impl ServeFault {
    /// The number of this fault in printed output.
    pub fn number(self) -> u8
        ensures { result ≡ serve_fault_number self }
    {
        self as u8
    }
}

/// Serves a peer once: one read of at most 4,096 bytes, which are fed at the reader's moment after that read. Each
/// answer is written before more is fed. A peer that is closed or not held is answered `Closed`, and neither device is
/// called.
///
/// After `Write` and `Closed`, the rest of the read is not fed. The peer is not ended.
///
/// `buffer` is scratch space for the read. Its old content is never used, so it need not be cleared.
///
/// ```
/// let mut buffer = [0; LONGEST_READ];
/// let served = serve(&mut adapter, &peer, &mut reader, &mut writer, &mut buffer);
/// ```
///
/// # Errors
///
/// `ServeFault::Read` if the read failed, `ServeFault::Write` if a write failed.
#[tactic(auto, using(crate::proofs::ActionLemmas::no_feeds))]
pub fn serve<R: Source, W: Sink>(
    adapter: &mut Adapter,
    peer: &Peer,
    reader: &mut R,
    writer: &mut W,
    buffer: &mut [u8; LONGEST_READ],
) -> Result<Served, ServeFault>
    requires reads { R.reads reader.old < u64.MAX }
    requires read_failures { R.failures reader.old < u64.MAX }
    requires write_failures { W.failures writer.old < u64.MAX }
    ensures served { is_peer_served adapter.old peer.now ≡ true → IsServed (R.moment reader.new) peer.now
        (record { adapter = adapter.old; left = R.left reader.old; written = W.written writer.old })
        (record { adapter = adapter.new; left = R.left reader.new; written = W.written writer.new }) result }
    ensures feeds { AreFeeds (R.moment reader.new) peer.now adapter.old adapter.new }
    ensures nothing_fed { IfNothingFed result ((adapter.new ≡ adapter.old) × (writer.new ≡ writer.old)) }
    ensures not_served { is_peer_served adapter.old peer.now ≡ false → (result ≡ Ok Served.Closed)
        × (adapter.new ≡ adapter.old) × (reader.new ≡ reader.old) × (writer.new ≡ writer.old) }
    ensures reads { R.reads reader.new
        ≡ R.reads reader.old + (if is_peer_served adapter.old peer.now then 1 else 0) }
    ensures read_failures { R.failures reader.new ≡ R.failures reader.old + read_faults result }
    ensures write_failures { W.failures writer.new ≡ W.failures writer.old + write_faults result }
{
    // A connection that is over is not read (ours).
    if !adapter.is_served(peer) {
        return Ok(Served::Closed);
    }
    let Ok(size) = reader.read(buffer) else {
        return Err(ServeFault::Read);
    };
    // A read of 0 bytes is the end of the stream: the peer closed its side.
    if size == 0 {
        return Ok(Served::Input);
    }
    match feed_all(adapter, reader.moment(), peer, &buffer[..size], writer) {
        Ok(false) => Ok(Served::More),
        Ok(true) => Ok(Served::Closed),
        Err(_) => Err(ServeFault::Write),
    }
}

/// Feeds a piece until nothing is left or the peer is closed, and writes each answer. Returns whether the peer is
/// closed.
///
/// # Errors
///
/// `Failed` if a write failed. Then the rest is not fed.
fn feed_all<W: Sink>(
    adapter: &mut Adapter,
    now: u64,
    peer: &Peer,
    piece: &[u8],
    writer: &mut W,
) -> Result<bool, Failed>
    requires { W.failures writer.old < u64.MAX }
    ensures feeds { AreFeeds now peer.now adapter.old adapter.new }
    ensures fed { IsFedAll now peer.now adapter.old piece.now adapter.new
        (W.written writer.old) (W.written writer.new) result }
    ensures failures { W.failures writer.new ≡ W.failures writer.old + failures_in result }
{
    let mut fed = 0;
    while fed < piece.len() {
        let (taken, close) = feed_once(adapter, now, peer, &piece[fed..], writer)?;
        if close {
            return Ok(true);
        }
        fed += taken;
    }
    Ok(false)
}

/// Feeds a piece once, and writes the answer. Returns the number of bytes taken, and whether the peer is closed.
///
/// # Errors
///
/// `Failed` if a write failed.
fn feed_once<W: Sink>(
    adapter: &mut Adapter,
    now: u64,
    peer: &Peer,
    piece: &[u8],
    writer: &mut W,
) -> Result<(usize, bool), Failed>
    requires { W.failures writer.old < u64.MAX }
    ensures state { adapter.new ≡ after_call adapter.old (Call.Feeds now peer.now piece.now) }
    ensures taken { IfOk result (λ step. step.0
        ≡ (call_meaning adapter.old (Call.Feeds now peer.now piece.now)).taken) }
    ensures close { IfOk result (λ step. step.1
        ≡ (call_answer adapter.old (Call.Feeds now peer.now piece.now)).close) }
    ensures within { IfOk result (λ step. step.0 ≤ length piece.now) }
    ensures progress { IfOk result (λ step. 0 < length piece.now → step.1 ≡ false → 0 < step.0) }
    ensures bytes { MatchResult result
        (λ _. Appends (W.written writer.old) (W.written writer.new)
        (output_bytes (call_answer adapter.old (Call.Feeds now peer.now piece.now)).output))
        (λ _. AppendsFront (W.written writer.old) (W.written writer.new)
        (output_bytes (call_answer adapter.old (Call.Feeds now peer.now piece.now)).output)) }
    ensures failures { W.failures writer.new ≡ W.failures writer.old + failures_in result }
{
    let fed = adapter.feed(now, peer, piece);
    if let Some(frame) = fed.answer {
        write_all(writer, frame)?;
    }
    Ok((fed.taken, fed.close))
}
