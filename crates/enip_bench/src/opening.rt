//! The opening of both ends: without loss, at moment 0.

ghost use Rattle.std.specs.Prelude.{◌≡◌, ℕ, Bool, Option, MatchResult};
ghost use Rattle.std.specs.Option.{option_map};
ghost use Rattle.enip_bench.specs.CountingOpening.{opening_between, exchange, is_registered_event, is_opened_event, begins};
ghost use Rattle.enip_bench.specs.Stored.{HasExchanged, HasBegun, HasOpened};
ghost use Rattle.enip_client.specs.Calls.{registers, opens};

use crate::bench::BenchFault;
use crate::world::feed_unanswered;
use enip_adapter::{Adapter, Peer};
use enip_client::{Client, Heard, Sent, write_register};

/// The client registers and opens its connection, then a second session registers. Returns both peers, the client's
/// first.
///
/// # Errors
///
/// `Setup` if a peer cannot begin, or the client cannot register or open its connection.
pub(crate) fn open_both(
    adapter: &mut Adapter,
    client: &mut Client,
) -> Result<(Peer, Peer), BenchFault>
    ensures { HasOpened (opening_between adapter.old client.old) adapter.new client.new result }
{
    let peer = begin(adapter)?;
    register(adapter, client, &peer)?;
    open(adapter, client, &peer)?;
    let second = begin(adapter)?;
    let mut frame = Sent::new();
    write_register(0, &mut frame);
    feed_unanswered(adapter, &second, &frame);
    Ok((peer, second))
}

/// Begins a peer.
///
/// # Errors
///
/// `Setup` if the adapter refuses it.
fn begin(adapter: &mut Adapter) -> Result<Peer, BenchFault>
    ensures { HasBegun adapter.old adapter.new result }
{
    adapter.begin().map_err(|_| BenchFault::Setup)
}

/// Registers the client's session.
///
/// # Errors
///
/// `Setup` if that is refused.
fn register(adapter: &mut Adapter, client: &mut Client, peer: &Peer) -> Result<(), BenchFault>
    ensures { HasExchanged (exchange (record { adapter = adapter.old; client = client.old }) peer.now is_registered_event
        (registers client.old.state)) adapter.new client.new result }
{
    let Ok(frame) = client.register() else {
        return Err(BenchFault::Setup);
    };
    let Some(answer) = adapter.feed(0, peer, frame).answer else {
        return Err(BenchFault::Setup);
    };
    match client.feed(answer).heard {
        Heard::Registered => Ok(()),
        _ => Err(BenchFault::Setup),
    }
}

/// Opens the client's connection.
///
/// # Errors
///
/// `Setup` if that is refused.
fn open(adapter: &mut Adapter, client: &mut Client, peer: &Peer) -> Result<(), BenchFault>
    ensures { HasExchanged (exchange (record { adapter = adapter.old; client = client.old }) peer.now is_opened_event
        (opens client.old.state)) adapter.new client.new result }
{
    let Ok(frame) = client.open() else {
        return Err(BenchFault::Setup);
    };
    let Some(answer) = adapter.feed(0, peer, frame).answer else {
        return Err(BenchFault::Setup);
    };
    match client.feed(answer).heard {
        Heard::Opened => Ok(()),
        _ => Err(BenchFault::Setup),
    }
}
