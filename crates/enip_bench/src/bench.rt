//! The bench: an adapter and a client in one process, and the frames in flight between them.
//! Text: docs/EXACTLY-ONCE.md, "The premises, and what goes wrong without each".

ghost use Rattle.std.specs.Prelude.{◌≡◌, IfOk};
ghost use Rattle.std.specs.Borrow.{sem};
ghost use Rattle.std.specs.Io.BufRead.{Rests};
ghost use Rattle.enip_bench.specs.CountingOpening.{opening_between};
ghost use Rattle.enip_bench.specs.Stored.{acceptances_in, last_reply, IsOpenBetween};

use crate::event::{Event, Step};
use crate::frames::Frames;
use crate::opening::open_both;
use crate::world::{Accepted, World};
use cip_class3::Stage;
use cip_ledger::Ledger;
use cip_objects::Objects;
use cip_owner::{OwnerReply, Queue, Resetting};
use enip_adapter::{Adapter, Peer};
use enip_client::Client;
use std::alloc::{AllocError, Global};
use std::marker::Model;
use thiserror::Error;

/// Why a bench could not be made.
#[derive(Clone, Copy, Debug, PartialEq, Eq, Error)]
pub enum BenchFault {
    /// Out of memory.
    #[error("memory")]
    Memory = 1,
    /// A peer could not begin, or the client could not register or open its connection.
    #[error("setup")]
    Setup = 2,
}

impl From<AllocError> for BenchFault {
    ghost use Rattle.enip_bench.specs.declared.bench.BenchFault.TheVariants.{Memory};

    ghost from_gives = { λ _ fault. fault ≡ Memory };

    fn from(_error: AllocError) -> BenchFault {
        BenchFault::Memory
    }
}

/// What both ends show to the outside.
#[derive(Clone, Copy)]
pub struct Seen<'a> {
    /// The adapter's objects.
    pub objects: &'a Objects,
    /// The reply that the next request to the owner of the device takes, if one is prepared.
    pub prepared: Option<&'a OwnerReply>,
    /// The adapter's queue of commands, if it has one.
    pub queue: Option<&'a Queue>,
    /// What the adapter needs to be reset, if it can be.
    pub reset: Option<&'a Resetting>,
    /// The adapter's command ledger, if it has one.
    pub ledger: Option<&'a Ledger>,
    /// Every frame from the adapter to the client, by position.
    pub back: &'a Frames,
    /// Every reply that the client accepted, in order.
    pub accepted: &'a [Accepted],
    /// Whether the client is idle, waits for a reply, or has given up.
    pub stage: Stage,
}

/// How many frames each direction has capacity for at first.
const FIRST_CAPACITY: usize = 16;

/// An adapter and a client with an open connection, and a second session at the adapter.
///
/// A reply is lost, and the request is sent again. It is executed once:
///
/// ```
/// fn lose_a_reply(bench: &mut Bench, request: Vec<u8>) -> Result<Stage, AllocError> {
///     bench.step(&Event::Submit(request))?; // Step::Sent(0, 0)
///     bench.step(&Event::Reach(0))?; // Step::Reached(Some(0)): executed
///     bench.step(&Event::Resend)?; // Step::Resent(Some(1))
///     bench.step(&Event::Reach(1))?; // Step::Reached(Some(1)): the same reply again
///     bench.step(&Event::Back(1))?; // Step::Accepted(..)
///     Ok(bench.seen().stage) // Stage::Idle
/// }
/// ```
pub struct Bench {
    world: World,
}

/// Not derived, so that the caller's proof uses this one call instead of the drop of each part.
impl Drop for Bench {
    fn drop(self) {
        let Bench { world: _ } = self;
    }
}

impl Model for Bench {
    ghost use Rattle.std.specs.Coded.{codes};
    ghost use Rattle.enip_adapter.specs.Stored.{adapter_code};
    ghost use Rattle.enip_bench.specs.CountingWorld.{CountingWorld};

    ghost Value = { CountingWorld };

    ghost coded = { Prim.hlevel (codes, adapter_code) };

    ghost use Rattle.enip_bench.specs.Stored.{world_in, IsOfOpening};

    ghost view = { λ b. world_in b.world };

    ghost invariant = { λ b. IsOfOpening b.world };
}

impl Bench {
    ghost use Rattle.enip_bench.specs.CountingWorld.{counting_seen};
    ghost use Rattle.enip_bench.specs.Reached.{IsNewAdapter, IsNewClient};
    ghost use Rattle.enip_bench.specs.CountingWorld.{counting_run};
    ghost use Rattle.enip_bench.specs.FrameLaw.{headline, ShowsNumbers};
    ghost use Rattle.enip_bench.specs.Stored.{event_in, events_in, events_done, IsOpening, NamesAnEvent, after_step, seen_in};
    ghost use Rattle.enip_bench.specs.Stored.{event_result_in};
    ghost use Rattle.enip_bench.specs.EventResults.{event_result};
    ghost use Rattle.enip_bench.specs.contracts.bench.Bench.{the_row};

    /// Makes a bench of a new adapter and a new client. The client registers and opens its connection without loss at
    /// moment 0. Then a second session registers.
    ///
    /// # Errors
    ///
    /// `Memory` if memory is refused. `Setup` if a peer cannot begin, or the client cannot register or open its
    /// connection.
    pub fn new(alloc: Global, adapter: Adapter, client: Client) -> Result<Bench, BenchFault>
        requires adapter { IsNewAdapter adapter }
        requires client { IsNewClient client }
        ensures { IsOpening (opening_between adapter client) result }
    {
        let mut adapter = adapter;
        let mut client = client;
        let InFlight {
            peer,
            second,
            sent,
            back,
            accepted,
        } = InFlight::open(alloc, &mut adapter, &mut client)?;
        Ok(Bench {
            world: World {
                alloc,
                adapter,
                client,
                peer,
                second,
                sent,
                back,
                last_reached: None,
                last_back: None,
                submits: 0,
                accepted,
            },
        })
    }

    /// Does an event and reports its outcome. All memory is reserved before either end is called.
    ///
    /// # Errors
    ///
    /// `AllocError` if memory is refused. Then nothing was done.
    pub fn step(&mut self, event: &Event) -> Result<Step<'_>, AllocError>
        ensures* moved { sem 𝓛 (Rests the_row self.entry (λ new. new
            ≡ after_step self.old (event_in event.now) result)) }
        ensures step_kind { IfOk result (λ step. event_result_in step ≡ event_result self.old (event_in event.now)) }
    {
        let step_kind = self.world.step(event)?;
        Ok(step_kind.step(last_reply(&self.world.accepted)))
    }

    /// Does these events, in order.
    ///
    /// # Errors
    ///
    /// The position of the first event that was not done, if memory is refused. Exactly the events before it were done.
    pub fn run(&mut self, events: &[Event]) -> Result<(), (usize, AllocError)>
        ensures moved { self.new ≡ counting_run self.old (events_done (events_in events.now) result) }
        ensures within { NamesAnEvent (events_in events.now) result }
        ensures headline { headline self.old (events_done (events_in events.now) result) self.new }
    {
        for (position, event) in events.iter().enumerate() {
            if let Err(error) = self.world.step(event) {
                return Err((position, error));
            }
        }
        Ok(())
    }

    /// What both ends show, which is what the numbered world shows after all events since the opening.
    pub fn seen(&self) -> Seen<'_>
        ensures seen { seen_in result ≡ counting_seen self.now }
        ensures headline { ShowsNumbers self.now (seen_in result) }
    {
        Seen {
            objects: self.world.adapter.objects(),
            prepared: self.world.adapter.prepared(),
            queue: self.world.adapter.queue(),
            reset: self.world.adapter.resetting(),
            ledger: self.world.adapter.ledger(),
            back: &self.world.back,
            accepted: &self.world.accepted,
            // never `None`: the client's connection stays open
            stage: self.world.client.stage().unwrap_or(Stage::Idle),
        }
    }
}

/// The peers of two open ends, and what is between the ends.
#[derive(Drop)]
struct InFlight {
    peer: Peer,
    second: Peer,
    sent: Frames,
    back: Frames,
    accepted: Vec<Accepted>,
}

impl InFlight {
    /// Opens both ends, after reserving memory for what is between them.
    fn open(
        alloc: Global,
        adapter: &mut Adapter,
        client: &mut Client,
    ) -> Result<InFlight, BenchFault>
        ensures { IsOpenBetween (opening_between adapter.old client.old) adapter.new client.new result }
    {
        let sent = Frames::with_capacity_for(alloc, FIRST_CAPACITY)?;
        let back = Frames::with_capacity_for(alloc, FIRST_CAPACITY)?;
        let accepted = Vec::with_capacity(alloc, FIRST_CAPACITY)?;
        let (peer, second) = open_both(adapter, client)?;
        Ok(InFlight {
            peer,
            second,
            sent,
            back,
            accepted,
        })
    }
}

/// The last accepted reply. Empty if none was accepted.
fn last_reply(accepted: &[Accepted]) -> &[u8]
    ensures { result.now ≡ last_reply (acceptances_in accepted.now) }
{
    match accepted.last() {
        Some(one) => one.reply.as_slice(),
        None => &[],
    }
}
