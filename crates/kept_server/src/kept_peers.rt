//! Peers of a device whose state is kept.

ghost use Rattle.std.specs.Prelude.{◌≡◌};
ghost use Rattle.enip_keep.specs.Kept.{Kept, pairs_of};
ghost use Rattle.enip_server.specs.Rounds.{state_of};
ghost use Rattle.kept_server.specs.Changes.{keys_of, newest};
ghost use Rattle.kept_server.specs.Savings.{kept_by};
ghost use Rattle.kept_server.specs.Rounds.{DeviceContents, RoundRequests, SendsHeld, SendsNothing, TakesRound};
ghost use Rattle.kept_server.specs.Rounds.{after_round, contents_with, kept_of, nothing_by_itself};

use crate::changes::copy_all;
use crate::guest::RoundGuest;
use crate::kept_device::KeptDevice;
use crate::round::{RoundInput, take_round};
use crate::table::EntryTable;
use enip_keep::{Device, Entry, KeepError};
use enip_server::{HeldWire, Peers, RoundEnd, Wire};
use std::alloc::Global;
use std::marker::PhantomData;

/// The peers of a device whose state is kept: each answer is held back until what it reports is kept.
///
/// It is the device of an `enip_keep::Server`, which calls it in rounds. The answers of a round leave once its changes
/// are committed, and none of them leaves if that fails.
///
/// `G` is the guest of the rounds: the port of an owner, or `NoWatcher` if the device has none. It is passed to each round,
/// and between rounds nothing changes the peers.
///
/// ```
/// let mut server = Server::<KeptPeers<TcpWire, DeviceConfig, NoWatcher>, Rows>::start(alloc, keeper, &configuration)?;
/// server.round(RoundInput { now, accepted, ready, room_for }, &mut NoWatcher)?;
/// let end = server.device().last_round();
/// ```
pub struct KeptPeers<W: Wire + Drop, C: KeptDevice, G> {
    alloc: Global,
    peers: Peers<HeldWire<W>>,
    table: EntryTable,
    last_round: RoundEnd,
    configuration: PhantomData<C>,
    guest: PhantomData<G>,
    ghost keys: { keys_of (pairs_of (newest table.is_settled table.kept table.current).entries.items)
        ≡ C.keys (state_of peers).adapter },
}

// Written out, so that each exit of a function that owns one calls it, and has no drop of every part.
impl<W: Wire + Drop, C: KeptDevice, G> Drop for KeptPeers<W, C, G> {
    fn drop(self) {
        let KeptPeers {
            alloc: _,
            peers: _,
            table: _,
            last_round: _,
            configuration: _,
            guest: _,
        } = self;
    }
}

impl<W: Wire + Drop, C: KeptDevice, G> KeptPeers<W, C, G> {
    /// The peers, to be read between rounds: the first free slot, the adapter, the answers to datagrams.
    pub fn peers(&self) -> &Peers<HeldWire<W>>
        ensures { result.now ≡ self.now.peers }
    {
        &self.peers
    }

    /// The end of the last round.
    pub fn last_round(&self) -> RoundEnd
        ensures { result ≡ self.now.last_round }
    {
        self.last_round
    }
}

impl<W: Wire + Drop, C: KeptDevice, G: RoundGuest<W>> Device for KeptPeers<W, C, G> {
    type Configuration = C;

    type Input = RoundInput<W>;

    type Guest = G;

    ghost Contents = { DeviceContents };

    ghost Requests = { RoundRequests W };

    ghost executed = { after_round C.saved };

    ghost kept_part = { kept_of };

    ghost started = { λ configuration found.
        contents_with C.saved (C.waiting configuration found) found (C.started configuration found) };

    ghost refuses = { C.refuses };

    ghost brings = { λ input requests. requests.input ≡ input };

    ghost contents = { λ d. record {
      adapter = (state_of d.peers).adapter;
      saved = pairs_of (newest d.table.is_settled d.table.kept d.table.current).entries.items;
      waits = (newest d.table.is_settled d.table.kept d.table.current).waits.items;
      found = pairs_of d.table.found.items;
    } };

    ghost known_kept = { λ d. kept_by d.table.kept (pairs_of d.table.found.items) };

    ghost sends_nothing = { λ old new. SendsNothing W.written (state_of old.peers) (state_of new.peers) };

    ghost holds_answers = { λ old requests new. (first : G) × (last : G)
        × TakesRound W.left W.written G.RoundOwner.answer G.RoundOwner.after G.begins G.admits requests first
        (state_of old.peers) last (state_of new.peers) new.last_round };

    ghost sends_held = { λ old new. SendsHeld W.left W.written W.known W.counts (state_of old.peers) (state_of new.peers)
        old.last_round new.last_round };

    fn start(alloc: Global, configuration: &C, entries: &[Entry]) -> Result<Self, KeepError> {
        let adapter = configuration.start(alloc, entries)?;
        let mut found = Vec::new(alloc);
        copy_all(alloc, entries, &mut found)?;
        let mut current = Vec::new(alloc);
        C::save(alloc, &adapter, &mut current)?;
        let waiting = configuration.waiting(alloc, entries)?;
        let table = EntryTable::new(alloc, found, current, waiting.as_slice())?;
        let peers = Peers::new(alloc, adapter, configuration.idle_timeout())?;
        let last_round = RoundEnd {
            ended: 0,
            ready: false,
            next: peers.next_moment(),
        };
        Ok(KeptPeers {
            alloc,
            peers,
            table,
            last_round,
            configuration: PhantomData,
            guest: PhantomData,
        })
    }

    fn serve(&mut self, input: RoundInput<W>, guest: &mut G) -> Result<(), KeepError> {
        self.last_round = take_round(&mut self.peers, input, guest);
        if C::is_saved(self.peers.adapter(), self.table.newest()) {
            return Ok(());
        }
        C::save(
            self.alloc,
            self.peers.adapter(),
            &mut self.table.next.entries,
        )?;
        self.table.update(self.alloc)?;
        Ok(())
    }

    fn changes(&self) -> &[Entry] {
        self.table.changes()
    }

    fn release(&mut self) {
        self.table.settle();
        self.last_round.ready = self.peers.release();
    }

    ghost silent = { λ d. nothing_by_itself W.written (state_of d.peers) };
}
