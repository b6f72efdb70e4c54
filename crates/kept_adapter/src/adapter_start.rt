//! What an adapter is made from.
ghost use Rattle.std.specs.Prelude.{◌≡◌, ◌≤◌, None};
ghost use Rattle.std.specs.Option.{ForSome};
ghost use Rattle.cip_objects.specs.Configuration.{fault_of};

use cip_objects::Config;
use enip_adapter::{Limits, Listen, Shares};

/// A command ledger as it is configured.
#[derive(Clone, Copy, Debug)]
pub struct LedgerStart {
    /// How many originators have a slot, 1 to 64.
    pub originators: u16,
    /// The number of the life that the device is in if its ledger starts empty. It must be one that the device was not in
    /// before.
    pub life: u64,
}

/// What an adapter is made from: the configuration of its objects, its ledger, its queue, its limits, and whether it can be
/// reset. The objects
/// accept their configuration.
///
/// ```
/// let start = AdapterStart {
///     objects,
///     ledger: None,
///     queue: None,
///     begins_life: false,
///     reset: false,
///     listen,
///     limits,
///     shares: Shares::NONE,
///     idle_timeout: 60_000_000,
/// };
/// let mut server = Server::<KeptPeers<TcpWire, AdapterStart, NoWatcher>, Rows>::start(alloc, keeper, &start)?;
/// ```
#[derive(Debug, Drop)]
pub struct AdapterStart {
    /// The configuration of the objects.
    pub objects: Config,
    /// The command ledger, if there is one.
    pub ledger: Option<LedgerStart>,
    /// How many commands may wait in the queue, 1 to 256, if there is one.
    pub queue: Option<u16>,
    /// Whether the ledger and the queue start empty, in a life of their own, whatever is kept of them.
    pub begins_life: bool,
    /// Whether peers may reset the device. A Reset of type 1 puts the values back that `objects` gives.
    pub reset: bool,
    /// The address and the port that ListIdentity reports.
    pub listen: Listen,
    /// The capacity, and the first numbers that are assigned.
    pub limits: Limits,
    /// How much of the adapter one group of peers may hold.
    pub shares: Shares,
    /// For how long a peer may send nothing, in microseconds.
    pub idle_timeout: u64,
    ghost accepted: { fault_of objects ≡ None },
    ghost slots_from: { ForSome ledger (λ l. 1 ≤ l.originators) },
    ghost slots_to: { ForSome ledger (λ l. l.originators ≤ 64) },
    ghost queue_from: { ForSome queue (λ n. 1 ≤ n) },
    ghost queue_to: { ForSome queue (λ n. n ≤ 256) },
    ghost peers_from: { 1 ≤ limits.peers },
    ghost peers_to: { limits.peers ≤ 16 },
    ghost connections_from: { 1 ≤ limits.connections },
    ghost connections_to: { limits.connections ≤ 64 },
    ghost handle: { 1 ≤ limits.first_handle },
    ghost id: { 1 ≤ limits.first_id },
    ghost share_from: { 1 ≤ shares.peers },
    ghost share_to: { shares.peers ≤ 16 },
    ghost connection_share_from: { 1 ≤ shares.connections },
    ghost connection_share_to: { shares.connections ≤ 64 },
}
