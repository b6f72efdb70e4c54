//! The adapter that a configuration describes.
//! Text: docs/PROGRAM.md, "The configuration".

ghost use Rattle.std.specs.Prelude.{◌≡◌, ◌≤◌, IfOk, IfErr, IfSome};
ghost use Rattle.cip_ledger.specs.Device.{queued_device, with_reset};
ghost use Rattle.cip_objects.specs.Configuration.{contents_of_config, fault_of};
ghost use Rattle.enip_adapter.specs.Adapter.{shared_adapter};
ghost use Rattle.configured_adapter.specs.Configured.{IsAccepted, IsAdapterOf, IsUnsharedAdapterOf, AreLimits, ledger_from};
ghost use Rattle.configured_adapter.specs.Configured.{queue_from, limits_of, listen_of, reset_from, shares_from};
ghost use Rattle.enip_config.specs.Commands.{queue_limit};
ghost use Rattle.enip_config.specs.Access.{HasShares};
ghost use Rattle.enip_config.specs.Documents.{IsFaultOf, IsInRange, IsQueueInRange, AreSharesInRange};

use cip_ledger::Ledger;
use cip_objects::Objects;
use cip_owner::{Queue, Resetting};
use enip_access::Access;
use enip_adapter::{Adapter, Limits, Listen, Shares};
use enip_config::{Configuration, LedgerConfig, LoadFault, fault_of_objects};
use std::alloc::{AllocError, Global};

/// Makes the adapter that the bytes of a configuration describe. It has no peers yet.
///
/// # Errors
///
/// `LoadFault::Refused` if `Configuration::from_bytes` refuses the configuration, with the first check that fails.
/// `LoadFault::Memory` if memory is refused.
#[tactic(auto, using(crate::proofs::ObjectLemmas::limits_by))]
pub fn adapter_from(alloc: Global, config: &[u8]) -> Result<Adapter, LoadFault>
    ensures made { IfOk result (IsAdapterOf config.now) }
    ensures accepted { IfOk result (λ _. IsAccepted config.now) }
    ensures refused { IfErr result (IsFaultOf config.now) }
{
    let configuration = Configuration::from_bytes(alloc, config)?;
    let objects = objects_of(alloc, &configuration)?;
    let shares = shares_from(&configuration.access);
    let adapter = adapter_of(alloc, objects, &configuration, configuration.ledger, shares)?;
    Ok(adapter)
}

/// Makes the same adapter, but without the shares of the table `access`: for peers that have no addresses.
///
/// # Errors
///
/// As `adapter_from`.
#[tactic(auto, using(crate::proofs::ObjectLemmas::limits_by))]
pub fn unshared_adapter_from(alloc: Global, config: &[u8]) -> Result<Adapter, LoadFault>
    ensures made { IfOk result (IsUnsharedAdapterOf config.now) }
    ensures accepted { IfOk result (λ _. IsAccepted config.now) }
    ensures refused { IfErr result (IsFaultOf config.now) }
{
    let configuration = Configuration::from_bytes(alloc, config)?;
    let objects = objects_of(alloc, &configuration)?;
    let shares = Shares::NONE;
    let adapter = adapter_of(alloc, objects, &configuration, configuration.ledger, shares)?;
    Ok(adapter)
}

/// The objects of a configuration. They accept one that was read.
///
/// # Errors
///
/// `LoadFault::Memory` if memory is refused, otherwise the check of the objects that fails.
fn objects_of(alloc: Global, configuration: &Configuration) -> Result<Objects, LoadFault>
    ensures made { IfOk result (λ o. o ≡ contents_of_config configuration.now.objects) }
    ensures allowed { fault_of configuration.now.objects ≡ None → IfErr result (λ f. f ≡ LoadFault.Memory) }
{
    match Objects::new(alloc, &configuration.objects) {
        Ok(objects) => Ok(objects),
        Err(check) => Err(fault_of_objects(check)),
    }
}

/// Makes the adapter of a configuration over objects, which are those of the configuration. It has a ledger before them if
/// there is one, a queue if a service is queued, and these shares. It can be reset if the configuration says so.
///
/// The configuration may have changed since it was read, as far as its numbers are still in range.
///
/// # Errors
///
/// `AllocError` if memory is refused.
///
/// ```
/// let mut configuration = Configuration::from_bytes(alloc, text)?;
/// configuration.objects.serial = serial_of_this_device;
/// let objects = Objects::new(alloc, &configuration.objects)?;
/// let shares = shares_from(&configuration.access);
/// let adapter = adapter_of(alloc, objects, &configuration, configuration.ledger, shares)?;
/// ```
pub fn adapter_of(
    alloc: Global,
    objects: Objects,
    configuration: &Configuration,
    ledger: Option<LedgerConfig>,
    shares: Shares,
) -> Result<Adapter, AllocError>
    requires limits { AreLimits (limits_of configuration.now) }
    requires queue { IfSome (queue_limit configuration.now) (λ n. (1 ≤ n) × (n ≤ 256)) }
    requires peers_from { 1 ≤ shares.peers }
    requires peers_to { shares.peers ≤ 16 }
    requires connections_from { 1 ≤ shares.connections }
    requires connections_to { shares.connections ≤ 64 }
    requires ledger_from { IfSome ledger (λ l. 1 ≤ l.originators) }
    requires ledger_to { IfSome ledger (λ l. l.originators ≤ 64) }
    ensures { IfOk result (λ adapter. adapter
        ≡ shared_adapter (with_reset (reset_from configuration.now)
        (queued_device (ledger_from ledger) objects (queue_from (queue_limit configuration.now))))
        (listen_of configuration.now) (limits_of configuration.now) shares) }
{
    let listen = Listen {
        address: configuration.address,
        port: configuration.port,
    };
    let limits = Limits {
        peers: configuration.peers,
        connections: configuration.connections,
        first_handle: configuration.first_handle,
        first_id: configuration.first_id,
    };
    let ledger = ledger_from(alloc, ledger)?;
    let queue = queue_from(alloc, configuration.queue_limit())?;
    let mut adapter = Adapter::queued(alloc, objects, ledger, queue, listen, limits, shares)?;
    let Some(resetting) = reset_from(alloc, configuration)? else {
        return Ok(adapter);
    };
    adapter.allow_reset(resetting);
    Ok(adapter)
}

/// How many peers and connections one address may have at a time, by the table `access` of a configuration. Without the
/// table, or without a key of it, there is no limit.
///
/// ```
/// let shares = shares_from(&configuration.access);
/// let adapter = Adapter::shared(alloc, objects, None, listen, limits, shares)?;
/// ```
pub fn shares_from(access: &Option<Access>) -> Shares
    requires { IfSome access.now HasShares }
    ensures value { result ≡ shares_from access.now }
    ensures peers_from { 1 ≤ result.peers }
    ensures peers_to { result.peers ≤ 16 }
    ensures connections_from { 1 ≤ result.connections }
    ensures connections_to { result.connections ≤ 64 }
{
    match access {
        Some(access) => Shares {
            peers: access.peers_per_address(),
            connections: access.most_connections_per_address(),
        },
        None => Shares::NONE,
    }
}

/// An empty ledger, if the configuration has one.
fn ledger_from(alloc: Global, ledger: Option<LedgerConfig>) -> Result<Option<Ledger>, AllocError>
    requires from { IfSome ledger (λ l. 1 ≤ l.originators) }
    requires to { IfSome ledger (λ l. l.originators ≤ 64) }
    ensures { IfOk result (λ made. made ≡ ledger_from ledger) }
{
    match ledger {
        None => Ok(None),
        Some(ledger) => Ok(Some(Ledger::new(alloc, ledger.originators, ledger.life)?)),
    }
}

/// What the device needs to be reset, if clients can do so.
fn reset_from(alloc: Global, configuration: &Configuration) -> Result<Option<Resetting>, AllocError>
    ensures { IfOk result (λ made. made ≡ reset_from configuration.now) }
{
    if !configuration.reset {
        return Ok(None);
    }
    match Resetting::new(alloc, &configuration.objects) {
        Ok(resetting) => Ok(Some(resetting)),
        // The objects were made from the same configuration, so it has no other fault.
        Err(_) => Err(AllocError),
    }
}

/// An empty queue, if a service is queued.
fn queue_from(alloc: Global, limit: Option<u16>) -> Result<Option<Queue>, AllocError>
    requires { IfSome limit (λ n. n ≤ 256) }
    ensures { IfOk result (λ made. made ≡ queue_from limit) }
{
    match limit {
        None => Ok(None),
        Some(limit) => Ok(Some(Queue::new(alloc, limit)?)),
    }
}
