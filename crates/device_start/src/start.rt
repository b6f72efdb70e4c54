//! What a device starts from, by its configuration.

ghost use Rattle.std.specs.Prelude.{◌≡◌, ◌≤◌, IfOk, IfSome, IsTrue, None, option_map};
ghost use Rattle.cip_objects.specs.Configuration.{fault_of};
ghost use Rattle.configured_adapter.specs.Configured.{limits_of, listen_of, shares_from};
ghost use Rattle.device_start.specs.Configured.{IsReordered, IsStartOf, ledger_start};

use cip_objects::Config;
use config_file::ConfigFile;
use enip_access::Access;
use enip_adapter::{Limits, Listen, Shares};
use enip_common::{CLOCK, CommandError, NamedReason, Reason};
use enip_config::{Configuration, fault_of_objects};
use enip_server::NO_IDLE_TIMEOUT;
use kept_adapter::{AdapterStart, LedgerStart};
use std::time::UNIX_EPOCH;

/// How many peers and connections the adapter of a configuration has, and its first numbers.
fn limits_of(configuration: &Configuration) -> Limits
    ensures { result ≡ limits_of configuration.now }
{
    Limits {
        peers: configuration.peers,
        connections: configuration.connections,
        first_handle: configuration.first_handle,
        first_id: configuration.first_id,
    }
}

/// What a device starts from, by its configuration, and who may connect. A ledger of which nothing is kept begins a life now,
/// and so does any ledger if `begins_life` is set. `idle_timeout` is in microseconds. The entries that are kept of a device are
/// in the order of their keys, so its assemblies and its own objects are in the order of their numbers.
///
/// # Errors
///
/// If an object of the configuration is refused, the clock of the system cannot be read, or memory is refused.
pub fn configured_start<'a>(
    rt: &HostRuntime,
    config: &ConfigFile<'a>,
    configuration: Configuration,
    begins_life: bool,
    idle_timeout: u64,
) -> Result<(AdapterStart, Option<Access>), CommandError<'a>>
    ensures access { IfOk result (λ r. r.1 ≡ configuration.access) }
    ensures objects { IfOk result (λ r. IsReordered configuration.objects r.0.objects) }
    ensures rest { IfOk result (λ r. IsStartOf configuration r.0) }
    ensures begins { IfOk result (λ r. r.0.begins_life ≡ begins_life) }
    ensures idle { IfOk result (λ r. r.0.idle_timeout ≡ idle_timeout) }
{
    let mut configuration = configuration;
    let queue = configuration.queue_limit();
    let access = configuration.access.take();
    let shares = shares_from(&access);
    // Without a ledger no life begins, and the clock is not read.
    let life = match configuration.ledger {
        Some(_) => life_now(rt)?,
        None => 0,
    };
    reorder(&mut configuration.objects);
    if let Some(check) = configuration.objects.fault() {
        return Err(config.refused(rt.alloc(), fault_of_objects(check)));
    }
    match start_of(
        configuration,
        queue,
        shares,
        life,
        begins_life,
        idle_timeout,
    ) {
        Some(start) => Ok((start, access)),
        None => Err(CommandError::of_reason(Reason::Named(config.name(), NamedReason::Failed))),
    }
}

/// What a device starts from, to be read and not served.
pub(crate) fn start_to_read<'a>(
    rt: &HostRuntime,
    config: &ConfigFile<'a>,
) -> Result<AdapterStart, CommandError<'a>> {
    let configuration = config.configuration(rt.alloc())?;
    let (start, _) = configured_start(rt, config, configuration, false, NO_IDLE_TIMEOUT)?;
    Ok(start)
}

/// Puts the assemblies and the own objects of a device in the order of their numbers.
fn reorder(objects: &mut Config)
    ensures { IsReordered objects.old objects.new }
{
    objects
        .assemblies
        .sort_unstable_by_key(|assembly| assembly.instance);
    objects
        .objects
        .sort_unstable_by_key(|object| (object.class, object.instance));
}

/// What an adapter is started from, with a queue of this limit. `None` if a number or a share is out of its range: a configuration that was accepted has
/// none such.
fn start_of(
    configuration: Configuration,
    queue: Option<u16>,
    shares: Shares,
    life: u64,
    begins_life: bool,
    idle_timeout: u64,
) -> Option<AdapterStart>
    requires { fault_of configuration.objects ≡ None }
    ensures objects { IfSome result (λ s. s.objects ≡ configuration.objects) }
    ensures ledger { IfSome result (λ s. s.ledger ≡ option_map (ledger_start life) configuration.ledger) }
    ensures queue { IfSome result (λ s. s.queue ≡ queue) }
    ensures reset { IfSome result (λ s. s.reset ≡ configuration.reset) }
    ensures listen { IfSome result (λ s. s.listen ≡ listen_of configuration) }
    ensures begins { IfSome result (λ s. s.begins_life ≡ begins_life) }
    ensures idle { IfSome result (λ s. s.idle_timeout ≡ idle_timeout) }
    ensures limits { IfSome result (λ s. s.limits ≡ limits_of configuration) }
    ensures shares { IfSome result (λ s. s.shares ≡ shares) }
{
    let limits = limits_of(&configuration);
    let (address, port) = (configuration.address, configuration.port);
    let (reset, ledger) = (configuration.reset, configuration.ledger);
    let ledger = match ledger {
        Some(ledger) => Some(LedgerStart {
            originators: ledger.originators,
            life,
        }),
        None => None,
    };
    let objects = configuration.into_objects();
    if !is_queue(queue) || !are_in_range(limits, ledger) || !are_shares(shares) {
        return None;
    }
    Some(AdapterStart {
        objects,
        ledger,
        queue,
        begins_life,
        reset,
        listen: Listen { address, port },
        limits,
        shares,
        idle_timeout,
    })
}

/// How many peers and connections one address may have.
fn shares_from(access: &Option<Access>) -> Shares
    ensures { result ≡ shares_from access.now }
{
    match access {
        Some(access) => Shares {
            peers: access.peers_per_address(),
            connections: access.most_connections_per_address(),
        },
        None => Shares::NONE,
    }
}

/// Whether an adapter can have these shares.
fn are_shares(shares: Shares) -> bool
    ensures peers { IsTrue result → (1 ≤ shares.peers) × (shares.peers ≤ 16) }
    ensures connections { IsTrue result → (1 ≤ shares.connections) × (shares.connections ≤ 64) }
{
    1 <= shares.peers && shares.peers <= 16 && 1 <= shares.connections && shares.connections <= 64
}

/// Whether so many commands can wait in a queue, if there is one.
fn is_queue(queue: Option<u16>) -> bool
    ensures { IsTrue result → IfSome queue (λ n. (1 ≤ n) × (n ≤ 256)) }
{
    match queue {
        Some(limit) => 1 <= limit && limit <= 256,
        None => true,
    }
}

/// Whether an adapter has these limits, and a ledger so many slots.
fn are_in_range(limits: Limits, ledger: Option<LedgerStart>) -> bool
    ensures peers { IsTrue result → (1 ≤ limits.peers) × (limits.peers ≤ 16) }
    ensures connections { IsTrue result → (1 ≤ limits.connections) × (limits.connections ≤ 64) }
    ensures first { IsTrue result → (1 ≤ limits.first_handle) × (1 ≤ limits.first_id) }
    ensures ledger { IsTrue result → IfSome ledger (λ l. (1 ≤ l.originators) × (l.originators ≤ 64)) }
{
    let has_slots = match ledger {
        Some(ledger) => 1 <= ledger.originators && ledger.originators <= 64,
        None => true,
    };
    has_slots
        && 1 <= limits.peers
        && limits.peers <= 16
        && 1 <= limits.connections
        && limits.connections <= 64
        && 1 <= limits.first_handle
        && 1 <= limits.first_id
}

/// The number of a life that starts now: the microseconds of the wall clock since 1970 (ours).
fn life_now<'a>(rt: &HostRuntime) -> Result<u64, CommandError<'a>> {
    match UNIX_EPOCH.elapsed(rt) {
        Ok(age) => Ok(u64::try_from(age.as_micros()).unwrap_or(u64::MAX)),
        Err(error) => Err(CommandError::of_system(CLOCK, error)),
    }
}
