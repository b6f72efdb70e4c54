//! An adapter that starts from the text of a configuration and a saved state.

ghost use Rattle.std.specs.Prelude.{◌≡◌, None, IfOk, IfErr};
ghost use Rattle.std.specs.Option.{IsSomeAnd, option_map};
ghost use Rattle.cip_objects.specs.Configuration.{fault_of};
ghost use Rattle.enip_config.specs.Documents.{AreSharesInRange, IsInRange, IsLedgerInRange};
ghost use Rattle.enip_c.specs.Buffer.{status_number};
ghost use Rattle.enip_c.specs.StateCalls.{IsKeptAdapterOf, IsKeptFault, IsKeptOutcome, IsStartOf, ledger_start};
ghost use Rattle.enip_c.specs.StateCalls.{kept_refusal, kept_status, fault_number, fault_version};

use crate::adapter::{QUEUED_NUMBER, check_number};
use crate::adapter_pointer::KeptAdapter;
use crate::status::Status;
use configured_adapter::shares_from;
use enip_adapter::{Adapter, Limits, Listen};
use enip_config::{Configuration, ConfigurationRefusal, LedgerConfig, LoadFault};
use kept_adapter::{AdapterStart, LedgerStart};
use saved_adapter::{RestoreFault, start};
use saved_state::StateFault;
use std::alloc::Global;

/// Why an adapter is refused.
#[repr(C)]
#[derive(Clone, Copy, Debug)]
pub struct CRefusal {
    /// The check that failed: of the configuration or of the state, as the status says.
    pub number: u32,
    /// The version of the state, if that is why it is refused. Otherwise 0.
    pub version: u32,
}

/// Why no adapter starts.
#[derive(Clone, Copy)]
pub(crate) enum KeptFault {
    /// Out of memory.
    Memory,
    /// This check refuses the configuration.
    Configuration(ConfigurationRefusal),
    /// A service is queued, and the library has no queue of commands.
    Queued,
    /// The state, or that it starts from this configuration.
    State(RestoreFault),
}

/// Makes an adapter from the text of a configuration and a saved state, which is empty if nothing was saved yet. A
/// ledger that starts empty is in the life `life`. Allocates all the memory that the adapter will ever need.
#[unsafe(no_mangle)]
pub extern "C" fn enip_core_adapter_new_kept(
    alloc: Global,
    kept: &mut KeptAdapter,
    text: &[u8],
    state: &[u8],
    life: u64,
    refusal: &mut CRefusal,
) -> u32
    ensures made { result ≡ status_number Status.Done
        → IsSomeAnd kept.new.value (IsKeptAdapterOf text.now state.now life) }
    ensures outcome { IsKeptOutcome text.now state.now life refusal.new result }
    ensures unchanged { (result ≡ status_number Status.Done → ⊥) → kept.new.value ≡ kept.old.value }
{
    match boxed_from_state(alloc, text, state, life) {
        Ok(adapter) => {
            *kept = KeptAdapter::of(adapter);
            Status::Done.number()
        }
        Err(fault) => {
            *refusal = refusal_of(fault);
            status_of(fault).number()
        }
    }
}

/// The adapter of a configuration that starts from a state, in a box.
fn boxed_from_state(
    alloc: Global,
    text: &[u8],
    state: &[u8],
    life: u64,
) -> Result<Box<Adapter, Global>, KeptFault>
    ensures made { IfOk result (λ adapter. IsKeptAdapterOf text.now state.now life adapter.value) }
    ensures refused { IfErr result (IsKeptFault text.now state.now life) }
{
    let adapter = adapter_from_state(alloc, text, state, life)?;
    match Box::new(alloc, adapter) {
        Ok(boxed) => Ok(boxed),
        Err(_) => Err(KeptFault::Memory),
    }
}

/// The adapter of a configuration that starts from a state.
fn adapter_from_state(
    alloc: Global,
    text: &[u8],
    state: &[u8],
    life: u64,
) -> Result<Adapter, KeptFault>
    ensures made { IfOk result (IsKeptAdapterOf text.now state.now life) }
    ensures refused { IfErr result (IsKeptFault text.now state.now life) }
{
    match Configuration::from_bytes(alloc, text) {
        Ok(configuration) => {
            if configuration.queue_limit().is_some() {
                return Err(KeptFault::Queued);
            }
            let configured = start_of(configuration, life);
            match start(alloc, &configured, state) {
                Ok(adapter) => Ok(adapter),
                Err(why) => Err(KeptFault::State(why)),
            }
        }
        Err(LoadFault::Refused(refusal)) => Err(KeptFault::Configuration(refusal)),
        Err(LoadFault::Memory) => Err(KeptFault::Memory),
    }
}

/// What the adapter of a configuration starts from.
fn start_of(configuration: Configuration, life: u64) -> AdapterStart
    requires numbers { IsInRange configuration }
    requires ledger { IsLedgerInRange configuration }
    requires shares { AreSharesInRange configuration }
    requires accepted { fault_of configuration.objects ≡ None }
    ensures { IsStartOf life configuration result }
{
    let address = configuration.address;
    AdapterStart {
        ledger: ledger_if_any(life, configuration.ledger),
        queue: None,
        begins_life: false,
        reset: configuration.reset,
        listen: Listen {
            address,
            port: configuration.port,
        },
        limits: Limits {
            peers: configuration.peers,
            connections: configuration.connections,
            first_handle: configuration.first_handle,
            first_id: configuration.first_id,
        },
        shares: shares_from(&configuration.access),
        idle_timeout: 0,
        objects: configuration.into_objects(),
    }
}

/// The ledger of a configuration, if it has one.
fn ledger_if_any(life: u64, ledger: Option<LedgerConfig>) -> Option<LedgerStart>
    ensures { result ≡ option_map (ledger_start life) ledger }
{
    match ledger {
        Some(ledger) => Some(ledger_start(life, ledger)),
        None => None,
    }
}

/// The ledger of a configuration, in this life if it starts empty.
fn ledger_start(life: u64, ledger: LedgerConfig) -> LedgerStart
    ensures { result ≡ ledger_start life ledger }
{
    LedgerStart {
        originators: ledger.originators,
        life,
    }
}

fn status_of(fault: KeptFault) -> Status
    ensures { result ≡ kept_status fault }
{
    match fault {
        KeptFault::Memory | KeptFault::State(RestoreFault::Memory) => Status::Memory,
        KeptFault::Configuration(_) | KeptFault::Queued => Status::Configuration,
        KeptFault::State(RestoreFault::Order) => Status::Configuration,
        KeptFault::State(RestoreFault::Malformed(_) | RestoreFault::OtherDevice) => {
            Status::SavedState
        }
    }
}

fn refusal_of(fault: KeptFault) -> CRefusal
    ensures { result ≡ kept_refusal fault }
{
    match fault {
        KeptFault::Memory => CRefusal {
            number: 0,
            version: 0,
        },
        KeptFault::Configuration(refusal) => CRefusal {
            number: check_number(refusal),
            version: 0,
        },
        KeptFault::Queued => CRefusal {
            number: QUEUED_NUMBER,
            version: 0,
        },
        KeptFault::State(why) => CRefusal {
            number: number_of(why),
            version: version_of(why),
        },
    }
}

fn number_of(why: RestoreFault) -> u32
    ensures { result ≡ fault_number why }
{
    match why {
        RestoreFault::Memory => 0,
        RestoreFault::Malformed(StateFault::NotAState) => 1,
        RestoreFault::Malformed(StateFault::Cut) => 2,
        RestoreFault::Malformed(StateFault::Version(_)) => 3,
        RestoreFault::Malformed(StateFault::TooLong) => 4,
        RestoreFault::Malformed(StateFault::Checksum) => 5,
        RestoreFault::Malformed(StateFault::Layout) => 6,
        RestoreFault::Malformed(StateFault::Order) => 7,
        RestoreFault::OtherDevice => 8,
        RestoreFault::Order => 13,
    }
}

fn version_of(why: RestoreFault) -> u32
    ensures { result ≡ fault_version why }
{
    match why {
        RestoreFault::Malformed(StateFault::Version(version)) => version,
        _ => 0,
    }
}
