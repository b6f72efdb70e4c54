//! The values of a configuration.
//! Text: docs/PROGRAM.md, "The configuration".

ghost use Rattle.std.specs.Prelude.{◌≡◌, ◌≤◌, IfOk, IfErr, IfSome, None, Some, is_some, option_map};
ghost use Rattle.toml.specs.View.{table_view};
ghost use Rattle.cip_objects.specs.Configuration.{fault_of};
ghost use Rattle.enip_config.specs.Access.{lists_of, lists_seen, IsBadList};
ghost use Rattle.enip_config.specs.Commands.{queue_limit};
ghost use Rattle.enip_config.specs.Documents.{IsDescribed, IsFaultOf, IsInRange, IsLedgerInRange, IsQueueInRange, IsAheadInRange};
ghost use Rattle.enip_config.specs.Documents.{AreSharesInRange, IsUnread, IsDocument, HasValues, has_unused_queue};
ghost use Rattle.enip_config.specs.Explained.{IsExplained};
ghost use Rattle.enip_config.specs.Numbers.{HasIdentity, HasCounter, HasLimits};

use crate::access::{shares_of, with_lists};
use crate::assemblies::assemblies_of;
use crate::commands::{ahead_of, has_queued, queue_of};
use crate::explained::explained;
use crate::interfaces::{NamedInterfaces, interfaces_of};
use crate::key::{DEFAULT_QUEUE, NumberKey};
use crate::known::has_unknown_key;
use crate::ledger::{LedgerConfig, ledger_of};
use crate::message_router::objects_with_router;
use crate::object_types::types_of;
use crate::objects_fault::fault_of_objects;
use crate::values::{address_of, counter_enabled, name_of, number, reset_of};
use attribute_types::AttributeType;
use cip_application::MessageRouter;
use cip_objects::{Config, CounterConfig};
use config_explained::{Document, ExplainedFault, Explanation, Finding};
use config_refusal::{ConfigurationRefusal, LoadFault};
use enip_access::Access;
use std::alloc::Global;
use toml::Table;

/// A device as a configuration describes it: its objects, the address and port that it reports, its limits, its
/// command ledger if it has one, how many queued commands can wait, how many of them its owner has in hand, and the types
/// of its own attributes.
///
/// ```
/// const DEVICE: &[u8] = b"vendor = 1
/// device_type = 43
/// product_code = 7
/// major = 2
/// minor = 5
/// serial = 42
/// name = \"Demo\"
/// ";
///
/// fn port(alloc: Global) -> Result<u16, LoadFault> {
///     let configuration = Configuration::from_bytes(alloc, DEVICE)?;
///     Ok(configuration.port) // 44818
/// }
/// ```
#[derive(Debug)]
pub struct Configuration {
    /// The device's identity, its counter and its assemblies.
    pub objects: Config,
    /// Whether clients can reset the device, by the table `identity`.
    pub reset: bool,
    /// The IPv4 address that ListIdentity reports.
    pub address: [u8; 4],
    /// The TCP port that ListIdentity reports.
    pub port: u16,
    /// How many peers are served at once, 1 to 16.
    pub peers: u16,
    /// How many class 3 connections are open at once, 1 to 64.
    pub connections: u16,
    /// The first session handle, from 1.
    pub first_handle: u32,
    /// The first O->T connection ID, from 1.
    pub first_id: u32,
    /// The command ledger before the objects, if there is one.
    pub ledger: Option<LedgerConfig>,
    /// How many queued commands can wait, 1 to 256, by the table `commands`. `None` if it is left out.
    pub queue: Option<u16>,
    /// How many queued commands are handed over and not done at once, 1 to 256, by the table `commands`.
    pub ahead: u16,
    /// Who may connect and who may change something, if the configuration says so. Otherwise everybody may.
    pub access: Option<Access>,
    /// The network interfaces of the system from which values are read when the device is started.
    pub interfaces: NamedInterfaces,
    /// The types of the attributes of each own object, in the order of the file.
    pub attribute_types: Vec<Vec<AttributeType>>,
}

// Written out, so that each exit of a function that owns one calls it, and has no drop of every part.
impl Drop for Configuration {
    fn drop(self) {
        let Configuration {
            objects: _,
            reset: _,
            address: _,
            port: _,
            peers: _,
            connections: _,
            first_handle: _,
            first_id: _,
            ledger: _,
            queue: _,
            ahead: _,
            access: _,
            interfaces: _,
            attribute_types: _,
        } = self;
    }
}

impl Configuration {
    /// Reads a configuration from its bytes. Bytes that are not UTF-8 are not TOML.
    ///
    /// # Errors
    ///
    /// `LoadFault::Refused` with the first check that fails, in this order: `NotToml` (7); `UnknownKey` (9) if any key
    /// is unknown; `BadValue` (8) if a required key is missing, or a value has another type or is out of range; the
    /// checks of the objects (1 to 5, 10 to 12); `Access` (13); `Commands` (14). `LoadFault::Memory` if memory is
    /// refused.
    pub fn from_bytes(alloc: Global, bytes: &[u8]) -> Result<Configuration, LoadFault>
        ensures read { IfOk result (IsDescribed bytes.now) }
        ensures in_range { IfOk result IsInRange }
        ensures ledger { IfOk result IsLedgerInRange }
        ensures queue { IfOk result IsQueueInRange }
        ensures ahead { IfOk result IsAheadInRange }
        ensures shares { IfOk result AreSharesInRange }
        ensures refused { IfErr result (IsFaultOf bytes.now) }
    {
        match Configuration::explained(alloc, bytes) {
            Ok(configuration) => Ok(configuration),
            Err(fault) => Err(fault.fault()),
        }
    }

    /// The same. If the configuration is refused, it says what is wrong with it, and in which line.
    ///
    /// # Errors
    ///
    /// Those of [`Configuration::from_bytes`], with an explanation of the check that fails.
    pub fn explained(alloc: Global, bytes: &[u8]) -> Result<Configuration, ExplainedFault>
        ensures read { IfOk result (IsDescribed bytes.now) }
        ensures in_range { IfOk result IsInRange }
        ensures ledger { IfOk result IsLedgerInRange }
        ensures queue { IfOk result IsQueueInRange }
        ensures ahead { IfOk result IsAheadInRange }
        ensures shares { IfOk result AreSharesInRange }
        ensures refused { IfErr result (IsExplained bytes.now) }
    {
        let table = match toml::table_from_slice(alloc, bytes) {
            Ok(table) => table,
            Err(error) if error.is_memory() => return Err(ExplainedFault::Memory),
            Err(error) => {
                return Err(ExplainedFault::Refused(Explanation::of_text(bytes, error)));
            }
        };
        let document = Document {
            bytes,
            table: &table,
        };
        let mut finding = Finding::new();
        match Configuration::of_document(alloc, document, &mut finding) {
            Ok(configuration) => Ok(configuration),
            Err(fault) => Err(explained(alloc, document, fault, &finding)),
        }
    }

    /// Reads a configuration from its document. If it is refused, the finding is where the reader was.
    fn of_document(
        alloc: Global,
        document: Document<'_>,
        finding: &mut Finding,
    ) -> Result<Configuration, LoadFault>
        requires { IsDocument document.bytes.now (table_view document.table.now) }
        ensures read { IfOk result (IsDescribed document.entry.bytes.now) }
        ensures in_range { IfOk result IsInRange }
        ensures ledger { IfOk result IsLedgerInRange }
        ensures queue { IfOk result IsQueueInRange }
        ensures ahead { IfOk result IsAheadInRange }
        ensures shares { IfOk result AreSharesInRange }
        ensures refused { IfErr result (IsFaultOf document.entry.bytes.now) }
    {
        let table = document.table;
        if has_unknown_key(table, finding) {
            return Err(LoadFault::Refused(ConfigurationRefusal::UnknownKey));
        }
        let values = Configuration::from_table(alloc, table, finding)?;
        if let Some(check) = values.objects.fault() {
            return Err(fault_of_objects(check));
        }
        let configuration = values.with_lists(table, finding)?;
        if configuration.has_unused_queue() {
            return Err(LoadFault::Refused(ConfigurationRefusal::Commands));
        }
        Ok(configuration)
    }

    /// The objects of the device.
    pub fn into_objects(self) -> Config
        ensures { result ≡ self.objects }
    {
        let Configuration {
            objects: described,
            reset: _,
            address: _,
            port: _,
            peers: _,
            connections: _,
            first_handle: _,
            first_id: _,
            ledger: _,
            queue: _,
            ahead: _,
            access: _,
            interfaces: _,
            attribute_types: _,
        } = self;
        described
    }

    /// The objects of the device, and the types of the attributes of each own object.
    pub(crate) fn into_objects_and_types(self) -> (Config, Vec<Vec<AttributeType>>)
        ensures { result ≡ (self.objects, self.attribute_types) }
    {
        let Configuration {
            objects,
            reset: _,
            address: _,
            port: _,
            peers: _,
            connections: _,
            first_handle: _,
            first_id: _,
            ledger: _,
            queue: _,
            ahead: _,
            access: _,
            interfaces: _,
            attribute_types,
        } = self;
        (objects, attribute_types)
    }

    /// How many queued commands can wait. `None` if no service is queued, so that the device has no queue.
    pub fn queue_limit(&self) -> Option<u16>
        ensures value { result ≡ queue_limit self.now }
        ensures from { IsQueueInRange self.now → IfSome result (λ n. 1 ≤ n) }
        ensures to { IsQueueInRange self.now → IfSome result (λ n. n ≤ 256) }
    {
        if !has_queued(&self.objects.objects) {
            return None;
        }
        Some(self.queue.unwrap_or(DEFAULT_QUEUE))
    }

    /// Whether there is a table `commands`, but no service is queued.
    fn has_unused_queue(&self) -> bool
        ensures { result ≡ has_unused_queue self.now }
    {
        self.queue.is_some() && !has_queued(&self.objects.objects)
    }

    /// The same configuration with the lists of the table `access`.
    fn with_lists(self, text: &Table, finding: &mut Finding) -> Result<Configuration, LoadFault>
        requires { HasValues (table_view text.now) self }
        ensures read { IfOk result (HasValues (table_view text.now)) }
        ensures objects { IfOk result (λ c. c.objects ≡ self.objects) }
        ensures lists { IfOk result (λ c. lists_of (table_view text.now) ≡ Some (option_map lists_seen c.access)) }
        ensures refused { IfErr result (IsBadList (lists_of (table_view text.now))) }
    {
        let Configuration {
            objects,
            reset,
            address,
            port,
            peers,
            connections,
            first_handle,
            first_id,
            ledger,
            queue,
            ahead,
            access,
            interfaces,
            attribute_types,
        } = self;
        let access = with_lists(text, access, finding)?;
        Ok(Configuration {
            objects,
            reset,
            address,
            port,
            peers,
            connections,
            first_handle,
            first_id,
            ledger,
            queue,
            ahead,
            access,
            interfaces,
            attribute_types,
        })
    }

    /// Reads the values of a table whose keys are all known, without the lists of the table `access`. The objects may
    /// refuse the configuration, and the table `commands` may be unused.
    ///
    /// # Errors
    ///
    /// `LoadFault::Refused` with `BadValue` if a required key is missing, or a value has another type or is out of range.
    /// `LoadFault::Memory` if memory is refused.
    pub(crate) fn from_table(
        alloc: Global,
        text: &Table,
        finding: &mut Finding,
    ) -> Result<Configuration, LoadFault>
        ensures read { IfOk result (HasValues (table_view text.now)) }
        ensures refused { IfErr result (IsUnread (table_view text.now)) }
    {
        // What needs no memory comes first: nothing has to be dropped if one of it is refused.
        let identity = identity_of(text, finding)?;
        let counter = counter_of(text, finding)?;
        let reset = reset_of(text, finding)?;
        let limits = limits_of(text, finding)?;
        let address = address_of(text, finding)?;
        let ledger = ledger_of(text, finding)?;
        let queue = queue_of(text, finding)?;
        let ahead = ahead_of(text, finding)?;
        let access = shares_of(text, finding)?;
        let name = name_of(text, finding)?;
        let interfaces = interfaces_of(text, finding)?;
        let assemblies = assemblies_of(alloc, text, finding)?;
        let router = router_of(counter, ledger, limits);
        let objects = objects_with_router(alloc, text, router, finding)?;
        let attribute_types = types_of(alloc, text)?;
        Ok(Configuration {
            objects: Config {
                vendor: identity.vendor,
                device_type: identity.device_type,
                product_code: identity.product_code,
                major: identity.major,
                minor: identity.minor,
                serial: identity.serial,
                name,
                status: identity.status,
                state: identity.state,
                counter,
                assemblies,
                objects,
            },
            reset,
            address,
            port: limits.port,
            peers: limits.peers,
            connections: limits.connections,
            first_handle: limits.first_handle,
            first_id: limits.first_id,
            ledger,
            queue,
            ahead,
            access,
            interfaces,
            attribute_types,
        })
    }
}

/// The numbers of the Identity object.
#[derive(Clone, Copy)]
struct Identity {
    vendor: u16,
    device_type: u16,
    product_code: u16,
    major: u8,
    minor: u8,
    serial: u32,
    status: u16,
    state: u8,
}

/// Reads the numbers of the Identity object.
fn identity_of(text: &Table, finding: &mut Finding) -> Result<Identity, LoadFault>
    ensures read { IfOk result (HasIdentity (table_view text.now)) }
    ensures refused { IfErr result (IsUnread (table_view text.now)) }
{
    Ok(Identity {
        vendor: number(text, NumberKey::Vendor, finding)?,
        device_type: number(text, NumberKey::DeviceType, finding)?,
        product_code: number(text, NumberKey::ProductCode, finding)?,
        major: number(text, NumberKey::Major, finding)?,
        minor: number(text, NumberKey::Minor, finding)?,
        serial: number(text, NumberKey::Serial, finding)?,
        status: number(text, NumberKey::Status, finding)?,
        state: number(text, NumberKey::State, finding)?,
    })
}

/// Reads the counter.
fn counter_of(text: &Table, finding: &mut Finding) -> Result<CounterConfig, LoadFault>
    ensures read { IfOk result (HasCounter (table_view text.now)) }
    ensures refused { IfErr result (IsUnread (table_view text.now)) }
{
    Ok(CounterConfig {
        enabled: counter_enabled(text, finding)?,
        value: number(text, NumberKey::CounterValue, finding)?,
        limit: number(text, NumberKey::CounterLimit, finding)?,
    })
}

/// What the Message Router shows of a device besides its application objects.
fn router_of(counter: CounterConfig, ledger: Option<LedgerConfig>, limits: Limits) -> MessageRouter
    ensures { result ≡ record {
      counter = counter.enabled;
      ledger = is_some ledger;
      connections = limits.connections;
    } }
{
    MessageRouter {
        counter: counter.enabled,
        ledger: ledger.is_some(),
        connections: limits.connections,
    }
}

/// The port that the device reports, and the numbers of its peers and connections.
#[derive(Clone, Copy)]
struct Limits {
    port: u16,
    peers: u16,
    connections: u16,
    first_handle: u32,
    first_id: u32,
}

/// Reads the port and the limits.
fn limits_of(text: &Table, finding: &mut Finding) -> Result<Limits, LoadFault>
    ensures read { IfOk result (HasLimits (table_view text.now)) }
    ensures refused { IfErr result (IsUnread (table_view text.now)) }
{
    Ok(Limits {
        port: number(text, NumberKey::Port, finding)?,
        peers: number(text, NumberKey::Peers, finding)?,
        connections: number(text, NumberKey::Connections, finding)?,
        first_handle: number(text, NumberKey::FirstHandle, finding)?,
        first_id: number(text, NumberKey::FirstId, finding)?,
    })
}
