//! What the objects are made from, and which configurations are refused.
//! Text: docs/PROGRAM.md, "The configuration".
ghost use Rattle.std.specs.Prelude.{◌≡◌, ◌≤◌, ◌+◌, ◌<◌, ◌==◌, ◌||◌, not, nat_lt, length, sum, Some, None};
ghost use Rattle.std.specs.List.{list_any};
ghost use Rattle.cip_objects.specs.Limits.{LONGEST_DATA};
ghost use Rattle.cip_objects.specs.Configuration.{is_invalid_name, is_invalid_size, are_invalid_members, are_invalid_instances};
ghost use Rattle.cip_objects.specs.Configuration.{instances};

use crate::assembly::{DATA_LIMIT, MEMBER_LIMIT};
use crate::identity::NAME_LIMIT;
use cip_application::{ObjectConfig, ObjectFault, fault as objects_fault};
use std::alloc::{AllocError, AllocFailed};
use thiserror::Error;

/// The most assemblies (our choice).
const ASSEMBLY_LIMIT: usize = 16;

/// The configuration of a device's objects.
#[derive(Debug)]
pub struct Config {
    /// The vendor ID, 16 bits.
    pub vendor: u16,
    /// The device type, 16 bits: the number of the device profile.
    pub device_type: u16,
    /// The product code, 16 bits.
    pub product_code: u16,
    /// The major revision, 1 to 127.
    pub major: u8,
    /// The minor revision, 8 bits.
    pub minor: u8,
    /// The serial number, 32 bits.
    pub serial: u32,
    /// The product name: at most 32 bytes, each 0x20 to 0x7e.
    pub name: String,
    /// The status word of the Identity object, 16 bits.
    pub status: u16,
    /// The state of the Identity object, 8 bits.
    pub state: u8,
    /// The counter.
    pub counter: CounterConfig,
    /// The assemblies, at most 16.
    pub assemblies: Vec<AssemblyConfig>,
    /// The application objects, at most 32.
    pub objects: Vec<ObjectConfig>,
}

// Written out, so that each exit of a function that owns one calls it, and has no drop of every part.
impl Drop for Config {
    fn drop(self) {
        let Config {
            vendor: _,
            device_type: _,
            product_code: _,
            major: _,
            minor: _,
            serial: _,
            name: _,
            status: _,
            state: _,
            counter: _,
            assemblies: _,
            objects: _,
        } = self;
    }
}

/// The counter: whether the device has it, and its initial values.
#[derive(Clone, Copy, Debug)]
pub struct CounterConfig {
    /// Whether the device has the counter. If not, its class does not exist.
    pub enabled: bool,
    /// The initial value, 32 bits.
    pub value: u32,
    /// The limit, 32 bits: at least the initial value.
    pub limit: u32,
}

/// An assembly of 1 to 3,900 bytes, in at most 64 members.
///
/// ```
/// let mut members = Vec::new(alloc);
/// members.push(4)?;
/// let assembly = AssemblyConfig { instance: 100, settable: true, members, lists: false };
/// ```
#[derive(Debug, Drop)]
pub struct AssemblyConfig {
    /// The instance number, 16 bits. Not 0, and not that of another assembly.
    pub instance: u16,
    /// Whether the data can be set.
    pub settable: bool,
    /// The sizes of the members in bytes. None of them is 0.
    pub members: Vec<u16>,
    /// Whether peers can read all its attributes, and set a list of them, with one request.
    pub lists: bool,
}

/// Why no objects are made from a configuration: the first of these that holds.
#[derive(Clone, Copy, Debug, PartialEq, Eq, Error)]
pub enum ConfigFault {
    /// The name has over 32 bytes, or a byte outside 0x20 to 0x7e.
    #[error("the name is too long, or has a byte that is not printable")]
    Name = 1,
    /// There are over 16 assemblies, or one has 0 or over 3,900 bytes.
    #[error("too many assemblies, or one with 0 bytes or too many")]
    Size = 2,
    /// An assembly has over 64 members, or one of 0 bytes.
    #[error("an assembly with too many members, or with one of 0 bytes")]
    Members = 3,
    /// An instance number is 0, which is the class itself, or is used twice.
    #[error("an instance number that is 0 or occurs twice")]
    DoubleInstance = 4,
    /// The counter's initial value is over its limit.
    #[error("the counter's first value is over its limit")]
    Limit = 5,
    /// Memory was refused.
    #[error("out of memory")]
    Memory = 6,
    /// There are over 32 application objects, or one has a class, an instance number or a name that it cannot have.
    #[error("an object whose class, instance or name is not allowed, or too many objects")]
    Object = 10,
    /// An attribute of an application object has a number, a size, a range or a value that it cannot have, or there
    /// are too many.
    #[error("an attribute whose number, size, range or value is not allowed, or too many attributes")]
    Attribute = 11,
    /// A service of an application object has a number or a size that it cannot have, or there are too many.
    #[error("a service whose number or size is not allowed, or too many services")]
    Service = 12,
}

impl ConfigFault {
    ghost use Rattle.cip_objects.specs.Limits.{LONGEST_DATA};
    ghost use Rattle.cip_objects.specs.Configuration.{config_fault_number};

    /// The fault's number, as printed.
    pub fn number(self) -> u8
        ensures { result ≡ config_fault_number self }
    {
        self as u8
    }
}

impl From<AllocError> for ConfigFault {
    ghost use Rattle.cip_objects.specs.declared.config.ConfigFault.TheVariants.{Memory};

    ghost from_gives = { λ _ fault. fault ≡ Memory };

    fn from(_: AllocError) -> ConfigFault {
        ConfigFault::Memory
    }
}

impl From<ObjectFault> for ConfigFault {
    ghost use Rattle.cip_objects.specs.Configuration.{config_fault};

    ghost from_gives = { λ fault own. own ≡ config_fault fault };

    fn from(fault: ObjectFault) -> ConfigFault {
        match fault {
            ObjectFault::Object => ConfigFault::Object,
            ObjectFault::Attribute => ConfigFault::Attribute,
            ObjectFault::Service => ConfigFault::Service,
            ObjectFault::Memory => ConfigFault::Memory,
        }
    }
}

impl<T: Drop> From<AllocFailed<T>> for ConfigFault {
    ghost use Rattle.cip_objects.specs.declared.config.ConfigFault.TheVariants.{Memory};

    ghost from_gives = { λ _ fault. fault ≡ Memory };

    fn from(_: AllocFailed<T>) -> ConfigFault {
        ConfigFault::Memory
    }
}

impl Config {
    ghost use Rattle.cip_objects.specs.Limits.{LONGEST_DATA};
    ghost use Rattle.cip_objects.specs.Configuration.{fault_of};

    /// The first check that fails. Running out of memory is not one of them.
    #[tactic(auto, unfolding(crate::specs::Configuration::fault_of))]
    pub fn fault(&self) -> Option<ConfigFault>
        ensures { result ≡ fault_of self.now }
    {
        // The first check that fails is reported, in the order of the numbers (our choice).
        if is_invalid_name(self.name.as_bytes()) {
            return Some(ConfigFault::Name);
        }
        if self.assemblies.len() > ASSEMBLY_LIMIT || has_invalid_size(&self.assemblies) {
            return Some(ConfigFault::Size);
        }
        if has_invalid_members(&self.assemblies) {
            return Some(ConfigFault::Members);
        }
        if has_invalid_instance(&self.assemblies) {
            return Some(ConfigFault::DoubleInstance);
        }
        if self.counter.limit < self.counter.value {
            return Some(ConfigFault::Limit);
        }
        match objects_fault(self.counter.enabled, &self.objects) {
            Some(fault) => Some(ConfigFault::from(fault)),
            None => None,
        }
    }
}

/// Whether a name is too long, or has a byte that cannot be printed.
fn is_invalid_name(name: &[u8]) -> bool
    ensures { result ≡ is_invalid_name name.now }
{
    if name.len() > NAME_LIMIT {
        return true;
    }
    for byte in name {
        // Printable ASCII.
        if *byte < 0x20 || *byte > 0x7e {
            return true;
        }
    }
    false
}

/// Whether any assembly has no byte or too many.
fn has_invalid_size(assemblies: &[AssemblyConfig]) -> bool
    ensures { result ≡ list_any is_invalid_size assemblies.now }
{
    for assembly in assemblies {
        if is_invalid_size(&assembly.members) {
            return true;
        }
    }
    false
}

/// Whether the sum of these member sizes is 0 or too large.
fn is_invalid_size(members: &[u16]) -> bool
    ensures { result ≡ (sum members.now == 0) || nat_lt LONGEST_DATA (sum members.now) }
{
    let mut all: usize = 0;
    for size in members {
        all += usize::from(*size);
        if all > DATA_LIMIT {
            return true;
        }
    }
    all == 0
}

/// Whether any assembly has too many members, or a member of no byte.
fn has_invalid_members(assemblies: &[AssemblyConfig]) -> bool
    ensures { result ≡ list_any are_invalid_members assemblies.now }
{
    for assembly in assemblies {
        if assembly.members.len() > MEMBER_LIMIT || assembly.members.contains(&0) {
            return true;
        }
    }
    false
}

/// Whether an instance number is 0 or is used twice.
fn has_invalid_instance(assemblies: &[AssemblyConfig]) -> bool
    ensures { result ≡ are_invalid_instances (instances assemblies.now) }
{
    for (i, assembly) in assemblies.iter().enumerate() {
        // Instance 0 is the class itself.
        if assembly.instance == 0 || has_instance(assembly.instance, &assemblies[i + 1..]) {
            return true;
        }
    }
    false
}

/// Whether any assembly has this instance number.
fn has_instance(instance: u16, assemblies: &[AssemblyConfig]) -> bool
    ensures { result ≡ list_any (λ n. n == instance) (instances assemblies.now) }
{
    for assembly in assemblies {
        if assembly.instance == instance {
            return true;
        }
    }
    false
}
