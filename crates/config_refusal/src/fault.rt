//! Why a configuration is refused.

ghost use Rattle.std.specs.Prelude.{◌≡◌};
ghost use Rattle.config_refusal.specs.Refusals.{refusal_number};

use std::alloc::{AllocError, AllocFailed};
use thiserror::Error;

/// The checks that can refuse a configuration. Each has a number, which is printed. The numbers are this project's own.
#[derive(Clone, Copy, Debug, PartialEq, Eq)]
pub enum ConfigurationRefusal {
    /// The product name is longer than 32 bytes, or has a byte outside 0x20 to 0x7e.
    Name = 1,
    /// There are over 16 assemblies, or an assembly has 0 or over 3,900 bytes.
    Size = 2,
    /// An assembly has over 64 members, or a member of 0 bytes.
    Members = 3,
    /// An assembly's instance number is 0, or used twice.
    DoubleInstance = 4,
    /// The counter's value is over its limit.
    Limit = 5,
    /// The text is not TOML, or not UTF-8.
    NotToml = 7,
    /// A required key is missing, or a value has another type or is out of range.
    BadValue = 8,
    /// A key is unknown in its table, at any depth.
    UnknownKey = 9,
    /// There are over 32 own objects, or one has a class, an instance number or a name that it cannot have.
    Object = 10,
    /// An own object has over 32 attributes, or one has a number, a type, a value or a range that it cannot have, or
    /// all values together have over 16,384 bytes.
    Attribute = 11,
    /// An own object has over 16 services, or one has a number or sizes that it cannot have.
    Service = 12,
    /// The list `read` or `write` of the table `access` is not an array of up to 64 addresses and prefixes.
    Access = 13,
    /// The table `commands` is there, but no service is queued.
    Commands = 14,
}

impl ConfigurationRefusal {
    /// The number that is printed.
    pub fn number(self) -> u8
        ensures { result ≡ refusal_number self }
    {
        self as u8
    }
}

/// Why a configuration could not be loaded.
#[derive(Clone, Copy, Debug, PartialEq, Eq, Error)]
pub enum LoadFault {
    /// This check refuses it.
    #[error("configuration {}", .0.number())]
    Refused(ConfigurationRefusal),
    /// Out of memory.
    #[error("memory")]
    Memory,
}

impl From<AllocError> for LoadFault {
    ghost use Rattle.config_refusal.specs.declared.fault.LoadFault.TheVariants.{Memory};

    ghost from_gives = { λ _ fault. fault ≡ Memory };

    fn from(_error: AllocError) -> LoadFault {
        LoadFault::Memory
    }
}

impl<T: Drop> From<AllocFailed<T>> for LoadFault {
    ghost use Rattle.config_refusal.specs.declared.fault.LoadFault.TheVariants.{Memory};

    ghost from_gives = { λ _ fault. fault ≡ Memory };

    fn from(_error: AllocFailed<T>) -> LoadFault {
        LoadFault::Memory
    }
}
