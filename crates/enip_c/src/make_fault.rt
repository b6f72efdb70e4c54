//! Why C gets no adapter of a configuration.

ghost use Rattle.std.specs.Prelude.{◌≡◌};

use enip_config::{ConfigurationRefusal, LoadFault};
use std::alloc::AllocFailed;

/// Why no adapter is made from a configuration.
#[derive(Clone, Copy)]
pub(crate) enum MakeFault {
    /// Out of memory.
    Memory,
    /// This check refuses the configuration.
    Refused(ConfigurationRefusal),
    /// A service is queued, and the library has no queue of commands.
    Queued,
}

impl From<LoadFault> for MakeFault {
    ghost use Rattle.enip_c.specs.AdapterCalls.{make_fault};

    ghost from_gives = { λ fault made. made ≡ make_fault fault };

    fn from(fault: LoadFault) -> MakeFault {
        match fault {
            LoadFault::Memory => MakeFault::Memory,
            LoadFault::Refused(refusal) => MakeFault::Refused(refusal),
        }
    }
}

impl<T: Drop> From<AllocFailed<T>> for MakeFault {
    ghost use Rattle.enip_c.specs.declared.make_fault.MakeFault.TheVariants.{Memory};

    ghost from_gives = { λ _ fault. fault ≡ Memory };

    fn from(_error: AllocFailed<T>) -> MakeFault {
        MakeFault::Memory
    }
}
