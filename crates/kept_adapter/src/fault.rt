//! Why no adapter starts from entries.

ghost use Rattle.std.specs.Prelude.{◌≡◌};
ghost use Rattle.kept_adapter.specs.declared.fault.StartFault.TheVariants.{Memory};

use std::alloc::AllocError;
use thiserror::Error;

/// Why no adapter starts from entries.
#[derive(Clone, Copy, Debug, PartialEq, Eq, Error)]
pub enum StartFault {
    /// Out of memory.
    #[error("out of memory")]
    Memory,
    /// The entries are of another device.
    #[error("what is kept is of another device")]
    OtherDevice,
    /// The assemblies or the application objects are not configured in rising order, so the keys of the adapter's
    /// entries do not rise.
    #[error("the assemblies or the objects are not configured in rising order")]
    Order,
}

impl From<AllocError> for StartFault {
    ghost from_gives = { λ _ fault. fault ≡ Memory };

    fn from(_: AllocError) -> StartFault {
        StartFault::Memory
    }
}
