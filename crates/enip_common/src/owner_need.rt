//! What of a configuration needs an owner of the device, who executes own services and decides on sets. `enip serve` has
//! one with `--owner`.

ghost use Rattle.std.specs.Prelude.{◌≡◌};
ghost use Rattle.enip_common.specs.OwnerNeeds.{refusal_of_need};

use config_refusal::ConfigurationRefusal;
use thiserror::Error;

/// A part of an own object that needs an owner: the class and the instance of the object, and the number of the part.
#[derive(Clone, Copy, Debug, Error)]
pub enum OwnerNeed {
    /// A checked attribute: the owner decides on each set.
    #[error("attribute {2} of class {0:#04x}, instance {1} is checked by an owner, and enip serve has none")]
    Attribute(u16, u16, u16),
    /// A service: the owner executes it while the client waits.
    #[error("service {2:#04x} of class {0:#04x}, instance {1} needs an owner, and enip serve has none")]
    Service(u16, u16, u8),
    /// A queued service: the owner executes it later.
    #[error("service {2:#04x} of class {0:#04x}, instance {1} is queued for an owner (see --owner)")]
    Queued(u16, u16, u8),
}

impl OwnerNeed {
    /// The refusal of a configuration that has this part.
    pub fn refusal(self) -> ConfigurationRefusal
        ensures { result ≡ refusal_of_need self }
    {
        match self {
            OwnerNeed::Attribute(..) => ConfigurationRefusal::Attribute,
            OwnerNeed::Service(..) | OwnerNeed::Queued(..) => ConfigurationRefusal::Service,
        }
    }
}
