//! The check of the objects that refuses a configuration.

ghost use Rattle.std.specs.Prelude.{◌≡◌};
ghost use Rattle.enip_config.specs.ObjectsFault.{fault_of_objects};

use cip_objects::ConfigFault;
use config_refusal::{ConfigurationRefusal, LoadFault};

/// The check of a configuration that fails if its objects are refused by this check of theirs.
pub fn fault_of_objects(check: ConfigFault) -> LoadFault
    ensures { result ≡ fault_of_objects check }
{
    match check {
        ConfigFault::Name => LoadFault::Refused(ConfigurationRefusal::Name),
        ConfigFault::Size => LoadFault::Refused(ConfigurationRefusal::Size),
        ConfigFault::Members => LoadFault::Refused(ConfigurationRefusal::Members),
        ConfigFault::DoubleInstance => LoadFault::Refused(ConfigurationRefusal::DoubleInstance),
        ConfigFault::Limit => LoadFault::Refused(ConfigurationRefusal::Limit),
        ConfigFault::Object => LoadFault::Refused(ConfigurationRefusal::Object),
        ConfigFault::Attribute => LoadFault::Refused(ConfigurationRefusal::Attribute),
        ConfigFault::Service => LoadFault::Refused(ConfigurationRefusal::Service),
        ConfigFault::Memory => LoadFault::Memory,
    }
}
