//! What a device starts from, by its configuration and the arguments.

ghost use Rattle.std.specs.Prelude.{◌≡◌, ◌<◌, ◌*◌, ◌-◌, ◌^◌, ◌↔◌, IfOk, IfNone, IfSome, IsSomeAnd, IsTrue};
ghost use Rattle.device_start.specs.Configured.{IsReordered, IsStartOf};

use crate::options::ServeOptions;
use config_file::ConfigFile;
use device_start::configured_start;
use enip_access::Access;
use enip_common::CommandError;
use enip_config::Configuration;
use kept_adapter::AdapterStart;

/// What a device starts from, whether its state is kept or not, and who may connect.
///
/// # Errors
///
/// If an object of the configuration is refused, the clock of the system cannot be read, or memory is refused.
pub fn served_start<'a>(
    rt: &HostRuntime,
    config: &ConfigFile<'a>,
    configuration: Configuration,
    options: ServeOptions<'a>,
) -> Result<(AdapterStart, Option<Access>), CommandError<'a>>
    ensures access { IfOk result (λ r. r.1 ≡ configuration.access) }
    ensures objects { IfOk result (λ r. IsReordered configuration.objects r.0.objects) }
    ensures rest { IfOk result (λ r. IsStartOf configuration r.0) }
    ensures begins { IfOk result (λ r. IsTrue r.0.begins_life ↔ IsSomeAnd options.entry.keep (λ f. IsTrue f.accepts_older)) }
    ensures idle_by_default { IfOk result (λ r. IfNone options.entry.idle.seconds (r.0.idle_timeout ≡ 120_000_000)) }
    ensures idle { IfOk result (λ r. IfSome options.entry.idle.seconds (λ s. 0 < s → r.0.idle_timeout ≡ s * 1_000_000)) }
    ensures no_limit { IfOk result (λ r. IfSome options.entry.idle.seconds (λ s. s ≡ 0 → r.0.idle_timeout ≡ 2 ^ 64 - 1)) }
{
    configured_start(
        rt,
        config,
        configuration,
        options.begins_life(),
        options.idle_timeout(),
    )
}
