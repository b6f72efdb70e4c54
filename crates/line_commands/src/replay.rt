//! `enip replay`: runs a client and an adapter by the lines of a script.

ghost use Rattle.std.specs.Prelude.{◌≡◌};
ghost use Rattle.config_refusal.specs.declared.fault.ConfigurationRefusal.{ConfigurationRefusal};
ghost use Rattle.configured_adapter.specs.Configured.{IsAccepted};
ghost use Rattle.enip_config.specs.Documents.{IsRefused};
ghost use Rattle.configured_runs.specs.Statuses.{IsOpeningRefused, IsReplayStatus};

use crate::report::Report;
use std::alloc::Global;
use std::io::Write;

/// Runs a client and an adapter by the lines of a script. Returns the exit status of the program: 0 if all lines were
/// run, 3 if the configuration is refused, 4 if a line is refused, 5 if the output or memory failed, 6 if the client
/// could not open its connection. `errors` receives the fault.
///
/// The output of the lines before a refused one is written.
pub fn replay<W: Write + Drop, E: Report>(
    alloc: Global,
    config: &str,
    script: &str,
    output: W,
    errors: &mut E,
) -> u8
    ensures status { IsReplayStatus result }
    ensures accepted { result ≡ 0 → IsAccepted config.now }
    ensures line { result ≡ 4 → IsAccepted config.now }
    ensures refused { result ≡ 3 → (refusal : ConfigurationRefusal) × IsRefused config.now refusal }
    ensures setup { result ≡ 6 → IsOpeningRefused config.now }
{
    match configured_runs::replay(alloc, config.as_bytes(), script.as_bytes(), output) {
        Ok(()) => 0,
        Err(fault) => {
            errors.report(fault);
            fault.exit_status()
        }
    }
}

/// As `replay`, but draws the run as a ladder.
pub fn draw<W: Write + Drop, E: Report>(
    alloc: Global,
    config: &str,
    script: &str,
    output: W,
    errors: &mut E,
) -> u8
    ensures status { IsReplayStatus result }
    ensures accepted { result ≡ 0 → IsAccepted config.now }
    ensures line { result ≡ 4 → IsAccepted config.now }
    ensures refused { result ≡ 3 → (refusal : ConfigurationRefusal) × IsRefused config.now refusal }
    ensures setup { result ≡ 6 → IsOpeningRefused config.now }
{
    match configured_runs::draw(alloc, config.as_bytes(), script.as_bytes(), output) {
        Ok(()) => 0,
        Err(fault) => {
            errors.report(fault);
            fault.exit_status()
        }
    }
}
