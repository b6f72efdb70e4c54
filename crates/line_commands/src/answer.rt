//! `enip answer`: reads lines with pieces of streams, and prints the adapter's answers.

ghost use Rattle.std.specs.Prelude.{◌≡◌};
ghost use Rattle.config_refusal.specs.declared.fault.ConfigurationRefusal.{ConfigurationRefusal};
ghost use Rattle.configured_adapter.specs.Configured.{IsAccepted};
ghost use Rattle.enip_config.specs.Documents.{IsRefused};
ghost use Rattle.configured_runs.specs.Statuses.{IsStatus};

use crate::report::Report;
use std::alloc::Global;
use std::io::{Read, Write};

/// Runs an adapter over the lines of an input. Returns the exit status of the program: 0 if all lines were run, 3 if the
/// configuration is refused, 4 if a line is refused, 5 if a stream or memory failed. `errors` receives the fault.
///
/// What can be answered is written before more input is read, and before a line is refused.
pub fn answer<R: Read + Drop, W: Write + Drop, E: Report>(
    alloc: Global,
    config: &str,
    input: R,
    output: W,
    errors: &mut E,
) -> u8
    ensures status { IsStatus result }
    ensures accepted { result ≡ 0 → IsAccepted config.now }
    ensures line { result ≡ 4 → IsAccepted config.now }
    ensures refused { result ≡ 3 → (refusal : ConfigurationRefusal) × IsRefused config.now refusal }
{
    match configured_runs::answer(alloc, config.as_bytes(), input, output) {
        Ok(()) => 0,
        Err(fault) => {
            errors.report(fault);
            fault.exit_status()
        }
    }
}
