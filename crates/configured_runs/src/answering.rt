//! `enip answer`: an adapter over the lines of an input.

ghost use Rattle.std.specs.Prelude.{IfOk, IfErr};
ghost use Rattle.configured_adapter.specs.Configured.{IsAccepted};
ghost use Rattle.configured_runs.specs.Statuses.{IsFaultOf};

use configured_adapter::adapter_from;
use enip_adapter::Adapter;
use enip_common::Fault;
use enip_faults::ProgramFault;
use std::alloc::Global;
use std::io::{BufWriter, Read, Write};

/// The size of the output buffer, in bytes.
const OUTPUT_BUFFER: usize = 65_536;

/// Runs the adapter of a configuration over the lines of an input.
///
/// What can be answered is written before more input is read, and before a line is refused.
///
/// # Errors
///
/// If the configuration or a line is refused, or if a stream or memory failed.
pub fn answer<R: Read + Drop, W: Write + Drop>(
    alloc: Global,
    config: &[u8],
    input: R,
    output: W,
) -> Result<(), Fault>
    ensures accepted { IfOk result (λ _. IsAccepted config.now) }
    ensures refused { IfErr result (IsFaultOf config.now) }
{
    let adapter = adapter_from(alloc, config)?;
    answer_buffered(alloc, adapter, input, output)?;
    Ok(())
}

/// Runs an adapter over the lines of an input, and buffers the output.
fn answer_buffered<R: Read + Drop, W: Write + Drop>(
    alloc: Global,
    adapter: Adapter,
    input: R,
    output: W,
) -> Result<(), ProgramFault> {
    let mut output = BufWriter::with_capacity(alloc, OUTPUT_BUFFER, output)?;
    enip_answer::answer(alloc, adapter, input, &mut output)
}
