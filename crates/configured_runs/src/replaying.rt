//! `enip replay`: a client and an adapter by the lines of a script.

ghost use Rattle.std.specs.Prelude.{IfOk, IfErr};
ghost use Rattle.configured_adapter.specs.Configured.{IsAccepted};
ghost use Rattle.configured_runs.specs.Statuses.{IsReplayFaultOf};

use configured_adapter::unshared_adapter_from;
use enip_common::Fault;
use enip_faults::ProgramFault;
use std::alloc::Global;
use std::io::{BufWriter, Write};

/// Runs a client, and the adapter of a configuration, by the lines of a script. The output is buffered.
///
/// # Errors
///
/// If the configuration, the opening of the client's connection or a line is refused, or if the output or memory failed.
/// The output of the lines before a refused one is written.
pub fn replay<W: Write + Drop>(
    alloc: Global,
    config: &[u8],
    script: &[u8],
    output: W,
) -> Result<(), Fault>
    ensures accepted { IfOk result (λ _. IsAccepted config.now) }
    ensures refused { IfErr result (IsReplayFaultOf config.now) }
{
    match BufWriter::new(alloc, output) {
        Ok(mut output) => replay_on(alloc, config, script, &mut output),
        Err(_) => Err(Fault::Run(ProgramFault::Memory)),
    }
}

/// As `replay`, on a buffered output.
fn replay_on<W: Write>(
    alloc: Global,
    config: &[u8],
    script: &[u8],
    output: &mut W,
) -> Result<(), Fault>
    ensures accepted { IfOk result (λ _. IsAccepted config.now) }
    ensures refused { IfErr result (IsReplayFaultOf config.now) }
{
    let adapter = unshared_adapter_from(alloc, config)?;
    enip_replay::replay(alloc, adapter, script, output)?;
    Ok(())
}

/// As `replay`, but draws the run as a ladder.
///
/// # Errors
///
/// Those of `replay`.
pub fn draw<W: Write + Drop>(
    alloc: Global,
    config: &[u8],
    script: &[u8],
    output: W,
) -> Result<(), Fault>
    ensures accepted { IfOk result (λ _. IsAccepted config.now) }
    ensures refused { IfErr result (IsReplayFaultOf config.now) }
{
    match BufWriter::new(alloc, output) {
        Ok(mut output) => draw_on(alloc, config, script, &mut output),
        Err(_) => Err(Fault::Run(ProgramFault::Memory)),
    }
}

/// As `draw`, on a buffered output.
fn draw_on<W: Write>(
    alloc: Global,
    config: &[u8],
    script: &[u8],
    output: &mut W,
) -> Result<(), Fault>
    ensures accepted { IfOk result (λ _. IsAccepted config.now) }
    ensures refused { IfErr result (IsReplayFaultOf config.now) }
{
    let adapter = unshared_adapter_from(alloc, config)?;
    enip_replay::draw_replay(alloc, adapter, script, output)?;
    Ok(())
}
