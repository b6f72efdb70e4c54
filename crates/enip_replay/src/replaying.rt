//! `enip replay`: runs a script with a client and an adapter, and prints the outcome of each event.

ghost use Rattle.std.specs.Prelude.{◌≡◌, ◌++◌, true, false, IfOk, IfErr, OnOk};
ghost use Rattle.std.specs.Io.KnownBytes.{Appends, Keeps};
ghost use Rattle.enip_bench.specs.Reached.{IsNewAdapter};
ghost use Rattle.enip_bench.specs.Stored.{event_in};
ghost use Rattle.enip_replay.specs.Outcome.{final_line, outcomes};
ghost use Rattle.enip_replay.specs.Replay.{IsOpeningOf, IsUnopened, IsStopOf, IsPlayed, IsPlayedFrom, IsPlayedUpTo};
ghost use Rattle.enip_replay.specs.Replay.{IsDone, IsRun, IsStopAt, ending, stop_of};
ghost use Rattle.enip_replay.specs.Replay.{objects_printed, assembly_printed, assemblies_printed};
ghost use Rattle.enip_replay.specs.Script.{IsRefusedLine};
ghost use Rattle.enip_lines.specs.Lines.{with_newline};
ghost use Rattle.enip_faults.specs.Statuses.{IsOfDevices};

use crate::outcome::{AssemblyData, Counter, FinalState, Outcome};
use crate::script::{event_of, is_skipped, line_fault};
use cip_bytes::protocol::ASSEMBLY;
use cip_class3::Stage;
use cip_objects::{Objects, ReplyBuf};
use enip_adapter::Adapter;
use enip_bench::{Bench, BenchFault, Event};
use enip_client::{Client, USUAL_WANTS};
use enip_faults::{ProgramFault, ReplayFailure};
use enip_lines::{TakeLines, read_lines};
use std::alloc::Global;
use std::io::Write;

/// The attribute that has the data of an assembly. (Volume 1, Assembly.)
const DATA: u16 = 3;

/// The greatest instance number of an assembly. (Volume 1, Assembly.)
const LAST_INSTANCE: u32 = 65_535;

/// Runs a script with a client and an adapter. Prints the outcome of each event on `output`, and then the objects and
/// the state of the client. `output` is flushed.
///
/// If a line is refused, the outcomes of the lines before it are still written.
///
/// # Errors
///
/// `Setup` if the client cannot open its connection, or the second session cannot begin. `Program` with `Line` and
/// the number of the first line that is refused, from 1; with `Device` if the output could not be written; with
/// `Memory` if memory was refused.
pub fn replay<W: Write>(
    alloc: Global,
    adapter: Adapter,
    script: &[u8],
    output: &mut W,
) -> Result<(), ReplayFailure>
    requires { IsNewAdapter adapter }
    ensures played { OnOk result (IsPlayed adapter script.now (W.contents output.old) (W.contents output.new)) }
    ensures stopped { IfErr result
        (IsStopOf adapter script.now (W.contents output.old) (W.contents output.new)) }
{
    let bench = bench_of(alloc, adapter)?;
    let mut player = Player {
        alloc,
        bench,
        digits: Vec::new(alloc),
    };
    player.play(script, output).map_err(ReplayFailure::Program)
}

/// Why no bench is made.
fn stop_of(fault: BenchFault) -> ReplayFailure
    ensures { result ≡ stop_of fault }
{
    match fault {
        BenchFault::Memory => ReplayFailure::Program(ProgramFault::Memory),
        BenchFault::Setup => ReplayFailure::Setup,
    }
}

/// A bench with this adapter, and a client whose connection is open.
///
/// # Errors
///
/// `Setup` and `Program` with `Memory`, as for `replay`.
pub(crate) fn bench_of(alloc: Global, adapter: Adapter) -> Result<Bench, ReplayFailure>
    requires { IsNewAdapter adapter }
    ensures made { IfOk result (IsOpeningOf adapter) }
    ensures refused { IfErr result (IsUnopened adapter) }
{
    let Ok(client) = Client::new(alloc, &USUAL_WANTS) else {
        return Err(ReplayFailure::Program(ProgramFault::Memory));
    };
    match Bench::new(alloc, adapter, client) {
        Ok(bench) => Ok(bench),
        Err(fault) => Err(stop_of(fault)),
    }
}

/// The bench, and a scratch buffer for the digits of a line.
#[derive(Drop)]
struct Player {
    alloc: Global,
    bench: Bench,
    digits: Vec<u8>,
}

impl Player {
    /// Runs a script, and prints the outcomes and the final state.
    fn play<W: Write>(&mut self, script: &[u8], output: &mut W) -> Result<(), ProgramFault>
        ensures played { OnOk result
            (IsPlayedFrom self.old.bench script.now (W.contents output.old) (W.contents output.new)) }
        ensures stopped { IfErr result (IsStopAt
            (IsPlayedUpTo self.old.bench script.now (W.contents output.old) (W.contents output.new))) }
    {
        let mut rest = script;
        read_lines(self.alloc, &mut rest, self, output)?;
        print_ending(&self.bench, output)
    }

    /// Runs a line. Returns false if it is refused.
    fn run_line<W: Write>(&mut self, text: &[u8], output: &mut W) -> Result<bool, ProgramFault>
        ensures run { IfOk result (λ runs. runs ≡ true → IsRun outcomes text.now self.old.bench self.new.bench
            (W.contents output.old) (W.contents output.new)) }
        ensures line { IfOk result (λ runs. runs ≡ false → IsRefusedLine text.now) }
        ensures same { IfOk result (λ runs. runs ≡ false → Keeps (W.contents output.old) (W.contents output.new)) }
        ensures refused { IfErr result IsOfDevices }
    {
        if is_skipped(text) {
            return Ok(true);
        }
        let Some(event) = event_of(self.alloc, text, &mut self.digits)? else {
            return Ok(false);
        };
        self.run_event(&event, output)?;
        Ok(true)
    }

    /// Runs an event and prints its outcome.
    fn run_event<W: Write>(&mut self, event: &Event, output: &mut W) -> Result<(), ProgramFault>
        ensures done { OnOk result (IsDone (event_in event.now) self.old.bench self.new.bench
            (W.contents output.old) (W.contents output.new)) }
        ensures refused { IfErr result IsOfDevices }
    {
        let step = self.bench.step(event)?;
        writeln!(output, "{}", Outcome { event, step })?;
        Ok(())
    }
}

impl TakeLines for Player {
    ghost does = { λ text old new before after. IsRun outcomes text old.bench new.bench before after };

    ghost refuses = { IsRefusedLine };

    fn take_line<W: Write>(
        &mut self,
        text: &[u8],
        number: u64,
        output: &mut W,
    ) -> Result<(), ProgramFault> {
        if self.run_line(text, output)? {
            Ok(())
        } else {
            Err(ProgramFault::Line(number, line_fault(text)))
        }
    }
}

/// Prints the objects and the state of the client, and flushes the output.
fn print_ending<W: Write>(bench: &Bench, output: &mut W) -> Result<(), ProgramFault>
    ensures printed { OnOk result (Appends (W.contents output.old) (W.contents output.new) (ending bench.now)) }
    ensures refused { IfErr result IsOfDevices }
{
    let seen = bench.seen();
    print_state(seen.objects, seen.stage, output)?;
    output.flush()?;
    Ok(())
}

/// Prints the objects and the state of the client.
pub(crate) fn print_state<W: Write>(
    objects: &Objects,
    stage: Stage,
    output: &mut W,
) -> Result<(), ProgramFault>
    ensures printed { OnOk result (Appends (W.contents output.old) (W.contents output.new)
        (objects_printed objects.now ++ with_newline (final_line stage))) }
    ensures refused { IfErr result IsOfDevices }
{
    print_objects(output, objects)?;
    writeln!(output, "{}", FinalState(stage))?;
    Ok(())
}

/// Prints the counter, if the device has it, and the data of each assembly, sorted by instance.
fn print_objects<W: Write>(output: &mut W, objects: &Objects) -> Result<(), ProgramFault>
    ensures printed { OnOk result (Appends (W.contents output.old) (W.contents output.new)
        (objects_printed objects.now)) }
    ensures refused { IfErr result IsOfDevices }
{
    if objects.has_counter() {
        writeln!(output, "{}", Counter::of(objects))?;
    }
    print_assemblies(output, objects)
}

/// Prints the data of each assembly, sorted by instance.
fn print_assemblies<W: Write>(output: &mut W, objects: &Objects) -> Result<(), ProgramFault>
    ensures printed { OnOk result (Appends (W.contents output.old) (W.contents output.new)
        (assemblies_printed objects.now LAST_INSTANCE)) }
    ensures refused { IfErr result IsOfDevices }
{
    let mut data = ReplyBuf::new();
    for instance in 1..LAST_INSTANCE + 1 {
        print_assembly(output, objects, instance, &mut data)?;
    }
    Ok(())
}

/// Prints the data of an assembly, if it exists. `data` is a scratch buffer.
fn print_assembly<W: Write>(
    output: &mut W,
    objects: &Objects,
    instance: u32,
    data: &mut ReplyBuf,
) -> Result<(), ProgramFault>
    ensures printed { OnOk result (Appends (W.contents output.old) (W.contents output.new)
        (assembly_printed objects.now instance)) }
    ensures refused { IfErr result IsOfDevices }
{
    if !objects.read_attribute(ASSEMBLY, instance, DATA, data) {
        return Ok(());
    }
    let data = data.as_slice();
    writeln!(output, "{}", AssemblyData { instance, data })?;
    Ok(())
}
