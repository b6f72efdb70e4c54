//! `enip identity --json`, `enip services --json` and `enip discover --json`: one object per line for each entry.

ghost use Rattle.std.specs.Prelude.{◌<◌, IfErr, OnOk};
ghost use Rattle.std.specs.Io.KnownBytes.{Appends};
ghost use Rattle.enip_client.specs.Listing.{list_state};
ghost use Rattle.enip_client.specs.Lists.{entries_left, entry_shown};
ghost use Rattle.enip_commands.specs.ListObjects.{AreObjectsPrinted, object_line, object_lines, datagram_objects};
ghost use Rattle.enip_commands.specs.Listing.{IsListAsked};
ghost use Rattle.enip_faults.specs.Statuses.{IsOfDevices};

use crate::json_text::{identity_line, service_line};
use crate::request_failure::RequestFailure;
use enip_client::{ListCommand, ListEntries, ListEntry, ask_list, read_list};
use enip_faults::ProgramFault;
use enip_wire::{FrameReader, Sink, Source};
use std::alloc::Global;
use std::io::{BufWriter, Write};

/// Asks a device for a list over a reader and a writer, without a session. Prints one JSON object per line on `output`
/// for each entry of the answer.
///
/// # Errors
///
/// As for [`list_over`](crate::list_over).
pub fn objects_over<R: Source, W: Sink, O: Write + Drop>(
    alloc: Global,
    reader: &mut R,
    writer: &mut W,
    command: ListCommand,
    output: O,
) -> Result<(), RequestFailure>
    requires reads { R.failures reader.old < u64.MAX }
    requires writes { W.failures writer.old < u64.MAX }
    ensures { IsListAsked command
        (list_state (R.left reader.old) (R.reads reader.old) (W.written writer.old))
        (list_state (R.left reader.new) (R.reads reader.new) (W.written writer.new)) result }
{
    let mut frames = FrameReader::new(alloc)?;
    let mut output = BufWriter::new(alloc, output)?;
    print_answer(alloc, command, &mut frames, reader, writer, &mut output)?;
    output.flush()?;
    Ok(())
}

/// Asks for a list and prints its objects.
fn print_answer<R: Source, W: Sink, O: Write>(
    alloc: Global,
    command: ListCommand,
    frames: &mut FrameReader,
    reader: &mut R,
    writer: &mut W,
    output: &mut O,
) -> Result<(), RequestFailure>
    requires reads { R.failures reader.old < u64.MAX }
    requires writes { W.failures writer.old < u64.MAX }
    ensures { AreObjectsPrinted command
        (list_state (R.left reader.old) (R.reads reader.old) (W.written writer.old))
        (list_state (R.left reader.new) (R.reads reader.new) (W.written writer.new))
        (O.contents output.old) (O.contents output.new) result }
{
    let entries = ask_list(command, frames, reader, writer)?;
    print_objects(alloc, output, entries)?;
    Ok(())
}

/// Prints one JSON object per line for each identity in an answer to ListIdentity. A datagram that is not a whole
/// answer is ignored.
///
/// # Errors
///
/// `Device` if the output failed. `Memory` if memory was refused.
pub fn print_device_objects<O: Write>(
    alloc: Global,
    output: &mut O,
    datagram: &[u8],
) -> Result<(), ProgramFault>
    ensures printed { OnOk result (Appends (O.contents output.old) (O.contents output.new)
        (datagram_objects datagram.now)) }
    ensures refused { IfErr result IsOfDevices }
{
    let Ok(entries) = read_list(ListCommand::Identity, datagram) else {
        return Ok(());
    };
    print_objects(alloc, output, entries)
}

/// Prints the objects of a list.
fn print_objects<O: Write>(
    alloc: Global,
    output: &mut O,
    entries: ListEntries<'_>,
) -> Result<(), ProgramFault>
    ensures printed { OnOk result (Appends (O.contents output.old) (O.contents output.new)
        (object_lines (entries_left entries.entry))) }
    ensures refused { IfErr result IsOfDevices }
{
    for entry in entries {
        print_object(alloc, output, entry)?;
    }
    Ok(())
}

/// Prints the object of an entry.
fn print_object<O: Write>(
    alloc: Global,
    output: &mut O,
    entry: ListEntry<'_>,
) -> Result<(), ProgramFault>
    ensures printed { OnOk result (Appends (O.contents output.old) (O.contents output.new)
        (object_line (entry_shown entry.entry))) }
    ensures refused { IfErr result IsOfDevices }
{
    match &entry {
        ListEntry::Identity(identity) => {
            writeln!(output, "{}", identity_line(alloc, identity)?)?;
        }
        ListEntry::Service(service) => writeln!(output, "{}", service_line(alloc, service)?)?,
    }
    Ok(())
}
