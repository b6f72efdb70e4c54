//! `enip identity`, `enip services` and `enip discover`: the lists that a device answers without a session.

ghost use Rattle.std.specs.Prelude.{◌≡◌, ◌<◌, IfErr, OnOk, Some};
ghost use Rattle.std.specs.Io.KnownBytes.{Appends};
ghost use Rattle.enip_client.specs.Listing.{list_state};
ghost use Rattle.enip_client.specs.Lists.{entries_left, entry_shown};
ghost use Rattle.enip_commands.specs.Listing.{IsListAsked, IsListPrinted, list_text, device_line, datagram_text};
ghost use Rattle.enip_faults.specs.Statuses.{IsOfDevices};

use crate::request_failure::RequestFailure;
use enip_client::{
    IdentityView, ListCommand, ListEntries, ListEntry, ServiceView, ask_list, read_list,
};
use enip_faults::{Digits, ProgramFault};
use enip_wire::{FrameReader, Sink, Source};
use std::alloc::Global;
use std::io::{BufWriter, Write};
use std::{fmt, str};

/// A byte of a name: itself if it is printable ASCII, otherwise `\xHH`.
#[derive(Clone, Copy)]
struct NameByte(u8);

impl fmt::Display for NameByte {
    ghost use Rattle.enip_commands.specs.Listing.{name_byte};

    ghost output = { λ b. Some (name_byte b.0) };

    fn fmt<W: fmt::Write>(&self, f: &mut fmt::Formatter<W>) -> fmt::Result {
        let byte = [self.0];
        if !(32..=126).contains(&self.0) {
            return write!(f, "\\x{}", Digits(&byte));
        }
        match str::from_utf8(&byte) {
            Ok(text) => f.write_str(text),
            Err(_) => Err(fmt::Error),
        }
    }
}

/// A name, printed byte by byte.
#[derive(Clone, Copy)]
pub(crate) struct Name<'a>(pub(crate) &'a [u8]);

impl fmt::Display for Name<'_> {
    ghost use Rattle.enip_commands.specs.Listing.{name_text};

    ghost output = { λ n. Some (name_text n.0.now) };

    fn fmt<W: fmt::Write>(&self, f: &mut fmt::Formatter<W>) -> fmt::Result {
        for byte in self.0 {
            write!(f, "{}", NameByte(*byte))?;
        }
        Ok(())
    }
}

/// The address of a device, with its port.
#[derive(Clone, Copy)]
struct Address<'a, 'b>(&'b IdentityView<'a>);

impl fmt::Display for Address<'_, '_> {
    ghost use Rattle.enip_commands.specs.Listing.{address_text};

    ghost output = { λ a. Some (address_text a.0.now.address a.0.now.port) };

    fn fmt<W: fmt::Write>(&self, f: &mut fmt::Formatter<W>) -> fmt::Result {
        let [first, second, third, fourth] = self.0.address;
        let port = self.0.port;
        write!(f, "{first}.{second}.{third}.{fourth}:{port}")
    }
}

/// The revision of a device, as `major.minor`.
#[derive(Clone, Copy)]
struct Revision<'a, 'b>(&'b IdentityView<'a>);

impl fmt::Display for Revision<'_, '_> {
    ghost use Rattle.enip_commands.specs.Listing.{revision_text};

    ghost output = { λ r. Some (revision_text r.0.now.major r.0.now.minor) };

    fn fmt<W: fmt::Write>(&self, f: &mut fmt::Formatter<W>) -> fmt::Result {
        write!(f, "{}.{}", self.0.major, self.0.minor)
    }
}

/// A number of 16 bits in hexadecimal.
#[derive(Clone, Copy)]
struct HexWord(u16);

impl fmt::Display for HexWord {
    ghost use Rattle.enip_commands.specs.Listing.{hex_word};

    ghost output = { λ h. Some (hex_word h.0) };

    fn fmt<W: fmt::Write>(&self, f: &mut fmt::Formatter<W>) -> fmt::Result {
        write!(f, "0x{}", Digits(&self.0.to_be_bytes()))
    }
}

/// A number of 32 bits in hexadecimal.
#[derive(Clone, Copy)]
struct HexNumber(u32);

impl fmt::Display for HexNumber {
    ghost use Rattle.enip_commands.specs.Listing.{hex_number};

    ghost output = { λ h. Some (hex_number h.0) };

    fn fmt<W: fmt::Write>(&self, f: &mut fmt::Formatter<W>) -> fmt::Result {
        write!(f, "0x{}", Digits(&self.0.to_be_bytes()))
    }
}

/// The fields of an identity, one per line.
#[derive(Clone, Copy)]
struct IdentityLines<'a, 'b>(&'b IdentityView<'a>);

impl fmt::Display for IdentityLines<'_, '_> {
    ghost use Rattle.enip_client.specs.Identity.{identity_in};
    ghost use Rattle.enip_commands.specs.Listing.{identity_lines};

    ghost output = { λ l. Some (identity_lines (identity_in l.0.now)) };

    fn fmt<W: fmt::Write>(&self, f: &mut fmt::Formatter<W>) -> fmt::Result {
        let identity = self.0;
        write!(f, "vendor {}", identity.vendor)?;
        write!(f, "\ndevice type {}", identity.device_type)?;
        write!(f, "\nproduct code {}", identity.product_code)?;
        write!(f, "\nrevision {}", Revision(identity))?;
        write!(f, "\nstatus {}", HexWord(identity.status))?;
        write!(f, "\nserial {}", HexNumber(identity.serial))?;
        write!(f, "\nname {}", Name(identity.name))?;
        write!(f, "\nstate {}", identity.state)?;
        write!(f, "\naddress {}", Address(identity))
    }
}

/// The fields of a service, one per line.
#[derive(Clone, Copy)]
struct ServiceLines<'a, 'b>(&'b ServiceView<'a>);

impl fmt::Display for ServiceLines<'_, '_> {
    ghost use Rattle.enip_client.specs.Service.{service_in};
    ghost use Rattle.enip_commands.specs.Listing.{service_lines};

    ghost output = { λ l. Some (service_lines (service_in l.0.now)) };

    fn fmt<W: fmt::Write>(&self, f: &mut fmt::Formatter<W>) -> fmt::Result {
        let service = self.0;
        write!(f, "version {}", service.version)?;
        write!(f, "\ncapability flags {}", HexWord(service.flags))?;
        write!(f, "\nname {}", Name(service.name))
    }
}

/// The fields of an entry, one per line.
#[derive(Clone, Copy)]
struct EntryLines<'a>(ListEntry<'a>);

impl fmt::Display for EntryLines<'_> {
    ghost use Rattle.enip_client.specs.Lists.{entry_shown};
    ghost use Rattle.enip_commands.specs.Listing.{entry_lines};

    ghost output = { λ l. Some (entry_lines (entry_shown l.0)) };

    fn fmt<W: fmt::Write>(&self, f: &mut fmt::Formatter<W>) -> fmt::Result {
        match &self.0 {
            ListEntry::Service(service) => write!(f, "{}", ServiceLines(service)),
            ListEntry::Identity(identity) => write!(f, "{}", IdentityLines(identity)),
        }
    }
}

/// A device on one line.
#[derive(Clone, Copy)]
pub(crate) struct DeviceLine<'a, 'b>(pub(crate) &'b IdentityView<'a>);

impl fmt::Display for DeviceLine<'_, '_> {
    ghost use Rattle.enip_client.specs.Identity.{identity_in};
    ghost use Rattle.enip_commands.specs.Listing.{device_text};

    ghost output = { λ l. Some (device_text (identity_in l.0.now)) };

    fn fmt<W: fmt::Write>(&self, f: &mut fmt::Formatter<W>) -> fmt::Result {
        let identity = self.0;
        write!(f, "{}", Address(identity))?;
        write!(f, " {}", Name(identity.name))?;
        write!(f, " vendor {}", identity.vendor)?;
        write!(f, " product {}", identity.product_code)?;
        write!(f, " serial {}", HexNumber(identity.serial))
    }
}

/// Asks a device for a list over a reader and a writer, without a session. Prints it on `output`: one field per line,
/// and an empty line between entries.
///
/// # Errors
///
/// `Client` with `Status`, `TooLong` or `Malformed` if the answer is a refusal, too long or malformed. `Program` if
/// the reader, the writer or the output failed, the input ended, or memory was refused.
pub fn list_over<R: Source, W: Sink, O: Write + Drop>(
    alloc: Global,
    reader: &mut R,
    writer: &mut W,
    command: ListCommand,
    output: O,
) -> Result<(), RequestFailure>
    requires reads { R.failures reader.old < u64.MAX }
    requires writes { W.failures writer.old < u64.MAX }
    ensures { IsListAsked command
        (list_state (R.left reader.old) (R.reads reader.old) (W.written writer.old))
        (list_state (R.left reader.new) (R.reads reader.new) (W.written writer.new)) result }
{
    let mut frames = FrameReader::new(alloc)?;
    let mut output = BufWriter::new(alloc, output)?;
    print_list(command, &mut frames, reader, writer, &mut output)?;
    output.flush()?;
    Ok(())
}

/// Asks for a list, and prints it.
fn print_list<R: Source, W: Sink, O: Write>(
    command: ListCommand,
    frames: &mut FrameReader,
    reader: &mut R,
    writer: &mut W,
    output: &mut O,
) -> Result<(), RequestFailure>
    requires reads { R.failures reader.old < u64.MAX }
    requires writes { W.failures writer.old < u64.MAX }
    ensures { IsListPrinted command
        (list_state (R.left reader.old) (R.reads reader.old) (W.written writer.old))
        (list_state (R.left reader.new) (R.reads reader.new) (W.written writer.new))
        (O.contents output.old) (O.contents output.new) result }
{
    let entries = ask_list(command, frames, reader, writer)?;
    print_entries(output, entries)?;
    Ok(())
}

/// Prints the entries of a list, with an empty line between them.
fn print_entries<O: Write>(output: &mut O, entries: ListEntries<'_>) -> Result<(), ProgramFault>
    ensures printed { OnOk result (Appends (O.contents output.old) (O.contents output.new)
        (list_text (entries_left entries.entry))) }
    ensures refused { IfErr result IsOfDevices }
{
    let mut entries = entries;
    let Some(first) = entries.next() else {
        return Ok(());
    };
    writeln!(output, "{}", EntryLines(first))?;
    for entry in entries {
        write!(output, "\n{}\n", EntryLines(entry))?;
    }
    Ok(())
}

/// Prints one line for each identity in an answer to ListIdentity: address, name, vendor, product code and serial
/// number. A datagram that is not a whole answer is ignored.
///
/// # Errors
///
/// `Device` or `Memory` if the output failed.
pub fn print_devices<O: Write>(output: &mut O, datagram: &[u8]) -> Result<(), ProgramFault>
    ensures printed { OnOk result (Appends (O.contents output.old) (O.contents output.new)
        (datagram_text datagram.now)) }
    ensures refused { IfErr result IsOfDevices }
{
    let Ok(entries) = read_list(ListCommand::Identity, datagram) else {
        return Ok(());
    };
    for entry in entries {
        print_device(output, entry)?;
    }
    Ok(())
}

/// Prints the line of an identity. A service has none.
fn print_device<O: Write>(output: &mut O, entry: ListEntry<'_>) -> Result<(), ProgramFault>
    ensures printed { OnOk result (Appends (O.contents output.old) (O.contents output.new)
        (device_line (entry_shown entry.entry))) }
    ensures refused { IfErr result IsOfDevices }
{
    match &entry {
        ListEntry::Identity(identity) => writeln!(output, "{}", DeviceLine(identity))?,
        ListEntry::Service(_) => {}
    }
    Ok(())
}
