//! One list request to a device, over a reader and a writer.

ghost use Rattle.std.specs.Prelude.{◌≡◌, ◌+◌, ◌<◌};
ghost use Rattle.cip_bytes.specs.Reading.{map_ok};
ghost use Rattle.enip_client.specs.Asking.{read_faults, write_faults};
ghost use Rattle.enip_client.specs.Lists.{entries_left};
ghost use Rattle.enip_client.specs.Listing.{IsListed, IsGathered, list_state};

use crate::asking::{LONGEST_READ, read};
use crate::fault::AskFault;
use crate::lists::{ListCommand, ListEntries, read_list, write_list};
use crate::sending::Sent;
use crate::step::send;
use enip_wire::{FrameReader, Held, Sink, Source};

/// Requests a list, and reads until one whole frame has arrived. No session is needed. The entries are lent from
/// `frames`, which is cleared first.
///
/// ```
/// let mut frames = FrameReader::new(alloc)?;
/// let entries = ask_list(ListCommand::Identity, &mut frames, &mut reader, &mut writer)?;
/// ```
///
/// # Errors
///
/// - `Read` or `Write` if that device failed.
/// - `Ended` if the input ended before a whole frame.
/// - `Spent` if the reader cannot count another read.
/// - `Client` with `TooLong` for a header with a length over 65,511, with `Status` if the reply has one, with
///   `Malformed` if the first frame is not such a reply.
pub fn ask_list<'a, R: Source, W: Sink>(
    command: ListCommand,
    frames: &'a mut FrameReader,
    reader: &mut R,
    writer: &mut W,
) -> Result<ListEntries<'a>, AskFault>
    requires read_failures { R.failures reader.old < u64.MAX }
    requires write_failures { W.failures writer.old < u64.MAX }
    ensures listed { IsListed command
        (list_state (R.left reader.old) (R.reads reader.old) (W.written writer.old))
        (list_state (R.left reader.new) (R.reads reader.new) (W.written writer.new)) (map_ok entries_left result) }
    ensures read_failures { R.failures reader.new ≡ R.failures reader.old + read_faults result }
    ensures write_failures { W.failures writer.new ≡ W.failures writer.old + write_faults result }
{
    let mut sent = Sent::new();
    write_list(command, &mut sent);
    send(sent.as_slice(), writer)?;
    gather(reader, frames)?;
    Ok(read_list(command, frames.bytes())?)
}

/// Reads until the bytes that arrived are one whole frame, or a header whose length is over the limit.
///
/// # Errors
///
/// `Read`, `Ended` or `Spent`.
fn gather<R: Source>(reader: &mut R, frames: &mut FrameReader) -> Result<(), AskFault>
    requires { R.failures reader.old < u64.MAX }
    ensures gathered { IsGathered (R.left reader.old) (R.left reader.new) (R.reads reader.new) frames.new result }
    ensures not_written { write_faults result ≡ 0 }
    ensures failures { R.failures reader.new ≡ R.failures reader.old + read_faults result }
{
    frames.clear();
    let mut buffer = [0; LONGEST_READ];
    while let Held::More = frames.state() {
        let size = read(reader, &mut buffer)?;
        frames.push(&buffer[..size]);
    }
    Ok(())
}
