//! The file of `--once` with ids: the commander, the id of the pending command, and the commands with an id that were
//! executed last. Without ids it is the file of `command_file`.

ghost use Rattle.std.specs.Prelude.{◌≡◌, ◌<◌, ◌++◌, IfOk, OnOk, false, map};
ghost use Rattle.std.specs.List.{list_all, list_any};
ghost use Rattle.std.specs.Str.{bytes_eq};
ghost use Rattle.std.specs.Option.{option_copied};
ghost use Rattle.enip_commands.specs.CommandFiles.{line};
ghost use Rattle.enip_commands.specs.CommandRecords.{record_in, done_in, done_text, dones_text, record_text, is_id, is_id_byte};
ghost use Rattle.enip_commands.specs.CommandRecords.{pending_id_text, text_with_ids, text_of_both, has_id, record_after, AreDistinct};

mod listing;
mod plan;
mod reading;

use crate::command_file::CommandFile;
use cip_commander::Commander;
pub use listing::{record_line, record_listing};
pub use plan::{IdPlan, plan_id, reply_of_digits};
pub use reading::{RecordFailure, has_ids_head, read_record};
use std::alloc::{AllocError, Global};

/// The bytes of the first line of a file without ids.
pub(crate) const HEAD_SIZE: usize = 16;

/// The most characters of an id (ours).
const LONGEST_ID: usize = 64;

/// A command with an id that was executed, as the file has it.
#[derive(Clone, Copy, Debug)]
pub struct DoneCommand<'a> {
    /// 1 to 64 printable ASCII characters without spaces.
    pub id: &'a [u8],
    /// The request, in lower-case hexadecimal digits.
    pub request: &'a [u8],
    /// The reply, in lower-case hexadecimal digits.
    pub reply: &'a [u8],
}

/// What a file of `--once` has. With ids, the file begins like this, and its last four lines are those of a file without
/// ids:
///
/// ```text
/// enip commands 2
/// ids 1
/// id 2026-11-29
/// request 32022064240105000000
/// reply b200000005000000
/// pending-id no id
/// ```
///
/// `ids` is the number of commands, each of three lines, the oldest first. `pending-id` is the id of the pending command.
#[derive(Drop)]
pub struct CommandRecord<'a> {
    pub commander: Commander,
    /// The id of the pending command, if there is one and it has an id.
    pub pending_id: Option<&'a [u8]>,
    /// The commands with an id that were executed last, the oldest first.
    pub done: Vec<DoneCommand<'a>>,
}

/// Whether a text is an id: 1 to 64 printable ASCII characters without spaces.
pub fn is_command_id(text: &[u8]) -> bool
    ensures { result ≡ is_id text.now }
{
    !text.is_empty() && text.len() <= LONGEST_ID && are_id_bytes(text)
}

/// Whether every byte may be in an id.
fn are_id_bytes(text: &[u8]) -> bool
    ensures { result ≡ list_all is_id_byte text.now }
{
    text.iter().all(|byte| is_id_byte(*byte))
}

/// Whether a byte may be in an id.
fn is_id_byte(byte: u8) -> bool
    ensures { result ≡ is_id_byte byte }
{
    0x21 <= byte && byte <= 0x7e
}

/// Whether one of these commands has this id.
pub(crate) fn has_id(done: &[DoneCommand<'_>], id: &[u8]) -> bool
    ensures { result ≡ has_id (map done_in done.now) id.now }
{
    any_with_id(done, id)
}

/// The same, in the words of the program.
fn any_with_id(done: &[DoneCommand<'_>], id: &[u8]) -> bool
    ensures { result ≡ list_any (λ command. bytes_eq command.id.now id.now) done.now }
{
    done.iter().any(|command| is_same(command.id, id))
}

/// Whether two ids are the same.
pub(crate) fn is_same(id: &[u8], other: &[u8]) -> bool
    ensures { result ≡ bytes_eq id.now other.now }
{
    id == other
}

/// The text of the file once its pending command, which has an id, was executed: of the commands with an id the last `most`
/// are kept, `most` being 1 at least, and none is pending.
///
/// # Errors
///
/// `AllocError` if memory is refused.
pub fn text_after(
    alloc: Global,
    before: &CommandRecord<'_>,
    command: DoneCommand<'_>,
    most: usize,
) -> Result<Vec<u8>, AllocError>
    requires { 0 < most }
    ensures kept { IfOk result (λ text. text.items ≡ text_with_ids (record_after (record_in before.now) (done_in command.entry) most)) }
    ensures distinct { AreDistinct (map done_in before.now.done.items) → has_id (map done_in before.now.done.items) command.entry.id.now ≡ false
        → AreDistinct (record_after (record_in before.now) (done_in command.entry) most).done }
{
    let done = before.done.as_slice();
    let dropped = done.len().saturating_sub(most - 1);
    text_with_ids(alloc, &before.commander, None, &done[dropped..], &[command])
}

/// The text of the file. Without ids it is that of a [`CommandFile`](crate::CommandFile).
///
/// # Errors
///
/// `AllocError` if memory is refused.
pub fn record_text(alloc: Global, kept: &CommandRecord<'_>) -> Result<Vec<u8>, AllocError>
    ensures { IfOk result (λ text. text.items ≡ record_text (record_in kept.now)) }
{
    if kept.pending_id.is_none() && kept.done.is_empty() {
        let whole = format!(in alloc; "{}", CommandFile(&kept.commander))?;
        let mut text = Vec::new(alloc);
        text.extend_from_slice(whole.as_bytes())?;
        return Ok(text);
    }
    text_with_ids(
        alloc,
        &kept.commander,
        kept.pending_id,
        kept.done.as_slice(),
        &[],
    )
}

/// The text of a file with ids, whose executed commands are these and then the last ones.
fn text_with_ids(
    alloc: Global,
    commander: &Commander,
    pending_id: Option<&[u8]>,
    done: &[DoneCommand<'_>],
    last: &[DoneCommand<'_>],
) -> Result<Vec<u8>, AllocError>
    ensures { IfOk result (λ text. text.items
        ≡ text_of_both commander.now (option_copied pending_id.entry) (map done_in done.now) (map done_in last.now)) }
{
    let whole = format!(in alloc; "{}", CommandFile(commander))?;
    let mut text = Vec::new(alloc);
    let count = format!(in alloc; "{}", done.len() + last.len())?;
    text.extend_from_slice(b"enip commands 2\n")?;
    append_line(&mut text, b"ids ", count.as_bytes())?;
    append_commands(&mut text, done)?;
    append_commands(&mut text, last)?;
    append_line(&mut text, b"pending-id ", pending_id_text(pending_id))?;
    text.extend_from_slice(&whole.as_bytes()[HEAD_SIZE..])?;
    Ok(text)
}

/// The id of a pending command, or what stands for none.
pub(crate) fn pending_id_text<'a>(id: Option<&'a [u8]>) -> &'a [u8]
    ensures { result.now ≡ pending_id_text (option_copied id.entry) }
{
    match id {
        Some(id) => id,
        None => b"no id",
    }
}

/// Appends the lines of commands.
pub(crate) fn append_commands(
    text: &mut Vec<u8>,
    done: &[DoneCommand<'_>],
) -> Result<(), AllocError>
    ensures { OnOk result (text.new.items ≡ text.old.items ++ dones_text (map done_in done.now)) }
{
    for command in done {
        append_command(text, *command)?;
    }
    Ok(())
}

/// Appends the lines of a command.
fn append_command(text: &mut Vec<u8>, command: DoneCommand<'_>) -> Result<(), AllocError>
    ensures { OnOk result (text.new.items ≡ text.old.items ++ done_text (done_in command.entry)) }
{
    append_line(text, b"id ", command.id)?;
    append_line(text, b"request ", command.request)?;
    append_line(text, b"reply ", command.reply)?;
    Ok(())
}

/// Appends a key, a value and a line feed.
pub(crate) fn append_line(text: &mut Vec<u8>, key: &[u8], value: &[u8]) -> Result<(), AllocError>
    ensures { OnOk result (text.new.items ≡ text.old.items ++ line key.now value.now) }
{
    text.extend_from_slice(key)?;
    text.extend_from_slice(value)?;
    text.push(b'\n')?;
    Ok(())
}
