//! The commands and the commander that a file spells.

ghost use Rattle.std.specs.Prelude.{◌≡◌, ◌≢◌, ◌⊎◌, ◌++◌, ◌≤◌, ℕ, List, IsTrue, true, false, IfOk, IfSome, IsOkAnd, OnOk, Ok, Err, None, map};
ghost use Rattle.std.specs.List.{list_all};
ghost use Rattle.std.specs.Option.{option_copied};
ghost use Rattle.cip_commander.specs.CommanderRule.{CommanderState};
ghost use Rattle.enip_commands.specs.CommandFiles.{IsKept, LacksLine};
ghost use Rattle.enip_commands.specs.CommandRecords.{Record, record_in, record_text, done_in, done_text, commander_lines};
ghost use Rattle.enip_commands.specs.CommandRecords.{ids_head, count_line, pending_id_line, is_id_or_none, is_new_id, is_whole};
ghost use Rattle.enip_commands.specs.CommandRecords.{IsKeptRecord, AreDistinct, AreRead, LacksCommands, are_digits, is_done, is_lower_digit};

use crate::command_file::{read_commander, read_decimal, split_line};
use crate::command_record::{CommandRecord, DoneCommand, has_id, is_command_id};
use cip_bytes::protocol::REPLY_LIMIT;
use cip_commander::{Commander, LONGEST_EMBEDDED};
use enip_faults::{CommandFileFault, RecordFault};
use std::alloc::{AllocError, Global};
use thiserror::Error;

/// The first line of a file with ids.
const HEAD: &[u8] = b"enip commands 2\n";

/// The first line of a file without ids.
const PLAIN_HEAD: &[u8] = b"enip commands 1\n";

/// The most ids of a file (ours).
const MOST_IDS: u64 = 1_024;

/// How many lines precede the first command.
const LINES_BEFORE: u64 = 2;

/// How many lines a command has.
const LINES: u64 = 3;

/// Why a file is not read.
#[derive(Clone, Copy, Debug, PartialEq, Eq, Error)]
pub enum RecordFailure {
    /// A line is not as expected.
    #[error("{0}")]
    Refused(RecordFault),
    /// Memory was refused.
    #[error("memory")]
    Memory,
}

impl From<AllocError> for RecordFailure {
    ghost use Rattle.enip_commands.specs.declared.command_record.reading.RecordFailure.TheVariants.{Memory};

    ghost from_gives = { λ _ failure. failure ≡ Memory };

    fn from(_error: AllocError) -> RecordFailure {
        RecordFailure::Memory
    }
}

/// Whether a text begins as a file with ids.
pub fn has_ids_head(text: &[u8]) -> bool
    ensures begins { IsTrue result → (rest : List ℕ) × (text.now ≡ ids_head ++ rest) }
    ensures differs { result ≡ false → (rest : List ℕ) → text.now ≢ ids_head ++ rest }
{
    match text.strip_prefix(HEAD) {
        Some(_) => true,
        None => false,
    }
}

/// The commander and the commands with this text. All other texts are refused, also one that was cut, or has an id twice.
///
/// # Errors
///
/// `Refused` with the first line that is not as expected, or `Memory`.
pub fn read_record(alloc: Global, text: &[u8]) -> Result<CommandRecord<'_>, RecordFailure>
    ensures read { IfOk result (λ r. IsKeptRecord (record_in r) × (text.now ≡ record_text (record_in r))) }
    ensures written { (kept : Record) → IsKeptRecord kept → text.now ≡ record_text kept
        → (result ≡ Err RecordFailure.Memory) ⊎ IsOkAnd result (λ r. record_in r ≡ kept) }
{
    if let Some(lines) = text.strip_prefix(HEAD) {
        return read_with_ids(alloc, lines);
    }
    match read_commander(text) {
        Ok(commander) => Ok(CommandRecord {
            commander,
            pending_id: None,
            done: Vec::new(alloc),
        }),
        Err(fault) => Err(RecordFailure::Refused(RecordFault::Commander(0, fault))),
    }
}

/// The record that the lines after the first of a file with ids spell.
fn read_with_ids(alloc: Global, lines: &[u8]) -> Result<CommandRecord<'_>, RecordFailure>
    ensures read { IfOk result (λ r. IsKeptRecord (record_in r)
        × (ids_head ++ lines.now ≡ record_text (record_in r))) }
    ensures written { (kept : Record) → IsKeptRecord kept → ids_head ++ lines.now ≡ record_text kept
        → (result ≡ Err RecordFailure.Memory) ⊎ IsOkAnd result (λ r. record_in r ≡ kept) }
{
    let Some((count, lines)) = read_count(lines) else {
        return Err(RecordFailure::Refused(RecordFault::Count));
    };
    let mut done = Vec::new(alloc);
    let Some(lines) = read_commands(&mut done, count, lines)? else {
        let line = line_after(done.len());
        return Err(RecordFailure::Refused(RecordFault::Done(line)));
    };
    let line = line_after(done.len());
    let Some((pending_id, lines)) = read_pending_id(lines) else {
        return Err(RecordFailure::Refused(RecordFault::PendingId(line)));
    };
    let commander = match read_lines(alloc, lines)? {
        Ok(commander) => commander,
        Err(fault) => {
            let fault = RecordFault::Commander(line.saturating_sub(1), fault);
            return Err(RecordFailure::Refused(fault));
        }
    };
    if !is_whole(done.as_slice(), commander.pending_request(), pending_id) {
        return Err(RecordFailure::Refused(RecordFault::PendingId(line)));
    }
    Ok(CommandRecord {
        commander,
        pending_id,
        done,
    })
}

/// The number of the line after those of this many commands.
fn line_after(count: usize) -> u64 {
    let lines = LINES.saturating_mul(count as u64);
    lines.saturating_add(LINES_BEFORE + 1)
}

/// The number of commands, and the lines after it.
fn read_count(lines: &[u8]) -> Option<(u64, &[u8])>
    ensures read { IfSome result (λ line. lines.now ≡ count_line line.0 ++ line.1.now) }
    ensures fits { IfSome result (λ line. line.0 ≤ 1024) }
    ensures lacking { result ≡ None → LacksLine count_line (λ count. count ≤ 1024) lines.now }
{
    let (digits, rest) = split_line(lines, b"ids ")?;
    let count = read_decimal(digits)?;
    if count > MOST_IDS {
        return None;
    }
    Some((count, rest))
}

/// Reads this many commands, and returns the lines after them. `None` if the next ones are not those of a command, or its
/// id is that of an earlier one.
fn read_commands<'a>(
    done: &mut Vec<DoneCommand<'a>>,
    count: u64,
    lines: &'a [u8],
) -> Result<Option<&'a [u8]>, AllocError>
    ensures read { IfOk result (λ found. IfSome found (λ rest.
        AreRead (map done_in done.old.items) (map done_in done.new.items) count lines.now rest.now)) }
    ensures distinct { AreDistinct (map done_in done.old.items) → OnOk result (AreDistinct (map done_in done.new.items)) }
    ensures lacking { result ≡ Ok None → LacksCommands (map done_in done.old.items) count lines.now }
{
    if count == 0 {
        return Ok(Some(lines));
    }
    let Some((command, rest)) = read_command(lines) else {
        return Ok(None);
    };
    if has_id(done.as_slice(), command.id) {
        return Ok(None);
    }
    done.push(command)?;
    read_commands(done, count - 1, rest)
}

/// A command, and the lines after it.
fn read_command(lines: &[u8]) -> Option<(DoneCommand<'_>, &[u8])>
    ensures read { IfSome result (λ read. lines.now ≡ done_text (done_in read.0) ++ read.1.now) }
    ensures fits { IfSome result (λ read. is_done (done_in read.0) ≡ true) }
    ensures lacking { result ≡ None → LacksLine done_text (λ d. is_done d ≡ true) lines.now }
{
    let (id, rest) = split_line(lines, b"id ")?;
    let (request, rest) = split_line(rest, b"request ")?;
    let (reply, rest) = split_line(rest, b"reply ")?;
    let command = DoneCommand { id, request, reply };
    if !is_done(command) {
        return None;
    }
    Some((command, rest))
}

/// Whether these are a command's id, request and reply.
fn is_done(command: DoneCommand<'_>) -> bool
    ensures { result ≡ is_done (done_in command.entry) }
{
    is_command_id(command.id)
        && are_digits(command.request, 2 * LONGEST_EMBEDDED)
        && are_digits(command.reply, 2 * REPLY_LIMIT)
}

/// Whether a text is lower-case hexadecimal digits, two for each byte and at most so many.
fn are_digits(text: &[u8], most: usize) -> bool
    ensures { result ≡ are_digits text.now most }
{
    text.len() <= most && text.len() % 2 == 0 && are_lower_digits(text)
}

/// Whether every byte is a lower-case hexadecimal digit.
fn are_lower_digits(text: &[u8]) -> bool
    ensures { result ≡ list_all is_lower_digit text.now }
{
    text.iter().all(|byte| is_lower_digit(*byte))
}

/// Whether a byte is a lower-case hexadecimal digit.
fn is_lower_digit(byte: u8) -> bool
    ensures { result ≡ is_lower_digit byte }
{
    b'0' <= byte && byte <= b'9' || b'a' <= byte && byte <= b'f'
}

/// The id of the pending command, or none, and the lines after it.
fn read_pending_id(lines: &[u8]) -> Option<(Option<&[u8]>, &[u8])>
    ensures read { IfSome result (λ line. lines.now ≡ pending_id_line (option_copied line.0) ++ line.1.now) }
    ensures fits { IfSome result (λ line. is_id_or_none (option_copied line.0) ≡ true) }
    ensures lacking { result ≡ None → LacksLine pending_id_line (λ id. is_id_or_none id ≡ true) lines.now }
{
    let (id, rest) = split_line(lines, b"pending-id ")?;
    if id == b"no id".as_slice() {
        return Some((None, rest));
    }
    if !is_command_id(id) {
        return None;
    }
    Some((Some(id), rest))
}

/// The commander that the last four lines of a file spell.
fn read_lines(
    alloc: Global,
    lines: &[u8],
) -> Result<Result<Commander, CommandFileFault>, AllocError>
    ensures read { IfOk result (λ found. IfOk found (λ commander.
        IsKept commander × (lines.now ≡ commander_lines commander))) }
    ensures written { (kept : CommanderState) → IsKept kept → lines.now ≡ commander_lines kept
        → IfOk result (λ found. IsOkAnd found (λ commander. commander ≡ kept)) }
{
    let mut text = Vec::new(alloc);
    text.extend_from_slice(PLAIN_HEAD)?;
    text.extend_from_slice(lines)?;
    Ok(read_commander(text.as_slice()))
}

/// Whether the id of a pending command, if there is one, is that of no command that was executed.
fn is_new_id(done: &[DoneCommand<'_>], pending: Option<&[u8]>, pending_id: Option<&[u8]>) -> bool
    ensures { result ≡ is_new_id (map done_in done.now) (option_copied pending.entry) (option_copied pending_id.entry) }
{
    match (pending, pending_id) {
        (_, None) => true,
        (None, Some(_)) => false,
        (Some(_), Some(id)) => is_command_id(id) && !has_id(done, id),
    }
}

/// Whether a file with ids may have these: the id of the pending command is new, or there is none and some command was
/// executed.
fn is_whole(done: &[DoneCommand<'_>], pending: Option<&[u8]>, pending_id: Option<&[u8]>) -> bool
    ensures { result ≡ is_whole (map done_in done.now) (option_copied pending.entry) (option_copied pending_id.entry) }
{
    match pending_id {
        Some(_) => is_new_id(done, pending, pending_id),
        None => !done.is_empty(),
    }
}
