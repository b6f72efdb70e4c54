//! What a file of `--once` has, for people and as JSON.

ghost use Rattle.std.specs.Prelude.{◌≡◌, IfOk, map, string_bytes};
ghost use Rattle.std.specs.Option.{option_copied};
ghost use Rattle.enip_commands.specs.CommandRecords.{record_in, done_in};
ghost use Rattle.enip_commands.specs.RecordListing.{listing_text, record_data, done_data, dones_data, text_data, pending_data};
ghost use Rattle.enip_commands.specs.RecordListing.{last_reply, reply_text};
ghost use Rattle.serde_json.specs.View.{view, items_view};
ghost use Rattle.serde_json.specs.Written.{compact_text};

use crate::command_file::CommandFile;
use crate::command_record::{
    CommandRecord, DoneCommand, HEAD_SIZE, append_commands, append_line, pending_id_text,
};
use enip_lines::latin_text;
use serde_json::{Value as Json, json};
use std::alloc::{AllocError, Global};

/// What a file has, one thing a line: the originator, the life, the last number, the pending request and its id, the
/// commands with an id that were executed, and the last reply to one of them.
///
/// # Errors
///
/// `AllocError` if memory is refused.
pub fn record_listing(alloc: Global, kept: &CommandRecord<'_>) -> Result<Vec<u8>, AllocError>
    ensures { IfOk result (λ text. text.items ≡ listing_text (record_in kept.now)) }
{
    let whole = format!(in alloc; "{}", CommandFile(&kept.commander))?;
    let count = format!(in alloc; "{}", kept.done.len())?;
    let last = reply_text(last_reply(kept.done.as_slice()));
    let mut text = Vec::new(alloc);
    text.extend_from_slice(&whole.as_bytes()[HEAD_SIZE..])?;
    append_line(&mut text, b"pending-id ", pending_id_text(kept.pending_id))?;
    append_line(&mut text, b"ids ", count.as_bytes())?;
    append_commands(&mut text, kept.done.as_slice())?;
    append_line(&mut text, b"last reply ", last)?;
    Ok(text)
}

/// The reply of the last of these commands, in digits.
fn last_reply<'a>(done: &[DoneCommand<'a>]) -> Option<&'a [u8]>
    ensures { option_copied result ≡ last_reply (map done_in done.now) }
{
    match done.last() {
        Some(command) => Some(command.reply),
        None => None,
    }
}

/// The digits of a reply, or what stands for none.
fn reply_text<'a>(reply: Option<&'a [u8]>) -> &'a [u8]
    ensures { result.now ≡ reply_text (option_copied reply.entry) }
{
    match reply {
        Some(digits) => digits,
        None => b"none",
    }
}

/// The same as a JSON object on one line.
///
/// # Errors
///
/// `AllocError` if memory is refused.
pub fn record_line(alloc: Global, kept: &CommandRecord<'_>) -> Result<String, AllocError>
    ensures { IfOk result (λ line. string_bytes line ≡ compact_text (record_data (record_in kept.now))) }
{
    record_value(alloc, kept)?.to_string(alloc)
}

fn record_value(alloc: Global, kept: &CommandRecord<'_>) -> Result<Json, AllocError>
    ensures { IfOk result (λ object. view object ≡ record_data (record_in kept.now)) }
{
    let commander = &kept.commander;
    let ids = done_values(alloc, kept.done.as_slice())?;
    let last = text_value(alloc, last_reply(kept.done.as_slice()))?;
    let originator = hex::encode(alloc, &commander.originator().to_be_bytes())?;
    let pending = pending_value(alloc, commander.pending_request(), kept.pending_id)?;
    json!(in alloc; {"ids": Json::Array(ids), "last_reply": last, "life": commander.life(),
        "number": commander.last_number(), "originator": &originator, "pending": pending})
}

/// The objects of commands that were executed.
fn done_values(alloc: Global, done: &[DoneCommand<'_>]) -> Result<Vec<Json>, AllocError>
    ensures { IfOk result (λ values. items_view values.items ≡ dones_data (map done_in done.now)) }
{
    let mut values = Vec::new(alloc);
    for command in done {
        values.push(done_value(alloc, *command)?)?;
    }
    Ok(values)
}

/// The object of a command that was executed.
fn done_value(alloc: Global, command: DoneCommand<'_>) -> Result<Json, AllocError>
    ensures { IfOk result (λ object. view object ≡ done_data (done_in command.entry)) }
{
    let id = latin_text(alloc, command.id)?;
    let reply = latin_text(alloc, command.reply)?;
    let request = latin_text(alloc, command.request)?;
    json!(in alloc; {"id": &id, "reply": &reply, "request": &request})
}

/// The object of a pending command, or null.
fn pending_value(
    alloc: Global,
    pending: Option<&[u8]>,
    id: Option<&[u8]>,
) -> Result<Json, AllocError>
    ensures { IfOk result (λ object. view object ≡ pending_data (option_copied pending.entry) (option_copied id.entry)) }
{
    let Some(request) = pending else {
        return Ok(Json::Null);
    };
    let id = text_value(alloc, id)?;
    let digits = hex::encode(alloc, request)?;
    json!(in alloc; {"id": id, "request": &digits})
}

/// A text, or null.
fn text_value(alloc: Global, text: Option<&[u8]>) -> Result<Json, AllocError>
    ensures { IfOk result (λ value. view value ≡ text_data (option_copied text.entry)) }
{
    match text {
        Some(text) => Ok(Json::from(latin_text(alloc, text)?)),
        None => Ok(Json::Null),
    }
}
