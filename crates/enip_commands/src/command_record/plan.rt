//! What is done about a command with an id.

ghost use Rattle.std.specs.Prelude.{◌≡◌, ◌≤◌, ℕ, List, IsSomeAnd, length, map, option_map};
ghost use Rattle.std.specs.List.{find};
ghost use Rattle.std.specs.Str.{bytes_eq};
ghost use Rattle.cip_bytes.specs.Numbers.{AreBytes};
ghost use Rattle.std.specs.Option.{option_copied};
ghost use Rattle.hex.specs.Hex.{encode_lower};
ghost use Rattle.cip_bytes.specs.Reading.{map_ok};
ghost use Rattle.enip_commands.specs.CommandRecords.{record_in, done_in, plan_in, plan_of_id, unknown_plan};

use crate::command_record::{CommandRecord, DoneCommand, is_same};
use crate::once_refusal::OnceRefusal;
use cip_bytes::protocol::REPLY_LIMIT;
use cip_message::ReplyBuf;

/// What is done about a command with an id.
#[derive(Clone, Copy, Debug, PartialEq, Eq)]
pub enum IdPlan<'a> {
    /// Nothing is sent: it was executed with this reply, in hexadecimal digits.
    Executed(&'a [u8]),
    /// It is sent. No other command is pending.
    Send,
    /// Another command is pending, and is settled first.
    SettleFirst,
}

/// What is done about a command with this id and this request, which `digits` spell in hexadecimal.
///
/// # Errors
///
/// `OtherRequest` if the id is that of a command with another request: one that was executed, or the pending one.
pub fn plan_id<'a>(
    kept: &CommandRecord<'a>,
    id: &[u8],
    request: &[u8],
    digits: &[u8],
) -> Result<IdPlan<'a>, OnceRefusal>
    requires { digits.now ≡ encode_lower request.now }
    ensures { map_ok plan_in result ≡ plan_of_id (record_in kept.now) id.now request.now }
{
    match find_done(kept.done.as_slice(), id) {
        Some(command) if command.request == digits => Ok(IdPlan::Executed(command.reply)),
        Some(_) => Err(OnceRefusal::OtherRequest),
        None => plan_unknown(
            kept.commander.pending_request(),
            kept.pending_id,
            id,
            request,
        ),
    }
}

/// The command with this id, if one of these has it.
fn find_done<'a>(done: &[DoneCommand<'a>], id: &[u8]) -> Option<DoneCommand<'a>>
    ensures { option_map done_in result ≡ find (λ d. bytes_eq d.id id.now) (map done_in done.now) }
{
    for command in done {
        if is_same(command.id, id) {
            return Some(*command);
        }
    }
    None
}

/// The same for an id that no executed command has.
fn plan_unknown<'a>(
    pending: Option<&[u8]>,
    pending_id: Option<&[u8]>,
    id: &[u8],
    request: &[u8],
) -> Result<IdPlan<'a>, OnceRefusal>
    ensures { map_ok plan_in result
        ≡ unknown_plan (option_copied pending.entry) (option_copied pending_id.entry) id.now request.now }
{
    match (pending, pending_id) {
        (None, _) => Ok(IdPlan::Send),
        (Some(pending), Some(pending_id)) if pending_id == id => {
            if pending == request {
                Ok(IdPlan::Send)
            } else {
                Err(OnceRefusal::OtherRequest)
            }
        }
        (Some(_), _) => Ok(IdPlan::SettleFirst),
    }
}

/// The reply that lower-case hexadecimal digits spell. `None` if they spell none of up to 4,000 bytes.
pub fn reply_of_digits(digits: &[u8]) -> Option<ReplyBuf>
    ensures { (bytes : List ℕ) → AreBytes bytes → length bytes ≤ 4000 → digits.now ≡ encode_lower bytes
        → IsSomeAnd result (λ reply. reply.items ≡ bytes) }
{
    if digits.len() > 2 * REPLY_LIMIT {
        return None;
    }
    let mut reply = ReplyBuf::from([0; REPLY_LIMIT]);
    reply.truncate(digits.len() / 2);
    if hex::decode_to_slice(digits, reply.as_mut_slice()).is_err() {
        return None;
    }
    Some(reply)
}
