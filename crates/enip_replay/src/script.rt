//! The lines of a script.

ghost use Rattle.std.specs.Prelude.{◌≡◌, ◌<◌, ◌^◌, ◌++◌, None, length, IfSome, IfOk, IfErr, MatchOption, option_map};
ghost use Rattle.std.specs.Option.{SomeIff};
ghost use Rattle.std.specs.Str.Parse.{IsNumeral, digits_value};
ghost use Rattle.enip_bench.specs.Stored.{event_in};
ghost use Rattle.enip_lines.specs.Digits.{bytes_spelled};
ghost use Rattle.enip_replay.specs.Script.{Means, IsMeaningless, IsNotAKeyword, BeginsOtherwise, is_skipped};
ghost use Rattle.enip_replay.specs.Script.{IsReplySpelled, SpellsNoReply, IsStatus};
ghost use Rattle.enip_replay.specs.Script.{before_space, after_space, first_space};
ghost use Rattle.enip_faults.specs.Statuses.{IsOfDevices};

use cip_bytes::protocol::GeneralStatus;
use cip_owner::OwnerReply;
use enip_bench::{Event, OwnWrite};
use enip_faults::{LineFault, ProgramFault};
use enip_lines::{decimal, decode};
use std::alloc::Global;

/// Whether a line is empty or a comment.
pub(crate) fn is_skipped(text: &[u8]) -> bool
    ensures { result ≡ is_skipped text.now }
{
    matches!(text, [] | [b'#', ..])
}

/// Parses a line: `submit HEX`, `resend`, `reach K`, `back J`, `other HEX`, `owner STATUS HEX`, `shut` or `giveup`.
/// `None` if it is none of these. `digits` is a scratch buffer for hexadecimal digits without their spaces.
///
/// # Errors
///
/// `Memory` if memory is refused.
pub(crate) fn event_of(
    alloc: Global,
    text: &[u8],
    digits: &mut Vec<u8>,
) -> Result<Option<Event>, ProgramFault>
    ensures meant { IfOk result (λ meant. MatchOption meant (IsMeaningless text.now)
        (λ event. Means text.now (event_in event))) }
    ensures refused { IfErr result IsOfDevices }
{
    if let Some(request) = rest_after(b"submit ", text) {
        return Ok(bytes_of(alloc, request, digits)?.map(Event::Submit));
    }
    if let Some(request) = rest_after(b"other ", text) {
        return Ok(bytes_of(alloc, request, digits)?.map(Event::Other));
    }
    if let Some(position) = rest_after(b"reach ", text) {
        return Ok(position_of(position).map(Event::Reach));
    }
    if let Some(position) = rest_after(b"back ", text) {
        return Ok(position_of(position).map(Event::Back));
    }
    if let Some(reply) = rest_after(b"owner ", text) {
        let reply = reply_of(alloc, reply, digits)?;
        return Ok(reply.map(|reply| Event::Write(OwnWrite::Prepare(reply))));
    }
    Ok(event_of_word(text))
}

/// The owner's reply that a text spells: a general status and data. `None` if it does not spell one.
fn reply_of(
    alloc: Global,
    text: &[u8],
    digits: &mut Vec<u8>,
) -> Result<Option<OwnerReply>, ProgramFault>
    ensures spelled { IfOk result (λ spelled. MatchOption spelled (SpellsNoReply text.now)
        (λ reply. IsReplySpelled reply text.now)) }
    ensures refused { IfErr result IsOfDevices }
{
    let (status, data) = split_at_space(text);
    let Some(status) = status_of(status) else {
        return Ok(None);
    };
    let Some(data) = bytes_of(alloc, data, digits)? else {
        return Ok(None);
    };
    Ok(OwnerReply::new(status, &data))
}

/// What is before the first space of a text, and what is after it. Without a space, the text and nothing.
fn split_at_space(text: &[u8]) -> (&[u8], &[u8])
    ensures before { result.0.now ≡ before_space text.now }
    ensures after { result.1.now ≡ after_space text.now }
{
    match first_space(text) {
        Some(index) => (&text[..index], &text[index + 1..]),
        None => (text, &[]),
    }
}

/// The index of the first space of a text.
fn first_space(text: &[u8]) -> Option<usize>
    ensures value { result ≡ first_space text.now }
    ensures within { IfSome result (λ index. index < length text.now) }
{
    text.iter().position(|byte| *byte == b' ')
}

/// The general status that decimal digits spell. `None` if it is not one that an owner can give.
fn status_of(digits: &[u8]) -> Option<u8>
    ensures { SomeIff result (IsNumeral 10 digits.now × IsStatus (digits_value 10 digits.now))
        (digits_value 10 digits.now) }
{
    let status = u8::try_from(decimal(digits)?).ok()?;
    if status == GeneralStatus::ReplyDataTooLarge.number() {
        return None;
    }
    Some(status)
}

/// Parses a line of one word.
fn event_of_word(text: &[u8]) -> Option<Event>
    ensures meant { IfSome result (λ event. Means text.now (event_in event)) }
    ensures other { result ≡ None → IsNotAKeyword text.now }
{
    match text {
        b"resend" => Some(Event::Resend),
        b"shut" => Some(Event::Shut),
        b"giveup" => Some(Event::GiveUp),
        _ => None,
    }
}

/// The rest of a line that starts with a word, or `None` if it does not.
fn rest_after<'a>(word: &[u8], text: &'a [u8]) -> Option<&'a [u8]>
    ensures { MatchOption result (BeginsOtherwise word.now text.now) (λ rest. text.now ≡ word.now ++ rest.now) }
{
    text.strip_prefix(word)
}

/// The position that decimal digits spell, or `None`.
fn position_of(digits: &[u8]) -> Option<usize>
    ensures { SomeIff result (IsNumeral 10 digits.now × (digits_value 10 digits.now < 2 ^ 64))
        (digits_value 10 digits.now) }
{
    Some(decimal(digits)? as usize)
}

/// The bytes that hexadecimal digits spell, or `None` if they are not hexadecimal. Spaces are ignored.
fn bytes_of(
    alloc: Global,
    text: &[u8],
    digits: &mut Vec<u8>,
) -> Result<Option<Vec<u8>>, ProgramFault>
    ensures spelled { IfOk result (λ bytes. option_map (λ b. b.items) bytes ≡ bytes_spelled text.now) }
    ensures refused { IfErr result IsOfDevices }
{
    let mut bytes = Vec::new(alloc);
    if decode(text, digits, &mut bytes)? {
        Ok(Some(bytes))
    } else {
        Ok(None)
    }
}

/// The reason for refusing a line of a script.
pub(crate) fn line_fault(text: &[u8]) -> LineFault {
    match text {
        [b's', b'u', b'b', b'm', b'i', b't', b' ', ..] => LineFault::Submit,
        [b'o', b't', b'h', b'e', b'r', b' ', ..] => LineFault::Other,
        [b'r', b'e', b'a', b'c', b'h', b' ', ..] => LineFault::Reach,
        [b'b', b'a', b'c', b'k', b' ', ..] => LineFault::Back,
        [b'o', b'w', b'n', b'e', b'r', b' ', ..] => LineFault::Owner,
        _ => LineFault::Script,
    }
}
