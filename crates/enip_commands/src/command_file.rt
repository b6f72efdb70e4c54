//! The file of `--once`: a commander as text, between two runs of the program.

ghost use Rattle.std.specs.Prelude.{◌≡◌, ◌≢◌, ◌<◌, ◌≤◌, ◌↔◌, ℕ, IsTrue, false, List, [], ◌++◌, length, slice_index};
ghost use Rattle.std.specs.Prelude.{Some, None, IfOk, IfErr, IfSome, IsErr, IsOkAnd, OnOk};
ghost use Rattle.std.specs.Fmt.{decimal};
ghost use Rattle.std.specs.Io.KnownBytes.{Appends};
ghost use Rattle.std.specs.Option.{option_copied};
ghost use Rattle.hex.specs.Hex.{encode_lower};
ghost use Rattle.cip_bytes.specs.Numbers.{AreBytes};
ghost use Rattle.cip_commander.specs.CommanderRule.{CommanderState};
ghost use Rattle.enip_commands.specs.CommandFiles.{file_text, head_line, originator_line, life_line, number_line};
ghost use Rattle.enip_commands.specs.CommandFiles.{pending_line, IsKept, IsLong, IsShort, IsSpelling, IsLine};
ghost use Rattle.enip_commands.specs.CommandFiles.{LacksLine, IsFault, bytes_in};

use arrayvec::ArrayVec;
use cip_commander::{Commander, LONGEST_EMBEDDED};
use enip_faults::{CommandFileFault, Digits};
use enip_lines::decimal;
use memchr::memchr;
use std::fmt;
use std::io::{self, Write};

/// A request that a command embeds.
type EmbeddedRequest = ArrayVec<u8, LONGEST_EMBEDDED>;

/// The digits of the longest one.
const LONGEST_DIGITS: usize = 2 * LONGEST_EMBEDDED;

/// The text of a commander. Each of its five lines ends in a line feed:
///
/// ```text
/// enip commands 1
/// originator 0123456789abcdef
/// life 1764187443000000
/// number 12
/// pending 32022064240105000000
/// ```
///
/// `number` is that of the last command. If no command is pending, the last line is `pending none`, so that a file that
/// was cut never reads as one without a pending command.
#[derive(Clone, Copy)]
pub struct CommandFile<'a>(pub &'a Commander);

impl fmt::Display for CommandFile<'_> {
    ghost use Rattle.enip_commands.specs.CommandFiles.{file_text};

    ghost output = { λ file. Some (file_text file.0.now) };

    fn fmt<W: fmt::Write>(&self, f: &mut fmt::Formatter<W>) -> fmt::Result {
        let commander = self.0;
        let originator = commander.originator().to_be_bytes();
        f.write_str("enip commands 1\n")?;
        writeln!(f, "originator {}", Digits(&originator))?;
        writeln!(f, "life {}", commander.life())?;
        writeln!(f, "number {}", commander.last_number())?;
        writeln!(f, "pending {}", PendingDigits(commander.pending_request()))
    }
}

/// The digits of the pending request, or `none`.
#[derive(Clone, Copy)]
struct PendingDigits<'a>(Option<&'a [u8]>);

impl fmt::Display for PendingDigits<'_> {
    ghost use Rattle.std.specs.Option.{option_copied};
    ghost use Rattle.enip_commands.specs.CommandFiles.{pending_digits};

    ghost output = { λ pending. Some (pending_digits (option_copied pending.0)) };

    fn fmt<W: fmt::Write>(&self, f: &mut fmt::Formatter<W>) -> fmt::Result {
        match self.0 {
            Some(request) => write!(f, "{}", Digits(request)),
            None => f.write_str("none"),
        }
    }
}

/// Writes the text of a commander.
///
/// # Errors
///
/// Those of the output.
pub fn write_commander<W: Write>(output: &mut W, commander: &Commander) -> io::Result<()>
    ensures { OnOk result (Appends (W.contents output.old) (W.contents output.new) (file_text commander.now)) }
{
    write!(output, "{}", CommandFile(commander))
}

/// The commander with this text. All other texts are refused, also one that was cut or has a leading zero.
///
/// # Errors
///
/// The first line that is not as expected.
pub fn read_commander(text: &[u8]) -> Result<Commander, CommandFileFault>
    ensures read { IfOk result (λ commander. IsKept commander × (text.now ≡ file_text commander)) }
    ensures written { (kept : CommanderState) → IsKept kept → text.now ≡ file_text kept
        → IsOkAnd result (λ commander. commander ≡ kept) }
    ensures cut { (kept : CommanderState) (rest : List ℕ) → IsKept kept → text.now ++ rest ≡ file_text kept
        → rest ≢ [] → IsErr result }
    ensures refused { IfErr result (IsFault text.now) }
{
    read_lines(text)
}

/// The commander that these lines spell.
fn read_lines(text: &[u8]) -> Result<Commander, CommandFileFault>
    ensures read { IfOk result (λ commander. IsKept commander × (text.now ≡ file_text commander)) }
    ensures refused { IfErr result (IsFault text.now) }
{
    let Some(lines) = read_head(text) else {
        return Err(CommandFileFault::Head);
    };
    let Some((originator, lines)) = read_originator(lines) else {
        return Err(CommandFileFault::Originator);
    };
    let Some((life, lines)) = read_life(lines) else {
        return Err(CommandFileFault::Life);
    };
    let Some((last_number, lines)) = read_number(lines) else {
        return Err(CommandFileFault::Number);
    };
    let Some((pending, lines)) = read_pending(lines) else {
        return Err(CommandFileFault::Pending);
    };
    let request = lent(&pending);
    let Ok(commander) = Commander::resume(life, originator, last_number, request) else {
        return Err(CommandFileFault::Pending);
    };
    if !lines.is_empty() {
        return Err(CommandFileFault::End);
    }
    Ok(commander)
}

/// Lends a request.
fn lent(request: &Option<EmbeddedRequest>) -> Option<&[u8]>
    ensures { option_copied result ≡ bytes_in request.now }
{
    match request {
        Some(request) => Some(request.as_slice()),
        None => None,
    }
}

/// The lines after the first.
fn read_head(text: &[u8]) -> Option<&[u8]>
    ensures read { IfSome result (λ rest. text.now ≡ head_line ++ rest.now) }
    ensures lacking { result ≡ None → (rest : List ℕ) → text.now ≡ head_line ++ rest → ⊥ }
{
    text.strip_prefix(b"enip commands 1\n")
}

/// The originator, and the lines after it.
fn read_originator(text: &[u8]) -> Option<(u64, &[u8])>
    ensures read { IfSome result (λ line. text.now ≡ originator_line line.0 ++ line.1.now) }
    ensures fits { IfSome result (λ line. IsLong line.0) }
    ensures lacking { result ≡ None → LacksLine originator_line IsLong text.now }
{
    let (digits, rest) = split_line(text, b"originator ")?;
    let mut bytes = [0; 8];
    if !decode_lower(digits, &mut bytes) {
        return None;
    }
    Some((u64::from_be_bytes(bytes), rest))
}

/// The life, and the lines after it.
fn read_life(text: &[u8]) -> Option<(u64, &[u8])>
    ensures read { IfSome result (λ line. text.now ≡ life_line line.0 ++ line.1.now) }
    ensures fits { IfSome result (λ line. IsLong line.0) }
    ensures lacking { result ≡ None → LacksLine life_line IsLong text.now }
{
    let (digits, rest) = split_line(text, b"life ")?;
    Some((read_decimal(digits)?, rest))
}

/// The last number, and the lines after it.
fn read_number(text: &[u8]) -> Option<(u32, &[u8])>
    ensures read { IfSome result (λ line. text.now ≡ number_line line.0 ++ line.1.now) }
    ensures fits { IfSome result (λ line. IsShort line.0) }
    ensures lacking { result ≡ None → LacksLine number_line IsShort text.now }
{
    let (digits, rest) = split_line(text, b"number ")?;
    match u32::try_from(read_decimal(digits)?) {
        Ok(number) => Some((number, rest)),
        Err(_) => None,
    }
}

/// The pending request, or none, and the lines after it. The request is not yet checked.
fn read_pending(text: &[u8]) -> Option<(Option<EmbeddedRequest>, &[u8])>
    ensures read { IfSome result (λ line. text.now ≡ pending_line (bytes_in line.0) ++ line.1.now) }
    ensures bytes { IfSome result (λ line. IsSpelling (bytes_in line.0)) }
    ensures lacking { result ≡ None → LacksLine pending_line IsSpelling text.now }
{
    let (digits, rest) = split_line(text, b"pending ")?;
    if digits == b"none".as_slice() {
        return Some((None, rest));
    }
    Some((Some(read_request(digits)?), rest))
}

/// The value of the line that a text begins with, if it has this key, and the lines after it.
pub(crate) fn split_line<'a>(text: &'a [u8], key: &[u8]) -> Option<(&'a [u8], &'a [u8])>
    ensures read { IfSome result (λ line. IsLine key.now line.0.now line.1.now text.now) }
    ensures lacking { result ≡ None → (value rest : List ℕ) → IsLine key.now value rest text.now → ⊥ }
{
    let line = text.strip_prefix(key)?;
    let end = memchr(b'\n', line)?;
    Some((&line[..end], &line[end + 1..]))
}

/// The number that decimal digits without a leading zero spell.
pub(crate) fn read_decimal(digits: &[u8]) -> Option<u64>
    ensures read { IfSome result (λ number. digits.now ≡ decimal number) }
    ensures fits { IfSome result IsLong }
    ensures lacking { result ≡ None → (number : ℕ) → IsLong number → digits.now ≢ decimal number }
{
    if has_leading_zero(digits) {
        return None;
    }
    decimal(digits)
}

/// Whether more digits follow a zero.
fn has_leading_zero(digits: &[u8]) -> bool
    ensures { IsTrue result ↔ ((1 < length digits.now) × (slice_index digits.now 0 ≡ 48)) }
{
    digits.len() > 1 && digits[0] == b'0'
}

/// The request that lower-case hexadecimal digits spell.
fn read_request(digits: &[u8]) -> Option<EmbeddedRequest>
    ensures read { IfSome result (λ request. digits.now ≡ encode_lower request.items) }
    ensures bytes { IfSome result (λ request. AreBytes request.items × (length request.items ≤ 478)) }
    ensures lacking { result ≡ None → (request : List ℕ) → AreBytes request → length request ≤ 478
        → digits.now ≢ encode_lower request }
{
    if digits.len() > LONGEST_DIGITS {
        return None;
    }
    let mut request = EmbeddedRequest::from([0; LONGEST_EMBEDDED]);
    request.truncate(digits.len() / 2);
    if !decode_lower(digits, request.as_mut_slice()) {
        return None;
    }
    Some(request)
}

/// Decodes lower-case hexadecimal digits, two for each byte. Returns false if the text does not spell as many bytes;
/// `bytes` is then unspecified.
fn decode_lower(digits: &[u8], bytes: &mut [u8]) -> bool
    requires { length bytes.old ≤ 478 }
    ensures read { IsTrue result → digits.now ≡ encode_lower bytes.new }
    ensures bytes { AreBytes bytes.new }
    ensures lacking { result ≡ false → (given : List ℕ) → AreBytes given → length given ≡ length bytes.old
        → digits.now ≢ encode_lower given }
{
    let mut room = [0; LONGEST_DIGITS];
    let again = &mut room[..2 * bytes.len()];
    if hex::decode_to_slice(digits, bytes).is_err() {
        return false;
    }
    // digits may be of either case; those that are written are lower-case
    let _ = hex::encode_to_slice(&*bytes, again);
    digits == again
}
