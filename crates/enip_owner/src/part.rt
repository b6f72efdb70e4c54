//! The parts of a line of the device, and the line.

ghost use Rattle.std.specs.Prelude.{◌≡◌, ◌≤◌, ◌∷◌, [], IfOk};
ghost use Rattle.std.specs.List.{flat_map};
ghost use Rattle.std.specs.Net.Text.{ip_text};
ghost use Rattle.hex.specs.Hex.{encode_lower};
ghost use Rattle.json.specs.Json.{Json, max_depth};
ghost use Rattle.json.specs.Token.{key};
ghost use Rattle.json.specs.Print.{IsPrintable};
ghost use Rattle.json.specs.Reads.{token_of};
ghost use Rattle.json.specs.Tree.{json_tokens, depth};
ghost use Rattle.enip_owner.specs.Events.{IsWritten};
ghost use Rattle.enip_owner.specs.Parts.{Adds, part_tokens, number_member, text_member, IsLineFrom};

use crate::event_fault::EventFault;
use crate::line_buffer::LINE_LIMIT;
use json::{Token, Writer};
use std::alloc::{AllocError, Global};
use std::net::IpAddr;

/// How many bytes most lines have at most.
const USUAL_SIZE: usize = 256;

/// A part of a line.
#[derive(Clone, Copy)]
pub(crate) enum Part<'a> {
    /// An object begins.
    Open,
    /// An object begins, as the value of a key.
    OpenAt(&'a str),
    /// An object ends.
    Close,
    /// A list begins, as the value of a key.
    ListAt(&'a str),
    /// A list ends.
    EndList,
    /// A number, as the value of a key.
    Number(&'a str, u64),
    /// The same, or nothing.
    MaybeNumber(&'a str, Option<u64>),
    /// A text, as the value of a key.
    Text(&'a str, &'a str),
    /// The same, or nothing.
    MaybeText(&'a str, Option<&'a str>),
    /// Bytes in hexadecimal, as the value of a key.
    Bytes(&'a str, &'a [u8]),
    /// The same, or nothing.
    MaybeBytes(&'a str, Option<&'a [u8]>),
    /// `true` or `false`, as the value of a key.
    Truth(&'a str, bool),
    /// An address, as the value of a key, or nothing.
    MaybeAddress(&'a str, Option<IpAddr>),
}

/// Writes a line that has these parts.
pub(crate) fn write_line(alloc: Global, parts: &[Part<'_>]) -> Result<Vec<u8>, EventFault>
    ensures { (j : Json) → flat_map part_tokens parts.now ≡ json_tokens j → depth j ≤ max_depth → IsWritten j result }
{
    let mut writer = begin_line(alloc)?;
    write_parts(alloc, &mut writer, parts)?;
    line_from(writer)
}

/// A writer for a line.
pub(crate) fn begin_line(alloc: Global) -> Result<Writer, AllocError>
    ensures before { IfOk result (λ writer. writer.before ≡ []) }
    ensures tokens { IfOk result (λ writer. writer.tokens ≡ []) }
{
    Ok(Writer::new(Vec::with_capacity(alloc, USUAL_SIZE)?))
}

/// The line that was written, with its newline.
///
/// # Errors
///
/// `TooLong` if it has more than 64 KiB, `Memory` if memory is refused.
pub(crate) fn line_from(writer: Writer) -> Result<Vec<u8>, EventFault>
    ensures { IsLineFrom writer result }
{
    let mut line = writer.into_inner();
    if line.len() > LINE_LIMIT {
        return Err(EventFault::TooLong);
    }
    line.push(b'\n')?;
    Ok(line)
}

/// Writes parts, one after another.
pub(crate) fn write_parts(
    alloc: Global,
    writer: &mut Writer,
    parts: &[Part<'_>],
) -> Result<(), AllocError>
    ensures { Adds result writer.old writer.new (flat_map part_tokens parts.now) }
{
    for part in parts {
        write_part(alloc, writer, *part)?;
    }
    Ok(())
}

/// Writes a part.
pub(crate) fn write_part(
    alloc: Global,
    writer: &mut Writer,
    part: Part<'_>,
) -> Result<(), AllocError>
    ensures { Adds result writer.old writer.new (part_tokens part.entry) }
{
    match part {
        Part::Open => write_token(writer, Token::BeginObject),
        Part::OpenAt(name) => write_member(writer, name, Token::BeginObject),
        Part::Close => write_token(writer, Token::EndObject),
        Part::ListAt(name) => write_member(writer, name, Token::BeginArray),
        Part::EndList => write_token(writer, Token::EndArray),
        Part::Number(name, number) => write_number(writer, name, number),
        Part::MaybeNumber(name, Some(number)) => write_number(writer, name, number),
        Part::Text(name, text) => write_member(writer, name, Token::String(text)),
        Part::MaybeText(name, Some(text)) => write_member(writer, name, Token::String(text)),
        Part::Bytes(name, bytes) => write_bytes(alloc, writer, name, bytes),
        Part::MaybeBytes(name, Some(bytes)) => write_bytes(alloc, writer, name, bytes),
        Part::Truth(name, truth) => write_member(writer, name, Token::Bool(truth)),
        Part::MaybeAddress(name, Some(address)) => write_address(alloc, writer, name, address),
        Part::MaybeNumber(_, None)
        | Part::MaybeText(_, None)
        | Part::MaybeBytes(_, None)
        | Part::MaybeAddress(_, None) => Ok(()),
    }
}

/// Writes a token.
fn write_token(writer: &mut Writer, token: Token<'_>) -> Result<(), AllocError>
    requires { IsPrintable (token_of token) }
    ensures { Adds result writer.old writer.new (token_of token.entry ∷ []) }
{
    writer.token(token)
}

/// Writes a token as the value of a key.
fn write_member(writer: &mut Writer, name: &str, token: Token<'_>) -> Result<(), AllocError>
    requires { IsPrintable (token_of token) }
    ensures { Adds result writer.old writer.new (key name.now ∷ token_of token.entry ∷ []) }
{
    writer.key(name)?;
    writer.token(token)
}

/// Writes a number as the value of a key.
fn write_number(writer: &mut Writer, name: &str, number: u64) -> Result<(), AllocError>
    ensures { Adds result writer.old writer.new (number_member name.now «number») }
{
    writer.key(name)?;
    writer.u64(number)
}

/// Writes bytes in hexadecimal as the value of a key.
fn write_bytes(
    alloc: Global,
    writer: &mut Writer,
    name: &str,
    bytes: &[u8],
) -> Result<(), AllocError>
    ensures { Adds result writer.old writer.new (text_member name.now (encode_lower bytes.now)) }
{
    let digits = hex::encode(alloc, bytes)?;
    write_member(writer, name, Token::String(digits.as_str()))
}

/// Writes an address as the value of a key.
fn write_address(
    alloc: Global,
    writer: &mut Writer,
    name: &str,
    address: IpAddr,
) -> Result<(), AllocError>
    ensures { Adds result writer.old writer.new (text_member name.now (ip_text address)) }
{
    let text = format!(in alloc; "{address}")?;
    write_member(writer, name, Token::String(text.as_str()))
}
