//! Values as text.

ghost use Rattle.std.specs.Prelude.{◌≡◌, ◌<◌, ◌≤◌, [], ◌∷◌, length, option_map, IfOk, IfSome, MatchOption};
ghost use Rattle.cip_bytes.specs.Numbers.{words_of};
ghost use Rattle.cip_values.specs.Texts.{unquoted, first_byte, escaped_byte, byte_of_digits, seen};
ghost use Rattle.cip_values.specs.Texts.{piece_size, first_piece, first_pair, first_unit, escaped_unit, unit_of_digits};
ghost use Rattle.cip_values.specs.Texts.{Unescapes, IsBadlyEscaped};

use crate::calendar::DAY;
use crate::element::{ElementaryType, Form, ValueType};
use crate::value::{Value, append_number};
use ryu::Buffer;
use std::alloc::{AllocError, Global};
use std::fmt;
use std::num::{f32_from_bits_with_nan, f64_from_bits_with_nan};

/// Values that print as text, separated by spaces.
///
/// A BOOL prints as `0` or `1`, an integer in decimal, and a bit string as `0x` with all of its hexadecimal digits.
/// A REAL or an LREAL prints as a short decimal number that parses to the same bits (all NaNs alike). A string prints
/// its printable ASCII as it is, except that a backslash is `\\`; any other byte is `\xNN`, and any other character of
/// a STRING2 `\uNNNN`. An EPATH prints as hexadecimal digits. A DATE prints as `YYYY-MM-DD`, a TIME_OF_DAY as
/// `hh:mm:ss.mmm`, and a DATE_AND_TIME as both with `T` between them. A TIME prints as a number and `ms`, and an LTIME
/// as a number and `us`. In a list each string and each path is in quotes, and a quote within it is `\"`.
///
/// ```
/// let values = read_values(alloc, value_type, bytes)?;
/// let values = values.as_slice();
/// let text = format!(in alloc; "{}", ValuesText { value_type, values })?;
/// ```
#[derive(Clone, Copy, Debug, PartialEq, Eq)]
pub struct ValuesText<'a, 'b> {
    /// The type of the values.
    pub value_type: ValueType,
    /// The values.
    pub values: &'b [Value<'a>],
}

impl fmt::Display for ValuesText<'_, '_> {
    fn fmt<W: fmt::Write>(&self, f: &mut fmt::Formatter<W>) -> fmt::Result {
        let element = self.value_type.element;
        let is_quoted = self.value_type.is_list;
        for (index, value) in self.values.iter().enumerate() {
            if index != 0 {
                f.write_str(" ")?;
            }
            let text = ValueText {
                element,
                value: *value,
                is_quoted,
            };
            write!(f, "{text}")?;
        }
        Ok(())
    }
}

/// One value that prints as text.
#[derive(Clone, Copy)]
struct ValueText<'a> {
    element: ElementaryType,
    value: Value<'a>,
    is_quoted: bool,
}

impl fmt::Display for ValueText<'_> {
    ghost use Rattle.cip_values.specs.Values.{value_in};
    ghost use Rattle.cip_values.specs.Texts.{text_of};

    ghost output = { λ t. text_of t.element t.is_quoted (value_in t.value) };

    fn fmt<W: fmt::Write>(&self, f: &mut fmt::Formatter<W>) -> fmt::Result {
        match self.value {
            Value::Bool(truth) => f.write_str(if truth { "1" } else { "0" }),
            Value::Signed(number) => write!(f, "{number}{}", self.element.unit()),
            Value::Unsigned(number) => write!(f, "{number}"),
            Value::Bits(number) => {
                let width = 2 * self.element.form().size();
                write!(f, "0x{number:0width$x}")
            }
            Value::Real(bits) => write!(f, "{}", RealText(bits)),
            Value::Lreal(bits) => write!(f, "{}", LrealText(bits)),
            Value::Date(date) => write!(f, "{date}"),
            Value::TimeOfDay(milliseconds) => write!(f, "{}", ClockText(milliseconds)),
            Value::DateAndTime(date, milliseconds) => {
                write!(f, "{date}T{}", ClockText(milliseconds))
            }
            Value::Text(_) | Value::Wide(_) | Value::Path(_) => {
                let counted = CountedText {
                    value: self.value,
                    is_quoted: self.is_quoted,
                };
                if self.is_quoted {
                    return write!(f, "\"{counted}\"");
                }
                write!(f, "{counted}")
            }
        }
    }
}

/// A string or a path, without its quotes.
#[derive(Clone, Copy)]
struct CountedText<'a> {
    value: Value<'a>,
    is_quoted: bool,
}

impl fmt::Display for CountedText<'_> {
    ghost use Rattle.std.specs.Prelude.{Some};
    ghost use Rattle.cip_values.specs.Values.{value_in};
    ghost use Rattle.cip_values.specs.Texts.{counted_text};

    ghost output = { λ t. Some (counted_text t.is_quoted (value_in t.value)) };

    fn fmt<W: fmt::Write>(&self, f: &mut fmt::Formatter<W>) -> fmt::Result {
        let is_quoted = self.is_quoted;
        match self.value {
            Value::Text(text) => write!(f, "{}", Escaped { text, is_quoted }),
            Value::Wide(text) => write!(f, "{}", WideText { text, is_quoted }),
            Value::Path(path) => write!(f, "{}", PathText(path)),
            _ => Ok(()),
        }
    }
}

/// An EPATH that prints as the hexadecimal digits of its bytes.
#[derive(Clone, Copy, Debug, PartialEq, Eq)]
pub struct PathText<'a>(pub &'a [u8]);

impl fmt::Display for PathText<'_> {
    ghost use Rattle.std.specs.Prelude.{Some};
    ghost use Rattle.cip_values.specs.Texts.{path_text};

    ghost output = { λ path. Some (path_text path.0.now) };

    fn fmt<W: fmt::Write>(&self, f: &mut fmt::Formatter<W>) -> fmt::Result {
        for byte in self.0 {
            write!(f, "{byte:02x}")?;
        }
        Ok(())
    }
}

/// The characters of two bytes of a string, each as it is or escaped.
#[derive(Clone, Copy)]
struct WideText<'a> {
    text: &'a [u8],
    is_quoted: bool,
}

impl fmt::Display for WideText<'_> {
    ghost use Rattle.std.specs.Prelude.{Some};
    ghost use Rattle.cip_values.specs.Texts.{wide_text};

    ghost output = { λ w. Some (wide_text w.is_quoted w.text.now) };

    fn fmt<W: fmt::Write>(&self, f: &mut fmt::Formatter<W>) -> fmt::Result {
        let mut rest = self.text;
        'characters: while let Some((unit, behind)) = first_of_wide(rest) {
            let character = WideUnit {
                unit,
                is_quoted: self.is_quoted,
            };
            write!(f, "{character}")?;
            rest = behind;
        }
        Ok(())
    }
}

/// The characters of a STRING2, given by its bytes.
///
/// # Errors
///
/// `AllocError` if memory is refused.
pub fn wide_characters(alloc: Global, text: &[u8]) -> Result<Vec<u16>, AllocError>
    ensures { IfOk result (λ units. units.items ≡ words_of text.now) }
{
    let mut units = Vec::new(alloc);
    let mut rest = text;
    'characters: while let Some((unit, behind)) = first_of_wide(rest) {
        units.push(unit)?;
        rest = behind;
    }
    Ok(units)
}

/// The first character of two bytes, and the rest.
fn first_of_wide(text: &[u8]) -> Option<(u16, &[u8])>
    ensures first { MatchOption result (words_of text.now ≡ []) (λ read. words_of text.now ≡ read.0 ∷ words_of read.1.now) }
    ensures shorter { IfSome result (λ read. length read.1.now < length text.now) }
{
    match text {
        [low, high, rest @ ..] => Some((u16::from(*low) + 256 * u16::from(*high), rest)),
        _ => None,
    }
}

/// A character of two bytes, as it is or escaped.
#[derive(Clone, Copy)]
struct WideUnit {
    unit: u16,
    is_quoted: bool,
}

impl fmt::Display for WideUnit {
    ghost use Rattle.std.specs.Prelude.{Some};
    ghost use Rattle.cip_values.specs.Texts.{wide_escape};

    ghost output = { λ u. Some (wide_escape u.is_quoted u.unit) };

    fn fmt<W: fmt::Write>(&self, f: &mut fmt::Formatter<W>) -> fmt::Result {
        match self.unit {
            0x5c => f.write_str("\\\\"),
            0x22 if self.is_quoted => f.write_str("\\\""),
            0x20..=0x7e => write!(f, "{}", char::from(self.unit as u8)),
            other => write!(f, "\\u{other:04x}"),
        }
    }
}

/// A TIME_OF_DAY, given by the milliseconds since midnight, that prints as `hh:mm:ss.mmm`. From 86,400,000 on it is no
/// time of a day, and prints as this number.
#[derive(Clone, Copy, Debug, PartialEq, Eq)]
pub struct ClockText(pub u32);

impl fmt::Display for ClockText {
    ghost use Rattle.std.specs.Prelude.{Some};
    ghost use Rattle.cip_values.specs.Texts.{clock_text};

    ghost output = { λ clock. Some (clock_text clock.0) };

    fn fmt<W: fmt::Write>(&self, f: &mut fmt::Formatter<W>) -> fmt::Result {
        let clock = self.0;
        if clock >= DAY {
            return write!(f, "{clock}");
        }
        let (hour, minute) = (clock / 3_600_000, clock / 60_000 % 60);
        let (second, rest) = (clock / 1000 % 60, clock % 1000);
        write!(f, "{hour:02}:{minute:02}:{second:02}.{rest:03}")
    }
}

/// An LREAL, given by its bits.
#[derive(Clone, Copy)]
struct LrealText(u64);

impl fmt::Display for LrealText {
    fn fmt<W: fmt::Write>(&self, f: &mut fmt::Formatter<W>) -> fmt::Result {
        let mut buffer = Buffer::new();
        f.write_str(buffer.format(f64_from_bits_with_nan(self.0)))
    }
}

/// A REAL, given by its bits.
#[derive(Clone, Copy)]
struct RealText(u32);

impl fmt::Display for RealText {
    fn fmt<W: fmt::Write>(&self, f: &mut fmt::Formatter<W>) -> fmt::Result {
        let mut buffer = Buffer::new();
        f.write_str(buffer.format(f32_from_bits_with_nan(self.0)))
    }
}

/// The bytes of a string, each as it is or escaped.
#[derive(Clone, Copy)]
struct Escaped<'a> {
    text: &'a [u8],
    is_quoted: bool,
}

impl fmt::Display for Escaped<'_> {
    ghost use Rattle.std.specs.Prelude.{Some};
    ghost use Rattle.cip_values.specs.Texts.{escaped};

    ghost output = { λ e. Some (escaped e.is_quoted e.text.now) };

    fn fmt<W: fmt::Write>(&self, f: &mut fmt::Formatter<W>) -> fmt::Result {
        for byte in self.text {
            match *byte {
                b'\\' => f.write_str("\\\\")?,
                b'"' if self.is_quoted => f.write_str("\\\"")?,
                b' '..=b'~' => write!(f, "{}", char::from(*byte))?,
                other => write!(f, "\\x{other:02x}")?,
            }
        }
        Ok(())
    }
}

/// The word without its quotes, or the whole word if it is not in quotes.
pub(crate) fn unquoted(word: &[u8]) -> &[u8]
    ensures { result.now ≡ unquoted word.now }
{
    match word {
        [b'"', inner @ .., b'"'] => inner,
        _ => word,
    }
}

/// The bytes of an escaped text, or `None` if part of it is no character: a backslash that is followed by anything but
/// what it escapes, and in a path anything but two hexadecimal digits.
pub(crate) fn unescaped(
    alloc: Global,
    form: Form,
    text: &[u8],
) -> Result<Option<Vec<u8>>, AllocError>
    ensures { IfOk result (λ read. MatchOption read (IsBadlyEscaped form text.now)
        (λ bytes. Unescapes form text.now bytes.items [])) }
{
    let mut bytes = Vec::new(alloc);
    let mut rest = text;
    while !rest.is_empty() {
        let Some((number, behind)) = first_piece(form, rest) else {
            return Ok(None);
        };
        append_number(u64::from(number), piece_size(form), &mut bytes)?;
        rest = behind;
    }
    Ok(Some(bytes))
}

/// How many bytes each character of a text stands for.
fn piece_size(form: Form) -> usize
    ensures is { result ≡ piece_size form }
    ensures most { result ≤ 8 }
{
    match form {
        Form::Wide => 2,
        _ => 1,
    }
}

/// The first character of an escaped text, unescaped, and the rest.
fn first_piece(form: Form, text: &[u8]) -> Option<(u16, &[u8])>
    ensures is { option_map seen result ≡ first_piece form text.now }
    ensures shorter { IfSome result (λ read. length read.1.now < length text.now) }
{
    match form {
        Form::Wide => first_unit(text),
        Form::Path => first_pair(text),
        _ => {
            let (byte, rest) = first_byte(text)?;
            Some((u16::from(byte), rest))
        }
    }
}

/// The first byte of a path in hexadecimal digits, and the rest.
fn first_pair(text: &[u8]) -> Option<(u16, &[u8])>
    ensures is { option_map seen result ≡ first_pair text.now }
    ensures shorter { IfSome result (λ read. length read.1.now < length text.now) }
{
    match text {
        [high, low, rest @ ..] => Some((u16::from(byte_of_digits(*high, *low)?), rest)),
        _ => None,
    }
}

/// The first character of an escaped text of ASCII, unescaped, and the rest.
fn first_unit(text: &[u8]) -> Option<(u16, &[u8])>
    ensures is { option_map seen result ≡ first_unit text.now }
    ensures shorter { IfSome result (λ read. length read.1.now < length text.now) }
{
    match text {
        [b'\\', escaped @ ..] => escaped_unit(escaped),
        [byte, rest @ ..] if *byte < 0x80 => Some((u16::from(*byte), rest)),
        _ => None,
    }
}

/// The character that is escaped after a backslash, and the rest.
fn escaped_unit(text: &[u8]) -> Option<(u16, &[u8])>
    ensures is { option_map seen result ≡ escaped_unit text.now }
    ensures shorter { IfSome result (λ read. length read.1.now < length text.now) }
{
    match text {
        [b'u', first, second, third, fourth, rest @ ..] => Some((
            unit_of_digits([*first, *second, *third, *fourth])?,
            rest,
        )),
        [b'\\', rest @ ..] => Some((0x5c, rest)),
        [b'"', rest @ ..] => Some((0x22, rest)),
        _ => None,
    }
}

/// The first byte of an escaped text, unescaped, and the rest.
fn first_byte(text: &[u8]) -> Option<(u8, &[u8])>
    ensures is { option_map seen result ≡ first_byte text.now }
    ensures shorter { IfSome result (λ read. length read.1.now < length text.now) }
{
    match text {
        [b'\\', escaped @ ..] => escaped_byte(escaped),
        [byte, rest @ ..] => Some((*byte, rest)),
        [] => None,
    }
}

/// The byte that is escaped after a backslash, and the rest.
fn escaped_byte(text: &[u8]) -> Option<(u8, &[u8])>
    ensures is { option_map seen result ≡ escaped_byte text.now }
    ensures shorter { IfSome result (λ read. length read.1.now < length text.now) }
{
    match text {
        [b'x', high, low, rest @ ..] => Some((byte_of_digits(*high, *low)?, rest)),
        [b'\\', rest @ ..] => Some((b'\\', rest)),
        [b'"', rest @ ..] => Some((b'"', rest)),
        _ => None,
    }
}

/// The character with these four hexadecimal digits.
fn unit_of_digits(digits: [u8; 4]) -> Option<u16>
    ensures { result ≡ unit_of_digits digits }
{
    let [first, second, third, fourth] = digits;
    let high = byte_of_digits(first, second)?;
    let low = byte_of_digits(third, fourth)?;
    Some(256 * u16::from(high) + u16::from(low))
}

/// The byte with these two hexadecimal digits.
fn byte_of_digits(high: u8, low: u8) -> Option<u8>
    ensures { result ≡ byte_of_digits high low }
{
    let high = char::from(high).to_digit(16)?;
    let low = char::from(low).to_digit(16)?;
    Some((16 * high + low) as u8)
}
