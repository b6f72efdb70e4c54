//! Parses a word as a value.

ghost use Rattle.std.specs.Prelude.{◌≡◌, ◌≤◌, ◌<◌, ◌↔◌, ◌^◌, IfOk, IfErr, MatchResult, MatchOption, IsTrue, ℕ, ℤ, pos, min, ◌-◌, ◌≢◌, ◌++◌, List};
ghost use Rattle.std.specs.Char.{is_digit};
ghost use Rattle.std.specs.List.{list_all};
ghost use Rattle.std.specs.Str.Parse.{IsNumeral, digits_value};
ghost use Rattle.cip_values.specs.Types.{IsSized, form_of};
ghost use Rattle.cip_values.specs.Values.{Real, Lreal, value_in, IsOf, IsSignedOf, IsUnsignedOf};
ghost use Rattle.cip_values.specs.Parsing.{has_digit, ParsesAs, ParsesAsNumber, IsParseFault, IsWordFault};
ghost use Rattle.cip_values.specs.Parsing.{Clamps, ParsesAsInteger, ParsesAsUnsigned, ParsesAsBits, IsWithoutUnit, IsTimed};

use crate::element::{ElementaryType, Form};
use crate::fault::ValueFault;
use crate::times::{clock_of, date_of, instant_of};
use crate::value::Value;
use std::num::{f32_to_bits_with_nan, f64_to_bits_with_nan};

/// Why a word is not a value of a kind.
#[derive(Clone, Copy)]
pub(crate) enum ParseFault {
    /// It is not a value of this kind, in any range.
    Form,
    /// Its number is out of range.
    Range,
}

/// Parses a word as a value of any type but a string or a path.
///
/// A BOOL is `0`, `1`, `false` or `true`. An integer is decimal digits, with a minus sign if it is negative. A bit
/// string is `0x` and hexadecimal digits, or an integer, and so is a ULINT. A REAL or an LREAL is a decimal number, with or
/// without an exponent, `inf` or `nan`. A DATE is `YYYY-MM-DD`, a TIME_OF_DAY `hh:mm:ss.mmm`, and a DATE_AND_TIME both
/// with `T` between them. A TIME is an integer, with or without `ms` behind it, and an LTIME one with or without `us`.
///
/// # Errors
///
/// `Form` if the word has none of these forms, `Range` if its number is out of the type's range.
pub(crate) fn parse_value<'a>(
    element: ElementaryType,
    word: &'a str,
) -> Result<Value<'static>, ValueFault<'a>>
    ensures parses { IfOk result (λ value. ParsesAsNumber element word.now (value_in value)) }
    ensures of_type { IfOk result (λ value. IsOf (form_of element) (value_in value)) }
    ensures refused { IfErr result (IsWordFault element word.now) }
{
    match parse_word(element.form(), without_unit(element.unit(), word)) {
        Ok(value) => Ok(value),
        Err(ParseFault::Form) => Err(ValueFault::Form(word, element)),
        Err(ParseFault::Range) => Err(ValueFault::Range(word, element)),
    }
}

/// The word without the unit at its end, or the whole word if the unit is not there.
fn without_unit<'a>(unit: &str, word: &'a str) -> &'a str
    ensures { IsWithoutUnit unit.now word.now result.now }
{
    match word.strip_suffix(unit) {
        Some(number) => number,
        None => word,
    }
}

/// Parses a word as a value of any kind but a string or a path.
fn parse_word(form: Form, word: &str) -> Result<Value<'static>, ParseFault>
    requires { IsSized form }
    ensures parses { IfOk result (λ value. ParsesAs form word.now (value_in value)) }
    ensures of_type { IfOk result (λ value. IsOf form (value_in value)) }
    ensures missed { IfErr result (IsParseFault form word.now) }
{
    match form {
        Form::Bool => match word {
            "0" | "false" => Ok(Value::Bool(false)),
            "1" | "true" => Ok(Value::Bool(true)),
            _ => Err(ParseFault::Form),
        },
        Form::Signed(size) => {
            let number = integer(word)?;
            if !fits_signed(number, size) {
                return Err(ParseFault::Range);
            }
            Ok(Value::Signed(number as i64))
        }
        Form::Unsigned(size) => {
            let number = unsigned(word, size)?;
            if !fits_unsigned(number, size) {
                return Err(ParseFault::Range);
            }
            Ok(Value::Unsigned(number as u64))
        }
        Form::Bits(size) => {
            let number = bit_string(word)?;
            if !fits_unsigned(number, size) {
                return Err(ParseFault::Range);
            }
            Ok(Value::Bits(number as u64))
        }
        Form::Real => Ok(Value::Real(real(word)?)),
        Form::Lreal => Ok(Value::Lreal(lreal(word)?)),
        Form::Date | Form::TimeOfDay | Form::DateAndTime => parse_time(form, word.as_bytes()),
        Form::Text(_) | Form::Wide | Form::Path => Err(ParseFault::Form),
    }
}

/// Parses a text as a date, a time of day, or both.
fn parse_time(form: Form, text: &[u8]) -> Result<Value<'static>, ParseFault>
    requires { IsTimed form }
    ensures parses { IfOk result (λ value. ParsesAs form text.now (value_in value)) }
    ensures of_type { IfOk result (λ value. IsOf form (value_in value)) }
    ensures missed { IfErr result (IsParseFault form text.now) }
{
    match form {
        Form::Date => Ok(Value::Date(date_of(text)?)),
        Form::TimeOfDay => Ok(Value::TimeOfDay(clock_of(text)?)),
        Form::DateAndTime => date_and_time(text),
        _ => Err(ParseFault::Form),
    }
}

/// Parses a date, `T` and a time of day.
fn date_and_time(text: &[u8]) -> Result<Value<'static>, ParseFault>
    ensures parses { IfOk result (λ value. ParsesAs Form.DateAndTime text.now (value_in value)) }
    ensures of_type { IfOk result (λ value. IsOf Form.DateAndTime (value_in value)) }
    ensures missed { IfErr result (IsParseFault Form.DateAndTime text.now) }
{
    if text.len() < 11 || text[10] != b'T' {
        return Err(ParseFault::Form);
    }
    match instant_of(&text[..10], &text[11..]) {
        Ok(instant) => Ok(instant),
        Err(ParseFault::Form) => Err(ParseFault::Form),
        Err(ParseFault::Range) => Err(ParseFault::Range),
    }
}

/// Whether the integer fits two's complement of `size` bytes.
fn fits_signed(number: i128, size: usize) -> bool
    requires low { 1 ≤ size }
    requires high { size ≤ 8 }
    ensures { IsTrue result ↔ IsSignedOf size number }
{
    let half = (1u128 << (8 * size - 1)) as i128;
    -half <= number && number < half
}

/// Whether the integer fits an unsigned number of `size` bytes.
fn fits_unsigned(number: i128, size: usize) -> bool
    requires low { 1 ≤ size }
    requires high { size ≤ 8 }
    ensures { IsTrue result ↔ IsUnsignedOf size number }
{
    0 <= number && number < (1u128 << (8 * size)) as i128
}

/// Parses an integer. One of more than 127 bits becomes the greatest or the least of 127 bits.
fn integer(word: &str) -> Result<i128, ParseFault>
    ensures { MatchResult result (Clamps (ParsesAsInteger word.now))
        (λ miss. (miss ≡ ParseFault.Form) × ((number : ℤ) → ParsesAsInteger word.now number → ⊥)) }
{
    match after_prefix("-", word) {
        Some(digits) => Ok(-number_of(digits, 10)?),
        None => number_of(word, 10),
    }
}

/// Parses an unsigned number of `size` bytes. One of 8 bytes may be in hexadecimal, as a bit string is.
fn unsigned(word: &str, size: usize) -> Result<i128, ParseFault>
    ensures { MatchResult result (Clamps (ParsesAsUnsigned size word.now))
        (λ miss. (miss ≡ ParseFault.Form) × ((number : ℤ) → ParsesAsUnsigned size word.now number → ⊥)) }
{
    if size == 8 {
        bit_string(word)
    } else {
        integer(word)
    }
}

/// Parses a bit string, as a number.
fn bit_string(word: &str) -> Result<i128, ParseFault>
    ensures { MatchResult result (Clamps (ParsesAsBits word.now))
        (λ miss. (miss ≡ ParseFault.Form) × ((number : ℤ) → ParsesAsBits word.now number → ⊥)) }
{
    match after_prefix("0x", word) {
        Some(digits) => number_of(digits, 16),
        None => integer(word),
    }
}

/// The rest of a word after this prefix, or `None` if the word does not start with it.
fn after_prefix<'a>(mark: &str, word: &'a str) -> Option<&'a str>
    ensures { MatchOption result ((rest : List ℕ) → word.now ≢ mark.now ++ rest)
        (λ rest. word.now ≡ mark.now ++ rest.now) }
{
    word.strip_prefix(mark)
}

/// Parses digits. A number of more than 127 bits becomes the greatest of 127 bits.
fn number_of(digits: &str, radix: u32) -> Result<i128, ParseFault>
    requires low { 2 ≤ radix }
    requires high { radix ≤ 16 }
    ensures { MatchResult result
        (λ number. IsNumeral radix digits.now × (number ≡ pos (min (digits_value radix digits.now) (2 ^ 127 - 1))))
        (λ miss. (miss ≡ ParseFault.Form) × ¬ IsNumeral radix digits.now) }
{
    if !is_numeral(digits, radix) {
        return Err(ParseFault::Form);
    }
    Ok(i128::from_str_radix(digits, radix).unwrap_or(i128::MAX))
}

/// Whether the text is one digit or more, and nothing else.
fn is_numeral(text: &str, radix: u32) -> bool
    requires low { 2 ≤ radix }
    requires high { radix ≤ 16 }
    ensures { IsTrue result ↔ IsNumeral radix text.now }
{
    !text.is_empty() && are_digits(text.as_bytes(), radix)
}

/// Whether every byte is a digit.
fn are_digits(bytes: &[u8], radix: u32) -> bool
    requires low { 2 ≤ radix }
    requires high { radix ≤ 16 }
    ensures { result ≡ list_all (λ byte. is_digit byte radix) bytes.now }
{
    bytes.iter().all(|byte| is_digit(*byte, radix))
}

/// Whether a byte is a digit.
fn is_digit(byte: u8, radix: u32) -> bool
    requires low { 2 ≤ radix }
    requires high { radix ≤ 16 }
    ensures { result ≡ is_digit byte radix }
{
    char::from(byte).is_digit(radix)
}

/// Parses a REAL, as its bits.
fn real(word: &str) -> Result<u32, ParseFault>
    ensures parses { IfOk result (λ bits. ParsesAs Form.Real word.now (Real bits)) }
    ensures missed { IfErr result (IsParseFault Form.Real word.now) }
{
    let Ok(number) = word.parse::<f32>() else {
        return Err(ParseFault::Form);
    };
    if number.is_infinite() && has_digit(word) {
        return Err(ParseFault::Range);
    }
    Ok(f32_to_bits_with_nan(number))
}

/// Parses an LREAL, as its bits.
fn lreal(word: &str) -> Result<u64, ParseFault>
    ensures parses { IfOk result (λ bits. ParsesAs Form.Lreal word.now (Lreal bits)) }
    ensures missed { IfErr result (IsParseFault Form.Lreal word.now) }
{
    let Ok(number) = word.parse::<f64>() else {
        return Err(ParseFault::Form);
    };
    if has_digit(word) && number.is_infinite() {
        return Err(ParseFault::Range);
    }
    Ok(f64_to_bits_with_nan(number))
}

/// Whether the word has a decimal digit.
fn has_digit(word: &str) -> bool
    ensures { result ≡ has_digit word.now }
{
    word.as_bytes().iter().any(|byte| is_digit(*byte, 10))
}
