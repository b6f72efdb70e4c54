//! Parses dates and times of day.

ghost use Rattle.std.specs.Prelude.{◌≡◌, ◌<◌, IfOk, IfErr, IfSome};
ghost use Rattle.cip_values.specs.Times.{two_digits, written_date, milliseconds, written_clock};
ghost use Rattle.cip_values.specs.Times.{IsParsedDate, IsParsedClock, IsParsedInstant};
ghost use Rattle.cip_values.specs.Times.{IsDateFault, IsClockFault, IsInstantFault};
ghost use Rattle.cip_values.specs.Values.{value_in};

use crate::calendar::{DAY, Date};
use crate::parsing::ParseFault;
use crate::value::Value;

/// Parses a date of the calendar, `YYYY-MM-DD`.
pub(crate) fn date_of(text: &[u8]) -> Result<Date, ParseFault>
    ensures parses { IfOk result (IsParsedDate text.now) }
    ensures missed { IfErr result (IsDateFault text.now) }
{
    let Some(date) = written_date(text) else {
        return Err(ParseFault::Form);
    };
    if !date.exists() {
        return Err(ParseFault::Form);
    }
    if !date.is_numbered() {
        return Err(ParseFault::Range);
    }
    Ok(date)
}

/// Parses a time of day, `hh:mm:ss.mmm`, as the milliseconds since midnight.
pub(crate) fn clock_of(text: &[u8]) -> Result<u32, ParseFault>
    ensures parses { IfOk result (IsParsedClock text.now) }
    ensures missed { IfErr result (IsClockFault text.now) }
{
    let Some(milliseconds) = written_clock(text) else {
        return Err(ParseFault::Form);
    };
    if milliseconds >= DAY {
        return Err(ParseFault::Range);
    }
    Ok(milliseconds)
}

/// Parses a date and a time of day.
pub(crate) fn instant_of(date: &[u8], clock: &[u8]) -> Result<Value<'static>, ParseFault>
    ensures parses { IfOk result (λ value. IsParsedInstant date.now clock.now (value_in value)) }
    ensures missed { IfErr result (IsInstantFault date.now clock.now) }
{
    match (date_of(date), clock_of(clock)) {
        (Ok(date), Ok(milliseconds)) => Ok(Value::DateAndTime(date, milliseconds)),
        (Err(ParseFault::Form), _) | (_, Err(ParseFault::Form)) => Err(ParseFault::Form),
        _ => Err(ParseFault::Range),
    }
}

/// The date that ten characters spell, whether it exists or not.
fn written_date(text: &[u8]) -> Option<Date>
    ensures { result ≡ written_date text.now }
{
    if text.len() != 10 || text[4] != b'-' || text[7] != b'-' {
        return None;
    }
    let century = two_digits(text[0], text[1])?;
    let year = two_digits(text[2], text[3])?;
    let month = two_digits(text[5], text[6])?;
    let day = two_digits(text[8], text[9])?;
    Some(Date {
        year: 100 * u16::from(century) + u16::from(year),
        month,
        day,
    })
}

/// The milliseconds since midnight that twelve characters spell, with minutes and seconds below 60.
fn written_clock(text: &[u8]) -> Option<u32>
    ensures { result ≡ written_clock text.now }
{
    if text.len() != 12 || text[2] != b':' || text[5] != b':' || text[8] != b'.' {
        return None;
    }
    let hour = two_digits(text[0], text[1])?;
    let minute = two_digits(text[3], text[4])?;
    let second = two_digits(text[6], text[7])?;
    let tens = two_digits(text[9], text[10])?;
    let ones = two_digits(b'0', text[11])?;
    milliseconds(hour, minute, second, u16::from(tens) * 10 + u16::from(ones))
}

/// The milliseconds since midnight at this time. `None` if an hour has not this minute, or a minute not this second.
fn milliseconds(hour: u8, minute: u8, second: u8, rest: u16) -> Option<u32>
    ensures { result ≡ milliseconds hour minute second rest }
{
    if minute >= 60 || second >= 60 {
        return None;
    }
    let seconds = (u32::from(hour) * 60 + u32::from(minute)) * 60 + u32::from(second);
    Some(seconds * 1000 + u32::from(rest))
}

/// The number with these two decimal digits.
fn two_digits(tens: u8, ones: u8) -> Option<u8>
    ensures is { result ≡ two_digits tens ones }
    ensures most { IfSome result (λ number. number < 100) }
{
    let tens = char::from(tens).to_digit(10)?;
    let ones = char::from(ones).to_digit(10)?;
    Some((10 * tens + ones) as u8)
}
