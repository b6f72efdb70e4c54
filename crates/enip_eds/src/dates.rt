//! The date of an EDS.

ghost use Rattle.std.specs.Prelude.{◌≡◌, ◌+◌, ◌/◌, IfSome};
ghost use Rattle.cip_values.specs.Calendar.{IsDayNumber, days_of, is_leap, month_length};
ghost use Rattle.enip_eds.specs.Dates.{date_from, date_in, is_date, two_digits, year_from};

use cip_values::Date;

/// The seconds of a day.
const DAY: u64 = 86_400;

/// The days from 1970-01-01 to 1972-01-01.
const FIRST_DAY: u64 = 730;

/// The date of a time in UTC, in seconds since 1970-01-01. `None` before 1972 and from 2151-06-07 on.
///
/// ```
/// date_at(1_795_910_400) // 2026-11-29
/// ```
pub fn date_at(seconds: u64) -> Option<Date>
    ensures date { IfSome result IsDayNumber }
    ensures same { IfSome result (λ date. days_of date + 730 ≡ seconds / 86400) }
{
    let days = seconds / DAY;
    if days < FIRST_DAY {
        return None;
    }
    match u16::try_from(days - FIRST_DAY) {
        Ok(days) => Some(Date::from_days(days)),
        Err(_) => None,
    }
}

/// The date that a text gives as `MM-DD-YYYY`. `None` if it is no such text, or there is no such day.
///
/// ```
/// date_in(b"11-29-2026") // Some(Date { year: 2026, month: 11, day: 29 })
/// date_in(b"02-30-2026") // None
/// ```
pub fn date_in(text: &[u8]) -> Option<Date>
    ensures { result ≡ date_in text.now }
{
    if text.len() != 10 || text[2] != b'-' || text[5] != b'-' {
        return None;
    }
    let year = year_from(two_digits(text[6], text[7]), two_digits(text[8], text[9]));
    date_from(
        two_digits(text[0], text[1]),
        two_digits(text[3], text[4]),
        year,
    )
}

/// The year of a century and its last two digits.
fn year_from(century: Option<u8>, rest: Option<u8>) -> Option<u16>
    ensures { result ≡ year_from century rest }
{
    match (century, rest) {
        (Some(century), Some(rest)) => Some(100 * u16::from(century) + u16::from(rest)),
        _ => None,
    }
}

/// The date with this month, day and year, if there is one.
fn date_from(month: Option<u8>, day: Option<u8>, year: Option<u16>) -> Option<Date>
    ensures { result ≡ date_from month day year }
{
    match (month, day, year) {
        (Some(month), Some(day), Some(year)) if is_date(year, month, day) => Some(Date {
            year,
            month,
            day,
        }),
        _ => None,
    }
}

/// Whether a month of a year has this day.
fn is_date(year: u16, month: u8, day: u8) -> bool
    ensures { result ≡ is_date year month day }
{
    1 <= month && month <= 12 && 1 <= day && day <= month_length(year, month)
}

/// The number that two decimal digits give.
fn two_digits(high: u8, low: u8) -> Option<u8>
    ensures { result ≡ two_digits high low }
{
    if !high.is_ascii_digit() || !low.is_ascii_digit() {
        return None;
    }
    Some(10 * (high - b'0') + (low - b'0'))
}

/// The days of a month, from 1 for January to 12 for December.
fn month_length(year: u16, month: u8) -> u8
    ensures { result ≡ month_length year month }
{
    match month {
        2 if is_leap(year) => 29,
        2 => 28,
        4 | 6 | 9 | 11 => 30,
        _ => 31,
    }
}

/// Whether a year has 366 days.
fn is_leap(year: u16) -> bool
    ensures { result ≡ is_leap year }
{
    year % 4 == 0 && (year % 100 != 0 || year % 400 == 0)
}
