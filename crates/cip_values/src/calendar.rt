//! Dates of the Gregorian calendar.

ghost use Rattle.std.specs.Prelude.{◌≡◌, ◌↔◌, ◌≤◌, IsTrue};
ghost use Rattle.cip_values.specs.Calendar.{is_leap, year_length, month_length, days_of, IsDate, IsDayNumber};

use std::fmt;

/// The first year of a DATE. (Volume 1, data types.)
const FIRST_YEAR: u16 = 1972;

/// The milliseconds of a day.
pub(crate) const DAY: u32 = 86_400_000;

/// A date of the Gregorian calendar.
#[derive(Clone, Copy, Debug, PartialEq, Eq)]
pub struct Date {
    /// The year.
    pub year: u16,
    /// The month: 1 for January to 12 for December.
    pub month: u8,
    /// The day of the month, from 1.
    pub day: u8,
}

impl fmt::Display for Date {
    ghost use Rattle.std.specs.Prelude.{Some};
    ghost use Rattle.cip_values.specs.Texts.{date_text};

    ghost output = { λ date. Some (date_text date) };

    fn fmt<W: fmt::Write>(&self, f: &mut fmt::Formatter<W>) -> fmt::Result {
        write!(f, "{:04}-{:02}-{:02}", self.year, self.month, self.day)
    }
}

impl Date {
    #[tactic(auto, using(crate::proofs::CalendarLemmas::year_step, crate::proofs::CalendarLemmas::month_step, crate::proofs::CalendarLemmas::year_bounds, crate::proofs::CalendarLemmas::months_of_year))]
    /// The date with this number of days since 1972-01-01.
    ///
    /// ```
    /// Date::from_days(20_054) // 2026-11-27
    /// ```
    pub fn from_days(days: u16) -> Date
        ensures date { IsDayNumber result }
        ensures same { days_of result ≡ days }
    {
        let mut year = FIRST_YEAR;
        let mut rest = days;
        'years: while rest >= year_length(year) {
            rest -= year_length(year);
            year += 1;
        }
        let mut month = 1;
        'months: while rest >= u16::from(month_length(year, month)) {
            rest -= u16::from(month_length(year, month));
            month += 1;
        }
        Date {
            year,
            month,
            day: rest as u8 + 1,
        }
    }

    #[tactic(auto, using(crate::proofs::CalendarLemmas::year_step, crate::proofs::CalendarLemmas::month_step, crate::proofs::CalendarLemmas::year_bounds))]
    /// The days since 1972-01-01.
    pub(crate) fn days(self) -> u32
        requires exists { IsDate self }
        requires since { 1972 ≤ self.year }
        ensures { result ≡ days_of self }
    {
        let mut days = u32::from(self.day) - 1;
        for year in FIRST_YEAR..self.year {
            days += u32::from(year_length(year));
        }
        for month in 1..self.month {
            days += u32::from(month_length(self.year, month));
        }
        days
    }

    /// Whether the month and the day exist.
    pub(crate) fn exists(self) -> bool
        ensures { IsTrue result ↔ IsDate self }
    {
        1 <= self.month
            && self.month <= 12
            && 1 <= self.day
            && self.day <= month_length(self.year, self.month)
    }

    /// Whether the date is one that a DATE can be: 1972-01-01 to 2151-06-06.
    pub(crate) fn is_numbered(self) -> bool
        requires { IsDate self }
        ensures { IsTrue result ↔ IsDayNumber self }
    {
        FIRST_YEAR <= self.year && self.days() <= 0xffff
    }
}

/// Whether a year has 366 days.
fn is_leap(year: u16) -> bool
    ensures { result ≡ is_leap year }
{
    year % 4 == 0 && (year % 100 != 0 || year % 400 == 0)
}

/// The days of a year.
fn year_length(year: u16) -> u16
    ensures { result ≡ year_length year }
{
    if is_leap(year) { 366 } else { 365 }
}

/// The days of a month, from 1 for January to 12 for December.
fn month_length(year: u16, month: u8) -> u8
    ensures { result ≡ month_length year month }
{
    match month {
        2 if is_leap(year) => 29,
        2 => 28,
        4 | 6 | 9 | 11 => 30,
        _ => 31,
    }
}
