//! Tables of names, and the search in them.

ghost use Rattle.std.specs.Prelude.{◌≡◌};
ghost use Rattle.cip_names.specs.Names.{has_name, name_of, number_of, IsNumberOrName};

use crate::numbers::parse_number;

/// A name (lower case, with `-` between words), and the number of the class, the attribute or the service.
///
/// ```
/// let row: Name = ("identity", 0x01);
/// ```
pub type Name = (&'static str, u16);

/// The number that a text gives, up to `most`, or the number of the first row with this name. Capitals do not matter.
///
/// ```
/// number_or_name("Identity", 0xffff, &CLASSES) // Some(1)
/// number_or_name("0x01", 0xffff, &CLASSES) // Some(1)
/// ```
pub fn number_or_name(text: &str, most: u64, rows: &[Name]) -> Option<u64>
    ensures { IsNumberOrName most rows.now text.now result }
{
    match parse_number(text, 0, most) {
        Some(number) => Some(number),
        None => number_named(rows, text),
    }
}

/// The number of the first row with this name.
fn number_named(rows: &[Name], text: &str) -> Option<u64>
    ensures { result ≡ number_of rows.now text.now }
{
    let row = rows.iter().find(|row| is_named(**row, text))?;
    Some(u64::from(row.1))
}

/// The name of the first row with this number.
///
/// ```
/// name_of(&CLASSES, 0x01) // Some("identity")
/// name_of(&CLASSES, 0x300) // None
/// ```
pub fn name_of(rows: &[Name], number: u16) -> Option<&'static str>
    ensures { result ≡ name_of rows.now number }
{
    let row = rows.iter().find(|row| row.1 == number)?;
    Some(row.0)
}

/// Whether the row has this name, in capitals or not.
fn is_named(row: Name, text: &str) -> bool
    ensures { result ≡ has_name text.now row.entry }
{
    row.0.eq_ignore_ascii_case(text)
}
