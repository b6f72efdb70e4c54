//! Arguments that `clap` accepts and a command refuses.

ghost use Rattle.std.specs.Prelude.{◌≡◌};

use crate::seconds::microseconds_of;
use cip_layouts::{Layout, LayoutFault, ValueShape};
use cip_names::Name;
use cip_route::RouteFault;
use cip_values::ValueType;
use enip_access::parse_address;
use std::fmt;
use std::net::IpAddr;
use std::time::Duration;
use thiserror::Error;

/// Why an argument is refused. The texts have the form of `clap`'s, and no line over 80 columns for a short argument.
#[derive(Clone, Copy, Debug, Error)]
pub enum ArgumentError<'a> {
    /// The value of this option is not a number of seconds.
    #[error("invalid value '{1}' for '--{0} <SECONDS>'\n  [a number from 0 to 3600, with up to six decimals]")]
    Seconds(&'static str, &'a str),
    /// The value of this option is not the name of a type.
    #[error("invalid value '{1}' for '--{0} <TYPE>'\n  [possible values: BOOL, SINT, INT, DINT, LINT, USINT, UINT, UDINT, \
        ULINT, BYTE,\n  WORD, DWORD, LWORD, REAL, SHORT_STRING, LREAL, STRING, STRING2, EPATH, DATE,\n  TIME_OF_DAY, \
        DATE_AND_TIME, TIME, LTIME, or one of these and [] for a list]")]
    Type(&'static str, &'a str),
    /// The value of this option is not a layout.
    #[error("invalid value '{1}' for '--{0} <TYPE>'\n  [{2}]")]
    Layout(&'static str, &'a str, LayoutFault),
    /// The text is not a route.
    #[error("invalid value '{0}' for '--route <HOPS>'\n  [{1}]")]
    Route(&'a str, RouteFault),
    /// The argument of this usage is not a number in this range.
    #[error("invalid value '{1}' for '{0}'\n  [a number from {2} to {3}, decimal or 0x and hexadecimal digits]")]
    Number(&'static str, &'a str, u64, u64),
    /// The text for the argument of this usage is neither a number nor a name of these.
    #[error("invalid value '{1}' for '{0}'\n  [{2}]")]
    Name(&'static str, &'a str, Choices),
    /// The value of this option is not an address.
    #[error("invalid value '{1}' for '--{0} <ADDRESS>'\n  [an IPv4 or IPv6 address, such as 10.0.0.5 or fd00::5]")]
    Address(&'static str, &'a str),
    /// The value of `--reset-value` names no attributes.
    #[error("invalid value '{0}' for '--reset-value <ATTRIBUTES>'\n  [CLASS/INSTANCE/ATTRIBUTE, such as 768/1/1, with a comma between several]")]
    Attributes(&'a str),
    /// The value of `--date` is not a day.
    #[error("invalid value '{0}' for '--date <DATE>'\n  [a day as MM-DD-YYYY, such as 11-29-2026]")]
    Date(&'a str),
    /// The value of `--id` is not an id.
    #[error("invalid value '{0}' for '--id <TEXT>'\n  [1 to 64 printable ASCII characters without spaces]")]
    Id(&'a str),
    /// The file that `--icon` names is not an icon.
    #[error("invalid value '{0}' for '--icon <FILE>'\n  [an .ico file of up to 65536 bytes]")]
    Icon(&'a str),
    /// HEX has a second argument.
    #[error("unexpected argument '{0}' found\n  [HEX is one argument, unless '--as <TYPE>' is used]")]
    ExtraHex(&'a str),
    /// `--tries` has no effect.
    #[error("the argument '--tries <N>' needs '--connected' or '--once <FILE>'")]
    Tries,
    /// `--member` without the attribute that has it.
    #[error("the argument '--member <N>' needs <ATTRIBUTE>")]
    MemberAlone,
    /// CONFIG is standard input, which has the lines of the command.
    #[error("the argument '-' cannot be used for '<CONFIG>'\n  [standard input has the lines]")]
    InputOfLines,
    /// Two arguments are standard input.
    #[error("the argument '-' cannot be used for '<CONFIG>' and '<SCRIPT>'")]
    InputTwice,
    /// The value of `--forget` before a number is not an originator.
    #[error("invalid value '{0}' for '--forget <ORIGINATOR>'\n  [16 hexadecimal digits, as FILE has them, or 0x and up to 16]")]
    Originator(&'a str),
    /// A required argument is missing.
    #[error("an argument is missing")]
    Missing,
}

/// The duration that the value of an option gives in seconds.
pub fn parse_seconds<'a>(
    option: &'static str,
    text: &'a str,
) -> Result<Duration, ArgumentError<'a>> {
    match microseconds_of(text) {
        Some(microseconds) => Ok(Duration::from_micros(microseconds)),
        None => Err(ArgumentError::Seconds(option, text)),
    }
}

/// The address of a machine that the value of an option gives, if there is a value.
pub fn parse_ip<'a>(
    option: &'static str,
    text: Option<&'a str>,
) -> Result<Option<IpAddr>, ArgumentError<'a>> {
    let Some(text) = text else {
        return Ok(None);
    };
    match parse_address(text.as_bytes()) {
        Some(address) => Ok(Some(address)),
        None => Err(ArgumentError::Address(option, text)),
    }
}

/// The type or the layout that the value of an option names, if there is a value.
pub fn parse_shape<'a>(
    option: &'static str,
    name: Option<&'a str>,
) -> Result<Option<ValueShape>, ArgumentError<'a>> {
    let Some(name) = name else {
        return Ok(None);
    };
    if let Some(value_type) = ValueType::from_name(name) {
        return Ok(Some(ValueShape::Type(value_type)));
    }
    if !is_layout(name.strip_suffix("[]").unwrap_or(name)) {
        return Err(ArgumentError::Type(option, name));
    }
    match Layout::parse(name) {
        Ok(layout) => Ok(Some(ValueShape::Layout(layout))),
        Err(fault) => Err(ArgumentError::Layout(option, name, fault)),
    }
}

/// Whether a text that names no type is to be parsed as a layout.
fn is_layout(text: &str) -> bool {
    text.as_bytes()
        .iter()
        .any(|byte| matches!(*byte, b',' | b'[' | b':'))
}

/// The greatest column of a line, from 0.
const LAST_COLUMN: usize = 78;

/// What an argument can be: a number from 0, or a name of two tables.
#[derive(Clone, Copy, Debug)]
pub struct Choices {
    pub most: u64,
    pub names: &'static [Name],
    pub more_names: &'static [Name],
}

impl fmt::Display for Choices {
    fn fmt<W: fmt::Write>(&self, f: &mut fmt::Formatter<W>) -> fmt::Result {
        write!(
            f,
            "a number from 0 to {}, decimal or 0x and hexadecimal digits",
            self.most
        )?;
        if !self.names.is_empty() || !self.more_names.is_empty() {
            f.write_str(",\n  or a name:")?;
        }
        let column = write_names(f, self.names, "  or a name:".len())?;
        write_names(f, self.more_names, column)?;
        Ok(())
    }
}

/// Writes names with a space before each, on lines that end before the last column. `column` is that of the first one.
/// Returns the column after the last.
fn write_names<W: fmt::Write>(
    f: &mut fmt::Formatter<W>,
    names: &[Name],
    column: usize,
) -> Result<usize, fmt::Error> {
    let mut column = column;
    for row in names {
        let next = column.saturating_add(row.0.len()).saturating_add(1);
        if next > LAST_COLUMN {
            write!(f, "\n   {}", row.0)?;
            column = row.0.len().saturating_add(3);
        } else {
            write!(f, " {}", row.0)?;
            column = next;
        }
    }
    Ok(column)
}

/// The exit status if the arguments are refused.
pub const ARGUMENTS_REFUSED: u8 = 2;

/// Prints why an argument is refused. Returns the exit status.
pub fn print_argument_error(rt: &HostRuntime, error: ArgumentError<'_>) -> u8
    ensures { result ≡ 2 }
{
    let _ = eprintln!(rt; "error: {error}\n\nFor more information, try '--help'.");
    ARGUMENTS_REFUSED
}
