//! Numbers and names in arguments: decimal, hexadecimal, or a name of a table.

ghost use Rattle.std.specs.Prelude.{◌≡◌, ◌≤◌, ◌-◌, ◌^◌, min, IfOk, IfSome};

use crate::argument_error::{ArgumentError, Choices};
use cip_message::Path;
use cip_names::{
    CLASSES, COMMON_SERVICES, Name, attribute_names, number_or_name, parse_number, service_names,
};
use clap::ArgMatches;

/// The greatest service code. Bit 7 marks a reply. (Volume 1, message router.)
const GREATEST_SERVICE: u64 = 0x7f;

/// What a serial number can be besides a number.
static AUTO: [Name; 1] = [("auto", 0)];

/// An option or argument whose value is a number.
#[derive(Clone, Copy)]
pub struct NumberArgument {
    /// The ID in the matches.
    id: &'static str,
    /// How the help writes it.
    usage: &'static str,
    least: u64,
    most: u64,
}

impl NumberArgument {
    pub const CONNECTIONS: NumberArgument = NumberArgument {
        id: "count",
        usage: "--count <N>",
        least: 1,
        most: 0xffff,
    };

    pub const IDLE: NumberArgument = NumberArgument {
        id: "idle",
        usage: "--idle <SECONDS>",
        least: 0,
        most: 3_600,
    };

    pub const REPLIES: NumberArgument = NumberArgument {
        id: "count",
        usage: "--count <N>",
        least: 1,
        most: 0xffff_ffff,
    };

    pub const TRIES: NumberArgument = NumberArgument {
        id: "tries",
        usage: "--tries <N>",
        least: 0,
        most: 0xffff_ffff,
    };

    /// The number of a command of a ledger.
    pub const COMMAND_NUMBER: NumberArgument = NumberArgument {
        id: "NUMBER",
        usage: "[NUMBER]",
        least: 0,
        most: 0xffff_ffff,
    };

    /// How many commands with an id the file of `--once` keeps.
    pub const IDS: NumberArgument = NumberArgument {
        id: "ids",
        usage: "--ids <N>",
        least: 1,
        most: 1_024,
    };

    pub const CONNECTION_SERIAL: NumberArgument = NumberArgument {
        id: "connection-serial",
        usage: "--connection-serial <N>",
        least: 0,
        most: 0xffff,
    };

    pub const ORIGINATOR_SERIAL: NumberArgument = NumberArgument {
        id: "originator-serial",
        usage: "--originator-serial <N>",
        least: 0,
        most: 0xffff_ffff,
    };

    /// The sizes that a client takes: at most a sequence count and 4,000 bytes.
    pub const SIZE: NumberArgument = NumberArgument {
        id: "size",
        usage: "--size <BYTES>",
        least: 10,
        most: 4_002,
    };

    pub const RPI: NumberArgument = NumberArgument {
        id: "rpi",
        usage: "--rpi <MICROSECONDS>",
        least: 1,
        most: 0xffff_ffff,
    };

    /// (Volume 1, connection timeout multiplier.)
    pub const MULTIPLIER: NumberArgument = NumberArgument {
        id: "multiplier",
        usage: "--multiplier <N>",
        least: 0,
        most: 7,
    };

    const INSTANCE: NumberArgument = NumberArgument {
        id: "INSTANCE",
        usage: "<INSTANCE>",
        least: 0,
        most: 0xffff_ffff,
    };

    const MEMBER: NumberArgument = NumberArgument {
        id: "member",
        usage: "--member <N>",
        least: 0,
        most: 0xffff,
    };

    /// The number that the arguments give, or `None` if they leave it out and there is no default.
    pub fn value<'a>(self, matches: &ArgMatches<'a>) -> Result<Option<u64>, ArgumentError<'a>>
        ensures { IfOk result (λ given. IfSome given (λ n. (self.least ≤ n) × (n ≤ self.most))) }
    {
        let Some(text) = matches.get_str(self.id) else {
            return Ok(None);
        };
        match parse_number(text, self.least, self.most) {
            Some(number) => Ok(Some(number)),
            None => Err(ArgumentError::Number(self.usage, text, self.least, self.most)),
        }
    }

    /// The same for a number that can be `auto`, which is `Some(None)`.
    pub fn value_or_auto<'a>(
        self,
        matches: &ArgMatches<'a>,
    ) -> Result<Option<Option<u64>>, ArgumentError<'a>> {
        let Some(text) = matches.get_str(self.id) else {
            return Ok(None);
        };
        if text == "auto" {
            return Ok(Some(None));
        }
        match parse_number(text, self.least, self.most) {
            Some(number) => Ok(Some(Some(number))),
            None => Err(unnamed(self.usage, text, self.most, &AUTO, &[])),
        }
    }
}

/// The path of the object that the arguments name.
pub fn path_of<'a>(matches: &ArgMatches<'a>) -> Result<Path, ArgumentError<'a>> {
    let class = class_of(matches)?;
    let Some(instance) = NumberArgument::INSTANCE.value(matches)? else {
        return Err(ArgumentError::Missing);
    };
    let instance = u32_of(instance);
    Ok(Path {
        class,
        instance,
        attribute: attribute_of(matches, class, instance)?,
        member: NumberArgument::MEMBER.value(matches)?.map(u16_of),
    })
}

/// The class that the arguments name.
fn class_of<'a>(matches: &ArgMatches<'a>) -> Result<u16, ArgumentError<'a>> {
    let Some(text) = matches.get_str("CLASS") else {
        return Err(ArgumentError::Missing);
    };
    match number_or_name(text, 0xffff, &CLASSES) {
        Some(class) => Ok(u16_of(class)),
        None => Err(unnamed("<CLASS>", text, 0xffff, &CLASSES, &[])),
    }
}

/// The attribute that the arguments name, if they do. Its name depends on the class.
fn attribute_of<'a>(
    matches: &ArgMatches<'a>,
    class: u16,
    instance: u32,
) -> Result<Option<u16>, ArgumentError<'a>> {
    let Some(text) = matches.get_str("ATTRIBUTE") else {
        return Ok(None);
    };
    let names = attribute_names(class, instance);
    match number_or_name(text, 0xffff, names) {
        Some(attribute) => Ok(Some(u16_of(attribute))),
        None => Err(unnamed("<ATTRIBUTE>", text, 0xffff, names, &[])),
    }
}

/// The service that the arguments name, if they do: a name of the class, or a common one.
pub fn service_of<'a>(matches: &ArgMatches<'a>) -> Result<Option<u8>, ArgumentError<'a>> {
    let Some(text) = matches.get_str("SERVICE") else {
        return Ok(None);
    };
    let class = class_of(matches)?;
    let names = service_names(class);
    let own = number_or_name(text, GREATEST_SERVICE, names);
    match own.or(number_or_name(text, GREATEST_SERVICE, &COMMON_SERVICES)) {
        Some(service) => Ok(u8::try_from(service).ok()),
        None => Err(unnamed("<SERVICE>", text, GREATEST_SERVICE, names, &COMMON_SERVICES)),
    }
}

/// The error of a text that is neither a number up to `most` nor one of the names.
fn unnamed<'a>(
    usage: &'static str,
    text: &'a str,
    most: u64,
    names: &'static [Name],
    more_names: &'static [Name],
) -> ArgumentError<'a> {
    let choices = Choices {
        most,
        names,
        more_names,
    };
    ArgumentError::Name(usage, text, choices)
}

/// A number that was read up to 65,535.
pub fn u16_of(number: u64) -> u16
    ensures { result ≡ min number (2 ^ 16 - 1) }
{
    u16::try_from(number).unwrap_or(u16::MAX)
}

/// A number that was read up to 4,294,967,295.
pub fn u32_of(number: u64) -> u32
    ensures { result ≡ min number (2 ^ 32 - 1) }
{
    u32::try_from(number).unwrap_or(u32::MAX)
}
