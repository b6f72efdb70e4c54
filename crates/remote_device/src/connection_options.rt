//! The connection that the options of a client command ask for.

ghost use Rattle.std.specs.Prelude.{◌≡◌, ◌≤◌, IfOk};
ghost use Rattle.cip_bytes.specs.declared.protocol.TheConstants.{LARGEST_CONNECTION_SIZE};

use cip_bytes::protocol::{LARGEST_CONNECTION_SIZE, SMALLEST_T_TO_O_SIZE};
use clap::ArgMatches;
use enip_client::{USUAL_WANTS, Wants};
use enip_common::{ArgumentError, CLOCK, CommandError, NumberArgument, u16_of, u32_of};
use std::process;
use std::time::UNIX_EPOCH;

/// The number of serial numbers of an originator.
const TWO_TO_32: u128 = 0x1_0000_0000;

/// A serial number of a connection or of its originator.
#[derive(Clone, Copy)]
enum Serial {
    Given(u32),
    /// A number that differs from those of other runs.
    Auto,
}

/// The connection that the options ask for.
#[derive(Clone, Copy)]
pub struct ConnectionOptions {
    connection_serial: Serial,
    originator_serial: Serial,
    /// The size of an item in each direction, in bytes.
    size: u16,
    /// The requested packet interval, in microseconds.
    rpi: u32,
    /// The timeout multiplier. `None` is that of the command.
    multiplier: Option<u8>,
}

impl ConnectionOptions {
    /// The options in the arguments.
    pub fn from_matches<'a>(
        matches: &ArgMatches<'a>,
    ) -> Result<ConnectionOptions, ArgumentError<'a>> {
        let connection_serial = serial_of(
            NumberArgument::CONNECTION_SERIAL,
            matches,
            u32::from(USUAL_WANTS.connection_serial),
        )?;
        let originator_serial = serial_of(
            NumberArgument::ORIGINATOR_SERIAL,
            matches,
            USUAL_WANTS.originator_serial,
        )?;
        let size = NumberArgument::SIZE.value(matches)?;
        let rpi = NumberArgument::RPI.value(matches)?;
        let multiplier = NumberArgument::MULTIPLIER.value(matches)?;
        Ok(ConnectionOptions {
            connection_serial,
            originator_serial,
            size: match size {
                Some(size) => u16_of(size),
                None => USUAL_WANTS.o_to_t_size,
            },
            rpi: match rpi {
                Some(rpi) => u32_of(rpi),
                None => USUAL_WANTS.rpi,
            },
            multiplier: multiplier.and_then(|multiplier| u8::try_from(multiplier).ok()),
        })
    }

    /// The connection to open, with this timeout multiplier unless an option gives another.
    pub fn wants<'a>(self, rt: &HostRuntime, multiplier: u8) -> Result<Wants, CommandError<'a>>
        ensures least { IfOk result (λ wants. 10 ≤ wants.t_to_o_size) }
        ensures most { IfOk result (λ wants. wants.t_to_o_size ≤ LARGEST_CONNECTION_SIZE) }
        ensures both { IfOk result (λ wants. wants.o_to_t_size ≡ wants.t_to_o_size) }
    {
        let originator_serial = match self.originator_serial {
            Serial::Given(serial) => serial,
            Serial::Auto => serial_from_clock(rt)?,
        };
        let connection_serial = match self.connection_serial {
            Serial::Given(serial) => serial,
            Serial::Auto => serial_from_process(rt),
        };
        // the range of the option, again
        let size = self
            .size
            .clamp(SMALLEST_T_TO_O_SIZE, LARGEST_CONNECTION_SIZE as u16);
        Ok(Wants {
            originator_serial,
            connection_serial: (connection_serial % 0x1_0000) as u16,
            rpi: self.rpi,
            timeout_multiplier: self.multiplier.unwrap_or(multiplier),
            o_to_t_size: size,
            t_to_o_size: size,
            ..USUAL_WANTS
        })
    }

    /// The size of an item from originator to target, in bytes.
    pub fn size(self) -> u16 {
        self.size
    }
}

/// The serial number that an option gives: a number, or `auto`.
fn serial_of<'a>(
    argument: NumberArgument,
    matches: &ArgMatches<'a>,
    default: u32,
) -> Result<Serial, ArgumentError<'a>> {
    match argument.value_or_auto(matches)? {
        None => Ok(Serial::Given(default)),
        Some(None) => Ok(Serial::Auto),
        Some(Some(serial)) => Ok(Serial::Given(u32_of(serial))),
    }
}

/// A serial number that differs from one microsecond to the next.
fn serial_from_clock<'a>(rt: &HostRuntime) -> Result<u32, CommandError<'a>> {
    match UNIX_EPOCH.elapsed(rt) {
        Ok(age) => Ok((age.as_micros() % TWO_TO_32) as u32),
        Err(error) => Err(CommandError::of_system(CLOCK, error)),
    }
}

/// A serial number that differs from those of the other processes of this machine that run now, if these began after
/// one another. The 16 high bits of a process ID are folded into the low ones.
fn serial_from_process(rt: &HostRuntime) -> u32 {
    let id = process::id(rt.process());
    id ^ (id >> 16)
}
