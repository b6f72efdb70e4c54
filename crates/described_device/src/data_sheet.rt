//! `enip eds`: prints the electronic data sheet of the device that a configuration describes.

use cip_values::Date;
use clap::ArgMatches;
use config_file::ConfigFile;
use enip_common::{
    ArgumentError, CLOCK, CommandError, NamedReason, OUTPUT, OsArg, Reason, option_file_name,
    print_argument_error, read_option_file,
};
use enip_eds::{EdsSource, ICON_LIMIT, Icon, date_at, date_in, eds_text, is_icon};
use std::io::Write;
use std::time::UNIX_EPOCH;

/// `enip eds`. Returns the exit status.
pub fn run_eds<'a>(
    rt: &HostRuntime,
    args: &[OsArg],
    matches: &ArgMatches<'a>,
) -> Result<u8, CommandError<'a>> {
    let date = match matches.get_str("date") {
        Some(text) => match date_in(text.as_bytes()) {
            Some(date) => date,
            None => return Ok(print_argument_error(rt, ArgumentError::Date(text))),
        },
        None => today(rt)?,
    };
    let config = ConfigFile::read(rt, args, matches)?;
    let Some(file) = matches.get_str("icon") else {
        return print_eds(rt, &config, date, None);
    };
    let bytes = match read_option_file(rt.alloc(), args, "--icon", file, ICON_LIMIT as u64 + 1) {
        Ok(bytes) => bytes,
        Err(error) => return Err(CommandError::of_system(file, error)),
    };
    if !is_icon(&bytes) {
        return Ok(print_argument_error(rt, ArgumentError::Icon(file)));
    }
    let name = base_name(option_file_name(args, "--icon", file));
    let icon = Icon {
        name,
        bytes: &bytes,
    };
    print_eds(rt, &config, date, Some(icon))
}

/// Today's date in UTC.
fn today<'a>(rt: &HostRuntime) -> Result<Date, CommandError<'a>> {
    let time = match UNIX_EPOCH.elapsed(rt) {
        Ok(time) => time,
        Err(error) => return Err(CommandError::of_system(CLOCK, error)),
    };
    match date_at(time.as_secs()) {
        Some(date) => Ok(date),
        None => Err(CommandError::of_reason(Reason::Named(CLOCK, NamedReason::Failed))),
    }
}

/// The name of a file without its folders.
fn base_name(name: &[u8]) -> &[u8] {
    match name.iter().rposition(|byte| *byte == b'/') {
        Some(index) => &name[index + 1..],
        None => name,
    }
}

/// Prints the EDS of the device that the configuration in a file describes. Returns the exit status.
fn print_eds<'a>(
    rt: &HostRuntime,
    config: &ConfigFile<'a>,
    date: Date,
    icon: Option<Icon<'_>>,
) -> Result<u8, CommandError<'a>> {
    let configuration = config.configuration(rt.alloc())?;
    let source = EdsSource {
        configuration: &configuration,
        date,
        icon,
    };
    let text = eds_text(rt.alloc(), &source)?;
    print_text(rt, text.as_str())
}

/// Prints a text on standard output. Returns the exit status.
pub(crate) fn print_text<'a>(rt: &HostRuntime, text: &str) -> Result<u8, CommandError<'a>> {
    let mut output = rt.stdout();
    match output.write_all(text.as_bytes()) {
        Ok(()) => Ok(0),
        Err(error) => Err(CommandError::of_system(OUTPUT, error)),
    }
}
