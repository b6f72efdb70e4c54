//! `enip check`: prints the device that a configuration describes.

use crate::data_sheet::print_text;
use crate::device_lines::print_device;
use clap::ArgMatches;
use config_file::ConfigFile;
use device_start::{ReportedAddress, listen_of, print_kept_values, warn_of_address};
use enip_common::{CommandError, OUTPUT, OsArg, parse_ip, print_argument_error};
use enip_config::{Configuration, EXAMPLE};
use enip_eds::profile_text;
use std::net::IpAddr;

/// `enip check`. Returns the exit status.
pub fn run_check<'a>(
    rt: &HostRuntime,
    args: &[OsArg],
    matches: &ArgMatches<'a>,
) -> Result<u8, CommandError<'a>> {
    if matches.get_flag("example") {
        print!(rt; "{EXAMPLE}").map_err(|error| CommandError::of_system(OUTPUT, error))?;
        return Ok(0);
    }
    let client = match parse_ip("from", matches.get_str("from")) {
        Ok(client) => client,
        Err(error) => return Ok(print_argument_error(rt, error)),
    };
    let config = ConfigFile::read(rt, args, matches)?;
    check_file(rt, args, matches, &config, client)
}

/// Prints the device that the configuration in a file describes. Returns the exit status.
fn check_file<'a>(
    rt: &HostRuntime,
    args: &[OsArg],
    matches: &ArgMatches<'a>,
    config: &ConfigFile<'a>,
    client: Option<IpAddr>,
) -> Result<u8, CommandError<'a>> {
    let configuration = config.configuration(rt.alloc())?;
    if matches.get_flag("profile") {
        return print_profile(rt, &configuration);
    }
    check_device(rt, args, matches, config, &configuration, client)
}

/// Prints what a conformance test looks for in the device of a configuration. Returns the exit status.
fn print_profile<'a>(
    rt: &HostRuntime,
    configuration: &Configuration,
) -> Result<u8, CommandError<'a>> {
    let text = profile_text(rt.alloc(), &configuration.objects, configuration.reset)?;
    print_text(rt, text.as_str())
}

/// Prints the device of a configuration, a warning if its address is not the one with which it is to be served, and what is
/// kept of it. Returns the exit status.
fn check_device<'a>(
    rt: &HostRuntime,
    args: &[OsArg],
    matches: &ArgMatches<'a>,
    config: &ConfigFile<'a>,
    configuration: &Configuration,
    client: Option<IpAddr>,
) -> Result<u8, CommandError<'a>> {
    print_device(rt.alloc(), configuration, client, rt.stdout()).map_err(|error| {
        CommandError::of_system(OUTPUT, error)
    })?;
    if let Some(address) = matches.get_str("address") {
        let reported = ReportedAddress {
            config: config.name(),
            listen: listen_of(configuration),
        };
        warn_of_address(rt, reported, address)?;
    }
    if let Some(file) = matches.get_str("keep") {
        print_kept_values(rt, args, config, file)?;
    }
    Ok(0)
}
