//! The commands that send one request: `get`, `set`, `call`, `identity`, `services` and `discover`; and `ledger`.

use crate::found_devices::DeviceForm;
use crate::ledger::run_ledger;
use crate::ledger_task::LedgerTask;
use crate::listing::{run_discovery, run_list};
use crate::once::run_once;
use crate::once_options::OnceOptions;
use crate::polling::{PollOptions, run_polling};
use crate::request::run_request;
use clap::ArgMatches;
use enip_client::ListCommand;
use enip_common::{ArgumentError, CommandError, OsArg, Timeout, print_argument_error, service_of};
use remote_device::{Device, Request, service_of_get, service_of_set};

/// What is requested without a session.
#[derive(Clone, Copy)]
pub enum Query {
    /// A list of one device.
    List(ListCommand),
    /// The identities of all devices of a network.
    Discovery,
}

/// `enip identity`, `enip services` and `enip discover`.
pub fn run_query<'a>(
    rt: &HostRuntime,
    query: Query,
    matches: &ArgMatches<'a>,
) -> Result<u8, CommandError<'a>> {
    let timeout = match Timeout::from_matches(rt, matches) {
        Ok(timeout) => timeout,
        Err(error) => return Ok(print_argument_error(rt, error)),
    };
    let is_json = matches.get_flag("json");
    let address = matches.get_str("ADDRESS").unwrap_or("");
    match query {
        Query::List(command) => run_list(rt, command, is_json, address, timeout),
        Query::Discovery => {
            let is_verbose = matches.get_flag("verbose");
            let form = DeviceForm {
                is_json,
                is_verbose,
            };
            run_discovery(rt, form, address, timeout)
        }
    }
}

/// `enip get`.
pub fn run_get<'a>(
    rt: &HostRuntime,
    args: &[OsArg],
    matches: &ArgMatches<'a>,
) -> Result<u8, CommandError<'a>> {
    run_client(rt, args, Some(service_of_get(matches)), matches)
}

/// `enip set`.
pub fn run_set<'a>(
    rt: &HostRuntime,
    args: &[OsArg],
    matches: &ArgMatches<'a>,
) -> Result<u8, CommandError<'a>> {
    run_client(rt, args, Some(service_of_set(matches)), matches)
}

/// `enip call`.
pub fn run_call<'a>(
    rt: &HostRuntime,
    args: &[OsArg],
    matches: &ArgMatches<'a>,
) -> Result<u8, CommandError<'a>> {
    match service_of(matches) {
        Ok(service) => run_client(rt, args, service, matches),
        Err(error) => Ok(print_argument_error(rt, error)),
    }
}

/// `enip ledger`.
pub fn run_slots<'a>(
    rt: &HostRuntime,
    args: &[OsArg],
    matches: &ArgMatches<'a>,
) -> Result<u8, CommandError<'a>> {
    match task_of(rt, matches) {
        Ok((device, task)) => run_ledger(rt, args, device, task),
        Err(error) => Ok(print_argument_error(rt, error)),
    }
}

/// The device whose ledger is asked, and what is done there.
fn task_of<'a>(
    rt: &HostRuntime,
    matches: &ArgMatches<'a>,
) -> Result<(Device<'a>, LedgerTask<'a>), ArgumentError<'a>> {
    let device = Device::of_command(rt, matches)?;
    Ok((device, LedgerTask::from_matches(matches)?))
}

/// `enip get`, `enip set` and `enip call`: sends a request for a service once, again and again, or until it is executed
/// once.
fn run_client<'a>(
    rt: &HostRuntime,
    args: &[OsArg],
    service: Option<u8>,
    matches: &ArgMatches<'a>,
) -> Result<u8, CommandError<'a>> {
    let once = match OnceOptions::from_matches(matches) {
        Ok(once) => once,
        Err(error) => return Ok(print_argument_error(rt, error)),
    };
    if let Some(options) = once {
        return match command_of(rt, service, matches) {
            Ok((device, request)) => run_once(rt, args, device, request, options),
            Err(error) => Ok(print_argument_error(rt, error)),
        };
    }
    match request_of(rt, service, matches) {
        Ok((request, None)) => run_request(rt, request),
        Ok((request, Some(options))) => run_polling(rt, request, options),
        Err(error) => Ok(print_argument_error(rt, error)),
    }
}

/// The request for a service that the arguments describe, and how often it is sent if more than once.
fn request_of<'a, 'm>(
    rt: &HostRuntime,
    service: Option<u8>,
    matches: &'m ArgMatches<'a>,
) -> Result<(Request<'a, 'm>, Option<PollOptions>), ArgumentError<'a>> {
    let timeout = Timeout::from_matches(rt, matches)?;
    let options = PollOptions::from_matches(matches)?;
    Ok((Request::from_matches(service, matches, timeout)?, options))
}

/// The device and the request that the arguments describe. No request if all its arguments are left out.
fn command_of<'a, 'm>(
    rt: &HostRuntime,
    service: Option<u8>,
    matches: &'m ArgMatches<'a>,
) -> Result<(Device<'a>, Option<Request<'a, 'm>>), ArgumentError<'a>> {
    let is_left_out = !matches.contains_id("SERVICE") && !matches.contains_id("CLASS");
    if is_left_out {
        return Ok((Device::of_command(rt, matches)?, None));
    }
    let timeout = Timeout::from_matches(rt, matches)?;
    let request = Request::from_matches(service, matches, timeout)?;
    Ok((request.device, Some(request)))
}
