//! `enip serve`: the device that the arguments describe, and what observes it.

ghost use Rattle.std.specs.Prelude.{◌≡◌, IfOk};
ghost use Rattle.device_start.specs.Configured.{IsReordered, IsStartOf};

use crate::owner_start::{GuestStart, NoOwnerStart, OwnerStart};
use crate::service::{KeptService, Service};
use clap::ArgMatches;
use config_file::ConfigFile;
use device_log::{FrameLog, LogClock, LogStyle, TurnedAwayReport};
use device_sockets::Observer;
use enip_common::{CLOCK, CommandError, OsArg, print_argument_error};
use enip_config::Configuration;
use serve_options::{ServeOptions, served_start};
use std::time::Instant;

/// `enip serve`.
pub fn run_serve<'a>(
    rt: &HostRuntime,
    args: &[OsArg],
    matches: &ArgMatches<'a>,
) -> Result<u8, CommandError<'a>> {
    let options = match ServeOptions::from_matches(matches) {
        Ok(options) => options,
        Err(error) => return Ok(print_argument_error(rt, error)),
    };
    let config = ConfigFile::read(rt, args, matches)?;
    let style = match matches.get_str("log") {
        None => {
            let report = TurnedAwayReport::new(rt, rt.alloc());
            return serve_config(rt, args, &config, options, report);
        }
        Some("json") => LogStyle::Json,
        Some(_) => LogStyle::Text,
    };
    let start = Instant::now(rt).map_err(|error| CommandError::of_system(CLOCK, error))?;
    let clock = match matches.get_str("log-time") {
        Some("utc") => LogClock::Utc,
        _ => LogClock::Start,
    };
    let log = FrameLog::new(rt, rt.alloc(), start, style, clock);
    serve_config(rt, args, &config, options, &log)
}

/// Serves the device of a configuration, with its owner if it has one.
fn serve_config<'a, O: Observer + Drop>(
    rt: &HostRuntime,
    args: &[OsArg],
    config: &ConfigFile<'a>,
    options: ServeOptions<'a>,
    observer: O,
) -> Result<u8, CommandError<'a>> {
    let configuration = options.configuration(rt, config)?;
    match options.owner() {
        None => {
            let service = service(rt, config, configuration, options, NoOwnerStart, observer)?;
            serve(rt, args, config, service)
        }
        Some(owner) => {
            let owner = OwnerStart::read(rt, args, owner, &configuration)?;
            let service = service(rt, config, configuration, options, owner, observer)?;
            serve(rt, args, config, service)
        }
    }
}

/// The device of a configuration, to be served with its owner or nobody.
fn service<'a, O: Observer + Drop, P: Drop>(
    rt: &HostRuntime,
    config: &ConfigFile<'a>,
    configuration: Configuration,
    options: ServeOptions<'a>,
    guest: P,
    observer: O,
) -> Result<Service<'a, O, P>, CommandError<'a>>
    ensures access { IfOk result (λ s. s.access ≡ configuration.access) }
    ensures objects { IfOk result (λ s. IsReordered configuration.objects s.start.objects) }
    ensures rest { IfOk result (λ s. IsStartOf configuration s.start) }
    ensures guest { IfOk result (λ s. s.guest ≡ guest) }
{
    let (start, access) = served_start(rt, config, configuration, options)?;
    Ok(Service {
        options: options.with_reported(config.name(), start.listen),
        start,
        access,
        guest,
        observer,
    })
}

/// Starts a device, from what FILE of `--keep` has if there is such a file, and serves it.
fn serve<'a, O: Observer + Drop, P: GuestStart<O> + Drop>(
    rt: &HostRuntime,
    args: &[OsArg],
    config: &ConfigFile<'a>,
    service: Service<'a, O, P>,
) -> Result<u8, CommandError<'a>> {
    let Some(file) = service.options.keep() else {
        return service.run_unkept(rt, config);
    };
    match file
        .locked(rt, args)?
        .open_for(rt, KeptService { file, service })
    {
        Ok(status) => status,
        Err(fault) => Err(file.not_opened(fault)),
    }
}
