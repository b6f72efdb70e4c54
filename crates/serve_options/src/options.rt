//! The arguments of `enip serve`.

ghost use Rattle.std.specs.Prelude.{◌≡◌, ◌<◌, ◌*◌, ◌-◌, ◌^◌, ◌↔◌, IfSome, IfNone, IsSomeAnd, IsTrue, true};

use crate::idle::IdleOption;
use crate::owner_options::OwnerOptions;
use clap::ArgMatches;
use config_file::ConfigFile;
use device_start::{KeptFile, ReportedAddress, StartWishes, are_attributes, fill_from_system};
use enip_adapter::Listen;
use enip_common::{ArgumentError, CommandError, NumberArgument};
use enip_config::Configuration;
use std::net::SocketAddr;

/// How a device is served.
#[derive(Clone, Copy)]
pub struct ServeOptions<'a> {
    /// Where it listens.
    address: &'a str,
    /// Whether it answers datagrams.
    discovery: bool,
    /// After how many connections to return.
    count: u64,
    /// How long a client may be silent.
    idle: IdleOption,
    /// Where its state is kept.
    keep: Option<KeptFile<'a>>,
    /// What is wanted of what is kept.
    wishes: StartWishes<'a>,
    /// Where it listens for its owner, and who that may be.
    owner: Option<OwnerOptions<'a>>,
    /// The address at which it listens for its owner.
    owner_at: Option<SocketAddr>,
    /// Where discovery reports it.
    reported: Option<ReportedAddress<'a>>,
}

impl<'a> ServeOptions<'a> {
    /// The options in the arguments.
    ///
    /// # Errors
    ///
    /// If one of them has a value that it cannot have.
    pub fn from_matches(matches: &ArgMatches<'a>) -> Result<ServeOptions<'a>, ArgumentError<'a>> {
        let idle = IdleOption::from_matches(matches)?;
        let accepts_older = matches.get_flag("accept-older");
        let owner = OwnerOptions::from_matches(matches)?;
        let wishes = wishes_from(matches)?;
        Ok(ServeOptions {
            address: matches.get_str("ADDRESS").unwrap_or(""),
            discovery: matches.get_flag("discovery"),
            // Without --count there is no end: more connections than there can be.
            count: NumberArgument::CONNECTIONS
                .value(matches)?
                .unwrap_or(u64::MAX),
            idle,
            keep: match matches.get_str("keep") {
                Some(name) => Some(KeptFile::new(name, accepts_older)),
                None => None,
            },
            wishes,
            owner,
            owner_at: None,
            reported: None,
        })
    }

    /// The argument that says where the device listens.
    pub(crate) fn address(self) -> &'a str
        ensures { result ≡ self.entry.address }
    {
        self.address
    }

    /// Whether the device answers datagrams.
    pub(crate) fn discovery(self) -> bool
        ensures { result ≡ self.entry.discovery }
    {
        self.discovery
    }

    /// After how many connections the device is served no longer.
    pub fn count(self) -> u64
        ensures { result ≡ self.entry.count }
    {
        self.count
    }

    /// How long a client may be silent, in microseconds, if the device has no TCP/IP Interface.
    pub fn idle_timeout(self) -> u64
        ensures by_default { IfNone self.entry.idle.seconds (result ≡ 120_000_000) }
        ensures given { IfSome self.entry.idle.seconds (λ s. 0 < s → result ≡ s * 1_000_000) }
        ensures no_limit { IfSome self.entry.idle.seconds (λ s. s ≡ 0 → result ≡ 2 ^ 64 - 1) }
    {
        self.idle.timeout()
    }

    /// Where the state of the device is kept.
    pub fn keep(self) -> Option<KeptFile<'a>>
        ensures { result ≡ self.entry.keep }
    {
        self.keep
    }

    /// What is wanted of what is kept.
    pub fn wishes(self) -> StartWishes<'a>
        ensures { result ≡ self.entry.wishes }
    {
        self.wishes
    }

    /// Where the device listens for its owner, and who that may be.
    pub fn owner(self) -> Option<OwnerOptions<'a>>
        ensures { result ≡ self.entry.owner }
    {
        self.owner
    }

    /// The address at which the device listens for its owner.
    pub(crate) fn owner_at(self) -> Option<SocketAddr>
        ensures { result ≡ self.entry.owner_at }
    {
        self.owner_at
    }

    /// Where discovery reports the device.
    pub(crate) fn reported(self) -> Option<ReportedAddress<'a>>
        ensures { result ≡ self.entry.reported }
    {
        self.reported
    }

    /// Whether a state is taken that is damaged, or older than it was: its ledger then begins another life.
    pub(crate) fn begins_life(self) -> bool
        ensures { IsTrue result ↔ IsSomeAnd self.entry.keep (λ f. IsTrue f.accepts_older) }
    {
        match self.keep {
            Some(file) => file.accepts_older(),
            None => false,
        }
    }

    /// The configuration of a file, with the seconds of `--idle` in it, and with the values that it leaves to interfaces of
    /// this computer. Without an owner, no object may ask one while a client waits.
    ///
    /// # Errors
    ///
    /// If the text of the file is refused, an interface cannot be read, or memory is refused.
    pub fn configuration(
        self,
        rt: &HostRuntime,
        config: &ConfigFile<'a>,
    ) -> Result<Configuration, CommandError<'a>> {
        let mut configuration = match self.owner {
            Some(_) => config.configuration(rt.alloc())?,
            None => config.configuration_to_serve(rt.alloc())?,
        };
        self.idle.set_in(&mut configuration.objects.objects);
        fill_from_system(rt, config, &mut configuration)?;
        Ok(configuration)
    }

    /// The same, with what a configuration has for discovery.
    pub fn with_reported(self, config: &'a str, listen: Listen) -> ServeOptions<'a> {
        ServeOptions {
            reported: Some(ReportedAddress { config, listen }),
            ..self
        }
    }

    /// The same, with the address at which the device listens for its owner.
    pub fn with_owner_at(self, address: SocketAddr) -> ServeOptions<'a> {
        ServeOptions {
            owner_at: Some(address),
            ..self
        }
    }
}

/// What the arguments want of what is kept.
///
/// # Errors
///
/// If `--reset-value` names no attributes.
fn wishes_from<'a>(matches: &ArgMatches<'a>) -> Result<StartWishes<'a>, ArgumentError<'a>> {
    let resets = matches.get_str("reset-value");
    match resets {
        Some(text) if !are_attributes(text) => Err(ArgumentError::Attributes(text)),
        _ => Ok(StartWishes {
            drops_commands: matches.get_flag("drop-commands"),
            accepts_config: matches.get_flag("accept-config"),
            resets,
        }),
    }
}
