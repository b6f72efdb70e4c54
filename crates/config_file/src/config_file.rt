//! The file that CONFIG names, and why its configuration is refused.

ghost use Rattle.std.specs.Prelude.{◌≡◌};

use crate::owner::owner_need;
use clap::ArgMatches;
use config_refusal::{ConfigurationRefusal, LoadFault};
use enip_common::{
    CommandError, ConfigurationReason, Fault, NamedFile, NamedReason, OsArg, Reason,
};
use enip_config::{Configuration, ExplainedFault, Explanation};
use enip_faults::ProgramFault;
use std::alloc::Global;

/// The most bytes of a configuration: 1 MiB (ours). The largest device has some 100 KiB.
const MOST_OF_A_CONFIG: u64 = 1 << 20;

/// A file that has a configuration.
#[derive(Drop)]
pub struct ConfigFile<'a> {
    file: NamedFile<'a>,
}

impl<'a> ConfigFile<'a> {
    /// Reads the file that the argument CONFIG names. A long one is refused without reading all of it.
    pub fn read(
        rt: &HostRuntime,
        args: &[OsArg],
        matches: &ArgMatches<'a>,
    ) -> Result<ConfigFile<'a>, CommandError<'a>> {
        let name = matches.get_str("CONFIG").unwrap_or("");
        let file = NamedFile::read_front(rt, args, name, MOST_OF_A_CONFIG + 1)?;
        if file.bytes().len() as u64 <= MOST_OF_A_CONFIG {
            return Ok(ConfigFile { file });
        }
        Err(CommandError::new(
            Fault::Configuration(ConfigurationRefusal::NotToml),
            Reason::Configuration(file.name(), ConfigurationReason::TooLong),
        ))
    }

    /// The name as the argument gives it.
    pub fn name(&self) -> &'a str
        ensures { result ≡ self.now.file.name }
    {
        self.file.name()
    }

    /// The content of the file.
    pub fn bytes(&self) -> &[u8] {
        self.file.bytes()
    }

    /// The text of the configuration. One that is not UTF-8 is not TOML.
    pub fn text(&self, alloc: Global) -> Result<&str, CommandError<'a>> {
        match str::from_utf8(self.bytes()) {
            Ok(text) => Ok(text),
            Err(_) => {
                let fault = LoadFault::Refused(ConfigurationRefusal::NotToml);
                Err(self.refused(alloc, fault))
            }
        }
    }

    /// The configuration in the file.
    pub fn configuration(&self, alloc: Global) -> Result<Configuration, CommandError<'a>> {
        match Configuration::explained(alloc, self.bytes()) {
            Ok(configuration) => Ok(configuration),
            Err(fault) => Err(self.error_of(alloc, &fault)),
        }
    }

    /// The configuration in the file, if its device needs no owner.
    pub fn configuration_to_serve(&self, alloc: Global) -> Result<Configuration, CommandError<'a>> {
        let configuration = self.configuration(alloc)?;
        match owner_need(&configuration.objects.objects) {
            None => Ok(configuration),
            Some(need) => Err(CommandError::new(
                Fault::Configuration(need.refusal()),
                Reason::Configuration(self.name(), ConfigurationReason::NoOwner(need)),
            )),
        }
    }

    /// The error of a command whose configuration this file is.
    pub fn refused(&self, alloc: Global, fault: LoadFault) -> CommandError<'a> {
        if let LoadFault::Memory = fault {
            return CommandError::of_memory();
        }
        CommandError::new(Fault::from(fault), self.refusal(alloc))
    }

    /// The error of a command that refuses the configuration in the file.
    fn error_of(&self, alloc: Global, fault: &ExplainedFault) -> CommandError<'a> {
        let reason = match fault {
            ExplainedFault::Refused(explanation) => self.reason_of(alloc, explanation),
            ExplainedFault::Memory => return CommandError::of_memory(),
        };
        CommandError::new(Fault::from(fault.fault()), reason)
    }

    /// Why the configuration in the file is refused, and in which line.
    fn reason_of(&self, alloc: Global, explanation: &Explanation) -> Reason<'a> {
        match format!(in alloc; "{explanation}") {
            Ok(text) => Reason::Configuration(self.name(), ConfigurationReason::Check(text)),
            Err(_) => Reason::Memory,
        }
    }

    /// The same, of a configuration that was read elsewhere.
    fn refusal(&self, alloc: Global) -> Reason<'a> {
        match Configuration::explained(alloc, self.bytes()) {
            Err(ExplainedFault::Refused(explanation)) => self.reason_of(alloc, &explanation),
            Err(ExplainedFault::Memory) => Reason::Memory,
            Ok(_) => Reason::Named(self.name(), NamedReason::Failed),
        }
    }
}

/// The error of a run over a configuration and an input of lines. `stream_reason` is why a stream failed, if one did.
pub fn error_of_run<'a>(
    alloc: Global,
    fault: Fault,
    config: &ConfigFile<'a>,
    input_name: &'a str,
    stream_reason: Option<Reason<'a>>,
) -> CommandError<'a> {
    let reason = match fault {
        Fault::Configuration(_) => config.refusal(alloc),
        Fault::Setup => { Reason::Configuration(config.name(), ConfigurationReason::NoCapacity) }
        Fault::Run(ProgramFault::Line(number, why)) => Reason::Line(input_name, number, why),
        Fault::Run(ProgramFault::Memory) => Reason::Memory,
        _ => stream_reason.unwrap_or(Reason::Named(input_name, NamedReason::Failed)),
    };
    CommandError::new(fault, reason)
}
