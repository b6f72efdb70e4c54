//! The options of `--once`.

use clap::ArgMatches;
use enip_commands::{PendingChoice, is_command_id};
use enip_common::{ArgumentError, NumberArgument};

/// How many tries a request has, unless `--tries` says otherwise (ours).
const DEFAULT_TRIES: u64 = 3;

/// How many commands with an id the file keeps, unless `--ids` says otherwise (ours).
const DEFAULT_IDS: u64 = 64;

/// The options of a command that is executed once.
#[derive(Clone, Copy)]
pub(crate) struct OnceOptions<'a> {
    /// The argument that names the command file.
    pub(crate) file: &'a str,
    /// How many tries a request has. 0 is no limit.
    pub(crate) tries: u64,
    /// What becomes of a pending command.
    pub(crate) choice: PendingChoice,
    /// Whether the pending command is given up without asking the device.
    pub(crate) is_forced: bool,
    /// The id of the command.
    pub(crate) id: Option<&'a str>,
    /// How many commands with an id the file keeps.
    pub(crate) most_ids: u64,
}

impl<'a> OnceOptions<'a> {
    /// The options without which a command file is only read.
    pub(crate) fn of_file(file: &'a str) -> OnceOptions<'a> {
        OnceOptions {
            file,
            tries: 1,
            choice: PendingChoice::Same,
            is_forced: false,
            id: None,
            most_ids: DEFAULT_IDS,
        }
    }

    /// The options in the arguments. `None` without `--once`.
    pub(crate) fn from_matches(
        matches: &ArgMatches<'a>,
    ) -> Result<Option<OnceOptions<'a>>, ArgumentError<'a>> {
        let Some(file) = matches.get_str("once") else {
            return Ok(None);
        };
        let choice = if matches.get_flag("pending") {
            PendingChoice::Send
        } else if matches.get_flag("abandon") {
            PendingChoice::Abandon
        } else {
            PendingChoice::Same
        };
        Ok(Some(OnceOptions {
            file,
            tries: NumberArgument::TRIES
                .value(matches)?
                .unwrap_or(DEFAULT_TRIES),
            choice,
            is_forced: matches.get_flag("force"),
            id: id_of(matches)?,
            most_ids: NumberArgument::IDS.value(matches)?.unwrap_or(DEFAULT_IDS),
        }))
    }
}

/// The value of `--id`, if it is given.
fn id_of<'a>(matches: &ArgMatches<'a>) -> Result<Option<&'a str>, ArgumentError<'a>> {
    match matches.get_str("id") {
        Some(id) if !is_command_id(id.as_bytes()) => Err(ArgumentError::Id(id)),
        id => Ok(id),
    }
}
