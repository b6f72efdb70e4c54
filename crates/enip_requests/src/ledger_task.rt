//! What `enip ledger` does: it lists the slots, or frees one.

use cip_names::parse_number;
use clap::ArgMatches;
use enip_common::{ArgumentError, NumberArgument, u32_of};

/// The digits of an originator in a command file.
const ORIGINATOR_DIGITS: usize = 16;

/// What `enip ledger` does.
#[derive(Clone, Copy)]
pub(crate) enum LedgerTask<'a> {
    /// It lists the slots.
    List,
    /// It frees the slot of the originator of a command file.
    ForgetFile(&'a str),
    /// It frees the slot of an originator whose last command has this number.
    Forget(u64, u32),
}

impl<'a> LedgerTask<'a> {
    /// The task in the arguments.
    pub(crate) fn from_matches(
        matches: &ArgMatches<'a>,
    ) -> Result<LedgerTask<'a>, ArgumentError<'a>> {
        let Some(forgotten) = matches.get_str("forget") else {
            return Ok(LedgerTask::List);
        };
        let Some(number) = NumberArgument::COMMAND_NUMBER.value(matches)? else {
            return Ok(LedgerTask::ForgetFile(forgotten));
        };
        match originator_of(forgotten) {
            Some(originator) => Ok(LedgerTask::Forget(originator, u32_of(number))),
            None => Err(ArgumentError::Originator(forgotten)),
        }
    }
}

/// The originator that a text names: 16 hexadecimal digits, as in a command file, or `0x` and up to 16.
fn originator_of(text: &str) -> Option<u64> {
    if text.starts_with("0x") {
        return parse_number(text, 0, u64::MAX);
    }
    let digits = text.as_bytes();
    if digits.len() != ORIGINATOR_DIGITS || !digits.iter().all(|digit| digit.is_ascii_hexdigit()) {
        return None;
    }
    u64::from_str_radix(text, 16).ok()
}
