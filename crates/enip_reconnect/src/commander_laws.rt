//! What follows for both ends, a commander and a device with a ledger, over every list of events and any router.
//!
//! The functions do nothing: each one's clause is the law. Connections break and are made anew at any time, so messages
//! and answers arrive in any order, any number of times or never. The device's life begins with an empty ledger, and
//! lasts: over several lives, `only_in_its_life` of `cip_ledger` holds. Where the worlds are compared, the router
//! executes each command at once (`StaysFinal`), as one without a queue does.

ghost use Rattle.enip_reconnect.specs.CommanderLaws.{worlds_law, rising_law, given_law, accepted_law, accepted_once_law};
ghost use Rattle.enip_reconnect.specs.CommanderLaws.{never_again_law, device_law, journal_law};

use cip_ledger::Target;

/// Both ends show what the numbered world shows: the machine, the originator, each answer that is sent back, byte for
/// byte, and each accepted reply with its number.
pub fn worlds_agree<R: Target>()
    ensures { worlds_law R.after R.answer R.standing }
{}

/// No command is executed twice, and commands are executed in the order in which they were given.
pub fn numbers_rise<R: Target>()
    ensures { rising_law R.after R.answer R.standing }
{}

/// Each number is given to one command, and nothing else is executed with it.
pub fn executed_as_given<R: Target>()
    ensures { given_law R.after R.answer R.standing }
{}

/// An accepted reply to a number is that of its execution, and it was executed exactly once.
pub fn accepted_is_executed_once<R: Target>()
    ensures { accepted_law R.after R.answer R.standing }
{}

/// At most one reply to each number is accepted.
pub fn accepted_once<R: Target>()
    ensures { accepted_once_law R.after R.answer R.standing }
{}

/// Once a reply to a number was accepted, only greater numbers are executed. So a command that was abandoned before it
/// was executed at most once, and never will be again.
pub fn never_again<R: Target>()
    ensures { never_again_law R.after R.answer R.standing }
{}

/// The device is a run of the requests that reached it, in order. So the laws of `cip_ledger` hold of it.
pub fn device_is_a_run<R: Target>()
    ensures { device_law R.after R.answer R.standing }
{}

/// What the device executes for the originator, and its replies, are what the log of the numbered world says.
pub fn log_is_the_journal<R: Target>()
    ensures { journal_law R.after R.answer R.standing }
{}
