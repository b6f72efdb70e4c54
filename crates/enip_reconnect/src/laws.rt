//! What follows for an adapter and an originator over TCP connections, over every list of events.
//!
//! The functions do nothing: each one's clause is the law. A list of events says which commands are given, when TCP
//! connections begin and break, when frames are sent, and how many bytes arrive where and when. Commands are unconnected
//! requests. The device's life begins with an empty ledger, and lasts; it has no queue and no Reset, and writes nothing
//! itself. The originator is of no group.

ghost use Rattle.enip_reconnect.specs.Laws.{messages_law, worlds_law, journal_law, rising_law, given_law};
ghost use Rattle.enip_reconnect.specs.Laws.{accepted_law, accepted_once_law, never_again_law};
ghost use Rattle.enip_reconnect.specs.Retry.{retry_law};

/// Whatever happens in bytes and frames is what happens in whole messages between a commander and a device, over which
/// `commander_laws` states laws: the same requests reach the device in the same order, the same commands are given, and
/// the same replies are accepted. The laws below say what follows.
pub fn runs_amount_to_messages()
    ensures { messages_law }
{}

/// The whole adapter and the whole client show what the numbered world shows: the machine, the originator, and each
/// accepted reply with its number.
pub fn worlds_agree()
    ensures { worlds_law }
{}

/// What the device executes for the originator, and its replies, are what the log of the numbered world says.
pub fn log_is_the_journal()
    ensures { journal_law }
{}

/// No command is executed twice, and commands are executed in the order in which they were given.
pub fn executed_once()
    ensures { rising_law }
{}

/// Each number is given to one command, and nothing else is executed with it.
pub fn executed_as_given()
    ensures { given_law }
{}

/// An accepted reply to a number is that of its execution, and it was executed exactly once.
pub fn accepted_is_executed_once()
    ensures { accepted_law }
{}

/// At most one reply to each number is accepted.
pub fn accepted_once()
    ensures { accepted_once_law }
{}

/// Once a reply to a number was accepted, only greater numbers are executed, however the run goes on. So a command that
/// was abandoned before was executed at most once, and will not be executed any more. (The device has no queue.)
pub fn never_again()
    ensures { never_again_law }
{}

/// Whatever happened before, one more try on a TCP connection that carries on is enough: the pending command is done,
/// and its reply is accepted. The adapter must accept the connection, the commander must have the device's life, and
/// the ledger must have a slot for the originator.
pub fn retry_is_enough()
    ensures { retry_law }
{}
