//! What follows for both ends, a client that crashes and a device with a ledger, over any router.
//!
//! The functions do nothing: each one's clause is the law.

ghost use Rattle.enip_reconnect.specs.Crashes.{crashes_law};

use cip_ledger::Target;

/// Whatever happens to a device and a client that crashes is what happens to both ends without crashes, by the same
/// messages: an event of the client is done, or it is lost. So each law of `commander_laws` holds with a
/// client that crashes: no command is executed twice, and an accepted reply is that of its one execution.
pub fn crashes_amount_to_losses<R: Target>()
    ensures { crashes_law R.after R.answer R.standing }
{}
