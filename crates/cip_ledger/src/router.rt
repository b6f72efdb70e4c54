//! A router with a ledger before it.
ghost use Rattle.std.specs.Prelude.{◌≡◌, ◌≤◌, length, [], ◌∷◌, option_map, Some, None, if◌then◌else◌};
ghost use Rattle.cip_ledger.specs.Executing.{command_of, executed_by};
ghost use Rattle.cip_ledger.specs.Reaching.{listed, embedded_by};
ghost use Rattle.cip_ledger.specs.Runs.{reached};
ghost use Rattle.cip_ledger.specs.Standings.{new_at_router};
ghost use Rattle.cip_ledger.specs.Turn.{turn, turn_of};
ghost use Rattle.cip_ledger.specs.Views.{command_in};

use crate::doubt::DoubtfulCommand;
use crate::ledger::{Ledger, embedded_standing, execute_by};
use crate::request::{Command, LedgerRequest, is_barred, may_be_to_ledger};
use crate::slot::KEPT_LIMIT;
use crate::target::{Standing, Target};
use cip_objects::{REPLY_LIMIT, ReplyBuf, Router};

/// A router with a ledger before it, if it has one: requests to the ledger's class are the ledger's, and every other
/// request is the router's. Without a ledger every request is the router's.
pub struct LedgerRouter<R> {
    /// The ledger, if there is one.
    pub ledger: Option<Ledger>,
    /// The router behind it.
    pub router: R,
}

// Written out, so that each exit of a function that owns one calls it, and has no drop of every part.
impl<R: Drop> Drop for LedgerRouter<R> {
    fn drop(self) {
        let LedgerRouter {
            ledger: _,
            router: _,
        } = self;
    }
}

impl<R: Target> LedgerRouter<R> {
    /// The request that would reach the router if a request were executed now, and the most bytes of its reply. `None`
    /// if none would.
    ///
    /// A request that is not to the ledger reaches the router as it is, and a command that would be executed by its
    /// embedded request, unless that is barred. A command that the router queues is one of them.
    ///
    /// ```
    /// if let Some((reaching, max_size)) = device.reaching(request, 504) {
    ///     // `device.execute(request, 504, &mut reply)` would execute `reaching` at `device.router`
    /// }
    /// ```
    pub fn reaching<'a>(&self, request: &'a [u8], max_size: usize) -> Option<(&'a [u8], usize)>
        ensures { listed (option_map (λ passed. (passed.1, passed.0.now)) result)
            ≡ reached R.after R.answer R.standing self.now ((max_size, request.now) ∷ []) }
    {
        let Some(ledger) = &self.ledger else {
            return Some((request, max_size));
        };
        let passes = !may_be_to_ledger(request);
        if passes {
            return Some((request, max_size));
        }
        let Some(own) = LedgerRequest::read(request) else {
            return Some((request, max_size));
        };
        let command = ledger.new_command(own, max_size)?;
        if !passes_on(&self.router, command) {
            return None;
        }
        Some((command.request, KEPT_LIMIT))
    }

    /// The command that would be executed with a final reply if a request were executed now. `None` if the request is
    /// not Do_Once, or if its command would be refused, put into the queue of the router, or answered by what its slot
    /// keeps.
    ///
    /// ```
    /// let command = device.executing(request, 504);
    /// let index = command.and_then(|c| ledger.doubt_index(c)); // the slot that the command will have
    /// ```
    pub fn executing(&self, request: &[u8], max_size: usize) -> Option<DoubtfulCommand>
        ensures { result ≡ command_of R.standing self.now.ledger self.now.router (max_size, request.now) }
    {
        let Some(ledger) = &self.ledger else {
            return None;
        };
        let passes = !may_be_to_ledger(request);
        if passes {
            return None;
        }
        let Some(own) = LedgerRequest::read(request) else {
            return None;
        };
        let command = ledger.new_command(own, max_size)?;
        executed_by(&self.router, command)
    }
}

/// Whether the embedded request of a new command would reach the router now.
fn passes_on<R: Target>(router: &R, command: Command<'_>) -> bool
    requires { 2 ≤ length command.request.now }
    ensures { (if result then Some command.entry.request.now else None)
        ≡ embedded_by (new_at_router R.standing router.now (command_in command.entry)) }
{
    if is_barred(command.request) {
        return false;
    }
    match router.standing(command.request) {
        Standing::Final | Standing::Pending(_) => true,
        Standing::Refused => false,
    }
}

/// A new command, if it would be executed with a final reply now.
fn executed_by<R: Target>(router: &R, command: Command<'_>) -> Option<DoubtfulCommand>
    requires { 2 ≤ length command.request.now }
    ensures { result ≡ executed_by (new_at_router R.standing router.now (command_in command.entry)) }
{
    match embedded_standing(router, command.request) {
        Standing::Final => Some(DoubtfulCommand {
            originator: command.originator,
            number: command.number,
        }),
        Standing::Pending(_) | Standing::Refused => None,
    }
}

impl<R: Target> Router for LedgerRouter<R> {
    ghost use Rattle.std.specs.Prelude.{ℕ, List};
    ghost use Rattle.cip_ledger.specs.TooLarge.{turn-too_large};

    ghost after = { λ node max_size request.
        record {
          ledger = (turn R.after R.answer R.standing node.ledger node.router max_size request).ledger;
          router = (turn R.after R.answer R.standing node.ledger node.router max_size request).router;
        } };

    ghost answer = { λ node max_size request.
        (turn R.after R.answer R.standing node.ledger node.router max_size request).answer };

    /// The turn of the definition `turn`. Takes no memory.
    #[inline(always)]
    fn execute(&mut self, request: &[u8], max_size: usize, reply: &mut ReplyBuf) {
        execute(&mut self.ledger, &mut self.router, request, max_size, reply);
    }

    ghost too_large = { λ node max_size request max_size_from status.
        turn-too_large R.after R.answer R.standing R.too_large
        (λ ledger router. record { ledger = ledger; router = router })
        node.ledger node.router max_size request max_size_from status };
}

/// Executes a request by the ledger, if there is one and the request may be to its class, else by the router.
#[inline(always)]
fn execute<R: Target>(
    ledger: &mut Option<Ledger>,
    router: &mut R,
    request: &[u8],
    max_size: usize,
    reply: &mut ReplyBuf,
)
    requires request { 2 ≤ length request.now }
    requires max_size_from { 8 ≤ max_size }
    requires max_size_to { max_size ≤ REPLY_LIMIT }
    ensures rule { turn_of ledger.new router.new reply.new.items
        ≡ turn R.after R.answer R.standing ledger.old router.old max_size request.now }
    ensures fits { length reply.new.items ≤ max_size }
{
    if !may_be_to_ledger(request) {
        router.execute(request, max_size, reply);
        return;
    }
    match ledger {
        Some(ledger) => execute_by(router, request, max_size, reply, ledger),
        None => router.execute(request, max_size, reply),
    }
}
