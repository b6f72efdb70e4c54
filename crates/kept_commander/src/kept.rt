//! A commander that keeps each command before its message leaves.
ghost use Rattle.std.specs.Prelude.{◌≡◌, ◌⊎◌, ◌≤◌, true, false, Some, None, IsTrue, IfOk, IfErr, IfSome, OnOk, OnErr};
ghost use Rattle.std.specs.Prelude.{is_some, length};
ghost use Rattle.std.specs.Option.{option_copied};
ghost use Rattle.cip_commander.specs.Outcome.{outcome_in};
ghost use Rattle.cip_commander.specs.CommanderRule.{CommanderState, command_refusal, pending_message};
ghost use Rattle.cip_commander.specs.CommanderRule.{outcome_of, after_reply, abandoned};
ghost use Rattle.kept_commander.specs.Kept.{HasFailed, given};
ghost use Rattle.kept_commander.specs.Calls.{IsKept, IsReady, IsCause, IsLeftBy, handed_out};
ghost use Rattle.kept_commander.specs.declared.fault.KeptCommandError.TheVariants.{Storage};

use crate::{CommandKeeper, KeptCommandError, RestartableKeeper};
use cip_commander::{CommandOutcome, CommandRefused, Commander};

/// A commander, and the keeper that has it over a crash.
///
/// It hands out a message only when the command is kept. If the storage fails, it hands out nothing and takes no
/// command until the next start.
#[derive(Drop)]
pub struct KeptCommander<K: CommandKeeper + Drop> {
    commander: Commander,
    keeper: K,
    /// Whether there was no failure since the last start.
    is_serving: bool,
}

impl<K: CommandKeeper + Drop> KeptCommander<K> {
    /// Loads the commander that is kept. A pending command is pending again, with the same message.
    ///
    /// # Errors
    ///
    /// `Storage`.
    pub fn start(mut keeper: K) -> Result<KeptCommander<K>, KeptCommandError>
        requires { K.doubt keeper ≡ 0 → K.is_up keeper }
        ensures ready { IfOk result (IsReady K.doubt K.is_up K.kept) }
        ensures serving { IfOk result (λ k. IsTrue k.is_serving) }
        ensures loaded { IfOk result (λ k. K.doubt k.keeper ≡ 0 → k.commander ≡ K.kept keeper) }
        ensures cause { IfErr result (λ e. (e ≡ Storage) × ((failed : K) × (K.doubt failed ≡ 0
            → HasFailed (K.faults keeper) (K.faults failed)))) }
        ensures doubt { IfOk result (λ k. K.doubt keeper ≤ K.doubt k.keeper) }
    {
        let commander = keeper.load()?;
        Ok(KeptCommander {
            commander,
            keeper,
            is_serving: true,
        })
    }

    /// Keeps a first commander, in place of anything that is kept.
    ///
    /// # Errors
    ///
    /// `Storage`.
    pub fn create(mut keeper: K, commander: Commander) -> Result<KeptCommander<K>, KeptCommandError>
        requires { K.doubt keeper ≡ 0 → K.is_up keeper }
        ensures ready { IfOk result (IsReady K.doubt K.is_up K.kept) }
        ensures serving { IfOk result (λ k. IsTrue k.is_serving) }
        ensures created { IfOk result (λ k. k.commander ≡ commander) }
        ensures cause { IfErr result (λ e. (e ≡ Storage) × ((failed : K) × (K.doubt failed ≡ 0
            → HasFailed (K.faults keeper) (K.faults failed)))) }
        ensures doubt { IfOk result (λ k. K.doubt keeper ≤ K.doubt k.keeper) }
    {
        keeper.replace(&commander)?;
        Ok(KeptCommander {
            commander,
            keeper,
            is_serving: true,
        })
    }

    /// The commander. It is the one that is kept, as long as no call has failed.
    pub fn commander(&self) -> &Commander
        ensures { result.now ≡ self.now.commander }
    {
        &self.commander
    }

    /// Whether there was no failure since the last start.
    pub fn is_serving(&self) -> bool
        ensures { result ≡ self.now.is_serving }
    {
        self.is_serving
    }

    /// The message of the pending command, to be sent, or sent again: the same bytes each time, over all crashes.
    ///
    /// `None` if no command is pending, or if an earlier call failed.
    pub fn message(&self) -> Option<&[u8]>
        ensures { option_copied result ≡ handed_out self.now.is_serving self.now.commander }
    {
        if !self.is_serving {
            return None;
        }
        self.commander.pending()
    }

    /// Takes a command with the next number, for the device in this life, and keeps it. Then `message` lends what is to
    /// be sent.
    ///
    /// # Errors
    ///
    /// `Stopped`. `Refused` with the first of the commander's reasons. `Storage`: then a start may find the command
    /// pending or not; its message has not left.
    pub fn give(&mut self, life: u64, request: &[u8]) -> Result<(), KeptCommandError>
        requires { IsReady K.doubt K.is_up K.kept self.old }
        ensures ready { IsReady K.doubt K.is_up K.kept self.new }
        ensures allowed { OnOk result ((command_refusal self.old.commander request.now ≡ None)
            × IsTrue self.old.is_serving × IsTrue self.new.is_serving) }
        ensures given { OnOk result (self.new.commander ≡ given self.old.commander life request.now) }
        ensures durable { K.doubt self.new.keeper ≡ 0 → OnOk result ((c : CommanderState)
            → K.may_leave self.new.keeper c → c ≡ self.new.commander) }
        ensures cause { K.doubt self.new.keeper ≡ 0 → IfErr result
            (IsCause K.faults (command_refusal self.old.commander request.now) self.old self.new) }
        ensures unchanged { IfErr result (λ e. IsLeftBy e self.old self.new) }
        ensures crash { K.doubt self.new.keeper ≡ 0 → (c : CommanderState) → K.may_leave self.new.keeper c
            → K.may_leave self.old.keeper c ⊎ (IsTrue self.old.is_serving
            × (command_refusal self.old.commander request.now ≡ None)
            × (c ≡ given self.old.commander life request.now)) }
        ensures doubt { K.doubt self.old.keeper ≤ K.doubt self.new.keeper }
        ensures faults { K.faults self.old.keeper ≤ K.faults self.new.keeper }
    {
        if !self.is_serving {
            return Err(KeptCommandError::Stopped);
        }
        match next_command(&self.commander, life, request) {
            Ok(next) => {
                self.commander = next;
                self.keep()
            }
            Err(why) => Err(KeptCommandError::Refused(why)),
        }
    }

    /// Takes a reply to the pending command. If it says that the command is done or was withdrawn, that is kept before it is
    /// returned.
    ///
    /// # Errors
    ///
    /// `Stopped`. `Storage`: then a start may find the command pending or not. If it does, send the message again, and
    /// the device answers as before.
    pub fn accept<'a>(&mut self, reply: &'a [u8]) -> Result<CommandOutcome<'a>, KeptCommandError>
        requires { IsReady K.doubt K.is_up K.kept self.old }
        ensures ready { IsReady K.doubt K.is_up K.kept self.new }
        ensures allowed { OnOk result (IsTrue self.old.is_serving × IsTrue self.new.is_serving) }
        ensures outcome { IfOk result (λ outcome. outcome_in outcome ≡ outcome_of self.old.commander reply.now) }
        ensures accepted { OnOk result (self.new.commander ≡ after_reply self.old.commander reply.now) }
        ensures durable { K.doubt self.new.keeper ≡ 0 → OnOk result ((c : CommanderState)
            → K.may_leave self.new.keeper c → c ≡ self.new.commander) }
        ensures cause { K.doubt self.new.keeper ≡ 0 → IfErr result (IsCause K.faults None self.old self.new) }
        ensures unchanged { IfErr result (λ e. IsLeftBy e self.old self.new) }
        ensures crash { K.doubt self.new.keeper ≡ 0 → (c : CommanderState) → K.may_leave self.new.keeper c
            → K.may_leave self.old.keeper c ⊎ (IsTrue self.old.is_serving
            × (c ≡ after_reply self.old.commander reply.now)) }
        ensures doubt { K.doubt self.old.keeper ≤ K.doubt self.new.keeper }
        ensures faults { K.faults self.old.keeper ≤ K.faults self.new.keeper }
    {
        if !self.is_serving {
            return Err(KeptCommandError::Stopped);
        }
        let outcome = self.commander.receive(reply);
        if let CommandOutcome::Done(_) | CommandOutcome::Withdrawn = outcome {
            self.keep()?;
        }
        Ok(outcome)
    }

    /// Gives the pending command up, and keeps that. No reply to it is accepted any more. False if none is pending.
    ///
    /// # Errors
    ///
    /// `Stopped`. `Storage`: then a start may find the command pending or not.
    pub fn abandon(&mut self) -> Result<bool, KeptCommandError>
        requires { IsReady K.doubt K.is_up K.kept self.old }
        ensures ready { IsReady K.doubt K.is_up K.kept self.new }
        ensures allowed { OnOk result (IsTrue self.old.is_serving × IsTrue self.new.is_serving) }
        ensures was_pending { IfOk result (λ was_pending. was_pending ≡ is_some self.old.commander.pending) }
        ensures abandoned { OnOk result (self.new.commander ≡ abandoned self.old.commander) }
        ensures durable { K.doubt self.new.keeper ≡ 0 → OnOk result ((c : CommanderState)
            → K.may_leave self.new.keeper c → c ≡ self.new.commander) }
        ensures cause { K.doubt self.new.keeper ≡ 0 → IfErr result (IsCause K.faults None self.old self.new) }
        ensures unchanged { IfErr result (λ e. IsLeftBy e self.old self.new) }
        ensures crash { K.doubt self.new.keeper ≡ 0 → (c : CommanderState) → K.may_leave self.new.keeper c
            → K.may_leave self.old.keeper c ⊎ (IsTrue self.old.is_serving
            × (c ≡ abandoned self.old.commander)) }
        ensures doubt { K.doubt self.old.keeper ≤ K.doubt self.new.keeper }
        ensures faults { K.faults self.old.keeper ≤ K.faults self.new.keeper }
    {
        if !self.is_serving {
            return Err(KeptCommandError::Stopped);
        }
        if !self.commander.abandon() {
            return Ok(false);
        }
        self.keep()?;
        Ok(true)
    }

    /// Keeps the commander as it is now. It serves no more if that fails.
    fn keep(&mut self) -> Result<(), KeptCommandError>
        requires { K.doubt self.old.keeper ≡ 0 → K.is_up self.old.keeper }
        ensures done { K.doubt self.new.keeper ≡ 0 → OnOk result
            (IsKept (K.is_up self.new.keeper) (K.kept self.new.keeper) self.old.commander) }
        ensures same { self.new.commander ≡ self.old.commander }
        ensures serving { OnOk result (IsTrue self.new.is_serving) }
        ensures stops { OnErr result (self.new.is_serving ≡ false) }
        ensures cause { IfErr result (λ e. (e ≡ Storage) × (K.doubt self.new.keeper ≡ 0
            → HasFailed (K.faults self.old.keeper) (K.faults self.new.keeper))) }
        ensures crash { K.doubt self.new.keeper ≡ 0 → (c : CommanderState) → K.may_leave self.new.keeper c
            → K.may_leave self.old.keeper c ⊎ (c ≡ self.old.commander) }
        ensures doubt { K.doubt self.old.keeper ≤ K.doubt self.new.keeper }
        ensures faults { K.faults self.old.keeper ≤ K.faults self.new.keeper }
    {
        self.is_serving = false;
        self.keeper.replace(&self.commander)?;
        self.is_serving = true;
        Ok(())
    }
}

impl<K: RestartableKeeper + Drop> KeptCommander<K> {
    /// A crash at this moment, and a start. A command that the start finds pending is pending again.
    ///
    /// # Errors
    ///
    /// `Storage`: nothing is handed out until a start.
    pub fn restart(&mut self) -> Result<(), KeptCommandError>
        ensures ready { IsReady K.doubt K.is_up K.kept self.new }
        ensures serving { OnOk result (IsTrue self.new.is_serving) }
        ensures stops { OnErr result (self.new.is_serving ≡ false) }
        ensures found { K.doubt self.new.keeper ≡ 0 → OnOk result
            (K.may_leave self.old.keeper self.new.commander) }
        ensures durable { K.doubt self.new.keeper ≡ 0 → OnOk result ((c : CommanderState)
            → K.may_leave self.new.keeper c → c ≡ self.new.commander) }
        ensures cause { IfErr result (λ e. (e ≡ Storage) × (K.doubt self.new.keeper ≡ 0
            → HasFailed (K.faults self.old.keeper) (K.faults self.new.keeper))) }
        ensures crash { K.doubt self.new.keeper ≡ 0 → (c : CommanderState) → K.may_leave self.new.keeper c
            → K.may_leave self.old.keeper c }
        ensures doubt { K.doubt self.old.keeper ≤ K.doubt self.new.keeper }
        ensures faults { K.faults self.old.keeper ≤ K.faults self.new.keeper }
    {
        self.is_serving = false;
        self.keeper.restart()?;
        self.commander = self.keeper.load()?;
        self.is_serving = true;
        Ok(())
    }
}

/// The commander with this request as its next command, for the device in this life.
fn next_command(
    commander: &Commander,
    life: u64,
    request: &[u8],
) -> Result<Commander, CommandRefused>
    ensures refused { IfErr result (λ why. command_refusal commander.now request.now ≡ Some why) }
    ensures allowed { OnOk result (command_refusal commander.now request.now ≡ None) }
    ensures given { IfOk result (λ next. next ≡ given commander.now life request.now) }
{
    if commander.pending_request().is_some() {
        return Err(CommandRefused::Pending);
    }
    let mut next = Commander::new(life, commander.originator(), commander.last_number());
    match next.command(request) {
        Ok(_) => {}
        Err(why) => return Err(why),
    }
    Ok(next)
}
