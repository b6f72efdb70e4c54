//! A keeper in memory, for tests of clients.
ghost use Rattle.std.specs.Prelude.{◌≡◌, ◌≤◌, None, IsTrue, IfOk, refl};
ghost use Rattle.std.specs.Option.{option_copied};
ghost use Rattle.cip_commander.specs.CommanderRule.{commander_at};
ghost use Rattle.kept_commander.specs.Kept.{HasFailed};
ghost use Rattle.kept_commander.specs.Memory.{pending_bytes, kept_in_memory};

use crate::{CommandKeeper, RestartableKeeper, StorageFailed};
use cip_commander::Commander;
use std::alloc::{AllocError, Global};

/// Keeps a commander in memory. Its storage fails at the call that you choose, as if the client crashed there.
#[derive(Drop)]
pub struct MemoryKeeper {
    alloc: Global,
    life: u64,
    originator: u64,
    last_number: u32,
    pending: Option<Vec<u8>>,
    crash: Crash,
    is_up: bool,
    faults: u64,
}

/// When the storage of a `MemoryKeeper` fails.
#[derive(Clone, Copy, Debug, PartialEq, Eq)]
pub enum Crash {
    /// Never.
    Never,
    /// After so many calls of `replace`, before the next one has replaced anything.
    Before(u64),
    /// After so many calls of `replace`, when the next one has replaced the commander, and has not returned yet.
    After(u64),
}

/// What a call of `replace` does.
#[derive(Clone, Copy)]
enum Call {
    Succeeds,
    FailsBefore,
    FailsAfter,
}

impl MemoryKeeper {
    /// A keeper that has a commander without a pending command.
    pub fn new(alloc: Global, life: u64, originator: u64, last_number: u32) -> MemoryKeeper
        ensures kept { kept_in_memory result ≡ commander_at life originator last_number None }
        ensures up { IsTrue result.is_up }
    {
        MemoryKeeper {
            alloc,
            life,
            originator,
            last_number,
            pending: None,
            crash: Crash::Never,
            is_up: true,
            faults: 0,
        }
    }

    /// Chooses when the storage fails, counted from now.
    pub fn set_crash(&mut self, crash: Crash)
        ensures { self.new ≡ record self.old { crash = crash } }
    {
        self.crash = crash;
    }

    /// What the next call of `replace` does. Counts the call.
    fn next_call(&mut self) -> Call
        ensures { self.new ≡ record self.old { crash = self.new.crash } }
    {
        let (call, next) = match self.crash {
            Crash::Never => (Call::Succeeds, Crash::Never),
            Crash::Before(0) => (Call::FailsBefore, Crash::Never),
            Crash::Before(calls) => (Call::Succeeds, Crash::Before(calls - 1)),
            Crash::After(0) => (Call::FailsAfter, Crash::Never),
            Crash::After(calls) => (Call::Succeeds, Crash::After(calls - 1)),
        };
        self.crash = next;
        call
    }

    /// The failure of a call, counted.
    fn fail(&mut self) -> StorageFailed
        ensures kept { kept_in_memory self.new ≡ kept_in_memory self.old }
        ensures faults { HasFailed self.old.faults self.new.faults }
        ensures rises { self.old.faults ≤ self.new.faults }
    {
        self.is_up = false;
        self.faults = self.faults.saturating_add(1);
        StorageFailed
    }
}

impl CommandKeeper for MemoryKeeper {
    ghost use Rattle.kept_commander.specs.Memory.{kept_in_memory};

    ghost kept = { kept_in_memory };

    ghost may_leave = { λ k c. c ≡ kept_in_memory k };

    ghost is_up = { λ k. IsTrue k.is_up };

    ghost doubt = { λ _. 0 };

    ghost faults = { λ k. k.faults };

    fn load(&mut self) -> Result<Commander, StorageFailed> {
        let pending = lent(&self.pending);
        match Commander::resume(self.life, self.originator, self.last_number, pending) {
            Ok(commander) => Ok(commander),
            Err(_) => Err(self.fail()),
        }
    }

    fn replace(&mut self, commander: &Commander) -> Result<(), StorageFailed> {
        let Ok(pending) = copied(self.alloc, commander.pending_request()) else {
            return Err(self.fail());
        };
        let call = self.next_call();
        if let Call::FailsBefore = call {
            return Err(self.fail());
        }
        self.life = commander.life();
        self.originator = commander.originator();
        self.last_number = commander.last_number();
        self.pending = pending;
        if let Call::FailsAfter = call {
            return Err(self.fail());
        }
        Ok(())
    }

    ghost settled = { λ k c _ _ is. is };

    ghost stays = { λ k _ _. refl };
}

impl RestartableKeeper for MemoryKeeper {
    fn restart(&mut self) -> Result<(), StorageFailed> {
        self.is_up = true;
        Ok(())
    }
}

/// Lends the bytes of a request.
fn lent(request: &Option<Vec<u8>>) -> Option<&[u8]>
    ensures { option_copied result ≡ pending_bytes request.now }
{
    match request {
        Some(request) => Some(request.as_slice()),
        None => None,
    }
}

/// Copies the bytes of a request.
fn copied(alloc: Global, request: Option<&[u8]>) -> Result<Option<Vec<u8>>, AllocError>
    ensures { IfOk result (λ copy. pending_bytes copy ≡ option_copied request.entry) }
{
    let Some(request) = request else {
        return Ok(None);
    };
    let mut copy = Vec::new(alloc);
    copy.extend_from_slice(request)?;
    Ok(Some(copy))
}
