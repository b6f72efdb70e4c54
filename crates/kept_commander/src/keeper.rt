//! What keeps a commander over a crash.
ghost use Rattle.std.specs.Prelude.{◌≡◌, ◌⊎◌, ◌≤◌, ℕ, IfOk, OnOk, OnErr};
ghost use Rattle.cip_commander.specs.CommanderRule.{CommanderState};
ghost use Rattle.kept_commander.specs.Kept.{HasFailed};

use crate::StorageFailed;
use cip_commander::Commander;

/// Keeps a commander over a crash, in a file for example, which is replaced as a whole.
///
/// A crash is read as storage that fails at each call from some moment on. So the clause `crash` of `replace`, which
/// holds whatever the storage answers, covers a crash at any moment inside the call.
pub trait CommandKeeper {
    // The commander that is kept now.
    ghost kept: { Self → CommanderState };

    // What a start after a crash at this moment may find.
    ghost may_leave: { Self → CommanderState → Type 0 };

    // There was no failure that only a new start mends.
    ghost is_up: { Self → Type 0 };

    // 0 as long as no wrong answer of the storage was taken for a right one. It never falls, and no call returns it.
    ghost doubt: { Self → ℕ };

    // How often the storage has failed or refused, counted up to 2^64 - 1.
    ghost faults: { Self → ℕ };

    /// Returns the commander that is kept.
    ///
    /// # Errors
    ///
    /// The storage failed. That requires a new start.
    fn load(&mut self) -> Result<Commander, StorageFailed>
        requires { doubt self.old ≡ 0 → is_up self.old }
        ensures loaded { doubt self.new ≡ 0 → IfOk result (λ commander. commander ≡ kept self.old) }
        ensures same { doubt self.new ≡ 0 → OnOk result (is_up self.new × (kept self.new ≡ kept self.old)) }
        ensures cause { doubt self.new ≡ 0 → OnErr result (HasFailed (faults self.old) (faults self.new)) }
        ensures crash { doubt self.new ≡ 0 → (c : CommanderState) → may_leave self.new c → may_leave self.old c }
        ensures doubt { doubt self.old ≤ doubt self.new }
        ensures faults { faults self.old ≤ faults self.new };

    /// Keeps this commander in place of the one before. Once it returns `Ok`, it outlives every crash.
    ///
    /// # Errors
    ///
    /// The storage failed. That requires a new start, which finds the commander of before or this one.
    fn replace(&mut self, commander: &Commander) -> Result<(), StorageFailed>
        requires { doubt self.old ≡ 0 → is_up self.old }
        ensures done { doubt self.new ≡ 0 → OnOk result (is_up self.new × (kept self.new ≡ commander.now)) }
        ensures cause { doubt self.new ≡ 0 → OnErr result (HasFailed (faults self.old) (faults self.new)) }
        ensures crash { doubt self.new ≡ 0 → (c : CommanderState) → may_leave self.new c
            → may_leave self.old c ⊎ (c ≡ commander.now) }
        ensures doubt { doubt self.old ≤ doubt self.new }
        ensures faults { faults self.old ≤ faults self.new };

    // While it is up, a crash leaves what is kept, and nothing else.
    ghost settled: { (k : Self) (c : CommanderState) → doubt k ≡ 0 → is_up k → may_leave k c → c ≡ kept k };

    ghost stays: { (k : Self) → doubt k ≡ 0 → is_up k → may_leave k (kept k) };
}

/// A keeper of the model world: it can be started again after a crash at any moment. In a program a start is a new
/// process, which opens the file.
pub trait RestartableKeeper: CommandKeeper {
    /// A crash at this moment, and a start that finds something which the crash may leave.
    ///
    /// # Errors
    ///
    /// The storage failed. That requires a new start.
    fn restart(&mut self) -> Result<(), StorageFailed>
        ensures found { Self.CommandKeeper.doubt self.new ≡ 0 → OnOk result (Self.CommandKeeper.is_up self.new
            × Self.CommandKeeper.may_leave self.old (Self.CommandKeeper.kept self.new)) }
        ensures cause { Self.CommandKeeper.doubt self.new ≡ 0 → OnErr result
            (HasFailed (Self.CommandKeeper.faults self.old) (Self.CommandKeeper.faults self.new)) }
        ensures crash { Self.CommandKeeper.doubt self.new ≡ 0 → (c : CommanderState)
            → Self.CommandKeeper.may_leave self.new c → Self.CommandKeeper.may_leave self.old c }
        ensures doubt { Self.CommandKeeper.doubt self.old ≤ Self.CommandKeeper.doubt self.new }
        ensures faults { Self.CommandKeeper.faults self.old ≤ Self.CommandKeeper.faults self.new };
}
