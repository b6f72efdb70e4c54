//! What keeps entries over a crash.
ghost use Rattle.std.specs.Prelude.{◌≡◌, ◌⊎◌, ◌≤◌, ℕ, All, IfOk, IfErr, OnOk};
ghost use Rattle.enip_keep.specs.Causes.{IsCause};
ghost use Rattle.enip_keep.specs.Kept.{Kept, pairs_of, set_all, IsKeepable};

use crate::{Entry, KeepError};
use std::alloc::Global;

/// Keeps entries over a crash, in a file for example.
///
/// A crash is read as storage that fails at each call from some moment on. So the clause `crash` of `commit`, which
/// holds whatever the storage answers, covers a crash at any moment inside the call.
pub trait Keeper {
    // The entries that are kept now, in the order of their keys.
    ghost kept: { Self → Kept };

    // What a start after a crash at this moment may find.
    ghost may_leave: { Self → Kept → Type 0 };

    // There was no failure that only a new start mends.
    ghost is_up: { Self → Type 0 };

    // 0 as long as no wrong answer of the storage was taken for a right one. It never falls, and no call returns it.
    ghost doubt: { Self → ℕ };

    // How often the storage has failed or refused, counted up to 2^64 - 1.
    ghost faults: { Self → ℕ };

    /// Returns all entries that are kept, in the order of their keys.
    ///
    /// # Errors
    ///
    /// `Memory` if memory is refused, `Storage` if the storage fails. Any error requires a new start.
    fn load(&mut self, alloc: Global) -> Result<Vec<Entry>, KeepError>
        requires { doubt self.old ≡ 0 → is_up self.old }
        ensures pairs { doubt self.new ≡ 0 → IfOk result (λ all. pairs_of all.items ≡ kept self.old) }
        ensures same { doubt self.new ≡ 0 → OnOk result (is_up self.new × (kept self.new ≡ kept self.old)) }
        ensures cause { doubt self.new ≡ 0 → IfErr result (IsCause (faults self.old) (faults self.new)) }
        ensures crash { doubt self.new ≡ 0 → (c : Kept) → may_leave self.new c → may_leave self.old c }
        ensures doubt { doubt self.old ≤ doubt self.new }
        ensures faults { faults self.old ≤ faults self.new };

    /// Sets the bytes of these keys, all of them or none. Once it returns `Ok`, they outlive every crash.
    ///
    /// # Errors
    ///
    /// `Memory` if memory is refused, `Storage` if the storage fails or is full. Any error requires a new start, which
    /// finds all of the changes or none.
    fn commit(&mut self, changes: &[Entry]) -> Result<(), KeepError>
        requires up { doubt self.old ≡ 0 → is_up self.old }
        requires keys { All IsKeepable changes.now }
        ensures done { doubt self.new ≡ 0 → OnOk result
            (is_up self.new × (kept self.new ≡ set_all (pairs_of changes.now) (kept self.old))) }
        ensures cause { doubt self.new ≡ 0 → IfErr result (IsCause (faults self.old) (faults self.new)) }
        ensures crash { doubt self.new ≡ 0 → (c : Kept) → may_leave self.new c
            → may_leave self.old c ⊎ (c ≡ set_all (pairs_of changes.now) (kept self.old)) }
        ensures doubt { doubt self.old ≤ doubt self.new }
        ensures faults { faults self.old ≤ faults self.new };

    // While it is up, a crash leaves what is kept, and nothing else.
    ghost settled: { (k : Self) (c : Kept) → doubt k ≡ 0 → is_up k → may_leave k c → c ≡ kept k };

    ghost stays: { (k : Self) → doubt k ≡ 0 → is_up k → may_leave k (kept k) };
}

/// A keeper of the model world: it can be started again after a crash at any moment. In a program a start is a new
/// process, which opens the file.
pub trait Restart: Keeper {
    /// A crash at this moment, and a start that finds something which the crash may leave.
    fn restart(&mut self) -> Result<(), KeepError>
        ensures found { Self.Keeper.doubt self.new ≡ 0 → OnOk result
            (Self.Keeper.is_up self.new × Self.Keeper.may_leave self.old (Self.Keeper.kept self.new)) }
        ensures crash { Self.Keeper.doubt self.new ≡ 0 → (c : Kept) → Self.Keeper.may_leave self.new c
            → Self.Keeper.may_leave self.old c }
        ensures doubt { Self.Keeper.doubt self.old ≤ Self.Keeper.doubt self.new }
        ensures faults { Self.Keeper.faults self.old ≤ Self.Keeper.faults self.new };
}
