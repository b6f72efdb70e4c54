//! What follows from the definitions alone, for every state and all bytes. Each law is the contract of a function that
//! does nothing.

ghost use Rattle.std.specs.Prelude.{ℕ, List, ◌∷◌, ◌≡◌, ◌≢◌, ◌^◌, ◌<◌, ◌≤◌, ◌++◌, codes, length, Some, Ok};
ghost use Rattle.saved_state.specs.declared.fault.StateFault.TheVariants.{NotAState, Version, Cut, TooLong, Checksum};
ghost use Rattle.cip_bytes.specs.Numbers.{AreBytes};
ghost use Rattle.saved_state.specs.Numbers.{udint, ulint};
ghost use Rattle.saved_state.specs.Checksum.{checksum};
ghost use Rattle.saved_state.specs.States.{State, IsState, body, spelled};
ghost use Rattle.saved_state.specs.Reading.{fault_of, state_of};

/// A state that was written is read again.
pub fn state_read_again()
    ensures { (s : State) → IsState s → state_of (spelled s) ≡ Ok s }
{}

/// No two states have the same bytes.
pub fn one_state()
    ensures { (s t : State) → IsState s → IsState t → spelled s ≡ spelled t → s ≡ t }
{}

/// Bytes that go on after a state are not a state.
pub fn nothing_follows()
    ensures { (s : State) (more : List ℕ) → IsState s → 0 < length more
        → fault_of (spelled s ++ more) ≡ Some TooLong }
{}

/// A state that was cut is not a state, wherever it was cut.
pub fn cut_is_refused()
    ensures cut { (s : State) (front rest : List ℕ) → IsState s → front ++ rest ≡ spelled s → 0 < length rest
        → 8 ≤ length front → fault_of front ≡ Some Cut }
    ensures mark { (s : State) (front rest : List ℕ) → IsState s → front ++ rest ≡ spelled s → 0 < length rest
        → length front < 8 → fault_of front ≡ Some NotAState }
{}

/// A state with another checksum is not a state.
pub fn checksum_is_compared()
    ensures { (s : State) (sum : ℕ) → IsState s → sum < 2 ^ 64 → sum ≢ checksum (body s)
        → fault_of (body s ++ ulint sum) ≡ Some Checksum }
{}

/// A state of another version of the format is refused with its version, whatever follows.
pub fn other_versions_are_refused()
    ensures { (version : ℕ) (rest : List ℕ) → version < 2 ^ 32 → version ≢ 1
        → fault_of (codes "SOMBIKPT" ++ (udint version ++ rest)) ≡ Some (Version version) }
{}

/// No two states differ in one byte alone. So a state with one changed byte is not a state.
pub fn one_byte_is_noticed()
    ensures { (s t : State) (before behind : List ℕ) (a b : ℕ) → AreBytes (spelled s) → AreBytes (spelled t)
        → spelled s ≡ before ++ a ∷ behind → spelled t ≡ before ++ b ∷ behind → a ≡ b }
{}
