//! An equality assertion in a function of its own, so that its failure is not an exit of the caller.

use std::fmt::Debug;
use std::process::Abort;

/// Asserts that two values are equal.
pub(crate) fn check_same<A: Abort, T: Copy + Debug + PartialEq>(rt: &A, found: T, wanted: T) {
    assert_eq!(rt; found, wanted);
}
