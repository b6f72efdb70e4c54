//! The texts of errors. No command prints those of the lower crates, but programs over these crates do.

use std::alloc::Global;
use std::fmt::Display;
use std::process::Abort;
use std::test::Fail;

/// Asserts what errors print.
pub(crate) fn check_texts<E: Display>(
    rt: &impl Abort,
    alloc: Global,
    rows: &[(E, &str)],
) -> Result<(), Fail> {
    for (error, text) in rows {
        let printed = format!(in alloc; "{error}")?;
        assert!(rt; printed.as_str() == *text, "{text} is {}", printed.as_str());
    }
    Ok(())
}
