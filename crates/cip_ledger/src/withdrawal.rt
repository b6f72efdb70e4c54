//! Commands that are withdrawn.

/// What a request withdraws: a command, which is not executed any more.
#[derive(Clone, Copy, Debug, PartialEq, Eq)]
pub struct Withdrawal {
    /// Who gave it.
    pub originator: u64,
    /// Its number.
    pub number: u32,
    /// Its ticket if it is pending. `None` if the number was not used.
    pub ticket: Option<u32>,
}
