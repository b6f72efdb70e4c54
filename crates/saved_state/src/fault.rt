//! Why bytes are not a state, and why entries are not written.

use thiserror::Error;

/// Why bytes are not a state: the first of these that holds, with `Cut` in two places.
#[derive(Clone, Copy, Debug, PartialEq, Eq, Drop, Error)]
pub enum StateFault {
    /// The bytes do not begin with the mark of a state.
    #[error("not a saved state")]
    NotAState,
    /// The bytes end within the version. Or, once the version is known, they end before the head and the checksum do,
    /// or there are fewer of them than the head says.
    #[error("the saved state is cut")]
    Cut,
    /// The state has this version of the format, not 1.
    #[error("the saved state has version {0} of the format, not 1")]
    Version(u32),
    /// There are more bytes than the head says.
    #[error("bytes follow the saved state")]
    TooLong,
    /// The checksum is not that of the bytes before it.
    #[error("the checksum of the saved state is wrong")]
    Checksum,
    /// An entry ends after the last one should, or bytes are left after the last entry.
    #[error("the entries do not fill the saved state")]
    Layout,
    /// A key is not above the key before it, or is 2^63 or more.
    #[error("the keys of the saved state do not rise")]
    Order,
}

/// Why entries are not written: the first of these that holds.
#[derive(Clone, Copy, Debug, PartialEq, Eq, Drop, Error)]
pub enum WriteFault {
    /// A key is not above the key before it, or is 2^63 or more.
    #[error("the keys do not rise")]
    Order,
    /// The state would have 2^32 bytes or more.
    #[error("the state is too long")]
    TooLong,
    /// The state does not fit into the buffer.
    #[error("the state does not fit")]
    Full,
}
