//! Why a line of an owner is refused.

ghost use Rattle.std.specs.Prelude.{◌≡◌};
ghost use Rattle.enip_owner.specs.Requests.{key_name};

use std::alloc::{AllocError, AllocFailed};
use std::fmt;
use thiserror::Error;

/// A key of a line.
#[derive(Clone, Copy, Debug, PartialEq, Eq)]
pub enum RequestKey {
    /// `done`: a command was executed.
    Done,
    /// `answer`: the reply to a request that was asked.
    Answer,
    /// `write`: an attribute gets a value.
    Write,
    /// `read`: the value of an attribute is wanted.
    Read,
    /// `status`: the status word of the device, or the general status of a reply.
    Status,
    /// `state`: the state of the device.
    State,
    /// `ticket`: which command.
    Ticket,
    /// `question`: which request that was asked.
    Question,
    /// `data`: bytes in hexadecimal.
    Data,
    /// `values`: values of the attribute's type.
    Values,
    /// `class`: the class of an object.
    Class,
    /// `instance`: the instance number of an object.
    Instance,
    /// `attribute`: the number of an attribute.
    Attribute,
}

impl RequestKey {
    /// The key as it is in a line.
    pub fn name(self) -> &'static str
        ensures { result.now ≡ key_name self }
    {
        match self {
            RequestKey::Done => "done",
            RequestKey::Answer => "answer",
            RequestKey::Write => "write",
            RequestKey::Read => "read",
            RequestKey::Status => "status",
            RequestKey::State => "state",
            RequestKey::Ticket => "ticket",
            RequestKey::Question => "question",
            RequestKey::Data => "data",
            RequestKey::Values => "values",
            RequestKey::Class => "class",
            RequestKey::Instance => "instance",
            RequestKey::Attribute => "attribute",
        }
    }
}

impl fmt::Display for RequestKey {
    ghost use Rattle.std.specs.Prelude.{Some};

    ghost output = { λ key. Some (key_name key) };

    fn fmt<W: fmt::Write>(&self, f: &mut fmt::Formatter<W>) -> fmt::Result {
        f.write_str(self.name())
    }
}

/// Why a line of an owner is refused: the first of these that holds. The text is that of an `error` line.
#[derive(Clone, Copy, Debug, PartialEq, Eq, Error)]
pub enum OwnerFault {
    /// The line is not JSON (RFC 8259) in UTF-8.
    #[error("not JSON")]
    NotJson,
    /// An object has a key twice.
    #[error("an object has a key twice")]
    DoubledKey,
    /// The line is not an object with one of the six keys and no other.
    #[error("expected an object with one key: done, answer, write, read, status or state")]
    NotRequest,
    /// The value of `done`, `answer`, `write` or `read` is not an object.
    #[error("{0}: expected an object")]
    NotObject(RequestKey),
    /// The object of `done`, `answer`, `write` or `read` has a key that is not known there.
    #[error("{0}: unknown key")]
    UnknownKey(RequestKey),
    /// A key is missing.
    #[error("missing key: {0}")]
    Missing(RequestKey),
    /// The value of a key is not a number.
    #[error("{0}: expected a number")]
    NotNumber(RequestKey),
    /// The value of a key is negative, has a point or an exponent, or is greater than the key allows.
    #[error("{0}: number out of range")]
    OutOfRange(RequestKey),
    /// `data` is not a string of hexadecimal digits, two for each byte.
    #[error("data: expected a string of hexadecimal digits, two per byte")]
    NotHexadecimal,
    /// `data` has more bytes than a reply (480) or a value (500) can have.
    #[error("data: too many bytes")]
    TooManyBytes,
    /// `write` has `data` and `values`.
    #[error("write: both data and values")]
    TwoContents,
    /// `values` is not a list of numbers, strings, `true` and `false`.
    #[error("values: expected a list of numbers, strings, true and false")]
    NotValues,
    /// Memory was refused.
    #[error("out of memory")]
    Memory,
}

impl From<AllocError> for OwnerFault {
    ghost use Rattle.enip_owner.specs.declared.owner_fault.OwnerFault.TheVariants.{Memory};

    ghost from_gives = { λ _ fault. fault ≡ Memory };

    fn from(_error: AllocError) -> OwnerFault {
        OwnerFault::Memory
    }
}

impl<T: Drop> From<AllocFailed<T>> for OwnerFault {
    ghost use Rattle.enip_owner.specs.declared.owner_fault.OwnerFault.TheVariants.{Memory};

    ghost from_gives = { λ _ fault. fault ≡ Memory };

    fn from(_error: AllocFailed<T>) -> OwnerFault {
        OwnerFault::Memory
    }
}
