//! The general statuses of replies: those of services that were performed, and those of refusals.
ghost use Rattle.std.specs.Prelude.{◌≡◌};

use cip_application::SetFault;
use cip_bytes::protocol::GeneralStatus;

/// How completely a service was performed.
#[derive(Clone, Copy)]
pub(crate) enum Completion {
    /// Completely.
    Whole,
    /// A list, of which at least one attribute could not be read.
    Partial,
}

impl Completion {
    ghost use Rattle.cip_objects.specs.Status.{completion_status};

    /// The general status of the reply.
    pub(crate) fn status(self) -> GeneralStatus
        ensures { result ≡ completion_status self }
    {
        match self {
            Completion::Whole => GeneralStatus::Success,
            Completion::Partial => GeneralStatus::AttributeListError,
        }
    }
}

/// Why a request is refused: nothing changes, and the reply has this general status and no data (Volume 1, general
/// status codes).
#[derive(Clone, Copy, Debug, PartialEq, Eq)]
pub enum Refusal {
    /// The path is malformed: 0x04.
    PathSegmentError,
    /// There is no such class or instance: 0x05.
    PathDestinationUnknown,
    /// The object does not have this service: 0x08.
    ServiceNotSupported,
    /// The attribute cannot have this value: 0x09.
    InvalidAttributeValue,
    /// The attribute cannot be set: 0x0e.
    AttributeNotSettable,
    /// The reply would be longer than its limit: 0x11.
    ReplyDataTooLarge,
    /// The request has too little data for the service: 0x13.
    NotEnoughData,
    /// There is no such attribute: 0x14.
    AttributeNotSupported,
    /// The request has too much data for the service: 0x15.
    TooMuchData,
    /// The service cannot take this parameter: 0x20.
    InvalidParameter,
    /// The path goes past the end of the request: 0x26.
    PathSizeInvalid,
    /// There is no such member: 0x28.
    InvalidMemberId,
}

impl From<SetFault> for Refusal {
    ghost use Rattle.cip_objects.specs.Status.{set_refusal};

    ghost from_gives = { λ fault refusal. refusal ≡ set_refusal fault };

    fn from(fault: SetFault) -> Refusal {
        match fault {
            SetFault::AttributeNotSupported => Refusal::AttributeNotSupported,
            SetFault::AttributeNotSettable => Refusal::AttributeNotSettable,
            SetFault::NotEnoughData => Refusal::NotEnoughData,
            SetFault::TooMuchData => Refusal::TooMuchData,
            SetFault::InvalidAttributeValue => Refusal::InvalidAttributeValue,
        }
    }
}

impl Refusal {
    ghost use Rattle.cip_objects.specs.Status.{refusal_status};

    /// The general status of the reply.
    pub fn status(self) -> GeneralStatus
        ensures { result ≡ refusal_status self }
    {
        match self {
            Refusal::PathSegmentError => GeneralStatus::PathSegmentError,
            Refusal::PathDestinationUnknown => GeneralStatus::PathDestinationUnknown,
            Refusal::ServiceNotSupported => GeneralStatus::ServiceNotSupported,
            Refusal::InvalidAttributeValue => GeneralStatus::InvalidAttributeValue,
            Refusal::AttributeNotSettable => GeneralStatus::AttributeNotSettable,
            Refusal::ReplyDataTooLarge => GeneralStatus::ReplyDataTooLarge,
            Refusal::NotEnoughData => GeneralStatus::NotEnoughData,
            Refusal::AttributeNotSupported => GeneralStatus::AttributeNotSupported,
            Refusal::TooMuchData => GeneralStatus::TooMuchData,
            Refusal::InvalidParameter => GeneralStatus::InvalidParameter,
            Refusal::PathSizeInvalid => GeneralStatus::PathSizeInvalid,
            Refusal::InvalidMemberId => GeneralStatus::InvalidMemberId,
        }
    }
}
