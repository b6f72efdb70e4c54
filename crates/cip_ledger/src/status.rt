//! The general statuses of the ledger's replies.
ghost use Rattle.std.specs.Prelude.{◌≡◌};

/// The general status of a reply of the ledger. (Volume 1, general status codes.)
#[derive(Clone, Copy)]
pub(crate) enum Status {
    /// The service was done.
    Success = 0x00,
    /// The originator has no slot, and all slots are taken.
    ResourceUnavailable = 0x02,
    /// The class has no such instance.
    PathDestinationUnknown = 0x05,
    /// The instance has no such service.
    ServiceNotSupported = 0x08,
    /// An attribute of a list does not exist.
    AttributeListError = 0x0a,
    /// The originator's slot has a greater number; or, of Forget, another one, or a command that is pending.
    ObjectStateConflict = 0x0c,
    /// The command is of another life of the device.
    DeviceStateConflict = 0x10,
    /// The reply is longer than the reply limit.
    ReplyDataTooLarge = 0x11,
    /// The service has too little data.
    NotEnoughData = 0x13,
    /// No such attribute.
    AttributeNotSupported = 0x14,
    /// The service has too much data.
    TooMuchData = 0x15,
    /// The originator has no slot.
    ObjectDoesNotExist = 0x16,
    /// The originator's last command is pending, so no new one is taken. The codes from 0xd0 on are each class's own.
    CommandPending = 0xd0,
}

impl Status {
    ghost use Rattle.cip_ledger.specs.Status.{status_number};

    /// The status as a reply has it.
    #[inline(always)]
    pub(crate) fn number(self) -> u8
        ensures { result ≡ status_number self }
    {
        self as u8
    }
}
