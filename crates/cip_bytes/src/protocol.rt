//! The numbers of the standard that more than one crate uses: classes, commands, services, statuses and sizes.
//!
//! Each number is listed once, in its enum. The enum's `Display` prints its name.

ghost use Rattle.std.specs.Prelude.{◌≡◌};
ghost use Rattle.cip_bytes.specs.Protocol.{command_number, command_of, manager_service_number, manager_service_of};
ghost use Rattle.cip_bytes.specs.Protocol.{encapsulation_status_number, general_status_number, extended_status_number};

use std::fmt;

/// The most bytes of an unconnected request, and of the reply to one. (Volume 2, UCMM requests.)
pub const UNCONNECTED_LIMIT: usize = 504;

/// The fewest bytes of a request: the service and the path size. (Volume 1, router request.)
pub const SMALLEST_REQUEST: usize = 2;

/// The fewest bytes of a reply: the service, a reserved byte, the general status and the size of the additional
/// status. (Volume 1, router reply.)
pub const SMALLEST_REPLY: usize = 4;

/// The most bytes of a router reply (our choice).
pub const REPLY_LIMIT: usize = 4_000;

/// The size of the sequence count of an item, in bytes. (Volume 2, connected data item.)
pub const SEQUENCE_COUNT_SIZE: usize = 2;

/// The largest size of a connection in either direction, in bytes: a sequence count and the longest reply (our
/// choice).
pub const LARGEST_CONNECTION_SIZE: usize = SEQUENCE_COUNT_SIZE + REPLY_LIMIT;

/// The smallest O->T size, in bytes: a sequence count and the shortest request (our choice).
pub const SMALLEST_O_TO_T_SIZE: u16 = 4;

/// The smallest T->O size, in bytes: a sequence count, a reply and a 32-bit number (our choice).
pub const SMALLEST_T_TO_O_SIZE: u16 = 10;

/// The largest size that a Forward_Open can ask for, in bytes: its parameters have nine bits for the size. (Volume
/// 1, network connection parameters.)
pub const LARGEST_FORWARD_OPEN_SIZE: u16 = 511;

/// The class of the Identity object. (Volume 1, class codes.)
pub const IDENTITY: u16 = 0x01;

/// The class of the Message Router, the target of every connection. (Volume 1, class codes.)
pub const MESSAGE_ROUTER: u16 = 0x02;

/// The class of the Assembly object. (Volume 1, class codes.)
pub const ASSEMBLY: u16 = 0x04;

/// The class of the Connection Manager. (Volume 1, class codes.)
pub const CONNECTION_MANAGER: u16 = 0x06;

/// The class of the counter, in the vendor-specific range (our choice).
pub const COUNTER: u16 = 0x64;

/// The command of a frame. (Volume 2, encapsulation commands.)
#[derive(Clone, Copy, Debug, PartialEq, Eq)]
pub enum Command {
    Nop = 0x0000,
    ListServices = 0x0004,
    ListIdentity = 0x0063,
    ListInterfaces = 0x0064,
    RegisterSession = 0x0065,
    UnRegisterSession = 0x0066,
    SendRRData = 0x006f,
    SendUnitData = 0x0070,
}

impl Command {
    /// The command's number, as in the header.
    #[inline(always)]
    pub fn number(self) -> u16
        ensures { result ≡ command_number self }
    {
        self as u16
    }

    /// The command with this number, or `None` if this adapter does not serve it.
    #[inline(always)]
    pub fn of(number: u16) -> Option<Command>
        ensures { result ≡ command_of number }
    {
        // A match and not a search, because every frame takes this path.
        match number {
            it if it == Command::Nop as u16 => Some(Command::Nop),
            it if it == Command::ListServices as u16 => Some(Command::ListServices),
            it if it == Command::ListIdentity as u16 => Some(Command::ListIdentity),
            it if it == Command::ListInterfaces as u16 => Some(Command::ListInterfaces),
            it if it == Command::RegisterSession as u16 => Some(Command::RegisterSession),
            it if it == Command::UnRegisterSession as u16 => Some(Command::UnRegisterSession),
            it if it == Command::SendRRData as u16 => Some(Command::SendRRData),
            it if it == Command::SendUnitData as u16 => Some(Command::SendUnitData),
            _ => None,
        }
    }
}

impl fmt::Display for Command {
    fn fmt<W: fmt::Write>(&self, f: &mut fmt::Formatter<W>) -> fmt::Result {
        f.write_str(match self {
            Command::Nop => "NOP",
            Command::ListServices => "ListServices",
            Command::ListIdentity => "ListIdentity",
            Command::ListInterfaces => "ListInterfaces",
            Command::RegisterSession => "RegisterSession",
            Command::UnRegisterSession => "UnRegisterSession",
            Command::SendRRData => "SendRRData",
            Command::SendUnitData => "SendUnitData",
        })
    }
}

/// A service of the Connection Manager. (Volume 1, Connection Manager services.)
#[derive(Clone, Copy, Debug, PartialEq, Eq)]
pub enum ManagerService {
    ForwardClose = 0x4e,
    ForwardOpen = 0x54,
    LargeForwardOpen = 0x5b,
}

impl ManagerService {
    /// The service's number, as in a request.
    #[inline(always)]
    pub fn number(self) -> u8
        ensures { result ≡ manager_service_number self }
    {
        self as u8
    }

    /// The service with this number, or `None` if the Connection Manager has none.
    #[inline(always)]
    pub fn of(number: u8) -> Option<ManagerService>
        ensures { result ≡ manager_service_of number }
    {
        match number {
            it if it == ManagerService::ForwardClose as u8 => Some(ManagerService::ForwardClose),
            it if it == ManagerService::ForwardOpen as u8 => Some(ManagerService::ForwardOpen),
            it if it == ManagerService::LargeForwardOpen as u8 => {
                Some(ManagerService::LargeForwardOpen)
            }
            _ => None,
        }
    }
}

impl fmt::Display for ManagerService {
    fn fmt<W: fmt::Write>(&self, f: &mut fmt::Formatter<W>) -> fmt::Result {
        f.write_str(match self {
            ManagerService::ForwardClose => "Forward_Close",
            ManagerService::ForwardOpen => "Forward_Open",
            ManagerService::LargeForwardOpen => "Large_Forward_Open",
        })
    }
}

/// The status in the header of a reply frame. (Volume 2, encapsulation status.)
#[derive(Clone, Copy, Debug, PartialEq, Eq)]
pub enum EncapsulationStatus {
    Success = 0x0000,
    UnsupportedCommand = 0x0001,
    PoorlyFormedData = 0x0003,
    InvalidSession = 0x0064,
    InvalidLength = 0x0065,
    UnsupportedRevision = 0x0069,
}

impl EncapsulationStatus {
    /// The status's number, as in the header.
    #[inline(always)]
    pub fn number(self) -> u32
        ensures { result ≡ encapsulation_status_number self }
    {
        self as u32
    }
}

impl fmt::Display for EncapsulationStatus {
    fn fmt<W: fmt::Write>(&self, f: &mut fmt::Formatter<W>) -> fmt::Result {
        f.write_str(match self {
            EncapsulationStatus::Success => "success",
            EncapsulationStatus::UnsupportedCommand => "invalid or unsupported command",
            EncapsulationStatus::PoorlyFormedData => "poorly formed data",
            EncapsulationStatus::InvalidSession => "invalid session handle",
            EncapsulationStatus::InvalidLength => "invalid length",
            EncapsulationStatus::UnsupportedRevision => "unsupported protocol revision",
        })
    }
}

/// The general status of a router reply. (Volume 1, general status codes.)
#[derive(Clone, Copy, Debug, PartialEq, Eq)]
pub enum GeneralStatus {
    /// The service was performed.
    Success = 0x00,
    /// A connection was refused. An additional status word gives the reason.
    ConnectionFailure = 0x01,
    /// The path is malformed.
    PathSegmentError = 0x04,
    /// There is no such class or instance.
    PathDestinationUnknown = 0x05,
    /// The instance does not have this service.
    ServiceNotSupported = 0x08,
    /// The attribute cannot have this value.
    InvalidAttributeValue = 0x09,
    /// At least one attribute of a list could not be read.
    AttributeListError = 0x0a,
    /// The attribute cannot be set.
    AttributeNotSettable = 0x0e,
    /// The reply would be longer than its limit.
    ReplyDataTooLarge = 0x11,
    /// The request has too little data for the service.
    NotEnoughData = 0x13,
    /// There is no such attribute.
    AttributeNotSupported = 0x14,
    /// The request has too much data for the service.
    TooMuchData = 0x15,
    /// The service cannot take this parameter.
    InvalidParameter = 0x20,
    /// The path goes past the end of the request.
    PathSizeInvalid = 0x26,
    /// There is no such member.
    InvalidMemberId = 0x28,
}

impl GeneralStatus {
    /// The status's number, as in a reply.
    #[inline(always)]
    pub fn number(self) -> u8
        ensures { result ≡ general_status_number self }
    {
        self as u8
    }
}

impl fmt::Display for GeneralStatus {
    fn fmt<W: fmt::Write>(&self, f: &mut fmt::Formatter<W>) -> fmt::Result {
        f.write_str(match self {
            GeneralStatus::Success => "success",
            GeneralStatus::ConnectionFailure => "connection failure",
            GeneralStatus::PathSegmentError => "path segment error",
            GeneralStatus::PathDestinationUnknown => "path destination unknown",
            GeneralStatus::ServiceNotSupported => "service not supported",
            GeneralStatus::InvalidAttributeValue => "invalid attribute value",
            GeneralStatus::AttributeListError => "attribute list error",
            GeneralStatus::AttributeNotSettable => "attribute not settable",
            GeneralStatus::ReplyDataTooLarge => "reply data too large",
            GeneralStatus::NotEnoughData => "not enough data",
            GeneralStatus::AttributeNotSupported => "attribute not supported",
            GeneralStatus::TooMuchData => "too much data",
            GeneralStatus::InvalidParameter => "invalid parameter",
            GeneralStatus::PathSizeInvalid => "path size invalid",
            GeneralStatus::InvalidMemberId => "invalid member ID",
        })
    }
}

/// Why a connection was refused: the additional status word after the general status "connection failure". (Volume
/// 1, Connection Manager extended status codes.)
#[derive(Clone, Copy, Debug, PartialEq, Eq)]
pub enum ExtendedStatus {
    /// An open connection already has this connection serial, originator vendor and originator serial.
    DoubleOpen = 0x0100,
    /// The target is not the server, or the transport class is not 3.
    Transport = 0x0103,
    /// The session has no connection with this connection serial, originator vendor and originator serial.
    ConnectionNotFound = 0x0107,
    /// A direction is not point to point, or the timeout multiplier is over 7.
    ConnectionParameter = 0x0108,
    /// A connection size is out of range.
    ConnectionSize = 0x0109,
    /// The O->T RPI is 0.
    Rpi = 0x0111,
    /// All connection slots are taken, or all connection IDs were used.
    OutOfConnections = 0x0113,
    /// The electronic key asks for another vendor or product code.
    VendorOrProduct = 0x0114,
    /// The electronic key asks for another device type.
    DeviceType = 0x0115,
    /// The electronic key asks for another revision.
    Revision = 0x0116,
    /// The path does not lead to the Message Router.
    ApplicationPath = 0x0117,
    /// The path is not an optional key followed by an application path.
    PathSegment = 0x0315,
}

impl ExtendedStatus {
    /// The status's number, as in a reply.
    #[inline(always)]
    pub fn number(self) -> u16
        ensures { result ≡ extended_status_number self }
    {
        self as u16
    }
}

impl fmt::Display for ExtendedStatus {
    fn fmt<W: fmt::Write>(&self, f: &mut fmt::Formatter<W>) -> fmt::Result {
        f.write_str(match self {
            ExtendedStatus::DoubleOpen => "connection in use or duplicate Forward_Open",
            ExtendedStatus::Transport => "transport class and trigger combination not supported",
            ExtendedStatus::ConnectionNotFound => "target connection not found",
            ExtendedStatus::ConnectionParameter => "invalid network connection parameter",
            ExtendedStatus::ConnectionSize => "invalid connection size",
            ExtendedStatus::Rpi => "RPI not supported",
            ExtendedStatus::OutOfConnections => "out of connections",
            ExtendedStatus::VendorOrProduct => "vendor ID or product code mismatch",
            ExtendedStatus::DeviceType => "device type mismatch",
            ExtendedStatus::Revision => "revision mismatch",
            ExtendedStatus::ApplicationPath => "invalid application path",
            ExtendedStatus::PathSegment => "invalid segment in the connection path",
        })
    }
}
