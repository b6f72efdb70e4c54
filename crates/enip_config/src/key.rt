//! The table of keys whose values are numbers.
//! Text: docs/PROGRAM.md, "The configuration".

ghost use Rattle.std.specs.Prelude.{◌≡◌, bytes_eq};
ghost use Rattle.enip_config.specs.Keys.{row, row_seen};

use cip_application::INACTIVITY_LIMIT;

/// The port registered for EtherNet/IP. (Volume 2, TCP.)
const REGISTERED_PORT: u64 = 44_818;

/// The greatest number of 32 bits.
const GREATEST_UDINT: u64 = 0xffff_ffff;

/// How many queued commands can wait, unless the key `queue` says otherwise (our choice).
pub(crate) const DEFAULT_QUEUE: u16 = 16;

/// How many queued commands are handed over and not done at once, unless the key `ahead` says otherwise (our choice): an
/// owner that has one command at a time can tell after a crash which one it was.
pub(crate) const DEFAULT_AHEAD: u16 = 1;

/// A key whose value is a number, at the top level or in the table `counter`.
#[derive(Clone, Copy, Debug)]
pub enum NumberKey {
    /// `vendor`.
    Vendor,
    /// `device_type`.
    DeviceType,
    /// `product_code`.
    ProductCode,
    /// `major`.
    Major,
    /// `minor`.
    Minor,
    /// `serial`.
    Serial,
    /// `status`.
    Status,
    /// `state`.
    State,
    /// `port`.
    Port,
    /// `peers`.
    Peers,
    /// `connections`.
    Connections,
    /// `first_handle`.
    FirstHandle,
    /// `first_id`.
    FirstId,
    /// `value` of the counter.
    CounterValue,
    /// `limit` of the counter.
    CounterLimit,
}

/// A row of the table: the name of a key, the range of its number, and the default.
#[derive(Clone, Copy)]
pub(crate) struct Row {
    /// The name of the key.
    pub(crate) name: &'static str,
    /// The least number.
    pub(crate) least: u64,
    /// The greatest number.
    pub(crate) greatest: u64,
    /// `None` if the key is required.
    pub(crate) default: Option<u64>,
}

/// The key `instance` of a table `assembly` or `object`.
pub(crate) const INSTANCE: Row = Row {
    name: "instance",
    least: 0,
    greatest: 0xffff,
    default: None,
};

/// The key `class` of a table `object`.
pub(crate) const CLASS: Row = Row {
    name: "class",
    least: 0,
    greatest: 0xffff,
    default: None,
};

/// The key `number` of a table `object.attribute`.
pub(crate) const ATTRIBUTE_NUMBER: Row = Row {
    name: "number",
    least: 0,
    greatest: 0xffff,
    default: None,
};

/// The key `number` of a table `object.service`.
pub(crate) const SERVICE_NUMBER: Row = Row {
    name: "number",
    least: 0,
    greatest: 0xff,
    default: None,
};

/// The key `reply` of a table `object.service`.
pub(crate) const REPLY: Row = Row {
    name: "reply",
    least: 0,
    greatest: 0xffff,
    default: Some(0),
};

/// The key `originators` of the table `ledger`.
pub(crate) const ORIGINATORS: Row = Row {
    name: "originators",
    least: 1,
    greatest: 64,
    default: None,
};

/// The key `life` of the table `ledger`. TOML has no greater integers.
pub(crate) const LIFE: Row = Row {
    name: "life",
    least: 1,
    greatest: 0x7fff_ffff_ffff_ffff,
    default: Some(1),
};

/// The key `inactivity_timeout` of the table `tcp_ip`. (Volume 2, TCP/IP Interface object.)
pub(crate) const INACTIVITY_TIMEOUT: Row = Row {
    name: "inactivity_timeout",
    least: 0,
    greatest: INACTIVITY_LIMIT as u64,
    default: Some(120),
};

/// The key `speed` of the table `ethernet_link`, in Mbit/s.
pub(crate) const SPEED: Row = Row {
    name: "speed",
    least: 0,
    greatest: GREATEST_UDINT,
    default: Some(100),
};

/// The key `flags` of the table `ethernet_link`. The default is an active link, full duplex, negotiated.
pub(crate) const FLAGS: Row = Row {
    name: "flags",
    least: 0,
    greatest: GREATEST_UDINT,
    default: Some(0x0f),
};

/// The key `type` of the table `ethernet_link`. The default is twisted pair.
pub(crate) const INTERFACE_TYPE: Row = Row {
    name: "type",
    least: 0,
    greatest: 0xff,
    default: Some(2),
};

/// The key `state` of the table `ethernet_link`. The default is enabled.
pub(crate) const INTERFACE_STATE: Row = Row {
    name: "state",
    least: 0,
    greatest: 0xff,
    default: Some(1),
};

/// The key `queue` of the table `commands`.
pub(crate) const QUEUE: Row = Row {
    name: "queue",
    least: 1,
    greatest: 256,
    default: Some(DEFAULT_QUEUE as u64),
};

/// The key `ahead` of the table `commands`.
pub(crate) const AHEAD: Row = Row {
    name: "ahead",
    least: 1,
    greatest: 256,
    default: Some(DEFAULT_AHEAD as u64),
};

impl NumberKey {
    /// The key's row in the table.
    pub(crate) fn row(self) -> Row
        ensures { row_seen result ≡ row self }
    {
        let (name, least, greatest, default) = match self {
            NumberKey::Vendor => ("vendor", 0, 0xffff, None),
            NumberKey::DeviceType => ("device_type", 0, 0xffff, None),
            NumberKey::ProductCode => ("product_code", 0, 0xffff, None),
            NumberKey::Major => ("major", 1, 127, None),
            NumberKey::Minor => ("minor", 0, 0xff, None),
            NumberKey::Serial => ("serial", 0, GREATEST_UDINT, None),
            NumberKey::Status => ("status", 0, 0xffff, Some(0)),
            NumberKey::State => ("state", 0, 0xff, Some(3)),
            NumberKey::Port => ("port", 0, 0xffff, Some(REGISTERED_PORT)),
            NumberKey::Peers => ("peers", 1, 16, Some(4)),
            NumberKey::Connections => ("connections", 1, 64, Some(16)),
            NumberKey::FirstHandle => ("first_handle", 1, GREATEST_UDINT, Some(1)),
            NumberKey::FirstId => ("first_id", 1, GREATEST_UDINT, Some(1)),
            NumberKey::CounterValue => ("value", 0, GREATEST_UDINT, Some(0)),
            NumberKey::CounterLimit => ("limit", 0, GREATEST_UDINT, Some(GREATEST_UDINT)),
        };
        Row {
            name,
            least,
            greatest,
            default,
        }
    }
}

impl Row {
    /// Whether the key has this name.
    pub(crate) fn is_named(self, name: &str) -> bool
        ensures { result ≡ bytes_eq name.now (row_seen self).name }
    {
        name == self.name
    }
}
