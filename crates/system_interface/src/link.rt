//! The state of an interface.

ghost use Rattle.std.specs.Prelude.{◌≡◌, false};
ghost use Rattle.system_interface.specs.Links.{flags_of, is_active, is_full_duplex};

/// An active link. (Volume 2, Ethernet Link object, interface flags.)
const ACTIVE: u32 = 1;

/// Full duplex.
const FULL_DUPLEX: u32 = 2;

/// The speed and the duplex mode were negotiated: 3 in bits 2 to 4.
const NEGOTIATED: u32 = 12;

/// They were not negotiated: 4 in bits 2 to 4.
const NOT_NEGOTIATED: u32 = 16;

/// The flag of Linux for an interface that is switched on.
const SWITCHED_ON: u64 = 1;

/// The texts of the files of these names in a folder of `/sys/class/net`. A file that cannot be read has no text.
#[derive(Clone, Copy, Debug)]
pub struct LinkTexts<'a> {
    /// The MAC address.
    pub address: &'a str,
    /// The flags of the interface.
    pub flags: &'a str,
    /// `1` if there is a link.
    pub carrier: &'a str,
    /// The speed in Mbit/s, or `-1`.
    pub speed: &'a str,
    /// `full`, `half` or `unknown`.
    pub duplex: &'a str,
}

/// The state of an interface, as an Ethernet Link has it.
#[derive(Clone, Copy, Debug)]
pub struct Link {
    /// The speed in Mbit/s, or 0 if it is not known.
    pub speed: u32,
    /// The flags: an active link, full duplex, and whether they were negotiated.
    pub flags: u32,
    /// The MAC address, or zeros if there is none.
    pub physical_address: [u8; 6],
    /// 1 for an interface that is switched on, 2 for one that is switched off, 0 if that is not known.
    pub state: u8,
}

impl Link {
    /// The state of the interface with these texts. A link whose speed is known counts as negotiated: the texts do not say
    /// whether it was.
    ///
    /// ```
    /// let link = Link::from_texts(texts); // flags 15: an active link, full duplex, negotiated
    /// ```
    pub fn from_texts(texts: LinkTexts<'_>) -> Link
        ensures flags { result.flags ≡ flags_of (is_active texts.entry.carrier.now) result.speed (is_full_duplex texts.entry.duplex.now) }
        ensures no_link { is_active texts.entry.carrier.now ≡ false → result.speed ≡ 0 }
    {
        let is_active = texts.carrier.trim() == "1";
        let speed = if is_active {
            texts.speed.trim().parse::<u32>().unwrap_or(0)
        } else {
            0
        };
        Link {
            speed,
            flags: flags_of(is_active, speed, texts.duplex.trim() == "full"),
            physical_address: mac_address(texts.address.trim()).unwrap_or([0; 6]),
            state: state_of(texts.flags.trim()),
        }
    }
}

/// The flags of a link. An interface without a link has none.
fn flags_of(is_active: bool, speed: u32, is_full_duplex: bool) -> u32
    ensures { result ≡ flags_of is_active speed is_full_duplex }
{
    if !is_active {
        return 0;
    }
    let duplex = if is_full_duplex { FULL_DUPLEX } else { 0 };
    let negotiation = if speed == 0 {
        NOT_NEGOTIATED
    } else {
        NEGOTIATED
    };
    ACTIVE + duplex + negotiation
}

/// The state of an interface with these flags of Linux, such as `0x1003`.
fn state_of(flags: &str) -> u8 {
    let Some(digits) = flags.strip_prefix("0x") else {
        return 0;
    };
    match u64::from_str_radix(digits, 16) {
        Ok(flags) if flags & SWITCHED_ON != 0 => 1,
        Ok(_) => 2,
        Err(_) => 0,
    }
}

/// The MAC address in a text, such as `02:00:00:00:00:09`.
fn mac_address(text: &str) -> Option<[u8; 6]> {
    let mut address = [0; 6];
    let mut parts = text.split(':');
    for byte in address.iter_mut() {
        *byte = u8::from_str_radix(parts.next()?, 16).ok()?;
    }
    match parts.next() {
        None => Some(address),
        Some(_) => None,
    }
}
