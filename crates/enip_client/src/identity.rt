//! The identity of a device, as ListIdentity gives it. (Volume 2, ListIdentity.)
//!
//! ```text
//!  [ version | socket address | vendor | device type | product code | revision | status | serial | name | state ]
//!       2            16           2          2              2            2         2        4     1 + n     1
//! ```

ghost use Rattle.std.specs.Prelude.{◌≡◌, ◌↔◌, ◌+◌, length, Some, slice_index};
ghost use Rattle.std.specs.Option.{option_map};
ghost use Rattle.enip_client.specs.Identity.{Identity, SpellsIdentity, identity_in, identity_fields, identity_of};

use byteorder::{BigEndian, ByteOrder, LittleEndian};

/// The number of bytes before the name's length.
const BEFORE_NAME: usize = 32;

/// The size of an identity without its name: the bytes before it, its length, and the state.
const SIZE_WITHOUT_NAME: usize = BEFORE_NAME + 2;

/// The identity of a device, lent from an item of ListIdentity. (Volume 2, ListIdentity; Volume 1, Identity.)
///
/// ```
/// for entry in read_list(ListCommand::Identity, frame)? {
///     if let ListEntry::Identity(identity) = entry {
///         // identity.vendor, identity.name and so on
///     }
/// }
/// ```
#[derive(Clone, Copy, Debug, PartialEq, Eq)]
pub struct IdentityView<'a> {
    /// The protocol version, 1.
    pub version: u16,
    /// The family of the socket address, 2 for IPv4.
    pub family: u16,
    /// The port on which the device listens.
    pub port: u16,
    /// The device's IPv4 address, most significant byte first.
    pub address: [u8; 4],
    /// The vendor ID.
    pub vendor: u16,
    /// The device type.
    pub device_type: u16,
    /// The product code, which the vendor assigns.
    pub product_code: u16,
    /// The major revision.
    pub major: u8,
    /// The minor revision.
    pub minor: u8,
    /// The status bits.
    pub status: u16,
    /// The serial number.
    pub serial: u32,
    /// The bytes of the product name, at most 255.
    pub name: &'a [u8],
    /// The state.
    pub state: u8,
}

impl<'a> IdentityView<'a> {
    /// Reads an identity from all of these bytes. The eight bytes after the address may have any value. The name is
    /// lent. `None` if the bytes are not an identity: too short, or followed by more.
    pub fn read(bytes: &'a [u8]) -> Option<IdentityView<'a>>
        // Both ways: what is read has this spelling, and each spelling is read.
        ensures spelled { (i : Identity) →
            (option_map identity_in result ≡ Some i) ↔ SpellsIdentity i bytes.now }
        ensures exact { option_map identity_in result ≡ identity_of bytes.now }
    {
        identity_at(bytes)
    }
}

/// The identity in all of these bytes, as a computation.
#[tactic(auto, unfolding(crate::specs::Identity::identity_of))]
fn identity_at(bytes: &[u8]) -> Option<IdentityView<'_>>
    ensures { option_map identity_in result ≡ identity_of bytes.now }
{
    if bytes.len() < SIZE_WITHOUT_NAME {
        return None;
    }
    // A length byte precedes the name (SHORT_STRING), and nothing follows the state.
    if bytes.len() != SIZE_WITHOUT_NAME + bytes[BEFORE_NAME] as usize {
        return None;
    }
    Some(fields_at(bytes))
}

/// The fields, each read at its offset.
fn fields_at(bytes: &[u8]) -> IdentityView<'_>
    requires { length bytes.now ≡ 34 + slice_index bytes.now 32 }
    ensures { identity_in result ≡ identity_fields bytes.now }
{
    let mut address = [0; 4];
    address.copy_from_slice(&bytes[6..10]);
    let rest = &bytes[BEFORE_NAME + 1..];
    let size = bytes[BEFORE_NAME] as usize;
    IdentityView {
        version: LittleEndian::read_u16(&bytes[0..]),
        // Only the socket address is big-endian (ListIdentity).
        family: BigEndian::read_u16(&bytes[2..]),
        port: BigEndian::read_u16(&bytes[4..]),
        address,
        vendor: LittleEndian::read_u16(&bytes[18..]),
        device_type: LittleEndian::read_u16(&bytes[20..]),
        product_code: LittleEndian::read_u16(&bytes[22..]),
        major: bytes[24],
        minor: bytes[25],
        status: LittleEndian::read_u16(&bytes[26..]),
        serial: LittleEndian::read_u32(&bytes[28..]),
        name: &rest[..size],
        state: rest[size],
    }
}
