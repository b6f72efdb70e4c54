//! A service of a device, as ListServices gives it. (Volume 2, ListServices.)
//!
//! ```text
//!  [ version | capability flags | name ]
//!       2             2            16
//! ```

ghost use Rattle.std.specs.Prelude.{◌≡◌, ◌↔◌, length, Some};
ghost use Rattle.std.specs.Option.{option_map};
ghost use Rattle.enip_client.specs.Service.{Service, SpellsService, name_in, service_in, service_fields, service_of};

use byteorder::{ByteOrder, LittleEndian};

/// The number of bytes before the name.
const BEFORE_NAME: usize = 4;

/// The size of the name field, in bytes.
const NAME: usize = 16;

/// A service of a device, lent from an item of ListServices. (Volume 2, ListServices.)
#[derive(Clone, Copy, Debug, PartialEq, Eq)]
pub struct ServiceView<'a> {
    /// The protocol version, 1.
    pub version: u16,
    /// The capability flags: bit 5 is CIP over TCP, bit 8 is CIP class 0 or 1 over UDP.
    pub flags: u16,
    /// The bytes of the name, at most 16, without the NUL bytes that follow it.
    pub name: &'a [u8],
}

impl<'a> ServiceView<'a> {
    /// Reads a service from all of these bytes. Its name ends at the first NUL byte, and is lent. `None` unless there
    /// are 20 bytes.
    pub fn read(bytes: &'a [u8]) -> Option<ServiceView<'a>>
        // Both ways: what is read has this spelling, and each spelling is read.
        ensures spelled { (s : Service) → (option_map service_in result ≡ Some s) ↔ SpellsService s bytes.now }
        ensures exact { option_map service_in result ≡ service_of bytes.now }
    {
        service_at(bytes)
    }
}

/// The service in all of these bytes, as a computation.
#[tactic(auto, unfolding(crate::specs::Service::service_of))]
fn service_at(bytes: &[u8]) -> Option<ServiceView<'_>>
    ensures { option_map service_in result ≡ service_of bytes.now }
{
    if bytes.len() != BEFORE_NAME + NAME {
        return None;
    }
    Some(fields_at(bytes))
}

/// The fields, each read at its offset.
fn fields_at(bytes: &[u8]) -> ServiceView<'_>
    requires { length bytes.now ≡ 20 }
    ensures { service_in result ≡ service_fields bytes.now }
{
    ServiceView {
        version: LittleEndian::read_u16(&bytes[0..]),
        flags: LittleEndian::read_u16(&bytes[2..]),
        name: before_nul(&bytes[BEFORE_NAME..]),
    }
}

/// The bytes before the first NUL byte.
fn before_nul(field: &[u8]) -> &[u8]
    ensures { result.now ≡ name_in field.now }
{
    match field.iter().position(|byte| *byte == 0) {
        Some(end) => &field[..end],
        None => field,
    }
}
