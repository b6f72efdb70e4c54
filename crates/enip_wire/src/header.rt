//! The header that begins each encapsulation message. (Volume 2, encapsulation header.)
//! Text: docs/PROTOCOL.md, "Encapsulation".

ghost use Rattle.std.specs.Prelude.{◌≡◌};
ghost use Rattle.enip_wire.specs.Headers.{header_spelling, header_at, IsHeader};

use byteorder::{ByteOrder, LittleEndian};

/// The header of an encapsulation message: 24 bytes on the wire, little-endian. (Volume 2, encapsulation header.)
///
/// ```text
///  [ command | length | session | status | context | options ]
///       2        2         4        4         8         4
/// ```
///
/// ```
/// let header = Header { command: 0x0065, length: 4, session: 0, status: 0, context: [0; 8], options: 0 };
/// assert_eq!(rt; Header::read(&header.write()), header);
/// ```
#[derive(Clone, Copy, Debug, PartialEq, Eq)]
pub struct Header {
    /// The command, 16 bits.
    pub command: u16,
    /// How many bytes of data follow the header, 16 bits. At most 65,511.
    pub length: u16,
    /// The session handle, 32 bits.
    pub session: u32,
    /// The status, 32 bits: 0 for success, otherwise why the request was refused.
    pub status: u32,
    /// Eight bytes that the sender chooses and a reply repeats.
    pub context: [u8; 8],
    /// The options, 32 bits: 0. A message with other options is discarded.
    pub options: u32,
}

impl Header {
    /// The size of a header in bytes.
    pub const SIZE: usize = 24;

    /// Reads the header that these bytes spell. Any 24 bytes spell exactly one.
    pub fn read(bytes: &[u8; Header::SIZE]) -> Header
        ensures value { result ≡ header_at bytes.now }
        ensures spelled { header_spelling result ≡ bytes.now }
        ensures only { (other : Header) → IsHeader other → header_spelling other ≡ bytes.now → other ≡ result }
    {
        let mut context = [0; 8];
        context.copy_from_slice(&bytes[12..20]);
        Header {
            command: LittleEndian::read_u16(&bytes[0..2]),
            length: LittleEndian::read_u16(&bytes[2..4]),
            session: LittleEndian::read_u32(&bytes[4..8]),
            status: LittleEndian::read_u32(&bytes[8..12]),
            context,
            options: LittleEndian::read_u32(&bytes[20..24]),
        }
    }

    /// The 24 bytes that spell this header.
    pub fn write(&self) -> [u8; Header::SIZE]
        ensures { result ≡ header_spelling self.now }
    {
        let mut bytes = [0; Header::SIZE];
        LittleEndian::write_u16(&mut bytes[0..2], self.command);
        LittleEndian::write_u16(&mut bytes[2..4], self.length);
        LittleEndian::write_u32(&mut bytes[4..8], self.session);
        LittleEndian::write_u32(&mut bytes[8..12], self.status);
        LittleEndian::write_u32(&mut bytes[20..24], self.options);
        bytes[12..20].copy_from_slice(&self.context);
        bytes
    }
}
