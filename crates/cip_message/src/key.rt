//! The electronic key, with which the opener of a connection says which device it expects (Volume 1, appendix on
//! segments, and Connection Manager).
//!
//! Text: docs/PROTOCOL.md, "Paths".

ghost use Rattle.std.specs.Prelude.{◌≡◌, ◌↔◌, ◌+◌, ◌^◌, ◌<◌, ◌≤◌, ◌++◌, length, IsNone, Some, IsOk, OnOk, OnErr};
ghost use Rattle.std.specs.Prelude.{if◌then◌else◌};
ghost use Rattle.arrayvec.specs.ArrayVec.{array_vec_len};
ghost use Rattle.cip_message.specs.declared.key.Key.{Key};
ghost use Rattle.cip_message.specs.Key.{IsKey, MeetsVendor, MeetsType, MeetsRevision, key as key_text, refusal, key_of};
ghost use Rattle.cip_message.specs.Key.{is_met as is_met_by};

use arrayvec::ArrayVec;
use byteorder::{ByteOrder, LittleEndian};
use cip_bytes::protocol::ExtendedStatus;
use cip_bytes::{Full, append, append_u8, append_u16};

/// What an electronic key requires of a device. A field of 0 requires nothing.
#[derive(Clone, Copy, Debug, PartialEq, Eq)]
pub struct Key {
    /// The vendor ID, 0 for any.
    pub vendor: u16,
    /// The device type, 0 for any.
    pub device_type: u16,
    /// The product code, 0 for any.
    pub product_code: u16,
    /// The major revision, 0 to 127, 0 for any.
    pub major: u8,
    /// The compatibility bit, bit 7 of the byte of the major revision. If it is set, a minor revision up to the
    /// device's own is accepted.
    pub compatible: bool,
    /// The minor revision, 0 for any.
    pub minor: u8,
}

/// The segment type and the format of a key. (Volume 1, key segment, format 4.)
pub(crate) const KEY_SEGMENT: [u8; 2] = [0x34, 0x04];

/// The size of a key in bytes, including its segment type and format.
pub(crate) const KEY_SIZE: usize = 10;

/// The compatibility bit, above the seven bits of the major revision.
const COMPATIBILITY: u8 = 0x80;

impl Key {
    /// Appends the key.
    ///
    /// # Errors
    ///
    /// `Full` if the key does not fit. Then nothing is written.
    pub fn write<const N: usize>(&self, out: &mut ArrayVec<u8, N>) -> Result<(), Full>
        requires { self.now.major < 2 ^ 7 }
        ensures fits { IsOk result ↔ (array_vec_len out.old + length (key_text self.now) ≤ N) }
        ensures ok { OnOk result (out.new.items ≡ out.old.items ++ key_text self.now) }
        ensures err { OnErr result (out.new ≡ out.old) }
        // What is written spells a key, and reads as this key again.
        ensures spelled { OnOk result (IsKey self.now) }
        ensures again { OnOk result (key_of (key_text self.now) ≡ Some self.now) }
    {
        if out.remaining_capacity() < KEY_SIZE {
            return Err(Full);
        }
        append(out, &KEY_SEGMENT);
        append_u16(out, self.vendor);
        append_u16(out, self.device_type);
        append_u16(out, self.product_code);
        append_u8(out, self.major_byte());
        append_u8(out, self.minor);
        Ok(())
    }

    /// The major revision, with the compatibility bit above it.
    fn major_byte(&self) -> u8
        requires { self.now.major < 2 ^ 7 }
        ensures { result ≡ self.now.major + (if self.now.compatible then 128 else 0) }
    {
        if self.compatible {
            self.major + COMPATIBILITY
        } else {
            self.major
        }
    }
}

/// The numbers of a device that an electronic key is compared with.
///
/// ```
/// let device = Device { vendor: 0x1234, device_type: 0x2b, product_code: 7, major: 2, minor: 5 };
/// let key = Key { vendor: 0x1234, device_type: 0, product_code: 0, major: 2, compatible: true, minor: 3 };
/// assert_eq!(rt; device.accepts(&key), None);
/// ```
#[derive(Clone, Copy, Debug, PartialEq, Eq)]
pub struct Device {
    /// The vendor ID.
    pub vendor: u16,
    /// The device type.
    pub device_type: u16,
    /// The product code.
    pub product_code: u16,
    /// The major revision, 1 to 127.
    pub major: u8,
    /// The minor revision.
    pub minor: u8,
}

/// Reads all of the bytes as one key. `None` if they are not exactly one key.
pub fn read_key(bytes: &[u8]) -> Option<Key>
    // A key is read if and only if the bytes spell it.
    ensures key { (k : Key) → (result ≡ Some k) ↔ (IsKey k × (bytes.now ≡ key_text k)) }
    ensures exact { result ≡ key_of bytes.now }
{
    key_at(bytes)
}

/// Reads all of the bytes as one key: the computation.
#[tactic(auto, unfolding(crate::specs::Key::key_of))]
fn key_at(bytes: &[u8]) -> Option<Key>
    ensures { result ≡ key_of bytes.now }
{
    // A key is its segment type, its format and eight bytes, and nothing more.
    if bytes.len() != KEY_SIZE || bytes[0] != KEY_SEGMENT[0] || bytes[1] != KEY_SEGMENT[1] {
        return None;
    }
    // Bit 7 of the byte of the major revision is the compatibility bit.
    let revision = bytes[8];
    Some(Key {
        vendor: LittleEndian::read_u16(&bytes[2..]),
        device_type: LittleEndian::read_u16(&bytes[4..]),
        product_code: LittleEndian::read_u16(&bytes[6..]),
        major: if revision < COMPATIBILITY {
            revision
        } else {
            revision - COMPATIBILITY
        },
        compatible: revision >= COMPATIBILITY,
        minor: bytes[9],
    })
}

/// Whether a number meets what the key requires. 0 requires nothing.
fn is_met(asked: u16, has: u16) -> bool
    ensures { result ≡ is_met_by asked has }
{
    asked == 0 || asked == has
}

impl Device {
    /// The extended status with which the device refuses the key, or `None` if it accepts it.
    pub fn accepts(&self, key: &Key) -> Option<ExtendedStatus>
        ensures accepted { IsNone result
            ↔ (MeetsVendor self.now key.now × MeetsType self.now key.now × MeetsRevision self.now key.now) }
        // The first test that fails decides the status.
        ensures vendor { (result ≡ Some ExtendedStatus.VendorOrProduct) ↔ ¬ MeetsVendor self.now key.now }
        ensures device_type { (result ≡ Some ExtendedStatus.DeviceType)
            ↔ (MeetsVendor self.now key.now × ¬ MeetsType self.now key.now) }
        ensures revision { (result ≡ Some ExtendedStatus.Revision)
            ↔ (MeetsVendor self.now key.now × MeetsType self.now key.now × ¬ MeetsRevision self.now key.now) }
        ensures exact { result ≡ refusal self.now key.now }
    {
        self.refusal_of(key)
    }

    /// The status of the first test that fails: the computation.
    fn refusal_of(&self, key: &Key) -> Option<ExtendedStatus>
        ensures { result ≡ refusal self.now key.now }
    {
        // Vendor and product code are tested first, then the device type, then the revision (our choice).
        if !is_met(key.vendor, self.vendor) || !is_met(key.product_code, self.product_code) {
            return Some(ExtendedStatus::VendorOrProduct);
        }
        if !is_met(key.device_type, self.device_type) {
            return Some(ExtendedStatus::DeviceType);
        }
        let same_major = is_met(u16::from(key.major), u16::from(self.major));
        // With the compatibility bit, a minor revision up to the device's own is accepted.
        let same_minor = is_met(u16::from(key.minor), u16::from(self.minor));
        if same_major && (same_minor || key.compatible && key.minor <= self.minor) {
            None
        } else {
            Some(ExtendedStatus::Revision)
        }
    }
}
