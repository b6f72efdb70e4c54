//! Paths to an object: logical segments in padded form (Volume 1, appendix on segments).
//! Text: docs/PROTOCOL.md, "Paths".

ghost use Rattle.std.specs.Prelude.{◌≡◌, ◌↔◌, ℕ, ◌+◌, ◌*◌, ◌/◌, ◌<◌, ◌≤◌, ◌^◌, ◌++◌, length, IsOk, OnOk, OnErr, IfSome};
ghost use Rattle.arrayvec.specs.ArrayVec.{array_vec_len};
ghost use Rattle.cip_bytes.specs.Reading.{Gives};
ghost use Rattle.cip_message.specs.declared.path.Path.{Path};
ghost use Rattle.cip_message.specs.declared.path.PathFault.{PathFault};
ghost use Rattle.cip_message.specs.Path.{IsPath, path_fault, path_fault_number};
ghost use Rattle.cip_message.specs.PathReading.{value8_of, value16_of, value32_of, kind_of, segment_of_kind};
ghost use Rattle.cip_message.specs.PathReading.{segment_of, class_of, instance_of, attribute_of, member_of, whole_of};
ghost use Rattle.cip_message.specs.PathReading.{path_of};
ghost use Rattle.cip_message.specs.PathWriting.{short16, short32, short_optional, short, FitsPath, IsShortest};

use arrayvec::ArrayVec;
use byteorder::{ByteOrder, LittleEndian};
use cip_bytes::{Full, append};
use thiserror::Error;

/// The path of a request: a class and an instance, and optionally an attribute and a member.
///
/// ```
/// let path = read_path(&[0x20, 0x01, 0x24, 0x01, 0x30, 0x07])?;
/// assert_eq!(rt; path, Path { class: 1, instance: 1, attribute: Some(7), member: None });
/// ```
#[derive(Clone, Copy, Debug, PartialEq, Eq)]
pub struct Path {
    /// The class.
    pub class: u16,
    /// The instance. Instance 0 is the class itself.
    pub instance: u32,
    /// The attribute, if the path names one.
    pub attribute: Option<u16>,
    /// The member, if the path names one.
    pub member: Option<u16>,
}

/// A logical segment of a path: its type and its value.
#[derive(Clone, Copy, Debug, PartialEq, Eq)]
pub enum Segment {
    Class(u16),
    Instance(u32),
    Member(u16),
    Attribute(u16),
}

/// Why bytes are not a path: the first fault from the left.
#[derive(Clone, Copy, Debug, PartialEq, Eq, Error)]
pub enum PathFault {
    /// A byte does not begin a class, instance, member or attribute segment.
    #[error("not a segment type")]
    Segment = 1,
    /// A segment is out of order, or the bytes end before the class and the instance.
    #[error("segments out of order")]
    Order = 2,
    /// The bytes end within a segment.
    #[error("cut within a segment")]
    Cut = 3,
}

impl PathFault {
    /// The fault's number, as printed.
    pub fn number(self) -> u8
        ensures { result ≡ path_fault_number self }
    {
        self as u8
    }
}

/// Reads the 8-bit value after the first byte. Returns it with the rest.
#[inline(always)]
fn value8(bytes: &[u8]) -> Result<(u16, &[u8]), PathFault>
    ensures { Gives (λ x. (x.0, x.1.now)) result (value8_of bytes.now) }
{
    if bytes.len() < 2 {
        return Err(PathFault::Cut);
    }
    Ok((u16::from(bytes[1]), &bytes[2..]))
}

/// Reads the 16-bit value after the first byte and a pad byte. Returns it with the rest.
#[inline(always)]
fn value16(bytes: &[u8]) -> Result<(u16, &[u8]), PathFault>
    ensures { Gives (λ x. (x.0, x.1.now)) result (value16_of bytes.now) }
{
    if bytes.len() < 4 {
        return Err(PathFault::Cut);
    }
    // The pad byte may have any value.
    Ok((LittleEndian::read_u16(&bytes[2..]), &bytes[4..]))
}

/// Reads the 32-bit value after the first byte and a pad byte. Returns it with the rest.
#[inline(always)]
fn value32(bytes: &[u8]) -> Result<(u32, &[u8]), PathFault>
    ensures { Gives (λ x. (x.0, x.1.now)) result (value32_of bytes.now) }
{
    if bytes.len() < 6 {
        return Err(PathFault::Cut);
    }
    Ok((LittleEndian::read_u32(&bytes[2..]), &bytes[6..]))
}

/// The logical type of a segment: bits 7 to 2 of its first byte. (Volume 1, logical segment: type.)
#[derive(Clone, Copy, PartialEq, Eq)]
enum Kind {
    Class,
    Instance,
    Member,
    Attribute,
}

impl Kind {
    /// The type of the segment that begins with this byte.
    #[inline(always)]
    fn of(first: u8) -> Option<Kind>
        ensures { result ≡ kind_of (first / 4 * 4) }
    {
        match first / 4 * 4 {
            0x20 => Some(Kind::Class),
            0x24 => Some(Kind::Instance),
            0x28 => Some(Kind::Member),
            0x30 => Some(Kind::Attribute),
            _ => None,
        }
    }

    /// The segment of this type with a 16-bit value.
    #[inline(always)]
    fn segment(self, value: u16) -> Segment
        ensures { result ≡ segment_of_kind self value }
    {
        match self {
            Kind::Class => Segment::Class(value),
            Kind::Instance => Segment::Instance(u32::from(value)),
            Kind::Member => Segment::Member(value),
            Kind::Attribute => Segment::Attribute(value),
        }
    }
}

/// Reads the segment at the front. Returns it with the rest.
#[inline(always)]
#[tactic(auto, unfolding(crate::specs::PathReading::segment_of))]
fn first_segment(bytes: &[u8]) -> Result<(Segment, &[u8]), PathFault>
    ensures { Gives (λ x. (x.0, x.1.now)) result (segment_of bytes.now) }
{
    let [first, ..] = bytes else {
        return Err(PathFault::Order);
    };
    let Some(kind) = Kind::of(*first) else {
        return Err(PathFault::Segment);
    };
    // Bits 1 and 0 of the first byte are the format of the value.
    match *first % 4 {
        0 => {
            let (value, rest) = value8(bytes)?;
            Ok((kind.segment(value), rest))
        }
        1 => {
            let (value, rest) = value16(bytes)?;
            Ok((kind.segment(value), rest))
        }
        // Only an instance may have a 32-bit value.
        2 if kind == Kind::Instance => {
            let (value, rest) = value32(bytes)?;
            Ok((Segment::Instance(value), rest))
        }
        _ => Err(PathFault::Segment),
    }
}

/// Reads the class, which comes first. Returns it with the rest. (Volume 1, order of logical segments.)
#[inline(always)]
#[tactic(auto, unfolding(crate::specs::PathReading::class_of))]
fn class(bytes: &[u8]) -> Result<(u16, &[u8]), PathFault>
    ensures { Gives (λ x. (x.0, x.1.now)) result (class_of bytes.now) }
{
    match first_segment(bytes)? {
        (Segment::Class(value), rest) => Ok((value, rest)),
        _ => Err(PathFault::Order),
    }
}

/// Reads the instance, which follows the class. Returns it with the rest.
#[inline(always)]
#[tactic(auto, unfolding(crate::specs::PathReading::instance_of))]
fn instance(bytes: &[u8]) -> Result<(u32, &[u8]), PathFault>
    ensures { Gives (λ x. (x.0, x.1.now)) result (instance_of bytes.now) }
{
    match first_segment(bytes)? {
        (Segment::Instance(value), rest) => Ok((value, rest)),
        _ => Err(PathFault::Order),
    }
}

/// Reads the attribute, if the next segment is one. Any other segment is left for the next reader.
#[inline(always)]
#[tactic(auto, unfolding(crate::specs::PathReading::attribute_of))]
fn attribute(bytes: &[u8]) -> Result<(Option<u16>, &[u8]), PathFault>
    ensures { Gives (λ x. (x.0, x.1.now)) result (attribute_of bytes.now) }
{
    if bytes.is_empty() {
        return Ok((None, bytes));
    }
    match first_segment(bytes)? {
        (Segment::Attribute(value), rest) => Ok((Some(value), rest)),
        _ => Ok((None, bytes)),
    }
}

/// Reads the member, if the next segment is one. Any other segment is left for the next reader.
#[inline(always)]
#[tactic(auto, unfolding(crate::specs::PathReading::member_of))]
fn member(bytes: &[u8]) -> Result<(Option<u16>, &[u8]), PathFault>
    ensures { Gives (λ x. (x.0, x.1.now)) result (member_of bytes.now) }
{
    if bytes.is_empty() {
        return Ok((None, bytes));
    }
    match first_segment(bytes)? {
        (Segment::Member(value), rest) => Ok((Some(value), rest)),
        _ => Ok((None, bytes)),
    }
}

/// The path, if nothing follows it. A malformed segment after it is reported as such, before a segment out of
/// order.
#[inline(always)]
#[tactic(auto, unfolding(crate::specs::PathReading::whole_of))]
fn whole(path: Path, bytes: &[u8]) -> Result<Path, PathFault>
    ensures { result ≡ whole_of path bytes.now }
{
    if bytes.is_empty() {
        return Ok(path);
    }
    first_segment(bytes)?;
    Err(PathFault::Order)
}

/// Reads all of the bytes as a path.
#[inline(always)]
pub fn read_path(bytes: &[u8]) -> Result<Path, PathFault>
    // A path is read if and only if the bytes spell it.
    ensures path { (p : Path) → (result ≡ Ok p) ↔ IsPath p bytes.now }
    // Each fault is answered if and only if it is the first one.
    ensures refused { (k : PathFault) → (result ≡ Err k) ↔ path_fault k bytes.now }
    ensures exact { result ≡ path_of bytes.now }
{
    path_at(bytes)
}

/// Reads all of the bytes as a path: the computation. Most paths are a class and an instance, or an attribute too, all
/// in 8-bit format. Such a path is recognized whole.
#[inline(always)]
#[tactic(auto, using(crate::proofs::UsualPaths::instance_path, crate::proofs::UsualPaths::attribute_path))]
fn path_at(bytes: &[u8]) -> Result<Path, PathFault>
    ensures { result ≡ path_of bytes.now }
{
    match bytes {
        [0x20, class, 0x24, instance] => Ok(usual_path(*class, *instance, None)),
        [0x20, class, 0x24, instance, 0x30, attribute] => {
            Ok(usual_path(*class, *instance, Some(u16::from(*attribute))))
        }
        _ => segments_at(bytes),
    }
}

/// The path with these 8-bit values, and without a member.
#[inline(always)]
fn usual_path(class: u8, instance: u8, attribute: Option<u16>) -> Path
    ensures { result ≡ record { class = class; instance = instance; attribute = attribute; member = None } }
{
    Path {
        class: u16::from(class),
        instance: u32::from(instance),
        attribute,
        member: None,
    }
}

/// Reads all of the bytes as a path, segment by segment, in any form.
#[inline(always)]
#[tactic(auto, unfolding(crate::specs::PathReading::path_of))]
fn segments_at(bytes: &[u8]) -> Result<Path, PathFault>
    ensures { result ≡ path_of bytes.now }
{
    let (class, rest) = class(bytes)?;
    let (instance, rest) = instance(rest)?;
    let (attribute, rest) = attribute(rest)?;
    let (member, rest) = member(rest)?;
    let path = Path {
        class,
        instance,
        attribute,
        member,
    };
    whole(path, rest)
}

/// The size of the shortest spelling of a segment with a 16-bit value, in bytes.
fn size16(value: u16) -> usize
    ensures size { (first : ℕ) → result ≡ length (short16 first value) }
    ensures small { result ≤ 6 }
    ensures fits { value < 2 ^ 16 }
{
    if value < 0x100 { 2 } else { 4 }
}

/// The same for a 32-bit value.
fn size32(value: u32) -> usize
    ensures size { (first : ℕ) → result ≡ length (short32 first value) }
    ensures small { result ≤ 6 }
    ensures fits { value < 2 ^ 32 }
{
    if value < 0x100 {
        2
    } else if value < 0x1_0000 {
        4
    } else {
        6
    }
}

/// The same for an optional value.
fn size_optional(value: Option<u16>) -> usize
    ensures size { (first : ℕ) → result ≡ length (short_optional first value) }
    ensures small { result ≤ 6 }
    ensures fits { IfSome value (λ v. v < 2 ^ 16) }
{
    match value {
        None => 0,
        Some(value) => size16(value),
    }
}

/// Appends the shortest spelling of a segment with a 16-bit value. `first` is its first byte in 8-bit format.
fn append16<const N: usize>(out: &mut ArrayVec<u8, N>, first: u8, value: u16)
    requires first { first < 2 ^ 7 }
    requires capacity { array_vec_len out.old + length (short16 first value) ≤ N }
    ensures { out.new.items ≡ out.old.items ++ short16 first value }
{
    if value < 0x100 {
        append(out, &[first, value as u8]);
    } else {
        append(out, &[first + 1, 0]);
        append(out, &value.to_le_bytes());
    }
}

/// The same for a 32-bit value.
fn append32<const N: usize>(out: &mut ArrayVec<u8, N>, first: u8, value: u32)
    requires first { first < 2 ^ 7 }
    requires capacity { array_vec_len out.old + length (short32 first value) ≤ N }
    ensures { out.new.items ≡ out.old.items ++ short32 first value }
{
    if value < 0x1_0000 {
        append16(out, first, value as u16);
    } else {
        append(out, &[first + 2, 0]);
        append(out, &value.to_le_bytes());
    }
}

/// The same for an optional value.
fn append_optional<const N: usize>(out: &mut ArrayVec<u8, N>, first: u8, value: Option<u16>)
    requires first { first < 2 ^ 7 }
    requires capacity { array_vec_len out.old + length (short_optional first value) ≤ N }
    ensures { out.new.items ≡ out.old.items ++ short_optional first value }
{
    if let Some(value) = value {
        append16(out, first, value);
    }
}

/// Appends the shortest spelling of the path, with pad bytes 0.
///
/// # Errors
///
/// `Full` if it does not fit. Then nothing is written.
#[tactic(auto, unfolding(crate::specs::PathWriting::short))]
pub fn write_path<const N: usize>(out: &mut ArrayVec<u8, N>, path: Path) -> Result<(), Full>
    ensures fits { IsOk result ↔ (array_vec_len out.old + length (short path) ≤ N) }
    ensures ok { OnOk result (out.new.items ≡ out.old.items ++ short path) }
    ensures err { OnErr result (out.new ≡ out.old) }
    ensures shortest { IsShortest path }
{
    let size = size16(path.class)
        + size32(path.instance)
        + size_optional(path.attribute)
        + size_optional(path.member);
    if out.remaining_capacity() < size {
        return Err(Full);
    }
    append16(out, 0x20, path.class);
    append32(out, 0x24, path.instance);
    append_optional(out, 0x30, path.attribute);
    append_optional(out, 0x28, path.member);
    Ok(())
}
