//! Reads the bodies of SendRRData and SendUnitData. (Volume 2, common packet format.)
//!
//! ```text
//!  body    [ interface | timeout ][ items ]
//!            4           2
//! ```
//!
//! Text: docs/PROTOCOL.md, "Packets: SendRRData and SendUnitData".

ghost use Rattle.std.specs.Prelude.{◌≡◌, ◌↔◌, ◌≤◌, ◌+◌, length, List, ℕ, Ok, Err, IfSome};
ghost use Rattle.enip_wire.specs.declared.item_list.CpfFault.{CpfFault};
ghost use Rattle.cip_bytes.specs.Numbers.{number_at};
ghost use Rattle.cip_bytes.specs.Reading.{map_ok};
ghost use Rattle.enip_wire.specs.Bodies.{IsRrBody, IsUnitBody, IsBodyFault, IsNullAddress, IsConnectedAddress};
ghost use Rattle.enip_wire.specs.Bodies.{body_items_of, data_in, rr_body_of, unit_body_of};
ghost use Rattle.enip_wire.specs.Items.{item_of, two_of, two_in};
ghost use Rattle.std.specs.Option.{option_map};

use crate::item_list::{CpfFault, ItemView, Pair, first_two};
use byteorder::{ByteOrder, LittleEndian};

/// The item types. (Volume 2, common packet format.)
const NULL_ADDRESS: u16 = 0x00;

const CONNECTED_ADDRESS: u16 = 0xa1;

const CONNECTED_DATA: u16 = 0xb1;

const UNCONNECTED_DATA: u16 = 0xb2;

/// The size of a body's interface handle in bytes. With the timeout it comes before the items.
const INTERFACE: usize = 4;

pub(crate) const BODY_HEAD: usize = INTERFACE + 2;

/// The size of the connection ID in a connected address item, in bytes.
pub(crate) const CONNECTION_ID: usize = 4;

/// The number of bytes before the data, in a body with exactly two items.
const RR_FRONT: usize = 16;

const UNIT_FRONT: usize = 20;

/// The type and the length of an address item, as one number.
const NULL_HEAD: u32 = 0;

const CONNECTED_HEAD: u32 = 0x0004_00a1;

/// Reads the body of a SendRRData and lends its data. The body is interface 0, any timeout, and items. The first
/// item is the null address and the second the unconnected data. Further items are ignored. (Volume 2, SendRRData.)
///
/// # Errors
///
/// The first of these: `Short` if there are fewer than six bytes, `Interface`, `Short` for the items, `Trailing`,
/// `Address`, `Data`.
#[inline(always)]
pub fn rr_body(text: &[u8]) -> Result<&[u8], CpfFault>
    // Data are read if and only if the body spells them.
    ensures spelled { (bytes : List ℕ) → (map_ok (λ lent. lent.now) result ≡ Ok bytes) ↔ IsRrBody text.now bytes }
    ensures faulty { (fault : CpfFault) →
        (map_ok (λ lent. lent.now) result ≡ Err fault) ↔ IsBodyFault IsNullAddress 0xb2 text.now fault }
    ensures exact { map_ok (λ lent. lent.now) result ≡ rr_body_of text.now }
{
    read_rr_body(text)
}

/// Reads the body of a SendRRData: the computation.
#[inline(always)]
fn read_rr_body(text: &[u8]) -> Result<&[u8], CpfFault>
    ensures { map_ok (λ lent. lent.now) result ≡ rr_body_of text.now }
{
    match rr_of_two(text) {
        Some(bytes) => Ok(bytes),
        None => rr_by_items(text),
    }
}

/// Reads the body of a SendRRData, item by item.
#[tactic(auto, using(crate::proofs::TwoLemmas::rr_two))]
#[inline(never)]
fn rr_by_items(text: &[u8]) -> Result<&[u8], CpfFault>
    ensures { map_ok (λ lent. lent.now) result ≡ rr_body_of text.now }
{
    let items = body_items(text)?;
    match items.first {
        // A null address item has no data.
        Some(ItemView { kind, bytes }) if kind == NULL_ADDRESS && bytes.is_empty() => {
            data(items.second, UNCONNECTED_DATA)
        }
        _ => Err(CpfFault::Address),
    }
}

/// Reads the body of a SendUnitData and lends its connection ID and data. The body is interface 0, any timeout, and
/// items. The first item is a connected address and the second the connected data. Further items are ignored.
/// (Volume 2, SendUnitData.)
///
/// # Errors
///
/// As `rr_body`.
#[inline(always)]
pub fn unit_body(text: &[u8]) -> Result<(u32, &[u8]), CpfFault>
    // An ID and data are read if and only if the body spells them.
    ensures spelled { (id : ℕ) (bytes : List ℕ) →
        (map_ok {B = ℕ × List ℕ} (λ found. (found.0, found.1.now)) result ≡ Ok (id, bytes))
        ↔ IsUnitBody text.now id bytes }
    ensures faulty { (fault : CpfFault) →
        (map_ok {B = ℕ × List ℕ} (λ found. (found.0, found.1.now)) result ≡ Err fault)
        ↔ IsBodyFault IsConnectedAddress 0xb1 text.now fault }
    ensures exact { map_ok {B = ℕ × List ℕ} (λ found. (found.0, found.1.now)) result ≡ unit_body_of text.now }
{
    read_unit_body(text)
}

/// Reads the body of a SendUnitData: the computation.
#[inline(always)]
fn read_unit_body(text: &[u8]) -> Result<(u32, &[u8]), CpfFault>
    ensures { map_ok {B = ℕ × List ℕ} (λ found. (found.0, found.1.now)) result ≡ unit_body_of text.now }
{
    match unit_of_two(text) {
        Some(found) => Ok(found),
        None => unit_by_items(text),
    }
}

/// Reads the body of a SendUnitData, item by item.
#[tactic(auto, using(crate::proofs::TwoLemmas::unit_two))]
#[inline(never)]
fn unit_by_items(text: &[u8]) -> Result<(u32, &[u8]), CpfFault>
    ensures { map_ok {B = ℕ × List ℕ} (λ found. (found.0, found.1.now)) result ≡ unit_body_of text.now }
{
    let items = body_items(text)?;
    match items.first {
        // A connected address item is a connection ID.
        Some(ItemView { kind, bytes })
            if kind == CONNECTED_ADDRESS && bytes.len() == CONNECTION_ID => {
            let id = LittleEndian::read_u32(bytes);
            Ok((id, data(items.second, CONNECTED_DATA)?))
        }
        _ => Err(CpfFault::Address),
    }
}

/// The data of a SendRRData with exactly two items, the usual one. `None` for any other body. It saves going through
/// the items.
#[inline(always)]
fn rr_of_two(text: &[u8]) -> Option<&[u8]>
    ensures { IfSome result (λ bytes. rr_body_of text.now ≡ Ok bytes.now) }
{
    if text.len() >= RR_FRONT
        && u32_at(text, 0) == 0
        && u16_at(text, 6) == 2
        && u32_at(text, 8) == NULL_HEAD
        && u16_at(text, 12) == UNCONNECTED_DATA
        && usize::from(u16_at(text, 14)) == text.len() - RR_FRONT
    {
        Some(&text[RR_FRONT..])
    } else {
        None
    }
}

/// The connection ID and the data of a SendUnitData with exactly two items, the usual one. `None` for any other body.
/// It saves going through the items.
#[inline(always)]
fn unit_of_two(text: &[u8]) -> Option<(u32, &[u8])>
    ensures { IfSome result (λ found. unit_body_of text.now ≡ Ok (found.0, found.1.now)) }
{
    if text.len() >= UNIT_FRONT
        && u32_at(text, 0) == 0
        && u16_at(text, 6) == 2
        && u32_at(text, 8) == CONNECTED_HEAD
        && u16_at(text, 16) == CONNECTED_DATA
        && usize::from(u16_at(text, 18)) == text.len() - UNIT_FRONT
    {
        Some((u32_at(text, 12), &text[UNIT_FRONT..]))
    } else {
        None
    }
}

/// The number in two bytes at an offset.
#[inline(always)]
fn u16_at(text: &[u8], offset: usize) -> u16
    requires { offset + 2 ≤ length text.now }
    ensures { result ≡ number_at offset 2 text.now }
{
    LittleEndian::read_u16(&text[offset..offset + 2])
}

/// The number in four bytes at an offset.
#[inline(always)]
fn u32_at(text: &[u8], offset: usize) -> u32
    requires { offset + 4 ≤ length text.now }
    ensures { result ≡ number_at offset 4 text.now }
{
    LittleEndian::read_u32(&text[offset..offset + 4])
}

/// Reads the first two items of a body.
#[inline(always)]
fn body_items(text: &[u8]) -> Result<Pair<'_>, CpfFault>
    ensures { map_ok two_in result ≡ map_ok two_of (body_items_of text.now) }
{
    if text.len() < BODY_HEAD {
        return Err(CpfFault::Short);
    }
    // Interface 0 is CIP. The timeout after it may have any value.
    if LittleEndian::read_u32(&text[..INTERFACE]) != 0 {
        return Err(CpfFault::Interface);
    }
    first_two(&text[BODY_HEAD..])
}

/// The data of an item, which must have this type.
#[inline(always)]
fn data(item: Option<ItemView<'_>>, kind: u16) -> Result<&[u8], CpfFault>
    ensures { map_ok (λ lent. lent.now) result ≡ data_in kind (option_map item_of item.entry) }
{
    match item {
        Some(item) if item.kind == kind => Ok(item.bytes),
        _ => Err(CpfFault::Data),
    }
}
