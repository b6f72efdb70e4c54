//! Appends items and bodies to a buffer. (Volume 2, common packet format.)

ghost use Rattle.std.specs.Prelude.{ℕ, ◌≡◌, ◌↔◌, ◌≤◌, ◌<◌, ◌+◌, ◌^◌, ◌++◌, length, map, List, IsOk, OnOk, OnErr, IsTrue};
ghost use Rattle.std.specs.List.{flat_map};
ghost use Rattle.arrayvec.specs.ArrayVec.{array_vec_len};
ghost use Rattle.enip_wire.specs.Items.{item as item_text, items, AreItems, item_of};
ghost use Rattle.enip_wire.specs.Bodies.{rr_body_bytes, unit_body_bytes};

use crate::body::{BODY_HEAD, CONNECTION_ID};
use crate::item_list::{COUNT, ITEM_HEAD, ItemView};
use arrayvec::ArrayVec;
use cip_bytes::{Full, append, append_u16};

/// How many bytes of a body that is written come before its data.
const RR_BODY_HEAD: usize = BODY_HEAD + COUNT + ITEM_HEAD + ITEM_HEAD;

const UNIT_BODY_HEAD: usize = RR_BODY_HEAD + CONNECTION_ID;

/// Appends a list of items. (Volume 2, common packet format.)
///
/// # Errors
///
/// `Full` if they do not fit. Then nothing is written.
pub fn write_items<const N: usize>(
    out: &mut ArrayVec<u8, N>,
    list: &[ItemView<'_>],
) -> Result<(), Full>
    requires { AreItems (map item_of list.now) }
    ensures fits { IsOk result ↔ (array_vec_len out.old + length (items (map item_of list.now)) ≤ N) }
    ensures ok { OnOk result (out.new.items ≡ out.old.items ++ items (map item_of list.now)) }
    ensures err { OnErr result (out.new ≡ out.old) }
{
    let capacity = out.remaining_capacity();
    if capacity < COUNT || !items_fit(capacity - COUNT, list) {
        return Err(Full);
    }
    append_u16(out, list.len() as u16);
    for item in list {
        append_item(out, item.kind, item.bytes);
    }
    Ok(())
}

/// Appends the body of a SendRRData with one data item: interface 0, timeout 0, the null address and the
/// unconnected data. (Volume 2, SendRRData.)
///
/// # Errors
///
/// `Full` if it does not fit. Then nothing is written.
pub fn write_rr_body<const N: usize>(out: &mut ArrayVec<u8, N>, data: &[u8]) -> Result<(), Full>
    requires { length «data».now < 2 ^ 16 }
    ensures fits { IsOk result ↔ (array_vec_len out.old + length (rr_body_bytes «data».now) ≤ N) }
    ensures ok { OnOk result (out.new.items ≡ out.old.items ++ rr_body_bytes «data».now) }
    ensures err { OnErr result (out.new ≡ out.old) }
{
    let capacity = out.remaining_capacity();
    if capacity < RR_BODY_HEAD || capacity - RR_BODY_HEAD < data.len() {
        return Err(Full);
    }
    append(out, &rr_body_head(data.len() as u16));
    append(out, data);
    Ok(())
}

/// Appends the body of a SendUnitData: interface 0, timeout 0, the connected address with the connection ID, and
/// the connected data. (Volume 2, SendUnitData.)
///
/// # Errors
///
/// `Full` if it does not fit. Then nothing is written.
pub fn write_unit_body<const N: usize>(
    out: &mut ArrayVec<u8, N>,
    id: u32,
    data: &[u8],
) -> Result<(), Full>
    requires { length «data».now < 2 ^ 16 }
    ensures fits { IsOk result ↔ (array_vec_len out.old + length (unit_body_bytes id «data».now) ≤ N) }
    ensures ok { OnOk result (out.new.items ≡ out.old.items ++ unit_body_bytes id «data».now) }
    ensures err { OnErr result (out.new ≡ out.old) }
{
    let capacity = out.remaining_capacity();
    if capacity < UNIT_BODY_HEAD || capacity - UNIT_BODY_HEAD < data.len() {
        return Err(Full);
    }
    append(out, &unit_body_head(id, data.len() as u16));
    append(out, data);
    Ok(())
}

/// The body of a SendRRData up to its `size` bytes of data: interface 0, timeout 0, two items, the null address,
/// and the type and length of the unconnected data. (Volume 2, SendRRData.)
#[inline(always)]
pub fn rr_body_head(size: u16) -> [u8; RR_BODY_HEAD]
    ensures { (bytes : List ℕ) → length bytes ≡ size → rr_body_bytes bytes ≡ result ++ bytes }
{
    let [low, high] = size.to_le_bytes();
    [0, 0, 0, 0, 0, 0, 2, 0, 0, 0, 0, 0, 0xb2, 0, low, high]
}

/// The body of a SendUnitData up to its `size` bytes of data: interface 0, timeout 0, two items, the connected
/// address with the connection ID, and the type and length of the connected data. (Volume 2, SendUnitData.)
#[inline(always)]
pub fn unit_body_head(id: u32, size: u16) -> [u8; UNIT_BODY_HEAD]
    ensures { (bytes : List ℕ) → length bytes ≡ size → unit_body_bytes id bytes ≡ result ++ bytes }
{
    let [low, high] = size.to_le_bytes();
    let [a, b, c, d] = id.to_le_bytes();
    [
        0, 0, 0, 0, 0, 0, 2, 0, 0xa1, 0, 4, 0, a, b, c, d, 0xb1, 0, low, high,
    ]
}

/// Whether the items fit into this capacity.
fn items_fit(mut capacity: usize, list: &[ItemView<'_>]) -> bool
    ensures { IsTrue result ↔ (length (flat_map item_text (map item_of list.now)) ≤ capacity) }
{
    for item in list {
        if capacity < ITEM_HEAD || capacity - ITEM_HEAD < item.bytes.len() {
            return false;
        }
        capacity -= ITEM_HEAD + item.bytes.len();
    }
    true
}

/// Appends an item. It must fit.
fn append_item<const N: usize>(out: &mut ArrayVec<u8, N>, kind: u16, bytes: &[u8])
    requires capacity { array_vec_len out.old + 4 + length bytes.now ≤ N }
    requires counted { length bytes.now < 2 ^ 16 }
    ensures { out.new.items ≡ out.old.items ++ item_text (record { kind = kind; bytes = bytes.now }) }
{
    append_u16(out, kind);
    append_u16(out, bytes.len() as u16);
    append(out, bytes);
}
