//! Reads the items of a packet. (Volume 2, common packet format.)
//!
//! ```text
//!  items   [ count ][ type | length | data ][ type | length | data ] ..
//!            2        2      2               2      2
//! ```
//!
//! Text: docs/PROTOCOL.md, "Packets: SendRRData and SendUnitData".

ghost use Rattle.std.specs.Prelude.{◌≡◌, ◌↔◌, ◌≤◌, ◌<◌, drop, length, List, Ok, Err, MatchOption};
ghost use Rattle.enip_wire.specs.declared.item_list.CpfFault.{CpfFault};
ghost use Rattle.std.specs.Iterator.{YieldsFirstBy, item_count};
ghost use Rattle.std.specs.Option.{option_map};
ghost use Rattle.cip_bytes.specs.Reading.{map_ok};
ghost use Rattle.enip_wire.specs.Items.{Item, items, AreItems, IsShort, IsTrailing, item_of};
ghost use Rattle.enip_wire.specs.Items.{item_at, size_at, after, items_of, two_of, two_in, next_of};

use byteorder::{ByteOrder, LittleEndian};
use std::marker::Model;
use thiserror::Error;

/// The size of the item count in bytes. It comes before the first item.
pub(crate) const COUNT: usize = 2;

/// The size of an item's head in bytes: its type and its length. It comes before the item's data.
pub(crate) const ITEM_HEAD: usize = 4;

/// Why bytes are not a list of items, or not a body: the first of these that holds. (Volume 2, common packet
/// format.)
#[derive(Clone, Copy, Debug, PartialEq, Eq, Drop, Error)]
pub enum CpfFault {
    /// The bytes end within an item, or before the items.
    #[error("the packet ends within an item")]
    Short = 1,
    /// Bytes follow the last item.
    #[error("bytes follow the last item")]
    Trailing = 2,
    /// The interface handle is not 0.
    #[error("the interface is not 0")]
    Interface = 3,
    /// There is no first item, or it is not the address item of this body.
    #[error("the first item is not the address")]
    Address = 4,
    /// There is no second item, or it is not the data item of this body.
    #[error("the second item is not the data")]
    Data = 5,
}

impl CpfFault {
    ghost use Rattle.enip_wire.specs.Items.{cpf_fault_number};

    /// The fault's number, as printed.
    pub fn number(self) -> u8
        ensures { result ≡ cpf_fault_number self }
    {
        self as u8
    }
}

/// An item, lent from the bytes that spell it.
#[derive(Clone, Copy, Debug)]
pub struct ItemView<'a> {
    /// The item type, 16 bits.
    pub kind: u16,
    /// The item's data, at most 65,535 bytes.
    pub bytes: &'a [u8],
}

/// The first two items of a list, as far as there are so many.
#[derive(Clone, Copy)]
pub(crate) struct Pair<'a> {
    /// The first item.
    pub(crate) first: Option<ItemView<'a>>,
    /// The second item.
    pub(crate) second: Option<ItemView<'a>>,
}

/// An iterator over the items of a list.
///
/// ```
/// let mut size = 0;
/// for item in cpf_items(packet)? {
///     size += item.bytes.len();
/// }
/// ```
#[derive(Debug, Drop)]
pub struct Items<'a> {
    left: u16,
    text: &'a [u8],
}

impl<'a> Model for Items<'a> {
    ghost use Rattle.std.specs.Prelude.{List};
    ghost use Rattle.std.specs.Coded.{coded_list};
    ghost use Rattle.enip_wire.specs.Items.{Item, item_code, first_items};

    ghost Value = { List Item };

    ghost coded = { coded_list item_code };

    ghost view = { λ s. first_items s.left s.text.now };
}

impl<'a> Iterator for Items<'a> {
    type Item = ItemView<'a>;

    ghost next_gives = { YieldsFirstBy item_of (λ left. left) };

    ghost remaining = { item_count (λ left. left) };

    #[inline(always)]
    fn next(&mut self) -> Option<ItemView<'a>> {
        if self.left == 0 {
            return None;
        }
        let (item, rest) = first_item(self.text)?;
        self.left -= 1;
        self.text = rest;
        Some(item)
    }
}

/// Reads all of the bytes as a list of items, and lends them. (Volume 2, common packet format.)
///
/// # Errors
///
/// `Short` if the bytes end within an item or the count, `Trailing` if bytes follow the last item.
#[inline(always)]
pub fn cpf_items(text: &[u8]) -> Result<Items<'_>, CpfFault>
    // Items are read if and only if the bytes spell them.
    ensures spelled { (l : List Item) → (result ≡ Ok l) ↔ (AreItems l × (text.now ≡ items l)) }
    ensures short { (result ≡ Err CpfFault.Short) ↔ IsShort text.now }
    ensures trailing { (result ≡ Err CpfFault.Trailing) ↔ IsTrailing text.now }
    ensures exact { result ≡ items_of text.now }
{
    read_items(text)
}

/// Reads all of the bytes as a list of items: the computation.
#[inline(always)]
fn read_items(text: &[u8]) -> Result<Items<'_>, CpfFault>
    ensures { result ≡ items_of text.now }
{
    if text.len() < COUNT {
        return Err(CpfFault::Short);
    }
    let left = LittleEndian::read_u16(&text[..COUNT]);
    let text = &text[COUNT..];
    let rest = after_items(left, text)?;
    // Nothing may follow the last item.
    if rest.is_empty() {
        Ok(Items { left, text })
    } else {
        Err(CpfFault::Trailing)
    }
}

/// Reads the first two items of a list, each once. The faults are those of `cpf_items`.
#[inline(always)]
pub(crate) fn first_two(text: &[u8]) -> Result<Pair<'_>, CpfFault>
    ensures { map_ok two_in result ≡ map_ok two_of (items_of text.now) }
{
    let Some((count, text)) = text.split_first_chunk::<COUNT>() else {
        return Err(CpfFault::Short);
    };
    let count = LittleEndian::read_u16(count);
    let (first, text) = next_item(0 < count, text)?;
    let (second, text) = next_item(1 < count, text)?;
    // Nothing may follow the last item.
    match after_items(count.saturating_sub(2), text)? {
        [] => Ok(Pair { first, second }),
        _ => Err(CpfFault::Trailing),
    }
}

/// Reads the next item, if there should be one. Returns it with the rest.
#[inline(always)]
fn next_item(is_there: bool, text: &[u8]) -> Result<(Option<ItemView<'_>>, &[u8]), CpfFault>
    ensures { map_ok (λ found. record { item = option_map item_of found.0; rest = found.1.now }) result
        ≡ next_of is_there text.now }
{
    if !is_there {
        return Ok((None, text));
    }
    match first_item(text) {
        Some((item, rest)) => Ok((Some(item), rest)),
        None => Err(CpfFault::Short),
    }
}

/// Reads the item at the front, if it is whole. Returns it with the rest.
#[inline(always)]
fn first_item(text: &[u8]) -> Option<(ItemView<'_>, &[u8])>
    ensures { MatchOption result (length text.now < size_at text.now)
        (λ x. (size_at text.now ≤ length text.now) × (item_of x.0 ≡ item_at text.now)
        × (x.1.now ≡ drop (size_at text.now) text.now)) }
{
    if text.len() < ITEM_HEAD {
        return None;
    }
    let kind = LittleEndian::read_u16(&text[..2]);
    let length = usize::from(LittleEndian::read_u16(&text[2..ITEM_HEAD]));
    let rest = &text[ITEM_HEAD..];
    // All the data must be there, otherwise the item is cut short.
    if rest.len() < length {
        return None;
    }
    let item = ItemView {
        kind,
        bytes: &rest[..length],
    };
    Some((item, &rest[length..]))
}

/// The bytes after the first `count` items.
#[inline(always)]
fn after_items(count: u16, text: &[u8]) -> Result<&[u8], CpfFault>
    ensures { map_ok (λ rest. rest.now) result ≡ after count text.now }
{
    let mut rest = text;
    for index in 0..count {
        let Some((_, next)) = first_item(rest) else {
            return Err(CpfFault::Short);
        };
        rest = next;
    }
    Ok(rest)
}
