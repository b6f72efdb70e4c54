//! The attributes of the ledger, and the services that read them.
ghost use Rattle.std.specs.Prelude.{◌≡◌, ◌≤◌, [], ◌∷◌, ◌++◌, length, option_map, is_some};
ghost use Rattle.std.specs.List.{flat_map};
ghost use Rattle.cip_bytes.specs.Numbers.{words_of};
ghost use Rattle.cip_objects.specs.Entries.{attribute_in};
ghost use Rattle.cip_ledger.specs.AttributeValue.{value_bytes, values_in, Appends, AppendsList, listed};
ghost use Rattle.cip_ledger.specs.Services.{class_values, value_named, single, get_attribute_list, list_entry, has_all};
ghost use Rattle.cip_ledger.specs.Services.{reply_to};

use crate::reply::{answer, begin, set_status, size_fault};
use crate::service::{GET_ATTRIBUTE_LIST, GET_ATTRIBUTE_SINGLE};
use crate::status::Status;
use byteorder::{ByteOrder, LittleEndian};
use cip_bytes::{append, append_u16};
use cip_objects::{REPLY_LIMIT, ReplyBuf};

/// The value of an attribute. (Volume 1, elementary data types.)
#[derive(Clone, Copy)]
pub(crate) enum AttributeValue {
    /// UINT.
    Uint(u16),
    /// ULINT.
    Ulint(u64),
}

/// The attributes of the instance.
#[derive(Clone, Copy)]
pub(crate) struct Attributes {
    /// Attribute 1: how many slots there are.
    pub(crate) slots: u16,
    /// Attribute 2: how many of them are taken.
    pub(crate) taken: u16,
    /// Attribute 3: the number of the device's life.
    pub(crate) life: u64,
}

impl Attributes {
    /// The value of an attribute, `None` if there is none of this number.
    fn value(self, attribute: u16) -> Option<AttributeValue>
        ensures { option_map value_bytes result ≡ attribute_in attribute (values_in self) }
    {
        match attribute {
            1 => Some(AttributeValue::Uint(self.slots)),
            2 => Some(AttributeValue::Uint(self.taken)),
            3 => Some(AttributeValue::Ulint(self.life)),
            _ => None,
        }
    }

    /// The value of the attribute that a path names, if it names one that there is.
    pub(crate) fn named(self, attribute: Option<u16>) -> Option<AttributeValue>
        ensures { option_map value_bytes result ≡ value_named (values_in self) attribute }
    {
        self.value(attribute?)
    }

    /// Get_Attribute_List: replies with each attribute of a list, with a status of its own.
    pub(crate) fn write_list(self, data: &[u8], max_size: usize, reply: &mut ReplyBuf)
        requires max_size_from { 8 ≤ max_size }
        requires max_size_to { max_size ≤ REPLY_LIMIT }
        ensures reply { reply.new.items
            ≡ reply_to GET_ATTRIBUTE_LIST (get_attribute_list (values_in self) max_size «data».now) }
        ensures fits { length reply.new.items ≤ max_size }
    {
        // the count and that many attribute numbers, two bytes each (common services)
        if data.len() < 2 {
            begin(GET_ATTRIBUTE_LIST, Status::NotEnoughData, reply);
            return;
        }
        let count = LittleEndian::read_u16(data);
        if let Some(status) = size_fault(2 + 2 * usize::from(count), data) {
            begin(GET_ATTRIBUTE_LIST, status, reply);
            return;
        }
        begin(GET_ATTRIBUTE_LIST, Status::Success, reply);
        append_u16(reply, count);
        match self.append_list(&data[2..], max_size, reply) {
            Some(true) => {}
            Some(false) => set_status(Status::AttributeListError, reply),
            None => begin(GET_ATTRIBUTE_LIST, Status::ReplyDataTooLarge, reply),
        }
    }

    /// Appends each attribute of a list of numbers, two bytes each, and answers whether all are there. `None` if they
    /// do not fit.
    #[tactic(auto, using(crate::proofs::Words::words))]
    fn append_list(self, list: &[u8], max_size: usize, reply: &mut ReplyBuf) -> Option<bool>
        requires max_size { max_size ≤ REPLY_LIMIT }
        requires fits { length reply.old.items ≤ max_size }
        ensures { AppendsList max_size (reply.old.items ++ flat_map (list_entry (values_in self)) (words_of list.now))
            (has_all (values_in self) (words_of list.now)) result reply.new.items }
    {
        let mut all = true;
        for i in 0..list.len() / 2 {
            let attribute = LittleEndian::read_u16(&list[2 * i..]);
            let there = append_listed(attribute, self.value(attribute), max_size, reply)?;
            all = all && there;
        }
        Some(all)
    }
}

/// Appends one attribute of a list, and answers whether it is there. `None` if it does not fit.
fn append_listed(
    attribute: u16,
    value: Option<AttributeValue>,
    max_size: usize,
    reply: &mut ReplyBuf,
) -> Option<bool>
    requires max_size { max_size ≤ REPLY_LIMIT }
    requires fits { length reply.old.items ≤ max_size }
    ensures { AppendsList max_size (reply.old.items ++ listed attribute (option_map value_bytes value))
        (is_some (option_map value_bytes value)) result reply.new.items }
{
    let [low, high] = attribute.to_le_bytes();
    let (status, there) = match value {
        Some(_) => (Status::Success, true),
        // an unknown one has a status of its own, attribute not supported (common services)
        None => (Status::AttributeNotSupported, false),
    };
    if !append_within(&[low, high, status.number(), 0], max_size, reply) {
        return None;
    }
    let fits = match value {
        Some(AttributeValue::Uint(value)) => append_within(&value.to_le_bytes(), max_size, reply),
        Some(AttributeValue::Ulint(value)) => append_within(&value.to_le_bytes(), max_size, reply),
        None => true,
    };
    if fits { Some(there) } else { None }
}

/// Appends bytes to a reply, if it then has at most `max_size` bytes, and answers whether it did.
fn append_within(bytes: &[u8], max_size: usize, reply: &mut ReplyBuf) -> bool
    requires max_size { max_size ≤ REPLY_LIMIT }
    requires fits { length reply.old.items ≤ max_size }
    ensures { Appends max_size (reply.old.items ++ bytes.now) result reply.new.items }
{
    // a reply is never longer than the reply limit: 0x11 (objects)
    if max_size - reply.len() < bytes.len() {
        return false;
    }
    append(reply, bytes);
    true
}

/// The value of an attribute of the class itself: revision, greatest instance, number of instances. (Volume 1, class
/// attributes.)
pub(crate) fn class_value(attribute: Option<u16>) -> Option<AttributeValue>
    ensures { option_map value_bytes result ≡ value_named class_values attribute }
{
    match attribute {
        Some(1..=3) => Some(AttributeValue::Uint(1)),
        _ => None,
    }
}

/// Get_Attribute_Single: replies with an attribute's value.
pub(crate) fn write_single(
    value: Option<AttributeValue>,
    data: &[u8],
    max_size: usize,
    reply: &mut ReplyBuf,
)
    requires max_size_from { 8 ≤ max_size }
    requires max_size_to { max_size ≤ REPLY_LIMIT }
    ensures reply { reply.new.items
        ≡ reply_to GET_ATTRIBUTE_SINGLE (single max_size «data».now (option_map value_bytes value)) }
    ensures fits { length reply.new.items ≤ max_size }
{
    // no such attribute: 0x14 (objects)
    let Some(value) = value else {
        begin(GET_ATTRIBUTE_SINGLE, Status::AttributeNotSupported, reply);
        return;
    };
    if let Some(status) = size_fault(0, data) {
        begin(GET_ATTRIBUTE_SINGLE, status, reply);
        return;
    }
    match value {
        AttributeValue::Uint(value) => answer(
            GET_ATTRIBUTE_SINGLE,
            &value.to_le_bytes(),
            &[],
            max_size,
            reply,
        ),
        AttributeValue::Ulint(value) => answer(
            GET_ATTRIBUTE_SINGLE,
            &value.to_le_bytes(),
            &[],
            max_size,
            reply,
        ),
    }
}
