//! Set_Attribute_List: attributes of one object are set, one after another (Volume 1, common services).
//! Text: docs/PROTOCOL.md, "Objects".
ghost use Rattle.std.specs.Prelude.{◌≡◌, ◌≤◌, ◌+◌, ◌*◌, ◌++◌, length, true, is_ok, option_map, OnErr};
ghost use Rattle.cip_application.specs.Values.{size_for};
ghost use Rattle.cip_bytes.specs.Numbers.{le};
ghost use Rattle.cip_bytes.specs.Reading.{map_ok};
ghost use Rattle.cip_objects.specs.Execution.{outcome_of_list, outcome_result, outcome_within};
ghost use Rattle.cip_objects.specs.ObjectRef.{Exists, IsSetAsList, class_at, instance_at, path_to};
ghost use Rattle.cip_objects.specs.SetLists.{first_setting, settings_or_none, set_one, contents_after, set_status, set_all};
ghost use Rattle.cip_objects.specs.SetLists.{set_attribute_list, setting_seen, first_seen, listed, read_to_end};
ghost use Rattle.cip_objects.specs.Tables.{value_kind};

use crate::object_ref::{ObjectRef, ResolvedPath};
use crate::objects::Objects;
use crate::read_services::append_head;
use crate::reply::append;
use crate::status::{Completion, Refusal};
use byteorder::{ByteOrder, LittleEndian};
use cip_bytes::protocol::{GeneralStatus, REPLY_LIMIT};
use cip_message::ReplyBuf;

/// An attribute of a list and the value that it is to have, and the bytes behind it.
#[derive(Clone, Copy)]
pub(crate) struct ListedSetting<'a> {
    /// The attribute's number.
    pub(crate) attribute: u16,
    /// The value.
    pub(crate) value: &'a [u8],
    /// The rest of the list.
    pub(crate) rest: &'a [u8],
}

impl Objects {
    /// Set_Attribute_List: sets each attribute. The list is read to its end before the first of them is set.
    #[inline(always)]
    #[tactic(auto, unfolding(crate::specs::SetLists::set_attribute_list))]
    pub(crate) fn set_attribute_list(
        &mut self,
        resolved: ResolvedPath,
        data: &[u8],
        max_size: usize,
        reply: &mut ReplyBuf,
    ) -> Result<Completion, Refusal>
        requires there { Exists self.old.shapes resolved.object }
        requires listed { IsSetAsList resolved.object }
        requires max_size { max_size ≤ REPLY_LIMIT }
        ensures outcome { outcome_result self.new result reply.new.items
            ≡ outcome_within max_size reply.old.items
            (outcome_of_list (set_attribute_list self.old (path_to self.old.shapes resolved) «data».now)) }
        ensures err { OnErr result (self.new ≡ self.old) }
    {
        // The data are a count, then that many attribute numbers, each with its value.
        if data.len() < 2 {
            return Err(Refusal::NotEnoughData);
        }
        let count = LittleEndian::read_u16(data);
        let list = &data[2..];
        self.check_list(resolved, count, list)?;
        // The entry of an attribute has four bytes.
        if max_size < reply.len() + 2 + 4 * usize::from(count) {
            return Err(Refusal::ReplyDataTooLarge);
        }
        append(&count.to_le_bytes(), max_size, reply)?;
        // The entry of an attribute that was not set says why, and so does the general status, 0x0a.
        if self.set_all(resolved, count, list, max_size, reply) {
            Ok(Completion::Whole)
        } else {
            Ok(Completion::Partial)
        }
    }

    /// Reads a list of this many attributes to its end.
    fn check_list(&self, resolved: ResolvedPath, count: u16, list: &[u8]) -> Result<(), Refusal>
        requires there { Exists self.now.shapes resolved.object }
        requires listed { IsSetAsList resolved.object }
        ensures { result ≡ read_to_end (listed self.now.shapes resolved.object count list.now) }
    {
        let mut rest = list;
        for _ in 0..count {
            rest = self.first_setting(resolved.object, rest)?.rest;
        }
        // Nothing comes after the last: 0x15.
        if !rest.is_empty() {
            return Err(Refusal::TooMuchData);
        }
        Ok(())
    }

    /// Sets each attribute of a list that was read to its end, and appends its entry. Returns whether all were set.
    fn set_all(
        &mut self,
        resolved: ResolvedPath,
        count: u16,
        list: &[u8],
        max_size: usize,
        reply: &mut ReplyBuf,
    ) -> bool
        requires there { Exists self.old.shapes resolved.object }
        requires listed { IsSetAsList resolved.object }
        requires max_size { max_size ≤ REPLY_LIMIT }
        requires fits { length reply.old.items + 4 * count ≤ max_size }
        requires read { is_ok (listed self.old.shapes resolved.object count list.now) ≡ true }
        ensures state { self.new ≡ (set_all self.old (path_to self.old.shapes resolved)
            (settings_or_none (listed self.old.shapes resolved.object count list.now))).after }
        ensures text { reply.new.items ≡ reply.old.items
            ++ (set_all self.old (path_to self.old.shapes resolved)
            (settings_or_none (listed self.old.shapes resolved.object count list.now))).entries }
        ensures complete { result ≡ (set_all self.old (path_to self.old.shapes resolved)
            (settings_or_none (listed self.old.shapes resolved.object count list.now))).complete }
    {
        let mut complete = true;
        let mut rest = list;
        for _ in 0..count {
            let Ok(setting) = self.first_setting(resolved.object, rest) else {
                return false;
            };
            let done = self.set_one(resolved, setting, max_size, reply);
            complete = complete && done;
            rest = setting.rest;
        }
        complete
    }

    /// Sets one attribute of a list and appends its entry. Returns whether it was set.
    fn set_one(
        &mut self,
        resolved: ResolvedPath,
        setting: ListedSetting<'_>,
        max_size: usize,
        reply: &mut ReplyBuf,
    ) -> bool
        requires there { Exists self.old.shapes resolved.object }
        requires max_size { max_size ≤ REPLY_LIMIT }
        requires fits { length reply.old.items + 4 ≤ max_size }
        ensures state { self.new ≡ contents_after self.old
            (set_one self.old (path_to self.old.shapes resolved) (setting_seen setting.entry)) }
        ensures text { reply.new.items ≡ reply.old.items
            ++ (le 2 setting.entry.attribute
            ++ le 2 (set_status (set_one self.old (path_to self.old.shapes resolved) (setting_seen setting.entry)))) }
        ensures done { result
            ≡ is_ok (set_one self.old (path_to self.old.shapes resolved) (setting_seen setting.entry)) }
    {
        let named = ResolvedPath {
            attribute: Some(setting.attribute),
            ..resolved
        };
        match self.set_attribute_single(named, setting.value) {
            Ok(()) => {
                let _ = append_head(setting.attribute, GeneralStatus::Success, max_size, reply);
                true
            }
            Err(refusal) => {
                let _ = append_head(setting.attribute, refusal.status(), max_size, reply);
                false
            }
        }
    }

    /// The first attribute of a list.
    #[tactic(auto, unfolding(crate::specs::SetLists::first_setting))]
    fn first_setting<'a>(
        &self,
        object: ObjectRef,
        list: &'a [u8],
    ) -> Result<ListedSetting<'a>, Refusal>
        requires there { Exists self.now.shapes object }
        requires listed { IsSetAsList object }
        ensures { map_ok first_seen result ≡ first_setting self.now.shapes (class_at self.now.shapes object)
            (instance_at self.now.shapes object) list.now }
    {
        if list.len() < 2 {
            return Err(Refusal::NotEnoughData);
        }
        let attribute = LittleEndian::read_u16(list);
        let list = &list[2..];
        // Without the attribute's kind, the size of the value is unknown: 0x14.
        let size = self
            .size_for(object, attribute, list)
            .ok_or(Refusal::AttributeNotSupported)?;
        if list.len() < size {
            return Err(Refusal::NotEnoughData);
        }
        Ok(ListedSetting {
            attribute,
            value: &list[..size],
            rest: &list[size..],
        })
    }

    /// The bytes of a value that begins with these, for an attribute of an object, or `None` if the object has no such
    /// attribute.
    #[tactic(auto, unfolding(crate::specs::Tables::value_kind))]
    fn size_for(&self, object: ObjectRef, attribute: u16, data: &[u8]) -> Option<usize>
        requires there { Exists self.now.shapes object }
        requires listed { IsSetAsList object }
        ensures { result ≡ option_map (λ kind. size_for kind «data».now)
            (value_kind self.now.shapes (class_at self.now.shapes object) (instance_at self.now.shapes object) attribute) }
    {
        match object {
            ObjectRef::Assembly(assembly_index) => self
                .assembly(assembly_index)
                .value_size(attribute),
            ObjectRef::Application(object_index) => {
                self.object_size_for(object_index, attribute, data)
            }
            _ => None,
        }
    }
}
