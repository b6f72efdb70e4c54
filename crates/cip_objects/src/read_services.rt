//! The services that read objects (Volume 1, common services).
//! Text: docs/PROTOCOL.md, "Objects".
ghost use Rattle.std.specs.Prelude.{◌≡◌, ◌≤◌, ◌+◌, [], ◌∷◌, ◌++◌, length, Some, IfOk};
ghost use Rattle.std.specs.List.{flat_map};
ghost use Rattle.cip_application.specs.Configuration.{is_standard_class};
ghost use Rattle.cip_bytes.specs.Numbers.{le, words_of};
ghost use Rattle.cip_bytes.specs.Protocol.{general_status_number};
ghost use Rattle.cip_objects.specs.ObjectRef.{Exists, IsAssembly, bytes_to, path_to, span_result};
ghost use Rattle.cip_objects.specs.ObjectRef.{IsInside, IsReadWhole, IsAssemblyIndex, IsObjectIndex, object_in, class_at, instance_at};
ghost use Rattle.cip_objects.specs.ReadServices.{get_attribute_single, get_attributes_all, get_attribute_list};
ghost use Rattle.cip_objects.specs.ReadServices.{get_member, named_member, list_entry, has_attribute, has_all_attributes};
ghost use Rattle.cip_objects.specs.ReadServices.{answer_result, IDENTITY_ATTRIBUTES, ASSEMBLY_ATTRIBUTES, all_attributes, numbers_of};
ghost use Rattle.cip_objects.specs.Execution.{outcome_of_read, outcome_result, outcome_within};
ghost use Rattle.cip_objects.specs.ReplyWriting.{Writes};
ghost use Rattle.cip_objects.specs.AttributeValue.{value_bytes};

use crate::check::check_size;
use crate::object_ref::{Member, ObjectRef, ResolvedPath};
use crate::objects::Objects;
use crate::reply::append;
use crate::status::{Completion, Refusal};
use crate::value::AttributeValue;
use byteorder::{ByteOrder, LittleEndian};
use cip_bytes::protocol::{GeneralStatus, REPLY_LIMIT};
use cip_message::ReplyBuf;

impl Objects {
    /// Get_Attribute_Single: the value of the attribute.
    #[inline(always)]
    #[tactic(auto, unfolding(crate::specs::ReadServices::get_attribute_single))]
    pub(crate) fn get_attribute_single(
        &self,
        resolved: ResolvedPath,
        data: &[u8],
    ) -> Result<AttributeValue<'_>, Refusal>
        requires { Exists self.now.shapes resolved.object }
        ensures { answer_result value_bytes result
            ≡ get_attribute_single self.now (path_to self.now.shapes resolved) «data».now }
    {
        let attribute = resolved.attribute.ok_or(Refusal::AttributeNotSupported)?;
        let value = self
            .value(resolved.object, attribute)
            .ok_or(Refusal::AttributeNotSupported)?;
        // A service that reads takes no data.
        check_size(0, data)?;
        Ok(value)
    }

    /// Get_Attributes_All: the values of the attributes that it reads.
    #[inline(always)]
    #[tactic(auto, unfolding(crate::specs::ReadServices::get_attributes_all))]
    pub(crate) fn get_attributes_all(
        &self,
        resolved: ResolvedPath,
        data: &[u8],
        max_size: usize,
        reply: &mut ReplyBuf,
    ) -> Result<Completion, Refusal>
        requires there { Exists self.now.shapes resolved.object }
        requires whole { IsReadWhole resolved.object }
        requires max_size { max_size ≤ REPLY_LIMIT }
        requires fits { length reply.old.items ≤ max_size }
        ensures { outcome_result self.now result reply.new.items
            ≡ outcome_within max_size reply.old.items (outcome_of_read self.now
            (get_attributes_all self.now (path_to self.now.shapes resolved) «data».now)) }
    {
        // It has no reply with these objects' attributes alone: 0x08.
        if self.is_standard(resolved.object) {
            return Err(Refusal::ServiceNotSupported);
        }
        check_size(0, data)?;
        self.append_all(resolved.object, max_size, reply)?;
        Ok(Completion::Whole)
    }

    /// Whether an object is the Message Router, the TCP/IP Interface or the Ethernet Link.
    #[inline(always)]
    fn is_standard(&self, object: ObjectRef) -> bool
        requires there { Exists self.now.shapes object }
        requires whole { IsReadWhole object }
        ensures { result ≡ is_standard_class (class_at self.now.shapes object) }
    {
        match object {
            ObjectRef::Application(object_index) => self.is_standard_object(object_index),
            _ => false,
        }
    }

    /// Appends the values of all attributes that Get_Attributes_All reads of an object.
    #[inline(always)]
    fn append_all(
        &self,
        object: ObjectRef,
        max_size: usize,
        reply: &mut ReplyBuf,
    ) -> Result<(), Refusal>
        requires there { Exists self.now.shapes object }
        requires whole { IsReadWhole object }
        requires max_size { max_size ≤ REPLY_LIMIT }
        requires fits { length reply.old.items ≤ max_size }
        ensures { Writes max_size (reply.old.items ++ flat_map (bytes_to self.now object)
            (all_attributes self.now.shapes (class_at self.now.shapes object) (instance_at self.now.shapes object)))
            result reply.new.items }
    {
        match object {
            ObjectRef::Application(object_index) => {
                self.append_object(object_index, max_size, reply)
            }
            ObjectRef::Assembly(assembly_index) => {
                self.append_assembly(assembly_index, max_size, reply)
            }
            _ => self.append_identity(max_size, reply),
        }
    }

    /// Appends the values of attributes 1 to 7 of the Identity object. A call costs fewer
    /// instructions than the same code inlined.
    #[inline(never)]
    fn append_identity(&self, max_size: usize, reply: &mut ReplyBuf) -> Result<(), Refusal>
        requires max_size { max_size ≤ REPLY_LIMIT }
        requires fits { length reply.old.items ≤ max_size }
        ensures { Writes max_size
            (reply.old.items ++ flat_map (bytes_to self.now ObjectRef.Identity) IDENTITY_ATTRIBUTES)
            result reply.new.items }
    {
        let object = ObjectRef::Identity;
        // The reply ends after attribute 7 (our choice).
        self.append_value(object, 1, max_size, reply)?;
        self.append_value(object, 2, max_size, reply)?;
        self.append_value(object, 3, max_size, reply)?;
        self.append_value(object, 4, max_size, reply)?;
        self.append_value(object, 5, max_size, reply)?;
        self.append_value(object, 6, max_size, reply)?;
        self.append_value(object, 7, max_size, reply)
    }

    /// Appends the values of all attributes of the assembly at an index.
    fn append_assembly(
        &self,
        assembly_index: usize,
        max_size: usize,
        reply: &mut ReplyBuf,
    ) -> Result<(), Refusal>
        requires there { IsAssemblyIndex self.now.shapes assembly_index }
        requires max_size { max_size ≤ REPLY_LIMIT }
        requires fits { length reply.old.items ≤ max_size }
        ensures { Writes max_size
            (reply.old.items ++ flat_map (bytes_to self.now (ObjectRef.Assembly assembly_index)) ASSEMBLY_ATTRIBUTES)
            result reply.new.items }
    {
        let assembly = ObjectRef::Assembly(assembly_index);
        self.append_value(assembly, 1, max_size, reply)?;
        self.append_value(assembly, 3, max_size, reply)?;
        self.append_value(assembly, 4, max_size, reply)
    }

    /// Appends the values of all attributes of the application object at an index, in the order of their numbers.
    #[tactic(auto, using(crate::proofs::Words::numbers))]
    fn append_object(
        &self,
        object_index: usize,
        max_size: usize,
        reply: &mut ReplyBuf,
    ) -> Result<(), Refusal>
        requires there { IsObjectIndex self.now.shapes object_index }
        requires max_size { max_size ≤ REPLY_LIMIT }
        requires fits { length reply.old.items ≤ max_size }
        ensures { Writes max_size
            (reply.old.items ++ flat_map (bytes_to self.now (ObjectRef.Application object_index))
            (numbers_of (Some (object_in self.now.shapes object_index))))
            result reply.new.items }
    {
        for index in 0..self.attribute_count(object_index) {
            append(self.value_by_index(object_index, index), max_size, reply)?;
        }
        Ok(())
    }

    /// Appends the value of an attribute, or nothing if there is no such attribute.
    #[inline(always)]
    fn append_value(
        &self,
        object: ObjectRef,
        attribute: u16,
        max_size: usize,
        reply: &mut ReplyBuf,
    ) -> Result<(), Refusal>
        requires there { Exists self.now.shapes object }
        requires max_size { max_size ≤ REPLY_LIMIT }
        requires fits { length reply.old.items ≤ max_size }
        ensures { Writes max_size (reply.old.items ++ bytes_to self.now object attribute) result reply.new.items }
    {
        match self.value(object, attribute) {
            Some(value) => value.append(max_size, reply),
            None => Ok(()),
        }
    }

    /// Get_Attribute_List: each attribute with its status.
    #[inline(always)]
    #[tactic(auto, unfolding(crate::specs::ReadServices::get_attribute_list))]
    pub(crate) fn get_attribute_list(
        &self,
        resolved: ResolvedPath,
        data: &[u8],
        max_size: usize,
        reply: &mut ReplyBuf,
    ) -> Result<Completion, Refusal>
        requires there { Exists self.now.shapes resolved.object }
        requires max_size { max_size ≤ REPLY_LIMIT }
        ensures { outcome_result self.now result reply.new.items
            ≡ outcome_within max_size reply.old.items (outcome_of_read self.now
            (get_attribute_list self.now (path_to self.now.shapes resolved) «data».now)) }
    {
        // The data are a count, then that many attribute numbers of two bytes each.
        if data.len() < 2 {
            return Err(Refusal::NotEnoughData);
        }
        let count = LittleEndian::read_u16(data);
        check_size(2 + 2 * usize::from(count), data)?;
        append(&count.to_le_bytes(), max_size, reply)?;
        // The entry of an unknown attribute says so, and so does the general status, 0x0a.
        if self.append_list(resolved, &data[2..], max_size, reply)? {
            Ok(Completion::Whole)
        } else {
            Ok(Completion::Partial)
        }
    }

    /// Appends an entry for each attribute of a list of numbers, two bytes each. Returns whether all attributes
    /// exist.
    #[tactic(auto, using(crate::proofs::Words::words))]
    fn append_list(
        &self,
        resolved: ResolvedPath,
        list: &[u8],
        max_size: usize,
        reply: &mut ReplyBuf,
    ) -> Result<bool, Refusal>
        requires there { Exists self.now.shapes resolved.object }
        requires max_size { max_size ≤ REPLY_LIMIT }
        requires fits { length reply.old.items ≤ max_size }
        ensures text { Writes max_size
            (reply.old.items ++ flat_map (list_entry self.now (path_to self.now.shapes resolved)) (words_of list.now))
            result reply.new.items }
        ensures there { IfOk result (λ all. all
            ≡ has_all_attributes self.now (path_to self.now.shapes resolved) (words_of list.now)) }
    {
        let mut all = true;
        for i in 0..list.len() / 2 {
            let attribute = LittleEndian::read_u16(&list[2 * i..]);
            let there = self.append_listed(resolved, attribute, max_size, reply)?;
            all = all && there;
        }
        Ok(all)
    }

    /// Appends the entry of one attribute. Returns whether it exists.
    #[tactic(auto, unfolding(crate::specs::ReadServices::list_entry))]
    fn append_listed(
        &self,
        resolved: ResolvedPath,
        attribute: u16,
        max_size: usize,
        reply: &mut ReplyBuf,
    ) -> Result<bool, Refusal>
        requires there { Exists self.now.shapes resolved.object }
        requires max_size { max_size ≤ REPLY_LIMIT }
        ensures text { Writes max_size
            (reply.old.items ++ list_entry self.now (path_to self.now.shapes resolved) attribute)
            result reply.new.items }
        ensures there { IfOk result (λ there. there ≡ has_attribute self.now (path_to self.now.shapes resolved) attribute) }
    {
        match self.value(resolved.object, attribute) {
            Some(value) => {
                append_head(attribute, GeneralStatus::Success, max_size, reply)?;
                value.append(max_size, reply)?;
                Ok(true)
            }
            // The status of an unknown attribute is "attribute not supported".
            None => {
                append_head(
                    attribute,
                    GeneralStatus::AttributeNotSupported,
                    max_size,
                    reply,
                )?;
                Ok(false)
            }
        }
    }

    /// The member that the path names.
    #[tactic(auto, unfolding(crate::specs::ReadServices::named_member))]
    pub(crate) fn named_member(&self, resolved: ResolvedPath) -> Result<Member, Refusal>
        requires there { Exists self.now.shapes resolved.object }
        requires assembly { IsAssembly resolved.object }
        ensures span { span_result result ≡ named_member self.now.shapes (path_to self.now.shapes resolved) }
        ensures inside { IfOk result (IsInside self.now resolved.object) }
    {
        // Only the data of an assembly, attribute 3, have members.
        let (ObjectRef::Assembly(assembly_index), Some(3)) = (resolved.object, resolved.attribute)
        else {
            return Err(Refusal::AttributeNotSupported);
        };
        // There is no such member: 0x28.
        let number = resolved.member.ok_or(Refusal::InvalidMemberId)?;
        let span = self
            .assembly(assembly_index)
            .span(number)
            .ok_or(Refusal::InvalidMemberId)?;
        Ok(Member {
            assembly_index,
            span,
        })
    }

    /// Get_Member: the bytes of the member.
    #[inline(always)]
    #[tactic(auto, unfolding(crate::specs::ReadServices::get_member))]
    pub(crate) fn get_member(&self, resolved: ResolvedPath, data: &[u8]) -> Result<&[u8], Refusal>
        requires there { Exists self.now.shapes resolved.object }
        requires assembly { IsAssembly resolved.object }
        ensures { answer_result (λ bytes. bytes.now) result
            ≡ get_member self.now (path_to self.now.shapes resolved) «data».now }
    {
        let Member {
            assembly_index,
            span,
        } = self.named_member(resolved)?;
        check_size(0, data)?;
        Ok(&self.assembly(assembly_index).content()[span.offset..span.offset + span.size])
    }
}

/// Appends what comes before an attribute's value in a list: its number and its status.
#[inline(always)]
pub(crate) fn append_head(
    attribute: u16,
    status: GeneralStatus,
    max_size: usize,
    reply: &mut ReplyBuf,
) -> Result<(), Refusal>
    requires { max_size ≤ REPLY_LIMIT }
    ensures { Writes max_size
        (reply.old.items ++ (le 2 attribute ++ general_status_number status ∷ 0 ∷ [])) result reply.new.items }
{
    let [least, most] = attribute.to_le_bytes();
    append(&[least, most, status.number(), 0], max_size, reply)
}
