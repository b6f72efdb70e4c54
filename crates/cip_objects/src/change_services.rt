//! The services that change objects (Volume 1, common services; Add and Clear are the counter's own).
//! Text: docs/PROTOCOL.md, "Objects".
ghost use Rattle.std.specs.Prelude.{◌≡◌, length, [], OnErr, Some, None};
ghost use Rattle.cip_bytes.specs.Numbers.{le};
ghost use Rattle.cip_objects.specs.ChangeServices.{change_result, set_attribute_single, set_member, add, clear};
ghost use Rattle.cip_objects.specs.ChangeServices.{limit_change};
ghost use Rattle.cip_objects.specs.ObjectRef.{Exists, IsAssembly, HasCounter, IsSettable, path_to};
ghost use Rattle.cip_objects.specs.ObjectRef.{object_of, after_set, class_at, instance_at};

use crate::check::check_size;
use crate::object_ref::{ObjectRef, ResolvedPath, Settable};
use crate::objects::Objects;
use crate::status::Refusal;
use byteorder::{ByteOrder, LittleEndian};

impl Objects {
    /// Set_Attribute_Single: sets the attribute.
    #[inline(always)]
    #[tactic(auto, unfolding(crate::specs::ChangeServices::set_attribute_single))]
    pub(crate) fn set_attribute_single(
        &mut self,
        resolved: ResolvedPath,
        data: &[u8],
    ) -> Result<(), Refusal>
        requires { Exists self.old.shapes resolved.object }
        ensures change_result { change_result (λ _. []) self.new result
            ≡ set_attribute_single self.old (path_to self.old.shapes resolved) «data».now }
        ensures err { OnErr result (self.new ≡ self.old) }
    {
        // There is no such attribute: 0x14.
        let attribute = resolved.attribute.ok_or(Refusal::AttributeNotSupported)?;
        // The data of an assembly have a call of their own. It is compiled for them alone, without a look-up.
        if let (ObjectRef::Assembly(assembly_index), 3) = (resolved.object, attribute) {
            return self.set_attribute(ObjectRef::Assembly(assembly_index), 3, data);
        }
        self.set_attribute(resolved.object, attribute, data)
    }

    /// Sets the attribute of an object that has this number.
    #[inline(always)]
    #[tactic(auto, unfolding(crate::specs::ChangeServices::set_attribute_single))]
    fn set_attribute(
        &mut self,
        object: ObjectRef,
        attribute: u16,
        data: &[u8],
    ) -> Result<(), Refusal>
        requires { Exists self.old.shapes object }
        ensures change_result { change_result (λ _. []) self.new result
            ≡ set_attribute_single self.old (record {
              class = class_at self.old.shapes object;
              instance = instance_at self.old.shapes object;
              attribute = Some attribute;
              member = None;
            }) «data».now }
        ensures err { OnErr result (self.new ≡ self.old) }
    {
        // There is no such attribute: 0x14.
        self.value(object, attribute)
            .ok_or(Refusal::AttributeNotSupported)?;
        // The attribute cannot be set: 0x0e. This is checked before the length of the data.
        let settable = self
            .settable(object, attribute)
            .ok_or(Refusal::AttributeNotSettable)?;
        self.set(settable, data)
    }

    /// Sets a settable attribute, if the data have the size of its values and it may have this one.
    #[inline(always)]
    fn set(&mut self, settable: Settable, data: &[u8]) -> Result<(), Refusal>
        requires there { Exists self.old.shapes (object_of settable) }
        requires whole { IsSettable self.old settable }
        ensures change_result { change_result (λ _. []) self.new result ≡ after_set self.old settable «data».now }
        ensures err { OnErr result (self.new ≡ self.old) }
    {
        match settable {
            Settable::Data {
                assembly_index,
                size,
            } => {
                check_size(size, data)?;
                self.write_content(assembly_index, 0, data);
                self.count_change(assembly_index);
                Ok(())
            }
            Settable::Limit => {
                check_size(4, data)?;
                self.change_limit(data)
            }
            Settable::Attribute {
                object_index,
                number,
            } => self.set_object(object_index, number, data),
        }
    }

    /// Sets the counter's limit, unless it is below the value.
    fn change_limit(&mut self, data: &[u8]) -> Result<(), Refusal>
        requires there { HasCounter self.old.shapes }
        requires exact { length «data».now ≡ 4 }
        ensures change_result { change_result (λ _. []) self.new result ≡ limit_change self.old «data».now }
        ensures err { OnErr result (self.new ≡ self.old) }
    {
        let counter = self.counter().with_limit(LittleEndian::read_u32(data))?;
        self.set_limit(counter.limit);
        Ok(())
    }

    /// Set_Member: sets the member.
    #[inline(always)]
    #[tactic(auto, unfolding(crate::specs::ChangeServices::set_member))]
    pub(crate) fn set_member(&mut self, resolved: ResolvedPath, data: &[u8]) -> Result<(), Refusal>
        requires there { Exists self.old.shapes resolved.object }
        requires assembly { IsAssembly resolved.object }
        ensures change_result { change_result (λ _. []) self.new result
            ≡ set_member self.old (path_to self.old.shapes resolved) «data».now }
        ensures err { OnErr result (self.new ≡ self.old) }
    {
        let member = self.named_member(resolved)?;
        // The assembly cannot be set: 0x0e. This is checked after the member.
        self.settable(resolved.object, 3)
            .ok_or(Refusal::AttributeNotSettable)?;
        check_size(member.span.size, data)?;
        self.write_content(member.assembly_index, member.span.offset, data);
        self.count_change(member.assembly_index);
        Ok(())
    }

    /// Add: adds to the counter and answers the new value.
    #[inline(always)]
    #[tactic(auto, unfolding(crate::specs::ChangeServices::add))]
    pub(crate) fn add(&mut self, data: &[u8]) -> Result<u32, Refusal>
        requires { HasCounter self.old.shapes }
        ensures change_result { change_result (le 4) self.new result ≡ add self.old «data».now }
        ensures err { OnErr result (self.new ≡ self.old) }
    {
        check_size(4, data)?;
        let counter = self.counter().add(LittleEndian::read_u32(data))?;
        self.set_value(counter.value);
        self.set_additions(counter.additions);
        Ok(counter.value)
    }

    /// Clear: sets the counter to 0 and answers the old value.
    #[tactic(auto, unfolding(crate::specs::ChangeServices::clear))]
    pub(crate) fn clear(&mut self, data: &[u8]) -> Result<u32, Refusal>
        requires { HasCounter self.old.shapes }
        ensures change_result { change_result (le 4) self.new result ≡ clear self.old «data».now }
        ensures err { OnErr result (self.new ≡ self.old) }
    {
        // Clear answers the old value (our choice).
        check_size(0, data)?;
        let counter = self.counter();
        self.set_value(counter.clear().value);
        Ok(counter.value)
    }
}
