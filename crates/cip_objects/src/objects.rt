//! The objects of a device: one object map to a caller, typed structs in memory.
//! Text: docs/PROTOCOL.md, "Objects".
ghost use Rattle.std.specs.Prelude.{◌≡◌, ◌≤◌, ◌<◌, ◌+◌, length, option_map, is_some, sum, map, true, Some, IfSome};
ghost use Rattle.std.specs.Prelude.{IfOk, IfErr, MatchOption, unwrap_or, nat_le};
ghost use Rattle.std.specs.Box.{boxed_slice_items};
ghost use Rattle.std.specs.List.{All};
ghost use Rattle.cip_objects.specs.Configuration.{fault_of, contents_of_config, assembly_of_config};
ghost use Rattle.byteorder.specs.Endian.{little_bytes};
ghost use Rattle.cip_objects.specs.Contents.{value_at, bytes_at, udint_at, with_value, with_change, counted};
ghost use Rattle.cip_objects.specs.Changes.{changes_of, changes_at};
ghost use Rattle.cip_objects.specs.ChangeServices.{with_bytes_at};
ghost use Rattle.cip_objects.specs.ObjectRef.{ClassExists, class_number, Resolves, HasNoValue, Exists, IsAssemblyIndex};
ghost use Rattle.cip_objects.specs.ObjectRef.{services_at, has_lists, class_at, instance_at, number_at, value_to, data_at};
ghost use Rattle.cip_objects.specs.ObjectRef.{CanBeSet, kind_to_set, IsAssemblyAt, HasCounter};
ghost use Rattle.cip_objects.specs.DeviceWrites.{device_write, with_device_status, with_device_state};
ghost use Rattle.cip_objects.specs.Members.{AreWhole};
ghost use Rattle.cip_objects.specs.Run.{IsCounter};
ghost use Rattle.cip_objects.specs.Entries.{shape_of};
ghost use Rattle.cip_objects.specs.Tables.{services_of, shape_at, settable_kind};
ghost use Rattle.cip_objects.specs.ObjectMap.{key};
ghost use Rattle.cip_objects.specs.Service.{service_in};
ghost use Rattle.cip_objects.specs.AttributeValue.{value_bytes, IsShort};

mod application;
mod kept;

use crate::assembly::{Assembly, DATA_LIMIT, MEMBER_LIMIT, greatest, position};
use crate::class::{Class, class_attribute};
use crate::config::{AssemblyConfig, Config, ConfigFault};
use crate::counter::Counter;
use crate::identity::{Identity, NAME_LIMIT};
use crate::object_ref::{ObjectRef, Settable};
use crate::service::Service;
use crate::value::AttributeValue;
use arrayvec::ArrayVec;
use cip_application::ApplicationObjects;
use cip_bytes::protocol::{ASSEMBLY, CONNECTION_MANAGER, COUNTER, IDENTITY, REPLY_LIMIT};
use cip_message::{Device, ReplyBuf};
use std::alloc::{AllocError, Global};
use std::boxed::BoxedSlice;
use std::marker::Model;

/// The objects of a device: Identity, the assemblies, the counter and the application objects.
///
/// Contracts see them as the object map, from class, instance and attribute to bytes, and the constant tables. Only
/// `new` allocates: no part has a type that can grow.
///
/// ```
/// let mut objects = Objects::new(alloc, config)?;
/// objects.write_data(100, 0, &[0xaa, 0xbb]); // the device updates the data of assembly 100
/// let data = objects.attribute(0x04, 100, 3); // what a peer reads
/// ```
#[derive(Debug)]
pub struct Objects {
    identity: Identity,
    assemblies: BoxedSlice<Assembly>,
    counter: Counter,
    application: ApplicationObjects,
}

// Written out, so that each exit of a function that owns one calls it, and has no drop of every part.
impl Drop for Objects {
    fn drop(self) {
        let Objects {
            identity: _,
            assemblies: _,
            counter: _,
            application: _,
        } = self;
    }
}

impl Model for Objects {
    ghost use Rattle.std.specs.Box.{boxed_slice_items};
    ghost use Rattle.cip_objects.specs.Contents.{Contents, contents_code};

    ghost Value = { Contents };

    ghost coded = { contents_code };

    ghost use Rattle.cip_objects.specs.Entries.{contents_of};
    ghost use Rattle.cip_objects.specs.Counter.{counter_values};
    ghost use Rattle.cip_objects.specs.Objects.{AreObjects};

    ghost view = { λ o. contents_of o.identity (boxed_slice_items o.assemblies) (counter_values o.counter)
        o.application };

    ghost invariant = { λ o. AreObjects o };
}

impl Objects {
    /// Makes the objects of a configuration.
    ///
    /// # Errors
    ///
    /// The first check of the configuration that fails, in the order of `ConfigFault`. `Memory` only if all hold
    /// and memory is refused.
    pub fn new(alloc: Global, config: &Config) -> Result<Objects, ConfigFault>
        ensures refused { IfSome (fault_of config.now) (λ fault. result ≡ Err fault) }
        ensures allowed { fault_of config.now ≡ None → IfErr result (λ fault. fault ≡ ConfigFault.Memory) }
        ensures made { IfOk result (λ objects. objects ≡ contents_of_config config.now) }
        ensures counter { config.now.counter.enabled ≡ true → IfOk result IsCounter }
        ensures whole { IfOk result AreWhole }
    {
        if let Some(fault) = config.fault() {
            return Err(fault);
        }
        Ok(Objects {
            identity: Identity {
                vendor: config.vendor,
                device_type: config.device_type,
                product_code: config.product_code,
                major: config.major,
                minor: config.minor,
                status: config.status,
                serial: config.serial,
                name: name_of(config.name.as_bytes()),
                state: config.state,
            },
            assemblies: assemblies_of(alloc, &config.assemblies)?,
            counter: Counter::new(config.counter),
            application: ApplicationObjects::new(alloc, config.counter.enabled, &config.objects)?,
        })
    }

    /// The object that a class and an instance lead to, if there is one.
    #[tactic(auto, unfolding(crate::specs::Tables::services_of), using(crate::proofs::ObjectRefs::reaches))]
    pub(crate) fn object(&self, class: u16, instance: u32) -> Option<ObjectRef>
        ensures services { option_map (services_at self.now.shapes) result ≡ services_of self.now.shapes class instance }
        ensures resolves { MatchOption result (HasNoValue self.now class instance)
            (Resolves self.now.shapes class instance) }
        ensures identity { class ≡ IDENTITY → instance ≡ 1 → result ≡ Some ObjectRef.Identity }
    {
        match (class, instance) {
            // Instance 0 is the class itself.
            (IDENTITY, 0) => Some(ObjectRef::Class(Class::Identity)),
            (IDENTITY, 1) => Some(ObjectRef::Identity),
            (ASSEMBLY, 0) => Some(ObjectRef::Class(Class::Assembly)),
            (ASSEMBLY, _) => Some(ObjectRef::Assembly(position(&self.assemblies, instance)?)),
            (CONNECTION_MANAGER, 1) => Some(ObjectRef::ConnectionManager),
            (IDENTITY | CONNECTION_MANAGER, _) => None,
            (COUNTER, _) => self.counter_object(instance),
            _ => self.application_object(class, instance),
        }
    }

    /// The object that the counter's class and an instance lead to, if there is one. If the device does not have the
    /// counter, application objects can have its class.
    fn counter_object(&self, instance: u32) -> Option<ObjectRef>
        ensures services { option_map (services_at self.now.shapes) result
            ≡ services_of self.now.shapes COUNTER instance }
        ensures resolves { MatchOption result (HasNoValue self.now COUNTER instance)
            (Resolves self.now.shapes COUNTER instance) }
    {
        if !self.counter.enabled {
            return self.application_object(COUNTER, instance);
        }
        // Instance 0 is the class itself.
        if instance == 0 {
            return Some(ObjectRef::Class(Class::Counter));
        }
        if instance == 1 {
            return Some(ObjectRef::Counter);
        }
        None
    }

    /// The service of an object with this code, or `None` if the object does not have it.
    #[inline(always)]
    pub(crate) fn service(&self, object: ObjectRef, code: u8) -> Option<Service>
        requires { Exists self.now.shapes object }
        ensures { result ≡ service_in code (services_at self.now.shapes object) }
    {
        // Most requests ask for a service that each object of the kind has.
        if let Some(service) = object.usual_service(code) {
            return Some(service);
        }
        if !self.has_lists(object) {
            return None;
        }
        object.list_service(code)
    }

    /// Whether an object has the services for lists of attributes.
    fn has_lists(&self, object: ObjectRef) -> bool
        requires { Exists self.now.shapes object }
        ensures { result ≡ has_lists self.now.shapes object }
    {
        match object {
            ObjectRef::Assembly(assembly_index) => self.assembly(assembly_index).has_lists(),
            ObjectRef::Application(object_index) => self.object_has_lists(object_index),
            _ => false,
        }
    }

    /// The value of an attribute of an object, if it has an attribute with this number.
    #[inline(always)]
    #[tactic(auto, using(crate::proofs::Lookup::reads))]
    pub(crate) fn value(&self, object: ObjectRef, attribute: u16) -> Option<AttributeValue<'_>>
        requires { Exists self.now.shapes object }
        ensures value { option_map value_bytes result ≡ value_to self.now object attribute }
        ensures short { IfSome result IsShort }
        ensures identity { object ≡ ObjectRef.Identity
            → IfSome result (λ value. length (value_bytes value) ≤ NAME_LIMIT + 1) }
    {
        let counter = self.counter;
        match object {
            ObjectRef::Class(class) => self.class_value(class, attribute),
            ObjectRef::Identity => self.identity.attribute(attribute),
            ObjectRef::Assembly(assembly_index) => self.assemblies[assembly_index].attribute(
                attribute,
            ),
            // The Connection Manager has no attributes in this profile (our choice).
            ObjectRef::ConnectionManager => None,
            ObjectRef::Counter => counter.attribute(attribute),
            ObjectRef::ApplicationClass(class) => self.application_class_value(class, attribute),
            ObjectRef::Application(object_index) => self.object_value(object_index, attribute),
        }
    }

    /// The value of an attribute of a class that the device has itself.
    #[tactic(auto, using(crate::proofs::Lookup::reads))]
    fn class_value(&self, class: Class, attribute: u16) -> Option<AttributeValue<'_>>
        requires { ClassExists self.now.shapes class }
        ensures value { option_map value_bytes result ≡ value_at self.now (class_number class) 0 attribute }
        ensures short { IfSome result IsShort }
    {
        match class {
            Class::Identity => class_attribute(1, 1, 1, attribute),
            Class::Assembly => class_attribute(
                2,
                greatest(&self.assemblies),
                self.assemblies.len() as u16,
                attribute,
            ),
            Class::Counter => {
                let _counter = self.counter;
                class_attribute(1, 1, 1, attribute)
            }
        }
    }

    /// The five numbers that an electronic key is compared with. Allocates nothing.
    #[tactic(auto, unfolding(crate::specs::Entries::contents_of))]
    pub fn device(&self) -> Device
        ensures { result ≡ self.now.device }
    {
        Device {
            vendor: self.identity.vendor,
            device_type: self.identity.device_type,
            product_code: self.identity.product_code,
            major: self.identity.major,
            minor: self.identity.minor,
        }
    }

    /// Whether the device has the counter.
    #[tactic(auto, unfolding(crate::specs::Entries::contents_of))]
    pub fn has_counter(&self) -> bool
        ensures { result ≡ self.now.shapes.has_counter }
    {
        self.counter.enabled
    }

    /// The bytes of an attribute that can be read, or `None` if there is no such attribute. Allocates nothing.
    pub fn attribute(&self, class: u16, instance: u32, attribute: u16) -> Option<ReplyBuf>
        ensures value { option_map (λ bytes. bytes.items) result ≡ value_at self.now class instance attribute }
        // The longest attribute of the Identity object's instance is the name with its length.
        ensures identity { class ≡ IDENTITY → instance ≡ 1
            → IfSome result (λ bytes. length bytes.items ≤ NAME_LIMIT + 1) }
    {
        let mut bytes = ReplyBuf::new();
        if self.read_attribute(class, instance, attribute, &mut bytes) {
            Some(bytes)
        } else {
            None
        }
    }

    /// Writes the bytes of an attribute that can be read to `reply`, in place of its old content, and returns
    /// whether there is such an attribute. Allocates nothing.
    ///
    /// With this call you can read one attribute after another into one buffer.
    pub fn read_attribute(
        &self,
        class: u16,
        instance: u32,
        attribute: u16,
        reply: &mut ReplyBuf,
    ) -> bool
        ensures found { result ≡ is_some (value_at self.now class instance attribute) }
        ensures bytes { reply.new.items ≡ bytes_at self.now class instance attribute }
        // The longest attribute of the Identity object's instance is the name with its length.
        ensures identity { class ≡ IDENTITY → instance ≡ 1 → length reply.new.items ≤ NAME_LIMIT + 1 }
    {
        reply.clear();
        let Some(object) = self.object(class, instance) else {
            return false;
        };
        match self.value(object, attribute) {
            Some(value) => value.append(REPLY_LIMIT, reply).is_ok(),
            None => false,
        }
    }

    /// Writes bytes into the data of an assembly, from `offset` on, even if peers cannot set it. Returns whether it
    /// did. If there is no such assembly, or the bytes go past the end of its data, it returns `false` and changes
    /// nothing. With this call the device itself updates what its peers read. It is not counted as a change.
    /// Allocates nothing.
    pub fn write_data(&mut self, instance: u32, offset: usize, bytes: &[u8]) -> bool
        ensures written { self.new ≡ unwrap_or (device_write self.old instance offset bytes.now) self.old }
        ensures reported { result ≡ is_some (device_write self.old instance offset bytes.now) }
    {
        let Some(assembly_index) = self.assembly_index(instance) else {
            return false;
        };
        if !ends_within(offset, bytes.len(), self.assembly(assembly_index).size()) {
            return false;
        }
        self.write_content(assembly_index, offset, bytes);
        true
    }

    /// Sets the device's status: attribute 5 of the Identity object, a WORD (Volume 1, Identity object). Allocates
    /// nothing.
    pub fn set_device_status(&mut self, status: u16)
        ensures { self.new ≡ with_device_status self.old status }
    {
        self.identity.set_status(status);
    }

    /// Sets the device's state: attribute 8 of the Identity object, a USINT (Volume 1, Identity object). Allocates
    /// nothing.
    pub fn set_device_state(&mut self, state: u8)
        ensures { self.new ≡ with_device_state self.old state }
    {
        self.identity.set_state(state);
    }

    /// How often peers have written data of this assembly, modulo 2^32. Each executed Set_Attribute_Single of its
    /// data and each executed Set_Member counts once. Refused requests, repeats on a class 3 connection and
    /// `write_data` do not count. `None` if there is no such assembly. Allocates nothing.
    ///
    /// So a device notices a write without comparing bytes.
    pub fn changes(&self, instance: u32) -> Option<u32>
        ensures changes { result ≡ changes_of instance self.now.changes }
        ensures there { is_some result ≡ is_some (shape_at instance self.now.shapes.assemblies) }
    {
        let assembly_index = position(&self.assemblies, instance)?;
        Some(self.assemblies[assembly_index].changes())
    }

    /// How often peers have set an attribute of an application object, or the data of an assembly, modulo 2^32. Refused
    /// requests, repeats on a class 3 connection and the device's own writes do not count. `None` if there is no such
    /// attribute. Allocates nothing.
    pub fn attribute_changes(&self, class: u16, instance: u32, attribute: u16) -> Option<u32>
        ensures { result ≡ changes_at (key class instance attribute) self.now.changes }
    {
        if class != ASSEMBLY {
            return self.application.changes(class, instance, attribute);
        }
        // What is counted of an assembly are the changes of its data.
        if attribute != 3 {
            return None;
        }
        self.changes(instance)
    }

    /// The index of the assembly with this instance number, if there is one.
    fn assembly_index(&self, instance: u32) -> Option<usize>
        ensures { MatchOption result (shape_at instance self.now.shapes.assemblies ≡ None)
            (IsAssemblyAt self.now.shapes instance) }
    {
        position(&self.assemblies, instance)
    }

    /// The assembly at this index.
    #[inline(always)]
    pub(crate) fn assembly(&self, assembly_index: usize) -> &Assembly
        requires { IsAssemblyIndex self.now.shapes assembly_index }
        ensures shape { shape_at (number_at self.now.shapes assembly_index) self.now.shapes.assemblies ≡ Some (shape_of result.now) }
        ensures content { result.now.content ≡ data_at self.now assembly_index }
    {
        &self.assemblies[assembly_index]
    }

    /// The settable attribute of an object that has this number, or `None` if it cannot be set.
    #[tactic(auto, unfolding(crate::specs::Tables::settable_kind), using(crate::proofs::ObjectRefs::not_settable))]
    pub(crate) fn settable(&self, object: ObjectRef, attribute: u16) -> Option<Settable>
        requires { Exists self.now.shapes object }
        ensures kind { option_map (kind_to_set self.now.shapes) result
            ≡ settable_kind self.now.shapes (class_at self.now.shapes object) (instance_at self.now.shapes object)
            attribute }
        ensures names { IfSome result (CanBeSet self.now object attribute) }
    {
        // Peers can set the counter's limit, and the data of an assembly or an attribute of an application object if the
        // configuration says so.
        match (object, attribute) {
            (ObjectRef::Assembly(assembly_index), 3) => {
                let assembly = self.assembly(assembly_index);
                if !assembly.is_settable() {
                    return None;
                }
                Some(Settable::Data {
                    assembly_index,
                    size: assembly.size(),
                })
            }
            (ObjectRef::Counter, 2) => Some(Settable::Limit),
            (ObjectRef::Application(object_index), _) => {
                if !self.application.is_settable(object_index, attribute) {
                    return None;
                }
                Some(Settable::Attribute {
                    object_index,
                    number: attribute,
                })
            }
            _ => None,
        }
    }

    /// The counter.
    pub(crate) fn counter(&self) -> Counter
        requires { HasCounter self.now.shapes }
        ensures value { result.value ≡ udint_at self.now COUNTER 1 1 }
        ensures limit { result.limit ≡ udint_at self.now COUNTER 1 2 }
        ensures additions { result.additions ≡ udint_at self.now COUNTER 1 3 }
    {
        let counter = self.counter;
        counter
    }

    /// Writes bytes into the data of the assembly at this index, from `offset` on.
    pub(crate) fn write_content(&mut self, assembly_index: usize, offset: usize, bytes: &[u8])
        requires there { IsAssemblyIndex self.old.shapes assembly_index }
        requires inside { offset + length bytes.now ≤ length (data_at self.old assembly_index) }
        ensures { self.new
            ≡ with_value self.old ASSEMBLY (number_at self.old.shapes assembly_index) 3
            (with_bytes_at (data_at self.old assembly_index) offset bytes.now) }
    {
        self.assemblies[assembly_index].write(offset, bytes);
    }

    /// Counts a write to the data of the assembly at this index by a peer.
    pub(crate) fn count_change(&mut self, assembly_index: usize)
        requires { IsAssemblyIndex self.old.shapes assembly_index }
        ensures { self.new ≡ counted self.old ASSEMBLY (number_at self.old.shapes assembly_index) 3 }
    {
        self.assemblies[assembly_index].count_change();
    }

    /// Sets the counter's value.
    pub(crate) fn set_value(&mut self, value: u32)
        requires { HasCounter self.old.shapes }
        ensures { self.new ≡ with_value self.old COUNTER 1 1 (little_bytes 4 value) }
    {
        self.counter.value = value;
    }

    /// Sets the counter's limit for a peer.
    pub(crate) fn set_limit(&mut self, limit: u32)
        requires { HasCounter self.old.shapes }
        ensures { self.new ≡ with_change self.old COUNTER 1 2 (little_bytes 4 limit) }
    {
        self.counter.limit = limit;
    }

    /// Sets the counter's number of additions.
    pub(crate) fn set_additions(&mut self, additions: u32)
        requires { HasCounter self.old.shapes }
        ensures { self.new ≡ with_value self.old COUNTER 1 3 (little_bytes 4 additions) }
    {
        self.counter.additions = additions;
    }
}

/// Whether `count` bytes from `offset` on end within `size`.
fn ends_within(offset: usize, count: usize, size: usize) -> bool
    ensures { result ≡ nat_le (offset + count) size }
{
    offset <= size && count <= size - offset
}

/// The product name, as the Identity object stores it.
fn name_of(text: &[u8]) -> ArrayVec<u8, NAME_LIMIT>
    requires { length text.now ≤ NAME_LIMIT }
    ensures { result.items ≡ text.now }
{
    let mut name = ArrayVec::new();
    let _ = name.try_extend_from_slice(text);
    name
}

/// Makes the assemblies of a configuration.
fn assemblies_of(
    alloc: Global,
    configs: &[AssemblyConfig],
) -> Result<BoxedSlice<Assembly>, AllocError>
    requires few { All (λ a. length a.members.items ≤ MEMBER_LIMIT) configs.now }
    requires small { All (λ a. sum a.members.items ≤ DATA_LIMIT) configs.now }
    ensures { IfOk result (λ blocks. boxed_slice_items blocks ≡ map assembly_of_config configs.now) }
{
    let mut assemblies = Vec::with_capacity(alloc, configs.len())?;
    for config in configs {
        assemblies.push(Assembly::new(
            alloc,
            config.instance,
            config.settable,
            &config.members,
            config.lists,
        )?)?;
    }
    Ok(assemblies.into_boxed_slice())
}
