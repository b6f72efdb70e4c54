//! The application objects of a device: a list of objects to a caller.
//! Text: docs/PROTOCOL.md, "Objects".
ghost use Rattle.std.specs.Prelude.{◌≡◌, ◌≤◌, ◌<◌, IfOk, IfErr, IfSome, OnErr, OnOk, Ok, Err, None, length};
ghost use Rattle.std.specs.Prelude.{option_copied, option_map, unwrap_or, is_some, slice_index_or, slice_get, map};
ghost use Rattle.std.specs.List.{All};
ghost use Rattle.std.specs.Box.{boxed_slice_items};
ghost use Rattle.cip_application.specs.Attributes.{AttributeValues, attribute_at, can_be_set};
ghost use Rattle.cip_application.specs.Attributes.{check_before_asking};
ghost use Rattle.cip_application.specs.Configuration.{fault_of, objects_of_config, object_of_config, AreOwn};
ghost use Rattle.cip_application.specs.Configuration.{AreInOrder};
ghost use Rattle.cip_application.specs.Objects.{position_of, object_in, value_in, value_of, service_in, objects_set};
ghost use Rattle.cip_application.specs.Objects.{objects_write, objects_restore, objects_approved, changes_of};
ghost use Rattle.cip_application.specs.Objects.{class_of};
ghost use Rattle.cip_application.specs.Objects.{AllAllowed};
ghost use Rattle.cip_application.specs.Kept.{is_kept_at, kept_names_of};
ghost use Rattle.cip_application.specs.Values.{size_for};
ghost use Rattle.cip_application.specs.Whole.{IsSound};

use crate::attribute::SetFault;
use crate::config::{ObjectConfig, ObjectFault, SERVICE_DATA_LIMIT, ServiceConfig, fault};
use crate::kind::VALUE_LIMIT;
use crate::object::{AttributeName, Object};
use std::alloc::{AllocError, Global};
use std::boxed::BoxedSlice;
use std::marker::Model;

/// What a class has: attributes 2 and 3 of its instance 0 (Volume 1, class attributes).
#[derive(Clone, Copy, Debug)]
pub struct ClassSummary {
    /// The greatest instance number.
    pub greatest: u16,
    /// The number of instances.
    pub instances: u16,
}

/// The application objects of a device. Only `new` allocates.
///
/// ```
/// let mut objects = ApplicationObjects::new(alloc, true, &configs)?;
/// objects.write(768, 1, 1, 0, &[0x10, 0x27]); // the device writes attribute 1 of instance 1 of class 768
/// let value = objects.read(768, 1, 1);
/// ```
#[derive(Debug, Drop)]
pub struct ApplicationObjects {
    objects: BoxedSlice<Object>,
}

impl Model for ApplicationObjects {
    ghost use Rattle.std.specs.Prelude.{List};
    ghost use Rattle.std.specs.Box.{boxed_slice_items};
    ghost use Rattle.cip_application.specs.Objects.{ObjectValues};

    ghost Value = { List ObjectValues };

    ghost view = { λ o. boxed_slice_items o.objects };

    ghost use Rattle.cip_application.specs.Whole.{AreFew};

    ghost invariant = { λ o. AreFew o };
}

impl ApplicationObjects {
    /// Makes the objects of a configuration. `counter` says whether the adapter has its counter, so that no object can
    /// have the counter's class.
    ///
    /// # Errors
    ///
    /// The first check of the configuration that fails, in the order of `ObjectFault`. `Memory` only if all hold and
    /// memory is refused.
    pub fn new(
        alloc: Global,
        counter: bool,
        configs: &[ObjectConfig],
    ) -> Result<ApplicationObjects, ObjectFault>
        ensures refused { IfSome (fault_of counter configs.now) (λ fault. result ≡ Err fault) }
        ensures allowed { fault_of counter configs.now ≡ None → IfErr result (λ fault. fault ≡ ObjectFault.Memory) }
        ensures made { IfOk result (λ objects. objects ≡ objects_of_config configs.now) }
        ensures own { IfOk result (AreOwn counter) }
        ensures values { IfOk result AllAllowed }
        ensures in_order { IfOk result (All (λ o. AreInOrder o.attributes)) }
    {
        if let Some(fault) = fault(counter, configs) {
            return Err(fault);
        }
        Ok(ApplicationObjects {
            objects: objects_of(alloc, configs)?,
        })
    }

    /// The number of objects.
    pub fn count(&self) -> usize
        ensures { result ≡ length self.now }
    {
        self.objects.len()
    }

    /// The index of the object of this class with this instance number.
    pub fn position(&self, class: u16, instance: u32) -> Option<usize>
        ensures position { result ≡ position_of class instance self.now }
        ensures within { IfSome result (λ k. k < length self.now) }
    {
        for (i, object) in self.objects.iter().enumerate() {
            if object.class() == class && u32::from(object.instance()) == instance {
                return Some(i);
            }
        }
        None
    }

    /// The class of the object at an index.
    pub fn class_at(&self, position: usize) -> u16
        requires { position < length self.now }
        ensures { result ≡ (object_in self.now position).class }
    {
        self.objects[position].class()
    }

    /// The value of an attribute of the object at an index, or `None` if it has no such attribute.
    pub fn attribute(&self, position: usize, number: u16) -> Option<&[u8]>
        requires { position < length self.now }
        ensures value { option_copied result ≡ value_in (object_in self.now position) number }
        ensures short { IfSome result (λ value. length value.now ≤ VALUE_LIMIT) }
    {
        self.objects[position].value(number)
    }

    /// The number of attributes of the object at an index.
    pub fn attribute_count(&self, position: usize) -> usize
        requires { position < length self.now }
        ensures { result ≡ length (object_in self.now position).attributes }
    {
        self.objects[position].attribute_count()
    }

    /// The value of an attribute of the object at an index, by the attribute's index in the order of the numbers.
    pub fn value_at(&self, position: usize, index: usize) -> &[u8]
        requires object { position < length self.now }
        requires attribute { index < length (object_in self.now position).attributes }
        ensures value { (d : AttributeValues)
            → result.now ≡ (slice_index_or (object_in self.now position).attributes index d).value }
        ensures short { length result.now ≤ VALUE_LIMIT }
    {
        self.objects[position].value_at(index)
    }

    /// Whether peers can set a list of attributes of the object at an index with one request.
    pub fn has_lists(&self, position: usize) -> bool
        requires { position < length self.now }
        ensures { result ≡ (object_in self.now position).lists }
    {
        self.objects[position].has_lists()
    }

    /// The bytes of a value that begins with these, for an attribute of the object at an index. `None` if the object
    /// has no such attribute.
    ///
    /// ```
    /// // attribute 1 is a UINT, attribute 2 a SHORT_STRING
    /// let size = objects.size_for(0, 1, &[0xe8, 0x03, 0x02]); // Some(2)
    /// let size = objects.size_for(0, 2, &[0x02, 0x4f, 0x4b]); // Some(3): a byte with the length, then the text
    /// ```
    pub fn size_for(&self, position: usize, number: u16, data: &[u8]) -> Option<usize>
        requires { position < length self.now }
        ensures { result
            ≡ option_map (λ a. size_for a.kind data.now) (attribute_at number (object_in self.now position).attributes) }
    {
        self.objects[position].size_for(number, data)
    }

    /// Whether peers can set an attribute of the object at an index without a question to the owner of the device.
    pub fn is_settable(&self, position: usize, number: u16) -> bool
        requires { position < length self.now }
        ensures { result ≡ can_be_set (attribute_at number (object_in self.now position).attributes) }
    {
        self.objects[position].is_settable(number)
    }

    /// Sets an attribute of the object at an index to these data, for a peer. A set that is executed is counted.
    ///
    /// # Errors
    ///
    /// The first check that fails, in the order of `SetFault`. Nothing changes then.
    pub fn set(&mut self, position: usize, number: u16, data: &[u8]) -> Result<(), SetFault>
        requires { position < length self.old }
        ensures set { OnOk result (objects_set self.old position number data.now ≡ Ok self.new) }
        ensures fault { IfErr result (λ fault. objects_set self.old position number data.now ≡ Err fault) }
        ensures refused { OnErr result (self.new ≡ self.old) }
    {
        self.objects[position].set(number, data)
    }

    /// The checks of a set of an attribute of the object at an index before the owner of the device is asked: the size
    /// of the data, then the value. `None` if the object has no such attribute, or if a set of it does not need the
    /// owner's approval. Nothing is stored.
    ///
    /// ```
    /// // the speed is a UINT up to 3,000, settable and checked
    /// let refused = objects.check_before_asking(0, 1, &[0xff, 0xff]); // Some(Err(SetFault::InvalidAttributeValue))
    /// ```
    pub fn check_before_asking(
        &self,
        position: usize,
        number: u16,
        data: &[u8],
    ) -> Option<Result<(), SetFault>>
        requires { position < length self.now }
        ensures checks { result
            ≡ check_before_asking (attribute_at number (object_in self.now position).attributes) data.now }
        ensures short { IfSome result (λ r. OnOk r (length data.now ≤ VALUE_LIMIT)) }
    {
        self.objects[position].check_before_asking(number, data)
    }

    /// Stores a set that the owner of the device approved, and counts it. Nothing changes if the object at the index
    /// has no such attribute, if a set of it does not need approval, or if it may not have this value.
    pub fn store_checked(&mut self, position: usize, number: u16, data: &[u8])
        requires { position < length self.old }
        ensures { self.new ≡ objects_approved self.old position number data.now }
    {
        if self.objects[position].needs_approval(number) {
            let _ = self.set(position, number, data);
        }
    }

    /// The own service of the object at an index that has this number. Its data, and those of its reply, have at most
    /// 480 bytes.
    pub fn service(&self, position: usize, number: u8) -> Option<ServiceConfig>
        requires { position < length self.now }
        ensures service { result ≡ service_in number (object_in self.now position).services }
        ensures short { IfSome result (λ s. s.most ≤ SERVICE_DATA_LIMIT) }
        ensures answered { IfSome result (λ s. s.reply ≤ SERVICE_DATA_LIMIT) }
    {
        self.objects[position].service(number)
    }

    /// The greatest instance number of a class and the number of its instances, or `None` if it has no instance.
    pub fn class(&self, class: u16) -> Option<ClassSummary>
        ensures { result ≡ class_of class self.now }
    {
        let mut greatest: u16 = 0;
        let mut instances: u16 = 0;
        for object in self.objects.iter() {
            if object.class() == class {
                greatest = greatest.max(object.instance());
                instances += 1;
            }
        }
        if instances == 0 {
            return None;
        }
        Some(ClassSummary {
            greatest,
            instances,
        })
    }

    /// The value of an attribute, for the device itself, or `None` if there is no such attribute.
    pub fn read(&self, class: u16, instance: u32, attribute: u16) -> Option<&[u8]>
        ensures value { option_copied result ≡ value_of self.now class instance attribute }
        ensures short { IfSome result (λ value. length value.now ≤ VALUE_LIMIT) }
    {
        let position = self.position(class, instance)?;
        self.attribute(position, attribute)
    }

    /// Writes bytes into an attribute from an offset on, for the device itself, even if peers cannot set it, and
    /// returns whether it did. The bytes must end within the value; a SHORT_STRING is written as a whole. Otherwise, or
    /// if there is no such attribute, it returns `false` and changes nothing. It is not counted as a change, and the
    /// attribute's range does not bind it.
    pub fn write(
        &mut self,
        class: u16,
        instance: u32,
        attribute: u16,
        offset: usize,
        bytes: &[u8],
    ) -> bool
        ensures written { self.new
            ≡ unwrap_or (objects_write self.old class instance attribute offset bytes.now) self.old }
        ensures reported { result ≡ is_some (objects_write self.old class instance attribute offset bytes.now) }
    {
        let Some(position) = self.position(class, instance) else {
            return false;
        };
        self.objects[position].write(attribute, offset, bytes)
    }

    /// Puts bytes in place of an attribute's value, for the device itself, even if peers cannot set it, and returns
    /// whether it did. The bytes must have the size of the value, or be a text that is not longer than its room.
    /// Otherwise, or if there is no such attribute, it returns `false` and changes nothing. It is not counted as a
    /// change, and the attribute's range does not bind it.
    ///
    /// ```
    /// objects.restore(768, 1, 1, &[0x10, 0x27]); // false if the value does not have two bytes
    /// ```
    pub fn restore(&mut self, class: u16, instance: u32, attribute: u16, bytes: &[u8]) -> bool
        ensures restored { self.new
            ≡ unwrap_or (objects_restore self.old class instance attribute bytes.now) self.old }
        ensures reported { result ≡ is_some (objects_restore self.old class instance attribute bytes.now) }
    {
        let Some(position) = self.position(class, instance) else {
            return false;
        };
        self.objects[position].restore(attribute, bytes)
    }

    /// Whether an attribute is kept over a restart: each is, but of an object of the standard only what peers can set.
    /// `false` if there is no such attribute.
    pub fn is_kept(&self, class: u16, instance: u32, attribute: u16) -> bool
        ensures { result ≡ is_kept_at self.now class instance attribute }
    {
        match self.position(class, instance) {
            Some(position) => self.objects[position].is_kept(attribute),
            None => false,
        }
    }

    /// The name of a kept attribute by its index among those: object by object, in the order of the attribute numbers.
    /// `None` past the last.
    pub fn kept_name(&self, index: usize) -> Option<AttributeName>
        ensures { result ≡ slice_get (kept_names_of self.now) index }
    {
        let mut left = index;
        for object in self.objects.iter() {
            let count = object.kept_count();
            if left < count {
                return object.kept_name(left);
            }
            left -= count;
        }
        None
    }

    /// How often peers have set an attribute, modulo 2^32. Refused sets and the device's own writes do not count.
    /// `None` if there is no such attribute.
    pub fn changes(&self, class: u16, instance: u32, attribute: u16) -> Option<u32>
        ensures { result ≡ changes_of self.now class instance attribute }
    {
        let position = self.position(class, instance)?;
        self.objects[position].changes(attribute)
    }
}

/// Makes the objects of a configuration.
fn objects_of(alloc: Global, configs: &[ObjectConfig]) -> Result<BoxedSlice<Object>, AllocError>
    requires { All IsSound configs.now }
    ensures { IfOk result (λ objects. boxed_slice_items objects ≡ map object_of_config configs.now) }
{
    let mut objects = Vec::with_capacity(alloc, configs.len())?;
    for config in configs {
        objects.push(Object::new(alloc, config)?)?;
    }
    Ok(objects.into_boxed_slice())
}
