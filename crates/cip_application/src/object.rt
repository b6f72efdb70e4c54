//! An application object: its attributes in the order of their numbers, and its own services.
//! Text: docs/PROTOCOL.md, "Objects".
ghost use Rattle.std.specs.Prelude.{◌≡◌, ◌≤◌, ◌<◌, IfOk, IfErr, IfSome, OnErr, OnOk, Ok, Err, MatchOption, None, Some};
ghost use Rattle.std.specs.Prelude.{length, map, option_map, option_copied, unwrap_or, is_some, insert};
ghost use Rattle.std.specs.Prelude.{slice_index_or, slice_get};
ghost use Rattle.std.specs.List.{All};
ghost use Rattle.std.specs.Box.{boxed_slice_items};
ghost use Rattle.cip_application.specs.Attributes.{AttributeValues, attribute_at, can_be_set, with_placed, in_order};
ghost use Rattle.cip_application.specs.Attributes.{needs_approval, check_before_asking};
ghost use Rattle.cip_application.specs.Configuration.{attribute_of_config, object_of_config};
ghost use Rattle.cip_application.specs.Objects.{value_in, service_in, object_set, object_write, object_restore};
ghost use Rattle.cip_application.specs.Objects.{IsAttributeAt};
ghost use Rattle.cip_application.specs.Kept.{is_kept_in, kept_names_in};
ghost use Rattle.cip_application.specs.Values.{capacity, size_for};
ghost use Rattle.cip_application.specs.Whole.{IsShort};

use crate::attribute::{Attribute, SetFault};
use crate::config::{
    ATTRIBUTE_LIMIT, AttributeConfig, ObjectConfig, SERVICE_DATA_LIMIT, ServiceConfig,
};
use crate::kind::VALUE_LIMIT;
use std::alloc::{AllocError, Global};
use std::boxed::BoxedSlice;
use std::marker::Model;

/// What an attribute is called: its class, the instance and its number.
#[derive(Clone, Copy, Debug, PartialEq, Eq)]
pub struct AttributeName {
    /// The class.
    pub class: u16,
    /// The instance number.
    pub instance: u16,
    /// The attribute's number.
    pub attribute: u16,
}

/// An application object. Only `new` allocates.
#[derive(Debug, Drop)]
pub(crate) struct Object {
    /// The class, 16 bits.
    class: u16,
    /// The instance number, 1 to 65,535.
    instance: u16,
    /// The attributes, in the order of their numbers.
    attributes: BoxedSlice<Attribute>,
    /// The own services.
    services: BoxedSlice<ServiceConfig>,
    /// Whether peers can set a list of its attributes with one request.
    lists: bool,
}

impl Model for Object {
    ghost use Rattle.std.specs.Box.{boxed_slice_items};
    ghost use Rattle.cip_application.specs.Objects.{ObjectValues};

    ghost Value = { ObjectValues };

    ghost view = { λ o. record {
      class = o.class;
      instance = o.instance;
      attributes = boxed_slice_items o.attributes;
      services = boxed_slice_items o.services;
      lists = o.lists;
    } };

    ghost use Rattle.std.specs.List.{All};
    ghost use Rattle.cip_application.specs.Whole.{IsShort};

    ghost invariant = { λ o. All IsShort (boxed_slice_items o.services) };
}

impl Object {
    /// The object of a configuration.
    pub(crate) fn new(alloc: Global, config: &ObjectConfig) -> Result<Object, AllocError>
        requires few { length config.now.attributes.items ≤ ATTRIBUTE_LIMIT }
        requires fit { All (λ a. length a.value.items ≤ capacity a.kind) config.now.attributes.items }
        requires short { All (λ a. capacity a.kind ≤ VALUE_LIMIT) config.now.attributes.items }
        requires services { All IsShort config.now.services.items }
        ensures { IfOk result (λ o. o ≡ object_of_config config.now) }
    {
        Ok(Object {
            class: config.class,
            instance: config.instance,
            attributes: attributes_of(alloc, &config.attributes)?,
            services: BoxedSlice::from_slice(alloc, &config.services)?,
            lists: config.lists,
        })
    }

    /// The class.
    pub(crate) fn class(&self) -> u16
        ensures { result ≡ self.now.class }
    {
        self.class
    }

    /// The instance number.
    pub(crate) fn instance(&self) -> u16
        ensures { result ≡ self.now.instance }
    {
        self.instance
    }

    /// Whether peers can set a list of its attributes with one request.
    pub(crate) fn has_lists(&self) -> bool
        ensures { result ≡ self.now.lists }
    {
        self.lists
    }

    /// The number of attributes.
    pub(crate) fn attribute_count(&self) -> usize
        ensures { result ≡ length self.now.attributes }
    {
        self.attributes.len()
    }

    /// The value of the attribute at an index.
    pub(crate) fn value_at(&self, index: usize) -> &[u8]
        requires { index < length self.now.attributes }
        ensures value { (d : AttributeValues) → result.now ≡ (slice_index_or self.now.attributes index d).value }
        ensures short { length result.now ≤ VALUE_LIMIT }
    {
        self.attributes[index].value()
    }

    /// The value of the attribute with this number.
    pub(crate) fn value(&self, number: u16) -> Option<&[u8]>
        ensures value { option_copied result ≡ value_in self.now number }
        ensures short { IfSome result (λ value. length value.now ≤ VALUE_LIMIT) }
    {
        let index = attribute_index(&self.attributes, number)?;
        Some(self.attributes[index].value())
    }

    /// The bytes of a value of the attribute with this number that begins with these.
    pub(crate) fn size_for(&self, number: u16, data: &[u8]) -> Option<usize>
        ensures { result ≡ option_map (λ a. size_for a.kind data.now) (attribute_at number self.now.attributes) }
    {
        let index = attribute_index(&self.attributes, number)?;
        Some(self.attributes[index].size_for(data))
    }

    /// Whether peers can set the attribute with this number without a question to the owner of the device.
    pub(crate) fn is_settable(&self, number: u16) -> bool
        ensures { result ≡ can_be_set (attribute_at number self.now.attributes) }
    {
        match attribute_index(&self.attributes, number) {
            Some(index) => self.attributes[index].is_settable(),
            None => false,
        }
    }

    /// Whether peers can set the attribute with this number only if the owner of the device approves.
    pub(crate) fn needs_approval(&self, number: u16) -> bool
        ensures { result ≡ needs_approval (attribute_at number self.now.attributes) }
    {
        match attribute_index(&self.attributes, number) {
            Some(index) => self.attributes[index].needs_approval(),
            None => false,
        }
    }

    /// The checks of a set of the attribute with this number before the owner is asked, or `None` if a set does not
    /// need the owner's approval.
    pub(crate) fn check_before_asking(
        &self,
        number: u16,
        data: &[u8],
    ) -> Option<Result<(), SetFault>>
        ensures checks { result ≡ check_before_asking (attribute_at number self.now.attributes) data.now }
        ensures short { IfSome result (λ r. OnOk r (length data.now ≤ VALUE_LIMIT)) }
    {
        let index = attribute_index(&self.attributes, number)?;
        self.attributes[index].check_before_asking(data)
    }

    /// How often peers set the attribute with this number, modulo 2^32.
    pub(crate) fn changes(&self, number: u16) -> Option<u32>
        ensures { result ≡ option_map (λ a. a.changes) (attribute_at number self.now.attributes) }
    {
        let index = attribute_index(&self.attributes, number)?;
        Some(self.attributes[index].changes())
    }

    /// Sets the attribute with this number to these data, for a peer.
    ///
    /// # Errors
    ///
    /// The first check that fails, in the order of the faults. Nothing changes then.
    pub(crate) fn set(&mut self, number: u16, data: &[u8]) -> Result<(), SetFault>
        ensures set { OnOk result (object_set self.old number data.now ≡ Ok self.new) }
        ensures fault { IfErr result (λ fault. object_set self.old number data.now ≡ Err fault) }
        ensures refused { OnErr result (self.new ≡ self.old) }
    {
        let Some(index) = attribute_index(&self.attributes, number) else {
            return Err(SetFault::AttributeNotSupported);
        };
        self.attributes[index].set(data)
    }

    /// Writes bytes into the attribute with this number from an offset on, for the device itself, and returns whether
    /// it did. If there is no such attribute, or its value cannot hold them, nothing changes.
    pub(crate) fn write(&mut self, number: u16, offset: usize, bytes: &[u8]) -> bool
        ensures written { self.new ≡ unwrap_or (object_write self.old number offset bytes.now) self.old }
        ensures reported { result ≡ is_some (object_write self.old number offset bytes.now) }
    {
        let Some(index) = attribute_index(&self.attributes, number) else {
            return false;
        };
        self.attributes[index].write(offset, bytes)
    }

    /// Puts bytes in place of the value of the attribute with this number, for the device itself, and returns whether it
    /// did. If there is no such attribute, or the bytes are not a value of its kind, nothing changes.
    pub(crate) fn restore(&mut self, number: u16, bytes: &[u8]) -> bool
        ensures restored { self.new ≡ unwrap_or (object_restore self.old number bytes.now) self.old }
        ensures reported { result ≡ is_some (object_restore self.old number bytes.now) }
    {
        let Some(index) = attribute_index(&self.attributes, number) else {
            return false;
        };
        self.attributes[index].restore(bytes)
    }

    /// Whether the attribute with this number is kept over a restart.
    pub(crate) fn is_kept(&self, number: u16) -> bool
        ensures { result ≡ is_kept_in self.now number }
    {
        match attribute_index(&self.attributes, number) {
            Some(index) => self.attributes[index].is_kept(self.class),
            None => false,
        }
    }

    /// The number of attributes that are kept over a restart.
    pub(crate) fn kept_count(&self) -> usize
        ensures { result ≡ length (kept_names_in self.now) }
    {
        let mut count = 0;
        for attribute in self.attributes.iter() {
            if attribute.is_kept(self.class) {
                count += 1;
            }
        }
        count
    }

    /// The name of a kept attribute, by its index among those.
    pub(crate) fn kept_name(&self, index: usize) -> Option<AttributeName>
        ensures { result ≡ slice_get (kept_names_in self.now) index }
    {
        let mut left = index;
        for attribute in self.attributes.iter() {
            if attribute.is_kept(self.class) {
                if left == 0 {
                    return Some(AttributeName {
                        class: self.class,
                        instance: self.instance,
                        attribute: attribute.number(),
                    });
                }
                left -= 1;
            }
        }
        None
    }

    /// The own service with this number.
    pub(crate) fn service(&self, number: u8) -> Option<ServiceConfig>
        ensures service { result ≡ service_in number self.now.services }
        ensures short { IfSome result (λ s. s.most ≤ SERVICE_DATA_LIMIT) }
        ensures answered { IfSome result (λ s. s.reply ≤ SERVICE_DATA_LIMIT) }
    {
        for service in self.services.iter() {
            if service.number == number {
                return Some(*service);
            }
        }
        None
    }
}

/// The index of the first attribute with this number.
fn attribute_index(attributes: &[Attribute], number: u16) -> Option<usize>
    ensures { MatchOption result (attribute_at number attributes.now ≡ None)
        (IsAttributeAt attributes.now number) }
{
    for (i, attribute) in attributes.iter().enumerate() {
        if attribute.number() == number {
            return Some(i);
        }
    }
    None
}

/// The index before which an attribute with this number is put: that of the first attribute of a greater number.
fn index_for(attributes: &[Attribute], number: u16) -> usize
    ensures within { result ≤ length attributes.now }
    ensures placed { (a : AttributeValues) → a.number ≡ number
        → insert attributes.now result a ≡ with_placed a attributes.now }
{
    for (i, attribute) in attributes.iter().enumerate() {
        if number < attribute.number() {
            return i;
        }
    }
    attributes.len()
}

/// Makes the attributes of a configuration, in the order of their numbers.
fn attributes_of(
    alloc: Global,
    configs: &[AttributeConfig],
) -> Result<BoxedSlice<Attribute>, AllocError>
    requires fit { All (λ a. length a.value.items ≤ capacity a.kind) configs.now }
    requires short { All (λ a. capacity a.kind ≤ VALUE_LIMIT) configs.now }
    ensures { IfOk result (λ attributes. boxed_slice_items attributes
        ≡ in_order (map attribute_of_config configs.now)) }
{
    let mut attributes = Vec::with_capacity(alloc, configs.len())?;
    let mut left = configs.len();
    while left > 0 {
        left -= 1;
        let config = &configs[left];
        let attribute = Attribute::new(
            alloc,
            config.number,
            config.kind,
            config.settable,
            config.checked,
            &config.value,
        )?;
        let index = index_for(&attributes, config.number);
        attributes.insert(index, attribute)?;
    }
    Ok(attributes.into_boxed_slice())
}
