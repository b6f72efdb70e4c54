//! The application objects among the objects of a device: what is read of them, set in them and asked of their owner.
//! Text: docs/PROTOCOL.md, "Objects".
ghost use Rattle.std.specs.Prelude.{◌≡◌, ◌≤◌, ◌<◌, ◌==◌, not, [], length, slice_index, option_map, unwrap_or, is_some};
ghost use Rattle.std.specs.Prelude.{Some, None, MatchOption, IfSome, OnOk, OnErr};
ghost use Rattle.byteorder.specs.Endian.{little_number};
ghost use Rattle.cip_application.specs.Configuration.{is_standard_class};
ghost use Rattle.cip_application.specs.Objects.{service_in};
ghost use Rattle.cip_application.specs.Values.{size_for};
ghost use Rattle.cip_objects.specs.AttributeValue.{value_bytes, IsShort};
ghost use Rattle.cip_objects.specs.ChangeServices.{change_result};
ghost use Rattle.cip_objects.specs.Contents.{value_at};
ghost use Rattle.cip_objects.specs.DeviceWrites.{object_write};
ghost use Rattle.cip_objects.specs.Entries.{class_revision};
ghost use Rattle.cip_objects.specs.ObjectRef.{IsFree, HasNoValue, Resolves, IsObjectClass, IsObjectIndex, IsSettable};
ghost use Rattle.cip_objects.specs.ObjectRef.{services_at, object_in, value_to, bytes_to, after_set};
ghost use Rattle.cip_objects.specs.OwnRequests.{own_object, IsOwnAt, checked_attribute, check_set, with_stored};
ghost use Rattle.cip_objects.specs.ReadServices.{numbers_of};
ghost use Rattle.cip_objects.specs.Tables.{application_services, kind_in_object};

use crate::class::class_attribute;
use crate::object_ref::{ObjectRef, Settable};
use crate::objects::Objects;
use crate::status::Refusal;
use crate::value::AttributeValue;
use cip_application::{
    ETHERNET_LINK, SERVICE_DATA_LIMIT, ServiceConfig, TCP_IP_INTERFACE, VALUE_LIMIT,
    is_standard_class,
};
use cip_bytes::protocol::MESSAGE_ROUTER;

/// The attribute of the TCP/IP Interface with the encapsulation inactivity timeout. (Volume 2, TCP/IP Interface object.)
const INACTIVITY_TIMEOUT: u16 = 13;

/// The attribute of the Message Router with the number of open connections. (Volume 1, Message Router object.)
const OPEN_CONNECTIONS: u16 = 3;

impl Objects {
    /// The application object that a class and an instance lead to, if there is one. The class is none that the device
    /// has itself.
    pub(crate) fn application_object(&self, class: u16, instance: u32) -> Option<ObjectRef>
        requires { IsFree self.now.shapes class }
        ensures services { option_map (services_at self.now.shapes) result
            ≡ application_services class instance self.now.shapes.objects }
        ensures resolves { MatchOption result (HasNoValue self.now class instance)
            (Resolves self.now.shapes class instance) }
    {
        // Instance 0 is the class itself.
        if instance == 0 {
            self.application.class(class)?;
            return Some(ObjectRef::ApplicationClass(class));
        }
        Some(ObjectRef::Application(self.application.position(class, instance)?))
    }

    /// The value of an attribute of a class of application objects.
    pub(crate) fn application_class_value(
        &self,
        class: u16,
        attribute: u16,
    ) -> Option<AttributeValue<'_>>
        requires { IsObjectClass self.now.shapes class }
        ensures value { option_map value_bytes result ≡ value_at self.now class 0 attribute }
        ensures short { IfSome result IsShort }
    {
        let summary = self.application.class(class)?;
        class_attribute(
            class_revision(class),
            summary.greatest,
            summary.instances,
            attribute,
        )
    }

    /// Whether the application object at an index is the Message Router, the TCP/IP Interface or the Ethernet Link.
    pub(crate) fn is_standard_object(&self, object_index: usize) -> bool
        requires { IsObjectIndex self.now.shapes object_index }
        ensures { result ≡ is_standard_class (object_in self.now.shapes object_index).class }
    {
        is_standard_class(self.application.class_at(object_index))
    }

    /// The encapsulation inactivity timeout in seconds: attribute 13 of the TCP/IP Interface. `None` if the device does
    /// not have this object. Allocates nothing.
    ///
    /// ```
    /// let idle = objects.inactivity_timeout().unwrap_or(120); // a peer may have set it
    /// ```
    pub fn inactivity_timeout(&self) -> Option<u16>
        ensures { result ≡ option_map (little_number 2) (value_at self.now 0xf5 1 13) }
    {
        match self
            .application
            .read(TCP_IP_INTERFACE, 1, INACTIVITY_TIMEOUT)
        {
            Some(value) => Some(uint_in(value)),
            None => None,
        }
    }

    /// The number of open connections that the objects show: attribute 3 of the Message Router. `None` if the device does
    /// not have this object. Whoever runs the device writes it by `write_attribute`. Allocates nothing.
    ///
    /// ```
    /// if objects.open_connections().is_some_and(|shown| shown != open) {
    ///     objects.write_attribute(2, 1, 3, 0, &open.to_le_bytes());
    /// }
    /// ```
    pub fn open_connections(&self) -> Option<u16>
        ensures { result ≡ option_map (little_number 2) (value_at self.now 2 1 3) }
    {
        match self.application.read(MESSAGE_ROUTER, 1, OPEN_CONNECTIONS) {
            Some(value) => Some(uint_in(value)),
            None => None,
        }
    }

    /// Whether the application object at an index has the service that sets a list of attributes.
    pub(crate) fn object_has_lists(&self, object_index: usize) -> bool
        requires { IsObjectIndex self.now.shapes object_index }
        ensures { result ≡ (object_in self.now.shapes object_index).lists }
    {
        self.application.has_lists(object_index)
    }

    /// The bytes of a value that begins with these, for an attribute of the application object at an index.
    pub(crate) fn object_size_for(
        &self,
        object_index: usize,
        attribute: u16,
        data: &[u8],
    ) -> Option<usize>
        requires { IsObjectIndex self.now.shapes object_index }
        ensures { result
            ≡ option_map (λ kind. size_for kind «data».now)
            (kind_in_object attribute (object_in self.now.shapes object_index)) }
    {
        self.application.size_for(object_index, attribute, data)
    }

    /// The value of an attribute of the application object at an index.
    pub(crate) fn object_value(
        &self,
        object_index: usize,
        attribute: u16,
    ) -> Option<AttributeValue<'_>>
        requires { IsObjectIndex self.now.shapes object_index }
        ensures value { option_map value_bytes result
            ≡ value_to self.now (ObjectRef.Application object_index) attribute }
        ensures short { IfSome result IsShort }
    {
        match self.application.attribute(object_index, attribute) {
            Some(bytes) => Some(AttributeValue::Bytes(bytes)),
            None => None,
        }
    }

    /// The number of attributes of the application object at an index.
    pub(crate) fn attribute_count(&self, object_index: usize) -> usize
        requires { IsObjectIndex self.now.shapes object_index }
        ensures { result ≡ length (object_in self.now.shapes object_index).attributes }
    {
        self.application.attribute_count(object_index)
    }

    /// The value of an attribute of the application object at an index, by the attribute's index in the order of the
    /// numbers.
    pub(crate) fn value_by_index(&self, object_index: usize, index: usize) -> &[u8]
        requires there { IsObjectIndex self.now.shapes object_index }
        requires within { index < length (object_in self.now.shapes object_index).attributes }
        ensures { result.now ≡ bytes_to self.now (ObjectRef.Application object_index)
            (slice_index (numbers_of (Some (object_in self.now.shapes object_index))) index) }
    {
        self.application.value_at(object_index, index)
    }

    /// Sets a settable attribute of an application object for a peer, which is counted.
    pub(crate) fn set_object(
        &mut self,
        object_index: usize,
        number: u16,
        data: &[u8],
    ) -> Result<(), Refusal>
        requires there { IsObjectIndex self.old.shapes object_index }
        requires settable { IsSettable self.old (Settable.Attribute object_index number) }
        ensures change_result { change_result (λ _. []) self.new result
            ≡ after_set self.old (Settable.Attribute object_index number) «data».now }
        ensures err { OnErr result (self.new ≡ self.old) }
    {
        self.application.set(object_index, number, data)?;
        Ok(())
    }

    /// Whether the configuration gives the device application objects. A device without one asks its owner nothing.
    ///
    /// ```
    /// if !objects.has_application_objects() {
    ///     return None; // no request is to the owner
    /// }
    /// ```
    #[inline(always)]
    pub fn has_application_objects(&self) -> bool
        ensures { result ≡ not (length self.now.shapes.objects == 0) }
    {
        self.application.count() != 0
    }

    /// The index of the application object that class and instance lead to, if there is one.
    pub(crate) fn own_object(&self, class: u16, instance: u32) -> Option<usize>
        ensures { MatchOption result (own_object self.now.shapes class instance ≡ None)
            (IsOwnAt self.now.shapes class instance) }
    {
        self.application.position(class, instance)
    }

    /// The own service with this number of the application object at an index.
    pub(crate) fn own_service(&self, object_index: usize, number: u8) -> Option<ServiceConfig>
        requires { IsObjectIndex self.now.shapes object_index }
        ensures service { result ≡ service_in number (object_in self.now.shapes object_index).services }
        ensures short { IfSome result (λ s. s.most ≤ SERVICE_DATA_LIMIT) }
        ensures answered { IfSome result (λ s. s.reply ≤ SERVICE_DATA_LIMIT) }
    {
        self.application.service(object_index, number)
    }

    /// The checks of a set of an attribute of the application object at an index before the owner of the device is
    /// asked, or `None` if a set of it does not need the owner's approval.
    pub(crate) fn check_checked(
        &self,
        object_index: usize,
        attribute: u16,
        data: &[u8],
    ) -> Option<Result<(), Refusal>>
        requires { IsObjectIndex self.now.shapes object_index }
        ensures checks { result ≡ option_map (λ a. check_set a.kind «data».now)
            (checked_attribute self.now (object_in self.now.shapes object_index).class
            (object_in self.now.shapes object_index).instance attribute) }
        ensures short { IfSome result (λ r. OnOk r (length «data».now ≤ VALUE_LIMIT)) }
    {
        match self
            .application
            .check_before_asking(object_index, attribute, data)?
        {
            Ok(()) => Some(Ok(())),
            Err(fault) => Some(Err(Refusal::from(fault))),
        }
    }

    /// Writes bytes into an attribute of an application object, from `offset` on, even if peers cannot set it. Returns
    /// whether it did. The bytes must end within the value; a SHORT_STRING is written as a whole. Otherwise, or if
    /// there is no such attribute, it returns `false` and changes nothing. It is not counted as a change. Allocates
    /// nothing.
    pub fn write_attribute(
        &mut self,
        class: u16,
        instance: u32,
        attribute: u16,
        offset: usize,
        bytes: &[u8],
    ) -> bool
        ensures written { self.new
            ≡ unwrap_or (object_write self.old class instance attribute offset bytes.now) self.old }
        ensures reported { result ≡ is_some (object_write self.old class instance attribute offset bytes.now) }
    {
        self.application
            .write(class, instance, attribute, offset, bytes)
    }

    /// Stores a set of a checked attribute of an application object that the owner of the device approved, and counts
    /// it as a change. Nothing changes if there is no such attribute, if peers cannot set it, if it is not checked, or
    /// if it may not have this value. Allocates nothing.
    ///
    /// ```
    /// objects.store_checked(768, 1, 4, &[0x01]); // attribute 4 is settable and checked
    /// let changes = objects.attribute_changes(768, 1, 4); // one more than before
    /// ```
    pub fn store_checked(&mut self, class: u16, instance: u32, attribute: u16, data: &[u8])
        ensures { self.new ≡ with_stored self.old class instance attribute «data».now }
    {
        if let Some(object_index) = self.application.position(class, instance) {
            self.application
                .store_checked(object_index, attribute, data);
        }
    }
}

/// The revision of a class of application objects (Volume 2, TCP/IP Interface and Ethernet Link objects).
fn class_revision(class: u16) -> u16
    ensures { result ≡ class_revision class }
{
    match class {
        TCP_IP_INTERFACE | ETHERNET_LINK => 4,
        _ => 1,
    }
}

/// The number of the first two bytes of a value.
fn uint_in(value: &[u8]) -> u16
    ensures { result ≡ little_number 2 value.now }
{
    match value {
        [] => 0,
        [low] => u16::from(*low),
        [low, high, ..] => u16::from_le_bytes([*low, *high]),
    }
}
