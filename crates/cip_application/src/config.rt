//! What application objects are made from, and which configurations are refused.
//! Text: docs/PROGRAM.md, "The configuration".
ghost use Rattle.std.specs.Prelude.{◌≡◌, ◌-◌, ◌==◌, nat_lt, if◌then◌else◌, Some, None};
ghost use Rattle.std.specs.List.{list_any};
ghost use Rattle.cip_application.specs.Configuration.{is_taken_class, is_standard_class, is_misplaced, has_taken_class};
ghost use Rattle.cip_application.specs.Configuration.{is_invalid_name, is_invalid_object, has_object};
ghost use Rattle.cip_application.specs.Configuration.{are_invalid_objects, is_invalid_range, is_invalid_kind};
ghost use Rattle.cip_application.specs.Configuration.{is_invalid_attribute, are_invalid_attributes};
ghost use Rattle.cip_application.specs.Configuration.{has_invalid_attributes, capacity_of, total_capacity};
ghost use Rattle.cip_application.specs.Configuration.{is_invalid_service, are_invalid_services, has_invalid_services};
ghost use Rattle.cip_application.specs.Configuration.{is_invalid_as};
ghost use Rattle.cip_application.specs.Configuration.{fault_of};

use crate::kind::{AttributeKind, VALUE_LIMIT};
use crate::number::NumberRange;
use cip_bytes::protocol::{ASSEMBLY, CONNECTION_MANAGER, COUNTER, IDENTITY, MESSAGE_ROUTER};
use std::alloc::{AllocError, AllocFailed};
use thiserror::Error;

/// The most objects (our choice).
pub const OBJECT_LIMIT: usize = 32;

/// The most attributes of an object (our choice).
pub(crate) const ATTRIBUTE_LIMIT: usize = 32;

/// The most own services of an object (our choice).
const SERVICE_LIMIT: usize = 16;

/// The most bytes of a name (our choice).
const NAME_LIMIT: usize = 32;

/// The most bytes of all values together (our choice).
const CAPACITY_LIMIT: usize = 16_384;

/// The most bytes of an own service's data, and of its reply's (our choice).
pub const SERVICE_DATA_LIMIT: usize = 480;

/// The service that answers the result of a queued command (our choice).
pub const GET_RESULT: u8 = 0x4e;

/// The bytes of the data of Get_Result: a ticket.
const TICKET_SIZE: u16 = 4;

/// The most bytes of the data of a queued command's reply (our choice). With its head it fits the command ledger.
pub const QUEUED_REPLY_LIMIT: usize = 476;

/// The class of the command ledger (our choice).
pub(crate) const LEDGER: u16 = 0x65;

/// The class of the TCP/IP Interface object. (Volume 2, class codes.)
pub const TCP_IP_INTERFACE: u16 = 0xf5;

/// The class of the Ethernet Link object. (Volume 2, class codes.)
pub const ETHERNET_LINK: u16 = 0xf6;

/// An application object: an instance of a class that the adapter does not have itself. Three classes of the standard
/// are made of the same parts: the Message Router, the TCP/IP Interface and the Ethernet Link.
///
/// ```
/// let mut attributes = Vec::new(alloc);
/// attributes.push(speed)?;
/// let services = Vec::new(alloc);
/// let conveyor =
///     ObjectConfig { class: 768, instance: 1, standard: false, name: None, attributes, services, lists: false };
/// ```
#[derive(Debug, Drop)]
pub struct ObjectConfig {
    /// The class: not 0, and not a class of the adapter's own.
    pub class: u16,
    /// The instance number: not 0. No other object has the same class and instance number.
    pub instance: u16,
    /// Whether it is the Message Router, the TCP/IP Interface or the Ethernet Link. Only such an object has class 2, 0xf5
    /// or 0xf6, and its instance number is 1.
    pub standard: bool,
    /// A name, for people: 1 to 32 bytes, each 0x20 to 0x7e.
    pub name: Option<String>,
    /// The attributes, at most 32, in any order.
    pub attributes: Vec<AttributeConfig>,
    /// The own services, at most 16.
    pub services: Vec<ServiceConfig>,
    /// Whether peers can set a list of its attributes with one request. Not for an object of the standard.
    pub lists: bool,
}

/// An attribute of an application object.
#[derive(Debug, Drop)]
pub struct AttributeConfig {
    /// The number: not 0, and not that of another attribute of the object.
    pub number: u16,
    /// What values it has.
    pub kind: AttributeKind,
    /// Whether peers can set it.
    pub settable: bool,
    /// Whether a set is asked of the owner before it is stored.
    pub checked: bool,
    /// The initial value: one that a peer could set.
    pub value: Vec<u8>,
}

/// How a service of an object's own is executed.
#[derive(Clone, Copy, Debug, PartialEq, Eq)]
pub enum ServiceKind {
    /// The owner of the device is asked while the peer waits.
    Asked,
    /// It is put into the queue of commands and answered by its ticket. The owner executes it later.
    Queued,
    /// Get_Result: it answers the result of a queued command.
    Result,
}

/// A service of an object's own, which the owner of the device executes.
#[derive(Clone, Copy, Debug)]
pub struct ServiceConfig {
    /// The number, 0x32 to 0x63: vendor and class specific. Not that of another service of the object.
    pub number: u8,
    /// The fewest bytes of its data.
    pub least: u16,
    /// The most bytes of its data, at most 480.
    pub most: u16,
    /// The most bytes of the reply's data, at most 480, and at most 476 if the service is queued.
    pub reply: u16,
    /// How it is executed. Get_Result has the number 0x4e and 4 bytes of data.
    pub kind: ServiceKind,
}

/// Why no application objects are made from a configuration: the first of these that holds.
#[derive(Clone, Copy, Debug, PartialEq, Eq, Error)]
pub enum ObjectFault {
    /// There are over 32 objects, or one has a class or an instance number that it cannot have, the class and
    /// instance number of another, or a name that is empty, too long or not printable.
    #[error("an object whose class, instance or name is not allowed, or too many objects")]
    Object = 10,
    /// An attribute has a number that is 0 or occurs twice, a size or a range that no attribute can have, or an
    /// initial value that it cannot have. Or an object has over 32 attributes, or all values over 16,384 bytes.
    #[error("an attribute whose number, size, range or value is not allowed, or too many attributes")]
    Attribute = 11,
    /// A service has a number outside 0x32 to 0x63 or one that occurs twice, or sizes that do not rise or are over
    /// 480. Or it cannot be of its kind: it is queued and its reply has over 476 bytes, or it is Get_Result and has
    /// another number than 0x4e or other data than 4 bytes. Or an object has over 16 services.
    #[error("a service whose number or size is not allowed, or too many services")]
    Service = 12,
    /// Memory was refused.
    #[error("out of memory")]
    Memory = 6,
}

impl ObjectFault {
    ghost use Rattle.cip_application.specs.Configuration.{object_fault_number};

    /// The fault's number, as printed.
    pub fn number(self) -> u8
        ensures { result ≡ object_fault_number self }
    {
        self as u8
    }
}

impl From<AllocError> for ObjectFault {
    ghost use Rattle.cip_application.specs.declared.config.ObjectFault.TheVariants.{Memory};

    ghost from_gives = { λ _ fault. fault ≡ Memory };

    fn from(_: AllocError) -> ObjectFault {
        ObjectFault::Memory
    }
}

impl<T: Drop> From<AllocFailed<T>> for ObjectFault {
    ghost use Rattle.cip_application.specs.declared.config.ObjectFault.TheVariants.{Memory};

    ghost from_gives = { λ _ fault. fault ≡ Memory };

    fn from(_: AllocFailed<T>) -> ObjectFault {
        ObjectFault::Memory
    }
}

/// The first check of a configuration that fails. Running out of memory is not one of them. `counter` says whether
/// the adapter has its counter, so that no object can have the counter's class.
#[tactic(auto, unfolding(crate::specs::Configuration::fault_of))]
pub fn fault(counter: bool, objects: &[ObjectConfig]) -> Option<ObjectFault>
    ensures { result ≡ fault_of counter objects.now }
{
    // The first check that fails is reported, in the order of the numbers 10 to 12 (our choice).
    if objects.len() > OBJECT_LIMIT || are_invalid_objects(counter, objects) {
        return Some(ObjectFault::Object);
    }
    if any_has_invalid_attributes(objects) || is_over_capacity(objects) {
        return Some(ObjectFault::Attribute);
    }
    if any_has_invalid_services(objects) {
        return Some(ObjectFault::Service);
    }
    None
}

/// Whether the adapter has this class itself.
fn is_taken_class(counter: bool, class: u16) -> bool
    ensures { result ≡ is_taken_class counter class }
{
    match class {
        IDENTITY | ASSEMBLY | CONNECTION_MANAGER | LEDGER => true,
        COUNTER => counter,
        _ => false,
    }
}

/// Whether this is the class of the Message Router, the TCP/IP Interface or the Ethernet Link.
pub fn is_standard_class(class: u16) -> bool
    ensures { result ≡ is_standard_class class }
{
    matches!(class, MESSAGE_ROUTER | TCP_IP_INTERFACE | ETHERNET_LINK)
}

/// Whether an object of the standard has another class or instance number or the service for lists, or another object
/// one of its classes.
fn is_misplaced(object: &ObjectConfig) -> bool
    ensures { result ≡ is_misplaced object.now }
{
    if object.standard {
        return !is_standard_class(object.class) || object.instance != 1 || object.lists;
    }
    is_standard_class(object.class)
}

/// Whether an object has a class that it cannot have.
fn has_taken_class(counter: bool, object: &ObjectConfig) -> bool
    ensures { result ≡ has_taken_class counter object.now }
{
    is_taken_class(counter, object.class) || is_misplaced(object)
}

/// Whether a name is empty, too long, or has a byte that cannot be printed.
fn is_invalid_name(name: &[u8]) -> bool
    ensures { result ≡ is_invalid_name name.now }
{
    if name.is_empty() || name.len() > NAME_LIMIT {
        return true;
    }
    for byte in name {
        // Printable ASCII.
        if *byte < 0x20 || *byte > 0x7e {
            return true;
        }
    }
    false
}

/// Whether an object has a class, an instance number or a name that it cannot have.
fn is_invalid_object(counter: bool, object: &ObjectConfig) -> bool
    ensures { result ≡ is_invalid_object counter object.now }
{
    if object.class == 0 || has_taken_class(counter, object) || object.instance == 0 {
        return true;
    }
    match &object.name {
        Some(name) => is_invalid_name(name.as_bytes()),
        None => false,
    }
}

/// Whether an object is invalid, or has the class and the instance number of another.
fn are_invalid_objects(counter: bool, objects: &[ObjectConfig]) -> bool
    ensures { result ≡ are_invalid_objects counter objects.now }
{
    for (i, object) in objects.iter().enumerate() {
        if is_invalid_object(counter, object)
            || has_object(object.class, object.instance, &objects[i + 1..])
        {
            return true;
        }
    }
    false
}

/// Whether an object has this class and this instance number.
fn has_object(class: u16, instance: u16, objects: &[ObjectConfig]) -> bool
    ensures { result ≡ has_object class instance objects.now }
{
    for object in objects {
        if object.class == class && object.instance == instance {
            return true;
        }
    }
    false
}

/// Whether values of this many bytes cannot have this range.
fn is_invalid_range(size: u16, range: &Option<NumberRange>) -> bool
    ensures { result ≡ is_invalid_range size range.now }
{
    match range {
        // An array has whole numbers.
        Some(range) => !range.is_rising() || usize::from(size) % range.number.width() != 0,
        None => false,
    }
}

/// Whether no attribute can have this kind.
fn is_invalid_kind(kind: &AttributeKind) -> bool
    ensures { result ≡ is_invalid_kind kind.now }
{
    let capacity = kind.capacity();
    if capacity == 0 || capacity > VALUE_LIMIT {
        return true;
    }
    match kind {
        AttributeKind::Fixed { size, range } => is_invalid_range(*size, range),
        AttributeKind::ShortString { .. } => false,
    }
}

/// Whether an attribute has a number, a kind or an initial value that it cannot have.
fn is_invalid_attribute(attribute: &AttributeConfig) -> bool
    ensures { result ≡ is_invalid_attribute attribute.now }
{
    // Attribute 0 does not exist.
    attribute.number == 0
        || is_invalid_kind(&attribute.kind)
        || attribute.kind.check(&attribute.value).is_err()
}

/// Whether an attribute is invalid, or has the number of another.
fn are_invalid_attributes(attributes: &[AttributeConfig]) -> bool
    ensures { result ≡ are_invalid_attributes attributes.now }
{
    for (i, attribute) in attributes.iter().enumerate() {
        if is_invalid_attribute(attribute)
            || has_attribute(attribute.number, &attributes[i + 1..])
        {
            return true;
        }
    }
    false
}

/// Whether an attribute has this number.
fn has_attribute(number: u16, attributes: &[AttributeConfig]) -> bool
    ensures { result ≡ list_any (λ a. a.number == number) attributes.now }
{
    for attribute in attributes {
        if attribute.number == number {
            return true;
        }
    }
    false
}

/// Whether any object has too many attributes, or an invalid one.
fn any_has_invalid_attributes(objects: &[ObjectConfig]) -> bool
    ensures { result ≡ list_any has_invalid_attributes objects.now }
{
    for object in objects {
        if object.attributes.len() > ATTRIBUTE_LIMIT || are_invalid_attributes(&object.attributes) {
            return true;
        }
    }
    false
}

/// Whether the values of all objects can have too many bytes.
fn is_over_capacity(objects: &[ObjectConfig]) -> bool
    ensures { result ≡ nat_lt CAPACITY_LIMIT (total_capacity objects.now) }
{
    let mut room = CAPACITY_LIMIT;
    for object in objects {
        match room_after(room, &object.attributes) {
            Some(rest) => room = rest,
            None => return true,
        }
    }
    false
}

/// What these attributes leave of this many bytes, or `None` if their values can have more.
fn room_after(mut room: usize, attributes: &[AttributeConfig]) -> Option<usize>
    ensures { result
        ≡ (if nat_lt room (capacity_of attributes.now) then None else Some (room - capacity_of attributes.now)) }
{
    for attribute in attributes {
        let size = attribute.kind.capacity();
        if size > room {
            return None;
        }
        room -= size;
    }
    Some(room)
}

/// Whether a service has a number or sizes that it cannot have.
fn is_invalid_service(service: &ServiceConfig) -> bool
    ensures { result ≡ is_invalid_service service.now }
{
    // Vendor specific and class specific services. (Volume 1, service codes.)
    service.number < 0x32
        || service.number > 0x63
        || service.most < service.least
        || usize::from(service.most) > SERVICE_DATA_LIMIT
        || usize::from(service.reply) > SERVICE_DATA_LIMIT
        || is_invalid_as(service.kind, service)
}

/// Whether a service cannot be of this kind.
fn is_invalid_as(kind: ServiceKind, service: &ServiceConfig) -> bool
    ensures { result ≡ is_invalid_as kind service.now }
{
    match kind {
        ServiceKind::Asked => false,
        ServiceKind::Queued => usize::from(service.reply) > QUEUED_REPLY_LIMIT,
        ServiceKind::Result => {
            service.number != GET_RESULT
                || service.least != TICKET_SIZE
                || service.most != TICKET_SIZE
        }
    }
}

/// Whether a service is invalid, or has the number of another.
fn are_invalid_services(services: &[ServiceConfig]) -> bool
    ensures { result ≡ are_invalid_services services.now }
{
    for (i, service) in services.iter().enumerate() {
        if is_invalid_service(service) || has_service(service.number, &services[i + 1..]) {
            return true;
        }
    }
    false
}

/// Whether a service has this number.
fn has_service(number: u8, services: &[ServiceConfig]) -> bool
    ensures { result ≡ list_any (λ s. s.number == number) services.now }
{
    for service in services {
        if service.number == number {
            return true;
        }
    }
    false
}

/// Whether any object has too many services, or an invalid one.
fn any_has_invalid_services(objects: &[ObjectConfig]) -> bool
    ensures { result ≡ list_any has_invalid_services objects.now }
{
    for object in objects {
        if object.services.len() > SERVICE_LIMIT || are_invalid_services(&object.services) {
            return true;
        }
    }
    false
}
