//! A device as its configuration describes it: the types of its attributes, and which of them peers can set.

ghost use Rattle.std.specs.Prelude.{◌≡◌, ◌++◌, IfOk, OnOk};
ghost use Rattle.std.specs.List.{flat_map};
ghost use Rattle.owner_port.specs.Ports.{life_in};
ghost use Rattle.owner_port.specs.Sessions.{IsHelloLine};
ghost use Rattle.owner_port.specs.Tables.{HasIdentity, settable_in, settable_data, settable_attribute, settable_attributes, if_settable, named, value_type_of};
ghost use Rattle.owner_port.specs.Tables.{typed_attribute, own_types, all_own_types, standard_type, standard_types, standard_types_if, types_in};

use crate::attribute_table::TypedAttribute;
use cip_application::{AttributeConfig, AttributeKind, ObjectConfig};
use cip_bytes::protocol::ASSEMBLY;
use cip_objects::{AssemblyConfig, Config};
use cip_values::{ElementaryType, ValueType};
use enip_adapter::Adapter;
use enip_config::{AttributeType, Configuration};
use enip_owner::{
    AttributeRef, DescribedAttribute, DescribedObject, EventFault, HelloEvent, write_hello,
};
use std::alloc::{AllocError, Global};

/// A device as its configuration describes it: its identity, its objects, and the types of their attributes.
///
/// ```
/// let table = DeviceTable::new(alloc, &configuration)?;
/// let mut port = OwnerPort::new(alloc, table, None, 1_000_000, &adapter)?;
/// ```
pub struct DeviceTable {
    pub(crate) vendor: u16,
    pub(crate) product_code: u16,
    pub(crate) serial: u32,
    pub(crate) name: String,
    /// How many queued commands its owner has in hand at most.
    pub(crate) ahead: u16,
    objects: Vec<TableObject>,
    pub(crate) types: Vec<TypedAttribute>,
    pub(crate) settable: Vec<AttributeRef>,
}

// Written out, so that each exit of a function that owns one calls it, and has no drop of every part.
impl Drop for DeviceTable {
    fn drop(self) {
        let DeviceTable {
            vendor: _,
            product_code: _,
            serial: _,
            name: _,
            ahead: _,
            objects: _,
            types: _,
            settable: _,
        } = self;
    }
}

/// An object of a device.
#[derive(Drop)]
struct TableObject {
    class: u16,
    instance: u32,
    name: Option<String>,
    attributes: Vec<TableAttribute>,
}

/// An attribute of an object.
#[derive(Drop)]
struct TableAttribute {
    number: u16,
    type_name: String,
    /// The bytes of its value when the last session began.
    value: Vec<u8>,
}

impl DeviceTable {
    /// The device that a configuration describes.
    ///
    /// # Errors
    ///
    /// `AllocError` if memory is refused.
    pub fn new(alloc: Global, configuration: &Configuration) -> Result<DeviceTable, AllocError>
        ensures settable { IfOk result (λ table. table.settable.items ≡ settable_in configuration.now.objects) }
        ensures types { IfOk result (λ table. table.types.items ≡ types_in configuration.now) }
        ensures identity { IfOk result (HasIdentity configuration.now.objects) }
        ensures ahead { IfOk result (λ table. table.ahead ≡ configuration.now.ahead) }
    {
        let config = &configuration.objects;
        let settable = settable_in(alloc, config)?;
        let objects = objects_of(alloc, configuration)?;
        let types = types_of(alloc, configuration)?;
        Ok(DeviceTable {
            vendor: config.vendor,
            product_code: config.product_code,
            serial: config.serial,
            name: String::from_str(alloc, config.name.as_str())?,
            ahead: configuration.ahead,
            objects,
            types,
            settable,
        })
    }

    /// The first line of the device, with the values that its attributes have now.
    pub(crate) fn hello(&mut self, alloc: Global, adapter: &Adapter) -> Result<Vec<u8>, EventFault>
        ensures line { IsHelloLine self.old (life_in adapter.now) result }
        ensures types { self.new.types ≡ self.old.types }
        ensures settable { self.new.settable ≡ self.old.settable }
    {
        if refresh(self.objects.as_mut_slice(), adapter).is_err() {
            return Err(EventFault::Memory);
        }
        self.line(alloc, life_of(adapter))
    }

    /// The first line of the device in this life.
    fn line(&self, alloc: Global, life: Option<u64>) -> Result<Vec<u8>, EventFault>
        ensures { IsHelloLine self.now life result }
    {
        let Ok(attributes) = all_attributes(alloc, &self.objects) else {
            return Err(EventFault::Memory);
        };
        let Ok(objects) = all_objects(alloc, &self.objects, &attributes) else {
            return Err(EventFault::Memory);
        };
        write_hello(
            alloc,
            &HelloEvent {
                vendor: self.vendor,
                product_code: self.product_code,
                serial: self.serial,
                name: self.name.as_str(),
                life,
                ahead: self.ahead,
                objects: objects.as_slice(),
            },
        )
    }
}

/// The life of a device's command ledger, if it has one.
fn life_of(adapter: &Adapter) -> Option<u64>
    ensures { result ≡ life_in adapter.now }
{
    match adapter.ledger() {
        Some(ledger) => Some(ledger.life()),
        None => None,
    }
}

/// Notes the values that the attributes of these objects have now.
fn refresh(objects: &mut [TableObject], adapter: &Adapter) -> Result<(), AllocError> {
    let Some((object, others)) = objects.split_first_mut() else {
        return Ok(());
    };
    let attributes = object.attributes.as_mut_slice();
    refresh_attributes(object.class, object.instance, attributes, adapter)?;
    refresh(others, adapter)
}

/// Notes the values that the attributes of an object have now.
fn refresh_attributes(
    class: u16,
    instance: u32,
    attributes: &mut [TableAttribute],
    adapter: &Adapter,
) -> Result<(), AllocError> {
    let Some((attribute, others)) = attributes.split_first_mut() else {
        return Ok(());
    };
    attribute.value.clear();
    if let Some(value) = adapter
        .objects()
        .attribute(class, instance, attribute.number)
    {
        attribute.value.extend_from_slice(value.as_slice())?;
    }
    refresh_attributes(class, instance, others, adapter)
}

/// The attributes of each object, as the first line describes them.
fn all_attributes<'a>(
    alloc: Global,
    objects: &'a [TableObject],
) -> Result<Vec<Vec<DescribedAttribute<'a>>>, AllocError> {
    let mut attributes = Vec::new(alloc);
    for object in objects {
        attributes.push(described_attributes(alloc, object)?)?;
    }
    Ok(attributes)
}

/// The attributes of an object, as the first line describes them.
fn described_attributes<'a>(
    alloc: Global,
    object: &'a TableObject,
) -> Result<Vec<DescribedAttribute<'a>>, AllocError> {
    let mut described = Vec::new(alloc);
    for attribute in &object.attributes {
        described.push(DescribedAttribute {
            attribute: attribute.number,
            name: None,
            type_name: attribute.type_name.as_str(),
            data: attribute.value.as_slice(),
        })?;
    }
    Ok(described)
}

/// The objects with their attributes, as the first line describes them.
fn all_objects<'a, 'b>(
    alloc: Global,
    objects: &'a [TableObject],
    attributes: &'b [Vec<DescribedAttribute<'a>>],
) -> Result<Vec<DescribedObject<'a, 'b>>, AllocError> {
    let mut described = Vec::new(alloc);
    for (object, attributes) in objects.iter().zip(attributes) {
        described.push(described_object(object, attributes.as_slice()))?;
    }
    Ok(described)
}

/// An object, as the first line describes it.
fn described_object<'a, 'b>(
    object: &'a TableObject,
    attributes: &'b [DescribedAttribute<'a>],
) -> DescribedObject<'a, 'b> {
    let name = match &object.name {
        Some(name) => Some(name.as_str()),
        None => None,
    };
    DescribedObject {
        class: object.class,
        instance: object.instance,
        name,
        attributes,
    }
}

/// The assemblies and the own objects of a device, and after them the TCP/IP Interface and the Ethernet Link.
fn objects_of(
    alloc: Global,
    configuration: &Configuration,
) -> Result<Vec<TableObject>, AllocError> {
    let mut objects = Vec::new(alloc);
    for assembly in &configuration.objects.assemblies {
        objects.push(assembly_object(alloc, assembly)?)?;
    }
    let described = &configuration.objects.objects;
    for (object, types) in described.iter().zip(&configuration.attribute_types) {
        objects.push(own_object(alloc, object, types.as_slice())?)?;
    }
    for object in described {
        if object.standard {
            objects.push(standard_object(alloc, object)?)?;
        }
    }
    Ok(objects)
}

/// An assembly. Its data are bytes of any meaning.
fn assembly_object(alloc: Global, assembly: &AssemblyConfig) -> Result<TableObject, AllocError> {
    let size = assembly
        .members
        .iter()
        .fold(0u64, |sum, size| sum.saturating_add(u64::from(*size)));
    let mut attributes = Vec::new(alloc);
    attributes.push(TableAttribute {
        number: 3,
        type_name: format!(in alloc; "BYTES[{size}]")?,
        value: Vec::new(alloc),
    })?;
    Ok(TableObject {
        class: ASSEMBLY,
        instance: u32::from(assembly.instance),
        name: None,
        attributes,
    })
}

/// An own object. Its attributes have these types.
fn own_object(
    alloc: Global,
    object: &ObjectConfig,
    types: &[AttributeType],
) -> Result<TableObject, AllocError> {
    let mut attributes = Vec::new(alloc);
    for (attribute, of_type) in object.attributes.iter().zip(types) {
        attributes.push(TableAttribute {
            number: attribute.number,
            type_name: format!(in alloc; "{of_type}")?,
            value: Vec::new(alloc),
        })?;
    }
    let name = match &object.name {
        Some(name) => Some(String::from_str(alloc, name.as_str())?),
        None => None,
    };
    Ok(TableObject {
        class: object.class,
        instance: u32::from(object.instance),
        name,
        attributes,
    })
}

/// The TCP/IP Interface or the Ethernet Link.
fn standard_object(alloc: Global, object: &ObjectConfig) -> Result<TableObject, AllocError> {
    let mut attributes = Vec::new(alloc);
    for attribute in &object.attributes {
        let of_type = standard_type(object, attribute);
        attributes.push(TableAttribute {
            number: attribute.number,
            type_name: format!(in alloc; "{of_type}")?,
            value: Vec::new(alloc),
        })?;
    }
    Ok(TableObject {
        class: object.class,
        instance: u32::from(object.instance),
        name: None,
        attributes,
    })
}

/// The type of an attribute of the TCP/IP Interface or of the Ethernet Link.
fn standard_type(object: &ObjectConfig, attribute: &AttributeConfig) -> AttributeType
    ensures { result ≡ standard_type object.now attribute.now }
{
    let size = match attribute.kind {
        AttributeKind::Fixed { size, .. } => size,
        AttributeKind::ShortString { .. } => 0,
    };
    AttributeType::of_standard(object.class, attribute.number, size)
}

/// The attributes whose types are elementary ones, or lists of them.
fn types_of(alloc: Global, configuration: &Configuration) -> Result<Vec<TypedAttribute>, AllocError>
    ensures { IfOk result (λ types. types.items ≡ types_in configuration.now) }
{
    let mut typed = Vec::new(alloc);
    let described = &configuration.objects.objects;
    append_own(described, &configuration.attribute_types, &mut typed)?;
    append_standard(described, &mut typed)?;
    Ok(typed)
}

/// Appends the attributes of these own objects, each of which has the types at the same index.
fn append_own(
    objects: &[ObjectConfig],
    types: &[Vec<AttributeType>],
    typed: &mut Vec<TypedAttribute>,
) -> Result<(), AllocError>
    ensures { OnOk result (typed.new.items ≡ typed.old.items ++ all_own_types objects.now types.now) }
{
    let (Some((object, other_objects)), Some((first, other_types))) = (
        objects.split_first(),
        types.split_first(),
    ) else {
        return Ok(());
    };
    append_types(object, &object.attributes, first.as_slice(), typed)?;
    append_own(other_objects, other_types, typed)
}

/// Appends these attributes of an own object, each of which has the type at the same index.
fn append_types(
    object: &ObjectConfig,
    attributes: &[AttributeConfig],
    types: &[AttributeType],
    typed: &mut Vec<TypedAttribute>,
) -> Result<(), AllocError>
    ensures { OnOk result (typed.new.items ≡ typed.old.items ++ own_types object.now attributes.now types.now) }
{
    let (Some((attribute, other_attributes)), Some((of_type, other_types))) = (
        attributes.split_first(),
        types.split_first(),
    ) else {
        return Ok(());
    };
    append_typed(object, attribute, *of_type, typed)?;
    append_types(object, other_attributes, other_types, typed)
}

/// Appends the attributes of the TCP/IP Interface and of the Ethernet Link.
fn append_standard(
    objects: &[ObjectConfig],
    typed: &mut Vec<TypedAttribute>,
) -> Result<(), AllocError>
    ensures { OnOk result (typed.new.items ≡ typed.old.items ++ flat_map standard_types_if objects.now) }
{
    let Some((object, others)) = objects.split_first() else {
        return Ok(());
    };
    append_if_standard(object, typed)?;
    append_standard(others, typed)
}

/// Appends the attributes of an object if it is the TCP/IP Interface or the Ethernet Link.
fn append_if_standard(
    object: &ObjectConfig,
    typed: &mut Vec<TypedAttribute>,
) -> Result<(), AllocError>
    ensures { OnOk result (typed.new.items ≡ typed.old.items ++ standard_types_if object.now) }
{
    if object.standard {
        append_standard_types(object, &object.attributes, typed)?;
    }
    Ok(())
}

/// Appends these attributes of the TCP/IP Interface or of the Ethernet Link.
fn append_standard_types(
    object: &ObjectConfig,
    attributes: &[AttributeConfig],
    typed: &mut Vec<TypedAttribute>,
) -> Result<(), AllocError>
    ensures { OnOk result (typed.new.items ≡ typed.old.items ++ flat_map (standard_types object.now) attributes.now) }
{
    let Some((attribute, others)) = attributes.split_first() else {
        return Ok(());
    };
    append_typed(object, attribute, standard_type(object, attribute), typed)?;
    append_standard_types(object, others, typed)
}

/// Appends an attribute, unless it has bytes of any meaning.
fn append_typed(
    object: &ObjectConfig,
    attribute: &AttributeConfig,
    of_type: AttributeType,
    typed: &mut Vec<TypedAttribute>,
) -> Result<(), AllocError>
    ensures { OnOk result (typed.new.items ≡ typed.old.items ++ typed_attribute object.now attribute.now of_type) }
{
    if let Some(value_type) = value_type_of(of_type) {
        typed.push(TypedAttribute {
            attribute: named(object.class, object.instance, attribute.number),
            value_type,
        })?;
    }
    Ok(())
}

/// The type of what an attribute has. `None` for bytes of any meaning.
fn value_type_of(of_type: AttributeType) -> Option<ValueType>
    ensures { result ≡ value_type_of of_type }
{
    match of_type {
        AttributeType::One(element) => Some(ValueType {
            element,
            is_list: false,
        }),
        AttributeType::Array(element, _) => Some(ValueType {
            element,
            is_list: true,
        }),
        AttributeType::ShortString(_) => Some(ValueType {
            element: ElementaryType::ShortString,
            is_list: false,
        }),
        AttributeType::Bytes(_) => None,
    }
}

/// What peers can set: the data of assemblies, and attributes of own objects.
fn settable_in(alloc: Global, config: &Config) -> Result<Vec<AttributeRef>, AllocError>
    ensures { IfOk result (λ settable. settable.items ≡ settable_in config.now) }
{
    let mut settable = Vec::new(alloc);
    append_settable_data(&config.assemblies, &mut settable)?;
    append_settable_objects(&config.objects, &mut settable)?;
    Ok(settable)
}

/// Appends the data of the assemblies that peers can set.
fn append_settable_data(
    assemblies: &[AssemblyConfig],
    settable: &mut Vec<AttributeRef>,
) -> Result<(), AllocError>
    ensures { OnOk result (settable.new.items ≡ settable.old.items ++ flat_map settable_data assemblies.now) }
{
    let Some((assembly, others)) = assemblies.split_first() else {
        return Ok(());
    };
    let attribute = named(ASSEMBLY, assembly.instance, 3);
    append_if(assembly.settable, attribute, settable)?;
    append_settable_data(others, settable)
}

/// Appends the attributes of these objects that peers can set.
fn append_settable_objects(
    objects: &[ObjectConfig],
    settable: &mut Vec<AttributeRef>,
) -> Result<(), AllocError>
    ensures { OnOk result (settable.new.items ≡ settable.old.items ++ flat_map settable_attributes objects.now) }
{
    let Some((object, others)) = objects.split_first() else {
        return Ok(());
    };
    append_settable(object, &object.attributes, settable)?;
    append_settable_objects(others, settable)
}

/// Appends the attributes of an object that peers can set.
fn append_settable(
    object: &ObjectConfig,
    attributes: &[AttributeConfig],
    settable: &mut Vec<AttributeRef>,
) -> Result<(), AllocError>
    ensures { OnOk result (settable.new.items
        ≡ settable.old.items ++ flat_map (settable_attribute object.now) attributes.now) }
{
    let Some((attribute, others)) = attributes.split_first() else {
        return Ok(());
    };
    let name = named(object.class, object.instance, attribute.number);
    append_if(attribute.settable, name, settable)?;
    append_settable(object, others, settable)
}

/// Appends an attribute if peers can set it.
fn append_if(
    is_settable: bool,
    attribute: AttributeRef,
    settable: &mut Vec<AttributeRef>,
) -> Result<(), AllocError>
    ensures { OnOk result (settable.new.items ≡ settable.old.items ++ if_settable is_settable attribute) }
{
    if is_settable {
        settable.push(attribute)?;
    }
    Ok(())
}

/// An attribute by its numbers.
fn named(class: u16, instance: u16, attribute: u16) -> AttributeRef
    ensures { result ≡ named class instance attribute }
{
    AttributeRef {
        class,
        instance: u32::from(instance),
        attribute,
    }
}
