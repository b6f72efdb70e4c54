//! The lines of `enip check`: the device that a configuration describes.

use cip_application::{
    AttributeConfig, AttributeKind, NumberRange, ObjectConfig, ServiceConfig, ServiceKind,
};
use cip_bytes::protocol::MESSAGE_ROUTER;
use cip_names::{ClassText, ServiceText};
use cip_objects::{AssemblyConfig, Config};
use cip_values::{ElementaryType, ValueType, ValuesText, read_values};
use enip_access::{Access, Permission, PrefixList, address_number};
use enip_config::{AttributeType, Configuration, LedgerConfig, NamedInterfaces};
use std::alloc::Global;
use std::io::{self, BufWriter, Write};
use std::net::IpAddr;

/// Prints the device that a configuration describes: its identity, its objects, its limits, and who may do what. Then
/// what this client may do, if there is one.
pub(crate) fn print_device<W: Write + Drop>(
    alloc: Global,
    configuration: &Configuration,
    client: Option<IpAddr>,
    output: W,
) -> io::Result<()> {
    let mut output = BufWriter::new(alloc, output)?;
    print_lines(alloc, &mut output, configuration)?;
    if let Some(client) = client {
        print_permission(&mut output, configuration, client)?;
    }
    output.flush()
}

/// Prints all lines of a device.
fn print_lines<W: Write>(
    alloc: Global,
    output: &mut W,
    configuration: &Configuration,
) -> io::Result<()> {
    print_identity(output, &configuration.objects)?;
    if configuration.reset {
        writeln!(output, "clients can reset the device")?;
    }
    print_address_and_counter(output, configuration)?;
    for assembly in &configuration.objects.assemblies {
        print_assembly(output, assembly)?;
    }
    print_objects(alloc, output, configuration)?;
    print_interfaces(output, &configuration.interfaces)?;
    if let Some(ledger) = configuration.ledger {
        print_ledger(output, ledger)?;
    }
    if let Some(limit) = configuration.queue_limit() {
        writeln!(output, "queue for {limit} commands")?;
        let ahead = configuration.ahead;
        writeln!(output, "up to {ahead} commands handed over at once")?;
    }
    print_limits(output, configuration)?;
    match &configuration.access {
        Some(access) => print_access(output, access),
        None => Ok(()),
    }
}

/// Prints the own objects, and after them those of the standard: the TCP/IP Interface, the Ethernet Link and the Message
/// Router.
fn print_objects<W: Write>(
    alloc: Global,
    output: &mut W,
    configuration: &Configuration,
) -> io::Result<()> {
    let objects = &configuration.objects.objects;
    let types = &configuration.attribute_types;
    for (object, types) in objects.iter().zip(types) {
        print_object(alloc, output, object, types.as_slice())?;
    }
    for object in objects.iter().skip(types.len()) {
        print_standard_object(alloc, output, object)?;
    }
    Ok(())
}

/// Prints which values are read from interfaces of the computer.
fn print_interfaces<W: Write>(output: &mut W, interfaces: &NamedInterfaces) -> io::Result<()> {
    if let Some(name) = &interfaces.tcp_ip {
        writeln!(
            output,
            "TCP/IP Interface: the address of {name} when the device starts"
        )?;
    }
    if let Some(name) = &interfaces.ethernet_link {
        writeln!(
            output,
            "Ethernet Link: the state of {name} when the device starts"
        )?;
    }
    Ok(())
}

/// Prints the Identity object. (Volume 1, Identity.)
fn print_identity<W: Write>(output: &mut W, objects: &Config) -> io::Result<()> {
    let (vendor, device_type) = (objects.vendor, objects.device_type);
    let (product_code, major, minor) = (objects.product_code, objects.major, objects.minor);
    writeln!(
        output,
        "vendor {vendor}\ndevice type {device_type}\nproduct code {product_code}\nrevision {major}.{minor}"
    )?;
    let (status, serial) = (objects.status, objects.serial);
    let (name, state) = (objects.name.as_str(), objects.state);
    writeln!(
        output,
        "status {status:#06x}\nserial {serial:#010x}\nname {name}\nstate {state}"
    )
}

/// Prints the address that ListIdentity shows, and the counter object.
fn print_address_and_counter<W: Write>(
    output: &mut W,
    configuration: &Configuration,
) -> io::Result<()> {
    let [first, second, third, last] = configuration.address;
    let port = configuration.port;
    writeln!(output, "address {first}.{second}.{third}.{last}:{port}")?;
    let counter = configuration.objects.counter;
    if !counter.enabled {
        return writeln!(output, "no counter");
    }
    let (value, limit) = (counter.value, counter.limit);
    writeln!(output, "counter {value}, limit {limit}")
}

/// Prints how many originators the command ledger has slots for, and the number of its life.
fn print_ledger<W: Write>(output: &mut W, ledger: LedgerConfig) -> io::Result<()> {
    let (originators, life) = (ledger.originators, ledger.life);
    writeln!(
        output,
        "command ledger for {originators} originators, life {life}"
    )
}

/// Prints how many peers and connections there may be, and the first numbers that they get.
fn print_limits<W: Write>(output: &mut W, configuration: &Configuration) -> io::Result<()> {
    let peers = configuration.peers;
    let connections = configuration.connections;
    writeln!(output, "up to {peers} peers and {connections} connections")?;
    let (handle, id) = (configuration.first_handle, configuration.first_id);
    writeln!(
        output,
        "first session handle {handle}, first connection ID {id}"
    )
}

/// Prints who may connect, who may write, and how much one address may take.
fn print_access<W: Write>(output: &mut W, access: &Access) -> io::Result<()> {
    print_list(output, "may connect", "everybody", &access.read)?;
    print_list(output, "may write", "whoever may connect", &access.write)?;
    if let Some(share) = access.per_address {
        writeln!(output, "up to {share} peers of one address")?;
    }
    if let Some(share) = access.connections_per_address {
        writeln!(output, "up to {share} connections of one address")?;
    }
    Ok(())
}

/// Prints the rules of a list, or who has this permission if the list is left out.
fn print_list<W: Write>(
    output: &mut W,
    permission: &str,
    left_out: &str,
    list: &Option<PrefixList>,
) -> io::Result<()> {
    write!(output, "{permission}:")?;
    match list {
        None => write!(output, " {left_out}")?,
        Some(rules) if rules.is_empty() => write!(output, " nobody")?,
        Some(rules) => {
            for rule in rules.as_slice() {
                write!(output, " {rule}")?;
            }
        }
    }
    writeln!(output)
}

/// Prints what a client of this address may do.
fn print_permission<W: Write>(
    output: &mut W,
    configuration: &Configuration,
    client: IpAddr,
) -> io::Result<()> {
    let permission = match &configuration.access {
        Some(access) => access.permission_of(address_number(client)),
        None => Some(Permission::Write),
    };
    let text = match permission {
        Some(Permission::Write) => "may read and write",
        Some(Permission::Read) => "may read",
        None => "may not connect",
    };
    writeln!(output, "{client} {text}")
}

/// Prints an assembly: its instance, whether it can be set, whether it has the services for lists, its size, and the
/// sizes of its members. (Volume 1, Assembly.)
fn print_assembly<W: Write>(output: &mut W, assembly: &AssemblyConfig) -> io::Result<()> {
    let instance = assembly.instance;
    let access = access_of(assembly.settable);
    let lists = lists_of(assembly.lists);
    let bytes = assembly
        .members
        .iter()
        .fold(0u64, |sum, size| sum.saturating_add(u64::from(*size)));
    write!(
        output,
        "assembly {instance}, {access}{lists}, {bytes} bytes, member sizes"
    )?;
    for size in &assembly.members {
        write!(output, " {size}")?;
    }
    writeln!(output)
}

/// What clients can do with data: set them too, or only read them.
fn access_of(settable: bool) -> &'static str {
    if settable { "settable" } else { "read-only" }
}

/// Whether clients can read or set several attributes at once.
fn lists_of(lists: bool) -> &'static str {
    if lists { ", lists" } else { "" }
}

/// Prints an own object: its class, its instance and its name, then a line for each attribute and each service.
fn print_object<W: Write>(
    alloc: Global,
    output: &mut W,
    object: &ObjectConfig,
    types: &[AttributeType],
) -> io::Result<()> {
    print_head(output, object)?;
    for (attribute, of_type) in object.attributes.iter().zip(types) {
        print_attribute(alloc, output, attribute, *of_type)?;
    }
    for service in &object.services {
        print_service(output, object.class, *service)?;
    }
    Ok(())
}

/// Prints the class and the instance of an object, whether it has the service for lists, and its name.
fn print_head<W: Write>(output: &mut W, object: &ObjectConfig) -> io::Result<()> {
    let (class, instance) = (ClassText(object.class), object.instance);
    let lists = lists_of(object.lists);
    write!(output, "object of {class}, instance {instance}{lists}")?;
    if let Some(name) = &object.name {
        write!(output, ", {}", name.as_str())?;
    }
    writeln!(output)
}

/// Prints an object of the standard: its class and its instance, then a line for each attribute.
fn print_standard_object<W: Write>(
    alloc: Global,
    output: &mut W,
    object: &ObjectConfig,
) -> io::Result<()> {
    print_head(output, object)?;
    for attribute in &object.attributes {
        let size = u16::try_from(attribute.value.len()).unwrap_or(u16::MAX);
        let of_type = AttributeType::of_standard(object.class, attribute.number, size);
        print_attribute(alloc, output, attribute, of_type)?;
    }
    Ok(())
}

/// Prints an attribute of an object: its number, its type and its value, whether it can be set and whether a set is
/// checked, and its range if it has one.
fn print_attribute<W: Write>(
    alloc: Global,
    output: &mut W,
    attribute: &AttributeConfig,
    of_type: AttributeType,
) -> io::Result<()> {
    let number = attribute.number;
    write!(output, "  attribute {number}, {of_type}, value ")?;
    print_value(alloc, output, value_type_of(of_type), &attribute.value)?;
    write!(output, ", {}", access_of(attribute.settable))?;
    if attribute.checked {
        write!(output, ", checked")?;
    }
    if let AttributeKind::Fixed {
        range: Some(range),
        ..
    } = attribute.kind
    {
        print_range(alloc, output, of_type, range)?;
    }
    writeln!(output)
}

/// Prints the range of an attribute's numbers.
fn print_range<W: Write>(
    alloc: Global,
    output: &mut W,
    of_type: AttributeType,
    range: NumberRange,
) -> io::Result<()> {
    let one = value_type_of(of_type).map(|list| ValueType {
        element: list.element,
        is_list: false,
    });
    let width = range.number.width();
    write!(output, ", from ")?;
    print_value(alloc, output, one, &range.least.to_le_bytes()[..width])?;
    write!(output, " to ")?;
    print_value(alloc, output, one, &range.greatest.to_le_bytes()[..width])
}

/// The type of an attribute's value as `--as` knows it. Bytes of any meaning have none.
fn value_type_of(of_type: AttributeType) -> Option<ValueType> {
    let (element, is_list) = match of_type {
        AttributeType::One(element) => (element, false),
        AttributeType::Array(element, _) => (element, true),
        AttributeType::ShortString(_) => (ElementaryType::ShortString, false),
        AttributeType::Bytes(_) => return None,
    };
    Some(ValueType { element, is_list })
}

/// Prints bytes as values of a type, or as hexadecimal digits if there is no type.
fn print_value<W: Write>(
    alloc: Global,
    output: &mut W,
    value_type: Option<ValueType>,
    bytes: &[u8],
) -> io::Result<()> {
    let Some(value_type) = value_type else {
        return print_digits(output, bytes);
    };
    match read_values(alloc, value_type, bytes) {
        Ok(values) => {
            let values = values.as_slice();
            write!(output, "{}", ValuesText { value_type, values })
        }
        Err(_) => print_digits(output, bytes),
    }
}

/// Prints two hexadecimal digits for each byte.
fn print_digits<W: Write>(output: &mut W, bytes: &[u8]) -> io::Result<()> {
    for byte in bytes {
        write!(output, "{byte:02x}")?;
    }
    Ok(())
}

/// Prints an own service of a class: its number, the size of its data, the size of its reply's data, and whether it is
/// queued or gives the results of queued commands.
fn print_service<W: Write>(output: &mut W, class: u16, service: ServiceConfig) -> io::Result<()> {
    let (least, most) = (service.least, service.most);
    let text = ServiceText {
        class: Some(class),
        service: service.number,
    };
    write!(output, "  {text}, data of ")?;
    if least == most {
        write!(output, "{most} bytes")?;
    } else {
        write!(output, "{least} to {most} bytes")?;
    }
    let reply = service.reply;
    let kind = match service.kind {
        ServiceKind::Asked => "",
        ServiceKind::Queued => ", queued",
        ServiceKind::Result => ", results of queued commands",
    };
    writeln!(output, ", reply of up to {reply} bytes{kind}")
}
