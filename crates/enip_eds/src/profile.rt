//! What a conformance test looks for in a configuration, and what is missing.

ghost use Rattle.std.specs.Prelude.{◌≡◌, IfOk, string_bytes};
ghost use Rattle.enip_eds.specs.Profile.{has_reserved_bits, is_vendor_specific, name_line, name_note, profile};
ghost use Rattle.enip_eds.specs.Profile.{serial_line, status_line, has_class, router_line, interface_line, link_line};
ghost use Rattle.enip_eds.specs.Profile.{reset_line};

use crate::device_types::device_type_name;
use cip_application::{ETHERNET_LINK, ObjectConfig, TCP_IP_INTERFACE};
use cip_bytes::protocol::MESSAGE_ROUTER;
use cip_objects::{AssemblyConfig, Config};
use std::alloc::{AllocError, Global};
use std::fmt;

/// What a conformance test looks for in these objects, one line for each part. What the standard requires and the device
/// lacks has `: missing: ` in its line. `reset` says whether clients can reset the device.
///
/// ```
/// let text = profile_text(alloc, &configuration.objects, configuration.reset)?;
/// // Identity object, attribute 1: vendor ID 4660 (note: only ODVA assigns vendor IDs)
/// // ..
/// ```
///
/// # Errors
///
/// `AllocError` if memory is refused.
pub fn profile_text(alloc: Global, objects: &Config, reset: bool) -> Result<String, AllocError>
    ensures { IfOk result (λ text. string_bytes text ≡ profile objects.now reset) }
{
    let name = device_type_name(objects.device_type);
    let has_router = has_class(MESSAGE_ROUTER, &objects.objects);
    let network = network_of(&objects.objects);
    let mut text = String::new(alloc);
    write!(
        text,
        "{}{}{}{}{}",
        IdentityLines { objects, name },
        RouterLines { reset, has_router },
        AssemblyLines(&objects.assemblies),
        ObjectLines(&objects.objects),
        network
    )?;
    Ok(text)
}

/// The lines of the Identity object.
#[derive(Clone, Copy)]
struct IdentityLines<'a> {
    objects: &'a Config,
    /// The name of the device type.
    name: Option<&'static str>,
}

impl fmt::Display for IdentityLines<'_> {
    ghost use Rattle.std.specs.Prelude.{Some};
    ghost use Rattle.enip_eds.specs.Profile.{identity_lines};
    ghost use Rattle.enip_eds.specs.Texts.{text_in};

    ghost output = { λ i. Some (identity_lines (text_in i.name) i.objects.now) };

    fn fmt<W: fmt::Write>(&self, f: &mut fmt::Formatter<W>) -> fmt::Result {
        let objects = self.objects;
        write!(
            f,
            "{}{}{}{}{}{}{}{}",
            KindLine::Vendor(objects.vendor),
            TypeLine {
                device_type: objects.device_type,
                name: self.name,
            },
            KindLine::Product(objects.product_code),
            KindLine::Revision(objects.major, objects.minor),
            StateLine::Status(objects.status),
            StateLine::Serial(objects.serial),
            StateLine::Name(objects.name.as_bytes()),
            StateLine::State(objects.state)
        )
    }
}

/// A line about what a device is.
#[derive(Clone, Copy)]
enum KindLine {
    Vendor(u16),
    Product(u16),
    Revision(u8, u8),
}

impl fmt::Display for KindLine {
    ghost use Rattle.std.specs.Prelude.{Some};
    ghost use Rattle.enip_eds.specs.Profile.{kind_line};

    ghost output = { λ l. Some (kind_line l) };

    fn fmt<W: fmt::Write>(&self, f: &mut fmt::Formatter<W>) -> fmt::Result {
        match *self {
            KindLine::Vendor(vendor) => {
                if vendor == 0 {
                    return f.write_str(
                        "Identity object, attribute 1: missing: no vendor has the ID 0\n",
                    );
                }
                write!(
                    f,
                    "Identity object, attribute 1: vendor ID {vendor} (note: only ODVA assigns vendor IDs)\n"
                )
            }
            KindLine::Product(code) => {
                if code == 0 {
                    return f.write_str(
                        "Identity object, attribute 3: missing: no product has the code 0\n",
                    );
                }
                write!(f, "Identity object, attribute 3: product code {code}\n")
            }
            KindLine::Revision(major, minor) => {
                if major == 0 || minor == 0 {
                    return write!(
                        f,
                        "Identity object, attribute 4: missing: revision {major}.{minor} has a part that is 0\n"
                    );
                }
                write!(
                    f,
                    "Identity object, attribute 4: revision {major}.{minor}\n"
                )
            }
        }
    }
}

/// The line of a device type.
#[derive(Clone, Copy)]
struct TypeLine {
    device_type: u16,
    name: Option<&'static str>,
}

impl fmt::Display for TypeLine {
    ghost use Rattle.std.specs.Prelude.{Some};
    ghost use Rattle.enip_eds.specs.Profile.{type_line};
    ghost use Rattle.enip_eds.specs.Texts.{text_in};

    ghost output = { λ t. Some (type_line (text_in t.name) t.device_type) };

    fn fmt<W: fmt::Write>(&self, f: &mut fmt::Formatter<W>) -> fmt::Result {
        let device_type = self.device_type;
        match self.name {
            Some(name) => write!(
                f,
                "Identity object, attribute 2: device type {device_type} ({name})\n"
            ),
            None if is_vendor_specific(device_type) => write!(
                f,
                "Identity object, attribute 2: device type {device_type} (vendor specific)\n"
            ),
            None => write!(
                f,
                "Identity object, attribute 2: missing: no profile has the device type {device_type}\n"
            ),
        }
    }
}

/// Whether vendors give this device type or this class its meaning.
fn is_vendor_specific(number: u16) -> bool
    ensures { result ≡ is_vendor_specific number }
{
    (100 <= number && number <= 199) || (768 <= number && number <= 1279)
}

/// A line about how a device is, and which one.
#[derive(Clone, Copy)]
enum StateLine<'a> {
    Status(u16),
    Serial(u32),
    Name(&'a [u8]),
    State(u8),
}

impl fmt::Display for StateLine<'_> {
    ghost use Rattle.std.specs.Prelude.{Some};
    ghost use Rattle.enip_eds.specs.Profile.{state_lines};

    ghost output = { λ l. Some (state_lines l) };

    fn fmt<W: fmt::Write>(&self, f: &mut fmt::Formatter<W>) -> fmt::Result {
        match *self {
            StateLine::Status(status) => f.write_str(status_line(status)),
            StateLine::Serial(serial) => f.write_str(serial_line(serial)),
            StateLine::Name(name) => f.write_str(name_line(name)),
            StateLine::State(state) => {
                if state <= 5 || state == 255 {
                    return f.write_str("Identity object, attribute 8: state is present\n");
                }
                write!(
                    f,
                    "Identity object, attribute 8: missing: the state {state} is reserved\n"
                )
            }
        }
    }
}

/// The line of the status.
fn status_line(status: u16) -> &'static str
    ensures { result.now ≡ status_line status }
{
    if has_reserved_bits(status) {
        "Identity object, attribute 5: missing: the status has a reserved bit\n"
    } else {
        "Identity object, attribute 5: status is present\n"
    }
}

/// Whether a status has a bit that the standard reserves: 1, 3, or 12 to 15. (Volume 1, Identity.)
fn has_reserved_bits(status: u16) -> bool
    ensures { result ≡ has_reserved_bits status }
{
    status / 2 % 2 == 1 || status / 8 % 2 == 1 || status >= 0x1000
}

/// The line of the serial number.
fn serial_line(serial: u32) -> &'static str
    ensures { result.now ≡ serial_line serial }
{
    if serial == 0 {
        "Identity object, attribute 6: missing: the serial number is 0\n"
    } else {
        "Identity object, attribute 6: serial number is present\n"
    }
}

/// The line of the product name.
fn name_line(name: &[u8]) -> &'static str
    ensures { result.now ≡ name_line name.now }
{
    match name {
        [] => "Identity object, attribute 7: missing: the product name is empty\n",
        [_, ..] => "Identity object, attribute 7: product name is present\n",
    }
}

/// The lines before the assemblies.
#[derive(Clone, Copy)]
struct RouterLines {
    /// Whether clients can reset the device.
    reset: bool,
    /// Whether it has a Message Router.
    has_router: bool,
}

impl fmt::Display for RouterLines {
    ghost use Rattle.std.specs.Prelude.{Some};
    ghost use Rattle.enip_eds.specs.Profile.{before_assemblies};

    ghost output = { λ l. Some (before_assemblies l.reset l.has_router) };

    fn fmt<W: fmt::Write>(&self, f: &mut fmt::Formatter<W>) -> fmt::Result {
        f.write_str(reset_line(self.reset))?;
        f.write_str(router_line(self.has_router))
    }
}

/// The line of Reset.
fn reset_line(reset: bool) -> &'static str
    ensures { result.now ≡ reset_line reset }
{
    if reset {
        "Identity object, service 0x05: Reset of type 0 and 1\n"
    } else {
        "Identity object, service 0x05: missing: Reset is required of every device\n"
    }
}

/// The line of the Message Router.
fn router_line(present: bool) -> &'static str
    ensures { result.now ≡ router_line present }
{
    if present {
        "Message Router object (0x02): instance 1\n"
    } else {
        "Message Router object (0x02): no attributes (all are optional)\n"
    }
}

/// The lines of assemblies.
#[derive(Clone, Copy)]
struct AssemblyLines<'a>(&'a [AssemblyConfig]);

impl fmt::Display for AssemblyLines<'_> {
    ghost use Rattle.std.specs.Prelude.{Some};
    ghost use Rattle.enip_eds.specs.Profile.{assembly_lines};

    ghost output = { λ a. Some (assembly_lines a.0.now) };

    fn fmt<W: fmt::Write>(&self, f: &mut fmt::Formatter<W>) -> fmt::Result {
        match self.0 {
            [] => f.write_str("Assembly object (0x04): no instance\n"),
            [..] => write!(f, "{}", EachAssembly(self.0)),
        }
    }
}

/// A line for each assembly.
#[derive(Clone, Copy)]
struct EachAssembly<'a>(&'a [AssemblyConfig]);

impl fmt::Display for EachAssembly<'_> {
    ghost use Rattle.std.specs.Prelude.{Some};
    ghost use Rattle.std.specs.List.{flat_map};
    ghost use Rattle.enip_eds.specs.Profile.{assembly_line};

    ghost output = { λ a. Some (flat_map assembly_line a.0.now) };

    fn fmt<W: fmt::Write>(&self, f: &mut fmt::Formatter<W>) -> fmt::Result {
        for assembly in self.0 {
            write!(f, "{}", AssemblyLine(assembly))?;
        }
        Ok(())
    }
}

/// The line of an assembly.
#[derive(Clone, Copy)]
struct AssemblyLine<'a>(&'a AssemblyConfig);

impl fmt::Display for AssemblyLine<'_> {
    ghost use Rattle.std.specs.Prelude.{Some};
    ghost use Rattle.enip_eds.specs.Profile.{assembly_line};

    ghost output = { λ a. Some (assembly_line a.0.now) };

    fn fmt<W: fmt::Write>(&self, f: &mut fmt::Formatter<W>) -> fmt::Result {
        let (instance, count) = (self.0.instance, self.0.members.len());
        if instance <= 99 {
            return write!(
                f,
                "Assembly object (0x04), instance {instance}: {count} members (note: instances 1 to 99 are those \
                 of device profiles)\n"
            );
        }
        write!(
            f,
            "Assembly object (0x04), instance {instance}: {count} members\n"
        )
    }
}

/// A line for each own object.
#[derive(Clone, Copy)]
struct ObjectLines<'a>(&'a [ObjectConfig]);

impl fmt::Display for ObjectLines<'_> {
    ghost use Rattle.std.specs.Prelude.{Some};
    ghost use Rattle.std.specs.List.{flat_map};
    ghost use Rattle.enip_eds.specs.Profile.{object_line};

    ghost output = { λ o. Some (flat_map object_line o.0.now) };

    fn fmt<W: fmt::Write>(&self, f: &mut fmt::Formatter<W>) -> fmt::Result {
        for object in self.0 {
            write!(f, "{}", ObjectLine(object))?;
        }
        Ok(())
    }
}

/// The line of an own object.
#[derive(Clone, Copy)]
struct ObjectLine<'a>(&'a ObjectConfig);

impl fmt::Display for ObjectLine<'_> {
    ghost use Rattle.std.specs.Prelude.{Some};
    ghost use Rattle.enip_eds.specs.Profile.{object_line};

    ghost output = { λ o. Some (object_line o.0.now) };

    fn fmt<W: fmt::Write>(&self, f: &mut fmt::Formatter<W>) -> fmt::Result {
        let (class, instance) = (self.0.class, self.0.instance);
        if self.0.standard {
            return Ok(());
        }
        if !is_vendor_specific(class) {
            return write!(
                f,
                "object of class {class}, instance {instance}: missing: the class is not one of those that \
                 vendors may use\n"
            );
        }
        let count = self.0.attributes.len();
        write!(
            f,
            "object of class {class}, instance {instance}: {count} attributes{}",
            name_note(&self.0.name)
        )
    }
}

/// What the line of an own object says of its name.
fn name_note(name: &Option<String>) -> &'static str
    ensures { result.now ≡ name_note name.now }
{
    match name {
        Some(_) => "\n",
        None => " (note: without a name, a tool shows its numbers)\n",
    }
}

/// The lines after the own objects. The configuration may have a TCP/IP Interface and an Ethernet Link.
#[derive(Clone, Copy)]
struct NetworkLines {
    has_interface: bool,
    has_link: bool,
}

/// Which of the two objects are among these.
fn network_of(objects: &[ObjectConfig]) -> NetworkLines
    ensures interface { result.has_interface ≡ has_class 0xf5 objects.now }
    ensures link { result.has_link ≡ has_class 0xf6 objects.now }
{
    NetworkLines {
        has_interface: has_class(TCP_IP_INTERFACE, objects),
        has_link: has_class(ETHERNET_LINK, objects),
    }
}

/// Whether an object has this class.
fn has_class(class: u16, objects: &[ObjectConfig]) -> bool
    ensures { result ≡ has_class class objects.now }
{
    for object in objects {
        if object.class == class {
            return true;
        }
    }
    false
}

/// The line of the TCP/IP Interface.
fn interface_line(present: bool) -> &'static str
    ensures { result.now ≡ interface_line present }
{
    if present {
        "TCP/IP Interface object (0xF5): instance 1\n"
    } else {
        "TCP/IP Interface object (0xF5): missing: required of every EtherNet/IP device\n"
    }
}

/// The line of the Ethernet Link.
fn link_line(present: bool) -> &'static str
    ensures { result.now ≡ link_line present }
{
    if present {
        "Ethernet Link object (0xF6): instance 1\n"
    } else {
        "Ethernet Link object (0xF6): missing: required of every EtherNet/IP device\n"
    }
}

impl fmt::Display for NetworkLines {
    ghost use Rattle.std.specs.Prelude.{Some};
    ghost use Rattle.enip_eds.specs.Profile.{network_lines};

    ghost output = { λ n. Some (network_lines n.has_interface n.has_link) };

    fn fmt<W: fmt::Write>(&self, f: &mut fmt::Formatter<W>) -> fmt::Result {
        write!(
            f,
            "Connection Manager object (0x06): class 3 connections, no I/O connections\n{}{}",
            interface_line(self.has_interface),
            link_line(self.has_link)
        )
    }
}
