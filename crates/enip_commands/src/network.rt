//! What else a device says of its network, in the forms that `enip inspect` prints.
//! (Volume 2: TCP/IP Interface object, attributes 4 and 6; Ethernet Link object, attributes 2, 7 and 8.)

ghost use Rattle.std.specs.Prelude.{◌≡◌, ◌≤◌, [], ◌∷◌, IfOk, length, string_bytes};
ghost use Rattle.std.specs.Option.{option_map};
ghost use Rattle.cip_values.specs.Values.Value.{Text};
ghost use Rattle.enip_commands.specs.Json.{IsValuesLine};
ghost use Rattle.enip_commands.specs.Networks.{link_in, link_of, object_of, size_of, link_data, link_fields};
ghost use Rattle.enip_commands.specs.Networks.{padded_name, string_type, chosen, negotiation_text, type_name, state_name, text_in};
ghost use Rattle.serde_json.specs.View.{view};
ghost use Rattle.serde_json.specs.Written.{compact_text};

use crate::json_text::values_line;
use cip_message::{Path, read_path};
use cip_values::{ElementaryType, Value, ValueType};
use enip_faults::Digits;
use serde_json::{Value as Json, json};
use std::alloc::{AllocError, Global};
use std::fmt;

/// The type of a host name.
const STRING: ValueType = ValueType {
    element: ElementaryType::String,
    is_list: false,
};

/// The object that a TCP/IP Interface names as its physical link. Its text is `class 0xf6, instance 1`.
///
/// ```
/// let Some(link) = PhysicalLink::read(reply.data) else { return };
/// print!(rt; "{link}\n")?;
/// ```
#[derive(Clone, Copy, Debug, PartialEq, Eq)]
pub struct PhysicalLink {
    /// The class.
    pub class: u16,
    /// The instance.
    pub instance: u32,
}

impl PhysicalLink {
    /// Reads a link from all of these bytes: the size of a path in words, and a path of a class and an instance. `None`
    /// if the bytes are not that.
    pub fn read(bytes: &[u8]) -> Option<PhysicalLink>
        ensures { option_map link_in result ≡ link_of bytes.now }
    {
        if bytes.len() < 2 || bytes.len() != 2 + 2 * size_of(bytes) {
            return None;
        }
        object_of(&bytes[2..])
    }
}

/// The number in the first two bytes.
fn size_of(bytes: &[u8]) -> usize
    requires { 2 ≤ length bytes.now }
    ensures { result ≡ size_of bytes.now }
{
    usize::from(bytes[0]) + 256 * usize::from(bytes[1])
}

/// The object that a path names, if it names nothing else.
fn object_of(path: &[u8]) -> Option<PhysicalLink>
    ensures { option_map link_in result ≡ object_of path.now }
{
    match read_path(path) {
        Ok(
            Path {
                class,
                instance,
                attribute: None,
                member: None,
            },
        ) => Some(PhysicalLink { class, instance }),
        _ => None,
    }
}

impl fmt::Display for PhysicalLink {
    ghost use Rattle.std.specs.Prelude.{Some};
    ghost use Rattle.enip_commands.specs.Networks.{link_in, link_text};

    ghost output = { λ l. Some (link_text (link_in l)) };

    fn fmt<W: fmt::Write>(&self, f: &mut fmt::Formatter<W>) -> fmt::Result {
        write!(
            f,
            "class {}, instance {}",
            HexClass(self.class),
            self.instance
        )
    }
}

/// A class in hexadecimal: two digits, or four.
#[derive(Clone, Copy)]
struct HexClass(u16);

impl fmt::Display for HexClass {
    ghost use Rattle.std.specs.Prelude.{Some};
    ghost use Rattle.enip_commands.specs.Networks.{class_text};

    ghost output = { λ c. Some (class_text c.0) };

    fn fmt<W: fmt::Write>(&self, f: &mut fmt::Formatter<W>) -> fmt::Result {
        match u8::try_from(self.0) {
            Ok(class) => write!(f, "0x{}", Digits(&[class])),
            Err(_) => write!(f, "0x{}", Digits(&self.0.to_be_bytes())),
        }
    }
}

/// The characters of a STRING of an odd size, if it is followed by a byte of padding. `None` for other bytes: then they
/// are a STRING without padding, or not a STRING.
///
/// ```
/// padded_name(b"\x05\0mixer\0") // Some(b"mixer")
/// ```
pub fn padded_name(bytes: &[u8]) -> Option<&[u8]>
    ensures { text_in result ≡ padded_name bytes.now }
{
    if bytes.len() < 2 {
        return None;
    }
    let size = size_of(bytes);
    if size % 2 == 0 || bytes.len() != 3 + size {
        return None;
    }
    Some(&bytes[2..][..size])
}

/// The JSON object of a reply with a name: its data in hexadecimal, and the name as a STRING.
///
/// # Errors
///
/// `AllocError` if memory is refused.
pub fn name_object(alloc: Global, data: &[u8], name: &[u8]) -> Result<String, AllocError>
    ensures { IfOk result (λ line. IsValuesLine data.now string_type (Text name.now ∷ []) (string_bytes line)) }
{
    values_line(alloc, data, STRING, &[Value::Text(name)])
}

/// What the flags of an Ethernet Link mean. Its text is `link active, full duplex, negotiated`.
#[derive(Clone, Copy, Debug, PartialEq, Eq)]
pub struct InterfaceFlags(pub u32);

impl fmt::Display for InterfaceFlags {
    ghost use Rattle.std.specs.Prelude.{Some};
    ghost use Rattle.enip_commands.specs.Networks.{flags_text};

    ghost output = { λ f. Some (flags_text f.0) };

    fn fmt<W: fmt::Write>(&self, f: &mut fmt::Formatter<W>) -> fmt::Result {
        let flags = self.0;
        f.write_str(chosen(flags % 2, "link active", "link inactive"))?;
        f.write_str(chosen(flags / 2 % 2, ", full duplex, ", ", half duplex, "))?;
        f.write_str(negotiation_text(flags / 4 % 8))?;
        f.write_str(chosen(flags / 32 % 2, ", reset required", ""))?;
        f.write_str(chosen(flags / 64 % 2, ", hardware fault", ""))
    }
}

/// The first text if a bit is set, otherwise the second.
fn chosen<'a>(bit: u32, set: &'a str, clear: &'a str) -> &'a str
    ensures { result.now ≡ chosen bit set.now clear.now }
{
    if bit == 1 { set } else { clear }
}

/// How the speed and the duplex mode were chosen.
fn negotiation_text(status: u32) -> &'static str
    ensures { result.now ≡ negotiation_text status }
{
    match status {
        0 => "negotiation in progress",
        1 => "negotiation and speed detection failed",
        2 => "negotiation failed, speed detected",
        3 => "negotiated",
        4 => "not negotiated",
        _ => "reserved negotiation status",
    }
}

/// The name of the type of an interface, if it has one.
pub fn interface_type_name(interface_type: u8) -> Option<&'static str>
    ensures { text_in result ≡ type_name interface_type }
{
    match interface_type {
        0 => Some("unknown"),
        1 => Some("internal"),
        2 => Some("twisted pair"),
        3 => Some("optical fiber"),
        _ => None,
    }
}

/// The name of the state of an interface, if it has one.
pub fn interface_state_name(state: u8) -> Option<&'static str>
    ensures { text_in result ≡ state_name state }
{
    match state {
        0 => Some("unknown"),
        1 => Some("enabled"),
        2 => Some("disabled"),
        3 => Some("testing"),
        _ => None,
    }
}

/// The JSON object of a reply with a physical link: the link, and the data of the reply in hexadecimal.
///
/// # Errors
///
/// `AllocError` if memory is refused.
pub fn link_object(alloc: Global, data: &[u8], link: &PhysicalLink) -> Result<String, AllocError>
    ensures { IfOk result (λ line. string_bytes line ≡ compact_text (link_data data.now (link_in link.now))) }
{
    link_value(alloc, data, link)?.to_string(alloc)
}

fn link_value(alloc: Global, data: &[u8], link: &PhysicalLink) -> Result<Json, AllocError>
    ensures { IfOk result (λ object. view object ≡ link_data data.now (link_in link.now)) }
{
    let digits = hex::encode(alloc, data)?;
    let fields = fields_value(alloc, link)?;
    json!(in alloc; {"data": &digits, "link": fields, "status": 0u8})
}

fn fields_value(alloc: Global, link: &PhysicalLink) -> Result<Json, AllocError>
    ensures { IfOk result (λ object. view object ≡ link_fields (link_in link.now)) }
{
    json!(in alloc; {"class": link.class, "instance": link.instance})
}
