//! ListServices, ListIdentity and ListInterfaces: answered with or without a session, and whatever their data.
//! Text: docs/PROTOCOL.md, "A peer".

ghost use Rattle.std.specs.Prelude.{◌≡◌, ◌≤◌, ◌+◌, ◌++◌, length};
ghost use Rattle.arrayvec.specs.ArrayVec.{array_vec_len};
ghost use Rattle.cip_bytes.specs.Numbers.{le};
ghost use Rattle.cip_bytes.specs.declared.protocol.EncapsulationStatus.TheVariants.{Success};
ghost use Rattle.cip_objects.specs.Contents.{bytes_at};
ghost use Rattle.enip_adapter.specs.ListIdentity.{identity_text, text_of_item, identity_bytes, socket_address};
ghost use Rattle.enip_adapter.specs.ListInterfaces.{interfaces_text};
ghost use Rattle.enip_adapter.specs.ListServices.{services_text};
ghost use Rattle.enip_adapter.specs.Replies.{reply};

use crate::reply::{AnswerFrame, write_reply};
use crate::shared::{Listen, Shared};
use arrayvec::ArrayVec;
use byteorder::{BigEndian, ByteOrder, LittleEndian};
use cip_bytes::protocol::{EncapsulationStatus, IDENTITY};
use cip_objects::{Objects, ReplyBuf};
use enip_wire::Header;

/// The attributes in a ListIdentity reply: vendor, device type, product code, revision, status, serial number, product
/// name, state.
static ATTRIBUTES: [u16; 8] = [1, 2, 3, 4, 5, 6, 7, 8];

/// The number of bytes before an identity item: item count 2, type 2, length 2.
const IDENTITY_HEAD: usize = 6;

/// The number of bytes of the protocol version, 2, and of a socket address, 16.
const SOCKET_SIZE: usize = 18;

/// The address family AF_INET.
const INTERNET_FAMILY: u16 = 2;

/// The type code of an identity item.
const IDENTITY_ITEM: u16 = 0x000c;

/// The greatest size of an attribute of the Identity object, in bytes: a name of 32 bytes and its length.
const LONGEST_ATTRIBUTE: usize = 33;

/// The greatest size of an identity item, in bytes: version, socket address and eight attributes.
const ITEM_SIZE: usize = SOCKET_SIZE + 8 * LONGEST_ATTRIBUTE;

/// An identity item, without its type and length.
type Item = ArrayVec<u8, ITEM_SIZE>;

/// The data of a ListServices reply: one item of type 0x0100 and 20 bytes, with version 1, capability flags 0x0020 and
/// a name.
const SERVICES: [u8; 26] = *b"\x01\x00\x00\x01\x14\x00\x01\x00\x20\x00Communications\x00\x00";

/// The data of a ListInterfaces reply: no items.
const INTERFACES: [u8; 2] = [0, 0];

/// Answers a ListServices.
#[inline(always)]
pub(super) fn list_services(asked: Header, answer: &mut AnswerFrame)
    ensures { answer.new.items ≡ reply asked asked.session Success services_text }
{
    write_reply(
        &asked,
        asked.session,
        EncapsulationStatus::Success,
        &[],
        &SERVICES,
        answer,
    );
}

/// Answers a ListInterfaces.
#[inline(always)]
pub(super) fn list_interfaces(asked: Header, answer: &mut AnswerFrame)
    ensures { answer.new.items ≡ reply asked asked.session Success interfaces_text }
{
    write_reply(
        &asked,
        asked.session,
        EncapsulationStatus::Success,
        &[],
        &INTERFACES,
        answer,
    );
}

/// Answers a ListIdentity: protocol version 1, the socket address, and the attributes of the Identity object.
///
/// `value` is scratch space for one attribute at a time; its old content is dropped.
#[inline(always)]
pub(super) fn list_identity(
    shared: &Shared,
    asked: Header,
    value: &mut ReplyBuf,
    answer: &mut AnswerFrame,
)
    ensures { answer.new.items
        ≡ reply asked asked.session Success (identity_text shared.now.listen shared.now.objects.router.objects) }
{
    let mut item = Item::new();
    append_socket(shared.listen, &mut item);
    append_identity(&shared.objects.router.objects, value, &mut item);
    write_identity(asked, item.as_slice(), answer);
}

/// Writes a whole reply to a ListIdentity, with one item.
#[inline(always)]
fn write_identity(asked: Header, item: &[u8], answer: &mut AnswerFrame)
    requires { length item.now ≤ ITEM_SIZE }
    ensures { answer.new.items ≡ reply asked asked.session Success (text_of_item item.now) }
{
    let front = item_head(item.len() as u16);
    write_reply(
        &asked,
        asked.session,
        EncapsulationStatus::Success,
        &front,
        item,
        answer,
    );
}

/// The item count, 1, and the type and length of an identity item.
fn item_head(size: u16) -> [u8; IDENTITY_HEAD]
    ensures { result ≡ le 2 1 ++ (le 2 0x000c ++ le 2 size) }
{
    let mut head = [0; IDENTITY_HEAD];
    LittleEndian::write_u16(&mut head[0..2], 1);
    LittleEndian::write_u16(&mut head[2..4], IDENTITY_ITEM);
    LittleEndian::write_u16(&mut head[4..6], size);
    head
}

/// Appends the protocol version and the socket address, which is big-endian.
fn append_socket(listen: Listen, item: &mut Item)
    requires { array_vec_len item.old ≡ 0 }
    ensures text { item.new.items ≡ le 2 1 ++ socket_address listen }
    ensures size { array_vec_len item.new ≡ 18 }
{
    let mut text = [0; SOCKET_SIZE];
    LittleEndian::write_u16(&mut text[0..2], 1);
    BigEndian::write_u16(&mut text[2..4], INTERNET_FAMILY);
    BigEndian::write_u16(&mut text[4..6], listen.port);
    text[6..10].copy_from_slice(&listen.address);
    let _ = item.try_extend_from_slice(&text);
}

/// Appends the attributes of the Identity object.
#[inline(never)]
fn append_identity(objects: &Objects, value: &mut ReplyBuf, item: &mut Item)
    requires { array_vec_len item.old ≡ SOCKET_SIZE }
    ensures text { item.new.items ≡ item.old.items ++ identity_bytes objects.now }
    ensures size { array_vec_len item.new ≤ ITEM_SIZE }
{
    for attribute in &ATTRIBUTES {
        append_attribute(objects, *attribute, value, item);
    }
}

/// Appends one attribute of the Identity object, if it exists.
fn append_attribute(objects: &Objects, attribute: u16, value: &mut ReplyBuf, item: &mut Item)
    requires { array_vec_len item.old + LONGEST_ATTRIBUTE ≤ ITEM_SIZE }
    ensures text { item.new.items ≡ item.old.items ++ bytes_at objects.now IDENTITY 1 attribute }
    ensures size { array_vec_len item.new ≤ array_vec_len item.old + LONGEST_ATTRIBUTE }
{
    objects.read_attribute(IDENTITY, 1, attribute, value);
    let _ = item.try_extend_from_slice(value.as_slice());
}
