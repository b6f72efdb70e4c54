//! The lists that a device answers without a session. (Volume 2, ListServices and ListIdentity.)

ghost use Rattle.std.specs.Prelude.{◌≡◌, ◌↔◌, List, Ok};
ghost use Rattle.std.specs.List.{list_all};
ghost use Rattle.std.specs.Option.{option_map};
ghost use Rattle.cip_bytes.specs.Reading.{map_ok};
ghost use Rattle.enip_wire.specs.Frames.{frame};
ghost use Rattle.enip_wire.specs.Items.{item_of};
ghost use Rattle.enip_wire.specs.Stream.{frame_of, parsed};
ghost use Rattle.enip_client.specs.Lists.{Entry, IsAnswer, list_command, item_kind, list_frame, entry_shown, entry_of};
ghost use Rattle.enip_client.specs.Lists.{entry_in, entries_left, is_sound, is_reply_to, answered_with, answer_in};

use crate::fault::ClientFault;
use crate::identity::IdentityView;
use crate::sending::{Sent, begin_frame};
use crate::service::ServiceView;
use byteorder::{ByteOrder, LittleEndian};
use cip_bytes::protocol::Command;
use enip_wire::{FrameView, Header, Held, ItemView, Items, cpf_items, parse_frame};

/// A list that a device answers without a session. (Volume 2, encapsulation commands.)
#[derive(Clone, Copy, Debug, PartialEq, Eq)]
pub enum ListCommand {
    /// Its services.
    Services,
    /// Its identity.
    Identity,
}

impl ListCommand {
    /// The command that requests the list.
    fn command(self) -> Command
        ensures { result ≡ list_command self }
    {
        match self {
            ListCommand::Services => Command::ListServices,
            ListCommand::Identity => Command::ListIdentity,
        }
    }

    /// The type of the list's items. (Volume 2, common packet format.)
    fn item_kind(self) -> u16
        ensures { result ≡ item_kind self }
    {
        match self {
            ListCommand::Services => 0x0100,
            ListCommand::Identity => 0x000c,
        }
    }

    /// Whether a frame with this header is the reply.
    fn is_replied(self, header: &Header) -> bool
        ensures { result ≡ is_reply_to self header.now }
    {
        // A reply repeats the command and context of its request.
        header.command == self.command().number() && LittleEndian::read_u64(&header.context) == 0
    }

    /// The entry in an item. Items of another type are ignored (ours).
    fn entry(self, item: ItemView<'_>) -> Option<ListEntry<'_>>
        ensures { option_map entry_shown result ≡ entry_in self (item_of item.entry) }
    {
        if item.kind == self.item_kind() {
            ListEntry::read(self, item.bytes)
        } else {
            None
        }
    }

    /// Whether an item has an entry, or another type.
    fn is_sound(self, item: ItemView<'_>) -> bool
        ensures { result ≡ is_sound self (item_of item.entry) }
    {
        item.kind != self.item_kind() || ListEntry::read(self, item.bytes).is_some()
    }
}

/// An entry of a list, lent.
#[derive(Clone, Copy, Debug, PartialEq, Eq)]
pub enum ListEntry<'a> {
    /// A service of the device.
    Service(ServiceView<'a>),
    /// The identity of the device.
    Identity(IdentityView<'a>),
}

impl<'a> ListEntry<'a> {
    /// Reads the entry of a list from the bytes of an item.
    fn read(command: ListCommand, bytes: &'a [u8]) -> Option<ListEntry<'a>>
        ensures { option_map entry_shown result ≡ entry_of command bytes.now }
    {
        match command {
            ListCommand::Services => Some(ListEntry::Service(ServiceView::read(bytes)?)),
            ListCommand::Identity => Some(ListEntry::Identity(IdentityView::read(bytes)?)),
        }
    }
}

/// The entries of a list, one after the other.
#[derive(Debug, Drop)]
pub struct ListEntries<'a> {
    command: ListCommand,
    items: Items<'a>,
}

impl<'a> Iterator for ListEntries<'a> {
    ghost use Rattle.std.specs.Iterator.{YieldsFirstBy, item_count};
    ghost use Rattle.enip_client.specs.Lists.{entries_left, entry_shown};

    type Item = ListEntry<'a>;

    ghost next_gives = { YieldsFirstBy entry_shown entries_left };

    ghost remaining = { item_count entries_left };

    fn next(&mut self) -> Option<ListEntry<'a>> {
        loop {
            let item = self.items.next()?;
            if let Some(entry) = self.command.entry(item) {
                return Some(entry);
            }
        }
    }
}

/// Writes the frame that requests a list, 24 bytes, in place of the content of `sent`.
///
/// ```
/// let mut sent = Sent::new();
/// write_list(ListCommand::Identity, &mut sent);
/// ```
pub fn write_list(command: ListCommand, sent: &mut Sent)
    ensures { sent.new.items ≡ frame (list_frame command) }
{
    begin_frame(command.command(), 0, 0, 0, sent);
}

/// Reads the entries that a device answers. The bytes are one whole frame, from a TCP stream or a datagram. The entries
/// are lent. Items of another type are ignored (ours).
///
/// # Errors
///
/// `TooLong` for a header with a length over 65,511, `Status` if the reply has one, otherwise `Malformed` if the bytes
/// are not such a reply.
pub fn read_list(command: ListCommand, bytes: &[u8]) -> Result<ListEntries<'_>, ClientFault>
    // Both ways: what is read has this spelling, and each spelling is read.
    ensures spelled { (entries : List Entry) →
        (map_ok entries_left result ≡ Ok entries) ↔ IsAnswer command bytes.now entries }
    ensures exact { map_ok entries_left result ≡ answer_in command (parsed bytes.now) }
{
    list_in(command, bytes)
}

/// The entries of a whole frame, as a computation.
fn list_in(command: ListCommand, bytes: &[u8]) -> Result<ListEntries<'_>, ClientFault>
    ensures { map_ok entries_left result ≡ answer_in command (parsed bytes.now) }
{
    match parse_frame(bytes) {
        Held::Frame(frame) => list_by(command, frame),
        Held::TooLong(_) => Err(ClientFault::TooLong),
        Held::More => Err(ClientFault::Malformed),
    }
}

/// The entries of a frame.
fn list_by(command: ListCommand, frame: FrameView<'_>) -> Result<ListEntries<'_>, ClientFault>
    ensures { map_ok entries_left result ≡ answered_with command (frame_of frame.entry) }
{
    if !command.is_replied(&frame.header) {
        return Err(ClientFault::Malformed);
    }
    // A status other than 0: refused.
    if frame.header.status != 0 {
        return Err(ClientFault::Status(frame.header.status));
    }
    let (Ok(items), Ok(again)) = (cpf_items(frame.body), cpf_items(frame.body)) else {
        return Err(ClientFault::Malformed);
    };
    if are_sound(command, again) {
        Ok(ListEntries { command, items })
    } else {
        Err(ClientFault::Malformed)
    }
}

/// Whether each item has an entry, or another type.
fn are_sound(command: ListCommand, items: Items<'_>) -> bool
    ensures { result ≡ list_all (is_sound command) items.entry }
{
    for item in items {
        if !command.is_sound(item) {
            return false;
        }
    }
    true
}
