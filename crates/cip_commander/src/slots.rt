//! The slots of a ledger: requests that read and free them, and the replies.
//! Text: docs/PROTOCOL.md, "The command ledger".
ghost use Rattle.std.specs.Prelude.{◌≡◌, []};
ghost use Rattle.cip_bytes.specs.Reading.{map_ok};
ghost use Rattle.cip_message.specs.Reply.{reply_of};
ghost use Rattle.cip_commander.specs.Slots.{request_to, forget_request, last_request, slots_request, parts_of};
ghost use Rattle.cip_commander.specs.Slots.{content_of, state_of, last_of, counts_of, list_of, slot_count, slot_at};

use arrayvec::ArrayVec;
use byteorder::{ByteOrder, LittleEndian};
use cip_bytes::{append, append_u16, append_u32};
use cip_message::{FORGET, GET_LAST, GET_SLOTS, ReplyView, reply_service};
use thiserror::Error;

/// Get_Attribute_List. (Volume 1, common services.)
const GET_ATTRIBUTE_LIST: u8 = 0x03;

/// Get_Attribute_List of a ledger: attribute 1, the number of slots, and attribute 2, the number of taken slots.
pub const COUNTS_REQUEST: [u8; 12] = [GET_ATTRIBUTE_LIST, 2, 0x20, 0x65, 0x24, 1, 2, 0, 1, 0, 2, 0];

/// The most bytes of a request that reads or frees a slot.
pub const SLOT_REQUEST_SIZE: usize = 18;

/// A request that reads or frees a slot.
pub type SlotRequest = ArrayVec<u8, SLOT_REQUEST_SIZE>;

/// The path size and the path of such a request: two words, class 0x65, instance 1.
const PATH: [u8; 5] = [2, 0x20, 0x65, 0x24, 1];

/// The bytes of a slot in a list.
const ENTRY_SIZE: usize = 13;

/// The bytes of the count before the slots.
const COUNT_SIZE: usize = 2;

/// The state of the last command of a slot.
#[derive(Clone, Copy, Debug, PartialEq, Eq)]
pub enum CommandState {
    /// The ledger keeps the reply.
    Done,
    /// It is in the queue of the device.
    Pending,
    /// The device does not know whether it was executed.
    InDoubt,
    /// It was withdrawn, and is never executed.
    Withdrawn,
}

/// A slot of a ledger: whose it is, and the number and the state of the last command.
#[derive(Clone, Copy, Debug, PartialEq, Eq)]
pub struct LedgerSlot {
    pub originator: u64,
    pub number: u32,
    pub state: CommandState,
}

/// Why a reply does not have what was asked for.
#[derive(Clone, Copy, Debug, PartialEq, Eq, Error)]
pub enum SlotsFault {
    /// The device refused with this general status, and this first additional word or 0.
    #[error("the device refused with general status {0:#04x}")]
    Refused(u8, u16),
    /// Not a reply to the request, or data of another form.
    #[error("not a reply of a command ledger")]
    Malformed,
}

/// Get_Slots, from this index on.
pub fn slots_request(first: u16) -> SlotRequest
    ensures { result.items ≡ slots_request first }
{
    let mut request = request_to(GET_SLOTS);
    append_u16(&mut request, first);
    request
}

/// Get_Last of an originator.
pub fn last_request(originator: u64) -> SlotRequest
    ensures { result.items ≡ last_request originator }
{
    let mut request = request_to(GET_LAST);
    append(&mut request, &originator.to_le_bytes());
    request
}

/// Forget of an originator's slot, if its last command has this number.
pub fn forget_request(originator: u64, number: u32) -> SlotRequest
    ensures { result.items ≡ forget_request originator number }
{
    let mut request = request_to(FORGET);
    append(&mut request, &originator.to_le_bytes());
    append_u32(&mut request, number);
    request
}

/// A request for this service of the ledger, without data.
fn request_to(service: u8) -> SlotRequest
    ensures { result.items ≡ request_to service [] }
{
    let mut request = ArrayVec::new();
    request.push(service);
    append(&mut request, &PATH);
    request
}

/// The data of a successful reply to a request for this service.
///
/// # Errors
///
/// `Refused` if the device refused the request, `Malformed` if it replied something else.
fn content_of(service: u8, reply: &[u8]) -> Result<&[u8], SlotsFault>
    ensures { map_ok (λ content. content.now) result ≡ content_of service (reply_of reply.now) }
{
    let Ok(reply) = ReplyView::read(reply) else {
        return Err(SlotsFault::Malformed);
    };
    if reply.service != reply_service(service) {
        return Err(SlotsFault::Malformed);
    }
    if reply.status != 0 {
        let extended = reply.additional_word(0).unwrap_or(0);
        return Err(SlotsFault::Refused(reply.status, extended));
    }
    Ok(reply.data)
}

/// The state that a byte stands for.
fn state_of(state: u8) -> Option<CommandState>
    ensures { result ≡ state_of state }
{
    match state {
        0 => Some(CommandState::Done),
        1 => Some(CommandState::Pending),
        2 => Some(CommandState::InDoubt),
        3 => Some(CommandState::Withdrawn),
        _ => None,
    }
}

/// The number and the state of an originator's last command, by the reply to Get_Last.
///
/// # Errors
///
/// `Refused` if the device refused the request: by 0x16 if the originator has no slot. `Malformed` if it replied
/// something else.
pub fn read_last(reply: &[u8]) -> Result<(u32, CommandState), SlotsFault>
    ensures { result ≡ last_of (content_of GET_LAST (reply_of reply.now)) }
{
    let content = content_of(GET_LAST, reply)?;
    if content.len() < 5 {
        return Err(SlotsFault::Malformed);
    }
    match state_of(content[4]) {
        Some(state) => Ok((LittleEndian::read_u32(content), state)),
        None => Err(SlotsFault::Malformed),
    }
}

/// How many slots there are and how many of them are taken, by the reply to `COUNTS_REQUEST`.
///
/// # Errors
///
/// `Refused` if the device refused the request, `Malformed` if it replied something else.
pub fn read_counts(reply: &[u8]) -> Result<(u16, u16), SlotsFault>
    ensures { result ≡ counts_of (content_of GET_ATTRIBUTE_LIST (reply_of reply.now)) }
{
    let content = content_of(GET_ATTRIBUTE_LIST, reply)?;
    // a count, and for each attribute its number, its status and its value
    if content.len() != 14 {
        return Err(SlotsFault::Malformed);
    }
    let slots = LittleEndian::read_u16(&content[6..]);
    let taken = LittleEndian::read_u16(&content[12..]);
    Ok((slots, taken))
}

/// Whether the slot is free, by the reply to Forget.
///
/// # Errors
///
/// `Refused` if the device refused the request: by 0x0c if the last command of the slot has another number. `Malformed`
/// if it replied something else.
pub fn read_forgotten(reply: &[u8]) -> Result<(), SlotsFault>
    ensures { result ≡ map_ok (λ _. tt) (content_of FORGET (reply_of reply.now)) }
{
    match content_of(FORGET, reply) {
        Ok(_) => Ok(()),
        Err(fault) => Err(fault),
    }
}

/// Some of the taken slots of a ledger, lent from the reply to Get_Slots.
#[derive(Clone, Copy, Debug)]
pub struct SlotList<'a> {
    taken: u16,
    entries: &'a [u8],
}

impl<'a> SlotList<'a> {
    /// Reads the reply to Get_Slots.
    ///
    /// # Errors
    ///
    /// `Refused` if the device refused the request, `Malformed` if it replied something else.
    pub fn read(reply: &'a [u8]) -> Result<SlotList<'a>, SlotsFault>
        ensures { map_ok parts_of result ≡ list_of (content_of GET_SLOTS (reply_of reply.now)) }
    {
        let content = content_of(GET_SLOTS, reply)?;
        if content.len() < COUNT_SIZE {
            return Err(SlotsFault::Malformed);
        }
        // a slot is listed whole or not at all (ledger, ours)
        if (content.len() - COUNT_SIZE) % ENTRY_SIZE != 0 {
            return Err(SlotsFault::Malformed);
        }
        Ok(SlotList {
            taken: LittleEndian::read_u16(content),
            entries: &content[COUNT_SIZE..],
        })
    }

    /// How many slots of the ledger are taken, with those that are not in the list.
    pub fn taken(self) -> u16
        ensures { result ≡ self.entry.taken }
    {
        self.taken
    }

    /// How many slots are in the list.
    pub fn count(self) -> usize
        ensures { result ≡ slot_count self.entry.entries.now }
    {
        self.entries.len() / ENTRY_SIZE
    }

    /// A slot of the list, by its index there. `None` past the last one, and for a state that no ledger has.
    pub fn slot(self, index: usize) -> Option<LedgerSlot>
        ensures { result ≡ slot_at self.entry.entries.now index }
    {
        if self.count() <= index {
            return None;
        }
        let entry = &self.entries[ENTRY_SIZE * index..];
        match state_of(entry[12]) {
            Some(state) => Some(LedgerSlot {
                originator: LittleEndian::read_u64(entry),
                number: LittleEndian::read_u32(&entry[8..]),
                state,
            }),
            None => None,
        }
    }
}
