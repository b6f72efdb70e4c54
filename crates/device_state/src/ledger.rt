//! The entries of the command ledger.
ghost use Rattle.std.specs.Prelude.{◌≡◌, ◌<◌, ◌≤◌, ◌^◌, length, slice_get, Some, IfSome};
ghost use Rattle.cip_ledger.specs.Kept.{kept_in};
ghost use Rattle.cip_ledger.specs.Ledger.{is_withdrawn};
ghost use Rattle.device_state.specs.Restored.{done, slot_in, life_done, slot_done, ledger_done};
ghost use Rattle.device_state.specs.Saved.{entry_in, has_withdrawn, ledger_entries, slot_bytes};

use crate::key::key_of;
use crate::restoring::Outcome;
use byteorder::{ByteOrder, LittleEndian};
use cip_bytes::{append, append_u8, append_u32};
use cip_ledger::{KeptCommand, LEDGER, Ledger};
use cip_objects::{AttributeName, ReplyBuf};

/// The state of a command that is done.
const DONE: u8 = 0;

/// The state of a command that is pending.
const PENDING: u8 = 1;

/// The state of a command that is in doubt.
const IN_DOUBT: u8 = 2;

/// The state of a command that was withdrawn.
const WITHDRAWN: u8 = 3;

/// The bytes of a slot before the reply or the ticket: the originator, the number and the state.
const SLOT_HEAD: usize = 13;

/// The bytes of a ticket.
const TICKET_SIZE: usize = 4;

/// Writes a slot to `bytes`, in place of its old content.
fn write_slot(kept: KeptCommand<'_>, bytes: &mut ReplyBuf)
    requires { IfSome kept.reply (λ reply. length reply.now ≤ 480) }
    ensures { bytes.new.items ≡ slot_bytes (kept_in kept.entry) }
{
    bytes.clear();
    append(bytes, &kept.originator.to_le_bytes());
    append_u32(bytes, kept.number);
    match (kept.reply, kept.ticket) {
        (Some(_), Some(_)) => append_u8(bytes, WITHDRAWN),
        (Some(reply), None) => {
            append_u8(bytes, DONE);
            append(bytes, reply);
        }
        (None, Some(ticket)) => {
            append_u8(bytes, PENDING);
            append_u32(bytes, ticket);
        }
        (None, None) => append_u8(bytes, IN_DOUBT),
    }
}

/// Whether a slot has a command that was withdrawn.
pub(crate) fn has_withdrawn(ledger: &Ledger) -> bool
    ensures { result ≡ has_withdrawn (Some ledger.now) }
{
    for index in 0..ledger.slot_count() {
        let Some(kept) = ledger.slot(index) else {
            return false;
        };
        if is_withdrawn(kept) {
            return true;
        }
    }
    false
}

/// Whether the last command in a slot was withdrawn.
///
/// ```
/// let is_never_executed = ledger.slot(0).is_some_and(is_withdrawn);
/// ```
pub fn is_withdrawn(kept: KeptCommand<'_>) -> bool
    ensures { result ≡ is_withdrawn (kept_in kept.entry) }
{
    kept.reply.is_some() && kept.ticket.is_some()
}

/// The key of an entry of the ledger, by its index: the life, then the slots. Its bytes are written to `bytes`. `None`
/// past the last slot.
pub(crate) fn ledger_entry(ledger: &Ledger, index: usize, bytes: &mut ReplyBuf) -> Option<u64>
    ensures entry { entry_in result bytes.new.items ≡ slice_get (ledger_entries (Some ledger.now)) index }
    ensures small { IfSome result (λ key. key < 2 ^ 48) }
{
    if index == 0 {
        bytes.clear();
        append(bytes, &ledger.life().to_le_bytes());
        return Some(key_of(LEDGER, 0, 0));
    }
    if index > ledger.slot_count() {
        return None;
    }
    write_slot(ledger.slot(index - 1)?, bytes);
    Some(key_of(LEDGER, index as u16, 0))
}

/// Puts an entry of the ledger back.
pub(crate) fn restore_in_ledger(ledger: &mut Ledger, name: AttributeName, bytes: &[u8]) -> Outcome
    ensures { done ledger.new result ≡ ledger_done ledger.old name bytes.now }
{
    if name.attribute != 0 {
        return Outcome::Unknown;
    }
    if name.instance == 0 {
        return restore_life(ledger, bytes);
    }
    restore_slot(ledger, bytes)
}

/// Puts the number of the device's life back.
fn restore_life(ledger: &mut Ledger, bytes: &[u8]) -> Outcome
    ensures { done ledger.new result ≡ life_done ledger.old bytes.now }
{
    if bytes.len() != 8 {
        return Outcome::Unfit;
    }
    ledger.set_life(LittleEndian::read_u64(bytes));
    Outcome::Used
}

/// Puts a slot back.
fn restore_slot(ledger: &mut Ledger, bytes: &[u8]) -> Outcome
    ensures { done ledger.new result ≡ slot_done ledger.old (slot_in bytes.now) }
{
    if bytes.len() < SLOT_HEAD {
        return Outcome::Unfit;
    }
    let (reply, ticket) = match bytes[12] {
        DONE => (Some(&bytes[SLOT_HEAD..]), None),
        PENDING if bytes.len() == SLOT_HEAD + TICKET_SIZE => {
            (None, Some(LittleEndian::read_u32(&bytes[SLOT_HEAD..])))
        }
        IN_DOUBT if bytes.len() == SLOT_HEAD => (None, None),
        WITHDRAWN if bytes.len() == SLOT_HEAD => (Some(b"".as_slice()), Some(0)),
        _ => return Outcome::Unfit,
    };
    let kept = KeptCommand {
        originator: LittleEndian::read_u64(bytes),
        number: LittleEndian::read_u32(&bytes[8..]),
        reply,
        ticket,
    };
    if ledger.restore(kept) {
        Outcome::Used
    } else {
        Outcome::Unfit
    }
}
