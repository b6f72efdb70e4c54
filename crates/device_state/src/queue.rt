//! The entries of the queue of commands.
ghost use Rattle.std.specs.Prelude.{◌≡◌, ◌≤◌, length, is_some, unwrap_or};
ghost use Rattle.cip_owner.specs.QueueViews.{waiting_in, result_in};
ghost use Rattle.device_state.specs.QueueEntries.{command_bytes, result_bytes, place_bytes, next_bytes, queue_bytes, has_handed_all};
ghost use Rattle.device_state.specs.QueueEntries.{spelled_command, spelled_result};
ghost use Rattle.device_state.specs.QueueEntries.{command_put, next_put, queue_put, result_put};

use byteorder::{ByteOrder, LittleEndian};
use cip_bytes::{append, append_u8, append_u16, append_u32};
use cip_objects::ReplyBuf;
use cip_owner::{CommandResult, Queue, WaitingCommand};

/// How many entries a queue has, whatever its capacity: one for the next ticket, 256 for waiting commands, and 256 for
/// results.
pub const QUEUE_ENTRIES: u16 = 513;

/// The places for waiting commands.
const PLACES: usize = 256;

/// The bytes of the next ticket, and with the greatest one that was handed over.
const NEXT_SIZE: usize = 8;

const BOTH_SIZE: usize = 12;

/// The bytes of a waiting command before its data.
const COMMAND_HEAD: usize = 13;

/// The bytes of a result before its data.
const RESULT_HEAD: usize = 11;

/// Writes the content of an entry of a queue to `bytes`, in place of its old content, by the entry's number. Number 0 is
/// the next ticket, 1 to 256 are the waiting commands in their order, and 257 to 512 are the results, the oldest first.
/// A place that is free has no bytes.
///
/// ```
/// let mut bytes = ReplyBuf::new();
/// write_queue_entry(queue, 0, &mut bytes); // the 8 bytes of the next ticket, and 4 more if commands wait unseen
/// ```
pub fn write_queue_entry(queue: &Queue, number: u16, bytes: &mut ReplyBuf)
    ensures { bytes.new.items ≡ queue_bytes queue.now number }
{
    if number == 0 {
        write_next(queue, bytes);
        return;
    }
    write_place(queue, usize::from(number - 1), bytes);
}

/// Writes the next ticket to `bytes`, in place of their old content, and behind it the mark, the greatest ticket that was
/// handed over, unless that is the last one that was given.
fn write_next(queue: &Queue, bytes: &mut ReplyBuf)
    ensures { bytes.new.items ≡ next_bytes queue.now }
{
    let next = queue.next();
    bytes.clear();
    append(bytes, &next.to_le_bytes());
    if !has_handed_all(queue) {
        append_u32(bytes, queue.handed());
    }
}

/// Whether the greatest ticket that was handed over is the last one that was given.
pub(crate) fn has_handed_all(queue: &Queue) -> bool
    ensures { result ≡ has_handed_all queue.now }
{
    u64::from(queue.handed()) == queue.next().saturating_sub(1)
}

/// Writes the content of a place to `bytes`, in place of their old content.
fn write_place(queue: &Queue, index: usize, bytes: &mut ReplyBuf)
    ensures { bytes.new.items ≡ place_bytes queue.now index }
{
    bytes.clear();
    if index < PLACES {
        if let Some(command) = queue.waiting(index) {
            write_command(command, bytes);
        }
        return;
    }
    if let Some(kept) = queue.kept_result(index - PLACES) {
        write_result(kept, bytes);
    }
}

/// Writes a waiting command to `bytes`, in place of its old content.
fn write_command(command: WaitingCommand<'_>, bytes: &mut ReplyBuf)
    requires { length command.data.now ≤ 500 }
    ensures { bytes.new.items ≡ command_bytes (waiting_in command.entry) }
{
    bytes.clear();
    append_u32(bytes, command.ticket);
    append_u16(bytes, command.class);
    append_u32(bytes, command.instance);
    append_u8(bytes, command.service);
    append_u16(bytes, command.reply_limit);
    append(bytes, command.data);
}

/// Writes a result to `bytes`, in place of its old content.
fn write_result(kept: CommandResult<'_>, bytes: &mut ReplyBuf)
    requires { length kept.data.now ≤ 476 }
    ensures { bytes.new.items ≡ result_bytes (result_in kept.entry) }
{
    bytes.clear();
    append_u32(bytes, kept.ticket);
    append_u16(bytes, kept.class);
    append_u32(bytes, kept.instance);
    append_u8(bytes, kept.status);
    append(bytes, kept.data);
}

/// Puts an entry of a queue back, by its number, and returns whether it did. If the bytes are not those of such an entry,
/// or if no place is free for them, nothing changes.
///
/// With these calls, in the order of the numbers, an empty queue starts from what was kept of a queue.
///
/// ```
/// let is_whole = restore_queue_entry(&mut queue, number, bytes);
/// ```
pub fn restore_queue_entry(queue: &mut Queue, number: u16, bytes: &[u8]) -> bool
    ensures state { queue.new ≡ unwrap_or (queue_put queue.old number bytes.now) queue.old }
    ensures reported { result ≡ is_some (queue_put queue.old number bytes.now) }
{
    if number == 0 {
        return restore_next(queue, bytes);
    }
    if bytes.is_empty() {
        return true;
    }
    if usize::from(number - 1) < PLACES {
        restore_command(queue, bytes)
    } else {
        restore_result(queue, bytes)
    }
}

/// Puts the next ticket back, and the greatest one that was handed over.
fn restore_next(queue: &mut Queue, bytes: &[u8]) -> bool
    ensures state { queue.new ≡ unwrap_or (next_put queue.old bytes.now) queue.old }
    ensures reported { result ≡ is_some (next_put queue.old bytes.now) }
{
    let handed = match bytes.len() {
        NEXT_SIZE => None,
        BOTH_SIZE => Some(LittleEndian::read_u32(&bytes[NEXT_SIZE..])),
        _ => return false,
    };
    let next = LittleEndian::read_u64(bytes);
    if !queue.set_next(next) {
        return false;
    }
    // without it, each waiting command may have been handed over
    queue.set_handed(handed.unwrap_or(next.saturating_sub(1) as u32));
    true
}

/// Puts a waiting command back.
fn restore_command(queue: &mut Queue, bytes: &[u8]) -> bool
    ensures state { queue.new ≡ unwrap_or (command_put queue.old (spelled_command bytes.now)) queue.old }
    ensures reported { result ≡ is_some (command_put queue.old (spelled_command bytes.now)) }
{
    if bytes.len() < COMMAND_HEAD {
        return false;
    }
    queue.restore_waiting(WaitingCommand {
        ticket: LittleEndian::read_u32(bytes),
        class: LittleEndian::read_u16(&bytes[4..]),
        instance: LittleEndian::read_u32(&bytes[6..]),
        service: bytes[10],
        data: &bytes[COMMAND_HEAD..],
        reply_limit: LittleEndian::read_u16(&bytes[11..]),
    })
}

/// Puts a result back.
fn restore_result(queue: &mut Queue, bytes: &[u8]) -> bool
    ensures state { queue.new ≡ unwrap_or (result_put queue.old (spelled_result bytes.now)) queue.old }
    ensures reported { result ≡ is_some (result_put queue.old (spelled_result bytes.now)) }
{
    if bytes.len() < RESULT_HEAD {
        return false;
    }
    queue.restore_result(CommandResult {
        ticket: LittleEndian::read_u32(bytes),
        class: LittleEndian::read_u16(&bytes[4..]),
        instance: LittleEndian::read_u32(&bytes[6..]),
        status: bytes[10],
        data: &bytes[RESULT_HEAD..],
    })
}
