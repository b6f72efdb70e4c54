//! Replies of the ledger.
ghost use Rattle.std.specs.Prelude.{◌≡◌, ◌≤◌, ◌+◌, ◌∷◌, ◌++◌, length, slice_set};
ghost use Rattle.cip_ledger.specs.Status.{status_number};
ghost use Rattle.cip_ledger.specs.Services.{reply_to, refusal, success, within, size_fault};

use crate::slot::KEPT_LIMIT;
use crate::status::Status;
use cip_bytes::append;
use cip_message::{DO_ONCE, reply_service};
use cip_objects::{REPLY_LIMIT, ReplyBuf};

/// The bytes of a reply before its data.
pub(crate) const HEAD_SIZE: usize = 4;

/// The state byte of a command that is done.
pub(crate) const DONE: u8 = 0;

/// The state byte of a command that is pending: it is in the queue of the router.
pub(crate) const PENDING: u8 = 1;

/// The state byte of a command in doubt.
pub(crate) const IN_DOUBT: u8 = 2;

/// The state byte of a command that was withdrawn: it is never executed.
pub(crate) const WITHDRAWN: u8 = 3;

/// The smallest reply limit at which a new command is executed, in bytes: the longest reply to it fits.
pub(crate) const LONGEST_DONE: usize = HEAD_SIZE + 1 + KEPT_LIMIT;

/// Begins a reply without data to a request of this service.
pub(crate) fn begin(service: u8, status: Status, reply: &mut ReplyBuf)
    ensures { reply.new.items ≡ reply_to service (refusal status) }
{
    reply.clear();
    reply.push(reply_service(service));
    reply.push(0);
    reply.push(status.number());
    reply.push(0);
}

/// Puts the status into a reply that was begun.
pub(crate) fn set_status(status: Status, reply: &mut ReplyBuf)
    requires { 4 ≤ length reply.old.items }
    ensures { reply.new.items ≡ slice_set reply.old.items 2 (status_number status) }
{
    reply.as_mut_slice()[2] = status.number();
}

/// Replies with data of two parts, if they fit the reply limit.
pub(crate) fn answer(service: u8, front: &[u8], rest: &[u8], max_size: usize, reply: &mut ReplyBuf)
    requires parts { length front.now + length rest.now ≤ REPLY_LIMIT }
    requires max_size_from { 8 ≤ max_size }
    requires max_size_to { max_size ≤ REPLY_LIMIT }
    ensures reply { reply.new.items ≡ reply_to service (within max_size (success (front.now ++ rest.now))) }
    ensures fits { length reply.new.items ≤ max_size }
{
    // a reply is never longer than the reply limit: 0x11 (objects)
    if max_size < HEAD_SIZE + front.len() + rest.len() {
        begin(service, Status::ReplyDataTooLarge, reply);
        return;
    }
    begin(service, Status::Success, reply);
    append(reply, front);
    append(reply, rest);
}

/// What is wrong with data that do not have exactly this many bytes.
pub(crate) fn size_fault(size: usize, data: &[u8]) -> Option<Status>
    ensures { result ≡ size_fault size «data».now }
{
    // not enough data: 0x13; too much: 0x15 (objects)
    if data.len() < size {
        return Some(Status::NotEnoughData);
    }
    if size < data.len() {
        return Some(Status::TooMuchData);
    }
    None
}

/// Replies that a command is done: writes the head, the state and the reply that is kept over that reply.
pub(crate) fn write_done(kept: &[u8], reply: &mut ReplyBuf)
    requires fits { length kept.now ≤ KEPT_LIMIT }
    requires size { length reply.old.items ≡ length kept.now }
    ensures reply { reply.new.items ≡ reply_to DO_ONCE (success (DONE ∷ kept.now)) }
    ensures fits { length reply.new.items ≤ LONGEST_DONE }
{
    let front = [reply_service(DO_ONCE), 0, Status::Success.number(), 0, DONE];
    append(reply, &front);
    overwrite(reply.as_mut_slice(), &front, kept);
}

/// Writes two parts over bytes that are as many.
fn overwrite(text: &mut [u8], front: &[u8], rest: &[u8])
    requires { length text.old ≡ length front.now + length rest.now }
    ensures { text.new ≡ front.now ++ rest.now }
{
    let (start, end) = text.split_at_mut(front.len());
    start.copy_from_slice(front);
    end.copy_from_slice(rest);
}
