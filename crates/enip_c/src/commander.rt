//! The functions of a commander: commands that are executed once, even if connections are lost.

ghost use Rattle.std.specs.Prelude.{◌≡◌, ◌≤◌, ◌<◌, length, Some, None, option_map};
ghost use Rattle.std.specs.Option.{option_copied};
ghost use Rattle.cip_commander.specs.CommanderRule.{commander_at, resume_refusal};
ghost use Rattle.cip_commander.specs.Outcome.{outcome_in};
ghost use Rattle.cip_commander.specs.Withdrawing.{withdrawing_in};
ghost use Rattle.enip_c.specs.CommanderCalls.{command_status, IsResumedStatus, IsGiven, IsGivenKept, message_kept};
ghost use Rattle.enip_c.specs.CommanderCalls.{request_kept, HasValuesKept, returned_outcome, IsWithin, IsReceived};
ghost use Rattle.enip_c.specs.CommanderCalls.{IsReceivedKept, IsAbandoned, IsAbandonedKept, withdrawal_kept};
ghost use Rattle.enip_c.specs.CommanderCalls.{returned_withdrawing, IsWithdrawingWithin, IsWithdrawalReceived};
ghost use Rattle.enip_c.specs.CommanderCalls.{IsWithdrawalReceivedKept};
ghost use Rattle.enip_c.specs.Kept.{IsLive};
ghost use Rattle.enip_c.specs.Buffer.{status_number, returned_bytes, IsMadeStatus};

use crate::buffer::{copy_front, return_bytes};
use crate::client::general_in;
use crate::kept_commander::KeptCommander;
use crate::status::Status;
use cip_bytes::protocol::UNCONNECTED_LIMIT;
use cip_commander::{
    CommandOutcome, CommandRefused, Commander, WithdrawRequest, WithdrawalOutcome,
};
use std::alloc::Global;

/// What a reply says about the pending command: `enip_outcome` of `enip.h`.
#[repr(C)]
#[derive(Clone, Copy, Debug)]
pub struct CCommandOutcome {
    /// The number of bytes in the buffer that are the reply to the embedded request.
    pub reply: usize,
    /// What it says: 0 no command is pending, 1 the command is done, 2 it is still pending at the device, 3 it is
    /// refused, 4 the bytes are not a reply to a command, 5 it is in doubt, 6 it was withdrawn, 7 the device has a later
    /// command, 8 the device is in another life.
    pub kind: u32,
    /// The general status of the reply to the embedded request or of the refusal, otherwise 0.
    pub general: u32,
}

/// Makes a commander without a pending command. Allocates all the memory that it will ever need.
#[unsafe(no_mangle)]
pub extern "C" fn enip_core_once_new(
    alloc: Global,
    kept: &mut KeptCommander,
    life: u64,
    originator: u64,
    last_number: u32,
) -> u32
    ensures status { IsMadeStatus result }
    ensures made { result ≡ status_number Status.Done
        → kept.new.value ≡ Some (commander_at life originator last_number None) }
    ensures unchanged { (result ≡ status_number Status.Done → ⊥) → kept.new.value ≡ kept.old.value }
{
    let Ok(boxed) = Box::new(alloc, Commander::new(life, originator, last_number)) else {
        return Status::Memory.number();
    };
    *kept = KeptCommander::of(boxed);
    Status::Done.number()
}

/// Makes the commander that had these values, with this request pending. Allocates all the memory that it will ever
/// need.
#[unsafe(no_mangle)]
pub extern "C" fn enip_core_once_resume(
    alloc: Global,
    kept: &mut KeptCommander,
    life: u64,
    originator: u64,
    last_number: u32,
    request: &[u8],
) -> u32
    ensures status { IsResumedStatus (resume_refusal (Some request.now)) result }
    ensures made { result ≡ status_number Status.Done
        → kept.new.value ≡ Some (commander_at life originator last_number (Some request.now)) }
    ensures unchanged { (result ≡ status_number Status.Done → ⊥) → kept.new.value ≡ kept.old.value }
{
    let commander = match Commander::resume(life, originator, last_number, Some(request)) {
        Ok(commander) => commander,
        Err(why) => return status_of(why).number(),
    };
    let Ok(boxed) = Box::new(alloc, commander) else {
        return Status::Memory.number();
    };
    *kept = KeptCommander::of(boxed);
    Status::Done.number()
}

/// Frees a commander.
#[unsafe(no_mangle)]
pub extern "C" fn enip_core_once_free(alloc: Global, kept: &mut KeptCommander)
    requires { IsLive kept.old.value }
    ensures { kept.new.value ≡ None }
{
    drop(kept.take(alloc));
}

fn status_of(why: CommandRefused) -> Status
    ensures { result ≡ command_status why }
{
    match why {
        CommandRefused::Pending => Status::Waiting,
        CommandRefused::NotARequest => Status::Request,
        CommandRefused::TooLong => Status::LongRequest,
        CommandRefused::NumbersExhausted => Status::Numbers,
    }
}

/// Takes a command with the next number, and writes its message.
#[unsafe(no_mangle)]
pub extern "C" fn enip_core_once_command(
    alloc: Global,
    kept: &mut KeptCommander,
    request: &[u8],
    buffer: &mut [u8],
    count: &mut usize,
) -> u32
    requires { IsLive kept.old.value }
    ensures small { length buffer.old < UNCONNECTED_LIMIT → result ≡ status_number Status.Room }
    ensures kept { length buffer.old < UNCONNECTED_LIMIT → kept.new.value ≡ kept.old.value }
    ensures count { length buffer.old < UNCONNECTED_LIMIT → count.new ≡ count.old }
    ensures buffer { length buffer.old < UNCONNECTED_LIMIT → buffer.new ≡ buffer.old }
    ensures given { UNCONNECTED_LIMIT ≤ length buffer.old
        → IsGivenKept kept.old.value kept.new.value request.now result count.old count.new buffer.old buffer.new }
{
    if buffer.len() < UNCONNECTED_LIMIT {
        return Status::Room.number();
    }
    let mut commander = kept.take(alloc);
    let status = give(&mut commander, request, buffer, count);
    *kept = KeptCommander::of(commander);
    status
}

fn give(commander: &mut Commander, request: &[u8], buffer: &mut [u8], count: &mut usize) -> u32
    requires { UNCONNECTED_LIMIT ≤ length buffer.old }
    ensures { IsGiven commander.old commander.new request.now result count.old count.new buffer.old buffer.new }
{
    match commander.command(request) {
        Ok(message) => {
            *count = copy_front(message, buffer);
            Status::Done.number()
        }
        Err(why) => status_of(why).number(),
    }
}

/// Writes the message of the pending command again.
#[unsafe(no_mangle)]
pub extern "C" fn enip_core_once_resend(
    alloc: Global,
    kept: &mut KeptCommander,
    buffer: &mut [u8],
    count: &mut usize,
) -> u32
    requires { IsLive kept.old.value }
    ensures kept { kept.new.value ≡ kept.old.value }
    ensures returned { record { status = result; count = count.new; buffer = buffer.new }
        ≡ returned_bytes (message_kept kept.old.value) count.old buffer.old }
{
    let commander = kept.take(alloc);
    let status = return_pending(commander.pending(), buffer, count);
    *kept = KeptCommander::of(commander);
    status
}

/// Writes the embedded request of the pending command.
#[unsafe(no_mangle)]
pub extern "C" fn enip_core_once_request(
    alloc: Global,
    kept: &mut KeptCommander,
    buffer: &mut [u8],
    count: &mut usize,
) -> u32
    requires { IsLive kept.old.value }
    ensures kept { kept.new.value ≡ kept.old.value }
    ensures returned { record { status = result; count = count.new; buffer = buffer.new }
        ≡ returned_bytes (request_kept kept.old.value) count.old buffer.old }
{
    let commander = kept.take(alloc);
    let status = return_pending(commander.pending_request(), buffer, count);
    *kept = KeptCommander::of(commander);
    status
}

/// Copies bytes to the buffer if a command is pending.
fn return_pending(bytes: Option<&[u8]>, buffer: &mut [u8], count: &mut usize) -> u32
    ensures { record { status = result; count = count.new; buffer = buffer.new }
        ≡ returned_bytes (option_copied bytes.entry) count.old buffer.old }
{
    match bytes {
        Some(bytes) => return_bytes(bytes, buffer, count),
        None => Status::Absent.number(),
    }
}

/// The life of the device that the commands are for, who gives them, and the number that the last one took.
#[unsafe(no_mangle)]
pub extern "C" fn enip_core_once_values(
    alloc: Global,
    kept: &mut KeptCommander,
    life: &mut u64,
    originator: &mut u64,
    last_number: &mut u32,
)
    requires { IsLive kept.old.value }
    ensures kept { kept.new.value ≡ kept.old.value }
    ensures values { HasValuesKept kept.old.value life.new originator.new last_number.new }
{
    let commander = kept.take(alloc);
    *life = commander.life();
    *originator = commander.originator();
    *last_number = commander.last_number();
    *kept = KeptCommander::of(commander);
}

/// Takes a reply to the pending command's message.
#[unsafe(no_mangle)]
pub extern "C" fn enip_core_once_receive(
    alloc: Global,
    kept: &mut KeptCommander,
    reply: &[u8],
    buffer: &mut [u8],
    outcome: &mut CCommandOutcome,
) -> u32
    requires { IsLive kept.old.value }
    ensures small { length buffer.old < length reply.now → result ≡ status_number Status.Room }
    ensures kept { length buffer.old < length reply.now → kept.new.value ≡ kept.old.value }
    ensures buffer { length buffer.old < length reply.now → buffer.new ≡ buffer.old }
    ensures outcome { length buffer.old < length reply.now → outcome.new ≡ outcome.old }
    ensures done { length reply.now ≤ length buffer.old → result ≡ status_number Status.Done }
    ensures received { length reply.now ≤ length buffer.old
        → IsReceivedKept kept.old.value kept.new.value reply.now outcome.new buffer.old buffer.new }
{
    if buffer.len() < reply.len() {
        return Status::Room.number();
    }
    let mut commander = kept.take(alloc);
    *outcome = receive(&mut commander, reply, buffer);
    *kept = KeptCommander::of(commander);
    Status::Done.number()
}

fn receive(commander: &mut Commander, reply: &[u8], buffer: &mut [u8]) -> CCommandOutcome
    requires { length reply.now ≤ length buffer.old }
    ensures { IsReceived commander.old commander.new reply.now result buffer.old buffer.new }
{
    return_outcome(commander.receive(reply), buffer)
}

fn return_outcome(outcome: CommandOutcome<'_>, buffer: &mut [u8]) -> CCommandOutcome
    requires { IsWithin (length buffer.old) (outcome_in outcome) }
    ensures { record { outcome = result; buffer = buffer.new }
        ≡ returned_outcome (outcome_in outcome.entry) buffer.old }
{
    match outcome {
        CommandOutcome::NotPending => without_reply(0, 0),
        CommandOutcome::Done(reply) => CCommandOutcome {
            reply: copy_front(reply, buffer),
            kind: 1,
            general: general_in(reply),
        },
        CommandOutcome::StillPending => without_reply(2, 0),
        CommandOutcome::Refused(status) => without_reply(3, status),
        CommandOutcome::Malformed => without_reply(4, 0),
        CommandOutcome::InDoubt => without_reply(5, 0),
        CommandOutcome::Withdrawn => without_reply(6, 0),
    }
}

fn without_reply(kind: u32, general: u8) -> CCommandOutcome
    ensures { result ≡ record { reply = 0; kind = kind; general = general } }
{
    CCommandOutcome {
        reply: 0,
        kind,
        general: u32::from(general),
    }
}

/// Writes Withdraw of the pending command.
#[unsafe(no_mangle)]
pub extern "C" fn enip_core_once_withdraw(
    alloc: Global,
    kept: &mut KeptCommander,
    buffer: &mut [u8],
    count: &mut usize,
) -> u32
    requires { IsLive kept.old.value }
    ensures kept { kept.new.value ≡ kept.old.value }
    ensures returned { record { status = result; count = count.new; buffer = buffer.new }
        ≡ returned_bytes (withdrawal_kept kept.old.value) count.old buffer.old }
{
    let commander = kept.take(alloc);
    let status = return_withdrawal(commander.withdrawal(), buffer, count);
    *kept = KeptCommander::of(commander);
    status
}

/// Copies Withdraw to the buffer if a command is pending.
fn return_withdrawal(request: Option<WithdrawRequest>, buffer: &mut [u8], count: &mut usize) -> u32
    ensures { record { status = result; count = count.new; buffer = buffer.new }
        ≡ returned_bytes (option_map (λ r. r.items) request) count.old buffer.old }
{
    let Some(request) = request else {
        return Status::Absent.number();
    };
    return_bytes(request.as_slice(), buffer, count)
}

/// Takes a reply to Withdraw of the pending command.
#[unsafe(no_mangle)]
pub extern "C" fn enip_core_once_withdrawn(
    alloc: Global,
    kept: &mut KeptCommander,
    reply: &[u8],
    buffer: &mut [u8],
    outcome: &mut CCommandOutcome,
) -> u32
    requires { IsLive kept.old.value }
    ensures small { length buffer.old < length reply.now → result ≡ status_number Status.Room }
    ensures kept { length buffer.old < length reply.now → kept.new.value ≡ kept.old.value }
    ensures buffer { length buffer.old < length reply.now → buffer.new ≡ buffer.old }
    ensures outcome { length buffer.old < length reply.now → outcome.new ≡ outcome.old }
    ensures done { length reply.now ≤ length buffer.old → result ≡ status_number Status.Done }
    ensures received { length reply.now ≤ length buffer.old
        → IsWithdrawalReceivedKept kept.old.value kept.new.value reply.now outcome.new buffer.old buffer.new }
{
    if reply.len() > buffer.len() {
        return Status::Room.number();
    }
    let mut commander = kept.take(alloc);
    *outcome = receive_withdrawal(&mut commander, reply, buffer);
    *kept = KeptCommander::of(commander);
    Status::Done.number()
}

fn receive_withdrawal(commander: &mut Commander, reply: &[u8], buffer: &mut [u8]) -> CCommandOutcome
    requires { length reply.now ≤ length buffer.old }
    ensures { IsWithdrawalReceived commander.old commander.new reply.now result buffer.old buffer.new }
{
    return_withdrawing(commander.receive_withdrawal(reply), buffer)
}

fn return_withdrawing(outcome: WithdrawalOutcome<'_>, buffer: &mut [u8]) -> CCommandOutcome
    requires { IsWithdrawingWithin (length buffer.old) (withdrawing_in outcome) }
    ensures { record { outcome = result; buffer = buffer.new }
        ≡ returned_withdrawing (withdrawing_in outcome.entry) buffer.old }
{
    match outcome {
        WithdrawalOutcome::NotPending => without_reply(0, 0),
        WithdrawalOutcome::Done(answer) => CCommandOutcome {
            reply: copy_front(answer, buffer),
            kind: 1,
            general: general_in(answer),
        },
        WithdrawalOutcome::HandedOver => without_reply(2, 0),
        WithdrawalOutcome::Refused(status) => without_reply(3, status),
        WithdrawalOutcome::Malformed => without_reply(4, 0),
        WithdrawalOutcome::InDoubt => without_reply(5, 0),
        WithdrawalOutcome::Withdrawn => without_reply(6, 0),
        WithdrawalOutcome::Smaller => without_reply(7, 0x0c),
        WithdrawalOutcome::OtherLife => without_reply(8, 0x10),
    }
}

/// Gives up the pending command.
#[unsafe(no_mangle)]
pub extern "C" fn enip_core_once_abandon(alloc: Global, kept: &mut KeptCommander) -> u32
    requires { IsLive kept.old.value }
    ensures { IsAbandonedKept kept.old.value kept.new.value result }
{
    let mut commander = kept.take(alloc);
    let status = abandon(&mut commander);
    *kept = KeptCommander::of(commander);
    status
}

fn abandon(commander: &mut Commander) -> u32
    ensures { IsAbandoned commander.old commander.new result }
{
    if commander.abandon() {
        Status::Done.number()
    } else {
        Status::Absent.number()
    }
}
