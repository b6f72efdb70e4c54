//! `--once`: the life of a ledger, and which command is sent to it.

ghost use Rattle.std.specs.Prelude.{◌≡◌, IfOk, IfErr, IfSome, OnOk, OnErr, IsSome};
ghost use Rattle.std.specs.Option.{option_copied};
ghost use Rattle.cip_commander.specs.CommanderRule.{CommanderState};
ghost use Rattle.cip_message.specs.Reply.{reply_of};
ghost use Rattle.enip_commands.specs.Once.{life_of, plan_of, submitted, begun, checked};

use crate::once_refusal::OnceRefusal;
use cip_commander::Commander;
use cip_message::{ReplyView, reply_service};
use thiserror::Error;

/// Get_Attribute_Single. (Volume 1, common services.)
const GET_ATTRIBUTE_SINGLE: u8 = 0x0e;

/// Get_Attribute_Single of the life of a ledger: class 0x65, instance 1, attribute 3.
pub const LIFE_REQUEST: [u8; 8] = [GET_ATTRIBUTE_SINGLE, 3, 0x20, 0x65, 0x24, 1, 0x30, 3];

/// Why a reply has no life.
#[derive(Clone, Copy, Debug, PartialEq, Eq, Error)]
pub enum LifeFault {
    /// The device has no ledger: the general status of its reply, and the first additional word or 0.
    #[error("the device has no command ledger")]
    NoLedger(u8, u16),
    /// Not a reply to Get_Attribute_Single with a ULINT.
    #[error("the reply is not the life of a command ledger")]
    Malformed,
}

/// The life in the reply to `LIFE_REQUEST`.
///
/// # Errors
///
/// `NoLedger` if the device refused, `Malformed` if it replied something else.
pub fn read_life(reply: &[u8]) -> Result<u64, LifeFault>
    ensures { result ≡ life_of (reply_of reply.now) }
{
    let Ok(reply) = ReplyView::read(reply) else {
        return Err(LifeFault::Malformed);
    };
    if reply.service != reply_service(GET_ATTRIBUTE_SINGLE) {
        return Err(LifeFault::Malformed);
    }
    if reply.status != 0 {
        let extended = reply.additional_word(0).unwrap_or(0);
        return Err(LifeFault::NoLedger(reply.status, extended));
    }
    match <[u8; 8]>::try_from(reply.data) {
        Ok(bytes) => Ok(u64::from_le_bytes(bytes)),
        Err(_) => Err(LifeFault::Malformed),
    }
}

/// What the caller wants of the pending command, if there is one.
#[derive(Clone, Copy, Debug, PartialEq, Eq)]
pub enum PendingChoice {
    /// To send it again, if the request is the same.
    Same,
    /// To send it again, whatever the request.
    Send,
    /// To give it up, and send the request as a new command.
    Abandon,
}

/// What is sent.
#[derive(Clone, Copy, Debug, PartialEq, Eq)]
enum OncePlan {
    /// The pending command, with its number.
    Resend,
    /// The request, with the next number.
    Submit,
}

/// The refusals that do not depend on the device, for a check before it is asked.
///
/// # Errors
///
/// The first of these: `NonePending`, `Differs`, `Command`.
pub fn check_once(
    commander: &Commander,
    request: &[u8],
    choice: PendingChoice,
) -> Result<(), OnceRefusal>
    ensures { result ≡ checked commander.now request.now choice }
{
    if let OncePlan::Submit = plan(commander.pending_request(), request, choice)? {
        submitted(commander, request, commander.life())?;
    }
    Ok(())
}

/// Makes the command to send to a device in this life the pending one: the one that is pending, or the request as a new
/// command. A new life is taken over only with a new command.
///
/// # Errors
///
/// The first of these: `NonePending`, `Differs`, `OtherLife`, `Command`. Nothing has changed.
pub fn begin_once(
    commander: &mut Commander,
    request: &[u8],
    life: u64,
    choice: PendingChoice,
) -> Result<(), OnceRefusal>
    ensures begun { OnOk result (begun commander.old request.now life choice ≡ Ok commander.new) }
    ensures pending { OnOk result (IsSome commander.new.pending × (commander.new.life ≡ life)) }
    ensures refused { IfErr result (λ why. begun commander.old request.now life choice ≡ Err why) }
    ensures unchanged { OnErr result (commander.new ≡ commander.old) }
{
    match plan(commander.pending_request(), request, choice)? {
        OncePlan::Resend => {
            if commander.life() != life {
                return Err(OnceRefusal::OtherLife);
            }
        }
        OncePlan::Submit => *commander = submitted(commander, request, life)?,
    }
    Ok(())
}

/// What is sent, or why nothing is.
fn plan(
    pending: Option<&[u8]>,
    request: &[u8],
    choice: PendingChoice,
) -> Result<OncePlan, OnceRefusal>
    ensures { result ≡ plan_of (option_copied pending.entry) request.now choice }
{
    match (pending, choice) {
        (_, PendingChoice::Abandon) | (None, PendingChoice::Same) => Ok(OncePlan::Submit),
        (None, PendingChoice::Send) => Err(OnceRefusal::NonePending),
        (Some(pending), PendingChoice::Same) if pending != request => Err(OnceRefusal::Differs),
        (Some(_), PendingChoice::Same | PendingChoice::Send) => Ok(OncePlan::Resend),
    }
}

/// The commander in a life, with the request as its next command. A pending one is given up.
fn submitted(commander: &Commander, request: &[u8], life: u64) -> Result<Commander, OnceRefusal>
    ensures { result ≡ submitted commander.now request.now life }
{
    let mut renewed = Commander::new(life, commander.originator(), commander.last_number());
    match renewed.command(request) {
        Ok(_) => {}
        Err(why) => return Err(OnceRefusal::Command(why)),
    }
    Ok(renewed)
}
